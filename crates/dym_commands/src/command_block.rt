//! Commands that were pushed one behind the other.
ghost use Rattle.std.specs.Prelude.{◌≡◌, ◌<◌, ◌≤◌, [], ◌∷◌, ◌++◌, length, slice_get, IfSome, OnOk, OnErr};
ghost use Rattle.dym_base.specs.declared.limits.TheConstants.{MOST_COMMANDS};
ghost use Rattle.dym_commands.specs.Requests.{asks};

use crate::hex_bytes::HexBytes;
use crate::request::Request;
use crate::runner::Runner;
use crate::stored_command::{StoredCommand, Tables};
use std::alloc::{AllocError, Global};
use std::marker::Model;

/// Commands in the order in which they were pushed. Each is kept in 16 bytes, a write with its bytes beside them.
#[derive(Drop)]
pub(crate) struct CommandBlock {
    stored: Vec<StoredCommand>,
    tables: Tables,
}

impl Model for CommandBlock {
    ghost use Rattle.std.specs.Prelude.{List};
    ghost use Rattle.dym_base.specs.declared.command.Command.{Command};
    ghost use Rattle.dym_commands.specs.StoredCommands.{commands_of, AreFit};

    ghost Value = { List Command };

    ghost view = { λ c. commands_of c.tables c.stored.items };

    ghost invariant = { λ c. AreFit c.tables c.stored.items };
}

impl CommandBlock {
    /// No commands.
    pub fn new(alloc: Global) -> CommandBlock
        ensures { result ≡ [] }
    {
        CommandBlock {
            stored: Vec::new(alloc),
            tables: Tables::new(alloc),
        }
    }

    /// How many they are.
    pub fn len(&self) -> usize
        ensures length { result ≡ length self.now }
        ensures few { result ≤ MOST_COMMANDS }
    {
        self.stored.len()
    }

    /// Appends what a line asks. Only memory can be wanting.
    #[inline(always)]
    pub fn push(&mut self, asked: &Request<HexBytes<'_>>) -> Result<(), AllocError>
        requires { length self.old < MOST_COMMANDS }
        ensures pushed { OnOk result (self.new ≡ self.old ++ asks asked.now ∷ []) }
        ensures same { OnErr result (self.new ≡ self.old) }
    {
        self.stored.reserve(1)?;
        let stored = self.tables.store(asked)?;
        self.stored.push(stored)?;
        Ok(())
    }

    /// Has a command run, which counts from 0 on.
    #[inline(always)]
    pub fn run<R: Runner>(
        &self,
        k: usize,
        context: &R::Context,
        runner: &mut R,
    ) -> Result<(), R::Fail>
        requires within { k < length self.now }
        requires ready { R.ready runner.old }
        ensures does { OnOk result (IfSome (slice_get self.now k)
            (λ command. R.does runner.old command runner.new)) }
        ensures stays { OnErr result (R.stays runner.old runner.new) }
    {
        runner.run(context, self.tables.request(&self.stored[k]))
    }
}
