//! The commands of one object.
ghost use Rattle.std.specs.Prelude.{◌≡◌, ◌==◌, ◌+◌, ◌<◌, ◌≤◌, ℕ, [], ◌∷◌, ◌++◌, All, length, map, sum_by, slice_get, IfSome, IfErr, OnOk, OnErr, vec_len, vec_capacity};
ghost use Rattle.dym_base.specs.declared.limits.TheConstants.{MOST_COMMANDS};
ghost use Rattle.dym_commands.specs.Requests.{asks};
ghost use Rattle.dym_commands.specs.Reads.{read_room};
ghost use Rattle.dym_commands.specs.Pieces.{behind, commands_in, Follow, IsAt};

use crate::command_block::CommandBlock;
use crate::hex_bytes::HexBytes;
use crate::request::Request;
use crate::runner::Runner;
use std::alloc::{AllocError, Global};
use std::marker::Model;

/// The commands of one object, in the order in which they were pushed and appended. What is appended stays in the pieces that it
/// came in, so that no command is copied. Nothing is borrowed or shared, so that they move to a worker whole.
#[derive(Drop)]
pub struct Commands {
    first: CommandBlock,
    /// The pieces behind the first.
    others: Vec<FollowingBlock>,
    len: usize,
    read_bytes: usize,
}

/// A piece behind others, and how many commands stand before it.
#[derive(Drop)]
pub(crate) struct FollowingBlock {
    pub start: usize,
    pub piece: CommandBlock,
}

impl Model for Commands {
    ghost use Rattle.std.specs.Prelude.{List};
    ghost use Rattle.dym_base.specs.declared.command.Command.{Command};
    ghost use Rattle.dym_commands.specs.Pieces.{all_of, AreWhole};

    ghost Value = { List Command };

    ghost view = { λ c. all_of c.first c.others.items };

    ghost invariant = { λ c. AreWhole c.first c.others.items c.len c.read_bytes };
}

impl Commands {
    /// No commands.
    pub fn new(alloc: Global) -> Commands
        ensures { result ≡ [] }
    {
        Commands {
            first: CommandBlock::new(alloc),
            others: Vec::new(alloc),
            len: 0,
            read_bytes: 0,
        }
    }

    /// How many they are, which is at most as many as a script has.
    pub fn len(&self) -> usize
        ensures length { result ≡ length self.now }
        ensures few { result ≤ MOST_COMMANDS }
    {
        self.len
    }

    /// Whether they are none.
    pub fn is_empty(&self) -> bool
        ensures { result ≡ (length self.now == 0) }
    {
        self.len == 0
    }

    /// How many bytes the replies to its reads have at most, all together.
    pub fn read_bytes(&self) -> usize
        ensures { result ≡ sum_by read_room self.now }
    {
        self.read_bytes
    }

    /// Appends what a line asks. Only memory can be wanting.
    #[inline(always)]
    pub fn push(&mut self, asked: &Request<HexBytes<'_>>) -> Result<(), AllocError>
        requires { length self.old < MOST_COMMANDS }
        ensures pushed { OnOk result (self.new ≡ self.old ++ asks asked.now ∷ []) }
        ensures same { OnErr result (self.new ≡ self.old) }
    {
        match self.others.last_mut() {
            Some(last) => last.piece.push(asked)?,
            None => self.first.push(asked)?,
        }
        self.len += 1;
        self.read_bytes += asked.read_room();
        Ok(())
    }

    /// Appends other commands. Only memory can be wanting: they come back then.
    pub fn append(&mut self, other: Commands) -> Result<(), (AllocError, Commands)>
        requires { length self.old + length other ≤ MOST_COMMANDS }
        ensures appended { OnOk result (self.new ≡ self.old ++ other) }
        ensures same { OnErr result (self.new ≡ self.old) }
        ensures back { IfErr result (λ e. e.1 ≡ other) }
    {
        if other.is_empty() {
            return Ok(());
        }
        if self.is_empty() {
            *self = other;
            return Ok(());
        }
        if let Err(why) = self.others.reserve(1 + other.others.len()) {
            return Err((why, other));
        }
        let Commands {
            first,
            others,
            len,
            read_bytes,
        } = other;
        self.others.push_reserved(FollowingBlock {
            start: self.len,
            piece: first,
        });
        append_behind(&mut self.others, self.len, others);
        self.len += len;
        self.read_bytes += read_bytes;
        Ok(())
    }

    /// Has a command run, which counts from 0 on.
    #[inline(always)]
    pub fn run<R: Runner>(
        &self,
        k: usize,
        context: &R::Context,
        runner: &mut R,
    ) -> Result<(), R::Fail>
        requires within { k < length self.now }
        requires ready { R.ready runner.old }
        ensures does { OnOk result (IfSome (slice_get self.now k)
            (λ command. R.does runner.old command runner.new)) }
        ensures stays { OnErr result (R.stays runner.old runner.new) }
    {
        if k < self.first.len() {
            return self.first.run(k, context, runner);
        }
        let later = later_at(&self.others, k);
        later.piece.run(k - later.start, context, runner)
    }
}

/// Appends pieces, behind so many commands more. There is room for them.
fn append_behind(list: &mut Vec<FollowingBlock>, before: usize, pieces: Vec<FollowingBlock>)
    requires room { vec_len list.old + vec_len pieces ≤ vec_capacity list.old }
    requires before { before ≤ MOST_COMMANDS }
    requires starts { All (λ later. later.start ≤ MOST_COMMANDS) pieces.items }
    ensures { list.new.items ≡ list.old.items ++ map (behind before) pieces.items }
{
    for later in pieces {
        list.push_reserved(FollowingBlock {
            start: before + later.start,
            piece: later.piece,
        });
    }
}

/// The piece in which a command stands.
fn later_at(others: &[FollowingBlock], k: usize) -> &FollowingBlock
    requires { (n : ℕ) × Follow n others.now × (n ≤ k) × (k < n + length (commands_in others.now)) }
    ensures { (n : ℕ) → Follow n others.now → n ≤ k → k < n + length (commands_in others.now) → IsAt n others.now k result.now }
{
    let reached = others.partition_point(|later| later.start <= k);
    &others[reached - 1]
}
