//! What runs commands.
ghost use Rattle.std.specs.Prelude.{OnOk, OnErr};
ghost use Rattle.dym_base.specs.declared.command.Command.{Command};
ghost use Rattle.dym_commands.specs.Requests.{asks_borrowed};

use crate::request::Request;

/// Runs commands. Each is handed over as what is asked, with the bytes of a write where they stand: none are copied.
pub trait Runner {
    /// By what commands are run: those of an object, by the way of its supply.
    type Context;

    /// Why a command wasn't run.
    type Fail: Drop;

    /// It is fit for a command more.
    ghost ready: { Self → Type 0 };

    /// It was the one, ran the command, and is the other.
    ghost does: { Self → Command → Self → Type 0 };

    /// It was the one, couldn't run a command, and is the other.
    ghost stays: { Self → Self → Type 0 };

    /// Runs the command that is asked. The bytes of a write are borrowed, so that they aren't copied into a command.
    fn run(&mut self, context: &Self::Context, request: Request<&[u8]>) -> Result<(), Self::Fail>
        requires { ready self.old }
        ensures does { OnOk result (does self.old (asks_borrowed request.entry) self.new) }
        ensures stays { OnErr result (stays self.old self.new) };
}
