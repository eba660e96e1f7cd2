//! What is kept of a script while its lines are read.
ghost use Rattle.std.specs.Prelude.{◌≡◌, List, [], true, OnOk};
ghost use Rattle.dym_base.specs.Names.{is_name};
ghost use Rattle.dym_commands.specs.Requests.{asks};
ghost use Rattle.dym_script.specs.declared.script.Decl.{Decl};
ghost use Rattle.dym_script.specs.declared.script.Line.{Line};
ghost use Rattle.dym_script.specs.Keepers.{CanAsk, Declares, Asks};

use crate::script::Decl;
use dym_commands::{HexBytes, Request};
use std::alloc::{AllocError, Global};

/// Keeps of a script what it needs of it. It is handed each declaration and what each other line asks, in their order.
pub trait Keeper {
    /// It keeps what it needs of these declarations and of these lines that ask something.
    ghost keeps: { Self → List Decl → List Line → Type 0 };

    /// Nothing is kept yet.
    fn new(alloc: Global) -> Self
        ensures { keeps result [] [] };

    /// Keeps a declaration.
    fn declare(&mut self, alloc: Global, decl: &Decl) -> Result<(), AllocError>
        requires { is_name decl.now.name ≡ true }
        ensures { OnOk result (Declares (keeps self.old) (keeps self.new) decl.now) };

    /// Keeps what a line asks of the object in a place.
    fn ask(
        &mut self,
        alloc: Global,
        object: u32,
        asked: &Request<HexBytes<'_>>,
    ) -> Result<(), AllocError>
        requires { CanAsk (keeps self.old) object }
        ensures { OnOk result (Asks (keeps self.old) (keeps self.new) object (asks asked.now)) };
}
