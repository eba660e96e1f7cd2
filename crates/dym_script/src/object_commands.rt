//! The commands of one object.
ghost use Rattle.std.specs.Prelude.{◌≡◌, ◌<◌, length, IfOk};
ghost use Rattle.dym_script.specs.Scripts.{own, said};

use crate::script::Script;
use dym_base::Command;
use std::alloc::{AllocError, Global};

/// A copy of the commands of one object's lines, in the script's order.
#[tactic(auto, unfolding(crate::specs::Scripts::own))]
pub fn own_commands(alloc: Global, script: &Script, object: u32) -> Result<Vec<Command>, AllocError>
    requires { object < length script.now.objects.items }
    ensures { IfOk result (λ commands. commands.items ≡ own (said script.now) object) }
{
    let mut commands = Vec::new(alloc);
    for line in &script.lines {
        if line.object == object {
            commands.push(copied(&line.command)?)?;
        }
    }
    Ok(commands)
}

/// A copy of a command.
fn copied(command: &Command) -> Result<Command, AllocError>
    ensures { IfOk result (λ copy. copy ≡ command.now) }
{
    command.clone()
}
