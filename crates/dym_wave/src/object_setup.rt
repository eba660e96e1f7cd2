//! How the object of a work is opened.
ghost use Rattle.std.specs.Prelude.{◌≡◌, Bool};
ghost use Rattle.dym_wave.specs.States.{CanStart, CanTakeBerth, IsFreshKeep, IsState, origin_over, ran_by, state_origin};

use crate::work_state::{WorkSpec, WorkState};
use dym_chain::SlotKeep;
use dym_commands::Replies;
use dym_object::{Object, Turn};
use dym_quota::Berth;
use std::sync::Wait;

/// The state of a work once its object is open. Where memory is wanting it stays as it is.
pub(crate) fn open_object<R: Wait>(state: WorkState<R>, spec: &WorkSpec) -> (WorkState<R>, ())
    requires { CanStart state }
    ensures state { (views : Bool) → IsState spec.now views state
        → IsState spec.now views result.0 }
    ensures origin { state_origin spec.now.version result.0 ≡ state_origin spec.now.version state }
    ensures ran { ran_by spec.now.commands result.0 ≡ ran_by spec.now.commands state }
{
    match state {
        WorkState::Waiting { berth, keep } => (open_over(spec, berth, keep), ()),
        started => (started, ()),
    }
}

/// Opens the object of a work over a berth and a keep, with room for all replies, and for all that reads are told. Where memory is
/// wanting, the work still waits.
fn open_over<R: Wait>(spec: &WorkSpec, berth: Berth<R>, keep: SlotKeep) -> WorkState<R>
    requires berth { CanTakeBerth berth }
    requires keep { IsFreshKeep keep }
    ensures state { (views : Bool) → IsState spec.now views result }
    ensures origin { state_origin spec.now.version result
        ≡ origin_over spec.now.version berth keep }
    ensures ran { ran_by spec.now.commands result ≡ 0 }
{
    let commands = &spec.commands;
    let Ok(replies) = Replies::with_room(spec.alloc, commands.len(), commands.read_bytes()) else {
        return WorkState::Waiting { berth, keep };
    };
    match Object::open_as(spec.alloc, berth, keep, spec.version) {
        Ok(object) => WorkState::Running {
            turn: Turn::new(spec.alloc, object),
            replies,
        },
        Err((_, berth, keep)) => WorkState::Waiting { berth, keep },
    }
}
