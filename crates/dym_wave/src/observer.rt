//! Viewers that look while others publish.
ghost use Rattle.std.specs.Prelude.{◌≡◌, true};
ghost use Rattle.dym_wave.specs.Observations.{LookedOn};

use dym_prune::Ear;
use dym_view::Viewer;
use std::sync::Wait;
use std::thread;

/// Looks at all views in turn, again and again, until the stop was asked for. It leaves the processor to other threads after each round.
pub(crate) fn observe<R: Wait>(rt: &R, viewers: &mut Vec<Viewer>, ear: &mut Ear)
    ensures heard { ear.new.heard ≡ true }
    ensures looked { LookedOn viewers.old.items viewers.new.items }
{
    for _ in rt.forever() {
        observe_once(viewers);
        if ear.asked() {
            return;
        }
        thread::yield_now();
    }
    unreachable!()
}

/// Looks at each view once.
fn observe_once(viewers: &mut Vec<Viewer>)
    ensures { LookedOn viewers.old.items viewers.new.items }
{
    for place in 0..viewers.len() {
        viewers[place].look();
    }
}
