//! The run in order.
ghost use Rattle.std.specs.Prelude.{IfOk, IfErr};
ghost use Rattle.warp_run.specs.Ends.{IsEnd, FaultsFirstAt, IsTooLong};
ghost use Rattle.warp_run.specs.Failures.{MatchFailure};

use crate::finished::{Failure, Finished};
use crate::progress;
use std::alloc::Global;
use warp_base::Simulation;
use warp_worker::Counts;

/// Runs a model in order, one event after the other, up to `end`, whose events are run too.
pub fn run_in_order<M: Simulation>(
    alloc: Global,
    model: &M,
    end: u64,
) -> Result<Finished<M::State>, Failure>
    ensures ok { IfOk result (λ f. IsEnd M.Payload.words (M.behaviour model.now)
        (M.processes model.now) end f.states.items f.committed) }
    ensures failure { IfErr result (MatchFailure
        (FaultsFirstAt M.Payload.words (M.behaviour model.now) (M.processes model.now) end)
        (IsTooLong M.Payload.words (M.behaviour model.now) (M.processes model.now) end)) }
{
    let mut progress = progress::start(alloc, model)?;
    let mut drafts = Vec::new(alloc);
    for committed in 0..u64::MAX {
        match progress.queue.pop_until(end) {
            Some(event) => progress.run_event(alloc, model, &event, &mut drafts)?,
            None => {
                return Ok(Finished {
                    states: progress.states,
                    committed,
                    counts: Counts {
                        ran: committed,
                        ..Counts::NONE
                    },
                    rounds: 0,
                });
            }
        }
    }
    Err(Failure::TooManyEvents)
}
