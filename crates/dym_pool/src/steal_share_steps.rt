//! What a worker does with the share of any worker.
ghost use Rattle.std.specs.Prelude.{◌≡◌, ◌<◌, IfOk};
ghost use Rattle.dym_pool.specs.Holdings.{IsNewStealShare, IsStealShareOf, KeepsShare, Lends};

use crate::gate::Gate;
use crate::job::Job;
use crate::own_share::OwnShare;
use crate::steal_share::StealShare;
use crate::steps::{guest, steal_front};
use crate::turns::run_to_end;
use crossbeam_deque::Steal;
use std::alloc::{AllocError, Global};

impl<R, J: Job<R> + Drop> StealShare<R, J> {
    /// A way to a share, without a part and with room for so many jobs.
    pub(crate) fn open(
        alloc: Global,
        share: &OwnShare<R, J>,
        room: usize,
    ) -> Result<Self, AllocError>
        requires room { share.now.room ≡ room }
        ensures guest { IfOk result (λ steal_share. IsNewStealShare share.now steal_share) }
    {
        let stealer = share.deque.stealer()?;
        let ended = Vec::with_capacity(alloc, room)?;
        let pass = guest(&stealer);
        Ok(StealShare {
            stealer,
            pass,
            ended,
        })
    }

    /// A part of the share, while it has nothing of it.
    pub(crate) fn borrow(&mut self, share: &mut OwnShare<R, J>)
        requires guest { IsNewStealShare share.old self.old }
        requires parts { 1 < share.old.part }
        ensures steal_share { IsStealShareOf share.old self.new }
        ensures lends { Lends 1 share.old share.new }
    {
        self.pass = share.lend();
    }
}

impl<R, J: Job<R>> StealShare<R, J> {
    /// Steals a job and runs it to its end.
    pub(crate) fn steal<G: Gate>(&mut self, rt: &R, gate: &G, worker: u32) -> Steal<()>
        requires part { 0 < self.old.part }
        ensures keeps { KeepsShare self.old self.new }
    {
        match steal_front(&self.stealer, &mut self.pass) {
            Steal::Success(mut boxed) => {
                run_to_end(rt, gate, worker, &mut *boxed);
                self.ended.push_reserved(boxed);
                Steal::Success(())
            }
            Steal::Empty => Steal::Empty,
            Steal::Retry => Steal::Retry,
        }
    }
}
