//! A round.
ghost use Rattle.std.specs.Prelude.{◌≡◌, ℕ, List, map, Err, OnOk};
ghost use Rattle.warp_process.specs.declared.run.RunError.TheVariants.{Counts};
ghost use Rattle.warp_worker.specs.Workers.{Cell, worker_face, settled_of, IsWorker, MayAdvance, HasAdvanced, HasTooMany};

use crate::order::Order;
use crate::worker::Worker;
use warp_base::{Payload, Simulation};
use warp_process::{RunError, StateSaver};
use warp_threads::Lane;

impl<P: Payload, K: StateSaver> Worker<P, K> {
    /// A round, as it is ordered.
    fn run_round<M: Simulation<Payload = P, State = K::State>>(
        &mut self,
        order: &Order<'_, M>,
    ) -> Result<(), RunError>
        requires may { MayAdvance order.now.bound order.now.end (worker_face K.state K.copies self.old) }
        requires worker { (cells : List (Cell P K.State)) × IsWorker P.words (M.behaviour order.now.model.now) cells (worker_face K.state K.copies self.old) }
        ensures advanced { OnOk result ((cells : List (Cell P K.State)) → IsWorker P.words (M.behaviour order.now.model.now) cells (worker_face K.state K.copies self.old)
            → HasAdvanced P.words (M.behaviour order.now.model.now) (M.processes order.now.model.now) order.now.bound order.now.end cells
            (worker_face K.state K.copies self.old) (worker_face K.state K.copies self.new)) }
        ensures many { result ≡ Err Counts → (cells : List (Cell P K.State)) → IsWorker P.words (M.behaviour order.now.model.now) cells (worker_face K.state K.copies self.old)
            → HasTooMany (M.behaviour order.now.model.now) self.old.first (map (settled_of order.now.bound) cells) }
    {
        let mut mail = Vec::new(order.alloc);
        self.commit(order)?;
        self.take_inbox(order, &mut mail)?;
        self.settle(order, &mut mail)?;
        self.run_bound(order, &mut mail)?;
        self.settle(order, &mut mail)?;
        self.run_ahead(order, &mut mail)?;
        self.next = self.least_time();
        self.failed = self.first_failed();
        Ok(())
    }
}

impl<'a, M: Simulation, K: StateSaver<State = M::State>> Lane<Order<'a, M>>
    for Worker<M::Payload, K> {
    ghost use Rattle.std.specs.Prelude.{◌≡◌, List, map, Some, None};
    ghost use Rattle.warp_process.specs.declared.run.RunError.TheVariants.{Counts};
    ghost use Rattle.warp_worker.specs.Workers.{Cell, worker_face, settled_of, IsWorker, MayAdvance, HasAdvanced, HasTooMany};

    ghost can_advance = { λ order worker. MayAdvance order.bound order.end (worker_face K.state K.copies worker)
        × ((cells : List (Cell M.Payload M.State)) × IsWorker M.Payload.words (M.behaviour order.model.now) cells (worker_face K.state K.copies worker)) };

    ghost advances = { λ order old new. (new.error ≡ None → (cells : List (Cell M.Payload M.State))
        → IsWorker M.Payload.words (M.behaviour order.model.now) cells (worker_face K.state K.copies old)
        → HasAdvanced M.Payload.words (M.behaviour order.model.now) (M.processes order.model.now) order.bound order.end cells
        (worker_face K.state K.copies old) (worker_face K.state K.copies new))
        × (new.error ≡ Some Counts → (cells : List (Cell M.Payload M.State))
        → IsWorker M.Payload.words (M.behaviour order.model.now) cells (worker_face K.state K.copies old)
        → HasTooMany (M.behaviour order.model.now) old.first (map (settled_of order.bound) cells)) };

    fn advance(&mut self, order: &Order<'a, M>) {
        self.error = self.run_round(order).err();
    }
}
