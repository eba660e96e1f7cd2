//! Turns of one job.
ghost use Rattle.std.specs.Prelude.{◌≡◌, ◌<◌};

use crate::gate::Gate;
use crate::job::Job;

/// One turn, for which the worker passes the gate.
pub(crate) fn take_turn<R, J: Job<R>, G: Gate>(rt: &R, gate: &G, worker: u32, job: &mut J)
    requires { 0 < J.left_of job.old }
    ensures number { J.number_of job.new ≡ J.number_of job.old }
    ensures origin { J.origin_of job.new ≡ J.origin_of job.old }
    ensures left { J.left_of job.new < J.left_of job.old }
{
    gate.enter(worker, job.number());
    job.turn(rt);
}

/// All turns that are left.
pub(crate) fn run_to_end<R, J: Job<R>, G: Gate>(rt: &R, gate: &G, worker: u32, job: &mut J)
    ensures number { J.number_of job.new ≡ J.number_of job.old }
    ensures origin { J.origin_of job.new ≡ J.origin_of job.old }
    ensures ended { J.left_of job.new ≡ 0 }
{
    while job.left() > 0 {
        take_turn(rt, gate, worker, job);
    }
}
