//! Jobs that deques may have.
ghost use Rattle.std.specs.Prelude.{◌≡◌, ◌+◌, ◌≤◌, [], ◌++◌, map, vec_len, vec_capacity};
ghost use Rattle.dym_pool.specs.BoxedJobs.{job_of};

use crate::job::Job;
use std::mem::ManuallyDrop;

/// A job while the pool has it. A deque asks that what it holds may be dropped, which a job need not allow. So a job is held in here,
/// and is taken out before the pool answers it; that each one is follows from `EveryJobBack`.
#[derive(Drop)]
pub(crate) struct BoxedJob<J> {
    job: ManuallyDrop<J>,
}

impl<J> BoxedJob<J> {
    fn new(job: J) -> BoxedJob<J>
        ensures { job_of result ≡ job }
    {
        BoxedJob {
            // It is taken out again by `into_job`.
            job: unsafe { ManuallyDrop::new_unchecked(job) },
        }
    }

    fn into_job(self) -> J
        ensures { result ≡ job_of self }
    {
        ManuallyDrop::into_inner(self.job)
    }
}

impl<R, J: Job<R>> Job<R> for BoxedJob<J> {
    type Origin = J::Origin;

    ghost use Rattle.dym_pool.specs.BoxedJobs.{job_of};

    ghost number_of = { λ c. J.number_of (job_of c) };

    ghost left_of = { λ c. J.left_of (job_of c) };

    ghost origin_of = { λ c. J.origin_of (job_of c) };

    #[inline(always)]
    fn number(&self) -> u32 {
        self.job.number()
    }

    #[inline(always)]
    fn left(&self) -> u32 {
        self.job.left()
    }

    #[inline(always)]
    fn turn(&mut self, rt: &R) {
        self.job.turn(rt);
    }
}

/// Moves jobs to where the pool carries them, in their order.
pub(crate) fn box_all<J>(jobs: &mut Vec<J>, carried: &mut Vec<BoxedJob<J>>)
    requires empty { carried.old.items ≡ [] }
    requires room { vec_len jobs.old ≤ vec_capacity carried.old }
    ensures carried { map job_of carried.new.items ≡ jobs.old.items }
    ensures emptied { jobs.new.items ≡ [] }
    ensures room { vec_capacity jobs.new ≡ vec_capacity jobs.old }
{
    while let Some(job) = jobs.pop() {
        carried.push_reserved(BoxedJob::new(job));
    }
    carried.as_mut_slice().reverse();
}

/// Moves jobs behind others, in their order.
pub(crate) fn give_back<J>(carried: Vec<BoxedJob<J>>, jobs: &mut Vec<J>)
    requires { vec_len jobs.old + vec_len carried ≤ vec_capacity jobs.old }
    ensures { jobs.new.items ≡ jobs.old.items ++ map job_of carried.items }
{
    for one in carried {
        jobs.push_reserved(one.into_job());
    }
}
