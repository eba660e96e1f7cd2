//! Jobs in boxes of their own, so that a deque moves a job in one step whatever its size.
ghost use Rattle.std.specs.Prelude.{◌≡◌, ◌+◌, ◌≤◌, [], ◌++◌, map, reverse, OnOk, OnErr, vec_len, vec_capacity};
ghost use Rattle.dym_pool.specs.Jobs.{unboxed};

use std::alloc::{AllocError, Global};

/// Moves each job into a box, so that the first one comes last.
///
/// AllocError is free; the jobs are then where they were.
pub(crate) fn pack<J>(
    alloc: Global,
    jobs: &mut Vec<J>,
    boxes: &mut Vec<Box<J>>,
) -> Result<(), AllocError>
    requires empty { boxes.old.items ≡ [] }
    requires room { vec_len jobs.old ≤ vec_capacity boxes.old }
    ensures packed { OnOk result (unboxed boxes.new.items ≡ reverse jobs.old.items) }
    ensures len { OnOk result (vec_len boxes.new ≡ vec_len jobs.old) }
    ensures emptied { OnOk result (jobs.new.items ≡ []) }
    ensures room { vec_capacity jobs.new ≡ vec_capacity jobs.old }
    ensures unchanged { OnErr result (jobs.new.items ≡ jobs.old.items) }
    ensures none { OnErr result (boxes.new.items ≡ []) }
{
    while let Some(job) = jobs.pop() {
        match Box::new(alloc, job) {
            Ok(boxed) => boxes.push_reserved(boxed),
            Err(failed) => {
                jobs.push_reserved(failed.value);
                unpack(jobs, boxes);
                return Err(AllocError);
            }
        }
    }
    Ok(())
}

/// Moves each job out of its box, the last one first.
fn unpack<J>(jobs: &mut Vec<J>, boxes: &mut Vec<Box<J>>)
    requires { vec_len jobs.old + vec_len boxes.old ≤ vec_capacity jobs.old }
    ensures jobs { jobs.new.items ≡ jobs.old.items ++ reverse (unboxed boxes.old.items) }
    ensures none { boxes.new.items ≡ [] }
    ensures room { vec_capacity jobs.new ≡ vec_capacity jobs.old }
{
    while let Some(boxed) = boxes.pop() {
        jobs.push_reserved(Box::into_inner(boxed));
    }
}
