//! The places to which jobs come back, one for each number.
ghost use Rattle.std.specs.Prelude.{◌≡◌, ◌+◌, ◌<◌, [], ◌≤◌, ◌++◌, All, IfOk, length, replicate, vec_len, vec_capacity};
ghost use Rattle.std.specs.List.{flat_map};
ghost use Rattle.dym_pool.specs.Jobs.{unboxed};
ghost use Rattle.dym_pool.specs.Shares.{placed, standing, Gathered, NumbersBelow, ResultsEnded};

use crate::job::Job;
use crate::own_share::OwnShare;
use std::alloc::{AllocError, Global};

/// So many places where nothing stands.
pub(crate) fn open_slots<J>(alloc: Global, count: usize) -> Result<Vec<Option<Box<J>>>, AllocError>
    ensures { IfOk result (λ slots. slots.items ≡ replicate count None) }
{
    let mut slots = Vec::with_capacity(alloc, count)?;
    for _ in 0..count {
        slots.push_reserved(None);
    }
    Ok(slots)
}

/// Puts each job at the place of its number.
fn place<R, J: Job<R> + Drop>(slots: &mut [Option<Box<J>>], boxes: Vec<Box<J>>)
    requires { All (λ b. J.number_of b.value < length slots.old) boxes.items }
    ensures { slots.new ≡ placed (λ b. J.number_of b.value) boxes.items slots.old }
{
    for boxed in boxes {
        let number = boxed.number();
        slots[number as usize] = Some(boxed);
    }
}

/// Puts each job that ended in a share at the place of its number.
fn place_shares<R, J: Job<R> + Drop>(slots: &mut [Option<Box<J>>], shares: Vec<OwnShare<R, J>>)
    requires { All (λ s. All (λ x. x.0 < length slots.old) s.hand) shares.items }
    ensures { ResultsEnded J.number_of J.left_of J.origin_of
        (flat_map (λ s. s.hand) shares.items) slots.old slots.new }
{
    for share in shares {
        place::<R, J>(slots, share.into_ended());
    }
}

/// Moves what stands at the places behind the jobs, in order.
fn take_standing<J: Drop>(jobs: &mut Vec<J>, slots: Vec<Option<Box<J>>>)
    requires { vec_len jobs.old + vec_len slots ≤ vec_capacity jobs.old }
    ensures { jobs.new.items ≡ jobs.old.items ++ unboxed (standing slots.items) }
{
    for slot in slots {
        if let Some(boxed) = slot {
            jobs.push_reserved(Box::into_inner(boxed));
        }
    }
}

/// Moves the jobs of all shares back into the list that they came from, in the order of their numbers.
pub(crate) fn gather<R, J: Job<R> + Drop>(
    jobs: &mut Vec<J>,
    mut slots: Vec<Option<Box<J>>>,
    shares: Vec<OwnShare<R, J>>,
)
    requires empty { jobs.old.items ≡ [] }
    requires room { vec_len slots ≤ vec_capacity jobs.old }
    requires slots { slots.items ≡ replicate (vec_len slots) None }
    requires numbers { NumbersBelow (vec_len slots) (flat_map (λ s. s.hand) shares.items) }
    ensures back { Gathered J.number_of J.left_of J.origin_of (vec_len slots)
        (flat_map (λ s. s.hand) shares.items) jobs.new.items }
{
    place_shares(&mut slots, shares);
    take_standing(jobs, slots);
}
