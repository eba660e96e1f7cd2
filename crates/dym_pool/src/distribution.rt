//! How jobs come to the shares.
ghost use Rattle.std.specs.Prelude.{◌≡◌, ℕ, ◌*◌, ◌<◌, [], All, vec_len};
ghost use Rattle.std.specs.List.{AllZip, flat_map};
ghost use Rattle.dym_pool.specs.Holdings.{KeepsDeque};
ghost use Rattle.dym_pool.specs.Jobs.{boxed_labels};
ghost use Rattle.dym_pool.specs.Shares.{SameElements};

use crate::job::Job;
use crate::own_share::OwnShare;

/// Deals the jobs to the shares in turn, one to each in every round. The boxes have the last job first, so that of each share
/// the first job is put last: its own worker begins with that one, and the jobs behind it are stolen from the other end.
pub(crate) fn distribute<R, J: Job<R> + Drop>(shares: &mut Vec<OwnShare<R, J>>, boxes: Vec<Box<J>>)
    requires room { (room : ℕ)
        × (vec_len boxes < vec_len shares.old * room)
        × All (λ s. (s.list ≡ []) × (s.part ≡ 65) × (s.pushed ≡ 0) × (s.room ≡ room))
        shares.old.items }
    ensures dealt { SameElements (flat_map (λ s. s.list) shares.new.items)
        (boxed_labels J.number_of J.origin_of boxes.items) }
    ensures ways { AllZip KeepsDeque shares.old.items shares.new.items }
{
    let mut left = boxes.len();
    for boxed in boxes {
        left -= 1;
        let place = left % shares.len();
        shares[place].put(boxed);
    }
}
