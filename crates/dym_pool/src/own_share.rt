//! A share as its own worker has it.

use crate::job::Job;
use crate::rule::ShareDeque;
use std::marker::Model;

/// The deque of a share, and those of its jobs that its own worker has ended.
#[derive(Drop)]
pub(crate) struct OwnShare<R, J: Job<R>> {
    pub(crate) deque: ShareDeque<R, J, J::Origin>,
    pub(crate) ended: Vec<Box<J>>,
}

impl<R, J: Job<R>> Model for OwnShare<R, J> {
    ghost use Rattle.std.specs.Prelude.{◌≡◌, ◌<◌, ◌≤◌, length, vec_capacity};
    ghost use Rattle.crossbeam_deque.specs.Handles.{worker_deque, worker_view, worker_flavor, worker_index, worker_capacity};
    ghost use Rattle.dym_pool.specs.Jobs.{boxed_labels, AllBoxedEnded};
    ghost use Rattle.dym_pool.specs.Holdings.{Holding};

    ghost Value = { Holding J.Origin };

    ghost view = { λ s. record {
      deque = worker_deque s.deque;
      list = (worker_view s.deque).list;
      hand = (worker_view s.deque).hand;
      part = (worker_view s.deque).part;
      room = vec_capacity s.ended;
      pushed = worker_index s.deque;
    } };

    ghost invariant = { λ s. record {
      last_out : worker_flavor s.deque ≡ 1;
      part : 0 < (worker_view s.deque).part;
      hand : boxed_labels J.number_of J.origin_of s.ended.items ≡ (worker_view s.deque).hand;
      ended : AllBoxedEnded J.left_of s.ended.items;
      room : length (worker_view s.deque).list ≤ vec_capacity s.ended;
      slots : vec_capacity s.ended ≤ worker_capacity s.deque;
    } };
}
