//! A share as any worker has it.

use crate::job::Job;
use crate::rule::{SharePass, ShareStealer};
use std::marker::Model;

/// A way to steal from the deque of a share, and those of its jobs that were stolen this way.
#[derive(Drop)]
pub(crate) struct StealShare<R, J: Job<R>> {
    pub(crate) stealer: ShareStealer<R, J, J::Origin>,
    pub(crate) pass: SharePass<J, J::Origin>,
    pub(crate) ended: Vec<Box<J>>,
}

impl<R, J: Job<R>> Model for StealShare<R, J> {
    ghost use Rattle.std.specs.Prelude.{◌≡◌, ◌<◌, ◌≤◌, length, vec_capacity};
    ghost use Rattle.crossbeam_deque.specs.Handles.{view as view_of, IsPassOf, stealer_deque};
    ghost use Rattle.dym_pool.specs.Jobs.{boxed_labels, AllBoxedEnded};
    ghost use Rattle.dym_pool.specs.Holdings.{Holding};

    ghost Value = { Holding J.Origin };

    ghost view = { λ s. record {
      deque = stealer_deque s.stealer;
      list = (view_of s.pass).list;
      hand = (view_of s.pass).hand;
      part = (view_of s.pass).part;
      room = vec_capacity s.ended;
      pushed = 0;
    } };

    ghost invariant = { λ s. record {
      deque : IsPassOf (stealer_deque s.stealer) s.pass;
      hand : boxed_labels J.number_of J.origin_of s.ended.items ≡ (view_of s.pass).hand;
      ended : AllBoxedEnded J.left_of s.ended.items;
      room : length (view_of s.pass).list ≤ vec_capacity s.ended;
    } };
}
