//! Commands to a heap as values: each is run by the heap's call of its kind, and its answer is a reply.
ghost use Rattle.std.specs.Prelude.{◌≡◌, ℕ, ◌+◌, ◌<◌};
ghost use Rattle.dym_base.specs.LateRun.{IsEventCommand};
ghost use Rattle.dym_base.specs.declared.limits.TheConstants.{COUNT_LIMIT};
ghost use Rattle.dym_heap.specs.Meaning.{IsSound};
ghost use Rattle.dym_heap.specs.Replies.{step_of, stepped, counted, OnRefusal};

use crate::heap::Heap;
use crate::replies;
use dym_base::{Command, Reply};
use dym_quota::Supply;

impl<S: Supply> Heap<S> {
    /// Runs a command to the heap, and answers its reply. It is one of those that change the heap or look at a handle or a
    /// sum: no read of bytes, and none about logs. Each counts as applied, a refused one too, which changes nothing else.
    pub fn apply(&mut self, way: &S::Way, command: &Command) -> Reply
        requires applied { self.old.applied < COUNT_LIMIT }
        requires command { IsEventCommand command.now }
        ensures reply { result ≡ (step_of self.old command.now).reply }
        ensures after { self.new ≡ record (stepped
            (counted self.old) command.now) { held_ids = self.new.held_ids } }
        ensures refused { OnRefusal result (self.new ≡ counted self.old) }
        ensures sound { IsSound self.new }
    {
        self.applied += 1;
        self.step(way, command)
    }

    /// Runs a command to the heap as `apply` does, and doesn't count it. Where the caller knows which command it is, only that
    /// one's code is left of the call.
    #[inline(always)]
    pub fn step(&mut self, way: &S::Way, command: &Command) -> Reply
        requires command { IsEventCommand command.now }
        ensures reply { result ≡ (step_of self.old command.now).reply }
        ensures after { self.new
            ≡ record (stepped self.old command.now) { held_ids = self.new.held_ids } }
        ensures refused { OnRefusal result (self.new ≡ self.old) }
        ensures sound { IsSound self.new }
    {
        // A look at a field, by which a proof knows that the heap is tidy where a call below changes nothing.
        let _ = &self.shelf;
        match command {
            Command::Malloc { len } => replies::of_chunk(self.malloc(way, *len)),
            Command::Calloc { n, len } => replies::of_chunk(self.calloc(way, *n, *len)),
            Command::Realloc { h, len } => replies::of_moved(self.realloc(way, *h, *len)),
            Command::Free { h } => replies::of_done(self.free(way, *h)),
            Command::Write { h, at, bytes } => replies::of_done(self.write(*h, *at, bytes.bytes())),
            Command::Fill { h, at, len, byte } => replies::of_done(self.fill(*h, *at, *len, *byte)),
            Command::Link { h, at, to } => replies::of_done(self.link(*h, *at, *to)),
            Command::Follow { h, at } => replies::of_found(self.follow(*h, *at)),
            Command::Sum { h } => replies::of_total(self.sum(*h)),
            Command::Read { .. }
            | Command::Log { .. }
            | Command::Ilog { .. }
            | Command::Restore { .. }
            | Command::Prune { .. }
            | Command::Logs => { unreachable!() }
        }
    }
}
