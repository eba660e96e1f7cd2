//! Commands to the heap of an object, one method for each.
ghost use Rattle.std.specs.Prelude.{◌≡◌, ℕ, ◌<◌, length, OnErr};
ghost use Rattle.dym_base.specs.declared.command.Command.TheVariants.{Malloc, Calloc, Realloc, Free, Write, Fill, Read, Link, Follow, Sum};
ghost use Rattle.dym_base.specs.declared.limits.TheConstants.{COUNT_LIMIT};
ghost use Rattle.dym_heap.specs.Replies.{chunk_reply, moved_reply, done_reply, bytes_reply, found_reply, total_reply};
ghost use Rattle.dym_undo_object.specs.Meaning.{IsStep, IsWhole, counted, step_by};

use crate::keeps::{keep_made, keep_named};
use crate::undo_object::UndoObject;
use dym_base::{Handle, Refusal};
use dym_heap::Found;
use dym_quota::Supply;

/// Commands to the heap. None takes memory; a refused one counts as run, and changes nothing else of the object. What a chunk was is
/// kept before it changes.
impl<S: Supply> UndoObject<S> {
    /// A fresh chunk of `len` zero bytes. In version 1 it has all bytes of its class.
    #[inline(always)]
    pub fn malloc(&mut self, way: &S::Way, len: u64) -> Result<Handle, Refusal>
        requires { self.old.ran < COUNT_LIMIT }
        ensures reply { chunk_reply result ≡ (step_by self.old (Malloc len)).reply }
        ensures step { IsStep self.old self.new (Malloc len) }
        ensures refused { OnErr result (self.new ≡ counted self.old) }
        ensures whole { IsWhole self.new }
    {
        self.ran += 1;
        let answer = self.heap.malloc(way, len);
        keep_made(&mut self.undo, &self.heap, answer.ok());
        answer
    }

    /// A fresh chunk of `n * len` zero bytes.
    #[inline(always)]
    pub fn calloc(&mut self, way: &S::Way, n: u64, len: u64) -> Result<Handle, Refusal>
        requires { self.old.ran < COUNT_LIMIT }
        ensures reply { chunk_reply result ≡ (step_by self.old (Calloc n len)).reply }
        ensures step { IsStep self.old self.new (Calloc n len) }
        ensures refused { OnErr result (self.new ≡ counted self.old) }
        ensures whole { IsWhole self.new }
    {
        self.ran += 1;
        let answer = self.heap.calloc(way, n, len);
        keep_made(&mut self.undo, &self.heap, answer.ok());
        answer
    }

    /// A chunk of `len` bytes with the old bytes up to the smaller length, then zeros; nil is as `malloc`, and a `len` of 0 frees
    /// the chunk. The answer is where the chunk now is, and None where it was freed.
    #[inline(always)]
    pub fn realloc(
        &mut self,
        way: &S::Way,
        h: Option<Handle>,
        len: u64,
    ) -> Result<Option<Handle>, Refusal>
        requires { self.old.ran < COUNT_LIMIT }
        ensures reply { moved_reply result ≡ (step_by self.old (Realloc h len)).reply }
        ensures step { IsStep self.old self.new (Realloc h len) }
        ensures refused { OnErr result (self.new ≡ counted self.old) }
        ensures whole { IsWhole self.new }
    {
        self.ran += 1;
        keep_named(&mut self.undo, &self.heap, h);
        let answer = self.heap.realloc(way, h, len);
        keep_made(&mut self.undo, &self.heap, answer.unwrap_or(None));
        answer
    }

    /// Frees a chunk. Nil does nothing.
    #[inline(always)]
    pub fn free(&mut self, way: &S::Way, h: Option<Handle>) -> Result<(), Refusal>
        requires { self.old.ran < COUNT_LIMIT }
        ensures reply { done_reply result ≡ (step_by self.old (Free h)).reply }
        ensures step { IsStep self.old self.new (Free h) }
        ensures refused { OnErr result (self.new ≡ counted self.old) }
        ensures whole { IsWhole self.new }
    {
        self.ran += 1;
        keep_named(&mut self.undo, &self.heap, h);
        self.heap.free(way, h)
    }

    /// Writes the bytes into a chunk, from its place `at` on. An empty write changes nothing.
    #[inline(always)]
    pub fn write(&mut self, h: Handle, at: u32, bytes: &[u8]) -> Result<(), Refusal>
        requires { self.old.ran < COUNT_LIMIT }
        ensures reply { done_reply result ≡ (step_by self.old (Write h at bytes.now)).reply }
        ensures step { IsStep self.old self.new (Write h at bytes.now) }
        ensures refused { OnErr result (self.new ≡ counted self.old) }
        ensures whole { IsWhole self.new }
    {
        self.ran += 1;
        self.undo.keep(&self.heap, h);
        self.heap.write(h, at, bytes)
    }

    /// Makes `len` bytes of a chunk from its place `at` on `byte`.
    #[inline(always)]
    pub fn fill(&mut self, h: Handle, at: u32, len: u32, byte: u8) -> Result<(), Refusal>
        requires { self.old.ran < COUNT_LIMIT }
        ensures reply { done_reply result ≡ (step_by self.old (Fill h at len byte)).reply }
        ensures step { IsStep self.old self.new (Fill h at len byte) }
        ensures refused { OnErr result (self.new ≡ counted self.old) }
        ensures whole { IsWhole self.new }
    {
        self.ran += 1;
        self.undo.keep(&self.heap, h);
        self.heap.fill(h, at, len, byte)
    }

    /// Copies the bytes of a chunk from its place `at` on into `out`, which stays as it is where this is refused.
    #[inline(always)]
    pub fn read(&mut self, h: Handle, at: u32, out: &mut [u8]) -> Result<(), Refusal>
        requires { self.old.ran < COUNT_LIMIT }
        ensures reply { bytes_reply result out.new
            ≡ (step_by self.old (Read h at (length out.old))).reply }
        ensures step { IsStep self.old self.new (Read h at (length out.old)) }
        ensures refused { OnErr result (self.new ≡ counted self.old) }
        ensures kept { OnErr result (out.new ≡ out.old) }
        ensures whole { IsWhole self.new }
    {
        self.ran += 1;
        self.heap.read(h, at, out)
    }

    /// Writes the number of a handle into a chunk, from its place `at` on, in eight bytes, or 0 for nil. The handle needn't be
    /// live.
    #[inline(always)]
    pub fn link(&mut self, h: Handle, at: u32, to: Option<Handle>) -> Result<(), Refusal>
        requires { self.old.ran < COUNT_LIMIT }
        ensures reply { done_reply result ≡ (step_by self.old (Link h at to)).reply }
        ensures step { IsStep self.old self.new (Link h at to) }
        ensures refused { OnErr result (self.new ≡ counted self.old) }
        ensures whole { IsWhole self.new }
    {
        self.ran += 1;
        self.undo.keep(&self.heap, h);
        self.heap.link(h, at, to)
    }

    /// What the eight bytes of a chunk from its place `at` on name.
    #[inline(always)]
    pub fn follow(&mut self, h: Handle, at: u32) -> Result<Found, Refusal>
        requires { self.old.ran < COUNT_LIMIT }
        ensures reply { found_reply result ≡ (step_by self.old (Follow h at)).reply }
        ensures step { IsStep self.old self.new (Follow h at) }
        ensures refused { OnErr result (self.new ≡ counted self.old) }
        ensures whole { IsWhole self.new }
    {
        self.ran += 1;
        self.heap.follow(h, at)
    }

    /// The sum of a chunk's bytes as numbers.
    #[inline(always)]
    pub fn sum(&mut self, h: Handle) -> Result<u64, Refusal>
        requires { self.old.ran < COUNT_LIMIT }
        ensures reply { total_reply result ≡ (step_by self.old (Sum h)).reply }
        ensures step { IsStep self.old self.new (Sum h) }
        ensures refused { OnErr result (self.new ≡ counted self.old) }
        ensures whole { IsWhole self.new }
    {
        self.ran += 1;
        self.heap.sum(h)
    }
}
