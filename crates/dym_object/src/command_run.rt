//! Commands to an object as values: those to its heap are run by the heap's step, a read and those about logs by a call each, and
//! the answer is a reply.
ghost use Rattle.std.specs.Prelude.{◌≡◌, ℕ, ◌+◌, ◌<◌, OnOk, OnErr, IfOk, IfErr};
ghost use Rattle.dym_base.specs.BaseLogs.{base_logs_step};
ghost use Rattle.dym_base.specs.LateRun.{IsEventCommand};
ghost use Rattle.dym_base.specs.declared.command.Command.TheVariants.{Read};
ghost use Rattle.dym_base.specs.declared.limits.TheConstants.{COUNT_LIMIT};
ghost use Rattle.dym_heap.specs.Replies.{OnRefusal};
ghost use Rattle.dym_chain.specs.Answers.{restored_reply};
ghost use Rattle.dym_object.specs.Commands.{TakesMemory, log_command, slots_reply};
ghost use Rattle.dym_object.specs.Meaning.{IsStep, IsWhole, counted, state_of, step_by};

use crate::laws::steps_keep_whole;
use crate::object::Object;
use dym_base::{Blob, Command, Handle, Kind, Refusal, Reply};
use dym_chain::{LogError, LogKeep};
use dym_quota::Supply;
use std::alloc::{AllocError, Global};

impl<S: Supply, K: LogKeep> Object<S, K> {
    /// Runs one command, and answers its reply. Only a log or a read that isn't refused can answer that memory is wanting: it
    /// then wasn't run.
    pub fn run(
        &mut self,
        way: &S::Way,
        alloc: Global,
        command: &Command,
    ) -> Result<Reply, AllocError>
        requires ran { self.old.ran < COUNT_LIMIT }
        ensures reply { IfOk result (λ r. r ≡ (step_by self.old command.now).reply) }
        ensures after { OnOk result (state_of self.new ≡ (step_by self.old command.now).object) }
        ensures base_logs { OnOk result (self.new.chain.base_logs
            ≡ base_logs_step self.old.chain.base_logs (state_of self.old) command.now) }
        ensures ran { OnOk result (self.new.ran ≡ self.old.ran + 1) }
        ensures memory { IfErr result (λ _. TakesMemory command.now
            (step_by self.old command.now).reply) }
        ensures unchanged { OnErr result (self.new ≡ self.old) }
        ensures refused { IfOk result (λ r. OnRefusal r (self.new ≡ counted self.old)) }
        ensures heap { self.new.heap ≡ record self.old.heap {
          state = self.new.heap.state;
          held_ids = self.new.heap.held_ids;
        } }
        ensures origin { self.new.chain.origin ≡ self.old.chain.origin }
        ensures whole { IsWhole self.new }
    {
        let mut reply = Reply::Done;
        self.run_into(way, alloc, command, &mut reply)?;
        Ok(reply)
    }

    /// Runs one command as `run` does, and writes its reply into a place, so that no reply is moved. Where memory is wanting the
    /// place keeps the reply that it had. Where the caller knows which command it is, only that one's code is left of the call.
    #[inline(always)]
    pub fn run_into(
        &mut self,
        way: &S::Way,
        alloc: Global,
        command: &Command,
        reply: &mut Reply,
    ) -> Result<(), AllocError>
        requires ran { self.old.ran < COUNT_LIMIT }
        ensures reply { OnOk result (reply.new ≡ (step_by self.old command.now).reply) }
        ensures after { OnOk result (state_of self.new ≡ (step_by self.old command.now).object) }
        ensures base_logs { OnOk result (self.new.chain.base_logs
            ≡ base_logs_step self.old.chain.base_logs (state_of self.old) command.now) }
        ensures ran { OnOk result (self.new.ran ≡ self.old.ran + 1) }
        ensures memory { IfErr result (λ _. TakesMemory command.now
            (step_by self.old command.now).reply) }
        ensures unchanged { OnErr result (self.new ≡ self.old) }
        ensures kept { OnErr result (reply.new ≡ reply.old) }
        ensures refused { OnOk result (OnRefusal reply.new (self.new ≡ counted self.old)) }
        ensures heap { self.new.heap ≡ record self.old.heap {
          state = self.new.heap.state;
          held_ids = self.new.heap.held_ids;
        } }
        ensures origin { self.new.chain.origin ≡ self.old.chain.origin }
        ensures whole { IsWhole self.new }
    {
        match command {
            Command::Read { h, at, len } => self.read_into(alloc, *h, *at, *len, reply),
            Command::Log { time } => self.log_into(alloc, *time, Kind::Full, reply),
            Command::Ilog { time } => self.log_into(alloc, *time, Kind::Inc, reply),
            Command::Restore { time } => {
                *reply = of_restored(self.restore(way, *time));
                Ok(())
            }
            Command::Prune { bound } => {
                *reply = Reply::Dropped(self.prune(*bound));
                Ok(())
            }
            Command::Logs => {
                *reply = of_slots(self.logs());
                Ok(())
            }
            _ => {
                *reply = self.step(way, command);
                Ok(())
            }
        }
    }

    /// Runs a command to the heap, by the heap's own match over these.
    #[inline(always)]
    fn step(&mut self, way: &S::Way, command: &Command) -> Reply
        requires ran { self.old.ran < COUNT_LIMIT }
        requires command { IsEventCommand command.now }
        ensures reply { result ≡ (step_by self.old command.now).reply }
        ensures step { IsStep self.old self.new command.now }
        ensures refused { OnRefusal result (self.new ≡ counted self.old) }
        ensures whole { IsWhole self.new }
    {
        steps_keep_whole();
        self.ran += 1;
        self.heap.step(way, command)
    }

    /// Reads bytes of a chunk. No memory is taken where the read is refused.
    #[inline(always)]
    fn read_into(
        &mut self,
        alloc: Global,
        h: Handle,
        at: u32,
        len: u32,
        reply: &mut Reply,
    ) -> Result<(), AllocError>
        requires { self.old.ran < COUNT_LIMIT }
        ensures reply { OnOk result (reply.new ≡ (step_by self.old (Read h at len)).reply) }
        ensures after { OnOk result (state_of self.new
            ≡ (step_by self.old (Read h at len)).object) }
        ensures base_logs { OnOk result (self.new.chain.base_logs
            ≡ base_logs_step self.old.chain.base_logs (state_of self.old) (Read h at len)) }
        ensures ran { OnOk result (self.new.ran ≡ self.old.ran + 1) }
        ensures memory { IfErr result (λ _. TakesMemory (Read h at len)
            (step_by self.old (Read h at len)).reply) }
        ensures unchanged { OnErr result (self.new ≡ self.old) }
        ensures kept { OnErr result (reply.new ≡ reply.old) }
        ensures refused { OnOk result (OnRefusal reply.new (self.new ≡ counted self.old)) }
        ensures heap { self.new.heap ≡ record self.old.heap {
          state = self.new.heap.state;
          held_ids = self.new.heap.held_ids;
        } }
        ensures origin { self.new.chain.origin ≡ self.old.chain.origin }
        ensures whole { IsWhole self.new }
    {
        let answer = match self.heap.bytes(h) {
            None => Reply::Refused(Refusal::Dead),
            Some(bytes) => {
                let (at, len) = (at as usize, len as usize);
                if at + len > bytes.len() {
                    Reply::Refused(Refusal::Range)
                } else {
                    Reply::Bytes(Blob::new(alloc, &bytes[at..at + len])?)
                }
            }
        };
        *reply = answer;
        self.ran += 1;
        Ok(())
    }

    /// Logs the heap, all of it or what changed.
    #[inline(always)]
    fn log_into(
        &mut self,
        alloc: Global,
        time: u64,
        want: Kind,
        reply: &mut Reply,
    ) -> Result<(), AllocError>
        requires { self.old.ran < COUNT_LIMIT }
        ensures reply { OnOk result (reply.new ≡ (step_by self.old (log_command want time)).reply) }
        ensures after { OnOk result (state_of self.new
            ≡ (step_by self.old (log_command want time)).object) }
        ensures base_logs { OnOk result (self.new.chain.base_logs
            ≡ base_logs_step self.old.chain.base_logs (state_of self.old) (log_command want time)) }
        ensures ran { OnOk result (self.new.ran ≡ self.old.ran + 1) }
        ensures heap { self.new.heap ≡ record self.old.heap {
          state = self.new.heap.state;
          held_ids = self.new.heap.held_ids;
        } }
        ensures origin { self.new.chain.origin ≡ self.old.chain.origin }
        ensures memory { IfErr result (λ _. TakesMemory (log_command want time)
            (step_by self.old (log_command want time)).reply) }
        ensures unchanged { OnErr result (self.new ≡ self.old) }
        ensures kept { OnErr result (reply.new ≡ reply.old) }
        ensures refused { OnOk result (OnRefusal reply.new (self.new ≡ counted self.old)) }
        ensures whole { IsWhole self.new }
    {
        match self.log_as(alloc, time, want) {
            Ok((kind, len)) => *reply = Reply::Logged { kind, len },
            Err(LogError::Refused(why)) => *reply = Reply::Refused(why),
            Err(LogError::Memory) => return Err(AllocError),
        }
        Ok(())
    }
}

/// The reply that tells which log was restored.
#[inline(always)]
fn of_restored(answer: Result<u64, Refusal>) -> Reply
    ensures { result ≡ restored_reply answer }
{
    match answer {
        Ok(time) => Reply::At(time),
        Err(why) => Reply::Refused(why),
    }
}

/// The reply that tells how many logs are kept, and how many records they take.
#[inline(always)]
fn of_slots(answer: (u32, u32)) -> Reply
    ensures { result ≡ slots_reply answer }
{
    let (kept, slots) = answer;
    Reply::Slots { kept, slots }
}
