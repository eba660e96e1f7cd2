//! Commands about the logs of an object, one method for each.
ghost use Rattle.std.specs.Prelude.{◌≡◌, ◌<◌, OnErr};
ghost use Rattle.dym_base.specs.declared.command.Command.TheVariants.{Log, Ilog, Restore, Prune, Logs};
ghost use Rattle.dym_base.specs.declared.reply.Reply.TheVariants as reply;
ghost use Rattle.dym_base.specs.declared.limits.TheConstants.{COUNT_LIMIT};
ghost use Rattle.dym_chain.specs.Answers.{IsLogAnswer, restored_reply};
ghost use Rattle.dym_object.specs.Commands.{OnReplied, OnRefused, OnMemory, log_command, slots_reply};
ghost use Rattle.dym_object.specs.Meaning.{IsStep, IsWhole, counted, step_by};

use crate::object::Object;
use dym_base::{Kind, Refusal};
use dym_chain::{LogError, LogKeep};
use dym_quota::Supply;
use std::alloc::Global;

/// Commands about the logs. A refused one counts as run, and changes nothing else.
impl<S: Supply, K: LogKeep> Object<S, K> {
    /// Logs the whole heap at a time, which must come after that of the newest log. The answer is the log's kind and its record's
    /// length. Where memory is wanting, nothing was run.
    #[inline(always)]
    pub fn log(&mut self, alloc: Global, time: u64) -> Result<(Kind, u64), LogError>
        requires { self.old.ran < COUNT_LIMIT }
        ensures answer { IsLogAnswer result (step_by self.old (Log time)).reply }
        ensures step { OnReplied result (IsStep self.old self.new (Log time)) }
        ensures refused { OnRefused result (self.new ≡ counted self.old) }
        ensures memory { OnMemory result (self.new ≡ self.old) }
        ensures whole { IsWhole self.new }
    {
        self.log_as(alloc, time, Kind::Full)
    }

    /// Logs what changed of the heap since the newest log. The log is full where there is none before it, or where as many
    /// incremental ones follow the last full one as may.
    #[inline(always)]
    pub fn ilog(&mut self, alloc: Global, time: u64) -> Result<(Kind, u64), LogError>
        requires { self.old.ran < COUNT_LIMIT }
        ensures answer { IsLogAnswer result (step_by self.old (Ilog time)).reply }
        ensures step { OnReplied result (IsStep self.old self.new (Ilog time)) }
        ensures refused { OnRefused result (self.new ≡ counted self.old) }
        ensures memory { OnMemory result (self.new ≡ self.old) }
        ensures whole { IsWhole self.new }
    {
        self.log_as(alloc, time, Kind::Inc)
    }

    /// Logs the heap, all of it or what changed.
    #[inline(always)]
    pub(crate) fn log_as(
        &mut self,
        alloc: Global,
        time: u64,
        want: Kind,
    ) -> Result<(Kind, u64), LogError>
        requires { self.old.ran < COUNT_LIMIT }
        ensures answer { IsLogAnswer result (step_by self.old (log_command want time)).reply }
        ensures step { OnReplied result (IsStep self.old self.new (log_command want time)) }
        ensures refused { OnRefused result (self.new ≡ counted self.old) }
        ensures memory { OnMemory result (self.new ≡ self.old) }
        ensures whole { IsWhole self.new }
    {
        let answer = self.chain.log(alloc, &mut self.heap, time, want);
        if answer != Err(LogError::Memory) {
            self.ran += 1;
        }
        answer
    }

    /// Restores the last log at or before a time, and answers its time; the later logs leave.
    #[inline(always)]
    pub fn restore(&mut self, way: &S::Way, time: u64) -> Result<u64, Refusal>
        requires { self.old.ran < COUNT_LIMIT }
        ensures reply { restored_reply result ≡ (step_by self.old (Restore time)).reply }
        ensures step { IsStep self.old self.new (Restore time) }
        ensures refused { OnErr result (self.new ≡ counted self.old) }
        ensures whole { IsWhole self.new }
    {
        self.ran += 1;
        self.chain.restore(way, &mut self.heap, time)
    }

    /// Drops the logs before the last one at or before a bound, and answers how many.
    #[inline(always)]
    pub fn prune(&mut self, bound: u64) -> u32
        requires { self.old.ran < COUNT_LIMIT }
        ensures reply { reply.Dropped result ≡ (step_by self.old (Prune bound)).reply }
        ensures step { IsStep self.old self.new (Prune bound) }
        ensures heap { self.new.heap ≡ self.old.heap }
        ensures whole { IsWhole self.new }
    {
        self.ran += 1;
        self.chain.prune(bound)
    }

    /// How many logs are kept, and how many records they take: as `kept` and `slots` tell, but that this counts as a command.
    #[inline(always)]
    pub fn logs(&mut self) -> (u32, u32)
        requires { self.old.ran < COUNT_LIMIT }
        ensures reply { slots_reply result ≡ (step_by self.old Logs).reply }
        ensures step { IsStep self.old self.new Logs }
        ensures same { self.new ≡ counted self.old }
        ensures whole { IsWhole self.new }
    {
        self.ran += 1;
        (self.chain.kept(), self.chain.slots())
    }
}
