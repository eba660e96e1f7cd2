//! What a process that C keeps has inside.
ghost use Rattle.std.specs.Prelude.{◌≡◌, ◌++◌, ◌∷◌, [], IfSome, IfNone, OnOk, OnErr};
ghost use Rattle.dym_c.specs.declared.process_content.Phase.TheVariants as phases;
ghost use Rattle.dym_c.specs.ProcessCalls.{IsStart};
ghost use Rattle.dym_c.specs.ProcessMeanings.{IsRecordedPhase, IsStarting};

use crate::events::DymData;
use std::alloc::{AllocError, Global};
use std::marker::Model;
use warp_base::{Draft, Event, Message};
use warp_object::ObjectProcess;

/// A process that isn't started yet: C makes its state and sends its first events.
#[derive(Drop)]
pub(crate) struct Start {
    pub(crate) number: u32,
    pub(crate) processes: u32,
    pub(crate) period: u64,
    pub(crate) firsts: Vec<Draft<DymData>>,
}

/// How far a process is.
#[derive(Drop)]
pub(crate) enum Phase {
    Starting(Start),
    Running(ObjectProcess<DymData>),
}

/// A process, and what C is to take from it.
#[derive(Drop)]
pub struct ProcessContent {
    pub(crate) phase: Phase,
    /// Messages that are to be delivered.
    pub(crate) out: Vec<Message<DymData>>,
    /// Events that the last commit committed.
    pub(crate) committed: Vec<Event<DymData>>,
}

impl Model for ProcessContent {
    ghost use Rattle.std.specs.Coded.{codes};
    ghost use Rattle.dym_heap.specs.Meaning.{live_code};
    ghost use Rattle.dym_c.specs.ProcessMeanings.{ProcessMeaning, IsRecordedPhase};

    ghost Value = { ProcessMeaning };

    ghost coded = { Prim.hlevel (codes, live_code) };

    ghost view = { λ c. record { phase = c.phase; out = c.out.items; committed = c.committed.items } };

    ghost invariant = { λ c. IsRecordedPhase c.phase };
}

impl ProcessContent {
    /// A process that isn't started yet.
    pub(crate) fn starting(
        alloc: Global,
        number: u32,
        processes: u32,
        period: u64,
    ) -> ProcessContent
        ensures { IsStart number processes period result }
    {
        let start = Start {
            number,
            processes,
            period,
            firsts: Vec::new(alloc),
        };
        ProcessContent {
            phase: Phase::Starting(start),
            out: Vec::new(alloc),
            committed: Vec::new(alloc),
        }
    }

    /// The process, and None where it isn't started yet.
    #[inline(always)]
    pub(crate) fn running(&self) -> Option<&ObjectProcess<DymData>>
        ensures some { IfSome result (λ p. (self.now.phase ≡ phases.Running p.now) × IsRecordedPhase (phases.Running p.now)) }
        ensures none { IfNone result (IsStarting self.now.phase) }
    {
        match &self.phase {
            Phase::Starting(_) => None,
            Phase::Running(process) => Some(process),
        }
    }
}

impl Start {
    /// Keeps an event that the start sends. The answer says whether there was memory.
    pub(crate) fn keep(&mut self, draft: Draft<DymData>) -> Result<(), AllocError>
        ensures kept { OnOk result (self.new.firsts.items ≡ self.old.firsts.items ++ draft ∷ []) }
        ensures unchanged { OnErr result (self.new.firsts.items ≡ self.old.firsts.items) }
        ensures rest { self.new ≡ record self.old { firsts = self.new.firsts } }
    {
        self.firsts.reserve(1)?;
        self.firsts.push_reserved(draft);
        Ok(())
    }
}
