//! An object with its commands, which is run turn by turn.
ghost use Rattle.std.specs.Prelude.{◌≡◌, ◌≤◌, true, [], length, None, IfSome, IsTrue, IsFalse, option_map};
ghost use Rattle.dym_base.specs.declared.limits.TheConstants.{MOST_COMMANDS, MOST_QUANTUM};
ghost use Rattle.dym_io.specs.Sink.{Writes};
ghost use Rattle.dym_wave.specs.Results.{IsTallyOf, origin_shown, shown_text};
ghost use Rattle.dym_wave.specs.States.{CanTakeBerth, IsFreshKeep, IsStarted, origin_over};
ghost use Rattle.dym_wave.specs.Works.{IsOver};

use crate::object_end::{end_object, tally_of};
use crate::object_setup::open_object;
use crate::part_text::write_part;
use crate::publication::last_line;
use crate::work_state::{WorkSpec, WorkState};
use dym_base::limits::{MOST_COMMANDS, MOST_QUANTUM};
use dym_chain::SlotKeep;
use dym_io::{Sink, SinkFault, push_all};
use dym_quota::{Berth, Supply};
use dym_report::Tally;
use dym_view::Publisher;
use std::marker::Model;
use std::sync::Wait;

/// An object whose segments are from a queue and whose records are in log slots, with its own commands, and the publisher of its view where
/// that is told.
///
/// It is a job of a pool: a turn runs up to a quantum of commands, and publishes the oldest log that is kept then. The worker that first
/// takes it opens its object, and the one that runs its last command ends it: of the object stay the text of its part, where one is made,
/// and what it came to. Where the part is long, or there is no memory for its text, the object and its replies stay until the part is
/// written.
///
/// Where memory is wanting the work is short: it keeps that fact, and runs no more. Whoever has a work gives it up at the end, so that no
/// segment and no publisher is lost.
pub struct Work<R: Wait> {
    pub(crate) spec: WorkSpec,
    pub(crate) publisher: Option<Publisher>,
    pub(crate) state: WorkState<R>,
    pub(crate) short: bool,
}

impl<R: Wait> Model for Work<R> {
    ghost use Rattle.std.specs.Prelude.{◌≡◌, ◌<◌, ◌⊎◌, true, length, is_some};
    ghost use Rattle.std.specs.Coded.{codes};
    ghost use Rattle.logbook.specs.Pages.{book_coded};
    ghost use Rattle.dym_heap.specs.Meaning.{live_code};
    ghost use Rattle.dym_wave.specs.Works.{WorkMeaning, JobMeaning};

    ghost Value = { WorkMeaning };

    ghost coded = { Prim.hlevel (codes, live_code, book_coded) };

    ghost use Rattle.dym_wave.specs.States.{IsStarted, IsState, work_with};

    ghost view = { λ w. work_with w.spec w.state w.short w.publisher };

    // A work that has not started has commands to run, or is short.
    ghost invariant = { λ w. JobMeaning (work_with w.spec w.state w.short w.publisher)
        × IsState w.spec (is_some w.publisher) w.state
        × (IsStarted w.state ⊎ (0 < length w.spec.commands) ⊎ (w.short ≡ true)) };
}

impl<R: Wait> Work<R> {
    /// A work that has run nothing, over a berth and a keep, which publishes its oldest log where there is a publisher. One without
    /// commands is opened and ended here.
    pub fn new(
        rt: &R,
        spec: WorkSpec,
        berth: Berth<R>,
        keep: SlotKeep,
        publisher: Option<Publisher>,
    ) -> Work<R>
        requires few { length spec.commands ≤ MOST_COMMANDS }
        requires least { 1 ≤ spec.quantum }
        requires most { spec.quantum ≤ MOST_QUANTUM }
        requires berth { CanTakeBerth berth }
        requires keep { IsFreshKeep keep }
        requires empty { IfSome publisher (λ p. p.commits ≡ []) }
        ensures { result.origin ≡ record {
          number = spec.number;
          name = spec.name;
          quantum = spec.quantum;
          makes_text = spec.makes_text;
          commands = spec.commands;
          object = origin_over spec.version berth keep;
          history = option_map (λ p. p.history) publisher;
        } }
    {
        let waiting = WorkState::Waiting { berth, keep };
        if spec.commands.len() > 0 {
            return Work {
                spec,
                publisher,
                state: waiting,
                short: false,
            };
        }
        let (opened, ()) = open_object(waiting, &spec);
        let short = !opened.is_started();
        let (state, ()) = end_object(opened, (rt, &spec, last_line(&publisher)));
        Work {
            spec,
            publisher,
            state,
            short,
        }
    }

    /// Whether memory was wanting: an object wasn't opened, a command wasn't run, or a log wasn't published.
    pub fn short(&self) -> bool
        ensures { result ≡ self.now.short }
    {
        self.short
    }

    /// Writes what is printed of the object of a work that ran all its commands. The only error is that of the sink.
    pub fn write<W: Sink>(&self, sink: &mut W) -> Result<(), SinkFault>
        requires over { IsOver self.now }
        requires text { self.now.origin.makes_text ≡ true }
        ensures { Writes (W.output sink.old) (W.output sink.new)
            (shown_text (origin_shown self.now.origin)) result }
    {
        match &self.state {
            WorkState::Waiting { .. } => unreachable!(),
            WorkState::Running { turn, replies } => {
                let line = last_line(&self.publisher);
                write_part(sink, &self.spec.name, replies, &turn.object, line)
            }
            WorkState::Ended { text, .. } => push_all(sink, text),
        }
    }

    /// What the object of a work came to that ran all its commands.
    pub fn tally(&self) -> Tally
        requires { IsOver self.now }
        ensures { IsTallyOf result (origin_shown self.now.origin) }
    {
        match &self.state {
            WorkState::Waiting { .. } => unreachable!(),
            WorkState::Running { turn, replies } => tally_of(replies, &turn.object),
            WorkState::Ended { tally, .. } => *tally,
        }
    }

    /// Gives the work up, however far it is, and its publisher, where there is one. Answers the berth, to which all segments are back, and
    /// the keep.
    pub fn give_up(self, rt: &R) -> (Berth<R>, SlotKeep)
        ensures nothing_held { ⟦<Berth<R> as Supply>⟧.held_ids result.0 ≡ [] }
        ensures quota { ⟦<Berth<R> as Supply>⟧.quota_of result.0 ≡ self.origin.object.quota }
        ensures supply { ⟦<Berth<R> as Supply>⟧.origin result.0 ≡ self.origin.object.supply }
        ensures keep { result.1.origin ≡ self.origin.object.keep }
        ensures idle { result.1.lifted ≡ None }
    {
        let Work {
            spec: _,
            publisher,
            state,
            short: _,
        } = self;
        if let Some(publisher) = publisher {
            publisher.end(rt);
        }
        match state {
            WorkState::Waiting { berth, keep } => (berth, keep),
            WorkState::Running { turn, replies: _ } => turn.into_object().end(rt),
            WorkState::Ended {
                text: _,
                tally: _,
                berth,
                keep,
            } => (berth, keep),
        }
    }
}

impl<R: Wait> WorkState<R> {
    /// Whether the work has started.
    fn is_started(&self) -> bool
        ensures { IsTrue result → IsStarted self.now }
    {
        !matches!(self, WorkState::Waiting { .. })
    }
}
