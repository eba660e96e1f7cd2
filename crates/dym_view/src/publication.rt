//! What is published: a beginning of a history. Each seat that reads or writes it knows its history by what it has seen.
ghost use Rattle.std.specs.Prelude.{◌≡◌, [], ◌∷◌, ◌++◌, IfSome, IfOk, MatchResult, drop};
ghost use mathlib.Core.List.{IsPrefix};
ghost use Rattle.left_right.specs.Sides.{view};
ghost use Rattle.dym_view.specs.Rules.{HasSeen, Knows, known_after, AreOf, last_of};

use crate::known_history::KnownHistory;
use atomic_table::{Join, Split};
use core::mem::replace_with;
use crossbeam_utils::rule::{Outcome, Protocol};
use left_right::Absorb;
use left_right::reader::Reader;
use left_right::writer::Writer;
use std::alloc::AllocError;
use std::sync::Wait;
use std::thread;

/// An operation is a beginning of the history, which replaces what stood before.
impl Absorb<KnownHistory> for KnownHistory {
    type State = KnownHistory;

    ghost state = { λ known. known };

    ghost applied = { λ before newer. newer };

    fn absorb_first(
        &mut self,
        operation: &KnownHistory,
        _other: &KnownHistory,
    ) -> Result<(), AllocError> {
        *self = operation.again()?;
        Ok(())
    }
}

/// The rule: what seats have seen is of the history that is published.
pub(crate) struct OneHistory;

impl Protocol<KnownHistory, Option<KnownHistory>> for OneHistory {
    ghost use Rattle.std.specs.Prelude.{None};
    ghost use Rattle.dym_view.specs.Rules.{AreOfPublished};

    ghost holds = { AreOfPublished };

    ghost first = { None };
}

/// A seat takes what is published.
pub(crate) struct Take;

impl Outcome<KnownHistory, Option<KnownHistory>> for Take {
    ghost use Rattle.dym_view.specs.Rules.{Takes};

    ghost then = { Takes };
}

/// Two seats have seen what one had.
pub(crate) struct Twice;

impl Split<Option<KnownHistory>> for Twice {
    ghost left = { λ seen. seen };

    ghost right = { λ seen. seen };
}

/// A seat has seen what another had.
pub(crate) struct Other;

impl Join<Option<KnownHistory>> for Other {
    ghost use Rattle.std.specs.Prelude.{None};

    ghost both = { λ seen other. other };

    ghost spent = { None };
}

/// The right to publish.
pub(crate) type ViewWriter = Writer<KnownHistory, KnownHistory, Option<KnownHistory>, OneHistory>;

/// The right to read what is published.
pub(crate) type ViewReader = Reader<KnownHistory, Option<KnownHistory>, OneHistory>;

/// Shows a beginning of the history in the place of what was shown. It ends once that is shown: nothing is left to be wanting then.
///
/// Room for the operation was made when the pen was opened, so that it takes no memory.
pub(crate) fn show<R: Wait>(view_writer: &mut ViewWriter, rt: &R, known: KnownHistory)
    requires history { known.history ≡ view_writer.old.desk.shown.value.history }
    requires waiting { drop view_writer.old.behind view_writer.old.log.items ≡ [] }
    ensures shown { view_writer.new.desk.shown.value ≡ known }
    ensures waiting { drop view_writer.new.behind view_writer.new.log.items ≡ [] }
{
    append_at_last(view_writer, rt, known);
    publish_at_last(view_writer, rt);
}

/// Lets a beginning of the history wait to be published. Where there is no room for it, it is tried again.
fn append_at_last<R: Wait>(view_writer: &mut ViewWriter, rt: &R, known: KnownHistory)
    ensures desk { view_writer.new.desk ≡ view_writer.old.desk }
    ensures waiting { drop view_writer.new.behind view_writer.new.log.items
        ≡ drop view_writer.old.behind view_writer.old.log.items ++ known ∷ [] }
{
    let mut left = known;
    for _ in rt.forever() {
        match view_writer.append(left) {
            Ok(()) => return,
            Err(back) => left = back,
        }
        thread::yield_now();
    }
    unreachable!()
}

/// Publishes what waits. Where it can't be shared, it is tried again.
pub(crate) fn publish_at_last<R: Wait>(view_writer: &mut ViewWriter, rt: &R)
    requires { AreOf view_writer.old.desk.shown.value.history
        (drop view_writer.old.behind view_writer.old.log.items) }
    ensures shown { view_writer.new.desk.shown.value
        ≡ last_of view_writer.old.desk.shown.value
        (drop view_writer.old.behind view_writer.old.log.items) }
    ensures waiting { drop view_writer.new.behind view_writer.new.log.items ≡ [] }
    ensures seen { HasSeen view_writer.old.desk.shown.value.history
        (view view_writer.new.desk.place) }
{
    for _ in rt.forever() {
        if replace_with(view_writer, rt, publish_waiting::<R>).is_ok() {
            return;
        }
        thread::yield_now();
    }
    unreachable!()
}

/// Publishes what waits. It waits for an eye that still reads what was published before.
fn publish_waiting<R: Wait>(view_writer: ViewWriter, rt: &R) -> (ViewWriter, Result<(), AllocError>)
    requires { AreOf view_writer.desk.shown.value.history
        (drop view_writer.behind view_writer.log.items) }
    ensures shown { MatchResult result.1
        (λ _. (result.0.desk.shown.value ≡ last_of view_writer.desk.shown.value
        (drop view_writer.behind view_writer.log.items))
        × (drop result.0.behind result.0.log.items ≡ []))
        (λ _. (result.0.desk.shown.value ≡ view_writer.desk.shown.value)
        × (drop result.0.behind result.0.log.items
        ≡ drop view_writer.behind view_writer.log.items)) }
    ensures seen { IfOk result.1 (λ _. HasSeen view_writer.desk.shown.value.history
        (view result.0.desk.place)) }
{
    view_writer.publish_as::<Take, R>(rt)
}

/// That what is published can't be read or shared.
#[derive(Drop)]
pub(crate) struct Unread;

/// What is published, where it goes further than what is known.
pub(crate) fn look_through(
    view_reader: ViewReader,
    known: &KnownHistory,
) -> (ViewReader, Result<Option<KnownHistory>, Unread>)
    requires { HasSeen known.now.history (view view_reader.place) }
    ensures view_reader { HasSeen known.now.history (view result.0.place) }
    ensures history { IfOk result.1 (λ newer. IfSome newer
        (λ newer. newer.history ≡ known.now.history)) }
    ensures begins { IfOk result.1 (λ newer. IfSome newer
        (λ newer. IsPrefix known.now.commits newer.commits)) }
    ensures taken { IfOk result.1 (λ newer. Knows (known_after known.now newer)
        (view result.0.place)) }
{
    match view_reader.enter_as::<Take>() {
        Ok(reading) => {
            let newer = known.longer(reading.get());
            (reading.leave(), newer.map_err(|_| Unread))
        }
        Err(view_reader) => (view_reader, Err(Unread)),
    }
}
