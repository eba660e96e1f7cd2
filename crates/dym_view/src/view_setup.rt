//! How what is published is opened: with the right to publish, and the right to read.
ghost use Rattle.std.specs.Prelude.{◌≡◌, [], drop, IfOk};
ghost use Rattle.left_right.specs.Sides.{view};
ghost use Rattle.dym_view.specs.Rules.{HasSeen, AreThis};

use crate::known_history::KnownHistory;
use crate::publication::{Other, Twice, ViewReader, ViewWriter, publish_at_last};
use left_right::writer::Writer;
use std::alloc::{AllocError, Global};
use std::sync::Wait;

/// For so many operations room is made. At most two stand in the list of a publisher.
const WAITING: u32 = 4;

/// The right to publish and the right to read, where this beginning of a history is shown.
///
/// Publications of what is shown already make room for the operations to come, and let the pen see the history.
pub(crate) fn open_both<R: Wait>(
    rt: &R,
    alloc: Global,
    known: &KnownHistory,
) -> Result<(ViewWriter, ViewReader), AllocError>
    ensures shown { IfOk result (λ both. both.0.desk.shown.value ≡ known.now) }
    ensures waiting { IfOk result (λ both. drop both.0.behind both.0.log.items ≡ []) }
    ensures view_reader { IfOk result (λ both. HasSeen known.now.history (view both.1.place)) }
{
    let mut view_writer = open_view_writer(alloc, known)?;
    let room = make_room(&mut view_writer, known);
    publish_at_last(&mut view_writer, rt);
    publish_at_last(&mut view_writer, rt);
    let view_reader = open_view_reader(&mut view_writer);
    match room.and(view_reader) {
        Ok(view_reader) => Ok((view_writer, view_reader)),
        Err(error) => {
            drop(view_writer.take(rt));
            Err(error)
        }
    }
}

/// The right to publish.
fn open_view_writer(alloc: Global, known: &KnownHistory) -> Result<ViewWriter, AllocError>
    ensures shown { IfOk result (λ view_writer. view_writer.desk.shown.value ≡ known.now) }
    ensures waiting { IfOk result (λ view_writer. drop view_writer.behind view_writer.log.items
        ≡ []) }
{
    let first = known.again()?;
    let second = known.again()?;
    Writer::new(alloc, first, second, 1)
}

/// Makes room for operations, by some that change nothing.
fn make_room(view_writer: &mut ViewWriter, known: &KnownHistory) -> Result<(), AllocError>
    requires { AreThis known.now (drop view_writer.old.behind view_writer.old.log.items) }
    ensures desk { view_writer.new.desk ≡ view_writer.old.desk }
    ensures waiting { AreThis known.now (drop view_writer.new.behind view_writer.new.log.items) }
{
    for _ in 0..WAITING {
        let same = known.again()?;
        view_writer.append(same).map_err(|_| AllocError)?;
    }
    Ok(())
}

/// The right to read. It has seen what the pen has.
fn open_view_reader(view_writer: &mut ViewWriter) -> Result<ViewReader, AllocError>
    requires { HasSeen view_writer.old.desk.shown.value.history (view view_writer.old.desk.place) }
    ensures shown { view_writer.new.desk.shown ≡ view_writer.old.desk.shown }
    ensures waiting { drop view_writer.new.behind view_writer.new.log.items
        ≡ drop view_writer.old.behind view_writer.old.log.items }
    ensures view_reader { IfOk result
        (λ view_reader. HasSeen view_writer.old.desk.shown.value.history (view view_reader.place)) }
{
    let mut view_reader = view_writer.factory().reader()?;
    view_reader.learn::<Other>(view_writer.tell::<Twice>());
    Ok(view_reader)
}
