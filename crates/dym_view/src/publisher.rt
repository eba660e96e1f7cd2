//! The publisher of a history.
ghost use Rattle.std.specs.Prelude.{◌≡◌, ◌<◌, [], ◌∷◌, ◌++◌, length, IfOk, OnOk, OnErr};
ghost use Rattle.dym_base.specs.declared.limits.TheConstants.{COUNT_LIMIT};
ghost use Rattle.dym_view.specs.Answers.{glance_of};
ghost use Rattle.dym_view.specs.Histories.{IsHistory, last_time, MayFollow};

use crate::commit::Commit;
use crate::glance::Glance;
use crate::history_rule::{Head, open_history};
use crate::known_history::KnownHistory;
use crate::publication::{ViewWriter, show};
use crate::told::Told;
use crate::view_setup::open_both;
use crate::viewer::Viewer;
use std::alloc::{AllocError, Global};
use std::marker::Model;
use std::sync::Wait;

/// Publishes commits, each of which its history then has for good.
///
/// Contracts see the name of the history, which no call changes, and its commits. What is shown to the viewer is the last of them, and
/// nothing waits to be shown. The history has no commits but those: no one else adds to it. A publisher can't be let go: `end` gives it up.
pub struct Publisher {
    head: Head,
    known: KnownHistory,
    view_writer: ViewWriter,
}

impl Model for Publisher {
    ghost use Rattle.std.specs.Prelude.{◌≡◌, [], drop};
    ghost use Rattle.std.specs.Coded.{codes};
    ghost use Rattle.logbook.specs.Pages.{book_coded};
    ghost use Rattle.dym_heap.specs.Meaning.{live_code};
    ghost use Rattle.dym_view.specs.Histories.{Beginning, IsHistory};

    ghost Value = { Beginning };

    ghost coded = { Prim.hlevel (codes, live_code, book_coded) };

    ghost view = { λ p. p.known };

    ghost invariant = { λ p. IsHistory p.known.commits × (p.head ≡ p.known)
        × (p.view_writer.desk.shown.value ≡ p.known)
        × (drop p.view_writer.behind p.view_writer.log.items ≡ []) };
}

/// A history with no commit: its publisher, and its viewer, which may go to another thread.
pub fn open_view<R: Wait>(rt: &R, alloc: Global) -> Result<(Publisher, Viewer), AllocError>
    ensures publisher { IfOk result (λ both. both.0.commits ≡ []) }
    ensures viewer { IfOk result (λ both. both.1 ≡ both.0) }
{
    let head = open_history(rt);
    let known = KnownHistory::start(head.reached());
    let same = known.again()?;
    let (view_writer, view_reader) = open_both(rt, alloc, &known)?;
    Ok((
        Publisher {
            head,
            known,
            view_writer,
        },
        Viewer {
            view_reader,
            known: same,
        },
    ))
}

impl Publisher {
    /// The time of the last commit.
    pub fn last_time(&self) -> Option<u64>
        ensures time { result ≡ last_time self.now.commits }
    {
        self.known.last_time()
    }

    /// The last commit at a glance, as a viewer sees it that knows all of the history.
    pub fn last(&self) -> Option<Glance>
        ensures glance { result ≡ glance_of self.now.commits }
    {
        self.known.glance()
    }

    /// Appends a commit to the history and shows it to the viewer. It waits for a viewer that still reads what was shown before.
    ///
    /// An `AllocError` comes where there is no memory for it. The commit is then gone, and nothing else changed.
    pub fn publish<R: Wait>(
        &mut self,
        rt: &R,
        alloc: Global,
        commit: Commit,
    ) -> Result<(), AllocError>
        requires room { length self.old.commits < COUNT_LIMIT }
        requires later { MayFollow self.old.commits commit.time }
        ensures published { OnOk result (self.new
            ≡ record { history = self.old.history; commits = self.old.commits ++ commit ∷ [] }) }
        ensures refused { OnErr result (self.new ≡ self.old) }
        ensures history { IsHistory self.new.commits }
    {
        let (known, shown) = self.known.follow(&mut self.head, alloc, commit)?;
        show(&mut self.view_writer, rt, shown);
        self.known = known;
        Ok(())
    }

    /// The whole history as it is now, for a viewer to learn. An `AllocError` comes where its last commit can't be shared.
    pub fn tell(&mut self) -> Result<Told, AllocError>
        ensures told { IfOk result (λ told. told ≡ self.old) }
        ensures same { self.new ≡ self.old }
    {
        Ok(Told {
            known: self.known.again()?,
        })
    }

    /// Gives the publisher up. Its viewer keeps the last commit that it knows.
    pub fn end<R: Wait>(self, rt: &R) {
        let Publisher {
            head: _,
            known: _,
            view_writer,
        } = self;
        drop(view_writer.take(rt));
    }
}
