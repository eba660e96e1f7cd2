//! The viewer of a history.
ghost use Rattle.std.specs.Prelude.{◌≡◌, ◌⊎◌, length, OnOk};
ghost use mathlib.Core.List.{IsPrefix};
ghost use Rattle.left_right.specs.Sides.{view as view_of};
ghost use Rattle.dym_view.specs.Answers.{glance_of, seen_of, read_of};
ghost use Rattle.dym_view.specs.Histories.{IsHistory};
ghost use Rattle.dym_view.specs.Rules.{HasSeen, Knows};

use crate::glance::{Glance, Seen};
use crate::known_history::KnownHistory;
use crate::publication::{Unread, ViewReader, look_through};
use crate::told::Told;
use core::mem::replace_with;
use dym_base::Handle;
use std::marker::Model;

/// Sees the last commit of a history that it knows of, in any thread.
///
/// Contracts see the name of the history, which no call changes, and the commits that are known: a beginning of the history, which only
/// grows. What is published at a look is known after it; where that can't be read or shared, what is known stays. No call takes memory or
/// waits.
#[derive(Drop)]
pub struct Viewer {
    pub(crate) view_reader: ViewReader,
    pub(crate) known: KnownHistory,
}

impl Model for Viewer {
    ghost use Rattle.std.specs.Coded.{codes};
    ghost use Rattle.logbook.specs.Pages.{book_coded};
    ghost use Rattle.left_right.specs.Sides.{view as view_of};
    ghost use Rattle.dym_heap.specs.Meaning.{live_code};
    ghost use Rattle.dym_view.specs.Histories.{Beginning};
    ghost use Rattle.dym_view.specs.Rules.{HasSeen};

    ghost Value = { Beginning };

    ghost coded = { Prim.hlevel (codes, live_code, book_coded) };

    ghost view = { λ v. v.known };

    ghost invariant = { λ v. HasSeen v.known.history (view_of v.view_reader.place) };
}

impl Viewer {
    /// Knows from now on what was told, too.
    pub fn learn(&mut self, told: Told)
        requires { told.history ≡ self.old.history }
        ensures name { self.new.history ≡ self.old.history }
        ensures one { (self.new.commits ≡ self.old.commits) ⊎ (self.new.commits ≡ told.commits) }
        ensures known { IsPrefix self.old.commits self.new.commits }
        ensures told { IsPrefix told.commits self.new.commits }
        ensures history { IsHistory self.new.commits }
    {
        let Told { known } = told;
        self.known.learn(known);
    }

    /// The last commit that is known, after a look at what is published.
    pub fn look(&mut self) -> Option<Glance>
        ensures name { self.new.history ≡ self.old.history }
        ensures known { IsPrefix self.old.commits self.new.commits }
        ensures history { IsHistory self.new.commits }
        ensures glance { result ≡ glance_of self.new.commits }
    {
        let _ = refresh(&mut self.view_reader, &mut self.known);
        self.known.glance()
    }

    /// Copies the bytes of a chunk of the last commit that is known, from its place `at` on, after a look at what is published. Where the
    /// copy hasn't these bytes, `out` stays.
    pub fn read(&mut self, h: Handle, at: u32, out: &mut [u8]) -> Seen
        ensures name { self.new.history ≡ self.old.history }
        ensures known { IsPrefix self.old.commits self.new.commits }
        ensures history { IsHistory self.new.commits }
        ensures seen { result ≡ seen_of self.new.commits h at (length out.old) }
        ensures out { out.new ≡ read_of self.new.commits h at out.old }
    {
        let _ = refresh(&mut self.view_reader, &mut self.known);
        let number = self.known.number();
        match self.known.last() {
            Some(commit) if commit.read(h, at, out) => Seen::Bytes { number },
            Some(_) => Seen::Missing { number },
            None => Seen::Nothing,
        }
    }
}

/// Makes known what is published, where it can be read and shared.
fn refresh(view_reader: &mut ViewReader, known: &mut KnownHistory) -> Result<(), Unread>
    requires { HasSeen known.old.history (view_of view_reader.old.place) }
    ensures view_reader { HasSeen known.new.history (view_of view_reader.new.place) }
    ensures name { known.new.history ≡ known.old.history }
    ensures grows { IsPrefix known.old.commits known.new.commits }
    ensures taken { OnOk result (Knows known.new (view_of view_reader.new.place)) }
{
    if let Some(newer) = replace_with(view_reader, &*known, look_through)? {
        *known = newer;
    }
    Ok(())
}
