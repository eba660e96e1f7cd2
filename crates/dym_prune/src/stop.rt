//! A stop: one shared word, by which one thread asks another to end.
ghost use Rattle.std.specs.Prelude.{◌≡◌, ◌+◌, true, false, IfOk, IsTrue, IsFalse};
ghost use Rattle.dym_prune.specs.Stops.{AskerMeaning, EarMeaning, stop_view};

use crate::stop_view::StopView;
use atomic_table::{Play, Seat, Split, Table, TableRule};
use std::alloc::{AllocError, Global};
use std::marker::Model;
use std::sync::{Arc, Wait};
use std::time::Duration;

/// A stop, which is two ends of one word.
pub struct Stop;

/// The rule of the word and of what the ends know.
pub struct StopRule;

impl TableRule<(), StopView, ()> for StopRule {
    ghost use Rattle.std.specs.Prelude.{true, false};
    ghost use Rattle.dym_prune.specs.Stops.{stop_view, IsStop};

    ghost holds = { λ _. IsStop };

    ghost first = { λ _. stop_view true false false 0 };
}

/// The first end keeps asking, and the second one listens.
struct Ends;

impl Split<StopView> for Ends {
    ghost use Rattle.std.specs.Prelude.{true, false};
    ghost use Rattle.dym_prune.specs.Stops.{stop_view};

    ghost left = { λ v. stop_view true v.asked false 0 };

    ghost right = { λ v. stop_view false false false 0 };
}

/// The step of an end that asks.
struct Ask;

impl Play<(), StopView> for Ask {
    ghost use Rattle.dym_prune.specs.Stops.{Asks};

    ghost then = { λ _ me _ after. Asks me after };
}

/// The step of an end that listens.
struct Listen;

impl Play<(), StopView> for Listen {
    ghost use Rattle.dym_prune.specs.Stops.{Listens};

    ghost then = { λ _ me n after. Listens me n after };
}

type StopTable = Table<(), StopView, (), StopRule, Global>;

type End = Seat<(), StopView>;

/// The end of a stop that asks for it. Contracts see of which stop it is, and whether it has asked.
#[derive(Drop)]
pub struct Asker {
    table: Arc<StopTable, Global>,
    seat: End,
    ghost seated: { (seat.table_id ≡ table.value.shared.table_id)
        × (table.value.shared.table_id.words ≡ 1) },
    ghost asks: { seat.me.0.asks ≡ true },
}

impl Model for Asker {
    ghost use Rattle.dym_slots.specs.Meanings.{name_of};
    ghost use Rattle.dym_prune.specs.Stops.{AskerMeaning};

    ghost Value = { AskerMeaning };

    ghost view = { λ a. record { stop = name_of a.seat.table_id; asked = a.seat.me.0.asked } };
}

/// The end of a stop that hears of it. Contracts see of which stop it is, whether it has heard, and how often it listened and found
/// nothing.
#[derive(Drop)]
pub struct Ear {
    table: Arc<StopTable, Global>,
    seat: End,
    heard: bool,
    ghost seated: { (seat.table_id ≡ table.value.shared.table_id)
        × (table.value.shared.table_id.words ≡ 1) },
    ghost knows: { seat.me.0.heard ≡ heard },
}

impl Model for Ear {
    ghost use Rattle.dym_slots.specs.Meanings.{name_of};
    ghost use Rattle.dym_prune.specs.Stops.{EarMeaning};

    ghost Value = { EarMeaning };

    ghost view = { λ e. record { stop = name_of e.seat.table_id; heard = e.heard; misses = e.seat.me.0.misses } };
}

impl Stop {
    /// A stop that nobody has asked for.
    pub fn open(alloc: Global) -> Result<(Asker, Ear), AllocError>
        ensures asker { IfOk result (λ ends. ends.0.asked ≡ false) }
        ensures ear { IfOk result (λ ends. ends.1
            ≡ record { stop = ends.0.stop; heard = false; misses = 0 }) }
    {
        let (words, mut seat) = StopTable::of_words(alloc, &[0], &())?;
        let table = Arc::new(alloc, words)?;
        let theirs = Arc::try_clone(&table)?;
        let ear = table.shared.split_seat::<Ends>(&mut seat);
        let asker = Asker { table, seat };
        Ok((
            asker,
            Ear {
                table: theirs,
                seat: ear,
                heard: false,
            },
        ))
    }
}

impl Asker {
    /// Asks for the stop, and wakes the end that rests. It may be asked for again.
    pub fn ask(&mut self)
        ensures { self.new ≡ record { stop = self.old.stop; asked = true } }
    {
        self.table.shared.store::<Ask>(&mut self.seat, 0, 1);
        self.table.shared.wake_one(0);
    }
}

impl Ear {
    /// Whether the stop was asked for, by one load of the word. Once this end has heard, the answer is always true.
    pub fn asked(&mut self) -> bool
        ensures found { IsTrue result → self.new
            ≡ record { stop = self.old.stop; heard = true; misses = self.old.misses } }
        ensures missed { IsFalse result → self.new
            ≡ record { stop = self.old.stop; heard = false; misses = self.old.misses + 1 } }
        ensures again { self.old.heard ≡ true → IsTrue result }
    {
        let found = self.table.shared.load::<Listen>(&mut self.seat, 0);
        if found == 0 {
            return false;
        }
        self.heard = true;
        true
    }

    /// Sleeps until the stop is asked for, but no longer than this, and answers as `asked` does. It may also end early.
    pub(crate) fn asked_within<R: Wait>(&mut self, rt: &R, longest: Duration) -> bool
        ensures found { IsTrue result → self.new
            ≡ record { stop = self.old.stop; heard = true; misses = self.old.misses } }
        ensures missed { IsFalse result → self.new
            ≡ record { stop = self.old.stop; heard = false; misses = self.old.misses + 1 } }
    {
        self.table.shared.park_timeout(rt, 0, 0, longest);
        self.asked()
    }

    /// Whether this end has heard.
    pub fn heard(&self) -> bool
        ensures { result ≡ self.now.heard }
    {
        self.heard
    }
}
