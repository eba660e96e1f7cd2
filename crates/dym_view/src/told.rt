//! What a publisher tells.
ghost use Rattle.std.specs.Prelude.{◌≡◌, length};
ghost use Rattle.dym_view.specs.Histories.{IsHistory};

use crate::known_history::KnownHistory;
use std::marker::Model;

/// The whole history of a publisher at the moment when it told it. It keeps the last commit.
#[derive(Drop)]
pub struct Told {
    pub(crate) known: KnownHistory,
}

impl Model for Told {
    ghost use Rattle.std.specs.Coded.{codes};
    ghost use Rattle.logbook.specs.Pages.{book_coded};
    ghost use Rattle.dym_heap.specs.Meaning.{live_code};
    ghost use Rattle.dym_view.specs.Histories.{Beginning};

    ghost Value = { Beginning };

    ghost coded = { Prim.hlevel (codes, live_code, book_coded) };

    ghost view = { λ told. told.known };
}

impl Told {
    /// How many commits the history had.
    pub fn count(&self) -> u64
        ensures count { result ≡ length self.now.commits }
        ensures history { IsHistory self.now.commits }
    {
        self.known.number()
    }
}
