//! Where a work came from.
use std::marker::Model;

/// Where a work came from, as contracts see it. No value of it is made.
pub struct WorkOrigin;

impl Model for WorkOrigin {
    ghost use Rattle.std.specs.Coded.{codes};
    ghost use Rattle.logbook.specs.Pages.{book_coded};
    ghost use Rattle.dym_wave.specs.Works.{OriginMeaning, no_origin};

    ghost Value = { OriginMeaning };

    ghost coded = { Prim.hlevel (codes, book_coded) };

    ghost view = { λ _. no_origin };
}
