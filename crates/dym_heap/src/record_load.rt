//! A record's packed chunks are put over those of a shelf.
ghost use Rattle.std.specs.Prelude.{◌≡◌};
ghost use Rattle.dym_pack.specs.ParsedAreas.{OfLog};
ghost use Rattle.dym_heap.specs.RecordLoads.{IsLoaded};
ghost use Rattle.dym_heap.specs.Shelves.{IsTidy};

use crate::shelf::Shelf;
use dym_pack::Record;
use dym_quota::Supply;

/// Writes the bytes, and in version 2 the length, of each chunk that the record packs and that is in use.
pub(crate) fn load_record<S: Supply>(shelf: &mut Shelf<S>, rec: &Record)
    requires version { OfLog rec.now (λ log. log.version ≡ shelf.old.version) }
    requires tidy { IsTidy shelf.old }
    ensures loaded { OfLog rec.now (λ log.
        IsLoaded log shelf.old.state.live shelf.new.state.live) }
    ensures touched { shelf.new.state.touched ≡ shelf.old.state.touched }
    ensures same { shelf.new ≡ record shelf.old { state = shelf.new.state } }
    ensures tidy { IsTidy shelf.new }
{
    for k in 0..rec.area_count() {
        let class = rec.area_class(k);
        let ordinal = rec.area_ordinal(k);
        let packed = rec.packed_bits(k);
        shelf.load_area(class, ordinal, &packed, rec.body(k));
    }
}
