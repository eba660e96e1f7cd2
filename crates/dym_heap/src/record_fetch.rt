//! A record's packed chunks are marked in a shelf, or put over those of it that are touched.
ghost use Rattle.std.specs.Prelude.{◌≡◌, ℕ, ◌<◌, is_some};
ghost use Rattle.dym_base.specs.Heaps.{held};
ghost use Rattle.dym_base.specs.StandsFor.{packed_by};
ghost use Rattle.dym_pack.specs.ParsedAreas.{OfLog, IsRecord};
ghost use Rattle.dym_heap.specs.Shelves.{IsValidShelf, IsTidy};
ghost use Rattle.dym_heap.specs.Fetches.{heap_chunk, marked, fetched, IsAreaChange};

use crate::shelf::Shelf;
use dym_pack::Record;
use dym_quota::Supply;

/// Each chunk in use that the record packs is touched.
pub(crate) fn mark_record<S: Supply>(shelf: &mut Shelf<S>, rec: &Record)
    requires tidy { IsTidy shelf.old }
    ensures marked { OfLog rec.now (λ log.
        (k : ℕ) → heap_chunk shelf.new.state k
        ≡ marked (is_some (packed_by log k)) (heap_chunk shelf.old.state k)) }
    ensures same { shelf.new ≡ record shelf.old { state = shelf.new.state } }
    ensures tidy { IsTidy shelf.new }
{
    for k in 0..rec.area_count() {
        mark_area_of(shelf, rec, k);
    }
}

/// Each chunk in use of area `k` of the record that the record packs is touched.
fn mark_area_of<S: Supply>(shelf: &mut Shelf<S>, rec: &Record, k: u32)
    requires area { OfLog rec.now (λ log. k < held log.copy) }
    requires recorded { IsRecord rec.now }
    requires valid_shelf { IsValidShelf shelf.old }
    ensures marked { OfLog rec.now (λ log.
        IsAreaChange log.copy k shelf.old.state shelf.new.state (λ q old new.
        new ≡ marked (is_some (packed_by log q)) old)) }
    ensures same { shelf.new ≡ record shelf.old { state = shelf.new.state } }
    ensures valid_shelf { IsValidShelf shelf.new }
{
    if rec.body(k).is_empty() {
        return;
    }
    shelf.mark_area(rec.area_class(k), rec.area_ordinal(k), &rec.packed_bits(k));
}

/// Writes the bytes, and in version 2 the length, of each touched chunk that the record packs. They are touched no more.
pub(crate) fn fetch_record<S: Supply>(shelf: &mut Shelf<S>, rec: &Record)
    requires version { OfLog rec.now (λ log. log.version ≡ shelf.old.version) }
    requires tidy { IsTidy shelf.old }
    ensures fetched { OfLog rec.now (λ log.
        (k : ℕ) → heap_chunk shelf.new.state k
        ≡ fetched (packed_by log k) (heap_chunk shelf.old.state k)) }
    ensures same { shelf.new ≡ record shelf.old { state = shelf.new.state } }
    ensures tidy { IsTidy shelf.new }
{
    for k in 0..rec.area_count() {
        fetch_area_of(shelf, rec, k);
    }
}

/// Writes the bytes, and in version 2 the length, of each touched chunk of area `k` that the record packs. They are touched no
/// more.
fn fetch_area_of<S: Supply>(shelf: &mut Shelf<S>, rec: &Record, k: u32)
    requires area { OfLog rec.now (λ log. k < held log.copy) }
    requires recorded { IsRecord rec.now }
    requires version { OfLog rec.now (λ log. log.version ≡ shelf.old.version) }
    requires valid_shelf { IsValidShelf shelf.old }
    ensures fetched { OfLog rec.now (λ log.
        IsAreaChange log.copy k shelf.old.state shelf.new.state
        (λ q old new. new ≡ fetched (packed_by log q) old)) }
    ensures same { shelf.new ≡ record shelf.old { state = shelf.new.state } }
    ensures valid_shelf { IsValidShelf shelf.new }
{
    let body = rec.body(k);
    if body.is_empty() {
        return;
    }
    shelf.fetch_area(
        rec.area_class(k),
        rec.area_ordinal(k),
        &rec.packed_bits(k),
        body,
    );
}
