//! A shelf gets the areas and the use bits of a record.
ghost use Rattle.std.specs.Prelude.{◌≡◌, ℕ, ◌/◌, ◌≤◌, ◌<◌, slice_index, sum};
ghost use Rattle.std.specs.FinMap.{contains_key};
ghost use Rattle.dym_base.specs.Numbers.{per, rank, exponent_of, index_of, IsClass};
ghost use Rattle.dym_base.specs.Heaps.{areas, held};
ghost use Rattle.dym_pack.specs.ParsedAreas.{OfLog, IsRecord};
ghost use Rattle.dym_heap.specs.Shelves.{IsValidShelf, IsTidy, Keeps, count_of};
ghost use Rattle.dym_heap.specs.Fetches.{heap_chunk, IsReshaped, IsAreaChange};

use crate::shelf::Shelf;
use dym_base::Class;
use dym_base::limits::{CLASSES, GREATEST_EXPONENT, LEAST_EXPONENT};
use dym_pack::Record;
use dym_quota::Supply;

/// Gives back the areas that a record lacks, takes those that are missing, and takes the use bits from the record. Chunks that were
/// live and not touched keep their bytes; each other live one is touched.
pub(crate) fn shape_shelf<S: Supply>(shelf: &mut Shelf<S>, way: &S::Way, rec: &Record)
    requires tidy { IsTidy shelf.old }
    requires within { OfLog rec.now (λ log. held log.copy ≤ shelf.old.quota) }
    ensures shaped { OfLog rec.now (λ log.
        (k : ℕ) → IsReshaped (contains_key log.copy k)
        (heap_chunk shelf.old.state k) (heap_chunk shelf.new.state k)) }
    ensures keeps { Keeps shelf.old shelf.new }
    ensures tidy { IsTidy shelf.new }
{
    let counts = count_areas(rec);
    give_areas(shelf, way, &counts);
    take_areas(shelf, way, &counts);
    use_areas(shelf, rec);
}

/// How many areas of each class a record has.
fn count_areas(rec: &Record) -> [u32; CLASSES]
    ensures are { OfLog rec.now (λ log.
        (e : ℕ) → IsClass e → slice_index result (rank e) ≡ areas log.copy e) }
    ensures total { (quota : ℕ) → OfLog rec.now (λ log. held log.copy ≤ quota)
        → sum result ≤ quota }
{
    let mut counts = [0; CLASSES];
    for k in 0..rec.area_count() {
        let rank = rec.area_class(k).rank();
        counts[rank] = counts[rank].max(rec.area_ordinal(k) + 1);
    }
    counts
}

/// Gives back the last areas of each class that has more than it should have.
fn give_areas<S: Supply>(shelf: &mut Shelf<S>, way: &S::Way, counts: &[u32; CLASSES])
    requires valid_shelf { IsValidShelf shelf.old }
    ensures most { (e : ℕ) → IsClass e → count_of shelf.new e ≤ slice_index counts.now (rank e) }
    ensures agree { (k : ℕ)
        → index_of k / per (exponent_of k) < slice_index counts.now (rank (exponent_of k))
        → heap_chunk shelf.new.state k ≡ heap_chunk shelf.old.state k }
    ensures keeps { Keeps shelf.old shelf.new }
    ensures valid_shelf { IsValidShelf shelf.new }
{
    for exp in LEAST_EXPONENT..GREATEST_EXPONENT + 1 {
        let class = Class { exp };
        let count = counts[class.rank()];
        while shelf.areas(class) > count {
            shelf.give_last(way, class);
        }
    }
}

/// Takes areas for each class that has fewer than it should have.
fn take_areas<S: Supply>(shelf: &mut Shelf<S>, way: &S::Way, counts: &[u32; CLASSES])
    requires valid_shelf { IsValidShelf shelf.old }
    requires most { (e : ℕ) → IsClass e → count_of shelf.old e ≤ slice_index counts.now (rank e) }
    requires within { sum counts.now ≤ shelf.old.quota }
    ensures are { (e : ℕ) → IsClass e → count_of shelf.new e ≡ slice_index counts.now (rank e) }
    ensures state { shelf.new.state ≡ shelf.old.state }
    ensures keeps { Keeps shelf.old shelf.new }
    ensures valid_shelf { IsValidShelf shelf.new }
{
    for exp in LEAST_EXPONENT..GREATEST_EXPONENT + 1 {
        let class = Class { exp };
        let count = counts[class.rank()];
        while shelf.areas(class) < count {
            shelf.add_area(way, class);
        }
    }
}

/// Takes the use bits of each area from the record.
fn use_areas<S: Supply>(shelf: &mut Shelf<S>, rec: &Record)
    requires valid_shelf { IsValidShelf shelf.old }
    requires are { OfLog rec.now (λ log.
        (e : ℕ) → IsClass e → count_of shelf.old e ≡ areas log.copy e) }
    ensures shaped { OfLog rec.now (λ log.
        (k : ℕ) → IsReshaped (contains_key log.copy k)
        (heap_chunk shelf.old.state k) (heap_chunk shelf.new.state k)) }
    ensures same { shelf.new ≡ record shelf.old { state = shelf.new.state } }
    ensures tidy { IsTidy shelf.new }
{
    for k in 0..rec.area_count() {
        use_area(shelf, rec, k);
    }
}

/// Takes the use bits of area `k` from the record.
fn use_area<S: Supply>(shelf: &mut Shelf<S>, rec: &Record, k: u32)
    requires area { OfLog rec.now (λ log. k < held log.copy) }
    requires recorded { IsRecord rec.now }
    requires are { OfLog rec.now (λ log.
        (e : ℕ) → IsClass e → count_of shelf.old e ≡ areas log.copy e) }
    ensures shaped { OfLog rec.now (λ log.
        IsAreaChange log.copy k shelf.old.state shelf.new.state (λ q old new.
        IsReshaped (contains_key log.copy q) old new)) }
    ensures same { shelf.new ≡ record shelf.old { state = shelf.new.state } }
    ensures valid_shelf { IsValidShelf shelf.new }
{
    shelf.shape_area(rec.area_class(k), rec.area_ordinal(k), rec.use_bytes(k));
}
