//! Whether a record may stand behind another.
ghost use Rattle.std.specs.Prelude.{◌≡◌, ℕ, ◌<◌, ◌≤◌, true, false, None, IfSome, IsSome};
ghost use Rattle.dym_base.specs.Heaps.{held};
ghost use Rattle.dym_base.specs.LawfulLists.{MayFollow};
ghost use Rattle.dym_pack.specs.Areas.{area_at};
ghost use Rattle.dym_pack.specs.ParsedAreas.{OfLog};
ghost use Rattle.dym_ckpt.specs.RecordOrder.{IsBased, AreaIsBased, named};

use crate::bit_cover::are_covered;
use dym_base::Kind;
use dym_pack::{AreaHead, Record};

/// Whether a record may stand behind another: it is later, and where it is incremental each chunk that it uses and doesn't pack
/// is used in the other.
pub(crate) fn may_follow(before: &Record, rec: &Record) -> bool
    ensures may { result ≡ true → OfLog before.now (λ b. OfLog rec.now (λ log. MayFollow b log)) }
    ensures never { result ≡ false → OfLog before.now
        (λ b. OfLog rec.now (λ log. MayFollow b log → ⊥)) }
{
    before.time() < rec.time() && (rec.kind() == Kind::Full || is_based(before, rec))
}

/// Whether each chunk that a record uses and doesn't pack is used in another.
fn is_based(before: &Record, rec: &Record) -> bool
    ensures is { result ≡ true → OfLog before.now (λ b. OfLog rec.now (λ log. IsBased b log)) }
    ensures fails { result ≡ false → OfLog before.now
        (λ b. OfLog rec.now (λ log. IsBased b log → ⊥)) }
{
    let mut from = 0;
    for k in 0..rec.area_count() {
        match area_is_based(before, rec, k, from) {
            Some(place) => from = place,
            None => return false,
        }
    }
    true
}

/// Whether each chunk of area `k` that a record uses and doesn't pack is used in another: at None it isn't. The area of the other
/// record is looked for from area `from` on first; the answer is where the next one is to be looked for, as areas rise in both.
fn area_is_based(before: &Record, rec: &Record, k: u32, from: u32) -> Option<u32>
    requires area { OfLog rec.now (λ log. k < held log.copy) }
    ensures is { IsSome result → OfLog before.now
        (λ b. OfLog rec.now (λ log. AreaIsBased b log k)) }
    ensures fails { result ≡ None → OfLog before.now
        (λ b. OfLog rec.now (λ log. AreaIsBased b log k → ⊥)) }
{
    let used = rec.use_bytes(k);
    let packed = rec.packed_bits(k).bytes();
    if are_covered(used, &packed, &[]) {
        return Some(from);
    }
    let AreaHead {
        exp,
        ordinal,
        packed: _,
    } = rec.area(k);
    let place = place_of(before, exp, ordinal, from)?;
    if are_covered(used, &packed, before.use_bytes(place)) {
        Some(place)
    } else {
        None
    }
}

/// Where an area stands in a record, looked for from area `from` on and then from the first on.
fn place_of(rec: &Record, exp: u8, ordinal: u32, from: u32) -> Option<u32>
    ensures is { IfSome result (λ place.
        OfLog rec.now (λ log. (place < held log.copy)
        × (area_at log.copy place ≡ named exp ordinal))) }
    ensures none { result ≡ None → OfLog rec.now
        (λ log. (place : ℕ) → place < held log.copy → area_at log.copy place ≡ named exp ordinal
        → ⊥) }
{
    let count = rec.area_count();
    match place_within(rec, exp, ordinal, from, count) {
        Some(place) => Some(place),
        None => place_within(rec, exp, ordinal, 0, count),
    }
}

/// Where an area stands in a record, among the areas from `from` to before `to`.
fn place_within(rec: &Record, exp: u8, ordinal: u32, from: u32, to: u32) -> Option<u32>
    requires within { OfLog rec.now (λ log. to ≤ held log.copy) }
    ensures is { IfSome result (λ place.
        OfLog rec.now (λ log. (place < held log.copy)
        × (area_at log.copy place ≡ named exp ordinal))) }
    ensures none { result ≡ None → OfLog rec.now
        (λ log. (place : ℕ) → from ≤ place → place < to
        → area_at log.copy place ≡ named exp ordinal → ⊥) }
{
    for place in from..to {
        let area = rec.area(place);
        if is_named(area, exp, ordinal) {
            return Some(place);
        }
    }
    None
}

/// Whether an area is of this class and has this ordinal.
fn is_named(area: AreaHead, exp: u8, ordinal: u32) -> bool
    ensures is { result ≡ true → (area.exp ≡ exp) × (area.ordinal ≡ ordinal) }
    ensures other { result ≡ false → area.exp ≡ exp → area.ordinal ≡ ordinal → ⊥ }
{
    let AreaHead {
        exp: its_exp,
        ordinal: its_ordinal,
        packed: _,
    } = area;
    its_exp == exp && its_ordinal == ordinal
}
