//! The owner's steps on a log table, and what it does by several of them. Each atomic step is one step of the machine.
ghost use Rattle.std.specs.Prelude.{◌≡◌, ◌≢◌, ℕ, ◌<◌, ◌⊎◌, [], ◌∷◌, length, Some, None, IsTrue, IsFalse};
ghost use Rattle.dym_base.specs.declared.limits.TheConstants.{LOG_SLOTS, RECORD_ROOM};
ghost use Rattle.dym_slots.specs.declared.machine.TheConstants.{RECORD_NUMBERS};
ghost use Rattle.dym_slots.specs.declared.machine.Slot.TheVariants.{Live};
ghost use Rattle.dym_slots.specs.declared.view.SeatView.TheVariants.{Owns};
ghost use Rattle.dym_slots.specs.SeatViews.{glimpse, owner_of, IsOwner, holding, with_put, lowered, newest_of, newest_freed, raised_to};
ghost use Rattle.dym_slots.specs.TableStates.{Held};
ghost use Rattle.dym_slots.specs.Moves.{SitsAt, IsIdleOwner, HasOut, LookedAt, IsKnownFree, Won, Lost, IsUnlisted, Seized, Missed, HasEntry, IsBytesOf};

use crate::machine::Slot;
use crate::rule::{LogSeat, Slots};
use crate::view::SeatView;
use atomic_table::Play;
use dym_pack::Record;

/// A look at a slot.
struct Looks;

impl Play<Option<Record>, SeatView> for Looks {
    ghost use Rattle.dym_slots.specs.Moves.{OwnerLooked};

    ghost then = { λ st me n after. OwnerLooked st.word me n after };
}

/// A claim of a Free slot.
struct Claims;

impl Play<Option<Record>, SeatView> for Claims {
    ghost use Rattle.dym_slots.specs.Moves.{Claimed};

    ghost then = { λ st me _ after. Claimed st.word me after };
}

/// A take of a slot of the list.
struct TakesOwn;

impl Play<Option<Record>, SeatView> for TakesOwn {
    ghost use Rattle.dym_slots.specs.Moves.{TookOwn};

    ghost then = { λ st me _ after. TookOwn st.word st.first me after };
}

/// A take of a slot whose record the owner let go.
struct TakesRetired;

impl Play<Option<Record>, SeatView> for TakesRetired {
    ghost use Rattle.dym_slots.specs.Moves.{TookRetired};

    ghost then = { λ st me n after. TookRetired st.word me n after };
}

/// The slot that is out becomes Live under the next number.
struct Puts;

impl Play<Option<Record>, SeatView> for Puts {
    ghost use Rattle.dym_slots.specs.Moves.{WasPut};

    ghost then = { λ st me _ after. WasPut st.word me after };
}

/// The slot that is out becomes Live under its old number.
struct Lowers;

impl Play<Option<Record>, SeatView> for Lowers {
    ghost use Rattle.dym_slots.specs.Moves.{WasLowered};

    ghost then = { λ st me _ after. WasLowered st.word me after };
}

/// The slot of the newest entry becomes Free.
struct Frees;

impl Play<Option<Record>, SeatView> for Frees {
    ghost use Rattle.dym_slots.specs.Moves.{FreedNewest};

    ghost then = { λ st me _ after. FreedNewest st.word me after };
}

/// The root becomes the number of an entry.
struct Raises;

impl Play<Option<Record>, SeatView> for Raises {
    ghost use Rattle.dym_slots.specs.Moves.{Raised};

    ghost then = { λ _ me n after. Raised me n after };
}

/// Reads the state of a slot.
fn look(table: &Slots, seat: &mut LogSeat, slot: u32) -> Slot
    requires table { SitsAt table.now.table_id seat.old.table_id }
    requires owner { IsOwner seat.old.me.0 }
    requires slot { slot < LOG_SLOTS }
    ensures table { seat.new.table_id ≡ seat.old.table_id }
    ensures look { LookedAt slot result seat.old.me seat.new.me }
{
    Slot::of_word(table.load::<Looks>(seat, slot as usize + 1))
}

/// Takes a slot that is known to be Free, for the next number.
fn claim(table: &Slots, seat: &mut LogSeat, slot: u32, next: u64)
    requires table { SitsAt table.now.table_id seat.old.table_id }
    requires idle { IsIdleOwner seat.old.me }
    requires slot { slot < LOG_SLOTS }
    requires free { IsKnownFree slot (owner_of seat.old.me.0) }
    requires next { next ≡ (owner_of seat.old.me.0).next }
    requires number { next < RECORD_NUMBERS }
    ensures table { seat.new.table_id ≡ seat.old.table_id }
    ensures after { seat.new.me
        ≡ (Owns (holding slot (owner_of seat.old.me.0)), (slot, None) ∷ []) }
{
    let (old, new) = (Slot::Free.word(), Slot::OutOwner(next).word());
    table.compare_exchange::<Claims>(seat, slot as usize + 1, old, new);
}

/// Tries to take a slot that the last look found Live, and answers the state in which it found it.
fn take_retired(table: &Slots, seat: &mut LogSeat, slot: u32, number: u64) -> Slot
    requires table { SitsAt table.now.table_id seat.old.table_id }
    requires idle { IsIdleOwner seat.old.me }
    requires slot { slot < LOG_SLOTS }
    requires seen { (owner_of seat.old.me.0).look ≡ Some (glimpse slot (Live number)) }
    requires number { number < RECORD_NUMBERS }
    ensures table { seat.new.table_id ≡ seat.old.table_id }
    ensures outcome { Won slot result seat.old.me seat.new.me
        ⊎ Lost slot result seat.old.me seat.new.me }
{
    let (old, new) = (Slot::Live(number).word(), Slot::OutOwner(number).word());
    Slot::of_word(table.compare_exchange::<TakesRetired>(seat, slot as usize + 1, old, new))
}

/// Puts a record into the slot that is out, which becomes the newest of the list.
pub(crate) fn put_into(table: &Slots, seat: &mut LogSeat, slot: u32, number: u64, rec: Record)
    requires table { SitsAt table.now.table_id seat.old.table_id }
    requires held { (home : Held) × HasOut slot home seat.old.me }
    requires slot { slot < LOG_SLOTS }
    requires unlisted { IsUnlisted slot (owner_of seat.old.me.0).list }
    requires next { number ≡ (owner_of seat.old.me.0).next }
    requires number { number < RECORD_NUMBERS }
    requires room { length (owner_of seat.old.me.0).list < RECORD_ROOM }
    ensures table { seat.new.table_id ≡ seat.old.table_id }
    ensures after { seat.new.me ≡ (Owns (with_put slot rec (owner_of seat.old.me.0)), []) }
{
    drop(table.exchange(seat, slot as usize, Some(rec)));
    table.store::<Puts>(seat, slot as usize + 1, Slot::Live(number).word());
}

/// Takes the record of an entry out of its slot.
pub(crate) fn take_out(table: &Slots, seat: &mut LogSeat, slot: u32, number: u64) -> Record
    requires table { SitsAt table.now.table_id seat.old.table_id }
    requires idle { IsIdleOwner seat.old.me }
    requires slot { slot < LOG_SLOTS }
    requires listed { HasEntry slot number (owner_of seat.old.me.0) }
    requires number { number < RECORD_NUMBERS }
    ensures table { seat.new.table_id ≡ seat.old.table_id }
    ensures after { seat.new.me
        ≡ (Owns (holding slot (owner_of seat.old.me.0)), (slot, None) ∷ []) }
    ensures bytes { IsBytesOf slot number (owner_of seat.old.me.0) result }
{
    let (old, new) = (Slot::Live(number).word(), Slot::OutOwner(number).word());
    table.compare_exchange::<TakesOwn>(seat, slot as usize + 1, old, new);
    let Some(rec) = table.exchange(seat, slot as usize, None) else {
        unreachable!();
    };
    rec
}

/// Brings the record of an entry back to its slot, which is out.
pub(crate) fn bring_back(table: &Slots, seat: &mut LogSeat, slot: u32, number: u64, rec: Record)
    requires table { SitsAt table.now.table_id seat.old.table_id }
    requires held { (home : Held) × HasOut slot home seat.old.me }
    requires slot { slot < LOG_SLOTS }
    requires bytes { IsBytesOf slot number (owner_of seat.old.me.0) rec }
    requires number { number < RECORD_NUMBERS }
    ensures table { seat.new.table_id ≡ seat.old.table_id }
    ensures after { seat.new.me ≡ (Owns (lowered slot (owner_of seat.old.me.0)), []) }
{
    drop(table.exchange(seat, slot as usize, Some(rec)));
    table.store::<Lowers>(seat, slot as usize + 1, Slot::Live(number).word());
}

/// Makes the slot of the newest entry Free, which is out and has nothing at home.
pub(crate) fn free_newest(table: &Slots, seat: &mut LogSeat, slot: u32)
    requires table { SitsAt table.now.table_id seat.old.table_id }
    requires held { HasOut slot None seat.old.me }
    requires slot { slot < LOG_SLOTS }
    requires older { 1 < length (owner_of seat.old.me.0).list }
    requires newest { (newest_of (owner_of seat.old.me.0).list).entry.slot ≡ slot }
    ensures table { seat.new.table_id ≡ seat.old.table_id }
    ensures after { seat.new.me ≡ (Owns (newest_freed slot (owner_of seat.old.me.0)), []) }
{
    table.store::<Frees>(seat, slot as usize + 1, Slot::Free.word());
}

/// Makes the number of an entry the root.
pub(crate) fn raise_root(table: &Slots, seat: &mut LogSeat, number: u64)
    requires table { SitsAt table.now.table_id seat.old.table_id }
    requires idle { IsIdleOwner seat.old.me }
    requires listed { (slot : ℕ) × HasEntry slot number (owner_of seat.old.me.0) }
    ensures table { seat.new.table_id ≡ seat.old.table_id }
    ensures after { seat.new.me
        ≡ (Owns (raised_to number (owner_of seat.old.me.0)), seat.old.me.1) }
{
    table.store::<Raises>(seat, 0, number);
}

/// Takes a slot that is in no entry for the next number, unless the sweeper has it out.
fn seize(table: &Slots, seat: &mut LogSeat, slot: u32, next: u64) -> bool
    requires table { SitsAt table.now.table_id seat.old.table_id }
    requires idle { IsIdleOwner seat.old.me }
    requires slot { slot < LOG_SLOTS }
    requires next { next ≡ (owner_of seat.old.me.0).next }
    requires number { next < RECORD_NUMBERS }
    ensures table { seat.new.table_id ≡ seat.old.table_id }
    ensures won { IsTrue result → Seized slot seat.old.me seat.new.me }
    ensures lost { IsFalse result → Missed slot seat.old.me seat.new.me }
{
    match look(table, seat, slot) {
        Slot::Free => {
            claim(table, seat, slot, next);
            true
        }
        Slot::Live(number) => reuse(table, seat, slot, number, next),
        Slot::OutOwner(_) | Slot::OutSweeper(_) => false,
    }
}

/// Takes a slot that is in no entry and that the last look found Live for the next number, unless the sweeper has it out.
fn reuse(table: &Slots, seat: &mut LogSeat, slot: u32, number: u64, next: u64) -> bool
    requires table { SitsAt table.now.table_id seat.old.table_id }
    requires idle { IsIdleOwner seat.old.me }
    requires slot { slot < LOG_SLOTS }
    requires seen { (owner_of seat.old.me.0).look ≡ Some (glimpse slot (Live number)) }
    requires old { number < RECORD_NUMBERS }
    requires next { next ≡ (owner_of seat.old.me.0).next }
    requires number { next < RECORD_NUMBERS }
    ensures table { seat.new.table_id ≡ seat.old.table_id }
    ensures won { IsTrue result → Seized slot seat.old.me seat.new.me }
    ensures lost { IsFalse result → Missed slot seat.old.me seat.new.me }
{
    match take_retired(table, seat, slot, number) {
        Slot::Live(_) => true,
        Slot::Free => {
            claim(table, seat, slot, next);
            true
        }
        Slot::OutOwner(_) | Slot::OutSweeper(_) => false,
    }
}

/// Takes one of two slots that are in no entry for the next number, and answers whether it is the first. At most one of them is
/// out with the sweeper at a time, so that the first is Free once both were seen so.
pub(crate) fn seize_either(
    table: &Slots,
    seat: &mut LogSeat,
    first: u32,
    second: u32,
    next: u64,
) -> bool
    requires table { SitsAt table.now.table_id seat.old.table_id }
    requires idle { IsIdleOwner seat.old.me }
    requires fresh { (owner_of seat.old.me.0).remembered ≡ [] }
    requires slots { (first < LOG_SLOTS) × (second < LOG_SLOTS) × (first ≢ second) }
    requires next { next ≡ (owner_of seat.old.me.0).next }
    requires number { next < RECORD_NUMBERS }
    ensures table { seat.new.table_id ≡ seat.old.table_id }
    ensures first { IsTrue result → Seized first seat.old.me seat.new.me }
    ensures second { IsFalse result → Seized second seat.old.me seat.new.me }
{
    if seize(table, seat, first, next) {
        return true;
    }
    if seize(table, seat, second, next) {
        return false;
    }
    claim(table, seat, first, next);
    true
}
