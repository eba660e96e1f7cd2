//! The sweeper's steps on a log table, and its round over all slots. Each atomic step is one step of the machine.
ghost use Rattle.std.specs.Prelude.{◌≡◌, ℕ, ◌+◌, ◌<◌, ◌≤◌, List, [], ◌∷◌, Some, None, IsTrue, IsFalse, false};
ghost use Rattle.dym_base.specs.declared.limits.TheConstants.{LOG_SLOTS};
ghost use Rattle.dym_slots.specs.declared.machine.TheConstants.{RECORD_NUMBERS};
ghost use Rattle.dym_slots.specs.declared.view.SeatView.TheVariants.{Sweeps};
ghost use Rattle.dym_slots.specs.SeatViews.{sweeper_of, IsSweeper, with_root, glanced, grabbed, with_taken_back};
ghost use Rattle.dym_slots.specs.TableStates.{Held};
ghost use Rattle.dym_slots.specs.Moves.{SitsAt, IsIdleSweeper, SameRound, SweptSlot};

use crate::machine::Slot;
use crate::rule::{LogSeat, Slots};
use crate::view::SeatView;
use atomic_table::Play;
use dym_base::limits::LOG_SLOTS;
use dym_pack::Record;

/// A read of the root, which begins a round.
struct Roots;

impl Play<Option<Record>, SeatView> for Roots {
    ghost use Rattle.dym_slots.specs.Moves.{ReadRoot};

    ghost then = { λ _ me n after. ReadRoot me n after };
}

/// A look at the first slot that isn't known to be clean.
struct Glances;

impl Play<Option<Record>, SeatView> for Glances {
    ghost use Rattle.dym_slots.specs.Moves.{SweeperLooked};

    ghost then = { λ _ me n after. SweeperLooked me n after };
}

/// A grab of a slot whose record the owner let go.
struct Grabs;

impl Play<Option<Record>, SeatView> for Grabs {
    ghost use Rattle.dym_slots.specs.Moves.{TriedGrab};

    ghost then = { λ st me n after. TriedGrab me st.first n after };
}

/// The slot that is out becomes Free.
struct Frees;

impl Play<Option<Record>, SeatView> for Frees {
    ghost use Rattle.dym_slots.specs.Moves.{GaveBack};

    ghost then = { λ _ me _ after. GaveBack me after };
}

/// Reads the root.
pub(crate) fn read_root(table: &Slots, seat: &mut LogSeat) -> u64
    requires table { SitsAt table.now.table_id seat.old.table_id }
    requires idle { IsIdleSweeper seat.old.me }
    ensures table { seat.new.table_id ≡ seat.old.table_id }
    ensures after { seat.new.me
        ≡ (Sweeps (with_root result (sweeper_of seat.old.me.0)), seat.old.me.1) }
    ensures numbered { result ≤ RECORD_NUMBERS }
    ensures rises { (sweeper_of seat.old.me.0).root_seen ≤ result }
    ensures reached { (sweeper_of seat.old.me.0).least_root ≤ result }
{
    table.load::<Roots>(seat, 0)
}

/// Reads the state of the first slot that isn't known to be clean.
fn glance(table: &Slots, seat: &mut LogSeat, slot: u32) -> Slot
    requires table { SitsAt table.now.table_id seat.old.table_id }
    requires idle { IsIdleSweeper seat.old.me }
    requires slot { slot < LOG_SLOTS }
    requires turn { slot ≡ (sweeper_of seat.old.me.0).clean }
    ensures table { seat.new.table_id ≡ seat.old.table_id }
    ensures after { seat.new.me
        ≡ (Sweeps (glanced result (sweeper_of seat.old.me.0)), seat.old.me.1) }
{
    Slot::of_word(table.load::<Glances>(seat, slot as usize + 1))
}

/// Tries to take out the slot of the last look, which found a record there that the owner let go.
fn grab(table: &Slots, seat: &mut LogSeat, slot: u32, number: u64) -> bool
    requires table { SitsAt table.now.table_id seat.old.table_id }
    requires idle { IsIdleSweeper seat.old.me }
    requires slot { slot < LOG_SLOTS }
    requires turn { slot ≡ (sweeper_of seat.old.me.0).clean }
    requires found { (sweeper_of seat.old.me.0).found ≡ Some number }
    requires retired { number < (sweeper_of seat.old.me.0).root_seen }
    requires number { number < RECORD_NUMBERS }
    ensures table { seat.new.table_id ≡ seat.old.table_id }
    ensures won { IsTrue result → (bytes : List ℕ)
        × (seat.new.me
        ≡ (Sweeps (grabbed slot (sweeper_of seat.old.me.0)), (slot, Some bytes) ∷ [])) }
    ensures lost { IsFalse result → SweptSlot false seat.old.me seat.new.me }
{
    let (old, new) = (Slot::Live(number).word(), Slot::OutSweeper(number).word());
    table.compare_exchange::<Grabs>(seat, slot as usize + 1, old, new) == old
}

/// Makes the slot that is out Free. The record that was at home there is dropped.
fn give_back(table: &Slots, seat: &mut LogSeat, slot: u32)
    requires table { SitsAt table.now.table_id seat.old.table_id }
    requires sweeper { IsSweeper seat.old.me.0 }
    requires out { (sweeper_of seat.old.me.0).out ≡ Some slot }
    requires held { (home : Held) × (seat.old.me.1 ≡ (slot, home) ∷ []) }
    requires turn { slot ≡ (sweeper_of seat.old.me.0).clean }
    requires slot { slot < LOG_SLOTS }
    ensures table { seat.new.table_id ≡ seat.old.table_id }
    ensures after { seat.new.me ≡ (Sweeps (with_taken_back (sweeper_of seat.old.me.0)), []) }
{
    drop(table.exchange(seat, slot as usize, None));
    table.store::<Frees>(seat, slot as usize + 1, Slot::Free.word());
}

/// Takes the record of the last look back, unless the owner reuses its slot first, and answers whether it did.
fn take_back(table: &Slots, seat: &mut LogSeat, slot: u32, number: u64) -> bool
    requires table { SitsAt table.now.table_id seat.old.table_id }
    requires idle { IsIdleSweeper seat.old.me }
    requires slot { slot < LOG_SLOTS }
    requires turn { slot ≡ (sweeper_of seat.old.me.0).clean }
    requires found { (sweeper_of seat.old.me.0).found ≡ Some number }
    requires retired { number < (sweeper_of seat.old.me.0).root_seen }
    requires number { number < RECORD_NUMBERS }
    ensures table { seat.new.table_id ≡ seat.old.table_id }
    ensures swept { SweptSlot result seat.old.me seat.new.me }
{
    if !grab(table, seat, slot, number) {
        return false;
    }
    give_back(table, seat, slot);
    true
}

/// Makes sure that a slot has no record below the root, and answers whether it took one back.
fn sweep_slot(table: &Slots, seat: &mut LogSeat, slot: u32, root: u64) -> bool
    requires table { SitsAt table.now.table_id seat.old.table_id }
    requires idle { IsIdleSweeper seat.old.me }
    requires slot { slot < LOG_SLOTS }
    requires turn { slot ≡ (sweeper_of seat.old.me.0).clean }
    requires root { root ≡ (sweeper_of seat.old.me.0).root_seen }
    requires number { root ≤ RECORD_NUMBERS }
    ensures table { seat.new.table_id ≡ seat.old.table_id }
    ensures swept { SweptSlot result seat.old.me seat.new.me }
{
    match glance(table, seat, slot) {
        Slot::Live(number) if number < root => take_back(table, seat, slot, number),
        _ => false,
    }
}

/// Takes back each record at rest below the root that was read last, and answers how many.
pub(crate) fn walk(table: &Slots, seat: &mut LogSeat, root: u64) -> u32
    requires table { SitsAt table.now.table_id seat.old.table_id }
    requires idle { IsIdleSweeper seat.old.me }
    requires turn { (sweeper_of seat.old.me.0).clean ≡ 0 }
    requires root { root ≡ (sweeper_of seat.old.me.0).root_seen }
    requires number { root ≤ RECORD_NUMBERS }
    ensures table { seat.new.table_id ≡ seat.old.table_id }
    ensures idle { IsIdleSweeper seat.new.me }
    ensures rounds { (sweeper_of seat.new.me.0).rounds ≡ (sweeper_of seat.old.me.0).rounds }
    ensures root { (sweeper_of seat.new.me.0).root_seen ≡ root }
    ensures least_root { (sweeper_of seat.new.me.0).least_root
        ≡ (sweeper_of seat.old.me.0).least_root }
    ensures clean { (sweeper_of seat.new.me.0).clean ≡ LOG_SLOTS }
    ensures taken { (sweeper_of seat.new.me.0).taken_back
        ≡ (sweeper_of seat.old.me.0).taken_back + result }
{
    let mut taken = 0;
    for slot in 0..LOG_SLOTS {
        if sweep_slot(table, seat, slot, root) {
            taken += 1;
        }
    }
    taken
}

/// Reads the root, and takes back each record below it that is at rest. The answer is how many.
pub(crate) fn sweep_all(table: &Slots, seat: &mut LogSeat) -> u32
    requires table { SitsAt table.now.table_id seat.old.table_id }
    requires idle { IsIdleSweeper seat.old.me }
    ensures table { seat.new.table_id ≡ seat.old.table_id }
    ensures idle { IsIdleSweeper seat.new.me }
    ensures rounds { (sweeper_of seat.new.me.0).rounds ≡ (sweeper_of seat.old.me.0).rounds + 1 }
    ensures rises { (sweeper_of seat.old.me.0).root_seen ≤ (sweeper_of seat.new.me.0).root_seen }
    ensures reached { (sweeper_of seat.old.me.0).least_root ≤ (sweeper_of seat.new.me.0).root_seen }
    ensures least_root { (sweeper_of seat.new.me.0).least_root
        ≡ (sweeper_of seat.old.me.0).least_root }
    ensures clean { (sweeper_of seat.new.me.0).clean ≡ LOG_SLOTS }
    ensures taken { (sweeper_of seat.new.me.0).taken_back
        ≡ (sweeper_of seat.old.me.0).taken_back + result }
{
    let root = read_root(table, seat);
    walk(table, seat, root)
}
