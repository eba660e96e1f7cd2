//! What the owner does.
ghost use Rattle.std.specs.Prelude.{◌≡◌, ℕ, ◌+◌, ◌<◌, ◌≤◌, ◌++◌, None, Some, length, take, drop, vec_len, vec_capacity};
ghost use Rattle.dym_base.specs.Origins.{shared};
ghost use Rattle.dym_base.specs.declared.limits.TheConstants.{LOG_SLOTS, RECORD_ROOM, COUNT_LIMIT};
ghost use Rattle.dym_slots.specs.declared.machine.TheConstants.{RECORD_NUMBERS};
ghost use Rattle.dym_slots.specs.Slots.{entry};
ghost use Rattle.dym_slots.specs.SeatViews.{owner_of, newest_of, older_of};
ghost use Rattle.dym_slots.specs.Moves.{SitsAt, IsIdleOwner, Seized};
ghost use Rattle.dym_slots.specs.Meanings.{record_at, with_record, up_to, from, first_number, NumbersRise};
ghost use Rattle.dym_slots.specs.Orders.{Stands, slot_at, HasLeft, retired};
ghost use Rattle.std.specs.List.Sorted.{IsPermutation};

use crate::owner::Owner;
use crate::owner_steps::{bring_back, free_newest, put_into, raise_root, seize_either, take_out};
use crate::root_note::{Notes, RootNote};
use crate::rule::{LogSeat, Slots};
use dym_base::limits::LOG_SLOTS;
use dym_pack::Record;

/// How many of the other slots `put` takes before those that the last `raise` let go.
const SPARE_SLOTS: usize = 8;

impl Owner {
    /// How many records the list has.
    pub fn len(&self) -> u32
        ensures { result ≡ length self.now.records }
    {
        self.numbers.len() as u32
    }

    /// The number of the record at a place.
    pub fn number_at(&self, place: u32) -> u64
        requires { place < length self.now.records }
        ensures { result ≡ (record_at self.now.records place).number }
    {
        self.numbers[place as usize]
    }

    /// The number that the next record gets. Numbers rise along the list, and all are below it.
    pub fn made(&self) -> u64
        ensures made { result ≡ self.now.made }
        ensures rise { NumbersRise self.now.records self.now.made }
    {
        self.made
    }

    /// Appends a record, and answers its number. It looks at two slots at most, and reuses a record's that was let go.
    pub fn put(&mut self, rec: Record) -> u64
        requires room { length self.old.records < RECORD_ROOM }
        requires made { self.old.made < COUNT_LIMIT }
        requires idle { self.old.lifted ≡ None }
        ensures number { result ≡ self.old.made }
        ensures after { self.new ≡ with_record self.old rec }
    {
        let number = self.made;
        let slot = hold_spare(
            &self.table.shared,
            &mut self.seat,
            &mut self.order,
            &self.numbers,
            number,
        );
        put_into(&self.table.shared, &mut self.seat, slot, number, rec);
        self.numbers.push_reserved(number);
        self.made += 1;
        number
    }

    /// Takes out the record at a place, for `lower` to bring back.
    pub fn lift(&mut self, place: u32) -> Record
        requires place { place < length self.old.records }
        requires idle { self.old.lifted ≡ None }
        ensures bytes { result ≡ (record_at self.old.records place).bytes }
        ensures after { self.new ≡ record self.old { lifted = Some place } }
    {
        let slot = self.order[place as usize] as u32;
        let number = self.numbers[place as usize];
        let rec = take_out(&self.table.shared, &mut self.seat, slot, number);
        self.lifted = Some(place);
        rec
    }

    /// Brings back the record that is out.
    pub fn lower(&mut self, place: u32, rec: Record)
        requires lifted { self.old.lifted ≡ Some place }
        requires bytes { rec ≡ (record_at self.old.records place).bytes }
        ensures after { self.new ≡ record self.old { lifted = None } }
    {
        let slot = self.order[place as usize] as u32;
        let number = self.numbers[place as usize];
        bring_back(&self.table.shared, &mut self.seat, slot, number, rec);
        self.lifted = None;
    }

    /// Removes the records after a place.
    pub fn drop_after(&mut self, place: u32)
        requires place { place < length self.old.records }
        requires idle { self.old.lifted ≡ None }
        ensures after { self.new ≡ up_to self.old place }
    {
        let kept = place as usize + 1;
        drop_down(
            &self.table.shared,
            &mut self.seat,
            &self.order,
            &self.numbers,
            kept,
        );
        self.numbers.truncate(kept);
    }

    /// Removes the records before a place, for the sweeper to take back: the number at that place becomes the root.
    pub fn raise(&mut self, place: u32)
        requires place { place < length self.old.records }
        requires idle { self.old.lifted ≡ None }
        ensures after { self.new ≡ from self.old place }
    {
        let number = self.numbers[place as usize];
        raise_root(&self.table.shared, &mut self.seat, number);
        let next_spares = (self.numbers.len() + SPARE_SLOTS).min(LOG_SLOTS as usize);
        retire(&mut self.order, next_spares, place as usize);
        remove_first(&mut self.numbers, place as usize);
    }

    /// A note that all records below the first one of the list were let go, for the sweeper of this table.
    pub fn note(&mut self) -> RootNote
        ensures same { self.new ≡ self.old }
        ensures table { self.old.origin ≡ shared result.table }
        ensures root { result.root ≡ first_number self.old.records self.old.made }
    {
        let seat = self.table.shared.split_seat::<Notes>(&mut self.seat);
        RootNote { seat }
    }
}

/// Takes a slot past the list's for the next number, and puts it right behind these.
fn hold_spare(
    table: &Slots,
    seat: &mut LogSeat,
    order: &mut Vec<u16>,
    numbers: &Vec<u64>,
    made: u64,
) -> u32
    requires table { SitsAt table.now.table_id seat.old.table_id }
    requires stands { Stands order.old.items numbers.now.items made seat.old.me }
    requires idle { IsIdleOwner seat.old.me }
    requires room { length numbers.now.items < RECORD_ROOM }
    requires number { made < RECORD_NUMBERS }
    ensures table { seat.new.table_id ≡ seat.old.table_id }
    ensures stands { Stands order.new.items numbers.now.items made seat.old.me }
    ensures slot { result ≡ slot_at order.new.items (length numbers.now.items) }
    ensures seized { Seized result seat.old.me seat.new.me }
{
    let place = numbers.len();
    let (first, second) = (order[place] as u32, order[place + 1] as u32);
    if seize_either(table, seat, first, second, made) {
        return first;
    }
    order.swap(place, place + 1);
    second
}

/// Removes the newest entries, until so many are left.
fn drop_down(table: &Slots, seat: &mut LogSeat, order: &Vec<u16>, numbers: &Vec<u64>, kept: usize)
    requires table { SitsAt table.now.table_id seat.old.table_id }
    requires stands { (made : ℕ) × Stands order.now.items numbers.now.items made seat.old.me }
    requires idle { IsIdleOwner seat.old.me }
    requires kept { (0 < kept) × (kept ≤ length numbers.now.items) }
    ensures table { seat.new.table_id ≡ seat.old.table_id }
    ensures after { HasLeft (take kept (owner_of seat.old.me.0).list) seat.old.me seat.new.me }
{
    let mut last = numbers.len();
    while last > kept {
        last -= 1;
        drop_newest(table, seat, order[last] as u32, numbers[last]);
    }
}

/// Removes the newest entry, and gives its record's memory back.
#[tactic(auto, using(crate::proofs::OwnerSays::newest_listed))]
fn drop_newest(table: &Slots, seat: &mut LogSeat, slot: u32, number: u64)
    requires table { SitsAt table.now.table_id seat.old.table_id }
    requires idle { IsIdleOwner seat.old.me }
    requires older { 1 < length (owner_of seat.old.me.0).list }
    requires newest { (newest_of (owner_of seat.old.me.0).list).entry ≡ entry slot number }
    requires slot { slot < LOG_SLOTS }
    requires number { number < RECORD_NUMBERS }
    ensures table { seat.new.table_id ≡ seat.old.table_id }
    ensures after { HasLeft (older_of (owner_of seat.old.me.0).list) seat.old.me seat.new.me }
{
    drop(take_out(table, seat, slot, number));
    free_newest(table, seat, slot);
}

/// Moves the first slots, whose entries leave the list, behind the others that are near: all of the list's, and a few spare ones.
fn retire(order: &mut [u16], next_spares: usize, place: usize)
    requires next_spares { next_spares ≤ length order.old }
    requires place { place ≤ next_spares }
    ensures after { order.new ≡ retired next_spares place order.old }
    ensures permutation { IsPermutation order.old order.new }
{
    turn(&mut order[..next_spares], place);
}

/// Moves the first slots behind the others. They are few, so that three reversals cost less than `rotate_left`, which clears a
/// room of 4 KiB at each call.
fn turn(slots: &mut [u16], place: usize)
    requires { place ≤ length slots.old }
    ensures { slots.new ≡ drop place slots.old ++ take place slots.old }
{
    slots[..place].reverse();
    slots[place..].reverse();
    slots.reverse();
}

/// Removes the first so many numbers.
fn remove_first(numbers: &mut Vec<u64>, count: usize)
    requires { count ≤ vec_len numbers.old }
    ensures items { numbers.new.items ≡ drop count numbers.old.items }
    ensures capacity { vec_capacity numbers.new ≡ vec_capacity numbers.old }
{
    let left = numbers.len() - count;
    numbers.copy_within(count.., 0);
    numbers.truncate(left);
}
