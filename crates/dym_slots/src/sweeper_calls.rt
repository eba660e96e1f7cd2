//! What the sweeper does.
ghost use Rattle.std.specs.Prelude.{◌≡◌, ◌+◌, ◌≤◌, max, None, length};
ghost use Rattle.dym_base.specs.declared.limits.TheConstants.{LOG_SLOTS};
ghost use Rattle.dym_base.specs.Origins.{shared};
ghost use Rattle.dym_slots.specs.Meanings.{IsSweptTo};

use crate::owner::Owner;
use crate::root_note::{Learns, RootNote};
use crate::sweeper::Sweeper;
use crate::sweeper_steps::sweep_all;

impl Sweeper {
    /// Reads the root once, and takes back each record at rest with a number below it, unless the owner reuses that slot first.
    /// After it no slot holds such a record at rest. The root never falls, and is no lower than any that was learnt. The answer is
    /// how many records were taken back.
    pub fn sweep(&mut self) -> u32
        ensures table { self.new.table ≡ self.old.table }
        ensures rounds { self.new.rounds ≡ self.old.rounds + 1 }
        ensures clean { self.new.clean ≡ LOG_SLOTS }
        ensures taken { self.new.taken_back ≡ self.old.taken_back + result }
        ensures rises { self.old.root_seen ≤ self.new.root_seen }
        ensures least_root { self.new.least_root ≡ self.old.least_root }
        ensures swept { IsSweptTo self.old.least_root self.new }
    {
        sweep_all(&self.table.shared, &mut self.seat)
    }

    /// Knows from now on what a note of its own table's owner says: each sweep that comes later takes back all records that were let
    /// go before.
    pub fn learn(&mut self, note: RootNote)
        requires { note.table ≡ self.old.table }
        ensures { self.new ≡ record self.old { least_root = max note.root self.old.least_root } }
    {
        let RootNote { seat } = note;
        self.table.shared.join_seat::<Learns>(&mut self.seat, seat);
    }

    /// Gives the table up, with all records that are left in it, and answers how many the owner's list has. Both ends are of one
    /// table.
    pub fn finish(self, owner: Owner) -> u32
        requires table { owner.origin ≡ shared self.table }
        requires idle { owner.lifted ≡ None }
        ensures { result ≡ length owner.records }
    {
        owner.len()
    }
}
