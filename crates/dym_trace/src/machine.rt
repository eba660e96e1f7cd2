//! The machine that a trace is run on: one field for each part of the table's state.

ghost use Rattle.std.specs.Prelude.{◌≡◌, ◌≢◌, ℕ, ◌<◌, ◌↔◌, IsTrue, IfOk, IfSome, MatchOption, is_some};
ghost use Rattle.dym_slots.specs.declared.machine.Slot.TheVariants.{Live, OutOwner};
ghost use Rattle.dym_slots.specs.Slots.{start as start_of, state_of, IsListed};
ghost use Rattle.dym_slots.specs.SlotSteps.{Step, OwnerLooks, OwnerClaims, OwnerTakes, OwnerEmpties, OwnerFills, OwnerPuts, OwnerLowers, OwnerFrees, OwnerRaises, SweeperReadsRoot, SweeperLooks, SweeperGrabs, SweeperEmpties, SweeperFrees, is_retired};
ghost use Rattle.dym_trace.specs.Events.{IsInRange};
ghost use Rattle.dym_trace.specs.Machine.{core_of, IsSound, Does, LetsGo};

use crate::list::{drop_newest, drop_older};
use dym_base::limits::{LOG_SLOTS, RECORD_ROOM};
use dym_slots::{Entry, Event, RECORD_NUMBERS, Slot, each_run_keeps_facts};
use std::alloc::{AllocError, Global};
use std::collections::VecDeque;

/// The state of a log table. A machine that refused an event is done with.
#[derive(Drop)]
pub(crate) struct Machine {
    root: u64,
    slots: Vec<Slot>,
    homes: Vec<Option<u64>>,
    list: VecDeque<Entry>,
    next: u64,
    owner_out: Option<u32>,
    remembered: Vec<u32>,
    root_seen: u64,
    sweeper_out: Option<u32>,
    clean: u32,
}

impl Machine {
    /// The table at its start.
    pub(crate) fn start(alloc: Global) -> Result<Machine, AllocError>
        ensures start { IfOk result (λ machine. core_of machine ≡ start_of LOG_SLOTS) }
        ensures sound { IfOk result IsSound }
    {
        each_run_keeps_facts();
        Ok(Machine {
            root: 0,
            slots: vec![in alloc; Slot::Free; LOG_SLOTS as usize]?,
            homes: vec![in alloc; None; LOG_SLOTS as usize]?,
            list: VecDeque::with_capacity(alloc, RECORD_ROOM as usize)?,
            next: 0,
            owner_out: None,
            remembered: Vec::with_capacity(alloc, LOG_SLOTS as usize)?,
            root_seen: 0,
            sweeper_out: None,
            clean: 0,
        })
    }

    /// Does the event, and says whether it is a step.
    pub(crate) fn step(&mut self, event: Event) -> Result<bool, AllocError>
        requires sound { IsSound self.old }
        requires in_range { IsInRange event }
        ensures { IfOk result (Does (Step event) self.old self.new) }
    {
        match event {
            Event::OwnerLook { slot } => self.owner_look(slot),
            Event::OwnerPut { slot } => self.owner_put(slot),
            Event::OwnerClaim { slot } => Ok(self.owner_claim(slot)),
            Event::OwnerTake { slot } => Ok(self.owner_take(slot)),
            Event::OwnerEmpty { slot } => Ok(self.owner_empty(slot)),
            Event::OwnerFill { slot, number } => Ok(self.owner_fill(slot, number)),
            Event::OwnerLower { slot } => Ok(self.owner_lower(slot)),
            Event::OwnerFree { slot } => Ok(self.owner_free(slot)),
            Event::OwnerRaise { number } => Ok(self.owner_raise(number)),
            Event::SweeperRoot => Ok(self.sweeper_root()),
            Event::SweeperLook { slot } => Ok(self.sweeper_look(slot)),
            Event::SweeperGrab { slot } => Ok(self.sweeper_grab(slot)),
            Event::SweeperEmpty { slot } => Ok(self.sweeper_empty(slot)),
            Event::SweeperFree { slot } => Ok(self.sweeper_free(slot)),
        }
    }

    fn owner_look(&mut self, slot: u32) -> Result<bool, AllocError>
        requires sound { IsSound self.old }
        requires slot { slot < LOG_SLOTS }
        ensures { IfOk result (Does (OwnerLooks slot) self.old self.new) }
    {
        let Slot::OutSweeper(_) = self.slots[slot as usize] else {
            return Ok(true);
        };
        // Only the last slot that is remembered can be out with the sweeper.
        if self.remembered.last().copied() != Some(slot) {
            self.remembered.push(slot)?;
        }
        Ok(true)
    }

    fn owner_claim(&mut self, slot: u32) -> bool
        requires sound { IsSound self.old }
        requires slot { slot < LOG_SLOTS }
        ensures { Does (OwnerClaims slot) self.old self.new result }
    {
        if self.owner_out.is_some() || self.next >= RECORD_NUMBERS {
            return false;
        }
        let Slot::Free = self.slots[slot as usize] else {
            return false;
        };
        self.slots[slot as usize] = Slot::OutOwner(self.next);
        self.owner_out = Some(slot);
        true
    }

    fn owner_take(&mut self, slot: u32) -> bool
        requires sound { IsSound self.old }
        requires slot { slot < LOG_SLOTS }
        ensures { Does (OwnerTakes slot) self.old self.new result }
    {
        if self.owner_out.is_some() {
            return false;
        }
        let Slot::Live(number) = self.slots[slot as usize] else {
            return false;
        };
        self.slots[slot as usize] = Slot::OutOwner(number);
        self.owner_out = Some(slot);
        true
    }

    /// The number under which the owner has the slot out, if it has.
    fn held(&self, slot: u32) -> Option<u64>
        requires sound { IsSound self.now }
        requires slot { slot < LOG_SLOTS }
        ensures { MatchOption result (self.now.owner_out ≢ Some slot)
            (λ held. (self.now.owner_out ≡ Some slot)
            × (state_of (core_of self.now) slot ≡ OutOwner held)) }
    {
        if self.owner_out != Some(slot) {
            return None;
        }
        match self.slots[slot as usize] {
            Slot::OutOwner(number) => Some(number),
            _ => unreachable!(),
        }
    }

    /// Whether the number of the slot that the owner has out is in the list.
    fn is_listed(&self, held: u64) -> bool
        requires sound { IsSound self.now }
        requires held { (s : ℕ) × (state_of (core_of self.now) s ≡ OutOwner held) }
        ensures { IsTrue result ↔ IsListed (core_of self.now) held }
    {
        self.root <= held && held < self.next
    }

    fn owner_empty(&mut self, slot: u32) -> bool
        requires sound { IsSound self.old }
        requires slot { slot < LOG_SLOTS }
        ensures { Does (OwnerEmpties slot) self.old self.new result }
    {
        if self.owner_out != Some(slot) {
            return false;
        }
        self.homes[slot as usize] = None;
        true
    }

    fn owner_fill(&mut self, slot: u32, number: u64) -> bool
        requires sound { IsSound self.old }
        requires slot { slot < LOG_SLOTS }
        ensures { Does (OwnerFills slot number) self.old self.new result }
    {
        let Some(held) = self.held(slot) else {
            return false;
        };
        let wanted = if self.is_listed(held) {
            held
        } else {
            self.next
        };
        if number != wanted {
            return false;
        }
        self.homes[slot as usize] = Some(number);
        true
    }

    fn owner_put(&mut self, slot: u32) -> Result<bool, AllocError>
        requires sound { IsSound self.old }
        requires slot { slot < LOG_SLOTS }
        ensures { IfOk result (Does (OwnerPuts slot) self.old self.new) }
    {
        let Some(held) = self.held(slot) else {
            return Ok(false);
        };
        let number = self.next;
        if self.is_listed(held)
            || self.homes[slot as usize] != Some(number)
            || number >= RECORD_NUMBERS
            || self.list.len() >= RECORD_ROOM as usize
        {
            return Ok(false);
        }
        self.list.push_back(Entry { slot, number })?;
        self.slots[slot as usize] = Slot::Live(number);
        self.next = number + 1;
        self.owner_out = None;
        self.remembered.clear();
        Ok(true)
    }

    fn owner_lower(&mut self, slot: u32) -> bool
        requires sound { IsSound self.old }
        requires slot { slot < LOG_SLOTS }
        ensures { Does (OwnerLowers slot) self.old self.new result }
    {
        let Some(held) = self.held(slot) else {
            return false;
        };
        if !self.is_listed(held) || self.homes[slot as usize] != Some(held) {
            return false;
        }
        self.slots[slot as usize] = Slot::Live(held);
        self.owner_out = None;
        true
    }

    fn owner_free(&mut self, slot: u32) -> bool
        requires sound { IsSound self.old }
        requires slot { slot < LOG_SLOTS }
        ensures { Does (OwnerFrees slot) self.old self.new result }
    {
        let Some(held) = self.held(slot) else {
            return false;
        };
        if self.homes[slot as usize].is_some() {
            return false;
        }
        if !self.let_go(held) {
            return false;
        }
        self.slots[slot as usize] = Slot::Free;
        self.owner_out = None;
        true
    }

    /// Takes the number of the slot that the owner has out from the list, and says whether the owner may free it:
    /// where the list doesn't have it, or has it as the newest of two or more.
    fn let_go(&mut self, held: u64) -> bool
        requires sound { IsSound self.old }
        requires held { (s : ℕ) × (state_of (core_of self.old) s ≡ OutOwner held) }
        ensures { LetsGo held self.old self.new result }
    {
        if !self.is_listed(held) {
            return true;
        }
        drop_newest(&mut self.list, held)
    }

    fn owner_raise(&mut self, number: u64) -> bool
        requires { IsSound self.old }
        ensures { Does (OwnerRaises number) self.old self.new result }
    {
        if self.owner_out.is_some() || !drop_older(&mut self.list, number) {
            return false;
        }
        self.root = number;
        true
    }

    fn sweeper_root(&mut self) -> bool
        requires { IsSound self.old }
        ensures { Does SweeperReadsRoot self.old self.new result }
    {
        if self.sweeper_out.is_some() {
            return false;
        }
        self.root_seen = self.root;
        self.clean = 0;
        true
    }

    /// The number of the slot, where it is Live with a number below the root seen.
    fn retired(&self, slot: u32) -> Option<u64>
        requires sound { IsSound self.now }
        requires slot { slot < LOG_SLOTS }
        ensures test { is_some result ≡ is_retired self.now.root_seen
            (state_of (core_of self.now) slot) }
        ensures number { IfSome result (λ n. state_of (core_of self.now) slot ≡ Live n) }
    {
        match self.slots[slot as usize] {
            Slot::Live(number) if number < self.root_seen => Some(number),
            _ => None,
        }
    }

    fn sweeper_look(&mut self, slot: u32) -> bool
        requires sound { IsSound self.old }
        requires slot { slot < LOG_SLOTS }
        ensures { Does (SweeperLooks slot) self.old self.new result }
    {
        if self.sweeper_out.is_some() || slot != self.clean {
            return false;
        }
        if self.retired(slot).is_none() {
            self.clean += 1;
        }
        true
    }

    fn sweeper_grab(&mut self, slot: u32) -> bool
        requires sound { IsSound self.old }
        requires slot { slot < LOG_SLOTS }
        ensures { Does (SweeperGrabs slot) self.old self.new result }
    {
        if self.sweeper_out.is_some() {
            return false;
        }
        let Some(number) = self.retired(slot) else {
            return false;
        };
        self.slots[slot as usize] = Slot::OutSweeper(number);
        self.sweeper_out = Some(slot);
        true
    }

    fn sweeper_empty(&mut self, slot: u32) -> bool
        requires sound { IsSound self.old }
        requires slot { slot < LOG_SLOTS }
        ensures { Does (SweeperEmpties slot) self.old self.new result }
    {
        if self.sweeper_out != Some(slot) {
            return false;
        }
        self.homes[slot as usize] = None;
        true
    }

    fn sweeper_free(&mut self, slot: u32) -> bool
        requires sound { IsSound self.old }
        requires slot { slot < LOG_SLOTS }
        ensures { Does (SweeperFrees slot) self.old self.new result }
    {
        if self.sweeper_out != Some(slot) || self.homes[slot as usize].is_some() {
            return false;
        }
        self.slots[slot as usize] = Slot::Free;
        self.sweeper_out = None;
        if slot == self.clean {
            self.clean += 1;
        }
        true
    }
}
