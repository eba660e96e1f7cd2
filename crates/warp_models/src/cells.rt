//! Calls in the cells of a mobile network.
ghost use Rattle.std.specs.Prelude.{◌≡◌, ◌↔◌, ◌<◌, ◌+◌, ◌*◌, ◌++◌, cond, IsSome, IfSome, OnOk};
ghost use Rattle.warp_models.specs.Cells as definition;
ghost use Rattle.warp_models.specs.CellStates as states;
ghost use Rattle.warp_models.specs.Random as numbers;
ghost use Rattle.warp_models.specs.Sends.{in_time};

use crate::cell_state::CellState;
use crate::drafts::send;
use crate::random::{drawn, seeded};
use std::alloc::{AllocError, Global};
use warp_base::{Draft, Event, Simulation};

/// A call begins in a cell.
const ARRIVAL: u64 = 0;

/// A call ends.
const END: u64 = 1;

/// A call leaves its cell.
const LEAVE: u64 = 2;

/// A call comes from another cell.
const ENTER: u64 = 3;

/// What a network can be told.
#[derive(Clone, Copy, Debug)]
pub struct CellOptions {
    /// How many cells there are.
    pub cells: u32,
    /// How many cells stand in a row.
    pub width: u32,
    /// How many calls a cell has channels for.
    pub channels: u32,
    /// The mean time between the calls that begin in a cell.
    pub interval: u32,
    /// The mean duration of a call.
    pub duration: u32,
    /// The mean stay of a call in a cell.
    pub stay: u32,
    /// What random numbers begin with.
    pub seed: u64,
}

/// Calls in cells, which stand in rows on a torus.
#[derive(Clone, Copy, Debug)]
pub struct Cells {
    pub options: CellOptions,
    ghost sensible: { definition.IsSensible options },
}

impl Cells {
    /// The model of these options, if they make sense.
    pub fn new(options: CellOptions) -> Option<Cells>
        ensures exact { IsSome result ↔ definition.IsSensible options }
        ensures same { IfSome result (λ m. m.options ≡ options) }
    {
        if options.cells == 0 || options.interval == 0 {
            return None;
        }
        if options.duration == 0 || options.stay == 0 {
            return None;
        }
        Some(Cells { options })
    }

    /// One of the four neighbours of a cell.
    fn neighbour(&self, process: u32, which: u64) -> u32
        ensures { result ≡ definition.neighbour self.now.options process which }
    {
        let cells = self.options.cells;
        let step = match which {
            0 => 1,
            1 => cells - 1,
            2 => self.options.width % cells,
            _ => cells - self.options.width % cells,
        };
        ((u64::from(process) + u64::from(step)) % u64::from(cells)) as u32
    }

    /// A call of this duration takes a channel.
    fn begin(
        &self,
        process: u32,
        state: &mut CellState,
        duration: u64,
        now: u64,
        out: &mut Vec<Draft<u64>>,
    ) -> Result<(), AllocError>
        ensures state { OnOk result (state.new
            ≡ definition.with_call self.now.options state.old duration) }
        ensures sent { OnOk result (out.new.items ≡ out.old.items ++ in_time
            (definition.way_of_call self.now.options process state.old duration now)) }
    {
        let stay = 1 + state.draw(2 * u64::from(self.options.stay));
        let number = state.begin(duration.saturating_sub(stay))?;
        let kind = if stay < duration { LEAVE } else { END };
        let delay = duration.min(stay).max(1);
        send(out, now, delay, process % self.options.cells, kind, number)
    }

    /// A call begins here, if there is a channel for it, and the next one will.
    fn arrive(
        &self,
        process: u32,
        state: &mut CellState,
        now: u64,
        out: &mut Vec<Draft<u64>>,
    ) -> Result<(), AllocError>
        ensures state { OnOk result (state.new
            ≡ states.drew (definition.begun_or_blocked self.now.options state.old)) }
        ensures sent { OnOk result (out.new.items ≡ out.old.items
            ++ definition.sent_at_arrival self.now.options process state.old now) }
    {
        let is_free = self.has_channel(state);
        let duration = 1 + state.draw(2 * u64::from(self.options.duration));
        if is_free {
            self.begin(process, state, duration, now, out)?;
        } else {
            state.block();
        }
        let delay = 1 + state.draw(2 * u64::from(self.options.interval));
        send(out, now, delay, process % self.options.cells, ARRIVAL, 0)
    }

    /// A call comes from another cell, and goes on if there is a channel for it.
    fn enter(
        &self,
        process: u32,
        state: &mut CellState,
        duration: u64,
        now: u64,
        out: &mut Vec<Draft<u64>>,
    ) -> Result<(), AllocError>
        ensures state { OnOk result (state.new
            ≡ definition.after_entry self.now.options state.old duration) }
        ensures sent { OnOk result (out.new.items ≡ out.old.items
            ++ definition.sent_at_entry self.now.options process state.old duration now) }
    {
        if self.has_channel(state) {
            return self.begin(process, state, duration, now, out);
        }
        state.drop_call();
        Ok(())
    }

    /// A call goes to a neighbour.
    fn leave(
        &self,
        process: u32,
        state: &mut CellState,
        number: u64,
        now: u64,
        out: &mut Vec<Draft<u64>>,
    ) -> Result<(), AllocError>
        ensures state { OnOk result (state.new ≡ definition.after_leaving state.old
            (states.call_of number state.old.calls)) }
        ensures sent { OnOk result (out.new.items ≡ out.old.items
            ++ definition.sent_at_leaving self.now.options process state.old now
            (states.call_of number state.old.calls)) }
    {
        let Some(call) = state.call(number) else {
            state.lose();
            return Ok(());
        };
        state.end(call);
        state.hand_over();
        let neighbour = self.neighbour(process, state.draw(4));
        send(out, now, 1, neighbour, ENTER, call.left)
    }

    /// Whether a cell has a free channel.
    fn has_channel(&self, state: &CellState) -> bool
        ensures { result ≡ definition.has_channel self.now.options state.now }
    {
        state.busy() < self.options.channels as usize
    }
}

/// A call ends.
fn end(state: &mut CellState, number: u64)
    ensures { state.new ≡ definition.after_end state.old
        (states.call_of number state.old.calls) }
{
    match state.call(number) {
        Some(call) => state.end(call),
        None => state.lose(),
    }
}

impl Simulation for Cells {
    ghost use Rattle.warp_models.specs.Cells.{cells};
    ghost use Rattle.warp_models.specs.CellLaws.{cells-looks_ahead, cells-starts_within, cells-sends_within};

    type Payload = u64;

    type State = CellState;

    ghost behaviour = { λ m. cells m.options };

    ghost processes = { λ m. m.options.cells };

    fn processes(&self) -> u32 {
        self.options.cells
    }

    fn start(
        &self,
        alloc: Global,
        process: u32,
        out: &mut Vec<Draft<u64>>,
    ) -> Result<CellState, AllocError> {
        let mut random = seeded(self.options.seed, process);
        let delay = 1 + drawn(&mut random, 2 * u64::from(self.options.interval));
        if process < self.options.cells {
            send(out, 0, delay, process % self.options.cells, ARRIVAL, 0)?;
        }
        Ok(CellState::new(alloc, random))
    }

    fn run(
        &self,
        _alloc: Global,
        process: u32,
        state: &mut CellState,
        event: &Event<u64>,
        out: &mut Vec<Draft<u64>>,
    ) -> Result<(), AllocError> {
        match event.kind {
            ARRIVAL => self.arrive(process, state, event.time, out)?,
            END => end(state, event.payload),
            LEAVE => self.leave(process, state, event.payload, event.time, out)?,
            ENTER => self.enter(process, state, event.payload, event.time, out)?,
            _ => state.lose(),
        }
        Ok(())
    }

    fn is_faulty(&self, state: &CellState) -> bool {
        state.is_astray()
    }

    ghost looks_ahead = { λ m. cells-looks_ahead m.options };

    ghost starts_within = { λ m. cells-starts_within m.options };

    ghost sends_within = { λ m. cells-sends_within m.options m.sensible.0 };
}
