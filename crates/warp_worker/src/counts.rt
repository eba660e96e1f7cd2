//! What a worker counts.
ghost use Rattle.std.specs.Prelude.{◌≡◌, ◌+◌, ◌-◌, ◌^◌, min};

/// How many events were run and undone. Each number stops at 2^64 - 1.
///
/// They tell how well a run goes. No clause says that they are the right ones.
#[derive(Clone, Copy, Debug, PartialEq, Eq)]
pub struct Counts {
    /// How many events were run, those that were undone among them.
    pub ran: u64,
    /// How many of these were undone.
    pub undone: u64,
    /// How many messages undid events.
    pub rollbacks: u64,
}

impl Counts {
    /// Nothing was run.
    pub const NONE: Counts = Counts {
        ran: 0,
        undone: 0,
        rollbacks: 0,
    };

    /// These counts and others.
    pub fn plus(&self, other: &Counts) -> Counts
        ensures ran { result.ran ≡ min (self.now.ran + other.now.ran) (2 ^ 64 - 1) }
        ensures undone { result.undone ≡ min (self.now.undone + other.now.undone) (2 ^ 64 - 1) }
        ensures rollbacks { result.rollbacks ≡ min (self.now.rollbacks + other.now.rollbacks) (2 ^ 64 - 1) }
    {
        Counts {
            ran: self.ran.saturating_add(other.ran),
            undone: self.undone.saturating_add(other.undone),
            rollbacks: self.rollbacks.saturating_add(other.rollbacks),
        }
    }

    /// Counts an event that is run.
    pub(crate) fn run(&mut self)
        ensures { self.new ≡ record self.old { ran = min (self.old.ran + 1) (2 ^ 64 - 1) } }
    {
        self.ran = self.ran.saturating_add(1);
    }

    /// Counts events that a message has undone, if there are any.
    pub(crate) fn undo(&mut self, events: u64)
        ensures undone { self.new.undone ≡ min (self.old.undone + events) (2 ^ 64 - 1) }
        ensures ran { self.new.ran ≡ self.old.ran }
    {
        self.undone = self.undone.saturating_add(events);
        if events > 0 {
            self.rollbacks = self.rollbacks.saturating_add(1);
        }
    }
}
