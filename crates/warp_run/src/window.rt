//! How far workers run ahead of what is certain.
ghost use Rattle.std.specs.Prelude.{◌≡◌, ◌+◌, ◌/◌, ◌≤◌, true, IfSome};

use warp_worker::Counts;

/// How many events a worker runs ahead in a round, at most.
pub(crate) const BUDGET: usize = 2_500;

/// With how many ticks a window that is chosen begins, whatever the delays of the model are.
const FIRST: u64 = 1;

/// After how many rounds it is chosen again.
const ROUNDS: u64 = 8;

/// How far beyond what is certain workers run ahead, in ticks. It is told, or it is chosen again and
/// again by how much of what was run was undone.
#[derive(Clone, Copy, Debug)]
pub(crate) struct Window {
    ticks: u64,
    is_told: bool,
    /// How many rounds were run since the window was chosen.
    rounds: u64,
    /// What had been counted then.
    before: Counts,
}

/// The next window after so many ticks: half of them where more than a tenth of what was run was
/// undone, and half more where that was less than a twentieth and longer rounds gain something.
fn next_ticks(ticks: u64, ran: u64, undone: u64, is_long: bool) -> u64
    ensures least { ticks / 2 ≤ result }
    ensures most { result ≤ ticks + ticks / 2 + 1 }
{
    if undone.saturating_mul(10) > ran {
        return ticks / 2;
    }
    if is_long || undone.saturating_mul(20) >= ran {
        return ticks;
    }
    ticks.saturating_add(ticks / 2).saturating_add(1)
}

/// Whether workers spend so many events on rounds that these are long beside what a round costs.
fn are_long(rounds: u64, workers: usize, ran: u64) -> bool {
    let full = rounds.saturating_mul(workers as u64);
    ran >= full.saturating_mul(BUDGET as u64 / 2)
}

impl Window {
    /// A window of so many ticks, or one that is chosen.
    pub(crate) fn new(ticks: Option<u64>) -> Window
        ensures told { IfSome ticks (λ t. (result.ticks ≡ t) × (result.is_told ≡ true)) }
    {
        Window {
            ticks: ticks.unwrap_or(FIRST),
            is_told: ticks.is_some(),
            rounds: 0,
            before: Counts::NONE,
        }
    }

    /// How far workers run ahead in the next round.
    pub(crate) fn ticks(&self) -> u64
        ensures { result ≡ self.now.ticks }
    {
        self.ticks
    }

    /// Takes a round into account, after which so many workers have counted so much. A window that
    /// was told stays.
    pub(crate) fn adapt(&mut self, workers: usize, counts: &Counts)
        ensures told { self.old.is_told ≡ true → self.new.ticks ≡ self.old.ticks }
        ensures least { self.old.ticks / 2 ≤ self.new.ticks }
        ensures most { self.new.ticks ≤ self.old.ticks + self.old.ticks / 2 + 1 }
        ensures kind { self.new.is_told ≡ self.old.is_told }
    {
        self.rounds = self.rounds.saturating_add(1);
        if self.is_told || self.rounds < ROUNDS {
            return;
        }
        let ran = counts.ran.saturating_sub(self.before.ran);
        let undone = counts.undone.saturating_sub(self.before.undone);
        let is_long = are_long(self.rounds, workers, ran);
        self.ticks = next_ticks(self.ticks, ran, undone, is_long);
        self.rounds = 0;
        self.before = *counts;
    }
}
