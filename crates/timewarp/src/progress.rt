//! Lines that tell how far a run is.
use crate::share::Share;
use std::time::{Clock, Instant};
use warp_run::RoundReport;

/// How many seconds lie between two lines, at least.
const PERIOD: u64 = 1;

/// Tells on standard error how far a run is, if that is asked for.
#[derive(Drop)]
pub struct ProgressLines<'a, R> {
    rt: &'a R,
    is_asked: bool,
    /// When the last line was written, or the first round was over.
    last: Option<Instant>,
}

impl<'a, R: Clock + Eprint> ProgressLines<'a, R> {
    pub fn new(rt: &'a R, is_asked: bool) -> Self {
        ProgressLines {
            rt,
            is_asked,
            last: None,
        }
    }

    /// Whether it is time for a line. Without a clock it never is.
    fn is_due(&mut self) -> bool {
        let Ok(now) = Instant::now(self.rt) else {
            return false;
        };
        let Some(last) = self.last else {
            self.last = Some(now);
            return false;
        };
        if now.duration_since(last).as_secs() < PERIOD {
            return false;
        }
        self.last = Some(now);
        true
    }

    /// Tells where a run stands, where it is time for it.
    pub fn note(&mut self, report: &RoundReport) {
        if !self.is_asked || !self.is_due() {
            return;
        }
        let bound = report.bound;
        let committed = report.committed;
        let stands = report.counts.ran.saturating_sub(report.counts.undone);
        let efficiency = Share::of(stands, report.counts.ran);
        // A line that can't be written is left out.
        let _ = eprintln!(self.rt; "bound {bound}, committed {committed}, efficiency {efficiency}");
    }
}
