//! The words of the command line.
use warp_models::{CellOptions, Cells, Phold, PholdOptions, Ring, RingOptions};

/// A model, with what it was told.
#[derive(Clone, Copy, Debug)]
pub enum Choice {
    Phold(Phold),
    Cells(Cells),
    Queues(Ring),
}

/// How a model is simulated.
#[derive(Clone, Copy, Debug)]
pub enum Way {
    InOrder,
    /// By workers, which run ahead of what is certain, as `warp_run`'s `Options` say.
    Ahead {
        workers: u32,
        window: Option<u64>,
        period: u64,
    },
}

/// What the words ask for: a model, the time up to which it is simulated, and how.
#[derive(Clone, Copy, Debug)]
pub struct Order<'a> {
    pub choice: Choice,
    pub end: u64,
    pub way: Way,
    /// Whether standard error tells how far workers are.
    pub progress: bool,
    /// The file that gets a trace of the run by workers.
    pub trace: Option<&'a str>,
}

/// What a model is told.
#[derive(Clone, Copy, Debug)]
enum Told {
    Phold(PholdOptions),
    Cells(CellOptions),
    Queues(RingOptions),
}

/// What the words come to.
#[derive(Clone, Copy, Debug)]
struct Settings<'a> {
    told: Told,
    end: u64,
    in_order: bool,
    progress: bool,
    trace: Option<&'a str>,
    workers: Option<u32>,
    window: Option<u64>,
    period: Option<u64>,
}

/// As many workers as the machine has processors.
const ALL_PROCESSORS: u32 = 0;

/// How many events lie between two copies of a state where that isn't told.
const PERIOD: u64 = 4;

/// What stands where an option of PHOLD is absent.
const PHOLD: PholdOptions = PholdOptions {
    processes: 64,
    jobs: 4,
    remote: 250,
    lookahead: 0,
    mean: 20,
    numbers: 32,
    changed: 8,
    work: 0,
    seed: 1,
};

/// What stands where an option of the cells is absent.
const CELLS: CellOptions = CellOptions {
    cells: 64,
    width: 8,
    channels: 20,
    interval: 10,
    duration: 150,
    stay: 100,
    seed: 1,
};

/// What stands where an option of the queues is absent.
const QUEUES: RingOptions = RingOptions {
    stations: 64,
    jobs: 4,
    half_life: 10,
    travel: 5,
    room: u64::MAX,
    seed: 1,
};

/// The order that the words give, if they give one.
pub fn read_words(words: &[String]) -> Option<Order<'_>> {
    let (model, options) = words.split_first()?;
    let told = match model.as_str() {
        "phold" => Told::Phold(PHOLD),
        "cells" => Told::Cells(CELLS),
        "queues" => Told::Queues(QUEUES),
        _ => return None,
    };
    let settings = read_options(told, options)?;
    Some(Order {
        choice: settings.told.choice()?,
        end: settings.end,
        way: settings.way()?,
        progress: settings.progress,
        trace: settings.trace,
    })
}

/// What the options come to; of one that is given twice the last stands.
fn read_options(told: Told, words: &[String]) -> Option<Settings<'_>> {
    let mut settings = Settings {
        told,
        end: 10_000,
        in_order: false,
        progress: false,
        trace: None,
        workers: None,
        window: None,
        period: None,
    };
    let mut name: Option<&String> = None;
    for word in words {
        match name {
            Some(option) => {
                settings = settings.with(option.as_str(), word.as_str())?;
                name = None;
            }
            None if word.as_str() == "--in-order" => settings.in_order = true,
            None if word.as_str() == "--progress" => settings.progress = true,
            None => name = Some(word),
        }
    }
    if name.is_some() { None } else { Some(settings) }
}

impl<'a> Settings<'a> {
    /// The settings with an option changed, if it is one of the run or of the model.
    fn with(mut self, name: &str, value: &'a str) -> Option<Settings<'a>> {
        if name == "--trace" {
            self.trace = Some(value);
            return Some(self);
        }
        self.with_number(name, value.parse().ok()?)
    }

    /// The same of an option that is a number.
    fn with_number(mut self, name: &str, value: u64) -> Option<Settings<'a>> {
        match name {
            "--end" => self.end = value,
            "--workers" if value > 0 => self.workers = Some(u32::try_from(value).ok()?),
            "--window" => self.window = Some(value),
            "--log-every" if value > 0 => self.period = Some(value),
            _ => self.told = self.told.with(name, value)?,
        }
        Some(self)
    }

    /// How the model is simulated; a run in order has no worker, no window, no copies, no progress and
    /// no trace.
    fn way(&self) -> Option<Way> {
        let is_told = self.progress
            || self.trace.is_some()
            || self.workers.is_some()
            || self.window.is_some()
            || self.period.is_some();
        match (self.in_order, is_told) {
            (true, true) => None,
            (true, false) => Some(Way::InOrder),
            (false, _) => Some(Way::Ahead {
                workers: self.workers.unwrap_or(ALL_PROCESSORS),
                window: self.window,
                period: self.period.unwrap_or(PERIOD),
            }),
        }
    }
}

impl Told {
    /// The options with one changed, if the model has it.
    fn with(self, name: &str, value: u64) -> Option<Told> {
        match self {
            Told::Phold(options) => Some(Told::Phold(phold_with(options, name, value)?)),
            Told::Cells(options) => Some(Told::Cells(cells_with(options, name, value)?)),
            Told::Queues(options) => Some(Told::Queues(queues_with(options, name, value)?)),
        }
    }

    /// The model of these options, if they make sense.
    fn choice(self) -> Option<Choice> {
        match self {
            Told::Phold(options) => Some(Choice::Phold(Phold::new(options)?)),
            Told::Cells(options) => Some(Choice::Cells(Cells::new(options)?)),
            Told::Queues(options) => Some(Choice::Queues(Ring::new(options)?)),
        }
    }
}

/// How many numbers of 64 bits so many bytes are.
fn numbers(bytes: u64) -> Option<u32> {
    if bytes % 8 == 0 {
        u32::try_from(bytes / 8).ok()
    } else {
        None
    }
}

fn phold_with(mut options: PholdOptions, name: &str, value: u64) -> Option<PholdOptions> {
    match name {
        "--processes" => options.processes = u32::try_from(value).ok()?,
        "--seed" => options.seed = value,
        "--jobs" => options.jobs = u32::try_from(value).ok()?,
        "--remote" => options.remote = u32::try_from(value).ok()?,
        "--lookahead" => options.lookahead = u32::try_from(value).ok()?,
        "--mean" => options.mean = u32::try_from(value).ok()?,
        "--state" => options.numbers = numbers(value)?,
        "--changed" => options.changed = numbers(value)?,
        "--work" => options.work = u32::try_from(value).ok()?,
        _ => return None,
    }
    Some(options)
}

/// The cells stand in a square, as far as their number allows.
fn cells_with(mut options: CellOptions, name: &str, value: u64) -> Option<CellOptions> {
    match name {
        "--processes" => {
            options.cells = u32::try_from(value).ok()?;
            options.width = options.cells.isqrt();
        }
        "--seed" => options.seed = value,
        "--channels" => options.channels = u32::try_from(value).ok()?,
        "--interval" => options.interval = u32::try_from(value).ok()?,
        "--duration" => options.duration = u32::try_from(value).ok()?,
        "--stay" => options.stay = u32::try_from(value).ok()?,
        _ => return None,
    }
    Some(options)
}

fn queues_with(mut options: RingOptions, name: &str, value: u64) -> Option<RingOptions> {
    match name {
        "--processes" => options.stations = u32::try_from(value).ok()?,
        "--seed" => options.seed = value,
        "--jobs" => options.jobs = value,
        "--half-life" => options.half_life = u32::try_from(value).ok()?,
        "--travel" => options.travel = u32::try_from(value).ok()?,
        "--room" => options.room = value,
        _ => return None,
    }
    Some(options)
}

#[cfg(test)]
mod tests {
    use super::*;
    use std::alloc::{AllocError, Global};
    use std::test::Fail;

    /// Words of a command line.
    fn line(alloc: Global, words: &str) -> Result<Vec<String>, AllocError> {
        words
            .split_whitespace()
            .map(|word| String::from_str(alloc, word))
            .try_collect(alloc)
    }

    #[test]
    fn options_in_any_order(rt: HostRuntime) -> Result<(), Fail> {
        let words = line(
            rt.alloc(),
            "queues --end 7 --in-order --processes 3 --seed 9",
        )?;
        let order = read_words(&words).ok_or("no order")?;
        assert_eq!(rt; order.end, 7);
        assert!(rt; matches!(order.way, Way::InOrder));
        let Choice::Queues(ring) = order.choice else {
            return Err("another model")?;
        };
        assert_eq!(rt; (ring.options.stations, ring.options.seed), (3, 9));
        assert_eq!(rt; (ring.options.jobs, ring.options.half_life), (4, 10));
        Ok(())
    }

    #[test]
    fn a_state_is_told_in_bytes(rt: HostRuntime) -> Result<(), Fail> {
        let words = line(
            rt.alloc(),
            "phold --workers 3 --state 4096 --window 9 --changed 0 --remote 1000",
        )?;
        let order = read_words(&words).ok_or("no order")?;
        let Choice::Phold(phold) = order.choice else {
            return Err("another model")?;
        };
        assert_eq!(rt; (phold.options.numbers, phold.options.changed), (512, 0));
        assert_eq!(rt; phold.options.remote, 1000);
        let Way::Ahead {
            workers,
            window,
            period,
        } = order.way
        else {
            return Err("in order")?;
        };
        assert_eq!(rt; (workers, window, period), (3, Some(9), 4));
        assert_eq!(rt; order.trace, None);
        Ok(())
    }

    #[test]
    fn a_trace_has_a_name(rt: HostRuntime) -> Result<(), Fail> {
        let words = line(rt.alloc(), "queues --trace 7 --workers 3 --trace --end")?;
        let order = read_words(&words).ok_or("no order")?;
        assert_eq!(rt; order.trace, Some("--end"), "the last stands");
        assert_eq!(rt; order.end, 10_000);
        Ok(())
    }

    #[test]
    fn cells_stand_in_a_square(rt: HostRuntime) -> Result<(), Fail> {
        let words = line(
            rt.alloc(),
            "cells --processes 20 --in-order --channels 3 --stay 7",
        )?;
        let order = read_words(&words).ok_or("no order")?;
        let Choice::Cells(cells) = order.choice else {
            return Err("another model")?;
        };
        assert_eq!(rt; (cells.options.cells, cells.options.width), (20, 4));
        assert_eq!(rt; (cells.options.channels, cells.options.stay), (3, 7));
        Ok(())
    }

    #[test]
    fn bad_words(rt: HostRuntime) -> Result<(), Fail> {
        let alloc = rt.alloc();
        let bad = [
            "",
            "rings --in-order",
            "queues --in-order --end",
            "queues --in-order --workers 2",
            "queues --in-order --log-every 2",
            "queues --in-order --trace run",
            "queues --workers 2 --trace",
            "queues --workers 0",
            "queues --log-every 0",
            "queues --workers 4294967296",
            "queues --in-order --end x",
            "queues --in-order --processes 0",
            "queues --in-order --processes 4294967296",
            "queues --in-order --remote 2",
            "phold --in-order --half-life 2",
            "phold --in-order --remote 1001",
            "phold --in-order --state 12",
            "phold --in-order --state 8 --changed 16",
            "phold --in-order --mean 0",
            "cells --in-order --jobs 2",
            "cells --in-order --interval 0",
            "cells --in-order --stay 0",
        ];
        for words in bad {
            assert!(rt; read_words(&line(alloc, words)?).is_none(), "{words}");
        }
        Ok(())
    }
}
