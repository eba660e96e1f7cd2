//! Shares.
use std::fmt;
use std::fmt::{Display, Formatter};

/// A share of a whole. It is shown in per cent, with one place behind the point.
#[derive(Clone, Copy, Debug)]
pub struct Share {
    thousandths: u64,
}

impl Share {
    /// What share so many are, rounded down; all of nothing.
    pub fn of(part: u64, whole: u64) -> Share {
        if whole == 0 {
            return Share { thousandths: 1000 };
        }
        let thousandths = u128::from(part) * 1000 / u128::from(whole);
        Share {
            thousandths: u64::try_from(thousandths).unwrap_or(u64::MAX),
        }
    }
}

impl Display for Share {
    fn fmt<W: fmt::Write>(&self, f: &mut Formatter<W>) -> fmt::Result {
        write!(f, "{}.{} %", self.thousandths / 10, self.thousandths % 10)
    }
}
