//! The time that stands before a line.
use jiff::Timestamp;
use std::fmt;
use std::time::{Clock, SystemTime, UNIX_EPOCH};

/// A time in UTC to the millisecond. It is written in one field as RFC 3339 has it: `2026-11-29T04:00:00.123Z`.
#[derive(Clone, Copy)]
pub struct Stamp {
    time: Timestamp,
}

impl Stamp {
    /// The time by this clock. One that cannot be read, or is set before 1970, counts as set to 1970, and one that is set behind the last time that is written as
    /// set to it, at the end of the year 9999.
    pub fn now<C: Clock>(clock: &C) -> Stamp {
        let now = SystemTime::now(clock).unwrap_or(UNIX_EPOCH);
        Stamp {
            time: Timestamp::try_from(now).unwrap_or(Timestamp::MAX),
        }
    }
}

impl fmt::Display for Stamp {
    fn fmt<W: fmt::Write>(&self, f: &mut fmt::Formatter<W>) -> fmt::Result {
        write!(f, "{:.3}", self.time)
    }
}
