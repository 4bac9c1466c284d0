//! What stands in the lines of a capture for times.

use iscsi_explain::Clock;
use jiff::Timestamp;
use jiff::tz::TimeZone;

/// What stands in the line of a captured PDU for its time.
#[derive(Clone, Copy, Debug, PartialEq, Eq)]
pub enum Times {
    /// Seconds since the connection's first packet.
    Connection,
    /// The packet's number, and seconds since the capture's first packet.
    Relative,
    /// The packet's number, and its date and time in UTC.
    Utc,
    /// The packet's number, and its date and time in a time zone.
    Local,
}

impl Times {
    /// What stands in the line of a PDU that was whole at a time. The capture's first packet has
    /// the time `first`. Both are in nanoseconds from 1970 on.
    pub(crate) fn clock(self, zone: &TimeZone<'_>, first: u64, now: u64) -> Clock {
        match self {
            Times::Connection => Clock::Connection,
            Times::Relative => Clock::Relative(first),
            Times::Utc => Clock::Date(0),
            Times::Local => Clock::Date(ahead_at(zone, now)),
        }
    }
}

// How many seconds a clock of a time zone is ahead of UTC at a time.
fn ahead_at(zone: &TimeZone<'_>, now: u64) -> i32 {
    match Timestamp::from_second((now / 1_000_000_000) as i64) {
        Ok(moment) => zone.to_offset(moment).seconds(),
        Err(_) => 0,
    }
}
