//! Where and when a PDU of a capture was seen.

use crate::requests::Asked;
use jiff::Timestamp;
use jiff::tz::Offset;
use std::alloc::{AllocError, Global};

/// What stands in the line of a captured PDU for its time.
#[derive(Clone, Copy)]
pub enum Clock {
    /// Seconds since the connection's first packet.
    Connection,
    /// The packet's number, and seconds since the capture's first packet. That one was captured at
    /// this time, in nanoseconds from 1970 on.
    Relative(u64),
    /// The packet's number, and the date and time of a clock that is so many seconds ahead of UTC.
    Date(i32),
}

/// Which end of a connection sent a PDU.
#[derive(Clone, Copy)]
pub enum Origin {
    /// The initiator.
    Initiator,
    /// The target.
    Target,
}

/// Where and when a PDU of a capture was seen.
#[derive(Clone, Copy)]
pub struct Stamp {
    /// The number of its connection, from 0.
    pub connection: usize,
    /// Who sent it.
    pub origin: Origin,
    /// The packet that completed it, by its number from 1.
    pub packet: u64,
    /// When that packet was captured, in nanoseconds from 1970 on.
    pub epoch: u64,
    /// Nanoseconds from the connection's first packet to that packet.
    pub nanoseconds: u64,
    /// Whether times have nine digits, as in a file with nanoseconds, or six.
    pub precise: bool,
    /// What stands in its line for its time.
    pub clock: Clock,
    /// The SCSI command that it is for, if that was seen and the PDU is not that command itself.
    pub asked: Option<Asked>,
    /// Nanoseconds from the request to this PDU, if it is the response to one that was seen.
    pub since_request: Option<u64>,
    /// How many bytes of its direction stand before those that are read as a stream of its own.
    pub from: u64,
    /// Whether that stream begins at a place that was assumed.
    pub assumed: bool,
    /// How many bytes of its segment were not captured; those stand as 0.
    pub missing: u64,
}

/// A time in seconds, with six or nine digits behind the point.
pub(crate) fn seconds(
    alloc: Global,
    nanoseconds: u64,
    precise: bool,
) -> Result<String, AllocError> {
    let whole = nanoseconds / 1_000_000_000;
    let rest = nanoseconds % 1_000_000_000;
    if precise {
        return format!(in alloc; "{whole}.{rest:09}");
    }
    let micros = rest / 1_000;
    format!(in alloc; "{whole}.{micros:06}")
}

// The date and time of a clock at an offset from UTC, as RFC 3339 has it.
fn date_of(
    alloc: Global,
    nanoseconds: u64,
    precise: bool,
    ahead: i32,
) -> Result<String, AllocError> {
    let time = seconds(alloc, nanoseconds, precise)?;
    let (_, digits) = time.split_once('.').unwrap_or(("", ""));
    let offset = Offset::from_seconds(ahead).unwrap_or(Offset::UTC);
    let Ok(moment) = Timestamp::from_second((nanoseconds / 1_000_000_000) as i64) else {
        return Ok(time);
    };
    let date = offset.to_datetime(moment);
    let zone = zone_of(alloc, offset)?;
    format!(in alloc; "{date}.{digits}{zone}")
}

// An offset from UTC as a date has it at its end.
fn zone_of(alloc: Global, offset: Offset) -> Result<String, AllocError> {
    if offset.is_zero() {
        return String::from_str(alloc, "Z");
    }
    let sign = if offset.is_negative() { '-' } else { '+' };
    let minutes = offset.seconds().unsigned_abs() / 60;
    let (hours, minutes) = (minutes / 60, minutes % 60);
    format!(in alloc; "{sign}{hours:02}:{minutes:02}")
}

impl Stamp {
    // What stands in its line for its time.
    fn when(&self, alloc: Global) -> Result<String, AllocError> {
        let packet = self.packet;
        let time = match self.clock {
            Clock::Connection => return seconds(alloc, self.nanoseconds, self.precise),
            Clock::Relative(first) => {
                seconds(alloc, self.epoch.saturating_sub(first), self.precise)?
            }
            Clock::Date(ahead) => date_of(alloc, self.epoch, self.precise, ahead)?,
        };
        format!(in alloc; "{packet} {time}")
    }

    /// What stands before the line of the PDU: the connection, the time, and `>` from the initiator
    /// or `<` from the target. Behind it stands `?` where the beginning was assumed.
    pub(crate) fn front(&self, alloc: Global) -> Result<String, AllocError> {
        let connection = self.connection;
        let time = self.when(alloc)?;
        let arrow = match self.origin {
            Origin::Initiator => '>',
            Origin::Target => '<',
        };
        let mark = if self.assumed { "?" } else { "" };
        format!(in alloc; "{connection} {time} {arrow}{mark} ")
    }

    /// What stands at the end of the line of a PDU of which bytes are missing, whose segment has this
    /// length.
    pub(crate) fn end(&self, alloc: Global, len: usize) -> Result<String, AllocError> {
        let captured = self.captured(len);
        format!(in alloc; " captured={captured}")
    }

    /// How many bytes were captured of its segment, which has this length.
    pub(crate) fn captured(&self, len: usize) -> u64 {
        (len as u64).saturating_sub(self.missing)
    }

    /// The note of how long the request took, if this is its response.
    pub(crate) fn elapsed_note(&self, alloc: Global) -> Result<Option<String>, AllocError> {
        let Some(since) = self.since_request else {
            return Ok(None);
        };
        let time = seconds(alloc, since, self.precise)?;
        let note = format!(in alloc; "{time} s after the request")?;
        Ok(Some(note))
    }
}
