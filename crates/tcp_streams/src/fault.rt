//! Why a segment is not taken.

ghost use Rattle.std.specs.Prelude.{◌≡◌};
ghost use Rattle.tcp_streams.specs.declared.fault.SegmentFault.TheVariants.{NoMemory};

use std::alloc::AllocError;
use std::error::Error;
use std::fmt::{self, Display, Formatter, Write};

/// Why a segment is not taken. An offset is the number of stream bytes before a byte.
#[derive(Clone, Copy, Debug, PartialEq, Eq)]
pub enum SegmentFault {
    /// There is no memory for the bytes that are given out, or for those that wait.
    NoMemory,
    /// The byte at this offset is missing. The segment would wait for it, and then more would wait
    /// than the direction's limit (own rule).
    Gap(u64),
    /// The segment and one that waits have two values for the byte at this offset.
    Conflict(u64),
    /// The stream would have more than 2^63 bytes (own rule).
    Long,
}

impl Display for SegmentFault {
    fn fmt<W: Write>(&self, f: &mut Formatter<W>) -> fmt::Result {
        match self {
            SegmentFault::NoMemory => f.write_str("memory"),
            SegmentFault::Gap(at) => write!(f, "gap at {at}"),
            SegmentFault::Conflict(at) => write!(f, "conflict at {at}"),
            SegmentFault::Long => f.write_str("stream over 9223372036854775808 bytes"),
        }
    }
}

impl Error for SegmentFault {}

impl From<AllocError> for SegmentFault {
    ghost from_gives = { λ _ fault. fault ≡ NoMemory };

    fn from(_error: AllocError) -> SegmentFault {
        SegmentFault::NoMemory
    }
}
