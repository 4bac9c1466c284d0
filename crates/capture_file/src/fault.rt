//! Why a capture file is not read on, and why a packet tells no segment.

ghost use Rattle.std.specs.Prelude.{◌≡◌};
ghost use Rattle.capture_file.specs.declared.fault.CaptureFault.TheVariants.{NoMemory};

use std::alloc::AllocError;
use std::error::Error;
use std::fmt::{self, Display, Formatter, Write};

/// Why the file is not read on.
#[derive(Clone, Copy, Debug, PartialEq, Eq)]
pub enum CaptureFault {
    /// There is no memory for an interface.
    NoMemory,
    /// The file begins as no capture file that is read, or a section tells no byte order.
    Format,
    /// A record or block has a length that cannot be, or that is longer than is read (own rule).
    Length,
    /// A packet names an interface that no block of its section describes.
    Interface,
}

/// Why a packet tells no segment, where it may have one.
#[derive(Clone, Copy, Debug, PartialEq, Eq)]
pub enum PacketFault {
    /// The link type is none that is read.
    Link(u16),
    /// The packet is a fragment of an IP packet with TCP. These are not put together (own rule).
    Fragment,
    /// The capture does not have the whole of the packet's headers.
    Cut,
}

impl Display for CaptureFault {
    fn fmt<W: Write>(&self, f: &mut Formatter<W>) -> fmt::Result {
        f.write_str(match self {
            CaptureFault::NoMemory => "memory",
            CaptureFault::Format => "unknown format",
            CaptureFault::Length => "bad length",
            CaptureFault::Interface => "unknown interface",
        })
    }
}

impl Error for CaptureFault {}

impl Display for PacketFault {
    fn fmt<W: Write>(&self, f: &mut Formatter<W>) -> fmt::Result {
        match self {
            PacketFault::Link(link) => write!(f, "link type {link}"),
            PacketFault::Fragment => f.write_str("fragment"),
            PacketFault::Cut => f.write_str("cut"),
        }
    }
}

impl Error for PacketFault {}

impl From<AllocError> for CaptureFault {
    ghost from_gives = { λ _ fault. fault ≡ NoMemory };

    fn from(_error: AllocError) -> CaptureFault {
        CaptureFault::NoMemory
    }
}
