//! Why a capture is not read on, and why a direction of it is not.

ghost use Rattle.std.specs.Prelude.{◌≡◌};
ghost use Rattle.iscsi_captures.specs.declared.fault.CapturesFault.TheVariants.{NoMemory};
ghost use Rattle.iscsi_captures.specs.Faults.{captures_exit_status};

use crate::captured::End;
use capture_connections::ConnectionsFault;
use iscsi_explain::{Origin, Remark};
use iscsi_stream::StreamFault;
use std::alloc::{AllocError, AllocFailed};
use std::error::Error;
use std::fmt::{self, Debug, Display, Formatter, Write};

/// A part of a PDU that a digest is for.
#[derive(Clone, Copy, Debug, PartialEq, Eq)]
pub enum Summed {
    /// The header.
    Header,
    /// The data segment.
    Data,
}

/// Why a job over a capture stops. `at` is the number of file bytes before a record or block, and
/// packets count from 1.
#[derive(Clone, Copy, PartialEq, Eq)]
pub enum CapturesFault {
    /// Memory ran out.
    NoMemory,
    /// A read failed, or the file cannot be opened for another reason than those below.
    Read,
    /// There is no such file.
    Absent,
    /// The file may not be read.
    NotPermitted,
    /// What is to be read is a directory.
    Directory,
    /// The direction was not at its end after 16,777,216 reads.
    Reads {
        connection: usize,
    },
    /// A write failed, or took no byte.
    Write,
    /// The file has no byte.
    Empty,
    /// The file begins as no capture file that is read, or a section tells no byte order.
    Format {
        at: u64,
    },
    /// The file is compressed with gzip.
    Gzip,
    /// A record or block has a length that cannot be, or has a packet and is longer than 1 MiB.
    Length {
        at: u64,
    },
    /// The file ends within this record or block. All before it was used.
    Truncated {
        at: u64,
    },
    /// The packet is of an interface whose link type is not read.
    Link {
        link: u16,
        at: u64,
        packet: u64,
    },
    /// The packet's interface has no description.
    Interface {
        at: u64,
    },
    /// The packet is a fragment of an IP packet with TCP.
    Fragment {
        at: u64,
        packet: u64,
    },
    /// Bytes of the wanted direction, or headers, were not captured.
    Cut {
        at: u64,
        packet: u64,
    },
    /// This byte of the stream is missing. The packet is the first one that waits behind it.
    Gap {
        connection: usize,
        offset: u64,
        packet: u64,
    },
    /// The packet and one that waits have two values for this byte of the stream.
    Conflict {
        connection: usize,
        offset: u64,
        packet: u64,
    },
    /// The stream has more than 2^63 bytes.
    Long {
        connection: usize,
    },
    /// The stream leaves the profile.
    Stream {
        connection: usize,
        fault: StreamFault,
    },
    /// The last PDU of the initiator breaks this rule, to the target that answers it.
    Protocol {
        connection: usize,
        rule: u8,
    },
    /// The SYN of the direction is missing, so where a PDU begins is not known.
    Begun {
        connection: usize,
    },
    /// The beginning of this end's stream, or what follows missing bytes of it, is read from this byte
    /// on, where a PDU is assumed to begin. The packet is the one with which that was found.
    Assumed {
        connection: usize,
        end: End,
        offset: u64,
        packet: u64,
    },
    /// The digest of a part of a PDU is not its CRC32C. The PDU begins at this byte of the end's
    /// stream, and its part was whole with this packet.
    Digest {
        connection: usize,
        end: End,
        part: Summed,
        offset: u64,
        packet: u64,
    },
    /// The capture has no connection that begins with a login request.
    NoSession,
    /// The capture has no connection with this number.
    NoConnection {
        connection: usize,
    },
}

impl CapturesFault {
    /// The exit status: 1 if the capture is refused, 2 if it has no such connection, 3 for memory,
    /// and 4 for reading and writing.
    pub fn status(&self) -> u8
        ensures status { result ≡ captures_exit_status self.now }
    {
        match self {
            CapturesFault::NoConnection { .. } => 2,
            CapturesFault::NoMemory => 3,
            CapturesFault::Read
            | CapturesFault::Absent
            | CapturesFault::NotPermitted
            | CapturesFault::Directory
            | CapturesFault::Reads { .. }
            | CapturesFault::Write => 4,
            _ => 1,
        }
    }

    // The words of its text, up to a number that stands behind them.
    fn words(&self) -> &'static str {
        match self {
            CapturesFault::NoMemory => "memory",
            CapturesFault::Read => "read failed",
            CapturesFault::Absent => "no such file",
            CapturesFault::NotPermitted => "not permitted",
            CapturesFault::Directory => "is a directory",
            CapturesFault::Reads { .. } => "not at its end after 16777216 reads",
            CapturesFault::Empty => "capture: empty",
            CapturesFault::Gzip => "capture: compressed with gzip",
            CapturesFault::NoSession => "capture: no iSCSI connection",
            CapturesFault::Write => "write failed",
            CapturesFault::Format { .. } => "capture: unknown format at ",
            CapturesFault::Length { .. } => "capture: bad length at ",
            CapturesFault::Truncated { .. } => "capture: truncated at ",
            CapturesFault::Interface { .. } => "capture: unknown interface at ",
            CapturesFault::Fragment { .. } => "capture: fragment at ",
            CapturesFault::Cut { .. } => "capture: cut at ",
            CapturesFault::Gap { .. } => "gap at ",
            CapturesFault::Conflict { .. } => "conflict at ",
            CapturesFault::Long { .. } => "stream over 9223372036854775808 bytes",
            CapturesFault::Protocol { .. } => "protocol: rule ",
            CapturesFault::Assumed {
                end: End::Initiator,
                ..
            } => "initiator assumed from byte ",
            CapturesFault::Assumed {
                end: End::Target,
                ..
            } => "target assumed from byte ",
            CapturesFault::Digest { end, part, .. } => digest_words(*end, *part),
            CapturesFault::NoConnection { .. } => "no connection ",
            CapturesFault::Link { .. }
            | CapturesFault::Stream { .. }
            | CapturesFault::Begun { .. } => "",
        }
    }

    // The connection that is named before the words.
    fn connection(&self) -> Option<usize> {
        match self {
            CapturesFault::Gap { connection, .. }
            | CapturesFault::Conflict { connection, .. }
            | CapturesFault::Long { connection }
            | CapturesFault::Reads { connection }
            | CapturesFault::Assumed { connection, .. }
            | CapturesFault::Digest { connection, .. }
            | CapturesFault::Protocol { connection, .. } => Some(*connection),
            _ => None,
        }
    }

    // The number behind the words.
    fn number(&self) -> Option<u64> {
        match self {
            CapturesFault::Format { at }
            | CapturesFault::Length { at }
            | CapturesFault::Truncated { at }
            | CapturesFault::Interface { at }
            | CapturesFault::Fragment { at, .. }
            | CapturesFault::Cut { at, .. } => Some(*at),
            CapturesFault::Gap { offset, .. }
            | CapturesFault::Conflict { offset, .. }
            | CapturesFault::Digest { offset, .. }
            | CapturesFault::Assumed { offset, .. } => Some(*offset),
            CapturesFault::Protocol { rule, .. } => Some(*rule as u64),
            CapturesFault::NoConnection { connection } => Some(*connection as u64),
            _ => None,
        }
    }

    /// The packet that it names.
    pub(crate) fn packet(&self) -> Option<u64> {
        match self {
            CapturesFault::Link { packet, .. } => Some(*packet),
            fault => fault.last_packet(),
        }
    }

    // The packet that is named at the end.
    fn last_packet(&self) -> Option<u64> {
        match self {
            CapturesFault::Fragment { packet, .. }
            | CapturesFault::Cut { packet, .. }
            | CapturesFault::Gap { packet, .. }
            | CapturesFault::Conflict { packet, .. }
            | CapturesFault::Digest { packet, .. }
            | CapturesFault::Assumed { packet, .. } => Some(*packet),
            _ => None,
        }
    }

    // What kind of remark it is, in one word.
    fn kind(&self) -> &'static str {
        match self {
            CapturesFault::Gap { .. } => "gap",
            CapturesFault::Conflict { .. } => "conflict",
            CapturesFault::Cut { .. } => "cut",
            CapturesFault::Begun { .. } => "begun",
            CapturesFault::Assumed { .. } => "assumed",
            CapturesFault::Digest { .. } => "digest",
            CapturesFault::Stream { .. } => "stream",
            _ => "end",
        }
    }

    // The byte of a direction that it is about.
    fn offset(&self) -> Option<u64> {
        match self {
            CapturesFault::Gap { offset, .. }
            | CapturesFault::Conflict { offset, .. }
            | CapturesFault::Digest { offset, .. }
            | CapturesFault::Assumed { offset, .. } => Some(*offset),
            _ => None,
        }
    }

    /// What is told of it among PDUs: it is about this connection, and the direction of an end if one
    /// is said.
    pub(crate) fn remark(&self, connection: usize, origin: Option<Origin>) -> Remark {
        Remark {
            kind: self.kind(),
            connection: Some(connection as u64),
            origin,
            place: self.offset(),
            packet: self.last_packet(),
        }
    }

    // Writes the connection, the words, the number and the packet, those that it has.
    fn write_parts<W: Write>(&self, f: &mut Formatter<W>) -> fmt::Result {
        if let Some(connection) = self.connection() {
            write!(f, "connection {connection}: ")?;
        }
        f.write_str(self.words())?;
        if let Some(number) = self.number() {
            write!(f, "{number}")?;
        }
        match self.last_packet() {
            Some(packet) => write!(f, " (packet {packet})"),
            None => Ok(()),
        }
    }
}

// The words of a digest that is wrong, up to its place.
fn digest_words(end: End, part: Summed) -> &'static str {
    match (end, part) {
        (End::Initiator, Summed::Header) => "wrong header digest from initiator at ",
        (End::Initiator, Summed::Data) => "wrong data digest from initiator at ",
        (End::Target, Summed::Header) => "wrong header digest from target at ",
        (End::Target, Summed::Data) => "wrong data digest from target at ",
    }
}

// By hand, since one format for each variant is dear to prove.
impl Display for CapturesFault {
    fn fmt<W: Write>(&self, f: &mut Formatter<W>) -> fmt::Result {
        match self {
            CapturesFault::Link { link, at, packet } => {
                write!(f, "capture: link type {link} at {at} (packet {packet})")
            }
            CapturesFault::Stream { connection, fault } => {
                write!(f, "connection {connection}: {fault}")
            }
            CapturesFault::Begun { connection } => {
                write!(
                    f,
                    "capture: connection {connection} begins before the capture"
                )
            }
            _ => self.write_parts(f),
        }
    }
}

impl Error for CapturesFault {}

impl Debug for CapturesFault {
    fn fmt<W: Write>(&self, f: &mut Formatter<W>) -> fmt::Result {
        write!(f, "CapturesFault({self})")
    }
}

impl From<ConnectionsFault> for CapturesFault {
    ghost from_gives = { λ _ fault. fault ≡ NoMemory };

    fn from(_fault: ConnectionsFault) -> CapturesFault {
        CapturesFault::NoMemory
    }
}

impl From<AllocError> for CapturesFault {
    ghost from_gives = { λ _ fault. fault ≡ NoMemory };

    fn from(_error: AllocError) -> CapturesFault {
        CapturesFault::NoMemory
    }
}

impl<T: Drop> From<AllocFailed<T>> for CapturesFault {
    ghost from_gives = { λ _ fault. fault ≡ NoMemory };

    fn from(_error: AllocFailed<T>) -> CapturesFault {
        CapturesFault::NoMemory
    }
}
