//! One direction of a connection, segment by segment.

ghost use Rattle.std.specs.Prelude.{◌≡◌, ◌≤◌, ◌<◌, ◌==◌, ◌^◌, ◌-◌, min, length, not, OnOk, IfErr};
ghost use Rattle.tcp_streams.specs.Reassembly.{held, opening_direction, TakesSegment, SegmentFails};

use crate::fault::SegmentFault;
use crate::placing::place;
use crate::waiting::{Fresh, Part, after, cost_of, take_piece};
use std::alloc::Global;
use std::marker::Model;

/// One direction of a TCP connection, as a capture has it (RFC 9293, section 3.4). It gives the
/// bytes of the stream out in order, each once, and keeps the pieces that came before their turn.
///
/// A segment is placed by its sequence number: at the offset nearest to the end of the bytes that
/// are known. Checksums, acknowledgements and flags are for the caller.
#[derive(Drop)]
pub struct Direction {
    first: u32,
    count: u64,
    waiting: Vec<Part>,
    limit: usize,
}

impl Model for Direction {
    ghost use Rattle.std.specs.Prelude.{◌≤◌, ◌^◌};
    ghost use Rattle.tcp_streams.specs.Reassembly.{Taking};
    ghost use Rattle.tcp_streams.specs.Parts.{pieces_of};

    ghost Value = { Taking };

    ghost view = { λ d. record {
      first = d.first;
      count = d.count;
      waiting = pieces_of d.waiting.items;
      limit = d.limit;
    } };

    ghost invariant = { λ d. d.count ≤ 2 ^ 63 };
}

impl Direction {
    /// A direction of which nothing has come. It takes no memory.
    ///
    /// `first` is the sequence number of the stream's first byte: that of the SYN, and 1. Up to
    /// `limit` bytes may wait, where each piece that waits counts for its bytes and 64 more.
    pub fn new(alloc: Global, first: u32, limit: usize) -> Direction
        ensures { result ≡ opening_direction first limit }
    {
        Direction {
            first,
            count: 0,
            waiting: Vec::new(alloc),
            limit,
        }
    }

    /// Takes the next segment of a capture: the sequence number of its first byte, and its bytes.
    /// Appends to `out` the bytes of the stream that are known now and were not before.
    ///
    /// Bytes that lie before the stream's first or that were given out are passed over. They are
    /// not compared with what was given out, since a keep-alive has one old byte of any value (own
    /// rule).
    ///
    /// A segment that waits already, or lies in one that does, is kept once.
    ///
    /// `Conflict` comes before all others, where the segment and a piece that waits have two values
    /// for one byte. `Gap` comes where the segment would wait, and more than the limit would wait
    /// then. `Long` comes past 2^63 bytes, and `NoMemory` where memory runs out. After a fault
    /// nothing is said of the direction, nor of what `out` has beyond what it had: use neither.
    pub fn feed(
        &mut self,
        alloc: Global,
        sequence: u32,
        bytes: &[u8],
        out: &mut Vec<u8>,
    ) -> Result<(), SegmentFault>
        requires { length bytes.now < 2 ^ 32 }
        ensures taken { OnOk result (TakesSegment self.old
            (record { sequence = sequence; bytes = bytes.now })
            self.new out.old.items out.new.items) }
        ensures err { IfErr result (SegmentFails self.old
            (record { sequence = sequence; bytes = bytes.now })) }
    {
        let (offset, skipped) = place(self.first, self.count, sequence);
        let bytes = after(bytes, skipped);
        take_piece(
            alloc,
            &mut self.waiting,
            &mut self.count,
            self.limit,
            Fresh { offset, bytes },
            out,
        )
    }

    /// How many bytes were given out: the offset of the next one.
    pub fn count(&self) -> u64
        ensures { result ≡ self.now.count }
    {
        self.count
    }

    /// How much waits, at most 2^64 - 1: each piece that waits counts for its bytes and 64 more.
    pub fn held(&self) -> usize
        ensures { result ≡ min (held self.now.waiting) (2 ^ 64 - 1) }
    {
        cost_of(&self.waiting)
    }

    /// Whether pieces wait for bytes that have not come. At the end of a capture the byte at
    /// `count` is then missing.
    pub fn has_gap(&self) -> bool
        ensures { result ≡ not (length self.now.waiting == 0) }
    {
        !self.waiting.is_empty()
    }
}
