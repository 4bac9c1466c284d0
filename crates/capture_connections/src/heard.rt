//! What a segment says to its connection.

ghost use Rattle.std.specs.Prelude.{◌≡◌, ◌<◌, ◌+◌, ◌^◌, ◌%◌, [], length, take, if◌then◌else◌};
ghost use Rattle.capture_connections.specs.Directions.{has_some};

use crate::ends::{Ends, Side, ends_of};
use capture_file::{LONGEST, Segment};

/// What a segment says of its direction.
#[derive(Clone, Copy)]
pub struct Said {
    /// Which end sent it.
    pub side: Side,
    /// The SYN flag.
    pub syn: bool,
    /// The ACK flag.
    pub ack: bool,
    /// The number of its first byte. A SYN counts for one before it.
    pub first: u32,
    /// Whether it has bytes.
    pub some: bool,
}

/// A segment, as a connection hears it.
#[derive(Clone, Copy)]
pub struct Heard<'a> {
    /// The ends of its connection.
    pub ends: Ends,
    /// What it says of its direction.
    pub said: Said,
    /// Its bytes, as far as they were captured; none of a segment that resets the connection.
    pub bytes: &'a [u8],
    /// Whether some of its bytes were not captured.
    pub is_cut: bool,
    /// The number of its packet, from 1.
    pub packet: u64,
}

/// A segment of the packet with this number, as its connection hears it. Of a segment that resets
/// the connection the bytes are left out: they are a reason as text, and no part of the stream.
pub fn heard_of<'a>(segment: &Segment<'a>, packet: u64) -> Heard<'a>
    ensures short { length result.bytes.now < 2 ^ 32 }
    ensures some { result.said.some ≡ has_some result.bytes.now }
    ensures first { result.said.first ≡ (if segment.now.syn
        then (segment.now.sequence + 1) % 2 ^ 32 else segment.now.sequence) }
    ensures flags { (result.said.syn ≡ segment.now.syn) × (result.said.ack ≡ segment.now.ack) }
    ensures bytes { result.bytes.now ≡ (if segment.now.reset then []
        else take 1048576 segment.now.bytes.now) }
{
    let (ends, side) = ends_of(segment.source, segment.destination);
    let bytes = bytes_of(segment);
    let first = if segment.syn {
        segment.sequence.wrapping_add(1)
    } else {
        segment.sequence
    };
    Heard {
        ends,
        said: Said {
            side,
            syn: segment.syn,
            ack: segment.ack,
            first,
            some: !bytes.is_empty(),
        },
        bytes,
        is_cut: segment.missing > 0 && !segment.reset,
        packet,
    }
}

// The bytes of a segment that are of its stream. A packet of a file has no more than the limit.
#[tactic(auto, using(std::proofs::lemmas::List::take_min))]
fn bytes_of<'a>(segment: &Segment<'a>) -> &'a [u8]
    ensures bytes { result.now ≡ (if segment.now.reset then []
        else take 1048576 segment.now.bytes.now) }
    ensures short { length result.now < 2 ^ 32 }
{
    if segment.reset {
        return &[];
    }
    let count = (LONGEST as usize).min(segment.bytes.len());
    &segment.bytes[..count]
}
