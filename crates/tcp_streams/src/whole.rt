//! The stream of a whole list of segments.

ghost use Rattle.std.specs.Prelude.{◌≡◌, ◌<◌, ◌^◌, List, [], length, map, IfErr, IfOk};
ghost use Rattle.std.specs.List.{All};
ghost use Rattle.tcp_streams.specs.Pieces.{Piece, DeterminesBytes};
ghost use Rattle.tcp_streams.specs.Placing.{ArePlaced, Numbered};
ghost use Rattle.tcp_streams.specs.Reassembly.{SegmentFails, Taking};
ghost use Rattle.tcp_streams.specs.Whole.{numbered_segment};

use crate::direction::Direction;
use crate::fault::SegmentFault;
use std::alloc::Global;

/// A segment of one direction (RFC 9293, section 3.1).
#[derive(Drop)]
pub struct Segment {
    /// The sequence number of its first byte. A SYN counts for one: its bytes begin a number later.
    pub sequence: u32,
    /// Its bytes, without the header.
    pub bytes: Vec<u8>,
}

/// The bytes that segments determine, in the order of a capture, of a stream whose first byte has
/// the sequence number `first`. Up to `limit` bytes may wait, as in `Direction::new`.
///
/// What comes after a gap is left out: the bytes end where the first one is missing. The faults are
/// those of `Direction::feed`.
pub fn reassemble(
    alloc: Global,
    first: u32,
    limit: usize,
    segments: &[Segment],
) -> Result<Vec<u8>, SegmentFault>
    requires { All (λ segment. length segment.bytes.items < 2 ^ 32) segments.now }
    ensures ok { IfOk result (λ out. (pieces : List Piece)
        × ArePlaced first [] (map numbered_segment segments.now) pieces
        × DeterminesBytes pieces out.items) }
    // A fault is that of a direction with this limit, at one of the segments.
    ensures err { IfErr result (λ fault. (old : Taking) × (segment : Numbered)
        × (old.limit ≡ limit) × SegmentFails old segment fault) }
{
    let mut direction = Direction::new(alloc, first, limit);
    let mut out = Vec::new(alloc);
    for segment in segments {
        direction.feed(alloc, segment.sequence, &segment.bytes, &mut out)?;
    }
    Ok(out)
}
