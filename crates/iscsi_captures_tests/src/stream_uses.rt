//! What another program does with `tcp_streams`.

ghost use Rattle.std.specs.Prelude.{◌<◌, ◌^◌, ◌↔◌, List, [], length, map, IfOk, IsTrue};
ghost use Rattle.std.specs.List.{All};
ghost use Rattle.tcp_streams.specs.Pieces.{Piece, DeterminesBytes};
ghost use Rattle.tcp_streams.specs.Placing.{ArePlaced};
ghost use Rattle.tcp_streams.specs.Whole.{numbered_segment};

use std::alloc::Global;
use tcp_streams::{Segment, SegmentFault, reassemble};

/// The bytes of a stream whose first one has the sequence number `first`, as far as its segments
/// determine them. Up to 1 MiB may wait.
pub fn stream_of(alloc: Global, first: u32, segments: &[Segment]) -> Result<Vec<u8>, SegmentFault>
    ensures { IfOk result (λ out. (pieces : List Piece)
        × ArePlaced first [] (map numbered_segment segments.now) pieces
        × DeterminesBytes pieces out.items) }
{
    if !are_short(segments) {
        return Err(SegmentFault::Long);
    }
    reassemble(alloc, first, 1_048_576, segments)
}

// Whether each segment has fewer than 2^32 bytes.
fn are_short(segments: &[Segment]) -> bool
    ensures { IsTrue result → All (λ segment. length segment.bytes.items < 2 ^ 32) segments.now }
{
    segments.iter().all(|segment| is_short(segment))
}

// Whether the segment has fewer than 2^32 bytes.
fn is_short(segment: &Segment) -> bool
    ensures { IsTrue result ↔ (length segment.now.bytes.items < 2 ^ 32) }
{
    segment.bytes.len() < 4_294_967_296
}
