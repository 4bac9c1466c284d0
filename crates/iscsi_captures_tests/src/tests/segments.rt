//! Streams out of segments, by rows that were worked out by hand.

mod memory;
mod orders;
mod worked;

use std::alloc::{AllocError, Global};
use std::process::Abort;
use tcp_streams::{Direction, Segment, SegmentFault};

/// The sequence number of a segment's first byte, and its bytes.
pub type Numbered = (u32, &'static [u8]);

/// Feeds one segment.
fn feed_one(
    rt: &impl Abort,
    alloc: Global,
    direction: &mut Direction,
    segment: Numbered,
    out: &mut Vec<u8>,
) -> Result<(), SegmentFault> {
    let (sequence, bytes) = segment;
    if bytes.len() > 65_536 {
        panic!(rt; "a long row");
    }
    direction.feed(alloc, sequence, bytes, out)
}

/// What a new direction gives out of these segments, in this order, and the direction then.
pub fn fed(
    rt: &impl Abort,
    alloc: Global,
    first: u32,
    limit: usize,
    segments: &[Numbered],
) -> Result<(Vec<u8>, Direction), SegmentFault> {
    let mut direction = Direction::new(alloc, first, limit);
    let mut out = Vec::new(alloc);
    for segment in segments {
        feed_one(rt, alloc, &mut direction, *segment, &mut out)?;
    }
    Ok((out, direction))
}

/// The segments as a list in memory.
pub fn segments_of(alloc: Global, segments: &[Numbered]) -> Result<Vec<Segment>, AllocError> {
    let mut list = Vec::with_capacity(alloc, segments.len())?;
    for (sequence, bytes) in segments {
        let mut kept = Vec::with_capacity(alloc, bytes.len())?;
        kept.extend_from_slice(bytes)?;
        let segment = Segment {
            sequence: *sequence,
            bytes: kept,
        };
        if list.push(segment).is_err() {
            return Err(AllocError);
        }
    }
    Ok(list)
}
