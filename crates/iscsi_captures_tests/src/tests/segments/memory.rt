//! Memory that is refused, for `rt try --test --fail-alloc`: nothing but its want may come in place
//! of a stream.

use super::{Numbered, fed, segments_of};
use crate::asserts::{same, same_bytes};
use crate::stream_uses::stream_of;
use std::alloc::Global;
use std::process::Abort;
use tcp_streams::{Direction, Segment, SegmentFault};

/// Two pieces that wait, and one that brings them out.
const SEGMENTS: &[Numbered] = &[(1006, b"ghi"), (1003, b"def"), (1000, b"abc")];

// What is given out, once more where memory ran out.
fn fed_at_last(rt: &impl Abort, alloc: Global) -> Vec<u8> {
    match fed(rt, alloc, 1000, 1024, SEGMENTS) {
        Ok((out, _)) => out,
        Err(fault) => {
            same(rt, &fault, &SegmentFault::NoMemory, &"fault");
            fed(rt, alloc, 1000, 1024, SEGMENTS)
                .expect(rt, "once more")
                .0
        }
    }
}

#[test]
fn refused_memory_changes_no_byte(rt: HostRuntime) {
    let out = fed_at_last(&rt, rt.alloc());
    same_bytes(&rt, &out, b"abcdefghi", &"segment by segment");
}

// The segments in memory, made again where memory ran out.
fn ample(rt: &impl Abort, alloc: Global) -> Vec<Segment> {
    match segments_of(alloc, SEGMENTS) {
        Ok(segments) => segments,
        Err(_) => segments_of(alloc, SEGMENTS).expect(rt, "once more"),
    }
}

#[test]
fn refused_memory_changes_no_stream(rt: HostRuntime) {
    let segments = ample(&rt, rt.alloc());
    let out = match stream_of(rt.alloc(), 1000, &segments) {
        Ok(out) => out,
        Err(fault) => {
            same(&rt, &fault, &SegmentFault::NoMemory, &"fault");
            stream_of(rt.alloc(), 1000, &segments).expect(&rt, "once more")
        }
    };
    same_bytes(&rt, &out, b"abcdefghi", &"a whole list");
}

// Conflicts and gaps are found before memory is asked for.
fn fault_of(rt: &impl Abort, alloc: Global, segments: &[Numbered]) -> Option<SegmentFault> {
    match fed(rt, alloc, 1000, 67, segments).err() {
        Some(SegmentFault::NoMemory) => fed(rt, alloc, 1000, 67, segments).err(),
        fault => fault,
    }
}

#[test]
fn refused_memory_hides_no_fault(rt: HostRuntime) {
    let conflict = fault_of(&rt, rt.alloc(), &[(1003, b"def"), (1004, b"X")]);
    same(
        &rt,
        &conflict,
        &Some(SegmentFault::Conflict(4)),
        &"conflict",
    );
    let gap = fault_of(&rt, rt.alloc(), &[(1003, b"def"), (1001, b"b")]);
    same(&rt, &gap, &Some(SegmentFault::Gap(0)), &"gap");
}

#[test]
fn a_new_direction_asks_for_no_memory(rt: HostRuntime) {
    for first in 0..100u32 {
        let direction = Direction::new(rt.alloc(), first, 1024);
        same(&rt, &direction.count(), &0, &first);
    }
}
