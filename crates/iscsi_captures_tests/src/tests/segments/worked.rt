//! Rows by hand: overlaps, repetitions, numbers that wrap, limits and conflicts. The file is long for
//! its rows.

use super::{Numbered, fed, segments_of};
use crate::asserts::{same, same_bytes};
use crate::stream_uses::stream_of;
use std::alloc::Global;
use std::process::Abort;
use tcp_streams::SegmentFault;

/// The number of the stream's first byte, the segments in the order in which they come, what is
/// given out, and whether some wait at the end.
type Row = (&'static str, u32, &'static [Numbered], &'static [u8], bool);

const ROWS: &[Row] = &[
    ("nothing", 1000, &[], b"", false),
    ("no bytes", 1000, &[(1000, b"")], b"", false),
    (
        "in order",
        1000,
        &[(1000, b"abc"), (1003, b"def")],
        b"abcdef",
        false,
    ),
    (
        "the second first",
        1000,
        &[(1003, b"def"), (1000, b"abc")],
        b"abcdef",
        false,
    ),
    (
        "the last first",
        1000,
        &[(1006, b"ghi"), (1003, b"def"), (1000, b"abc")],
        b"abcdefghi",
        false,
    ),
    (
        "repeated",
        1000,
        &[(1000, b"abc"), (1000, b"abc"), (1003, b"d"), (1000, b"abc")],
        b"abcd",
        false,
    ),
    (
        "overlapping",
        1000,
        &[(1000, b"abcd"), (1002, b"cdef")],
        b"abcdef",
        false,
    ),
    (
        "longer than before",
        1000,
        &[(1000, b"ab"), (1000, b"abcdef")],
        b"abcdef",
        false,
    ),
    (
        "known before",
        1000,
        &[(1000, b"abcdef"), (1002, b"c")],
        b"abcdef",
        false,
    ),
    (
        "overlapping while they wait",
        1000,
        &[
            (1004, b"efgh"),
            (1002, b"cdef"),
            (1003, b"d"),
            (1000, b"ab"),
        ],
        b"abcdefgh",
        false,
    ),
    (
        "a probe with one new byte",
        1000,
        &[(1000, b"abc"), (1003, b"d"), (1003, b"def")],
        b"abcdef",
        false,
    ),
    (
        "a keep-alive has one old byte of another value",
        1000,
        &[(1000, b"abc"), (1002, b"\0"), (1003, b"d")],
        b"abcd",
        false,
    ),
    (
        "a keep-alive before any byte",
        1000,
        &[(999, b"\0"), (1000, b"abc")],
        b"abc",
        false,
    ),
    (
        "begun before the stream",
        1000,
        &[(998, b"yzabc")],
        b"abc",
        false,
    ),
    (
        "wholly before the stream",
        1000,
        &[(990, b"abc")],
        b"",
        false,
    ),
    ("the first byte missing", 1000, &[(1001, b"bc")], b"", true),
    (
        "a gap at the end",
        1000,
        &[(1000, b"abc"), (1004, b"e")],
        b"abc",
        true,
    ),
    (
        "one of two gaps filled",
        1000,
        &[(1002, b"c"), (1004, b"e"), (1000, b"ab")],
        b"abc",
        true,
    ),
    (
        "old bytes of another value",
        1000,
        &[(1000, b"abc"), (1000, b"xyzd")],
        b"abcd",
        false,
    ),
    (
        "numbers wrap between two segments",
        0xffff_fffd,
        &[(0xffff_fffd, b"abc"), (0, b"def")],
        b"abcdef",
        false,
    ),
    (
        "numbers wrap between two segments, the second first",
        0xffff_fffd,
        &[(0, b"def"), (0xffff_fffd, b"abc")],
        b"abcdef",
        false,
    ),
    (
        "numbers wrap within a segment",
        0xffff_fffe,
        &[(0xffff_fffe, b"abcd"), (2, b"ef"), (0, b"cd")],
        b"abcdef",
        false,
    ),
    ("the first number is 0", 0, &[(0, b"abc")], b"abc", false),
    (
        "begun before the stream, where numbers wrap",
        1,
        &[(0xffff_ffff, b"yzabc")],
        b"abc",
        false,
    ),
    (
        "the farthest that is ahead",
        0,
        &[(0x7fff_ffff, b"x"), (0, b"abc")],
        b"abc",
        true,
    ),
    (
        "the nearest that is behind",
        0,
        &[(0x8000_0000, b"x"), (0, b"abc")],
        b"abc",
        false,
    ),
    (
        "ahead of what is known by then",
        0,
        &[(0, b"abc"), (0x8000_0002, b"x")],
        b"abc",
        true,
    ),
    (
        "behind what is known by then",
        0,
        &[(0, b"abc"), (0x8000_0003, b"x")],
        b"abc",
        false,
    ),
];

// Feeds the row's segments one by one.
fn check_fed(rt: &impl Abort, alloc: Global, row: &Row) {
    let (name, first, segments, due, waits) = *row;
    let (out, direction) = fed(rt, alloc, first, 1_048_576, segments).expect(rt, name);
    same_bytes(rt, &out, due, &name);
    same(rt, &direction.count(), &(due.len() as u64), &name);
    same(rt, &direction.has_gap(), &waits, &name);
}

// Gives the row's segments as a list.
fn check_whole(rt: &impl Abort, alloc: Global, row: &Row) {
    let (name, first, segments, due, _) = *row;
    let list = segments_of(alloc, segments).expect(rt, name);
    let out = stream_of(alloc, first, &list).expect(rt, name);
    same_bytes(rt, &out, due, &name);
}

#[test]
fn segments_determine_a_stream(rt: HostRuntime) {
    for row in ROWS {
        check_fed(&rt, rt.alloc(), row);
        check_whole(&rt, rt.alloc(), row);
    }
}

/// How much may wait, the segments of a stream whose first byte has the number 1000, and what the
/// last of them is answered.
type Refused = (
    &'static str,
    usize,
    &'static [Numbered],
    Result<(), SegmentFault>,
);

const REFUSED: &[Refused] = &[
    (
        "what waits counts for 64 bytes more",
        67,
        &[(1003, b"def")],
        Ok(()),
    ),
    (
        "a byte too much",
        66,
        &[(1003, b"def")],
        Err(SegmentFault::Gap(0)),
    ),
    (
        "two that wait",
        132,
        &[(1004, b"ef"), (1002, b"cd")],
        Ok(()),
    ),
    (
        "a byte too much for two",
        131,
        &[(1004, b"ef"), (1002, b"cd")],
        Err(SegmentFault::Gap(0)),
    ),
    (
        "a gap behind known bytes",
        0,
        &[(1000, b"abc"), (1004, b"e")],
        Err(SegmentFault::Gap(3)),
    ),
    (
        "what waited is given out, and makes room",
        66,
        &[(1001, b"bc"), (1000, b"a"), (1004, b"ef")],
        Ok(()),
    ),
    (
        "no limit for what comes in order",
        0,
        &[(1000, b"abc"), (1003, b"def")],
        Ok(()),
    ),
    (
        "two values while both would wait",
        1024,
        &[(1003, b"def"), (1002, b"cdX")],
        Err(SegmentFault::Conflict(4)),
    ),
    (
        "two values where the second follows at once",
        1024,
        &[(1003, b"def"), (1000, b"abcX")],
        Err(SegmentFault::Conflict(3)),
    ),
    (
        "the first of two conflicts",
        1024,
        &[(1003, b"def"), (1003, b"dXY")],
        Err(SegmentFault::Conflict(4)),
    ),
    (
        "equal bytes",
        1024,
        &[(1003, b"def"), (1002, b"cdef")],
        Ok(()),
    ),
    (
        "a piece in front of one that waits",
        1024,
        &[(1003, b"def"), (1001, b"XY")],
        Ok(()),
    ),
    (
        "a copy of one that waits takes no room",
        67,
        &[(1003, b"def"), (1003, b"def")],
        Ok(()),
    ),
    (
        "a part of one that waits takes no room",
        67,
        &[(1003, b"def"), (1004, b"ef")],
        Ok(()),
    ),
    (
        "a byte more than one that waits takes its own",
        134,
        &[(1003, b"def"), (1003, b"defg")],
        Err(SegmentFault::Gap(0)),
    ),
    (
        "a conflict comes before a gap",
        67,
        &[(1003, b"def"), (1004, b"X")],
        Err(SegmentFault::Conflict(4)),
    ),
];

fn check_refused(rt: &impl Abort, alloc: Global, row: &Refused) {
    let (name, limit, segments, due) = *row;
    let result = fed(rt, alloc, 1000, limit, segments);
    same(rt, &result.map(|_| ()), &due, &name);
}

#[test]
fn a_segment_is_refused_for_its_reason(rt: HostRuntime) {
    for row in REFUSED {
        check_refused(&rt, rt.alloc(), row);
    }
}

/// The segments of a stream whose first byte has the number 1000, and how much waits then.
const HELD: &[(&[Numbered], usize)] = &[
    (&[], 0),
    (&[(1003, b"def")], 67),
    (&[(1003, b"def"), (1001, b"b"), (1003, b"def")], 132),
    (&[(1003, b"def"), (1001, b"b"), (1000, b"a")], 67),
    (&[(1003, b"def"), (1000, b"abc")], 0),
];

#[test]
fn what_waits_is_counted(rt: HostRuntime) {
    for (segments, due) in HELD {
        let (_, direction) = fed(&rt, rt.alloc(), 1000, 1024, segments).expect(&rt, "fed");
        same(&rt, &direction.held(), due, due);
    }
}
