//! Worked streams: against their canonical streams, against each other, and with a PDU more or less.

use super::{bytes_of, compared};
use crate::asserts::{same, same_bytes};
use iscsi_compare::{CompareFault, Verdict, Which, compare};
use iscsi_pdu::HeadFault;
use iscsi_stream::StreamFault;
use iscsi_test_support::{SURE, Source, Steps};
use std::alloc::Global;
use std::process::Abort;

/// A NOP-Out with free bits, a LUN that has no meaning and padding, a Data-In without status, a
/// READ(10) and a Reject.
pub const RAW: &str =
    "c0800000 00000003 11111111 11111111 00000001 ffffffff 00000005 00000002 00000000 00000000 00000000 00000000 616263ff\n\
    25860002 00000000 00000000 00000000 00000003 ffffffff 00000009 00000006 00000006 00000000 00000000 00000007\n\
    01c10000 00000000 00000000 00000000 00000001 00000200 00000001 00000003 28000000 0000ff00 01001122 33445566\n\
    3f000400 00000000 11111111 11111111 00000005 00000009 00000003 00000001 00000001 00000007 00000000 00000000";

/// The same as the profile writes them.
pub const CANONICAL: &str =
    "40800000 00000003 00000000 00000000 00000001 ffffffff 00000005 00000002 00000000 00000000 00000000 00000000 61626300\n\
    25800000 00000000 00000000 00000000 00000003 ffffffff 00000000 00000006 00000006 00000000 00000000 00000000\n\
    01c10000 00000000 00000000 00000000 00000001 00000200 00000001 00000003 28000000 00001f00 01000000 00000000\n\
    3f800400 00000000 00000000 00000000 ffffffff 00000000 00000003 00000001 00000001 00000000 00000000 00000000";

// Where the last of the four begins, and where they end.
const LAST: usize = 148;

const END: usize = 196;

const REJECT_LINE: &str =
    "148 Reject reason=04 statsn=00000003 expcmdsn=00000001 maxcmdsn=00000001 data=0\n";

fn parted(place: u64, other_place: u64) -> Result<Verdict, CompareFault> {
    Ok(Verdict::Differ { place, other_place })
}

// What is said of two streams, and the lines.
fn check(
    rt: &impl Abort,
    alloc: Global,
    streams: (&[u8], &[u8]),
    due: Result<Verdict, CompareFault>,
    lines: &str,
) {
    let mut told = Vec::new(alloc);
    let said = compared(alloc, streams.0, streams.1, &mut told);
    same(rt, &said, &due, &lines);
    same_bytes(rt, &told, lines.as_bytes(), &due);
}

// Two streams have one meaning, whose reads go by these steps.
fn check_steps(rt: &impl Abort, alloc: Global, streams: (&[u8], &[u8]), steps: (Steps, Steps)) {
    let mut lines = Vec::new(alloc);
    let mut first = Source::new(streams.0, steps.0);
    let mut second = Source::new(streams.1, steps.1);
    let said = compare(alloc, &mut first, &mut second, &mut lines);
    let row = (steps.0.step, steps.1.step);
    same(rt, &said, &Ok(Verdict::Same), &row);
    same(rt, &lines.len(), &0, &row);
}

#[test]
fn a_stream_and_its_canonical_stream_in_any_pieces(rt: HostRuntime) {
    let raw = bytes_of(&rt, rt.alloc(), RAW);
    let canonical = bytes_of(&rt, rt.alloc(), CANONICAL);
    for step in [1usize, 47, 48] {
        let steps = Steps::of(step);
        check_steps(&rt, rt.alloc(), (&raw, &canonical), (steps, SURE));
        check_steps(&rt, rt.alloc(), (&raw, &canonical), (SURE, steps));
    }
    check(&rt, rt.alloc(), (b"", b""), Ok(Verdict::Same), "");
}

#[test]
fn a_pdu_more_or_less(rt: HostRuntime) {
    let raw = bytes_of(&rt, rt.alloc(), RAW);
    let canonical = bytes_of(&rt, rt.alloc(), CANONICAL);
    let less = canonical.get(..LAST).expect(&rt, "short");
    let parted = parted(148, 148);
    let lines = format!(in rt.alloc(); "{REJECT_LINE}148 end\n").expect(&rt, "text");
    check(&rt, rt.alloc(), (&raw, less), parted, &lines);
    let lines = format!(in rt.alloc(); "148 end\n{REJECT_LINE}").expect(&rt, "text");
    check(&rt, rt.alloc(), (less, &raw), parted, &lines);
}

/// The lines of two PDUs that differ in their data alone are equal.
#[test]
fn data_that_differ(rt: HostRuntime) {
    let raw = bytes_of(&rt, rt.alloc(), RAW);
    let mut other = bytes_of(&rt, rt.alloc(), CANONICAL);
    if let Some(byte) = other.get_mut(50) {
        *byte = b'd';
    }
    let lines = "0 NOP-Out i=1 itt=00000001 ttt=ffffffff cmdsn=00000005 expstatsn=00000002 data=3\n\
        0 NOP-Out i=1 itt=00000001 ttt=ffffffff cmdsn=00000005 expstatsn=00000002 data=3\n";
    check(&rt, rt.alloc(), (&raw, &other), parted(0, 0), lines);
}

// A stream that is cut, against a whole one.
fn check_cut(rt: &impl Abort, alloc: Global, cut: &[u8], whole: &[u8], place: u64) {
    let fault = StreamFault::Truncated(place);
    let due = Err(CompareFault::Stream(Which::First, fault));
    check(rt, alloc, (cut, whole), due, "");
    let due = Err(CompareFault::Stream(Which::Second, fault));
    check(rt, alloc, (whole, cut), due, "");
    // The first stream's comes first.
    let due = Err(CompareFault::Stream(Which::First, fault));
    check(rt, alloc, (cut, cut), due, "");
}

#[test]
fn a_stream_that_is_cut(rt: HostRuntime) {
    let whole = bytes_of(&rt, rt.alloc(), CANONICAL);
    for len in [1usize, 47, 48, 51, 53, 99, 101, LAST + 1, END - 1] {
        let place = match len {
            0..52 => 0,
            52..100 => 52,
            100..148 => 100,
            _ => 148,
        };
        let cut = whole.get(..len).expect(&rt, "short");
        check_cut(&rt, rt.alloc(), cut, &whole, place);
    }
}

/// What follows a difference isn't looked at; what comes before it is.
#[test]
fn a_header_that_is_refused(rt: HostRuntime) {
    let whole = bytes_of(&rt, rt.alloc(), CANONICAL);
    let mut bad = bytes_of(&rt, rt.alloc(), RAW);
    if let Some(byte) = bad.get_mut(LAST) {
        *byte = 0x10;
    }
    let fault = StreamFault::Head(HeadFault::UnknownOpcode, 148);
    let due = Err(CompareFault::Stream(Which::Second, fault));
    check(&rt, rt.alloc(), (&whole, &bad), due, "");
    let rest = whole.get(52..).expect(&rt, "short");
    let mut lines = Vec::new(rt.alloc());
    let said = compared(rt.alloc(), rest, &bad, &mut lines);
    same(&rt, &said, &parted(0, 0), &"before it");
}

/// Meaning is that of each PDU: one text in one PDU and in two differ.
#[test]
fn a_login_text_in_two_pdus(rt: HostRuntime) {
    let one = bytes_of(
        &rt,
        rt.alloc(),
        "43870000 00000004 40000001 00000000 00000000 00000000 00000001 00000000 00000000 00000000 00000000 00000000 413d3100",
    );
    let two = bytes_of(
        &rt,
        rt.alloc(),
        "43400000 00000002 40000001 00000000 00000000 00000000 00000001 00000000 00000000 00000000 00000000 00000000 413d0000\n\
        43870000 00000002 40000001 00000000 00000000 00000000 00000001 00000000 00000000 00000000 00000000 00000000 31000000",
    );
    let lines =
        "0 Login-Request t=1 c=0 csg=1 nsg=3 vmax=00 vmin=00 isid=400000010000 tsih=0000 itt=00000000 cid=0000 cmdsn=00000001 expstatsn=00000000 data=4\n\
        0 Login-Request t=0 c=1 csg=0 vmax=00 vmin=00 isid=400000010000 tsih=0000 itt=00000000 cid=0000 cmdsn=00000001 expstatsn=00000000 data=2\n";
    check(&rt, rt.alloc(), (&one, &two), parted(0, 0), lines);
}
