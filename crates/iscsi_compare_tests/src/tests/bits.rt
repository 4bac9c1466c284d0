//! Each bit of a header of each kind: a free one changes nothing, and any other the meaning.

use super::{bytes_of, compared};
use crate::asserts::same;
use iscsi_compare::Verdict;
use std::alloc::Global;
use std::process::Abort;

// A Login Request with a spare byte, a hexadecimal numeral and keys out of order, and its canonical
// form, which is shorter.
const SPARE: &str =
    "43870000 00000029 40000001 00000000 00000000 00000000 00000001 00000002 00000000 00000000 00000000 00000000 \
    4d617842757273744c656e6774683d3058303034303030300000496e697469616c5232543d59657300000000";

const SHORT: &str =
    "43870000 00000025 40000001 00000000 00000000 00000000 00000001 00000002 00000000 00000000 00000000 00000000 \
    496e697469616c5232543d596573004d617842757273744c656e6774683d32363231343400000000";

const PLACE: u64 = 92;

const OTHER_PLACE: u64 = 88;

// A header of each kind, and below it the bits that are free in it.
const KINDS: &str =
    "40800000 00000000 01020304 05060708 00000001 00000002 00000003 00000004 00000000 00000000 00000000 00000000\n\
    80ffffff 00000000 00000000 00000000 00000000 00000000 00000000 00000000 ffffffff ffffffff ffffffff ffffffff\n\
    \n\
    00800000 00000000 01020304 05060708 00000001 ffffffff 00000003 00000004 00000000 00000000 00000000 00000000\n\
    80ffffff 00000000 ffffffff ffffffff 00000000 00000000 00000000 00000000 ffffffff ffffffff ffffffff ffffffff\n\
    \n\
    01c50000 00000000 01020304 05060708 00000001 00000200 00000003 00000004 28000000 0000ff00 01001122 33445566\n\
    8018ffff 00000000 00000000 00000000 00000000 00000000 00000000 00000000 00000000 0000e000 0000ffff ffffffff\n\
    \n\
    42ff0000 00000000 01020304 05060708 00000001 00000002 00000003 00000004 00000005 00000006 00000000 00000000\n\
    8080ffff 00000000 00000000 00000000 00000000 00000000 00000000 00000000 00000000 00000000 ffffffff ffffffff\n\
    \n\
    43870102 00000000 40000001 02030405 00000001 00020000 00000003 00000004 00000000 00000000 00000000 00000000\n\
    c0300000 00000000 00000000 00000000 00000000 0000ffff 00000000 00000000 ffffffff ffffffff ffffffff ffffffff\n\
    \n\
    04800000 00000000 01020304 05060708 00000001 00000002 00000003 00000004 00000000 00000000 00000000 00000000\n\
    803fffff 00000000 00000000 00000000 00000000 00000000 00000000 00000000 ffffffff ffffffff ffffffff ffffffff\n\
    \n\
    05800000 00000000 01020304 05060708 00000001 00000002 00000000 00000003 00000000 00000004 00000005 00000000\n\
    c07fffff 00000000 00000000 00000000 00000000 00000000 ffffffff 00000000 ffffffff 00000000 00000000 ffffffff\n\
    \n\
    46820000 00000000 00000000 00000000 00000001 00070000 00000003 00000004 00000000 00000000 00000000 00000000\n\
    8080ffff 00000000 ffffffff ffffffff 00000000 0000ffff 00000000 00000000 ffffffff ffffffff ffffffff ffffffff\n\
    \n\
    20800000 00000000 01020304 05060708 00000001 00000002 00000003 00000004 00000005 00000000 00000000 00000000\n\
    c0ffffff 00000000 00000000 00000000 00000000 00000000 00000000 00000000 00000000 ffffffff ffffffff ffffffff\n\
    \n\
    21940002 00000000 00000000 00000000 00000001 00000000 00000002 00000003 00000004 00000005 00000006 00000007\n\
    c0e10000 00000000 ffffffff ffffffff 00000000 ffffffff 00000000 00000000 00000000 00000000 00000000 00000000\n\
    \n\
    22800500 00000000 00000000 00000000 00000001 00000000 00000002 00000003 00000004 00000000 00000000 00000000\n\
    c0ff00ff 00000000 ffffffff ffffffff 00000000 ffffffff 00000000 00000000 00000000 ffffffff ffffffff ffffffff\n\
    \n\
    23870102 00000000 40000001 02030405 00000001 00000000 00000002 00000003 00000004 00050000 00000000 00000000\n\
    c0300000 00000000 00000000 00000000 00000000 ffffffff 00000000 00000000 00000000 0000ffff ffffffff ffffffff\n\
    \n\
    24800000 00000000 01020304 05060708 00000001 00000002 00000003 00000004 00000005 00000000 00000000 00000000\n\
    c03fffff 00000000 00000000 00000000 00000000 00000000 00000000 00000000 00000000 ffffffff ffffffff ffffffff\n\
    \n\
    25c50002 00000000 01020304 05060708 00000001 00000002 00000003 00000004 00000005 00000006 00000007 00000008\n\
    c038ff00 00000000 00000000 00000000 00000000 00000000 00000000 00000000 00000000 00000000 00000000 00000000\n\
    \n\
    25860002 00000000 00000000 00000000 00000003 ffffffff 00000009 00000006 00000006 00000000 00000000 00000007\n\
    c03effff 00000000 ffffffff ffffffff 00000000 00000000 ffffffff 00000000 00000000 00000000 00000000 ffffffff\n\
    \n\
    26800100 00000000 00000000 00000000 00000001 00000000 00000002 00000003 00000004 00000000 00050006 00000000\n\
    c0ff00ff 00000000 ffffffff ffffffff 00000000 ffffffff 00000000 00000000 00000000 ffffffff 00000000 ffffffff\n\
    \n\
    31800000 00000000 01020304 05060708 00000001 00000002 00000003 00000004 00000005 00000006 00000007 00000008\n\
    c0ffffff 00000000 00000000 00000000 00000000 00000000 00000000 00000000 00000000 00000000 00000000 00000000\n\
    \n\
    32800000 00000000 01020304 05060708 ffffffff 00000000 00000001 00000002 00000003 05040005 00060007 00000000\n\
    c0ffffff 00000000 00000000 00000000 ffffffff ffffffff 00000000 00000000 00000000 00000000 00000000 ffffffff\n\
    \n\
    3f800400 00000000 00000000 00000000 ffffffff 00000000 00000001 00000002 00000003 00000000 00000000 00000000\n\
    c0ff00ff 00000000 ffffffff ffffffff ffffffff ffffffff 00000000 00000000 00000000 ffffffff ffffffff ffffffff";

// Whether a bit is the opcode's, the additional headers' or the length's: another value of these may
// leave the profile.
fn is_frame(byte: usize, bit: u8) -> bool {
    byte == 0 && bit & 0x3f != 0 || (4..8).contains(&byte)
}

// Turns a bit of the second stream's PDU.
fn turn(other: &mut [u8], at: (usize, u8)) {
    let place = (OTHER_PLACE as usize).saturating_add(at.0);
    if let Some(spot) = other.get_mut(place) {
        *spot ^= at.1;
    }
}

// One bit of the second stream's PDU is another.
fn check_bit(
    rt: &impl Abort,
    alloc: Global,
    stream: &[u8],
    other: &mut [u8],
    free: &[u8],
    at: (usize, u8),
) {
    let (byte, bit) = at;
    turn(other, at);
    let mut lines = Vec::new(alloc);
    let said = compared(alloc, stream, other, &mut lines);
    let parted = Ok(Verdict::Differ {
        place: PLACE,
        other_place: OTHER_PLACE,
    });
    let mask = free.get(byte).copied().unwrap_or(0);
    if mask & bit != 0 {
        same(rt, &said, &Ok(Verdict::Same), &at);
    } else if is_frame(byte, bit) {
        same(rt, &(said == Ok(Verdict::Same)), &false, &at);
    } else {
        same(rt, &said, &parted, &at);
    }
    turn(other, at);
}

// A PDU behind another.
fn behind(rt: &impl Abort, alloc: Global, front: &str, header: &str) -> Vec<u8> {
    let mut stream = bytes_of(rt, alloc, front);
    let header = bytes_of(rt, alloc, header);
    stream.extend_from_slice(&header).expect(rt, "a PDU more");
    stream
}

// Each bit of the PDU of a row, behind another PDU.
fn check_row(rt: &impl Abort, alloc: Global, row: &str) {
    let (header, free) = row.split_once('\n').expect(rt, "no mask");
    let free = bytes_of(rt, alloc, free);
    let stream = behind(rt, alloc, SPARE, header);
    let mut other = behind(rt, alloc, SHORT, header);
    for byte in 0..48usize {
        for shift in 0..8u32 {
            let at = (byte, 0x80u8 >> shift);
            check_bit(rt, alloc, &stream, &mut other, &free, at);
        }
    }
}

fn kinds() -> &'static str {
    KINDS
}

#[test]
fn a_free_bit_changes_nothing_and_any_other_the_meaning(rt: HostRuntime) {
    same(&rt, &kinds().split("\n\n").count(), &19, &"rows");
    for row in kinds().split("\n\n") {
        check_row(&rt, rt.alloc(), row);
    }
}
