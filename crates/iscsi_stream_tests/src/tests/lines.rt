//! Lines, worked out by hand from the field table.

use super::rows::{NOP_OUT, lines_of, parts_of};
use super::{came_of, check_count, nth_row, written_of};
use crate::asserts::{same, same_bytes};
use iscsi_stream::{Counts, Framer, StreamFault, ToolFault, canonical_head, show, show_line};
use iscsi_test_support::bytes_of;
use std::alloc::Global;
use std::process::Abort;

// Appends the lines of a stream.
fn shown(alloc: Global, stream: &[u8], out: &mut Vec<u8>) -> Result<Counts, ToolFault> {
    let mut source = stream;
    show(alloc, &mut source, out)
}

fn counts(pdus: u64, bytes_in: u64, bytes_out: u64) -> Result<Counts, ToolFault> {
    Ok(Counts {
        pdus,
        bytes_in,
        bytes_out,
    })
}

// A header of each kind, with and without the fields that have a condition, and its line.
const KINDS: &str =
    "40800000 00000000 01020304 05060708 00000001 00000002 00000003 00000004 00000000 00000000 00000000 00000000\n\
    0 NOP-Out i=1 lun=0102030405060708 itt=00000001 ttt=00000002 cmdsn=00000003 expstatsn=00000004 data=0\n\
    \n\
    00800000 00000000 01020304 05060708 00000001 ffffffff 00000003 00000004 00000000 00000000 00000000 00000000\n\
    0 NOP-Out i=0 itt=00000001 ttt=ffffffff cmdsn=00000003 expstatsn=00000004 data=0\n\
    \n\
    01c50000 00000000 01020304 05060708 00000001 00000200 00000003 00000004 28000000 0000ff00 01001122 33445566\n\
    0 SCSI-Command i=0 f=1 r=1 w=0 attr=5 lun=0102030405060708 itt=00000001 edtl=00000200 cmdsn=00000003 expstatsn=00000004 cdb=2800000000001f000100000000000000 data=0\n\
    \n\
    41220000 00000000 00000000 00000000 00000001 00000200 00000003 00000004 9e110203 04050607 08090a0b 0c0d0e0f\n\
    0 SCSI-Command i=1 f=0 r=0 w=1 attr=2 lun=0000000000000000 itt=00000001 edtl=00000200 cmdsn=00000003 expstatsn=00000004 cdb=9e1102030405060708090a0b0c0d0e0f data=0\n\
    \n\
    42ff0000 00000000 01020304 05060708 00000001 00000002 00000003 00000004 00000005 00000006 00000000 00000000\n\
    0 Task-Request i=1 function=7f lun=0102030405060708 itt=00000001 rtt=00000002 cmdsn=00000003 expstatsn=00000004 refcmdsn=00000005 expdatasn=00000006 data=0\n\
    \n\
    43870102 00000000 40000001 02030405 00000001 00020000 00000003 00000004 00000000 00000000 00000000 00000000\n\
    0 Login-Request t=1 c=0 csg=1 nsg=3 vmax=01 vmin=02 isid=400000010203 tsih=0405 itt=00000001 cid=0002 cmdsn=00000003 expstatsn=00000004 data=0\n\
    \n\
    434b0000 00000000 40000001 00000000 00000001 00000000 00000003 00000004 00000000 00000000 00000000 00000000\n\
    0 Login-Request t=0 c=1 csg=2 vmax=00 vmin=00 isid=400000010000 tsih=0000 itt=00000001 cid=0000 cmdsn=00000003 expstatsn=00000004 data=0\n\
    \n\
    04800000 00000000 01020304 05060708 00000001 00000002 00000003 00000004 00000000 00000000 00000000 00000000\n\
    0 Text-Request i=0 f=1 c=0 lun=0102030405060708 itt=00000001 ttt=00000002 cmdsn=00000003 expstatsn=00000004 data=0\n\
    \n\
    44400000 00000000 00000000 00000000 00000001 ffffffff 00000003 00000004 00000000 00000000 00000000 00000000\n\
    0 Text-Request i=1 f=0 c=1 itt=00000001 ttt=ffffffff cmdsn=00000003 expstatsn=00000004 data=0\n\
    \n\
    05800000 00000000 01020304 05060708 00000001 00000002 00000000 00000003 00000000 00000004 00000005 00000000\n\
    0 Data-Out f=1 lun=0102030405060708 itt=00000001 ttt=00000002 expstatsn=00000003 datasn=00000004 offset=00000005 data=0\n\
    \n\
    05000000 00000000 01020304 05060708 00000001 ffffffff 00000000 00000003 00000000 00000004 00000005 00000000\n\
    0 Data-Out f=0 itt=00000001 ttt=ffffffff expstatsn=00000003 datasn=00000004 offset=00000005 data=0\n\
    \n\
    46820000 00000000 00000000 00000000 00000001 00070000 00000003 00000004 00000000 00000000 00000000 00000000\n\
    0 Logout-Request i=1 reason=02 itt=00000001 cid=0007 cmdsn=00000003 expstatsn=00000004 data=0\n\
    \n\
    06800000 00000000 00000000 00000000 00000001 00070000 00000003 00000004 00000000 00000000 00000000 00000000\n\
    0 Logout-Request i=0 reason=00 itt=00000001 cmdsn=00000003 expstatsn=00000004 data=0\n\
    \n\
    20800000 00000000 01020304 05060708 00000001 00000002 00000003 00000004 00000005 00000000 00000000 00000000\n\
    0 NOP-In lun=0102030405060708 itt=00000001 ttt=00000002 statsn=00000003 expcmdsn=00000004 maxcmdsn=00000005 data=0\n\
    \n\
    20800000 00000000 00000000 00000000 00000001 ffffffff 00000003 00000004 00000005 00000000 00000000 00000000\n\
    0 NOP-In itt=00000001 ttt=ffffffff statsn=00000003 expcmdsn=00000004 maxcmdsn=00000005 data=0\n\
    \n\
    21920002 00000000 00000000 00000000 00000001 00000000 00000002 00000003 00000004 00000005 00000006 00000007\n\
    0 SCSI-Response bo=1 bu=0 o=0 u=1 response=00 status=02 itt=00000001 statsn=00000002 expcmdsn=00000003 maxcmdsn=00000004 expdatasn=00000005 bresidual=00000006 residual=00000007 data=0\n\
    \n\
    218c0108 00000000 00000000 00000000 00000001 00000000 00000002 00000003 00000004 00000005 00000006 00000007\n\
    0 SCSI-Response bo=0 bu=1 o=1 u=0 response=01 itt=00000001 statsn=00000002 expcmdsn=00000003 maxcmdsn=00000004 bresidual=00000006 residual=00000007 data=0\n\
    \n\
    21800000 00000000 00000000 00000000 00000001 00000000 00000002 00000003 00000004 00000005 00000006 00000007\n\
    0 SCSI-Response bo=0 bu=0 o=0 u=0 response=00 status=00 itt=00000001 statsn=00000002 expcmdsn=00000003 maxcmdsn=00000004 expdatasn=00000005 data=0\n\
    \n\
    22800500 00000000 00000000 00000000 00000001 00000000 00000002 00000003 00000004 00000000 00000000 00000000\n\
    0 Task-Response response=05 itt=00000001 statsn=00000002 expcmdsn=00000003 maxcmdsn=00000004 data=0\n\
    \n\
    23870102 00000000 40000001 02030405 00000001 00000000 00000002 00000003 00000004 00050000 00000000 00000000\n\
    0 Login-Response t=1 c=0 csg=1 nsg=3 vmax=01 vactive=02 isid=400000010203 tsih=0405 itt=00000001 statsn=00000002 expcmdsn=00000003 maxcmdsn=00000004 class=00 detail=05 data=0\n\
    \n\
    23400000 00000000 40000001 00000000 00000000 00000000 00000002 00000003 00000004 02070000 00000000 00000000\n\
    0 Login-Response t=0 c=1 csg=0 vmax=00 vactive=00 isid=400000010000 tsih=0000 itt=00000000 expcmdsn=00000003 maxcmdsn=00000004 class=02 detail=07 data=0\n\
    \n\
    24800000 00000000 01020304 05060708 00000001 00000002 00000003 00000004 00000005 00000000 00000000 00000000\n\
    0 Text-Response f=1 c=0 lun=0102030405060708 itt=00000001 ttt=00000002 statsn=00000003 expcmdsn=00000004 maxcmdsn=00000005 data=0\n\
    \n\
    25c50002 00000000 01020304 05060708 00000001 00000002 00000003 00000004 00000005 00000006 00000007 00000008\n\
    0 Data-In f=1 a=1 o=1 u=0 s=1 status=02 lun=0102030405060708 itt=00000001 ttt=00000002 statsn=00000003 expcmdsn=00000004 maxcmdsn=00000005 datasn=00000006 offset=00000007 residual=00000008 data=0\n\
    \n\
    25860002 00000000 00000000 00000000 00000003 ffffffff 00000009 00000006 00000006 00000000 00000000 00000007\n\
    0 Data-In f=1 a=0 s=0 itt=00000003 ttt=ffffffff expcmdsn=00000006 maxcmdsn=00000006 datasn=00000000 offset=00000000 data=0\n\
    \n\
    26800100 00000000 00000000 00000000 00000001 00000000 00000002 00000003 00000004 00000000 00050006 00000000\n\
    0 Logout-Response response=01 itt=00000001 statsn=00000002 expcmdsn=00000003 maxcmdsn=00000004 time2wait=0005 time2retain=0006 data=0\n\
    \n\
    31800000 00000000 01020304 05060708 00000001 00000002 00000003 00000004 00000005 00000006 00000007 00000008\n\
    0 R2T lun=0102030405060708 itt=00000001 ttt=00000002 statsn=00000003 expcmdsn=00000004 maxcmdsn=00000005 r2tsn=00000006 offset=00000007 length=00000008 data=0\n\
    \n\
    32800000 00000000 01020304 05060708 ffffffff 00000000 00000001 00000002 00000003 05040005 00060007 00000000\n\
    0 Async lun=0102030405060708 statsn=00000001 expcmdsn=00000002 maxcmdsn=00000003 event=05 vcode=04 p1=0005 p2=0006 p3=0007 data=0\n\
    \n\
    32800000 00000000 01020304 05060708 ffffffff 00000000 00000001 00000002 00000003 01040005 00060007 00000000\n\
    0 Async statsn=00000001 expcmdsn=00000002 maxcmdsn=00000003 event=01 vcode=04 p1=0005 p2=0006 p3=0007 data=0\n\
    \n\
    3f800400 00000000 00000000 00000000 ffffffff 00000000 00000001 00000002 00000003 00000000 00000000 00000000\n\
    0 Reject reason=04 statsn=00000001 expcmdsn=00000002 maxcmdsn=00000003 data=0";

// The lines of a NOP-Out twice.
const TWICE: &str =
    "0 NOP-Out i=1 itt=00000001 ttt=ffffffff cmdsn=00000005 expstatsn=00000002 data=3\n\
    52 NOP-Out i=1 itt=00000001 ttt=ffffffff cmdsn=00000005 expstatsn=00000002 data=3\n";

// How many rows of kinds there are.
const COUNT: usize = 29;

fn kinds() -> &'static str {
    KINDS
}

// The line of a kind: a header, and a line end behind its line.
fn check_kind(rt: &impl Abort, alloc: Global, row: &str) {
    let (header, line) = parts_of(row);
    let header = bytes_of(alloc, header).expect(rt, "a header");
    let mut out = Vec::new(alloc);
    let result = shown(alloc, &header, &mut out);
    same(rt, &out.strip_suffix(b"\n"), &Some(line.as_bytes()), &line);
    let bytes_out = (line.len() as u64).saturating_add(1);
    same(rt, &result, &counts(1, 48, bytes_out), &line);
}

#[test]
fn a_line_for_each_kind(rt: HostRuntime) {
    check_count(&rt, kinds(), COUNT);
    for number in 0..COUNT {
        check_kind(&rt, rt.alloc(), nth_row(&rt, kinds(), number));
    }
}

// Of so many bytes of two PDUs so many are written, and this is answered.
fn check_two(
    rt: &impl Abort,
    alloc: Global,
    len: usize,
    written: usize,
    want: Result<Counts, ToolFault>,
) {
    let pdu = came_of(rt, alloc, lines_of(rt, NOP_OUT));
    let mut stream = came_of(rt, alloc, lines_of(rt, NOP_OUT));
    stream.extend_from_slice(&pdu).expect(rt, "two PDUs");
    let mut out = Vec::new(alloc);
    let result = shown(alloc, stream.get(..len).unwrap_or(&[]), &mut out);
    same(rt, &result, &want, &len);
    let due = TWICE.as_bytes().get(..written).unwrap_or(&[]);
    same_bytes(rt, &out, due, &len);
}

/// The first is shown where the second is not whole.
#[test]
fn places_and_lengths(rt: HostRuntime) {
    check_two(&rt, rt.alloc(), 104, 163, counts(2, 104, 163));
    let truncated = StreamFault::Truncated(52);
    check_two(&rt, rt.alloc(), 103, 81, Err(ToolFault::Stream(truncated)));
    check_two(&rt, rt.alloc(), 0, 0, counts(0, 0, 0));
}

/// The farthest place, behind what was there before.
const FARTHEST: &[u8] =
    b"> 18446744073709551615 NOP-Out i=1 itt=00000001 ttt=ffffffff cmdsn=00000005 expstatsn=00000002 data=3\n";

// The line of the ready PDU.
fn check_farthest(rt: &impl Abort, alloc: Global, framer: &Framer) {
    let pdu = framer.pdu().expect(rt, "not ready");
    let mut out = Vec::from_slice(alloc, b"> ").expect(rt, "two bytes");
    show_line(18_446_744_073_709_551_615, &pdu, &mut out).expect(rt, "a line");
    same_bytes(rt, &out, FARTHEST, &"line");
}

// The canonical header of the ready PDU.
fn check_header(rt: &impl Abort, alloc: Global, framer: &Framer) {
    let pdu = framer.pdu().expect(rt, "not ready");
    let header = canonical_head(alloc, &pdu, false).expect(rt, "a head");
    let want = written_of(rt, alloc, lines_of(rt, NOP_OUT));
    same(rt, &Some(header.as_slice()), &want.get(..48), &"header");
}

/// A line at the farthest place, and a head alone.
#[test]
fn one_pdu(rt: HostRuntime) {
    let stream = came_of(&rt, rt.alloc(), lines_of(&rt, NOP_OUT));
    let mut framer = Framer::new(rt.alloc(), 3);
    same(&rt, &framer.feed(&stream), &Ok(52), &"taken");
    check_farthest(&rt, rt.alloc(), &framer);
    check_header(&rt, rt.alloc(), &framer);
}
