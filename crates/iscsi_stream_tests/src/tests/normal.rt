//! Canonical streams, and the faults of streams with their places. One file, since it is one table.

use super::rows::{
    COUNT, LOGIN_REQUEST, NOP_OUT, Row, WRITE_COMMAND, lines_of, parts_of, row_at, row_of, rows,
};
use super::runs::{Outcome, run_with};
use super::{came_of, check_count, feed_piece, normal_of, nth_row, split_at_mark, written_of};
use crate::asserts::{same, same_bytes, same_text};
use iscsi_stream::{Counts, Framer, StreamFault, ToolFault};
use iscsi_test_support::{SURE, Steps};
use std::alloc::Global;
use std::fmt::Debug;
use std::process::Abort;

// A canonical stream stays as it is.
fn check_kept(rt: &impl Abort, alloc: Global, stream: &[u8], row: &impl Debug) {
    let mut out = Vec::new(alloc);
    let counts = normal_of(alloc, stream, &mut out).expect(rt, "a canonical stream");
    let len = stream.len() as u64;
    same(rt, &(counts.bytes_in, counts.bytes_out), &(len, len), row);
    same_bytes(rt, &out, stream, row);
}

// The canonical stream of a row, with its counts; and again, from the canonical stream.
fn check_row(rt: &impl Abort, alloc: Global, row: &str) {
    let row = row_of(rt, alloc, row);
    let mut out = Vec::new(alloc);
    let result = normal_of(alloc, &row.came, &mut out);
    same(rt, &out, &row.want, &row.name);
    let counts = Counts {
        pdus: row.pdus as u64,
        bytes_in: row.came.len() as u64,
        bytes_out: row.want.len() as u64,
    };
    same(rt, &result, &Ok(counts), &row.name);
    check_kept(rt, alloc, &row.want, &row.name);
}

#[test]
fn canonical_streams(rt: HostRuntime) {
    check_count(&rt, rows(), COUNT);
    for number in 0..COUNT {
        check_row(&rt, rt.alloc(), row_at(&rt, number));
    }
}

// Feeds a stream in pieces of one length.
fn feed_pieces(rt: &impl Abort, framer: &mut Framer, came: &[u8], len: usize, out: &mut Vec<u8>) {
    for piece in came.chunks(len.max(1)) {
        feed_piece(rt, framer, piece, out);
    }
}

// Feeds a stream in a first piece and others of one length.
fn feed_cut(
    rt: &impl Abort,
    framer: &mut Framer,
    came: &[u8],
    first: usize,
    len: usize,
    out: &mut Vec<u8>,
) {
    let (front, rest) = came.split_at_checked(first).unwrap_or((came, &[]));
    feed_piece(rt, framer, front, out);
    feed_pieces(rt, framer, rest, len, out);
}

// Whatever the pieces, all of a stream is taken.
fn check_pieces(rt: &impl Abort, alloc: Global, row: &Row<'_>, first: usize, len: usize) {
    let mut out = Vec::new(alloc);
    let mut framer = Framer::new(alloc, 16_777_215);
    feed_cut(rt, &mut framer, &row.came, first, len, &mut out);
    let at = (row.name, first, len);
    same(rt, &framer.place(), &(row.came.len() as u64), &at);
    same(rt, &framer.finish(), &Ok(()), &at);
    same(rt, &out, &row.want, &at);
}

// In pieces of some lengths, and cut in two at every byte.
fn check_cuts(rt: &impl Abort, alloc: Global, row: &str) {
    let row = row_of(rt, alloc, row);
    check_pieces(rt, alloc, &row, 0, 1);
    check_pieces(rt, alloc, &row, 0, 47);
    check_pieces(rt, alloc, &row, 0, 48);
    for first in 0..=row.came.len() {
        check_pieces(rt, alloc, &row, first, 100_000);
    }
}

#[test]
fn cuts_make_no_difference(rt: HostRuntime) {
    for number in 0..COUNT {
        check_cuts(&rt, rt.alloc(), row_at(&rt, number));
    }
}

// A stream that ends in its last PDU, which starts there, gives what is due of the PDUs before it, and that place.
fn check_end(rt: &impl Abort, alloc: Global, came: &[u8], start: usize, want: &[u8]) {
    let mut out = Vec::new(alloc);
    let result = normal_of(alloc, came, &mut out);
    if came.len() == start {
        let counts = result.expect(rt, "whole PDUs");
        let due = (start as u64, want.len() as u64);
        same(rt, &(counts.bytes_in, counts.bytes_out), &due, &start);
    } else {
        let truncated = ToolFault::Stream(StreamFault::Truncated(start as u64));
        same(rt, &result, &Err(truncated), &came.len());
    }
    same_bytes(rt, &out, want, &came.len());
}

// A stream that ends at a place, and at each byte behind it.
fn check_ends_from(rt: &impl Abort, alloc: Global, came: &[u8], start: usize, want: &[u8]) {
    for len in start..came.len() {
        check_end(rt, alloc, came.get(..len).unwrap_or(&[]), start, want);
    }
}

// A stream that ends behind its first PDUs, and at each byte of the next, which is a line: both streams then have it.
fn check_next(rt: &impl Abort, alloc: Global, line: &str, came: &mut Vec<u8>, want: &mut Vec<u8>) {
    let start = came.len();
    came.extend_from_slice(&came_of(rt, alloc, line))
        .expect(rt, line);
    check_ends_from(rt, alloc, came, start, want);
    want.extend_from_slice(&written_of(rt, alloc, line))
        .expect(rt, line);
}

// A stream that ends behind each of its PDUs, and at each byte of the next.
fn check_ends(rt: &impl Abort, alloc: Global, row: &str) {
    let (_, lines) = parts_of(row);
    let (mut came, mut want) = (Vec::new(alloc), Vec::new(alloc));
    for line in lines.lines() {
        check_next(rt, alloc, line, &mut came, &mut want);
    }
}

#[test]
fn streams_that_end_early(rt: HostRuntime) {
    for number in 0..COUNT {
        check_ends(&rt, rt.alloc(), row_at(&rt, number));
    }
}

// The line of a fault without its place, the fault, and the header that has it. Rows have words of 12 or
// 13: an unknown opcode and a long login are refused with the 48th byte, whatever comes behind it. The
// last rows end within a PDU: within its header, and within its segment.
const FAULTY: &str = "stream: additional header at = Head(Additional\n\
    > 40800000 01000003 00000000 00000000 00000000 00000000 00000000 00000000 00000000 00000000 00000000 00000000\n\
    \n\
    stream: unknown opcode at = Head(UnknownOpcode\n\
    > 10800000 01000000 00000000 00000000 00000000 00000000 00000000 00000000 00000000 00000000 00000000 00000000\n\
    \n\
    stream: unknown opcode at = Head(UnknownOpcode\n\
    > 07800000 00000000 00000000 00000000 00000000 00000000 00000000 00000000 00000000 00000000 00000000 00000000 00000000\n\
    \n\
    stream: login segment too long at = Head(TooLong\n\
    > 43810000 00002001 00000000 00000000 00000000 00000000 00000000 00000000 00000000 00000000 00000000 00000000\n\
    \n\
    stream: login segment too long at = Head(TooLong\n\
    > 23810000 00002001 00000000 00000000 00000000 00000000 00000000 00000000 00000000 00000000 00000000 00000000 00000000\n\
    \n\
    stream: truncated at = Truncated(\n\
    > 40800000 00000003 00000000 00000000 00000001 ffffffff 00000005 00000002 00000000 00000000 00000000 000000\n\
    \n\
    stream: truncated at = Truncated(\n\
    > 40800000 00000005 00000000 00000000 00000001 ffffffff 00000005 00000002 00000000 00000000 00000000 00000000 61626364";

// How many faulty rows there are.
const FAULTY_COUNT: usize = 7;

// A front and the lines of a header, one behind the other, in reads of so many bytes each: how the stream ends,
// and what is written.
fn normal_in_reads(
    rt: &impl Abort,
    alloc: Global,
    front: &str,
    header: &str,
    step: usize,
) -> Outcome {
    let mut stream = came_of(rt, alloc, front);
    let header = came_of(rt, alloc, header);
    stream
        .extend_from_slice(&header)
        .expect(rt, "a header more");
    run_with(alloc, false, &stream, Steps::of(step), SURE)
}

// What is said of the fault that a row's words name, at a place: its line, and the fault.
fn due_of(rt: &impl Abort, alloc: Global, words: &str, place: u64) -> String {
    let (line, name) = split_at_mark(rt, words, " = ");
    match name.strip_prefix("Head(") {
        Some(name) => format!(in alloc; "{line} {place} = Stream(Head({name}, {place}))"),
        None => format!(in alloc; "{line} {place} = Stream({name}{place}))"),
    }
    .expect(rt, "text")
}

// A fault is said so: its line, and the fault.
fn check_said(rt: &impl Abort, alloc: Global, fault: ToolFault, due: &String) {
    let said = format!(in alloc; "{fault} = {fault:?}").expect(rt, "text");
    same(rt, &said, due, &fault);
}

// The fault of a row's header behind a stream that ends at a place, and what is written before it, where
// each read gives so many bytes.
fn check_fault(rt: &impl Abort, alloc: Global, front: &str, place: u64, row: &str, step: usize) {
    let (words, header) = parts_of(row);
    let met = normal_in_reads(rt, alloc, front, header, step);
    same(rt, &met.sink.taken, &written_of(rt, alloc, front), &row);
    let fault = met.result.expect_err(rt, row);
    check_said(rt, alloc, fault, &due_of(rt, alloc, words, place));
}

// Feeds a piece up to the first fault.
fn feed_to_fault(framer: &mut Framer, piece: &[u8]) -> Result<(), StreamFault> {
    let mut rest = piece;
    for _ in 0..1000 {
        if rest.is_empty() {
            return Ok(());
        }
        let taken = framer.feed(rest)?;
        rest = rest.get(taken..).unwrap_or(&[]);
        framer.take();
    }
    Ok(())
}

// How the framing of a stream ends that comes in pieces of this length.
fn framed(framer: &mut Framer, stream: &[u8], len: usize) -> Result<(), StreamFault> {
    for piece in stream.chunks(len.max(1)) {
        feed_to_fault(framer, piece)?;
    }
    framer.finish()
}

// A framer that met a row's fault, in pieces of this length, refuses all that comes behind it.
fn check_failed(rt: &impl Abort, alloc: Global, row: &str, len: usize) {
    let (words, header) = parts_of(row);
    let stream = came_of(rt, alloc, header);
    let mut framer = Framer::new(alloc, 16_777_215);
    let fault = framed(&mut framer, &stream, len).expect_err(rt, row);
    check_said(
        rt,
        alloc,
        ToolFault::Stream(fault),
        &due_of(rt, alloc, words, 0),
    );
    same(rt, &framer.feed(&stream), &Err(StreamFault::Failed), &row);
    same(rt, &framer.finish(), &Err(StreamFault::Failed), &row);
}

// A row alone, and behind a whole PDU, in reads of each length.
fn check_faulty(rt: &impl Abort, alloc: Global, row: &str) {
    for step in 1..102usize {
        check_failed(rt, alloc, row, step);
        check_fault(rt, alloc, "", 0, row, step);
        check_fault(rt, alloc, lines_of(rt, NOP_OUT), 52, row, step);
    }
}

#[test]
fn faults_and_places(rt: HostRuntime) {
    check_count(&rt, FAULTY, FAULTY_COUNT);
    for number in 0..FAULTY_COUNT {
        check_faulty(&rt, rt.alloc(), nth_row(&rt, FAULTY, number));
    }
}

const FAULTS: &[(ToolFault, &str)] = &[
    (ToolFault::NoMemory, "memory"),
    (
        ToolFault::Stream(StreamFault::OverLimit(52)),
        "stream: over limit at 52",
    ),
    (
        ToolFault::Stream(StreamFault::Truncated(52)),
        "stream: truncated at 52",
    ),
    (
        ToolFault::Stream(StreamFault::Truncated(18_446_744_073_709_551_615)),
        "stream: truncated at 18446744073709551615",
    ),
    (ToolFault::TextTooLong, "text: over 16384 bytes"),
    (ToolFault::Read, "read failed"),
    (ToolFault::Write, "write failed"),
    (ToolFault::NotHex, "input: not hex"),
];

#[test]
fn lines_of_faults(rt: HostRuntime) {
    for (fault, line) in FAULTS {
        same_text(&rt, rt.alloc(), fault, line, fault);
    }
}

// Whether the fault is the stream's.
fn is_of_stream(said: &Result<Counts, ToolFault>) -> bool {
    matches!(said, Err(ToolFault::Stream(_)))
}

// Where a stream is taken, its canonical stream stays as it is. Says whether it is taken.
fn is_taken(rt: &impl Abort, alloc: Global, stream: &[u8], at: (usize, u8)) -> bool {
    let mut out = Vec::new(alloc);
    let result = normal_of(alloc, stream, &mut out);
    let is_taken = result.is_ok();
    if is_taken {
        check_kept(rt, alloc, &out, &at);
    } else {
        same(rt, &is_of_stream(&result), &true, &at);
    }
    is_taken
}

/// Rows of one PDU, and how many streams are taken if each byte of the header in turn has each value.
///
/// Any value of a byte of the header is taken but for bytes 0 and 4 to 7: 43 * 256 streams. Byte 0 has
/// one of the 17 opcodes below two bits that refuse nothing: 17 * 4. Byte 4 has to be 00. Bytes 5 to 7
/// have to say the length of the segment: a longer one is not whole, and what a shorter one leaves over
/// is no PDU. So each of the four has one value, but byte 7 of the NOP-Out four: segments of 1 to 4
/// bytes fill the same word with their padding.
const CHANGED: &[(&str, u64)] = &[
    (NOP_OUT, 11_083),
    (LOGIN_REQUEST, 11_080),
    (WRITE_COMMAND, 11_080),
];

// How many streams are taken if the byte at a place has each value in turn.
fn count_at(rt: &impl Abort, alloc: Global, stream: &mut [u8], place: usize) -> u64 {
    let kept = stream.get(place).copied().unwrap_or(0);
    let mut taken = 0u64;
    for value in 0..=255u8 {
        if let Some(byte) = stream.get_mut(place) {
            *byte = value;
        }
        if is_taken(rt, alloc, stream, (place, value)) {
            taken = taken.saturating_add(1);
        }
    }
    if let Some(byte) = stream.get_mut(place) {
        *byte = kept;
    }
    taken
}

// How many streams are taken if each byte of the header in turn has each value.
fn count_changed(rt: &impl Abort, alloc: Global, name: &str) -> u64 {
    let mut stream = came_of(rt, alloc, lines_of(rt, name));
    let mut taken = 0u64;
    for place in 0..48usize {
        taken = taken.saturating_add(count_at(rt, alloc, &mut stream, place));
    }
    taken
}

#[test]
fn changed_headers(rt: HostRuntime) {
    for (name, want) in CHANGED {
        same(&rt, &count_changed(&rt, rt.alloc(), name), want, name);
    }
}
