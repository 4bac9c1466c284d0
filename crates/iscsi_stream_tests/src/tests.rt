//! Streams by example: headers in words of hex, worked out by hand from the tables of RFC 7143, section 11.

use crate::asserts::same;
use iscsi_stream::{Counts, Framer, ToolFault, canonical, normalise};
use iscsi_test_support::marked;
use std::alloc::Global;
use std::process::Abort;

mod failing;
mod framing;
mod lines;
mod memory;
mod normal;
mod rows;
mod runs;
mod texts;

// The stream of a row that comes.
fn came_of(rt: &impl Abort, alloc: Global, lines: &str) -> Vec<u8> {
    marked(alloc, lines, "> ").expect(rt, "lines of a row")
}

// Its canonical stream.
fn written_of(rt: &impl Abort, alloc: Global, lines: &str) -> Vec<u8> {
    marked(alloc, lines, "< ").expect(rt, "lines of a row")
}

// Appends the canonical stream, or what is written of it before the fault.
fn normal_of(alloc: Global, stream: &[u8], out: &mut Vec<u8>) -> Result<Counts, ToolFault> {
    let mut source = stream;
    normalise(alloc, &mut source, out)
}

// The row of this number: a blank line stands between two.
fn nth_row<'a>(rt: &impl Abort, rows: &'a str, number: usize) -> &'a str {
    rows.split("\n\n").nth(number).expect(rt, "no such row")
}

// There are so many rows.
fn check_count(rt: &impl Abort, rows: &str, count: usize) {
    same(rt, &rows.split("\n\n").count(), &count, &"rows");
}

// The two parts of a row of text, at the first of these marks.
fn split_at_mark<'a>(rt: &impl Abort, row: &'a str, mark: &str) -> (&'a str, &'a str) {
    row.split_once(mark).expect(rt, row)
}

// Feeds a piece, and appends the canonical form of each PDU that it makes whole.
fn feed_piece(rt: &impl Abort, framer: &mut Framer, piece: &[u8], out: &mut Vec<u8>) {
    let mut rest = piece;
    for _ in 0..100_000 {
        if rest.is_empty() {
            break;
        }
        let taken = framer.feed(rest).expect(rt, "a piece");
        rest = rest.get(taken..).unwrap_or(&[]);
        if let Some(pdu) = framer.pdu() {
            canonical(&pdu, framer.continued(), out).expect(rt, "a PDU");
        }
        framer.take();
    }
}
