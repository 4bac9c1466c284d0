//! Two streams by example: headers in words of hex, worked out by hand from the tables of RFC 7143,
//! section 11.

use iscsi_compare::{CompareFault, Verdict, compare};
use iscsi_test_support::LineFault;
use std::alloc::Global;
use std::process::Abort;

mod bits;
mod failing;
mod worked;

// The bytes of lines of hex text.
fn read_bytes(alloc: Global, lines: &str) -> Result<Vec<u8>, LineFault> {
    let mut stream = Vec::new(alloc);
    for line in lines.lines() {
        stream.extend_from_slice(&iscsi_test_support::bytes_of(alloc, line)?)?;
    }
    Ok(stream)
}

// The same where memory is not refused.
fn bytes_of(rt: &impl Abort, alloc: Global, lines: &str) -> Vec<u8> {
    read_bytes(alloc, lines).expect(rt, "lines of hex")
}

// What is said of two streams that are there as a whole.
fn compared(
    alloc: Global,
    stream: &[u8],
    other: &[u8],
    lines: &mut Vec<u8>,
) -> Result<Verdict, CompareFault> {
    let mut first = stream;
    let mut second = other;
    compare(alloc, &mut first, &mut second, lines)
}
