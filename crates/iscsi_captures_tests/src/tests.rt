//! Captures, by bytes that a script laid out.

mod captures;
mod explained;
mod failing;
mod files;
mod interleaved;
mod listings;
mod live;
mod recordings;
mod segments;
mod streams;

use crate::asserts::{same_bytes, same_text};
use iscsi_captures::{CapturesFault, Undigested, Wanted, normalise_captured};
use std::alloc::Global;
use std::fmt::Debug;
use std::io::{Read, Write};
use std::process::Abort;

// The value of a hex digit.
fn digit_of(letter: u8) -> u8 {
    match letter {
        b'0'..=b'9' => letter - b'0',
        b'a'..=b'f' => letter - b'a' + 10,
        _ => 0,
    }
}

/// The bytes of hex text, whose spaces are passed over.
pub fn bytes_of(rt: &impl Abort, alloc: Global, text: &str) -> Vec<u8> {
    let mut out = Vec::with_capacity(alloc, text.len()).expect(rt, "memory");
    let mut high: Option<u8> = None;
    for letter in text.bytes() {
        if letter == b' ' {
            continue;
        }
        match high.take() {
            Some(first) => {
                let byte = first.wrapping_mul(16).wrapping_add(digit_of(letter));
                out.extend_from_slice(&[byte]).expect(rt, "memory");
            }
            None => high = Some(digit_of(letter)),
        }
    }
    out
}

/// Asserts that a job ended with the fault that has this text, or well if it is empty.
pub fn ends_so(
    rt: &impl Abort,
    alloc: Global,
    ended: Result<(), CapturesFault>,
    fault: &str,
    row: &impl Debug,
) {
    match ended {
        Ok(()) => same_bytes(rt, b"", fault.as_bytes(), row),
        Err(said) => same_text(rt, alloc, &said, fault, row),
    }
}

/// Writes the canonical stream of one direction of a capture.
pub fn normalise<R: Read, W: Write>(
    alloc: Global,
    source: &mut R,
    wanted: Wanted,
    w: &mut W,
) -> Result<(), CapturesFault> {
    let mut captured = Undigested::new(alloc, 1, source, wanted)?;
    normalise_captured(alloc, &mut captured, w)
}
