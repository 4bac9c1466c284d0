//! Four pieces of a stream, that overlap, in every order and with repetitions: 256 rows.

use super::{Numbered, fed};
use crate::asserts::{same, same_bytes};
use std::alloc::Global;
use std::process::Abort;

const STREAM: &[u8] = b"abcdefgh";

/// The number of the stream's first byte: numbers wrap behind its third.
const FIRST: u32 = 0xffff_fffd;

// One of four pieces: its first byte and its end, counted from the stream's first byte.
fn piece(digit: usize) -> (u32, u32) {
    match digit {
        0 => (0, 3),
        1 => (2, 5),
        2 => (5, 7),
        _ => (6, 8),
    }
}

// The piece as a segment.
fn segment(rt: &impl Abort, digit: usize) -> Numbered {
    let (from, to) = piece(digit);
    let bytes = STREAM.get(from as usize..to as usize).expect(rt, "a piece");
    (FIRST.wrapping_add(from), bytes)
}

// Whether one of these pieces has the byte.
fn is_in(digits: &[usize; 4], byte: u32) -> bool {
    for digit in digits {
        let (from, to) = piece(*digit);
        if from <= byte && byte < to {
            return true;
        }
    }
    false
}

// How many first bytes of the stream are in these pieces.
fn known(digits: &[usize; 4]) -> u32 {
    for byte in 0..8u32 {
        if !is_in(digits, byte) {
            return byte;
        }
    }
    8
}

// Whether one of them has a byte behind the first one that is missing.
fn waits(digits: &[usize; 4]) -> bool {
    for byte in known(digits)..8 {
        if is_in(digits, byte) {
            return true;
        }
    }
    false
}

fn check_order(rt: &impl Abort, alloc: Global, digits: [usize; 4]) {
    let segments = [
        segment(rt, digits[0]),
        segment(rt, digits[1]),
        segment(rt, digits[2]),
        segment(rt, digits[3]),
    ];
    let (out, direction) = fed(rt, alloc, FIRST, 1024, &segments).expect(rt, "an order");
    let due = STREAM.get(..known(&digits) as usize).expect(rt, "a prefix");
    same_bytes(rt, &out, due, &digits);
    same(rt, &direction.has_gap(), &waits(&digits), &digits);
}

#[test]
fn every_order_determines_what_its_pieces_do(rt: HostRuntime) {
    for code in 0..256usize {
        let digits = [code % 4, code / 4 % 4, code / 16 % 4, code / 64 % 4];
        check_order(&rt, rt.alloc(), digits);
    }
}
