//! Messages by rows, handshakes with servers that say this or that, and a medium over lines that
//! fail.

mod handshakes;
mod messages;
mod requests;
mod servers;
mod sizes;

use std::alloc::Global;
use std::process::Abort;
// The value of a hex digit.
fn digit_of(letter: u8) -> Option<u8> {
    match letter {
        b'0'..=b'9' => Some(letter - b'0'),
        b'a'..=b'f' => Some(letter - b'a' + 10),
        _ => None,
    }
}

/// The bytes of hex text, in which blanks part groups.
pub fn bytes_of(rt: &impl Abort, alloc: Global, text: &str) -> Vec<u8> {
    let mut out = Vec::with_capacity(alloc, text.len()).expect(rt, "memory");
    let mut high: Option<u8> = None;
    for letter in text.bytes() {
        let Some(digit) = digit_of(letter) else {
            continue;
        };
        if let Some(first) = high.take() {
            let byte = first.wrapping_mul(16).wrapping_add(digit);
            out.extend_from_slice(&[byte]).expect(rt, "memory");
        } else {
            high = Some(digit);
        }
    }
    out
}
