//! The units of an interface's times (draft-ietf-opsawg-pcapng, section 4.2, option if_tsresol).

use crate::numbers::{Order, u16_at};

// How many units a second has, out of an interface's options: 10^6, or what option 9 says. Options
// behind the end (0), or behind one that is cut off, are not read.
pub(crate) fn resolution(order: Order, options: &[u8]) -> u64 {
    let mut rest = options;
    while rest.len() >= 5 {
        let code = u16_at(order, rest, 0);
        let length = u16_at(order, rest, 2) as usize;
        if code == 0 {
            return 1_000_000;
        }
        if code == 9 && length == 1 {
            return units(rest[4]);
        }
        let padded = 4 + length + (4 - length % 4) % 4;
        if padded > rest.len() {
            return 1_000_000;
        }
        rest = &rest[padded..];
    }
    1_000_000
}

// How many units a second has for a resolution: a power of 2 with the highest bit, else of 10; at
// most 2^64 - 1 (own rule).
fn units(resolution: u8) -> u64 {
    let base: u64 = if resolution >= 128 { 2 } else { 10 };
    let mut units: u64 = 1;
    for _ in 0..resolution % 128 {
        units = units.saturating_mul(base);
    }
    units
}
