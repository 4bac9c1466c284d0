//! Numerals by example.

use super::same;
use iscsi_text::{read_number, write_number};
use std::alloc::Global;
use std::process::Abort;

// A spelling, and its number.
const SPELLINGS: &[(&str, &[u8], Option<u64>)] = &[
    ("zero", b"0", Some(0)),
    ("zero in hexadecimal", b"0x0", Some(0)),
    ("a decimal", b"16777215", Some(16_777_215)),
    ("the same in hexadecimal", b"0xffffff", Some(16_777_215)),
    ("capital X and leading zeros", b"0X0040000", Some(262_144)),
    ("capital digits", b"0xFFFFFFFFFFFFFFFF", Some(u64::MAX)),
    (
        "the largest, in decimal",
        b"18446744073709551615",
        Some(u64::MAX),
    ),
    ("2^64", b"18446744073709551616", None),
    ("2^64 in hexadecimal", b"0x10000000000000000", None),
    ("a leading zero", b"007", None),
    ("no digit behind 0x", b"0x", None),
    ("nothing", b"", None),
    ("a sign", b"+1", None),
    ("a letter that is no digit", b"0x1g", None),
    ("a letter in a decimal", b"1a", None),
];

#[test]
fn spellings_are_read(rt: HostRuntime) {
    for (name, text, want) in SPELLINGS {
        same(&rt, &read_number(text), want, &name);
    }
}

// A number, and its canonical numeral.
const NUMERALS: &[(u64, &[u8])] = &[
    (0, b"0"),
    (16_777_215, b"16777215"),
    (999_999_999_999, b"999999999999"),
    (1_000_000_000_000, b"0xe8d4a51000"),
    (1_099_511_627_776, b"1099511627776"),
    (u64::MAX, b"0xffffffffffffffff"),
];

fn check_numeral(rt: &impl Abort, alloc: Global, n: u64, want: &[u8]) {
    let mut out = Vec::new(alloc);
    write_number(n, &mut out).expect(rt, "a numeral");
    same(rt, &out.as_slice(), &want, &n);
}

#[test]
fn canonical_numerals_are_written(rt: HostRuntime) {
    for (n, want) in NUMERALS {
        check_numeral(&rt, rt.alloc(), *n, want);
    }
}

// Writes a number behind what `out` holds, again where memory ran out: that leaves `out` as it was.
fn write_behind(rt: &impl Abort, out: &mut Vec<u8>, before: &[u8], want: &[u8]) {
    if write_number(1_000_000_000_000, out).is_err() {
        same(rt, &out.as_slice(), &before, &"memory ran out");
        write_number(1_000_000_000_000, out).expect(rt, "memory is there again");
    }
    same(rt, &out.as_slice(), &want, &"written");
}

// What `rt try --test --fail-alloc N` is for.
#[test]
fn refused_memory_leaves_out_as_it_was(rt: HostRuntime) {
    let mut out = Vec::new(rt.alloc());
    write_behind(&rt, &mut out, b"", b"0xe8d4a51000");
    write_behind(&rt, &mut out, b"0xe8d4a51000", b"0xe8d4a510000xe8d4a51000");
}
