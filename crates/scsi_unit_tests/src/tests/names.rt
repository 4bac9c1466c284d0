//! Page 83 of units with other names. The lengths are counted by hand; the numbers are those of another
//! program's MD5.

use super::rows::reads;
use crate::asserts::same;
use scsi_cdb::Bytes;
use scsi_unit::LogicalUnit;
use std::alloc::Global;
use std::process::Abort;

// The bytes of page 83.
fn page(rt: &impl Abort, alloc: Global, name: &[u8], serial: &[u8]) -> Bytes {
    let unit = LogicalUnit::new(name, serial, false).expect(rt, "a unit");
    let outcome = unit.outcome(alloc, &reads(b"\x12\x01\x83\x02\0\0", 512), 2048);
    outcome.expect(rt, "memory").expect(rt, "an answer").bytes
}

/// The most bytes of a name.
const LONGEST: [u8; 223] = [b'n'; 223];

#[test]
fn the_longest_names_fit(rt: HostRuntime) {
    let page = page(&rt, rt.alloc(), &LONGEST, b"0123456789abcdef");
    let bytes = page.as_slice();
    same(&rt, &bytes.len(), &296, &"length");
    let front =
        b"\0\x83\x01\x24\x02\x01\0\x18LANTHOVR0123456789abcdef\x01\x03\0\x08\x3a\x61\x47\x79\x50\x0b\x99\x35\x03\x08\0\xf8nnn";
    same(&rt, &bytes.starts_with(front), &true, &"front");
    let back = b"nnn,L,0x0000000000000000\0\0\0\0";
    same(&rt, &bytes.ends_with(back), &true, &"back");
}

/// A name, and the name string with its length in front.
const STRINGS: &[(&[u8], &[u8])] = &[
    (b"n", b"\x03\x08\0\x18n,L,0x0000000000000000\0\0"),
    (b"na", b"\x03\x08\0\x18na,L,0x0000000000000000\0"),
    (b"nam", b"\x03\x08\0\x1cnam,L,0x0000000000000000\0\0\0\0"),
    (b"name", b"\x03\x08\0\x1cname,L,0x0000000000000000\0\0\0"),
];

#[test]
fn name_strings_are_closed(rt: HostRuntime) {
    for (name, due) in STRINGS {
        let page = page(&rt, rt.alloc(), name, b"disk-7");
        same(&rt, &page.as_slice().ends_with(due), &true, name);
    }
}

/// A name and a serial number, and the number that is made of them.
const NUMBERS: &[(&[u8], &[u8], &[u8])] = &[
    (
        b"iqn.2026-01.example:disk",
        b"disk-7",
        b"\x35\x86\xa9\x6c\x25\xa9\xc7\x2f",
    ),
    (
        b"iqn.2026-01.example:disk",
        b"disk-8",
        b"\x36\xaa\x8a\x0b\x5a\x3a\xcf\x07",
    ),
    (&LONGEST, b"disk-7", b"\x3b\x5d\x9c\x9c\xf6\x72\x69\x2f"),
];

#[test]
fn numbers_are_of_name_and_serial_number(rt: HostRuntime) {
    for (name, serial, due) in NUMBERS {
        let page = page(&rt, rt.alloc(), name, serial);
        // behind the page's head and the designator of the vendor
        let number = page.as_slice().get(26..34).expect(&rt, "a number");
        same(&rt, &number, due, serial);
    }
}
