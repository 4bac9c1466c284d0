//! Which bytes are a serial number, and which a name.

use super::rows::NAME;
use crate::asserts::same;
use scsi_unit::{LONGEST_SERIAL, LogicalUnit, is_serial};

/// Bytes, and whether they are a serial number.
const SERIALS: &[(&[u8], bool)] = &[
    (b"1", true),
    (b"!~", true),
    (b"0123456789abcdef", true),
    (b"", false),
    (b"0123456789abcdefg", false),
    (b"a b", false),
    (b"a\x7f", false),
    (b"a\0", false),
    (b"\xc3\xa4", false),
];

#[test]
fn serials_have_one_to_sixteen_bytes(rt: HostRuntime) {
    for (serial, due) in SERIALS {
        same(&rt, &is_serial(serial), due, serial);
        same(
            &rt,
            &LogicalUnit::new(NAME, serial, false).is_some(),
            due,
            serial,
        );
    }
    same(&rt, &LONGEST_SERIAL, &16, &"longest");
}

/// As many bytes as a name has at most, and one more.
const LONGEST: [u8; 223] = [b'n'; 223];

const LONGER: [u8; 224] = [b'n'; 224];

/// Bytes, and whether a target may have them as its name.
const NAMES: &[(&[u8], bool)] = &[
    (NAME, true),
    (b"!~", true),
    (&LONGEST, true),
    (&LONGER, false),
    (b"", false),
    (b"iqn.2026-01.example: disk", false),
    (b"iqn.2026-01.example:d\xc3\xa4sk", false),
];

#[test]
fn names_are_those_of_targets(rt: HostRuntime) {
    for (name, due) in NAMES {
        let unit = LogicalUnit::new(name, b"disk-7", false);
        same(&rt, &unit.is_some(), due, name);
    }
}
