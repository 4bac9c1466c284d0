//! What a unit answers of itself. The bytes are laid out by hand from the tables of SPC-4 and SBC-3.
//! One file, since it is one table.

use crate::asserts::same;
use scsi_cdb::{Cdb, Residual, Sense};
use scsi_disk::{Deed, Order, Outcome};
use scsi_unit::{LogicalUnit, asks_to_last};
use std::alloc::Global;
use std::process::Abort;

/// The first bytes of a descriptor block; the others are 00.
fn block(first: &[u8]) -> [u8; 16] {
    let mut bytes = [0; 16];
    for (i, byte) in first.iter().enumerate().take(16) {
        bytes[i] = *byte;
    }
    bytes
}

/// A command that reads up to so many bytes, to unit 0.
pub fn reads(first: &[u8], expected: u32) -> Order {
    Order {
        cdb: Cdb::read(&block(first)),
        lun: 0,
        read: true,
        write: false,
        expected,
        deed: Deed::Write,
    }
}

/// The name of the target of the rows.
pub const NAME: &[u8] = b"iqn.2026-01.example:disk";

/// The unit of the rows.
pub fn unit(rt: &impl Abort, write_protected: bool) -> LogicalUnit {
    LogicalUnit::new(NAME, b"disk-7", write_protected).expect(rt, "a name and a serial number")
}

fn answer(rt: &impl Abort, alloc: Global, unit: &LogicalUnit, order: &Order) -> Option<Outcome> {
    unit.outcome(alloc, order, 2048).expect(rt, "memory")
}

/// A command with an allocation length of 255, and the data that it gives; all other bytes of them, up
/// to this length, are 00.
const DATA: &[(&str, &[u8], &[u8], u32)] = &[
    (
        "standard data",
        b"\x12\0\0\0\xff\0",
        b"\0\0\x06\x12\x5b\0\0\x02LANTHOVRISCSI DISK      0001\0\0\0\0\0\0\0\0\0\0\0\0\0\0\0\0\0\0\0\0\0\0\x09\x60\x04\x60\x04\xc0",
        96,
    ),
    (
        "pages",
        b"\x12\x01\0\0\xff\0",
        b"\0\0\0\x05\0\x80\x83\xb0\xb1",
        9,
    ),
    (
        "serial number",
        b"\x12\x01\x80\0\xff\0",
        b"\0\x80\0\x06disk-7",
        10,
    ),
    (
        "names",
        b"\x12\x01\x83\0\xff\0",
        b"\0\x83\0\x52\x02\x01\0\x0eLANTHOVRdisk-7\x01\x03\0\x08\x35\x86\xa9\x6c\x25\xa9\xc7\x2f\x03\x08\0\x30iqn.2026-01.example:disk,L,0x0000000000000000\0\0\0",
        86,
    ),
    (
        "limits",
        b"\x12\x01\xb0\0\xff\0",
        b"\0\xb0\0\x3c\0\x01\0\0\0\0\x20",
        64,
    ),
    ("medium", b"\x12\x01\xb1\0\xff\0", b"\0\xb1\0\x3c\0\x01", 64),
    (
        "REQUEST SENSE",
        b"\x03\0\0\0\xff\0",
        b"\x70\0\0\0\0\0\0\x0a",
        18,
    ),
    (
        "REQUEST SENSE, descriptor format",
        b"\x03\x01\0\0\xff\0",
        b"\x72",
        8,
    ),
    (
        "MODE SENSE(6), caching",
        b"\x1a\0\x08\0\xff\0",
        b"\x17\0\x10\0\x08\x12",
        24,
    ),
    (
        "MODE SENSE(6), control, changeable",
        b"\x1a\0\x4a\0\xff\0",
        b"\x0f\0\x10\0\x0a\x0a",
        16,
    ),
    (
        "MODE SENSE(6), all, with no block descriptors",
        b"\x1a\x08\x3f\0\xff\0",
        b"\x23\0\x10\0\x08\x12\0\0\0\0\0\0\0\0\0\0\0\0\0\0\0\0\0\0\x0a\x0a",
        36,
    ),
    (
        "MODE SENSE(6), all with subpages, default",
        b"\x1a\0\xbf\xff\xff\0",
        b"\x23\0\x10\0\x08\x12\0\0\0\0\0\0\0\0\0\0\0\0\0\0\0\0\0\0\x0a\x0a",
        36,
    ),
    (
        "MODE SENSE(10), caching",
        b"\x5a\0\x08\0\0\0\0\0\xff\0",
        b"\0\x1a\0\x10\0\0\0\0\x08\x12",
        28,
    ),
    (
        "MODE SENSE(10), all",
        b"\x5a\0\x3f\0\0\0\0\0\xff\0",
        b"\0\x26\0\x10\0\0\0\0\x08\x12\0\0\0\0\0\0\0\0\0\0\0\0\0\0\0\0\0\0\x0a\x0a",
        40,
    ),
];

fn check_data(rt: &impl Abort, alloc: Global, name: &str, first: &[u8], front: &[u8], length: u32) {
    let mut due = [0; 96];
    for (i, byte) in front.iter().enumerate().take(96) {
        due[i] = *byte;
    }
    let outcome = answer(rt, alloc, &unit(rt, false), &reads(first, 4096)).expect(rt, "an answer");
    same(rt, &outcome.status, &0, &name);
    same(rt, &outcome.sense, &None, &name);
    same(
        rt,
        &outcome.bytes.as_slice(),
        &&due[..length.min(96) as usize],
        &name,
    );
    let missing = Residual::Under(4096 - length % 4096);
    same(rt, &outcome.residual, &missing, &name);
}

#[test]
fn a_unit_tells_of_itself(rt: HostRuntime) {
    for (name, first, front, length) in DATA {
        check_data(&rt, rt.alloc(), name, first, front, *length);
    }
}

/// Commands that are refused, to unit 0.
const REFUSED: &[(&str, &[u8])] = &[
    (
        "a page of INQUIRY that there is not",
        b"\x12\x01\xb2\0\xff\0",
    ),
    ("a page without EVPD", b"\x12\0\x80\0\xff\0"),
    ("a mode page that there is not", b"\x1a\0\x1c\0\xff\0"),
    ("a subpage", b"\x1a\0\x08\x01\xff\0"),
    ("saved values", b"\x1a\0\xc8\0\xff\0"),
    ("saved values of all", b"\x5a\0\xff\0\0\0\0\0\xff\0"),
];

fn check_refused(rt: &impl Abort, alloc: Global, name: &str, order: &Order, due: Sense) {
    let outcome = answer(rt, alloc, &unit(rt, false), order).expect(rt, "an answer");
    same(rt, &outcome.status, &2, &name);
    same(rt, &outcome.sense, &Some(due), &name);
    same(rt, &outcome.bytes.as_slice().len(), &0, &name);
    same(rt, &outcome.residual, &Residual::Under(4096), &name);
}

#[test]
fn other_pages_are_refused(rt: HostRuntime) {
    for (name, first) in REFUSED {
        let order = reads(first, 4096);
        check_refused(&rt, rt.alloc(), name, &order, Sense::InvalidField);
    }
}

/// Commands that the unit answers of itself.
const TOLD: &[&[u8]] = &[
    b"\x12\x01\x80\0\xff\0",
    b"\x1a\0\x3f\0\xff\0",
    b"\x5a\0\x3f\0\0\0\0\0\xff\0",
];

#[test]
fn data_and_other_units_are_refused(rt: HostRuntime) {
    for first in TOLD {
        let order = reads(first, 4096);
        let sent = Order {
            write: true,
            ..order
        };
        check_refused(&rt, rt.alloc(), "data", &sent, Sense::InvalidField);
        let elsewhere = Order {
            lun: 1 << 48,
            ..order
        };
        check_refused(&rt, rt.alloc(), "unit 1", &elsewhere, Sense::NoUnit);
    }
}

#[test]
fn another_unit_has_standard_data(rt: HostRuntime) {
    let order = Order {
        lun: 1 << 48,
        ..reads(b"\x12\0\0\0\x01\0", 1)
    };
    let outcome = answer(&rt, rt.alloc(), &unit(&rt, false), &order).expect(&rt, "an answer");
    same(&rt, &outcome.bytes.as_slice(), &&b"\x7f"[..], &"unit 1");
}

#[test]
fn data_are_cut(rt: HostRuntime) {
    let serial = unit(&rt, false);
    // by the allocation length: then nothing is missing but what the initiator expects beyond it
    let order = reads(b"\x12\x01\x80\0\x05\0", 4096);
    let outcome = answer(&rt, rt.alloc(), &serial, &order).expect(&rt, "an answer");
    same(
        &rt,
        &outcome.bytes.as_slice(),
        &&b"\0\x80\0\x06d"[..],
        &"allocated",
    );
    same(&rt, &outcome.residual, &Residual::Under(4091), &"allocated");
    // by what the initiator expects
    let order = reads(b"\x12\x01\x80\0\xff\0", 4);
    let outcome = answer(&rt, rt.alloc(), &serial, &order).expect(&rt, "an answer");
    same(
        &rt,
        &outcome.bytes.as_slice(),
        &&b"\0\x80\0\x06"[..],
        &"expected",
    );
    same(&rt, &outcome.residual, &Residual::Over(6), &"expected");
}

#[test]
fn a_protected_unit_says_so(rt: HostRuntime) {
    let protected = unit(&rt, true);
    let order = reads(b"\x1a\0\x0a\0\x04\0", 4);
    let outcome = answer(&rt, rt.alloc(), &protected, &order).expect(&rt, "an answer");
    same(
        &rt,
        &outcome.bytes.as_slice(),
        &&b"\x0f\0\x90\0"[..],
        &"(6)",
    );
    let order = reads(b"\x5a\0\x0a\0\0\0\0\0\x08\0", 8);
    let outcome = answer(&rt, rt.alloc(), &protected, &order).expect(&rt, "an answer");
    same(
        &rt,
        &outcome.bytes.as_slice(),
        &&b"\0\x12\0\x90\0\0\0\0"[..],
        &"(10)",
    );
}

/// Commands of MODE SENSE to a unit with a write cache, and the first bytes of what they give: the byte
/// of the device in the header, and behind it the caching page.
const CACHED: &[(&str, &[u8], &[u8])] = &[
    (
        "(6), caching",
        b"\x1a\0\x08\0\xff\0",
        b"\x17\0\x10\0\x08\x12\x04\0",
    ),
    (
        "(6), caching, default",
        b"\x1a\0\x88\0\xff\0",
        b"\x17\0\x10\0\x08\x12\x04\0",
    ),
    (
        "(6), caching, changeable",
        b"\x1a\0\x48\0\xff\0",
        b"\x17\0\x10\0\x08\x12\0\0",
    ),
    (
        "(6), all",
        b"\x1a\0\x3f\0\xff\0",
        b"\x23\0\x10\0\x08\x12\x04\0",
    ),
    (
        "(6), control",
        b"\x1a\0\x0a\0\xff\0",
        b"\x0f\0\x10\0\x0a\x0a\0\0",
    ),
    (
        "(10), caching",
        b"\x5a\0\x08\0\0\0\0\0\xff\0",
        b"\0\x1a\0\x10\0\0\0\0\x08\x12\x04\0",
    ),
];

#[test]
fn a_write_cache_is_told(rt: HostRuntime) {
    let cached = unit(&rt, false).with_write_back();
    for (name, first, front) in CACHED {
        let order = reads(first, 4096);
        let outcome = answer(&rt, rt.alloc(), &cached, &order).expect(&rt, "an answer");
        let begins = outcome.bytes.as_slice().starts_with(front);
        same(&rt, &begins, &true, name);
    }
}

#[test]
fn a_protected_unit_with_a_write_cache_says_both(rt: HostRuntime) {
    let both = unit(&rt, true).with_write_back();
    let order = reads(b"\x1a\0\x0a\0\x04\0", 4);
    let outcome = answer(&rt, rt.alloc(), &both, &order).expect(&rt, "an answer");
    same(
        &rt,
        &outcome.bytes.as_slice(),
        &&b"\x0f\0\x90\0"[..],
        &"(6)",
    );
}

/// Descriptor blocks, and whether they ask that what was written lasts before they are answered.
const ASKING: &[(&str, &[u8], bool)] = &[
    ("SYNCHRONIZE CACHE", b"\x35\0\0\0\0\0\0\0\0", true),
    ("SYNCHRONIZE CACHE, IMMED", b"\x35\x02\0\0\0\0\0\0\0", true),
    ("WRITE(10)", b"\x2a\0\0\0\0\0\0\0\x01", false),
    ("WRITE(10), FUA", b"\x2a\x08\0\0\0\0\0\0\x01", true),
    ("WRITE(10), DPO", b"\x2a\x10\0\0\0\0\0\0\x01", false),
    (
        "WRITE(16), DPO and FUA",
        b"\x8a\x18\0\0\0\0\0\0\0\0\0\0\0\x01",
        true,
    ),
    ("WRITE(16)", b"\x8a\0\0\0\0\0\0\0\0\0\0\0\0\x01", false),
    ("READ(10)", b"\x28\0\0\0\0\0\0\0\x01", false),
    ("READ(10), FUA", b"\x28\x08\0\0\0\0\0\0\x01", true),
    ("TEST UNIT READY", b"\0", false),
    ("MODE SENSE(6)", b"\x1a\x08\x3f\0\xff\0", false),
    ("INQUIRY", b"\x12\0\0\0\x24\0", false),
];

#[test]
fn flushes_and_fua_ask(rt: HostRuntime) {
    for (name, first, due) in ASKING {
        same(&rt, &asks_to_last(&Cdb::read(&block(first))), due, name);
    }
}

/// Commands that the unit leaves to its disk: TEST UNIT READY, READ CAPACITY, READ, WRITE, REPORT LUNS, those
/// that only a thin unit has, one of no code that is known.
const OTHERS: &[&[u8]] = &[
    b"\0",
    b"\x25",
    b"\x28\0\0\0\0\0\0\0\x01",
    b"\x2a\0\0\0\0\0\0\0\x01",
    b"\x35",
    b"\x88",
    b"\x8a",
    b"\x9e\x10",
    b"\xa0",
    b"\x41\0\0\0\0\0\0\0\x01",
    b"\x42\0\0\0\0\0\0\0\x18",
    b"\x9e\x12",
    b"\xc1",
];

#[test]
fn other_commands_are_the_disks(rt: HostRuntime) {
    for first in OTHERS {
        let order = reads(first, 512);
        let answered = answer(&rt, rt.alloc(), &unit(&rt, false), &order).is_some();
        same(&rt, &answered, &false, first);
    }
}
