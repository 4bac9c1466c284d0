//! Commands that a unit takes beside those of the table of blocks: other spellings, and those that tell.
//! The bytes are laid out by hand from the tables of SPC-4 and SBC-3. One file, since it is one table.

use super::rows::{reads, unit};
use crate::asserts::same;
use scsi_cdb::{Cdb, Residual, Sense, Synchronize10, Transfer16};
use scsi_disk::{Deed, Order, Outcome, Plan, plan};
use scsi_unit::{LogicalUnit, asks_to_last};
use std::alloc::Global;
use std::process::Abort;

/// What an order means: a READ or a WRITE by its options, its first block and how many, such a WRITE that
/// does something else with its data, a flush of all blocks, or itself.
enum Meaning {
    Read(u8, u64, u32),
    Write(u8, u64, u32),
    Takes(u8, u64, u32, Deed),
    Flush,
    Itself,
}

fn transfer(options: u8, first: u64, blocks: u32) -> Transfer16 {
    Transfer16 {
        options,
        logical_block_address: first,
        blocks,
        group_number: 0,
        control: 0,
    }
}

impl Meaning {
    fn cdb(&self, order: &Order) -> Cdb {
        match self {
            Meaning::Read(options, first, blocks) => {
                Cdb::Read16(transfer(*options, *first, *blocks))
            }
            Meaning::Write(options, first, blocks) | Meaning::Takes(options, first, blocks, _) => {
                Cdb::Write16(transfer(*options, *first, *blocks))
            }
            Meaning::Flush => Cdb::SyncCache10(Synchronize10 {
                options: 0,
                logical_block_address: 0,
                group_number: 0,
                blocks: 0,
                control: 0,
            }),
            Meaning::Itself => order.cdb,
        }
    }

    fn deed(&self) -> Deed {
        match self {
            Meaning::Takes(_, _, _, deed) => *deed,
            _ => Deed::Write,
        }
    }
}

/// A command, what it means, and whether what was written has to last before it is answered.
const MEANT: &[(&str, &[u8], Meaning, bool)] = &[
    (
        "READ(6), 21 bits of an address",
        b"\x08\xff\x02\x03\x04\0",
        Meaning::Read(0, 0x001f_0203, 4),
        false,
    ),
    (
        "READ(6), 256 blocks",
        b"\x08\0\0\0\0\0",
        Meaning::Read(0, 0, 256),
        false,
    ),
    (
        "WRITE(6)",
        b"\x0a\x01\0\x05\xff\0",
        Meaning::Write(0, 0x0001_0005, 255),
        false,
    ),
    (
        "WRITE(6), 256 blocks",
        b"\x0a\0\0\x07\0\0",
        Meaning::Write(0, 7, 256),
        false,
    ),
    (
        "READ(12)",
        b"\xa8\0\x01\x02\x03\x04\0\0\x20\0",
        Meaning::Read(0, 0x0102_0304, 8192),
        false,
    ),
    (
        "READ(12), FUA",
        b"\xa8\x08\0\0\0\x01\0\0\0\x02",
        Meaning::Read(0x08, 1, 2),
        true,
    ),
    (
        "READ(12), no blocks",
        b"\xa8\0\0\0\0\x01\0\0\0\0",
        Meaning::Read(0, 1, 0),
        false,
    ),
    (
        "WRITE(12)",
        b"\xaa\x10\0\0\0\x01\x01\0\0\x02",
        Meaning::Write(0x10, 1, 0x0100_0002),
        false,
    ),
    (
        "WRITE(12), FUA",
        b"\xaa\x08\0\0\0\x01\0\0\0\x02",
        Meaning::Write(0x08, 1, 2),
        true,
    ),
    (
        "WRITE AND VERIFY(10)",
        b"\x2e\0\0\0\0\x03\0\0\x05\0",
        Meaning::Write(0x08, 3, 5),
        true,
    ),
    (
        "WRITE AND VERIFY(10), BYTCHK and DPO",
        b"\x2e\x12\0\0\0\x03\0\x01\x05\0",
        Meaning::Write(0x08, 3, 0x105),
        true,
    ),
    (
        "WRITE AND VERIFY(12), protection",
        b"\xae\x20\0\0\0\x03\0\0\0\x05",
        Meaning::Write(0x28, 3, 5),
        true,
    ),
    (
        "WRITE AND VERIFY(16)",
        b"\x8e\0\x01\0\0\0\0\0\0\x03\0\0\0\x05\0\0",
        Meaning::Write(0x08, 0x0100_0000_0000_0003, 5),
        true,
    ),
    (
        "SYNCHRONIZE CACHE(16), of any blocks",
        b"\x91\x02\xff\0\0\0\0\0\0\x03\0\0\0\x05\0\0",
        Meaning::Flush,
        true,
    ),
    ("stop", b"\x1b\0\0\0\0\0", Meaning::Flush, true),
    ("stop, IMMED", b"\x1b\x01\0\0\0\0", Meaning::Flush, true),
    (
        "a power condition",
        b"\x1b\0\0\0\x31\0",
        Meaning::Flush,
        true,
    ),
    ("start", b"\x1b\0\0\0\x01\0", Meaning::Itself, false),
    ("eject", b"\x1b\0\0\0\x02\0", Meaning::Itself, false),
    (
        "PREFETCH(10)",
        b"\x34\0\0\0\0\0\0\0\x01\0",
        Meaning::Itself,
        false,
    ),
    (
        "READ(10)",
        b"\x28\0\0\0\0\0\0\0\x01\0",
        Meaning::Itself,
        false,
    ),
    (
        "COMPARE AND WRITE, FUA",
        b"\x89\x08\0\0\0\0\0\0\x01\x02\0\0\0\x01\0\0",
        Meaning::Takes(0x08, 0x102, 1, Deed::Compare),
        true,
    ),
    (
        "COMPARE AND WRITE, two blocks",
        b"\x89\0\x01\0\0\0\0\0\0\x05\xff\xff\xff\x02\0\0",
        Meaning::Takes(0, 0x0100_0000_0000_0005, 2, Deed::Compare),
        false,
    ),
    (
        "VERIFY(10) without bytes",
        b"\x2f\0\0\0\x01\x02\0\0\x03\0",
        Meaning::Itself,
        false,
    ),
    (
        "VERIFY(10) with bytes",
        b"\x2f\x02\0\0\x01\x02\0\0\x03\0",
        Meaning::Takes(0, 0x102, 3, Deed::Verify),
        false,
    ),
    (
        "VERIFY(10) with bytes, DPO and the bit of FUA, which it has not",
        b"\x2f\x1a\0\0\x01\x02\0\x01\x03\0",
        Meaning::Takes(0, 0x102, 0x103, Deed::Verify),
        false,
    ),
    (
        "VERIFY(12) with bytes, protection",
        b"\xaf\x22\0\0\x01\x02\0\x01\0\x03",
        Meaning::Takes(0x20, 0x102, 0x0001_0003, Deed::Verify),
        false,
    ),
    (
        "VERIFY(16) with bytes",
        b"\x8f\x02\x01\0\0\0\0\0\0\x05\0\0\0\x03\0\0",
        Meaning::Takes(0, 0x0100_0000_0000_0005, 3, Deed::Verify),
        false,
    ),
    (
        "VERIFY(10), BYTCHK 10",
        b"\x2f\x04\0\0\0\0\0\0\x01\0",
        Meaning::Itself,
        false,
    ),
    (
        "VERIFY(10), BYTCHK 11",
        b"\x2f\x06\0\0\0\0\0\0\x01\0",
        Meaning::Itself,
        false,
    ),
    (
        "UNMAP, of a unit that is not thin",
        b"\x42\0\0\0\0\0\0\0\x18\0",
        Meaning::Itself,
        false,
    ),
];

#[test]
fn other_spellings_are_meant(rt: HostRuntime) {
    for (name, first, meaning, asks) in MEANT {
        let order = reads(first, 512);
        let due = Order {
            cdb: meaning.cdb(&order),
            deed: meaning.deed(),
            ..order
        };
        let meant = unit(&rt, false).meant(order);
        same(&rt, &meant, &due, name);
        same(&rt, &asks_to_last(&meant.cdb), asks, name);
    }
}

/// What such a command leads to on 2,048 blocks, which sends so many bytes or expects them.
const PLANS: &[(&str, &[u8], bool, u32, Plan)] = &[
    (
        "READ(6), 256 blocks",
        b"\x08\0\0\0\0\0",
        false,
        131_072,
        Plan::Give(131_072),
    ),
    (
        "READ(6), past the end",
        b"\x08\0\x07\x01\0\0",
        false,
        131_072,
        Plan::Refuse(Sense::OutOfRange),
    ),
    (
        "WRITE(6)",
        b"\x0a\0\x07\xff\x01\0",
        true,
        512,
        Plan::Take(512),
    ),
    (
        "WRITE(6), past the end",
        b"\x0a\0\x07\xff\x02\0",
        true,
        1024,
        Plan::Refuse(Sense::OutOfRange),
    ),
    (
        "READ(12), protection",
        b"\xa8\x20\0\0\0\0\0\0\0\x01",
        false,
        512,
        Plan::Refuse(Sense::InvalidField),
    ),
    (
        "WRITE(12), 8,193 blocks",
        b"\xaa\0\0\0\0\0\0\0\x20\x01",
        true,
        4_194_816,
        Plan::Refuse(Sense::InvalidField),
    ),
    (
        "WRITE(12), of another length",
        b"\xaa\0\0\0\0\0\0\0\0\x02",
        true,
        512,
        Plan::Refuse(Sense::InvalidField),
    ),
    (
        "WRITE AND VERIFY(10)",
        b"\x2e\x02\0\0\0\0\0\0\x02\0",
        true,
        1024,
        Plan::Take(1024),
    ),
    (
        "WRITE AND VERIFY(10), protection",
        b"\x2e\x40\0\0\0\0\0\0\x01\0",
        true,
        512,
        Plan::Refuse(Sense::InvalidField),
    ),
    (
        "WRITE AND VERIFY(16), past the end",
        b"\x8e\0\0\0\0\0\0\0\x08\0\0\0\0\x01\0\0",
        true,
        512,
        Plan::Refuse(Sense::OutOfRange),
    ),
    (
        "SYNCHRONIZE CACHE(16), past the end",
        b"\x91\0\0\0\0\0\0\0\x08\0\0\0\0\x01\0\0",
        false,
        0,
        Plan::Give(0),
    ),
    ("stop", b"\x1b\0\0\0\0\0", false, 0, Plan::Give(0)),
    (
        "COMPARE AND WRITE",
        b"\x89\0\0\0\0\0\0\0\x07\xff\0\0\0\x01\0\0",
        true,
        1024,
        Plan::Take(1024),
    ),
    (
        "COMPARE AND WRITE, no block",
        b"\x89\0\0\0\0\0\0\0\x08\0\0\0\0\0\0\0",
        false,
        0,
        Plan::Take(0),
    ),
    (
        "COMPARE AND WRITE, two blocks",
        b"\x89\0\0\0\0\0\0\0\0\0\0\0\0\x02\0\0",
        true,
        2048,
        Plan::Refuse(Sense::InvalidField),
    ),
    (
        "COMPARE AND WRITE, protection",
        b"\x89\x20\0\0\0\0\0\0\0\0\0\0\0\x01\0\0",
        true,
        1024,
        Plan::Refuse(Sense::InvalidField),
    ),
    (
        "COMPARE AND WRITE, past the end",
        b"\x89\0\0\0\0\0\0\0\x08\0\0\0\0\x01\0\0",
        true,
        1024,
        Plan::Refuse(Sense::OutOfRange),
    ),
    (
        "COMPARE AND WRITE, the bytes of one block",
        b"\x89\0\0\0\0\0\0\0\0\0\0\0\0\x01\0\0",
        true,
        512,
        Plan::Refuse(Sense::InvalidField),
    ),
    (
        "VERIFY(10) with bytes",
        b"\x2f\x02\0\0\x07\xfe\0\0\x02\0",
        true,
        1024,
        Plan::Take(1024),
    ),
    (
        "VERIFY(10) with bytes, past the end",
        b"\x2f\x02\0\0\x07\xff\0\0\x02\0",
        true,
        1024,
        Plan::Refuse(Sense::OutOfRange),
    ),
    (
        "VERIFY(12) with bytes, protection",
        b"\xaf\x22\0\0\0\0\0\0\0\x01",
        true,
        512,
        Plan::Refuse(Sense::InvalidField),
    ),
    (
        "VERIFY(16) with bytes, 8,193 blocks",
        b"\x8f\x02\0\0\0\0\0\0\0\0\0\0\x20\x01\0\0",
        true,
        4_194_816,
        Plan::Refuse(Sense::InvalidField),
    ),
];

#[test]
fn other_spellings_have_the_limits_of_their_meaning(rt: HostRuntime) {
    for (name, first, sends, expected, due) in PLANS {
        let order = Order {
            read: !*sends && *expected > 0,
            write: *sends,
            ..reads(first, *expected)
        };
        let meant = unit(&rt, false).meant(order);
        same(&rt, &plan(&meant, 2048), due, name);
        // a disk that tells no more of itself knows none of them
        let refused = Plan::Refuse(Sense::InvalidCode);
        same(&rt, &plan(&order, 2048), &refused, name);
    }
}

// What a unit of 2,048 blocks answers to an order, as it means it.
fn answer(rt: &impl Abort, alloc: Global, unit: &LogicalUnit, order: Order) -> Outcome {
    let meant = unit.meant(order);
    let outcome = unit.outcome(alloc, &meant, 2048).expect(rt, "memory");
    outcome.expect(rt, "an answer")
}

/// A command, and its data.
const TOLD: &[(&str, &[u8], &[u8])] = &[
    ("start", b"\x1b\0\0\0\x01\0", b""),
    ("PREFETCH(10)", b"\x34\0\0\0\x07\xff\0\0\x01\0", b""),
    ("PREFETCH(10), to the end", b"\x34\0\0\0\x08\0\0\0\0\0", b""),
    ("PREFETCH(16)", b"\x90\0\0\0\0\0\0\0\0\0\0\0\x08\0\0\0", b""),
    ("VERIFY(10)", b"\x2f\0\0\0\x07\xff\0\0\x01\0", b""),
    ("VERIFY(10), DPO", b"\x2f\x10\0\0\x08\0\0\0\0\0", b""),
    ("VERIFY(12)", b"\xaf\0\0\0\0\0\0\0\x08\0\0\0", b""),
    ("VERIFY(16)", b"\x8f\0\0\0\0\0\0\0\0\0\0\0\x08\0\0\0", b""),
    (
        "READ(10) is there",
        b"\xa3\x0c\x01\x28\0\0\0\0\0\xff\0\0",
        b"\0\x03\0\x0a\x28\xf8\xff\xff\xff\xff\0\xff\xff\0",
    ),
    (
        "READ(10) is there, with timeouts",
        b"\xa3\x0c\x81\x28\0\0\0\0\0\xff\0\0",
        b"\0\x83\0\x0a\x28\xf8\xff\xff\xff\xff\0\xff\xff\0\0\x0a\0\0\0\0\0\0\0\0\0\0",
    ),
    (
        "READ CAPACITY(16) is there",
        b"\xa3\x0c\x02\x9e\0\x10\0\0\0\xff\0\0",
        b"\0\x03\0\x10\x9e\x10\0\0\0\0\0\0\0\0\xff\xff\xff\xff\0\0",
    ),
    (
        "the list itself, by option 3",
        b"\xa3\x0c\x03\xa3\0\x0c\0\0\0\xff\0\0",
        b"\0\x03\0\x0c\xa3\x0c\x87\xff\xff\xff\xff\xff\xff\xff\0\0",
    ),
    (
        "REQUEST SENSE, by option 3",
        b"\xa3\x0c\x03\x03\0\0\0\0\0\xff\0\0",
        b"\0\x03\0\x06\x03\x01\0\0\xff\0",
    ),
    (
        "REQUEST SENSE has no service action",
        b"\xa3\x0c\x03\x03\0\x01\0\0\0\xff\0\0",
        b"\0\x01\0\0",
    ),
    (
        "GET LBA STATUS is not there",
        b"\xa3\x0c\x02\x9e\0\x12\0\0\0\xff\0\0",
        b"\0\x01\0\0",
    ),
    (
        "the service action has two bytes",
        b"\xa3\x0c\x02\x9e\x01\x10\0\0\0\xff\0\0",
        b"\0\x01\0\0",
    ),
    (
        "VERIFY(10) is there",
        b"\xa3\x0c\x01\x2f\0\0\0\0\0\xff\0\0",
        b"\0\x03\0\x0a\x2f\xf6\xff\xff\xff\xff\0\xff\xff\0",
    ),
    (
        "COMPARE AND WRITE is there",
        b"\xa3\x0c\x01\x89\0\0\0\0\0\xff\0\0",
        b"\0\x03\0\x10\x89\xf8\xff\xff\xff\xff\xff\xff\xff\xff\0\0\0\xff\0\0",
    ),
    (
        "UNMAP is not there",
        b"\xa3\x0c\x81\x42\0\0\0\0\0\xff\0\0",
        b"\0\x01\0\0",
    ),
    (
        "WRITE SAME(16) is not there",
        b"\xa3\x0c\x01\x93\0\0\0\0\0\xff\0\0",
        b"\0\x01\0\0",
    ),
    (
        "the answer is cut",
        b"\xa3\x0c\x01\x28\0\0\0\0\0\x05\0\0",
        b"\0\x03\0\x0a\x28",
    ),
];

#[test]
fn a_unit_tells_which_commands_there_are(rt: HostRuntime) {
    for (name, first, due) in TOLD {
        let outcome = answer(&rt, rt.alloc(), &unit(&rt, false), reads(first, 255));
        same(&rt, &outcome.sense, &None, name);
        same(&rt, &outcome.status, &0, name);
        same(&rt, &outcome.bytes.as_slice(), due, name);
    }
}

/// Commands that are refused, and why.
const REFUSED: &[(&str, &[u8], Sense)] = &[
    ("eject", b"\x1b\0\0\0\x02\0", Sense::InvalidField),
    ("load", b"\x1b\0\0\0\x03\0", Sense::InvalidField),
    (
        "PREFETCH(10), past the end",
        b"\x34\0\0\0\x07\xff\0\0\x02\0",
        Sense::OutOfRange,
    ),
    (
        "PREFETCH(16), past the end",
        b"\x90\0\0\0\0\0\0\0\0\x01\0\0\x08\0\0\0",
        Sense::OutOfRange,
    ),
    (
        "PREFETCH(16), past 2^64",
        b"\x90\0\xff\xff\xff\xff\xff\xff\xff\xff\0\0\0\x01\0\0",
        Sense::OutOfRange,
    ),
    (
        "VERIFY(10), past the end",
        b"\x2f\0\0\0\x07\xff\0\0\x02\0",
        Sense::OutOfRange,
    ),
    (
        "VERIFY(12), past the end",
        b"\xaf\0\0\0\0\x01\0\0\x08\0\0",
        Sense::OutOfRange,
    ),
    (
        "VERIFY(16), past 2^64",
        b"\x8f\0\xff\xff\xff\xff\xff\xff\xff\xff\0\0\0\x01\0\0",
        Sense::OutOfRange,
    ),
    (
        "VERIFY(10), protection",
        b"\x2f\x20\0\0\0\0\0\0\x01\0",
        Sense::InvalidField,
    ),
    (
        "VERIFY(12), BYTCHK 10",
        b"\xaf\x04\0\0\0\0\0\0\0\x01\0",
        Sense::InvalidField,
    ),
    (
        "VERIFY(16), BYTCHK 11",
        b"\x8f\x06\0\0\0\0\0\0\0\0\0\0\0\x01\0\0",
        Sense::InvalidField,
    ),
    (
        "an option over 3",
        b"\xa3\x0c\x04\x28\0\0\0\0\0\xff\0\0",
        Sense::InvalidField,
    ),
    (
        "option 1 for a code with service actions",
        b"\xa3\x0c\x01\x9e\0\x10\0\0\0\xff\0\0",
        Sense::InvalidField,
    ),
    (
        "option 2 for a code without",
        b"\xa3\x0c\x02\x28\0\0\0\0\0\xff\0\0",
        Sense::InvalidField,
    ),
];

#[test]
fn other_options_are_refused(rt: HostRuntime) {
    for (name, first, due) in REFUSED {
        let outcome = answer(&rt, rt.alloc(), &unit(&rt, false), reads(first, 255));
        same(&rt, &outcome.status, &2, name);
        same(&rt, &outcome.sense, &Some(*due), name);
        same(&rt, &outcome.residual, &Residual::Under(255), name);
    }
}

/// The descriptors of all commands, in the order of their codes.
const COMMANDS: &[u8] =
    b"\0\0\0\0\0\0\0\x06\x03\0\0\0\0\0\0\x06\x08\0\0\0\0\0\0\x06\x0a\0\0\0\0\0\0\x06\x12\0\0\0\0\0\0\x06\x1a\0\0\0\0\0\0\x06\x1b\0\0\0\0\0\0\x06\x25\0\0\0\0\0\0\x0a\x28\0\0\0\0\0\0\x0a\x2a\0\0\0\0\0\0\x0a\x2e\0\0\0\0\0\0\x0a\x2f\0\0\0\0\0\0\x0a\x34\0\0\0\0\0\0\x0a\x35\0\0\0\0\0\0\x0a\x5a\0\0\0\0\0\0\x0a\x88\0\0\0\0\0\0\x10\x89\0\0\0\0\0\0\x10\x8a\0\0\0\0\0\0\x10\x8e\0\0\0\0\0\0\x10\x8f\0\0\0\0\0\0\x10\x90\0\0\0\0\0\0\x10\x91\0\0\0\0\0\0\x10\x9e\0\0\x10\0\x01\0\x10\xa0\0\0\0\0\0\0\x0c\xa3\0\0\x0c\0\x01\0\x0c\xa8\0\0\0\0\0\0\x0c\xaa\0\0\0\0\0\0\x0c\xae\0\0\0\0\0\0\x0c\xaf\0\0\0\0\0\0\x0c";

/// Those of WRITE SAME(10), UNMAP, WRITE SAME(16) and GET LBA STATUS.
const THIN_COMMANDS: &[u8] =
    b"\x41\0\0\0\0\0\0\x0a\x42\0\0\0\0\0\0\x0a\x93\0\0\0\0\0\0\x10\x9e\0\0\x12\0\x01\0\x10";

// The data of REPORT SUPPORTED OPERATION CODES by byte 2 of its block.
fn list(rt: &impl Abort, alloc: Global, unit: &LogicalUnit, options: u8) -> Outcome {
    let block = [0xa3, 0x0c, options, 0, 0, 0, 0, 0, 0xff, 0xff, 0, 0];
    answer(rt, alloc, unit, reads(&block, 65_535))
}

#[test]
fn all_commands_are_listed(rt: HostRuntime) {
    let plain = list(&rt, rt.alloc(), &unit(&rt, false), 0);
    let bytes = plain.bytes.as_slice();
    // 29 commands of 8 bytes
    same(&rt, &bytes.starts_with(b"\0\0\0\xe8"), &true, &"length");
    same(&rt, &bytes.ends_with(COMMANDS), &true, &"commands");
    same(&rt, &bytes.len(), &236, &"all");
    let thin = list(&rt, rt.alloc(), &unit(&rt, false).with_thin(), 0);
    let bytes = thin.bytes.as_slice();
    same(
        &rt,
        &bytes.starts_with(b"\0\0\x01\x08"),
        &true,
        &"length, thin",
    );
    same(&rt, &bytes.ends_with(THIN_COMMANDS), &true, &"thin");
    same(&rt, &bytes.len(), &268, &"all, thin");
}

#[test]
fn timeouts_are_told_on_request(rt: HostRuntime) {
    let thin = list(&rt, rt.alloc(), &unit(&rt, false).with_thin(), 0x80);
    let bytes = thin.bytes.as_slice();
    // 33 commands of 20 bytes, each with the flag 02
    let front = b"\0\0\x02\x94\0\0\0\0\0\x02\0\x06\0\x0a\0\0\0\0\0\0\0\0\0\0\x03\0\0\0\0\x02";
    same(&rt, &bytes.starts_with(front), &true, &"front");
    let back = b"\x9e\0\0\x12\0\x03\0\x10\0\x0a\0\0\0\0\0\0\0\0\0\0";
    same(&rt, &bytes.ends_with(back), &true, &"back");
    same(&rt, &bytes.len(), &664, &"all");
}

/// REQUEST SENSE of a unit that is not there, in both formats.
const SENSES: &[(&[u8], &[u8])] = &[
    (
        b"\x03\0\0\0\xff\0",
        b"\x70\0\x05\0\0\0\0\x0a\0\0\0\0\x25\0\0\0\0\0",
    ),
    (b"\x03\x01\0\0\xff\0", b"\x72\x05\x25\0\0\0\0\0"),
];

#[test]
fn another_unit_has_the_sense_that_it_is_not_there(rt: HostRuntime) {
    for (first, due) in SENSES {
        let order = Order {
            lun: 1 << 48,
            ..reads(first, 255)
        };
        let outcome = answer(&rt, rt.alloc(), &unit(&rt, false), order);
        same(&rt, &outcome.status, &0, first);
        same(&rt, &outcome.bytes.as_slice(), due, first);
    }
}

/// Commands that another unit refuses, and that take no data.
const ELSEWHERE: &[&[u8]] = &[
    b"\x1b\0\0\0\x01\0",
    b"\x34\0\0\0\0\0\0\0\x01\0",
    b"\x2f\0\0\0\0\0\0\0\x01\0",
    b"\xa3\x0c\0\0\0\0\0\0\xff\xff\0\0",
];

#[test]
fn only_unit_0_tells_and_it_takes_no_data(rt: HostRuntime) {
    for first in ELSEWHERE {
        let order = reads(first, 255);
        let elsewhere = Order {
            lun: 1 << 48,
            ..order
        };
        let outcome = answer(&rt, rt.alloc(), &unit(&rt, false), elsewhere);
        same(&rt, &outcome.sense, &Some(Sense::NoUnit), first);
        let sent = Order {
            write: true,
            ..order
        };
        let outcome = answer(&rt, rt.alloc(), &unit(&rt, false), sent);
        same(&rt, &outcome.sense, &Some(Sense::InvalidField), first);
    }
}
