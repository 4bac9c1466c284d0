//! A thin unit: what it tells of itself, and the WRITE SAME and UNMAP that it takes. The bytes are laid out by hand
//! from the tables of SBC-3.

use super::rows::{reads, unit};
use crate::asserts::same;
use scsi_cdb::{Cdb, Residual, Sense, Transfer16};
use scsi_disk::{Deed, Order, Plan, plan};
use scsi_unit::LogicalUnit;
use std::process::Abort;

fn thin(rt: &impl Abort) -> LogicalUnit {
    unit(rt, false).with_thin()
}

/// A command with an allocation length of 255, and its data, of a unit of 2,048 blocks.
const DATA: &[(&str, &[u8], &[u8])] = &[
    (
        "pages",
        b"\x12\x01\0\0\xff\0",
        b"\0\0\0\x06\0\x80\x83\xb0\xb1\xb2",
    ),
    (
        "limits",
        b"\x12\x01\xb0\0\xff\0",
        b"\0\xb0\0\x3c\x01\x01\0\0\0\0\x20\0\0\0\0\0\0\0\0\0\0\0\x20\0\0\0\0\x01\0\0\0\x01\0\0\0\0\0\0\0\0\0\0\x20\0\0\0\0\0\0\0\0\0\0\0\0\0\0\0\0\0\0\0\0\0",
    ),
    (
        "provisioning",
        b"\x12\x01\xb2\0\xff\0",
        b"\0\xb2\0\x04\0\xe4\x02\0",
    ),
    (
        "READ CAPACITY(16)",
        b"\x9e\x10\0\0\0\0\0\0\0\0\0\0\0\xff",
        b"\0\0\0\0\0\0\x07\xff\0\0\x02\0\0\0\xc0\0\0\0\0\0\0\0\0\0\0\0\0\0\0\0\0\0",
    ),
    (
        "READ CAPACITY(16), cut",
        b"\x9e\x10\0\0\0\0\0\0\0\0\0\0\0\x0f",
        b"\0\0\0\0\0\0\x07\xff\0\0\x02\0\0\0\xc0",
    ),
    (
        "GET LBA STATUS, from the first block on",
        b"\x9e\x12\0\0\0\0\0\0\0\0\0\0\0\xff",
        b"\0\0\0\x14\0\0\0\0\0\0\0\0\0\0\0\0\0\0\x08\0\0\0\0\0",
    ),
    (
        "GET LBA STATUS, of the last block",
        b"\x9e\x12\0\0\0\0\0\0\x07\xff\0\0\0\xff",
        b"\0\0\0\x14\0\0\0\0\0\0\0\0\0\0\x07\xff\0\0\0\x01\0\0\0\0",
    ),
    (
        "GET LBA STATUS, cut",
        b"\x9e\x12\0\0\0\0\0\0\x07\xff\0\0\0\x05",
        b"\0\0\0\x14\0",
    ),
    (
        "UNMAP is there",
        b"\xa3\x0c\x01\x42\0\0\0\0\0\xff\0\0",
        b"\0\x03\0\x0a\x42\x01\0\0\0\0\0\xff\xff\0",
    ),
];

#[test]
fn a_thin_unit_says_so(rt: HostRuntime) {
    for (name, first, due) in DATA {
        let order = reads(first, 255);
        let outcome = thin(&rt)
            .outcome(rt.alloc(), &order, 2048)
            .expect(&rt, "memory")
            .expect(&rt, "an answer");
        same(&rt, &outcome.sense, &None, name);
        same(&rt, &outcome.bytes.as_slice(), due, name);
    }
}

/// A command that sends one block.
fn sends(first: &[u8]) -> Order {
    Order {
        read: false,
        write: true,
        ..reads(first, 512)
    }
}

/// A WRITE SAME that is taken: the first block that it names, and how many.
const TAKEN: &[(&str, &[u8], u64, u32)] = &[
    ("WRITE SAME(10)", b"\x41\0\0\0\x01\x02\0\0\x03\0", 0x102, 3),
    (
        "WRITE SAME(10), UNMAP",
        b"\x41\x08\0\0\0\0\x1f\xff\xff\xff",
        0,
        0xffff,
    ),
    (
        "WRITE SAME(16)",
        b"\x93\0\0\x01\0\0\0\0\0\x02\0\0\0\x03\0\0",
        0x0001_0000_0000_0002,
        3,
    ),
    (
        "WRITE SAME(16), UNMAP",
        b"\x93\x08\0\0\0\0\0\0\0\x05\x80\0\0\x01\0\0",
        5,
        0x8000_0001,
    ),
];

#[test]
fn write_same_is_a_write(rt: HostRuntime) {
    for (name, first, block, blocks) in TAKEN {
        let order = sends(first);
        let due = Order {
            cdb: Cdb::Write16(Transfer16 {
                options: 0,
                logical_block_address: *block,
                blocks: *blocks,
                group_number: 0,
                control: 0,
            }),
            deed: Deed::Same,
            ..order
        };
        same(&rt, &thin(&rt).meant(order), &due, name);
        // to another unit it means nothing
        same(&rt, &unit(&rt, false).meant(order), &order, name);
    }
}

/// A WRITE SAME that asks for more, or names no block, and an UNMAP that does.
const REFUSED: &[(&str, &[u8])] = &[
    ("no blocks (10)", b"\x41\0\0\0\0\x01\0\0\0\0"),
    ("protection (10)", b"\x41\x20\0\0\0\x01\0\0\x01\0"),
    ("an anchor (10)", b"\x41\x18\0\0\0\x01\0\0\x01\0"),
    ("no blocks (16)", b"\x93\x08\0\0\0\0\0\0\0\x05\0\0\0\0\0\0"),
    (
        "protection (16)",
        b"\x93\x80\0\0\0\0\0\0\0\x05\0\0\0\x01\0\0",
    ),
    (
        "an anchor (16)",
        b"\x93\x18\0\0\0\0\0\0\0\x05\0\0\0\x01\0\0",
    ),
    ("block numbers (10)", b"\x41\x02\0\0\0\x01\0\0\x01\0"),
    (
        "block numbers (16)",
        b"\x93\x04\0\0\0\0\0\0\0\x05\0\0\0\x01\0\0",
    ),
    ("no data (16)", b"\x93\x01\0\0\0\0\0\0\0\x05\0\0\0\x01\0\0"),
    ("an anchor (UNMAP)", b"\x42\x01\0\0\0\0\0\0\x18\0"),
];

#[test]
fn what_asks_for_more_is_refused(rt: HostRuntime) {
    for (name, first) in REFUSED {
        let order = sends(first);
        same(&rt, &thin(&rt).meant(order), &order, name);
        same(
            &rt,
            &plan(&order, 2048),
            &Plan::Refuse(Sense::InvalidCode),
            name,
        );
        let outcome = thin(&rt)
            .outcome(rt.alloc(), &order, 2048)
            .expect(&rt, "memory")
            .expect(&rt, "an answer");
        same(&rt, &outcome.sense, &Some(Sense::InvalidField), name);
        same(&rt, &outcome.residual, &Residual::Under(512), name);
        // a unit that is not thin does not know it
        let told = unit(&rt, false).outcome(rt.alloc(), &order, 2048);
        same(&rt, &told.expect(&rt, "memory").is_none(), &true, name);
    }
}

/// What a WRITE SAME of 2,048 blocks leads to.
const PLANS: &[(&str, &[u8], u32, Plan)] = &[
    (
        "all blocks",
        b"\x41\x08\0\0\0\0\0\x08\0\0",
        512,
        Plan::Take(512),
    ),
    (
        "one block past the end",
        b"\x41\x08\0\0\0\x01\0\x08\0\0",
        512,
        Plan::Refuse(Sense::OutOfRange),
    ),
    (
        "8,193 blocks",
        b"\x41\0\0\0\0\0\0\x20\x01\0",
        512,
        Plan::Refuse(Sense::InvalidField),
    ),
    (
        "the data of two blocks",
        b"\x41\0\0\0\0\0\0\0\x02\0",
        1024,
        Plan::Refuse(Sense::InvalidField),
    ),
    (
        "no data",
        b"\x41\0\0\0\0\0\0\0\x02\0",
        0,
        Plan::Refuse(Sense::InvalidField),
    ),
];

#[test]
fn write_same_takes_one_block(rt: HostRuntime) {
    for (name, first, expected, due) in PLANS {
        let order = Order {
            expected: *expected,
            ..sends(first)
        };
        let order = thin(&rt).meant(order);
        same(&rt, &plan(&order, 2048), due, name);
    }
}

/// The lengths of lists of UNMAP.
const LENGTHS: &[(&str, &[u8], u16)] = &[
    ("one range", b"\x42\0\0\0\0\0\0\0\x18\0", 24),
    ("no list", b"\x42\0\0\0\0\0\0\0\0\0", 0),
    (
        "the longest, and bits that have no meaning",
        b"\x42\xfe\x01\x02\x03\x04\x05\xff\xff\xff",
        65_535,
    ),
];

#[test]
fn unmap_takes_its_list(rt: HostRuntime) {
    for (name, first, length) in LENGTHS {
        let order = Order {
            expected: u32::from(*length),
            ..sends(first)
        };
        let due = Order {
            cdb: Cdb::Write16(Transfer16 {
                options: 0,
                logical_block_address: 0,
                blocks: 0,
                group_number: 0,
                control: 0,
            }),
            deed: Deed::Unmap(*length),
            ..order
        };
        let meant = thin(&rt).meant(order);
        same(&rt, &meant, &due, name);
        let taken = Plan::Take(u32::from(*length));
        same(&rt, &plan(&meant, 2048), &taken, name);
        let longer = Order {
            expected: u32::from(*length) + 1,
            ..meant
        };
        let refused = Plan::Refuse(Sense::InvalidField);
        same(&rt, &plan(&longer, 2048), &refused, name);
        // to another unit it means nothing
        same(&rt, &unit(&rt, false).meant(order), &order, name);
        let unknown = Plan::Refuse(Sense::InvalidCode);
        same(&rt, &plan(&order, 2048), &unknown, name);
    }
}

/// GET LBA STATUS past the end.
const PAST_THE_END: &[&[u8]] = &[
    b"\x9e\x12\0\0\0\0\0\0\x08\0\0\0\0\xff",
    b"\x9e\x12\xff\xff\xff\xff\xff\xff\xff\xff\0\0\0\xff",
];

#[test]
fn no_block_past_the_end_has_a_status(rt: HostRuntime) {
    for first in PAST_THE_END {
        let told = thin(&rt).outcome(rt.alloc(), &reads(first, 255), 2048);
        let outcome = told.expect(&rt, "memory").expect(&rt, "an answer");
        same(&rt, &outcome.sense, &Some(Sense::OutOfRange), first);
        same(&rt, &outcome.residual, &Residual::Under(255), first);
        // a unit that is not thin does not know it
        let told = unit(&rt, false).outcome(rt.alloc(), &reads(first, 255), 2048);
        same(&rt, &told.expect(&rt, "memory").is_none(), &true, first);
    }
}
