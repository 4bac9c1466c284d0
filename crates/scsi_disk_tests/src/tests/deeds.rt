//! Commands that take data for something else than a WRITE, by rows. The lists of UNMAP are laid out by
//! hand from the tables of SBC-3. One file, since it is one table.

use super::{Data, check_block, check_outcome, is_supplied, order_of, run, same};
use scsi_cdb::{Residual, Sense};
use scsi_disk::{
    BlockStore, Deed, FailAt, MemoryStore, Order, Outcome, ReadOnly, StoreFault, execute,
};
use std::alloc::Global;
use std::process::Abort;

/// A command over 16 blocks of 11: what it does, its block, which way its data go, and these as bytes
/// that come so many times; why it fails, and which block is of another byte then.
struct Case {
    name: &'static str,
    deed: Deed,
    words: [u32; 4],
    data: Data,
    bytes: &'static [(u8, usize)],
    sense: Option<Sense>,
    left: &'static [(u64, u8)],
}

/// A command of one block, block 2, and of two, from block 2 on.
const ONE: [u32; 4] = [0x2a000000, 0x00020000, 0x01000000, 0];

const TWO: [u32; 4] = [0x2a000000, 0x00020000, 0x02000000, 0];

/// The same of no block, at the end.
const NONE: [u32; 4] = [0x2a000000, 0x00100000, 0, 0];

/// A COMPARE AND WRITE that finds what is expected.
const ALIKE: Case = Case {
    name: "alike",
    deed: Deed::Compare,
    words: ONE,
    data: Data::Writes(1024),
    bytes: &[(0x11, 512), (0x5a, 512)],
    sense: None,
    left: &[(2, 0x5a)],
};

/// A COMPARE AND WRITE that finds another first byte.
const OTHER: Case = Case {
    name: "the first byte is another",
    deed: Deed::Compare,
    words: ONE,
    data: Data::Writes(1024),
    bytes: &[(0x10, 1), (0x11, 511), (0x5a, 512)],
    sense: Some(Sense::Miscompare(0)),
    left: &[],
};

/// COMPARE AND WRITE: each row names the bytes that are expected, then those to write.
const COMPARED: &[Case] = &[
    ALIKE,
    OTHER,
    Case {
        name: "a byte in the middle is another, and the last one",
        deed: Deed::Compare,
        words: ONE,
        data: Data::Writes(1024),
        bytes: &[(0x11, 200), (0x91, 1), (0x11, 310), (0x10, 1), (0x5a, 512)],
        sense: Some(Sense::Miscompare(200)),
        left: &[],
    },
    Case {
        name: "the last byte is another",
        deed: Deed::Compare,
        words: ONE,
        data: Data::Writes(1024),
        bytes: &[(0x11, 511), (0x10, 1), (0x11, 512)],
        sense: Some(Sense::Miscompare(511)),
        left: &[],
    },
    Case {
        name: "no block",
        deed: Deed::Compare,
        words: NONE,
        data: Data::Silent,
        bytes: &[],
        sense: None,
        left: &[],
    },
    Case {
        name: "two blocks",
        deed: Deed::Compare,
        words: TWO,
        data: Data::Writes(2048),
        bytes: &[(0x11, 1024), (0x5a, 1024)],
        sense: Some(Sense::InvalidField),
        left: &[],
    },
    Case {
        name: "two blocks past the end, which are refused for their number",
        deed: Deed::Compare,
        words: [0x2a000000, 0x000f0000, 0x02000000, 0],
        data: Data::Writes(2048),
        bytes: &[(0x11, 1024), (0x5a, 1024)],
        sense: Some(Sense::InvalidField),
        left: &[],
    },
    Case {
        name: "the last block",
        deed: Deed::Compare,
        words: [0x2a000000, 0x000f0000, 0x01000000, 0],
        data: Data::Writes(1024),
        bytes: &[(0x11, 512), (0x00, 512)],
        sense: None,
        left: &[(15, 0x00)],
    },
    Case {
        name: "past the end",
        deed: Deed::Compare,
        words: [0x2a000000, 0x00100000, 0x01000000, 0],
        data: Data::Writes(1024),
        bytes: &[(0x11, 512), (0x5a, 512)],
        sense: Some(Sense::OutOfRange),
        left: &[],
    },
    Case {
        name: "the bytes of one block alone",
        deed: Deed::Compare,
        words: ONE,
        data: Data::Writes(512),
        bytes: &[(0x11, 512)],
        sense: Some(Sense::InvalidField),
        left: &[],
    },
    Case {
        name: "no bytes",
        deed: Deed::Compare,
        words: ONE,
        data: Data::Neither(1024),
        bytes: &[],
        sense: Some(Sense::InvalidField),
        left: &[],
    },
    Case {
        name: "protection",
        deed: Deed::Compare,
        words: [0x2a200000, 0x00020000, 0x01000000, 0],
        data: Data::Writes(1024),
        bytes: &[(0x11, 512), (0x5a, 512)],
        sense: Some(Sense::InvalidField),
        left: &[],
    },
];

/// A VERIFY that finds what it is sent.
const VERIFY_ALIKE: Case = Case {
    name: "alike",
    deed: Deed::Verify,
    words: TWO,
    data: Data::Writes(1024),
    bytes: &[(0x11, 1024)],
    sense: None,
    left: &[],
};

/// A VERIFY that finds another first byte.
const VERIFY_OTHER: Case = Case {
    name: "the first byte is another",
    deed: Deed::Verify,
    words: TWO,
    data: Data::Writes(1024),
    bytes: &[(0x00, 1024)],
    sense: Some(Sense::Miscompare(0)),
    left: &[],
};

/// VERIFY with bytes.
const VERIFIED: &[Case] = &[
    VERIFY_ALIKE,
    VERIFY_OTHER,
    Case {
        name: "a byte of the second block is another",
        deed: Deed::Verify,
        words: TWO,
        data: Data::Writes(1024),
        bytes: &[(0x11, 600), (0x19, 1), (0x11, 423)],
        sense: Some(Sense::Miscompare(600)),
        left: &[],
    },
    Case {
        name: "the last byte is another",
        deed: Deed::Verify,
        words: TWO,
        data: Data::Writes(1024),
        bytes: &[(0x11, 1023), (0x12, 1)],
        sense: Some(Sense::Miscompare(1023)),
        left: &[],
    },
    Case {
        name: "no block",
        deed: Deed::Verify,
        words: NONE,
        data: Data::Silent,
        bytes: &[],
        sense: None,
        left: &[],
    },
    Case {
        name: "past the end",
        deed: Deed::Verify,
        words: [0x2a000000, 0x000f0000, 0x02000000, 0],
        data: Data::Writes(1024),
        bytes: &[(0x11, 1024)],
        sense: Some(Sense::OutOfRange),
        left: &[],
    },
    Case {
        name: "8,193 blocks",
        deed: Deed::Verify,
        words: [0x8a000000, 0, 0, 0x20010000],
        data: Data::Writes(4_194_816),
        bytes: &[],
        sense: Some(Sense::InvalidField),
        left: &[],
    },
    Case {
        name: "the bytes of one block of two",
        deed: Deed::Verify,
        words: TWO,
        data: Data::Writes(512),
        bytes: &[(0x11, 512)],
        sense: Some(Sense::InvalidField),
        left: &[],
    },
];

/// An UNMAP, whose blocks stand in its list.
const LIST: [u32; 4] = [0x8a000000, 0, 0, 0];

/// An UNMAP of three blocks.
const THREE: Case = Case {
    name: "three blocks from 13 on",
    deed: Deed::Unmap(24),
    words: LIST,
    data: Data::Writes(24),
    bytes: &[
        (0, 1),
        (22, 1),
        (0, 1),
        (16, 1),
        (0, 11),
        (13, 1),
        (0, 3),
        (3, 1),
        (0, 4),
    ],
    sense: None,
    left: &[(13, 0x00), (14, 0x00), (15, 0x00)],
};

/// UNMAP: each row has the bytes of its list.
const UNMAPPED: &[Case] = &[
    Case {
        name: "no list",
        deed: Deed::Unmap(0),
        words: LIST,
        data: Data::Silent,
        bytes: &[],
        sense: None,
        left: &[],
    },
    Case {
        name: "a list that is cut in its head",
        deed: Deed::Unmap(7),
        words: LIST,
        data: Data::Writes(7),
        bytes: &[(0x00, 1), (0x06, 1), (0x00, 5)],
        sense: Some(Sense::ParameterLength),
        left: &[],
    },
    Case {
        name: "no range",
        deed: Deed::Unmap(8),
        words: LIST,
        data: Data::Writes(8),
        bytes: &[(0x00, 1), (0x06, 1), (0x00, 6)],
        sense: None,
        left: &[],
    },
    THREE,
    Case {
        name: "one block",
        deed: Deed::Unmap(24),
        words: LIST,
        data: Data::Writes(24),
        bytes: &[
            (0, 1),
            (22, 1),
            (0, 1),
            (16, 1),
            (0, 11),
            (4, 1),
            (0, 3),
            (1, 1),
            (0, 4),
        ],
        sense: None,
        left: &[(4, 0x00)],
    },
    Case {
        name: "a range of no block, at the end",
        deed: Deed::Unmap(24),
        words: LIST,
        data: Data::Writes(24),
        bytes: &[(0, 1), (22, 1), (0, 1), (16, 1), (0, 11), (16, 1), (0, 8)],
        sense: None,
        left: &[],
    },
    Case {
        name: "a range whose last byte is missing, which is none",
        deed: Deed::Unmap(23),
        words: LIST,
        data: Data::Writes(23),
        bytes: &[
            (0, 1),
            (22, 1),
            (0, 1),
            (16, 1),
            (0, 11),
            (4, 1),
            (0, 3),
            (1, 1),
            (0, 3),
        ],
        sense: None,
        left: &[],
    },
    Case {
        name: "two ranges, of blocks 4 and 6",
        deed: Deed::Unmap(40),
        words: LIST,
        data: Data::Writes(40),
        bytes: &[
            (0, 1),
            (38, 1),
            (0, 1),
            (32, 1),
            (0, 11),
            (4, 1),
            (0, 3),
            (1, 1),
            (0, 4),
            (0, 7),
            (6, 1),
            (0, 3),
            (1, 1),
            (0, 4),
        ],
        sense: Some(Sense::InvalidParameter),
        left: &[],
    },
    Case {
        name: "8,193 blocks, which are refused for their number",
        deed: Deed::Unmap(24),
        words: LIST,
        data: Data::Writes(24),
        bytes: &[
            (0, 1),
            (22, 1),
            (0, 1),
            (16, 1),
            (0, 14),
            (0x20, 1),
            (1, 1),
            (0, 4),
        ],
        sense: Some(Sense::InvalidParameter),
        left: &[],
    },
    Case {
        name: "8,192 blocks of 16",
        deed: Deed::Unmap(24),
        words: LIST,
        data: Data::Writes(24),
        bytes: &[(0, 1), (22, 1), (0, 1), (16, 1), (0, 14), (0x20, 1), (0, 5)],
        sense: Some(Sense::OutOfRange),
        left: &[],
    },
    Case {
        name: "two blocks at the last one",
        deed: Deed::Unmap(24),
        words: LIST,
        data: Data::Writes(24),
        bytes: &[
            (0, 1),
            (22, 1),
            (0, 1),
            (16, 1),
            (0, 11),
            (15, 1),
            (0, 3),
            (2, 1),
            (0, 4),
        ],
        sense: Some(Sense::OutOfRange),
        left: &[],
    },
    Case {
        name: "a block past 2^64",
        deed: Deed::Unmap(24),
        words: LIST,
        data: Data::Writes(24),
        bytes: &[
            (0, 1),
            (22, 1),
            (0, 1),
            (16, 1),
            (0, 4),
            (0xff, 8),
            (0, 3),
            (1, 1),
            (0, 4),
        ],
        sense: Some(Sense::OutOfRange),
        left: &[],
    },
    Case {
        name: "a list of another length than its block says",
        deed: Deed::Unmap(24),
        words: LIST,
        data: Data::Writes(40),
        bytes: &[(0, 40)],
        sense: Some(Sense::InvalidField),
        left: &[],
    },
    Case {
        name: "a list that isn't sent",
        deed: Deed::Unmap(24),
        words: LIST,
        data: Data::Neither(24),
        bytes: &[],
        sense: Some(Sense::InvalidField),
        left: &[],
    },
];

impl Case {
    fn order(&self) -> Order {
        Order {
            deed: self.deed,
            ..order_of(self.words, self.data)
        }
    }

    fn bytes(&self, rt: &impl Abort, alloc: Global) -> Vec<u8> {
        let mut bytes = Vec::new(alloc);
        for (byte, count) in self.bytes {
            for _ in 0..*count {
                bytes.push(*byte).expect(rt, self.name);
            }
        }
        bytes
    }
}

/// 16 blocks of 11.
fn disk(rt: &impl Abort, alloc: Global) -> MemoryStore {
    let mut disk = MemoryStore::new(alloc, 16).expect(rt, "a disk");
    disk.write(0, &[0x11; 8192]).expect(rt, "a write");
    disk
}

/// Asserts that these blocks are of the byte beside them, and all others of 11.
fn check_left<S: BlockStore>(rt: &impl Abort, store: &mut S, left: &[(u64, u8)]) {
    for block in 0..16 {
        let mut due = 0x11;
        for (number, byte) in left {
            if *number == block {
                due = *byte;
            }
        }
        check_block(rt, store, block, due);
    }
}

/// Runs the command of a case over a store, and asserts what it gives.
fn check_case<S: BlockStore>(
    rt: &impl Abort,
    alloc: Global,
    case: &Case,
    sense: Option<Sense>,
    store: &mut S,
) {
    let order = case.order();
    let bytes = case.bytes(rt, alloc);
    let outcome = run(rt, alloc, &order, &bytes, store);
    let residual = match sense {
        Some(_) if order.write => Residual::Under(order.expected),
        _ => Residual::Exact,
    };
    check_outcome(rt, case.name, &outcome, sense, b"", residual);
}

fn check_cases(rt: &impl Abort, alloc: Global, cases: &[Case]) {
    for case in cases {
        let mut store = disk(rt, alloc);
        check_case(rt, alloc, case, case.sense, &mut store);
        check_left(rt, &mut store, case.left);
    }
}

#[test]
fn compared_and_written(rt: HostRuntime) {
    check_cases(&rt, rt.alloc(), COMPARED);
}

#[test]
fn verified(rt: HostRuntime) {
    check_cases(&rt, rt.alloc(), VERIFIED);
}

#[test]
fn unmapped(rt: HostRuntime) {
    check_cases(&rt, rt.alloc(), UNMAPPED);
}

/// Commands to a disk that is read alone, and why each fails: what may write is refused, before its data
/// are looked at.
const READ_ALONE: &[(Case, Option<Sense>)] = &[
    (ALIKE, Some(Sense::WriteProtected)),
    (OTHER, Some(Sense::WriteProtected)),
    (THREE, Some(Sense::WriteProtected)),
    (VERIFY_ALIKE, None),
    (VERIFY_OTHER, Some(Sense::Miscompare(0))),
];

#[test]
fn deeds_on_a_disk_that_is_read_alone(rt: HostRuntime) {
    let mut store = ReadOnly::new(disk(&rt, rt.alloc()));
    for (case, sense) in READ_ALONE {
        check_case(&rt, rt.alloc(), case, *sense, &mut store);
        check_left(&rt, &mut store, &[]);
    }
    same(&rt, &store.failures(), &0, &"failures");
}

/// Commands over a store of which one call fails: how many calls come before it, why the command fails,
/// whether that call was made, and which block is of another byte then. A write that fails has written its
/// first block.
const FAILING: &[(Case, u64, Option<Sense>, u64, &[(u64, u8)])] = &[
    (ALIKE, 0, Some(Sense::ReadError), 1, &[]),
    (ALIKE, 1, Some(Sense::WriteError), 1, &[(2, 0x5a)]),
    (ALIKE, 2, None, 0, &[(2, 0x5a)]),
    (OTHER, 0, Some(Sense::ReadError), 1, &[]),
    (OTHER, 1, Some(Sense::Miscompare(0)), 0, &[]),
    (VERIFY_ALIKE, 0, Some(Sense::ReadError), 1, &[]),
    (VERIFY_ALIKE, 1, None, 0, &[]),
    (THREE, 0, Some(Sense::WriteError), 1, &[(13, 0x00)]),
    (THREE, 1, None, 0, &[(13, 0x00), (14, 0x00), (15, 0x00)]),
];

/// Makes the call that fails, where the command didn't.
fn make_call(rt: &impl Abort, store: &mut FailAt) {
    if store.failures() == 0 {
        assert!(rt; store.blocks() == 16);
        let mut block = [0; 512];
        let call = store.read(0, &mut block);
        same(rt, &call, &Err(StoreFault::Device), &"the call that fails");
    }
}

#[test]
fn deeds_over_a_failing_store(rt: HostRuntime) {
    for (case, before, sense, failures, left) in FAILING {
        let mut store = FailAt::new(disk(&rt, rt.alloc()), *before);
        check_case(&rt, rt.alloc(), case, *sense, &mut store);
        same(&rt, &store.failures(), failures, &case.name);
        make_call(&rt, &mut store);
        check_left(&rt, &mut store, left);
    }
}

/// Executes a command, and once more where memory ran out, when no block has changed.
fn at_last(rt: &impl Abort, alloc: Global, case: &Case, store: &mut MemoryStore) -> Outcome {
    let order = case.order();
    let bytes = case.bytes(rt, alloc);
    let supplied = is_supplied(&order, &bytes, store.blocks());
    assert!(rt; supplied);
    if let Ok(outcome) = execute(alloc, &order, &bytes, store) {
        return outcome;
    }
    check_left(rt, store, &[]);
    run(rt, alloc, &order, &bytes, store)
}

/// For `rt try --test --fail-alloc`.
#[test]
fn refused_memory_changes_no_block(rt: HostRuntime) {
    for case in [&ALIKE, &OTHER, &VERIFY_ALIKE, &THREE] {
        let mut store = disk(&rt, rt.alloc());
        let outcome = at_last(&rt, rt.alloc(), case, &mut store);
        same(&rt, &outcome.sense, &case.sense, &case.name);
        check_left(&rt, &mut store, case.left);
    }
}
