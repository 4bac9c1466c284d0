//! Orders on disks and stores, by rows. One file, since its tests share their stores and rows.

ghost use Rattle.std.specs.Prelude.{IsTrue};
ghost use Rattle.scsi_disk.specs.Effect.{IsSupplied};
ghost use Rattle.scsi_disk.specs.Runs.{AreSupplied};

mod deeds;

use scsi_cdb::{Bytes, Cdb, Residual, Sense};
use scsi_disk::{
    BlockRange, BlockStore, Deed, FailAt, Found, MOST_BLOCKS, MemoryStore, Order, Outcome, Plan,
    ReadOnly, SparseStore, StoreFault, execute, failed_read, plan, run_orders,
};
use std::alloc::{AllocError, Global};
use std::fmt::Debug;
use std::process::Abort;

/// Asserts that a value is the one that is due, in a row of which this tells.
fn same<T: PartialEq + Debug>(rt: &impl Abort, value: &T, due: &T, row: &impl Debug) {
    assert!(rt; *value == *due, "{row:?}: {value:?} is not {due:?}");
}

/// The descriptor block of which these are the words.
fn block(words: [u32; 4]) -> [u8; 16] {
    let mut bytes = [0; 16];
    for (i, word) in words.iter().enumerate() {
        bytes[4 * i..4 * i + 4].copy_from_slice(&word.to_be_bytes());
    }
    bytes
}

/// A command by its descriptor block, to unit 0.
fn order(words: [u32; 4], read: bool, write: bool, expected: u32) -> Order {
    Order {
        cdb: Cdb::read(&block(words)),
        lun: 0,
        read,
        write,
        expected,
        deed: Deed::Write,
    }
}

/// What a row says of the data of a command, with how many bytes its initiator expects.
#[derive(Clone, Copy)]
enum Data {
    /// None, and no byte is expected.
    Silent,
    /// From the disk.
    Reads(u32),
    /// To the disk.
    Writes(u32),
    /// Both ways.
    Both(u32),
    /// No way.
    Neither(u32),
}

/// The command of a row.
fn order_of(words: [u32; 4], data: Data) -> Order {
    match data {
        Data::Silent => order(words, false, false, 0),
        Data::Reads(expected) => order(words, true, false, expected),
        Data::Writes(expected) => order(words, false, true, expected),
        Data::Both(expected) => order(words, true, true, expected),
        Data::Neither(expected) => order(words, false, false, expected),
    }
}

/// The same order to unit 1.
fn elsewhere(order: Order) -> Order {
    Order {
        lun: 0x0001_0000_0000_0000,
        ..order
    }
}

/// The bytes are those that the order takes.
fn is_supplied(order: &Order, bytes: &[u8], blocks: u64) -> bool
    ensures { IsTrue result → IsSupplied blocks order.now bytes.now }
{
    match plan(order, blocks) {
        Plan::Take(length) => bytes.len() == length as usize,
        Plan::Refuse(_) => true,
        Plan::Give(_) => true,
    }
}

/// Executes an order that takes these bytes.
fn run<S: BlockStore>(
    rt: &impl Abort,
    alloc: Global,
    order: &Order,
    bytes: &[u8],
    store: &mut S,
) -> Outcome {
    let supplied = is_supplied(order, bytes, store.blocks());
    assert!(rt; supplied);
    execute(alloc, order, bytes, store).expect(rt, "memory")
}

const INQUIRY: [u32; 4] = [0x12000000, 0x24000000, 0, 0];

const READ_8: [u32; 4] = [0x28000000, 0, 0x08000000, 0];

const WRITE_8: [u32; 4] = [0x2a000000, 0, 0x08000000, 0];

/// Commands to unit 0 with 2,048 blocks, and their plans.
const PLANS: &[(&str, [u32; 4], Data, Plan)] = &[
    (
        "unknown code",
        [0x34000000, 0, 0, 0],
        Data::Silent,
        Plan::Refuse(Sense::InvalidCode),
    ),
    (
        "both directions",
        READ_8,
        Data::Both(4096),
        Plan::Refuse(Sense::InvalidField),
    ),
    (
        "data for TEST UNIT READY",
        [0, 0, 0, 0],
        Data::Writes(4096),
        Plan::Refuse(Sense::InvalidField),
    ),
    (
        "READ with protection",
        [0x28200000, 0, 0x08000000, 0],
        Data::Reads(4096),
        Plan::Refuse(Sense::InvalidField),
    ),
    (
        "WRITE with protection",
        [0x2a800000, 0, 0x08000000, 0],
        Data::Writes(4096),
        Plan::Refuse(Sense::InvalidField),
    ),
    (
        "READ with other options",
        [0x281f0000, 0, 0x08000000, 0],
        Data::Reads(4096),
        Plan::Give(4096),
    ),
    (
        "list of pages",
        [0x12010000, 0xff000000, 0, 0],
        Data::Reads(255),
        Plan::Give(7),
    ),
    (
        "page b0",
        [0x1201b000, 0xff000000, 0, 0],
        Data::Reads(255),
        Plan::Refuse(Sense::InvalidField),
    ),
    (
        "page without its bit",
        [0x12008000, 0xff000000, 0, 0],
        Data::Reads(255),
        Plan::Refuse(Sense::InvalidField),
    ),
    (
        "report 3",
        [0xa0000300, 0, 0x00100000, 0],
        Data::Reads(16),
        Plan::Refuse(Sense::InvalidField),
    ),
    (
        "8,192 blocks of 2,048",
        [0x88000000, 0, 0, 0x20000000],
        Data::Reads(4194304),
        Plan::Refuse(Sense::OutOfRange),
    ),
    (
        "8,193 blocks",
        [0x88000000, 0, 0x00000000, 0x20010000],
        Data::Reads(4194816),
        Plan::Refuse(Sense::InvalidField),
    ),
    (
        "last block",
        [0x28000000, 0x07ff0000, 0x01000000, 0],
        Data::Reads(512),
        Plan::Give(512),
    ),
    (
        "two at the last block",
        [0x28000000, 0x07ff0000, 0x02000000, 0],
        Data::Reads(1024),
        Plan::Refuse(Sense::OutOfRange),
    ),
    (
        "none at the end",
        [0x28000000, 0x08000000, 0, 0],
        Data::Silent,
        Plan::Give(0),
    ),
    (
        "one at the end",
        [0x28000000, 0x08000000, 0x01000000, 0],
        Data::Reads(512),
        Plan::Refuse(Sense::OutOfRange),
    ),
    (
        "none past the end",
        [0x28000000, 0x08010000, 0, 0],
        Data::Silent,
        Plan::Refuse(Sense::OutOfRange),
    ),
    (
        "block 2^64 - 1",
        [0x8800ffff, 0xffffffff, 0xffff0000, 0x00010000],
        Data::Reads(512),
        Plan::Refuse(Sense::OutOfRange),
    ),
    ("WRITE", WRITE_8, Data::Writes(4096), Plan::Take(4096)),
    (
        "WRITE of another length",
        WRITE_8,
        Data::Writes(4095),
        Plan::Refuse(Sense::InvalidField),
    ),
    (
        "WRITE without data",
        WRITE_8,
        Data::Neither(4096),
        Plan::Refuse(Sense::InvalidField),
    ),
    (
        "WRITE past the end",
        [0x2a000000, 0x07ff0000, 0x02000000, 0],
        Data::Writes(1024),
        Plan::Refuse(Sense::OutOfRange),
    ),
    (
        "WRITE of none",
        [0x2a000000, 0x08000000, 0, 0],
        Data::Silent,
        Plan::Take(0),
    ),
    (
        "WRITE of none, W=1",
        [0x2a000000, 0x08000000, 0, 0],
        Data::Writes(0),
        Plan::Take(0),
    ),
    (
        "WRITE of none with data",
        [0x2a000000, 0x08000000, 0, 0],
        Data::Writes(512),
        Plan::Refuse(Sense::InvalidField),
    ),
    (
        "SYNCHRONIZE CACHE of all blocks",
        [0x35060000, 0, 0, 0],
        Data::Silent,
        Plan::Give(0),
    ),
    (
        "SYNCHRONIZE CACHE of each block",
        [0x35000000, 0x00000008, 0, 0],
        Data::Reads(512),
        Plan::Give(0),
    ),
    (
        "SYNCHRONIZE CACHE at the end",
        [0x35000000, 0x08000000, 0, 0],
        Data::Silent,
        Plan::Give(0),
    ),
    (
        "SYNCHRONIZE CACHE behind the end",
        [0x35000000, 0x08010000, 0, 0],
        Data::Silent,
        Plan::Refuse(Sense::OutOfRange),
    ),
    (
        "SYNCHRONIZE CACHE over the end",
        [0x35000000, 0x07ff0000, 0x02000000, 0],
        Data::Silent,
        Plan::Refuse(Sense::OutOfRange),
    ),
    (
        "SYNCHRONIZE CACHE of 8,193 blocks",
        [0x35000000, 0x00000020, 0x01000000, 0],
        Data::Silent,
        Plan::Refuse(Sense::OutOfRange),
    ),
    (
        "data for SYNCHRONIZE CACHE",
        [0x35000000, 0, 0, 0],
        Data::Writes(512),
        Plan::Refuse(Sense::InvalidField),
    ),
    (
        "data both ways for SYNCHRONIZE CACHE behind the end",
        [0x35000000, 0x08010000, 0, 0],
        Data::Both(512),
        Plan::Refuse(Sense::InvalidField),
    ),
];

/// Commands to unit 1.
const PLANS_ELSEWHERE: &[(&str, [u32; 4], Data, Plan)] = &[
    (
        "SYNCHRONIZE CACHE of unit 1",
        [0x35000000, 0x08010000, 0, 0],
        Data::Silent,
        Plan::Refuse(Sense::NoUnit),
    ),
    (
        "unknown code at unit 1",
        [0x34000000, 0, 0, 0],
        Data::Silent,
        Plan::Refuse(Sense::InvalidCode),
    ),
    (
        "standard data of unit 1",
        INQUIRY,
        Data::Reads(36),
        Plan::Give(36),
    ),
    (
        "page of unit 1",
        [0x12010000, 0xff000000, 0, 0],
        Data::Reads(255),
        Plan::Refuse(Sense::NoUnit),
    ),
    (
        "READ at unit 1",
        READ_8,
        Data::Reads(4096),
        Plan::Refuse(Sense::NoUnit),
    ),
];

fn check_plan(rt: &impl Abort, order: &Order, want: &Plan, name: &str) {
    same(rt, &plan(order, 2048), want, &name);
}

#[test]
fn plans(rt: HostRuntime) {
    for (name, words, data, want) in PLANS {
        check_plan(&rt, &order_of(*words, *data), want, name);
    }
    for (name, words, data, want) in PLANS_ELSEWHERE {
        check_plan(&rt, &elsewhere(order_of(*words, *data)), want, name);
    }
}

/// A command, and what it gives: the sense, bytes and the residual.
type Row = (
    &'static str,
    [u32; 4],
    Data,
    Option<Sense>,
    &'static [u8],
    Residual,
);

/// Commands to unit 0 of 2,048 blocks of 00: the sense, the bytes and the residual that they give.
const OUTCOMES: &[Row] = &[
    (
        "short INQUIRY",
        [0x12000000, 0x05000000, 0, 0],
        Data::Reads(36),
        None,
        b"\x00\x00\x06\x12\x1f",
        Residual::Under(31),
    ),
    (
        "serial number",
        [0x12018000, 0xff000000, 0, 0],
        Data::Reads(8),
        None,
        b"\x00\x80\x00\x080000",
        Residual::Over(4),
    ),
    (
        "READ CAPACITY(10)",
        [0x25000000, 0, 0, 0],
        Data::Reads(8),
        None,
        b"\x00\x00\x07\xff\x00\x00\x02\x00",
        Residual::Exact,
    ),
    (
        "READ CAPACITY(16) of 12 bytes",
        [0x9e100000, 0, 0x00000000, 0x000c0000],
        Data::Reads(32),
        None,
        b"\x00\x00\x00\x00\x00\x00\x07\xff\x00\x00\x02\x00",
        Residual::Under(20),
    ),
    (
        "REPORT LUNS 0",
        [0xa0000000, 0, 0x00100000, 0],
        Data::Reads(16),
        None,
        b"\x00\x00\x00\x08\x00\x00\x00\x00\x00\x00\x00\x00\x00\x00\x00\x00",
        Residual::Exact,
    ),
    (
        "REPORT LUNS 1",
        [0xa0000100, 0, 0x00100000, 0],
        Data::Reads(16),
        None,
        b"\x00\x00\x00\x00\x00\x00\x00\x00",
        Residual::Under(8),
    ),
    (
        "READ of more than is expected",
        [0x28000000, 0, 0x02000000, 0],
        Data::Reads(4),
        None,
        b"\x00\x00\x00\x00",
        Residual::Over(1020),
    ),
    (
        "TEST UNIT READY",
        [0, 0, 0, 0],
        Data::Silent,
        None,
        b"",
        Residual::Exact,
    ),
    (
        "two at the last block",
        [0x28000000, 0x07ff0000, 0x02000000, 0],
        Data::Reads(1024),
        Some(Sense::OutOfRange),
        b"",
        Residual::Under(1024),
    ),
    (
        "data for TEST UNIT READY",
        [0, 0, 0, 0],
        Data::Writes(512),
        Some(Sense::InvalidField),
        b"",
        Residual::Exact,
    ),
    (
        "data for an unknown code",
        [0x34000000, 0, 0, 0],
        Data::Writes(512),
        Some(Sense::InvalidCode),
        b"",
        Residual::Under(512),
    ),
    (
        "WRITE of none that expects data",
        [0x2a000000, 0, 0, 0],
        Data::Neither(512),
        Some(Sense::InvalidField),
        b"",
        Residual::Exact,
    ),
];

/// What a command gave beside its data: GOOD, or CHECK CONDITION with this sense.
fn check_status(
    rt: &impl Abort,
    name: &str,
    outcome: &Outcome,
    sense: Option<Sense>,
    residual: Residual,
) {
    let status = if sense.is_none() { 0x00 } else { 0x02 };
    same(rt, &outcome.status, &status, &name);
    same(rt, &outcome.sense, &sense, &name);
    same(rt, &outcome.residual, &residual, &name);
}

/// What a command gave, with its data.
fn check_outcome(
    rt: &impl Abort,
    name: &str,
    outcome: &Outcome,
    sense: Option<Sense>,
    bytes: &[u8],
    residual: Residual,
) {
    check_status(rt, name, outcome, sense, residual);
    same(rt, &outcome.bytes.as_slice(), &bytes, &name);
}

/// Executes the command of a row, and asserts what it gives.
fn check_row(rt: &impl Abort, alloc: Global, row: &Row, store: &mut MemoryStore) {
    let (name, words, data, sense, bytes, residual) = *row;
    let outcome = run(rt, alloc, &order_of(words, data), &[], store);
    check_outcome(rt, name, &outcome, sense, bytes, residual);
}

#[test]
fn outcomes(rt: HostRuntime) {
    let mut store = MemoryStore::new(rt.alloc(), 2048).expect(&rt, "a disk");
    for row in OUTCOMES {
        check_row(&rt, rt.alloc(), row, &mut store);
    }
}

#[test]
fn standard_data_of_unit_1(rt: HostRuntime) {
    let mut store = MemoryStore::new(rt.alloc(), 2048).expect(&rt, "a disk");
    let order = elsewhere(order([0x12000000, 0x05000000, 0, 0], true, false, 5));
    let outcome = run(&rt, rt.alloc(), &order, &[], &mut store);
    let bytes = b"\x7f\x00\x06\x12\x1f";
    check_outcome(&rt, "INQUIRY", &outcome, None, bytes, Residual::Exact);
}

/// Asserts that each order takes the bytes beside it.
fn check_supplied(rt: &impl Abort, orders: &[(Order, Bytes)], blocks: u64)
    ensures { AreSupplied blocks orders.now }
{
    for (order, bytes) in orders {
        let supplied = is_supplied(order, bytes.as_slice(), blocks);
        assert!(rt; supplied);
    }
}

/// Commands that are run one after another, and what each gives: the sense, of which byte each of its
/// blocks is, and the residual. A WRITE has bytes of 5a.
type Rows = &'static [Row];

/// A write of two blocks on an end of an extent, and reads over it, at the end and past it, on 130
/// blocks of 00.
const OVER_AN_EXTENT: Rows = &[
    (
        "WRITE of two at 63",
        [0x2a000000, 0x003f0000, 0x02000000, 0],
        Data::Writes(1024),
        None,
        &[],
        Residual::Exact,
    ),
    (
        "READ of four at 62",
        [0x28000000, 0x003e0000, 0x04000000, 0],
        Data::Reads(2048),
        None,
        &[0x00, 0x5a, 0x5a, 0x00],
        Residual::Exact,
    ),
    (
        "last block",
        [0x28000000, 0x00810000, 0x01000000, 0],
        Data::Reads(512),
        None,
        &[0x00],
        Residual::Exact,
    ),
    (
        "two at the last block",
        [0x28000000, 0x00810000, 0x02000000, 0],
        Data::Reads(1024),
        Some(Sense::OutOfRange),
        &[],
        Residual::Under(1024),
    ),
];

/// A write of the last block of 2^40, and reads over it, at the end and past it.
const AT_THE_LAST_OF_MOST: Rows = &[
    (
        "WRITE of the last block",
        [0x8a000000, 0x00ffffff, 0xffff0000, 0x00010000],
        Data::Writes(512),
        None,
        &[],
        Residual::Exact,
    ),
    (
        "READ of the last two",
        [0x88000000, 0x00ffffff, 0xfffe0000, 0x00020000],
        Data::Reads(1024),
        None,
        &[0x00, 0x5a],
        Residual::Exact,
    ),
    (
        "two at the last block",
        [0x88000000, 0x00ffffff, 0xffff0000, 0x00020000],
        Data::Reads(1024),
        Some(Sense::OutOfRange),
        &[],
        Residual::Under(1024),
    ),
    (
        "WRITE of two at the last block",
        [0x8a000000, 0x00ffffff, 0xffff0000, 0x00020000],
        Data::Writes(1024),
        Some(Sense::OutOfRange),
        &[],
        Residual::Under(1024),
    ),
    (
        "none at the end",
        [0x88000000, 0x01000000, 0, 0],
        Data::Silent,
        None,
        &[],
        Residual::Exact,
    ),
    (
        "one at the end",
        [0x88000000, 0x01000000, 0, 0x00010000],
        Data::Reads(512),
        Some(Sense::OutOfRange),
        &[],
        Residual::Under(512),
    ),
    (
        "SYNCHRONIZE CACHE of 65,535 at 2^32 - 1",
        [0x3500ffff, 0xffff00ff, 0xff000000, 0],
        Data::Silent,
        None,
        &[],
        Residual::Exact,
    ),
    (
        "SYNCHRONIZE CACHE of all blocks",
        [0x35000000, 0, 0, 0],
        Data::Silent,
        None,
        &[],
        Residual::Exact,
    ),
    (
        "READ of the last block, after the flushes",
        [0x88000000, 0x00ffffff, 0xffff0000, 0x00010000],
        Data::Reads(512),
        None,
        &[0x5a],
        Residual::Exact,
    ),
];

/// Two equal reads, of which the first fails.
const FAILING_READ: Rows = &[
    (
        "READ that fails",
        [0x28000000, 0, 0x02000000, 0],
        Data::Reads(1024),
        Some(Sense::ReadError),
        &[],
        Residual::Under(1024),
    ),
    (
        "the same again",
        [0x28000000, 0, 0x02000000, 0],
        Data::Reads(1024),
        None,
        &[0x00, 0x00],
        Residual::Exact,
    ),
];

/// Two equal writes, of which the first fails behind its first block.
const FAILING_WRITE: Rows = &[
    (
        "TEST UNIT READY",
        [0, 0, 0, 0],
        Data::Silent,
        None,
        &[],
        Residual::Exact,
    ),
    (
        "WRITE that fails",
        [0x2a000000, 0x00010000, 0x02000000, 0],
        Data::Writes(1024),
        Some(Sense::WriteError),
        &[],
        Residual::Under(1024),
    ),
    (
        "READ of what it left",
        [0x28000000, 0, 0x04000000, 0],
        Data::Reads(2048),
        None,
        &[0x00, 0x5a, 0x00, 0x00],
        Residual::Exact,
    ),
    (
        "the same WRITE",
        [0x2a000000, 0x00010000, 0x02000000, 0],
        Data::Writes(1024),
        None,
        &[],
        Residual::Exact,
    ),
    (
        "the same READ",
        [0x28000000, 0, 0x04000000, 0],
        Data::Reads(2048),
        None,
        &[0x00, 0x5a, 0x5a, 0x00],
        Residual::Exact,
    ),
];

/// The bytes that a command takes.
fn bytes_for(alloc: Global, data: Data) -> Result<Bytes, AllocError> {
    let bytes = match data {
        Data::Writes(length) => vec![in alloc; 0x5au8; length as usize]?,
        Data::Silent | Data::Reads(_) | Data::Both(_) | Data::Neither(_) => Vec::new(alloc),
    };
    Ok(Bytes::from_vec(bytes))
}

/// The orders of some rows.
fn orders_of(alloc: Global, rows: Rows) -> Result<Vec<(Order, Bytes)>, AllocError> {
    let mut orders = Vec::new(alloc);
    for (_, words, data, _, _, _) in rows {
        orders.push((order_of(*words, *data), bytes_for(alloc, *data)?))?;
    }
    Ok(orders)
}

/// Asserts that bytes are all this one.
fn check_fill(rt: &impl Abort, bytes: &[u8], want: u8, row: &impl Debug) {
    for byte in bytes {
        same(rt, byte, &want, row);
    }
}

/// Asserts that blocks are each of one byte alone.
fn check_blocks(rt: &impl Abort, name: &str, bytes: &[u8], fills: &[u8]) {
    same(rt, &(bytes.len() / 512), &fills.len(), &name);
    for (i, block) in bytes.chunks(512).enumerate() {
        check_fill(rt, block, *fills.get(i).expect(rt, name), &name);
    }
}

/// What a command gave, with data of whole blocks.
fn check_run(
    rt: &impl Abort,
    name: &str,
    outcome: &Outcome,
    sense: Option<Sense>,
    fills: &[u8],
    residual: Residual,
) {
    check_status(rt, name, outcome, sense, residual);
    check_blocks(rt, name, outcome.bytes.as_slice(), fills);
}

/// What the command of a row gave.
fn check_told(rt: &impl Abort, row: &Row, outcome: &Outcome) {
    let (name, _, _, sense, fills, residual) = *row;
    check_run(rt, name, outcome, sense, fills, residual);
}

/// Asserts that each command of some rows gave what is due.
fn check_all(rt: &impl Abort, rows: Rows, told: &[Outcome]) {
    same(rt, &told.len(), &rows.len(), &"outcomes");
    for (i, outcome) in told.iter().enumerate() {
        check_told(rt, rows.get(i).expect(rt, "a row"), outcome);
    }
}

/// Runs the commands of some rows, and asserts that each gives what is due.
fn check_rows<S: BlockStore>(rt: &impl Abort, alloc: Global, rows: Rows, store: &mut S) {
    let orders = orders_of(alloc, rows).expect(rt, "orders");
    check_supplied(rt, &orders, store.blocks());
    let told = run_orders(alloc, &orders, store).expect(rt, "memory");
    check_all(rt, rows, &told);
}

#[test]
fn either_store(rt: HostRuntime) {
    let mut memory = MemoryStore::new(rt.alloc(), 130).expect(&rt, "a disk");
    check_rows(&rt, rt.alloc(), OVER_AN_EXTENT, &mut memory);
    let mut sparse = SparseStore::new(rt.alloc(), 130);
    check_rows(&rt, rt.alloc(), OVER_AN_EXTENT, &mut sparse);
}

/// Commands to a disk of 130 blocks that is read alone, of which block 63 is of 11.
const READ_ALONE: Rows = &[
    (
        "WRITE of two at 63",
        [0x2a000000, 0x003f0000, 0x02000000, 0],
        Data::Writes(1024),
        Some(Sense::WriteProtected),
        &[],
        Residual::Under(1024),
    ),
    (
        "WRITE past the end, which is refused for that",
        [0x2a000000, 0x00820000, 0x01000000, 0],
        Data::Writes(512),
        Some(Sense::OutOfRange),
        &[],
        Residual::Under(512),
    ),
    (
        "SYNCHRONIZE CACHE",
        [0x35000000, 0, 0, 0],
        Data::Silent,
        None,
        &[],
        Residual::Exact,
    ),
    (
        "READ of three at 62",
        [0x28000000, 0x003e0000, 0x03000000, 0],
        Data::Reads(1536),
        None,
        &[0x00, 0x11, 0x00],
        Residual::Exact,
    ),
];

#[test]
fn a_disk_that_is_read_alone(rt: HostRuntime) {
    let mut memory = MemoryStore::new(rt.alloc(), 130).expect(&rt, "a disk");
    memory.write(63, &[0x11; 512]).expect(&rt, "a write");
    let mut store = ReadOnly::new(memory);
    assert!(rt; store.write(63, &[0x5a; 512]).is_err());
    check_rows(&rt, rt.alloc(), READ_ALONE, &mut store);
    same(&rt, &store.failures(), &0, &"failures");
}

/// A WRITE of the same block to blocks 2 to 9.
const SAME_8: [u32; 4] = [0x2a000000, 0x00020000, 0x08000000, 0];

/// An order of the data of one block for each of its blocks, with so many bytes.
fn same_order(words: [u32; 4], data: Data) -> Order {
    Order {
        deed: Deed::Same,
        ..order_of(words, data)
    }
}

/// Plans of such orders, on a disk of 2,048 blocks.
const SAME_PLANS: &[(&str, [u32; 4], Data, Plan)] = &[
    ("one block", SAME_8, Data::Writes(512), Plan::Take(512)),
    (
        "all blocks",
        SAME_8,
        Data::Writes(4096),
        Plan::Refuse(Sense::InvalidField),
    ),
    (
        "not sent",
        SAME_8,
        Data::Neither(512),
        Plan::Refuse(Sense::InvalidField),
    ),
    (
        "past the end",
        [0x2a000000, 0x07f90000, 0x08000000, 0],
        Data::Writes(512),
        Plan::Refuse(Sense::OutOfRange),
    ),
    (
        "a READ is as ever",
        READ_8,
        Data::Reads(4096),
        Plan::Give(4096),
    ),
];

#[test]
fn plans_of_the_same_data(rt: HostRuntime) {
    for (name, words, data, want) in SAME_PLANS {
        same(&rt, &plan(&same_order(*words, *data), 2048), want, name);
    }
}

#[test]
fn the_same_data_in_each_block(rt: HostRuntime) {
    let mut store = SparseStore::new(rt.alloc(), 16);
    let order = same_order(SAME_8, Data::Writes(512));
    let outcome = run(&rt, rt.alloc(), &order, &[0x5a; 512], &mut store);
    check_outcome(&rt, "written", &outcome, None, b"", Residual::Exact);
    for block in 0..16 {
        let due = if (2..10).contains(&block) { 0x5a } else { 0 };
        check_block(&rt, &mut store, block, due);
    }
    let mut protected = ReadOnly::new(store);
    let outcome = run(&rt, rt.alloc(), &order, &[0; 512], &mut protected);
    let sense = Some(Sense::WriteProtected);
    check_outcome(&rt, "refused", &outcome, sense, b"", Residual::Under(512));
}

/// The largest disk keeps what was written alone.
#[test]
fn the_largest_disk(rt: HostRuntime) {
    let mut store = SparseStore::new(rt.alloc(), MOST_BLOCKS);
    same(&rt, &store.blocks(), &1_099_511_627_776, &"blocks");
    check_rows(&rt, rt.alloc(), AT_THE_LAST_OF_MOST, &mut store);
}

/// A disk of 8 blocks, of which the first call of those that can fail does.
fn failing_disk(rt: &impl Abort, alloc: Global) -> FailAt {
    FailAt::new(MemoryStore::new(alloc, 8).expect(rt, "a disk"), 0)
}

fn check_failing(rt: &impl Abort, alloc: Global, rows: Rows) {
    let mut store = failing_disk(rt, alloc);
    check_rows(rt, alloc, rows, &mut store);
    same(rt, &store.failures(), &1, &"failures");
}

#[test]
fn orders_behind_a_failure(rt: HostRuntime) {
    check_failing(&rt, rt.alloc(), FAILING_READ);
    check_failing(&rt, rt.alloc(), FAILING_WRITE);
}

/// Where blocks begin, and how many there are: none, some in one extent, over two, and all.
const RUNS: &[(u64, u32)] = &[(130, 0), (60, 2), (62, 4), (129, 1), (0, 130)];

/// Asserts that bytes are those of blocks from this one on, of which 63 and 64 are of 5a.
fn check_fills(rt: &impl Abort, lba: u64, bytes: &[u8]) {
    for (i, block) in bytes.chunks(512).enumerate() {
        let n = lba.saturating_add(i as u64);
        let want = if n == 63 || n == 64 { 0x5a } else { 0x00 };
        check_fill(rt, block, want, &n);
    }
}

/// Asserts that a run of blocks is appended behind what is there.
fn check_run_of<S: BlockStore>(
    rt: &impl Abort,
    alloc: Global,
    store: &mut S,
    lba: u64,
    count: u32,
) {
    assert!(rt; lba < 200 && count < 200 && lba + u64::from(count) <= store.blocks());
    let mut out = Vec::from_slice(alloc, b"before").expect(rt, "six bytes");
    let appended = store.read_onto(lba, count, &mut out);
    let len = if appended.is_ok() {
        512 * count as usize
    } else {
        0
    };
    same(rt, &out.len(), &(6 + len), &lba);
    same(rt, &out.starts_with(b"before"), &true, &lba);
    check_fills(rt, lba, out.get(6..).unwrap_or_default());
    appended.expect(rt, "blocks");
}

/// Asserts that runs of blocks are appended behind what is there. Blocks 63 and 64 are of 5a.
fn check_appended<S: BlockStore>(rt: &impl Abort, alloc: Global, store: &mut S) {
    for (lba, count) in RUNS {
        check_run_of(rt, alloc, store, *lba, *count);
    }
}

#[test]
fn appended_blocks(rt: HostRuntime) {
    let mut memory = MemoryStore::new(rt.alloc(), 130).expect(&rt, "a disk");
    memory.write(63, &[0x5a; 1024]).expect(&rt, "a write");
    check_appended(&rt, rt.alloc(), &mut memory);
    let mut sparse = SparseStore::new(rt.alloc(), 130);
    sparse.write(63, &[0x5a; 1024]).expect(&rt, "a write");
    check_appended(&rt, rt.alloc(), &mut sparse);
}

#[test]
fn a_failing_read_of_appended_blocks(rt: HostRuntime) {
    let mut store = FailAt::new(MemoryStore::new(rt.alloc(), 8).expect(&rt, "a disk"), 0);
    let mut out = Vec::from_slice(rt.alloc(), b"before").expect(&rt, "six bytes");
    out.reserve(4096).expect(&rt, "room");
    let first = store.read_onto(0, 8, &mut out);
    same(&rt, &first, &Err(StoreFault::Device), &"first");
    same(&rt, &out.as_slice(), &b"before".as_slice(), &"first");
    same(&rt, &store.failures(), &1, &"failures");
    let second = store.read_onto(0, 8, &mut out);
    same(&rt, &second, &Ok(()), &"second");
    same(&rt, &out.len(), &4102, &"second");
    same(&rt, &store.failures(), &1, &"failures");
}

/// Commands to unit 0 with 2,048 blocks, and the whole blocks that they give.
const WHOLE: &[(&str, [u32; 4], Data, Option<(u64, u32)>)] = &[
    (
        "as many as are expected",
        READ_8,
        Data::Reads(4096),
        Some((0, 8)),
    ),
    (
        "fewer are expected",
        READ_8,
        Data::Reads(1536),
        Some((0, 3)),
    ),
    (
        "a part of a block is expected",
        READ_8,
        Data::Reads(1537),
        None,
    ),
    ("more are expected", READ_8, Data::Reads(8192), Some((0, 8))),
    (
        "none are named",
        [0x28000000, 0x00050000, 0, 0],
        Data::Reads(512),
        Some((5, 0)),
    ),
    (
        "from the last but one on, with 64-bit numbers",
        [0x88000000, 0, 0x07fe0000, 0x00020000],
        Data::Reads(1024),
        Some((2046, 2)),
    ),
    (
        "past the end",
        [0x28000000, 0x08000000, 0x01000000, 0],
        Data::Reads(512),
        None,
    ),
    ("no READ", INQUIRY, Data::Reads(36), None),
    ("a WRITE", WRITE_8, Data::Writes(4096), None),
];

/// A range of blocks by its first and their count.
fn range_of(range: &Option<(u64, u32)>) -> Option<BlockRange> {
    let (first, count) = (*range)?;
    Some(BlockRange { first, count })
}

fn check_whole(rt: &impl Abort, order: &Order, want: &Option<(u64, u32)>, name: &str) {
    let found = Found::of(order, 2048).whole_blocks(order);
    same(rt, &found, &range_of(want), &name);
}

#[test]
fn whole_blocks_of_reads(rt: HostRuntime) {
    for (name, words, data, want) in WHOLE {
        check_whole(&rt, &order_of(*words, *data), want, name);
    }
}

#[test]
fn outcomes_of_read_blocks(rt: HostRuntime) {
    let order = order_of(READ_8, Data::Reads(8192));
    let found = Found::of(&order, 2048);
    let Some(_) = found.whole_blocks(&order) else {
        panic!(&rt; "a read of 8 blocks gives whole ones")
    };
    let done = found.read_outcome(rt.alloc(), &order);
    check_outcome(&rt, "read", &done, None, b"", Residual::Under(4096));
    let failed = failed_read(rt.alloc(), &order, StoreFault::Device).expect(&rt, "an outcome");
    let sense = Some(Sense::ReadError);
    check_outcome(&rt, "failed", &failed, sense, b"", Residual::Under(8192));
    let refused = failed_read(rt.alloc(), &order, StoreFault::NoMemory);
    same(&rt, &refused.err(), &Some(AllocError), &"out of memory");
}

/// Asserts that a block is of one byte alone.
fn check_block<S: BlockStore>(rt: &impl Abort, store: &mut S, lba: u64, want: u8) {
    assert!(rt; lba < store.blocks());
    let mut block = [0xff; 512];
    same(rt, &store.read(lba, &mut block), &Ok(()), &lba);
    check_fill(rt, &block, want, &lba);
}

/// Blocks, and whether they are among those that are written.
const AROUND: &[(u64, bool)] = &[
    (0, false),
    (62, false),
    (63, true),
    (64, true),
    (65, false),
    (129, false),
];

/// Asserts that blocks 63 and 64 are of one byte alone, and the ones around them of 00.
fn check_around(rt: &impl Abort, store: &mut SparseStore, byte: u8) {
    for (lba, is_written) in AROUND {
        check_block(rt, store, *lba, if *is_written { byte } else { 0 });
    }
}

#[test]
fn sparse_store(rt: HostRuntime) {
    let mut store = SparseStore::new(rt.alloc(), 130);
    let written = store.write(63, &[0x5a; 1024]);
    // Where memory runs out, also for the second extent alone, no block has changed.
    check_around(&rt, &mut store, if written.is_ok() { 0x5a } else { 0x00 });
    assert_ne!(rt; written, Err(StoreFault::Device));
    same(&rt, &store.failures(), &0, &"failures");
    written.expect(&rt, "a write");
}

/// Writes to 130 blocks, one after another: the first block, how many, and the byte of which they are.
/// Some leave an extent of 00 alone, and one writes to it again.
const OVER_ZEROS: &[(u64, usize, u8)] = &[
    (62, 4, 0x5a),
    (63, 1, 0x00),
    (62, 1, 0x00),
    (0, 3, 0x00),
    (65, 1, 0x00),
    (61, 1, 0x11),
    (60, 4, 0x00),
    (128, 2, 0x00),
];

/// Blocks, and the byte of which each is after these writes.
const BEHIND_ZEROS: &[(u64, u8)] = &[
    (0, 0x00),
    (61, 0x00),
    (62, 0x00),
    (63, 0x00),
    (64, 0x5a),
    (65, 0x00),
    (129, 0x00),
];

/// Writes blocks of one byte alone.
fn write_fill(rt: &impl Abort, alloc: Global, store: &mut SparseStore, row: &(u64, usize, u8)) {
    let (lba, count, fill) = *row;
    assert!(rt; lba < 130 && count <= 130 && lba + count as u64 <= store.blocks());
    let bytes = vec![in alloc; fill; 512 * count].expect(rt, "bytes");
    same(rt, &store.write(lba, &bytes), &Ok(()), row);
}

#[test]
fn zeros_in_a_sparse_store(rt: HostRuntime) {
    let mut store = SparseStore::new(rt.alloc(), 130);
    for row in OVER_ZEROS {
        write_fill(&rt, rt.alloc(), &mut store, row);
    }
    for (lba, fill) in BEHIND_ZEROS {
        check_block(&rt, &mut store, *lba, *fill);
    }
    // Of the three extents, the second alone has another byte than 00.
    assert!(rt; store.blocks() == 130);
    same(&rt, &store.extents_with(0, &[]), &1, &"kept");
    same(&rt, &store.extents_with(63, &[0x5a; 1024]), &2, &"one more");
    same(&rt, &store.extents_with(63, &[0x00; 1024]), &1, &"no more");
}

/// Blocks of 00, to extents that aren't there.
#[test]
fn zeros_take_no_memory(rt: HostRuntime) {
    let mut store = SparseStore::new(rt.alloc(), 130);
    same(&rt, &store.write(63, &[0; 1024]), &Ok(()), &"written");
    check_around(&rt, &mut store, 0x00);
}

#[test]
fn a_failing_read(rt: HostRuntime) {
    let mut store = failing_disk(&rt, rt.alloc());
    let order = order([0x28000000, 0, 0x01000000, 0], true, false, 512);
    let first = run(&rt, rt.alloc(), &order, &[], &mut store);
    let sense = Some(Sense::ReadError);
    check_outcome(&rt, "first", &first, sense, b"", Residual::Under(512));
    same(&rt, &store.failures(), &1, &"failures");
    let second = run(&rt, rt.alloc(), &order, &[], &mut store);
    check_outcome(&rt, "second", &second, None, &[0x00; 512], Residual::Exact);
    same(&rt, &store.failures(), &1, &"failures");
}

/// Blocks, and the byte of which each is after the first write and after the second.
const WRITTEN: &[(u64, u8, u8)] = &[(0, 0, 0), (1, 0x5a, 0x5a), (2, 0, 0x5a), (3, 0, 0)];

#[test]
fn a_failing_write(rt: HostRuntime) {
    let mut store = failing_disk(&rt, rt.alloc());
    let order = order([0x2a000000, 0x00010000, 0x02000000, 0], false, true, 1024);
    let first = run(&rt, rt.alloc(), &order, &[0x5a; 1024], &mut store);
    let sense = Some(Sense::WriteError);
    check_outcome(&rt, "first", &first, sense, b"", Residual::Under(1024));
    for (lba, byte, _) in WRITTEN {
        check_block(&rt, &mut store, *lba, *byte);
    }
    let second = run(&rt, rt.alloc(), &order, &[0x5a; 1024], &mut store);
    check_outcome(&rt, "second", &second, None, b"", Residual::Exact);
    for (lba, _, byte) in WRITTEN {
        check_block(&rt, &mut store, *lba, *byte);
    }
}
