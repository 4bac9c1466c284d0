//! Blocks and data whose bytes were worked out by hand from the tables of SPC-4 and SBC-3. One
//! file, since it is tables of rows.

use scsi_cdb::{
    Bytes, Cdb, Sense, Synchronize10, Transfer10, Transfer16, capacity10, capacity16,
    inquiry_bytes, report_luns, vpd_bytes,
};
use std::fmt::Debug;
use std::process::Abort;
use std::test::Fail;

/// Asserts that a value is the one that is due, in a row of which this tells.
fn same<T: PartialEq + Debug>(rt: &impl Abort, value: &T, due: &T, row: &impl Debug) {
    assert!(rt; *value == *due, "{row:?}: {value:?} is not {due:?}");
}

/// The descriptor block of which these are the words.
fn block(words: [u32; 4]) -> [u8; 16] {
    let mut bytes = [0; 16];
    for (i, word) in words.iter().enumerate() {
        bytes[4 * i..4 * i + 4].copy_from_slice(&word.to_be_bytes());
    }
    bytes
}

/// What comes, the record, and what is written for it.
type Row = ([u32; 4], Cdb, [u32; 4]);

const BLOCKS: &[Row] = &[
    (
        [0x00ffffff, 0xff04ffff, 0xffffffff, 0xffffffff],
        Cdb::TestUnitReady { control: 4 },
        [0x00000000, 0x00040000, 0, 0],
    ),
    (
        [0x12ff8301, 0x0204ffff, 0xffffffff, 0xffffffff],
        Cdb::Inquiry {
            evpd: true,
            page: 0x83,
            allocation_length: 0x0102,
            control: 4,
        },
        [0x12018301, 0x02040000, 0, 0],
    ),
    (
        [0x12fe0000, 0x24000000, 0, 0],
        Cdb::Inquiry {
            evpd: false,
            page: 0,
            allocation_length: 36,
            control: 0,
        },
        [0x12000000, 0x24000000, 0, 0],
    ),
    (
        [0x25ffffff, 0xffffffff, 0xff04ffff, 0xffffffff],
        Cdb::Capacity10 { control: 4 },
        [0x25000000, 0, 0x00040000, 0],
    ),
    (
        [0x28000000, 0x0000ff00, 0x01001122, 0x33445566],
        Cdb::Read10(Transfer10 {
            options: 0,
            logical_block_address: 0,
            group_number: 31,
            blocks: 1,
            control: 0,
        }),
        [0x28000000, 0x00001f00, 0x01000000, 0],
    ),
    (
        [0x2afb0102, 0x0304e105, 0x0607ffff, 0xffffffff],
        Cdb::Write10(Transfer10 {
            options: 0xfb,
            logical_block_address: 0x01020304,
            group_number: 1,
            blocks: 0x0506,
            control: 7,
        }),
        [0x2afb0102, 0x03040105, 0x06070000, 0],
    ),
    (
        [0x88fb0102, 0x03040506, 0x0708090a, 0x0b0cff0d],
        Cdb::Read16(Transfer16 {
            options: 0xfb,
            logical_block_address: 0x0102030405060708,
            blocks: 0x090a0b0c,
            group_number: 31,
            control: 13,
        }),
        [0x88fb0102, 0x03040506, 0x0708090a, 0x0b0c1f0d],
    ),
    (
        [0x8a000000, 0, 0xffff0000, 0x0001e000],
        Cdb::Write16(Transfer16 {
            options: 0,
            logical_block_address: 0xffff,
            blocks: 1,
            group_number: 0,
            control: 0,
        }),
        [0x8a000000, 0, 0xffff0000, 0x00010000],
    ),
    (
        [0x9ef00102, 0x03040506, 0x07080000, 0x00200e0f],
        Cdb::Capacity16 {
            allocation_length: 32,
            control: 15,
        },
        [0x9e100000, 0, 0, 0x0020000f],
    ),
    (
        [0xa0ff02ff, 0xffff0102, 0x0304ff05, 0xffffffff],
        Cdb::ReportLuns {
            select: 2,
            allocation_length: 0x01020304,
            control: 5,
        },
        [0xa0000200, 0x00000102, 0x03040005, 0],
    ),
    (
        [0x9ef10102, 0x03040506, 0x0708090a, 0x0b0c0d0e],
        Cdb::Unknown([
            0x9e, 0xf1, 0x01, 0x02, 0x03, 0x04, 0x05, 0x06, 0x07, 0x08, 0x09, 0x0a, 0x0b, 0x0c,
            0x0d, 0x0e,
        ]),
        [0x9ef10102, 0x03040506, 0x0708090a, 0x0b0c0d0e],
    ),
    (
        [0x35ff0000, 0, 0x08001122, 0x33445566],
        Cdb::SyncCache10(Synchronize10 {
            options: 3,
            logical_block_address: 0,
            group_number: 0,
            blocks: 8,
            control: 0,
        }),
        [0x35060000, 0, 0x08000000, 0],
    ),
    (
        [0x35fb0102, 0x0304e506, 0x0708ffff, 0xffffffff],
        Cdb::SyncCache10(Synchronize10 {
            options: 1,
            logical_block_address: 0x01020304,
            group_number: 5,
            blocks: 0x0607,
            control: 8,
        }),
        [0x35020102, 0x03040506, 0x07080000, 0],
    ),
    (
        [0x34ffffff, 0xffffffff, 0xffffffff, 0xffffffff],
        Cdb::Unknown([
            0x34, 0xff, 0xff, 0xff, 0xff, 0xff, 0xff, 0xff, 0xff, 0xff, 0xff, 0xff, 0xff, 0xff,
            0xff, 0xff,
        ]),
        [0x34ffffff, 0xffffffff, 0xffffffff, 0xffffffff],
    ),
];

fn check_block(rt: &impl Abort, row: &Row, i: usize) {
    let read = Cdb::read(&block(row.0));
    same(rt, &read, &row.1, &i);
    same(rt, &read.write(), &block(row.2), &i);
}

#[test]
fn descriptor_blocks(rt: HostRuntime) {
    for (i, row) in BLOCKS.iter().enumerate() {
        check_block(&rt, row, i);
    }
}

/// Each record: its code, with the service action where it has one, and the bits of its fields. All other bits
/// behind the code are free.
const FIELDS: &[([u32; 4], [u32; 4])] = &[
    // TEST UNIT READY
    ([0x00000000, 0, 0, 0], [0, 0x00ff0000, 0, 0]),
    // INQUIRY
    ([0x12000000, 0, 0, 0], [0x0001ffff, 0xffff0000, 0, 0]),
    // READ CAPACITY(10)
    ([0x25000000, 0, 0, 0], [0, 0, 0x00ff0000, 0]),
    // READ(10), WRITE(10), SYNCHRONIZE CACHE(10)
    (
        [0x28000000, 0, 0, 0],
        [0x00ffffff, 0xffff1fff, 0xffff0000, 0],
    ),
    (
        [0x2a000000, 0, 0, 0],
        [0x00ffffff, 0xffff1fff, 0xffff0000, 0],
    ),
    (
        [0x35000000, 0, 0, 0],
        [0x0006ffff, 0xffff1fff, 0xffff0000, 0],
    ),
    // READ(16), WRITE(16)
    (
        [0x88000000, 0, 0, 0],
        [0x00ffffff, 0xffffffff, 0xffffffff, 0xffff1fff],
    ),
    (
        [0x8a000000, 0, 0, 0],
        [0x00ffffff, 0xffffffff, 0xffffffff, 0xffff1fff],
    ),
    // READ CAPACITY(16): with another service action the block is none of these, and stays as it is
    (
        [0x9e100000, 0, 0, 0],
        [0x001f0000, 0, 0x0000ffff, 0xffff00ff],
    ),
    // REPORT LUNS
    (
        [0xa0000000, 0, 0, 0],
        [0x0000ff00, 0x0000ffff, 0xffff00ff, 0],
    ),
    // codes of no record
    (
        [0x34000000, 0, 0, 0],
        [0x00ffffff, 0xffffffff, 0xffffffff, 0xffffffff],
    ),
    (
        [0x9e0f0000, 0, 0, 0],
        [0x00ffffff, 0xffffffff, 0xffffffff, 0xffffffff],
    ),
];

/// The words of a block with the bits that are set in others turned.
fn turned(words: [u32; 4], bits: [u32; 4]) -> [u32; 4] {
    let [first, second, third, fourth] = words;
    [
        first ^ bits[0],
        second ^ bits[1],
        third ^ bits[2],
        fourth ^ bits[3],
    ]
}

/// A canonical block, of which one bit is turned in each word in turn: a free bit makes no difference.
fn check_bits(rt: &impl Abort, base: [u32; 4], fields: [u32; 4]) {
    for bit in 0..32u32 {
        let mask = 1 << bit;
        for (i, field) in fields.iter().enumerate() {
            if i == 0 && bit >= 24 {
                continue;
            }
            let mut bits = [0; 4];
            bits[i] = mask;
            let came = turned(base, bits);
            let want = if field & mask == 0 { base } else { came };
            same(
                rt,
                &Cdb::read(&block(came)).write(),
                &block(want),
                &(base, i, bit),
            );
        }
    }
}

#[test]
fn each_bit_of_each_record(rt: HostRuntime) {
    for (code, fields) in FIELDS {
        check_bits(&rt, *code, *fields);
        // The fields filled, but for bits that may say the service action.
        let [first, second, third, fourth] = *fields;
        let filled = [first & 0x00e0ffff, second, third, fourth];
        check_bits(&rt, turned(*code, filled), *fields);
    }
}

/// What the sense says: its key, its code and its qualifier, and the bytes 0 to 6 of its data.
const SENSES: &[(Sense, u8, u8, u8, &[u8; 7])] = &[
    (Sense::InvalidCode, 5, 0x20, 0, b"\x70\0\x05\0\0\0\0"),
    (Sense::OutOfRange, 5, 0x21, 0, b"\x70\0\x05\0\0\0\0"),
    (Sense::InvalidField, 5, 0x24, 0, b"\x70\0\x05\0\0\0\0"),
    (Sense::NoUnit, 5, 0x25, 0, b"\x70\0\x05\0\0\0\0"),
    (Sense::ReadError, 3, 0x11, 0, b"\x70\0\x03\0\0\0\0"),
    (Sense::WriteError, 3, 0x0c, 0, b"\x70\0\x03\0\0\0\0"),
    (Sense::WriteProtected, 7, 0x27, 0, b"\x70\0\x07\0\0\0\0"),
    (Sense::NoSpace, 7, 0x27, 7, b"\x70\0\x07\0\0\0\0"),
    (Sense::InvalidParameter, 5, 0x26, 0, b"\x70\0\x05\0\0\0\0"),
    (Sense::ParameterLength, 5, 0x1a, 0, b"\x70\0\x05\0\0\0\0"),
    (Sense::Miscompare(0), 0xe, 0x1d, 0, b"\xf0\0\x0e\0\0\0\0"),
    (
        Sense::Miscompare(0x0102_0304),
        0xe,
        0x1d,
        0,
        b"\xf0\0\x0e\x01\x02\x03\x04",
    ),
];

#[test]
fn sense_data(rt: HostRuntime) {
    for (sense, key, code, qualifier, front) in SENSES {
        same(&rt, &sense.triple(), &(*key, *code, *qualifier), sense);
        let bytes = sense.bytes();
        same(&rt, &bytes.starts_with(*front), &true, sense);
        let back = [0x0a, 0, 0, 0, 0, *code, *qualifier, 0, 0, 0, 0];
        same(&rt, &bytes.ends_with(&back), &true, sense);
        same(&rt, &bytes.len(), &18, sense);
    }
}

fn check_bytes(rt: &impl Abort, bytes: &[u8], due: &[u8], row: &impl Debug) {
    same(rt, &bytes, &due, row);
}

fn check_inquiry(rt: &impl Abort, present: bool, first: u8) {
    let bytes = inquiry_bytes(present);
    let due = [first, 0, 0x06, 0x12, 0x1f, 0, 0, 0x02];
    check_bytes(rt, &bytes[..8], &due, &present);
    check_bytes(rt, &bytes[8..], b"VERIDISKISCSI DISK      0001", &present);
}

/// A page and its data.
const PAGES: &[(u8, &[u8])] = &[
    (0x00, b"\x00\x00\x00\x03\x00\x80\x83"),
    (0x80, b"\x00\x80\x00\x0800000001"),
    (0x83, b"\x00\x83\x00\x14\x02\x01\x00\x10VERIDISK00000001"),
];

fn check_page(rt: &impl Abort, page: u8, want: &[u8]) {
    let shown = vpd_bytes(page).unwrap_or_default();
    check_bytes(rt, shown.as_slice(), want, &page);
}

#[test]
fn inquiry_data(rt: HostRuntime) {
    check_inquiry(&rt, true, 0x00);
    check_inquiry(&rt, false, 0x7f);
    for (page, want) in PAGES {
        check_page(&rt, *page, want);
    }
    same(&rt, &vpd_bytes(0xb0).is_none(), &true, &"page b0");
}

/// The last block, and the data of READ CAPACITY(10).
const CAPACITIES: &[(u64, [u8; 8])] = &[
    (0, [0, 0, 0, 0, 0, 0, 2, 0]),
    (2047, [0, 0, 0x07, 0xff, 0, 0, 2, 0]),
    (0xffff_fffe, [0xff, 0xff, 0xff, 0xfe, 0, 0, 2, 0]),
    (0xffff_ffff, [0xff, 0xff, 0xff, 0xff, 0, 0, 2, 0]),
    (0x1_0000_0000, [0xff, 0xff, 0xff, 0xff, 0, 0, 2, 0]),
];

const CAPACITY16: [u8; 32] = [
    1, 2, 3, 4, 5, 6, 7, 8, 0, 0, 2, 0, 0, 0, 0, 0, 0, 0, 0, 0, 0, 0, 0, 0, 0, 0, 0, 0, 0, 0, 0, 0,
];

#[test]
fn capacities(rt: HostRuntime) {
    for (last, want) in CAPACITIES {
        same(&rt, &capacity10(*last), want, last);
    }
    let data = capacity16(0x0102_0304_0506_0708);
    same(&rt, &data, &CAPACITY16, &"capacity16");
}

/// Which units are asked for, and the list of them.
const UNITS: &[(u8, &[u8])] = &[
    (0, &[0, 0, 0, 8, 0, 0, 0, 0, 0, 0, 0, 0, 0, 0, 0, 0]),
    (1, &[0, 0, 0, 0, 0, 0, 0, 0]),
    (2, &[0, 0, 0, 8, 0, 0, 0, 0, 0, 0, 0, 0, 0, 0, 0, 0]),
];

fn check_units(rt: &impl Abort, select: u8, want: &[u8]) {
    let list = report_luns(select).unwrap_or_default();
    check_bytes(rt, list.as_slice(), want, &select);
}

#[test]
fn units(rt: HostRuntime) {
    for (select, want) in UNITS {
        check_units(&rt, *select, want);
    }
    same(&rt, &report_luns(3).is_none(), &true, &"select 3");
}

#[test]
fn bytes_are_those_given(rt: HostRuntime) -> Result<(), Fail> {
    let bytes = Bytes::from_vec([1, 2, 3].to_vec(rt.alloc())?);
    same(&rt, &bytes.as_slice(), &[1, 2, 3].as_slice(), &"lent");
    same(
        &rt,
        &bytes.into_vec().as_slice(),
        &[1, 2, 3].as_slice(),
        &"given back",
    );
    Ok(())
}
