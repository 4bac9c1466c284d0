//! What a disk with a serial number tells of itself, in section 5 of the page.

use crate::Counts;
use crate::row::{cell, decimal, hex, quoted};
use arrayvec::ArrayVec;
use scsi_cdb::Cdb;
use scsi_disk::{Deed, Order};
use scsi_unit::LogicalUnit;
use std::alloc::Global;
use std::io;

/// The serial number that stands for S.
const SERIAL: &[u8] = b"disk-7";

/// The name of the target that stands for N.
const NAME: &[u8] = b"iqn.2026-01.example:disk";

/// The number that stands for H, by another program's MD5.
const NUMBER: &[u8] = b"\x35\x86\xa9\x6c\x25\xa9\xc7\x2f";

/// The SCSI name string that stands for T.
const STRING: &[u8] = b"iqn.2026-01.example:disk,L,0x0000000000000000\0\0\0";

/// The most bytes of a row's data.
type Data = ArrayVec<u8, 128>;

/// A command that a row is of, the place of the row's data among its cells, how many bytes stand
/// before those in what the command gives, and whether the row is of a thin disk.
#[derive(Clone, Copy)]
struct Asked {
    cdb: Cdb,
    cell: usize,
    header: usize,
    thin: bool,
}

/// Holds each row of a page of product data, of a mode page and of REQUEST SENSE against the code.
pub fn hold_unit(rt: &HostRuntime, section: &str, counts: &mut Counts) -> io::Result<()> {
    for row in section.lines() {
        let Some(asked) = asked_by(cell(row, 1)) else {
            continue;
        };
        counts.pages = counts.pages.saturating_add(1);
        if hold_row(rt.alloc(), row, &asked).is_none() {
            counts.note(rt, row)?;
        }
    }
    Ok(())
}

// What a row is of, by its first cell.
fn asked_by(name: &str) -> Option<Asked> {
    if let Some(page) = name.strip_prefix("INQUIRY, page ") {
        let plain = page.strip_suffix(", thin");
        let (page, thin) = (plain.unwrap_or(page), plain.is_some());
        let cdb = Cdb::Inquiry {
            evpd: true,
            page: u8::try_from(hex(page)?).ok()?,
            allocation_length: 0xffff,
            control: 0,
        };
        return Some(Asked {
            cdb,
            cell: 3,
            header: 0,
            thin,
        });
    }
    if name == "REQUEST SENSE" {
        return Some(Asked {
            cdb: Cdb::Unknown([0x03, 0, 0, 0, 0xff, 0, 0, 0, 0, 0, 0, 0, 0, 0, 0, 0]),
            cell: 3,
            header: 0,
            thin: false,
        });
    }
    let (page, _) = name.split_once(", c")?;
    let page = u8::try_from(hex(page)?).ok()?;
    Some(Asked {
        cdb: Cdb::Unknown([0x1a, 0, page, 0, 0xff, 0, 0, 0, 0, 0, 0, 0, 0, 0, 0, 0]),
        cell: 2,
        header: 4,
        thin: false,
    })
}

// `Some` where the row has what the code gives.
fn hold_row(alloc: Global, row: &str, asked: &Asked) -> Option<()> {
    let order = Order {
        cdb: asked.cdb,
        lun: 0,
        read: true,
        write: false,
        expected: 0xffff,
        deed: Deed::Write,
    };
    let unit = LogicalUnit::new(NAME, SERIAL, false)?;
    let unit = if asked.thin { unit.with_thin() } else { unit };
    let outcome = unit.outcome(alloc, &order, 2048).ok()??;
    let told = outcome.bytes.as_slice().get(asked.header..)?;
    let due = data_of(cell(row, asked.cell), told.len())?;
    (due.as_slice() == told).then_some(())
}

// The bytes that a cell says, up to what it says of them, where there are so many.
fn data_of(cell: &str, count: usize) -> Option<Data> {
    let cell = cell.split_once(": ").map_or(cell, |(data, _)| data);
    let cell = cell.split_once("; ").map_or(cell, |(data, _)| data);
    let mut data = Data::new();
    for part in cell.split(", ") {
        append_part(part, count, &mut data)?;
    }
    Some(data)
}

fn append_part(part: &str, count: usize, data: &mut Data) -> Option<()> {
    if part == "n - 4 in two bytes" {
        let rest = u16::try_from(count.checked_sub(4)?).ok()?;
        return data.try_extend_from_slice(&rest.to_be_bytes()).ok();
    }
    if let Some(count) = part.strip_suffix(" bytes 00") {
        for _ in 0..decimal(count)? {
            data.try_push(0).ok()?;
        }
        return Some(());
    }
    if let Some(sum) = part.strip_prefix("the length of ") {
        return data.try_push(length_of(sum)?).ok();
    }
    if let Some(bytes) = stands_for(part) {
        return data.try_extend_from_slice(bytes).ok();
    }
    if let Some(text) = part.strip_prefix("ASCII ") {
        return data.try_extend_from_slice(quoted(text).as_bytes()).ok();
    }
    for byte in quoted(part).split(' ') {
        data.try_push(u8::try_from(hex(byte)?).ok()?).ok()?;
    }
    Some(())
}

// The bytes that a letter stands for.
fn stands_for(letter: &str) -> Option<&'static [u8]> {
    match letter {
        "S" => Some(SERIAL),
        "H" => Some(NUMBER),
        "T" => Some(STRING),
        _ => None,
    }
}

// The length of what a letter stands for, or a sum of it and a number.
fn length_of(sum: &str) -> Option<u8> {
    let (letter, more) = sum.split_once(" + ").unwrap_or((sum, "0"));
    let length = u8::try_from(stands_for(letter)?.len()).ok()?;
    length.checked_add(u8::try_from(decimal(more)?).ok()?)
}
