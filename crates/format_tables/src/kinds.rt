//! The kinds of PDU, section 3 of the page.

use crate::Counts;
use crate::field::{Field, Place};
use crate::row::{between, hex, is_row};
use iscsi_pdu::{Pdu, read_head, write_head};
use iscsi_stream::show_line;
use std::alloc::{AllocError, Global};
use std::io;

/// What stands in section 3 below no heading of a kind.
const EXAMPLES: &str = "Headers, before and after\n";

/// The first bytes of a table's heading.
const HEADING: &str = "| Field |";

/// What the page says of a kind, but for its rows.
#[derive(Clone, Copy)]
struct Kind<'a> {
    opcode: u8,
    // its name in `show`
    shown: &'a str,
    // the free bits that are written 0, and those that are written 1
    zeros: &'a str,
    ones: &'a str,
}

/// Holds each kind of section 3 against the code, and that there is no other.
pub fn hold_kinds(rt: &HostRuntime, section: &str, counts: &mut Counts) -> io::Result<()> {
    let mut seen = [false; 64];
    for block in section.split("\n### ").skip(1) {
        if !block.starts_with(EXAMPLES) {
            counts.kinds = counts.kinds.saturating_add(1);
            let wrong = hold_kind(rt.alloc(), block, &mut seen, counts)?;
            if let Some(row) = wrong {
                rt.print("below ")?;
                rt.println(block.lines().next().unwrap_or(""))?;
                counts.note(rt, row)?;
            }
        }
    }
    if !are_all(&seen) {
        counts.note(rt, "section 3 lacks a kind, or has one that is none")?;
    }
    Ok(())
}

// Whether these are the opcodes that the code takes.
fn are_all(seen: &[bool; 64]) -> bool {
    for opcode in 0..64u8 {
        let mut header = [0; 48];
        header[0] = opcode;
        if read_head(&header).is_ok() != seen[usize::from(opcode)] {
            return false;
        }
    }
    true
}

// The first row of a kind that is not as in the code.
fn hold_kind<'a>(
    alloc: Global,
    block: &'a str,
    seen: &mut [bool; 64],
    counts: &mut Counts,
) -> Result<Option<&'a str>, AllocError> {
    let Some(kind) = kind_of(block) else {
        return Ok(Some("what stands beside the table"));
    };
    if let Some(row) = wrong_row(block) {
        return Ok(Some(row));
    }
    let fields = fields_of(alloc, block)?;
    counts.fields = counts.fields.saturating_add(fields.len());
    if !is_new(seen, kind.opcode) {
        return Ok(Some("its opcode"));
    }
    if let Some(row) = uncovered(kind, &fields) {
        return Ok(Some(row));
    }
    hold_headers(alloc, kind, &fields)
}

// Marks an opcode, where it is one and was not marked.
fn is_new(seen: &mut [bool; 64], opcode: u8) -> bool {
    let at = usize::from(opcode);
    if at >= 64 || seen[at] {
        return false;
    }
    seen[at] = true;
    true
}

// The first row of a table that cannot be read.
fn wrong_row(block: &str) -> Option<&str> {
    for row in block.lines() {
        let is_field = row.starts_with("| ") && !row.starts_with(HEADING);
        if is_field && (!is_row(row) || Field::read(row, block).is_none()) {
            return Some(row);
        }
    }
    None
}

// The rows of a kind's table.
fn fields_of<'a>(alloc: Global, block: &'a str) -> Result<Vec<Field<'a>>, AllocError> {
    let mut fields = Vec::new(alloc);
    for row in block.lines() {
        if let Some(field) = Field::read(row, block) {
            fields.push(field)?;
        }
    }
    Ok(fields)
}

fn kind_of(block: &str) -> Option<Kind<'_>> {
    let opcode = hex(between(block, "\nOpcode ", ", RFC 7143 section ").unwrap_or(""))?;
    if opcode > 0xff {
        return None;
    }
    Some(Kind {
        opcode: opcode as u8,
        shown: between(block, "`show` prints `", "`.\n").unwrap_or(""),
        zeros: between(block, "\nAlways free, written 0: ", ". Free, written 1: ").unwrap_or(""),
        ones: between(block, ". Free, written 1: ", ".").unwrap_or(""),
    })
}

// The row of bits that stand twice, or the list of free bits where a bit is in no row.
fn uncovered<'a>(kind: Kind<'a>, fields: &[Field<'a>]) -> Option<&'a str> {
    let mut header = [0; 48];
    let is_free = cover(&mut header, "0:3f, 4-7")
        && cover(&mut header, kind.zeros)
        && cover(&mut header, kind.ones);
    for field in fields {
        if !cover_place(&mut header, &field.place) {
            return Some(field.row);
        }
    }
    if is_free && header == [0xff; 48] {
        None
    } else {
        Some(kind.zeros)
    }
}

// Sets the bits of a list such as `0:80, 2-3`, where none of them was set; `none` is no bit.
fn cover(header: &mut [u8; 48], list: &str) -> bool {
    for text in list.split(", ") {
        let is_free = match Place::read(text) {
            Some(place) => cover_place(header, &place),
            None => text == "none",
        };
        if !is_free {
            return false;
        }
    }
    true
}

fn cover_place(header: &mut [u8; 48], place: &Place) -> bool {
    for at in 0..48u32 {
        let mask = place.mask_of(at);
        if header[at as usize] & mask != 0 {
            return false;
        }
        header[at as usize] |= mask;
    }
    true
}

// Holds the headers that differ from all 0 or from all 1 in one bit, or in one byte that has a
// field within it.
fn hold_headers<'a>(
    alloc: Global,
    kind: Kind<'a>,
    fields: &[Field<'a>],
) -> Result<Option<&'a str>, AllocError> {
    for base in [0x00u8, 0xff] {
        for at in 0..48 {
            for byte in 0..=0xff {
                if (byte ^ base).count_ones() < 2 || has_field_within(fields, at) {
                    let header = header_of(kind, base, at, byte);
                    let wrong = hold_header(alloc, kind, fields, &header)?;
                    if wrong.is_some() {
                        return Ok(wrong);
                    }
                }
            }
        }
    }
    Ok(None)
}

fn has_field_within(fields: &[Field<'_>], at: u32) -> bool {
    for field in fields {
        if field.place.is_within(at) {
            return true;
        }
    }
    false
}

// A header of the kind without a segment: all bytes are `base`, but for one. The block of a command
// is of no record, so that it is kept as it is.
fn header_of(kind: Kind<'_>, base: u8, at: u32, byte: u8) -> [u8; 48] {
    let mut header = [base; 48];
    if at < 48 {
        header[at as usize] = byte;
    }
    header[0] = (header[0] & 0xc0) | kind.opcode;
    header[4] = 0;
    header[5] = 0;
    header[6] = 0;
    header[7] = 0;
    if kind.opcode == 0x01 {
        header[32] = 0xff;
    }
    header
}

// Holds a header against the code: what `show` prints for it, and its canonical header.
fn hold_header<'a>(
    alloc: Global,
    kind: Kind<'a>,
    fields: &[Field<'a>],
    header: &[u8; 48],
) -> Result<Option<&'a str>, AllocError> {
    let Ok((head, _)) = read_head(header) else {
        return Ok(Some("its opcode"));
    };
    let mut line = Vec::new(alloc);
    show_line(0, &Pdu { head, bytes: &[] }, &mut line)?;
    let wrong = hold_line(kind, fields, header, &line);
    if wrong.is_none() && write_head(&head, 0) != canonical(kind, fields, header) {
        return Ok(Some("its bits written 0 or 1"));
    }
    Ok(wrong)
}

// Takes what each field is due off the line that `show` prints.
fn hold_line<'a>(
    kind: Kind<'a>,
    fields: &[Field<'a>],
    header: &[u8; 48],
    line: &[u8],
) -> Option<&'a str> {
    let mut rest = match line.strip_prefix(b"0 ".as_slice()) {
        Some(rest) => rest,
        None => return Some("its place"),
    };
    rest = match rest.strip_prefix(kind.shown.as_bytes()) {
        Some(rest) => rest,
        None => return Some(kind.shown),
    };
    for field in fields {
        let shown = field.strip(header, rest);
        if shown.is_some() != field.is_there(header) {
            return Some(field.row);
        }
        rest = shown.unwrap_or(rest);
    }
    if rest == b" data=0\n".as_slice() {
        None
    } else {
        Some("a row is missing at the end")
    }
}

fn canonical(kind: Kind<'_>, fields: &[Field<'_>], header: &[u8; 48]) -> [u8; 48] {
    let mut due = [0; 48];
    cover(&mut due, kind.ones);
    due[0] |= kind.opcode;
    for field in fields {
        if field.is_there(header) {
            copy(&field.place, header, &mut due);
        }
    }
    due
}

fn copy(place: &Place, from: &[u8; 48], to: &mut [u8; 48]) {
    for at in 0..48u32 {
        let bits = from[at as usize] & place.mask_of(at);
        to[at as usize] |= bits;
    }
}
