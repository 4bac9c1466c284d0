//! PDUs as lines of text.
//!
//! A line has the header in hex, in twelve words of four bytes, and what the segment has, without
//! padding. What the segment has is one of these:
//! - It may be nothing.
//! - It may be words of hex, of which `5a*512` stands for 512 bytes 5a.
//! - It may be a text behind an apostrophe, in which `|` stands for a byte 00 and `~` for a byte
//!   ff. There `+500` at the end stands for 500 keys that no end knows.
//! - It may be `@` for the standard text of the operational stage.
//!
//! A shorter line is the front of a header. A line such as `@login` stands for a PDU that many
//! sessions have.

use crate::logins::{OPERATIONAL, named};
use hex::FromHexError;
use std::alloc::{AllocError, Global};
use std::num::ParseIntError;
use thiserror::Error;

/// How many characters a header has.
const HEADER: usize = 107;

/// Why a line is no PDU.
#[derive(Clone, Copy, Debug, PartialEq, Eq, Error)]
pub enum LineFault {
    /// Memory ran out.
    #[error("memory")]
    NoMemory,
    /// A word is not hex.
    #[error("not hex")]
    NotHex,
    /// What stands before or behind a `*`, or behind a `+` or a `#`, is no number.
    #[error("no number")]
    NoNumber,
    /// No line has the name behind an `@`, or no line of a dialogue has this mark.
    #[error("no such line")]
    NoSuchLine,
}

impl From<AllocError> for LineFault {
    fn from(_fault: AllocError) -> LineFault {
        LineFault::NoMemory
    }
}

impl From<FromHexError> for LineFault {
    fn from(fault: FromHexError) -> LineFault {
        match fault {
            FromHexError::OutOfMemory => LineFault::NoMemory,
            _ => LineFault::NotHex,
        }
    }
}

impl From<ParseIntError> for LineFault {
    fn from(_fault: ParseIntError) -> LineFault {
        LineFault::NoNumber
    }
}

/// The bytes of hex text, in which blanks part the words.
pub fn bytes_of(alloc: Global, text: &str) -> Result<Vec<u8>, LineFault> {
    let digits: Vec<u8> = text
        .as_bytes()
        .iter()
        .copied()
        .filter(|b| *b != b' ')
        .collect(alloc)?;
    Ok(hex::decode(alloc, digits)?)
}

// The bytes of a word of hex, or so many of a byte.
fn word_of(alloc: Global, word: &str) -> Result<Vec<u8>, LineFault> {
    let Some((byte, count)) = word.split_once('*') else {
        return bytes_of(alloc, word);
    };
    let byte = u8::from_str_radix(byte, 16)?;
    let count = count.parse::<u32>()?;
    Ok(vec![in alloc; byte; count as usize]?)
}

// Appends the bytes of a text.
fn append_text(text: &str, out: &mut Vec<u8>) -> Result<(), AllocError> {
    for byte in text.bytes() {
        out.push(match byte {
            b'|' => 0,
            b'~' => 0xff,
            _ => byte,
        })?;
    }
    Ok(())
}

// Appends so many keys that no end knows.
fn append_keys(count: u16, out: &mut Vec<u8>) -> Result<(), AllocError> {
    let alloc = *out.allocator();
    for number in 0..count {
        let key = format!(in alloc; "K{number:03}=1|")?;
        append_text(&key, out)?;
    }
    Ok(())
}

// The bytes of a text, and of as many keys more as it says.
fn text_of(alloc: Global, text: &str) -> Result<Vec<u8>, LineFault> {
    let mut out = Vec::new(alloc);
    let (front, more) = text.split_once('+').unwrap_or((text, "0"));
    append_text(front, &mut out)?;
    append_keys(more.parse::<u16>()?, &mut out)?;
    Ok(out)
}

/// The bytes of a segment, without padding.
pub fn segment_of(alloc: Global, segment: &str) -> Result<Vec<u8>, LineFault> {
    if segment == "@" {
        return text_of(alloc, OPERATIONAL);
    }
    if let Some(text) = segment.strip_prefix('\'') {
        return text_of(alloc, text);
    }
    let mut out = Vec::new(alloc);
    for word in segment.split(' ') {
        out.extend_from_slice(&word_of(alloc, word)?)?;
    }
    Ok(out)
}

// The bytes that fill a segment of this length up to whole words.
fn padding_of(len: usize) -> &'static [u8] {
    match len % 4 {
        1 => &[0, 0, 0],
        2 => &[0, 0],
        3 => &[0],
        _ => &[],
    }
}

/// Appends the PDU of a line: header, segment and padding.
pub fn append_pdu(line: &str, out: &mut Vec<u8>) -> Result<(), LineFault> {
    let Some(name) = line.strip_prefix('@') else {
        return append_words(line, out);
    };
    append_words(named(name).ok_or(LineFault::NoSuchLine)?, out)
}

// Appends the PDU of a line that has no name.
fn append_words(line: &str, out: &mut Vec<u8>) -> Result<(), LineFault> {
    let alloc = *out.allocator();
    let (header, segment) = line.split_at_checked(HEADER).unwrap_or((line, ""));
    let bytes = segment_of(alloc, segment.trim())?;
    out.extend_from_slice(&bytes_of(alloc, header)?)?;
    out.extend_from_slice(&bytes)?;
    out.extend_from_slice(padding_of(bytes.len()))?;
    Ok(())
}

/// The PDUs of some lines, one behind another.
pub fn pdus_of(alloc: Global, lines: &str) -> Result<Vec<u8>, LineFault> {
    let mut stream = Vec::new(alloc);
    for line in lines.lines() {
        append_pdu(line, &mut stream)?;
    }
    Ok(stream)
}

/// The PDUs of the lines that have this mark, one behind another.
pub fn marked(alloc: Global, lines: &str, mark: &str) -> Result<Vec<u8>, LineFault> {
    let mut stream = Vec::new(alloc);
    for line in lines.lines() {
        if let Some(pdu) = line.strip_prefix(mark) {
            append_pdu(pdu, &mut stream)?;
        }
    }
    Ok(stream)
}
