//! The bytes that lines of a row say.

use iscsi_test_support::{LineFault, bytes_of, pdus_of, segment_of};
use std::alloc::{AllocError, Global};
use std::{fs, io};

/// The bytes of all lines of a row that begin with this mark, one behind another. The error is that of
/// a file that cannot be read, or of a line that says no bytes.
pub fn said_by(rt: &HostRuntime, block: &str, mark: &str) -> io::Result<Vec<u8>> {
    let mut bytes = Vec::new(rt.alloc());
    for line in block.lines() {
        if let Some(part) = line.strip_prefix(mark) {
            append_parts(rt, part, &mut bytes)?;
        }
    }
    Ok(bytes)
}

// Appends the bytes of a part, or of `times N` and a part so many times.
fn append_parts(rt: &HostRuntime, text: &str, bytes: &mut Vec<u8>) -> io::Result<()> {
    let Some((count, part)) = counted(text) else {
        return append_part(rt, text, bytes);
    };
    for _ in 0..count {
        append_part(rt, part, bytes)?;
    }
    Ok(())
}

// The number behind `times`, and the part behind that.
fn counted(text: &str) -> Option<(u32, &str)> {
    let (count, part) = text.strip_prefix("times ")?.split_once(' ')?;
    Some((u32::from_str_radix(count, 10).ok()?, part))
}

// Appends the bytes that a part says.
fn append_part(rt: &HostRuntime, part: &str, bytes: &mut Vec<u8>) -> io::Result<()> {
    let (kind, rest) = part.split_once(' ').unwrap_or((part, ""));
    if kind == "line" {
        bytes.extend_from_slice(rest.as_bytes())?;
        bytes.push(b'\n')?;
        return Ok(());
    }
    let more = if kind == "file" {
        fs::read(rt, rest)?
    } else {
        in_memory(made_of(rt.alloc(), kind, rest))?
    };
    bytes.extend_from_slice(&more)?;
    Ok(())
}

// The bytes that a part of this kind says, which names no file.
fn made_of(alloc: Global, kind: &str, rest: &str) -> Result<Vec<u8>, LineFault> {
    match kind {
        "text" => Ok(Vec::from_slice(alloc, rest.as_bytes())?),
        "segment" => segment_of(alloc, rest),
        "hex" => bytes_of(alloc, rest),
        "pdu" => pdus_of(alloc, rest),
        "digits" => digits_of(alloc, rest),
        _ => Err(LineFault::NoSuchLine),
    }
}

// The digits of a PDU.
fn digits_of(alloc: Global, line: &str) -> Result<Vec<u8>, LineFault> {
    let bytes = pdus_of(alloc, line)?;
    Ok(hex::encode(alloc, &bytes)?.into_bytes())
}

// The fault of a part, as one of a file would be told.
fn in_memory(made: Result<Vec<u8>, LineFault>) -> io::Result<Vec<u8>> {
    match made {
        Ok(bytes) => Ok(bytes),
        Err(LineFault::NoMemory) => Err(io::Error::from(io::ErrorKind::OutOfMemory)),
        Err(_) => Err(io::Error::from(io::ErrorKind::InvalidData)),
    }
}
