//! Bytes as hex text.

ghost use Rattle.std.specs.Prelude.{◌≡◌, ◌<◌, ℕ, List, IfOk, IfErr};
ghost use Rattle.std.specs.Io.KnownBytes.{Consumes, IsAtEnd};
ghost use Rattle.iscsi_filters.specs.HexText.{kept, hex_line, BytesOf, HexTextFails, IsReadToFault};

use hex::FromHexError;
use iscsi_stream::{ToolFault, read_within};
use std::alloc::{AllocError, Global};
use std::io::Read;

/// The longest hex text, in bytes; those that are dropped count.
const LONGEST_HEX_TEXT: usize = 1_048_576;

// The text without its blanks and line ends.
fn digits(alloc: Global, text: &[u8]) -> Result<Vec<u8>, AllocError>
    ensures { IfOk result (λ v. v.items ≡ kept text.now) }
{
    text.iter()
        .copied()
        .filter(|b| !(*b == 0x20 || *b == 0x0a || *b == 0x0d))
        .collect(alloc)
}

/// Reads hex text to its end and returns the bytes that it means.
///
/// Returns `NotHex` if the text, without its blanks, line ends and carriage returns, is not whole
/// pairs of hex digits, or if it has more than 1,048,576 bytes. Returns `Read` if a read fails, or
/// if 16,777,216 reads did not reach the end. Returns `NoMemory` if memory runs out.
pub fn read_bytes<R: Read>(alloc: Global, r: &mut R) -> Result<Vec<u8>, ToolFault>
    ensures ok { IfOk result (λ bytes. (read : List ℕ)
        × Consumes (R.remaining r.old) (R.remaining r.new) read × IsAtEnd (R.remaining r.new)
        × BytesOf read bytes.items) }
    ensures err { IfErr result (λ fault. (read : List ℕ)
        × Consumes (R.remaining r.old) (R.remaining r.new) read × HexTextFails fault read
        × IsReadToFault fault read (R.remaining r.new)) }
{
    let text = read_within(alloc, r, LONGEST_HEX_TEXT)?;
    if text.len() > LONGEST_HEX_TEXT {
        return Err(ToolFault::NotHex);
    }
    let digits = digits(alloc, &text)?;
    match hex::decode(alloc, digits) {
        Ok(bytes) => Ok(bytes),
        Err(FromHexError::OutOfMemory) => Err(ToolFault::NoMemory),
        Err(_) => Err(ToolFault::NotHex),
    }
}

/// The bytes in lower hex, and a line end.
pub fn line(alloc: Global, bytes: &[u8]) -> Result<Vec<u8>, AllocError>
    ensures { IfOk result (λ line. line.items ≡ hex_line bytes.now) }
{
    let mut line = hex::encode(alloc, bytes)?.into_bytes();
    line.extend_from_slice(b"\n")?;
    Ok(line)
}
