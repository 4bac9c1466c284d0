//! Large binary values: `0x` and hex digits, or `0b` and base64 (RFC 7143, section 6.1).

ghost use Rattle.std.specs.Prelude.{◌≡◌, ◌++◌, IfOk, OnOk, OnErr, option_map};
ghost use Rattle.iscsi_chap.specs.Binary.{binary_of, binary_text, hex_binary, base64_binary};

use base64::DecodeAllocError;
use base64::engine::general_purpose::STANDARD;
use hex::FromHexError;
use std::alloc::{AllocError, Global};

/// The bytes that a large binary value writes, and `None` where it writes none.
///
/// The value is `0x` or `0X` and one hex digit or more of either case, or `0b` or `0B` and base64
/// with its padding. An odd number of hex digits has a 0 before it. A decimal writes none (RFC 7143,
/// section 6.1). The only error is that memory ran out.
pub fn read_binary(alloc: Global, text: &[u8]) -> Result<Option<Vec<u8>>, AllocError>
    ensures bytes { IfOk result (λ bytes. option_map (λ v. v.items) bytes ≡ binary_of text.now) }
{
    match text {
        [b'0', b'x' | b'X', digits @ ..] => read_hex(alloc, digits),
        [b'0', b'b' | b'B', symbols @ ..] => read_base64(alloc, symbols),
        _ => Ok(None),
    }
}

// The bytes of hex digits, of which there is one or more.
fn read_hex(alloc: Global, digits: &[u8]) -> Result<Option<Vec<u8>>, AllocError>
    ensures { IfOk result (λ bytes. option_map (λ v. v.items) bytes ≡ hex_binary digits.now) }
{
    if digits.is_empty() {
        return Ok(None);
    }
    let mut even = Vec::new(alloc);
    if digits.len() % 2 == 1 {
        even.push(b'0')?;
    }
    even.extend_from_slice(digits)?;
    match hex::decode(alloc, even.as_slice()) {
        Ok(bytes) => Ok(Some(bytes)),
        Err(FromHexError::OutOfMemory) => Err(AllocError),
        Err(_) => Ok(None),
    }
}

// The bytes of base64 with its padding, of which there is some.
fn read_base64(alloc: Global, symbols: &[u8]) -> Result<Option<Vec<u8>>, AllocError>
    ensures { IfOk result (λ bytes. option_map (λ v. v.items) bytes ≡ base64_binary symbols.now) }
{
    if symbols.is_empty() {
        return Ok(None);
    }
    match STANDARD.decode(alloc, symbols) {
        Ok(bytes) => Ok(Some(bytes)),
        Err(DecodeAllocError::OutOfMemory) => Err(AllocError),
        Err(_) => Ok(None),
    }
}

/// Appends the value that writes these bytes: `0x` and two lower-case digits for each.
///
/// When out of memory, `out` is unchanged. The form is that of RFC 7143, section 6.1; the choice of
/// hex is own rule, since real initiators take no base64.
pub fn write_binary(bytes: &[u8], out: &mut Vec<u8>) -> Result<(), AllocError>
    ensures ok { OnOk result (out.new.items ≡ out.old.items ++ binary_text bytes.now) }
    ensures err { OnErr result (out.new.items ≡ out.old.items) }
{
    let alloc = *out.allocator();
    let digits = hex::encode(alloc, bytes)?;
    let mut text = Vec::new(alloc);
    text.extend_from_slice(b"0x")?;
    text.extend_from_slice(digits.as_bytes())?;
    out.extend_from_slice(&text)
}
