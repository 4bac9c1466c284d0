//! The canonical form of a PDU.

ghost use Rattle.std.specs.Prelude.{◌≡◌, ◌≤◌, ◌<◌, ◌+◌, ◌^◌, ◌++◌, Option, None, Some, true, false, length, IfOk, IfSome, IsOk, OnOk, OnErr, take, replicate, vec_len, vec_capacity};
ghost use Rattle.iscsi_text.specs.Canonical.{canonical_text};
ghost use Rattle.iscsi_pdu.specs.Meaning.{HeadFits, header, padding, whole};
ghost use Rattle.iscsi_stream.specs.Segment.{is_last_login_pdu, text_or_bytes, segment_of};
ghost use Rattle.iscsi_stream.specs.Stream.{message};
ghost use Rattle.iscsi_stream.specs.Canonical.{canonical_header, canonical_bytes};

use iscsi_pdu::{Head, Pdu, pad, put_head, write_head};
use iscsi_text::{Text, read_text};
use std::alloc::{AllocError, Global};

const PADDING: [u8; 3] = [0; 3];

// Whether the PDU is a login PDU that no other continues.
fn is_last(head: &Head) -> bool
    ensures { result ≡ is_last_login_pdu head.now }
{
    match head {
        Head::LoginRequest(request) => !request.continues,
        Head::LoginResponse(response) => !response.continues,
        _ => false,
    }
}

/// The text of a login PDU that has a whole one: a PDU that neither continues another nor is
/// continued, and whose segment is a text (RFC 7143, section 6.1). Returns `AllocError` where
/// memory runs out, which it needs to read the segment of a PDU that neither continues another nor
/// is continued.
pub fn text_of<'a>(
    alloc: Global,
    pdu: &Pdu<'a>,
    continued: bool,
) -> Result<Option<Text<'a>>, AllocError>
    ensures means { IfOk result (λ text. text_or_bytes text pdu.now.bytes.now
        ≡ segment_of continued pdu.now.head pdu.now.bytes.now) }
    ensures no_longer { IfOk result (λ text. IfSome text
        (λ pairs. length (canonical_text pairs) ≤ length pdu.now.bytes.now)) }
    ensures whole { IfOk result (λ text. IfSome text
        (λ _. (continued ≡ false) × (is_last_login_pdu pdu.now.head ≡ true))) }
    ensures memory { OnErr result ((continued ≡ false) × (is_last_login_pdu pdu.now.head ≡ true)) }
{
    text_in(alloc, &pdu.head, pdu.bytes, continued)
}

// The same of a head and a segment.
fn text_in<'a>(
    alloc: Global,
    head: &Head,
    bytes: &'a [u8],
    continued: bool,
) -> Result<Option<Text<'a>>, AllocError>
    ensures means { IfOk result (λ text. text_or_bytes text bytes.now
        ≡ segment_of continued head.now bytes.now) }
    ensures no_longer { IfOk result (λ text. IfSome text
        (λ pairs. length (canonical_text pairs) ≤ length bytes.now)) }
    ensures whole { IfOk result (λ text. IfSome text
        (λ _. (continued ≡ false) × (is_last_login_pdu head.now ≡ true))) }
    ensures memory { OnErr result ((continued ≡ false) × (is_last_login_pdu head.now ≡ true)) }
{
    if continued || !is_last(head) {
        return Ok(None);
    }
    read_text(alloc, bytes)
}

/// The header of a PDU's canonical form, with the length of its canonical segment. The PDU
/// continues another login PDU or does not. Returns `AllocError` where memory runs out, which it
/// needs to read the segment of a PDU that neither continues another nor is continued.
pub fn canonical_head(alloc: Global, pdu: &Pdu<'_>, continued: bool) -> Result<[u8; 48], AllocError>
    requires fits { HeadFits pdu.now.head }
    requires short { length pdu.now.bytes.now < 2 ^ 24 }
    ensures ok { IfOk result (λ bytes. bytes
        ≡ canonical_header (message continued pdu.now.head pdu.now.bytes.now)) }
    ensures memory { OnErr result ((continued ≡ false) × (is_last_login_pdu pdu.now.head ≡ true)) }
{
    match text_of(alloc, pdu, continued)? {
        Some(text) => Ok(write_head(&pdu.head, text.canonical_len() as u32)),
        None => Ok(write_head(&pdu.head, pdu.bytes.len() as u32)),
    }
}

/// Appends the canonical form of a PDU, which continues another login PDU or does not. Free bits
/// are 0, or 1 if the profile says so, a whole login text is in canonical form, and padding is 00.
/// Returns `AllocError` if memory runs out, and leaves `out` as it was.
pub fn canonical(pdu: &Pdu<'_>, continued: bool, out: &mut Vec<u8>) -> Result<(), AllocError>
    requires fits { HeadFits pdu.now.head }
    requires short { length pdu.now.bytes.now < 2 ^ 24 }
    ensures ok { OnOk result (out.new.items ≡ out.old.items
        ++ canonical_bytes (message continued pdu.now.head pdu.now.bytes.now)) }
    ensures err { OnErr result (out.new.items ≡ out.old.items) }
{
    canonical_of(&pdu.head, pdu.bytes, continued, out)
}

/// The same of a head, which has 80 bytes and is lent, and a segment.
#[inline(always)]
pub(crate) fn canonical_of(
    head: &Head,
    bytes: &[u8],
    continued: bool,
    out: &mut Vec<u8>,
) -> Result<(), AllocError>
    requires fits { HeadFits head.now }
    requires short { length bytes.now < 2 ^ 24 }
    ensures ok { OnOk result (out.new.items ≡ out.old.items
        ++ canonical_bytes (message continued head.now bytes.now)) }
    ensures err { OnErr result (out.new.items ≡ out.old.items) }
{
    let start = out.len();
    let result = append(head, bytes, continued, out);
    if result.is_err() {
        out.truncate(start);
    }
    result
}

/// Appends a PDU with this head and segment, free bits as the profile writes them and padding 00.
/// Returns `AllocError` where memory runs out, and leaves `out` as it was; with room for 51 bytes
/// more than the segment it appends.
#[tactic(auto, using(crate::proofs::PaddingLemmas::whole_is))]
pub fn write_pdu(head: &Head, segment: &[u8], out: &mut Vec<u8>) -> Result<(), AllocError>
    requires fits { HeadFits head.now }
    requires short { length segment.now < 2 ^ 24 }
    ensures ok { OnOk result (out.new.items ≡ out.old.items ++ whole head.now segment.now) }
    ensures err { OnErr result (out.new.items ≡ out.old.items) }
    ensures room { vec_len out.old + length segment.now + 51 ≤ vec_capacity out.old → IsOk result }
{
    let held = out.len();
    let result = append_bytes(head, segment, out);
    if result.is_err() {
        out.truncate(held);
    }
    result
}

// Appends the canonical form, of which a front may stand where memory ran out.
#[inline(always)]
fn append(head: &Head, bytes: &[u8], continued: bool, out: &mut Vec<u8>) -> Result<(), AllocError>
    requires fits { HeadFits head.now }
    requires short { length bytes.now < 2 ^ 24 }
    ensures ok { OnOk result (out.new.items ≡ out.old.items
        ++ canonical_bytes (message continued head.now bytes.now)) }
    ensures front { take (length out.old.items) out.new.items ≡ out.old.items }
{
    match text_in(*out.allocator(), head, bytes, continued)? {
        Some(text) => append_text(head, &text, out),
        None => append_bytes(head, bytes, out),
    }
}

// Appends a header, a text in canonical form and its padding.
fn append_text(head: &Head, text: &Text<'_>, out: &mut Vec<u8>) -> Result<(), AllocError>
    requires fits { HeadFits head.now }
    requires short { length (canonical_text text.now) < 2 ^ 24 }
    ensures ok { OnOk result (out.new.items ≡ out.old.items
        ++ (header head.now (length (canonical_text text.now)) ++ canonical_text text.now
        ++ replicate (padding (length (canonical_text text.now))) 0)) }
    ensures front { take (length out.old.items) out.new.items ≡ out.old.items }
{
    let len = text.canonical_len() as u32;
    let padding = pad(len) as usize;
    out.reserve(48 + len as usize + padding)?;
    out.extend_from_slice(&write_head(head, len))?;
    text.write(out)?;
    out.extend_from_slice(&PADDING[..padding])?;
    Ok(())
}

// Appends a header, which is written where it stays.
#[inline(always)]
fn append_head(head: &Head, len: u32, out: &mut Vec<u8>) -> Result<(), AllocError>
    requires fits { HeadFits head.now }
    requires short { len < 2 ^ 24 }
    ensures ok { OnOk result (out.new.items ≡ out.old.items ++ header head.now len) }
    ensures err { OnErr result (out.new.items ≡ out.old.items) }
    ensures len { OnOk result (vec_len out.new ≡ vec_len out.old + 48) }
    ensures capacity { vec_capacity out.old ≤ vec_capacity out.new }
    ensures room { vec_len out.old + 48 ≤ vec_capacity out.old → IsOk result }
{
    out.extend_from_slice(&[0; 48])?;
    if let Some(place) = out.last_chunk_mut() {
        put_head(head, len, place);
    }
    Ok(())
}

// Appends a header, a segment as it is and its padding.
#[inline(always)]
fn append_bytes(head: &Head, bytes: &[u8], out: &mut Vec<u8>) -> Result<(), AllocError>
    requires fits { HeadFits head.now }
    requires short { length bytes.now < 2 ^ 24 }
    ensures ok { OnOk result (out.new.items ≡ out.old.items ++ (header head.now (length bytes.now)
        ++ bytes.now ++ replicate (padding (length bytes.now)) 0)) }
    ensures front { take (length out.old.items) out.new.items ≡ out.old.items }
    ensures room { vec_len out.old + length bytes.now + 51 ≤ vec_capacity out.old → IsOk result }
{
    let len = bytes.len() as u32;
    let padding = pad(len) as usize;
    out.reserve(48 + bytes.len() + padding)?;
    append_head(head, len, out)?;
    // Most PDUs have no segment, and none of their bytes need to be moved.
    if bytes.is_empty() {
        return Ok(());
    }
    out.extend_from_slice(bytes)?;
    out.extend_from_slice(&PADDING[..padding])?;
    Ok(())
}
