//! What is written of a PDU, in each form.

ghost use Rattle.std.specs.Prelude.{◌≡◌, ◌++◌, ◌∷◌, ◌-◌, [], IfOk, OnOk, OnErr, length, map, take, ℕ, List};
ghost use Rattle.iscsi_pdu.specs.Meaning.{HeadFits};
ghost use Rattle.iscsi_explain.specs.Forms.{IsPduEntry, IsObject, IsText, printable};

use crate::notes::all_notes;
use crate::objects::object_of;
use crate::stamp::Stamp;
use crate::writing::{printed, write_notes};
use iscsi_pdu::Pdu;
use iscsi_stream::show_line;
use std::alloc::{AllocError, Global};

/// What is written of a PDU.
#[derive(Clone, Copy, Debug, PartialEq, Eq)]
pub enum Form {
    /// Its line, as `show_line` writes it.
    Line,
    /// Its line, and its notes under it.
    Explained,
    /// One JSON object.
    Json,
    /// One JSON object, with its notes.
    ExplainedJson,
}

/// Appends what is written of a PDU at this place, in a form. What a capture says of it stands
/// before the line, or in the object. Returns `AllocError` if memory runs out, and leaves `out` as it
/// was.
pub fn write_pdu(
    alloc: Global,
    form: Form,
    stamp: Option<Stamp>,
    place: u64,
    pdu: &Pdu<'_>,
    out: &mut Vec<u8>,
) -> Result<(), AllocError>
    requires { HeadFits pdu.now.head }
    ensures ok { OnOk result ((entry : List ℕ) × IsPduEntry form entry
        × (out.new.items ≡ out.old.items ++ entry)) }
    ensures err { OnErr result (out.new.items ≡ out.old.items) }
{
    let entry = entry_of(alloc, form, stamp, place, pdu)?;
    out.extend_from_slice(&entry)
}

// What is written of a PDU.
fn entry_of(
    alloc: Global,
    form: Form,
    stamp: Option<Stamp>,
    place: u64,
    pdu: &Pdu<'_>,
) -> Result<Vec<u8>, AllocError>
    requires { HeadFits pdu.now.head }
    ensures entry { IfOk result (λ entry. IsPduEntry form entry.items) }
{
    match form {
        Form::Line => line_of(alloc, stamp, place, pdu),
        Form::Explained => explained_of(alloc, stamp, place, pdu),
        Form::Json => object_line(alloc, false, stamp, place, pdu),
        Form::ExplainedJson => object_line(alloc, true, stamp, place, pdu),
    }
}

// What a capture says of a PDU, before its line.
fn front_of(alloc: Global, stamp: Option<Stamp>) -> Result<Vec<u8>, AllocError>
    ensures printed { IfOk result (λ front. (text : List ℕ) × (front.items ≡ map printable text)) }
{
    match stamp {
        Some(stamp) => {
            let text = stamp.front(alloc)?;
            printed(alloc, text.as_bytes())
        }
        None => printed(alloc, &[]),
    }
}

// The line of a PDU, and what a capture says of it before and behind.
fn line_of(
    alloc: Global,
    stamp: Option<Stamp>,
    place: u64,
    pdu: &Pdu<'_>,
) -> Result<Vec<u8>, AllocError>
    requires { HeadFits pdu.now.head }
    ensures text { IfOk result (λ line. IsText [] line.items) }
{
    match stamp {
        Some(stamp) if stamp.missing > 0 => cut_line_of(alloc, stamp, place, pdu),
        _ => whole_line_of(alloc, stamp, place, pdu),
    }
}

// The line of a PDU, and what a capture says of it before.
fn whole_line_of(
    alloc: Global,
    stamp: Option<Stamp>,
    place: u64,
    pdu: &Pdu<'_>,
) -> Result<Vec<u8>, AllocError>
    requires { HeadFits pdu.now.head }
    ensures text { IfOk result (λ line. IsText [] line.items) }
{
    let mut entry = front_of(alloc, stamp)?;
    show_line(place, pdu, &mut entry)?;
    Ok(entry)
}

// The same of a PDU of which bytes are missing: at the end stands how many were captured.
fn cut_line_of(
    alloc: Global,
    stamp: Stamp,
    place: u64,
    pdu: &Pdu<'_>,
) -> Result<Vec<u8>, AllocError>
    requires { HeadFits pdu.now.head }
    ensures text { IfOk result (λ line. IsText [] line.items) }
{
    let mut entry = front_of(alloc, Some(stamp))?;
    let mut line = Vec::new(alloc);
    show_line(place, pdu, &mut line)?;
    let end = stamp.end(alloc, pdu.bytes.len())?;
    let end = printed(alloc, end.as_bytes())?;
    append_cut(line.as_slice(), end.as_slice(), &mut entry)?;
    Ok(entry)
}

// Appends a line with an end put in before the byte that ends it.
fn append_cut(line: &[u8], end: &[u8], entry: &mut Vec<u8>) -> Result<(), AllocError>
    ensures { OnOk result (entry.new.items
        ≡ ((entry.old.items ++ take (length line.now - 1) line.now) ++ end.now) ++ 10 ∷ []) }
{
    entry.extend_from_slice(&line[..line.len().saturating_sub(1)])?;
    entry.extend_from_slice(end)?;
    Ok(entry.push(b'\n')?)
}

// The line of a PDU with its notes.
fn explained_of(
    alloc: Global,
    stamp: Option<Stamp>,
    place: u64,
    pdu: &Pdu<'_>,
) -> Result<Vec<u8>, AllocError>
    requires { HeadFits pdu.now.head }
    ensures text { IfOk result (λ entry. (texts : List (List ℕ)) × IsText texts entry.items) }
{
    let mut entry = line_of(alloc, stamp, place, pdu)?;
    let notes = all_notes(alloc, stamp, pdu)?;
    write_notes(alloc, &notes, &mut entry)?;
    Ok(entry)
}

// The object of a PDU, as a line.
fn object_line(
    alloc: Global,
    explained: bool,
    stamp: Option<Stamp>,
    place: u64,
    pdu: &Pdu<'_>,
) -> Result<Vec<u8>, AllocError>
    requires { HeadFits pdu.now.head }
    ensures line { IfOk result (λ line. (text : List ℕ) × IsObject text
        × (line.items ≡ text ++ 10 ∷ [])) }
{
    let mut line = object_of(alloc, explained, stamp, place, pdu)?;
    line.push(b'\n')?;
    Ok(line)
}
