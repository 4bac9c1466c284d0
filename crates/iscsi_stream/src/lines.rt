//! The line of text of a PDU.

ghost use Rattle.std.specs.Prelude.{◌≡◌, ◌++◌, OnOk, OnErr, List, ℕ};
ghost use Rattle.iscsi_pdu.specs.Meaning.{HeadFits};
ghost use Rattle.iscsi_stream.specs.Shown.{IsShownLine};

mod fields;
mod writing;

use self::fields::{fields, kind};
use self::writing::Line;
use iscsi_pdu::Pdu;
use std::alloc::AllocError;

/// Appends the line of a PDU: its place in decimal, its kind, its fields, and the length of its
/// segment in decimal. The fields are those that have a value, in the order of the field table, in
/// lower hex. Returns `AllocError` if memory runs out, and leaves `out` as it was.
pub fn show_line(place: u64, pdu: &Pdu<'_>, out: &mut Vec<u8>) -> Result<(), AllocError>
    requires { HeadFits pdu.now.head }
    ensures ok { OnOk result ((line : List ℕ) × IsShownLine line
        × (out.new.items ≡ out.old.items ++ line)) }
    ensures err { OnErr result (out.new.items ≡ out.old.items) }
{
    let line = line_of(place, pdu);
    let text = line.text();
    out.reserve(text.len() + 1)?;
    let Ok(()) = out.extend_from_slice(text) else {
        unreachable!()
    };
    let Ok(()) = out.push(b'\n') else {
        unreachable!()
    };
    Ok(())
}

// The text of the line of a PDU.
fn line_of(place: u64, pdu: &Pdu<'_>) -> Line
    requires { HeadFits pdu.now.head }
{
    let mut line = Line::new();
    line.number(place);
    line.put(kind(&pdu.head).as_bytes());
    fields(&mut line, &pdu.head);
    line.put(b" data=");
    line.number(pdu.bytes.len() as u64);
    line
}
