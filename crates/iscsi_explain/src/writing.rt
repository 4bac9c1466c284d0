//! Lines of text that hold no byte but those that can be printed.

ghost use Rattle.std.specs.Prelude.{◌≡◌, ◌++◌, map, IfOk, OnOk, ℕ, List};
ghost use Rattle.iscsi_explain.specs.Forms.{printable, note, notes_from};

use std::alloc::{AllocError, Global};

// A byte that can be printed: the space up to `~` as it is, each other one as `?`.
fn printable(byte: u8) -> u8
    ensures { result ≡ printable byte }
{
    if 0x20 <= byte && byte <= 0x7e {
        byte
    } else {
        b'?'
    }
}

/// Bytes as far as they can be printed.
pub(crate) fn printed(alloc: Global, text: &[u8]) -> Result<Vec<u8>, AllocError>
    ensures { IfOk result (λ bytes. bytes.items ≡ map printable text.now) }
{
    text.iter().map(|byte| printable(*byte)).collect(alloc)
}

// The line of a note.
fn note_line(alloc: Global, text: &[u8]) -> Result<Vec<u8>, AllocError>
    ensures { IfOk result (λ line. line.items ≡ note text.now) }
{
    let mut line = Vec::new(alloc);
    line.extend_from_slice(b"    ")?;
    let text = printed(alloc, text)?;
    line.extend_from_slice(&text)?;
    line.push(b'\n')?;
    Ok(line)
}

/// Appends a line for each note: four spaces, and the note as far as it can be printed.
#[tactic(auto, using(crate::proofs::Noting::noted_none, crate::proofs::Noting::noted_more))]
pub(crate) fn write_notes(
    alloc: Global,
    notes: &[String],
    out: &mut Vec<u8>,
) -> Result<(), AllocError>
    ensures ok { OnOk result ((texts : List (List ℕ))
        × (out.new.items ≡ out.old.items ++ notes_from texts)) }
{
    for note in notes {
        let line = note_line(alloc, note.as_bytes())?;
        out.extend_from_slice(&line)?;
    }
    Ok(())
}
