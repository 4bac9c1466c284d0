//! The canonical text of what a reader gives.

ghost use Rattle.std.specs.Prelude.{ℕ, List, IfOk, IfErr};
ghost use Rattle.std.specs.Io.KnownBytes.{Appends, Consumes, IsAtEnd};
ghost use Rattle.iscsi_stream.specs.Texts.{NormalisesText, TextAtEnd, CanonicalOf};
ghost use Rattle.iscsi_stream.specs.inner.Texts.{TextRefused};

use crate::fault::ToolFault;
use crate::io::{read_within, write_fully};
use iscsi_text::{Text, TextFault};
use std::alloc::Global;
use std::io::{Read, Write};

/// The longest text, in bytes: of one that is read, and of one that comes in several segments of a
/// login (own rule).
pub const LONGEST_TEXT: usize = 16_384;

impl From<TextFault> for ToolFault {
    ghost use Rattle.std.specs.Prelude.{◌≡◌};
    ghost use Rattle.iscsi_stream.specs.Texts.{text_fault};

    ghost from_gives = { λ fault e. e ≡ text_fault fault };

    fn from(fault: TextFault) -> ToolFault {
        match fault {
            TextFault::NoMemory => ToolFault::NoMemory,
            _ => ToolFault::Text(fault),
        }
    }
}

// The canonical text of a text.
fn canonical_text(alloc: Global, bytes: &[u8]) -> Result<Vec<u8>, ToolFault>
    ensures ok { IfOk result (λ out. CanonicalOf bytes.now out.items) }
    ensures err { IfErr result (λ fault. TextRefused bytes.now fault) }
{
    let text = Text::read(alloc, bytes)?;
    let mut out = Vec::new(alloc);
    text.write(&mut out)?;
    Ok(out)
}

/// Reads one text to its end and writes its canonical form (RFC 7143, section 6.1). Nothing is
/// written before all is read.
///
/// Returns `Text` if the text has a fault, `TextTooLong` if it has more than 16,384 bytes, `Read`
/// if a read fails, and `NoMemory` if memory runs out. With each of these faults nothing was
/// written. Returns `Write` if a write fails, having written a part of the canonical text.
pub fn normalise_text<R: Read, W: Write>(
    alloc: Global,
    r: &mut R,
    w: &mut W,
) -> Result<(), ToolFault>
    ensures writes { (read : List ℕ) × (written : List ℕ)
        × Consumes (R.remaining r.old) (R.remaining r.new) read
        × Appends (W.contents w.old) (W.contents w.new) written
        × NormalisesText result read written }
    ensures end { TextAtEnd result (IsAtEnd (R.remaining r.new)) }
{
    let bytes = read_within(alloc, r, LONGEST_TEXT)?;
    if bytes.len() > LONGEST_TEXT {
        return Err(ToolFault::TextTooLong);
    }
    let text = canonical_text(alloc, &bytes)?;
    write_fully(w, &text)?;
    Ok(())
}
