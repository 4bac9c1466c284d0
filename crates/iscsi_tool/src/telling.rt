//! The lines of a stream with notes, or as JSON.

ghost use Rattle.std.specs.Prelude.{ℕ, List};
ghost use Rattle.std.specs.Io.KnownBytes.{Appends, Consumes};
ghost use Rattle.iscsi_tool.specs.Telling.{TellingOutput};

use iscsi_explain::{Form, show_in_form};
use iscsi_filters::read_bytes;
use iscsi_stream::ToolFault;
use iscsi_words::Telling;
use std::alloc::Global;
use std::io::{Read, Write};

/// Shows a stream in a form. Its faults are those of `show`; with hex they are those of
/// `run_filter`, too.
pub(crate) fn run_telling<R: Read, W: Write>(
    alloc: Global,
    telling: Telling,
    r: &mut R,
    w: &mut W,
) -> Result<(), ToolFault>
    ensures tells { (read : List ℕ) × (written : List ℕ)
        × Consumes (R.remaining r.old) (R.remaining r.new) read
        × Appends (W.contents w.old) (W.contents w.new) written
        × TellingOutput telling result read written }
{
    if telling.hex {
        return tell_hex(alloc, telling.form, r, w);
    }
    show_in_form(alloc, telling.form, r, w)
}

// Shows a stream that comes as hex text.
fn tell_hex<R: Read, W: Write>(
    alloc: Global,
    form: Form,
    r: &mut R,
    w: &mut W,
) -> Result<(), ToolFault>
    ensures moves { (read : List ℕ) × (written : List ℕ)
        × Consumes (R.remaining r.old) (R.remaining r.new) read
        × Appends (W.contents w.old) (W.contents w.new) written }
{
    let bytes = read_bytes(alloc, r)?;
    let mut source = bytes.as_slice();
    show_in_form(alloc, form, &mut source, w)
}
