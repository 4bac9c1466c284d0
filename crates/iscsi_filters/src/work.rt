//! What `show` and `normalise` do with one reader and one writer, of bytes or of hex text.

ghost use Rattle.std.specs.Prelude.{◌≡◌, ◌⊎◌, ℕ, List, OnOk, IfOk, IfErr};
ghost use Rattle.std.specs.Io.KnownBytes.{Appends, Consumes, IsAtEnd};
ghost use Rattle.iscsi_stream.specs.declared.fault.ToolFault.TheVariants as tool;
ghost use Rattle.iscsi_stream.specs.Texts.{NormalisesText, TextAtEnd};
ghost use Rattle.iscsi_filters.specs.declared.work.Content.TheVariants as content;
ghost use Rattle.iscsi_filters.specs.Filters.{CutAtEnd, DoesWork, HexAtEnd, IsDueLine, NormalisesBytes, NormalisesHex, RefusesWork, ShowsBytes, filter_exit_status};

use crate::hex_text::{line, read_bytes};
use iscsi_stream::{ToolFault, normalise, normalise_text, show, write_fully};
use std::alloc::Global;
use std::io::{Read, Write};

/// What is done with one stream, or one text.
#[derive(Clone, Copy, Debug, PartialEq, Eq)]
pub enum StreamWork {
    /// Writes a line for each PDU.
    Show,
    /// Writes the canonical stream.
    Normalise,
    /// Writes the canonical text of one text.
    Text,
}

/// What bytes are taken for.
#[derive(Clone, Copy)]
pub(crate) enum Content {
    Stream,
    Text,
}

/// Does a work, from a reader to a writer.
///
/// Without hex its faults are those of `show`, `normalise` and `normalise_text`. With hex the whole input
/// is read first: `NotHex` comes before any output, and so do `Read` and `NoMemory` of `Normalise` and
/// `Text`. Their line is written also where the stream or text has a fault, which is then returned.
pub fn run_work<R: Read, W: Write>(
    alloc: Global,
    work: StreamWork,
    hex: bool,
    r: &mut R,
    w: &mut W,
) -> Result<(), ToolFault>
    ensures does { (read : List ℕ) × (written : List ℕ)
        × Consumes (R.remaining r.old) (R.remaining r.new) read
        × Appends (W.contents w.old) (W.contents w.new) written
        × DoesWork work hex result read written }
    ensures end { OnOk result (IsAtEnd (R.remaining r.new)) }
    // A stream is called cut, a text unterminated, and hex text no hex, where the reader has told its
    // end, or the limit was passed.
    ensures refused { RefusesWork work hex result (R.remaining r.old) (R.remaining r.new) }
{
    match (work, hex) {
        (StreamWork::Show, false) => show_bytes(alloc, r, w),
        (StreamWork::Show, true) => show_hex(alloc, r, w),
        (StreamWork::Normalise, false) => normalise_bytes(alloc, r, w),
        (StreamWork::Normalise, true) => normalise_hex(alloc, Content::Stream, r, w),
        (StreamWork::Text, false) => text_bytes(alloc, r, w),
        (StreamWork::Text, true) => normalise_hex(alloc, Content::Text, r, w),
    }
}

/// The exit status of a fault: 1 where the input is refused, 3 for memory, 4 for reading and
/// writing.
pub fn status(fault: &ToolFault) -> u8
    ensures status { result ≡ filter_exit_status fault.now }
{
    match fault {
        ToolFault::Stream(_)
        | ToolFault::Text(_)
        | ToolFault::TextTooLong
        | ToolFault::NotHex
        | ToolFault::Protocol(_) => 1,
        ToolFault::NoMemory => 3,
        ToolFault::Read | ToolFault::Write => 4,
    }
}

// The lines of a stream of bytes.
#[tactic(auto, using(crate::proofs::AtEndLemmas::stream_at_end))]
fn show_bytes<R: Read, W: Write>(alloc: Global, r: &mut R, w: &mut W) -> Result<(), ToolFault>
    ensures shows { (read : List ℕ) × (written : List ℕ)
        × Consumes (R.remaining r.old) (R.remaining r.new) read
        × Appends (W.contents w.old) (W.contents w.new) written
        × ShowsBytes result read written }
    ensures end { OnOk result (IsAtEnd (R.remaining r.new)) }
    ensures refused { CutAtEnd result (IsAtEnd (R.remaining r.new)) }
{
    show(alloc, r, w)?;
    Ok(())
}

// The lines of a stream that comes as hex text.
#[tactic(auto, using(crate::proofs::AtEndLemmas::hex_refused, crate::proofs::AtEndLemmas::hex_read))]
fn show_hex<R: Read, W: Write>(alloc: Global, r: &mut R, w: &mut W) -> Result<(), ToolFault>
    ensures moves { (read : List ℕ) × (written : List ℕ)
        × Consumes (R.remaining r.old) (R.remaining r.new) read
        × Appends (W.contents w.old) (W.contents w.new) written }
    ensures end { OnOk result (IsAtEnd (R.remaining r.new)) }
    ensures refused { HexAtEnd result (R.remaining r.old) (R.remaining r.new) }
{
    let bytes = read_bytes(alloc, r)?;
    let mut source = bytes.as_slice();
    show(alloc, &mut source, w)?;
    Ok(())
}

// The canonical stream of a stream of bytes.
#[tactic(auto, using(crate::proofs::AtEndLemmas::stream_at_end))]
fn normalise_bytes<R: Read, W: Write>(alloc: Global, r: &mut R, w: &mut W) -> Result<(), ToolFault>
    ensures normalises { (read : List ℕ) × (written : List ℕ)
        × Consumes (R.remaining r.old) (R.remaining r.new) read
        × Appends (W.contents w.old) (W.contents w.new) written
        × NormalisesBytes result read written }
    ensures end { OnOk result (IsAtEnd (R.remaining r.new)) }
    ensures refused { CutAtEnd result (IsAtEnd (R.remaining r.new)) }
{
    normalise(alloc, r, w)?;
    Ok(())
}

// The canonical text of a text's bytes.
fn text_bytes<R: Read, W: Write>(alloc: Global, r: &mut R, w: &mut W) -> Result<(), ToolFault>
    ensures normalises { (read : List ℕ) × (written : List ℕ)
        × Consumes (R.remaining r.old) (R.remaining r.new) read
        × Appends (W.contents w.old) (W.contents w.new) written
        × NormalisesText result read written }
    ensures end { OnOk result (IsAtEnd (R.remaining r.new)) }
    ensures refused { TextAtEnd result (IsAtEnd (R.remaining r.new)) }
{
    normalise_text(alloc, r, w)?;
    Ok(())
}

// The canonical form of a text or of a stream that comes as hex text, as a line of hex.
#[tactic(auto, using(crate::proofs::AtEndLemmas::hex_refused, crate::proofs::AtEndLemmas::hex_read))]
fn normalise_hex<R: Read, W: Write>(
    alloc: Global,
    content: Content,
    r: &mut R,
    w: &mut W,
) -> Result<(), ToolFault>
    ensures normalises { (read : List ℕ) × (written : List ℕ)
        × Consumes (R.remaining r.old) (R.remaining r.new) read
        × Appends (W.contents w.old) (W.contents w.new) written
        × NormalisesHex content result read written }
    ensures end { OnOk result (IsAtEnd (R.remaining r.new)) }
    ensures refused { HexAtEnd result (R.remaining r.old) (R.remaining r.new) }
{
    let bytes = read_bytes(alloc, r)?;
    let due = line_of(alloc, content, &bytes)?;
    write_fully(w, &due.line)?;
    due.outcome
}

// The line that is due for bytes, and how the filter ends once it is written.
#[derive(Drop)]
struct DueLine {
    line: Vec<u8>,
    outcome: Result<(), ToolFault>,
}

fn line_of(alloc: Global, content: Content, bytes: &[u8]) -> Result<DueLine, ToolFault>
    ensures ok { IfOk result (λ x. IsDueLine content bytes.now x.outcome x.line.items) }
    ensures err { IfErr result (λ fault. (fault ≡ tool.NoMemory) ⊎ (fault ≡ tool.Read)) }
{
    match content {
        Content::Stream => stream_line(alloc, bytes),
        Content::Text => text_line(alloc, bytes),
    }
}

fn stream_line(alloc: Global, bytes: &[u8]) -> Result<DueLine, ToolFault>
    ensures ok { IfOk result (λ x. IsDueLine content.Stream bytes.now x.outcome x.line.items) }
    ensures err { IfErr result (λ fault. (fault ≡ tool.NoMemory) ⊎ (fault ≡ tool.Read)) }
{
    let mut source = bytes;
    let mut out = Vec::new(alloc);
    match normalise(alloc, &mut source, &mut out) {
        Ok(_) => Ok(DueLine {
            line: line(alloc, &out)?,
            outcome: Ok(()),
        }),
        Err(ToolFault::Stream(fault)) => Ok(DueLine {
            line: line(alloc, &out)?,
            outcome: Err(ToolFault::Stream(fault)),
        }),
        Err(ToolFault::Read) => Err(ToolFault::Read),
        // What is written here goes to memory, and no text is read.
        Err(
            ToolFault::NoMemory
            | ToolFault::Write
            | ToolFault::Text(_)
            | ToolFault::TextTooLong
            | ToolFault::NotHex
            | ToolFault::Protocol(_),
        ) => Err(ToolFault::NoMemory),
    }
}

fn text_line(alloc: Global, bytes: &[u8]) -> Result<DueLine, ToolFault>
    ensures ok { IfOk result (λ x. IsDueLine content.Text bytes.now x.outcome x.line.items) }
    ensures err { IfErr result (λ fault. (fault ≡ tool.NoMemory) ⊎ (fault ≡ tool.Read)) }
{
    let mut source = bytes;
    let mut out = Vec::new(alloc);
    match normalise_text(alloc, &mut source, &mut out) {
        Ok(()) => Ok(DueLine {
            line: line(alloc, &out)?,
            outcome: Ok(()),
        }),
        Err(ToolFault::Text(fault)) => Ok(DueLine {
            line: line(alloc, &out)?,
            outcome: Err(ToolFault::Text(fault)),
        }),
        Err(ToolFault::TextTooLong) => Ok(DueLine {
            line: line(alloc, &out)?,
            outcome: Err(ToolFault::TextTooLong),
        }),
        Err(ToolFault::Read) => Err(ToolFault::Read),
        // What is written here goes to memory, and no stream is read.
        Err(
            ToolFault::NoMemory
            | ToolFault::Write
            | ToolFault::Stream(_)
            | ToolFault::NotHex
            | ToolFault::Protocol(_),
        ) => Err(ToolFault::NoMemory),
    }
}
