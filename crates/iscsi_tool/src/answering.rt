//! The answers of a target to a stream.

ghost use Rattle.std.specs.Prelude.{false, ◌≡◌, ◌⊎◌, ◌<◌, ◌≤◌, ℕ, List, Err, OnOk};
ghost use Rattle.std.specs.Io.KnownBytes.{Appends, Consumes, IsAtEnd};
ghost use Rattle.hex.specs.Hex.{IsBytes};
ghost use Rattle.scsi_disk.specs.Disk.{zeros, most_blocks};
ghost use Rattle.iscsi_stream.specs.declared.fault.ToolFault.TheVariants as tool;
ghost use Rattle.iscsi_serve.specs.Session.{target_settings, EndsWell};
ghost use Rattle.iscsi_filters.specs.Filters.{CutAtEnd, HexAtEnd};
ghost use Rattle.iscsi_tool.specs.Answering.{AnswersBytes, AnswersHex, SpellsAnswers};
ghost use Rattle.iscsi_tool.specs.inner.Answering.{filter_fault};
ghost use Rattle.iscsi_tool.specs.inner.Spelling.{LineEndWritten};

use crate::hex_writer::{HexWriter, LentWriter};
use iscsi_filters::read_bytes;
use iscsi_serve::{SessionFault, configuration, serve_stream};
use iscsi_stream::{ToolFault, write_fully};
use iscsi_target::TargetFault;
use scsi_disk::SparseStore;
use std::alloc::Global;
use std::io::{Read, Write};

/// Writes the answers of a target, with a disk of `n` blocks of 00, to the stream that a reader
/// gives. What one read leads to goes out in one write. It stops where the session is closed.
///
/// It writes the answers to all PDUs of what was read. If memory runs out, it has written those to
/// some first PDUs, and to some first tasks of the next one. Nothing is said about a failed write.
/// Returns:
/// - `Stream`, with its place, if the stream ends within a PDU or has what the framer of the target
///   refuses;
/// - `Protocol` with the rule that the last PDU broke;
/// - `Ok` if no rule was broken and the stream ends behind a PDU, or if the session was closed. A
///   refused login is no fault. `Read`, `Write` and `NoMemory` are as in `normalise`.
#[tactic(auto, using(crate::proofs::AtEndLemmas::session_at_end))]
pub fn answer<R: Read, W: Write>(
    alloc: Global,
    blocks: u64,
    r: &mut R,
    w: &mut W,
) -> Result<(), ToolFault>
    requires some { 0 < blocks }
    requires few { blocks ≤ most_blocks }
    ensures answers { (read : List ℕ) × (written : List ℕ)
        × Consumes (R.remaining r.old) (R.remaining r.new) read
        × Appends (W.contents w.old) (W.contents w.new) written × IsBytes written
        × AnswersBytes blocks result read written }
    ensures end { OnOk result
        (EndsWell false target_settings (zeros blocks) (R.remaining r.old) (R.remaining r.new)) }
    ensures cut { CutAtEnd result (IsAtEnd (R.remaining r.new)) }
{
    let config = configuration(alloc)?;
    let mut store = SparseStore::new(alloc, blocks);
    match serve_stream(alloc, config, &mut store, r, w) {
        Ok(()) => Ok(()),
        Err(fault) => Err(filter_fault(fault)),
    }
}

/// Writes the answers to a stream that comes as hex text, as `answer` does, in lower hex, as they
/// come. The text is read to its end first.
///
/// Returns what `answer` does for the bytes that the text means, and `NotHex` as `read_bytes`. A
/// line end follows the answers behind `Ok`, `Stream` and `Protocol`. After `NotHex`, and if memory
/// or the reader failed before the text was whole, nothing is written. If memory runs out later,
/// the digits stand of the answers that `answer` writes then. Of a failed write nothing is said.
#[tactic(auto, using(iscsi_filters::proofs::AtEndLemmas::hex_refused, iscsi_filters::proofs::AtEndLemmas::hex_read))]
pub fn answer_hex<R: Read, W: Write>(
    alloc: Global,
    blocks: u64,
    r: &mut R,
    w: &mut W,
) -> Result<(), ToolFault>
    requires some { 0 < blocks }
    requires few { blocks ≤ most_blocks }
    ensures answers { (read : List ℕ) × (written : List ℕ)
        × Consumes (R.remaining r.old) (R.remaining r.new) read
        × Appends (W.contents w.old) (W.contents w.new) written
        × AnswersHex blocks result read written }
    ensures end { OnOk result (IsAtEnd (R.remaining r.new)) }
    ensures refused { HexAtEnd result (R.remaining r.old) (R.remaining r.new) }
{
    let bytes = read_bytes(alloc, r)?;
    answer_digits(alloc, blocks, &bytes, w)
}

// Writes the answers to the stream that bytes are, in lower hex.
fn answer_digits<W: Write>(
    alloc: Global,
    blocks: u64,
    bytes: &[u8],
    w: &mut W,
) -> Result<(), ToolFault>
    requires some { 0 < blocks }
    requires few { blocks ≤ most_blocks }
    ensures spells { (written : List ℕ) × Appends (W.contents w.old) (W.contents w.new) written
        × ((result ≡ Err tool.Write) ⊎ SpellsAnswers blocks result bytes.now written) }
{
    let mut source = bytes;
    let mut digits = HexWriter::new(LentWriter { writer: w });
    let outcome = answer(alloc, blocks, &mut source, &mut digits);
    let is_cut = digits.is_cut();
    let LentWriter { writer } = digits.into_inner();
    finish(outcome, is_cut, writer)
}

// Writes the line end that is due. A byte that was cut between its digits is a failed write.
fn finish<W: Write>(
    outcome: Result<(), ToolFault>,
    is_cut: bool,
    w: &mut W,
) -> Result<(), ToolFault>
    ensures finishes { (ending : List ℕ) × Appends (W.contents w.old) (W.contents w.new) ending
        × LineEndWritten outcome is_cut result ending }
{
    if is_cut {
        return Err(ToolFault::Write);
    }
    if let Ok(()) | Err(ToolFault::Stream(_) | ToolFault::Protocol(_)) = outcome {
        write_fully(w, b"\n")?;
    }
    outcome
}

// The fault of a filter. A closed session is not fed, and its stream is read no further. A store in
// memory has nothing to sync.
fn filter_fault(fault: SessionFault) -> ToolFault
    ensures fault { result ≡ filter_fault fault }
{
    match fault {
        SessionFault::NoMemory | SessionFault::Target(TargetFault::NoMemory) => ToolFault::NoMemory,
        SessionFault::Target(TargetFault::Stream(fault)) => ToolFault::Stream(fault),
        SessionFault::Target(TargetFault::Protocol(rule)) => ToolFault::Protocol(rule),
        SessionFault::Target(TargetFault::Closed) | SessionFault::Read => ToolFault::Read,
        SessionFault::Sync | SessionFault::Write => ToolFault::Write,
    }
}
