//! What is written for one direction of a connection of a capture: its canonical stream, or a line
//! for each PDU.

ghost use Rattle.std.specs.Prelude.{ℕ, List, Result, IsOk, MatchResult, OnOk};
ghost use Rattle.std.specs.Io.KnownBytes.{Appends};
ghost use Rattle.iscsi_pdu.specs.Meaning.{AreBytes};
ghost use Rattle.iscsi_stream.specs.Normalising.{IsCanonical, IsNormalised, ShowPost, WritesUntil};
ghost use Rattle.iscsi_stream.specs.Stream.{Message, StreamMeans};
ghost use Rattle.iscsi_explain.specs.Showing.{AreEntries};
ghost use Rattle.iscsi_stream.specs.declared.counts.Counts.{Counts};
ghost use Rattle.iscsi_stream.specs.declared.fault.ToolFault.{ToolFault};

use crate::captured::Wanted;
use crate::fault::CapturesFault;
use crate::undigested::Undigested;
use iscsi_explain::{Form, show_in_form};
use iscsi_stream::{ToolFault, normalise, show};
use std::alloc::Global;
use std::io::{Read, Write};

/// Reads a direction to its end and writes its canonical stream, as `iscsi_stream::normalise` does
/// for the stream of its bytes without digests.
///
/// A fault of the capture or of the direction comes after what is due for all whole PDUs before it.
/// `Reads` comes where 16,777,216 reads did not reach the end of the direction.
/// `Stream` comes where the stream leaves the profile, `NoMemory` where memory runs out, and
/// `Write` where a write fails. After a fault the direction is used no more.
pub fn normalise_captured<R: Read, W: Write>(
    alloc: Global,
    captured: &mut Undigested<'_, R>,
    w: &mut W,
) -> Result<(), CapturesFault>
    ensures writes { (said : Result Counts ToolFault) × (bytes : List ℕ) × (written : List ℕ)
        × AreBytes bytes × Appends (W.contents w.old) (W.contents w.new) written
        × MatchResult said (λ counts. IsNormalised counts bytes written)
        (λ fault. WritesUntil IsCanonical fault bytes written) × (IsOk result → IsOk said) }
{
    let said = normalise(alloc, captured, w);
    told(said, captured.fault(), captured.wanted())
}

/// Reads a direction to its end and writes a line for each PDU, as `iscsi_stream::show` does for
/// the stream of its bytes. Its faults are those of `normalise_captured`.
pub fn show_captured<R: Read, W: Write>(
    alloc: Global,
    captured: &mut Undigested<'_, R>,
    w: &mut W,
) -> Result<(), CapturesFault>
    ensures writes { (said : Result Counts ToolFault) × (bytes : List ℕ) × (written : List ℕ)
        × AreBytes bytes × Appends (W.contents w.old) (W.contents w.new) written
        × ShowPost said bytes written × (IsOk result → IsOk said) }
{
    let said = show(alloc, captured, w);
    told(said, captured.fault(), captured.wanted())
}

/// Reads a direction to its end and writes each PDU in a form, as `iscsi_explain::show_in_form` does
/// for the stream of its bytes. Its faults are those of `normalise_captured`.
pub fn tell_captured<R: Read, W: Write>(
    alloc: Global,
    form: Form,
    captured: &mut Undigested<'_, R>,
    w: &mut W,
) -> Result<(), CapturesFault>
    ensures writes { (written : List ℕ) × Appends (W.contents w.old) (W.contents w.new) written
        × OnOk result ((bytes : List ℕ) × (ms : List Message) × StreamMeans bytes ms
        × AreEntries form ms written) }
{
    let said = show_in_form(alloc, form, captured, w);
    told(said, captured.fault(), captured.wanted())
}

// How a job over a direction ended. A read fails where the direction has a fault, and tells it. A
// job fails without one if it has read as often as it may.
fn told<T: Drop>(
    said: Result<T, ToolFault>,
    fault: Option<CapturesFault>,
    wanted: Wanted,
) -> Result<(), CapturesFault>
    ensures { IsOk result → IsOk said }
{
    let connection = wanted.connection;
    match said {
        Ok(_) => Ok(()),
        Err(ToolFault::Stream(fault)) => Err(CapturesFault::Stream { connection, fault }),
        Err(ToolFault::NoMemory) => Err(CapturesFault::NoMemory),
        Err(ToolFault::Write) => Err(CapturesFault::Write),
        Err(_) => Err(fault.unwrap_or(CapturesFault::Reads { connection })),
    }
}
