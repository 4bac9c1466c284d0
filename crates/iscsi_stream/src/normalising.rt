//! What is written for the stream that a reader gives: its canonical stream, or a line for each
//! PDU.

ghost use Rattle.std.specs.Prelude.{◌≡◌, ◌<◌, ◌^◌, ◌++◌, ◌∷◌, ℕ, List, [], length, IfOk, IfErr, OnOk, OnErr, IsTrue, ◌↔◌, false};
ghost use Rattle.std.specs.Io.KnownBytes.{Appends, Consumes, IsAtEnd};
ghost use Rattle.iscsi_pdu.specs.Meaning.{AreBytes, HeadFits, Means};
ghost use Rattle.iscsi_stream.specs.Stream.{Message, StreamMeans, message, longest_segment};
ghost use Rattle.iscsi_stream.specs.Framing.{is_ready, holding, message_of};
ghost use Rattle.iscsi_stream.specs.Normalising.{IsCanonical, IsNormalised, ShowPost, WriteDuePost, WritesUntil, AtEnd};
ghost use Rattle.iscsi_stream.specs.inner.Passing.{IsDueOutput, passing_progress, PassesOn, AppendedDue, PassFails};

use crate::canonical_form::canonical_of;
use crate::counts::Counts;
use crate::fault::ToolFault;
use crate::framer::Framer;
use crate::io::{PIECE, Reads, write_fully};
use crate::lines::show_line;
use iscsi_pdu::{HEADER_LEN, Head, Pdu, read_bare_head};
use std::alloc::{AllocError, Global};
use std::io::{Read, Write};

/// The longest segment that a header can say (RFC 7143, section 11.2.1.6).
pub const LONGEST_SEGMENT: u32 = 16_777_215;

/// What stands for a PDU.
#[derive(Clone, Copy)]
pub(crate) enum Form {
    /// Its canonical form.
    Canonical,
    /// Its line of text.
    Line,
}

/// Reads a stream to its end and writes its canonical stream; what the PDUs of one read give goes
/// out in one write.
///
/// Returns:
/// - `Stream` if the stream leaves the profile, having written the canonical form of all PDUs
///   before that place;
/// - `Read` if a read fails or 16,777,216 reads did not reach the end, having written the canonical
///   form of all whole PDUs that came;
/// - `NoMemory` if memory runs out, having written the canonical form of some first PDUs;
/// - `Write` if a write fails, having written a part of what was due.
pub fn normalise<R: Read, W: Write>(
    alloc: Global,
    r: &mut R,
    w: &mut W,
) -> Result<Counts, ToolFault>
    ensures ok { IfOk result (λ counts. (read : List ℕ) × (written : List ℕ) × AreBytes read
        × Consumes (R.remaining r.old) (R.remaining r.new) read
        × Appends (W.contents w.old) (W.contents w.new) written
        × IsNormalised counts read written) }
    ensures fault { IfErr result (λ fault. (read : List ℕ) × (written : List ℕ) × AreBytes read
        × Consumes (R.remaining r.old) (R.remaining r.new) read
        × Appends (W.contents w.old) (W.contents w.new) written
        × WritesUntil IsCanonical fault read written) }
    ensures end { AtEnd result (IsAtEnd (R.remaining r.new)) }
{
    write_stream(alloc, Form::Canonical, r, w)
}

/// Reads two streams to their ends, and says whether both mean the same. Returns the fault of
/// `normalise` of the first that has one. Both canonical streams are held.
pub fn have_one_meaning<R: Read, Q: Read>(
    alloc: Global,
    r: &mut R,
    q: &mut Q,
) -> Result<bool, ToolFault>
    ensures same { IfOk result (λ same. (s : List ℕ) × (t : List ℕ)
        × (ms : List Message) × (ns : List Message)
        × Consumes (R.remaining r.old) (R.remaining r.new) s
        × Consumes (Q.remaining q.old) (Q.remaining q.new) t
        × StreamMeans s ms × StreamMeans t ns × (IsTrue same ↔ (ms ≡ ns))) }
    ensures end { OnOk result (IsAtEnd (R.remaining r.new) × IsAtEnd (Q.remaining q.new)) }
{
    let mut first = Vec::new(alloc);
    let mut second = Vec::new(alloc);
    normalise(alloc, r, &mut first)?;
    normalise(alloc, q, &mut second)?;
    Ok(are_equal(&first, &second))
}

// Whether these bytes are those.
fn are_equal(first: &[u8], second: &[u8]) -> bool
    ensures { IsTrue result ↔ (first.now ≡ second.now) }
{
    first == second
}

/// Reads a stream to its end and writes a line for each PDU; the lines of the PDUs of one read go
/// out in one write.
///
/// Its faults are those of `normalise`, and what is written before them is the lines of the same
/// PDUs.
pub fn show<R: Read, W: Write>(alloc: Global, r: &mut R, w: &mut W) -> Result<Counts, ToolFault>
    ensures writes { (read : List ℕ) × (written : List ℕ) × AreBytes read
        × Consumes (R.remaining r.old) (R.remaining r.new) read
        × Appends (W.contents w.old) (W.contents w.new) written × ShowPost result read written }
    ensures end { AtEnd result (IsAtEnd (R.remaining r.new)) }
{
    write_stream(alloc, Form::Line, r, w)
}

// Reads a stream to its end and writes what stands for each PDU.
fn write_stream<R: Read, W: Write>(
    alloc: Global,
    form: Form,
    r: &mut R,
    w: &mut W,
) -> Result<Counts, ToolFault>
    ensures writes { (read : List ℕ) × (written : List ℕ) × AreBytes read
        × Consumes (R.remaining r.old) (R.remaining r.new) read
        × Appends (W.contents w.old) (W.contents w.new) written
        × WriteDuePost (IsDueOutput form) result read written }
    ensures end { AtEnd result (IsAtEnd (R.remaining r.new)) }
{
    let mut framer = Framer::new(alloc, LONGEST_SEGMENT);
    let mut out = Vec::new(alloc);
    let mut counts = Counts::new();
    let mut buffer = [0u8; PIECE];
    let mut reads = Reads::new();
    while let Some(n) = reads.next(r, &mut buffer)? {
        counts.bytes_in = counts.bytes_in.saturating_add(n as u64);
        out.clear();
        let passed = pass_on(form, &mut framer, &buffer[..n], &mut out, &mut counts);
        write_fully(w, &out)?;
        passed?;
    }
    framer.finish()?;
    Ok(counts)
}

// Takes a piece of the stream, and appends what stands for the PDUs that it makes whole.
fn pass_on(
    form: Form,
    framer: &mut Framer,
    piece: &[u8],
    out: &mut Vec<u8>,
    counts: &mut Counts,
) -> Result<(), ToolFault>
    requires limit { framer.old.limit ≡ longest_segment }
    requires unready { is_ready framer.old ≡ false }
    ensures bytes { AreBytes piece.now }
    ensures appended { AppendedDue form framer.old piece.now out.old.items out.new.items }
    ensures ok { OnOk result ((more : List Message)
        × PassesOn form (passing_progress framer.old out.old.items counts.old)
        (passing_progress framer.new out.new.items counts.new) piece.now more) }
    ensures err { IfErr result (PassFails form framer.old piece.now out.old.items out.new.items) }
{
    let mut rest = piece;
    while !rest.is_empty() {
        // Most PDUs have no segment, and lie whole in a piece.
        if let Some(header) = framer.next_header(rest) {
            // A head has 80 bytes, so it is lent where it lies.
            let bare = read_bare_head(header);
            if let Some(head) = &bare {
                append_bare(form, framer, head, out, counts)?;
                rest = &rest[HEADER_LEN..];
                continue;
            }
        }
        let taken = framer.feed(rest)?;
        rest = &rest[taken..];
        append_ready(form, framer, out, counts)?;
    }
    Ok(())
}

// Appends what stands for a PDU with this head and no segment, and passes it by.
#[inline(always)]
fn append_bare(
    form: Form,
    framer: &mut Framer,
    head: &Head,
    out: &mut Vec<u8>,
    counts: &mut Counts,
) -> Result<(), AllocError>
    requires fits { HeadFits head.now }
    requires empty { framer.old.held ≡ [] }
    ensures ok { OnOk result ((header : List ℕ) → Means header head.now []
        → PassesOn form (passing_progress (holding framer.old header) out.old.items counts.old)
        (passing_progress framer.new out.new.items counts.new) []
        (message_of framer.old head.now [] ∷ [])) }
    ensures err { OnErr result (out.new.items ≡ out.old.items) }
{
    let before = out.len();
    let continues = framer.continues(head);
    append_pdu(form, framer.place(), head, &[], continues, out)?;
    counts.pdus = counts.pdus.saturating_add(1);
    counts.bytes_out = counts.bytes_out.saturating_add((out.len() - before) as u64);
    framer.pass(head);
    Ok(())
}

// Appends what stands for the PDU that is ready, if one is, and gives it up.
fn append_ready(
    form: Form,
    framer: &mut Framer,
    out: &mut Vec<u8>,
    counts: &mut Counts,
) -> Result<(), AllocError>
    ensures ok { OnOk result ((more : List Message)
        × PassesOn form (passing_progress framer.old out.old.items counts.old)
        (passing_progress framer.new out.new.items counts.new) [] more) }
    ensures err { OnErr result (out.new.items ≡ out.old.items) }
{
    let Some((head, bytes)) = framer.ready() else {
        return Ok(());
    };
    let before = out.len();
    let continued = framer.continues(head);
    append_pdu(form, framer.place(), head, bytes, continued, out)?;
    counts.pdus = counts.pdus.saturating_add(1);
    counts.bytes_out = counts.bytes_out.saturating_add((out.len() - before) as u64);
    framer.take();
    Ok(())
}

// Appends what stands for a PDU at this place, which continues another or does not.
#[inline(always)]
fn append_pdu(
    form: Form,
    place: u64,
    head: &Head,
    bytes: &[u8],
    continued: bool,
    out: &mut Vec<u8>,
) -> Result<(), AllocError>
    requires fits { HeadFits head.now }
    requires short { length bytes.now < 2 ^ 24 }
    ensures ok { OnOk result ((due : List ℕ)
        × IsDueOutput form (message continued head.now bytes.now ∷ []) due
        × (out.new.items ≡ out.old.items ++ due)) }
    ensures err { OnErr result (out.new.items ≡ out.old.items) }
{
    match form {
        Form::Canonical => canonical_of(head, bytes, continued, out),
        Form::Line => show_line(place, &Pdu { head: *head, bytes }, out),
    }
}
