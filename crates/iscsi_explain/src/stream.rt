//! The PDUs of a stream, each in a form.

ghost use Rattle.std.specs.Prelude.{◌≡◌, ◌<◌, [], ℕ, List, OnOk, OnErr};
ghost use Rattle.std.specs.Io.KnownBytes.{Appends, Consumes};
ghost use Rattle.iscsi_stream.specs.Stream.{Message, StreamMeans};
ghost use Rattle.iscsi_explain.specs.Showing.{AreEntries, PassesEntries, AppendsSome};

use crate::form::{Form, write_pdu};
use crate::requests::Requests;
use crate::stamp::Stamp;
use iscsi_pdu::Head;
use iscsi_stream::{Framer, LONGEST_SEGMENT, PIECE, Reads, ToolFault, write_fully};
use std::alloc::{AllocError, Global};
use std::io::{Read, Write};

/// How PDUs are written.
#[derive(Clone, Copy)]
pub struct Manner {
    /// The form of each.
    pub form: Form,
    /// What a capture says of those that are whole now; none for a stream.
    pub stamp: Option<Stamp>,
}

impl Manner {
    // How many bytes stand before the stream that is read, in the places that are told.
    fn from(&self) -> u64 {
        match self.stamp {
            Some(stamp) => stamp.from,
            None => 0,
        }
    }
}

/// Reads a stream to its end, and writes each PDU in a form; what the PDUs of one read give goes out
/// in one write.
///
/// Its faults are those of `iscsi_stream::show`, and what is written before them stands for the same
/// PDUs.
pub fn show_in_form<R: Read, W: Write>(
    alloc: Global,
    form: Form,
    r: &mut R,
    w: &mut W,
) -> Result<(), ToolFault>
    ensures writes { (read : List ℕ) × (written : List ℕ)
        × Consumes (R.remaining r.old) (R.remaining r.new) read
        × Appends (W.contents w.old) (W.contents w.new) written
        × OnOk result ((ms : List Message) × StreamMeans read ms × AreEntries form ms written) }
{
    let mut framer = Framer::new(alloc, LONGEST_SEGMENT);
    let mut requests = Requests::new(alloc);
    let mut out = Vec::new(alloc);
    let mut buffer = [0u8; PIECE];
    let mut reads = Reads::new();
    let manner = Manner { form, stamp: None };
    while let Some(n) = reads.next(r, &mut buffer)? {
        out.clear();
        let passed = pass_on(
            alloc,
            manner,
            &mut requests,
            &mut framer,
            &buffer[..n],
            &mut out,
        );
        write_fully(w, &out)?;
        passed?;
    }
    framer.finish()?;
    Ok(())
}

/// Takes a piece of a stream, and appends the PDUs that it makes whole, each in its form.
///
/// Returns `Stream` if the stream leaves the profile, and `NoMemory` if memory runs out; what was
/// appended before stands.
pub fn pass_on(
    alloc: Global,
    manner: Manner,
    requests: &mut Requests,
    framer: &mut Framer,
    piece: &[u8],
    out: &mut Vec<u8>,
) -> Result<(), ToolFault>
    ensures ok { OnOk result ((more : List Message)
        × PassesEntries manner.form framer.old framer.new
        out.old.items out.new.items piece.now more) }
    ensures err { OnErr result (AppendsSome manner.form out.old.items out.new.items) }
{
    append_ready(alloc, manner, requests, framer, out)?;
    let mut rest = piece;
    while !rest.is_empty() {
        let taken = framer.feed(rest)?;
        rest = &rest[taken..];
        append_ready(alloc, manner, requests, framer, out)?;
    }
    Ok(())
}

// What a capture says of a PDU. A line alone tells nothing of requests.
fn stamp_of(manner: Manner, requests: &mut Requests, head: &Head) -> Option<Stamp> {
    match manner.form {
        Form::Line => manner.stamp,
        _ => requests.stamped(manner.stamp, head),
    }
}

// Appends the PDU that is ready, if one is, and gives it up.
fn append_ready(
    alloc: Global,
    manner: Manner,
    requests: &mut Requests,
    framer: &mut Framer,
    out: &mut Vec<u8>,
) -> Result<(), AllocError>
    ensures ok { OnOk result ((more : List Message)
        × PassesEntries manner.form framer.old framer.new
        out.old.items out.new.items [] more) }
    ensures err { OnErr result (out.new.items ≡ out.old.items) }
{
    let Some(pdu) = framer.pdu() else {
        return Ok(());
    };
    let stamp = stamp_of(manner, requests, &pdu.head);
    let place = framer.place().saturating_add(manner.from());
    write_pdu(alloc, manner.form, stamp, place, &pdu, out)?;
    framer.take();
    Ok(())
}
