//! The lines of a request and of what came of it, written.

ghost use Rattle.std.specs.Prelude.{◌≡◌, ◌++◌, true, false, List, ℕ, [], ◌∷◌, Some, None, IfOk, IfSome, OnOk, string_bytes};
ghost use Rattle.std.specs.List.{list_all};
ghost use Rattle.iscsi_job_text.specs.Entries.{AskTheSame, GaveTheSame, said};
ghost use Rattle.iscsi_job_text.specs.Jobs.{EndsLine, Says, is_plain_byte, requests_from, text_lines};

use crate::entry::{Entry, Time};
use crate::fault::{LineFault, WriteFault};
use crate::job_reading::{entry_of, take_line};
use crate::outcome_writing::write_ending;
use crate::request_writing::write_asking;
use crate::words::parted;
use iscsi_job::Item;
use std::alloc::Global;

/// The number of the form that texts of jobs have.
pub const FORM: u64 = 2;

/// Appends the lines of a request, of its time and of its outcome.
///
/// The lines are read back, and appended if they mean the same. Returns `Unsaid` of a request that no text
/// has: one that sends bytes and is of no kind that does, or an outcome of another kind of request. Data that
/// came of a request without an outcome are left out. After
/// a fault the text is as it was, or has a part of the lines.
pub fn write_entry(alloc: Global, entry: &Entry, text: &mut String) -> Result<(), WriteFault>
    // The text grows by lines that mean the request, and say all that is to be said of it.
    ensures says { OnOk result ((lines : List ℕ)
        × (string_bytes text.new ≡ string_bytes text.old ++ lines) × Says lines entry.now) }
{
    let lines = lines_of(alloc, entry)?;
    if !says(alloc, lines.as_bytes(), entry)? {
        return Err(WriteFault::Unsaid);
    }
    text.push_str(lines.as_str())?;
    Ok(())
}

// The lines of a request, each with its end.
fn lines_of(alloc: Global, entry: &Entry) -> Result<String, WriteFault> {
    let mut lines = String::new(alloc);
    write_asking(alloc, &entry.item, entry.sent, &mut lines)?;
    lines.push_str("\n")?;
    if let Some(said) = entry.time {
        write_time(said, &mut lines)?;
        lines.push_str("\n")?;
    }
    write_ending(
        alloc,
        "was",
        entry.item.outcome(),
        entry.received,
        &mut lines,
    )?;
    lines.push_str("\n")?;
    Ok(lines)
}

// Appends the line of a time.
fn write_time(time: Time, text: &mut String) -> Result<(), WriteFault> {
    let sent = time.sent;
    write!(text, "  time {sent}")?;
    if let Some(took) = time.took {
        write!(text, " took {took}")?;
    }
    Ok(())
}

// Whether lines mean a request, and say all of it.
#[tactic(auto, using(crate::proofs::EntryLemmas::plain_lines))]
fn says(alloc: Global, lines: &[u8], entry: &Entry) -> Result<bool, WriteFault>
    ensures { IfOk result (λ same. same ≡ true → Says lines.now entry.now) }
{
    if !is_plain(lines) || !ends_line(lines) {
        return Ok(false);
    }
    match read_back(alloc, lines) {
        Ok(Some(again)) => Ok(is_same(&again, entry)),
        Ok(None) | Err(LineFault::Refused(_)) => Ok(false),
        Err(LineFault::NoMemory) => Err(WriteFault::NoMemory),
    }
}

// Whether a text ends with a line end.
fn ends_line(text: &[u8]) -> bool
    ensures { result ≡ true → EndsLine text.now }
{
    match text.last() {
        Some(byte) => *byte == b'\n',
        None => false,
    }
}

// Whether all blanks of a text are spaces.
fn is_plain(text: &[u8]) -> bool
    ensures { result ≡ list_all is_plain_byte text.now }
{
    text.iter().all(|byte| *byte != b'\t' && *byte != b'\r')
}

// The one request that lines mean, if they mean no other one.
fn read_back(alloc: Global, text: &[u8]) -> Result<Option<Entry>, LineFault>
    ensures { IfOk result (λ found. IfSome found (λ entry.
        requests_from false None (text_lines text.now) ≡ Some (entry ∷ []))) }
{
    let mut pending = None;
    let mut rest = text;
    while rest.len() > 0 {
        let (line, more) = parted(rest, b'\n');
        if take_line(alloc, false, &mut pending, line)?.is_some() {
            return Ok(None);
        }
        rest = more;
    }
    Ok(entry_of(pending))
}

// Whether two requests, and what a text says of them, are the same.
#[tactic(auto, using(crate::proofs::EntryLemmas::same_unanswered, crate::proofs::EntryLemmas::same_answered))]
fn is_same(one: &Entry, other: &Entry) -> bool
    ensures { result ≡ true → said one.now ≡ said other.now }
{
    asks_the_same(one, other) && (one.item.ended.is_none() || gave_the_same(one, other))
}

// Whether two requests ask the same, and ended alike, with the same times and places.
fn asks_the_same(one: &Entry, other: &Entry) -> bool
    ensures { result ≡ true → AskTheSame one.now other.now }
{
    is_same_request(&one.item, &other.item) && one.sent == other.sent && one.time == other.time
}

// Whether two requests ask the same, and ended alike.
fn is_same_request(one: &Item, other: &Item) -> bool
    ensures asked { result ≡ true → one.now.asked ≡ other.now.asked }
    ensures sent { result ≡ true → one.now.sent ≡ other.now.sent }
    ensures ended { result ≡ true → one.now.ended ≡ other.now.ended }
{
    one.asked == other.asked
        && one.sent.as_slice() == other.sent.as_slice()
        && one.ended == other.ended
}

// Whether the same came of two requests that have ended.
fn gave_the_same(one: &Entry, other: &Entry) -> bool
    ensures { result ≡ true → GaveTheSame one.now other.now }
{
    one.item.sense.as_slice() == other.item.sense.as_slice()
        && one.item.received.as_slice() == other.item.received.as_slice()
        && one.received == other.received
}
