//! The job that a text is, read as it goes.

ghost use Rattle.std.specs.Prelude.{◌≡◌, ◌==◌, Some, None, option_map, IfOk, IfErr, IfSome, IsSome, OnOk, OnErr};
ghost use Rattle.iscsi_job_text.specs.Words.{line_words};
ghost use Rattle.iscsi_job_text.specs.Entries.{begun_pending};
ghost use Rattle.iscsi_job_text.specs.Taking.{begins_behind, form_by, is_indented, line_added, taken};
ghost use Rattle.iscsi_job_text.specs.Faults.{RefusesOnly};
ghost use Rattle.iscsi_job_text.specs.Pendings.{pending_held};
ghost use Rattle.iscsi_job_text.specs.Reading.{ReadsRequest, unread_job};

use crate::entry::Entry;
use crate::entry_reading::Pending;
use crate::entry_writing::FORM;
use crate::fault::{LineFault, LineReason, TextFault};
use crate::line_reading::LineReader;
use crate::words::Words;
use std::alloc::Global;
use std::io::Read;
use std::marker::Model;

/// A job that is read request by request. It holds a request and a line at a time.
#[derive(Drop)]
pub struct JobReader {
    alloc: Global,
    lines: LineReader,
    // the last request, to which lines may still be added
    pending: Option<Pending>,
}

impl Model for JobReader {
    ghost use Rattle.std.specs.Prelude.{option_map};
    ghost use Rattle.iscsi_job_text.specs.Pendings.{pending_held};
    ghost use Rattle.iscsi_job_text.specs.Reading.{JobHeld, job_held};

    ghost Value = { JobHeld };

    ghost view = { λ reader. job_held reader.lines (option_map pending_held reader.pending) };
}

impl JobReader {
    /// A job of which nothing was read. It takes no memory.
    pub fn new(alloc: Global) -> JobReader
        ensures { result ≡ unread_job }
    {
        JobReader {
            alloc,
            lines: LineReader::new(alloc),
            pending: None,
        }
    }

    /// Reads on to the end of the next request, and returns it; nothing at the end of the text.
    ///
    /// A line that begins with no blank is a request. One that begins with a blank is the time or the
    /// outcome of the request above. What stands behind a `#` is a comment, and empty lines are passed
    /// over. The first line may name the form. Returns `Line` with the first line, counted from 1, that is
    /// refused, and `TooLong` with one of more than 1,073,741,824 bytes.
    pub fn next<R: Read>(&mut self, r: &mut R) -> Result<Option<Entry>, TextFault>
        ensures reads { IfSome (R.remaining r.old) (λ left. IfOk result
            (ReadsRequest self.old self.new left (R.remaining r.new))) }
    {
        for _ in 0..u64::MAX {
            if !self.lines.next(r)? {
                return Ok(entry_of(self.pending.take()));
            }
            match take(self.alloc, &mut self.pending, &self.lines) {
                Ok(Some(entry)) => return Ok(Some(entry)),
                Ok(None) => {}
                Err(fault) => return Err(fault.at(self.lines.number())),
            }
        }
        Err(TextFault::Read)
    }
}

// Takes the line that was read. Returns a request to which no line is added any more.
fn take(
    alloc: Global,
    pending: &mut Option<Pending>,
    lines: &LineReader,
) -> Result<Option<Entry>, LineFault>
    ensures reads { IfOk result (λ found.
        taken (lines.now.count == 1) (option_map pending_held pending.old) lines.now.line
        ≡ Some (record {
          finished = found;
          pending = option_map pending_held pending.new;
        })) }
{
    let Ok(_) = std::str::from_utf8(lines.line()) else {
        return Err(LineFault::Refused(LineReason::Utf8));
    };
    take_line(alloc, lines.number() == 1, pending, lines.line())
}

/// The request, with no line more.
pub(crate) fn entry_of(pending: Option<Pending>) -> Option<Entry>
    ensures { result ≡ option_map (λ it. it.entry) pending }
{
    match pending {
        Some(pending) => Some(pending.entry),
        None => None,
    }
}

/// Takes a line, of which the blanks are spaces. Returns the request before if another one begins.
pub(crate) fn take_line(
    alloc: Global,
    is_first: bool,
    pending: &mut Option<Pending>,
    line: &[u8],
) -> Result<Option<Entry>, LineFault>
    ensures reads { IfOk result (λ found.
        taken is_first (option_map pending_held pending.old) line.now
        ≡ Some (record {
          finished = found;
          pending = option_map pending_held pending.new;
        })) }
    ensures refuses { IfErr result (RefusesOnly
        (taken is_first (option_map pending_held pending.old) line.now)) }
{
    if Words::of(line).is_empty() {
        return Ok(None);
    }
    if is_indented(line) {
        add(alloc, pending, line)?;
        return Ok(None);
    }
    if is_first && names_form(line)? {
        return Ok(None);
    }
    begin(alloc, pending, line)
}

// Whether a line begins with a blank.
fn is_indented(line: &[u8]) -> bool
    ensures { result ≡ is_indented line.now }
{
    match line {
        [byte, ..] => *byte == b' ',
        [] => false,
    }
}

// Adds a line to the pending request.
fn add(alloc: Global, pending: &mut Option<Pending>, line: &[u8]) -> Result<(), LineFault>
    ensures reads { OnOk result (line_added (option_map pending_held pending.old) line.now
        ≡ option_map pending_held pending.new) }
    ensures some { OnOk result (IsSome pending.new) }
    ensures refuses { IfErr result (RefusesOnly
        (line_added (option_map pending_held pending.old) line.now)) }
{
    match pending {
        Some(pending) => pending.add(alloc, line),
        None => Err(LineFault::Refused(LineReason::Stray)),
    }
}

// Begins a request. Returns the one before.
fn begin(
    alloc: Global,
    pending: &mut Option<Pending>,
    line: &[u8],
) -> Result<Option<Entry>, LineFault>
    ensures reads { IfOk result (λ found.
        option_map (begins_behind (option_map pending_held pending.old)) (begun_pending line.now)
        ≡ Some (record {
          finished = found;
          pending = option_map pending_held pending.new;
        })) }
    ensures refuses { IfErr result (RefusesOnly (begun_pending line.now)) }
{
    let begun = Pending::begun_by(alloc, line)?;
    Ok(entry_of(pending.replace(begun)))
}

// Whether a line names the form of the text.
fn names_form(line: &[u8]) -> Result<bool, LineReason>
    ensures reads { IfOk result (λ found. form_by (line_words line.now) ≡ Some found) }
    ensures refuses { OnErr result (form_by (line_words line.now) ≡ None) }
{
    let mut words = Words::of(line);
    if !words.take_if(b"job") {
        return Ok(false);
    }
    if words.number(u64::MAX)? != FORM {
        return Err(LineReason::Form);
    }
    words.end()?;
    Ok(true)
}
