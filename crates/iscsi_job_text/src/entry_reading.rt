//! The lines of a request, read.

ghost use Rattle.std.specs.Prelude.{◌≡◌, Some, None, IfOk, IfErr, OnOk, OnErr, option_map};
ghost use Rattle.iscsi_job_text.specs.Requests.{whole_line};
ghost use Rattle.iscsi_job_text.specs.Entries.{begun, begun_pending, time_said, entry_with_line, pending_with_line};
ghost use Rattle.iscsi_job_text.specs.Faults.{RefusesOnly};
ghost use Rattle.iscsi_job_text.specs.Pendings.{pending_held};

use crate::entry::{Entry, Time};
use crate::fault::{LineFault, LineReason};
use crate::outcome_reading::outcome_of;
use crate::request_reading::request_of;
use crate::words::Words;
use iscsi_job::Item;
use std::alloc::Global;

/// A request to which lines may still be added.
#[derive(Drop)]
pub(crate) struct Pending {
    pub(crate) entry: Entry,
    // whether it has an outcome
    has_outcome: bool,
}

impl Pending {
    /// The request that a line begins.
    pub(crate) fn begun_by(alloc: Global, line: &[u8]) -> Result<Pending, LineFault>
        ensures reads { IfOk result (λ found. begun_pending line.now ≡ Some (pending_held found)) }
        ensures refuses { IfErr result (RefusesOnly (begun_pending line.now)) }
    {
        let entry = begun_by(alloc, line)?;
        Ok(Pending {
            entry,
            has_outcome: false,
        })
    }

    /// Adds a line: the time of the request, or its outcome. Nothing stands behind an outcome.
    pub(crate) fn add(&mut self, alloc: Global, line: &[u8]) -> Result<(), LineFault>
        ensures reads { OnOk result (
            pending_with_line (pending_held self.old) line.now ≡ Some (pending_held self.new)) }
        ensures refuses { IfErr result (RefusesOnly
            (pending_with_line (pending_held self.old) line.now)) }
    {
        if self.has_outcome {
            return Err(LineFault::Refused(LineReason::Stray));
        }
        let is_time = self.entry.time.is_some();
        take_line(alloc, &mut self.entry, line)?;
        self.has_outcome = is_time || self.entry.time.is_none();
        Ok(())
    }
}

// The request that a line begins.
fn begun_by(alloc: Global, line: &[u8]) -> Result<Entry, LineFault>
    ensures reads { IfOk result (λ entry. begun line.now ≡ Some entry) }
    ensures refuses { IfErr result (RefusesOnly (begun line.now)) }
{
    let (asked, sent) = request_of(alloc, line)?;
    Ok(Entry {
        item: Item {
            asked,
            sent: sent.bytes,
            ended: None,
            sense: Vec::new(alloc),
            received: Vec::new(alloc),
        },
        sent: sent.stored,
        received: None,
        time: None,
    })
}

// Takes a line below that of a request: its time, or its outcome.
fn take_line(alloc: Global, entry: &mut Entry, line: &[u8]) -> Result<(), LineFault>
    ensures reads { OnOk result (entry_with_line entry.old line.now ≡ Some entry.new) }
    ensures refuses { IfErr result (RefusesOnly (entry_with_line entry.old line.now)) }
{
    let mut words = Words::of(line);
    if words.take_if(b"time") {
        entry.time = Some(time_of(&mut words)?);
        return Ok(());
    }
    if !words.take_if(b"was") {
        return Err(LineFault::Refused(LineReason::Outcome));
    }
    let came = outcome_of(alloc, entry.item.asked, &mut words)?;
    entry.item.ended = came.ended;
    entry.item.sense = came.sense;
    entry.item.received = came.received.bytes;
    entry.received = came.received.stored;
    Ok(())
}

// A time, in nanoseconds.
fn time_of(words: &mut Words<'_>) -> Result<Time, LineReason>
    ensures reads { IfOk result (λ time. whole_line (time_said words.old) ≡ Some time) }
    ensures refuses { OnErr result (whole_line (time_said words.old) ≡ None) }
{
    let sent = words.number(u64::MAX)?;
    let took = words.number_behind(b"took", u64::MAX)?;
    words.end()?;
    Ok(Time { sent, took })
}
