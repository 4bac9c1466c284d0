//! Outcomes that differ, by kind: a command, its recorded outcome and its live one.

use crate::comparing::{additional_sense, sense_key};
use iscsi_explain::notes_of;
use iscsi_job::{Asked, Ended, Item, Outcome};
use iscsi_pdu::{Head, Pdu, ScsiCommand};
use scsi_cdb::Cdb;
use std::alloc::{AllocError, Global};
use std::collections::BTreeMap;

/// How many kinds are told apart.
const MOST_KINDS: usize = 4096;

/// How many outcomes differ, by kind.
#[derive(Drop)]
pub struct Kinds {
    counts: BTreeMap<String, u64>,
}

impl Kinds {
    /// No kind. It takes no memory.
    pub(crate) fn new(alloc: Global) -> Kinds {
        Kinds {
            counts: BTreeMap::new(alloc),
        }
    }

    /// Counts an outcome that differs. Of more than 4,096 kinds the others are not told.
    pub(crate) fn add(&mut self, kind: String) -> Result<(), AllocError> {
        if let Some(count) = self.counts.get_mut(&kind) {
            *count = count.saturating_add(1);
            return Ok(());
        }
        if self.counts.len() < MOST_KINDS {
            self.counts.insert(kind, 1)?;
        }
        Ok(())
    }

    /// Appends a line for each kind, with how often it came.
    pub fn write(&self, text: &mut String) -> Result<(), AllocError> {
        for (kind, count) in self.counts.iter() {
            writeln!(text, "{count} times {kind}")?;
        }
        Ok(())
    }
}

/// The kind of an outcome that differs, in words.
pub(crate) fn kind_of(
    alloc: Global,
    item: &Item,
    recorded: Outcome<'_>,
    live: Outcome<'_>,
) -> Result<String, AllocError> {
    let mut kind = name_of(alloc, item)?;
    let mut before = String::new(alloc);
    write_ending(recorded, &mut before)?;
    let mut after = String::new(alloc);
    write_ending(live, &mut after)?;
    write!(kind, ": {before}, now {after}")?;
    if before == after {
        kind.push_str(" with ")?;
        kind.push_str(other_part(recorded, live))?;
    }
    Ok(kind)
}

// The name of what is asked.
fn name_of(alloc: Global, item: &Item) -> Result<String, AllocError> {
    match item.asked {
        Asked::Command { cdb, .. } => name_of_command(alloc, &cdb),
        Asked::Ping => String::from_str(alloc, "ping"),
        Asked::Text => String::from_str(alloc, "text"),
        Asked::Logout => String::from_str(alloc, "logout"),
        Asked::Task(_) => String::from_str(alloc, "task"),
    }
}

// The name of a command: its words without their numbers.
fn name_of_command(alloc: Global, block: &[u8; 16]) -> Result<String, AllocError> {
    let mut words = words_of_command(alloc, block)?;
    if let Some(at) = words.as_str().find(" lba=") {
        words.truncate(at);
    }
    Ok(words)
}

/// What a command asks for, in words.
pub fn words_of_command(alloc: Global, block: &[u8; 16]) -> Result<String, AllocError> {
    let head = Head::ScsiCommand(ScsiCommand {
        immediate: false,
        is_final: true,
        read: false,
        write: false,
        attribute: 0,
        lun: 0,
        initiator_task_tag: 0,
        expected_data_transfer_length: 0,
        cmd_sn: 0,
        exp_stat_sn: 0,
        cdb: Cdb::read(block),
    });
    let mut notes = notes_of(alloc, &Pdu { head, bytes: &[] })?;
    match notes.pop() {
        Some(words) => Ok(words),
        None => Ok(String::new(alloc)),
    }
}

// Appends how a request ended, without its data.
fn write_ending(outcome: Outcome<'_>, text: &mut String) -> Result<(), AllocError> {
    match outcome.ended {
        Ended::Command {
            response: 0,
            status,
            ..
        } => write_status(status, outcome.sense, text),
        Ended::Command { response, .. } => write!(text, "response {response:02x}"),
        Ended::Ping => text.push_str("ping"),
        Ended::Text => text.push_str("text"),
        Ended::Closed => text.push_str("closed"),
        Ended::Task(response) => write!(text, "done {response:02x}"),
    }
}

// Appends a status; one with sense as key, code and qualifier.
fn write_status(status: u8, sense: &[u8], text: &mut String) -> Result<(), AllocError> {
    if status == 0 {
        return text.push_str("good");
    }
    if status != 2 || sense.is_empty() {
        return write!(text, "status {status:02x}");
    }
    let key = sense_key(sense);
    let (code, qualifier) = additional_sense(sense);
    write!(text, "check {key:x}/{code:02x}/{qualifier:02x}")
}

// What differs of two outcomes that are told alike.
fn other_part(recorded: Outcome<'_>, live: Outcome<'_>) -> &'static str {
    if recorded.ended != live.ended {
        "another residual count"
    } else if recorded.sense != live.sense {
        "other sense data"
    } else {
        "other data"
    }
}
