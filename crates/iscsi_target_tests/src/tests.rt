//! A target by example.

use iscsi_login::{Phase, Preferences};
use iscsi_target::{Config, Target, TargetFault};
use scsi_disk::BlockStore;
use std::alloc::Global;
use std::process::Abort;

mod changes;
mod chap;
mod configs;
mod data_in_limits;
mod dialogues;
mod exchanges;
mod portals;
mod queues;
mod rows;
mod units;

const NAME: &[u8] = b"iqn.2026-01.example:disk";

/// In place of the length of pieces: one PDU at a time.
const BY_PDU: usize = 0;

// A target that has just begun. It stands in a box: a function that owns it is then proved much sooner.
fn target_of(rt: &impl Abort, alloc: Global) -> Box<Target> {
    target_with(rt, alloc, Preferences::standard())
}

// A target with these preferences that has just begun.
fn target_with(rt: &impl Abort, alloc: Global, preferences: Preferences) -> Box<Target> {
    let config = Config::new(alloc, NAME, 1, 1, preferences).expect(rt, "a configuration");
    Box::new(alloc, Target::new(alloc, config, 1)).expect(rt, "a target")
}

// A target that has just begun, and lets in initiators of these names alone.
fn target_that_lists(rt: &impl Abort, alloc: Global, names: &[&[u8]]) -> Box<Target> {
    let preferences = Preferences::standard();
    let config = Config::new(alloc, NAME, 1, 1, preferences).expect(rt, "a configuration");
    let config = config.with_names(alloc, names).expect(rt, "names");
    Box::new(alloc, Target::new(alloc, config, 1)).expect(rt, "a target")
}

// Feeds what comes in a turn one PDU at a time, and gives the last answer.
fn feed_pdus<S: BlockStore>(
    target: &mut Target,
    stream: &[u8],
    store: &mut S,
    out: &mut Vec<u8>,
) -> Result<Phase, TargetFault> {
    let mut phase = target.phase();
    let mut rest = stream;
    for _ in 0..100 {
        if rest.is_empty() {
            return Ok(phase);
        }
        let (taken, now) = target.feed_next(rest, store, out)?;
        rest = rest.get(taken..).unwrap_or_default();
        phase = now;
        if phase == Phase::Closed {
            return Ok(phase);
        }
    }
    Ok(phase)
}

// Feeds what comes in a turn in pieces of this length, and gives the last answer.
fn feed_pieces<S: BlockStore>(
    target: &mut Target,
    stream: &[u8],
    len: usize,
    store: &mut S,
    out: &mut Vec<u8>,
) -> Result<Phase, TargetFault> {
    if len == BY_PDU {
        return feed_pdus(target, stream, store, out);
    }
    let mut phase = target.phase();
    for piece in stream.chunks(len.max(1)) {
        phase = target.feed(piece, store, out)?;
        if phase == Phase::Closed {
            return Ok(phase);
        }
    }
    Ok(phase)
}
