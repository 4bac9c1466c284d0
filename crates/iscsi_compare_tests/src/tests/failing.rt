//! Readers that fail.

use super::bytes_of;
use super::worked::{CANONICAL, RAW};
use crate::asserts::same;
use iscsi_compare::{CompareFault, Verdict, Which, compare};
use iscsi_test_support::{SURE, Source, Steps};
use std::alloc::Global;
use std::process::Abort;

// A read of the first or the second stream fails after others, and whether it was come to.
fn check_read(
    rt: &impl Abort,
    alloc: Global,
    streams: (&[u8], &[u8]),
    which: Which,
    before: usize,
) -> bool {
    let failing = Steps {
        step: 48,
        before: Some(before),
    };
    let (steps, other_steps) = match which {
        Which::First => (failing, SURE),
        Which::Second => (SURE, failing),
    };
    let mut first = Source::new(streams.0, steps);
    let mut second = Source::new(streams.1, other_steps);
    let mut lines = Vec::new(alloc);
    let said = compare(alloc, &mut first, &mut second, &mut lines);
    let is_met = first.failures > 0 || second.failures > 0;
    let due = if is_met {
        Err(CompareFault::Read(which))
    } else {
        Ok(Verdict::Same)
    };
    same(rt, &said, &due, &before);
    same(rt, &lines.len(), &0, &before);
    is_met
}

// How many reads of the first or the second stream fail in turn.
fn count_read(rt: &impl Abort, alloc: Global, streams: (&[u8], &[u8]), which: Which) -> u64 {
    let mut met = 0u64;
    for before in 0..9usize {
        if check_read(rt, alloc, streams, which, before) {
            met = met.saturating_add(1);
        }
    }
    met
}

/// Five pieces of a stream, and its end.
#[test]
fn each_read_fails(rt: HostRuntime) {
    let raw = bytes_of(&rt, rt.alloc(), RAW);
    let canonical = bytes_of(&rt, rt.alloc(), CANONICAL);
    let met = count_read(&rt, rt.alloc(), (&raw, &canonical), Which::First);
    same(&rt, &met, &6, &Which::First);
    let met = count_read(&rt, rt.alloc(), (&raw, &canonical), Which::Second);
    same(&rt, &met, &6, &Which::Second);
}
