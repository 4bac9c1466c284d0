//! A file from step to step.

use crate::asserts::{same, same_bytes};
use capture_file::{Capture, CaptureFault, Packet, Step};
use std::alloc::Global;
use std::process::Abort;

/// A packet that is due, and where its record or block ends.
#[derive(Clone, Copy)]
pub struct Due {
    pub end: usize,
    pub time: u64,
    pub second: u64,
    pub link: u16,
    pub original: u32,
    pub bytes: &'static [u8],
}

/// How a file ends, and at which offset.
#[derive(Clone, Copy, Debug, PartialEq, Eq)]
pub enum End {
    Whole(usize),
    CutOff(usize),
    Fault(CaptureFault, usize),
}

/// A step from one offset to the next, or the end.
#[derive(Clone, Copy)]
pub enum Went<'a> {
    Past(usize),
    Packet(Packet<'a>, usize),
    Ended(End),
}

// Where the step leads to, if the file has so many bytes.
fn next_offset(at: usize, count: usize, len: usize) -> Option<usize> {
    match at.checked_add(count) {
        Some(next) if next <= len => Some(next),
        _ => None,
    }
}

/// The step at this offset.
pub fn step_at<'a>(capture: &mut Capture, file: &'a [u8], at: usize) -> Went<'a> {
    let rest = file.get(at..).unwrap_or(&[]);
    if rest.is_empty() {
        return Went::Ended(End::Whole(at));
    }
    match capture.step(rest) {
        Err(fault) => Went::Ended(End::Fault(fault, at)),
        Ok(Step::More(_)) => Went::Ended(End::CutOff(at)),
        Ok(Step::Skip(count)) => match next_offset(at, count as usize, file.len()) {
            Some(next) => Went::Past(next),
            None => Went::Ended(End::CutOff(at)),
        },
        Ok(Step::Packet(packet, count)) => match next_offset(at, count, file.len()) {
            Some(next) => Went::Packet(packet, next),
            None => Went::Ended(End::CutOff(at)),
        },
    }
}

/// Asserts that a packet is the one that is due.
pub fn same_packet(rt: &impl Abort, packet: Packet<'_>, end: usize, due: Option<&Due>, row: &str) {
    let due = *due.expect(rt, row);
    same(rt, &end, &due.end, &row);
    same(rt, &packet.time, &due.time, &row);
    same(rt, &packet.second, &due.second, &row);
    same(rt, &packet.link, &due.link, &row);
    same(rt, &packet.original, &due.original, &row);
    same_bytes(rt, packet.bytes, due.bytes, &row);
}

/// Asserts that a file begins with the first `count` packets of these, in this order, and says how
/// many packets it has and how it ends.
pub fn walked(
    rt: &impl Abort,
    alloc: Global,
    file: &[u8],
    due: &[Due],
    count: usize,
    row: &str,
) -> (usize, End) {
    let mut capture = Capture::new(alloc);
    let mut at: usize = 0;
    let mut packets: usize = 0;
    for _ in 0..file.len() {
        match step_at(&mut capture, file, at) {
            Went::Ended(end) => return (packets, end),
            Went::Past(next) => at = next,
            Went::Packet(packet, next) => {
                if packets < count {
                    same_packet(rt, packet, next, due.get(packets), row);
                }
                packets = packets.saturating_add(1);
                at = next;
            }
        }
    }
    (packets, End::Whole(at))
}
