//! Commands over every kind of schedule.

use super::{Schedule, Setup, deliver, logins, pair_of, submit};
use crate::asserts::same;
use hex::{FromHex, encode};
use iscsi_initiator::{Done, Request};
use iscsi_pair::Pair;
use iscsi_test_support::segment_of;
use scsi_cdb::{Bytes, Residual};
use std::alloc::Global;
use std::process::Abort;

/// What is asked, and what comes of it. `in` has the unit and the descriptor block in hex and the bytes
/// expected; `out` the unit, the block and the bytes. Of a command come the status, the sense, how many bytes
/// and all of them, and the residual; `5a*512` stands for so many of a byte.
pub(super) const COMMANDS: &str = "\
out 0000000000000000 2a000000000000000800000000000000 5a*4096 = 0 - 0 - exact
in 0000000000000000 28000000000000000100000000000000 512 = 0 - 512 5a*512 exact
in 0000000000000000 25000000000000000000000000000000 8 = 0 - 8 000007ff00000200 exact
in 0000000000000000 2800000007ff00000200000000000000 1024 = 2 700005000000000a00000000210000000000 0 - under 1024
in 0000000000000000 12000000050000000000000000000000 5 = 0 - 5 000006121f exact
in 0001000000000000 12000000240000000000000000000000 36 = 0 - 36 7f0006121f000002564552494449534b4953435349204449534b20202020202030303031 exact
in 0001000000000000 00000000000000000000000000000000 0 = 2 700005000000000a00000000250000000000 0 - exact
in 0000000000000000 a0000000000000000010000000000000 16 = 0 - 16 00000008000000000000000000000000 exact
ping 6162 = ping 6162
in 0000000000000000 28000000000000000800000000000000 4096 = 0 - 4096 5a*4096 exact
in 0000000000000000 28000000080000000100000000000000 512 = 2 700005000000000a00000000210000000000 0 - under 512
logout = closed
";

/// What a thin unit with the serial number `S1` tells of itself, and a WRITE SAME that it takes.
pub(super) const UNIT: &str = "\
in 0000000000000000 12018000240000000000000000000000 36 = 0 - 6 008000025331 under 30
in 0000000000000000 03000000120000000000000000000000 18 = 0 - 18 700000000000000a00000000000000000000 exact
in 0000000000000000 1a000800180000000000000000000000 24 = 0 - 24 170010000812000000000000000000000000000000000000 exact
out 0000000000000000 2a000000000000000800000000000000 5a*4096 = 0 - 0 - exact
out 0000000000000000 93000000000000000000000000080000 00*512 = 0 - 0 - exact
in 0000000000000000 28000000000000000800000000000000 4096 = 0 - 4096 00*4096 exact
logout = closed
";

/// A write and a read that need R2Ts and several segments.
pub(super) const BURSTS: &str = "\
out 0000000000000000 2a000000000000000800000000000000 5a*4096 = 0 - 0 - exact
in 0000000000000000 28000000000000000800000000000000 4096 = 0 - 4096 5a*4096 exact
";

// The unit and the block that a command begins with, and what is left of its line.
fn head_of<'a>(rt: &impl Abort, line: &'a str) -> (u64, [u8; 16], &'a str) {
    let (unit, rest) = line.split_once(' ').expect(rt, "no unit");
    let (block, rest) = rest.split_once(' ').expect(rt, "no block");
    let lun = u64::from_str_radix(unit, 16).expect(rt, unit);
    let cdb = <[u8; 16]>::from_hex(block).expect(rt, block);
    (lun, cdb, rest)
}

// A command that reads: how many bytes are expected stands behind the block.
fn in_of(rt: &impl Abort, line: &str) -> Request {
    let (lun, cdb, expected) = head_of(rt, line);
    let expected = expected.parse::<u32>().expect(rt, expected);
    Request::In { lun, cdb, expected }
}

// The data of a request.
fn data_of(rt: &impl Abort, alloc: Global, segment: &str) -> Bytes {
    Bytes::from_vec(segment_of(alloc, segment).expect(rt, segment))
}

// A command that writes: the data stand behind the block.
fn out_of(rt: &impl Abort, alloc: Global, line: &str) -> Request {
    let (lun, cdb, data) = head_of(rt, line);
    let bytes = data_of(rt, alloc, data);
    Request::Out { lun, cdb, bytes }
}

// The request of a line.
pub(super) fn request_of(rt: &impl Abort, alloc: Global, line: &str) -> Request {
    let (kind, rest) = line.split_once(' ').unwrap_or((line, ""));
    match kind {
        "ping" => Request::Ping {
            bytes: data_of(rt, alloc, rest),
        },
        "text" => Request::Text {
            bytes: data_of(rt, alloc, rest),
        },
        "in" => in_of(rt, rest),
        "out" => out_of(rt, alloc, rest),
        "logout" => Request::Logout,
        _ => panic!(rt; "no such request"),
    }
}

// The bytes as hex text, a dash where there are none, or a byte and how many of it where they are
// many of one.
fn shown(rt: &impl Abort, alloc: Global, bytes: &[u8]) -> String {
    let Some(first) = bytes.first() else {
        return String::from_str(alloc, "-").expect(rt, "text");
    };
    if bytes.len() > 16 && bytes.iter().all(|byte| byte == first) {
        return format!(in alloc; "{first:02x}*{}", bytes.len()).expect(rt, "text");
    }
    encode(alloc, bytes).expect(rt, "text")
}

// The words of a residual: what it is, and how many bytes.
fn residual_of(rt: &impl Abort, alloc: Global, residual: Residual) -> String {
    let (words, count) = match residual {
        Residual::Exact => return String::from_str(alloc, "exact").expect(rt, "text"),
        Residual::Under(count) => ("under", count),
        Residual::Over(count) => ("over", count),
    };
    format!(in alloc; "{words} {count}").expect(rt, "text")
}

// The words of a command's outcome.
fn command_of(
    rt: &impl Abort,
    alloc: Global,
    status: u8,
    sense: &[u8],
    bytes: &[u8],
    residual: Residual,
) -> String {
    let (sense, data) = (shown(rt, alloc, sense), shown(rt, alloc, bytes));
    let rest = residual_of(rt, alloc, residual);
    let count = bytes.len();
    format!(in alloc; "{status} {sense} {count} {data} {rest}").expect(rt, "text")
}

// A word and bytes.
fn word_and_bytes(rt: &impl Abort, alloc: Global, word: &str, bytes: &[u8]) -> String {
    let text = shown(rt, alloc, bytes);
    format!(in alloc; "{word} {text}").expect(rt, "text")
}

// The words of an outcome.
pub(super) fn told(rt: &impl Abort, alloc: Global, done: &Option<Done>) -> String {
    match done {
        None => String::from_str(alloc, "nothing").expect(rt, "text"),
        Some(Done::Closed) => String::from_str(alloc, "closed").expect(rt, "text"),
        Some(Done::Ping { bytes }) => word_and_bytes(rt, alloc, "ping", bytes.as_slice()),
        Some(Done::Text { bytes }) => word_and_bytes(rt, alloc, "text", bytes.as_slice()),
        Some(
            Done::Command {
                status,
                sense,
                bytes,
                residual,
                ..
            },
        ) => command_of(
            rt,
            alloc,
            *status,
            sense.as_slice(),
            bytes.as_slice(),
            *residual,
        ),
    }
}

// Asks for what a line says, and asserts that what it says comes of it.
fn check_line(
    rt: &impl Abort,
    alloc: Global,
    pair: &mut Pair,
    schedule: &mut Schedule,
    line: &str,
    number: usize,
) {
    let (request, due) = line.split_once(" = ").expect(rt, "no outcome");
    submit(rt, alloc, pair, request_of(rt, alloc, request));
    deliver(rt, alloc, pair, schedule);
    let found = told(rt, alloc, &pair.outcome());
    same(rt, &found.as_str(), &due, &(number, request));
}

// Runs a login and the commands over the schedule of this number.
fn check_script(
    rt: &impl Abort,
    alloc: Global,
    setup: Setup,
    schedule: &mut Schedule,
    script: &str,
    number: usize,
) {
    let mut pair = pair_of(rt, alloc, setup);
    deliver(rt, alloc, &mut pair, schedule);
    same(rt, &logins::hold_the_same(&pair), &true, &number);
    for line in script.lines() {
        check_line(rt, alloc, &mut pair, schedule, line, number);
    }
    let has_failed = pair.target_fault().is_some() || pair.initiator_fault().is_some();
    same(rt, &has_failed, &false, &number);
}

// Runs a script in pieces of each length to 100, and of 4,096 bytes.
fn check_pieces(rt: &impl Abort, alloc: Global, setup: Setup, script: &str) {
    for number in 1..102 {
        let piece = if number == 101 { 4096 } else { number };
        check_script(
            rt,
            alloc,
            setup,
            &mut Schedule::always(piece),
            script,
            piece,
        );
    }
}

#[test]
fn in_pieces_of_one_length(rt: HostRuntime) {
    check_pieces(&rt, rt.alloc(), Setup::Standard, COMMANDS);
}

#[test]
fn small_bursts(rt: HostRuntime) {
    check_pieces(&rt, rt.alloc(), Setup::ShortBursts, BURSTS);
}

#[test]
fn over_two_hundred_schedules(rt: HostRuntime) {
    for number in 0..220u32 {
        let mut schedule = Schedule::numbered(number);
        check_script(
            &rt,
            rt.alloc(),
            Setup::Standard,
            &mut schedule,
            COMMANDS,
            number as usize,
        );
    }
}
