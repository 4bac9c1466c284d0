//! Recorded sessions by example: dialogues of PDUs, in hex worked out by hand from the tables of
//! RFC 7143, section 11.

use crate::asserts::same;
use iscsi_job::{Asked, Ended, JobFault, Moves, Noted, Recorder, Which};
use iscsi_test_support::{SESSION, marked};
use scsi_cdb::Residual;
use std::alloc::Global;
use std::process::Abort;

/// A dialogue, and the line of its fault.
struct Row {
    name: &'static str,
    dialogue: &'static str,
    due: &'static str,
}

// The PDU of the login has 160 bytes, and its answer has 88.
const ROWS: &[Row] = &[
    Row {
        name: "no login first",
        dialogue: "I> 01810000 00000000 00000000 00000000 00000010 00000000 00000001 00000001 00000000 00000000 00000000 00000000",
        due: "initiator: no login stands first at 0 (PDU 1)",
    },
    Row {
        name: "no answer to a login first",
        dialogue: "I> @login\nT> 21800000 00000000 00000000 00000000 00000010 00000000 00000001 00000002 00000008 00000000 00000000 00000000",
        due: "target: no login stands first at 0 (PDU 1)",
    },
    Row {
        name: "an answer from the initiator",
        dialogue: "I> @login\nT> @answer\nI> 21800000 00000000 00000000 00000000 00000010 00000000 00000001 00000002 00000008 00000000 00000000 00000000",
        due: "initiator: kind of the other end at 160 (PDU 2)",
    },
    Row {
        name: "a request from the target",
        dialogue: "I> @login\nT> @answer\nT> 01810000 00000000 00000000 00000000 00000010 00000000 00000001 00000001 00000000 00000000 00000000 00000000",
        due: "target: kind of the other end at 88 (PDU 2)",
    },
    Row {
        name: "data of both directions",
        dialogue: "I> @login\nT> @answer\nI> 01e10000 00000000 00000000 00000000 00000010 00000200 00000001 00000001 00000000 00000000 00000000 00000000",
        due: "initiator: both directions at 160 (PDU 2)",
    },
    Row {
        name: "data with a read",
        dialogue: "I> @login\nT> @answer\nI> 01c10000 00000004 00000000 00000000 00000010 00000200 00000001 00000001 28000000 00000000 01000000 00000000 5a*4",
        due: "initiator: data out of order at 160 (PDU 2)",
    },
    Row {
        name: "data of no write",
        dialogue: "I> @login\nT> @answer\nI> 05800000 00000004 00000000 00000000 00000010 ffffffff 00000000 00000001 00000000 00000000 00000000 00000000 5a*4",
        due: "initiator: no such request at 160 (PDU 2)",
    },
    Row {
        name: "data of a write at offset 4",
        dialogue: "I> @login\nT> @answer\nI> 01210000 00000000 00000000 00000000 00000010 00000200 00000001 00000001 2a000000 00000000 01000000 00000000\nI> 05800000 00000004 00000000 00000000 00000010 ffffffff 00000000 00000001 00000000 00000000 00000004 00000000 5a*4",
        due: "initiator: data out of order at 208 (PDU 3)",
    },
    Row {
        name: "data past the length of a write",
        dialogue: "I> @login\nT> @answer\nI> 01210000 00000000 00000000 00000000 00000010 00000200 00000001 00000001 2a000000 00000000 01000000 00000000\nI> 05800000 00000201 00000000 00000000 00000010 ffffffff 00000000 00000001 00000000 00000000 00000000 00000000 5a*513",
        due: "initiator: data out of order at 208 (PDU 3)",
    },
    Row {
        name: "a second answer",
        dialogue: "I> @login\nT> @answer\nI> 01810000 00000000 00000000 00000000 00000010 00000000 00000001 00000002 00000000 00000000 00000000 00000000\nT> 21800000 00000000 00000000 00000000 00000010 00000000 00000002 00000002 00000009 00000000 00000000 00000000\nT> 21800000 00000000 00000000 00000000 00000010 00000000 00000003 00000002 00000009 00000000 00000000 00000000",
        due: "target: no such request at 136 (PDU 3)",
    },
    Row {
        name: "a text that goes on",
        dialogue: "I> @login\nT> @answer\nI> 04400000 0000000f 00000000 00000000 00000010 ffffffff 00000001 00000001 00000000 00000000 00000000 00000000 'SendTargets=All",
        due: "initiator: text in parts at 160 (PDU 2)",
    },
    Row {
        name: "an answer to no request",
        dialogue: "I> @login\nT> @answer\nT> 21800000 00000000 00000000 00000000 00000010 00000000 00000001 00000002 00000008 00000000 00000000 00000000",
        due: "target: no such request at 88 (PDU 2)",
    },
    Row {
        name: "an answer of another kind",
        dialogue: "I> @login\nT> @answer\nI> 06800000 00000000 00000000 00000000 00000010 00000000 00000001 00000001 00000000 00000000 00000000 00000000\nT> 21800000 00000000 00000000 00000000 00000010 00000000 00000001 00000002 00000008 00000000 00000000 00000000",
        due: "target: no such request at 88 (PDU 2)",
    },
    Row {
        name: "data past the length of a read",
        dialogue: "I> @login\nT> @answer\nI> 01c10000 00000000 00000000 00000000 00000010 00000003 00000001 00000001 28000000 00000000 01000000 00000000\nT> 25800000 00000004 00000000 00000000 00000010 ffffffff 00000000 00000002 00000008 00000000 00000000 00000000 5a*4",
        due: "target: data out of order at 88 (PDU 2)",
    },
    Row {
        name: "sense of 18 bytes, cut off behind 17",
        dialogue: "I> @login\nT> @answer\nI> 01810000 00000000 00000000 00000000 00000010 00000000 00000001 00000001 00000000 00000000 00000000 00000000\nT> 21800002 00000013 00000000 00000000 00000010 00000000 00000001 00000002 00000008 00000000 00000000 00000000 0012 00*17",
        due: "target: sense cut off at 88 (PDU 2)",
    },
    Row {
        name: "a rejection",
        dialogue: "I> @login\nT> @answer\nT> 3f800400 00000000 00000000 00000000 ffffffff 00000000 00000001 00000002 00000008 00000000 00000000 00000000",
        due: "target: rejected at 88 (PDU 2)",
    },
    Row {
        name: "a stream that ends within a PDU",
        dialogue: "I> @login\nT> @answer\nI> 0181",
        due: "initiator: stream: truncated at 160",
    },
];

/// Which end is heard first.
#[derive(Clone, Copy)]
pub(crate) enum First {
    Initiator,
    Target,
    // Both in turn, by pieces of so many bytes.
    Both(usize),
}

/// The requests of a dialogue, with what came of them, and its first fault.
pub(crate) fn recorded(
    rt: &impl Abort,
    alloc: Global,
    dialogue: &str,
    first: First,
) -> (Vec<Noted>, Result<(), JobFault>) {
    let initiator = marked(alloc, dialogue, "I> ").expect(rt, "lines of the initiator");
    let target = marked(alloc, dialogue, "T> ").expect(rt, "lines of the target");
    let mut recorder = Recorder::new(alloc);
    match first {
        First::Initiator => {
            hear(rt, &mut recorder, Which::Initiator, &initiator);
            hear(rt, &mut recorder, Which::Target, &target);
        }
        First::Target => {
            hear(rt, &mut recorder, Which::Target, &target);
            hear(rt, &mut recorder, Which::Initiator, &initiator);
        }
        First::Both(count) => {
            hear_both(rt, &mut recorder, count, &initiator, &target);
        }
    }
    let mut all = Vec::new(alloc);
    for _ in 0..u64::MAX {
        let Some(noted) = recorder.take_next() else {
            break;
        };
        all.push(noted).expect(rt, "room");
    }
    let fault = recorder
        .fault(Which::Initiator)
        .or(recorder.fault(Which::Target));
    let said = match fault {
        Some(fault) => Err(fault),
        None => Ok(()),
    };
    (all, said)
}

// All of an end.
fn hear(rt: &impl Abort, recorder: &mut Recorder, which: Which, bytes: &[u8]) {
    recorder.hear(which, 0, bytes).expect(rt, "memory");
    recorder.end(which, None).expect(rt, "memory");
}

// Both ends in turn.
fn hear_both(
    rt: &impl Abort,
    recorder: &mut Recorder,
    count: usize,
    initiator: &[u8],
    target: &[u8],
) {
    let mut asked = 0;
    let mut answered = 0;
    for _ in 0..u64::MAX {
        let Some(which) = recorder.wants() else {
            break;
        };
        match which {
            Which::Initiator => asked = hear_piece(rt, recorder, which, initiator, asked, count),
            Which::Target => answered = hear_piece(rt, recorder, which, target, answered, count),
        }
    }
}

// A piece of an end from a place on, or its end. Gives the place behind it.
fn hear_piece(
    rt: &impl Abort,
    recorder: &mut Recorder,
    which: Which,
    bytes: &[u8],
    at: usize,
    count: usize,
) -> usize {
    let rest = bytes.get(at..).unwrap_or(b"");
    let piece = &rest[..rest.len().min(count)];
    if piece.is_empty() {
        recorder.end(which, None).expect(rt, "memory");
    } else {
        recorder.hear(which, 0, piece).expect(rt, "memory");
    }
    at.saturating_add(piece.len())
}

fn check_row(rt: &impl Abort, alloc: Global, row: &Row) {
    let (_, said) = recorded(rt, alloc, row.dialogue, First::Initiator);
    let line = match said {
        Ok(()) => String::new(alloc),
        Err(fault) => format!(in alloc; "{fault}").expect(rt, "a line"),
    };
    same(rt, &line.as_str(), &row.due, &row.name);
}

#[test]
fn refused_recordings(rt: HostRuntime) {
    for row in ROWS {
        check_row(&rt, rt.alloc(), row);
    }
}

/// What is asked in the session, and how it ends.
const ASKED: &[(Asked, Ended)] = &[
    (Asked::Ping, Ended::Ping),
    (
        Asked::Command {
            lun: 0,
            cdb: [0x2a, 0, 0, 0, 0, 0, 0, 0, 4, 0, 0, 0, 0, 0, 0, 0],
            moves: Moves::Out,
            expected: 2048,
        },
        Ended::Command {
            response: 0,
            status: 0,
            residual: Residual::Exact,
        },
    ),
    (
        Asked::Command {
            lun: 0,
            cdb: [0x28, 0, 0, 0, 0, 3, 0, 0, 1, 0, 0, 0, 0, 0, 0, 0],
            moves: Moves::In,
            expected: 512,
        },
        Ended::Command {
            response: 0,
            status: 0,
            residual: Residual::Exact,
        },
    ),
    (Asked::Logout, Ended::Closed),
];

#[test]
fn a_session_of_both_ends(rt: HostRuntime) {
    let (requests, said) = recorded(&rt, rt.alloc(), SESSION, First::Both(1));
    said.expect(&rt, "a job");
    same(&rt, &requests.len(), &ASKED.len(), &"requests");
    for (noted, due) in requests.iter().zip(ASKED) {
        let is_due = noted.item.asked == due.0 && noted.item.ended == Some(due.1);
        same(&rt, &is_due, &true, &noted.tag);
    }
}
