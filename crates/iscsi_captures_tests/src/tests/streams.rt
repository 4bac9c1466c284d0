//! The canonical streams of directions, and why they end.

use super::captures::{
    BEGUN, CONFLICT, CUT, FRAGMENT, GAP, HEADLESS, LATE, LINK, LOGIN, MIDWAY, PING, RESET, REUSED,
    STRANGE, UNANSWERED, WHOLE,
};
use super::{bytes_of, ends_so, normalise};
use crate::asserts::same_bytes;
use crate::uses::show_initiator;
use iscsi_captures::{End, Wanted};
use std::alloc::Global;
use std::process::Abort;

/// A capture, a connection, whether its initiator is asked for, what is written, and the fault.
const ROWS: &[(&str, usize, bool, &str, &str)] = &[
    (WHOLE, 0, true, LOGIN, ""),
    (WHOLE, 0, false, PING, ""),
    (WHOLE, 1, true, "", "no connection 1"),
    (LATE, 0, true, LOGIN, ""),
    (GAP, 0, true, LOGIN, "connection 0: gap at 48 (packet 3)"),
    (
        CONFLICT,
        0,
        true,
        "",
        "connection 0: conflict at 12 (packet 3)",
    ),
    (REUSED, 0, true, LOGIN, ""),
    (REUSED, 1, true, PING, ""),
    (BEGUN, 0, true, LOGIN, ""),
    (HEADLESS, 0, true, LOGIN, ""),
    (
        MIDWAY,
        0,
        true,
        "",
        "capture: connection 0 begins before the capture",
    ),
    (UNANSWERED, 0, true, LOGIN, ""),
    (
        UNANSWERED,
        0,
        false,
        "",
        "capture: connection 0 begins before the capture",
    ),
    (STRANGE, 0, true, LOGIN, ""),
    ("", 0, true, "", "capture: empty"),
    (CUT, 0, true, "", "capture: cut at 80 (packet 2)"),
    (FRAGMENT, 0, true, "", "capture: fragment at 80 (packet 2)"),
    (RESET, 0, true, LOGIN, ""),
    (LINK, 0, true, "", "capture: link type 147 at 24 (packet 1)"),
];

// The direction of a row.
fn wanted_of(connection: usize, initiator: bool) -> Wanted {
    let end = if initiator {
        End::Initiator
    } else {
        End::Target
    };
    Wanted { connection, end }
}

// One row.
fn is_written(rt: &impl Abort, alloc: Global, file: &[u8], wanted: Wanted, due: &str, fault: &str) {
    let mut source = file;
    let mut out = Vec::new(alloc);
    let result = normalise(alloc, &mut source, wanted, &mut out);
    let due = bytes_of(rt, alloc, due);
    same_bytes(rt, &out, &due, &fault);
    ends_so(rt, alloc, result, fault, &wanted);
}

#[test]
fn directions_have_their_streams(rt: HostRuntime) {
    for (capture, connection, initiator, due, fault) in ROWS {
        let file = bytes_of(&rt, rt.alloc(), capture);
        let wanted = wanted_of(*connection, *initiator);
        is_written(&rt, rt.alloc(), &file, wanted, due, fault);
    }
}

#[test]
fn a_line_stands_for_each_pdu(rt: HostRuntime) {
    let file = bytes_of(&rt, rt.alloc(), WHOLE);
    let mut source = file.as_slice();
    let mut out = Vec::new(rt.alloc());
    let result = show_initiator(rt.alloc(), &mut source, &mut out);
    assert!(rt; result.is_ok());
    assert!(rt; out.starts_with(b"0 Login-Request "));
}
