//! Sessions over sockets: a connection to a listener of the test's own.

use crate::asserts::same;
use iscsi_initiator::InitiatorFault;
use iscsi_serve::{ServeFault, configuration, serve_one};
use iscsi_stream::StreamFault;
use iscsi_target::TargetFault;
use iscsi_test_support::{CUT, FIRST_ANSWER, NAMELESS, PING, REFUSAL, pdus_of};
use scsi_disk::SparseStore;
use std::alloc::Global;
use std::io::{Read, Write};
use std::net::{Ipv4Addr, Net, Shutdown, TcpListener, TcpStream};
use std::process::Abort;

// A login and a logout.
const LOGOUT: &str = "@login\n\
    @few\n\
    46800000 00000000 00000000 00000000 00000001 00000000 00000001 00000003 00000000 00000000 00000000 00000000";

const LOGOUT_ANSWERS: &str = "@answer\n\
    @settled\n\
    26800000 00000000 00000000 00000000 00000001 00000000 00000003 00000001 00000008 00000000 00000000 00000000";

// A login in one stage, a write of block 3 with immediate data, a logout.
const WRITE: &str = "@short\n\
    01a10000 00000200 00000000 00000000 00000001 00000200 00000001 00000002 2a000000 00030000 01000000 00000000 5a*512\n\
    46800000 00000000 00000000 00000000 00000002 00000000 00000002 00000003 00000000 00000000 00000000 00000000";

const WRITE_ANSWERS: &str =
    "23870000 00000045 40000001 00000001 00000000 00000000 00000001 00000001 00000008 00000000 00000000 00000000 'AuthMethod=None|MaxRecvDataSegmentLength=8192|TargetPortalGroupTag=1|\n\
    21800000 00000000 00000000 00000000 00000001 00000000 00000002 00000002 00000009 00000000 00000000 00000000\n\
    26800000 00000000 00000000 00000000 00000002 00000000 00000003 00000002 00000009 00000000 00000000 00000000";

// The same login, and a read of blocks 2 and 3.
const READ: &str = "@short\n\
    01c10000 00000000 00000000 00000000 00000001 00000400 00000001 00000002 28000000 00020000 02000000 00000000";

const READ_ANSWERS: &str =
    "23870000 00000045 40000001 00000001 00000000 00000000 00000001 00000001 00000008 00000000 00000000 00000000 'AuthMethod=None|MaxRecvDataSegmentLength=8192|TargetPortalGroupTag=1|\n\
    25800000 00000400 00000000 00000000 00000001 ffffffff 00000000 00000002 00000009 00000000 00000000 00000000 00*512 5a*512\n\
    21800000 00000000 00000000 00000000 00000001 00000000 00000002 00000002 00000009 00000001 00000000 00000000";

// A connection to the listener, over which some requests were sent. It may be ended by its initiator.
fn ask<N>(rt: &N, alloc: Global, listener: &TcpListener, requests: &str, ends: bool) -> TcpStream
where
    N: Net<Listener = TcpListener, Stream = TcpStream> + Abort,
{
    let address = listener.local_addr().expect(rt, "an address");
    let mut initiator = TcpStream::connect(rt, address).expect(rt, "a connection");
    let stream = pdus_of(alloc, requests).expect(rt, requests);
    initiator.write_all(&stream).expect(rt, "requests");
    if ends {
        initiator.shutdown(Shutdown::Write).expect(rt, "an end");
    }
    initiator
}

// How one session ends over a connection. What it answers is appended.
fn exchange<N>(
    rt: &N,
    alloc: Global,
    store: &mut SparseStore,
    requests: &str,
    ends: bool,
    answers: &mut Vec<u8>,
) -> Result<(), ServeFault>
where
    N: Net<Listener = TcpListener, Stream = TcpStream> + Abort,
{
    let listener = TcpListener::bind(rt, (Ipv4Addr::LOCALHOST, 0)).expect(rt, "a listener");
    let mut initiator = ask(rt, alloc, &listener, requests, ends);
    let config = configuration(alloc).expect(rt, "a configuration");
    let result = serve_one(alloc, &listener, store, config);
    initiator.read_to_end(answers).expect(rt, "answers");
    result
}

// The line of a fault, or nothing.
fn line_of(rt: &impl Abort, alloc: Global, outcome: Result<(), ServeFault>) -> String {
    match outcome {
        Ok(()) => String::new(alloc),
        Err(fault) => format!(in alloc; "{fault}").expect(rt, "a line"),
    }
}

type Row = (&'static str, &'static str, bool, &'static str);

// A session over a disk: what it answers, and the line of its fault.
fn check_session<N>(rt: &N, alloc: Global, store: &mut SparseStore, row: &Row)
where
    N: Net<Listener = TcpListener, Stream = TcpStream> + Abort,
{
    let (requests, answers, ends, line) = *row;
    let mut out = Vec::new(alloc);
    let result = exchange(rt, alloc, store, requests, ends, &mut out);
    same(rt, &line_of(rt, alloc, result).as_str(), &line, &requests);
    let want = pdus_of(alloc, answers).expect(rt, answers);
    same(rt, &out, &want, &requests);
}

/// Sessions: the requests, the answers, whether the initiator ends the stream, and the fault's line.
const SESSIONS: &[Row] = &[
    // Closed by the target, while the connection stands.
    (LOGOUT, LOGOUT_ANSWERS, false, ""),
    (NAMELESS, REFUSAL, false, ""),
    (PING, "", false, "protocol: rule 1"),
    // Ended by the initiator.
    ("", "", true, ""),
    (CUT, FIRST_ANSWER, true, "stream: truncated at 160"),
];

#[test]
fn sessions_over_a_socket(rt: HostRuntime) {
    for row in SESSIONS {
        let mut store = SparseStore::new(rt.alloc(), 8);
        check_session(&rt, rt.alloc(), &mut store, row);
    }
}

/// Sessions over one disk, one after another.
const BEHIND: &[Row] = &[
    (WRITE, WRITE_ANSWERS, false, ""),
    (READ, READ_ANSWERS, true, ""),
];

#[test]
fn a_session_reads_what_an_earlier_one_wrote(rt: HostRuntime) {
    let mut store = SparseStore::new(rt.alloc(), 8);
    for row in BEHIND {
        check_session(&rt, rt.alloc(), &mut store, row);
    }
}

/// Faults, with their lines and statuses.
const FAULTS: [(ServeFault, &str, u8); 9] = [
    (ServeFault::NoMemory, "memory", 3),
    (
        ServeFault::Target(TargetFault::Stream(StreamFault::Truncated(48))),
        "stream: truncated at 48",
        1,
    ),
    (
        ServeFault::Target(TargetFault::Protocol(4)),
        "protocol: rule 4",
        1,
    ),
    (
        ServeFault::Initiator(InitiatorFault::Refused(2, 7)),
        "login refused: 0207",
        1,
    ),
    (ServeFault::Script(2), "script: line 2", 1),
    (ServeFault::Network, "network failed", 4),
    (ServeFault::Read, "read failed", 4),
    (ServeFault::Sync, "sync failed", 4),
    (ServeFault::Write, "write failed", 4),
];

fn check_fault(rt: &impl Abort, alloc: Global, fault: &ServeFault, line: &str, status: u8) {
    let text = format!(in alloc; "{fault}").expect(rt, line);
    same(rt, &(text.as_str(), fault.status()), &(line, status), &line);
}

#[test]
fn lines_and_statuses_of_faults(rt: HostRuntime) {
    for (fault, line, status) in FAULTS {
        check_fault(&rt, rt.alloc(), &fault, line, status);
    }
}
