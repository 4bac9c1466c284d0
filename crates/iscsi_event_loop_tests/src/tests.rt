//! Sessions over sockets, several at a time, in the thread of the test: a client writes, the server
//! has turns until the answers are there. PDUs are worked out by hand from the tables of RFC 7143,
//! section 11. One file, since the sessions share one client.

use crate::asserts::same;
use iscsi_event_loop::{LimitedStore, Limits, Options, PortalOption, Server, Stop, UnitOptions};
use iscsi_login::Preferences;
use iscsi_serving::{Access, EVERYBODY, ServeFault};
use iscsi_test_support::{PING, pdus_of};
use scsi_disk::{BlockStore, SparseStore, StoreFault};
use scsi_file::{CrashMemory, FileStore, StopsAt};
use std::alloc::Global;
use std::io::{ErrorKind, Read, Write};
use std::net::{IpAddr, Ipv4Addr, Net, TcpStream};
use std::process::Abort;

/// How many blocks the disk has.
const BLOCKS: u64 = 8;

/// The most turns that answers take.
const MOST_TURNS: usize = 1000;

// A login in one request, with its answers in the first and in the second session: TSIH 1 and 2.
const LOGIN: &str = "@short";

const LOGIN_1: &str =
    "23870000 00000045 40000001 00000001 00000000 00000000 00000001 00000001 00000008 00000000 00000000 00000000 'AuthMethod=None|MaxRecvDataSegmentLength=8192|TargetPortalGroupTag=1|";

const LOGIN_2: &str =
    "23870000 00000045 40000001 00000002 00000000 00000000 00000001 00000001 00000008 00000000 00000000 00000000 'AuthMethod=None|MaxRecvDataSegmentLength=8192|TargetPortalGroupTag=1|";

// The same login of another port, with its answer in the second session.
const OTHER_LOGIN: &str =
    "43870000 0000006e 40000002 00000000 00000000 00000000 00000001 00000000 00000000 00000000 00000000 00000000 'AuthMethod=None|InitiatorName=iqn.2026-01.example:host|SessionType=Normal|TargetName=iqn.2026-01.example:disk|";

const OTHER_LOGIN_2: &str =
    "23870000 00000045 40000002 00000002 00000000 00000000 00000001 00000001 00000008 00000000 00000000 00000000 'AuthMethod=None|MaxRecvDataSegmentLength=8192|TargetPortalGroupTag=1|";

// A write of block 3, and a read of it.
const WRITE: &str =
    "01a10000 00000200 00000000 00000000 00000001 00000200 00000001 00000002 2a000000 00030000 01000000 00000000 5a*512";

const WRITTEN: &str =
    "21800000 00000000 00000000 00000000 00000001 00000000 00000002 00000002 00000009 00000000 00000000 00000000";

const READ: &str =
    "01c10000 00000000 00000000 00000000 00000001 00000200 00000001 00000002 28000000 00030000 01000000 00000000";

const GIVEN: &str =
    "25800000 00000200 00000000 00000000 00000001 ffffffff 00000000 00000002 00000009 00000000 00000000 00000000 5a*512\n\
    21800000 00000000 00000000 00000000 00000001 00000000 00000002 00000002 00000009 00000001 00000000 00000000";

// A logout behind one command, and behind none.
const LOGOUT: &str =
    "46800000 00000000 00000000 00000000 00000002 00000000 00000002 00000003 00000000 00000000 00000000 00000000";

const LEFT: &str =
    "26800000 00000000 00000000 00000000 00000002 00000000 00000003 00000002 00000009 00000000 00000000 00000000";

const LOGOUT_AT_ONCE: &str =
    "46800000 00000000 00000000 00000000 00000002 00000000 00000001 00000002 00000000 00000000 00000000 00000000";

const LEFT_AT_ONCE: &str =
    "26800000 00000000 00000000 00000000 00000002 00000000 00000002 00000001 00000008 00000000 00000000 00000000";

// A login of another initiator, with its refusal.
const STRANGER: &str =
    "43870000 0000006e 40000002 00000000 00000000 00000000 00000001 00000000 00000000 00000000 00000000 00000000 'AuthMethod=None|InitiatorName=iqn.2026-01.example:hose|SessionType=Normal|TargetName=iqn.2026-01.example:disk|";

const REFUSED: &str =
    "23040000 00000000 40000002 00000000 00000000 00000000 00000000 00000001 00000008 02020000 00000000 00000000";

// A login for discovery at a service that tells a portal, a request for all targets, and a logout.
const DISCOVERY: &str =
    "43870000 0000008a 40000001 00000000 00000000 00000000 00000001 00000000 00000000 00000000 00000000 00000000 'AuthMethod=None|DefaultTime2Retain=0|DefaultTime2Wait=2|ErrorRecoveryLevel=0|InitiatorName=iqn.2026-01.example:host|SessionType=Discovery|";

const DISCOVERED: &str =
    "23870000 0000006b 40000001 00000001 00000000 00000000 00000001 00000001 00000008 00000000 00000000 00000000 'AuthMethod=None|DefaultTime2Retain=0|DefaultTime2Wait=2|ErrorRecoveryLevel=0|MaxRecvDataSegmentLength=8192|";

const ALL_TARGETS: &str =
    "44800000 00000010 00000000 00000000 00000001 ffffffff 00000001 00000002 00000000 00000000 00000000 00000000 'SendTargets=All|";

const TOLD_TARGET: &str =
    "24800000 00000043 00000000 00000000 00000001 ffffffff 00000002 00000001 00000008 00000000 00000000 00000000 'TargetName=iqn.2026-01.example:disk|TargetAddress=192.0.2.7:3260,1|";

const LOGOUT_FROM_DISCOVERY: &str =
    "46800000 00000000 00000000 00000000 00000002 00000000 00000001 00000003 00000000 00000000 00000000 00000000";

const LEFT_DISCOVERY: &str =
    "26800000 00000000 00000000 00000000 00000002 00000000 00000003 00000001 00000008 00000000 00000000 00000000";

// INQUIRY of the serial number (page 80) for 255 bytes, with the number that each disk has which is given
// none, and with DISK0001.
const SERIAL: &str =
    "01c10000 00000000 00000000 00000000 00000001 000000ff 00000001 00000002 12018000 ff000000 00000000 00000000";

const USUAL_SERIAL: &str =
    "25800000 0000000c 00000000 00000000 00000001 ffffffff 00000000 00000002 00000009 00000000 00000000 00000000 00800008 30303030 30303031\n\
    21820000 00000000 00000000 00000000 00000001 00000000 00000002 00000002 00000009 00000001 00000000 000000f3";

const OWN_SERIAL: &str =
    "25800000 0000000c 00000000 00000000 00000001 ffffffff 00000000 00000002 00000009 00000000 00000000 00000000 00800008 4449534b 30303031\n\
    21820000 00000000 00000000 00000000 00000001 00000000 00000002 00000002 00000009 00000001 00000000 000000f3";

/// What clients do one after another: the client, its requests, the answers.
type Rows<'a> = &'a [(usize, &'static str, &'static str)];

// A disk of eight blocks for so many logins, some sessions at a time, each of which may be silent for so
// many seconds.
fn options(logins: u16, at_once: u16, idle: u16) -> Options<'static> {
    Options {
        listen: IpAddr::V4(Ipv4Addr::LOCALHOST),
        port: 0,
        stop: Some(Stop::Logins(logins)),
        at_once,
        name: b"iqn.2026-01.example:disk",
        portal: PortalOption::Untold,
        unit: None,
        limits: Limits {
            idle: Some(idle),
            login_within: None,
        },
        preferences: Preferences::standard(),
        data_in: None,
        print_port: false,
        quiet: true,
    }
}

/// A server, and the disk of all its sessions.
#[derive(Drop)]
struct Service<'a, S: BlockStore + Drop> {
    server: Server<'a>,
    store: S,
}

impl<S: BlockStore + Drop> Service<'_, S> {
    fn try_turn(&mut self, rt: &HostRuntime) -> Result<(), ServeFault> {
        self.server.turn(rt, &mut self.store)
    }

    fn turn(&mut self, rt: &HostRuntime, abort: &impl Abort) {
        self.try_turn(rt).expect(abort, "a turn");
    }
}

// A service for those who may log in, with a disk in memory.
fn open<'a>(
    rt: &HostRuntime,
    abort: &impl Abort,
    options: Options<'a>,
    access: Access<'a>,
) -> Box<Service<'a, SparseStore>> {
    let store = SparseStore::new(rt.alloc(), BLOCKS);
    open_over(rt, abort, options, access, store)
}

// A service for those who may log in; it stands in a box, so that functions which own it are proved sooner.
fn open_over<'a, S: BlockStore + Drop>(
    rt: &HostRuntime,
    abort: &impl Abort,
    options: Options<'a>,
    access: Access<'a>,
    store: S,
) -> Box<Service<'a, S>> {
    let server = Server::open(rt, options, b"DISK0001", access).expect(abort, "a server");
    Box::new(rt.alloc(), Service { server, store }).expect(abort, "a service")
}

// A service of so many connections, one after another. A limit of time would end each of them at once.
fn open_in_turn(
    rt: &HostRuntime,
    abort: &impl Abort,
    connections: u16,
) -> Box<Service<'static, SparseStore>> {
    let asked = Options {
        stop: Some(Stop::Connections(connections)),
        ..options(0, 1, 0)
    };
    let store = SparseStore::new(rt.alloc(), BLOCKS);
    let server = Server::open_in_turn(rt, asked, EVERYBODY).expect(abort, "a server");
    Box::new(rt.alloc(), Service { server, store }).expect(abort, "a service")
}

// A client at a port of this machine.
fn client_at<N: Net<Stream = TcpStream>>(rt: &N, abort: &impl Abort, port: u16) -> TcpStream {
    let client = TcpStream::connect(rt, (Ipv4Addr::LOCALHOST, port)).expect(abort, "a client");
    client.set_nonblocking(true).expect(abort, "a client");
    client
}

// So many clients, in the order in which they are accepted.
fn clients(
    rt: &HostRuntime,
    abort: &impl Abort,
    server: &Server<'_>,
    count: usize,
) -> Vec<TcpStream> {
    let port = server.port().expect(abort, "a port");
    let mut clients = Vec::new(rt.alloc());
    for _ in 0..count {
        clients
            .push(client_at(rt, abort, port))
            .expect(abort, "a client");
    }
    clients
}

// Appends what came to a client, and says whether anything did.
fn receive(abort: &impl Abort, client: &TcpStream, out: &mut Vec<u8>) -> bool {
    let mut buffer = [0u8; 4096];
    let mut client = client;
    match client.read(&mut buffer) {
        Ok(count) => {
            out.extend_from_slice(&buffer[..count])
                .expect(abort, "bytes");
            count > 0
        }
        Err(error) => {
            same(abort, &error.kind(), &ErrorKind::WouldBlock, &"a client");
            false
        }
    }
}

// Appends what comes to a client while the server has turns, up to so many bytes.
fn answers<S: BlockStore + Drop>(
    rt: &HostRuntime,
    abort: &impl Abort,
    service: &mut Service<'_, S>,
    client: &TcpStream,
    count: usize,
    out: &mut Vec<u8>,
) {
    for _ in 0..MOST_TURNS {
        if out.len() >= count {
            return;
        }
        if !receive(abort, client, out) {
            service.turn(rt, abort);
        }
    }
}

// A client writes requests, and has the answers that are due.
fn check_answers<S: BlockStore + Drop>(
    rt: &HostRuntime,
    abort: &impl Abort,
    service: &mut Service<'_, S>,
    client: &TcpStream,
    requests: &str,
    due: &str,
    row: (&str, usize),
) {
    let mut writer = client;
    let stream = pdus_of(rt.alloc(), requests).expect(abort, requests);
    writer.write_all(&stream).expect(abort, requests);
    let due = pdus_of(rt.alloc(), due).expect(abort, due);
    let mut out = Vec::new(rt.alloc());
    answers(rt, abort, service, client, due.len(), &mut out);
    same(abort, &out, &due, &row);
}

// Has turns until all sessions were served.
fn finish<S: BlockStore + Drop>(
    rt: &HostRuntime,
    abort: &impl Abort,
    service: &mut Service<'_, S>,
    name: &str,
) {
    for _ in 0..MOST_TURNS {
        if service.server.is_done() {
            return;
        }
        service.turn(rt, abort);
    }
    same(abort, &service.server.is_done(), &true, &name);
}

// Does what the rows say: all answers are those that are due, and all sessions are served then.
fn check_rows<S: BlockStore + Drop>(
    rt: &HostRuntime,
    abort: &impl Abort,
    service: &mut Service<'_, S>,
    clients: &[TcpStream],
    rows: Rows<'_>,
    name: &str,
) {
    for (at, (place, requests, due)) in rows.iter().enumerate() {
        let client = clients.get(*place).expect(abort, "no such client");
        check_answers(rt, abort, service, client, requests, due, (name, at));
    }
    finish(rt, abort, service, name);
}

// Two clients of a service do what the rows say.
fn check(rt: &HostRuntime, abort: &impl Abort, options: Options<'_>, rows: Rows<'_>, name: &str) {
    check_for(rt, abort, options, EVERYBODY, rows, name);
}

// The same, of a service for those who may log in.
fn check_for(
    rt: &HostRuntime,
    abort: &impl Abort,
    options: Options<'_>,
    access: Access<'_>,
    rows: Rows<'_>,
    name: &str,
) {
    let mut service = open(rt, abort, options, access);
    let clients = clients(rt, abort, &service.server, 2);
    check_rows(rt, abort, &mut service, &clients, rows, name);
}

/// The second session reads what the first one wrote, between its login and its logout.
const TWO: Rows<'static> = &[
    (0, LOGIN, LOGIN_1),
    (1, OTHER_LOGIN, OTHER_LOGIN_2),
    (0, WRITE, WRITTEN),
    (1, READ, GIVEN),
    (0, LOGOUT, LEFT),
    (1, LOGOUT, LEFT),
];

#[test]
fn two_sessions_at_once(rt: HostRuntime) {
    check(&rt, &rt, options(2, 2, 5), TWO, "two at once");
}

/// The same port logs in once more, as after a restart: the first session is ended.
const AGAIN: Rows<'static> = &[
    (0, LOGIN, LOGIN_1),
    (1, LOGIN, LOGIN_2),
    (1, LOGOUT_AT_ONCE, LEFT_AT_ONCE),
];

// The first client stays and sends nothing: for longer than a test may take it would keep its slot.
#[test]
fn the_same_port_once_more(rt: HostRuntime) {
    check(&rt, &rt, options(2, 2, 120), AGAIN, "the same port");
}

/// The first session breaks a rule, and the second one goes on.
const FAULT: Rows<'static> = &[
    (0, PING, ""),
    (1, LOGIN, LOGIN_2),
    (1, LOGOUT_AT_ONCE, LEFT_AT_ONCE),
];

#[test]
fn a_fault_ends_its_session_alone(rt: HostRuntime) {
    check(&rt, &rt, options(1, 2, 5), FAULT, "a fault");
}

/// One initiator is let in, and another one is not; its slot is free then.
const LISTED: Rows<'static> = &[
    (1, STRANGER, REFUSED),
    (0, LOGIN, LOGIN_1),
    (0, LOGOUT_AT_ONCE, LEFT_AT_ONCE),
];

#[test]
fn listed_initiators(rt: HostRuntime) {
    let access = Access {
        initiators: Some(&[b"iqn.2026-01.example:host"]),
        secrets: None,
    };
    check_for(
        &rt,
        &rt,
        options(1, 2, 5),
        access,
        LISTED,
        "an initiator that is listed",
    );
}

/// A discovery session of a service that tells a portal: its keys have values, and the name comes before
/// the address.
const TOLD: Rows<'static> = &[
    (0, DISCOVERY, DISCOVERED),
    (0, ALL_TARGETS, TOLD_TARGET),
    (0, LOGOUT_FROM_DISCOVERY, LEFT_DISCOVERY),
];

#[test]
fn a_told_portal(rt: HostRuntime) {
    let asked = Options {
        portal: PortalOption::Other(b"192.0.2.7:3260"),
        ..options(1, 2, 5)
    };
    check(&rt, &rt, asked, TOLD, "a portal");
}

/// A disk that was given a serial number tells it.
const SERIAL_IS_GIVEN: Rows<'static> = &[
    (0, LOGIN, LOGIN_1),
    (0, SERIAL, OWN_SERIAL),
    (0, LOGOUT, LEFT),
];

#[test]
fn a_serial_number(rt: HostRuntime) {
    let asked = Options {
        unit: Some(UnitOptions {
            write_protected: false,
            thin: false,
            write_back: false,
        }),
        ..options(1, 2, 5)
    };
    check(&rt, &rt, asked, SERIAL_IS_GIVEN, "a serial number");
}

/// Another disk tells the one that all of them have.
const NO_SERIAL_IS_GIVEN: Rows<'static> = &[
    (0, LOGIN, LOGIN_1),
    (0, SERIAL, USUAL_SERIAL),
    (0, LOGOUT, LEFT),
];

#[test]
fn no_serial_number(rt: HostRuntime) {
    let asked = options(1, 2, 5);
    check(&rt, &rt, asked, NO_SERIAL_IS_GIVEN, "no serial number");
}

/// One session at a time: the second one has its turns when the first one is over, and with the bare profile
/// the number that is free again.
const ONE: Rows<'static> = &[
    (0, LOGIN, LOGIN_1),
    (0, LOGOUT_AT_ONCE, LEFT_AT_ONCE),
    (1, LOGIN, LOGIN_1),
    (1, LOGOUT_AT_ONCE, LEFT_AT_ONCE),
];

#[test]
fn one_more_than_there_are_slots(rt: HostRuntime) {
    check(&rt, &rt, options(2, 1, 5), ONE, "one at a time");
}

/// One session behind the other, whose connection was there before.
const BEHIND: Rows<'static> = &[
    (0, LOGIN, LOGIN_1),
    (0, LOGOUT_AT_ONCE, LEFT_AT_ONCE),
    (1, LOGIN, LOGIN_2),
    (1, LOGOUT_AT_ONCE, LEFT_AT_ONCE),
];

#[test]
fn a_silent_peer_leaves(rt: HostRuntime) {
    check(
        &rt,
        &rt,
        options(1, 2, 1),
        &[(0, LOGIN, LOGIN_1)],
        "a silent peer",
    );
}

// Whether the server ends a client's connection before it has had many turns.
fn is_ended<S: BlockStore + Drop>(
    rt: &HostRuntime,
    abort: &impl Abort,
    service: &mut Service<'_, S>,
    client: &TcpStream,
) -> bool {
    let mut client = client;
    for _ in 0..MOST_TURNS {
        if let Ok(0) = client.read(&mut [0]) {
            return true;
        }
        service.turn(rt, abort);
    }
    false
}

/// With the last login the listener closes, and who has not logged in is ended.
#[test]
fn the_last_login_closes(rt: HostRuntime) {
    let mut service = open(&rt, &rt, options(1, 3, 5), EVERYBODY);
    let clients = clients(&rt, &rt, &service.server, 2);
    let first = clients.get(0).expect(&rt, "a client");
    let other = clients.get(1).expect(&rt, "a client");
    let row = ("the last login", 0);
    check_answers(&rt, &rt, &mut service, first, LOGIN, LOGIN_1, row);
    same(&rt, &service.server.port().is_ok(), &false, &"a port");
    same(
        &rt,
        &is_ended(&rt, &rt, &mut service, other),
        &true,
        &"a guest",
    );
    same(&rt, &service.server.is_done(), &false, &"the session");
    let row = ("the last login", 1);
    check_answers(
        &rt,
        &rt,
        &mut service,
        first,
        LOGOUT_AT_ONCE,
        LEFT_AT_ONCE,
        row,
    );
    finish(&rt, &rt, &mut service, "the last login");
}

/// Where no number is asked for, the service goes on behind each session.
#[test]
fn no_login_is_the_last(rt: HostRuntime) {
    let asked = Options {
        stop: None,
        ..options(0, 2, 5)
    };
    let mut service = open(&rt, &rt, asked, EVERYBODY);
    let clients = clients(&rt, &rt, &service.server, 2);
    for (at, (place, requests, due)) in BEHIND.iter().enumerate() {
        let client = clients.get(*place).expect(&rt, "no such client");
        check_answers(
            &rt,
            &rt,
            &mut service,
            client,
            requests,
            due,
            ("any number", at),
        );
    }
    for client in clients.iter() {
        same(
            &rt,
            &is_ended(&rt, &rt, &mut service, client),
            &true,
            &"a logout",
        );
    }
    same(&rt, &service.server.is_done(), &false, &"any number");
    same(&rt, &service.server.port().is_ok(), &true, &"a port");
}

/// Where connections are counted, one that breaks a rule is one of them, and the listener closes behind the last.
const COUNTED: Rows<'static> = &[
    (0, PING, ""),
    (1, LOGIN, LOGIN_2),
    (1, LOGOUT_AT_ONCE, LEFT_AT_ONCE),
];

#[test]
fn connections_are_counted(rt: HostRuntime) {
    let asked = Options {
        stop: Some(Stop::Connections(2)),
        ..options(0, 2, 5)
    };
    check(&rt, &rt, asked, COUNTED, "connections");
}

/// Connections that are served in turn: a fault ends its session alone, and each session has TSIH 1.
const IN_TURN: Rows<'static> = &[
    (0, PING, ""),
    (1, LOGIN, LOGIN_1),
    (1, WRITE, WRITTEN),
    (1, LOGOUT, LEFT),
    (2, LOGIN, LOGIN_1),
    (2, READ, GIVEN),
    (2, LOGOUT, LEFT),
];

#[test]
fn one_connection_after_another(rt: HostRuntime) {
    let mut service = open_in_turn(&rt, &rt, 3);
    let clients = clients(&rt, &rt, &service.server, 3);
    check_rows(&rt, &rt, &mut service, &clients, IN_TURN, "in turn");
}

/// A connection that has not logged in makes no room for the next one, which waits until it is over.
#[test]
fn the_next_connection_waits(rt: HostRuntime) {
    let mut service = open_in_turn(&rt, &rt, 2);
    let mut clients = clients(&rt, &rt, &service.server, 2);
    let mut next = clients.pop().expect(&rt, "a client");
    let stream = pdus_of(rt.alloc(), LOGIN).expect(&rt, LOGIN);
    next.write_all(&stream).expect(&rt, LOGIN);
    let mut out = Vec::new(rt.alloc());
    service.turn(&rt, &rt);
    same(&rt, &receive(&rt, &next, &mut out), &false, &"the next");
    drop(clients);
    let due = pdus_of(rt.alloc(), LOGIN_1).expect(&rt, LOGIN_1);
    answers(&rt, &rt, &mut service, &next, due.len(), &mut out);
    same(&rt, &out, &due, &"the next");
    drop(next);
    finish(&rt, &rt, &mut service, "the next");
}

/// With no connection to serve the service is done.
#[test]
fn no_connection_is_served(rt: HostRuntime) {
    let service = open_in_turn(&rt, &rt, 0);
    same(&rt, &service.server.is_done(), &true, &"no connection");
}

/// The bytes of the disk.
const BYTES: usize = 4096;

/// Where block 3 begins.
const WRITTEN_AT: usize = 1536;

// A medium that keeps for good what is synced, and hides no failure.
fn medium(abort: &impl Abort, alloc: Global) -> CrashMemory {
    CrashMemory::new(alloc, vec![in alloc; 0u8; BYTES].expect(abort, "bytes"))
}

/// Over a medium that hides no failure none is counted, and the medium has what was written.
#[test]
fn over_a_medium_that_hides_nothing(rt: HostRuntime) {
    let store = FileStore::new(medium(&rt, rt.alloc())).expect(&rt, "a store");
    let mut service = open_over(&rt, &rt, options(2, 2, 5), EVERYBODY, store);
    let clients = clients(&rt, &rt, &service.server, 2);
    check_rows(&rt, &rt, &mut service, &clients, TWO, "over a medium");
    same(&rt, &service.store.failures(), &0, &"failures");
    let Service { store, .. } = Box::into_inner(service);
    let medium = store.into_medium();
    let block = medium.bytes().get(WRITTEN_AT..WRITTEN_AT + 512);
    let is_kept = block
        .expect(&rt, "block 3")
        .iter()
        .all(|byte| *byte == 0x5a);
    same(&rt, &is_kept, &true, &"block 3");
}

// How a service ends over a medium of which so many calls work, where a session logs in and writes; nothing if
// it goes on. No answer leaves that the medium didn't keep.
fn ended_over(rt: &HostRuntime, abort: &impl Abort, calls: u64) -> Option<ServeFault> {
    let Ok(store) = FileStore::new(StopsAt::new(medium(abort, rt.alloc()), calls)) else {
        return None;
    };
    let mut service = open_over(rt, abort, options(1, 2, 5), EVERYBODY, store);
    let clients = clients(rt, abort, &service.server, 1);
    let client = clients.get(0).expect(abort, "a client");
    let row = ("a login", 0);
    check_answers(rt, abort, &mut service, client, LOGIN, LOGIN_1, row);
    let stream = pdus_of(rt.alloc(), WRITE).expect(abort, WRITE);
    let mut writer = client;
    writer.write_all(&stream).expect(abort, WRITE);
    let mut out = Vec::new(rt.alloc());
    for _ in 0..MOST_TURNS {
        if receive(abort, client, &mut out) {
            return None;
        }
        if let Err(fault) = service.try_turn(rt) {
            receive(abort, client, &mut out);
            same(abort, &out.len(), &0, &"an answer");
            return Some(fault);
        }
    }
    None
}

/// The write is refused where the medium stops before it. Where it stops at the sync behind it, the service ends.
#[test]
fn a_sync_that_fails_ends_the_service(rt: HostRuntime) {
    let mut has_ended = false;
    for calls in 0..8 {
        if let Some(fault) = ended_over(&rt, &rt, calls) {
            same(&rt, &fault.status(), &4, &calls);
            same(&rt, &matches!(fault, ServeFault::Sync), &true, &calls);
            has_ended = true;
        }
    }
    same(&rt, &has_ended, &true, &"syncs that fail");
}

/// The first block of a write, how many it has, their byte, and the answer.
type Filled = (u64, u64, u8, Result<(), StoreFault>);

/// Writes of a byte to so many blocks from one on, over 256 of which 128 are kept, 64 together, and what
/// they answer.
const FILLED: &[Filled] = &[
    (0, 1, 1, Ok(())),
    (255, 1, 2, Ok(())),
    (64, 0, 3, Ok(())),
    (64, 1, 4, Err(StoreFault::Device)),
    (0, 256, 5, Err(StoreFault::Device)),
    (60, 5, 6, Err(StoreFault::Device)),
    (192, 64, 7, Ok(())),
    (0, 64, 8, Ok(())),
    (128, 1, 9, Err(StoreFault::Device)),
    (64, 128, 0, Ok(())),
    (0, 63, 0, Ok(())),
    (128, 1, 9, Err(StoreFault::Device)),
    (63, 1, 0, Ok(())),
    (128, 1, 9, Ok(())),
    (64, 1, 9, Err(StoreFault::Device)),
];

// A block is of one byte alone.
fn check_block(rt: &impl Abort, store: &mut LimitedStore, lba: u64, due: u8) {
    assert!(rt; lba < store.blocks());
    let mut block = [0xff; 512];
    let read = store.read(lba, &mut block);
    let is_due = block.iter().all(|byte| *byte == due);
    same(rt, &(read.is_ok(), is_due), &(true, true), &lba);
}

// What a write answers, and which byte each block is of behind it.
fn check_write(
    rt: &impl Abort,
    alloc: Global,
    store: &mut LimitedStore,
    due: &mut [u8; 256],
    row: &Filled,
) {
    let (first, blocks, byte, answer) = row;
    let end = first.saturating_add(*blocks);
    assert!(rt; end <= 256 && store.blocks() == 256);
    let bytes = vec![in alloc; *byte; 512 * *blocks as usize].expect(rt, "bytes");
    same(rt, &store.write(*first, &bytes), answer, &first);
    for (lba, place) in due.iter_mut().enumerate() {
        if answer.is_ok() && *first <= lba as u64 && (lba as u64) < end {
            *place = *byte;
        }
        check_block(rt, store, lba as u64, *place);
    }
}

/// Where there is no room for a write, it is refused, and no block changes.
#[test]
fn a_disk_that_is_full(rt: HostRuntime) {
    let mut store = LimitedStore::new(rt.alloc(), 256, 65_536);
    let mut due = [0u8; 256];
    for row in FILLED {
        check_write(&rt, rt.alloc(), &mut store, &mut due, row);
    }
    let refused = FILLED.iter().filter(|row| row.3.is_err()).count();
    same(&rt, &store.failures(), &(refused as u64), &"refused");
}

/// A disk that may be kept whole refuses nothing.
#[test]
fn a_disk_that_has_room(rt: HostRuntime) {
    let mut store = LimitedStore::new(rt.alloc(), 65, 65_536);
    let bytes = [7u8; 33_280];
    same(&rt, &store.write(0, &bytes), &Ok(()), &"all blocks");
    same(&rt, &store.failures(), &0, &"all blocks");
}
