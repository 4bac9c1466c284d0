//! Sessions over a medium that may fail and crash: no answer leaves before what it says lasts, and
//! one sync serves all answers that leave together.

use crate::asserts::same;
use iscsi_serve::{SessionFault, configuration, serve_stream};
use iscsi_test_support::{Full, append_pdu, pdus_of};
use scsi_file::{CrashMemory, FileStore, StopsAt};
use std::alloc::Global;
use std::io::Write;
use std::process::Abort;

// A login in one stage.
const LOGIN: &str = "@short";

// Writes of block 3 and of block 4: the header, and the byte that the block is full of.
const WRITES: &[(&str, u8)] = &[
    (
        "01a10000 00000200 00000000 00000000 00000001 00000200 00000001 00000002 2a000000 00030000 01000000 00000000",
        b'Y',
    ),
    (
        "01a10000 00000200 00000000 00000000 00000002 00000200 00000002 00000002 2a000000 00040000 01000000 00000000",
        b'Z',
    ),
];

const LOGOUT: &str =
    "46800000 00000000 00000000 00000000 00000003 00000000 00000003 00000002 00000000 00000000 00000000 00000000";

const ANSWERS: &str =
    "23870000 00000045 40000001 00000001 00000000 00000000 00000001 00000001 00000008 00000000 00000000 00000000 'AuthMethod=None|MaxRecvDataSegmentLength=8192|TargetPortalGroupTag=1|\n\
    21800000 00000000 00000000 00000000 00000001 00000000 00000002 00000002 00000009 00000000 00000000 00000000\n\
    21800000 00000000 00000000 00000000 00000002 00000000 00000003 00000003 0000000a 00000000 00000000 00000000\n\
    26800000 00000000 00000000 00000000 00000003 00000000 00000004 00000003 0000000a 00000000 00000000 00000000";

// The same where each write of a block fails.
const REFUSALS: &str =
    "23870000 00000045 40000001 00000001 00000000 00000000 00000001 00000001 00000008 00000000 00000000 00000000 'AuthMethod=None|MaxRecvDataSegmentLength=8192|TargetPortalGroupTag=1|\n\
    21820002 00000014 00000000 00000000 00000001 00000000 00000002 00000002 00000009 00000000 00000000 00000200 0012700003000000000a000000000c0000000000\n\
    21820002 00000014 00000000 00000000 00000002 00000000 00000003 00000003 0000000a 00000000 00000000 00000200 0012700003000000000a000000000c0000000000\n\
    26800000 00000000 00000000 00000000 00000003 00000000 00000004 00000003 0000000a 00000000 00000000 00000000";

/// What comes of the session if a medium stops after a number of calls. A store syncs the medium as
/// the store begins, and the session asks the medium for two writes and for one sync.
struct Row {
    calls: u64,
    answers: &'static str,
    end: Result<(), SessionFault>,
    /// How many writes since the last sync a crash takes back, and what it leaves then.
    back: usize,
    left: &'static [u8; 8],
}

const ROWS: &[Row] = &[
    Row {
        calls: 4,
        answers: ANSWERS,
        end: Ok(()),
        back: 2,
        left: b"...YZ...",
    },
    // The sync fails, and a crash may leave any of the blocks old or new.
    Row {
        calls: 3,
        answers: "",
        end: Err(SessionFault::Sync),
        back: 2,
        left: b"........",
    },
    Row {
        calls: 3,
        answers: "",
        end: Err(SessionFault::Sync),
        back: 1,
        left: b"...Y....",
    },
    // A write fails, and then the sync.
    Row {
        calls: 2,
        answers: "",
        end: Err(SessionFault::Sync),
        back: 1,
        left: b"........",
    },
];

// A medium of 8 blocks that are full of dots, which stops after so many calls.
fn dots(rt: &impl Abort, alloc: Global, calls: u64) -> StopsAt<CrashMemory> {
    let bytes = vec![in alloc; b'.'; 4096].expect(rt, "8 blocks");
    assert!(rt; bytes.len() == 4096);
    StopsAt::new(CrashMemory::new(alloc, bytes), calls)
}

// The first byte of each of 8 blocks.
fn letters(bytes: &[u8]) -> [u8; 8] {
    let mut letters = [0; 8];
    for (block, letter) in bytes.chunks(512).zip(letters.iter_mut()) {
        *letter = block[0];
    }
    letters
}

// Appends a write of a block that is full of this byte.
fn append_write(rt: &impl Abort, header: &str, letter: u8, stream: &mut Vec<u8>) {
    append_pdu(header, stream).expect(rt, header);
    stream.extend_from_slice(&[letter; 512]).expect(rt, header);
}

// The login, the writes and the logout.
fn requests(rt: &impl Abort, alloc: Global) -> Vec<u8> {
    let mut stream = pdus_of(alloc, LOGIN).expect(rt, "a login");
    for (header, letter) in WRITES {
        append_write(rt, header, *letter, &mut stream);
    }
    append_pdu(LOGOUT, &mut stream).expect(rt, "a logout");
    stream
}

// Serves the session over a store: how it ends.
fn serve<W: Write>(
    rt: &impl Abort,
    alloc: Global,
    store: &mut FileStore<StopsAt<CrashMemory>>,
    out: &mut W,
) -> Result<(), SessionFault> {
    let stream = requests(rt, alloc);
    let mut source = stream.as_slice();
    let config = configuration(alloc).expect(rt, "a configuration");
    serve_stream(alloc, config, store, &mut source, out)
}

// A store over a medium of dots that stops after so many calls. It stands in a box, so that
// functions which own it are proved sooner.
fn store_of(rt: &impl Abort, alloc: Global, calls: u64) -> Box<FileStore<StopsAt<CrashMemory>>> {
    let store = FileStore::new(dots(rt, alloc, calls)).expect(rt, "a store");
    Box::new(alloc, store).expect(rt, "a store")
}

// What a crash leaves that takes back so many writes of each block.
fn left_of(store: Box<FileStore<StopsAt<CrashMemory>>>, back: usize) -> [u8; 8] {
    let mut medium = Box::into_inner(store).into_medium().into_medium();
    medium.crash(&[back; 8]);
    letters(medium.bytes())
}

fn check_row(rt: &impl Abort, alloc: Global, row: &Row) {
    let mut out = Vec::new(alloc);
    let mut store = store_of(rt, alloc, row.calls);
    let end = serve(rt, alloc, &mut *store, &mut out);
    same(rt, &end, &row.end, &row.calls);
    let left = left_of(store, row.back);
    same(rt, &left, row.left, &(row.calls, row.back));
    let answers = pdus_of(alloc, row.answers).expect(rt, "answers");
    same(rt, &out, &answers, &row.calls);
}

#[test]
fn answers_wait_for_one_sync(rt: HostRuntime) {
    for row in ROWS {
        check_row(&rt, rt.alloc(), row);
    }
}

/// Whatever a writer took, it was synced before.
#[test]
fn a_writer_that_fails_behind_a_sync(rt: HostRuntime) {
    let mut store = store_of(&rt, rt.alloc(), 4);
    let end = serve(&rt, rt.alloc(), &mut *store, &mut Full);
    same(&rt, &end, &Err(SessionFault::Write), &"a writer");
    same(&rt, &left_of(store, 2), b"...YZ...", &"a writer");
}

// A session, and what it answers.
fn check_session(
    rt: &impl Abort,
    alloc: Global,
    store: &mut FileStore<StopsAt<CrashMemory>>,
    answers: &str,
    due: Result<(), SessionFault>,
) {
    let mut out = Vec::new(alloc);
    let end = serve(rt, alloc, store, &mut out);
    let answers = pdus_of(alloc, answers).expect(rt, "answers");
    same(rt, &end, &due, &answers.len());
    same(rt, &out, &answers, &answers.len());
}

/// Behind a sync that failed sessions are served, and each of their writes is refused.
#[test]
fn a_session_behind_a_sync_that_failed(rt: HostRuntime) {
    let mut store = store_of(&rt, rt.alloc(), 3);
    check_session(&rt, rt.alloc(), &mut *store, "", Err(SessionFault::Sync));
    check_session(&rt, rt.alloc(), &mut *store, REFUSALS, Ok(()));
}
