//! Sessions by example, in pieces of any length. One file, since all of it runs the same rows.

use super::queues::{
    BEHIND, EIGHT, FAILING_FIRST, FAILING_SECOND, FAILING_THIRD, LONG_QUEUES, SHORT_QUEUES, TURN,
    WAITING_REQUESTS, WAITING_WRITES, WINDOWS,
};
use super::rows::{
    Dialogue, FAILING, FAILING_PARTS, LISTED, LOGIN, LOGINS, LONG, NOBODY, REQUESTS, SHORT, WRITES,
    dialogue_of,
};
use super::{BY_PDU, feed_pieces, target_of, target_that_lists, target_with};
use crate::asserts::same;
use iscsi_login::{Phase, Preferences, Session, Stage};
use iscsi_stream::StreamFault;
use iscsi_target::{Target, TargetFault};
use iscsi_test_support::{SESSION, Turn, append_pdu};
use scsi_disk::{BlockStore, FailAt, MemoryStore, SparseStore};
use std::alloc::Global;
use std::fmt::Debug;
use std::process::Abort;

// What a call answers, as a line of a dialogue says it.
fn answer_of(rt: &impl Abort, words: &str) -> Result<Phase, TargetFault> {
    if let Some(rule) = words.strip_prefix("rule ") {
        return Err(TargetFault::Protocol(rule.parse().expect(rt, rule)));
    }
    match words {
        "login" => Ok(Phase::Login),
        "full" => Ok(Phase::Full),
        "closed" => Ok(Phase::Closed),
        "was closed" => Err(TargetFault::Closed),
        _ => panic!(rt; "no such answer"),
    }
}

/// Asserts that bytes are all this one.
fn check_fill(rt: &impl Abort, bytes: &[u8], want: u8, row: &impl Debug) {
    for byte in bytes {
        same(rt, byte, &want, row);
    }
}

/// Asserts that a block is of one byte alone.
fn check_block<S: BlockStore>(rt: &impl Abort, store: &mut S, lba: u64, want: u8) {
    assert!(rt; lba < store.blocks());
    let mut block = [0xff; 512];
    same(rt, &store.read(lba, &mut block), &Ok(()), &lba);
    check_fill(rt, &block, want, &lba);
}

// The first blocks, so many, are of 5a, and the ones behind them of 00.
fn check_disk<S: BlockStore>(rt: &impl Abort, store: &mut S, written: u16) {
    for lba in 0..16u64 {
        let want = if lba < written as u64 { 0x5a } else { 0x00 };
        check_block(rt, store, lba, want);
    }
}

// Compares what a session answers to a turn: in a row the dialogue, the length of pieces and the line.
fn check_turn<S: BlockStore>(
    rt: &impl Abort,
    alloc: Global,
    target: &mut Target,
    store: &mut S,
    turn: &Turn,
    answer: Result<Phase, TargetFault>,
    row: (&str, usize, usize),
) {
    let mut out = Vec::new(alloc);
    let result = feed_pieces(target, &turn.initiator, row.1, store, &mut out);
    same(rt, &out, &turn.target, &row);
    same(rt, &result, &answer, &row);
    if let Some(written) = turn.written {
        check_disk(rt, store, written);
    }
}

/// Goes through the turns of a session, whose stream comes in pieces of this length.
pub fn check<S: BlockStore>(
    rt: &impl Abort,
    alloc: Global,
    name: &str,
    len: usize,
    target: &mut Target,
    store: &mut S,
    lines: &str,
) {
    let mut turn = Turn::new(alloc);
    for (at, line) in lines.lines().enumerate() {
        let (mark, rest) = line.split_once(' ').expect(rt, "no mark");
        if mark == "=" {
            let answer = answer_of(rt, rest);
            check_turn(rt, alloc, target, store, &turn, answer, (name, len, at));
            turn = Turn::new(alloc);
        } else {
            turn.take(mark, rest).expect(rt, line);
        }
    }
    same(rt, &turn.is_empty(), &true, &"no answer at the end");
}

// Goes through a session behind the login, whose stream comes in pieces of this length.
fn check_after_login<S: BlockStore>(
    rt: &impl Abort,
    alloc: Global,
    name: &str,
    len: usize,
    store: &mut S,
    lines: &str,
) {
    let mut target = target_of(rt, alloc);
    check(rt, alloc, "login", len, &mut target, store, LOGIN);
    check(rt, alloc, name, len, &mut target, store, lines);
}

// A session over a store of 2048 blocks, whose stream comes in pieces of this length.
fn check_dialogue<S: BlockStore>(
    rt: &impl Abort,
    alloc: Global,
    row: &Dialogue<'_>,
    len: usize,
    store: &mut S,
) {
    if !row.is_fresh {
        check_after_login(rt, alloc, row.name, len, store, row.lines);
        return;
    }
    let mut target = target_of(rt, alloc);
    check(rt, alloc, row.name, len, &mut target, store, row.lines);
}

/// The lengths of pieces: a PDU at a time, a byte, less than a header, a header, and all.
pub const LENGTHS: &[usize] = &[BY_PDU, 1, 47, 48, 100_000];

// A session over a disk whose read or write of this number fails, in pieces of several lengths.
fn check_failing(rt: &impl Abort, alloc: Global, at: u64, row: &Dialogue<'_>) {
    for len in LENGTHS {
        let store = MemoryStore::new(alloc, 2048).expect(rt, "a disk");
        let mut store = FailAt::new(store, at);
        check_after_login(rt, alloc, row.name, *len, &mut store, row.lines);
    }
}

// A session over the store that keeps what was written alone, and once over the other.
fn check_stores(rt: &impl Abort, alloc: Global, row: &Dialogue<'_>) {
    for len in LENGTHS {
        let mut store = SparseStore::new(alloc, 2048);
        check_dialogue(rt, alloc, row, *len, &mut store);
    }
    let mut store = MemoryStore::new(alloc, 2048).expect(rt, "a disk");
    check_dialogue(rt, alloc, row, 48, &mut store);
}

// The sessions of a text, over either store.
fn check_all(rt: &impl Abort, alloc: Global, text: &str) {
    for row in text.split("\n\n") {
        check_stores(rt, alloc, &dialogue_of(rt, row));
    }
}

#[test]
fn logins(rt: HostRuntime) {
    check_all(&rt, rt.alloc(), LOGINS);
}

// A session of a target that lists two names, whose stream comes in pieces of this length.
fn check_listed(rt: &impl Abort, alloc: Global, row: &Dialogue<'_>, len: usize) {
    let mut target = target_that_lists(
        rt,
        alloc,
        &[b"iqn.2026-01.example:guest", b"iqn.2026-01.example:host"],
    );
    let mut store = SparseStore::new(alloc, 2048);
    check(rt, alloc, row.name, len, &mut target, &mut store, row.lines);
}

// The same in pieces of each length.
fn check_listed_lengths(rt: &impl Abort, alloc: Global, row: &Dialogue<'_>) {
    for len in LENGTHS {
        check_listed(rt, alloc, row, *len);
    }
}

#[test]
fn listed_initiators(rt: HostRuntime) {
    for row in LISTED.split("\n\n") {
        check_listed_lengths(&rt, rt.alloc(), &dialogue_of(&rt, row));
    }
}

/// A target that lists no name lets nobody in.
#[test]
fn an_empty_list(rt: HostRuntime) {
    let mut target = target_that_lists(&rt, rt.alloc(), &[]);
    let mut store = SparseStore::new(rt.alloc(), 2048);
    check(
        &rt,
        rt.alloc(),
        "an empty list",
        BY_PDU,
        &mut target,
        &mut store,
        NOBODY,
    );
}

#[test]
fn requests(rt: HostRuntime) {
    check_all(&rt, rt.alloc(), REQUESTS);
}

#[test]
fn windows(rt: HostRuntime) {
    check_all(&rt, rt.alloc(), WINDOWS);
}

#[test]
fn short_queues(rt: HostRuntime) {
    check_all(&rt, rt.alloc(), SHORT_QUEUES);
}

#[test]
fn long_queues(rt: HostRuntime) {
    check_all(&rt, rt.alloc(), LONG_QUEUES);
}

#[test]
fn writes_that_wait(rt: HostRuntime) {
    check_all(&rt, rt.alloc(), WAITING_WRITES);
}

#[test]
fn requests_that_wait(rt: HostRuntime) {
    check_all(&rt, rt.alloc(), WAITING_REQUESTS);
}

// A session over a disk of its own, in pieces of this length.
fn check_sparse(rt: &impl Abort, alloc: Global, row: &Dialogue<'_>, len: usize) {
    let mut store = SparseStore::new(alloc, 2048);
    check_dialogue(rt, alloc, row, len, &mut store);
}

#[test]
fn long_texts(rt: HostRuntime) {
    for text in LONG.split("\n\n") {
        let row = dialogue_of(&rt, text);
        check_sparse(&rt, rt.alloc(), &row, BY_PDU);
        check_sparse(&rt, rt.alloc(), &row, 47);
    }
}

// Sessions of a text, over disks whose read or write of this number fails.
fn check_all_failing(rt: &impl Abort, alloc: Global, at: u64, text: &str) {
    for row in text.split("\n\n") {
        check_failing(rt, alloc, at, &dialogue_of(rt, row));
    }
}

/// The session goes on after a failure of its store.
#[test]
fn stores_that_fail(rt: HostRuntime) {
    check_all_failing(&rt, rt.alloc(), 0, FAILING);
    check_all_failing(&rt, rt.alloc(), 1, FAILING_PARTS);
    check_all_failing(&rt, rt.alloc(), 0, FAILING_FIRST);
    check_all_failing(&rt, rt.alloc(), 1, FAILING_SECOND);
    check_all_failing(&rt, rt.alloc(), 2, FAILING_THIRD);
}

// A session in pieces of each length to 100, over the store that keeps what was written alone.
fn check_lengths(rt: &impl Abort, alloc: Global, name: &str, lines: &str) {
    for len in 1..101 {
        let mut store = SparseStore::new(alloc, 2048);
        check_after_login(rt, alloc, name, len, &mut store, lines);
    }
}

#[test]
fn a_write_in_pieces_of_each_length(rt: HostRuntime) {
    check_lengths(&rt, rt.alloc(), "writes", WRITES);
}

/// A read and commands behind a write, and a command out of its turn.
#[test]
fn a_window_in_pieces_of_each_length(rt: HostRuntime) {
    check_lengths(&rt, rt.alloc(), "a read behind a write", BEHIND);
    check_lengths(&rt, rt.alloc(), "eight commands", EIGHT);
    check_lengths(&rt, rt.alloc(), "out of its turn", TURN);
}

// A session of a target that takes segments of at most 512 bytes.
fn check_short(rt: &impl Abort, alloc: Global, row: &Dialogue<'_>, len: usize) {
    let mut preferences = Preferences::standard();
    preferences.max_recv = 512;
    let mut target = target_with(rt, alloc, preferences);
    let mut store = SparseStore::new(alloc, 2048);
    check(rt, alloc, row.name, len, &mut target, &mut store, row.lines);
}

#[test]
fn longer_segments_than_declared(rt: HostRuntime) {
    let row = dialogue_of(&rt, SHORT);
    for len in LENGTHS {
        check_short(&rt, rt.alloc(), &row, *len);
    }
}

// Whose session it is after the login.
fn check_initiator(rt: &impl Abort, target: &Target) {
    let due = b"iqn.2026-01.example:host".as_slice();
    same(rt, &target.initiator_name(), &due, &"the initiator's name");
    same(rt, &target.isid(), &[0x40, 0, 0, 1, 0, 0], &"its ISID");
    let session = target.session_type();
    same(rt, &session, &Session::Normal, &"the session's type");
}

// In which phase and stage a session is.
fn check_place(rt: &impl Abort, target: &Target, due: (Phase, Stage), row: &str) {
    same(rt, &(target.phase(), target.stage()), &due, &row);
}

// Logs in.
fn log_in(rt: &impl Abort, alloc: Global, target: &mut Target, store: &mut MemoryStore) {
    let before = (Phase::Login, Stage::Security);
    check_place(rt, target, before, "before the login");
    check(rt, alloc, "login", 100_000, target, store, LOGIN);
    check_place(rt, target, (Phase::Full, Stage::Full), "after the login");
    let held = target.params().initiator_max_recv;
    same(rt, &held, &4096, &"what is held");
    check_initiator(rt, target);
}

// Ends a stream within a PDU.
fn end_within(rt: &impl Abort, target: &mut Target) {
    let fault = TargetFault::Stream(StreamFault::Truncated(320));
    same(rt, &target.finish(), &Err(fault), &"within a PDU");
    check_place(rt, target, (Phase::Closed, Stage::Full), "after the end");
    let closed = Err(TargetFault::Closed);
    same(rt, &target.finish(), &closed, &"once more");
}

// A byte of a ping.
fn check_byte(
    rt: &impl Abort,
    alloc: Global,
    target: &mut Target,
    store: &mut MemoryStore,
    due: Result<Phase, TargetFault>,
) {
    let mut out = Vec::new(alloc);
    let answer = target.feed(&[0x40], store, &mut out);
    same(rt, &answer, &due, &"a byte");
    same(rt, &out.len(), &0, &"nothing is answered");
}

/// The end of a stream between two PDUs, within one, and after that.
#[test]
fn ends(rt: HostRuntime) {
    let mut store = MemoryStore::new(rt.alloc(), 1).expect(&rt, "a disk");
    let mut target = target_of(&rt, rt.alloc());
    log_in(&rt, rt.alloc(), &mut target, &mut store);
    same(&rt, &target.finish(), &Ok(()), &"between two PDUs");
    check_byte(&rt, rt.alloc(), &mut target, &mut store, Ok(Phase::Full));
    end_within(&rt, &mut target);
    let closed = Err(TargetFault::Closed);
    check_byte(&rt, rt.alloc(), &mut target, &mut store, closed);
}

// A target with bursts of 1,024 bytes and segments of 512.
fn target_of_session(rt: &impl Abort, alloc: Global) -> Box<Target> {
    let mut preferences = Preferences::standard();
    preferences.max_burst = 1024;
    preferences.first_burst = 1024;
    preferences.max_recv = 512;
    target_with(rt, alloc, preferences)
}

// Feeds the PDU of a line.
fn feed(
    rt: &impl Abort,
    alloc: Global,
    target: &mut Target,
    store: &mut SparseStore,
    line: &str,
    out: &mut Vec<u8>,
) {
    let mut came = Vec::new(alloc);
    append_pdu(line, &mut came).expect(rt, line);
    target.feed(&came, store, out).expect(rt, line);
}

/// What a session sent, and what is due.
#[derive(Drop)]
struct Sent {
    out: Vec<u8>,
    want: Vec<u8>,
}

// A line of the session of both ends.
fn play_line(
    rt: &impl Abort,
    alloc: Global,
    target: &mut Target,
    store: &mut SparseStore,
    line: &str,
    sent: &mut Sent,
) {
    let (mark, rest) = line.split_once(' ').expect(rt, "no mark");
    match mark {
        "!" => same(rt, &sent.out, &sent.want, &line),
        "I>" => feed(rt, alloc, target, store, rest, &mut sent.out),
        "T>" => append_pdu(rest, &mut sent.want).expect(rt, rest),
        _ => panic!(rt; "no such line"),
    }
}

// A session that sent nothing yet.
fn sent_nothing(alloc: Global) -> Sent {
    Sent {
        out: Vec::new(alloc),
        want: Vec::new(alloc),
    }
}

/// The target's part of the session of both ends, a PDU at a time.
#[test]
fn a_session_of_both_ends(rt: HostRuntime) {
    let mut store = SparseStore::new(rt.alloc(), 2048);
    let mut target = target_of_session(&rt, rt.alloc());
    let mut sent = sent_nothing(rt.alloc());
    for line in SESSION.lines() {
        play_line(&rt, rt.alloc(), &mut target, &mut store, line, &mut sent);
    }
    same(&rt, &sent.out, &sent.want, &"at the end");
    same(&rt, &target.phase(), &Phase::Closed, &"after the logout");
}
