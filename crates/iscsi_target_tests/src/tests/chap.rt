//! Logins before a target that demands CHAP, by example, and with bytes changed.

use super::dialogues::{LENGTHS, check};
use super::exchanges::{EXCHANGES, Exchange, exchange_of};
use super::{BY_PDU, NAME, feed_pieces};
use crate::asserts::same;
use iscsi_access::{Account, Chap};
use iscsi_login::{Phase, Preferences, Stage};
use iscsi_target::{Config, Target};
use iscsi_test_support::marked;
use scsi_disk::SparseStore;
use std::alloc::Global;
use std::process::Abort;

// An account of this name and secret.
fn account(rt: &impl Abort, alloc: Global, name: &[u8], secret: &[u8]) -> Account {
    let name = name.to_vec(alloc).expect(rt, "a name");
    let secret = secret.to_vec(alloc).expect(rt, "a secret");
    Account::new(name, secret).expect(rt, "an account")
}

// What is demanded in a login.
fn demand(rt: &impl Abort, alloc: Global, row: &Exchange<'_>) -> Chap {
    let mut accounts = Vec::new(alloc);
    accounts
        .push(account(rt, alloc, b"alice", b"secretsecret12"))
        .expect(rt, "an account");
    let own = if row.has_own {
        Some(account(rt, alloc, b"bob", b"othersecret34"))
    } else {
        None
    };
    Chap::new(accounts, own, row.identifier, row.challenge).expect(rt, "a demand")
}

// A target that has just begun, and demands CHAP.
fn target_demanding(rt: &impl Abort, alloc: Global, row: &Exchange<'_>) -> Box<Target> {
    let preferences = Preferences::standard();
    let config = Config::new(alloc, NAME, 1, 1, preferences).expect(rt, "a configuration");
    let config = config.with_chap(demand(rt, alloc, row));
    Box::new(alloc, Target::new(alloc, config, 1)).expect(rt, "a target")
}

// A login, whose stream comes in pieces of this length.
fn check_exchange(rt: &impl Abort, alloc: Global, row: &Exchange<'_>, len: usize) {
    let mut target = target_demanding(rt, alloc, row);
    let mut store = SparseStore::new(alloc, 2048);
    check(rt, alloc, row.name, len, &mut target, &mut store, row.lines);
}

// The same for each length.
fn check_lengths(rt: &impl Abort, alloc: Global, row: &Exchange<'_>) {
    for len in LENGTHS {
        check_exchange(rt, alloc, row, *len);
    }
}

#[test]
fn exchanges(rt: HostRuntime) {
    for row in EXCHANGES.split("\n\n") {
        check_lengths(&rt, rt.alloc(), &exchange_of(&rt, row));
    }
}

// How many bytes of the stream of a login come before the text with its response.
const BEFORE: usize = 48 + 144 + 48 + 12 + 48;

// How many bytes that text has.
const TEXT: usize = 55;

// Whether the login of this stream leads to the operational stage: it ends behind the response.
fn passes(rt: &impl Abort, alloc: Global, row: &Exchange<'_>, stream: &[u8]) -> bool {
    let mut target = target_demanding(rt, alloc, row);
    let mut store = SparseStore::new(alloc, 2048);
    let mut out = Vec::new(alloc);
    let _ = feed_pieces(&mut target, stream, BY_PDU, &mut store, &mut out);
    target.phase() == Phase::Login && target.stage() == Stage::Operational
}

// How many logins pass in which one byte of the text with the response is another one.
fn passing_changes(rt: &impl Abort, alloc: Global, row: &Exchange<'_>, stream: &mut [u8]) -> usize {
    let mut passing = 0usize;
    for place in BEFORE..BEFORE + TEXT {
        let kept = stream.get(place).copied().unwrap_or(0);
        for value in 0..=255u8 {
            if let Some(byte) = stream.get_mut(place) {
                *byte = value;
            }
            if value != kept && passes(rt, alloc, row, stream) {
                passing = passing.saturating_add(1);
            }
        }
        if let Some(byte) = stream.get_mut(place) {
            *byte = kept;
        }
    }
    passing
}

// Of all changes of one byte of the text with the response, those pass that leave the response as it is: another
// case of one of its nine letters, or of the `x` before it.
fn check_changes(rt: &impl Abort, alloc: Global, row: &Exchange<'_>) {
    let lines = marked(alloc, row.lines, "I> ").expect(rt, "requests");
    let login = lines.get(..BEFORE + TEXT + 1).expect(rt, "three");
    let mut stream = login.to_vec(alloc).expect(rt, "a copy");
    same(rt, &passes(rt, alloc, row, &stream), &true, &"as it is");
    let passing = passing_changes(rt, alloc, row, &mut stream);
    same(rt, &passing, &10, &"changes that pass");
}

#[test]
fn changed_responses_are_refused(rt: HostRuntime) {
    for row in EXCHANGES.split("\n\n").take(1) {
        check_changes(&rt, rt.alloc(), &exchange_of(&rt, row));
    }
}
