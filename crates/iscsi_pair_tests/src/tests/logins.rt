//! Logins of a pair.

use super::{Schedule, Setup, deliver, pair_of};
use crate::asserts::same;
use iscsi_initiator::InitiatorFault;
use iscsi_login::{Answered, NegKey, Phase, Stage};
use iscsi_pair::{EndFault, Pair};
use std::alloc::Global;
use std::process::Abort;

/// The keys that a login settles (RFC 7143, section 13), with what two ends of the standard preferences
/// hold then.
const KEYS: &[(NegKey, Answered)] = &[
    (NegKey::MaxConnections, Answered::Number(1)),
    (NegKey::InitialR2T, Answered::Flag(false)),
    (NegKey::ImmediateData, Answered::Flag(true)),
    (NegKey::MaxBurstLength, Answered::Number(262_144)),
    (NegKey::FirstBurstLength, Answered::Number(65_536)),
    (NegKey::DefaultTime2Wait, Answered::Number(2)),
    (NegKey::DefaultTime2Retain, Answered::Number(20)),
    (NegKey::MaxOutstandingR2T, Answered::Number(1)),
    (NegKey::DataPDUInOrder, Answered::Flag(true)),
    (NegKey::DataSequenceInOrder, Answered::Flag(true)),
    (NegKey::ErrorRecoveryLevel, Answered::Number(0)),
    (NegKey::HeaderDigest, Answered::NoneItem),
    (NegKey::DataDigest, Answered::NoneItem),
    (NegKey::AuthMethod, Answered::NoneItem),
];

// Both ends are in full feature phase, and hold the same.
pub(super) fn hold_the_same(pair: &Pair) -> bool {
    let (target, initiator) = (pair.target(), pair.initiator());
    let (there, here) = (target.params(), initiator.params());
    target.stage() == Stage::Full
        && initiator.stage() == Stage::Full
        && there.initiator_max_recv == here.initiator_max_recv
        && there.target_max_recv == here.target_max_recv
        && KEYS
            .iter()
            .all(|(key, _)| there.get(*key) == here.get(*key))
}

/// Keys whose values are not those of two ends of the standard preferences, with their values.
type Others = &'static [(NegKey, Answered)];

// What is due for a key of which these are other ones.
fn due_of(key: NegKey, standard: Answered, others: Others) -> Answered {
    for (other, value) in others {
        if *other == key {
            return *value;
        }
    }
    standard
}

// The target holds what two ends of the standard preferences agree on, but for these keys; and an
// initiator sends segments of this length.
fn check_held(rt: &impl Abort, pair: &Pair, others: Others, segment: u32, row: (Setup, usize)) {
    let there = pair.target().params();
    for (key, standard) in KEYS {
        let due = due_of(*key, *standard, others);
        same(rt, &there.get(*key), &due, &(row, key));
    }
    let longest = (there.initiator_max_recv, there.target_max_recv);
    same(rt, &longest, &(8192, segment), &row);
}

/// The lengths of pieces: a byte, less than a header, a header, and all.
const PIECES: &[usize] = &[1, 47, 48, 100_000];

// A pair that went through its login in pieces of this length.
fn run_login(rt: &impl Abort, alloc: Global, setup: Setup, piece: usize) -> Box<Pair> {
    let mut pair = pair_of(rt, alloc, setup);
    deliver(rt, alloc, &mut pair, &mut Schedule::always(piece));
    pair
}

// The detail of the refusal of class 2 that the initiator was answered.
fn refused_detail(pair: &Pair) -> Option<u8> {
    match pair.initiator_fault() {
        Some(EndFault::Feed(InitiatorFault::Refused(2, detail))) => Some(*detail),
        _ => None,
    }
}

/// Logins after which both ends hold the same, with what is not that of the standard preferences, and
/// the longest segment that the target takes.
const AGREED: &[(Setup, Others, u32)] = &[
    (Setup::Standard, &[], 8192),
    (Setup::ShortSegments, &[], 8192),
    (Setup::OneStage, &[], 8192),
    (
        Setup::ShortBursts,
        &[(NegKey::MaxBurstLength, Answered::Number(1024))],
        512,
    ),
    (Setup::ChapOrNone, &[], 8192),
    // Where no data go either way the default stands (RFC 7143, section 13.10).
    (
        Setup::Discovery,
        &[(NegKey::InitialR2T, Answered::Flag(true))],
        8192,
    ),
];

#[test]
fn agree(rt: HostRuntime) {
    for (setup, others, segment) in AGREED {
        for piece in PIECES {
            let pair = run_login(&rt, rt.alloc(), *setup, *piece);
            same(&rt, &hold_the_same(&pair), &true, &(*setup, *piece));
            check_held(&rt, &pair, others, *segment, (*setup, *piece));
        }
    }
}

// The login is refused with this detail, and the session closed without a fault of the target.
fn check_refused(rt: &impl Abort, pair: &Pair, detail: u8, row: (Setup, usize)) {
    same(rt, &refused_detail(pair), &Some(detail), &row);
    let end = (pair.target_fault().is_none(), pair.target().phase());
    same(rt, &end, &(true, Phase::Closed), &row);
}

#[test]
fn are_refused(rt: HostRuntime) {
    for piece in PIECES {
        let pair = run_login(&rt, rt.alloc(), Setup::AnotherName, *piece);
        check_refused(&rt, &pair, 3, (Setup::AnotherName, *piece));
        let pair = run_login(&rt, rt.alloc(), Setup::Chap, *piece);
        check_refused(&rt, &pair, 1, (Setup::Chap, *piece));
    }
}
