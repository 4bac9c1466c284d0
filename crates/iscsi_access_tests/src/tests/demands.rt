//! What may be demanded, and the pairs by which a target says it.

use super::{ALICE, BOB, account, accounts, demand};
use crate::asserts::{same, same_bytes};
use iscsi_access::{Account, Chap, ChapFault, Said};
use iscsi_chap::{Algorithm, Response};
use iscsi_text::write_pairs;
use std::alloc::Global;
use std::process::Abort;

/// The length of a secret, and whether it is one.
const LENGTHS: &[(usize, bool)] = &[
    (0, false),
    (11, false),
    (12, true),
    (255, true),
    (256, false),
];

fn check_length(rt: &impl Abort, alloc: Global, length: usize, want: bool) {
    let secret = vec![in alloc; b's'; length].expect(rt, "a secret");
    let name = b"alice".to_vec(alloc).expect(rt, "a name");
    match Account::new(name, secret) {
        Ok(_) => same(rt, &true, &want, &length),
        Err(fault) => {
            same(rt, &fault, &ChapFault::BadSecret, &length);
            same(rt, &false, &want, &length);
        }
    }
}

#[test]
fn secrets_have_12_to_255_bytes(rt: HostRuntime) {
    for (length, want) in LENGTHS {
        check_length(&rt, rt.alloc(), *length, *want);
    }
}

#[test]
fn one_secret_for_both_ways_is_refused(rt: HostRuntime) {
    let own = Some(account(&rt, rt.alloc(), b"bob", ALICE));
    let same_secret = Chap::new(accounts(&rt, rt.alloc()), own, 0, [0; 16]);
    assert!(rt; matches!(same_secret, Err(ChapFault::SameSecret)));
}

#[test]
fn a_copy_has_name_and_secret(rt: HostRuntime) {
    let bob = account(&rt, rt.alloc(), b"bob", BOB);
    let copy = bob.copy(rt.alloc()).expect(&rt, "a copy");
    same(&rt, &copy.shares_name(&bob), &true, &"name");
    same(&rt, &copy.shares_secret(&bob), &true, &"secret");
    let bo = account(&rt, rt.alloc(), b"bo", ALICE);
    same(&rt, &copy.shares_name(&bo), &false, &"another name");
    same(&rt, &copy.shares_secret(&bo), &false, &"another secret");
}

/// What is said, and the text of its pairs.
const SAID: &[(Said, &[u8])] = &[
    (Said::Nothing, b""),
    (Said::Method, b"AuthMethod=CHAP\0"),
    (
        Said::Challenge(Algorithm::Md5),
        b"CHAP_A=5\0CHAP_C=0x000102030405060708090a0b0c0d0eff\0CHAP_I=125\0",
    ),
    (
        Said::Challenge(Algorithm::Sha256),
        b"CHAP_A=7\0CHAP_C=0x000102030405060708090a0b0c0d0eff\0CHAP_I=125\0",
    ),
    (
        Said::Response(Response::Md5([0x4f; 16])),
        b"CHAP_N=bob\0CHAP_R=0x4f4f4f4f4f4f4f4f4f4f4f4f4f4f4f4f\0",
    ),
    (
        Said::Response(Response::Sha256([0x4f; 32])),
        b"CHAP_N=bob\0CHAP_R=0x4f4f4f4f4f4f4f4f4f4f4f4f4f4f4f4f4f4f4f4f4f4f4f4f4f4f4f4f4f4f4f4f\0",
    ),
];

fn check_said(rt: &impl Abort, alloc: Global, said: Said, want: &[u8]) {
    let challenge = [0, 1, 2, 3, 4, 5, 6, 7, 8, 9, 10, 11, 12, 13, 14, 0xff];
    let chap = demand(rt, alloc, 125, &challenge);
    let spoken = chap.speak(alloc, said).expect(rt, "words");
    let pairs = spoken.pairs(alloc).expect(rt, "pairs");
    let mut text = Vec::new(alloc);
    write_pairs(&pairs, &mut text).expect(rt, "a text");
    same_bytes(rt, &text, want, &said);
}

#[test]
fn the_target_says_it_by_pairs(rt: HostRuntime) {
    for (said, want) in SAID {
        check_said(&rt, rt.alloc(), *said, want);
    }
}
