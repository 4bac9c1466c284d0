//! Memory that is refused, for `rt try --test --fail-alloc`: nothing but its want may come in place
//! of a verdict.

use super::{ALICE, HOST, account, demand};
use crate::asserts::{same, same_bytes};
use iscsi_access::{Account, Chap, Progress, Said, Verdict};
use iscsi_chap::{Algorithm, Response};
use iscsi_text::{Text, write_pairs};
use std::alloc::{AllocError, Global};
use std::process::Abort;

/// The response of alice to 16 bytes of 00 with the identifier 1, by the `hashlib` of Python, and a
/// challenge.
const TEXT: &[u8] =
    b"CHAP_N=alice\0CHAP_R=0xd6702f09cb500d032f01d47a8b86f20e\0CHAP_I=2\0CHAP_C=0x0102030405\0";

/// The response of bob to that.
const RESPONSE: [u8; 16] = [
    0x0d, 0x29, 0xbd, 0xcb, 0xd6, 0xad, 0xc3, 0xdf, 0x2c, 0x4c, 0x23, 0xd9, 0xcd, 0x24, 0x42, 0xdc,
];

// A verdict, once more where memory ran out.
fn judged_at_last(rt: &impl Abort, alloc: Global, chap: &Chap, text: &Text<'_>) -> Verdict {
    match chap.judge(alloc, Progress::Challenged(Algorithm::Md5), HOST, text) {
        Ok(verdict) => verdict,
        Err(_) => chap
            .judge(alloc, Progress::Challenged(Algorithm::Md5), HOST, text)
            .expect(rt, "once more"),
    }
}

#[test]
fn refused_memory_changes_no_verdict(rt: HostRuntime) {
    let chap = demand(&rt, rt.alloc(), 1, &[0; 16]);
    let text = Text::read(rt.alloc(), TEXT).expect(&rt, "a text");
    let due = Verdict::Goes {
        progress: Progress::Passed,
        said: Said::Response(Response::Md5(RESPONSE)),
    };
    same(
        &rt,
        &judged_at_last(&rt, rt.alloc(), &chap, &text),
        &due,
        &"verdict",
    );
}

// The text of what is said, once more where memory ran out.
fn written_at_last(rt: &impl Abort, alloc: Global, chap: &Chap, said: Said) -> Vec<u8> {
    match written(alloc, chap, said) {
        Ok(text) => text,
        Err(_) => written(alloc, chap, said).expect(rt, "once more"),
    }
}

fn written(alloc: Global, chap: &Chap, said: Said) -> Result<Vec<u8>, AllocError> {
    let spoken = chap.speak(alloc, said)?;
    let pairs = spoken.pairs(alloc)?;
    let mut text = Vec::new(alloc);
    write_pairs(&pairs, &mut text)?;
    Ok(text)
}

#[test]
fn refused_memory_changes_no_pair(rt: HostRuntime) {
    let chap = demand(&rt, rt.alloc(), 1, &[0; 16]);
    let text = written_at_last(&rt, rt.alloc(), &chap, Said::Challenge(Algorithm::Md5));
    let due = b"CHAP_A=5\0CHAP_C=0x00000000000000000000000000000000\0CHAP_I=1\0";
    same_bytes(&rt, &text, due, &"challenge");
}

// An account once more, and again where memory ran out.
fn copied_at_last(rt: &impl Abort, alloc: Global, account: &Account) -> Account {
    match account.copy(alloc) {
        Ok(copy) => copy,
        Err(_) => account.copy(alloc).expect(rt, "once more"),
    }
}

#[test]
fn refused_memory_changes_no_account(rt: HostRuntime) {
    let alice = account(&rt, rt.alloc(), b"alice", ALICE);
    let copy = copied_at_last(&rt, rt.alloc(), &alice);
    same(&rt, &copy.shares_name(&alice), &true, &"name");
    same(&rt, &copy.shares_secret(&alice), &true, &"secret");
}
