//! Memory that is refused, for `rt try --test --fail-alloc`: nothing but its want may come in place
//! of secrets.

use crate::asserts::same;
use iscsi_access::Chap;
use iscsi_secrets::{Secrets, SecretsFault};
use std::alloc::Global;
use std::process::Abort;

const TEXT: &[u8] =
    b"user alice secretsecret12 iqn.A\ntarget bob 0b/////////////////////w== # bob\n";

// The fault of a text, once more where memory ran out.
fn fault_at_last(alloc: Global, text: &[u8]) -> Option<SecretsFault> {
    match Secrets::read(alloc, text).err() {
        Some(SecretsFault::NoMemory) => Secrets::read(alloc, text).err(),
        fault => fault,
    }
}

#[test]
fn refused_memory_changes_no_fault(rt: HostRuntime) {
    same(&rt, &fault_at_last(rt.alloc(), TEXT), &None, &"none");
    let short = fault_at_last(rt.alloc(), b"\nuser alice short");
    same(&rt, &short, &Some(SecretsFault::BadSecret(2)), &"short");
}

// The demand of a login, once more where memory ran out.
fn demanded_at_last(rt: &impl Abort, alloc: Global, secrets: &Secrets) -> Chap {
    match secrets.demand(alloc, 1, [0; 16]) {
        Ok(chap) => chap,
        Err(_) => secrets.demand(alloc, 1, [0; 16]).expect(rt, "once more"),
    }
}

#[test]
fn refused_memory_is_told(rt: HostRuntime) {
    let secrets = match Secrets::read(rt.alloc(), TEXT) {
        Ok(secrets) => secrets,
        Err(_) => Secrets::read(rt.alloc(), TEXT).expect(&rt, "once more"),
    };
    let _ = demanded_at_last(&rt, rt.alloc(), &secrets);
}
