//! Logins by example, and what they demand; responses and files of secrets.

use iscsi_access::{Account, Chap};
use std::alloc::Global;
use std::process::Abort;

mod demands;
mod logins;
mod memory;
mod responding;
mod secrets;

const ALICE: &[u8] = b"secretsecret12";

const BOB: &[u8] = b"othersecret34";

const CAROL: &[u8] = b"thirdsecret56";

/// The InitiatorName to which carol is bound.
const HOST: &[u8] = b"iqn.2026-01.example:host";

fn account(rt: &impl Abort, alloc: Global, name: &[u8], secret: &[u8]) -> Account {
    let name = name.to_vec(alloc).expect(rt, "a name");
    let secret = secret.to_vec(alloc).expect(rt, "a secret");
    Account::new(name, secret).expect(rt, "an account")
}

// Alice, and carol, who is bound.
fn accounts(rt: &impl Abort, alloc: Global) -> Vec<Account> {
    let mut accounts = Vec::new(alloc);
    accounts
        .push(account(rt, alloc, b"alice", ALICE))
        .expect(rt, "accounts");
    let host = HOST.to_vec(alloc).expect(rt, "a name");
    accounts
        .push(account(rt, alloc, b"carol", CAROL).bound_to(host))
        .expect(rt, "accounts");
    accounts
}

// The demand of a login with this identifier and challenge, by a target that is bob.
fn demand(rt: &impl Abort, alloc: Global, identifier: u8, challenge: &[u8; 16]) -> Box<Chap> {
    let own = Some(account(rt, alloc, b"bob", BOB));
    let chap = Chap::new(accounts(rt, alloc), own, identifier, *challenge);
    Box::new(alloc, chap.expect(rt, "a demand")).expect(rt, "memory")
}
