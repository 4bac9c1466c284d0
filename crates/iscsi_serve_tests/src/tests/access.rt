//! What a service demands of a login: the challenge comes of random bytes, and without these there is
//! no configuration.

use crate::asserts::same;
use iscsi_secrets::Secrets;
use iscsi_serve::{configuration, serve_stream};
use iscsi_serving::{Access, AccessFault, EVERYBODY};
use iscsi_target::Config;
use iscsi_test_support::{CUT, FIRST_ANSWER, pdus_of};
use scsi_disk::SparseStore;
use std::alloc::Global;
use std::io;
use std::process::Abort;
use std::random::RandomSource;

const USER: &[u8] = b"user alice secretsecret12";

// The first two requests of libiscsi, which asks for a challenge, as they were recorded.
const ASKS: &str =
    "43810000 0000008d 80ea0dcd 00000000 628be9d0 00000000 26688c55 00000001 00000000 00000000 00000000 00000000 'InitiatorName=iqn.2007-10.com.github:sahlberg:libiscsi:iscsi-inq|TargetName=iqn.2026-01.example:disk|SessionType=Normal|AuthMethod=CHAP,None|\n\
    43010000 00000009 80ea0dcd 00000000 628be9d0 00000000 26688c55 00000002 00000000 00000000 00000000 00000000 'CHAP_A=5|";

// Their answers, with an identifier of 7 and the 16 bytes from 8.
const CHALLENGED: &str =
    "23000000 00000027 80ea0dcd 00000000 628be9d0 00000000 00000001 26688c55 26688c5c 00000000 00000000 00000000 'AuthMethod=CHAP|TargetPortalGroupTag=1|\n\
    23000000 0000003c 80ea0dcd 00000000 628be9d0 00000000 00000002 26688c55 26688c5c 00000000 00000000 00000000 'CHAP_A=5|CHAP_C=0x08090a0b0c0d0e0f1011121314151617|CHAP_I=7|";

// Gives 7, 8 and so on.
struct Counts;

impl RandomSource for Counts {
    fn fill_bytes(&self, buf: &mut [u8]) -> io::Result<()> {
        let mut next = 7u8;
        for byte in buf {
            *byte = next;
            next = next.wrapping_add(1);
        }
        Ok(())
    }
}

// Gives none.
struct Nothing;

impl RandomSource for Nothing {
    fn fill_bytes(&self, _buf: &mut [u8]) -> io::Result<()> {
        Err(io::Error::from(io::ErrorKind::Other))
    }
}

// The secrets of one user, once more where memory ran out.
fn secrets(rt: &impl Abort, alloc: Global) -> Secrets {
    match Secrets::read(alloc, USER) {
        Ok(secrets) => secrets,
        Err(_) => Secrets::read(alloc, USER).expect(rt, "secrets"),
    }
}

// What is demanded in one login, once more where memory ran out.
fn demand<R: RandomSource>(
    rt: &impl Abort,
    alloc: Global,
    access: Access<'_>,
    random: &R,
) -> Result<Config, AccessFault> {
    let first = configuration(alloc).expect(rt, "a configuration");
    match access.demand(alloc, random, first) {
        Err(AccessFault::NoMemory) => {
            let again = configuration(alloc).expect(rt, "a configuration");
            access.demand(alloc, random, again)
        }
        result => result,
    }
}

// Asserts what a session of this configuration answers.
fn check_answers(rt: &impl Abort, alloc: Global, config: Config, requests: &str, answers: &str) {
    let stream = pdus_of(alloc, requests).expect(rt, "requests");
    let mut source = stream.as_slice();
    let mut store = SparseStore::new(alloc, 8);
    let mut out = Vec::new(alloc);
    let _ = serve_stream(alloc, config, &mut store, &mut source, &mut out);
    let due = pdus_of(alloc, answers).expect(rt, "answers");
    same(rt, &out, &due, &answers);
}

#[test]
fn a_challenge_is_of_random_bytes(rt: HostRuntime) {
    let secrets = secrets(&rt, rt.alloc());
    let access = Access {
        initiators: None,
        secrets: Some(&secrets),
    };
    let config = demand(&rt, rt.alloc(), access, &Counts).expect(&rt, "a demand");
    check_answers(&rt, rt.alloc(), config, ASKS, CHALLENGED);
}

#[test]
fn no_random_bytes_no_configuration(rt: HostRuntime) {
    let secrets = secrets(&rt, rt.alloc());
    let access = Access {
        initiators: None,
        secrets: Some(&secrets),
    };
    let fault = demand(&rt, rt.alloc(), access, &Nothing).err();
    same(&rt, &fault, &Some(AccessFault::NoRandom), &"no bytes");
}

#[test]
fn everybody_needs_no_random_bytes(rt: HostRuntime) {
    let config = demand(&rt, rt.alloc(), EVERYBODY, &Nothing).expect(&rt, "no demand");
    check_answers(&rt, rt.alloc(), config, CUT, FIRST_ANSWER);
}
