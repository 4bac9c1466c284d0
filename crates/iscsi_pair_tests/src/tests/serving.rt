//! Requests that are served in steps of the pair's own.

use super::scripts::{BURSTS, COMMANDS, UNIT, request_of, told};
use super::{Setup, initiator_of, target_of};
use crate::asserts::same;
use iscsi_initiator::{Done, Request};
use iscsi_pair::{RunFault, serve_requests};
use scsi_cdb::Bytes;
use scsi_disk::MemoryStore;
use std::alloc::Global;
use std::process::Abort;

// Serves these requests, with a disk of 2,048 blocks.
fn serve(
    rt: &impl Abort,
    alloc: Global,
    setup: Setup,
    requests: Vec<Request>,
) -> Result<Vec<Done>, RunFault> {
    let initiator = initiator_of(alloc, setup).expect(rt, "an initiator");
    let target = target_of(alloc, setup).expect(rt, "a target");
    let store = MemoryStore::new(alloc, 2048).expect(rt, "a disk");
    let (outcomes, _) = serve_requests(alloc, (initiator, target), 1, store, requests)?;
    Ok(outcomes)
}

// The requests of a script.
fn requests_of(rt: &impl Abort, alloc: Global, script: &str) -> Vec<Request> {
    let mut requests = Vec::new(alloc);
    for line in script.lines() {
        let (request, _) = line.split_once(" = ").expect(rt, "no outcome");
        let request = request_of(rt, alloc, request);
        requests.push(request).expect(rt, "a request");
    }
    requests
}

// Asserts that these came of a script.
fn check_outcomes(rt: &impl Abort, alloc: Global, script: &str, outcomes: Vec<Done>, setup: Setup) {
    same(rt, &outcomes.len(), &script.lines().count(), &setup);
    for (line, done) in script.lines().zip(outcomes) {
        let (request, due) = line.split_once(" = ").expect(rt, "no outcome");
        let found = told(rt, alloc, &Some(done));
        same(rt, &found.as_str(), &due, &(setup, request));
    }
}

// Serves a script, and asserts that what it says comes of it.
fn check_script(rt: &impl Abort, alloc: Global, setup: Setup, script: &str) {
    let Ok(outcomes) = serve(rt, alloc, setup, requests_of(rt, alloc, script)) else {
        panic!(rt; "{setup:?} was not served");
    };
    check_outcomes(rt, alloc, script, outcomes, setup);
}

// Asserts that this list is not served, though memory holds.
fn check_none(rt: &impl Abort, alloc: Global, setup: Setup, requests: Vec<Request>) {
    let served = serve(rt, alloc, setup, requests);
    let is_refused = matches!(served, Err(RunFault::NotServed));
    same(rt, &is_refused, &true, &setup);
}

// A ping of 8,193 bytes.
fn long_ping(rt: &impl Abort, alloc: Global) -> Vec<Request> {
    let bytes = vec![in alloc; 0x61u8; 8193].expect(rt, "bytes");
    let ping = Request::Ping {
        bytes: Bytes::from_vec(bytes),
    };
    let mut requests = Vec::new(alloc);
    requests.push(ping).expect(rt, "a request");
    requests
}

#[test]
fn scripts_are_served(rt: HostRuntime) {
    check_script(&rt, rt.alloc(), Setup::Standard, COMMANDS);
    check_script(&rt, rt.alloc(), Setup::ShortSegments, COMMANDS);
    check_script(&rt, rt.alloc(), Setup::OneStage, COMMANDS);
    check_script(&rt, rt.alloc(), Setup::ShortBursts, BURSTS);
    check_script(&rt, rt.alloc(), Setup::ChapOrNone, "");
    check_script(&rt, rt.alloc(), Setup::ThinUnit, UNIT);
}

#[test]
fn refused_requests_are_not_served(rt: HostRuntime) {
    let requests = long_ping(&rt, rt.alloc());
    check_none(&rt, rt.alloc(), Setup::Standard, requests);
    let requests = requests_of(&rt, rt.alloc(), BURSTS);
    check_none(&rt, rt.alloc(), Setup::AnotherName, requests);
}

// Only with a growth refused this differs from the first test.
#[test]
fn refused_memory_is_told(rt: HostRuntime) {
    let requests = requests_of(&rt, rt.alloc(), BURSTS);
    match serve(&rt, rt.alloc(), Setup::Standard, requests) {
        Ok(outcomes) => check_outcomes(&rt, rt.alloc(), BURSTS, outcomes, Setup::Standard),
        Err(fault) => {
            let is_memory = matches!(fault, RunFault::NoMemory);
            same(&rt, &is_memory, &true, &"a growth refused");
        }
    }
}
