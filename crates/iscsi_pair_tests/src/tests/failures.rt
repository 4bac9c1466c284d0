//! Requests that come at the wrong time, and what a failed end does.

use super::{Schedule, Setup, deliver, pair_of, submit};
use crate::asserts::same;
use iscsi_initiator::{Request, SubmitFault};
use iscsi_login::Stage;
use iscsi_pair::{EndFault, Pair, Step};
use scsi_cdb::Bytes;
use std::alloc::{AllocError, Global};
use std::process::Abort;

// A pair after its login.
fn logged_in(rt: &impl Abort, alloc: Global) -> Box<Pair> {
    let mut pair = pair_of(rt, alloc, Setup::Standard);
    deliver(rt, alloc, &mut pair, &mut Schedule::always(4096));
    pair
}

// A ping of so many bytes.
fn ping(alloc: Global, len: usize) -> Result<Request, AllocError> {
    Ok(Request::Ping {
        bytes: Bytes::from_vec(vec![in alloc; 0x61u8; len]?),
    })
}

// Hands in a ping of so many bytes, and asserts which refusal the pair then keeps.
fn check_ping(
    rt: &impl Abort,
    alloc: Global,
    pair: &mut Pair,
    len: usize,
    due: Option<SubmitFault>,
) {
    submit(rt, alloc, pair, ping(alloc, len).expect(rt, "a ping"));
    same(rt, &refusal(pair), &due, &len);
}

// The refusal that a pair keeps.
fn refusal(pair: &Pair) -> Option<SubmitFault> {
    match pair.initiator_fault() {
        Some(EndFault::Submit(fault)) => Some(*fault),
        _ => None,
    }
}

// A move of no bytes to the target, and one of more than there are to the initiator.
fn no_steps(alloc: Global) -> Result<Vec<Step>, AllocError> {
    let mut steps = Vec::new(alloc);
    steps.push(Step::ToTarget(0))?;
    steps.push(Step::ToInitiator(100))?;
    Ok(steps)
}

// The stages of both ends, and that the target has no fault.
fn check_stages(rt: &impl Abort, pair: &Pair, initiator: Stage, target: Stage) {
    let stages = (pair.initiator().stage(), pair.target().stage());
    same(rt, &stages, &(initiator, target), &"stages");
    same(
        rt,
        &pair.target_fault().is_none(),
        &true,
        &"the target's fault",
    );
}

#[test]
fn before_login(rt: HostRuntime) {
    let mut pair = pair_of(&rt, rt.alloc(), Setup::Standard);
    let before = pair.queued();
    submit(&rt, rt.alloc(), &mut pair, Request::Logout);
    let not_ready = Some(SubmitFault::NotReady);
    same(&rt, &refusal(&pair), &not_ready, &"before login");
    same(&rt, &pair.queued(), &before, &"before login");
    // It has failed: it drops what comes, and the login stays where it was.
    deliver(&rt, rt.alloc(), &mut pair, &mut Schedule::always(47));
    check_stages(&rt, &pair, Stage::Security, Stage::Operational);
}

#[test]
fn while_one_is_open(rt: HostRuntime) {
    let mut pair = logged_in(&rt, rt.alloc());
    check_ping(&rt, rt.alloc(), &mut pair, 2, None);
    check_ping(&rt, rt.alloc(), &mut pair, 2, Some(SubmitFault::Busy));
}

#[test]
fn too_long(rt: HostRuntime) {
    let mut pair = logged_in(&rt, rt.alloc());
    check_ping(&rt, rt.alloc(), &mut pair, 8193, Some(SubmitFault::TooLong));
    same(&rt, &pair.queued(), &(0, 0), &"8,193 bytes");
}

#[test]
fn no_bytes(rt: HostRuntime) {
    let mut pair = pair_of(&rt, rt.alloc(), Setup::Standard);
    let before = pair.queued();
    pair.run(no_steps(rt.alloc()).expect(&rt, "moves"));
    same(&rt, &pair.queued(), &before, &"no bytes");
    let is_quiet = pair.outcome().is_none() && pair.initiator_fault().is_none();
    same(&rt, &is_quiet, &true, &"no bytes");
}
