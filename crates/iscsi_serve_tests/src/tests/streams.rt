//! Sessions of a target over a reader and a writer, and those that fail.

use crate::asserts::same;
use iscsi_serve::{SessionFault, configuration, serve_stream};
use iscsi_stream::StreamFault;
use iscsi_target::TargetFault;
use iscsi_test_support::{Broken, CUT, FIRST_ANSWER, Full, NAMELESS, PING, REFUSAL, pdus_of};
use scsi_disk::SparseStore;
use std::alloc::Global;
use std::io::{Read, Write};
use std::process::Abort;

/// Sessions: a name, the requests, the answers, and how they end.
const SESSIONS: &[Row] = &[
    ("nothing", "", "", Ok(())),
    ("a login that is refused", NAMELESS, REFUSAL, Ok(())),
    (
        "a ping alone",
        PING,
        "",
        Err(SessionFault::Target(TargetFault::Protocol(1))),
    ),
    (
        "a part of a header",
        CUT,
        FIRST_ANSWER,
        Err(SessionFault::Target(TargetFault::Stream(StreamFault::Truncated(160)))),
    ),
];

// Serves a session over a disk of 8 blocks.
fn serve<R: Read, W: Write>(
    rt: &impl Abort,
    alloc: Global,
    source: &mut R,
    out: &mut W,
) -> Result<(), SessionFault> {
    let mut store = SparseStore::new(alloc, 8);
    let configuration = configuration(alloc).expect(rt, "a configuration");
    serve_stream(alloc, configuration, &mut store, source, out)
}

// The PDUs of some lines.
fn stream_of(rt: &impl Abort, alloc: Global, lines: &str) -> Vec<u8> {
    pdus_of(alloc, lines).expect(rt, lines)
}

type Row = (
    &'static str,
    &'static str,
    &'static str,
    Result<(), SessionFault>,
);

fn check_session(rt: &impl Abort, alloc: Global, row: &Row) {
    let (name, requests, answers, want) = *row;
    let stream = stream_of(rt, alloc, requests);
    let mut source = stream.as_slice();
    let mut out = Vec::new(alloc);
    let result = serve(rt, alloc, &mut source, &mut out);
    same(rt, &result, &want, &name);
    same(rt, &out, &stream_of(rt, alloc, answers), &name);
}

#[test]
fn sessions_over_a_stream(rt: HostRuntime) {
    for row in SESSIONS {
        check_session(&rt, rt.alloc(), row);
    }
}

#[test]
fn a_reader_that_fails(rt: HostRuntime) {
    let requests = stream_of(&rt, rt.alloc(), CUT);
    // What was read is answered before the read that fails.
    let mut out = Vec::new(rt.alloc());
    let mut source = Broken(Some(&requests));
    let result = serve(&rt, rt.alloc(), &mut source, &mut out);
    same(&rt, &result, &Err(SessionFault::Read), &"a reader");
    let answers = stream_of(&rt, rt.alloc(), FIRST_ANSWER);
    same(&rt, &out, &answers, &"a reader");
}

#[test]
fn a_writer_that_fails(rt: HostRuntime) {
    let requests = stream_of(&rt, rt.alloc(), CUT);
    let mut source = requests.as_slice();
    let result = serve(&rt, rt.alloc(), &mut source, &mut Full);
    same(&rt, &result, &Err(SessionFault::Write), &"a writer");
}
