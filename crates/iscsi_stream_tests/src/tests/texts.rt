//! One text from a reader to a writer.

use super::split_at_mark;
use crate::asserts::{same, same_debug, same_text};
use iscsi_stream::{ToolFault, normalise_text};
use iscsi_test_support::segment_of;
use std::alloc::Global;
use std::process::Abort;

// Appends the canonical text of a segment, unless it is refused.
fn normal_text_of(
    rt: &impl Abort,
    alloc: Global,
    segment: &str,
    out: &mut Vec<u8>,
) -> Result<(), ToolFault> {
    let text = segment_of(alloc, segment).expect(rt, "a segment");
    let mut source = text.as_slice();
    normalise_text(alloc, &mut source, out)
}

// A text and its canonical text, as rows of streams spell segments.
const TEXTS: &str = "' = '\n\
    00*16384 = '\n\
    'MaxBurstLength=0X0040000||InitialR2T=Yes| = 'InitialR2T=Yes|MaxBurstLength=262144|\n\
    'TargetAddress=b|A=0x05|TargetAddress=a| = 'A=0x05|TargetAddress=b|TargetAddress=a|";

// A text, what is answered, and the line of the fault.
const REFUSED: &str = "'A=1 = Err(Text(Unterminated(0))) = text: unterminated at 0\n\
    'A=1|B| = Err(Text(NoEquals(4))) = text: no equals at 4\n\
    '9A=1| = Err(Text(BadKey(0))) = text: bad key at 0\n\
    'InitialR2T=Yes|InitialR2T=No| = Err(Text(Repeated(15))) = text: repeated key at 15\n\
    00*16385 = Err(TextTooLong) = text: over 16384 bytes";

fn check_text(rt: &impl Abort, alloc: Global, row: &str) {
    let (text, want) = split_at_mark(rt, row, " = ");
    let mut out = Vec::new(alloc);
    let result = normal_text_of(rt, alloc, text, &mut out);
    same(rt, &result, &Ok(()), &row);
    let due = segment_of(alloc, want).expect(rt, "a segment");
    same(rt, &out, &due, &row);
}

#[test]
fn canonical_texts(rt: HostRuntime) {
    for row in TEXTS.lines() {
        check_text(&rt, rt.alloc(), row);
    }
}

fn check_refused(rt: &impl Abort, alloc: Global, row: &str) {
    let (text, want) = split_at_mark(rt, row, " = ");
    let (answer, line) = split_at_mark(rt, want, " = ");
    let mut out = Vec::new(alloc);
    let result = normal_text_of(rt, alloc, text, &mut out);
    same_debug(rt, alloc, &result, answer, &row);
    same(rt, &out.len(), &0, &row);
    let fault = result.expect_err(rt, row);
    same_text(rt, alloc, &fault, line, &row);
}

#[test]
fn refused_texts(rt: HostRuntime) {
    for row in REFUSED.lines() {
        check_refused(&rt, rt.alloc(), row);
    }
}
