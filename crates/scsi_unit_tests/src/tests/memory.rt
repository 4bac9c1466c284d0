//! Memory that is refused, for `rt try --test --fail-alloc`: nothing but its want may come in place of
//! an answer.

use super::rows::{reads, unit};
use crate::asserts::same;
use scsi_disk::{Order, Outcome};
use scsi_unit::LogicalUnit;
use std::alloc::Global;
use std::process::Abort;

// What the unit answers, once more where memory ran out.
fn at_last(rt: &impl Abort, alloc: Global, unit: &LogicalUnit, order: &Order) -> Option<Outcome> {
    match unit.outcome(alloc, order, 2048) {
        Ok(outcome) => outcome,
        Err(_) => unit.outcome(alloc, order, 2048).expect(rt, "once more"),
    }
}

#[test]
fn refused_memory_changes_no_answer(rt: HostRuntime) {
    let order = reads(b"\x12\x01\x80\0\xff\0", 64);
    let outcome = at_last(&rt, rt.alloc(), &unit(&rt, false), &order).expect(&rt, "an answer");
    same(
        &rt,
        &outcome.bytes.as_slice(),
        &&b"\0\x80\0\x06disk-7"[..],
        &"serial number",
    );
}
