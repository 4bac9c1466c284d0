//! Memory that is refused, for `rt try --test --fail-alloc`: nothing but its want may come in place of
//! an answer, and nothing may have changed by then.

use super::{ask, two_ports};
use crate::asserts::{same, same_bytes};
use scsi_reservations::{Action, Port, Report, Reservations, Verdict};
use std::alloc::Global;
use std::process::Abort;

const ISID: [u8; 6] = [0x40, 0, 0, 0, 0, 3];

// A port, once more where memory ran out.
fn port_at_last(rt: &impl Abort, alloc: Global) -> Port {
    match Port::copy_of(alloc, b"iqn.3", &ISID) {
        Ok(port) => port,
        Err(_) => Port::copy_of(alloc, b"iqn.3", &ISID).expect(rt, "once more"),
    }
}

// A registration, once more where memory ran out: then nobody new was registered.
fn registered_at_last(rt: &impl Abort, alloc: Global, some: &mut Reservations) -> Verdict {
    let asked = ask(Action::Register, 0, 0x21);
    match some.reserve(port_at_last(rt, alloc), &asked) {
        Ok(verdict) => verdict,
        Err(_) => some
            .reserve(port_at_last(rt, alloc), &asked)
            .expect(rt, "once more"),
    }
}

// The data of a report, once more where memory ran out.
fn data_at_last(rt: &impl Abort, alloc: Global, some: &Reservations, report: Report) -> Vec<u8> {
    match some.data(alloc, report, false) {
        Ok(data) => data,
        Err(_) => some.data(alloc, report, false).expect(rt, "once more"),
    }
}

#[test]
fn refused_memory_changes_nothing(rt: HostRuntime) {
    let mut some = two_ports(&rt, rt.alloc(), None);
    let came = registered_at_last(&rt, rt.alloc(), &mut some);
    same(&rt, &came, &Verdict::Good, &"a registration");
    let keys = data_at_last(&rt, rt.alloc(), &some, Report::Keys);
    let due = b"\0\0\0\x03\0\0\0\x18\0\0\0\0\0\0\0\x0b\0\0\0\0\0\0\0\x16\0\0\0\0\0\0\0\x21";
    same_bytes(&rt, keys.as_slice(), due, &"keys");
    let status = data_at_last(&rt, rt.alloc(), &some, Report::FullStatus);
    same(&rt, &status.len(), &164, &"full status");
}
