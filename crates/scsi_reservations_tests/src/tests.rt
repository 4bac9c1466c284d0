//! Actions of three ports by rows, blocks and lists, the data of reports, and refused memory. What is due
//! is worked out by hand from SPC-4, sections 5.13, 6.15 and 6.16.

mod actions;
mod blocks;
mod memory;
mod reports;

use scsi_reservations::{Action, Ask, Kind, Port, Reservations, Verdict};
use std::alloc::Global;
use std::process::Abort;

/// A port by its number: `iqn.1` and so on.
fn port(rt: &impl Abort, alloc: Global, number: u8) -> Port {
    let name = [b'i', b'q', b'n', b'.', number.wrapping_add(b'0')];
    Port::copy_of(alloc, &name, &[0x40, 0, 0, 0, 0, number]).expect(rt, "a port")
}

/// A list of both keys.
fn ask(action: Action, key: u64, service_key: u64) -> Ask {
    Ask {
        action,
        key,
        service_key,
        lasts: false,
    }
}

/// Does an action of a port.
fn acts(
    rt: &impl Abort,
    alloc: Global,
    reservations: &mut Reservations,
    number: u8,
    asked: &Ask,
) -> Verdict {
    let by = port(rt, alloc, number);
    reservations.reserve(by, asked).expect(rt, "memory")
}

/// Ports 1 and 2 are registered with the keys 0b and 16, and port 1 holds this type, if one is named.
fn two_ports(rt: &impl Abort, alloc: Global, held: Option<Kind>) -> Reservations {
    let mut reservations = Reservations::new(alloc);
    acts(
        rt,
        alloc,
        &mut reservations,
        1,
        &ask(Action::Register, 0, 0x0b),
    );
    acts(
        rt,
        alloc,
        &mut reservations,
        2,
        &ask(Action::Register, 0, 0x16),
    );
    if let Some(kind) = held {
        acts(
            rt,
            alloc,
            &mut reservations,
            1,
            &ask(Action::Reserve(kind), 0x0b, 0),
        );
    }
    reservations
}
