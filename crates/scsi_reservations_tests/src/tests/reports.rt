//! The data of reports, laid out by hand.

use super::{acts, ask, two_ports};
use crate::asserts::same_bytes;
use scsi_reservations::{Action, Ask, Kind, Port, Report, Reservations};

#[test]
fn keys_and_what_is_held(rt: HostRuntime) {
    let mut some = two_ports(&rt, rt.alloc(), None);
    let none = some
        .data(rt.alloc(), Report::Reservation, false)
        .expect(&rt, "memory");
    same_bytes(&rt, none.as_slice(), b"\0\0\0\x02\0\0\0\0", &"nothing held");
    let kind = Kind::ExclusiveAccessRegistrants;
    acts(
        &rt,
        rt.alloc(),
        &mut some,
        2,
        &ask(Action::Reserve(kind), 0x16, 0),
    );
    let rows: [(Report, &[u8]); 2] = [
        (
            Report::Keys,
            b"\0\0\0\x02\0\0\0\x10\0\0\0\0\0\0\0\x0b\0\0\0\0\0\0\0\x16",
        ),
        (
            Report::Reservation,
            b"\0\0\0\x02\0\0\0\x10\0\0\0\0\0\0\0\x16\0\0\0\0\0\x06\0\0",
        ),
    ];
    for row in rows {
        let data = some.data(rt.alloc(), row.0, false).expect(&rt, "memory");
        same_bytes(&rt, data.as_slice(), row.1, &row.0);
    }
}

#[test]
fn what_can_last(rt: HostRuntime) {
    let mut some = Reservations::new(rt.alloc());
    let rows: [(bool, &[u8]); 2] = [
        (false, b"\0\x08\x04\x80\xea\x01\0\0"),
        (true, b"\0\x08\x05\x80\xea\x01\0\0"),
    ];
    for row in rows {
        let data = some
            .data(rt.alloc(), Report::Capabilities, row.0)
            .expect(&rt, "memory");
        same_bytes(&rt, data.as_slice(), row.1, &row.0);
    }
    let lasting = Ask {
        lasts: true,
        ..ask(Action::Register, 0, 5)
    };
    acts(&rt, rt.alloc(), &mut some, 1, &lasting);
    let data = some
        .data(rt.alloc(), Report::Capabilities, true)
        .expect(&rt, "memory");
    same_bytes(
        &rt,
        data.as_slice(),
        b"\0\x08\x05\x81\xea\x01\0\0",
        &"lasting",
    );
}

#[test]
fn full_status(rt: HostRuntime) {
    let some = two_ports(&rt, rt.alloc(), Some(Kind::WriteExclusive));
    let data = some
        .data(rt.alloc(), Report::FullStatus, false)
        .expect(&rt, "memory");
    let due = b"\0\0\0\x02\0\0\0\x68\
        \0\0\0\0\0\0\0\x0b\0\0\0\0\x01\x01\0\0\0\0\0\x01\0\0\0\x1c\x45\0\0\x18iqn.1,i,0x400000000001\0\0\
        \0\0\0\0\0\0\0\x16\0\0\0\0\0\0\0\0\0\0\0\x01\0\0\0\x1c\x45\0\0\x18iqn.2,i,0x400000000002\0\0";
    same_bytes(&rt, data.as_slice(), due, &"two ports");
    let mut short = Reservations::new(rt.alloc());
    let named = Port::copy_of(rt.alloc(), b"a", &[0xab, 0, 0, 0, 0, 0]).expect(&rt, "a port");
    let _ = short
        .reserve(named, &ask(Action::Register, 0, 1))
        .expect(&rt, "memory");
    let data = short
        .data(rt.alloc(), Report::FullStatus, false)
        .expect(&rt, "memory");
    let due = b"\0\0\0\x01\0\0\0\x30\
        \0\0\0\0\0\0\0\x01\0\0\0\0\0\0\0\0\0\0\0\x01\0\0\0\x18\x45\0\0\x14a,i,0xab0000000000\0\0";
    same_bytes(&rt, data.as_slice(), due, &"a short name");
}
