//! What is reserved of a unit.

ghost use Rattle.std.specs.Prelude.{◌≡◌};
ghost use Rattle.scsi_reservations.specs.Reservations.{is_holder, is_listed, passes};

use crate::kind::{Access, Kind};
use crate::port::Port;
use std::alloc::Global;
use std::marker::Model;

/// A port that is registered, with its key.
#[derive(Drop)]
pub struct Registration {
    /// The port.
    pub port: Port,
    /// Its key.
    pub key: u64,
}

impl Model for Registration {
    ghost use Rattle.scsi_reservations.specs.Reservations.{Registration};

    ghost Value = { Registration };

    ghost view = { λ g. record { nexus = g.port; key = g.key } };
}

/// A reservation: its type, and who made it.
#[derive(Drop)]
pub struct Holding {
    /// Its type.
    pub kind: Kind,
    /// Who made it.
    pub holder: Port,
}

impl Model for Holding {
    ghost use Rattle.scsi_reservations.specs.Reservations.{Holding};

    ghost Value = { Holding };

    ghost view = { λ h. record { kind = h.kind; holder = h.holder } };
}

/// All that is reserved of a unit.
#[derive(Drop)]
pub struct Reservations {
    pub(crate) generation: u32,
    pub(crate) registrations: Vec<Registration>,
    pub(crate) held: Option<Holding>,
    pub(crate) lasts: bool,
}

impl Model for Reservations {
    ghost use Rattle.scsi_reservations.specs.Reservations.{Reservations};

    ghost Value = { Reservations };

    ghost view = { λ r. record {
      generation = r.generation;
      registrations = r.registrations.items;
      held = r.held;
      lasts = r.lasts;
    } };
}

// Whether the port is registered.
pub(crate) fn is_listed(list: &[Registration], port: &Port) -> bool
    ensures { result ≡ is_listed list.now port.now }
{
    list.iter().any(|registration| registration.port.is(port))
}

// Whether the port holds the reservation.
pub(crate) fn is_holder(list: &[Registration], held: &Holding, port: &Port) -> bool
    ensures { result ≡ is_holder list.now held.now port.now }
{
    if held.kind.is_of_all() {
        is_listed(list, port)
    } else {
        held.holder.is(port)
    }
}

// Whether the reservation lets the port pass.
fn passes(list: &[Registration], held: &Holding, port: &Port) -> bool
    ensures { result ≡ passes list.now held.now port.now }
{
    is_holder(list, held, port) || held.kind.is_of_registrants() && is_listed(list, port)
}

impl Reservations {
    ghost use Rattle.std.specs.Prelude.{◌≡◌};
    ghost use Rattle.scsi_reservations.specs.Reservations.{may, no_reservations};

    /// Nobody is registered. It takes no memory.
    pub fn new(alloc: Global) -> Reservations
        ensures { result ≡ no_reservations }
    {
        Reservations {
            generation: 0,
            registrations: Vec::new(alloc),
            held: None,
            lasts: false,
        }
    }

    /// Whether a command of the port that does so is taken; else it gets RESERVATION CONFLICT (SPC-4,
    /// section 5.13.1; SBC-3, section 4.17).
    pub fn may(&self, port: &Port, access: Access) -> bool
        ensures { result ≡ may self.now port.now access }
    {
        let Some(held) = &self.held else {
            return true;
        };
        match access {
            Access::Free => true,
            Access::Reads => {
                !held.kind.is_exclusive() || passes(self.registrations.as_slice(), held, port)
            }
            Access::Changes => passes(self.registrations.as_slice(), held, port),
        }
    }
}
