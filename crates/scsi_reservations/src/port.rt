//! The port of an initiator.

use std::alloc::{AllocError, Global};
use std::marker::Model;

/// An initiator port: its name, and its ISID (RFC 7143, section 4.4). The target has one port, so that
/// this names the nexus of both.
#[derive(Drop)]
pub struct Port {
    name: Vec<u8>,
    isid: [u8; 6],
}

impl Model for Port {
    ghost use Rattle.scsi_reservations.specs.Reservations.{Nexus};

    ghost Value = { Nexus };

    ghost view = { λ p. record { name = p.name.items; isid = p.isid } };
}

impl Port {
    ghost use Rattle.std.specs.Prelude.{◌≡◌, IfOk};
    ghost use Rattle.scsi_reservations.specs.Reservations.{is_nexus};
    ghost use Rattle.scsi_reservations.specs.Data.{port_text};

    /// A port of this name and ISID.
    pub fn copy_of(alloc: Global, name: &[u8], isid: &[u8; 6]) -> Result<Port, AllocError>
        ensures ok { IfOk result (λ port. port ≡ record { name = name.now; isid = isid.now }) }
    {
        let name = name.to_vec(alloc)?;
        Ok(Port { name, isid: *isid })
    }

    /// Whether both are the same port.
    pub fn is(&self, other: &Port) -> bool
        ensures { result ≡ is_nexus self.now other.now }
    {
        self.name.as_slice() == other.name.as_slice()
            && self.isid.as_slice() == other.isid.as_slice()
    }

    // Its name and its ISID as text, closed by a zero byte.
    pub(crate) fn text(&self, alloc: Global) -> Result<Vec<u8>, AllocError>
        ensures ok { IfOk result (λ text. text.items ≡ port_text self.now) }
    {
        let isid = hex::encode(alloc, self.isid)?;
        let mut text = self.name.as_slice().to_vec(alloc)?;
        text.extend_from_slice(b",i,0x")?;
        text.extend_from_slice(isid.as_bytes())?;
        text.push(0)?;
        Ok(text)
    }
}
