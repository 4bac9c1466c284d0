//! The address of a portal.

ghost use Rattle.std.specs.Prelude.{◌≡◌, ◌↔◌, IsTrue};
ghost use Rattle.iscsi_portal.specs.Portal.{IsInPortal, IsPortal, NewPortalPost};

use std::alloc::Global;
use std::marker::Model;
use thiserror::Error;

/// The most bytes that the address of a portal has (own rule).
pub const LONGEST_PORTAL: usize = 255;

/// The address of a portal, to keep: a name or an address, a colon and a port, without the tag of its
/// group (RFC 7143, section 13.8).
#[derive(Debug, Drop)]
pub struct Portal {
    bytes: Vec<u8>,
}

impl Model for Portal {
    ghost use Rattle.std.specs.Prelude.{List, ℕ};
    ghost use Rattle.iscsi_portal.specs.Portal.{IsPortal};

    ghost Value = { List ℕ };

    ghost view = { λ p. p.bytes.items };

    ghost invariant = { λ p. IsPortal p.bytes.items };
}

/// Why there is no portal.
#[derive(Clone, Copy, Debug, PartialEq, Eq, Error)]
pub enum PortalFault {
    /// The bytes are no address: they aren't 1 to 255, or one is a comma or outside `!` to `~`.
    #[error("bad portal")]
    BadPortal,
    /// Memory ran out.
    #[error("memory")]
    NoMemory,
}

impl Portal {
    /// A portal of this address: 1 to 255 bytes, each of `!` to `~`, and none a comma. Behind a comma
    /// an initiator reads the tag of the portal's group (RFC 7143, section 13.8). Which bytes the
    /// address may have, and that they are taken as they are, is own rule.
    ///
    /// Other bytes are `BadPortal`; `NoMemory` comes last.
    pub fn new(alloc: Global, bytes: &[u8]) -> Result<Portal, PortalFault>
        ensures keeps { NewPortalPost bytes.now result }
    {
        if !is_portal(bytes) {
            return Err(PortalFault::BadPortal);
        }
        let Ok(bytes) = bytes.to_vec(alloc) else {
            return Err(PortalFault::NoMemory);
        };
        Ok(Portal { bytes })
    }

    /// Its bytes, of which there are 255 at most.
    pub fn as_bytes(&self) -> &[u8]
        ensures bytes { result.now ≡ self.now }
        ensures portal { IsPortal self.now }
    {
        &self.bytes
    }
}

/// Whether these bytes are the address of a portal (RFC 7143, section 13.8; the bytes are own rule).
pub fn is_portal(bytes: &[u8]) -> bool
    ensures portal { IsTrue result ↔ IsPortal bytes.now }
{
    !bytes.is_empty()
        && bytes.len() <= LONGEST_PORTAL
        && bytes.iter().all(|byte| is_in_portal(*byte))
}

// Whether an address may have this byte.
fn is_in_portal(byte: u8) -> bool
    ensures { IsTrue result ↔ IsInPortal byte }
{
    (b'!'..=b'~').contains(&byte) && byte != b','
}
