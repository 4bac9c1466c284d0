//! Why an initiator's session fails.

ghost use Rattle.std.specs.Prelude.{◌≡◌, ◌≤◌, length};
ghost use Rattle.iscsi_initiator.specs.declared.fault.InitiatorFault.TheVariants.{NoMemory};

use arrayvec::ArrayVec;
use iscsi_stream::StreamFault;
use std::alloc::AllocError;
use std::fmt::{self, Write};
use std::marker::Model;
use thiserror::Error;

/// A key of a login text, 1 to 63 bytes (RFC 7143, section 6.1).
///
/// Contracts see it as its bytes.
#[derive(Debug, Drop)]
pub struct Key {
    bytes: ArrayVec<u8, 63>,
}

impl Model for Key {
    ghost use Rattle.std.specs.Prelude.{List, ℕ};

    ghost Value = { List ℕ };

    ghost view = { λ k. k.bytes.items };
}

impl Key {
    // The key of these bytes.
    pub(crate) fn new(bytes: &[u8]) -> Key
        requires { length bytes.now ≤ 63 }
        ensures { result ≡ bytes.now }
    {
        let mut key = ArrayVec::new();
        let _ = key.try_extend_from_slice(bytes);
        Key { bytes: key }
    }

    /// The bytes of the key.
    pub fn as_slice(&self) -> &[u8]
        ensures bytes { result.now ≡ self.now }
    {
        self.bytes.as_slice()
    }
}

impl fmt::Display for Key {
    fn fmt<W: Write>(&self, f: &mut fmt::Formatter<W>) -> Result<(), fmt::Error> {
        for byte in self.as_slice() {
            f.write_char(char::from(*byte))?;
        }
        Ok(())
    }
}

/// Why a session fails. It is closed from then on.
#[derive(Debug, Drop, Error)]
pub enum InitiatorFault {
    /// Memory ran out. Nothing was written for the piece.
    #[error("memory")]
    NoMemory,
    /// The bytes that came are no stream of PDUs within the limit.
    #[error(transparent)]
    Stream(StreamFault),
    /// The target broke the rule of this number (`docs/FORMATS.md` has the rules).
    #[error("protocol: rule {0}")]
    Protocol(u8),
    /// The target refused the login with this class and detail (RFC 7143, section 11.13.5).
    #[error("login refused: {0:02x}{1:02x}")]
    Refused(u8, u8),
    /// The target's answer to this key is one that it may not give, or there is none (RFC 7143,
    /// section 6.2).
    #[error("bad answer: {0}")]
    BadAnswer(Key),
    /// The session was closed before.
    #[error("closed")]
    Closed,
}

impl From<AllocError> for InitiatorFault {
    ghost from_gives = { λ _ e. e ≡ NoMemory };

    fn from(_e: AllocError) -> InitiatorFault {
        InitiatorFault::NoMemory
    }
}
