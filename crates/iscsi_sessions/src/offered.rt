//! What may leave to a peer.

ghost use Rattle.std.specs.Prelude.{◌≡◌};

use std::marker::Model;

/// Answers of a slot that may be written to its peer. A table makes them once its store is synced, as far as the
/// slot has to wait for that, and nobody else can.
#[derive(Debug, Drop)]
pub struct Offered<'a> {
    bytes: &'a [u8],
}

impl<'a> Model for Offered<'a> {
    ghost use Rattle.std.specs.Prelude.{List, ℕ};

    ghost Value = { List ℕ };

    ghost view = { λ o. o.bytes.now };
}

impl<'a> Offered<'a> {
    // These bytes, where the store is synced as it has to be.
    pub(crate) fn new(bytes: &'a [u8]) -> Offered<'a>
        ensures { result ≡ bytes.now }
    {
        Offered { bytes }
    }

    /// The bytes.
    pub fn as_bytes(&self) -> &[u8]
        ensures { result.now ≡ self.now }
    {
        self.bytes
    }
}
