//! The longest Data-In that a target is told to send.

ghost use Rattle.std.specs.Prelude.{◌≡◌, IfNone, IfSome};
ghost use Rattle.iscsi_target_session.specs.Configured.{IsDataInLimit};

use std::marker::Model;

/// How many bytes a Data-In has at most, whatever more the initiator takes in one segment (RFC 7143,
/// section 13.12).
#[derive(Debug, Drop)]
pub struct DataInLimit {
    bytes: u32,
}

impl Model for DataInLimit {
    ghost use Rattle.std.specs.Prelude.{ℕ};
    ghost use Rattle.iscsi_target_session.specs.Configured.{IsDataInLimit};

    ghost Value = { ℕ };

    ghost view = { λ l. l.bytes };

    ghost invariant = { λ l. IsDataInLimit l.bytes };
}

impl DataInLimit {
    /// A limit of this many bytes: a multiple of 512, and at least 512 (own rule), so that the parts of
    /// a READ stay whole blocks. Other lengths give `None`.
    pub fn of_bytes(bytes: u32) -> Option<DataInLimit>
        ensures some { IfSome result (λ limit. IsDataInLimit bytes × (limit ≡ bytes)) }
        ensures none { IfNone result (¬ IsDataInLimit bytes) }
    {
        if bytes < 512 || bytes % 512 != 0 {
            return None;
        }
        Some(DataInLimit { bytes })
    }

    /// The limit, in bytes.
    pub fn bytes(&self) -> u32
        ensures bytes { result ≡ self.now }
        ensures limit { IsDataInLimit self.now }
    {
        self.bytes
    }
}
