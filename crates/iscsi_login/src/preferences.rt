//! What an end prefers, key by key.

ghost use Rattle.std.specs.Prelude.{◌≡◌, ◌↔◌, IsTrue};
ghost use Rattle.iscsi_login.specs.Negotiation.{preference, ArePreferencesInRange, standard_preferences};

use iscsi_text::{Answered, BYTES, NegKey, SECONDS};

/// What an end prefers, where it may choose. Each field is the key of its name.
///
/// Every other key is preferred at its default (own rule): one connection and one open request for
/// data, both orders kept, error recovery level 0, and `None` of each list.
#[derive(Clone, Copy, Debug, PartialEq, Eq)]
pub struct Preferences {
    /// `InitialR2T`.
    pub initial_r2t: bool,
    /// `ImmediateData`.
    pub immediate_data: bool,
    /// `MaxBurstLength` in bytes, 512 to 16777215.
    pub max_burst: u32,
    /// `FirstBurstLength` in bytes, 512 to 16777215.
    pub first_burst: u32,
    /// `DefaultTime2Wait` in seconds, 0 to 3600.
    pub time2wait: u32,
    /// `DefaultTime2Retain` in seconds, 0 to 3600.
    pub time2retain: u32,
    /// The declared `MaxRecvDataSegmentLength` in bytes, 512 to 16777215.
    pub max_recv: u32,
}

impl Preferences {
    /// The standard preferences (own rule): no initial R2T, immediate data, bursts of 262144 bytes,
    /// first bursts of 65536, 2 and 20 seconds, segments of 8192 bytes.
    pub const fn standard() -> Preferences
        ensures standard { result ≡ standard_preferences }
    {
        Preferences {
            initial_r2t: false,
            immediate_data: true,
            max_burst: 262144,
            first_burst: 65536,
            time2wait: 2,
            time2retain: 20,
            max_recv: 8192,
        }
    }

    /// Whether each number is in its key's range (RFC 7143, sections 13.12 to 13.16).
    pub fn in_range(&self) -> bool
        ensures in_range { IsTrue result ↔ ArePreferencesInRange self.now }
    {
        BYTES.contains(u64::from(self.max_burst))
            && BYTES.contains(u64::from(self.first_burst))
            && SECONDS.contains(u64::from(self.time2wait))
            && SECONDS.contains(u64::from(self.time2retain))
            && BYTES.contains(u64::from(self.max_recv))
    }

    /// The preference for a key, which is never `Reject`.
    pub fn of(&self, key: NegKey) -> Answered
        ensures preference { result ≡ preference self.now key }
    {
        match key {
            NegKey::InitialR2T => Answered::Flag(self.initial_r2t),
            NegKey::ImmediateData => Answered::Flag(self.immediate_data),
            NegKey::MaxBurstLength => Answered::Number(self.max_burst),
            NegKey::FirstBurstLength => Answered::Number(self.first_burst),
            NegKey::DefaultTime2Wait => Answered::Number(self.time2wait),
            NegKey::DefaultTime2Retain => Answered::Number(self.time2retain),
            NegKey::MaxConnections
            | NegKey::MaxOutstandingR2T
            | NegKey::DataPDUInOrder
            | NegKey::DataSequenceInOrder
            | NegKey::ErrorRecoveryLevel
            | NegKey::HeaderDigest
            | NegKey::DataDigest
            | NegKey::AuthMethod => key.default_value(),
        }
    }
}
