//! The stages of a login (RFC 7143, section 6.3).

ghost use Rattle.std.specs.Prelude.{◌≡◌};
ghost use Rattle.iscsi_login.specs.Stage.{may_move, stage_number};

/// Where a login is (RFC 7143, section 6.3). On the wire the stages are 0, 1 and 3.
#[derive(Clone, Copy, Debug, PartialEq, Eq)]
pub enum Stage {
    /// Security negotiation, 0.
    Security,
    /// Negotiation of operational keys, 1.
    Operational,
    /// Full feature phase, 3.
    Full,
}

impl Stage {
    /// The number that the stage has on the wire (RFC 7143, section 11.12.3).
    pub fn number(self) -> u8
        ensures number { result ≡ stage_number self }
    {
        match self {
            Stage::Security => 0,
            Stage::Operational => 1,
            Stage::Full => 3,
        }
    }

    /// Whether a login may move from this stage to the other (RFC 7143, section 6.3).
    ///
    /// It may move from security to each of the two later stages, and from the operational stage to
    /// full feature phase.
    pub fn may_move(self, to: Stage) -> bool
        ensures moves { result ≡ may_move self to }
    {
        matches!(
            (self, to),
            (Stage::Security, Stage::Operational | Stage::Full) | (Stage::Operational, Stage::Full)
        )
    }
}
