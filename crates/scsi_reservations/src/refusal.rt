//! Why PERSISTENT RESERVE IN or OUT is refused.

ghost use Rattle.std.specs.Prelude.{◌≡◌};
ghost use Rattle.scsi_reservations.specs.Blocks.{refusal_sense};

use thiserror::Error;

/// Why PERSISTENT RESERVE IN or OUT is refused with CHECK CONDITION, key ILLEGAL REQUEST (SPC-4,
/// section 4.5.6).
#[derive(Clone, Copy, Debug, PartialEq, Eq, Error)]
pub enum Refusal {
    /// 1A/00: the parameter list has another length than 24 bytes.
    #[error("the parameter list has another length than 24 bytes")]
    ListLength,
    /// 24/00: an action, a scope or a type that is not taken.
    #[error("an action, a scope or a type that is not taken")]
    InvalidField,
    /// 26/00: a bit of the list that is not taken, or a key of 0 where one is to be preempted.
    #[error("a field of the parameter list that is not taken")]
    InvalidParameter,
    /// 26/04: a release of another type than that of the reservation.
    #[error("another type than that of the reservation")]
    InvalidRelease,
    /// 55/04: 64 ports are registered.
    #[error("no room for another registration")]
    NoRoom,
}

impl Refusal {
    /// The additional sense code, and its qualifier.
    pub fn code(self) -> (u8, u8)
        ensures { result ≡ refusal_sense self }
    {
        match self {
            Refusal::ListLength => (0x1a, 0x00),
            Refusal::InvalidField => (0x24, 0x00),
            Refusal::InvalidParameter => (0x26, 0x00),
            Refusal::InvalidRelease => (0x26, 0x04),
            Refusal::NoRoom => (0x55, 0x04),
        }
    }
}
