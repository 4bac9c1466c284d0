//! Why a target's session ends.

ghost use Rattle.std.specs.Prelude.{◌≡◌};
ghost use Rattle.iscsi_target.specs.declared.fault.TargetFault.TheVariants.{NoMemory};

use iscsi_stream::StreamFault;
use std::alloc::AllocError;
use thiserror::Error;

/// Why a target's session ends. Every later call returns `Closed`.
#[derive(Clone, Copy, Debug, PartialEq, Eq, Error)]
pub enum TargetFault {
    /// Memory ran out. The task that needed it wrote nothing and changed no block; those before it were
    /// handled.
    #[error("memory")]
    NoMemory,
    /// The stream is refused; the fault is never `NoMemory`.
    #[error(transparent)]
    Stream(StreamFault),
    /// A PDU of the initiator broke the rule of this number, 1 to 5 or 9. Rules 1 to 5 forbid a kind
    /// or tag not due, a segment too long, data out of order, a text at fault and a logout for another
    /// reason. Rule 9 forbids a command out of its turn.
    #[error("protocol: rule {0}")]
    Protocol(u8),
    /// The session was closed before.
    #[error("closed")]
    Closed,
}

impl From<AllocError> for TargetFault {
    ghost from_gives = { λ _ e. e ≡ NoMemory };

    fn from(_e: AllocError) -> TargetFault {
        TargetFault::NoMemory
    }
}
