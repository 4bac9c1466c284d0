//! Why a segment of a capture is not taken.

ghost use Rattle.std.specs.Prelude.{◌≡◌};
ghost use Rattle.capture_connections.specs.declared.fault.ConnectionsFault.TheVariants.{NoMemory};

use std::alloc::{AllocError, AllocFailed};

/// Why a segment is not taken.
#[derive(Clone, Copy)]
pub enum ConnectionsFault {
    /// Memory ran out.
    NoMemory,
}

impl From<AllocError> for ConnectionsFault {
    ghost from_gives = { λ _ fault. fault ≡ NoMemory };

    fn from(_error: AllocError) -> ConnectionsFault {
        ConnectionsFault::NoMemory
    }
}

impl<T: Drop> From<AllocFailed<T>> for ConnectionsFault {
    ghost from_gives = { λ _ fault. fault ≡ NoMemory };

    fn from(_error: AllocFailed<T>) -> ConnectionsFault {
        ConnectionsFault::NoMemory
    }
}
