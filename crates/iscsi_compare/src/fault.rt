//! Why a comparison of two streams stops.

ghost use Rattle.std.specs.Prelude.{◌≡◌};

use iscsi_stream::StreamFault;
use std::alloc::AllocError;
use thiserror::Error;

/// One of the two streams that are compared.
#[derive(Clone, Copy, Debug, PartialEq, Eq)]
pub enum Which {
    /// The stream that is named first.
    First,
    /// The stream that is named second.
    Second,
}

/// Why a comparison stops.
#[derive(Clone, Copy, Debug, PartialEq, Eq, Error)]
pub enum CompareFault {
    /// Memory ran out.
    #[error("memory")]
    NoMemory,
    /// This stream is refused; the fault is never `NoMemory`.
    #[error("{1}")]
    Stream(Which, StreamFault),
    /// A read of this stream failed, or there were 16,777,216 of them.
    #[error("read failed")]
    Read(Which),
}

impl From<AllocError> for CompareFault {
    ghost use Rattle.std.specs.Prelude.{◌≡◌};
    ghost use Rattle.iscsi_compare.specs.declared.fault.CompareFault.TheVariants as fault;

    ghost from_gives = { λ _ e. e ≡ fault.NoMemory };

    fn from(_e: AllocError) -> CompareFault {
        CompareFault::NoMemory
    }
}
