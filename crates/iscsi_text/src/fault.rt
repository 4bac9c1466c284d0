//! Why a text could not be read.

ghost use Rattle.std.specs.Prelude.{◌≡◌};
ghost use Rattle.iscsi_text.specs.declared.fault.TextFault.TheVariants.{NoMemory};

use std::alloc::{AllocError, AllocFailed};
use thiserror::Error;

/// Being out of memory, or the first fault of a text.
///
/// A fault names its place, the number of bytes of the text before the faulty pair. It is that of
/// the first faulty pair, and of the faults of that pair the first in the order of the variants.
/// The form of a pair is that of RFC 7143, section 6.1; the order of the faults is own rule.
/// Printed is the fault and its place in decimal, as `unterminated at 4`, or `memory`.
#[derive(Clone, Copy, Debug, PartialEq, Eq, Error)]
pub enum TextFault {
    /// Memory ran out. This may come in place of any other fault, and of success.
    #[error("memory")]
    NoMemory,
    /// No byte 0 ends the pair, which is then the last.
    #[error("unterminated at {0}")]
    Unterminated(usize),
    /// The pair has no `=`.
    #[error("no equals at {0}")]
    NoEquals(usize),
    /// What stands before the pair's first `=` is no key.
    #[error("bad key at {0}")]
    BadKey(usize),
    /// The pair's key stands before, and isn't `TargetAddress`, which alone may be repeated.
    #[error("repeated key at {0}")]
    Repeated(usize),
}

impl From<AllocError> for TextFault {
    ghost from_gives = { λ _ e. e ≡ NoMemory };

    fn from(_error: AllocError) -> TextFault {
        TextFault::NoMemory
    }
}

impl<T: Drop> From<AllocFailed<T>> for TextFault {
    ghost from_gives = { λ _ e. e ≡ NoMemory };

    fn from(_error: AllocFailed<T>) -> TextFault {
        TextFault::NoMemory
    }
}
