//! Why the configuration of a session is refused.

use thiserror::Error;

/// Why the configuration of a session is refused. The faults come in this order, but for
/// `NoMemory`, which comes last (own rule).
#[derive(Clone, Copy, Debug, PartialEq, Eq, Error)]
pub enum ConfigFault {
    /// Memory ran out.
    #[error("memory")]
    NoMemory,
    /// A name hasn't 1 to 223 bytes, or has one outside `!` to `~` (RFC 7143, section 4.2.7, has
    /// the length; the bytes are own rule).
    #[error("bad name")]
    BadName,
    /// A number or a stage is out of its range.
    #[error("out of range")]
    OutOfRange,
}
