//! What a transfer fell short of, or what it left out.

/// The difference between the bytes that an initiator expects and those that a command has
/// (RFC 7143, section 11.4.5).
#[derive(Clone, Copy, Debug, PartialEq, Eq)]
pub enum Residual {
    /// There is none.
    Exact,
    /// `n` bytes were expected and not transferred (bit U).
    Under(u32),
    /// `n` bytes were there and not expected, and were not transferred (bit O).
    Over(u32),
}
