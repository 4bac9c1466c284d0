//! What a session is doing.

/// What a session, at either end, is doing.
#[derive(Clone, Copy, Debug, PartialEq, Eq)]
pub enum Phase {
    /// It logs in (RFC 7143, section 6.3).
    Login,
    /// It is in full feature phase.
    Full,
    /// It is over: by a logout, a refused login or a fault.
    Closed,
}
