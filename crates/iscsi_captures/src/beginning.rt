//! Whether a captured connection has its beginning.

use capture_connections::{Connection, Half, Start};

/// The first byte of a login response (RFC 7143, section 11.13).
const LOGIN_RESPONSE: u8 = 0x23;

/// Whether a SYN of the connection is missing.
pub(crate) fn lacks_syn(connection: &Connection) -> bool {
    connection.opener.is_none() || starts_late(&connection.lower) || starts_late(&connection.upper)
}

/// Whether the connection begins before the capture, as far as it was heard.
pub(crate) fn begins_before(connection: &Connection) -> bool {
    let side = connection.initiator();
    is_headless(connection)
        || sends_before(connection.half(side))
        || answers_before(connection.half(side.other()))
}

/// Whether nothing tells who began the connection: neither a SYN, nor a login request as the first
/// byte of an end.
pub(crate) fn is_headless(connection: &Connection) -> bool {
    connection.opener.is_none() && !connection.half(connection.initiator()).is_login()
}

/// Whether bytes of an initiator came before the capture: its SYN is missing, and its first byte is
/// not that of a login request (own rule).
pub(crate) fn sends_before(half: &Half) -> bool {
    starts_late(half) && half.first_byte.is_some() && !half.is_login()
}

/// Whether bytes of a target came before the capture: its SYN is missing, and its first byte is not
/// that of a login response (own rule).
pub(crate) fn answers_before(half: &Half) -> bool {
    starts_late(half) && half.first_byte.is_some_and(|byte| byte != LOGIN_RESPONSE)
}

/// Whether the SYN of a direction is missing, which begins with its first segment with bytes.
pub(crate) fn starts_late(half: &Half) -> bool {
    matches!(half.start, Start::Bytes(_))
}
