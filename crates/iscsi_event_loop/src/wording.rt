//! The words that a line has for what peers know as numbers.

/// What the status of a Login Response says that refuses (RFC 7143, section 11.13.5).
pub fn status_text(class: u8, detail: u8) -> &'static str {
    match (class, detail) {
        (2, 0) => "initiator at fault",
        (2, 1) => "wrong user or secret, or none",
        (2, 2) => "initiator not allowed",
        (2, 3) => "no such target",
        (2, 5) => "no such version",
        (2, 6) => "too many connections",
        (2, 7) => "a key is missing",
        (2, 8) => "no more connections in this session",
        (2, 9) => "no such type of session",
        (2, 10) => "no such session",
        (2, 11) => "not due in a login",
        (3, 0) => "target at fault",
        (3, 1) => "no service now",
        (3, 2) => "no room",
        _ => "another reason",
    }
}

/// The rule of this number that an initiator broke, as the target numbers them.
pub fn rule_text(rule: u8) -> &'static str {
    match rule {
        1 => "a PDU or a tag that is not due",
        2 => "a segment that is too long",
        3 => "data out of order",
        4 => "a text at fault",
        5 => "a logout for another reason",
        9 => "a command out of its turn",
        _ => "another rule",
    }
}
