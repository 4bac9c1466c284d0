//! Codes of iSCSI by their words (RFC 7143, section 11).

/// A stage of a login (section 11.12.3).
pub(crate) fn stage_words(stage: u8) -> &'static str {
    match stage {
        0 => "security negotiation",
        1 => "operational negotiation",
        3 => "full feature phase",
        _ => "reserved stage",
    }
}

/// The status of a login, by its class and detail (section 11.13.5).
pub(crate) fn login_words(class: u8, detail: u8) -> &'static str {
    match u16::from_be_bytes([class, detail]) {
        0x0000 => "success",
        0x0101 => "target moved temporarily",
        0x0102 => "target moved permanently",
        0x0200 => "initiator error",
        0x0201 => "authentication failure",
        0x0202 => "authorization failure",
        0x0203 => "target not found",
        0x0204 => "target removed",
        0x0205 => "unsupported version",
        0x0206 => "too many connections",
        0x0207 => "missing parameter",
        0x0208 => "cannot include in session",
        0x0209 => "session type not supported",
        0x020a => "session does not exist",
        0x020b => "invalid request during login",
        0x0300 => "target error",
        0x0301 => "service unavailable",
        0x0302 => "out of resources",
        _ => "no status of RFC 7143",
    }
}

/// Why a PDU was refused (section 11.17.1).
pub(crate) fn reject_words(reason: u8) -> &'static str {
    match reason {
        0x02 => "data (payload) digest error",
        0x03 => "SNACK reject",
        0x04 => "protocol error",
        0x05 => "command not supported",
        0x06 => "too many immediate commands",
        0x07 => "task in progress",
        0x08 => "invalid data ack",
        0x09 => "invalid PDU field",
        0x0a => "long operation reject",
        0x0c => "waiting for logout",
        _ => "no reason of RFC 7143",
    }
}

/// What a logout is for (section 11.14.1).
pub(crate) fn logout_words(reason: u8) -> &'static str {
    match reason {
        0 => "close the session",
        1 => "close the connection",
        2 => "remove the connection for recovery",
        _ => "no reason of RFC 7143",
    }
}

/// What came of a logout (section 11.15.1).
pub(crate) fn logout_response_words(response: u8) -> &'static str {
    match response {
        0 => "connection or session closed",
        1 => "CID not found",
        2 => "connection recovery is not supported",
        3 => "cleanup failed",
        _ => "no response of RFC 7143",
    }
}

/// A task management function (section 11.5.1).
pub(crate) fn function_words(function: u8) -> &'static str {
    match function {
        1 => "ABORT TASK",
        2 => "ABORT TASK SET",
        3 => "CLEAR ACA",
        4 => "CLEAR TASK SET",
        5 => "LOGICAL UNIT RESET",
        6 => "TARGET WARM RESET",
        7 => "TARGET COLD RESET",
        8 => "TASK REASSIGN",
        _ => "no function of RFC 7143",
    }
}

/// What came of it (section 11.6.1).
pub(crate) fn task_response_words(response: u8) -> &'static str {
    match response {
        0 => "function complete",
        1 => "task does not exist",
        2 => "LUN does not exist",
        3 => "task still allegiant",
        4 => "task allegiance reassignment not supported",
        5 => "task management function not supported",
        6 => "function authorization failed",
        255 => "function rejected",
        _ => "no response of RFC 7143",
    }
}

/// An event of the target (section 11.9.1).
pub(crate) fn event_words(event: u8) -> &'static str {
    match event {
        0 => "SCSI asynchronous event",
        1 => "target requests logout",
        2 => "target will drop the connection",
        3 => "target will drop all connections of the session",
        4 => "target requests parameter negotiation",
        5 => "all active tasks of the LUN are being terminated",
        255 => "vendor-specific event",
        _ => "no event of RFC 7143",
    }
}
