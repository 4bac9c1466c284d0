//! What calls answer, in the words of a dialogue.

use iscsi_initiator::{Done, Initiator, InitiatorFault, Refused, Request, SubmitFault};
use iscsi_login::{Phase, Stage};
use scsi_cdb::Residual;
use std::alloc::{AllocError, Global};

/// The phase and the stage of a session.
pub fn place_of(alloc: Global, initiator: &Initiator) -> Result<String, AllocError> {
    let stage = match initiator.stage() {
        Stage::Security => "security",
        Stage::Operational => "operational",
        Stage::Full => "full",
    };
    format!(in alloc; "{}, {stage}", phase_of(initiator.phase()))
}

/// A phase.
pub fn phase_of(phase: Phase) -> &'static str {
    match phase {
        Phase::Login => "login",
        Phase::Full => "full",
        Phase::Closed => "closed",
    }
}

/// What a call answers that is started or fed.
pub fn answer_of(
    alloc: Global,
    answer: &Result<&'static str, InitiatorFault>,
) -> Result<String, AllocError> {
    match answer {
        Ok(word) => String::from_str(alloc, word),
        Err(fault) => format!(in alloc; "failed, {fault}"),
    }
}

/// What a request is answered that is to come back as it was.
pub fn submit_of(
    alloc: Global,
    answer: &Result<(), Refused>,
    request: &Request,
) -> Result<String, AllocError> {
    let Err(refused) = answer else {
        return String::from_str(alloc, "ok");
    };
    if !is_same(&refused.request, request) {
        return String::from_str(alloc, "another request");
    }
    String::from_str(alloc, refusal_of(refused.fault))
}

// Why a request is refused.
fn refusal_of(fault: SubmitFault) -> &'static str {
    match fault {
        SubmitFault::Closed => "was closed",
        SubmitFault::NotReady => "not ready",
        SubmitFault::Busy => "busy",
        SubmitFault::Shut => "shut",
        SubmitFault::TooLong => "too long",
        SubmitFault::NoMemory => "no memory",
    }
}

// Whether two requests are the same.
fn is_same(a: &Request, b: &Request) -> bool {
    parts_of(a) == parts_of(b) && data_of(a) == data_of(b)
}

// The kind of a request, its unit, its block, and how many bytes it expects.
fn parts_of(request: &Request) -> (u8, u64, [u8; 16], u32) {
    match request {
        Request::In { lun, cdb, expected } => (0, *lun, *cdb, *expected),
        Request::Out { lun, cdb, .. } => (1, *lun, *cdb, 0),
        Request::Ping { .. } => (2, 0, [0; 16], 0),
        Request::Text { .. } => (3, 0, [0; 16], 0),
        Request::Logout => (4, 0, [0; 16], 0),
    }
}

// The bytes of a request.
fn data_of(request: &Request) -> &[u8] {
    match request {
        Request::Out { bytes, .. } | Request::Ping { bytes } | Request::Text { bytes } => {
            bytes.as_slice()
        }
        Request::In { .. } | Request::Logout => &[],
    }
}

// What came of a command, and how many bytes of sense it has.
fn command_of(
    alloc: Global,
    response: u8,
    status: u8,
    sense: usize,
    residual: Residual,
) -> Result<String, AllocError> {
    let (count, rest) = match residual {
        Residual::Exact => (0, "exact"),
        Residual::Under(count) => (count, "under"),
        Residual::Over(count) => (count, "over"),
    };
    format!(in alloc; "response {response} status {status} {rest} {count} sense {sense}")
}

// A word, and bytes that are appended.
fn word_of(
    alloc: Global,
    word: &str,
    bytes: &[u8],
    out: &mut Vec<u8>,
) -> Result<String, AllocError> {
    out.extend_from_slice(bytes)?;
    String::from_str(alloc, word)
}

/// An outcome, and its bytes, the sense before the data.
pub fn outcome_of(
    alloc: Global,
    done: &Option<Done>,
    out: &mut Vec<u8>,
) -> Result<String, AllocError> {
    match done {
        None => word_of(alloc, "none", b"", out),
        Some(
            Done::Command {
                response,
                status,
                sense,
                bytes,
                residual,
            },
        ) => {
            out.extend_from_slice(sense.as_slice())?;
            out.extend_from_slice(bytes.as_slice())?;
            let count = sense.as_slice().len();
            command_of(alloc, *response, *status, count, *residual)
        }
        Some(Done::Ping { bytes }) => word_of(alloc, "ping", bytes.as_slice(), out),
        Some(Done::Text { bytes }) => word_of(alloc, "text", bytes.as_slice(), out),
        Some(Done::Closed) => word_of(alloc, "closed", b"", out),
    }
}
