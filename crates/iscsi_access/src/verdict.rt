//! What a text of the exchange leads to.

use iscsi_chap::{Algorithm, Response};

/// How far the exchange of a login has come (RFC 7143, section 12.1.3).
#[derive(Clone, Copy, Debug, PartialEq, Eq)]
pub enum Progress {
    /// No method is chosen.
    Unasked,
    /// CHAP is chosen.
    Chosen,
    /// The initiator has the challenge, which it is to answer by this algorithm.
    Challenged(Algorithm),
    /// Its response was right.
    Passed,
}

/// What the target says of the exchange. No secret is in it.
#[derive(Clone, Copy, Debug, PartialEq, Eq)]
pub enum Said {
    /// Nothing.
    Nothing,
    /// That CHAP is chosen.
    Method,
    /// The algorithm that is chosen, the identifier and the challenge.
    Challenge(Algorithm),
    /// Its own name, and its response to the initiator's challenge.
    Response(Response),
}

/// What a text leads to.
#[derive(Clone, Copy, Debug, PartialEq, Eq)]
pub enum Verdict {
    /// The login is refused, with status 02/01, whatever was wrong: so nothing is told of accounts.
    Refused,
    /// The login goes on.
    Goes {
        /// How far the exchange has come.
        progress: Progress,
        /// What the target says.
        said: Said,
    },
}
