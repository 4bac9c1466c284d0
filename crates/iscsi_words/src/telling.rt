//! The words for lines with notes, and for JSON.

use clap::ArgMatches;
use iscsi_explain::Form;
use iscsi_serve_words::{Word, WordKind};

/// A stream that is shown in another form than by plain lines.
#[derive(Clone, Copy, Debug)]
pub struct Telling {
    /// The form of each PDU.
    pub form: Form,
    /// Whether the stream is hex text.
    pub hex: bool,
}

/// The words for the forms of a program that shows PDUs.
pub(crate) const FORMS: &[Word] = &[
    Word {
        name: "explain",
        kind: WordKind::Flag,
        beside: None,
        help: "Tell commands, sense, keys, statuses and reasons in words, under each line",
    },
    Word {
        name: "json",
        kind: WordKind::Flag,
        beside: None,
        help: "Print one JSON object for each PDU",
    },
];

/// The form that words ask for.
pub(crate) fn form_of(asked: &ArgMatches<'_>) -> Form {
    match (asked.get_flag("explain"), asked.get_flag("json")) {
        (false, false) => Form::Line,
        (true, false) => Form::Explained,
        (false, true) => Form::Json,
        (true, true) => Form::ExplainedJson,
    }
}
