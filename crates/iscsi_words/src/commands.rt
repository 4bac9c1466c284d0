//! The commands but `serve`, as rows: what their help says, and their words.

use crate::capture_words::{DIRECTION, INITIATOR, LISTED, TIMES, TWO_CAPTURES};
use crate::examples;
use crate::telling::FORMS;
use iscsi_serve_words::{CommandRow, SIZE, Word, WordKind};

// The word of a command whose input may be hex text.
const HEX: &[Word] = &[Word {
    name: "hex",
    kind: WordKind::Flag,
    beside: None,
    help: "Read hex text instead of bytes, and write bytes as a line of hex",
}];

const SHOW: &CommandRow = &CommandRow {
    name: "show",
    bin_name: "lanthovur show",
    about: "Print one line for each PDU of a stream",
    usage: None,
    examples: Some(examples::SHOW),
    words: &[HEX, FORMS, DIRECTION, TIMES],
};

const TEXT: &[Word] = &[Word {
    name: "text",
    kind: WordKind::Flag,
    beside: None,
    help: "Read one text of keys, such as that of a login, instead of a stream",
}];

const NORMALISE: &CommandRow = &CommandRow {
    name: "normalise",
    bin_name: "lanthovur normalise",
    about: "Write a stream in canonical form: equal meaning becomes equal bytes",
    usage: None,
    examples: Some(examples::NORMALISE),
    words: &[HEX, TEXT, DIRECTION],
};

// Two streams, of which the second is read from standard input if it isn't named.
const STREAMS: &[Word] = &[
    Word {
        name: "A",
        kind: WordKind::NeededFile,
        beside: None,
        help: "File of the first stream",
    },
    Word {
        name: "B",
        kind: WordKind::File,
        beside: None,
        help: "File of the second stream (default standard input)",
    },
    Word {
        name: "same-job",
        kind: WordKind::Flag,
        beside: None,
        help: "Let tags, session ids and serial numbers differ, as in two runs of one job",
    },
];

const COMPARE: &CommandRow = &CommandRow {
    name: "compare",
    bin_name: "lanthovur compare",
    about: "Print the first two PDUs in which two streams differ in meaning",
    usage: None,
    examples: Some(examples::COMPARE),
    words: &[HEX, STREAMS, TWO_CAPTURES],
};

const CONNECTIONS: &CommandRow = &CommandRow {
    name: "connections",
    bin_name: "lanthovur connections",
    about: "List the TCP connections of a capture file (pcap or pcapng)",
    usage: Some("lanthovur connections <FILE>\n       lanthovur connections --capture <FILE> ..."),
    examples: None,
    words: &[LISTED],
};

const ANSWER: &CommandRow = &CommandRow {
    name: "answer",
    bin_name: "lanthovur answer",
    about: "Write a target's responses to a stream from an initiator",
    usage: Some("lanthovur answer [OPTIONS] (--size <SIZE> | --blocks <N>)"),
    examples: Some(examples::ANSWER),
    words: &[HEX, SIZE, INITIATOR],
};

const PIECE: &[Word] = &[Word {
    name: "piece",
    kind: WordKind::NeededValue("k"),
    beside: None,
    help: "Most bytes written to the socket before they are read, 1 to 4096",
}];

const LOOP: &CommandRow = &CommandRow {
    name: "loop",
    bin_name: "lanthovur loop",
    about: "Run a script of commands between an initiator and a target, over a local socket",
    usage: Some("lanthovur loop (--size <SIZE> | --blocks <N>) --piece <k>"),
    examples: Some(examples::LOOP),
    words: &[SIZE, PIECE],
};

// A function that names such a table is dear to prove, so one for each does.

pub(crate) fn show_row() -> &'static CommandRow {
    SHOW
}

pub(crate) fn normalise_row() -> &'static CommandRow {
    NORMALISE
}

pub(crate) fn compare_row() -> &'static CommandRow {
    COMPARE
}

pub(crate) fn connections_row() -> &'static CommandRow {
    CONNECTIONS
}

pub(crate) fn answer_row() -> &'static CommandRow {
    ANSWER
}

pub(crate) fn loop_row() -> &'static CommandRow {
    LOOP
}
