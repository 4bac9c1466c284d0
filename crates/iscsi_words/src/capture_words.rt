//! The jobs over capture files, and their words. One file, since the jobs share most words.

ghost use Rattle.std.specs.Prelude.{◌<◌, IfOk, IfSome};
ghost use Rattle.iscsi_words.specs.Jobs.{CanWork, IsJobOver, IsOtherJob};

use crate::capture_comparing::{CaptureComparison, STDIN, named};
use crate::commands::{answer_row, compare_row, connections_row, normalise_row, show_row};
use crate::telling::form_of;
use crate::words::{Job, read_again};
use clap::ArgMatches;
use iscsi_captures::{CapturesFault, End, Times, Wanted};
use iscsi_comparison::Sameness;
use iscsi_explain::Form;
use iscsi_options::number_of;
use iscsi_serve_words::{CommandRow, LineFault, Word, WordKind, needed_blocks};
use std::alloc::{AllocError, Global};
use std::convert::AsStr;

/// What is done with a capture.
#[derive(Clone, Copy, Debug)]
pub enum CaptureWork {
    /// Writes a line for each connection.
    List,
    /// Writes each PDU of both directions in a form, in the order of the capture: of the connection
    /// with this number, or of all that begin with a login.
    ShowAll {
        /// The form of each PDU.
        form: Form,
        /// The number of the only connection that is shown.
        only: Option<usize>,
        /// What stands in a line for the time of its PDU.
        times: Times,
    },
    /// Writes a line for each PDU of one direction.
    Show(Wanted),
    /// Writes each PDU of one direction in a form.
    Tell(Wanted, Form),
    /// Writes the canonical stream of one direction.
    Normalise(Wanted),
    /// Writes a target's answers to the initiator's side of a connection.
    Answer {
        /// The number of the connection.
        connection: usize,
        /// How many blocks of 512 bytes the target's disk has, 1 to 2^40.
        blocks: u64,
    },
}

/// A job over a capture.
#[derive(Clone, Copy, Debug)]
pub struct CaptureJob<'a> {
    /// The name of the first file; `-` is the standard input of the process.
    pub file: &'a str,
    /// How many files the recording has: `capture_names` gives their names.
    pub files: usize,
    /// What is done with it.
    pub work: CaptureWork,
}

impl<'a> CaptureJob<'a> {
    /// The job with another one of its files as the one that faults are told of. A job over one file
    /// stays as it is.
    pub fn over(self, names: &[&'a str], file: usize) -> CaptureJob<'a>
        ensures job { IsJobOver self.entry result }
    {
        if self.files == 1 {
            return self;
        }
        match names.get(file) {
            Some(name) => CaptureJob { file: name, ..self },
            None => self,
        }
    }

    /// The name of the input in the line of a fault; none where the fault is not the input's.
    pub fn blamed(&self, fault: CapturesFault) -> Option<&str> {
        match fault {
            CapturesFault::NoMemory | CapturesFault::Write | CapturesFault::NoConnection { .. } =>
                None,
            _ => Some(named(self.file)),
        }
    }

    /// The command with `-` for its file, as it begins; none where that is its file.
    pub fn typed(&self) -> Option<&'static str> {
        if self.file == STDIN {
            return None;
        }
        Some(match self.work {
            CaptureWork::List => "connections -",
            CaptureWork::ShowAll { .. } | CaptureWork::Show(_) | CaptureWork::Tell(..) =>
                "show --capture -",
            CaptureWork::Normalise(_) => "normalise --capture -",
            CaptureWork::Answer { .. } => "answer --capture -",
        })
    }
}

const CAPTURE: Word = Word {
    name: "capture",
    kind: WordKind::Values("FILE"),
    beside: None,
    help: "Read a capture (pcap, pcapng) instead; - is standard input; may be repeated",
};

const CONNECTION: Word = Word {
    name: "connection",
    kind: WordKind::Value("K"),
    beside: None,
    help: "Connection to read, by its number in the list of 'connections'",
};

const END: Word = Word {
    name: "from",
    kind: WordKind::Value("END"),
    beside: None,
    help: "End whose bytes are read: initiator or target",
};

/// The word of a program that shows times.
pub(crate) const TIMES: &[Word] = &[Word {
    name: "time",
    kind: WordKind::Value("CLOCK"),
    beside: Some("capture"),
    help: "Print each packet's number and time: utc, local or relative",
}];

/// The words of the program that lists connections.
pub(crate) const LISTED: &[Word] = &[
    Word {
        name: "FILE",
        kind: WordKind::File,
        beside: None,
        help: "Capture file; - is standard input",
    },
    Word {
        name: "capture",
        kind: WordKind::Values("FILE"),
        beside: None,
        help: "Read several files as one recording, in this order",
    },
];

/// The words of a program that may read a capture.
pub(crate) const DIRECTION: &[Word] = &[CAPTURE, CONNECTION, END];

/// The words of a program that may read the initiator's side of a capture.
pub(crate) const INITIATOR: &[Word] = &[CAPTURE, CONNECTION];

/// The words of a program that may compare two captures.
pub(crate) const TWO_CAPTURES: &[Word] = &[
    Word {
        name: "capture",
        kind: WordKind::Flag,
        beside: None,
        help: "Read both files as captures (pcap or pcapng)",
    },
    Word {
        name: "connection",
        kind: WordKind::Value("K"),
        beside: None,
        help: "Connection of both captures, or K,L: K of the first and L of the second",
    },
    END,
];

/// The job of listing a capture's connections.
pub(crate) fn listed_job<'a>(alloc: Global, asked: &ArgMatches<'a>) -> Result<Job<'a>, LineFault>
    ensures job { IfOk result IsOtherJob }
{
    let named = asked.get_strs("capture").is_some();
    match asked.get_str("FILE") {
        Some(file) if !named => Ok(Job::Capture(CaptureJob {
            file,
            files: 1,
            work: CaptureWork::List,
        })),
        None if named => {
            recorded_job(
                alloc,
                connections_row(),
                asked,
                CaptureWork::List,
                BAD_LISTED,
            )
        }
        _ => Err(connections_row().refusal(alloc, BAD_LISTED)),
    }
}

const BAD_LISTED: &str =
    "connections are those of one file, '<FILE>', or of several, '--capture <FILE>' for each";

/// The names of the files of a job's recording, in their order. The words are those that asked for it.
pub fn capture_names<'a, S: AsStr>(
    alloc: Global,
    words: &'a [S],
    job: CaptureJob<'a>,
) -> Result<Vec<&'a str>, AllocError> {
    let mut names = Vec::new(alloc);
    if job.files == 1 {
        names.push(job.file)?;
        return Ok(names);
    }
    let matches = read_again(alloc, words)?;
    if let Some((_, asked)) = matches.subcommand() {
        names.extend_from_slice(asked.get_strs("capture").unwrap_or(&[]))?;
    }
    Ok(names)
}

/// Whether words ask for a capture.
pub(crate) fn asks_for_capture(asked: &ArgMatches<'_>) -> bool {
    asked.get_strs("capture").is_some()
        || asked.get_str("connection").is_some()
        || asked.get_str("from").is_some()
}

/// The job of showing a capture: all of it, one connection, or one direction.
pub(crate) fn shown_job<'a>(alloc: Global, asked: &ArgMatches<'a>) -> Result<Job<'a>, LineFault>
    ensures job { IfOk result IsOtherJob }
{
    let word = asked.get_str("time");
    let Some(times) = times_of(word) else {
        return Err(show_row().bad_value(alloc, word.unwrap_or(""), BAD_TIME));
    };
    match shown_work(asked, times) {
        Some(work) if !asked.get_flag("hex") => {
            recorded_job(alloc, show_row(), asked, work, BAD_SHOWN)
        }
        _ => Err(unread_direction(alloc, show_row(), asked, BAD_SHOWN)),
    }
}

// What stands in the lines for times, as a word says.
fn times_of(word: Option<&str>) -> Option<Times> {
    match word {
        None => Some(Times::Connection),
        Some("relative") => Some(Times::Relative),
        Some("utc") => Some(Times::Utc),
        Some("local") => Some(Times::Local),
        Some(_) => None,
    }
}

const BAD_TIME: &str = "is no clock: '--time <CLOCK>' takes utc, local or relative";

// What is shown of a capture. The lines of one direction have no times.
fn shown_work(asked: &ArgMatches<'_>, times: Times) -> Option<CaptureWork>
    ensures work { IfSome result CanWork }
{
    let form = form_of(asked);
    if asked.get_str("from").is_some() {
        if times != Times::Connection {
            return None;
        }
        let wanted = wanted_of(asked)?;
        return Some(match form {
            Form::Line => CaptureWork::Show(wanted),
            form => CaptureWork::Tell(wanted, form),
        });
    }
    let only = match asked.get_str("connection") {
        Some(digits) => Some(connection_number(digits)?),
        None => None,
    };
    Some(CaptureWork::ShowAll { form, only, times })
}

const BAD_SHOWN: &str =
    "a capture is shown with '--capture <FILE>', '--capture <FILE> --connection \
    <K>' or '--capture <FILE> --connection <K> --from initiator|target', and without '--hex'. With \
    '--from' there is no '--time'";

/// The job of normalising one direction of a capture.
pub(crate) fn normalised_job<'a>(
    alloc: Global,
    asked: &ArgMatches<'a>,
) -> Result<Job<'a>, LineFault>
    ensures job { IfOk result IsOtherJob }
{
    let bytes_alone = !asked.get_flag("hex") && !asked.get_flag("text");
    match wanted_of(asked) {
        Some(wanted) if bytes_alone => {
            let work = CaptureWork::Normalise(wanted);
            recorded_job(alloc, normalise_row(), asked, work, BAD_CAPTURE)
        }
        _ => Err(unread_direction(alloc, normalise_row(), asked, BAD_CAPTURE)),
    }
}

const BAD_CAPTURE: &str = "a capture is read with '--capture <FILE> --connection <K> --from \
    initiator|target', and without '--hex' or '--text'";

/// The job of answering the initiator's side of a connection of a capture.
pub(crate) fn answered_job<'a>(alloc: Global, asked: &ArgMatches<'a>) -> Result<Job<'a>, LineFault>
    ensures job { IfOk result IsOtherJob }
{
    let number = match asked.get_str("connection") {
        Some(digits) => connection_number(digits),
        None => None,
    };
    let named = asked.get_strs("capture").is_some();
    match (number, needed_blocks(asked)) {
        (Some(connection), Ok(blocks)) if named && !asked.get_flag("hex") => {
            let work = CaptureWork::Answer { connection, blocks };
            recorded_job(alloc, answer_row(), asked, work, BAD_ANSWERED)
        }
        (Some(_), Err(fault)) if named => Err(answer_row().bad_size(alloc, fault)),
        _ => Err(unread_direction(alloc, answer_row(), asked, BAD_ANSWERED)),
    }
}

const BAD_ANSWERED: &str = "a capture is answered with '--capture <FILE> --connection <K>', and \
    without '--hex'";

/// The job of comparing two captures.
pub(crate) fn compared_job<'a>(
    alloc: Global,
    sameness: Sameness,
    asked: &ArgMatches<'a>,
) -> Result<Job<'a>, LineFault>
    ensures job { IfOk result IsOtherJob }
{
    let ends = (end_of(asked), both_numbers(asked));
    let (a, b) = (asked.get_str("A").unwrap_or(""), asked.get_str("B"));
    if a == STDIN && b.unwrap_or(STDIN) == STDIN {
        return Err(compare_row().refusal(alloc, TWICE_STDIN));
    }
    match ends {
        (Some(end), Some((first, second))) if !asked.get_flag("hex") && asked.get_flag("capture") =>
            {
                Ok(Job::CompareCaptures(CaptureComparison {
                    first: a,
                    second: b,
                    sameness,
                    wanted: Wanted {
                        connection: first,
                        end,
                    },
                    other: Wanted {
                        connection: second,
                        end,
                    },
                }))
            }
        (_, None) if asked.get_str("connection").is_some() => {
            let numbers = asked.get_str("connection").unwrap_or("");
            Err(compare_row().bad_value(alloc, numbers, BAD_CONNECTIONS))
        }
        (None, _) if asked.get_str("from").is_some() => {
            let end = asked.get_str("from").unwrap_or("");
            Err(compare_row().bad_value(alloc, end, BAD_END))
        }
        _ => Err(compare_row().refusal(alloc, BAD_COMPARED)),
    }
}

const TWICE_STDIN: &str =
    "one of two captures at most is standard input: name a file for the other";

const BAD_COMPARED: &str = "captures are compared with '--capture <A> [B] --connection <K>[,<L>] \
    --from initiator|target', and without '--hex'";

const BAD_CONNECTION: &str =
    "is no number of a connection: '--connection <K>' takes one from the list of 'connections'";

const BAD_CONNECTIONS: &str =
    "is no number of a connection: '--connection <K>[,<L>]' takes those of the list of 'connections'";

const BAD_END: &str = "is no end: '--from <END>' takes initiator or target";

// The usage error for words of a direction: it names the value that is wrong, or else says which words go
// together.
fn unread_direction(
    alloc: Global,
    row: &CommandRow,
    asked: &ArgMatches<'_>,
    forms: &str,
) -> LineFault {
    match (asked.get_str("connection"), asked.get_str("from")) {
        (Some(digits), _) if connection_number(digits).is_none() => {
            row.bad_value(alloc, digits, BAD_CONNECTION)
        }
        (_, Some(end)) if end_of(asked).is_none() => row.bad_value(alloc, end, BAD_END),
        _ => row.refusal(alloc, forms),
    }
}

// A job over the files that `--capture` names. Without any it is refused with a text, and so are two
// that are standard input.
fn recorded_job<'a>(
    alloc: Global,
    row: &CommandRow,
    asked: &ArgMatches<'a>,
    work: CaptureWork,
    text: &str,
) -> Result<Job<'a>, LineFault>
    requires work { CanWork work }
    ensures job { IfOk result IsOtherJob }
{
    let Some(names) = asked.get_strs("capture") else {
        return Err(row.refusal(alloc, text));
    };
    if names.iter().filter(|name| **name == STDIN).count() > 1 {
        return Err(row.refusal(alloc, STDIN_AGAIN));
    }
    match names.first() {
        Some(file) => Ok(Job::Capture(CaptureJob {
            file,
            files: names.len(),
            work,
        })),
        None => Err(row.refusal(alloc, text)),
    }
}

const STDIN_AGAIN: &str = "one file of a recording at most is standard input";

// The numbers of the connections that two captures are compared by.
fn both_numbers(asked: &ArgMatches<'_>) -> Option<(usize, usize)> {
    let digits = asked.get_str("connection")?;
    match digits.split_once(',') {
        Some((first, second)) => Some((connection_number(first)?, connection_number(second)?)),
        None => {
            let number = connection_number(digits)?;
            Some((number, number))
        }
    }
}

// The number of a connection that digits spell.
fn connection_number(digits: &str) -> Option<usize> {
    Some(number_of(digits, u64::from(u32::MAX))? as usize)
}

// The end that words name.
fn end_of(asked: &ArgMatches<'_>) -> Option<End> {
    match asked.get_str("from")? {
        "initiator" => Some(End::Initiator),
        "target" => Some(End::Target),
        _ => None,
    }
}

// The direction that words name.
fn wanted_of(asked: &ArgMatches<'_>) -> Option<Wanted> {
    let end = end_of(asked)?;
    let connection = connection_number(asked.get_str("connection")?)?;
    Some(Wanted { connection, end })
}
