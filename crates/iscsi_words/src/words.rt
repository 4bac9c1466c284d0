//! What the words of a command line ask for. One file, since it has a reader for each command.

ghost use Rattle.std.specs.Prelude.{◌≡◌, ◌<◌, ◌≤◌, [], true, Ok, IfOk, IfSome, map};
ghost use Rattle.iscsi_words.specs.Jobs.{HasDisk, IsJob, IsOtherJob, SaysWords};
ghost use Rattle.iscsi_words.specs.declared.filter.Work.TheVariants.{Normalise};
ghost use Rattle.iscsi_words.specs.declared.words.Job.TheVariants as job;

use crate::capture_comparing::CaptureComparison;
use crate::capture_words::{
    CaptureJob, answered_job, asks_for_capture, compared_job, listed_job, normalised_job, shown_job,
};
use crate::commands::{
    answer_row, compare_row, connections_row, loop_row, normalise_row, show_row,
};
use crate::filter::{Filter, Work};
use crate::telling::{Telling, form_of};
use clap::{ArgMatches, Command, Error};
use iscsi_comparison::{Comparison, Sameness};
use iscsi_explain::Form;
use iscsi_options::{LONGEST_PIECE, number_of};
use iscsi_serve_words::{
    CommandRow, LineFault, ServeJob, bare_command, needed_blocks, no_command, read_serve_words,
    serve_row, usage,
};
use std::alloc::{AllocError, Global};
use std::convert::AsStr;

/// What the words ask for.
#[derive(Clone, Copy, Debug)]
pub enum Job<'a> {
    /// A filter from the standard input to the standard output.
    Filter(Filter),
    /// Shows a stream in another form than by plain lines.
    Tell(Telling),
    /// A target's service of a disk.
    Serve(ServeJob<'a>),
    /// Both ends of a session over a socket, driven by a script on the standard input.
    Loop {
        /// How many blocks of 512 bytes the target's disk has, 1 to 2^40.
        blocks: u64,
        /// The most bytes that are written before they are read, 1 to 4096.
        piece: u32,
    },
    /// Whether two streams have the same meaning.
    Compare(Comparison<'a>),
    /// A job over a capture file.
    Capture(CaptureJob<'a>),
    /// Whether a direction of each of two captures has the same meaning.
    CompareCaptures(CaptureComparison<'a>),
}

/// The word of a job.
#[derive(Clone, Copy)]
enum JobWord {
    Show,
    Normalise,
    Compare,
    Connections,
    Answer,
    Serve,
    Loop,
}

impl JobWord {
    // All of them, in the order of the help.
    const ALL: &'static [JobWord] = &[
        JobWord::Show,
        JobWord::Normalise,
        JobWord::Compare,
        JobWord::Connections,
        JobWord::Answer,
        JobWord::Serve,
        JobWord::Loop,
    ];

    // The words of the job.
    fn row(self) -> &'static CommandRow {
        match self {
            JobWord::Show => show_row(),
            JobWord::Normalise => normalise_row(),
            JobWord::Compare => compare_row(),
            JobWord::Connections => connections_row(),
            JobWord::Answer => answer_row(),
            JobWord::Serve => serve_row(),
            JobWord::Loop => loop_row(),
        }
    }

    // The job that a word names.
    fn of(word: &str) -> Option<JobWord> {
        match word {
            "show" => Some(JobWord::Show),
            "normalise" => Some(JobWord::Normalise),
            "compare" => Some(JobWord::Compare),
            "connections" => Some(JobWord::Connections),
            "answer" => Some(JobWord::Answer),
            "serve" => Some(JobWord::Serve),
            "loop" => Some(JobWord::Loop),
            _ => None,
        }
    }
}

/// What is done with no words.
const UNASKED: Job<'static> = Job::Filter(Filter {
    work: Work::Normalise,
    hex: true,
});

// With the words of one more job, if they could be made.
fn with_job<'a>(
    command: Command<'a>,
    job: Result<Command<'a>, AllocError>,
) -> Result<Command<'a>, AllocError> {
    command.subcommand(job?)
}

// The words of each job.
fn command<'a>(alloc: Global) -> Result<Command<'a>, AllocError> {
    let mut command = bare_command(alloc)?;
    for job in JobWord::ALL {
        command = with_job(command, job.row().declared(alloc))?;
    }
    Ok(command)
}

/// The job that the words of a command line ask for, without the program's name. Words that are no
/// job return `Usage` with the text to print, and those that ask for help `Help`.
#[tactic(auto, using(crate::proofs::JobLemmas::other_job, crate::proofs::JobLemmas::says_nothing))]
pub fn read_words<'a, S: AsStr>(alloc: Global, words: &'a [S]) -> Result<Job<'a>, LineFault>
    ensures unasked { words.now ≡ [] →
        result ≡ Ok (job.Filter (record { work = Normalise; hex = true })) }
    // A disk has 1 to 2^40 blocks, and a piece 1 to 4096 bytes.
    ensures disk { IfOk result IsJob }
    // What a service is asked for is what the words say.
    ensures says { IfOk result (SaysWords (map S.text words.entry.now)) }
{
    if words.is_empty() {
        return Ok(UNASKED);
    }
    if is_service(words) {
        return Ok(Job::Serve(read_serve_words(alloc, words)?));
    }
    let matches = match command(alloc)?.try_get_matches_from(words) {
        Ok(matches) => matches,
        Err(error) => return Err(unread(alloc, words, error)),
    };
    job_of(alloc, &matches)
}

/// Reads words again that were read. The error is want of memory.
pub(crate) fn read_again<'a, S: AsStr>(
    alloc: Global,
    words: &'a [S],
) -> Result<ArgMatches<'a>, AllocError> {
    match command(alloc)?.try_get_matches_from(words) {
        Ok(matches) => Ok(matches),
        Err(_) => Err(AllocError),
    }
}

// Whether the words are those of a service.
fn is_service<S: AsStr>(words: &[S]) -> bool {
    match words.first() {
        Some(word) => matches!(JobWord::of(word.as_str()), Some(JobWord::Serve)),
        None => false,
    }
}

// The usage error for words that are not read, with a hint if a file is named to a command that
// reads standard input.
fn unread<S: AsStr>(alloc: Global, words: &[S], error: Error) -> LineFault {
    let text = match usage(alloc, error) {
        LineFault::Usage(text) => text,
        other => return other,
    };
    let word = match words.first() {
        Some(word) => word.as_str(),
        None => "",
    };
    let Some(file) = stray_file(word, text.as_str()) else {
        return LineFault::Usage(text);
    };
    let hint = if is_capture_name(file) {
        format!(in alloc; "{text}\na capture is named so: ./lanthovur {word} --capture {file}\n")
    } else {
        format!(in alloc; "{text}\n{word} reads standard input: ./lanthovur {word} < {file}\n")
    };
    match hint {
        Ok(text) => LineFault::Usage(text),
        Err(_) => LineFault::NoMemory,
    }
}

// Whether a file has a name that captures have.
fn is_capture_name(file: &str) -> bool {
    file.ends_with(".pcap") || file.ends_with(".pcapng") || file.ends_with(".cap")
}

// The file that a command which reads standard input was given, by the text of its usage error.
fn stray_file<'a>(word: &str, text: &'a str) -> Option<&'a str> {
    if !matches!(word, "show" | "normalise" | "answer") {
        return None;
    }
    let rest = text.strip_prefix("error: unexpected argument '")?;
    let (file, _) = rest.split_once("' found")?;
    if file.starts_with('-') {
        None
    } else {
        Some(file)
    }
}

// The job that words which were read ask for, which is no service: those of `serve` are read before. Words
// that name none are refused, though the reader of the words lets none of those through.
fn job_of<'a>(alloc: Global, matches: &ArgMatches<'a>) -> Result<Job<'a>, LineFault>
    ensures disk { IfOk result IsOtherJob }
{
    let Some((word, asked)) = matches.subcommand() else {
        return Err(no_command(alloc));
    };
    match JobWord::of(word) {
        Some(JobWord::Show) => show_of(alloc, asked),
        Some(JobWord::Normalise) => normalise_of(alloc, asked),
        Some(JobWord::Compare) => comparison_of(alloc, asked),
        Some(JobWord::Connections) => listed_job(alloc, asked),
        Some(JobWord::Answer) => answer_of(alloc, asked),
        Some(JobWord::Loop) => loop_of(alloc, asked),
        Some(JobWord::Serve) | None => Err(no_command(alloc)),
    }
}

// The lines of a stream, or of a direction of a capture.
fn show_of<'a>(alloc: Global, asked: &ArgMatches<'a>) -> Result<Job<'a>, LineFault>
    ensures disk { IfOk result IsOtherJob }
{
    if asks_for_capture(asked) {
        return shown_job(alloc, asked);
    }
    match form_of(asked) {
        Form::Line => Ok(filter_of(Work::Show, asked)),
        form => Ok(Job::Tell(Telling {
            form,
            hex: asked.get_flag("hex"),
        })),
    }
}

// The canonical form of a stream or of a text, or of a direction of a capture.
fn normalise_of<'a>(alloc: Global, asked: &ArgMatches<'a>) -> Result<Job<'a>, LineFault>
    ensures disk { IfOk result IsOtherJob }
{
    if asks_for_capture(asked) {
        return normalised_job(alloc, asked);
    }
    Ok(filter_of(normal_work(asked), asked))
}

// A filter, of hex text if that is asked.
fn filter_of<'a>(work: Work, asked: &ArgMatches<'_>) -> Job<'a>
    requires disk { HasDisk work }
    ensures disk { IsOtherJob result }
{
    let hex = asked.get_flag("hex");
    Job::Filter(Filter { work, hex })
}

// Whether a stream or a text is normalised.
fn normal_work(asked: &ArgMatches<'_>) -> Work
    ensures disk { HasDisk result }
{
    if asked.get_flag("text") {
        Work::Text
    } else {
        Work::Normalise
    }
}

fn answer_of<'a>(alloc: Global, asked: &ArgMatches<'a>) -> Result<Job<'a>, LineFault>
    ensures disk { IfOk result IsOtherJob }
{
    if asked.get_strs("capture").is_some() || asked.get_str("connection").is_some() {
        return answered_job(alloc, asked);
    }
    match needed_blocks(asked) {
        Ok(blocks) => Ok(filter_of(Work::Answer(blocks), asked)),
        Err(fault) => Err(answer_row().bad_size(alloc, fault)),
    }
}

fn comparison_of<'a>(alloc: Global, asked: &ArgMatches<'a>) -> Result<Job<'a>, LineFault>
    ensures disk { IfOk result IsOtherJob }
{
    let sameness = if asked.get_flag("same-job") {
        Sameness::Job
    } else {
        Sameness::Meaning
    };
    let captured = asked.get_flag("capture")
        || asked.get_str("connection").is_some()
        || asked.get_str("from").is_some();
    if captured {
        return compared_job(alloc, sameness, asked);
    }
    Ok(Job::Compare(Comparison {
        first: asked.get_str("A").unwrap_or(""),
        second: asked.get_str("B"),
        sameness,
        hex: asked.get_flag("hex"),
    }))
}

fn loop_of(alloc: Global, asked: &ArgMatches<'_>) -> Result<Job<'static>, LineFault>
    ensures disk { IfOk result IsOtherJob }
{
    let piece = asked.get_str("piece").unwrap_or("");
    match (needed_blocks(asked), piece_of(piece)) {
        (Ok(blocks), Some(piece)) => Ok(Job::Loop { blocks, piece }),
        (Err(fault), _) => Err(loop_row().bad_size(alloc, fault)),
        (Ok(_), None) => Err(loop_row().bad_value(alloc, piece, BAD_PIECE)),
    }
}

// The number of bytes that digits spell, from 1 to 4096.
fn piece_of(digits: &str) -> Option<u32>
    ensures range { IfSome result (λ n. (0 < n) × (n ≤ 4096)) }
{
    match u32::try_from(number_of(digits, u64::from(LONGEST_PIECE))?) {
        Ok(piece) if 0 < piece && piece <= LONGEST_PIECE => Some(piece),
        _ => None,
    }
}

const BAD_PIECE: &str = "is no number of bytes: '--piece <k>' takes a number from 1 to 4096";
