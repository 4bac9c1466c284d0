//! A program of these filters alone: the words that it takes, and its run.

ghost use Rattle.std.specs.Prelude.{◌≡◌, ℕ, List, map};
ghost use Rattle.std.specs.Io.KnownBytes.{Appends, Consumes};
ghost use Rattle.iscsi_filters.specs.Program.{RunsFilter, filter_asked, filter_named, filter_with, of_hex, of_text};

use crate::work::{StreamWork, run_work, status};
use std::alloc::Global;
use std::convert::AsStr;
use std::io::{ErrorKind, Read, Write};
use std::process::ExitCode;

/// The line for words that ask for no filter.
const USAGE: &str = "usage: show [--hex] | normalise [--hex] [--text], or no words\n";

/// A filter of a stream: a work, and whether its input is hex text.
#[derive(Clone, Copy, Debug, PartialEq, Eq)]
pub struct StreamFilter {
    /// What it does.
    pub work: StreamWork,
    /// Whether the input is hex text; then bytes are written as a line of hex.
    pub hex: bool,
}

impl StreamFilter {
    // The filter that words ask for: `show` or `normalise`, and behind it `--hex` and, to normalise, `--text`,
    // each at most once. No words ask for the canonical form of hex text.
    fn of<S: AsStr>(words: &[S]) -> Option<StreamFilter>
        ensures asked { result ≡ filter_asked (map S.text words.now) }
    {
        let Some((first, options)) = words.split_first() else {
            return Some(StreamFilter {
                work: StreamWork::Normalise,
                hex: true,
            });
        };
        options.iter().fold(
            named(first.as_str()),
            |filter, option| with(filter, option.as_str()),
        )
    }

    // The filter, of hex text.
    fn of_hex(self) -> Option<StreamFilter>
        ensures hex { result ≡ of_hex self }
    {
        if self.hex {
            return None;
        }
        Some(StreamFilter {
            work: self.work,
            hex: true,
        })
    }

    // The filter, of a text in place of a stream.
    fn of_text(self) -> Option<StreamFilter>
        ensures text { result ≡ of_text self self.work }
    {
        match self.work {
            StreamWork::Normalise => Some(StreamFilter {
                work: StreamWork::Text,
                hex: self.hex,
            }),
            _ => None,
        }
    }
}

// The filter of bytes that the first word names.
fn named(word: &str) -> Option<StreamFilter>
    ensures named { result ≡ filter_named word.now }
{
    let work = match word {
        "show" => StreamWork::Show,
        "normalise" => StreamWork::Normalise,
        _ => return None,
    };
    Some(StreamFilter { work, hex: false })
}

// The filter with one word more.
fn with(filter: Option<StreamFilter>, word: &str) -> Option<StreamFilter>
    ensures with { result ≡ filter_with filter word.now }
{
    let filter = filter?;
    match word {
        "--hex" => filter.of_hex(),
        "--text" => filter.of_text(),
        _ => None,
    }
}

/// Runs the filter that words ask for, from a reader to a writer, and returns the exit status:
/// - 0 if the filter is done;
/// - 1 if the input is refused;
/// - 2 for words that ask for no filter;
/// - 3 for memory;
/// - 4 for reading and writing.
///
/// The line of a fault goes to the third stream; a write there that fails changes nothing.
pub fn run_filter_words<S: AsStr, R: Read, W: Write, E: Write>(
    alloc: Global,
    words: &[S],
    r: &mut R,
    w: &mut W,
    errors: &mut E,
) -> u8
    ensures runs { (read : List ℕ) × (written : List ℕ)
        × Consumes (R.remaining r.old) (R.remaining r.new) read
        × Appends (W.contents w.old) (W.contents w.new) written
        × RunsFilter (filter_asked (map S.text words.now)) result read written }
{
    run_asked(alloc, StreamFilter::of(words), r, w, errors)
}

// Runs the filter that was asked for; without one a line says what can be asked.
#[tactic(auto, using(crate::proofs::Untouched::reads_nothing, crate::proofs::Untouched::writes_nothing))]
fn run_asked<R: Read, W: Write, E: Write>(
    alloc: Global,
    asked: Option<StreamFilter>,
    r: &mut R,
    w: &mut W,
    errors: &mut E,
) -> u8
    ensures runs { (read : List ℕ) × (written : List ℕ)
        × Consumes (R.remaining r.old) (R.remaining r.new) read
        × Appends (W.contents w.old) (W.contents w.new) written
        × RunsFilter asked result read written }
{
    match asked {
        None => {
            let _ = errors.write_all(USAGE.as_bytes());
            2
        }
        Some(filter) => match run_work(alloc, filter.work, filter.hex, r, w) {
            Ok(()) => 0,
            Err(fault) => {
                let _ = writeln!(errors, "{fault}");
                status(&fault)
            }
        },
    }
}

/// Runs the words of the command line over the standard streams, as `run_filter_words` does. Words that are
/// not UTF-8 ask for no filter.
pub fn run_filter_program(rt: &HostRuntime) -> ExitCode {
    let alloc = rt.alloc();
    let mut errors = rt.stderr();
    let words: Vec<String> = match std::env::args(rt) {
        Ok(words) => match words.skip(1).collect(alloc) {
            Ok(words) => words,
            Err(_) => return ExitCode::from(3),
        },
        Err(error) if matches!(error.kind(), ErrorKind::OutOfMemory) => return ExitCode::from(3),
        Err(_) => {
            let _ = errors.write_all(USAGE.as_bytes());
            return ExitCode::from(2);
        }
    };
    let mut input = rt.stdin();
    let mut output = rt.stdout();
    let status = run_filter_words(
        alloc,
        words.as_slice(),
        &mut input,
        &mut output,
        &mut errors,
    );
    ExitCode::from(status)
}
