//! A program of comparisons alone: the words that it takes, and its run.

ghost use Rattle.std.specs.Prelude.{◌≡◌, ℕ, List, Some, fold, map, option_map};
ghost use Rattle.std.specs.Io.KnownBytes.{Appends, Consumes};
ghost use Rattle.iscsi_comparison.specs.Program.{EndsWith, RunsComparison, comparison_asked, if_named, is_option, said_with, with_name, with_word, words_of_comparison, words_said};

use crate::comparing::Sameness;
use crate::files::Comparison;
use iscsi_compare::Verdict;
use std::convert::AsStr;
use std::io::{ErrorKind, Read, Write};
use std::process::ExitCode;

/// The line for words that ask for no comparison.
const USAGE: &str = "usage: compare [--hex] [--same-job] A [B]\n";

/// What words say that were read so far.
#[derive(Clone, Copy)]
struct Said<'a> {
    first: Option<&'a str>,
    second: Option<&'a str>,
    sameness: Sameness,
    hex: bool,
}

impl<'a> Said<'a> {
    // With one word more: an option that was not there, or a name.
    fn with(self, word: &'a str) -> Option<Said<'a>>
        ensures { option_map words_said result ≡ said_with (words_said self.entry) word.now }
    {
        match word {
            "--hex" if !self.hex => Some(Said { hex: true, ..self }),
            "--same-job" if self.sameness == Sameness::Meaning => Some(Said {
                sameness: Sameness::Job,
                ..self
            }),
            _ if is_option(word) => None,
            _ => self.with_name(word),
        }
    }

    // With the name of a file more: of two at most.
    fn with_name(self, name: &'a str) -> Option<Said<'a>>
        ensures { option_map words_said result ≡ with_name (words_said self.entry)
            (words_said self.entry).first (words_said self.entry).second name.now }
    {
        match (self.first, self.second) {
            (None, _) => Some(Said {
                first: Some(name),
                ..self
            }),
            (Some(_), None) => Some(Said {
                second: Some(name),
                ..self
            }),
            (Some(_), Some(_)) => None,
        }
    }

    // With all these words more.
    #[tactic(auto, using(crate::proofs::Words::none_stays))]
    fn with_all<S: AsStr>(self, words: &'a [S]) -> Option<Said<'a>>
        ensures { option_map words_said result
            ≡ fold with_word (Some (words_said self.entry)) (map S.text words.now) }
    {
        let Some((word, others)) = words.split_first() else {
            return Some(self);
        };
        match self.with(word.as_str()) {
            Some(said) => said.with_all(others),
            None => None,
        }
    }

    // The comparison of what was said, if that names a file.
    fn comparison(self) -> Option<Comparison<'a>>
        ensures { option_map words_of_comparison result ≡ if_named (Some (words_said self.entry)) }
    {
        let first = self.first?;
        Some(Comparison {
            first,
            second: self.second,
            sameness: self.sameness,
            hex: self.hex,
        })
    }
}

// Whether a word begins with a minus sign.
fn is_option(word: &str) -> bool
    ensures { result ≡ is_option word.now }
{
    match word.as_bytes() {
        [byte, ..] => *byte == b'-',
        [] => false,
    }
}

// The comparison that words ask for: `compare`, the names of one or two files, and `--hex` and `--same-job`, each
// at most once and anywhere behind the first word.
fn asked<S: AsStr>(words: &[S]) -> Option<Comparison<'_>>
    ensures { option_map words_of_comparison result ≡ comparison_asked (map S.text words.now) }
{
    let (first, others) = words.split_first()?;
    if first.as_str() != "compare" {
        return None;
    }
    let none = Said {
        first: None,
        second: None,
        sameness: Sameness::Meaning,
        hex: false,
    };
    none.with_all(others)?.comparison()
}

/// Runs the comparison that words ask for, and returns the exit status:
/// - 0 if two streams are the same;
/// - 1 if they differ or one is refused;
/// - 2 for words that ask for no comparison;
/// - 3 for memory;
/// - 4 for reading and writing.
///
/// The line of a fault goes to the third stream; a write there that fails changes nothing. Files are those of
/// the process.
pub fn run_comparison_words<S: AsStr, R: Read, W: Write, E: Write>(
    rt: &HostRuntime,
    words: &[S],
    r: &mut R,
    w: &mut W,
    errors: &mut E,
) -> u8
    ensures runs { (read : List ℕ) × (written : List ℕ)
        × Consumes (R.remaining r.old) (R.remaining r.new) read
        × Appends (W.contents w.old) (W.contents w.new) written
        × RunsComparison (comparison_asked (map S.text words.now)) result read (R.remaining r.new) written }
{
    run_asked(rt, asked(words), r, w, errors)
}

// Runs the comparison that was asked for; without one a line says what can be asked.
#[tactic(auto, using(iscsi_filters::proofs::Untouched::reads_nothing, iscsi_filters::proofs::Untouched::writes_nothing))]
fn run_asked<R: Read, W: Write, E: Write>(
    rt: &HostRuntime,
    asked: Option<Comparison<'_>>,
    r: &mut R,
    w: &mut W,
    errors: &mut E,
) -> u8
    ensures runs { (read : List ℕ) × (written : List ℕ)
        × Consumes (R.remaining r.old) (R.remaining r.new) read
        × Appends (W.contents w.old) (W.contents w.new) written
        × EndsWith asked.entry result read (R.remaining r.new) written }
{
    match asked {
        None => {
            let _ = errors.write_all(USAGE.as_bytes());
            2
        }
        Some(comparison) => match comparison.run(rt, r, w) {
            Ok(Verdict::Same) => 0,
            Ok(Verdict::Differ { .. }) => 1,
            Err(fault) => {
                let _ = comparison.tell(fault, errors);
                fault.status()
            }
        },
    }
}

/// Runs the words of the command line over the standard streams, as `run_comparison_words` does. Words that
/// are not UTF-8 ask for no comparison.
pub fn run_comparison_program(rt: &HostRuntime) -> ExitCode {
    let mut errors = rt.stderr();
    let words: Vec<String> = match std::env::args(rt) {
        Ok(words) => match words.skip(1).collect(rt.alloc()) {
            Ok(words) => words,
            Err(_) => return ExitCode::from(3),
        },
        Err(error) if matches!(error.kind(), ErrorKind::OutOfMemory) => return ExitCode::from(3),
        Err(_) => {
            let _ = errors.write_all(USAGE.as_bytes());
            return ExitCode::from(2);
        }
    };
    let mut input = rt.stdin();
    let mut output = rt.stdout();
    let status = run_comparison_words(rt, words.as_slice(), &mut input, &mut output, &mut errors);
    ExitCode::from(status)
}
