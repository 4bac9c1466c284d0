//! What the words `job` and `replay` do, and their help.

use crate::ending::Ending;
use crate::help;
use crate::job_words::job_of;
use crate::jobs::write_job;
use crate::replay_words::replay_of;
use crate::replays::run_replay;
use std::convert::AsStr;
use std::io::Write;

/// Does what a command line asks for, if its first word is `job` or `replay`, or it asks for the help of
/// one of them. Returns the exit status; nothing of other words.
///
/// The status is 0 if all is done or help is written, 1 if outcomes differ or something is refused, 2 for
/// words that ask for nothing, 3 for memory, and 4 for reading, writing and the network. Faults and usage go
/// to `errors`; a write there that fails changes nothing.
pub fn run_recorded<S: AsStr, W: Write, E: Write>(
    rt: &HostRuntime,
    words: &[S],
    w: &mut W,
    errors: &mut E,
) -> Option<u8> {
    let [word, rest @ ..] = words else {
        return None;
    };
    let ending = match word.as_str() {
        "job" => job_ending(rt, rest, w),
        "replay" => replay_ending(rt, rest, w, errors),
        "help" => Ending::Help(page_of(rest)?),
        _ => return None,
    };
    Some(ended(ending, w, errors))
}

// The page of help that the words behind `help` ask for, if it is of one of these.
fn page_of<S: AsStr>(words: &[S]) -> Option<&'static str> {
    match words {
        [word] => match word.as_str() {
            "job" => Some(help::JOB),
            "replay" => Some(help::REPLAY),
            _ => None,
        },
        _ => None,
    }
}

// Writes help, or tells a fault, and returns the status.
fn ended<W: Write, E: Write>(ending: Ending, w: &mut W, errors: &mut E) -> u8 {
    let ending = match ending {
        Ending::Help(page) if w.write_all(page.as_bytes()).is_err() => Ending::Write,
        ending => ending,
    };
    let _ = ending.tell(errors);
    ending.status()
}

// How the words behind `job` end.
fn job_ending<S: AsStr, W: Write>(rt: &HostRuntime, words: &[S], w: &mut W) -> Ending {
    match job_of(rt.alloc(), words) {
        Ok(asked) => write_job(rt, asked, w),
        Err(refusal) => refusal.ending(rt.alloc(), "job", help::JOB),
    }
}

// How the words behind `replay` end.
fn replay_ending<S: AsStr, W: Write, E: Write>(
    rt: &HostRuntime,
    words: &[S],
    w: &mut W,
    errors: &mut E,
) -> Ending {
    match replay_of(words) {
        Ok(asked) => run_replay(rt, asked, w, errors),
        Err(refusal) => refusal.ending(rt.alloc(), "replay", help::REPLAY),
    }
}
