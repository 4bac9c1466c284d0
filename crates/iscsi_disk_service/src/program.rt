//! A program of the service alone: the words of `serve`, and their run.

ghost use Rattle.std.specs.Prelude.{◌≡◌, IfOk, Result, map};
ghost use Rattle.iscsi_serve_words.specs.declared.command_line.LineFault.{LineFault};
ghost use Rattle.iscsi_serve_words.specs.declared.serve_words.ServeJob.{ServeJob};
ghost use Rattle.iscsi_serve_words.specs.Said.{SaysJob};
ghost use Rattle.iscsi_serve_words.specs.Words.{words_status};
ghost use Rattle.iscsi_disk_service.specs.Disks.{RunsService};

use crate::storing::serve_storage;
use iscsi_serve_words::{LineFault, read_command_line, read_serve_words};
use std::convert::AsStr;
use std::io::Write;
use std::process::ExitCode;

/// Runs the service that the words of a command line ask for, the first of which is `serve`, and returns
/// the exit status. It is 0 if the service is done or help is asked for, and 2 for words that ask for no
/// service. Else it is that of the fault.
///
/// The lines of faults and usage go to the stream that is given; a write there that fails changes nothing.
/// Help, `listening`, and the lines of sessions go to the standard streams of the process.
pub fn run_serve_words<S: AsStr, E: Write>(rt: &HostRuntime, words: &[S], errors: &mut E) -> u8
    // What was asked for is what the words say.
    ensures runs { (asked : Result ServeJob LineFault) × IfOk asked (SaysJob (map S.text words.now))
        × RunsService asked result }
{
    let job = match read_serve_words(rt.alloc(), words) {
        Ok(job) => job,
        Err(fault) => return refused(rt, &fault, errors),
    };
    match serve_storage(rt, words, job) {
        Ok(()) => 0,
        Err(fault) => {
            let _ = fault.tell(errors);
            fault.status()
        }
    }
}

// Writes help, or tells why words are refused, and returns the exit status.
fn refused<E: Write>(rt: &HostRuntime, fault: &LineFault, errors: &mut E) -> u8
    ensures status { result ≡ words_status fault.now }
{
    let _ = match fault {
        LineFault::Help(_) => fault.tell(&mut rt.stdout()),
        LineFault::Usage(_) | LineFault::NoMemory => fault.tell(errors),
    };
    fault.status()
}

/// Runs the words of the command line, over the standard streams, as `run_serve_words` does.
pub fn run_serve_program(rt: &HostRuntime) -> ExitCode {
    let mut errors = rt.stderr();
    let status = match read_command_line(rt) {
        Ok(words) => run_serve_words(rt, words.as_slice(), &mut errors),
        Err(fault) => refused(rt, &fault, &mut errors),
    };
    ExitCode::from(status)
}
