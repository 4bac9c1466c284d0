//! What the words of all commands share: the bare command, and why words are refused.

ghost use Rattle.std.specs.Prelude.{◌≡◌, IfOk};
ghost use Rattle.iscsi_serve_words.specs.Rows.{IsCommand, bare_program};
ghost use Rattle.iscsi_serve_words.specs.Words.{words_status};

use crate::examples;
use clap::error::ErrorKind;
use clap::{Command, Error};
use std::alloc::{AllocError, AllocFailed, Global};
use std::io::{self, Write};
use thiserror::Error;

/// The line for words that are not UTF-8.
const NOT_UTF8: &str =
    "error: the words are not all UTF-8\n\nFor more information, try '--help'.\n";

/// Why words are refused.
#[derive(Debug, Drop, Error)]
pub enum LineFault {
    /// Memory ran out.
    #[error("memory")]
    NoMemory,
    /// The words are no job; the text says why, and what would be one.
    #[error("{0}")]
    Usage(String),
    /// The words ask for help, which is this text.
    #[error("{0}")]
    Help(String),
}

impl From<AllocError> for LineFault {
    fn from(_e: AllocError) -> LineFault {
        LineFault::NoMemory
    }
}

impl<T: Drop> From<AllocFailed<T>> for LineFault {
    fn from(_e: AllocFailed<T>) -> LineFault {
        LineFault::NoMemory
    }
}

impl LineFault {
    /// The exit status of words that are no job, 2; 0 of those that ask for help, and 3 if memory ran out.
    pub fn status(&self) -> u8
        ensures status { result ≡ words_status self.now }
    {
        match self {
            LineFault::Help(_) => 0,
            LineFault::Usage(_) => 2,
            LineFault::NoMemory => 3,
        }
    }

    /// Writes why the words are refused, or the help.
    pub fn tell<E: Write>(&self, w: &mut E) -> io::Result<()> {
        match self {
            LineFault::Usage(text) | LineFault::Help(text) => write!(w, "{text}"),
            LineFault::NoMemory => writeln!(w, "memory"),
        }
    }
}

/// The words of the command line, without the program's name. `Usage` if one of them is not UTF-8,
/// `NoMemory` if memory ran out.
pub fn read_command_line(rt: &HostRuntime) -> Result<Vec<String>, LineFault> {
    let alloc = rt.alloc();
    let words = match std::env::args(rt) {
        Ok(words) => words,
        Err(error) => return Err(unread(alloc, &error)),
    };
    Ok(words.skip(1).collect(alloc)?)
}

// Why there are no words to judge: memory ran out, or one of them is not UTF-8.
fn unread(alloc: Global, error: &io::Error) -> LineFault {
    if matches!(error.kind(), io::ErrorKind::OutOfMemory) {
        return LineFault::NoMemory;
    }
    match String::from_str(alloc, NOT_UTF8) {
        Ok(text) => LineFault::Usage(text),
        Err(_) => LineFault::NoMemory,
    }
}

/// Why clap reads no job from words: they are none, or ask for help. `NoMemory` if memory ran out then, or
/// for the text.
pub fn usage(alloc: Global, error: Error) -> LineFault {
    let kind = error.kind();
    if matches!(kind, ErrorKind::OutOfMemory) {
        return LineFault::NoMemory;
    }
    match format!(in alloc; "{error}") {
        Ok(text) if matches!(kind, ErrorKind::DisplayHelp) => LineFault::Help(text),
        Ok(text) => LineFault::Usage(text),
        Err(_) => LineFault::NoMemory,
    }
}

/// The program, without the words of its jobs. The error is want of memory.
pub fn bare_command<'a>(alloc: Global) -> Result<Command<'a>, AllocError>
    ensures program { IfOk result (IsCommand bare_program) }
{
    let command = Command::new(alloc, "lanthovur")
        .about("Serve iSCSI disks, and show, normalise, compare and answer iSCSI streams")
        .after_help(examples::PROGRAM)
        .no_binary_name(true)
        .disable_version_flag(true)
        .subcommand_required(true)
        .bin_name("lanthovur")?;
    Ok(command)
}

/// The usage error for words that name no command.
pub fn no_command(alloc: Global) -> LineFault {
    match bare_command(alloc) {
        Ok(program) => refusal_by(alloc, program, "the words name no job"),
        Err(_) => LineFault::NoMemory,
    }
}

// The usage error of a command for words that do not go together.
pub(crate) fn refusal_by(alloc: Global, program: Command<'_>, text: &str) -> LineFault {
    let mut program = program;
    match program.error(ErrorKind::ValueValidation, text) {
        Ok(error) => usage(alloc, error),
        Err(_) => LineFault::NoMemory,
    }
}
