//! How the words `job` and `replay` end.

use std::alloc::{AllocError, Global};
use std::fmt::Display;
use std::io::{self, Write};

/// How words end.
#[derive(Drop)]
pub(crate) enum Ending {
    /// All is done, and nothing differs.
    Done,
    /// Some outcomes differ.
    Differ,
    /// Memory ran out.
    NoMemory,
    /// A line could not be written.
    Write,
    /// The words ask for this page of help.
    Help(&'static str),
    /// Something is refused or fails: the exit status, and lines that say what.
    Told(u8, String),
}

impl Ending {
    /// The ending with an exit status and lines, if there was memory for these.
    pub(crate) fn told(status: u8, lines: Result<String, AllocError>) -> Ending {
        match lines {
            Ok(lines) => Ending::Told(status, lines),
            Err(_) => Ending::NoMemory,
        }
    }

    /// The ending by a fault of what has this name.
    pub(crate) fn failed<F: Display>(alloc: Global, status: u8, name: &str, fault: &F) -> Ending {
        Ending::told(status, format!(in alloc; "{name}: {fault}\n"))
    }

    /// The exit status: 0 if all is done or help is asked for, 1 if outcomes differ or something is refused,
    /// 2 for words, 3 for memory, and 4 for reading, writing and the network.
    pub(crate) fn status(&self) -> u8 {
        match self {
            Ending::Done | Ending::Help(_) => 0,
            Ending::Differ => 1,
            Ending::NoMemory => 3,
            Ending::Write => 4,
            Ending::Told(status, _) => *status,
        }
    }

    /// Writes what there is to say of a fault.
    pub(crate) fn tell<E: Write>(&self, w: &mut E) -> io::Result<()> {
        match self {
            Ending::Done | Ending::Differ | Ending::Help(_) => Ok(()),
            Ending::NoMemory => w.write_all(b"memory\n"),
            Ending::Write => w.write_all(b"write failed\n"),
            Ending::Told(_, lines) => w.write_all(lines.as_bytes()),
        }
    }
}
