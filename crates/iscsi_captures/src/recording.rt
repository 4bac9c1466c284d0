//! The files of a recording, as one reader.

ghost use Rattle.std.specs.Prelude.{None};
ghost use Rattle.std.specs.Io.{ReadsAtMost};
ghost use Rattle.std.specs.Io.KnownBytes.{ReadConsumes};

use crate::fault::CapturesFault;
use std::fs::{self, File};
use std::io::{self, ErrorKind, Read, Stdin};

/// The name of a file that is the standard input of the process.
const STDIN: &str = "-";

/// A file of a recording.
#[derive(Drop)]
enum Input {
    Standard(Stdin),
    File(File),
}

impl Read for Input {
    fn read(&mut self, buf: &mut [u8]) -> io::Result<usize>
        ensures bound { ReadsAtMost result buf.new }
        ensures bytes { ReadConsumes None None result buf.new }
    {
        match self {
            Input::Standard(input) => input.read(buf),
            Input::File(file) => file.read(buf),
        }
    }
}

/// Files that are read one behind the other. A read that gives nothing ends one of them, and the next
/// read is of the one behind it.
#[derive(Drop)]
pub struct Recording {
    files: Vec<Input>,
    at: usize,
}

/// Why the files of a recording are not opened: the number of one of them, from 0, and its fault.
#[derive(Clone, Copy)]
pub struct Unopened {
    /// The number of the file.
    pub file: usize,
    /// The fault: `Absent`, `NotPermitted`, `Read` or `NoMemory`.
    pub fault: CapturesFault,
}

impl Recording {
    /// Opens all files with these names, before one of them is read. `-` is the standard input of the
    /// process.
    pub fn open(rt: &HostRuntime, names: &[&str]) -> Result<Recording, Unopened> {
        let mut files = Vec::new(rt.alloc());
        for (file, name) in names.iter().enumerate() {
            let input = match open_one(rt, name) {
                Ok(input) => input,
                Err(fault) => return Err(Unopened { file, fault }),
            };
            if files.push(input).is_err() {
                let fault = CapturesFault::NoMemory;
                return Err(Unopened { file, fault });
            }
        }
        Ok(Recording { files, at: 0 })
    }

    /// How many files there are.
    pub fn len(&self) -> usize {
        self.files.len()
    }
}

impl Read for Recording {
    fn read(&mut self, buf: &mut [u8]) -> io::Result<usize>
        ensures bound { ReadsAtMost result buf.new }
        ensures bytes { ReadConsumes None None result buf.new }
    {
        let Some(file) = self.files.get_mut(self.at) else {
            return Ok(0);
        };
        let count = file.read(buf)?;
        if count == 0 && !buf.is_empty() {
            self.at = self.at.saturating_add(1);
        }
        Ok(count)
    }
}

// Opens a file.
fn open_one(rt: &HostRuntime, name: &str) -> Result<Input, CapturesFault> {
    if name == STDIN {
        return Ok(Input::Standard(rt.stdin()));
    }
    match fs::open(rt, name) {
        Ok(file) => Ok(Input::File(file)),
        Err(error) => Err(not_opened(error.kind())),
    }
}

/// Why a file is not opened, by the kind of the system's error.
fn not_opened(kind: ErrorKind) -> CapturesFault {
    match kind {
        ErrorKind::NotFound => CapturesFault::Absent,
        ErrorKind::PermissionDenied => CapturesFault::NotPermitted,
        _ => CapturesFault::Read,
    }
}
