//! The job of a recorded session, found and written as it goes.

use crate::data_file::{DataFault, DataWriter};
use crate::ending::Ending;
use crate::job_words::{JobAsked, Source};
use crate::tap::Tap;
use iscsi_captures::{CapturesFault, Recording};
use iscsi_job::{Asked, JobFault, Noted, Recorder, Which};
use iscsi_job_text::{Entry, FORM, Stored, Time, WriteFault, read_some, write_entry};
use iscsi_replay::words_of_command;
use iscsi_stream::write_fully;
use std::alloc::{AllocError, Global};
use std::fs;
use std::io::{Read, Write};

/// How many bytes are gathered before they are written.
const GATHERED: usize = 65_536;

/// Where the lines of a job go.
#[derive(Drop)]
struct Output<'w, W: Write> {
    alloc: Global,
    w: &'w mut W,
    text: String,
    data: Option<DataWriter>,
    // when the first request was sent, if that is known
    began: Option<u64>,
}

/// Writes the job of a recorded session as it goes. All that is due before a fault is written before it.
pub(crate) fn write_job<W: Write>(rt: &HostRuntime, asked: JobAsked<'_>, w: &mut W) -> Ending {
    let data = match asked.data {
        None => None,
        Some(name) => match fs::create(rt, name) {
            Ok(file) => Some(DataWriter::new(file)),
            Err(_) => return Ending::failed(rt.alloc(), 4, name, &"write failed"),
        },
    };
    let mut output = Output {
        alloc: rt.alloc(),
        w,
        text: String::new(rt.alloc()),
        data,
        began: None,
    };
    match write_session(rt, asked.source, asked.captures.as_slice(), &mut output) {
        Ok(ending) | Err(ending) => ending,
    }
}

// Writes a session. Returns how the recording ended, or why lines are not written.
fn write_session<W: Write>(
    rt: &HostRuntime,
    source: Source<'_>,
    captures: &[&str],
    output: &mut Output<'_, W>,
) -> Result<Ending, Ending> {
    output.begin()?;
    let ending = match source {
        Source::Streams(first, second) => write_streams(rt, first, second, output)?,
        Source::Capture(connection) => match Recording::open(rt, captures) {
            Ok(mut source) => {
                write_capture(rt.alloc(), &mut source, captures, connection, output)?
            }
            Err(unopened) => unread(rt.alloc(), name_of(captures, unopened.file)),
        },
    };
    output.flush()?;
    Ok(ending)
}

// The ending by a recording that has no job, or not a whole one.
fn without_job(alloc: Global, name: &str, fault: &JobFault) -> Ending {
    let status = match fault {
        JobFault::NoMemory => 3,
        JobFault::Read(_) => 4,
        JobFault::Stream(_, _) | JobFault::Refused { .. } => 1,
    };
    Ending::failed(alloc, status, name, fault)
}

// The ending by a file that is not read.
fn unread(alloc: Global, name: &str) -> Ending {
    Ending::failed(alloc, 4, name, &"read failed")
}

// Writes the job of a session in two files.
fn write_streams<W: Write>(
    rt: &HostRuntime,
    first: &str,
    second: &str,
    output: &mut Output<'_, W>,
) -> Result<Ending, Ending> {
    let Ok(mut initiator) = fs::open(rt, first) else {
        return Ok(unread(rt.alloc(), first));
    };
    let Ok(mut target) = fs::open(rt, second) else {
        return Ok(unread(rt.alloc(), second));
    };
    let mut recorder = Recorder::new(rt.alloc());
    let Ok(mut piece) = vec![in rt.alloc(); 0; GATHERED] else {
        return Err(Ending::NoMemory);
    };
    for _ in 0..u64::MAX {
        let heard = match recorder.wants() {
            None => break,
            Some(Which::Initiator) => {
                hear_piece(&mut recorder, Which::Initiator, &mut piece, &mut initiator)
            }
            Some(Which::Target) => {
                hear_piece(&mut recorder, Which::Target, &mut piece, &mut target)
            }
        };
        if heard.is_err() {
            return Err(Ending::NoMemory);
        }
        output.drain(&mut recorder)?;
    }
    output.drain(&mut recorder)?;
    match (
        recorder.fault(Which::Initiator),
        recorder.fault(Which::Target),
    ) {
        (Some(fault), _) => Ok(without_job(rt.alloc(), first, &fault)),
        (None, Some(fault)) => Ok(without_job(rt.alloc(), second, &fault)),
        (None, None) => Ok(Ending::Done),
    }
}

// Has a recorder hear the next piece of an end's stream, or its end.
fn hear_piece<R: Read>(
    recorder: &mut Recorder,
    which: Which,
    piece: &mut [u8],
    source: &mut R,
) -> Result<(), JobFault> {
    match read_some(source, piece) {
        Ok(0) => recorder.end(which, None),
        Ok(count) => recorder.hear(which, 0, &piece[..count]),
        Err(_) => recorder.end(which, Some(JobFault::Read(which))),
    }
}

// The name of a file of a capture.
fn name_of<'a>(captures: &[&'a str], file: usize) -> &'a str {
    match captures.get(file) {
        Some(name) => name,
        None => "",
    }
}

// Writes the job of a connection of a capture.
fn write_capture<R: Read, W: Write>(
    alloc: Global,
    source: &mut R,
    captures: &[&str],
    connection: usize,
    output: &mut Output<'_, W>,
) -> Result<Ending, Ending> {
    let Ok(mut tap) = Tap::new(alloc, captures.len(), connection) else {
        return Err(Ending::NoMemory);
    };
    let mut recorder = Recorder::new(alloc);
    for _ in 0..u64::MAX {
        let Ok(is_more) = tap.step(source, &mut recorder) else {
            return Err(Ending::NoMemory);
        };
        output.drain(&mut recorder)?;
        if !is_more {
            break;
        }
    }
    for which in [Which::Initiator, Which::Target] {
        if let Some(fault) = recorder.fault(which) {
            let file = name_of(captures, tap.file_of(which));
            return Ok(captured_fault(alloc, file, &fault, tap.fault(which)));
        }
    }
    Ok(Ending::Done)
}

// The ending by the fault of an end: that of the capture, if it is one of reading.
fn captured_fault(
    alloc: Global,
    file: &str,
    fault: &JobFault,
    captured: Option<CapturesFault>,
) -> Ending {
    match (fault, captured) {
        (JobFault::Read(_), Some(captured)) => {
            Ending::failed(alloc, captured.status(), file, &captured)
        }
        _ => without_job(alloc, file, fault),
    }
}

impl<W: Write> Output<'_, W> {
    // Appends the line that names the form.
    fn begin(&mut self) -> Result<(), Ending> {
        match writeln!(self.text, "job {FORM}") {
            Ok(()) => Ok(()),
            Err(_) => Err(Ending::NoMemory),
        }
    }

    // Writes the requests that are due.
    fn drain(&mut self, recorder: &mut Recorder) -> Result<(), Ending> {
        for _ in 0..u64::MAX {
            let Some(noted) = recorder.take_next() else {
                break;
            };
            self.write(noted)?;
            if self.text.len() >= GATHERED {
                self.flush()?;
            }
        }
        Ok(())
    }

    // Writes what was gathered.
    fn flush(&mut self) -> Result<(), Ending> {
        if write_fully(self.w, self.text.as_bytes()).is_err() {
            return Err(Ending::Write);
        }
        self.text.clear();
        Ok(())
    }

    // Appends a request, with the words of a command over it.
    fn write(&mut self, noted: Noted) -> Result<(), Ending> {
        let time = self.time_of(&noted);
        if let Asked::Command { cdb, .. } = noted.item.asked {
            self.comment(&cdb)?;
        }
        let mut item = noted.item;
        let mut sent = None;
        let mut received = None;
        if let Some(data) = &mut self.data {
            sent = put(self.alloc, data, &mut item.sent)?;
            if item.ended.is_some() {
                received = put(self.alloc, data, &mut item.received)?;
            }
        }
        let entry = Entry {
            item,
            sent,
            received,
            time,
        };
        match write_entry(self.alloc, &entry, &mut self.text) {
            Ok(()) => Ok(()),
            Err(WriteFault::NoMemory) => Err(Ending::NoMemory),
            Err(fault) => Err(Ending::failed(self.alloc, 1, "job", &fault)),
        }
    }

    // Appends the words of a command.
    fn comment(&mut self, block: &[u8; 16]) -> Result<(), Ending> {
        match write_comment(self.alloc, block, &mut self.text) {
            Ok(()) => Ok(()),
            Err(_) => Err(Ending::NoMemory),
        }
    }

    // When a request was sent, from the first one on, and how long it took.
    fn time_of(&mut self, noted: &Noted) -> Option<Time> {
        if noted.sent == 0 {
            return None;
        }
        let began = self.began.unwrap_or(noted.sent);
        self.began = Some(began);
        let took = match noted.item.ended {
            Some(_) => Some(noted.answered.saturating_sub(noted.sent)),
            None => None,
        };
        Some(Time {
            sent: noted.sent.saturating_sub(began),
            took,
        })
    }
}

// Appends the words of a command as a comment.
fn write_comment(alloc: Global, block: &[u8; 16], text: &mut String) -> Result<(), AllocError> {
    let words = words_of_command(alloc, block)?;
    writeln!(text, "# {words}")
}

// Puts data into the file of data, if they are long.
fn put(
    alloc: Global,
    data: &mut DataWriter,
    bytes: &mut Vec<u8>,
) -> Result<Option<Stored>, Ending> {
    match data.put(alloc, bytes) {
        Ok(stored) => Ok(stored),
        Err(DataFault::NoMemory) => Err(Ending::NoMemory),
        Err(_) => Err(Ending::Write),
    }
}
