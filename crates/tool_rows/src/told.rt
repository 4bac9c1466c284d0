//! What comes of a command line.

use iscsi_serve_words::{LineFault, read_initiators, read_serve_words};
use iscsi_test_support::{Broken, Full};
use iscsi_tool::{read_words, run_read, run_words};
use std::alloc::{AllocError, Global};
use std::io;
use std::io::Write;

/// What comes of a command line: what is written, what is told, and the exit status.
#[derive(Drop)]
pub struct Told {
    /// What is written to standard output.
    pub out: Vec<u8>,
    /// What is told on standard error; of words that are only read, the job that they ask for.
    pub text: Vec<u8>,
    /// The exit status.
    pub status: u8,
}

impl Told {
    // What comes of words with this text and this status, which write nothing.
    fn text(alloc: Global, text: Vec<u8>, status: u8) -> Told {
        let out = Vec::new(alloc);
        Told { out, text, status }
    }
}

/// What comes of words, as their row's kind says.
///
/// With `run` they run over these bytes. With `broken` the reader fails behind the bytes, with `full` the
/// writer takes no byte, and with `mute` standard error takes none. With `narrow` the writer takes a
/// byte of each write, and fails once it has as many as the first word says. With `unread` there are
/// no words, and the bytes say why; with no bytes that is want of memory.
///
/// With `words` they are only read, with `serving` by the program of `serve` alone, and with
/// `initiators` their names of initiators are.
pub fn told_of(rt: &HostRuntime, kind: &str, line: &str, given: &[u8]) -> io::Result<Told> {
    let words = words_of(rt.alloc(), line)?;
    match kind {
        "run" => run(rt, &words, given),
        "broken" => run_broken(rt, &words, given),
        "full" => run_full(rt, &words, given),
        "mute" => run_mute(rt, &words, given),
        "narrow" => run_narrow(rt, &words, given),
        "unread" => run_unread(rt, given),
        "words" => read(rt.alloc(), &words),
        "serving" => read_serving(rt.alloc(), &words),
        "initiators" => list(rt.alloc(), &words),
        _ => Err(io::Error::from(io::ErrorKind::InvalidData)),
    }
}

// The words of a line; `''` is an empty one.
fn words_of<'a>(alloc: Global, line: &'a str) -> Result<Vec<&'a str>, AllocError> {
    let mut words = Vec::new(alloc);
    for word in line.split_whitespace() {
        words.push(if word == "''" { "" } else { word })?;
    }
    Ok(words)
}

fn run(rt: &HostRuntime, words: &[&str], given: &[u8]) -> io::Result<Told> {
    let mut source = given;
    let mut out = Vec::new(rt.alloc());
    let mut text = Vec::new(rt.alloc());
    let status = run_words(rt, words, &mut source, &mut out, &mut text);
    Ok(Told { out, text, status })
}

fn run_broken(rt: &HostRuntime, words: &[&str], given: &[u8]) -> io::Result<Told> {
    let held = if given.is_empty() { None } else { Some(given) };
    let mut out = Vec::new(rt.alloc());
    let mut text = Vec::new(rt.alloc());
    let status = run_words(rt, words, &mut Broken(held), &mut out, &mut text);
    Ok(Told { out, text, status })
}

fn run_full(rt: &HostRuntime, words: &[&str], given: &[u8]) -> io::Result<Told> {
    let mut source = given;
    let mut text = Vec::new(rt.alloc());
    let status = run_words(rt, words, &mut source, &mut Full, &mut text);
    Ok(Told::text(rt.alloc(), text, status))
}

fn run_mute(rt: &HostRuntime, words: &[&str], given: &[u8]) -> io::Result<Told> {
    let mut source = given;
    let mut out = Vec::new(rt.alloc());
    let status = run_words(rt, words, &mut source, &mut out, &mut Full);
    let text = Vec::new(rt.alloc());
    Ok(Told { out, text, status })
}

/// Takes one byte of each write, and fails once it has so many.
#[derive(Drop)]
struct Narrow {
    taken: Vec<u8>,
    room: usize,
}

impl Write for Narrow {
    fn write(&mut self, buf: &[u8]) -> io::Result<usize> {
        if self.taken.len() >= self.room {
            return Err(io::Error::from(io::ErrorKind::Other));
        }
        let n = buf.len().min(1);
        self.taken.extend_from_slice(&buf[..n])?;
        Ok(n)
    }

    fn flush(&mut self) -> io::Result<()> {
        Ok(())
    }
}

fn run_narrow(rt: &HostRuntime, words: &[&str], given: &[u8]) -> io::Result<Told> {
    let Some((room, words)) = words.split_first() else {
        return Err(io::Error::from(io::ErrorKind::InvalidData));
    };
    let mut source = given;
    let mut out = Narrow {
        taken: Vec::new(rt.alloc()),
        room: usize::from_str_radix(room, 10).unwrap_or(0),
    };
    let mut text = Vec::new(rt.alloc());
    let status = run_words(rt, words, &mut source, &mut out, &mut text);
    let out = out.taken;
    Ok(Told { out, text, status })
}

// What comes of words that could not be read; the input is another one, which stays.
fn run_unread(rt: &HostRuntime, given: &[u8]) -> io::Result<Told> {
    let fault = if given.is_empty() {
        LineFault::NoMemory
    } else {
        LineFault::Usage(String::from_utf8_lossy(rt.alloc(), given)?)
    };
    let mut source = given;
    let mut out = Vec::new(rt.alloc());
    let mut text = Vec::new(rt.alloc());
    let status = run_read(rt, &Err(fault), &mut source, &mut out, &mut text);
    out.extend_from_slice(source)?;
    Ok(Told { out, text, status })
}

// The job that words ask for, or why they ask for none.
fn read(alloc: Global, words: &[&str]) -> io::Result<Told> {
    match read_words(alloc, words) {
        Ok(job) => done(alloc, format!(in alloc; "{job:?}")?),
        Err(fault) => refused(alloc, fault),
    }
}

// The same of words for the program of `serve` alone.
fn read_serving(alloc: Global, words: &[&str]) -> io::Result<Told> {
    match read_serve_words(alloc, words) {
        Ok(job) => done(alloc, format!(in alloc; "Serve({job:?})")?),
        Err(fault) => refused(alloc, fault),
    }
}

// The names of initiators that words list, with a blank before each.
fn list(alloc: Global, words: &[&str]) -> io::Result<Told> {
    match read_initiators(alloc, words) {
        Ok(names) => listed(alloc, &names),
        Err(fault) => refused(alloc, fault),
    }
}

fn listed(alloc: Global, names: &[&[u8]]) -> io::Result<Told> {
    let mut text = Vec::new(alloc);
    for name in names {
        text.push(b' ')?;
        text.extend_from_slice(name)?;
    }
    Ok(Told::text(alloc, text, 0))
}

// Words that are well.
fn done(alloc: Global, text: String) -> io::Result<Told> {
    Ok(Told::text(alloc, text.into_bytes(), 0))
}

// Words that are refused.
fn refused(alloc: Global, fault: LineFault) -> io::Result<Told> {
    let mut text = Vec::new(alloc);
    fault.tell(&mut text)?;
    Ok(Told::text(alloc, text, fault.status()))
}
