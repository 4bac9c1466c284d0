//! The words of `job`.

use crate::words::{Refusal, text_of};
use iscsi_job_text::number_of;
use std::alloc::Global;
use std::convert::AsStr;

/// Where a recorded session stands.
#[derive(Clone, Copy)]
pub(crate) enum Source<'a> {
    /// In two files, the bytes of the initiator and those of the target.
    Streams(&'a str, &'a str),
    /// In the files of a capture, at a connection.
    Capture(usize),
}

/// What the words of `job` ask for.
#[derive(Drop)]
pub(crate) struct JobAsked<'a> {
    /// Where the session stands.
    pub(crate) source: Source<'a>,
    /// The files of the capture, in their order.
    pub(crate) captures: Vec<&'a str>,
    /// The file for data of over 512 bytes.
    pub(crate) data: Option<&'a str>,
}

// The words that were read so far.
#[derive(Clone, Copy)]
struct Said<'a> {
    data: Option<&'a str>,
    first: Option<&'a str>,
    second: Option<&'a str>,
    is_capture: bool,
    stdins: usize,
    connection: Option<&'a str>,
}

/// What the words behind `job` ask for.
pub(crate) fn job_of<'a, S: AsStr>(
    alloc: Global,
    words: &'a [S],
) -> Result<JobAsked<'a>, Refusal<'a>> {
    let mut captures = Vec::new(alloc);
    let mut said = Said {
        data: None,
        first: None,
        second: None,
        is_capture: false,
        stdins: 0,
        connection: None,
    };
    let mut words = words.iter();
    while let Some(word) = words.next() {
        match word.as_str() {
            "--capture" => {
                let name = said.capture_of(words.next())?;
                if captures.push(name).is_err() {
                    return Err(Refusal::NoMemory);
                }
            }
            "--data" => said.data = Some(file_of(words.next())?),
            "--connection" => said.connection = text_of(words.next()),
            word => said.take(word)?,
        }
    }
    Ok(JobAsked {
        source: said.source()?,
        captures,
        data: said.data,
    })
}

// The name of a file of data.
fn file_of<'a, S: AsStr>(word: Option<&'a S>) -> Result<&'a str, Refusal<'a>> {
    match text_of(word) {
        Some(name) => Ok(name),
        None => Err(Refusal::Wrong("a value is missing behind", "--data")),
    }
}

impl<'a> Said<'a> {
    // Takes the name of a capture file.
    fn capture_of<S: AsStr>(&mut self, word: Option<&'a S>) -> Result<&'a str, Refusal<'a>> {
        let Some(name) = text_of(word) else {
            return Err(Refusal::Wrong("a value is missing behind", "--capture"));
        };
        self.is_capture = true;
        if name == "-" {
            self.stdins = self.stdins.saturating_add(1);
        }
        Ok(name)
    }

    // Takes a word that is no option with a value.
    fn take(&mut self, word: &'a str) -> Result<(), Refusal<'a>> {
        if word == "-h" || word == "--help" {
            return Err(Refusal::Help);
        }
        if word.starts_with('-') || self.second.is_some() {
            return Err(Refusal::Wrong("unexpected argument", word));
        }
        if self.first.is_none() {
            self.first = Some(word);
        } else {
            self.second = Some(word);
        }
        Ok(())
    }

    // The source that the words are: two files, or else a capture and its connection.
    fn source(&self) -> Result<Source<'a>, Refusal<'a>> {
        if self.stdins > 1 {
            return Err(Refusal::Missing("one file of a recording at most is standard input"));
        }
        match (self.first, self.second, self.is_capture, self.connection) {
            (Some(first), Some(second), false, None) => Ok(Source::Streams(first, second)),
            (None, _, true, Some(digits)) => connection_of(digits),
            _ => Err(Refusal::Missing(
                "a session is two files, or '--capture <FILE> --connection <K>'",
            )),
        }
    }
}

// The connection of a capture whose number these digits are.
fn connection_of<'a>(digits: &'a str) -> Result<Source<'a>, Refusal<'a>> {
    match number_of(digits, u64::from(u32::MAX)) {
        Some(number) => Ok(Source::Capture(number as usize)),
        None => Err(Refusal::Wrong("no number of a connection:", digits)),
    }
}
