//! A job, done again at a live target.

use crate::data_file::{DataFault, fetch};
use crate::ending::Ending;
use crate::replay_words::Replay;
use iscsi_job::Item;
use iscsi_job_text::{Entry, JobReader, LineReason, Stored, TextFault, write_request};
use iscsi_replay::{Account, Live, Lost, ReplayFault, Replaying, Tcp, writes};
use iscsi_stream::write_fully;
use std::alloc::{AllocError, Global};
use std::fs;
use std::fs::File;
use std::io::{Read, Write};
use std::random::RandomSource;

/// How many bytes of the line of a request that writes are shown.
const SHOWN: usize = 60;

/// A job that is read request by request, with its file of data.
#[derive(Drop)]
struct Job<'a, R: Read + Drop> {
    alloc: Global,
    file: &'a str,
    source: R,
    reader: JobReader,
    data: Option<(&'a str, File)>,
}

/// Does a job again as it is read, and writes where outcomes differ.
///
/// A job in a file is read twice: nothing is sent before each of its lines was looked at. One in standard
/// input is read once.
pub(crate) fn run_replay<W: Write, E: Write>(
    rt: &HostRuntime,
    asked: Replay<'_>,
    w: &mut W,
    errors: &mut E,
) -> Ending {
    let ended = if asked.file == "-" {
        replay_from(rt, asked, rt.stdin(), w, errors)
    } else {
        replay_file(rt, asked, w, errors)
    };
    match ended {
        Ok(ending) | Err(ending) => ending,
    }
}

// Looks at a job in a file, and does it again.
fn replay_file<W: Write, E: Write>(
    rt: &HostRuntime,
    asked: Replay<'_>,
    w: &mut W,
    errors: &mut E,
) -> Result<Ending, Ending> {
    let mut first = Job::open(rt, asked, opened(rt, asked.file)?)?;
    for number in 1..u64::MAX {
        let Some(entry) = first.next()? else {
            break;
        };
        may_be_done(rt.alloc(), asked, &entry.item, number)?;
        first.may_be_complete(&entry)?;
    }
    replay_from(rt, asked, opened(rt, asked.file)?, w, errors)
}

// The file of a job.
fn opened(rt: &HostRuntime, name: &str) -> Result<File, Ending> {
    match fs::open(rt, name) {
        Ok(file) => Ok(file),
        Err(_) => Err(no_job(rt.alloc(), name, &TextFault::Read)),
    }
}

// Does the job of a source again, if the target is reached.
fn replay_from<R: Read + Drop, W: Write, E: Write>(
    rt: &HostRuntime,
    asked: Replay<'_>,
    source: R,
    w: &mut W,
    errors: &mut E,
) -> Result<Ending, Ending> {
    let mut job = Job::open(rt, asked, source)?;
    let Some(isid) = isid_of(rt, asked.isid) else {
        return Err(Ending::told(4, String::from_str(rt.alloc(), "no random bytes\n")));
    };
    let account = Account {
        initiator: asked.initiator.as_bytes(),
        target: asked.name.as_bytes(),
        isid,
    };
    match Tcp::open(rt, asked.host, asked.port, asked.seconds) {
        Ok(peer) => replay_to(rt.alloc(), asked, account, &mut job, peer, w, errors),
        Err(lost) => Err(Ending::told(4, unreached(rt.alloc(), asked.to, lost))),
    }
}

impl<'a, R: Read + Drop> Job<'a, R> {
    // A job of which nothing was read. Its file of data is opened.
    fn open(rt: &HostRuntime, asked: Replay<'a>, source: R) -> Result<Job<'a, R>, Ending> {
        let data = match asked.data {
            None => None,
            Some(name) => match fs::open(rt, name) {
                Ok(file) => Some((name, file)),
                Err(_) => return Err(Ending::failed(rt.alloc(), 4, name, &"read failed")),
            },
        };
        Ok(Job {
            alloc: rt.alloc(),
            file: asked.file,
            source,
            reader: JobReader::new(rt.alloc()),
            data,
        })
    }

    // The next request; its data may stand in the file of data.
    fn next(&mut self) -> Result<Option<Entry>, Ending> {
        match self.reader.next(&mut self.source) {
            Ok(entry) => Ok(entry),
            Err(fault) => Err(no_job(self.alloc, self.file, &fault)),
        }
    }

    // Refuses a request whose data stand in a file, if none is named.
    fn may_be_complete(&self, entry: &Entry) -> Result<(), Ending> {
        if self.data.is_some() || (entry.sent.is_none() && entry.received.is_none()) {
            return Ok(());
        }
        let name = self.file;
        let fault = format!(in self.alloc; "{name}: data in a file, which '--data' names\n");
        Err(Ending::told(1, fault))
    }

    // Has a request its data.
    fn complete(&mut self, entry: &mut Entry) -> Result<(), Ending> {
        self.may_be_complete(entry)?;
        if let Some(stored) = entry.sent {
            entry.item.sent = self.fetch(stored)?;
        }
        if let Some(stored) = entry.received {
            entry.item.received = self.fetch(stored)?;
        }
        Ok(())
    }

    // The data that stand in the file of data.
    fn fetch(&mut self, stored: Stored) -> Result<Vec<u8>, Ending> {
        let Some(data) = &mut self.data else {
            return Ok(Vec::new(self.alloc));
        };
        let name = data.0;
        match fetch(self.alloc, &mut data.1, stored) {
            Ok(data) => Ok(data),
            Err(DataFault::NoMemory) => Err(Ending::NoMemory),
            Err(DataFault::Other(at)) => {
                Err(Ending::told(1, format!(in self.alloc; "{name}: other data at {at}\n")))
            }
            Err(_) => Err(Ending::failed(self.alloc, 4, name, &"read failed")),
        }
    }
}

// The ending by a text that is no job. One whose first line is no text may well be a capture.
fn no_job(alloc: Global, file: &str, fault: &TextFault) -> Ending {
    let status = match fault {
        TextFault::NoMemory => 3,
        TextFault::Read => 4,
        TextFault::Line {
            line: 1,
            reason: LineReason::Utf8,
        } => return Ending::told(1, no_text(alloc, file, fault)),
        TextFault::TooLong(_) | TextFault::Line { .. } => 1,
    };
    Ending::failed(alloc, status, file, fault)
}

// That a file is no text, and what makes a job of a capture.
fn no_text(alloc: Global, file: &str, fault: &TextFault) -> Result<String, AllocError> {
    format!(in alloc;
        "{file}: {fault}\nthe job of a capture is made by 'lanthovur job --capture'\n"
    )
}

// Refuses a request that may write, unless the job may.
fn may_be_done(alloc: Global, asked: Replay<'_>, item: &Item, number: u64) -> Result<(), Ending> {
    if asked.writes || !writes(item) {
        Ok(())
    } else {
        Err(Ending::told(1, refused_write(alloc, item, number)))
    }
}

// The ISID that is asked for, or a random one (RFC 7143, section 11.12.5: T is 2).
fn isid_of(rt: &HostRuntime, asked: Option<[u8; 6]>) -> Option<[u8; 6]> {
    if asked.is_some() {
        return asked;
    }
    let mut isid = [0; 6];
    rt.fill_bytes(&mut isid[1..]).ok()?;
    isid[0] = 0x80;
    Some(isid)
}

// That a target is not reached, and why.
fn unreached(alloc: Global, to: &str, lost: Lost) -> Result<String, AllocError> {
    format!(in alloc; "{to}: not reached, {lost}\n")
}

// That a job writes, and by which request: its number, from 1, and the first 60 bytes of its line.
fn refused_write(alloc: Global, item: &Item, number: u64) -> Result<String, AllocError> {
    let mut line = String::new(alloc);
    write_request(alloc, item, &mut line)?;
    let shown = front_of(line.as_str());
    format!(in alloc; "request {number}: {shown}: may write, which '--writes' allows\n")
}

// The first 60 bytes of a line.
fn front_of(line: &str) -> &str {
    match line.split_at_checked(SHOWN) {
        Some((front, _)) => front,
        None => line,
    }
}

// Does a job again over a connection. The names were looked at with the words.
fn replay_to<R: Read + Drop, W: Write, E: Write>(
    alloc: Global,
    asked: Replay<'_>,
    account: Account<'_>,
    job: &mut Job<'_, R>,
    peer: Tcp<'_>,
    w: &mut W,
    errors: &mut E,
) -> Result<Ending, Ending> {
    let Ok(mut live) = Live::new(alloc, account, peer) else {
        return Err(Ending::NoMemory);
    };
    let mut replaying = match Replaying::begin(alloc, asked.plan, &mut live) {
        Ok(replaying) => replaying,
        Err(fault) => return Err(failed(alloc, asked.to, &fault)),
    };
    let done = redo_all(alloc, asked, job, &mut replaying, &mut live, w, errors);
    if done.is_ok() {
        replaying.end(&mut live);
    }
    done?;
    counted(alloc, asked.plan.all, &replaying, w)
}

// Does the requests of a job again, one at a time, in their order.
fn redo_all<R: Read + Drop, W: Write, E: Write>(
    alloc: Global,
    asked: Replay<'_>,
    job: &mut Job<'_, R>,
    replaying: &mut Replaying,
    live: &mut Live<Tcp<'_>>,
    w: &mut W,
    errors: &mut E,
) -> Result<(), Ending> {
    for number in 1..u64::MAX {
        let Some(mut entry) = job.next()? else {
            break;
        };
        may_be_done(alloc, asked, &entry.item, number)?;
        job.complete(&mut entry)?;
        match replaying.redo(live, &entry.item, entry.time, w, errors) {
            Ok(true) => {}
            Ok(false) => return Ok(()),
            Err(fault) => return Err(failed(alloc, asked.to, &fault)),
        }
    }
    Ok(())
}

// How a job ends that was not done to its end.
fn failed(alloc: Global, to: &str, fault: &ReplayFault) -> Ending {
    match fault {
        ReplayFault::NoMemory => Ending::NoMemory,
        ReplayFault::Write => Ending::Write,
        ReplayFault::Login(_) | ReplayFault::Request(_, _) => {
            Ending::failed(alloc, fault.status(), to, fault)
        }
    }
}

// How a job ends that was done, with a summary if one goes on behind differences.
fn counted<W: Write>(
    alloc: Global,
    all: bool,
    replaying: &Replaying,
    w: &mut W,
) -> Result<Ending, Ending> {
    if all {
        let mut text = String::new(alloc);
        if replaying.write_summary(&mut text).is_err() {
            return Err(Ending::NoMemory);
        }
        if write_fully(w, text.as_bytes()).is_err() {
            return Err(Ending::Write);
        }
    }
    if replaying.tally().differ == 0 {
        Ok(Ending::Done)
    } else {
        Ok(Ending::Differ)
    }
}
