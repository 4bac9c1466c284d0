//! A served disk whose blocks an NBD server keeps.

ghost use Rattle.std.specs.Prelude.{◌≡◌, IfErr, IfOk, IfSome};
ghost use Rattle.scsi_file.specs.FileStore.{store_medium};
ghost use Rattle.nbd_client.specs.Ended.{medium_line};
ghost use Rattle.nbd_client.specs.SocketLine.{line_blocks};
ghost use Rattle.iscsi_serve_words.specs.Storage.{HasAskedBlocks, IsOtherExport};

use crate::serve_words::short_number_of;
use libc::net::{POLLOUT, poll};
use libc::types::pollfd;
use nbd_client::{HandshakeFault, Line, MediumFault, NbdMedium, Place, Report, SocketLine};
use nbd_wire::LONGEST_NAME;
use scsi_file::FileStore;
use std::alloc::Global;
use std::io::Write;
use std::rt::Stderr;
use thiserror::Error;

/// The port of a server, if none is said: that of NBD.
const PORT: u16 = 10809;

/// How many seconds a connection and its handshake may take, and a request with its answer (own rule).
const SECONDS: u32 = 30;

/// An export of an NBD server.
#[derive(Clone, Copy, Debug)]
pub struct NbdExport<'a> {
    /// The word that names it, with which its fault lines begin.
    pub word: &'a str,
    /// Where the server is.
    pub place: Place<'a>,
    /// The name of the export, at most 4,096 bytes; the empty one is that of the default export.
    pub name: &'a str,
    /// How many blocks it has, if that is said.
    pub blocks: Option<u64>,
}

/// How an export is used.
#[derive(Clone, Copy, Debug, PartialEq, Eq)]
pub enum NbdUse {
    /// It is read alone, so that it may be one that can't be written, or has no FLUSH.
    ReadAlone,
    /// It is written.
    Written,
    /// It is written, and zeros are asked for by WRITE_ZEROES where the server has that, so that it can give room
    /// back.
    Thin,
}

/// Why an export is not served.
#[derive(Clone, Copy, Debug, PartialEq, Eq, Error)]
pub enum NbdFault {
    /// It is not opened.
    #[error("{0}")]
    Open(HandshakeFault),
    /// It has another number of blocks than was asked for.
    #[error("has {has} blocks, not {asked}")]
    Size { has: u64, asked: u64 },
    /// What it has cannot be made to last. Its medium has told why.
    #[error("cannot be synced")]
    NotSynced,
}

impl NbdFault {
    /// The exit status of the fault: 4, as for an image.
    pub fn status(&self) -> u8
        ensures { result ≡ 4 }
    {
        4
    }

    /// Whether its line was written when it came.
    pub fn is_told(&self) -> bool {
        matches!(self, NbdFault::NotSynced)
    }
}

/// The export that a word names: `HOST:PORT/NAME`, or an URL, `nbd://HOST:PORT/NAME` or
/// `nbd+unix:///NAME?socket=PATH`. Without a port it is that of NBD, without a name the default export; an IPv6
/// address stands in brackets. In an URL nothing is escaped by `%`, and there is no other query.
pub(crate) fn export_of<'a>(word: &'a str, blocks: Option<u64>) -> Option<NbdExport<'a>>
    ensures blocks { IfSome result (λ export. export.blocks ≡ blocks) }
{
    let (place, name) = match word.split_once("://") {
        Some(("nbd+unix", rest)) => socket_of(rest)?,
        Some(("nbd", rest)) if !rest.contains(['%', '?', '#']) => port_and_name(rest)?,
        Some(("nbd", _)) => return None,
        _ => port_and_name(word)?,
    };
    if name.len() > LONGEST_NAME {
        return None;
    }
    Some(NbdExport {
        word,
        place,
        name,
        blocks,
    })
}

// The place of a server over TCP, and the name of the export.
fn port_and_name(word: &str) -> Option<(Place<'_>, &str)> {
    let (server, name) = word.split_once('/').unwrap_or((word, ""));
    let (host, port) = server_of(server)?;
    if host.is_empty() {
        return None;
    }
    Some((Place::Port { host, port }, name))
}

// The name of the export and the socket of a server, behind `nbd+unix://`.
fn socket_of(rest: &str) -> Option<(Place<'_>, &str)> {
    let (name, path) = rest.strip_prefix('/')?.split_once("?socket=")?;
    if path.is_empty() || name.contains(['%', '?', '#']) || path.contains(['%', '&', '#']) {
        return None;
    }
    Some((Place::Socket(path), name))
}

// The host and the port of a server.
fn server_of(server: &str) -> Option<(&str, u16)> {
    if let Some(rest) = server.strip_prefix('[') {
        let (host, behind) = rest.split_once(']')?;
        if behind.is_empty() {
            return Some((host, PORT));
        }
        return Some((host, port_of(behind.strip_prefix(':')?)?));
    }
    match server.split_once(':') {
        Some((host, digits)) => Some((host, port_of(digits)?)),
        None => Some((server, PORT)),
    }
}

// The port that digits spell, 1 to 65535.
fn port_of(digits: &str) -> Option<u16> {
    match short_number_of(digits) {
        Some(port) if 0 < port => Some(port),
        _ => None,
    }
}

impl<'a> NbdExport<'a> {
    /// The export as a store, to be used so: all that was written to it lasts then, and it has as many blocks as
    /// were asked for. Why it ends later is told on standard error, once.
    pub fn open(
        &self,
        rt: &HostRuntime,
        used: NbdUse,
    ) -> Result<FileStore<NbdMedium<SocketLine, FaultLine<'a>>>, NbdFault>
        ensures blocks { IfOk result (λ store.
            HasAskedBlocks self.now.blocks (line_blocks (medium_line (store_medium store)))) }
        ensures other { IfErr result (IsOtherExport self.now.blocks) }
    {
        let name = self.name.as_bytes();
        let written = used != NbdUse::ReadAlone;
        let line = match SocketLine::open(rt, self.place, name, written, SECONDS) {
            Ok(line) => line,
            Err(fault) => return Err(NbdFault::Open(fault)),
        };
        let has = line.blocks();
        if let Some(asked) = self.blocks {
            if has != asked {
                return Err(NbdFault::Size { has, asked });
            }
        }
        let report = FaultLine {
            alloc: rt.alloc(),
            errors: rt.stderr(),
            word: self.word,
        };
        let gives_back = used == NbdUse::Thin && line.has_write_zeroes();
        match FileStore::new(medium_of(line, report, gives_back)) {
            Ok(store) => Ok(store),
            Err(_) => Err(NbdFault::NotSynced),
        }
    }
}

// A medium on a connection, whose zeros are asked for by WRITE_ZEROES or written.
fn medium_of(
    line: SocketLine,
    report: FaultLine<'_>,
    write_zeroes: bool,
) -> NbdMedium<SocketLine, FaultLine<'_>>
    ensures line { medium_line result ≡ line }
{
    let medium = NbdMedium::new(line, report);
    if write_zeroes {
        medium.with_write_zeroes()
    } else {
        medium
    }
}

/// Tells on standard error why the disk of an export has ended. It waits for no reader: a line for
/// which there is no room is lost.
#[derive(Drop)]
pub struct FaultLine<'a> {
    alloc: Global,
    errors: Stderr,
    word: &'a str,
}

impl Report for FaultLine<'_> {
    fn report(&mut self, fault: MediumFault) {
        let word = self.word;
        let Ok(line) = format!(in self.alloc; "{word}: {fault}\n") else {
            return;
        };
        if is_ready() {
            let _ = self.errors.write(line.as_bytes());
        }
    }
}

// Whether a write to standard error is answered at once.
fn is_ready() -> bool {
    let mut asked = [pollfd {
        fd: libc::STDERR_FILENO,
        events: POLLOUT,
        revents: 0,
    }];
    poll(&mut asked, 0) == 1
}
