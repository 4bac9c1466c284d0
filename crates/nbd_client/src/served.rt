//! A server in this process, as a line.

ghost use Rattle.std.specs.Prelude.{◌≡◌, true, false, Ok, ◌+◌, ◌*◌, ◌%◌, ◌≤◌, ◌++◌, length, OnOk, IfOk, IfSome, IsTrue};
ghost use Rattle.scsi_disk.specs.Disk.{IsDisk, most_blocks};
ghost use Rattle.nbd_wire.specs.declared.request.Command.TheVariants.{Write as IsWrite, WriteZeroes as IsWriteZeroes};
ghost use Rattle.nbd_wire.specs.Transmission.{reply_bytes, request_at};
ghost use Rattle.nbd_client.specs.Serving.{IsCommandDone, IsPlaced, MayDo, UntoldRises};
ghost use Rattle.nbd_client.specs.Sizes.{AreSizes, FitsSizes};

use crate::fault::Lost;
use crate::line::Line;
use crate::medium::{LONGEST_REQUEST, are_zeros};
use crate::sizes::RequestSizes;
use nbd_wire::{Command, Request, SimpleReply, read_request, reply_bytes};
use scsi_file::Medium;
use std::alloc::{AllocError, Global};

/// The error EIO ("Error values").
const EIO: u32 = 5;

/// A server in this process that keeps its blocks on a medium, for trying out what a client does
/// without sockets. It shows too that all clauses of `Line` can be kept.
///
/// It ends where it is asked for something else than whole blocks inside the medium, by a request that it
/// takes, or where a sync of the medium fails.
#[derive(Drop)]
pub struct Served<M: Medium> {
    alloc: Global,
    medium: M,
    // what was sent and not read
    sent: Vec<u8>,
    ended: bool,
    sizes: RequestSizes,
    ghost fit: { AreSizes sizes (M.Medium.seen medium).count },
    ghost sound: { IsDisk (M.Medium.seen medium) },
    ghost few: { (M.Medium.seen medium).count ≤ most_blocks },
    ghost works: { ended ≡ false → IsTrue (M.Medium.usable medium) },
}

impl<M: Medium> Served<M> {
    ghost use Rattle.nbd_client.specs.Served.{served_medium};

    /// A server of the blocks of a medium, which takes requests of up to 32 MiB.
    pub fn new(alloc: Global, medium: M) -> Served<M>
        requires usable { IsTrue (M.Medium.usable medium) }
        requires few { (M.Medium.seen medium).count ≤ most_blocks }
        ensures { served_medium result ≡ medium }
    {
        medium.blocks();
        Served {
            alloc,
            medium,
            sent: Vec::new(alloc),
            ended: false,
            sizes: RequestSizes {
                longest: LONGEST_REQUEST,
                wide: false,
            },
        }
    }

    /// The same server, which takes such requests alone.
    pub fn taking(self, sizes: RequestSizes) -> Served<M>
        requires sizes { AreSizes sizes (M.Medium.seen (served_medium self)).count }
        ensures medium { served_medium result ≡ served_medium self }
    {
        Served {
            alloc: self.alloc,
            medium: self.medium,
            sent: self.sent,
            ended: self.ended,
            sizes,
        }
    }

    /// What it stood on, as it was left.
    pub fn into_medium(self) -> M
        ensures { result ≡ served_medium self }
    {
        self.medium
    }
}

/// A request about blocks of an export.
#[derive(Clone, Copy, PartialEq, Eq)]
struct Asked {
    request: Request,
    lba: u64,
}

// The request that bytes are, if it is about whole blocks of an export of `count` blocks, and one that it takes.
fn asked_in(head: &[u8], count: u64, sizes: RequestSizes, bytes: &[u8]) -> Option<Asked>
    requires few { count ≤ most_blocks }
    ensures asked { IfSome result (λ asked. (request_at head.now ≡ Ok asked.request)
        × IsPlaced asked.request asked.lba count sizes bytes.now) }
{
    let request = request_in(head)?;
    if !is_taken(request.offset, request.length, sizes) {
        return None;
    }
    let size = 512 * count;
    if request.offset % 512 != 0 || request.length % 512 != 0 {
        return None;
    }
    if request.offset > size || request.length as u64 > size - request.offset {
        return None;
    }
    if request.command == Command::Write && bytes.len() != request.length as usize {
        return None;
    }
    if request.command == Command::WriteZeroes
        && !(bytes.len() == request.length as usize && are_zeros(bytes))
    {
        return None;
    }
    Some(Asked {
        request,
        lba: request.offset / 512,
    })
}

// Whether a server takes such requests.
fn is_taken(offset: u64, length: u32, sizes: RequestSizes) -> bool
    ensures { result ≡ true → FitsSizes offset length sizes }
{
    if length > sizes.longest {
        return false;
    }
    !sizes.wide || (offset % 4096 == 0 && length % 4096 == 0)
}

// The request that 28 bytes are.
pub(crate) fn request_in(head: &[u8]) -> Option<Request>
    ensures { IfSome result (λ request. request_at head.now ≡ Ok request) }
{
    if head.len() != 28 {
        return None;
    }
    let mut bytes = [0; 28];
    bytes.copy_from_slice(head);
    read_request(&bytes).ok()
}

/// What came of a request: its error, and the blocks of a read.
#[derive(Drop)]
struct Outcome {
    error: u32,
    blocks: Vec<u8>,
}

// Does what a request asks for.
fn perform<M: Medium>(
    alloc: Global,
    medium: &mut M,
    command: Command,
    lba: u64,
    size: u32,
    bytes: &[u8],
) -> Result<Outcome, Lost>
    requires usable { IsTrue (M.Medium.usable medium.old) }
    requires whole { size % 512 ≡ 0 }
    requires inside { 512 * lba + size ≤ 512 * (M.Medium.seen medium.old).count }
    requires content { command ≡ IsWrite → length bytes.now ≡ size }
    requires zeros { command ≡ IsWriteZeroes → length bytes.now ≡ size }
    ensures may { MayDo command lba bytes.now (M.Medium.seen medium.old) (M.Medium.kept medium.old)
        (M.Medium.seen medium.new) (M.Medium.kept medium.new) }
    ensures done { IfOk result (λ d. M.Medium.untold medium.new ≡ M.Medium.untold medium.old
        → d.error ≡ 0 → IsCommandDone command lba size bytes.now (M.Medium.seen medium.old)
        (M.Medium.seen medium.new) (M.Medium.kept medium.new) d.blocks.items) }
    ensures usable { OnOk result (IsTrue (M.Medium.usable medium.new)) }
    ensures untold { UntoldRises (M.Medium.seen medium.old).tells (M.Medium.untold medium.old)
        (M.Medium.untold medium.new) }
{
    match command {
        Command::Read => {
            let Ok(mut blocks) = blank(alloc, size) else {
                return Err(Lost::Failed);
            };
            if medium.read_at(lba, &mut blocks).is_err() {
                return Ok(refused(alloc));
            }
            Ok(Outcome { error: 0, blocks })
        }
        Command::Write | Command::WriteZeroes => {
            if medium.write_at(lba, bytes).is_err() {
                return Ok(refused(alloc));
            }
            Ok(empty(alloc))
        }
        Command::Flush => {
            if medium.sync().is_err() {
                return Err(Lost::Failed);
            }
            Ok(empty(alloc))
        }
    }
}

// Room for blocks.
fn blank(alloc: Global, size: u32) -> Result<Vec<u8>, AllocError>
    ensures size { IfOk result (λ v. length v.items ≡ size) }
{
    let mut blocks = Vec::new(alloc);
    blocks.resize(size as usize, 0)?;
    Ok(blocks)
}

// A request that was not done.
fn refused(alloc: Global) -> Outcome
    ensures { result.error ≡ 5 }
{
    Outcome {
        error: EIO,
        blocks: Vec::new(alloc),
    }
}

// A request that was done.
fn empty(alloc: Global) -> Outcome {
    Outcome {
        error: 0,
        blocks: Vec::new(alloc),
    }
}

// What a server sends.
fn reply_of(alloc: Global, cookie: u64, done: &Outcome) -> Result<Vec<u8>, AllocError>
    ensures sent { IfOk result (λ sent.
        sent.items ≡ reply_bytes (record { error = done.now.error; cookie = cookie }) ++ done.now.blocks.items) }
{
    let reply = SimpleReply {
        error: done.error,
        cookie,
    };
    let mut sent = Vec::from_slice(alloc, &reply_bytes(&reply))?;
    sent.extend_from_slice(&done.blocks)?;
    Ok(sent)
}

impl<M: Medium> Line for Served<M> {
    ghost disk = { λ s. M.Medium.seen s.medium };

    ghost kept = { λ s. M.Medium.kept s.medium };

    ghost pending = { λ s. s.sent.items };

    ghost untold = { λ s. M.Medium.untold s.medium };

    ghost sound = { λ s. s.sound };

    ghost few = { λ s. s.few };

    ghost sizes = { λ s. s.sizes };

    ghost fit = { λ s. s.fit };

    ghost stays = { λ s n. M.Medium.stays s.medium n };

    fn blocks(&self) -> u64 {
        self.medium.blocks()
    }

    fn sizes(&self) -> RequestSizes {
        self.sizes
    }

    fn send(&mut self, head: &[u8], bytes: &[u8]) -> Result<(), Lost> {
        let count = self.medium.blocks();
        if self.ended {
            return Err(Lost::Closed);
        }
        let Some(Asked { request, lba }) = asked_in(head, count, self.sizes, bytes) else {
            return Err(Lost::Closed);
        };
        let (command, size) = (request.command, request.length);
        let performed = perform(self.alloc, &mut self.medium, command, lba, size, bytes);
        self.medium.blocks();
        let Ok(done) = performed else {
            self.ended = true;
            return Err(Lost::Closed);
        };
        let Ok(sent) = reply_of(self.alloc, request.cookie, &done) else {
            return Err(Lost::Closed);
        };
        self.sent = sent;
        Ok(())
    }

    fn receive(&mut self, out: &mut [u8]) -> Result<(), Lost> {
        let length = out.len();
        if length > self.sent.len() {
            return Err(Lost::Closed);
        }
        out.copy_from_slice(&self.sent[..length]);
        self.sent.drain(..length);
        Ok(())
    }
}
