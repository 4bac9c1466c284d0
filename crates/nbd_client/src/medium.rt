//! The blocks of an NBD server as a medium.

ghost use Rattle.std.specs.Prelude.{◌≡◌, ◌↔◌, true, false, IsTrue, ◌+◌, ◌*◌, ◌/◌, ◌%◌, ◌<◌, ◌≤◌, length, take, drop, OnOk, IfSome, IsSome, Some, Err};
ghost use Rattle.scsi_disk.specs.Disk.{blocks_from, disk_written};
ghost use Rattle.scsi_disk.specs.Lasting.{Within};
ghost use Rattle.scsi_disk.specs.Sparse.{AreZeros};
ghost use Rattle.nbd_wire.specs.declared.request.Command.TheVariants.{Write as IsWrite, WriteZeroes as IsWriteZeroes};
ghost use Rattle.nbd_client.specs.Serving.{IsCommandDone, MayDo, MayWrite, UntoldRises};
ghost use Rattle.nbd_client.specs.Sizes.{FitsSizes};

use crate::exchange::exchange;
use crate::fault::{MediumFault, Report};
use crate::line::Line;
use crate::sizes::{run_length, span_of};
use nbd_wire::{Command, Request, read_simple_reply};
use scsi_disk::StoreFault;
use scsi_file::Medium;

/// The most bytes of a request: 65,536 blocks, and the most that the protocol lets a client send to any server
/// ("Block size constraints").
pub(crate) const LONGEST_REQUEST: u32 = 33_554_432;

/// A medium whose blocks an NBD server keeps.
///
/// One request is asked at a time, and none for 0 blocks. What is longer than the server's longest request is
/// done by several, one after another. Where the requests are wide, a read of fewer blocks reads those around
/// them, and each write fails with `Device`. A request that the server refuses fails
/// with `Device`, and the next one may do. The medium ends if the connection is lost, an answer is
/// none, or a FLUSH is refused. The end is told once, nothing more is asked, and each call fails
/// with `Device`. There is no new connection, since a request whose answer did not come may still be
/// done, behind a later one.
#[derive(Drop)]
pub struct NbdMedium<L: Line, R: Report> {
    line: L,
    report: R,
    cookie: u64,
    fault: Option<MediumFault>,
    // zeros are asked for by WRITE_ZEROES
    write_zeroes: bool,
}

/// Why a request was not done.
#[derive(Clone, Copy, PartialEq, Eq)]
enum AskFault {
    /// The medium has ended.
    Ended,
    /// The server refused it with this error.
    Refused(u32),
}

impl From<AskFault> for StoreFault {
    ghost use Rattle.std.specs.Prelude.{◌≡◌};
    ghost use Rattle.scsi_disk.specs.declared.store.StoreFault.TheVariants.{Device};

    ghost from_gives = { λ _ e. e ≡ Device };

    fn from(_: AskFault) -> StoreFault {
        StoreFault::Device
    }
}

impl<L: Line, R: Report> NbdMedium<L, R> {
    ghost use Rattle.nbd_client.specs.Ended.{why_ended, medium_line};

    /// A medium on a connection, which tells `report` why it ends.
    pub fn new(line: L, report: R) -> NbdMedium<L, R>
        ensures line { medium_line result ≡ line }
    {
        NbdMedium {
            line,
            report,
            cookie: 0,
            fault: None,
            write_zeroes: false,
        }
    }

    /// Why it has ended, if it has.
    pub fn fault(&self) -> Option<MediumFault>
        ensures { result ≡ why_ended self.now }
    {
        self.fault
    }

    // Asks for whole blocks and reads the reply, up to the bytes of a read.
    fn ask(&mut self, command: Command, lba: u64, size: u32, bytes: &[u8]) -> Result<(), AskFault>
        requires whole { size % 512 ≡ 0 }
        requires inside { 512 * lba + size ≤ 512 * (L.Line.disk self.old.line).count }
        requires fits { FitsSizes (512 * lba) size (L.Line.sizes self.old.line) }
        requires bytes { command ≡ IsWrite → length bytes.now ≡ size }
        requires zeros { command ≡ IsWriteZeroes → (length bytes.now ≡ size) × AreZeros bytes.now }
        ensures may { MayDo command lba bytes.now
            (L.Line.disk self.old.line) (L.Line.kept self.old.line)
            (L.Line.disk self.new.line) (L.Line.kept self.new.line) }
        ensures done { OnOk result (L.Line.untold self.new.line ≡ L.Line.untold self.old.line
            → IsCommandDone command lba size bytes.now (L.Line.disk self.old.line)
            (L.Line.disk self.new.line) (L.Line.kept self.new.line)
            (L.Line.pending self.new.line)) }
        ensures sizes { L.Line.sizes self.new.line ≡ L.Line.sizes self.old.line }
        ensures untold { UntoldRises (L.Line.disk self.old.line).tells (L.Line.untold self.old.line)
            (L.Line.untold self.new.line) }
        // Once it has ended it asks nothing.
        ensures ended { IfSome self.old.fault (λ fault. (self.new ≡ self.old)
            × (result ≡ Err AskFault.Ended)) }
        // What ends it is kept.
        ensures kept { result ≡ Err AskFault.Ended → IsSome self.new.fault }
    {
        if self.fault.is_some() {
            return Err(AskFault::Ended);
        }
        self.cookie = self.cookie.wrapping_add(1);
        let request = Request {
            command,
            cookie: self.cookie,
            offset: 512 * lba,
            length: size,
        };
        match exchange(&mut self.line, &request, lba, bytes) {
            Err(lost) => Err(self.end(MediumFault::Lost(lost))),
            Ok(head) => match read_simple_reply(&head) {
                Err(magic) => Err(self.end(MediumFault::Reply(magic))),
                Ok(reply) => {
                    if reply.cookie != request.cookie {
                        Err(self.end(MediumFault::Cookie))
                    } else if reply.error == 0 {
                        Ok(())
                    } else {
                        Err(AskFault::Refused(reply.error))
                    }
                }
            },
        }
    }

    // Ends the medium, and tells why.
    fn end(&mut self, fault: MediumFault) -> AskFault
        ensures line { self.new.line ≡ self.old.line }
        ensures fault { self.new.fault ≡ Some fault }
        ensures ended { result ≡ AskFault.Ended }
    {
        self.fault = Some(fault);
        self.report.report(fault);
        AskFault::Ended
    }

    // Reads bytes that the server has sent.
    fn receive(&mut self, out: &mut [u8]) -> Result<(), AskFault>
        ensures read { OnOk result (L.Line.untold self.new.line ≡ L.Line.untold self.old.line
            → out.new ≡ take (length out.old) (L.Line.pending self.old.line)) }
        ensures pending { OnOk result (L.Line.untold self.new.line ≡ L.Line.untold self.old.line
            → L.Line.pending self.new.line ≡ drop (length out.old) (L.Line.pending self.old.line)) }
        ensures disk { L.Line.disk self.new.line ≡ L.Line.disk self.old.line }
        ensures kept { Within (L.Line.kept self.old.line) (L.Line.kept self.new.line) }
        ensures sizes { L.Line.sizes self.new.line ≡ L.Line.sizes self.old.line }
        ensures untold { UntoldRises (L.Line.disk self.old.line).tells (L.Line.untold self.old.line)
            (L.Line.untold self.new.line) }
    {
        match self.line.receive(out) {
            Ok(()) => Ok(()),
            Err(lost) => Err(self.end(MediumFault::Lost(lost))),
        }
    }

    // Passes over bytes that the server has sent.
    fn pass_over(&mut self, count: usize) -> Result<(), AskFault>
        requires few { count < 4096 }
        ensures pending { OnOk result (L.Line.untold self.new.line ≡ L.Line.untold self.old.line
            → L.Line.pending self.new.line ≡ drop count (L.Line.pending self.old.line)) }
        ensures disk { L.Line.disk self.new.line ≡ L.Line.disk self.old.line }
        ensures kept { Within (L.Line.kept self.old.line) (L.Line.kept self.new.line) }
        ensures sizes { L.Line.sizes self.new.line ≡ L.Line.sizes self.old.line }
        ensures untold { UntoldRises (L.Line.disk self.old.line).tells (L.Line.untold self.old.line)
            (L.Line.untold self.new.line) }
    {
        if count == 0 {
            return Ok(());
        }
        let mut bytes = [0; 4096];
        self.receive(&mut bytes[..count])
    }

    // Reads blocks by one request.
    fn read_run(&mut self, lba: u64, out: &mut [u8]) -> Result<(), AskFault>
        requires whole { length out.old % 512 ≡ 0 }
        requires inside { 512 * lba + length out.old ≤ 512 * (L.Line.disk self.old.line).count }
        requires short { length out.old ≤ (L.Line.sizes self.old.line).longest }
        requires wide { (L.Line.sizes self.old.line).wide ≡ true
            → 512 * (lba % 8) + length out.old ≤ (L.Line.sizes self.old.line).longest }
        ensures read { OnOk result (L.Line.untold self.new.line ≡ L.Line.untold self.old.line
            → out.new ≡ blocks_from (L.Line.disk self.old.line) lba (length out.old / 512)) }
        ensures disk { L.Line.disk self.new.line ≡ L.Line.disk self.old.line }
        ensures kept { Within (L.Line.kept self.old.line) (L.Line.kept self.new.line) }
        ensures sizes { L.Line.sizes self.new.line ≡ L.Line.sizes self.old.line }
        ensures untold { UntoldRises (L.Line.disk self.old.line).tells (L.Line.untold self.old.line)
            (L.Line.untold self.new.line) }
    {
        let count = self.line.blocks();
        let span = span_of(self.line.sizes(), count, lba, out.len() as u32);
        self.ask(Command::Read, span.first, span.size, &[])?;
        self.pass_over(span.before)?;
        self.receive(out)?;
        self.pass_over(span.behind)
    }

    // Writes blocks by one request, of a server whose requests aren't wide.
    fn write_run(&mut self, lba: u64, bytes: &[u8]) -> Result<(), AskFault>
        requires whole { length bytes.now % 512 ≡ 0 }
        requires inside { 512 * lba + length bytes.now ≤ 512 * (L.Line.disk self.old.line).count }
        requires short { length bytes.now ≤ (L.Line.sizes self.old.line).longest }
        requires narrow { (L.Line.sizes self.old.line).wide ≡ false }
        ensures may { MayWrite lba bytes.now
            (L.Line.disk self.old.line) (L.Line.kept self.old.line)
            (L.Line.disk self.new.line) (L.Line.kept self.new.line) }
        ensures done { OnOk result (L.Line.untold self.new.line ≡ L.Line.untold self.old.line
            → L.Line.disk self.new.line ≡ disk_written lba bytes.now (L.Line.disk self.old.line)) }
        ensures sizes { L.Line.sizes self.new.line ≡ L.Line.sizes self.old.line }
        ensures untold { UntoldRises (L.Line.disk self.old.line).tells (L.Line.untold self.old.line)
            (L.Line.untold self.new.line) }
    {
        let size = bytes.len() as u32;
        if self.write_zeroes && are_zeros(bytes) {
            return self.ask(Command::WriteZeroes, lba, size, bytes);
        }
        self.ask(Command::Write, lba, size, bytes)
    }
}

impl<L: Line, R: Report + Drop> NbdMedium<L, R> {
    ghost use Rattle.nbd_client.specs.Ended.{medium_line};

    /// The same medium, whose server has WRITE_ZEROES: where all bytes of a write are 00 it is asked for that, so
    /// that it can give room back.
    pub fn with_write_zeroes(self) -> NbdMedium<L, R>
        ensures line { medium_line result ≡ medium_line self }
    {
        NbdMedium {
            line: self.line,
            report: self.report,
            cookie: self.cookie,
            fault: self.fault,
            write_zeroes: true,
        }
    }

    /// The connection, as the medium leaves it.
    pub fn into_line(self) -> L
        ensures { result ≡ medium_line self }
    {
        self.line
    }
}

impl<L: Line, R: Report> Medium for NbdMedium<L, R> {
    ghost seen = { λ s. L.Line.disk s.line };

    ghost kept = { λ s. L.Line.kept s.line };

    ghost usable = { λ _. true };

    ghost untold = { λ s. L.Line.untold s.line };

    ghost stays = { λ s n. L.Line.stays s.line n };

    fn blocks(&self) -> u64 {
        self.line.blocks()
    }

    fn read_at(&mut self, lba: u64, out: &mut [u8]) -> Result<(), StoreFault> {
        let sizes = self.line.sizes();
        let blocks = out.len() / 512;
        let mut done = 0;
        while done < blocks {
            let n = lba + done as u64;
            let end = done + run_length(sizes, n, blocks - done);
            self.read_run(n, &mut out[512 * done..512 * end])?;
            done = end;
        }
        Ok(())
    }

    fn write_at(&mut self, lba: u64, bytes: &[u8]) -> Result<(), StoreFault> {
        let sizes = self.line.sizes();
        if sizes.wide {
            // A write would have to read first.
            return Err(StoreFault::Device);
        }
        let blocks = bytes.len() / 512;
        let mut done = 0;
        while done < blocks {
            let n = lba + done as u64;
            let end = done + run_length(sizes, n, blocks - done);
            self.write_run(n, &bytes[512 * done..512 * end])?;
            done = end;
        }
        Ok(())
    }

    fn sync(&mut self) -> Result<(), StoreFault> {
        match self.ask(Command::Flush, 0, 0, &[]) {
            Ok(()) => Ok(()),
            Err(AskFault::Ended) => Err(StoreFault::Device),
            Err(AskFault::Refused(error)) => {
                self.end(MediumFault::NotSynced(error));
                Err(StoreFault::Device)
            }
        }
    }
}

/// Whether bytes are all 00. None behind the first that isn't is looked at.
pub(crate) fn are_zeros(bytes: &[u8]) -> bool
    ensures { IsTrue result ↔ AreZeros bytes.now }
{
    bytes.iter().all(|byte| *byte == 0)
}
