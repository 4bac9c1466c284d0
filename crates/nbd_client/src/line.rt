//! A connection to an NBD server.

ghost use Rattle.std.specs.Prelude.{◌≡◌, ◌≤◌, ℕ, List, length, take, drop, OnOk};
ghost use Rattle.scsi_disk.specs.Disk.{Disk, IsDisk, most_blocks};
ghost use Rattle.scsi_disk.specs.Lasting.{Within};
ghost use Rattle.nbd_wire.specs.declared.request.Request.{Request as AnyRequest};
ghost use Rattle.nbd_client.specs.Serving.{ServerReply, AreRequestBytes, MayDo, UntoldRises};
ghost use Rattle.nbd_client.specs.Sizes.{AreSizes};
ghost use Rattle.nbd_client.specs.declared.sizes.RequestSizes.{RequestSizes as AnySizes};

use crate::fault::Lost;
use crate::sizes::RequestSizes;

/// A connection behind its handshake, to an export of whole blocks of 512 bytes.
///
/// Contracts see it as the server's blocks, and as the bytes that the server has sent and nobody
/// has read. After an error nothing more is to be asked.
pub trait Line {
    /// What the server gives.
    ghost disk: { Self → Disk };

    /// What each block may be after a crash of the server at this moment.
    ghost kept: { Self → ℕ → List ℕ → Type 0 };

    /// What was sent and not read.
    ghost pending: { Self → List ℕ };

    /// How often the server, or what lies between, did something else than it said.
    ghost untold: { Self → ℕ };

    /// What requests the server takes.
    ghost sizes: { Self → AnySizes };

    /// How many blocks the export has.
    fn blocks(&self) -> u64
        ensures { result ≡ (disk self.now).count };

    /// What requests the server takes: always the same.
    fn sizes(&self) -> RequestSizes
        ensures { result ≡ sizes self.now };

    /// Sends the 28 bytes of a request, and those of a write behind them. The bytes that WRITE_ZEROES writes
    /// are given, too, and none of them is sent. Nothing is known of a request that the server doesn't take.
    fn send(&mut self, head: &[u8], bytes: &[u8]) -> Result<(), Lost>
        ensures may { (r : AnyRequest) (lba : ℕ)
            → AreRequestBytes r lba (disk self.old).count (sizes self.old) head.now bytes.now
            → MayDo r.command lba bytes.now (disk self.old) (kept self.old)
            (disk self.new) (kept self.new) }
        ensures answers { OnOk result (untold self.new ≡ untold self.old → (r : AnyRequest) (lba : ℕ)
            → AreRequestBytes r lba (disk self.old).count (sizes self.old) head.now bytes.now
            → ServerReply r lba bytes.now (disk self.old) (disk self.new) (kept self.new)
            (pending self.new)) }
        ensures sizes { sizes self.new ≡ sizes self.old }
        ensures untold { UntoldRises (disk self.old).tells (untold self.old) (untold self.new) };

    /// Reads as many bytes as `out` has room for.
    fn receive(&mut self, out: &mut [u8]) -> Result<(), Lost>
        ensures read { OnOk result (untold self.new ≡ untold self.old
            → out.new ≡ take (length out.old) (pending self.old)) }
        ensures pending { OnOk result (untold self.new ≡ untold self.old
            → pending self.new ≡ drop (length out.old) (pending self.old)) }
        ensures disk { disk self.new ≡ disk self.old }
        ensures kept { Within (kept self.old) (kept self.new) }
        ensures sizes { sizes self.new ≡ sizes self.old }
        ensures untold { UntoldRises (disk self.old).tells (untold self.old) (untold self.new) };

    /// There is a block, and each has 512 bytes.
    ghost sound: { (s : Self) → IsDisk (disk s) };

    /// There are at most 2^40.
    ghost few: { (s : Self) → (disk s).count ≤ most_blocks };

    /// The longest request is one that has blocks, and the export has no part of one.
    ghost fit: { (s : Self) → AreSizes (sizes s) (disk s).count };

    /// A server that ends leaves what it was given, so that is one of the outcomes.
    ghost stays: { (s : Self) (n : ℕ) → kept s n ((disk s).block n) };
}
