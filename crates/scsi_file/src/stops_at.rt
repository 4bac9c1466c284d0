//! A medium that stops for good, for trying out what that leaves.

ghost use Rattle.std.specs.Prelude.{◌≡◌};

use crate::medium::Medium;
use scsi_disk::StoreFault;

/// A medium on another one, `n` calls of which are passed on; each later one fails with
/// `Device` and changes nothing. It is as where a process, or the machine, stops at that call.
#[derive(Drop)]
pub struct StopsAt<M: Medium> {
    medium: M,
    left: u64,
}

impl<M: Medium> StopsAt<M> {
    ghost use Rattle.scsi_file.specs.StopsAt.{stopped_of};

    /// The medium, of which `n` calls work.
    pub fn new(medium: M, calls: u64) -> StopsAt<M>
        ensures { stopped_of result ≡ medium }
    {
        StopsAt {
            medium,
            left: calls,
        }
    }

    /// What it stood on, as it was left.
    pub fn into_medium(self) -> M
        ensures { result ≡ stopped_of self }
    {
        self.medium
    }

    // Counts a call, and says whether it works.
    fn works(&mut self) -> bool
        ensures { stopped_of self.new ≡ stopped_of self.old }
    {
        if self.left == 0 {
            return false;
        }
        self.left -= 1;
        true
    }
}

impl<M: Medium> Medium for StopsAt<M> {
    ghost seen = { λ s. M.Medium.seen s.medium };

    ghost kept = { λ s. M.Medium.kept s.medium };

    ghost usable = { λ s. M.Medium.usable s.medium };

    ghost untold = { λ s. M.Medium.untold s.medium };

    ghost stays = { λ s n. M.Medium.stays s.medium n };

    fn blocks(&self) -> u64 {
        self.medium.blocks()
    }

    fn read_at(&mut self, lba: u64, out: &mut [u8]) -> Result<(), StoreFault> {
        if self.works() {
            self.medium.read_at(lba, out)
        } else {
            Err(StoreFault::Device)
        }
    }

    fn write_at(&mut self, lba: u64, bytes: &[u8]) -> Result<(), StoreFault> {
        if self.works() {
            self.medium.write_at(lba, bytes)
        } else {
            Err(StoreFault::Device)
        }
    }

    fn sync(&mut self) -> Result<(), StoreFault> {
        if self.works() {
            self.medium.sync()
        } else {
            Err(StoreFault::Device)
        }
    }
}
