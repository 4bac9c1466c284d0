//! An image that is open, to be looked at again.

ghost use Rattle.std.specs.Prelude.{◌<◌, ◌≤◌, IfSome};
ghost use Rattle.scsi_disk.specs.Disk.{most_blocks};

use crate::host_file::{HostFile, blocks_in, measure};
use std::fs::File;

/// The open file of an image, to see whether it has grown. It shares the lock of the medium that it comes from.
#[derive(Drop)]
pub struct OpenImage {
    file: File,
}

impl OpenImage {
    /// The open file of a medium; none if the system has no handle for it.
    pub fn of(medium: &HostFile) -> Option<OpenImage> {
        let file = medium.file_again()?;
        Some(OpenImage { file })
    }

    /// How many blocks it has by now, 1 to 2^40; none if that can't be told, or if it would be refused at this size.
    pub fn blocks(&self) -> Option<u64>
        ensures some { IfSome result (λ blocks. 0 < blocks) }
        ensures few { IfSome result (λ blocks. blocks ≤ most_blocks) }
    {
        let bytes = measure(&self.file).ok()?;
        blocks_in(bytes).ok()
    }

    /// A new medium over the same open file, with the blocks that it has by now; none as for `blocks`, or if the
    /// system has no handle for it.
    pub fn medium(&self) -> Option<HostFile> {
        let bytes = measure(&self.file).ok()?;
        let file = self.file.try_clone().ok()?;
        HostFile::of(file, bytes).ok()
    }
}
