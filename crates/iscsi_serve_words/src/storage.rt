//! What a served disk is kept in: memory, an image, or an export of an NBD server.

ghost use Rattle.std.specs.Prelude.{◌≡◌, IfOk, IfErr};
ghost use Rattle.scsi_file.specs.FileStore.{store_medium};
ghost use Rattle.scsi_file.specs.HostFile.{file_blocks};
ghost use Rattle.iscsi_serve_words.specs.Storage.{CanBeOpened, HasAsked, HasAskedBlocks, IsOther, IsOtherImage, asked_by};

use crate::nbd_storage::NbdExport;
use scsi_disk::BlockStore;
use scsi_file::{FileStore, HostFile, OpenFault};
use std::fs;
use std::rt::Files;
use thiserror::Error;

/// Where the image of a disk comes from.
#[derive(Clone, Copy, Debug)]
pub enum Origin {
    /// It is there, and has `n` blocks, if that is said.
    Found { blocks: Option<u64> },
    /// It is made, of `n` blocks of 00, 1 to 2^40.
    New { blocks: u64 },
}

impl Origin {
    ghost use Rattle.iscsi_serve_words.specs.Storage.{asked_by};

    // How many blocks are asked for, if a number is.
    fn blocks(&self) -> Option<u64>
        ensures { result ≡ asked_by self.now }
    {
        match self {
            Origin::Found { blocks } => *blocks,
            Origin::New { blocks } => Some(*blocks),
        }
    }
}

/// An image of a disk: a regular file or a block device.
#[derive(Clone, Copy, Debug)]
pub struct Image<'a> {
    /// Its name.
    pub path: &'a str,
    /// Where it comes from.
    pub origin: Origin,
}

/// What the disk of a service is kept in.
#[derive(Clone, Copy, Debug)]
pub enum Storage<'a> {
    /// Memory, with `n` blocks of 00, 1 to 2^40.
    Memory { blocks: u64 },
    /// An image. What was written lasts.
    Image(Image<'a>),
    /// An export of an NBD server. What was written lasts.
    Nbd(NbdExport<'a>),
}

/// Why an image is not served.
#[derive(Clone, Copy, Debug, PartialEq, Eq, Error)]
pub enum ImageFault {
    /// It is not opened, or not made.
    #[error("{0}")]
    Open(OpenFault),
    /// It has another number of blocks than was asked for.
    #[error("has {has} blocks, not {asked}")]
    Size { has: u64, asked: u64 },
}

impl ImageFault {
    /// The exit status of the fault: 4, as where a file cannot be read.
    pub fn status(&self) -> u8
        ensures { result ≡ 4 }
    {
        4
    }
}

impl From<OpenFault> for ImageFault {
    ghost use Rattle.std.specs.Prelude.{◌≡◌};
    ghost use Rattle.iscsi_serve_words.specs.declared.storage.ImageFault.TheVariants as image;

    ghost from_gives = { λ fault e. e ≡ image.Open fault };

    fn from(fault: OpenFault) -> ImageFault {
        ImageFault::Open(fault)
    }
}

impl Image<'_> {
    /// The image as a store, for this process alone. All that was written to it lasts then. It has
    /// as many blocks as were asked for. After an error there is no image that was to be made, unless it was there
    /// already.
    pub fn open(&self, rt: &HostRuntime) -> Result<FileStore<HostFile>, ImageFault>
        requires origin { CanBeOpened self.now.origin }
        ensures blocks { IfOk result (λ store.
            HasAsked self.now.origin (file_blocks (store_medium store))) }
        ensures other { IfErr result (IsOther self.now.origin) }
    {
        match self.origin {
            Origin::New { blocks } => {
                let store = settled(HostFile::create(rt, self.path, blocks)?);
                if store.is_err() {
                    // What was begun would be in the way of the next try.
                    let _ = fs::remove_file(rt, self.path);
                }
                store
            }
            Origin::Found { blocks } => sized(settled(HostFile::open(rt, self.path)?)?, blocks),
        }
    }

    /// The image as a store, for reading alone, which other processes may have so at the same time. It is there, and
    /// has as many blocks as were asked for. A write of it fails.
    pub fn open_read_only(&self, rt: &HostRuntime) -> Result<FileStore<HostFile>, ImageFault>
        ensures blocks { IfOk result (λ store.
            HasAsked self.now.origin (file_blocks (store_medium store))) }
        ensures other { IfErr result (IsOtherImage (asked_by self.now.origin)) }
    {
        let store = settled(HostFile::open_read_only(rt, self.path)?)?;
        sized(store, self.origin.blocks())
    }
}

// A store on a file, all of which lasts.
fn settled(file: HostFile) -> Result<FileStore<HostFile>, ImageFault>
    ensures blocks { IfOk result (λ store. file_blocks (store_medium store) ≡ file_blocks file) }
    ensures fault { IfErr result (λ fault. fault ≡ ImageFault.Open OpenFault.NotSynced) }
{
    match FileStore::new(file) {
        Ok(store) => Ok(store),
        Err(_) => Err(ImageFault::Open(OpenFault::NotSynced)),
    }
}

// The store, if it has as many blocks as were asked for.
fn sized(store: FileStore<HostFile>, asked: Option<u64>) -> Result<FileStore<HostFile>, ImageFault>
    ensures blocks { IfOk result (λ store. HasAskedBlocks asked
        (file_blocks (store_medium store))) }
    ensures other { IfErr result (IsOtherImage asked) }
{
    if let Some(asked) = asked {
        let has = store.blocks();
        if has != asked {
            return Err(ImageFault::Size { has, asked });
        }
    }
    Ok(store)
}
