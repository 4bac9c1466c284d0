//! A file of the operating system as a medium. One file, since it is one type with its calls.
//!
//! No contract says what a file keeps. So each call of a file counts as one that may have done
//! something else than it said, and a crash may leave anything. What is proved of a store on a file
//! is that the store asks the right things in the right order, and nothing more after a sync that
//! failed. What is left to read is that each call below asks the system for what its name says.

ghost use Rattle.std.specs.Prelude.{◌≡◌, true, ◌<◌, ◌≤◌, ◌+◌, ◌*◌, length, IfErr, IfOk, OnErr, OnOk};
ghost use Rattle.scsi_disk.specs.Disk.{most_blocks};

use crate::medium::Medium;
use scsi_disk::{MOST_BLOCKS, StoreFault};
use std::fs::{self, File, OpenOptions, TryLockError};
use std::io::{self, ErrorKind, Seek, SeekFrom};
use std::os::fd::AsRawFd;
use std::os::unix::fs::{FileExt, FileTypeExt, OpenOptionsExt};
use std::rt::Files;
use thiserror::Error;

/// The permissions of an image that is made: its owner may read and write it, nobody else.
const OWNER_ALONE: u32 = 0o600;

/// How many bytes of zeros are written, or passed over, at a time.
const PIECE: usize = 65_536;

/// Asks `lseek` where the next data of a file are (Linux; POSIX.1-2024).
const SEEK_DATA: i32 = 3;

/// Why an image is not served.
#[derive(Clone, Copy, Debug, PartialEq, Eq, Error)]
pub enum OpenFault {
    /// It cannot be opened, locked or measured.
    #[error("cannot be opened")]
    NotOpened,
    /// It may be read alone.
    #[error("may not be written")]
    ReadOnly,
    /// It is neither a regular file nor a block device.
    #[error("is no disk image")]
    NoImage,
    /// Another process has it.
    #[error("is in use")]
    InUse,
    /// It has no byte.
    #[error("is empty")]
    Empty,
    /// It has no whole number of blocks of 512 bytes.
    #[error("is not whole blocks")]
    NotWhole,
    /// It has more than 2^40 blocks.
    #[error("is too large")]
    TooLarge,
    /// It is there already.
    #[error("is there already")]
    Exists,
    /// It cannot be made at its size.
    #[error("cannot be made")]
    NotMade,
    /// What an earlier process left in it cannot be made to last.
    #[error("cannot be synced")]
    NotSynced,
}

/// An image: a regular file or a block device, each 512 bytes of which are a block.
#[derive(Drop)]
pub struct HostFile {
    file: File,
    blocks: u64,
    calls: u64,
    ghost some: { 0 < blocks },
    ghost few: { blocks ≤ most_blocks },
}

impl HostFile {
    ghost use Rattle.scsi_file.specs.HostFile.{file_blocks};

    /// Opens an image that is there, cuts nothing, and takes it for this process alone. What an
    /// earlier process left is synced, and the system's copies are dropped, since after a sync
    /// that failed they may differ from the disk. A pipe or a device of characters is refused before
    /// it is opened, since that alone may have an effect.
    pub fn open(rt: &HostRuntime, path: &str) -> Result<HostFile, OpenFault> {
        if is_stream(rt, path) {
            return Err(OpenFault::NoImage);
        }
        let mut how = File::options();
        let file = match how.read(true).write(true).open(rt, path) {
            Ok(file) => own(file)?,
            Err(error) => return Err(not_opened(error)),
        };
        let bytes = measure(&file)?;
        settle(&file)?;
        HostFile::of(file, bytes)
    }

    /// Opens an image that is there for reading alone. Several processes may have it so at a time, and
    /// none of them while another may write it. Nothing is synced: what an earlier process left may be
    /// lost if the machine stops. A pipe or a device of characters is refused before it is opened.
    pub fn open_read_only(rt: &HostRuntime, path: &str) -> Result<HostFile, OpenFault> {
        if is_stream(rt, path) {
            return Err(OpenFault::NoImage);
        }
        let file = match File::open(rt, path) {
            Ok(file) => share(file)?,
            Err(error) if error.kind() == ErrorKind::IsADirectory => return Err(OpenFault::NoImage),
            Err(_) => return Err(OpenFault::NotOpened),
        };
        let bytes = measure(&file)?;
        HostFile::of(file, bytes)
    }

    /// Makes an image of `n` blocks of 00, from 1 to 2^40, at its full size, where there is no
    /// file; it and its name last. Its owner alone may read and write it. After an error there is no
    /// file, unless it was there already.
    pub fn create(rt: &HostRuntime, path: &str, blocks: u64) -> Result<HostFile, OpenFault>
        requires some { 0 < blocks }
        requires few { blocks ≤ most_blocks }
        ensures size { IfOk result (λ file. file_blocks file ≡ blocks) }
    {
        let mut how = File::options();
        how.read(true)
            .write(true)
            .create_new(true)
            .mode(OWNER_ALONE);
        let file = match how.open(rt, path) {
            Ok(file) => file,
            Err(error) if error.kind() == ErrorKind::AlreadyExists => return Err(OpenFault::Exists),
            Err(error) => return Err(not_opened(error)),
        };
        let made = HostFile::make(rt, file, path, blocks);
        if made.is_err() {
            // What was begun would be in the way of the next try.
            let _ = fs::remove_file(rt, path);
        }
        made
    }

    // Makes an image of a new file.
    fn make(rt: &HostRuntime, file: File, path: &str, blocks: u64) -> Result<HostFile, OpenFault>
        requires some { 0 < blocks }
        requires few { blocks ≤ most_blocks }
        ensures size { IfOk result (λ file. file_blocks file ≡ blocks) }
    {
        let file = own(file)?;
        if file.set_len(512 * blocks).is_err() {
            return Err(OpenFault::NotMade);
        }
        settle(&file)?;
        match File::open(rt, folder_of(path)) {
            Ok(folder) if folder.sync_all().is_ok() => HostFile::of(file, 512 * blocks),
            _ => Err(OpenFault::NotSynced),
        }
    }

    /// An image of `n` bytes.
    pub(crate) fn of(file: File, bytes: u64) -> Result<HostFile, OpenFault>
        ensures size { IfOk result (λ file. 512 * file_blocks file ≡ bytes) }
    {
        let blocks = blocks_in(bytes)?;
        Ok(HostFile {
            file,
            blocks,
            calls: 0,
        })
    }

    /// Another handle of its file; none if the system has none.
    pub(crate) fn file_again(&self) -> Option<File> {
        self.file.try_clone().ok()
    }

    // Whether the file ends before the image does, since somebody cut it. A write behind its end would
    // be taken, and what was there before it would read as 00.
    fn is_cut(&self) -> bool {
        match self.file.metadata() {
            Ok(about) => about.is_file() && about.len() < 512 * self.blocks,
            Err(_) => true,
        }
    }

    // Counts a call; after 2^64 of them there are none.
    fn count(&mut self) -> Result<(), StoreFault>
        ensures counted { OnOk result (self.old.calls < self.new.calls) }
        ensures kept { self.old.calls ≤ self.new.calls }
        ensures blocks { self.new.blocks ≡ self.old.blocks }
        ensures same { OnErr result (self.new.calls ≡ self.old.calls) }
        ensures err { IfErr result (λ fault. fault ≡ StoreFault.NoMemory) }
    {
        if self.calls == u64::MAX {
            return Err(StoreFault::NoMemory);
        }
        self.calls += 1;
        Ok(())
    }
}

// Takes a file for this process alone.
fn own(file: File) -> Result<File, OpenFault> {
    match file.try_lock() {
        Ok(()) => Ok(file),
        Err(TryLockError::WouldBlock) => Err(OpenFault::InUse),
        Err(TryLockError::Error(_)) => Err(OpenFault::NotOpened),
    }
}

// Takes a file together with others that do so.
fn share(file: File) -> Result<File, OpenFault> {
    match file.try_lock_shared() {
        Ok(()) => Ok(file),
        Err(TryLockError::WouldBlock) => Err(OpenFault::InUse),
        Err(TryLockError::Error(_)) => Err(OpenFault::NotOpened),
    }
}

// Whether there is a pipe or a device of characters of this name.
fn is_stream(rt: &HostRuntime, path: &str) -> bool {
    match fs::metadata(rt, path) {
        Ok(about) => about.file_type().is_fifo() || about.file_type().is_char_device(),
        Err(_) => false,
    }
}

// How many blocks an image of `n` bytes has.
pub(crate) fn blocks_in(bytes: u64) -> Result<u64, OpenFault>
    ensures size { IfOk result (λ blocks. 512 * blocks ≡ bytes) }
    ensures some { IfOk result (λ blocks. 0 < blocks) }
    ensures few { IfOk result (λ blocks. blocks ≤ most_blocks) }
{
    if bytes == 0 {
        return Err(OpenFault::Empty);
    }
    if bytes % 512 != 0 {
        return Err(OpenFault::NotWhole);
    }
    let blocks = bytes / 512;
    if blocks > MOST_BLOCKS {
        return Err(OpenFault::TooLarge);
    }
    Ok(blocks)
}

// How many bytes an image has. The length that the system tells of a block device is 0, so there
// the end is looked for.
pub(crate) fn measure(mut file: &File) -> Result<u64, OpenFault> {
    let Ok(about) = file.metadata() else {
        return Err(OpenFault::NotOpened);
    };
    if about.is_file() {
        return Ok(about.len());
    }
    if !about.file_type().is_block_device() {
        return Err(OpenFault::NoImage);
    }
    match file.seek(SeekFrom::End(0)) {
        Ok(end) => Ok(end),
        Err(_) => Err(OpenFault::NotOpened),
    }
}

// Makes all that was written to a file last, and drops the system's copies of it.
fn settle(file: &File) -> Result<(), OpenFault> {
    if file.sync_all().is_err()
        || libc::posix_fadvise(file.as_raw_fd(), 0, 0, libc::POSIX_FADV_DONTNEED) != 0
    {
        return Err(OpenFault::NotSynced);
    }
    Ok(())
}

// Whether bytes are all 00. None behind the first that isn't is looked at.
fn are_zeros(bytes: &[u8]) -> bool {
    bytes.iter().all(|byte| *byte == 0)
}

// Writes zeros from a byte of a file on, but passes over each piece that is blank. So a hole stays one.
fn write_zeros(file: &File, start: u64, zeros: &[u8]) -> io::Result<()>
    requires inside { start + length zeros.now ≤ 512 * most_blocks }
{
    for n in 0..zeros.len().div_ceil(PIECE) {
        let from = PIECE * n;
        let piece = &zeros[from..zeros.len().min(from + PIECE)];
        if !is_blank(file, start + from as u64, piece) {
            file.write_all_at(piece, start + from as u64)?;
        }
    }
    Ok(())
}

// Whether a file has these zeros from a byte on. That the system knows of data there is a hint, which saves
// the reading: then they are written. What says yes is what is read.
fn is_blank(file: &File, at: u64, zeros: &[u8]) -> bool
    requires inside { at + length zeros.now ≤ 512 * most_blocks }
    requires short { length zeros.now ≤ 65536 }
{
    let data = libc::lseek(file.as_raw_fd(), at as i64, SEEK_DATA);
    if at as i64 <= data && data < (at + zeros.len() as u64) as i64 {
        return false;
    }
    let mut room = [0; PIECE];
    let there = &mut room[..zeros.len()];
    file.read_exact_at(there, at).is_ok() && *there == *zeros
}

// The folder that a file is in.
fn folder_of(path: &str) -> &str {
    match path.rsplit_once('/') {
        None => ".",
        Some(("", _)) => "/",
        Some((folder, _)) => folder,
    }
}

// Why a file was not opened.
fn not_opened(error: io::Error) -> OpenFault {
    match error.kind() {
        ErrorKind::PermissionDenied | ErrorKind::ReadOnlyFilesystem => OpenFault::ReadOnly,
        ErrorKind::IsADirectory => OpenFault::NoImage,
        _ => OpenFault::NotOpened,
    }
}

// What the system returned.
fn told(answer: io::Result<()>) -> Result<(), StoreFault>
    ensures { IfErr result (λ fault. fault ≡ StoreFault.Device) }
{
    match answer {
        Ok(()) => Ok(()),
        Err(_) => Err(StoreFault::Device),
    }
}

impl Medium for HostFile {
    ghost use Rattle.scsi_file.specs.HostFile.{unknown};

    ghost seen = { λ s. unknown s.blocks };

    ghost kept = { λ s n c. Unit {0} };

    ghost usable = { λ _. true };

    ghost untold = { λ s. s.calls };

    ghost stays = { λ s n. tt };

    fn blocks(&self) -> u64 {
        self.blocks
    }

    fn read_at(&mut self, lba: u64, out: &mut [u8]) -> Result<(), StoreFault> {
        self.count()?;
        told(self.file.read_exact_at(out, 512 * lba))
    }

    fn write_at(&mut self, lba: u64, bytes: &[u8]) -> Result<(), StoreFault> {
        self.count()?;
        if self.is_cut() {
            return Err(StoreFault::Device);
        }
        if are_zeros(bytes) {
            return told(write_zeros(&self.file, 512 * lba, bytes));
        }
        told(self.file.write_all_at(bytes, 512 * lba))
    }

    fn sync(&mut self) -> Result<(), StoreFault> {
        self.count()?;
        told(self.file.sync_data())
    }
}
