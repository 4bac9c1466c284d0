//! What the words of `serve` say of the disk.

ghost use Rattle.std.specs.Prelude.{◌≡◌, ◌<◌, ◌≤◌, IfOk, IfSome, None, codes};
ghost use Rattle.clap.specs.Words.{first_of, one_of};
ghost use Rattle.scsi_disk.specs.Disk.{most_blocks};
ghost use Rattle.scsi_unit.specs.LogicalUnit.{IsSerial};
ghost use Rattle.iscsi_options.specs.Options.{IsMemory};
ghost use Rattle.iscsi_serve_words.specs.Said.{IsFlag, SaysStorage, TellsOf, rows_in};
ghost use Rattle.iscsi_serve_words.specs.Storage.{IsStorage};

use crate::command_line::LineFault;
use crate::disk_size::{SizeFault, said_blocks};
use crate::nbd_storage::export_of;
use crate::said::{flag_of, value_of};
use crate::serve_options::serve_row;
use crate::storage::{Image, Origin, Storage};
use clap::ArgMatches;
use iscsi_options::{LEAST_MEMORY, MOST_MEMORY, UnitOptions, number_of};
use scsi_unit::is_serial;
use std::alloc::Global;

const BAD_SERIAL: &str =
    "is no serial number: '--serial <S>' takes 1 to 16 bytes, each from '!' to '~'";

const CACHE_READ_ONLY: &str =
    "'--write-back' cannot be used with '--read-only': nothing is written";

const CACHE_OF_MEMORY: &str =
    "'--write-back' cannot be used with a disk in memory: it needs '--file <F>' or '--nbd <SERVER>'";

const BAD_MEMORY: &str =
    "is no number of bytes: '--memory <BYTES>' takes a number from 32768 to 562949953421312";

const CREATED_READ_ONLY: &str =
    "'--read-only' cannot be used with '--create': nobody could write what is made";

const MEMORY_OF_IMAGE: &str = "'--memory <BYTES>' cannot be used with '--file <F>'";

const BAD_EXPORT: &str =
    "is no export: '--nbd <SERVER>' takes HOST:PORT/EXPORT, such as 127.0.0.1:10809/disk, or an NBD URL; \
    without :PORT it is port 10809, without /EXPORT the server's default export";

const EXPORT_OF_IMAGE: &str = "'--nbd <SERVER>' cannot be used with '--file <F>'";

const MEMORY_OF_EXPORT: &str = "'--memory <BYTES>' cannot be used with '--nbd <SERVER>'";

// Whether each write is refused. An image is not made to be read alone.
pub(crate) fn read_only_of(alloc: Global, asked: &ArgMatches<'_>) -> Result<bool, LineFault>
    ensures says { IfOk result (IsFlag (one_of (codes "read-only") (rows_in asked.now))) }
{
    let read_only = flag_of(asked, "read-only");
    if read_only && asked.get_flag("create") {
        return Err(serve_row().refusal(alloc, CREATED_READ_ONLY));
    }
    Ok(read_only)
}

// What the disk is kept in: the export or the image that is named, or memory.
pub(crate) fn storage_of<'a>(
    alloc: Global,
    asked: &ArgMatches<'a>,
) -> Result<Storage<'a>, LineFault>
    ensures disk { IfOk result IsStorage }
    ensures says { IfOk result (SaysStorage (rows_in asked.now)) }
{
    let said = match said_blocks(asked) {
        Ok(said) => said,
        Err(fault) => return Err(serve_row().bad_size(alloc, fault)),
    };
    if let Some(word) = asked.get_str("nbd") {
        return exported(alloc, asked, word, said);
    }
    match (value_of(asked, "file"), flag_of(asked, "create"), said) {
        (None, _, Some(blocks)) => Ok(Storage::Memory { blocks }),
        (Some(path), true, Some(blocks)) => Ok(Storage::Image(Image {
            path,
            origin: Origin::New { blocks },
        })),
        (Some(path), false, blocks) => Ok(Storage::Image(Image {
            path,
            origin: Origin::Found { blocks },
        })),
        (_, _, None) => Err(serve_row().bad_size(alloc, SizeFault::Neither)),
    }
}

// The export that is named, which is no image too.
fn exported<'a>(
    alloc: Global,
    asked: &ArgMatches<'a>,
    word: &'a str,
    blocks: Option<u64>,
) -> Result<Storage<'a>, LineFault>
    requires range { IfSome blocks (λ n. (0 < n) × (n ≤ most_blocks)) }
    ensures disk { IfOk result IsStorage }
    ensures says { IfOk result (SaysStorage (rows_in asked.now)) }
{
    if value_of(asked, "file").is_some() {
        return Err(serve_row().refusal(alloc, EXPORT_OF_IMAGE));
    }
    match export_of(word, blocks) {
        Some(export) => Ok(Storage::Nbd(export)),
        None => Err(serve_row().bad_value(alloc, word, BAD_EXPORT)),
    }
}

// The serial number of the disk, if it is said.
pub(crate) fn serial_of<'a>(
    alloc: Global,
    asked: &ArgMatches<'a>,
) -> Result<Option<&'a [u8]>, LineFault>
    ensures serial { IfOk result (λ serial. IfSome serial (λ bytes. IsSerial bytes.now)) }
{
    let Some(serial) = asked.get_str("serial") else {
        return Ok(None);
    };
    if !is_serial(serial.as_bytes()) {
        return Err(serve_row().bad_value(alloc, serial, BAD_SERIAL));
    }
    Ok(Some(serial.as_bytes()))
}

// What the disk tells of itself; none with the bare profile. A disk in memory is thin.
pub(crate) fn unit_of(
    alloc: Global,
    asked: &ArgMatches<'_>,
) -> Result<Option<UnitOptions>, LineFault>
    ensures says { IfOk result (TellsOf (one_of (codes "read-only") (rows_in asked.now))) }
{
    if asked.get_flag("plain") {
        return Ok(None);
    }
    Ok(Some(UnitOptions {
        write_protected: flag_of(asked, "read-only"),
        thin: asked.get_flag("thin") || !is_kept_elsewhere(asked),
        write_back: write_back_of(alloc, asked)?,
    }))
}

// Whether the disk is kept in an image or an export.
fn is_kept_elsewhere(asked: &ArgMatches<'_>) -> bool {
    asked.get_str("file").is_some() || asked.get_str("nbd").is_some()
}

// Whether the disk has a write cache. It has none where nothing is written, or where nothing outlives
// the program.
fn write_back_of(alloc: Global, asked: &ArgMatches<'_>) -> Result<bool, LineFault> {
    if !asked.get_flag("write-back") {
        return Ok(false);
    }
    if asked.get_flag("read-only") {
        return Err(serve_row().refusal(alloc, CACHE_READ_ONLY));
    }
    if !is_kept_elsewhere(asked) {
        return Err(serve_row().refusal(alloc, CACHE_OF_MEMORY));
    }
    Ok(true)
}

// How many bytes of memory the blocks of a disk take at most, if that is said, and if memory is what it is
// kept in.
pub(crate) fn memory_of(alloc: Global, asked: &ArgMatches<'_>) -> Result<Option<u64>, LineFault>
    ensures memory { IfOk result (λ said. IfSome said IsMemory) }
{
    let Some(digits) = asked.get_str("memory") else {
        return Ok(None);
    };
    if asked.get_str("file").is_some() {
        return Err(serve_row().refusal(alloc, MEMORY_OF_IMAGE));
    }
    if asked.get_str("nbd").is_some() {
        return Err(serve_row().refusal(alloc, MEMORY_OF_EXPORT));
    }
    match number_of(digits, MOST_MEMORY) {
        Some(bytes) if LEAST_MEMORY <= bytes => Ok(Some(bytes)),
        _ => Err(serve_row().bad_value(alloc, digits, BAD_MEMORY)),
    }
}
