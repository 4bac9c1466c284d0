//! The serial number of a disk that is given none.

ghost use Rattle.std.specs.Prelude.{◌≡◌};
ghost use Rattle.hex.specs.Hex.{encode_lower};
ghost use Rattle.iscsi_disk_service.specs.Serials.{serial_digits};

use iscsi_serve_words::{NbdExport, Storage};
use iscsi_serving::ServeFault;
use md5::{Digest as _, Md5};
use nbd_client::Place;
use std::alloc::Global;
use std::env;
use std::random::RandomSource;

/// How many bytes of a digest are in a serial number, each as two hex digits.
const KEPT: usize = 8;

/// 16 hex digits: of an image or an export those of what names it, which are the same after a restart, and of a
/// disk in memory random ones. `NoRandom` comes where the system gives no random bytes, `NoMemory` where memory
/// runs out.
pub fn own_serial(
    rt: &HostRuntime,
    name: &[u8],
    storage: &Storage<'_>,
) -> Result<[u8; 16], ServeFault> {
    match storage {
        Storage::Memory { .. } => drawn(rt),
        Storage::Image(image) => Ok(digits_of(name, absolute(rt, image.path)?.as_bytes())),
        Storage::Nbd(export) => Ok(digits_of(name, place(rt.alloc(), export)?.as_bytes())),
    }
}

// Random digits.
fn drawn<R: RandomSource>(random: &R) -> Result<[u8; 16], ServeFault> {
    let mut bytes = [0; KEPT];
    if random.fill_bytes(&mut bytes).is_err() {
        return Err(ServeFault::NoRandom);
    }
    Ok(hex_digits(&bytes))
}

// The path of an image as it is written, behind the current folder where it is not absolute. No link is followed:
// a link that leads elsewhere tomorrow leaves the disk its serial number.
fn absolute(rt: &HostRuntime, path: &str) -> Result<String, ServeFault> {
    let alloc = rt.alloc();
    if path.starts_with('/') {
        return Ok(String::from_str(alloc, path)?);
    }
    match env::current_dir(rt) {
        Ok(folder) => Ok(format!(in alloc; "{}/{path}", folder.as_str())?),
        Err(_) => Ok(String::from_str(alloc, path)?),
    }
}

// Where an export is, however a word spells it.
fn place(alloc: Global, export: &NbdExport<'_>) -> Result<String, ServeFault> {
    let name = export.name;
    match export.place {
        Place::Port { host, port } => Ok(format!(in alloc; "{host} {port} {name}")?),
        Place::Socket(path) => Ok(format!(in alloc; "{path} {name}")?),
    }
}

// The digits of what names a disk: those of the first bytes of an MD5 digest. It only has to differ from disk to
// disk, and no security rests on it.
fn digits_of(name: &[u8], place: &[u8]) -> [u8; 16]
    ensures digits { result ≡ serial_digits name.now place.now }
{
    let mut hasher = Md5::new();
    hasher.update(name);
    hasher.update(&[0u8].as_slice());
    hasher.update(place);
    let digest = hasher.finalize();
    let mut kept = [0; KEPT];
    kept.copy_from_slice(&digest[..KEPT]);
    hex_digits(&kept)
}

// Two lower-case digits for each byte.
fn hex_digits(bytes: &[u8; KEPT]) -> [u8; 16]
    ensures digits { result ≡ encode_lower bytes.now }
{
    let mut digits = [0; 16];
    let _ = hex::encode_to_slice(bytes.as_slice(), &mut digits);
    digits
}
