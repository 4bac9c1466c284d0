//! The file of secrets.
//!
//! Of what the system says of a file, the mode alone has a contract. What is left to read is that the
//! opened file is judged, by its owner too, and that its own bytes are read.

ghost use Rattle.std.specs.Prelude.{◌≡◌, ◌≢◌, ◌⊎◌, ℕ, List, Ok, IfErr, IfOk, bit_and};
ghost use Rattle.std.specs.Fs.{IsFile, file_type, metadata_mode};
ghost use Rattle.iscsi_secrets.specs.Secrets.{secrets_in};
ghost use Rattle.iscsi_secrets.specs.declared.fault.SecretsFault.TheVariants.{Exposed, NoFile, NotOwned};

use crate::fault::SecretsFault;
use crate::secrets::{LONGEST_SECRETS, Secrets};
use std::alloc::Global;
use std::fs::{self, File, Metadata};
use std::io::{ErrorKind, Read};
use std::os::unix::fs::{FileTypeExt, MetadataExt};
use std::rt::Files;

/// The permissions of others than the owner.
const OTHERS: u32 = 0o077;

impl Secrets {
    /// Reads the secrets of a file. It has to be a regular one that belongs to the process's
    /// effective user, and nobody else may have a permission for it (own rule).
    ///
    /// The file is judged once it is open, since its name may mean another file a moment later. A
    /// pipe or a device of characters is `NoFile` before that, since opening it may wait for another
    /// process. The faults of a file come before those of its text.
    pub fn open(rt: &HostRuntime, path: &str) -> Result<Secrets, SecretsFault>
        ensures text { IfOk result (λ secrets. (text : List ℕ) × (secrets_in text ≡ Ok secrets)) }
    {
        if is_stream(rt, path) {
            return Err(SecretsFault::NoFile);
        }
        let Ok(file) = File::open(rt, path) else {
            return Err(SecretsFault::NotOpened);
        };
        let Ok(about) = file.metadata() else {
            return Err(SecretsFault::NotOpened);
        };
        judge(&about, libc::geteuid())?;
        let text = text_of(rt.alloc(), &file)?;
        Secrets::read(rt.alloc(), &text)
    }
}

// Whether a file may hold secrets of this user.
fn judge(about: &Metadata, user: u32) -> Result<(), SecretsFault>
    ensures regular { IfOk result (λ _. IsFile (file_type about.now)) }
    ensures alone { IfOk result (λ _. bit_and (metadata_mode about.now) 0o077 ≡ 0) }
    ensures other { IfErr result (λ fault. fault ≡ NoFile → IsFile (file_type about.now) → ⊥) }
    ensures exposed { IfErr result (λ fault. fault ≡ Exposed →
        bit_and (metadata_mode about.now) 0o077 ≢ 0) }
    ensures faults { IfErr result (λ fault. fault ≡ NoFile ⊎ fault ≡ NotOwned ⊎ fault ≡ Exposed) }
{
    if !about.is_file() {
        return Err(SecretsFault::NoFile);
    }
    if about.uid() != user {
        return Err(SecretsFault::NotOwned);
    }
    if about.mode() & OTHERS != 0 {
        return Err(SecretsFault::Exposed);
    }
    Ok(())
}

// Whether there is a pipe or a device of characters of this name.
fn is_stream(rt: &HostRuntime, path: &str) -> bool {
    match fs::metadata(rt, path) {
        Ok(about) => about.file_type().is_fifo() || about.file_type().is_char_device(),
        Err(_) => false,
    }
}

// The text of a file, up to one byte more than a text may have.
fn text_of(alloc: Global, file: &File) -> Result<Vec<u8>, SecretsFault> {
    let mut text = Vec::new(alloc);
    match file.take(LONGEST_SECRETS as u64 + 1).read_to_end(&mut text) {
        Ok(_) => Ok(text),
        Err(error) if error.kind() == ErrorKind::OutOfMemory => Err(SecretsFault::NoMemory),
        Err(_) => Err(SecretsFault::NotRead),
    }
}
