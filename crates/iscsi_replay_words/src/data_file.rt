//! The file of data beside the text of a job.

use iscsi_job_text::{LONGEST_SHOWN, Stored};
use iscsi_stream::write_fully;
use sha2::{Digest, Sha256};
use std::alloc::{AllocError, Global};
use std::fs::File;
use std::io::{Read, Seek, SeekFrom};

/// Why data can't be put into the file, or had from it.
#[derive(Clone, Copy)]
pub(crate) enum DataFault {
    /// Memory ran out.
    NoMemory,
    /// A write failed.
    Write,
    /// A read failed.
    Read,
    /// The file has not these data at this offset.
    Other(u64),
}

impl From<AllocError> for DataFault {
    fn from(_error: AllocError) -> DataFault {
        DataFault::NoMemory
    }
}

/// A file to which data are written, one behind the other.
#[derive(Drop)]
pub(crate) struct DataWriter {
    file: File,
    at: u64,
}

impl DataWriter {
    /// A file that has nothing yet.
    pub(crate) fn new(file: File) -> DataWriter {
        DataWriter { file, at: 0 }
    }

    /// Takes data of over 512 bytes out of a buffer, writes them, and says where they stand.
    pub(crate) fn put(
        &mut self,
        alloc: Global,
        data: &mut Vec<u8>,
    ) -> Result<Option<Stored>, DataFault> {
        if data.len() <= LONGEST_SHOWN {
            return Ok(None);
        }
        let Ok(length) = u32::try_from(data.len()) else {
            return Ok(None);
        };
        if write_fully(&mut self.file, data).is_err() {
            return Err(DataFault::Write);
        }
        let stored = Stored {
            offset: self.at,
            length,
            hash: hash_of(data),
        };
        self.at = self.at.saturating_add(u64::from(length));
        *data = Vec::new(alloc);
        Ok(Some(stored))
    }
}

/// Reads data out of a file into a buffer, and looks whether they are those that were written.
pub(crate) fn fetch(alloc: Global, file: &mut File, stored: Stored) -> Result<Vec<u8>, DataFault> {
    if file.seek(SeekFrom::Start(stored.offset)).is_err() {
        return Err(DataFault::Read);
    }
    let mut data = vec![in alloc; 0; stored.length as usize]?;
    if file.read_exact(&mut data).is_err() || hash_of(&data) != stored.hash {
        return Err(DataFault::Other(stored.offset));
    }
    Ok(data)
}

// The SHA-256 of bytes.
fn hash_of(bytes: &[u8]) -> [u8; 32] {
    let mut hasher = Sha256::new();
    hasher.update(bytes);
    hasher.finalize()
}
