//! A request of a job with what a text says of it beside.

use iscsi_job::Item;

/// The longest data, in bytes, that a text with a file of data has itself (own rule).
pub const LONGEST_SHOWN: usize = 512;

/// Where data stand in the file of data.
#[derive(Clone, Copy, Debug, PartialEq, Eq)]
pub struct Stored {
    /// How many bytes of the file stand before them.
    pub offset: u64,
    /// How many bytes they are.
    pub length: u32,
    /// Their SHA-256 (FIPS 180-4).
    pub hash: [u8; 32],
}

/// When a request was sent, and how long it took, in nanoseconds.
#[derive(Clone, Copy, Debug, PartialEq, Eq)]
pub struct Time {
    /// How long after the first request of the job it was sent.
    pub sent: u64,
    /// How long after that it was answered; none where it was not.
    pub took: Option<u64>,
}

/// A request of a job, what came of it, and what a text says of both. Data that stand in the file of data
/// are not in the item.
#[derive(Drop)]
pub struct Entry {
    /// The request, and what came of it.
    pub item: Item,
    /// Where the data that were sent stand, if the text has them not.
    pub sent: Option<Stored>,
    /// Where the data that came stand, if the text has them not.
    pub received: Option<Stored>,
    /// When it was sent, and how long it took, if the text says so.
    pub time: Option<Time>,
}

impl Entry {
    /// How many bytes were sent with the request.
    pub fn sent_bytes(&self) -> usize {
        match self.sent {
            Some(stored) => stored.length as usize,
            None => self.item.sent.len(),
        }
    }
}
