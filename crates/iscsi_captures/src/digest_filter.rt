//! What one end of a connection says, without its digests.

use crate::pdus::Reading;
pub use crate::pdus::WrongDigest;
use std::alloc::{AllocError, Global};

/// Takes the digests out of the stream of one end, if its login has them, and looks whether they are
/// right (RFC 7143, section 13.1).
#[derive(Drop)]
pub struct DigestFilter {
    reading: Reading,
    // the last byte of a part, until the sum behind it is right
    held: Option<u8>,
    // whether there was no memory for what the end said
    is_lost: bool,
}

impl DigestFilter {
    /// A stream before its first byte, which is that of a login. It takes no memory.
    pub fn new(alloc: Global) -> DigestFilter {
        DigestFilter {
            reading: Reading::new(alloc),
            held: None,
            is_lost: false,
        }
    }

    /// Takes over what the other end said of digests.
    pub fn hears(&mut self, other: &DigestFilter) {
        self.reading.hears(other.reading.offers());
    }

    /// Whether digests may follow: not behind a login without any.
    pub fn may_have_digests(&self) -> bool {
        self.reading.has_sums()
    }

    /// Whether there was no memory for what `listen` took.
    pub fn is_lost(&self) -> bool {
        self.is_lost
    }

    /// Takes bytes for what they say of digests in the login.
    pub fn listen(&mut self, bytes: &[u8]) {
        let mut rest = bytes;
        for _ in 0..bytes.len() {
            if rest.is_empty() || self.is_lost || self.reading.knows_sums() {
                return;
            }
            let len = match self.reading.walk_run(rest, true) {
                Ok(run) => run.len,
                Err(_) => {
                    self.is_lost = true;
                    0
                }
            };
            rest = rest.get(len..).unwrap_or(&[]);
        }
    }

    /// Appends bytes without their digests, up to the first digest that is wrong. The last byte of a
    /// part with a digest is appended with the digest's last one, if that is right. So no PDU with a
    /// wrong digest is whole. Behind a wrong one, and behind want of memory, it is used no more.
    pub fn take(
        &mut self,
        bytes: &[u8],
        out: &mut Vec<u8>,
    ) -> Result<Option<WrongDigest>, AllocError> {
        if !self.may_have_digests() {
            out.extend_from_slice(bytes)?;
            return Ok(None);
        }
        let mut rest = bytes;
        for _ in 0..bytes.len() {
            if rest.is_empty() {
                return Ok(None);
            }
            let len = self.take_run(rest, out)?;
            if let Some(wrong) = self.reading.wrong_digests().pop() {
                return Ok(Some(wrong));
            }
            rest = rest.get(len..).unwrap_or(&[]);
        }
        Ok(None)
    }

    // Takes the first of some bytes, as far as they are of one part, and says how many these are.
    fn take_run(&mut self, bytes: &[u8], out: &mut Vec<u8>) -> Result<usize, AllocError> {
        let run = self.reading.walk_run(bytes, true)?;
        if run.is_plain {
            out.extend_from_slice(bytes.get(..run.len).unwrap_or(&[]))?;
            if self.reading.is_at_sum() {
                self.held = out.pop();
            }
            return Ok(run.len);
        }
        if run.wrong.is_none() && !self.reading.is_at_sum() {
            if let Some(byte) = self.held.take() {
                out.push(byte)?;
            }
        }
        Ok(run.len)
    }
}
