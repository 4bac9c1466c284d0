//! The words of a line, taken one after another. One file: words, numbers and hex.

ghost use Rattle.std.specs.Prelude.{◌≡◌, ◌≤◌, ◌∷◌, [], None, false, true, IfOk, IfErr, IfSome, OnOk, OnErr, MatchOption};
ghost use Rattle.iscsi_job_text.specs.Words.{before, behind, words_between, line_words, is_next, is_all_taken, without_next, digits_number};
ghost use Rattle.iscsi_job_text.specs.Words.{number, optional, byte, bytes, hex_behind, word_as, hex_sized, stored, some_data, data_behind, data_before, data_length, no_data, lun_of, block_of, block_word};
ghost use Rattle.iscsi_job_text.specs.Words.{StartsWord};
ghost use Rattle.iscsi_job_text.specs.Faults.{RefusesOnly};
ghost use Rattle.iscsi_job_text.specs.Payloads.{contents};

use crate::entry::Stored;
use crate::fault::{LineFault, LineReason};
use hex::{FromHex, FromHexError};
use iscsi_text::split_at_byte;
use std::alloc::Global;
use std::marker::Model;

/// The words of a line that were not taken yet, parted by blanks.
#[derive(Drop)]
pub(crate) struct Words<'a> {
    rest: &'a [u8],
}

/// Bytes of a line, or where they stand.
#[derive(Drop)]
pub(crate) struct Payload {
    pub(crate) bytes: Vec<u8>,
    pub(crate) stored: Option<Stored>,
}

impl<'a> Model for Words<'a> {
    ghost use Rattle.std.specs.Prelude.{ℕ, List};
    ghost use Rattle.iscsi_job_text.specs.Words.{words_between};

    ghost Value = { List (List ℕ) };

    ghost view = { λ w. words_between w.rest.now };
}

impl<'a> Words<'a> {
    /// The words of a line, up to a comment.
    pub(crate) fn of(line: &'a [u8]) -> Words<'a>
        ensures words { result ≡ line_words line.now }
    {
        Words {
            rest: parted(line, b'#').0,
        }
    }

    /// Whether no word is left.
    #[tactic(auto, using(crate::proofs::WordLemmas::next_word, crate::proofs::WordLemmas::no_words))]
    pub(crate) fn is_empty(&self) -> bool
        ensures value { result ≡ is_all_taken self.now }
    {
        without_blanks(self.rest).is_empty()
    }

    /// The next word, and the words behind it.
    #[tactic(auto, using(crate::proofs::WordLemmas::next_word, crate::proofs::WordLemmas::no_words))]
    fn next(&self) -> Option<(&'a [u8], Words<'a>)>
        ensures next { MatchOption result (self.now ≡ []) (λ found.
            self.now ≡ found.0.now ∷ found.1) }
    {
        let rest = without_blanks(self.rest);
        if rest.is_empty() {
            return None;
        }
        let (word, behind) = parted(rest, b' ');
        Some((word, Words { rest: behind }))
    }

    /// Takes the next word.
    pub(crate) fn take(&mut self) -> Option<&'a [u8]>
        ensures taken { MatchOption result (self.old ≡ [])
            (λ word. self.old ≡ word.now ∷ self.new) }
    {
        let (word, behind) = self.next()?;
        *self = behind;
        Some(word)
    }

    /// Whether this is the next word.
    fn is_next(&self, word: &[u8]) -> bool
        ensures is { result ≡ is_next word.now self.now }
    {
        match self.next() {
            Some((next, _)) => next == word,
            None => false,
        }
    }

    /// Takes the next word if it is this one, and says whether it was.
    pub(crate) fn take_if(&mut self, word: &[u8]) -> bool
        ensures is { result ≡ is_next word.now self.old }
        ensures left { self.new ≡ without_next word.now self.old }
    {
        match self.next() {
            Some((next, behind)) if next == word => {
                *self = behind;
                true
            }
            _ => false,
        }
    }

    /// Takes a decimal number that is at most this.
    pub(crate) fn number(&mut self, most: u64) -> Result<u64, LineReason>
        ensures reads { IfOk result (λ found. number most self.old ≡ Some (found, self.new)) }
        ensures refuses { OnErr result (number most self.old ≡ None) }
        ensures most { IfOk result (λ n. n ≤ most) }
    {
        let Some(digits) = self.take() else {
            return Err(LineReason::Number);
        };
        number(digits, most).ok_or(LineReason::Number)
    }

    /// Takes a decimal number that is at most this, if one stands behind this word.
    pub(crate) fn number_behind(
        &mut self,
        word: &[u8],
        most: u64,
    ) -> Result<Option<u64>, LineReason>
        ensures reads { IfOk result (λ found.
            optional word.now (number most) self.old ≡ Some (found, self.new)) }
        ensures refuses { OnErr result (optional word.now (number most) self.old ≡ None) }
        ensures most { IfOk result (λ found. IfSome found (λ n. n ≤ most)) }
    {
        if !self.take_if(word) {
            return Ok(None);
        }
        match self.number(most) {
            Ok(number) => Ok(Some(number)),
            Err(reason) => Err(reason),
        }
    }

    /// Takes two hex digits.
    pub(crate) fn byte(&mut self) -> Result<u8, LineReason>
        ensures reads { IfOk result (λ found. byte self.old ≡ Some (found, self.new)) }
        ensures refuses { OnErr result (byte self.old ≡ None) }
    {
        let Some(digits) = self.take() else {
            return Err(LineReason::Hex);
        };
        match <[u8; 1]>::from_hex(digits) {
            Ok(bytes) => Ok(bytes[0]),
            Err(_) => Err(LineReason::Hex),
        }
    }

    /// Takes two hex digits, if they stand behind this word.
    pub(crate) fn byte_behind(&mut self, word: &[u8]) -> Result<Option<u8>, LineReason>
        ensures reads { IfOk result (λ found.
            optional word.now byte self.old ≡ Some (found, self.new)) }
        ensures refuses { OnErr result (optional word.now byte self.old ≡ None) }
    {
        if !self.take_if(word) {
            return Ok(None);
        }
        match self.byte() {
            Ok(byte) => Ok(Some(byte)),
            Err(reason) => Err(reason),
        }
    }

    /// Takes bytes in hex.
    pub(crate) fn bytes(&mut self, alloc: Global) -> Result<Vec<u8>, LineFault>
        ensures reads { IfOk result (λ found. bytes self.old ≡ Some (found.items, self.new)) }
        ensures refuses { IfErr result (RefusesOnly (bytes self.old)) }
    {
        let Some(digits) = self.take() else {
            return Err(LineFault::Refused(LineReason::Hex));
        };
        match hex::decode(alloc, digits) {
            Ok(bytes) => Ok(bytes),
            Err(FromHexError::OutOfMemory) => Err(LineFault::NoMemory),
            Err(_) => Err(LineFault::Refused(LineReason::Hex)),
        }
    }

    /// Takes bytes in hex, if they stand behind this word; else there are none.
    pub(crate) fn bytes_behind(&mut self, alloc: Global, word: &[u8]) -> Result<Vec<u8>, LineFault>
        ensures reads { IfOk result (λ found.
            hex_behind word.now self.old ≡ Some (found.items, self.new)) }
        ensures refuses { IfErr result (RefusesOnly (hex_behind word.now self.old)) }
    {
        if self.take_if(word) {
            self.bytes(alloc)
        } else {
            Ok(Vec::new(alloc))
        }
    }

    /// Takes bytes in hex, or where they stand.
    pub(crate) fn payload(&mut self, alloc: Global) -> Result<Payload, LineFault>
        ensures reads { IfOk result (λ found.
            some_data self.old ≡ Some (contents found, self.new)) }
        ensures refuses { IfErr result (RefusesOnly (some_data self.old)) }
    {
        if self.take_if(b"at") {
            let stored = self.stored()?;
            return Ok(Payload {
                bytes: Vec::new(alloc),
                stored: Some(stored),
            });
        }
        let bytes = self.bytes(alloc)?;
        Ok(Payload {
            bytes,
            stored: None,
        })
    }

    /// Takes bytes in hex, or where they stand, behind this word; else there are none.
    pub(crate) fn payload_behind(
        &mut self,
        alloc: Global,
        word: &[u8],
    ) -> Result<Payload, LineFault>
        ensures reads { IfOk result (λ found.
            data_behind word.now self.old ≡ Some (contents found, self.new)) }
        ensures refuses { IfErr result (RefusesOnly (data_behind word.now self.old)) }
    {
        if self.take_if(word) {
            self.payload(alloc)
        } else {
            Ok(Payload::none(alloc))
        }
    }

    /// Takes bytes in hex, or where they stand; there are none if no word is left, or if the next one
    /// is this.
    pub(crate) fn payload_before(
        &mut self,
        alloc: Global,
        word: &[u8],
    ) -> Result<Payload, LineFault>
        ensures reads { IfOk result (λ found.
            data_before word.now self.old ≡ Some (contents found, self.new)) }
        ensures refuses { IfErr result (RefusesOnly (data_before word.now self.old)) }
    {
        if self.is_empty() || self.is_next(word) {
            Ok(Payload::none(alloc))
        } else {
            self.payload(alloc)
        }
    }

    // Takes an offset, a length and a hash.
    fn stored(&mut self) -> Result<Stored, LineReason>
        ensures reads { IfOk result (λ found. stored self.old ≡ Some (found, self.new)) }
        ensures refuses { OnErr result (stored self.old ≡ None) }
    {
        let offset = self.number(u64::MAX)?;
        let length = self.number(u64::from(u32::MAX))? as u32;
        let hash = self.hash()?;
        Ok(Stored {
            offset,
            length,
            hash,
        })
    }

    // Takes the 32 bytes of a hash, in hex.
    fn hash(&mut self) -> Result<[u8; 32], LineReason>
        ensures reads { IfOk result (λ found.
            word_as (hex_sized 32) self.old ≡ Some (found, self.new)) }
        ensures refuses { OnErr result (word_as (hex_sized 32) self.old ≡ None) }
    {
        let Some(digits) = self.take() else {
            return Err(LineReason::Hex);
        };
        match <[u8; 32]>::from_hex(digits) {
            Ok(hash) => Ok(hash),
            Err(_) => Err(LineReason::Hex),
        }
    }

    /// Takes a LUN: the number of a unit below 256, or all 8 bytes in hex (SAM-5, section 4.7).
    pub(crate) fn lun(&mut self) -> Result<u64, LineReason>
        ensures reads { IfOk result (λ found. word_as lun_of self.old ≡ Some (found, self.new)) }
        ensures refuses { OnErr result (word_as lun_of self.old ≡ None) }
    {
        let Some(digits) = self.take() else {
            return Err(LineReason::Unit);
        };
        lun_of(digits).ok_or(LineReason::Unit)
    }

    /// Takes the first 1 to 16 bytes of a descriptor block; the others are 00.
    pub(crate) fn block(&mut self, alloc: Global) -> Result<[u8; 16], LineFault>
        ensures reads { IfOk result (λ found.
            word_as block_word self.old ≡ Some (found, self.new)) }
        ensures refuses { IfErr result (RefusesOnly (word_as block_word self.old)) }
    {
        let Some(digits) = self.take() else {
            return Err(LineFault::Refused(LineReason::Block));
        };
        match hex::decode(alloc, digits) {
            Ok(bytes) => match block_of(&bytes) {
                Some(block) => Ok(block),
                None => Err(LineFault::Refused(LineReason::Block)),
            },
            Err(FromHexError::OutOfMemory) => Err(LineFault::NoMemory),
            Err(_) => Err(LineFault::Refused(LineReason::Block)),
        }
    }

    /// Refuses a line of which words are left.
    pub(crate) fn end(&self) -> Result<(), LineReason>
        ensures all { OnOk result (is_all_taken self.now ≡ true) }
        ensures refuses { OnErr result (is_all_taken self.now ≡ false) }
    {
        if self.is_empty() {
            Ok(())
        } else {
            Err(LineReason::Words)
        }
    }
}

impl Payload {
    /// How many bytes they are.
    pub(crate) fn length(&self) -> usize
        ensures { result ≡ data_length (contents self.now) }
    {
        match self.stored {
            Some(stored) => stored.length as usize,
            None => self.bytes.len(),
        }
    }

    /// No bytes. It takes no memory.
    pub(crate) fn none(alloc: Global) -> Payload
        ensures { contents result ≡ no_data }
    {
        Payload {
            bytes: Vec::new(alloc),
            stored: None,
        }
    }
}

// What stands before the first such byte, and what behind it.
#[tactic(auto, using(crate::proofs::WordLemmas::found_front, crate::proofs::WordLemmas::found_behind, crate::proofs::WordLemmas::lacking_front, crate::proofs::WordLemmas::lacking_behind))]
pub(crate) fn parted(bytes: &[u8], byte: u8) -> (&[u8], &[u8])
    ensures before { result.0.now ≡ before byte bytes.now }
    ensures behind { result.1.now ≡ behind byte bytes.now }
{
    match split_at_byte(bytes, byte) {
        Some(parts) => parts,
        None => (bytes, &[]),
    }
}

// What stands behind the blanks in front.
#[tactic(auto, using(crate::proofs::WordLemmas::blank_more, crate::proofs::WordLemmas::word_starts, crate::proofs::WordLemmas::no_words))]
fn without_blanks(bytes: &[u8]) -> &[u8]
    ensures words { words_between result.now ≡ words_between bytes.now }
    ensures begins { StartsWord result.now }
{
    for (at, byte) in bytes.iter().enumerate() {
        if *byte != b' ' {
            return &bytes[at..];
        }
    }
    &[]
}

/// The number that decimal digits mean, if it is at most `most`. It is `None` for an empty word, for
/// anything that is no digit, a sign too, and for a larger number.
pub fn number_of(digits: &str, most: u64) -> Option<u64>
    ensures number { result ≡ digits_number most digits.now }
    ensures most { IfSome result (λ n. n ≤ most) }
{
    number(digits.as_bytes(), most)
}

// The number that decimal digits mean, if it is at most this.
#[tactic(auto, using(crate::proofs::WordLemmas::number_more, crate::proofs::WordLemmas::number_no_digit, crate::proofs::WordLemmas::number_too_large))]
fn number(digits: &[u8], most: u64) -> Option<u64>
    ensures number { result ≡ digits_number most digits.now }
    ensures most { IfSome result (λ n. n ≤ most) }
{
    if digits.is_empty() {
        return None;
    }
    let mut number: u64 = 0;
    for digit in digits {
        if !digit.is_ascii_digit() {
            return None;
        }
        let Some(tenfold) = number.checked_mul(10) else {
            return None;
        };
        let Some(longer) = tenfold.checked_add(u64::from(*digit - b'0')) else {
            return None;
        };
        if longer > most {
            return None;
        }
        number = longer;
    }
    Some(number)
}

// The LUN that 16 hex digits mean, or that of the unit with a number below 256.
fn lun_of(digits: &[u8]) -> Option<u64>
    ensures { result ≡ lun_of digits.now }
{
    if digits.len() == 16 {
        let bytes = <[u8; 8]>::from_hex(digits).ok()?;
        return Some(u64::from_be_bytes(bytes));
    }
    let unit = number(digits, 255)?;
    Some(unit << 48)
}

// The descriptor block that begins with these bytes, which are 1 to 16.
fn block_of(bytes: &[u8]) -> Option<[u8; 16]>
    ensures { result ≡ block_of bytes.now }
{
    if bytes.is_empty() || bytes.len() > 16 {
        return None;
    }
    let mut block = [0; 16];
    block[..bytes.len()].copy_from_slice(bytes);
    Some(block)
}
