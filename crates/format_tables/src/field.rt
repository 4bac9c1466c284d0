//! A field of a header: its place, its condition, and what `show` prints for it (FORMATS, sections
//! 1 and 10).

use crate::row::{cell, decimal, hex, quoted};

/// The digits that `show` prints.
const DIGITS: &[u8; 16] = b"0123456789abcdef";

/// Bits of a header: those of the mask in each byte from the first to the last.
#[derive(Clone, Copy)]
pub struct Place {
    first: u32,
    last: u32,
    mask: u8,
}

impl Place {
    /// Reads `8-15`, `2` or `1:80`.
    pub fn read(text: &str) -> Option<Place> {
        let (bytes, mask) = text.split_once(':').unwrap_or((text, "ff"));
        let (first, last) = bytes.split_once('-').unwrap_or((bytes, bytes));
        Place::new(decimal(first)?, decimal(last)?, hex(mask)?)
    }

    fn new(first: u32, last: u32, mask: u32) -> Option<Place> {
        if first > last || last > 47 || mask == 0 || mask > 0xff {
            return None;
        }
        let mask = mask as u8;
        Some(Place { first, last, mask })
    }

    /// Which bits of a byte are at the place.
    pub fn mask_of(&self, at: u32) -> u8 {
        if self.first <= at && at <= self.last {
            self.mask
        } else {
            0
        }
    }

    /// Whether all bits are of this byte.
    pub fn is_within(&self, at: u32) -> bool {
        self.first == at && self.last == at
    }

    /// The bits of a byte, moved down to bit 0.
    fn bits(&self, byte: u8) -> u8 {
        let low = self.mask.trailing_zeros();
        (byte & self.mask).checked_shr(low).unwrap_or(0)
    }

    /// The number that stands there; of more than four bytes the last four.
    fn number(&self, header: &[u8; 48]) -> u32 {
        let mut number = 0u32;
        for at in 0..48 {
            if self.mask_of(at) != 0 {
                number = number.wrapping_mul(256) | u32::from(self.bits(header[at as usize]));
            }
        }
        number
    }

    /// Takes the value that stands there off the front of a line of `show`.
    fn strip<'a>(&self, header: &[u8; 48], line: &'a [u8]) -> Option<&'a [u8]> {
        let mut rest = line;
        for at in 0..48 {
            if self.mask_of(at) != 0 {
                let bits = self.bits(header[at as usize]);
                if self.mask == 0xff || self.mask == 0x7f {
                    rest = strip_digit(rest, bits / 16)?;
                }
                rest = strip_digit(rest, bits % 16)?;
            }
        }
        Some(rest)
    }
}

/// Takes a digit off the front of a line.
fn strip_digit(line: &[u8], digit: u8) -> Option<&[u8]> {
    let digit = DIGITS[usize::from(digit % 16)];
    line.strip_prefix([digit].as_slice())
}

/// Where a field has a value: where one of the two places has one of the two numbers, or where one
/// of them has neither.
#[derive(Clone, Copy)]
struct Condition {
    one: Place,
    other: Place,
    low: u32,
    high: u32,
    has: bool,
}

impl Condition {
    /// Reads `` `a` is 0 or 5 ``, `` `a` is not 0 ``, `` `a` or `b` `` or `` `a` ``, of fields of
    /// the table.
    fn read(text: &str, table: &str) -> Option<Condition> {
        let (fields, numbers) = text.split_once(" is ").unwrap_or((text, "not 0"));
        let no = numbers.starts_with("not ");
        let numbers = numbers.strip_prefix("not ").unwrap_or(numbers);
        let (one, other) = fields.split_once(" or ").unwrap_or((fields, fields));
        let (low, high) = numbers.split_once(" or ").unwrap_or((numbers, numbers));
        Some(Condition {
            one: place_of(one, table)?,
            other: place_of(other, table)?,
            low: hex(low)?,
            high: hex(high)?,
            has: !no,
        })
    }

    fn holds(&self, header: &[u8; 48]) -> bool {
        self.is_met(self.one.number(header)) || self.is_met(self.other.number(header))
    }

    fn is_met(&self, number: u32) -> bool {
        (number == self.low || number == self.high) == self.has
    }
}

/// The place of the field that stands so in the first cell of a row.
fn place_of(field: &str, table: &str) -> Option<Place> {
    for row in table.lines() {
        if cell(row, 1) == field {
            return Place::read(cell(row, 2));
        }
    }
    None
}

/// A row of the table of a kind of PDU.
#[derive(Clone, Copy)]
pub struct Field<'a> {
    /// The row.
    pub row: &'a str,
    /// Its bits.
    pub place: Place,
    condition: Option<Condition>,
    // Its name in `show`.
    shown: &'a str,
}

impl<'a> Field<'a> {
    /// Reads a row of a table, of which its condition may name other rows.
    pub fn read(row: &'a str, table: &'a str) -> Option<Field<'a>> {
        let place = Place::read(cell(row, 2))?;
        let text = cell(row, 3);
        let condition = Condition::read(text, table);
        if !text.is_empty() && condition.is_none() {
            return None;
        }
        Some(Field {
            row,
            place,
            condition,
            shown: quoted(cell(row, 4)),
        })
    }

    /// Whether it has a value in the header.
    pub fn is_there(&self, header: &[u8; 48]) -> bool {
        match &self.condition {
            Some(condition) => condition.holds(header),
            None => true,
        }
    }

    /// Takes what `show` prints for it off the front of a line.
    pub fn strip<'b>(&self, header: &[u8; 48], line: &'b [u8]) -> Option<&'b [u8]> {
        let rest = line.strip_prefix(b" ".as_slice())?;
        let rest = rest.strip_prefix(self.shown.as_bytes())?;
        let rest = rest.strip_prefix(b"=".as_slice())?;
        self.place.strip(header, rest)
    }
}
