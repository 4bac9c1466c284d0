//! Numerals, read and written in their canonical form (RFC 7143, section 6.1).

ghost use Rattle.std.specs.Prelude.{◌≡◌, ℕ, ◌^◌, ◌<◌, ◌≤◌, ◌++◌, ◌∷◌, length, MatchOption, OnOk, OnErr, SomeIff, List, drop, false};
ghost use Rattle.std.specs.Fmt.{digits, digit_glyph};
ghost use Rattle.std.specs.Str.Parse.{IsNumeral, digits_value};
ghost use Rattle.iscsi_text.specs.Numeral.{SpellsNumber, hexadecimal, canonical_number};

use std::alloc::AllocError;
use std::marker::Model;

/// The number below 2^64 that the text spells, and `None` where it spells none.
///
/// A spelling is a decimal without leading zeros, or `0x` or `0X` and one hexadecimal digit or
/// more of either case, of which any number may be leading zeros. A text of nothing, a sign, a
/// blank or a number of more than 64 bits is none. The forms are those of RFC 7143, section 6.1.
pub fn read_number(text: &[u8]) -> Option<u64>
    ensures exact { MatchOption result ((n : ℕ) → ¬ SpellsNumber text.now n)
        (SpellsNumber text.now) }
{
    match text {
        [b'0', b'x' | b'X', digits @ ..] => value_of(digits, 16),
        [b'0', _, ..] => None,
        _ => value_of(text, 10),
    }
}

// The number that digits in this radix write.
fn value_of(text: &[u8], radix: u32) -> Option<u64>
    requires { (2 ≤ radix) × (radix ≤ 36) }
    ensures { SomeIff result (IsNumeral radix text.now × (digits_value radix text.now < 2 ^ 64))
        (digits_value radix text.now) }
{
    if text.is_empty() {
        return None;
    }
    let mut value = 0u64;
    for byte in text {
        let digit = char::from(*byte).to_digit(radix)?;
        value = value
            .checked_mul(u64::from(radix))?
            .checked_add(u64::from(digit))?;
    }
    Some(value)
}

/// Appends the canonical numeral of a number, which is at most 18 bytes.
///
/// It is the shorter of the decimal and of `0x` with the least lower-case hexadecimal digits, the
/// decimal on a tie, so below 10^12 the decimal. When out of memory, `out` is unchanged. Both forms
/// are those of RFC 7143, section 6.1; the choice is own rule.
pub fn write_number(n: u64, out: &mut Vec<u8>) -> Result<(), AllocError>
    ensures ok { OnOk result (out.new.items ≡ out.old.items ++ canonical_number n) }
    ensures err { OnErr result (out.new.items ≡ out.old.items) }
{
    out.extend_from_slice(Numeral::canonical(n).as_slice())
}

/// The canonical numeral of a number, in a buffer of its own: at most 20 bytes, at its end.
#[derive(Drop)]
pub struct Numeral {
    text: [u8; 20],
    start: usize,
}

impl Model for Numeral {
    ghost use Rattle.std.specs.Prelude.{List, ℕ, drop, ◌≤◌};

    ghost Value = { List ℕ };

    ghost view = { λ a. drop a.start a.text };

    ghost invariant = { λ a. a.start ≤ 20 };
}

impl Numeral {
    /// The canonical numeral of this number.
    pub fn canonical(n: u64) -> Numeral
        ensures { result ≡ canonical_number n }
    {
        let decimal = Numeral::with_digits(n, 10);
        let hexadecimal = Numeral::hexadecimal(n);
        if decimal.len() <= hexadecimal.len() {
            decimal
        } else {
            hexadecimal
        }
    }

    /// How many bytes it has.
    pub fn len(&self) -> usize
        ensures { result ≡ length self.now }
    {
        20 - self.start
    }

    /// Its bytes.
    pub fn as_slice(&self) -> &[u8]
        ensures { result.now ≡ self.now }
    {
        &self.text[self.start..]
    }

    // `0x` and the least digits, of which a number of 64 bits has at most 16.
    #[tactic(auto, using(crate::proofs::DigitLemmas::length_hexadecimal))]
    fn hexadecimal(n: u64) -> Numeral
        ensures { result ≡ hexadecimal n }
    {
        let mut numeral = Numeral::with_digits(n, 16);
        numeral.prepend(b'x');
        numeral.prepend(b'0');
        numeral
    }

    // The digits of a number in this base, in lower case.
    fn with_digits(n: u64, base: u64) -> Numeral
        requires { (10 ≤ base) × (base ≤ 16) }
        ensures { result ≡ digits base false n }
    {
        let mut numeral = Numeral {
            text: [0; 20],
            start: 20,
        };
        let mut rest = n;
        while rest >= base {
            numeral.prepend(digit_char((rest % base) as u8));
            rest /= base;
        }
        numeral.prepend(digit_char(rest as u8));
        numeral
    }

    // One byte more, in front.
    fn prepend(&mut self, byte: u8)
        requires { length self.old < 20 }
        ensures { self.new ≡ byte ∷ self.old }
    {
        self.start -= 1;
        self.text[self.start] = byte;
    }
}

// A digit's character, in lower case.
fn digit_char(digit: u8) -> u8
    requires { digit < 16 }
    ensures { result ≡ digit_glyph false digit }
{
    if digit < 10 {
        b'0' + digit
    } else {
        b'a' + (digit - 10)
    }
}
