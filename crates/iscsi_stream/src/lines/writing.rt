//! The text of a line while it is written: values behind the names of their fields.

ghost use Rattle.std.specs.Prelude.{◌≡◌, ◌≤◌, ◌<◌, IfSome, length, true};
ghost use Rattle.iscsi_stream.specs.Shown.{has_no_end};

use arrayvec::ArrayVec;
use itoa::Buffer;

/// How many bytes the text of a line has at most, its end apart; no kind's line is longer.
pub(crate) const LONGEST_LINE: usize = 319;

/// The text of a line, its end apart. No byte of it ends a line. What has no room is left out.
#[derive(Drop)]
pub(crate) struct Line {
    text: ArrayVec<u8, LONGEST_LINE>,
    ghost one: { has_no_end text.items ≡ true },
}

impl Line {
    /// A line without text.
    pub(crate) fn new() -> Line {
        Line {
            text: ArrayVec::new(),
        }
    }

    /// The text so far.
    pub(crate) fn text(&self) -> &[u8]
        ensures one { has_no_end result.now ≡ true }
        ensures short { length result.now ≤ 319 }
    {
        self.text.as_slice()
    }

    /// Appends bytes, or nothing where there is no room for all of them.
    pub(crate) fn put(&mut self, bytes: &[u8])
        requires { has_no_end bytes.now ≡ true }
    {
        let _ = self.text.try_extend_from_slice(bytes);
    }

    /// Appends a number in decimal.
    pub(crate) fn number(&mut self, number: u64) {
        let mut decimal = Buffer::new();
        self.put(decimal.format(number).as_bytes());
    }

    /// A field of at most 16 whole bytes, in hex. A name is given with the space before it and the
    /// sign behind it, so that both are written with it.
    pub(crate) fn whole(&mut self, name: &str, bytes: &[u8])
        requires name { has_no_end name.now ≡ true }
        requires few { length bytes.now ≤ 16 }
    {
        self.put(name.as_bytes());
        let mut room = [0; 32];
        let digits = &mut room[..2 * bytes.len()];
        let Ok(()) = hex::encode_to_slice(bytes, digits) else {
            unreachable!()
        };
        self.put(digits);
    }

    pub(crate) fn byte(&mut self, name: &str, value: u8)
        requires { has_no_end name.now ≡ true }
    {
        self.whole(name, &[value]);
    }

    pub(crate) fn half(&mut self, name: &str, value: u16)
        requires { has_no_end name.now ≡ true }
    {
        self.whole(name, &value.to_be_bytes());
    }

    pub(crate) fn word(&mut self, name: &str, value: u32)
        requires { has_no_end name.now ≡ true }
    {
        self.whole(name, &value.to_be_bytes());
    }

    pub(crate) fn byte_if(&mut self, name: &str, value: Option<u8>)
        requires { has_no_end name.now ≡ true }
    {
        if let Some(value) = value {
            self.byte(name, value);
        }
    }

    pub(crate) fn half_if(&mut self, name: &str, value: Option<u16>)
        requires { has_no_end name.now ≡ true }
    {
        if let Some(value) = value {
            self.half(name, value);
        }
    }

    pub(crate) fn word_if(&mut self, name: &str, value: Option<u32>)
        requires { has_no_end name.now ≡ true }
    {
        if let Some(value) = value {
            self.word(name, value);
        }
    }

    /// A field of at most three bits, which has one digit.
    pub(crate) fn digit(&mut self, name: &str, value: u8)
        requires name { has_no_end name.now ≡ true }
        requires one { value < 8 }
    {
        self.put(name.as_bytes());
        self.put(&[b'0' + value]);
    }

    pub(crate) fn digit_if(&mut self, name: &str, value: Option<u8>)
        requires name { has_no_end name.now ≡ true }
        requires one { IfSome value (λ v. v < 8) }
    {
        if let Some(value) = value {
            self.digit(name, value);
        }
    }

    pub(crate) fn flag(&mut self, name: &str, value: bool)
        requires { has_no_end name.now ≡ true }
    {
        self.digit(name, u8::from(value));
    }

    pub(crate) fn flag_if(&mut self, name: &str, value: Option<bool>)
        requires { has_no_end name.now ≡ true }
    {
        if let Some(value) = value {
            self.flag(name, value);
        }
    }

    pub(crate) fn unit(&mut self, lun: u64) {
        self.whole(" lun=", &lun.to_be_bytes());
    }

    pub(crate) fn unit_if(&mut self, lun: Option<u64>) {
        if let Some(lun) = lun {
            self.unit(lun);
        }
    }

    /// The window of command numbers that each answer of a target tells.
    pub(crate) fn window(&mut self, exp_cmd_sn: u32, max_cmd_sn: u32) {
        self.word(" expcmdsn=", exp_cmd_sn);
        self.word(" maxcmdsn=", max_cmd_sn);
    }
}
