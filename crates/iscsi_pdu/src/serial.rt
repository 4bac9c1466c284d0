//! Serial numbers and the window of commands (RFC 7143, section 4.2.2).

ghost use Rattle.std.specs.Prelude.{◌≡◌, ◌+◌, ◌^◌, ◌%◌};
ghost use Rattle.iscsi_pdu.specs.Serial.{is_before, is_within, moved};

/// A sequence number, as CmdSN and StatSN: after 2^32 - 1 comes 0 (RFC 7143, section 4.2.2; RFC
/// 1982).
#[derive(Clone, Copy, Debug, PartialEq, Eq)]
pub struct Serial(pub u32);

impl Serial {
    /// Whether it comes before the other: the other is 1 to 2^31 - 1 steps ahead.
    ///
    /// Of two numbers that are 2^31 steps apart neither is before the other.
    pub fn before(self, other: Serial) -> bool
        ensures { result ≡ is_before self other }
    {
        let distance = other.0.wrapping_sub(self.0);
        0 < distance && distance < 1 << 31
    }

    /// The number one step ahead.
    pub fn next(self) -> Serial
        ensures { result.0 ≡ (self.0 + 1) % 2 ^ 32 }
    {
        Serial(self.0.wrapping_add(1))
    }

    /// Whether it is one of the numbers from `low` to `high`, both included.
    ///
    /// Where `high` is 2^31 or more steps ahead of `low`, as where it is one behind, there are
    /// none.
    pub fn within(self, low: Serial, high: Serial) -> bool
        ensures { result ≡ is_within self.0 low.0 high.0 }
    {
        let size = high.0.wrapping_sub(low.0);
        size < 1 << 31 && self.0.wrapping_sub(low.0) <= size
    }
}

/// The command numbers that a target takes (RFC 7143, section 4.2.2.1).
#[derive(Clone, Copy, Debug, PartialEq, Eq)]
pub struct Window {
    /// ExpCmdSN: the next number.
    pub exp: Serial,
    /// MaxCmdSN: the last number. Where it is `exp - 1`, the window is shut.
    pub max: Serial,
}

impl Window {
    /// Takes each number that is later than its own. A pair with `max` before `exp - 1` is ignored.
    pub fn update(&mut self, exp: Serial, max: Serial)
        ensures { self.new ≡ moved self.old exp max }
    {
        let before_exp = Serial(exp.0.wrapping_sub(1));
        if max.before(before_exp) {
            return;
        }
        if self.exp.before(exp) {
            self.exp = exp;
        }
        if self.max.before(max) {
            self.max = max;
        }
    }
}
