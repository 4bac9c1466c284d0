//! The line of a session on standard error.

use std::fmt::{self, Display, Write};
use std::net::SocketAddr;

/// The line of a session: its number, where its peer is, and the initiator's name, if there is one,
/// before what is told of it.
#[derive(Clone, Copy)]
pub struct SessionLine<'a, T> {
    /// The session's number.
    pub number: u16,
    /// Where the peer is.
    pub address: SocketAddr,
    /// The initiator's name.
    pub initiator: &'a [u8],
    /// What is told of the session.
    pub told: T,
}

impl<T: Display> Display for SessionLine<'_, T> {
    fn fmt<W: Write>(&self, f: &mut fmt::Formatter<W>) -> fmt::Result {
        write!(f, "session {} {}", self.number, self.address)?;
        if !self.initiator.is_empty() {
            write!(f, " {}", Name(self.initiator))?;
        }
        write!(f, ": {}", self.told)
    }
}

/// A line for a disk that initiators of two names may write.
#[derive(Clone, Copy)]
pub struct TwoWriters<'a> {
    /// Who was logged in before.
    pub first: Name<'a>,
    /// Who logged in now.
    pub second: Name<'a>,
}

impl Display for TwoWriters<'_> {
    fn fmt<W: Write>(&self, f: &mut fmt::Formatter<W>) -> fmt::Result {
        write!(
            f,
            "two initiators may write this disk: {} and {}",
            self.first, self.second
        )
    }
}

/// How many bytes of a name stand in a line: the longest name has as many (RFC 7143, section 4.2.7.1).
const LONGEST_NAME: usize = 223;

/// The name of an initiator in a line. A byte that is none of `!` to `~`, and the backslash, is `\x` and two hex
/// digits. A name that is longer than one may be is cut.
#[derive(Clone, Copy)]
pub struct Name<'a>(pub &'a [u8]);

impl Display for Name<'_> {
    fn fmt<W: Write>(&self, f: &mut fmt::Formatter<W>) -> fmt::Result {
        for byte in self.0.iter().take(LONGEST_NAME) {
            match *byte {
                b'\\' => f.write_str("\\x5c")?,
                plain @ b'!'..=b'~' => f.write_char(char::from(plain))?,
                other => write!(f, "\\x{other:02x}")?,
            }
        }
        Ok(())
    }
}
