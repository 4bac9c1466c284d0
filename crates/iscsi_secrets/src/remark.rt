//! What is told of secrets that are taken.

use std::fmt::{self, Display, Formatter, Write};

/// What is told of secrets that are taken, since it may be a mistake. Lines are counted from 1, and no
/// text of the file is in it.
#[derive(Clone, Copy, Debug, PartialEq, Eq)]
pub enum SecretsRemark {
    /// A user of an earlier line has the secret (RFC 7143, section 9.2.1, advises against it).
    SharedSecret(u64),
    /// The InitiatorName to which a user is bound has a capital letter.
    Capital(u64),
}

impl Display for SecretsRemark {
    fn fmt<W: Write>(&self, f: &mut Formatter<W>) -> fmt::Result {
        match self {
            SecretsRemark::SharedSecret(line) => write!(
                f,
                "line {line}: an earlier user has this secret, so each may log in as the other"
            ),
            SecretsRemark::Capital(line) => write!(
                f,
                "line {line}: a capital letter in IQN; most initiators send small letters alone"
            ),
        }
    }
}
