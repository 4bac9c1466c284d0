//! Why secrets are refused.

ghost use Rattle.std.specs.Prelude.{◌≡◌};
ghost use Rattle.iscsi_secrets.specs.declared.fault.SecretsFault.TheVariants.{NoMemory};

use std::alloc::{AllocError, AllocFailed};
use thiserror::Error;

/// Why secrets are refused. Lines are counted from 1, and no text of the file is in it.
#[derive(Clone, Copy, Debug, PartialEq, Eq, Error)]
pub enum SecretsFault {
    /// The file cannot be opened.
    #[error("cannot be opened")]
    NotOpened,
    /// It is no regular file.
    #[error("is no regular file")]
    NoFile,
    /// It belongs to another user than the process runs as.
    #[error("belongs to another user")]
    NotOwned,
    /// Others than its owner may do something with it.
    #[error("may be used by others than its owner")]
    Exposed,
    /// It cannot be read.
    #[error("cannot be read")]
    NotRead,
    /// The text has more than 65,536 bytes.
    #[error("has more than 65536 bytes")]
    TooLong,
    /// A word has a `#` in it, but not at its head, where it would begin a comment.
    #[error("line {0}: a '#' inside a word; a comment begins at the start or behind a blank")]
    NumberSign(u64),
    /// The line is of neither form.
    #[error("line {0}: this is neither 'user NAME SECRET [IQN]' nor 'target NAME SECRET'")]
    BadLine(u64),
    /// The name has more than 255 bytes, or a control character.
    #[error("line {0}: a name has at most 255 bytes, and no control character")]
    BadName(u64),
    /// The secret begins as a large binary value, and is none.
    #[error("line {0}: behind 0x a secret is hex digits, behind 0b base64")]
    BadBinary(u64),
    /// The secret has fewer than 12 bytes, or more than 255.
    #[error("line {0}: a secret has 12 to 255 bytes")]
    BadSecret(u64),
    /// An earlier line has the name.
    #[error("line {0}: an earlier line has this name")]
    SameName(u64),
    /// The secret of the target is that of a user.
    #[error("line {0}: the target and a user have the same secret")]
    SameSecret(u64),
    /// It would be the 65th user.
    #[error("line {0}: there are more than 64 users")]
    TooManyUsers(u64),
    /// It would be a second target.
    #[error("line {0}: there is more than one target")]
    SecondTarget(u64),
    /// Memory ran out.
    #[error("memory")]
    NoMemory,
}

impl From<AllocError> for SecretsFault {
    ghost from_gives = { λ _ e. e ≡ NoMemory };

    fn from(_e: AllocError) -> SecretsFault {
        SecretsFault::NoMemory
    }
}

impl<T: Drop> From<AllocFailed<T>> for SecretsFault {
    ghost from_gives = { λ _ e. e ≡ NoMemory };

    fn from(_e: AllocFailed<T>) -> SecretsFault {
        SecretsFault::NoMemory
    }
}
