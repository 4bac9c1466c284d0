//! The negotiated keys, and the table of their rules and defaults (RFC 7143, sections 13 and 12.1).

ghost use Rattle.std.specs.Prelude.{◌≡◌, ◌↔◌, ◌<◌, length, true, false, IsTrue};
ghost use Rattle.iscsi_text.specs.Negotiated.{all_keys, rule_of, name_of, key_named, kind_by, default_of, is_irrelevant, key_place, row, IsWithin};
ghost use Rattle.iscsi_text.specs.declared.negotiated.Rule.TheVariants as rules;
ghost use Rattle.iscsi_text.specs.declared.negotiated.Answered.TheVariants as answers;

use crate::key::KeyKind;
use crate::negotiated::Rule::{And, Maximum, Minimum, Or};

/// A key that an initiator offers and whose value the target's answer settles.
///
/// The other known keys are declared by one end, or obsolete. Each has its section of RFC 7143.
#[derive(Clone, Copy, Debug, PartialEq, Eq)]
pub enum NegKey {
    /// Connections of a session, 1 to 65535, the lesser (13.2). Default 1.
    MaxConnections,
    /// Whether a write waits to be asked for its data, `Yes` where either end says so (13.10).
    /// Default `Yes`.
    InitialR2T,
    /// Whether a command may carry data, `Yes` where both ends say so (13.11). Default `Yes`.
    ImmediateData,
    /// Bytes of one sequence of data, 512 to 16777215, the lesser (13.13). Default 262144.
    MaxBurstLength,
    /// Bytes that a write sends before it is asked, 512 to 16777215, the lesser (13.14).
    /// Default 65536.
    FirstBurstLength,
    /// Seconds before a lost connection is made anew, 0 to 3600, the greater (13.15). Default 2.
    DefaultTime2Wait,
    /// Seconds after that for which tasks are kept, 0 to 3600, the lesser (13.16). Default 20.
    DefaultTime2Retain,
    /// Requests for data that a command may have open, 1 to 65535, the lesser (13.17). Default 1.
    MaxOutstandingR2T,
    /// Whether the data PDUs of a sequence come in order, `Yes` where either end says so (13.18).
    /// Default `Yes`.
    DataPDUInOrder,
    /// Whether sequences come in order, `Yes` where either end says so (13.19). Default `Yes`.
    DataSequenceInOrder,
    /// 0 to 2, the lesser (13.20). Default 0.
    ErrorRecoveryLevel,
    /// Digests of headers: `None` alone can be agreed here (13.1). Default `None`.
    HeaderDigest,
    /// Digests of data: `None` alone can be agreed here (13.1). Default `None`.
    DataDigest,
    /// Ways of authentication: `None` alone can be agreed here (12.1). Default `None` (own rule).
    AuthMethod,
}

/// A value of a negotiated key, or that there is none.
#[derive(Clone, Copy, Debug, PartialEq, Eq)]
pub enum Answered {
    /// Of a key with numbers.
    Number(u32),
    /// Of a boolean key: `Yes` is true, `No` is false.
    Flag(bool),
    /// Of a key with a list: the item `None`.
    NoneItem,
    /// No value. It stands in answers, and is never held.
    Reject,
}

/// What a session is for (RFC 7143, section 13.21).
#[derive(Clone, Copy, Debug, PartialEq, Eq)]
pub enum Session {
    /// All that an initiator asks of a target.
    Normal,
    /// To learn the names of targets.
    Discovery,
}

/// Which values a key may have, and how an offer and a preference give one of them
/// (RFC 7143, section 6.2).
#[derive(Clone, Copy, Debug, PartialEq, Eq)]
pub enum Rule {
    /// A number in the range: the lesser.
    Minimum(Range),
    /// A number in the range: the greater.
    Maximum(Range),
    /// A boolean: `Yes` where either is.
    Or,
    /// A boolean: `Yes` where both are.
    And,
    /// A list: the first offered item that is `None`, the one that each end takes here.
    NoneItem,
}

/// Numbers from `low` to `high`, both included.
#[derive(Clone, Copy, Debug, PartialEq, Eq)]
pub struct Range {
    /// The least.
    pub low: u32,
    /// The greatest.
    pub high: u32,
}

impl Rule {
    /// The kind of the values of a key with this rule (RFC 7143, section 6.1).
    pub(crate) fn kind(self) -> KeyKind
        ensures { result ≡ kind_by self }
    {
        match self {
            Rule::Minimum(_) | Rule::Maximum(_) => KeyKind::Number,
            Rule::Or | Rule::And => KeyKind::Boolean,
            Rule::NoneItem => KeyKind::Items,
        }
    }
}

impl Range {
    /// Whether the number is in the range.
    pub fn contains(self, n: u64) -> bool
        ensures within { IsTrue result ↔ IsWithin self n }
    {
        u64::from(self.low) <= n && n <= u64::from(self.high)
    }
}

/// Bytes of a burst or of a segment (RFC 7143, sections 13.12 to 13.14).
pub const BYTES: Range = Range {
    low: 512,
    high: 16777215,
};

/// Seconds (RFC 7143, sections 13.15 and 13.16).
pub const SECONDS: Range = Range { low: 0, high: 3600 };

// Recovery levels (RFC 7143, section 13.20).
const LEVEL: Range = Range { low: 0, high: 2 };

// Connections, and requests for data (RFC 7143, sections 13.2 and 13.17).
const COUNT: Range = Range {
    low: 1,
    high: 65535,
};

// The table: of each key, in the order of the variants, its name, its values and result function,
// and its default (RFC 7143, sections 13 and 12.1). What else lists the keys is made from it.
macro_rules! table {
    ($made:ident $($key:expr)?) => {
        $made! {
            $($key;)?
            MaxConnections => Row::number(b"MaxConnections", Minimum(COUNT), 1),
            InitialR2T => Row::flag(b"InitialR2T", Or),
            ImmediateData => Row::flag(b"ImmediateData", And),
            MaxBurstLength => Row::number(b"MaxBurstLength", Minimum(BYTES), 262144),
            FirstBurstLength => Row::number(b"FirstBurstLength", Minimum(BYTES), 65536),
            DefaultTime2Wait => Row::number(b"DefaultTime2Wait", Maximum(SECONDS), 2),
            DefaultTime2Retain => Row::number(b"DefaultTime2Retain", Minimum(SECONDS), 20),
            MaxOutstandingR2T => Row::number(b"MaxOutstandingR2T", Minimum(COUNT), 1),
            DataPDUInOrder => Row::flag(b"DataPDUInOrder", Or),
            DataSequenceInOrder => Row::flag(b"DataSequenceInOrder", Or),
            ErrorRecoveryLevel => Row::number(b"ErrorRecoveryLevel", Minimum(LEVEL), 0),
            HeaderDigest => Row::list(b"HeaderDigest"),
            DataDigest => Row::list(b"DataDigest"),
            AuthMethod => Row::list(b"AuthMethod"),
        }
    };
}

// The keys of the table.
macro_rules! keys_of {
    ($($name:ident => $row:expr,)*) => { [$(NegKey::$name),*] };
}

// How many keys the table has.
macro_rules! count_of {
    ($($name:ident => $row:expr,)*) => { [$(NegKey::$name),*].len() };
}

/// How many keys are negotiated.
pub const NEGOTIATED_KEYS: usize = table!(count_of);

// The row of a key.
macro_rules! row_of {
    ($key:expr; $($name:ident => $row:expr,)*) => { match $key { $(NegKey::$name => $row,)* } };
}

impl NegKey {
    /// Every key once, in the order of the variants.
    pub const ALL: [NegKey; NEGOTIATED_KEYS] = table!(keys_of);

    /// The key as it stands in a text.
    pub fn name(self) -> &'static [u8]
        ensures name { result.now ≡ name_of self }
    {
        self.row().name
    }

    /// The negotiated key of this name, and `None` for every other key. Case counts.
    pub fn named(name: &[u8]) -> Option<NegKey>
        ensures key { result ≡ key_named name.now }
    {
        NegKey::ALL.iter().copied().find(|key| key.name() == name)
    }

    /// Which values the key may have, and its result function.
    pub fn rule(self) -> Rule
        ensures rule { result ≡ rule_of self }
    {
        self.row().rule
    }

    /// The value that is held where none was agreed.
    pub fn default_value(self) -> Answered
        ensures default { result ≡ default_of self }
    {
        self.row().default
    }

    /// Whether the session answers an offer of the key by `Irrelevant`.
    ///
    /// A discovery session does so for all keys but the digests and `AuthMethod` (own rule: RFC
    /// 7143, section 13, names some of them).
    pub fn is_irrelevant(self, session: Session) -> bool
        ensures irrelevant { result ≡ is_irrelevant session self }
    {
        session == Session::Discovery && self.row().irrelevant
    }

    /// The key's place in `ALL`.
    pub fn place(self) -> usize
        ensures place { result ≡ key_place self }
        ensures bound { result < length all_keys }
    {
        self as usize
    }

    // What the table has for the key.
    fn row(self) -> Row
        ensures name { result.name.now ≡ name_of self }
        ensures rule { result.rule ≡ rule_of self }
        ensures default { result.default ≡ default_of self }
        ensures irrelevant { result.irrelevant ≡ (row self).irrelevant }
    {
        table!(row_of self)
    }
}

// What the table has for a key.
#[derive(Clone, Copy)]
struct Row {
    name: &'static [u8],
    rule: Rule,
    default: Answered,
    // whether a discovery session answers the key by `Irrelevant`
    irrelevant: bool,
}

impl Row {
    // A key with a number.
    fn number(name: &'static [u8], rule: Rule, default: u32) -> Row
        ensures name { result.name.now ≡ name.entry.now }
        ensures rule { result.rule ≡ rule }
        ensures default { result.default ≡ answers.Number default }
        ensures irrelevant { result.irrelevant ≡ true }
    {
        Row {
            name,
            rule,
            default: Answered::Number(default),
            irrelevant: true,
        }
    }

    // A key that is `Yes` or `No`, by default `Yes`.
    fn flag(name: &'static [u8], rule: Rule) -> Row
        ensures name { result.name.now ≡ name.entry.now }
        ensures rule { result.rule ≡ rule }
        ensures default { result.default ≡ answers.Flag true }
        ensures irrelevant { result.irrelevant ≡ true }
    {
        Row {
            name,
            rule,
            default: Answered::Flag(true),
            irrelevant: true,
        }
    }

    // A key with a list of which `None` alone is taken here.
    fn list(name: &'static [u8]) -> Row
        ensures name { result.name.now ≡ name.entry.now }
        ensures rule { result.rule ≡ rules.NoneItem }
        ensures default { result.default ≡ answers.NoneItem }
        ensures irrelevant { result.irrelevant ≡ false }
    {
        Row {
            name,
            rule: Rule::NoneItem,
            default: Answered::NoneItem,
            irrelevant: false,
        }
    }
}
