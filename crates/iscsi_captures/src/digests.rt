//! Which digests a session has, by the texts of its login (RFC 7143, section 13.1).

/// Which parts of a PDU have a sum behind them.
#[derive(Clone, Copy, PartialEq, Eq)]
pub(crate) struct Digests {
    /// The header.
    pub(crate) header: bool,
    /// The segment with its padding, where there is one.
    pub(crate) data: bool,
}

impl Digests {
    /// None has.
    pub(crate) const NONE: Digests = Digests {
        header: false,
        data: false,
    };

    /// The ones that a session can have, the commonest first.
    pub(crate) const ALL: [Digests; 4] = [
        Digests::NONE,
        Digests {
            header: true,
            data: true,
        },
        Digests {
            header: true,
            data: false,
        },
        Digests {
            header: false,
            data: true,
        },
    ];

    /// How many bytes the sums of a PDU have whose segment has this length.
    pub(crate) fn len(self, segment: usize) -> usize {
        let header = if self.header { 4 } else { 0 };
        let data = if self.data && segment > 0 { 4 } else { 0 };
        header + data
    }

    /// Whether no part has a sum.
    pub(crate) fn are_none(self) -> bool {
        !self.header && !self.data
    }
}

/// What an end said of one digest.
#[derive(Clone, Copy)]
struct Offer {
    // CRC32C is one of its values
    lists: bool,
    // and it is the only one
    alone: bool,
}

impl Offer {
    // Nothing was said.
    const NONE: Offer = Offer {
        lists: false,
        alone: false,
    };

    // What a value says.
    fn of(value: &[u8]) -> Offer {
        Offer {
            lists: value
                .split(|byte| *byte == b',')
                .any(|item| item == b"CRC32C".as_slice()),
            alone: value == b"CRC32C".as_slice(),
        }
    }

    // Whether both ends agree on CRC32C: one of them offered it, and the other answered it.
    fn agrees(self, other: Offer) -> bool {
        self.lists && other.lists && (self.alone || other.alone)
    }
}

/// What an end said of digests in its login.
#[derive(Clone, Copy)]
pub(crate) struct Offers {
    header: Offer,
    data: Offer,
}

impl Offers {
    /// Nothing was said.
    pub(crate) const NONE: Offers = Offers {
        header: Offer::NONE,
        data: Offer::NONE,
    };

    /// Takes the text of a login PDU.
    pub(crate) fn take(&mut self, text: &[u8]) {
        for pair in text.split(|byte| *byte == 0) {
            if let Some(value) = pair.strip_prefix(b"HeaderDigest=".as_slice()) {
                self.header = Offer::of(value);
            }
            if let Some(value) = pair.strip_prefix(b"DataDigest=".as_slice()) {
                self.data = Offer::of(value);
            }
        }
    }

    /// What both ends agreed on.
    pub(crate) fn agreed(self, other: Offers) -> Digests {
        Digests {
            header: self.header.agrees(other.header),
            data: self.data.agrees(other.data),
        }
    }
}
