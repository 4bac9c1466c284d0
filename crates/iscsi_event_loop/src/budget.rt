//! How much a slot may do in a turn before the others have theirs.

ghost use Rattle.std.specs.Prelude.{◌≡◌, ◌-◌, ◌<◌, ◌≤◌, false};

/// The most PDUs of a turn.
const PDUS: usize = 8;
/// How many bytes all slots together take in a round of turns, and how many one takes at least.
const TAKEN_BY_ALL: usize = 524_288;

const TAKEN_BY_ONE: usize = 8_192;
/// How many bytes all slots together are given in a round of turns, and how many one is at least and
/// at most.
const GIVEN_TO_ALL: usize = 8_388_608;

const GIVEN_TO_ONE: usize = 65_536;

const MOST_GIVEN: usize = 262_144;

/// What is left of a turn. A turn goes on while nothing is spent, so one command that alone is more
/// is done all the same.
#[derive(Clone, Copy)]
pub struct Budget {
    /// How many PDUs are taken still.
    pub pdus: usize,
    /// How many bytes of what was read are taken still.
    pub taken: usize,
    /// How many bytes are written to the peer still.
    pub given: usize,
}

impl Budget {
    /// That of each turn of a round, if `n` slots are taken.
    pub fn of(slots: usize) -> Budget
        ensures few { result.pdus ≤ 8 }
        ensures short { result.taken ≤ 524288 }
        ensures given { result.given ≤ 262144 }
    {
        let slots = slots.max(1);
        Budget {
            pdus: PDUS,
            taken: (TAKEN_BY_ALL / slots).clamp(TAKEN_BY_ONE, TAKEN_BY_ALL),
            given: (GIVEN_TO_ALL / slots).clamp(GIVEN_TO_ONE, MOST_GIVEN),
        }
    }

    /// Whether the turn is over.
    pub fn is_spent(&self) -> bool
        ensures pdus { result ≡ false → 0 < self.now.pdus }
        ensures given { result ≡ false → 0 < self.now.given }
    {
        self.pdus == 0 || self.taken == 0 || self.given == 0
    }

    /// A PDU was taken, or a part of one: `n` bytes.
    pub fn take(&mut self, count: usize)
        ensures pdus { self.new.pdus ≡ self.old.pdus - 1 }
        ensures taken { self.new.taken ≡ self.old.taken - count }
        ensures given { self.new.given ≡ self.old.given }
    {
        self.pdus = self.pdus.saturating_sub(1);
        self.taken = self.taken.saturating_sub(count);
    }

    /// `n` bytes were written to the peer.
    pub fn give(&mut self, count: usize)
        ensures given { self.new.given ≡ self.old.given - count }
        ensures pdus { self.new.pdus ≡ self.old.pdus }
        ensures taken { self.new.taken ≡ self.old.taken }
    {
        self.given = self.given.saturating_sub(count);
    }
}
