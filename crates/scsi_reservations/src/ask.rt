//! What PERSISTENT RESERVE OUT asks, and what is answered.

ghost use Rattle.std.specs.Prelude.{◌≡◌};
ghost use Rattle.scsi_reservations.specs.Blocks.{action_of, ask_in, type_in, registers};

use crate::kind::Kind;
use crate::refusal::Refusal;
use scsi_cdb::layout::{bit, bits, u32_at, u64_at};

/// The bytes of a parameter list.
const LIST_LENGTH: usize = 24;

/// The byte of the list that has its bits.
const FLAGS: usize = 20;

/// SPEC_I_PT: other ports are to be registered, too.
const OTHER_PORTS: u8 = 0x08;

/// APTPL: registrations are to last when the power is lost.
const LASTS: u8 = 0x01;

/// The service actions that are taken (SPC-4, section 6.16).
#[derive(Clone, Copy, Debug, PartialEq, Eq)]
pub enum Action {
    /// 00: register with a key, change it, or give it up.
    Register,
    /// 01: hold a reservation of this type.
    Reserve(Kind),
    /// 02: give up the reservation of this type.
    Release(Kind),
    /// 03: nobody is registered any more, and nothing is reserved.
    Clear,
    /// 04: take the ports of a key off, and hold this type if one of them did.
    Preempt(Kind),
    /// 05: the same, and their commands end. They end as they come to be executed.
    PreemptAndAbort(Kind),
    /// 06: register, whatever the key was.
    RegisterAndIgnore,
}

/// What is asked for: the action, and the parameter list (SPC-4, section 6.16.3).
#[derive(Clone, Copy, Debug, PartialEq, Eq)]
pub struct Ask {
    /// The action.
    pub action: Action,
    /// The key of the port that asks.
    pub key: u64,
    /// The key to register, or that of the ports to preempt.
    pub service_key: u64,
    /// APTPL: registrations last when the power is lost. Of the actions that register alone.
    pub lasts: bool,
}

/// What is answered.
#[derive(Clone, Copy, Debug, PartialEq, Eq)]
pub enum Verdict {
    /// GOOD.
    Good,
    /// RESERVATION CONFLICT: nothing has changed.
    Conflict,
    /// CHECK CONDITION: nothing has changed.
    Refused(Refusal),
}

impl Action {
    /// What a block of PERSISTENT RESERVE OUT asks (SPC-4, section 6.16.2).
    ///
    /// Refused are, in this order: a list of other than 24 bytes (1A/00), an action that is not taken, and,
    /// of an action with a type, another scope than that of a logical unit and an unknown type (24/00).
    pub fn read(block: &[u8; 16]) -> Result<Action, Refusal>
        ensures { result ≡ action_of block.now }
    {
        if u32_at(block, 5) != 24 {
            return Err(Refusal::ListLength);
        }
        let kind = type_in(block);
        match (bits(block, 1, 0x1f), kind) {
            (0x00, _) => Ok(Action::Register),
            (0x01, Some(kind)) => Ok(Action::Reserve(kind)),
            (0x02, Some(kind)) => Ok(Action::Release(kind)),
            (0x03, _) => Ok(Action::Clear),
            (0x04, Some(kind)) => Ok(Action::Preempt(kind)),
            (0x05, Some(kind)) => Ok(Action::PreemptAndAbort(kind)),
            (0x06, _) => Ok(Action::RegisterAndIgnore),
            _ => Err(Refusal::InvalidField),
        }
    }

    /// What the action asks with its list (SPC-4, section 6.16.3). `can_last` says whether registrations
    /// can last when the power is lost.
    ///
    /// Refused are a list of other than 24 bytes (1A/00), and of an action that registers the bits
    /// SPEC_I_PT, and APTPL where nothing lasts (26/00).
    pub fn with_list(self, can_last: bool, list: &[u8]) -> Result<Ask, Refusal>
        ensures { result ≡ ask_in self can_last list.now }
    {
        if list.len() != LIST_LENGTH {
            return Err(Refusal::ListLength);
        }
        let registers = self.registers();
        let lasts = bit(list, FLAGS, LASTS);
        if registers && (bit(list, FLAGS, OTHER_PORTS) || lasts && !can_last) {
            return Err(Refusal::InvalidParameter);
        }
        Ok(Ask {
            action: self,
            key: u64_at(list, 0),
            service_key: u64_at(list, 8),
            lasts: registers && lasts,
        })
    }

    // Whether it is one of the two that register.
    fn registers(self) -> bool
        ensures { result ≡ registers self }
    {
        matches!(self, Action::Register | Action::RegisterAndIgnore)
    }
}

// The type of a block with the scope of a logical unit.
fn type_in(block: &[u8; 16]) -> Option<Kind>
    ensures { result ≡ type_in block.now }
{
    if bits(block, 2, 0xf0) == 0 {
        Kind::of_code(bits(block, 2, 0x0f))
    } else {
        None
    }
}
