//! What happens to a pair, and why one of its ends fails.

ghost use Rattle.std.specs.Prelude.{◌≡◌};
ghost use Rattle.std.specs.Result.{result_err};
ghost use Rattle.iscsi_pair.specs.World.{feed_fault, initiator_ran_out, submit_fault, target_ran_out};

use iscsi_initiator::{InitiatorFault, Refused, Request, SubmitFault};
use iscsi_login::Phase;
use iscsi_target::TargetFault;
use thiserror::Error;

/// A step of a pair.
#[derive(Drop)]
pub enum Step {
    /// `n` bytes of those queued for the target reach it, or all where fewer are queued.
    ToTarget(usize),
    /// `n` bytes of those queued for the initiator reach it, or all where fewer are queued.
    ToInitiator(usize),
    /// The initiator is handed a request.
    Submit(Request),
}

/// Why the initiator of a pair failed.
#[derive(Debug, Drop, Error)]
pub enum EndFault {
    /// What it was fed closed its session.
    #[error(transparent)]
    Feed(InitiatorFault),
    /// It refused a request.
    #[error(transparent)]
    Submit(SubmitFault),
}

/// Why a pair did not serve all that it was asked.
#[derive(Clone, Copy, Debug, Drop, Error)]
pub enum RunFault {
    /// Memory ran out.
    #[error("memory")]
    NoMemory,
    /// An end failed or refused a request, or bytes are still on their way.
    #[error("not served")]
    NotServed,
}

// The fault that a piece led to, if it led to one.
pub(crate) fn feed_fault(fed: Result<Phase, InitiatorFault>) -> Option<EndFault>
    ensures { result ≡ feed_fault (result_err fed) }
{
    match fed {
        Ok(_) => None,
        Err(fault) => Some(EndFault::Feed(fault)),
    }
}

// The refusal of a request, if it was refused; the request is dropped.
pub(crate) fn submit_fault(submitted: Result<(), Refused>) -> Option<EndFault>
    ensures { result ≡ submit_fault (result_err submitted) }
{
    match submitted {
        Ok(()) => None,
        Err(refused) => Some(EndFault::Submit(refused.fault)),
    }
}

// Whether memory ran out at the target.
pub(crate) fn target_ran_out(fault: &Option<TargetFault>) -> bool
    ensures { result ≡ target_ran_out fault.now }
{
    match fault {
        Some(TargetFault::NoMemory) => true,
        _ => false,
    }
}

// Whether memory ran out at the initiator.
pub(crate) fn initiator_ran_out(fault: &Option<EndFault>) -> bool
    ensures { result ≡ initiator_ran_out fault.now }
{
    match fault {
        Some(EndFault::Feed(InitiatorFault::NoMemory)) => true,
        Some(EndFault::Submit(SubmitFault::NoMemory)) => true,
        _ => false,
    }
}
