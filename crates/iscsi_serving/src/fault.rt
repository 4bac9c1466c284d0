//! Why a service, or a session over a socket, ends early.

ghost use Rattle.std.specs.Prelude.{◌≡◌};
ghost use Rattle.iscsi_serving.specs.Faults.{serve_exit_status};

use iscsi_initiator::InitiatorFault;
use iscsi_target::TargetFault;
use std::alloc::AllocError;
use thiserror::Error;

/// Why a session over a socket ends early.
#[derive(Debug, Drop, Error)]
pub enum ServeFault {
    /// Memory ran out.
    #[error("memory")]
    NoMemory,
    /// The target refuses what its initiator sent; the fault is never `NoMemory`.
    #[error(transparent)]
    Target(TargetFault),
    /// The initiator refuses what its target sent; the fault is never `NoMemory`.
    #[error(transparent)]
    Initiator(InitiatorFault),
    /// The line of this number, counted from 1, is no line of a script.
    #[error("script: line {0}")]
    Script(u64),
    /// A socket could not be opened or failed, no connection was accepted, or the two ends kept
    /// exchanging PDUs past the limit.
    #[error("network failed")]
    Network,
    /// A read failed, or there were 16,777,216 of them.
    #[error("read failed")]
    Read,
    /// A write failed, or took no byte.
    #[error("write failed")]
    Write,
    /// What was written to the store could not be made to last.
    #[error("sync failed")]
    Sync,
    /// The system gives no random bytes, which a challenge is made of.
    #[error("no random bytes")]
    NoRandom,
}

impl ServeFault {
    /// The exit status of the fault: 1 where what came is refused, 3 for memory, 4 for reading,
    /// writing, a sync, random bytes and the network.
    pub fn status(&self) -> u8
        ensures status { result ≡ serve_exit_status self.now }
    {
        match self {
            ServeFault::Target(_) | ServeFault::Initiator(_) | ServeFault::Script(_) => 1,
            ServeFault::NoMemory => 3,
            ServeFault::Network
            | ServeFault::Read
            | ServeFault::Sync
            | ServeFault::NoRandom
            | ServeFault::Write => 4,
        }
    }
}

impl From<AllocError> for ServeFault {
    ghost use Rattle.std.specs.Prelude.{◌≡◌};
    ghost use Rattle.iscsi_serving.specs.declared.fault.ServeFault.TheVariants as serve;

    ghost from_gives = { λ _ e. e ≡ serve.NoMemory };

    fn from(_e: AllocError) -> ServeFault {
        ServeFault::NoMemory
    }
}

impl From<TargetFault> for ServeFault {
    ghost use Rattle.std.specs.Prelude.{◌≡◌};
    ghost use Rattle.iscsi_serving.specs.Faults.{target_serve_fault};

    ghost from_gives = { λ fault e. e ≡ target_serve_fault fault };

    fn from(fault: TargetFault) -> ServeFault {
        match fault {
            TargetFault::NoMemory => ServeFault::NoMemory,
            _ => ServeFault::Target(fault),
        }
    }
}

impl From<InitiatorFault> for ServeFault {
    ghost use Rattle.std.specs.Prelude.{◌≡◌};
    ghost use Rattle.iscsi_serving.specs.Faults.{initiator_serve_fault};

    ghost from_gives = { λ fault e. e ≡ initiator_serve_fault fault };

    fn from(fault: InitiatorFault) -> ServeFault {
        match fault {
            InitiatorFault::NoMemory => ServeFault::NoMemory,
            fault => ServeFault::Initiator(fault),
        }
    }
}
