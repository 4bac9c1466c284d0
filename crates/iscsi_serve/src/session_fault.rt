//! Why a session over a stream ends early.

use iscsi_serving::ServeFault;
use iscsi_stream::ReadFault;
use iscsi_target::TargetFault;
use thiserror::Error;

/// Why a session over a stream ends early.
#[derive(Clone, Copy, Debug, PartialEq, Eq, Error)]
pub enum SessionFault {
    /// Memory ran out.
    #[error("memory")]
    NoMemory,
    /// The target refuses what its initiator sent; the fault is never `NoMemory`.
    #[error(transparent)]
    Target(TargetFault),
    /// A read failed, or there were 16,777,216 of them.
    #[error("read failed")]
    Read,
    /// What was written to the store could not be made to last. The answers that waited were not
    /// sent.
    #[error("sync failed")]
    Sync,
    /// A write failed, or took no byte.
    #[error("write failed")]
    Write,
}

impl From<TargetFault> for SessionFault {
    ghost use Rattle.std.specs.Prelude.{◌≡◌};
    ghost use Rattle.iscsi_serve.specs.Session.{ended_by};

    ghost from_gives = { λ fault e. e ≡ ended_by fault };

    fn from(fault: TargetFault) -> SessionFault {
        match fault {
            TargetFault::NoMemory => SessionFault::NoMemory,
            TargetFault::Stream(_) | TargetFault::Protocol(_) | TargetFault::Closed => {
                SessionFault::Target(fault)
            }
        }
    }
}

impl From<ReadFault> for SessionFault {
    ghost use Rattle.std.specs.Prelude.{◌≡◌};
    ghost use Rattle.iscsi_serve.specs.declared.session_fault.SessionFault.TheVariants as faults;

    ghost from_gives = { λ _ e. e ≡ faults.Read };

    fn from(_fault: ReadFault) -> SessionFault {
        SessionFault::Read
    }
}

impl From<SessionFault> for ServeFault {
    ghost use Rattle.std.specs.Prelude.{◌≡◌};
    ghost use Rattle.iscsi_serve.specs.Serving.{session_fault};

    ghost from_gives = { λ fault e. e ≡ session_fault fault };

    fn from(fault: SessionFault) -> ServeFault {
        match fault {
            SessionFault::NoMemory => ServeFault::NoMemory,
            SessionFault::Target(fault) => ServeFault::from(fault),
            SessionFault::Read => ServeFault::Read,
            SessionFault::Sync => ServeFault::Sync,
            SessionFault::Write => ServeFault::Write,
        }
    }
}
