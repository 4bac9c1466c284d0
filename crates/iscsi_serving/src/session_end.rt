//! Why a session of a slot ends, where it has a line.

ghost use Rattle.std.specs.Prelude.{◌≡◌};
ghost use Rattle.iscsi_serving.specs.Ending.{broken_limit, end_of, is_passed};

use iscsi_login::Phase;
use iscsi_options::{LAST_WRITE, Limits};
use iscsi_target::TargetFault;
use thiserror::Error;

/// Why a session of a slot ends, but for a logout, a refused login and an end between two PDUs. The
/// service goes on, but for `Sync`, which ends it.
#[derive(Clone, Copy, Debug, PartialEq, Eq, Error)]
pub enum SessionEnd {
    /// The target refuses what its initiator sent; a want of memory is told apart.
    #[error(transparent)]
    Target(TargetFault),
    /// The session had no memory.
    #[error("memory")]
    NoMemory,
    /// A read of the connection failed.
    #[error("read failed")]
    Read,
    /// A write to the connection failed, or took no byte.
    #[error("write failed")]
    Write,
    /// What its commands wrote cannot be made to last, so they are not answered.
    #[error("sync failed")]
    Sync,
    /// No byte went either way for as long as a peer may be silent.
    #[error("session: idle")]
    Idle,
    /// The peer had not logged in when its time for that was over.
    #[error("session: login too late")]
    LoginTooLate,
    /// The same port of an initiator logged in once more, and that session took its place (RFC
    /// 7143, section 6.3.5).
    #[error("session: taken over")]
    TakenOver,
    /// All slots were taken by connections that had not logged in, and another one came. This one was
    /// the oldest.
    #[error("session: made room")]
    MadeRoom,
    /// The last login was completed that is to be, and this peer had not logged in.
    #[error("session: no more logins")]
    NoMoreLogins,
}

impl SessionEnd {
    /// The end of a session by a fault of its target. A want of memory has a variant of its own.
    pub fn of(fault: TargetFault) -> SessionEnd
        ensures { result ≡ end_of fault }
    {
        match fault {
            TargetFault::NoMemory => SessionEnd::NoMemory,
            TargetFault::Stream(_) | TargetFault::Protocol(_) | TargetFault::Closed => {
                SessionEnd::Target(fault)
            }
        }
    }

    /// Why a session in this phase is ended, by the whole seconds since its connection was accepted
    /// and since its last byte. `None` if it goes on. A late login is told before a silence; a
    /// closed session whose last answers aren't taken is ended after 30 seconds in any case (own
    /// rule).
    pub fn by_limits(
        limits: &Limits,
        phase: Phase,
        accepted: u64,
        silent: u64,
    ) -> Option<SessionEnd>
        ensures broken { result ≡ broken_limit limits.now phase accepted silent }
    {
        let is_idle = is_over(limits.idle, silent);
        match phase {
            Phase::Login if is_over(limits.login_within, accepted) => Some(
                SessionEnd::LoginTooLate,
            ),
            Phase::Login | Phase::Full if is_idle => Some(SessionEnd::Idle),
            Phase::Closed if is_idle || LAST_WRITE <= silent => Some(SessionEnd::Idle),
            Phase::Login | Phase::Full | Phase::Closed => None,
        }
    }
}

// Whether there is a limit, and `n` seconds reach it.
fn is_over(limit: Option<u16>, seconds: u64) -> bool
    ensures { result ≡ is_passed limit seconds }
{
    match limit {
        Some(limit) => u64::from(limit) <= seconds,
        None => false,
    }
}
