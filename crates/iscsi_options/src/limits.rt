//! How long a peer may keep its slot.

ghost use Rattle.std.specs.Prelude.{◌≡◌, option_map};
ghost use Rattle.std.specs.Duration.{as_nanos};
ghost use Rattle.iscsi_options.specs.Limits.{limit_left, shorter, time_left};

use iscsi_login::Phase;
use std::time::Duration;

/// For how many seconds a peer may take none of the last answers of a closed session (own rule).
pub const LAST_WRITE: u64 = 30;

/// For how many seconds a connection may keep its slot without a login, if no other time is asked for.
pub const LOGIN_WITHIN: u16 = 30;

/// How long a peer may keep its slot, in seconds; RFC 7143 leaves that to the target.
#[derive(Clone, Copy, Debug)]
pub struct Limits {
    /// The longest silence, in which no byte goes either way, 1 to 65535; none: any.
    pub idle: Option<u16>,
    /// The longest time from the accepted connection to full feature phase, 1 to 65535; none: any.
    pub login_within: Option<u16>,
}

impl Limits {
    /// How long a session in this phase goes on if no byte comes, by the times since its connection was
    /// accepted and since its last byte; `None` if for ever.
    pub fn time_left(&self, phase: Phase, accepted: Duration, silent: Duration) -> Option<Duration>
        ensures left { option_map as_nanos result
            ≡ time_left self.now phase (as_nanos accepted) (as_nanos silent) }
    {
        let idle = left(self.idle.map(u64::from), silent);
        match phase {
            Phase::Login => sooner(idle, left(self.login_within.map(u64::from), accepted)),
            Phase::Full => idle,
            Phase::Closed => sooner(idle, left(Some(LAST_WRITE), silent)),
        }
    }
}

// What is left of a limit in seconds after this time.
fn left(limit: Option<u64>, gone: Duration) -> Option<Duration>
    ensures { option_map as_nanos result ≡ limit_left limit (as_nanos gone) }
{
    match limit {
        Some(limit) => Some(Duration::from_secs(limit).saturating_sub(gone)),
        None => None,
    }
}

/// The shorter of two times, of which `None` is the longest.
pub fn sooner(one: Option<Duration>, other: Option<Duration>) -> Option<Duration>
    ensures { option_map as_nanos result
        ≡ shorter (option_map as_nanos one) (option_map as_nanos other) }
{
    match (one, other) {
        (Some(one), Some(other)) => Some(one.min(other)),
        (None, left) | (left, None) => left,
    }
}
