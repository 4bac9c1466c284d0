//! How a service takes its connections, and what stops one that takes them in turn.

ghost use Rattle.std.specs.Prelude.{IfErr};
ghost use Rattle.iscsi_serving.specs.Faults.{EndsService};

use iscsi_serving::ServeFault;

/// How a service takes its connections.
#[derive(Clone, Copy)]
pub enum Manner {
    /// Several at a time. Whatever happens within a session ends it alone.
    AtOnce,
    /// One after another, without a limit of time; why the service stops early, if it does.
    InTurn(Option<Failure>),
}

/// Why a service that takes connections in turn stops early.
#[derive(Clone, Copy)]
pub enum Failure {
    /// Memory ran out, in a session too.
    NoMemory,
    /// The system accepts nobody.
    Network,
}

impl Manner {
    /// Whether connections are taken in turn.
    pub fn is_in_turn(&self) -> bool {
        matches!(self, Manner::InTurn(_))
    }

    /// Notes what stops a service that takes connections in turn. It stops no other one.
    pub fn stop_by(&mut self, failure: Failure) {
        if self.is_in_turn() {
            *self = Manner::InTurn(Some(failure));
        }
    }

    /// An error if the service is to stop.
    pub fn goes_on(&self) -> Result<(), ServeFault>
        ensures ends { IfErr result EndsService }
    {
        match self {
            Manner::AtOnce | Manner::InTurn(None) => Ok(()),
            Manner::InTurn(Some(Failure::NoMemory)) => Err(ServeFault::NoMemory),
            Manner::InTurn(Some(Failure::Network)) => Err(ServeFault::Network),
        }
    }
}
