//! What the log tells of a session when it ends.

use crate::wording::{rule_text, status_text};
use iscsi_login::Phase;
use iscsi_pdu::HEADER_LEN;
use iscsi_serving::SessionEnd;
use iscsi_target::TargetFault;
use std::fmt::{self, Display, Write};

/// Where a Login Response has its status (RFC 7143, section 11.13.5).
const STATUS: usize = 36;

/// What came of a session so far, for the log.
#[derive(Clone, Copy)]
pub struct Tally {
    // the CmdSN that the next numbered request is to have; none before the login is completed
    next: Option<u32>,
    // how many numbered requests came
    commands: u64,
    // class and detail of the status with which the login was refused
    refused: Option<(u8, u8)>,
    // whether the login was one for discovery
    is_discovery: bool,
}

impl Tally {
    /// Nothing came.
    pub fn new() -> Tally {
        Tally {
            next: None,
            commands: 0,
            refused: None,
            is_discovery: false,
        }
    }

    /// The login is completed, and this is the CmdSN that the next numbered request is to have.
    pub fn expect(&mut self, cmd_sn: u32) {
        if let Some(next) = self.next {
            let came = u64::from(cmd_sn.wrapping_sub(next));
            self.commands = self.commands.saturating_add(came);
        }
        self.next = Some(cmd_sn);
    }

    /// The login was one for discovery.
    pub fn discovers(&mut self) {
        self.is_discovery = true;
    }

    /// The login is refused: the last of these answers says so. A Login Response that refuses has no
    /// data segment.
    pub fn refuse(&mut self, answers: &[u8]) {
        if let Some(start) = answers.len().checked_sub(HEADER_LEN) {
            self.refused = Some((answers[start + STATUS], answers[start + STATUS + 1]));
        }
    }

    /// Whether the login was completed.
    pub fn has_logged_in(&self) -> bool {
        self.next.is_some()
    }

    /// How many numbered requests came behind the login, but for a logout.
    pub fn commands(&self) -> u64 {
        self.commands
    }

    /// Class and detail of the status with which the login was refused, if it was.
    pub fn refused(&self) -> Option<(u8, u8)> {
        self.refused
    }

    /// How a session in this phase ends, by its fault, if there is one.
    pub fn end(&self, phase: Option<Phase>, fault: Option<SessionEnd>) -> LoggedEnd {
        match (fault, self.refused, self.next, phase) {
            (Some(fault), _, _, _) => LoggedEnd::Fault(fault),
            (None, Some((class, detail)), _, _) => LoggedEnd::Refused(class, detail),
            (None, None, Some(_), _) if self.is_discovery => LoggedEnd::Discovered,
            (None, None, Some(_), Some(Phase::Closed)) => LoggedEnd::LoggedOut,
            (None, None, _, _) => LoggedEnd::Disconnected,
        }
    }
}

/// How a session ends, in the log.
#[derive(Clone, Copy)]
pub enum LoggedEnd {
    /// By a fault, which has a line in any case.
    Fault(SessionEnd),
    /// The login was refused with a status of this class and detail.
    Refused(u8, u8),
    /// The session was one of discovery, however its initiator left.
    Discovered,
    /// The initiator logged out.
    LoggedOut,
    /// The initiator closed the connection between two PDUs.
    Disconnected,
}

impl Display for LoggedEnd {
    fn fmt<W: Write>(&self, f: &mut fmt::Formatter<W>) -> fmt::Result {
        match self {
            LoggedEnd::Fault(SessionEnd::Target(TargetFault::Protocol(rule))) => {
                write!(f, "protocol: {}", rule_text(*rule))
            }
            LoggedEnd::Fault(fault) => write!(f, "{fault}"),
            LoggedEnd::Refused(class, detail) => {
                let reason = status_text(*class, *detail);
                write!(f, "login refused: {class:02x}{detail:02x}, {reason}")
            }
            LoggedEnd::Discovered => f.write_str("discovery is over"),
            LoggedEnd::LoggedOut => f.write_str("logged out"),
            LoggedEnd::Disconnected => f.write_str("disconnected"),
        }
    }
}

/// How a session ends, and what went over its connection.
#[derive(Clone, Copy)]
pub struct Ended {
    /// How it ends.
    pub end: LoggedEnd,
    /// How many numbered requests came behind its login, but for a logout.
    pub commands: u64,
    /// How many bytes its peer sent.
    pub received: u64,
    /// How many bytes its peer took.
    pub sent: u64,
    /// How many whole seconds its connection was open.
    pub seconds: u64,
}

impl Display for Ended {
    fn fmt<W: Write>(&self, f: &mut fmt::Formatter<W>) -> fmt::Result {
        write!(
            f,
            "{}; {} commands, {} bytes received, {} bytes sent, {} seconds",
            self.end, self.commands, self.received, self.sent, self.seconds
        )
    }
}
