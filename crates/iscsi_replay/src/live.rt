//! A session with a live target.

use crate::fault::{LiveFault, Lost};
use crate::peer::Peer;
use iscsi_initiator::{Config, Done, Initiator, InitiatorFault, Refused, Request, SubmitFault};
use iscsi_login::{Auth, ConfigFault, Offers, Phase, Preferences, Session, Stage};
use iscsi_pdu::LOGIN_SEGMENT;
use std::alloc::Global;

/// How many bytes are asked for at a time.
const PIECE: usize = 65_536;
/// The CmdSN of the login and of the first request.
const FIRST_CMD_SN: u32 = 1;

/// Who logs in, and to which target.
#[derive(Clone, Copy)]
pub struct Account<'a> {
    /// The initiator's name: 1 to 223 bytes, each of `!` to `~`.
    pub initiator: &'a [u8],
    /// The target's name: 1 to 223 bytes, each of `!` to `~`.
    pub target: &'a [u8],
    /// ISID, the initiator's part of the session's identifier (RFC 7143, section 11.12.5). A session of
    /// the same initiator at the same target with the same one ends.
    pub isid: [u8; 6],
}

/// A session with a live target: one request at a time.
#[derive(Drop)]
pub struct Live<P: Peer> {
    initiator: Initiator,
    peer: P,
    buffer: Vec<u8>,
    out: Vec<u8>,
    place: u64,
}

impl<P: Peer> Live<P> {
    /// A session that is not started. Returns what is wrong with the names, or `NoMemory`.
    pub fn new(alloc: Global, account: Account<'_>, peer: P) -> Result<Live<P>, ConfigFault> {
        let Ok(buffer) = vec![in alloc; 0; PIECE] else {
            return Err(ConfigFault::NoMemory);
        };
        let config = config_of(alloc, account)?;
        Ok(Live {
            initiator: Initiator::new(alloc, config),
            peer,
            buffer,
            out: Vec::new(alloc),
            place: 0,
        })
    }

    // Logs in.
    pub(crate) fn log_in(&mut self) -> Result<(), LiveFault> {
        self.begin()?;
        self.out.clear();
        if let Err(fault) = self.initiator.start(&mut self.out) {
            return Err(LiveFault::Session(fault, 0));
        }
        self.send()?;
        for _ in 0..u64::MAX {
            if self.initiator.phase() != Phase::Login {
                return Ok(());
            }
            self.hear()?;
        }
        Err(LiveFault::Lost(Lost::Failed, self.place))
    }

    // Does a request, and returns what came of it.
    pub(crate) fn perform(&mut self, request: Request) -> Result<Done, LiveFault> {
        self.begin()?;
        self.submit(request)?;
        for _ in 0..u64::MAX {
            if let Some(done) = self.initiator.outcome() {
                return Ok(done);
            }
            if self.initiator.phase() == Phase::Closed {
                return Err(LiveFault::Session(InitiatorFault::Closed, self.place));
            }
            self.hear()?;
        }
        Err(LiveFault::Lost(Lost::Failed, self.place))
    }

    // Has the time that one waits for the target count from now on.
    fn begin(&mut self) -> Result<(), LiveFault> {
        match self.peer.begin() {
            Ok(()) => Ok(()),
            Err(lost) => Err(LiveFault::Lost(lost, self.place)),
        }
    }

    // Asks for nothing for this many nanoseconds, and answers the pings of the target.
    pub(crate) fn rest(&mut self, nanoseconds: u64) -> Result<(), LiveFault> {
        if let Err(lost) = self.peer.rest(nanoseconds) {
            return Err(LiveFault::Lost(lost, self.place));
        }
        for _ in 0..u64::MAX {
            match self.hear() {
                Ok(()) => {}
                Err(LiveFault::Lost(Lost::Late, _)) => return Ok(()),
                Err(fault) => return Err(fault),
            }
        }
        Err(LiveFault::Lost(Lost::Failed, self.place))
    }

    // How many nanoseconds passed since the connection was made.
    pub(crate) fn now(&mut self) -> Result<u64, LiveFault> {
        match self.peer.now() {
            Ok(now) => Ok(now),
            Err(lost) => Err(LiveFault::Lost(lost, self.place)),
        }
    }

    // Whether requests can still be done.
    pub(crate) fn is_open(&self) -> bool {
        self.initiator.phase() == Phase::Full
    }

    // Hands in a request. While the target takes no command, one waits for it to say that it does
    // (RFC 7143, section 4.2.2.1).
    fn submit(&mut self, request: Request) -> Result<(), LiveFault> {
        let mut request = request;
        for _ in 0..u64::MAX {
            match self.offer(request)? {
                None => return Ok(()),
                Some(refused) => request = refused,
            }
        }
        Err(LiveFault::Lost(Lost::Failed, self.place))
    }

    // Hands in a request, once. It comes back if the target takes no command, and something of the
    // target is heard then.
    fn offer(&mut self, request: Request) -> Result<Option<Request>, LiveFault> {
        self.out.clear();
        match self.initiator.submit(request, &mut self.out) {
            Ok(()) => self.sent(),
            Err(refused) => self.wait(refused),
        }
    }

    // Sends a request that is taken.
    fn sent(&mut self) -> Result<Option<Request>, LiveFault> {
        self.send()?;
        Ok(None)
    }

    // Hears something of the target, if it takes no command now, and gives the request back.
    fn wait(&mut self, refused: Refused) -> Result<Option<Request>, LiveFault> {
        if refused.fault != SubmitFault::Shut {
            return Err(refusal(refused.fault));
        }
        self.hear()?;
        Ok(Some(refused.request))
    }

    // Sends what there is to send.
    fn send(&mut self) -> Result<(), LiveFault> {
        if self.out.is_empty() {
            return Ok(());
        }
        let sent = self.peer.send(&self.out);
        self.out.clear();
        match sent {
            Ok(()) => Ok(()),
            Err(lost) => Err(LiveFault::Lost(lost, self.place)),
        }
    }

    // Receives some bytes, and sends what they lead to.
    fn hear(&mut self) -> Result<(), LiveFault> {
        let count = match self.peer.receive(&mut self.buffer) {
            Ok(count) => count,
            Err(lost) => return Err(LiveFault::Lost(lost, self.place)),
        };
        self.place = self.place.saturating_add(count as u64);
        self.out.clear();
        match self.initiator.feed(&self.buffer[..count], &mut self.out) {
            Ok(_) => self.send(),
            Err(fault) => Err(LiveFault::Session(fault, self.place)),
        }
    }
}

// How an initiator logs in so.
fn config_of(alloc: Global, account: Account<'_>) -> Result<Config, ConfigFault> {
    let prefs = Preferences {
        max_recv: 262_144,
        ..Preferences::standard()
    };
    let offers = Offers {
        initiator: account.initiator,
        target: account.target,
        session: Session::Normal,
        auth: Auth::None,
        prefs,
    };
    Config::new(
        alloc,
        offers,
        Stage::Security,
        account.isid,
        FIRST_CMD_SN,
        LOGIN_SEGMENT,
    )
}

// The fault of a request that is not taken.
fn refusal(fault: SubmitFault) -> LiveFault {
    match fault {
        SubmitFault::NoMemory => LiveFault::NoMemory,
        _ => LiveFault::Refused(fault),
    }
}
