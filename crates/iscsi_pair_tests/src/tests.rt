//! Pairs by example: logins, commands and failures, in pieces of every length.

use iscsi_initiator::Request;
use iscsi_login::{Auth, ConfigFault, Offers, Preferences, Session, Stage};
use iscsi_pair::{Pair, Step};
use scsi_disk::MemoryStore;
use scsi_unit::LogicalUnit;
use std::alloc::{AllocError, Global};
use std::process::Abort;

mod failures;
mod logins;
mod scripts;
mod serving;

/// How many bytes a move has: always as many, or a number up to a limit that a fixed rule draws.
#[derive(Drop)]
struct Schedule {
    drawn: u32,
    limit: usize,
    same: bool,
}

impl Schedule {
    // Always so many bytes.
    fn always(piece: usize) -> Schedule {
        Schedule {
            drawn: 0,
            limit: piece,
            same: true,
        }
    }

    // The schedule of this number: its moves have 1 to 3 + 5 * number bytes, in an order of its own.
    fn numbered(number: u32) -> Schedule {
        Schedule {
            drawn: number.wrapping_mul(2_654_435_761),
            limit: (number as usize).wrapping_mul(5).wrapping_add(3),
            same: false,
        }
    }

    // The next number of bytes.
    fn next(&mut self) -> usize {
        if self.same {
            return self.limit;
        }
        self.drawn = self.drawn.wrapping_mul(1_103_515_245).wrapping_add(12_345);
        ((self.drawn >> 16) as usize % self.limit.max(1)).wrapping_add(1)
    }

    // The next move.
    fn step(&mut self) -> Step {
        let piece = self.next();
        if self.same || self.drawn & 0x8000 == 0 {
            return Step::ToTarget(piece);
        }
        Step::ToInitiator(piece)
    }
}

// The target's name.
const TARGET_NAME: &[u8] = b"iqn.2026-01.example:disk";

// The login of a normal session without a password.
fn standard_offers() -> Offers<'static> {
    Offers {
        initiator: b"iqn.2026-01.example:host",
        target: b"iqn.2026-01.example:disk",
        session: Session::Normal,
        auth: Auth::None,
        prefs: Preferences::standard(),
    }
}

/// What differs from a login of two standard ends in two stages.
#[derive(Clone, Copy, Debug, PartialEq, Eq)]
enum Setup {
    Standard,
    /// Login Requests of at most 64 bytes of text.
    ShortSegments,
    /// The initiator begins in the operational stage.
    OneStage,
    /// The target prefers bursts of 1,024 bytes in segments of 512.
    ShortBursts,
    ChapOrNone,
    Discovery,
    /// The initiator asks for another target.
    AnotherName,
    /// The initiator wants CHAP.
    Chap,
    /// The target's disk is thin, and has a serial number.
    ThinUnit,
}

// What the initiator of a test offers.
fn offers_of(setup: Setup) -> Offers<'static> {
    let mut offers = standard_offers();
    match setup {
        Setup::AnotherName => offers.target = b"x",
        Setup::Chap => offers.auth = Auth::Chap,
        Setup::ChapOrNone => offers.auth = Auth::ChapOrNone,
        Setup::Discovery => {
            offers.session = Session::Discovery;
            offers.target = b"x";
        }
        Setup::Standard
        | Setup::ShortSegments
        | Setup::OneStage
        | Setup::ShortBursts
        | Setup::ThinUnit => {}
    }
    offers
}

// The initiator of a test.
fn initiator_of(alloc: Global, setup: Setup) -> Result<iscsi_initiator::Config, ConfigFault> {
    let start = if setup == Setup::OneStage {
        Stage::Operational
    } else {
        Stage::Security
    };
    let segment = if setup == Setup::ShortSegments {
        64
    } else {
        8192
    };
    let isid = [0x40, 0, 0, 1, 0, 0];
    iscsi_initiator::Config::new(alloc, offers_of(setup), start, isid, 1, segment)
}

// The target of a test.
fn target_of(alloc: Global, setup: Setup) -> Result<iscsi_target::Config, ConfigFault> {
    let mut prefs = Preferences::standard();
    if setup == Setup::ShortBursts {
        prefs.max_burst = 1024;
        prefs.max_recv = 512;
    }
    let config = iscsi_target::Config::new(alloc, TARGET_NAME, 1, 1, prefs)?;
    match LogicalUnit::new(TARGET_NAME, b"S1", false) {
        Some(unit) if setup == Setup::ThinUnit => Ok(config.with_unit(unit.with_thin())),
        _ => Ok(config),
    }
}

// A new pair, with a disk of 2,048 blocks. It stands in a box: a function that owns it is then proved
// much sooner.
fn pair_of(rt: &impl Abort, alloc: Global, setup: Setup) -> Box<Pair> {
    let initiator = initiator_of(alloc, setup).expect(rt, "an initiator");
    let target = target_of(alloc, setup).expect(rt, "a target");
    let store = MemoryStore::new(alloc, 2048).expect(rt, "a disk");
    let pair = Pair::new(alloc, initiator, target, 1, store).expect(rt, "a pair");
    Box::new(alloc, pair).expect(rt, "a pair")
}

// Eight moves of a schedule, and after each one to the initiator.
fn moves(alloc: Global, schedule: &mut Schedule) -> Result<Vec<Step>, AllocError> {
    let mut steps = Vec::new(alloc);
    for _ in 0..8 {
        steps.push(schedule.step())?;
        steps.push(Step::ToInitiator(schedule.next()))?;
    }
    Ok(steps)
}

// Moves all that is on its way, and all that it leads to.
fn deliver(rt: &impl Abort, alloc: Global, pair: &mut Pair, schedule: &mut Schedule) {
    for _ in 0..100_000 {
        pair.run(moves(alloc, schedule).expect(rt, "moves"));
        if pair.queued() == (0, 0) {
            return;
        }
    }
    panic!(rt; "bytes go on and on");
}

// The one step of a request.
fn one_step(alloc: Global, request: Request) -> Result<Vec<Step>, AllocError> {
    let mut steps = Vec::new(alloc);
    steps.push(Step::Submit(request))?;
    Ok(steps)
}

// Hands in a request.
fn submit(rt: &impl Abort, alloc: Global, pair: &mut Pair, request: Request) {
    pair.run(one_step(alloc, request).expect(rt, "a step"));
}
