//! Whole streams, each with a target of its own: streams of one meaning are answered alike.

ghost use Rattle.std.specs.Prelude.{◌≡◌, ◌↔◌, [], ℕ, List, map, IfOk, OnOk};
ghost use Rattle.iscsi_stream.specs.Stream.{Message, SplitsStream, StreamMeans, longest_segment};
ghost use Rattle.iscsi_login.specs.Negotiation.{ArePreferencesInRange};
ghost use Rattle.iscsi_target_session.specs.Session.{target_limit};
ghost use Rattle.iscsi_target.specs.Feed.{FeedsAllPieces, RefusesHeader, opening_target, scene, stream_of};
ghost use Rattle.iscsi_target.specs.inner.Alike.{ran_out};
ghost use Rattle.iscsi_target.specs.Advances.{store_of};

use crate::fault::TargetFault;
use crate::target::Target;
use iscsi_login::Phase;
use iscsi_target_session::Config;
use scsi_disk::BlockStore;
use std::alloc::Global;

/// A target, and all that it has written.
#[derive(Drop)]
pub struct Answered {
    /// The target, behind the last piece.
    pub target: Target,
    /// The bytes of its answers.
    pub output: Vec<u8>,
}

/// Answers a stream that comes in these pieces. Returns `NoMemory` where memory ran out; after
/// another fault the session is closed, and what follows is dropped.
pub fn answer_pieces<S: BlockStore>(
    alloc: Global,
    config: Config,
    first_statsn: u32,
    pieces: &[Vec<u8>],
    store: &mut S,
) -> Result<Answered, TargetFault>
    ensures in_range { ArePreferencesInRange config.preferences }
    ensures fed { IfOk result (λ now. S.failures store.new ≡ S.failures store.old
        → FeedsAllPieces S.protected (scene (opening_target config first_statsn)
        (store_of (S.disk store.old) (S.failures store.old)) [])
        (map (λ piece. piece.items) pieces.now)
        (scene now.target (store_of (S.disk store.new) (S.failures store.new)) now.output.items)) }
{
    let mut answered = fed_nothing(alloc, config, first_statsn);
    match feed_pieces(&mut answered, pieces, store) {
        Ok(()) => Ok(answered),
        Err(fault) => Err(fault),
    }
}

// A target that was fed nothing.
fn fed_nothing(alloc: Global, config: Config, first_statsn: u32) -> Answered
    ensures in_range { ArePreferencesInRange config.preferences }
    ensures opening { result.target ≡ opening_target config first_statsn }
    ensures none { result.output.items ≡ [] }
{
    Answered {
        target: Target::new(alloc, config, first_statsn),
        output: Vec::new(alloc),
    }
}

// Feeds a target these pieces, until memory runs out. The target is lent, since each way out of a
// function that owns one is dear to prove.
fn feed_pieces<S: BlockStore>(
    answered: &mut Answered,
    pieces: &[Vec<u8>],
    store: &mut S,
) -> Result<(), TargetFault>
    ensures fed { OnOk result (S.failures store.new ≡ S.failures store.old
        → FeedsAllPieces S.protected (scene answered.old.target
        (store_of (S.disk store.old) (S.failures store.old)) answered.old.output.items)
        (map (λ piece. piece.items) pieces.now)
        (scene answered.new.target (store_of (S.disk store.new) (S.failures store.new))
        answered.new.output.items)) }
{
    for piece in pieces {
        let fed = answered.target.feed(piece, store, &mut answered.output);
        if has_run_out(&fed) {
            return Err(TargetFault::NoMemory);
        }
    }
    Ok(())
}

/// Answers two streams, each by a new target over a store of its own, whose first blocks, settings
/// and StatSN are the same. If both streams mean the same, and no failure was counted at a store,
/// both targets have written the same bytes and left the same blocks. Both are then in the same
/// state: they hold the same values, stage and phase (RFC 7143, sections 6 and 11). Returns
/// `NoMemory` if memory ran out, and no other fault.
pub fn answers_alike<S: BlockStore>(
    alloc: Global,
    configs: (Config, Config),
    first_statsn: u32,
    streams: (&[Vec<u8>], &[Vec<u8>]),
    store: &mut S,
    other: &mut S,
) -> Result<(Answered, Answered), TargetFault>
    requires config { configs.1 ≡ configs.0 }
    requires disk { S.disk other.old ≡ S.disk store.old }
    // Each target was fed its own stream.
    ensures first { IfOk result (λ both. S.failures store.new ≡ S.failures store.old
        → FeedsAllPieces S.protected (scene (opening_target configs.0 first_statsn)
        (store_of (S.disk store.old) (S.failures store.old)) [])
        (map (λ piece. piece.items) streams.entry.0.now)
        (scene both.0.target (store_of (S.disk store.new) (S.failures store.new))
        both.0.output.items)) }
    ensures second { IfOk result (λ both. S.failures other.new ≡ S.failures other.old
        → FeedsAllPieces S.protected (scene (opening_target configs.1 first_statsn)
        (store_of (S.disk other.old) (S.failures other.old)) [])
        (map (λ piece. piece.items) streams.entry.1.now)
        (scene both.1.target (store_of (S.disk other.new) (S.failures other.new))
        both.1.output.items)) }
    ensures alike { IfOk result (λ both. (ms : List Message)
        → S.failures store.new ≡ S.failures store.old
        → S.failures other.new ≡ S.failures other.old
        → StreamMeans (stream_of (map (λ piece. piece.items) streams.entry.0.now)) ms
        → StreamMeans (stream_of (map (λ piece. piece.items) streams.entry.1.now)) ms
        → (both.1.output.items ≡ both.0.output.items) × (S.disk other.new ≡ S.disk store.new)
        × (both.1.target.machine ≡ both.0.target.machine)) }
    // Of streams that leave the profile, the PDUs before that place alone matter: to what is written,
    // to the blocks, and to the values and the stage that are held.
    ensures front { IfOk result (λ both. (ms : List Message) (given first_rest same second_rest : List ℕ)
        → S.failures store.new ≡ S.failures store.old
        → S.failures other.new ≡ S.failures other.old
        → SplitsStream longest_segment (stream_of (map (λ piece. piece.items) streams.entry.0.now))
        ms
        given first_rest
        → SplitsStream longest_segment (stream_of (map (λ piece. piece.items) streams.entry.1.now))
        ms
        same second_rest
        → (both.1.output.items ≡ both.0.output.items)
        × (S.disk other.new ≡ S.disk store.new)
        × (both.1.target.machine.session.held ≡ both.0.target.machine.session.held)
        × (both.1.target.machine.session.stage ≡ both.0.target.machine.session.stage)) }
    // Where both rests begin with a header that is refused, or neither does, so is the phase.
    ensures phase { IfOk result (λ both. (ms : List Message) (given first_rest same second_rest : List ℕ)
        → S.failures store.new ≡ S.failures store.old
        → S.failures other.new ≡ S.failures other.old
        → SplitsStream longest_segment (stream_of (map (λ piece. piece.items) streams.entry.0.now))
        ms
        given first_rest
        → SplitsStream longest_segment (stream_of (map (λ piece. piece.items) streams.entry.1.now))
        ms
        same second_rest
        → (RefusesHeader (target_limit configs.0) first_rest ↔ RefusesHeader
        (target_limit configs.0) second_rest)
        → both.1.target.machine.session.phase ≡ both.0.target.machine.session.phase) }
{
    let mut first = fed_nothing(alloc, configs.0, first_statsn);
    let mut second = fed_nothing(alloc, configs.1, first_statsn);
    match feed_both(&mut first, &mut second, streams, store, other) {
        Ok(()) => Ok((first, second)),
        Err(fault) => Err(fault),
    }
}

// Feeds two targets a stream each, until memory runs out.
fn feed_both<S: BlockStore>(
    first: &mut Answered,
    second: &mut Answered,
    streams: (&[Vec<u8>], &[Vec<u8>]),
    store: &mut S,
    other: &mut S,
) -> Result<(), TargetFault>
    ensures first { OnOk result (S.failures store.new ≡ S.failures store.old
        → FeedsAllPieces S.protected (scene first.old.target
        (store_of (S.disk store.old) (S.failures store.old)) first.old.output.items)
        (map (λ piece. piece.items) streams.entry.0.now)
        (scene first.new.target (store_of (S.disk store.new) (S.failures store.new))
        first.new.output.items)) }
    ensures second { OnOk result (S.failures other.new ≡ S.failures other.old
        → FeedsAllPieces S.protected (scene second.old.target
        (store_of (S.disk other.old) (S.failures other.old)) second.old.output.items)
        (map (λ piece. piece.items) streams.entry.1.now)
        (scene second.new.target (store_of (S.disk other.new) (S.failures other.new))
        second.new.output.items)) }
{
    feed_pieces(first, streams.0, store)?;
    feed_pieces(second, streams.1, other)
}

// Whether memory ran out in a call of `feed`.
fn has_run_out(fed: &Result<Phase, TargetFault>) -> bool
    ensures { result ≡ ran_out fed.now }
{
    matches!(fed, Err(TargetFault::NoMemory))
}
