//! What another program does with `iscsi_target`.

ghost use Rattle.std.specs.Prelude.{◌≡◌, ◌++◌, ℕ, List, map, IfOk, IsTrue};
ghost use Rattle.scsi_disk.specs.Disk.{Disk};
ghost use Rattle.iscsi_target_session.specs.Configured.{TargetSettings};
ghost use Rattle.iscsi_stream.specs.Stream.{Message, StreamMeans};
ghost use Rattle.iscsi_target.specs.Feed.{HasAnswered, beginning, stream_of};

use iscsi_login::Phase;
use iscsi_target::{Config, Target, TargetFault, answers_alike};
use scsi_disk::BlockStore;
use std::alloc::Global;

/// Appends the answers to what came over a connection, and says whether the session goes on. However
/// the stream was cut, its answers are those to its PDUs.
pub fn answer<S: BlockStore>(
    target: &mut Target,
    came: &[u8],
    store: &mut S,
    answers: &mut Vec<u8>,
) -> bool
    ensures answered { (settings : TargetSettings) (n : ℕ) (disk : Disk) (stream : List ℕ)
        → S.failures store.new ≡ S.failures store.old → IsTrue result
        → HasAnswered S.protected (beginning settings n disk) stream target.old (S.disk store.old)
        answers.old.items
        → HasAnswered S.protected (beginning settings n disk) (stream ++ came.now) target.new
        (S.disk store.new) answers.new.items }
{
    let _ = target.feed(came, store, answers);
    match target.phase() {
        Phase::Login | Phase::Full => true,
        Phase::Closed => false,
    }
}

/// Whether two captures are answered with the same bytes. They are where both mean the same.
pub fn are_answered_alike<S: BlockStore>(
    alloc: Global,
    configs: (Config, Config),
    captures: (&[Vec<u8>], &[Vec<u8>]),
    store: &mut S,
    other: &mut S,
) -> Result<bool, TargetFault>
    requires config { configs.1 ≡ configs.0 }
    requires disk { S.disk other.old ≡ S.disk store.old }
    ensures alike { IfOk result (λ alike. (ms : List Message)
        → S.failures store.new ≡ S.failures store.old
        → S.failures other.new ≡ S.failures other.old
        → StreamMeans (stream_of (map (λ piece. piece.items) captures.entry.0.now)) ms
        → StreamMeans (stream_of (map (λ piece. piece.items) captures.entry.1.now)) ms
        → IsTrue alike) }
{
    match answers_alike(alloc, configs, 1, captures, store, other) {
        Ok((first, second)) => Ok(first.output == second.output),
        Err(fault) => Err(fault),
    }
}
