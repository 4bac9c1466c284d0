//! What another program does with `iscsi_serve`.

ghost use Rattle.std.specs.Prelude.{◌≡◌, ◌++◌, List, OnOk, ℕ};
ghost use Rattle.iscsi_serving.specs.Executed.{HasExecuted};
ghost use Rattle.iscsi_serve.specs.Session.{SessionServed, ServesAllPdus};

use iscsi_serve::{SessionFault, serve_stream};
use iscsi_target::Config;
use scsi_disk::BlockStore;
use std::alloc::Global;

/// Appends a target's answers to a stream that is there as a whole.
pub fn answer_all<S: BlockStore>(
    alloc: Global,
    config: Config,
    stream: &[u8],
    store: &mut S,
    answers: &mut Vec<u8>,
) -> Result<(), SessionFault>
    ensures serves { (read : List ℕ) × (written : List ℕ)
        × (answers.new.items ≡ answers.old.items ++ written)
        × (S.failures store.new ≡ S.failures store.old
        → SessionServed S.protected config (S.disk store.old) result read (S.disk store.new)
        written) }
    ensures blocks { HasExecuted S.protected (S.disk store.old) (S.disk store.new) }
{
    let mut rest = stream;
    serve_stream(alloc, config, store, &mut rest, answers)
}

/// Appends a target's answers to a stream. What is answered and stored is what the meanings of its
/// PDUs lead to: its canonical form would have been answered alike.
pub fn answer_by_meaning<S: BlockStore>(
    alloc: Global,
    config: Config,
    stream: &[u8],
    store: &mut S,
    answers: &mut Vec<u8>,
) -> Result<(), SessionFault>
    ensures answered { S.failures store.new ≡ S.failures store.old
        → OnOk result ((read : List ℕ) × (written : List ℕ)
        × (answers.new.items ≡ answers.old.items ++ written)
        × ServesAllPdus S.protected config (S.disk store.old) read (S.disk store.new) written) }
{
    let mut rest = stream;
    serve_stream(alloc, config, store, &mut rest, answers)
}
