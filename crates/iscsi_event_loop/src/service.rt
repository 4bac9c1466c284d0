//! A service of several sessions at a time.

ghost use Rattle.std.specs.Prelude.{◌≡◌, ◌⊎◌, ◌<◌, ◌≤◌, IfErr};
ghost use Rattle.scsi_disk.specs.Disk.{most_blocks, zeros};
ghost use Rattle.iscsi_target.specs.Advances.{store_of};
ghost use Rattle.iscsi_serving.specs.Executed.{HasExecuted};
ghost use Rattle.iscsi_serving.specs.Faults.{EndsService};
ghost use Rattle.iscsi_serving.specs.declared.fault.ServeFault.TheVariants as serve;
ghost use Rattle.iscsi_serving.specs.Access.{door_of};
ghost use Rattle.iscsi_event_loop.specs.Limited.{limited_disk};
ghost use Rattle.iscsi_event_loop.specs.Running.{RunsWithin, Served};
ghost use Rattle.iscsi_options.specs.Options.{IsService};

use crate::limited::{EXTENT_BLOCKS, EXTENT_BYTES, LimitedStore};
use crate::server::Server;
use crate::system::memory_of_machine;
use iscsi_options::Options;
use iscsi_serving::{Access, ServeFault};
use scsi_disk::BlockStore;

/// Listens, and prints `listening` and, if asked, the port on a line of its own. Serves connections
/// over one store, at most `at_once` at a time, until the wanted number of connections or logins is over.
/// The access says who may log in. The disk has this serial number, 1 to 16 bytes of `!` to `~`, if it
/// tells one. If other machines can reach it without a secret, a line on standard error says so.
///
/// A session that ends with a fault has the fault's line on standard error, and the others go on.
/// Only being out of memory outside of sessions and a fault of the network end the service; `Write`
/// is returned where what it prints first cannot be printed. More slots than the process may have
/// descriptors for are refused with a line, and `Network`.
///
/// Each session is one of RFC 7143, sections 6 and 11; that they take turns in one thread, a PDU at a
/// time, is own rule.
#[tactic(auto, using(crate::proofs::RunningLemmas::none_served, crate::proofs::RunningLemmas::all_served, crate::proofs::RunningLemmas::none_executed, crate::proofs::RunningLemmas::runs_executed))]
pub fn serve_at_once<S: BlockStore>(
    rt: &HostRuntime,
    options: Options<'_>,
    serial: &[u8],
    access: Access<'_>,
    store: &mut S,
) -> Result<(), ServeFault>
    requires service { IsService options }
    // Whatever comes of it, it was a run of a table from free slots on, of which the laws of
    // `iscsi_sessions` speak.
    ensures served { Served S.protected options.entry.at_once (door_of access.entry)
        (store_of (S.disk store.old) (S.failures store.old))
        (store_of (S.disk store.new) (S.failures store.new)) }
    // The blocks are those that commands left.
    ensures blocks { HasExecuted S.protected (S.disk store.old) (S.disk store.new) }
    ensures ends { IfErr result (λ fault. EndsService fault ⊎ (fault ≡ serve.Write)) }
{
    let mut server = Server::open(rt, options, serial, access)?;
    serve_by(rt, &mut server, store)
}

/// Listens, and prints `listening` and, if asked, the port on a line of its own. Serves one connection after
/// another over one store, until the wanted number of them is over. The next one waits until the last is over,
/// whatever its time. The access says who may log in. The disk tells nothing beyond the bare profile. Of the options it
/// has the address, the port, the stop, the name, the portal, the preferences and the longest Data-In.
///
/// A session that ends with a fault has the fault's line on standard error, and the next one is served. Sessions
/// have no other line. `NoMemory` is returned where memory runs out, in a session too, `Network` where the system accepts
/// nobody, and `Write` where what it prints first cannot be printed.
#[tactic(auto, using(crate::proofs::RunningLemmas::none_served, crate::proofs::RunningLemmas::all_served, crate::proofs::RunningLemmas::none_executed, crate::proofs::RunningLemmas::runs_executed))]
pub fn serve_in_turn<S: BlockStore>(
    rt: &HostRuntime,
    options: Options<'_>,
    access: Access<'_>,
    store: &mut S,
) -> Result<(), ServeFault>
    requires service { IsService options }
    // Whatever comes of it, it was a run of a table from one free slot on.
    ensures served { Served S.protected 1 (door_of access.entry)
        (store_of (S.disk store.old) (S.failures store.old))
        (store_of (S.disk store.new) (S.failures store.new)) }
    // The blocks are those that commands left.
    ensures blocks { HasExecuted S.protected (S.disk store.old) (S.disk store.new) }
    ensures ends { IfErr result (λ fault. EndsService fault ⊎ (fault ≡ serve.Write)) }
{
    let mut server = Server::open_in_turn(rt, options, access)?;
    serve_by(rt, &mut server, store)
}

// Announces a server that listens, and serves until all sessions were served.
#[tactic(auto, using(crate::proofs::RunningLemmas::none_runs))]
fn serve_by<S: BlockStore>(
    rt: &HostRuntime,
    server: &mut Server<'_>,
    store: &mut S,
) -> Result<(), ServeFault>
    ensures runs { RunsWithin S.protected
        server.old.room (store_of (S.disk store.old) (S.failures store.old))
        server.new.room (store_of (S.disk store.new) (S.failures store.new)) }
    ensures ends { IfErr result (λ fault. EndsService fault ⊎ (fault ≡ serve.Write)) }
{
    server.announce(rt, store.is_protected())?;
    server.run(rt, store)?;
    Ok(())
}

/// A disk in memory of `n` blocks of 00, from 1 to 2^40. So many bytes of its blocks are kept at most. If no
/// number is said, these are all, or a half of the machine's memory if that is less, which a line on standard
/// error tells. A write for which there is no room is answered by CHECK CONDITION.
pub fn memory_store(rt: &HostRuntime, blocks: u64, memory: Option<u64>) -> LimitedStore
    requires some { 0 < blocks }
    requires few { blocks ≤ most_blocks }
    ensures disk { limited_disk result ≡ zeros blocks }
    ensures refused { result.refused ≡ 0 }
{
    let most = match memory {
        Some(bytes) => bytes,
        None => usual_memory(rt, blocks),
    };
    LimitedStore::new(rt.alloc(), blocks, most)
}

// How many bytes of blocks are kept if no number is said.
fn usual_memory(rt: &HostRuntime, blocks: u64) -> u64 {
    let wanted = blocks.div_ceil(EXTENT_BLOCKS).saturating_mul(EXTENT_BYTES);
    match memory_of_machine() {
        Some(all) if all / 2 < wanted => {
            let most = all / 2;
            let _ = eprintln!(rt;
                "at most {most} bytes of the disk are kept: half of this machine's memory (--memory)"
            );
            most
        }
        _ => wanted,
    }
}
