//! A target's session on a socket.

ghost use Rattle.std.specs.Prelude.{◌≡◌, ◌≢◌, ◌<◌, ℕ, List, true, length, Err, IfOk};
ghost use Rattle.iscsi_serving.specs.Executed.{HasExecuted};
ghost use Rattle.iscsi_serve.specs.Serving.{ServeOnePost};

use crate::session::serve_reads;
use iscsi_serving::ServeFault;
use iscsi_target::Config;
use scsi_disk::BlockStore;
use std::alloc::{AllocError, Global};
use std::io::{self, Write};
use std::net::{TcpListener, TcpStream};

/// Errors of accept that are those of a connection which is gone, by their numbers on Linux: EPROTO and
/// ECONNABORTED.
const OF_A_CONNECTION: [i32; 2] = [71, 103];

/// The most bytes that are read from a socket at a time.
const LONGEST_READ: usize = 1_048_576;

/// Accepts one connection and runs a target's session over it, with first StatSN 1. The session's
/// memory goes with it; the store stays. A connection that is gone before it is accepted is passed over.
///
/// It reads the connection in pieces of at most 1,048,576 bytes. The answers to a piece leave as
/// soon as more than 65,536 bytes of them wait, and at the end of the piece. The store is synced
/// once for all answers that leave together, before they leave.
///
/// A session that is closed, by a logout or a refused login, and a connection that ends between two
/// PDUs are no fault. Returns:
/// - `Network` if no connection is accepted;
/// - `Target` if the target refuses what its initiator sent, or if the connection ends within a
///   PDU, after the answers that were due;
/// - `Read` if a read from the connection fails, or 16,777,216 of them did not reach its end;
/// - `Sync` if a sync of the store fails: the answers that waited for it are not sent;
/// - `Write` if a write to the connection fails;
/// - `NoMemory` if memory runs out.
///
/// The session is that of RFC 7143, sections 6 and 11; that it has a connection of its own is own
/// rule.
#[tactic(auto, using(crate::proofs::FedMoreLemmas::none_executed))]
pub fn serve_one<S: BlockStore>(
    alloc: Global,
    listener: &TcpListener,
    store: &mut S,
    config: Config,
) -> Result<(), ServeFault>
    // What a connection gives and takes is not known beforehand.
    ensures serves { (read : List ℕ) × (written : List ℕ)
        × (S.failures store.new ≡ S.failures store.old
        → ServeOnePost S.protected config (S.disk store.old) result read (S.disk store.new)
        written) }
    // Whatever comes of it, the blocks are those that commands left.
    ensures blocks { HasExecuted S.protected (S.disk store.old) (S.disk store.new) }
    // The store is synced, whatever comes of it but a sync that failed.
    ensures synced { S.synced store.old ≡ true → result ≢ Err ServeFault.Sync
        → S.synced store.new ≡ true }
{
    let Some(stream) = accepted(listener) else {
        return Err(ServeFault::Network);
    };
    // Disable Nagle's algorithm. If this fails, answers are only slower.
    let _ = stream.set_nodelay(true);
    let mut buffer = read_buffer(alloc, LONGEST_READ)?;
    let mut answers = Answers { stream: &stream };
    match serve_reads(
        alloc,
        config,
        store,
        &mut &stream,
        &mut answers,
        &mut buffer,
    ) {
        Ok(()) => Ok(()),
        Err(fault) => Err(ServeFault::from(fault)),
    }
}

// The next connection that is there when it is accepted; none where the system accepts none.
fn accepted(listener: &TcpListener) -> Option<TcpStream> {
    for _ in 0..u64::MAX {
        match listener.accept() {
            Ok((stream, _)) => return Some(stream),
            Err(error) => match error.raw_os_error() {
                Some(number) if OF_A_CONNECTION.contains(&number) => {}
                _ => return None,
            },
        }
    }
    None
}

// Room for `n` bytes of a read.
fn read_buffer(alloc: Global, size: usize) -> Result<Vec<u8>, AllocError>
    requires some { 0 < size }
    ensures some { IfOk result (λ buffer. 0 < length buffer.items) }
{
    vec![in alloc; 0u8; size]
}

// Where the answers go. A send that a signal interrupted is tried again.
#[derive(Drop)]
struct Answers<'a> {
    stream: &'a TcpStream,
}

impl Write for Answers<'_> {
    fn write(&mut self, buf: &[u8]) -> io::Result<usize> {
        self.stream.write_all(buf)?;
        Ok(buf.len())
    }

    fn flush(&mut self) -> io::Result<()> {
        self.stream.flush()
    }
}
