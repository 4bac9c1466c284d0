//! What is asked of the system: a listener, to be told of sockets that are ready, the time.

ghost use Rattle.std.specs.Prelude.{IfErr};
ghost use Rattle.libc.specs.Net.{SockOption};
ghost use Rattle.iscsi_serving.specs.Faults.{EndsService};

use crate::manner::Manner;
use iscsi_serving::ServeFault;
use libc::net::{
    IPPROTO_TCP, SO_KEEPALIVE, SOL_SOCKET, TCP_KEEPCNT, TCP_KEEPIDLE, TCP_KEEPINTVL, setsockopt,
};
use libc::types::rlimit;
use mio::net::{TcpListener, TcpStream};
use mio::{Interest, Poll, Token};
use std::net::SocketAddr;
use std::os::fd::AsRawFd;
use std::time::Instant;

/// The token of the listener; those of connections are the numbers of their slots.
pub const LISTENER: Token = Token(usize::MAX);

/// How many descriptors a service has besides those of its slots: three streams, what tells of sockets,
/// the listener, two of an image, and a connection for which another one makes room.
pub const OTHER_DESCRIPTORS: u64 = 8;

/// After how many seconds of silence the system asks a peer whether it is there.
const SILENT: i32 = 60;
/// How many seconds lie between two such questions.
const BETWEEN: i32 = 10;
/// How many of them stay without an answer before the connection fails.
const UNANSWERED: i32 = 6;

/// What `sysconf` is asked for the pages of the machine's memory, by its number on Linux.
const PHYSICAL_PAGES: i32 = 85;

/// How many descriptors the process may have; none: the system doesn't tell.
pub fn most_descriptors() -> Option<u64> {
    let mut limit = rlimit {
        rlim_cur: 0,
        rlim_max: 0,
    };
    if libc::getrlimit(libc::RLIMIT_NOFILE, &mut limit) == 0 {
        Some(limit.rlim_cur)
    } else {
        None
    }
}

/// How many bytes of memory the machine has; none: the system doesn't tell.
pub fn memory_of_machine() -> Option<u64> {
    let pages = u64::try_from(libc::sysconf(PHYSICAL_PAGES)).ok()?;
    let page = u64::try_from(libc::sysconf(libc::_SC_PAGESIZE)).ok()?;
    pages.checked_mul(page)
}

/// What tells of a listener and of connections, and the listener. The only fault is `Network`.
pub fn listen(rt: &HostRuntime, address: SocketAddr) -> Result<(Poll, TcpListener), ServeFault>
    ensures ends { IfErr result EndsService }
{
    let Ok(poll) = Poll::new(rt) else {
        return Err(ServeFault::Network);
    };
    let Ok(mut listener) = TcpListener::bind(rt, address) else {
        return Err(ServeFault::Network);
    };
    let registry = poll.registry();
    match registry.register(&mut listener, LISTENER, Interest::READABLE) {
        Ok(()) => Ok((poll, listener)),
        Err(_) => Err(ServeFault::Network),
    }
}

/// Has the system tell when a connection may be read again, or written again, or has urgent data,
/// under the number of its slot. Says whether it will. A silent peer is asked whether it is there, unless
/// connections are taken in turn.
pub fn watch(poll: &Poll, stream: &mut TcpStream, slot: usize, manner: &Manner) -> bool {
    // An answer waits for no other one; where the system refuses this, it is only slower.
    let _ = stream.set_nodelay(true);
    if !manner.is_in_turn() {
        keep_alive(stream);
    }
    let interest = Interest::READABLE | Interest::WRITABLE | Interest::PRIORITY;
    poll.registry()
        .register(stream, Token(slot), interest)
        .is_ok()
}

// Has the system ask a silent peer whether it is there, so that one whose power failed loses its slot.
// Where the system refuses this, the limits of time are left.
fn keep_alive(stream: &TcpStream) {
    let socket = stream.as_raw_fd();
    set_option(socket, SOL_SOCKET, SO_KEEPALIVE, 1);
    set_option(socket, IPPROTO_TCP, TCP_KEEPIDLE, SILENT);
    set_option(socket, IPPROTO_TCP, TCP_KEEPINTVL, BETWEEN);
    set_option(socket, IPPROTO_TCP, TCP_KEEPCNT, UNANSWERED);
}

// Sets an option of a socket to a number, if the system does.
fn set_option(socket: i32, level: i32, name: i32, number: i32)
    requires option { SockOption level name }
{
    let mut value = [0u8; 16];
    value[..4].copy_from_slice(&number.to_ne_bytes());
    let _ = unsafe { setsockopt(socket, level, name, &value, 4) };
}

/// The time. The only fault is `Network`, where the system doesn't tell it.
pub fn now(rt: &HostRuntime) -> Result<Instant, ServeFault>
    ensures ends { IfErr result EndsService }
{
    match Instant::now(rt) {
        Ok(now) => Ok(now),
        Err(_) => Err(ServeFault::Network),
    }
}
