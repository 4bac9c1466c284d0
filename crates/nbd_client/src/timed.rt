//! A socket of the system, and how long one waits at it.

ghost use Rattle.libc.specs.Net.{SockOption};

use libc::net::{
    IPPROTO_TCP, SO_KEEPALIVE, SOL_SOCKET, TCP_KEEPCNT, TCP_KEEPIDLE, TCP_KEEPINTVL, setsockopt,
};
use libc::types::timespec;
use std::io::{self, ErrorKind, IoSlice, Read, Write};
use std::net::{TcpStream, ToSocketAddrs};
use std::os::fd::AsRawFd;
use std::os::unix::net::UnixStream;
use std::time::Duration;

/// Where a server is.
#[derive(Clone, Copy, Debug, PartialEq, Eq)]
pub enum Place<'a> {
    /// At a TCP port of a host, which is a name or an IP address.
    Port { host: &'a str, port: u16 },
    /// At a Unix socket of this path.
    Socket(&'a str),
}

/// A second, in milliseconds.
const SECOND: u64 = 1000;

/// After how many seconds of silence the system asks a peer over TCP whether it is there, how many lie between
/// two such questions, and how many of them may stay without an answer (own rules, as for initiators).
const SILENT: i32 = 60;

const BETWEEN: i32 = 10;

const UNANSWERED: i32 = 6;

/// A socket of either kind.
#[derive(Drop)]
enum Socket {
    Tcp(TcpStream),
    Unix(UnixStream),
}

impl Socket {
    // How long the system waits at it, in milliseconds, of which there are some.
    fn set_waits(&self, millis: u64) -> io::Result<()> {
        let wait = Some(Duration::from_millis(millis));
        match self {
            Socket::Tcp(stream) => {
                stream.set_read_timeout(wait)?;
                stream.set_write_timeout(wait)
            }
            Socket::Unix(stream) => {
                stream.set_read_timeout(wait)?;
                stream.set_write_timeout(wait)
            }
        }
    }
}

/// A socket whose calls end together: what is done from `begin` on may take so many milliseconds in all, and
/// a second more.
#[derive(Drop)]
pub(crate) struct Timed {
    socket: Socket,
    wait: u64,
    begun: u64,
}

impl Timed {
    /// A connection to a server, which comes about within `wait` milliseconds or not at all. Over TCP a request
    /// doesn't wait for the one before it to be acknowledged, and a silent server is looked after.
    pub(crate) fn connect(rt: &HostRuntime, place: Place<'_>, wait: u64) -> io::Result<Timed> {
        let begun = now();
        let socket = match place {
            Place::Port { host, port } => {
                let stream = connected(rt, host, port, begun, wait)?;
                stream.set_nodelay(true)?;
                keep_alive(&stream);
                Socket::Tcp(stream)
            }
            Place::Socket(path) => Socket::Unix(UnixStream::connect(rt, path)?),
        };
        socket.set_waits(wait)?;
        Ok(Timed {
            socket,
            wait,
            begun,
        })
    }

    /// From now on the time counts anew.
    pub(crate) fn begin(&mut self) -> io::Result<()> {
        let now = now();
        if now.saturating_sub(self.begun) >= SECOND {
            // The waits may be shorter by now.
            self.socket.set_waits(self.wait)?;
        }
        self.begun = now;
        Ok(())
    }

    // Lets no wait be longer than what is left of the time.
    fn limit(&self) -> io::Result<()> {
        let spent = now().saturating_sub(self.begun);
        if spent < SECOND {
            return Ok(());
        }
        self.socket.set_waits(left(spent, self.wait)?)
    }

    /// Writes a head and what follows it, in one system call if that takes all.
    pub(crate) fn write_both(&self, head: &[u8], bytes: &[u8]) -> io::Result<()> {
        let mut done = 0;
        if !bytes.is_empty() {
            self.limit()?;
            let parts = [IoSlice::new(head), IoSlice::new(bytes)];
            let answer = match &self.socket {
                Socket::Tcp(stream) => stream.write_vectored(&parts),
                Socket::Unix(stream) => stream.write_vectored(&parts),
            };
            done = match answer {
                Ok(done) => done,
                // A signal came before anything was taken. All is written below, as often as one comes.
                Err(error) if error.kind() == ErrorKind::Interrupted => 0,
                Err(error) => return Err(error),
            };
        }
        let of_head = done.min(head.len());
        let rest = &bytes[(done - of_head).min(bytes.len())..];
        let mut stream = self;
        stream.write_all(&head[of_head..])?;
        stream.write_all(rest)
    }

    /// Writes what comes last, if that takes a second at most.
    pub(crate) fn write_last(self, bytes: &[u8]) {
        let mut last = self;
        last.begun = now();
        if last.socket.set_waits(SECOND).is_ok() {
            let _ = last.write_both(bytes, &[]);
        }
    }
}

impl Read for &Timed {
    fn read(&mut self, buf: &mut [u8]) -> io::Result<usize> {
        self.limit()?;
        match &self.socket {
            Socket::Tcp(stream) => (&mut &*stream).read(buf),
            Socket::Unix(stream) => (&mut &*stream).read(buf),
        }
    }
}

impl Write for &Timed {
    fn write(&mut self, buf: &[u8]) -> io::Result<usize> {
        self.limit()?;
        match &self.socket {
            Socket::Tcp(stream) => (&mut &*stream).write(buf),
            Socket::Unix(stream) => (&mut &*stream).write(buf),
        }
    }

    fn flush(&mut self) -> io::Result<()> {
        Ok(())
    }
}

// A connection to a port, by the first address of the host that takes one in time.
fn connected(
    rt: &HostRuntime,
    host: &str,
    port: u16,
    begun: u64,
    wait: u64,
) -> io::Result<TcpStream> {
    let mut last = io::Error::from(ErrorKind::NotFound);
    for address in (host, port).to_socket_addrs(rt)? {
        let rest = left(now().saturating_sub(begun), wait)?;
        match TcpStream::connect_timeout(rt, &address, Duration::from_millis(rest)) {
            Ok(stream) => return Ok(stream),
            Err(error) => last = error,
        }
    }
    Err(last)
}

// What is left of a time, of which there is some.
fn left(spent: u64, wait: u64) -> io::Result<u64> {
    if spent >= wait {
        return Err(ErrorKind::TimedOut.into());
    }
    Ok(wait - spent)
}

// Milliseconds of the system's clock, which nobody sets; 0 where it tells none.
fn now() -> u64 {
    let mut time = timespec {
        tv_sec: 0,
        tv_nsec: 0,
    };
    if libc::clock_gettime(libc::CLOCK_MONOTONIC, &mut time) != 0 {
        return 0;
    }
    let seconds = time.tv_sec.cast_unsigned();
    let nanoseconds = time.tv_nsec.cast_unsigned();
    seconds
        .saturating_mul(SECOND)
        .saturating_add(nanoseconds / 1_000_000)
}

// Has the system ask a silent server whether it is there. Where the system refuses this, the limits of time are
// left.
fn keep_alive(stream: &TcpStream) {
    let socket = stream.as_raw_fd();
    set_option(socket, SOL_SOCKET, SO_KEEPALIVE, 1);
    set_option(socket, IPPROTO_TCP, TCP_KEEPIDLE, SILENT);
    set_option(socket, IPPROTO_TCP, TCP_KEEPINTVL, BETWEEN);
    set_option(socket, IPPROTO_TCP, TCP_KEEPCNT, UNANSWERED);
}

// Sets an option of a socket to a number, if the system does.
fn set_option(socket: i32, level: i32, name: i32, number: i32)
    requires option { SockOption level name }
{
    let mut value = [0u8; 16];
    value[..4].copy_from_slice(&number.to_ne_bytes());
    let _ = unsafe { setsockopt(socket, level, name, &value, 4) };
}
