//! A connection of this process to itself.

ghost use Rattle.std.specs.Prelude.{◌≡◌, IfErr};
ghost use Rattle.iscsi_serving.specs.declared.fault.ServeFault.TheVariants as serve;

use crate::carrier::Carrier;
use iscsi_serving::ServeFault;
use iscsi_stream::write_fully;
use std::io;
use std::io::Read;
use std::net::{Ipv4Addr, SocketAddr, TcpListener, TcpStream};

/// How many connections of others are closed before the port counts as failed.
const STRANGERS: u32 = 16_777_216;

/// A TCP connection whose two sockets are both here.
#[derive(Drop)]
pub struct Wire {
    initiator: TcpStream,
    target: TcpStream,
}

impl Wire {
    fn try_open(rt: &HostRuntime) -> io::Result<Wire> {
        let listener = TcpListener::bind(rt, (Ipv4Addr::LOCALHOST, 0))?;
        let initiator = TcpStream::connect(rt, listener.local_addr()?)?;
        let target = accept_from(&listener, initiator.local_addr()?)?;
        // A piece is not to wait for the one before it to be acknowledged.
        initiator.set_nodelay(true)?;
        target.set_nodelay(true)?;
        Ok(Wire { initiator, target })
    }
}

/// Over 127.0.0.1, at a port that the system picks. Each call returns `Network` where a socket
/// fails.
impl Carrier for Wire {
    // No contract can say what a socket gives.
    ghost carries = { λ written read. Unit {0} };

    fn open(rt: &HostRuntime) -> Result<Wire, ServeFault> {
        match Wire::try_open(rt) {
            Ok(wire) => Ok(wire),
            Err(_) => Err(ServeFault::Network),
        }
    }

    fn to_target(&mut self, piece: &[u8], read: &mut [u8]) -> Result<(), ServeFault> {
        carry(&self.initiator, &self.target, piece, read)
    }

    fn to_initiator(&mut self, piece: &[u8], read: &mut [u8]) -> Result<(), ServeFault> {
        carry(&self.target, &self.initiator, piece, read)
    }

    /// Returns `Network` too where the target's socket has more bytes.
    fn close(self) -> Result<(), ServeFault> {
        let Wire { initiator, target } = self;
        drop(initiator);
        match (&target).read(&mut [0]) {
            Ok(0) => Ok(()),
            _ => Err(ServeFault::Network),
        }
    }
}

// The connection of this peer. Those of others, which found the port first, are closed.
fn accept_from(listener: &TcpListener, peer: SocketAddr) -> io::Result<TcpStream> {
    for _ in 0..STRANGERS {
        let (stream, from) = listener.accept()?;
        if from == peer {
            return Ok(stream);
        }
    }
    Err(io::Error::from(io::ErrorKind::ConnectionAborted))
}

// Writes a piece at one socket, and reads as many bytes at the other.
fn carry(
    mut from: &TcpStream,
    mut to: &TcpStream,
    piece: &[u8],
    read: &mut [u8],
) -> Result<(), ServeFault>
    ensures err { IfErr result (λ fault. fault ≡ serve.Network) }
{
    if write_fully(&mut from, piece).is_err() {
        return Err(ServeFault::Network);
    }
    if to.read_exact(read).is_err() {
        return Err(ServeFault::Network);
    }
    Ok(())
}
