//! The two ends of a connection.

ghost use Rattle.std.specs.Prelude.{◌≡◌};
ghost use Rattle.capture_connections.specs.Sides.{address_at, other_side};

use capture_file::{Address, Endpoint};
use std::net::{IpAddr, Ipv4Addr, Ipv6Addr, SocketAddr};

/// The two ends of a connection, whichever of them sends: the lower address first.
#[derive(Clone, Copy, PartialEq, Eq, Hash)]
pub struct Ends {
    /// The lower end.
    pub lower: SocketAddr,
    /// The upper end.
    pub upper: SocketAddr,
}

/// One of the two ends.
#[derive(Clone, Copy, PartialEq, Eq)]
pub enum Side {
    /// The lower end.
    Lower,
    /// The upper end.
    Upper,
}

impl Ends {
    /// The address of an end.
    pub fn at(&self, side: Side) -> SocketAddr
        ensures { result ≡ address_at side self.now }
    {
        match side {
            Side::Lower => self.lower,
            Side::Upper => self.upper,
        }
    }
}

impl Side {
    /// The end that is not this one.
    pub fn other(self) -> Side
        ensures { result ≡ other_side self }
    {
        match self {
            Side::Lower => Side::Upper,
            Side::Upper => Side::Lower,
        }
    }
}

// The address of an end.
fn address_of(end: Endpoint) -> SocketAddr {
    let address = match end.address {
        Address::V4(bytes) => IpAddr::V4(Ipv4Addr::from(bytes)),
        Address::V6(bytes) => IpAddr::V6(Ipv6Addr::from(bytes)),
    };
    SocketAddr::new(address, end.port)
}

/// The two ends of a segment, and which of them sent it.
pub(crate) fn ends_of(source: Endpoint, destination: Endpoint) -> (Ends, Side) {
    let source = address_of(source);
    let destination = address_of(destination);
    if source <= destination {
        let ends = Ends {
            lower: source,
            upper: destination,
        };
        (ends, Side::Lower)
    } else {
        let ends = Ends {
            lower: destination,
            upper: source,
        };
        (ends, Side::Upper)
    }
}
