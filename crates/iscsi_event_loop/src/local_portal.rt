//! The address by which a connection came, as discovery tells it.

use arrayvec::ArrayString;
use std::fmt::Write;
use std::net::{IpAddr, Ipv6Addr, SocketAddr};

/// The most bytes of an IPv6 address in brackets, with its port.
const LONGEST: usize = 64;

/// The text of a portal's address.
pub type PortalText = ArrayString<LONGEST>;

/// An address as the text of a portal, `ADDR:PORT` (RFC 7143, section 13.8). An IPv4 address in IPv6 form is one
/// of IPv4. A link-local one has none, since only a host on the same link could use it.
pub fn portal_text(address: SocketAddr) -> Option<PortalText> {
    let ip = address.ip().to_canonical();
    if is_link_local(ip) {
        return None;
    }
    let mut text = PortalText::new();
    write!(text, "{}", SocketAddr::new(ip, address.port())).ok()?;
    Some(text)
}

// Whether an address is good on its own link alone.
fn is_link_local(ip: IpAddr) -> bool {
    match ip {
        IpAddr::V4(address) => address.is_link_local(),
        IpAddr::V6(address) => is_link_local_v6(address),
    }
}

// The same of an IPv6 address (RFC 4291, section 2.5.6).
fn is_link_local_v6(address: Ipv6Addr) -> bool {
    address.is_unicast_link_local()
}
