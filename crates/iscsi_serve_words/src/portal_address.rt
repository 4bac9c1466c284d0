//! The address of a portal, as a word has it: `HOST:PORT`.

ghost use Rattle.std.specs.Prelude.{◌≡◌, true};
ghost use Rattle.iscsi_portal.specs.Portal.{IsPortal};

use crate::serve_words::short_number_of;
use iscsi_portal::is_portal;
use std::net::Ipv6Addr;

/// Whether a word is the address of a portal: a host name, an IPv4 address or an IPv6 address in
/// brackets, and a port from 1 to 65535 (RFC 7143, section 13.8).
pub(crate) fn is_address(word: &str) -> bool
    ensures portal { result ≡ true → IsPortal word.now }
{
    is_portal(word.as_bytes())
        && parts_of(word).is_some_and(|(host, port)| is_host(host) && 0 < port)
}

// The host and the port of an address.
fn parts_of(word: &str) -> Option<(&str, u16)> {
    let (host, digits) = word.rsplit_once(':')?;
    Some((host, short_number_of(digits)?))
}

// Whether a word is a host: a name, or an address, which has brackets where it has a colon.
fn is_host(word: &str) -> bool {
    match word.strip_prefix('[') {
        Some(rest) => rest
            .strip_suffix(']')
            .is_some_and(|text| text.parse::<Ipv6Addr>().is_ok()),
        None => !word.is_empty() && !word.contains(':') && !word.contains('['),
    }
}
