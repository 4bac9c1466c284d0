//! The address of a target's portal, as a discovery session is given it (RFC 7143, section 13.8).
#![tactic(auto)]

mod portal;

pub use portal::{LONGEST_PORTAL, Portal, PortalFault, is_portal};
