//! The iSCSI streams in the TCP connections of a capture file.
#![tactic(auto)]

mod beginning;
mod captured;
mod digest_filter;
mod digests;
mod fault;
mod file;
mod filters;
mod interleaved;
mod listing;
mod moment;
mod passed;
mod pdus;
mod recording;
mod scene;
mod search;
mod sum;
mod talk;
mod times;
mod told;
mod undigested;
mod voice;
mod walk;
mod window;

pub use captured::{Captured, End, Wanted};
pub use digest_filter::{DigestFilter, WrongDigest};
pub use fault::{CapturesFault, Summed};
pub use file::{CaptureFile, Numbered, Stood};
pub use filters::{normalise_captured, show_captured, tell_captured};
pub use interleaved::{Showing, show_capture};
pub use listing::list_connections;
pub use recording::{Recording, Unopened};
pub use times::Times;
pub use undigested::Undigested;
