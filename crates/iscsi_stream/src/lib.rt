//! Streams of iSCSI PDUs: framing, the canonical stream, and one line of text for each PDU (RFC
//! 7143, section 11).
#![tactic(auto)]

mod canonical_form;
mod counts;
mod fault;
mod framer;
mod gathering;
mod io;
pub mod laws;
mod lines;
mod logins;
mod normalising;
mod texts;

pub use canonical_form::{canonical, canonical_head, text_of, write_pdu};
pub use counts::Counts;
pub use fault::{ReadFault, StreamFault, ToolFault};
pub use framer::Framer;
pub use io::{PIECE, Reads, drop_front, read_within, write_fully};
pub use lines::show_line;
pub use logins::Logins;
pub use normalising::{LONGEST_SEGMENT, have_one_meaning, normalise, show};
pub use texts::{LONGEST_TEXT, normalise_text};
