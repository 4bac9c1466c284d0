//! What the PDUs of a stream say in words, and as JSON: the forms of `show` beside its plain lines.
#![tactic(auto)]

mod commands;
mod form;
mod iscsi_words;
mod meaning;
mod notes;
mod objects;
mod remarks;
mod requests;
mod sense;
mod stamp;
mod stream;
mod writing;

pub use form::{Form, write_pdu};
pub use notes::notes_of;
pub use remarks::{Remark, write_remark};
pub use requests::{Asked, Requests};
pub use stamp::{Clock, Origin, Stamp};
pub use stream::{Manner, pass_on, show_in_form};
