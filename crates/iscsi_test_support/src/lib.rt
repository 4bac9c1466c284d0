//! What tests of iSCSI sessions share: PDUs as lines of text, a session of both ends, and readers
//! and writers that fail. Of programs `tool_rows` alone uses it.
#![tactic(auto)]

mod failing;
mod line;
mod logins;
mod session;
mod turn;

pub use failing::{Broken, Full, SURE, Sink, Source, Steps};
pub use line::{LineFault, append_pdu, bytes_of, marked, pdus_of, segment_of};
pub use logins::{CUT, FIRST_ANSWER, NAMELESS, PING, REFUSAL};
pub use session::SESSION;
pub use turn::Turn;
