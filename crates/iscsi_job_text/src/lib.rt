//! The job of a recorded session as text: its lines, read and written as they go.
#![tactic(auto)]

mod entry;
mod entry_reading;
mod entry_writing;
mod fault;
mod job_reading;
pub mod laws;
mod line_reading;
mod outcome_reading;
mod outcome_writing;
mod request_reading;
mod request_writing;
mod scripts;
mod words;

pub use entry::{Entry, LONGEST_SHOWN, Stored, Time};
pub use entry_writing::{FORM, write_entry};
pub use fault::{LineReason, TextFault, WriteFault};
pub use job_reading::JobReader;
pub use line_reading::{LONGEST_LINE, read_some};
pub use outcome_writing::{write_outcome, write_outcome_from};
pub use request_writing::write_request;
pub use words::number_of;
