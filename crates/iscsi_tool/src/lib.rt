//! The jobs of the command `lanthovur`, as they run.
#![tactic(auto)]

mod answering;
mod capture_comparing;
mod capturing;
mod filtering;
mod hex_writer;
mod local_zone;
mod running;
mod telling;

pub use filtering::run_filter;
pub use iscsi_comparison::{Comparison, ComparisonFault, Sameness, compare_bytes, compare_hex};
pub use iscsi_disk_service::DiskFault;
pub use iscsi_filters::status;
pub use iscsi_serve_words::{
    FaultLine, Image, ImageFault, LineFault, NbdExport, NbdFault, Origin, Service, Storage,
};
pub use iscsi_words::{
    CaptureComparison, CaptureComparisonFault, CaptureJob, CaptureWork, Filter, Job, Telling, Work,
    read_words,
};
pub use running::{Outcome, run_read, run_words};
