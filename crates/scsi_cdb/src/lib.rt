//! The commands to a logical unit, their descriptor blocks, and the data that they give (SPC-4 and
//! SBC-3).
#![tactic(auto)]

mod bytes;
mod capacity;
mod cdb;
mod inquiry;
pub mod layout;
mod luns;
mod plain;
mod residual;
mod sense;

pub use bytes::Bytes;
pub use capacity::{capacity10, capacity16};
pub use cdb::{Cdb, Synchronize10, Transfer10, Transfer16};
pub use inquiry::{inquiry_bytes, vpd_bytes};
pub use luns::report_luns;
pub use residual::Residual;
pub use sense::Sense;
