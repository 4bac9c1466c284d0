//! A medium whose blocks an NBD server keeps.
#![tactic(auto)]

mod exchange;
mod export;
mod fault;
mod handshake;
mod line;
mod medium;
mod served;
mod sizes;
mod socket_line;
mod timed;

pub use export::{ExportFault, Opened, judge};
pub use fault::{Lost, MediumFault, Report, Silent};
pub use handshake::{HandshakeFault, negotiate};
pub use line::Line;
pub use medium::NbdMedium;
pub use served::Served;
pub use sizes::RequestSizes;
pub use socket_line::SocketLine;
pub use timed::Place;
