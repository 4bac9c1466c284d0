//! The negotiation of an iSCSI login: keys, offers, answers, and what both ends hold (RFC 7143,
//! sections 6 and 13).
#![tactic(auto)]

mod answer;
mod check;
mod config_fault;
pub mod laws;
mod name;
mod negotiation;
mod offers;
mod params;
mod phase;
mod preferences;
mod stage;

pub use answer::{answer_pairs, answer_text};
pub use config_fault::ConfigFault;
pub use iscsi_text::{Answered, NegKey, Range, Rule, Session};
pub use name::is_name;
pub use negotiation::{legal_answer, result};
pub use offers::{Auth, Offers};
pub use params::{Params, declares_well};
pub use phase::Phase;
pub use preferences::Preferences;
pub use stage::Stage;
