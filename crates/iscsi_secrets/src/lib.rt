//! The file of secrets of a target: who may log in, and as whom the target answers (RFC 7143, section
//! 9.2.1). No type that holds a secret has `Debug`, and no fault has a text of the file in it.
#![tactic(auto)]

mod fault;
mod line;
mod opening;
mod remark;
mod secrets;

pub use fault::SecretsFault;
pub use remark::SecretsRemark;
pub use secrets::Secrets;
