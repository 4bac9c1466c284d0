//! Messages of the NBD protocol: the fixed newstyle handshake with the option GO, requests, and
//! simple replies.
#![tactic(auto)]

mod greeting;
mod information;
pub mod laws;
mod numbers;
mod option;
mod reply;
mod request;

pub use greeting::{Greeting, GreetingFault, read_greeting};
pub use information::{BlockSizes, Export, Info, InfoFault, read_info};
pub use option::{OptionHead, OptionMagic, read_option_head, write_go};
pub use reply::{ReplyMagic, SimpleReply, read_simple_reply, reply_bytes};
pub use request::{Command, DISCONNECT, Request, RequestFault, read_request, request_bytes};

/// The longest name of an export, in bytes ("String values").
pub const LONGEST_NAME: usize = 4096;

/// The client's flags: bit 0 says that it keeps to the fixed newstyle handshake ("Client flags").
pub const CLIENT_FLAGS: [u8; 4] = [0, 0, 0, 1];
