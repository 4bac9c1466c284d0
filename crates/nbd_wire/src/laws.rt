//! What one side writes, the other reads.

ghost use Rattle.std.specs.Prelude.{◌≡◌, ◌≤◌, length, Ok};
ghost use Rattle.nbd_wire.specs.declared.information.Info.TheVariants as info;
ghost use Rattle.nbd_wire.specs.Handshake.{block_sizes_bytes, export_bytes, go_bytes, go_name, greeting_at, greeting_bytes, info_at, option_head_at, option_head_bytes};
ghost use Rattle.nbd_wire.specs.Transmission.{reply_bytes, request_at, request_bytes, simple_reply_at};

use crate::greeting::Greeting;
use crate::information::{BlockSizes, Export};
use crate::option::OptionHead;
use crate::reply::SimpleReply;
use crate::request::Request;

/// A greeting is read from its bytes.
pub fn greeting_reads_back(greeting: Greeting)
    ensures { greeting_at (greeting_bytes greeting) ≡ Ok greeting }
{}

/// The name of an export is read from the option GO.
pub fn go_reads_back(name: &[u8])
    requires short { length name.now ≤ 4096 }
    ensures { go_name (go_bytes name.now) ≡ name.now }
{}

/// The head of an answer to an option is read from its bytes.
pub fn option_head_reads_back(head: OptionHead)
    ensures { option_head_at (option_head_bytes head) ≡ Ok head }
{}

/// Size and flags of an export are read from their bytes.
pub fn export_reads_back(export: Export)
    ensures { info_at (export_bytes export) ≡ Ok (info.Export export) }
{}

/// The lengths of requests are read from their bytes.
pub fn block_sizes_read_back(sizes: BlockSizes)
    ensures { info_at (block_sizes_bytes sizes) ≡ Ok (info.BlockSizes sizes) }
{}

/// A request is read from its bytes.
pub fn request_reads_back(request: Request)
    ensures { request_at (request_bytes request) ≡ Ok request }
{}

/// A simple reply is read from its bytes.
pub fn simple_reply_reads_back(reply: SimpleReply)
    ensures { simple_reply_at (reply_bytes reply) ≡ Ok reply }
{}
