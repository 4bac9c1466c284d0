//! Disks of blocks in memory, and the commands to a logical unit that read and write them (SPC-4
//! and SBC-3).
#![tactic(auto)]

mod command;
mod deed;
mod execution;
mod fail_at;
mod found;
pub mod laws;
mod memory;
mod order;
mod planning;
mod read_only;
mod reading;
mod running;
mod sparse;
mod store;

pub use deed::{Deed, LONGEST_UNMAP};
pub use execution::{execute, execute_found, execute_planned};
pub use fail_at::FailAt;
pub use found::{Found, Work};
pub use memory::{MemoryStore, read_blocks, write_blocks};
pub use order::{Order, Outcome, Plan};
pub use planning::{LONGEST_TRANSFER, plan};
pub use read_only::ReadOnly;
pub use reading::{BlockRange, failed_read};
pub use running::run_orders;
pub use sparse::{MOST_BLOCKS, SparseStore};
pub use store::{BlockStore, StoreFault};
