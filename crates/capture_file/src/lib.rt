//! Capture files: the packets of classic pcap and pcapng files, and the TCP segments in them.
#![tactic(auto)]

mod capture;
mod classic;
mod fault;
mod laws;
mod link;
mod network;
mod numbers;
mod packet;
mod packet_blocks;
mod segment;
mod time_units;
mod tunnel;

pub use capture::Capture;
pub use fault::{CaptureFault, PacketFault};
pub use laws::{
    a_broken_file_stays_broken, a_record_that_is_begun_can_be_whole,
    a_step_asks_for_no_more_than_a_record,
};
pub use network::{Address, Endpoint};
pub use packet::{LONGEST, Packet, Step};
pub use segment::{Segment, segment_of};
