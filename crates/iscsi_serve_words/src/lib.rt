//! The words of `serve`, what a served disk is kept in, and what the words of all commands share.
#![tactic(auto)]

mod command_line;
mod command_row;
mod disk_size;
mod examples;
mod nbd_storage;
mod portal_address;
mod said;
mod serve_disk;
mod serve_lengths;
mod serve_options;
mod serve_words;
mod storage;
mod word;

pub use command_line::{LineFault, bare_command, no_command, read_command_line, usage};
pub use command_row::CommandRow;
pub use disk_size::{SIZE, SizeFault, needed_blocks};
pub use nbd_storage::{FaultLine, NbdExport, NbdFault, NbdUse};
pub use serve_options::serve_row;
pub use serve_words::{
    MOST_INITIATORS, ServeJob, Service, read_initiators, read_serve_words, service_of,
};
pub use storage::{Image, ImageFault, Origin, Storage};
pub use word::{Word, WordKind};
