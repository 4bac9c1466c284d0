//! Stores of blocks that last: on a file, or on any medium that can be synced.
#![tactic(auto)]

mod crash_memory;
mod file_store;
mod host_file;
mod medium;
mod open_image;
mod stops_at;

pub use crash_memory::CrashMemory;
pub use file_store::FileStore;
pub use host_file::{HostFile, OpenFault};
pub use medium::Medium;
pub use open_image::OpenImage;
pub use stops_at::StopsAt;
