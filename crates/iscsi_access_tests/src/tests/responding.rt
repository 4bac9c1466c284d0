//! Responses and binary values by example, and refused memory.

mod binaries;
mod memory;
mod responses;
