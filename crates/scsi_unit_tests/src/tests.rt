//! Commands to a unit by rows, names, serial numbers, and refused memory.

mod commands;
mod memory;
mod names;
mod rows;
mod serials;
mod thin;
