//! Capture files and packets, by bytes that were laid out from the tables of the standards.

mod files;
mod links;
mod memory;
mod refused;
mod segments;
mod walk;
