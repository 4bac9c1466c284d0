//! Texts, files, and refused memory.

mod files;
mod memory;
mod texts;
