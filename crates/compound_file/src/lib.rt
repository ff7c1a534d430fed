//! The files of a segment, or of a shared document store, in one: `.cfs` and `.cfx` (format page, "Compound files").
#![tactic(auto)]

mod directory;
mod entry;
pub mod laws;
mod packing;
mod parts;
mod reading;

pub use packing::{PackFault, pack};
pub use parts::{CfsEntries, split};
