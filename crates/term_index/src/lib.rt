//! The sparse index of the terms of a segment: checked beside the terms, and searched (format page, "Term index").
#![tactic(auto)]

mod checking;
mod index;
mod loading;
mod mark;
mod names;
mod point;
mod search;
mod walk;

pub use checking::check_tii;
pub use index::TermIndex;
