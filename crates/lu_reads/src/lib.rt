//! The commands that only read: what is found of a folder, held in memory, judged and printed.
#![tactic(auto)]

pub mod checking;
pub mod finding;
pub mod holding;
pub mod judging;
pub mod limits;
pub mod naming;
pub mod reaching;
pub mod reading;
pub mod showing;
pub mod stopping;
