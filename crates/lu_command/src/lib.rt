//! The commands: what the words of a call mean, and the call that answers them.
#![tactic(auto)]

mod call;
mod command;
pub mod laws;
mod words;

pub use call::run;
pub use command::Command;
pub use lu_outcomes::outcome::{Effect, Outcome};
pub use lu_outcomes::status::{Refusal, Status, Which};
pub use lu_reads::limits::FILE_LIMIT;
