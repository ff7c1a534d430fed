//! What a command comes to where nothing fails, and how a call ends: answers, texts, refusals, and the end of every command.
#![tactic(auto)]

pub mod finishing;
pub mod halt;
pub mod outcome;
pub mod refusing;
pub mod status;
pub mod telling;
pub mod texts;
