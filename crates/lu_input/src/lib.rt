//! Documents read from lines of JSON, and the tokens of a text (format page, "Input").
#![tactic(auto)]

mod fault;
pub mod laws;
mod lines;
mod members;
mod objects;
mod words;

pub use fault::{InputFault, LineFault};
pub use lines::read_documents;
pub use words::tokens_of;
