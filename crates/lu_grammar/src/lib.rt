//! What a file is: parts and their spellings, records, and where the first fault stands.
#![tactic(auto)]

mod bad;
mod general;
pub mod laws;

pub use bad::Bad;
pub use general::{ENDS, LONG_NUMBER, MISSING, NOT_UTF8, TOO_GREAT, TRAILING};
