//! The check of a whole segment: its files stand together for one index, or there is a first fault (format page, "How a fault is
//! found").
#![tactic(auto)]

mod deletions;
mod fields;
mod judging;
pub mod laws;
mod locating;
mod needed;
mod norms;
mod occurrences;
mod parts;
mod standing;
mod stored;
mod terms;
pub mod valid_laws;
mod vectors;

pub use judging::check_segment;
pub use parts::{CheckFault, Parts, SepFiles};
pub use standing::Standing;
