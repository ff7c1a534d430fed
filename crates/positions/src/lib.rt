//! Positions and payloads of the terms of a segment, the file `.prx`: written, checked exactly, and read in order.
#![tactic(auto)]

mod check;
mod due;
mod laws;
mod occurrences;
mod placing;
mod reading;
mod record;
mod writer;

pub use check::check_term;
pub use laws::{
    occurrences_are_good, skip_data_lead, terms_in_turn, what_is_held, written_is_read,
    written_together,
};
pub use occurrences::{Occ, Occurrences};
pub use writer::ProxWriter;
