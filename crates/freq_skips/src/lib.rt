//! Entries and skip data of the terms of a segment, the file `.frq`: written, checked exactly, and read in order.
#![tactic(auto)]

mod check;
mod datum;
mod descent;
mod entries;
mod entry;
mod following;
mod laws;
mod level;
mod level_check;
mod levels;
mod passing;
mod rules;
mod skip_point;
mod skips;
mod walk;
mod writer;

pub use check::check_term;
pub use entries::Entries;
pub use entry::Entry;
pub use laws::{good_is_sound, terms_in_turn, written_has_places, written_is_read};
pub use lu_types::TermRules;
pub use rules::RuledTerm;
pub use skip_point::SkipPoint;
pub use skips::Skips;
pub use walk::{Datum, Walk, WalkedEntry};
pub use writer::FreqWriter;
