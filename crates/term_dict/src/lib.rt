//! The terms of a segment: written, checked and walked (format page, "Terms").
#![tactic(auto)]

mod checking;
mod cursor;
mod entry;
mod file;
mod heading;
mod last;
mod laws;
mod order;
mod spelling;
mod writer;

pub use cursor::{NextTerm, TermCursor};
pub use entry::{TermEntry, entry_at};
pub use file::TermFile;
pub use heading::{FORMAT, Heading, heading_at};
pub use laws::{terms_are_good, written_index_is_read, written_is_read};
pub use lu_types::{TermInfo, TermNumbers};
pub use writer::{TermFiles, TermWriter};
