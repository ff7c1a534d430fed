//! A segment that stands, read as one index: its documents, its terms, and cursors over their entries. No call here has a fault
//! (format page, "Indexes").
#![tactic(auto)]

mod beside;
mod jump;
mod place;
mod postings;
mod reader;
mod scan;

pub use postings::PostingsCursor;
pub use reader::SegReader;
