//! The files of terms, entries and positions, written from terms that come one after another. It knows no documents.
#![tactic(auto)]

mod fault;
mod laws;
mod lists;
mod writer;

pub use fault::PostingFault;
pub use laws::{positions_pass, postings_may_follow, postings_written};
pub use lists::ListWriter;
pub use writer::{PostingFiles, PostingWriter};
