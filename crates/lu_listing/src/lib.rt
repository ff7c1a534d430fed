//! The texts of indexes, handed to an output in pieces while they are made (format page, "Printed texts").
#![tactic(auto)]

mod digits;
mod documents;
mod entries;
mod listing;
mod pieces;
mod postings;
mod printer;
mod stored;
mod terms;
mod vectors;

pub use documents::document_text;
pub use listing::{norms_text, segment_text};
pub use pieces::{hex_text, number_text, quoted_text};
pub use postings::{PostingsCounts, PostingsQuery, postings_text};
pub use printer::Printer;
pub use stored::{doc_text, docs_text, fields_text};
