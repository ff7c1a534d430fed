//! A segment written from documents: they are judged; their field table, stored values, terms, norms and vectors are written;
//! their indexed fields are gathered in columns, and the terms of all columns are written; the parts are packed where that is asked for.
#![tactic(auto)]

mod all_terms;
mod appearance;
mod columns;
mod documents;
mod fault;
mod fields;
mod heads;
mod inverted;
pub mod laws;
mod norms;
mod packing;
pub mod parts;
mod payloads;
mod segment;
mod sorted_uses;
mod stored;
mod table;
mod terms;
mod uses;
mod vectors;

pub use fault::WriteFault;
pub use segment::write_segment;
pub use segment_files::{SegmentFiles, WriteOptions};
