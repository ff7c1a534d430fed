//! The norms of a segment and the marks of its deleted documents: `.nrm`, `.sN` and `.del` (format page, "Norms" and "Deletions").
#![tactic(auto)]

mod byte_marks;
mod dense;
mod form;
mod heading;
pub mod laws;
mod live;
mod marks;
mod norms;
mod pair_walk;
mod pairs;
mod segment;
mod walk;
mod writing;

pub use live::Live;
pub use marks::Marks;
pub use norms::{NormWriter, Norms, check_separate};
pub use walk::LiveWalk;
pub use writing::{put_dense, put_sparse, write_del};
