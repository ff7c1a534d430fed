//! Term vectors: `.tvx`, `.tvd` and `.tvf`, written, checked through a window, and read as borrowed values.
#![tactic(auto)]

mod checking;
mod cursor;
mod document;
mod fields;
pub mod laws;
mod layout;
mod occurrences;
mod places;
mod terms;
mod texts;
mod vectors;
mod view;
mod writer;
mod written;

pub use cursor::{DocVector, VectorCursor};
pub use document::{VectorDoc, VectorField};
pub use fields::{StoreWindow, check_fields};
pub use layout::DocumentPlaces;
pub use occurrences::OffsetPair;
pub use places::check_places;
pub use terms::VectorTerms;
pub use view::VectorView;
pub use writer::{Lacking, VectorFiles, VectorWriter};
