//! Stored documents: `.fdx` and `.fdt`, written, checked through a window, and read as borrowed values.
#![tactic(auto)]

mod document;
mod documents;
mod entry;
pub mod laws;
mod layout;
mod places;
mod value;
mod view;
mod writer;

pub use document::StoredDoc;
pub use places::check_places;
pub use value::{StoredRef, ValueRef};
pub use view::{StoredView, stored_total};
pub use writer::{StoredFiles, StoredWriter};
