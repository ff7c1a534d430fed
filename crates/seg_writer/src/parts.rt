//! The pieces of writing a segment that merging segments shares.
pub use crate::fault::fault_of;
pub use crate::fields::{keep_positions, write_fields};
pub use crate::norms::{has_norms, norm_count};
pub use crate::packing::WrittenParts;
pub use crate::segment::files_of;
pub use crate::stored::number_in;
pub use crate::vectors::have_vectors;
