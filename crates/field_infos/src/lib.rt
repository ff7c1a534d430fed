//! The field table of a segment: the `.fnm` file (format page, "Field tables").
#![tactic(auto)]

mod reading;
mod writing;

pub use lu_types::{Field, FieldInfo, FieldTable};
pub use reading::check;
pub use writing::{write, written_reads};

/// The format number -2, as the VInt that spells it.
const FORMAT: u32 = 0xFFFF_FFFE;
