//! A segment made of segments: their live documents in order, under their joined fields. It is written over readers of all of them, which are alive together.
#![tactic(auto)]

mod fault;
mod merging;
mod norms;
mod sources;
mod stored;
mod tables;
mod terms;
mod vectors;

pub use fault::MergeFault;
pub use merging::merge;
pub use segment_files::{SegmentFiles, WriteOptions};
pub use sources::{Refused, Sources};
