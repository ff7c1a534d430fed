//! Lists that a value owns: contracts see them as the list of their items.
use crate::infos::{MapPair, SegInfo};
use lu_types::Items;

/// The pairs of a Map.
pub type MapPairs = Items<MapPair>;

/// The norm generations of the fields of a segment.
pub type NormGens = Items<i64>;

/// The segments of a commit.
pub type Segments = Items<SegInfo>;
