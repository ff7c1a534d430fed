//! What a commit says of one segment.
use crate::lists::{MapPairs, NormGens};
use lu_types::{SharedStore, Text};

/// A key and its value in a Map (format page, "Numbers and texts").
#[derive(Debug, Drop)]
pub struct MapPair {
    pub key: Text,
    pub value: Text,
}

/// A segment as a commit has it: its line (format page, "segments_N").
#[derive(Debug, Drop)]
pub struct SegInfo {
    /// The number that its name spells.
    pub number: u32,
    /// How many documents it has, deleted ones included.
    pub size: u32,
    /// The generation of its `.del` file; `None` where it has none.
    pub del_gen: Option<u64>,
    /// The shared store that its documents are in; `None` where they are in files of its own.
    pub store: Option<SharedStore>,
    /// The norm generation of each field by number, -1 where the norms of the field are in `.nrm`; `None` where none are counted.
    pub norm_gens: Option<NormGens>,
    /// Its parts are in a `.cfs`.
    pub compound: bool,
    /// How many documents are deleted.
    pub deleted: u32,
    /// Some indexed field has positions.
    pub has_prox: bool,
    pub diagnostics: MapPairs,
}
