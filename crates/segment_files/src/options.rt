//! How a segment is written, and what is written of it (format page, "Canonical files").
ghost use Rattle.std.specs.Prelude.{◌≤◌, ◌<◌, ◌^◌};
ghost use Rattle.lu_types.specs.Names.{greatest_segment};

use lu_types::{Items, Limits, NamedFile};

/// How a segment is written.
#[derive(Clone, Copy, Debug, PartialEq, Eq)]
pub struct WriteOptions {
    /// The number of the segment, at most 2^31 - 2.
    pub number: u32,
    /// Every how many terms the index of terms has one: from 1 to 2^31 - 1.
    pub index_interval: u32,
    /// From how many documents on a term has skip data, and every how many entries they have a datum: from 2 to 2^31 - 1.
    pub skip_interval: u32,
    /// The most levels of skip data: from 1 to 2^31 - 1.
    pub max_levels: u32,
    /// Whether the files are packed into one.
    pub compound: bool,
    /// The greatest numbers of documents and tokens, and of bytes of a file.
    pub limits: Limits,
    pub ghost is_number: { number ≤ greatest_segment },
    pub ghost index: { 1 ≤ index_interval × index_interval < 2 ^ 31 },
    pub ghost skip: { 2 ≤ skip_interval × skip_interval < 2 ^ 31 },
    pub ghost levels: { 1 ≤ max_levels × max_levels < 2 ^ 31 },
}

/// The files of a segment, in the order in which files are checked, and what its line in a commit says of it.
#[derive(Debug, Drop)]
pub struct SegmentFiles {
    /// Its files: the parts, or the one file that they are packed into.
    pub files: Items<NamedFile>,
    /// How many documents it has.
    pub size: u32,
    /// Whether some field keeps positions.
    pub has_prox: bool,
    /// Whether the files are packed into one.
    pub compound: bool,
}
