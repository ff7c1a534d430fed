//! Stored values as slices of the file, and the bits that tell their kinds apart (format page, "Stored documents").

/// The bit of a value that was tokenized.
pub const TOKENIZED: u8 = 1;

/// The bit of a value that is binary.
pub const BINARY: u8 = 2;

/// A stored value: the number of its field, whether it was tokenized, and what it is.
#[derive(Clone, Copy, Debug, PartialEq, Eq)]
pub struct StoredRef<'a> {
    /// The number of its field in the segment's field table.
    pub field: u32,
    /// Whether it was tokenized.
    pub tokenized: bool,
    /// What it is.
    pub value: ValueRef<'a>,
}

/// What a stored value is, lent from the file.
#[derive(Clone, Copy, Debug, PartialEq, Eq)]
pub enum ValueRef<'a> {
    /// A text.
    Text(&'a str),
    /// Bytes.
    Binary(&'a [u8]),
}
