//! Stored values, and the part of a store that a segment takes (format page, "Stored documents").
ghost use Rattle.std.specs.Prelude.{◌≡◌};

use crate::owned::{Bytes, Text};

/// A value that a document stores under a field: its field's name, whether it was tokenized, and what it is.
#[derive(Debug, Drop)]
pub struct StoredValue {
    pub field: Text,
    pub tokenized: bool,
    pub value: Stored,
}

/// What a stored value is.
#[derive(Debug, Drop)]
pub enum Stored {
    Text(Text),
    Binary(Bytes),
}

impl Stored {
    ghost use Rattle.lu_types.specs.Documents.{IsStored, stored_bytes};

    /// The bytes of what is stored, lent: those of the text, or the bytes themselves.
    pub fn as_bytes(&self) -> &[u8]
        ensures same { result.now ≡ stored_bytes self.now }
        ensures stored { IsStored self.now }
    {
        match self {
            Stored::Text(text) => text.as_str().as_bytes(),
            Stored::Binary(bytes) => {
                let lent = bytes.as_slice();
                lent
            }
        }
    }
}

/// The documents that a segment takes of a store: `count` of them, from number `offset` on, counted from 0.
#[derive(Clone, Copy, Debug, PartialEq, Eq)]
pub struct Window {
    pub offset: u32,
    pub count: u32,
}

/// A store of documents that several segments share: from which of its documents on this segment takes them, the number of
/// the segment that the store's files are named by, and whether they are packed into one file.
#[derive(Clone, Copy, Debug, PartialEq, Eq)]
pub struct SharedStore {
    pub offset: u32,
    pub number: u32,
    pub compound: bool,
}
