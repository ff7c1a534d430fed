//! The records of `segments_N` as they stand in the file, before anything is asked of them.
ghost use Rattle.std.specs.Prelude.{◌≡◌};

use crate::lists::{MapPairs, NormGens};
use std::marker::Model;

/// The format number of a commit.
pub const FORMAT_NUMBER: i32 = -9;

/// The most documents that a segment, and that all segments of a commit, may have.
pub const MOST_DOCUMENTS: u32 = 2147483646;

/// The byte that says that the parts of a segment are in a `.cfs`, or its documents in a `.cfx`.
pub const PACKED: u8 = 0x01;

/// The byte that says that the parts of a segment are files of their own.
pub const NOT_PACKED: u8 = 0xFF;

/// A text that is lent from the bytes of a file.
#[derive(Drop)]
pub struct Lent<'a> {
    text: &'a str,
}

impl<'a> Model for Lent<'a> {
    ghost use Rattle.std.specs.Prelude.{List, ℕ};

    ghost Value = { List ℕ };

    ghost view = { λ t. t.text.now };
}

impl<'a> Lent<'a> {
    /// The text.
    pub fn new(text: &'a str) -> Lent<'a>
        ensures { result ≡ text.entry.now }
    {
        Lent { text }
    }

    /// The text, as long as the bytes are there.
    pub fn as_str(&self) -> &'a str
        ensures { result.now ≡ self.now }
    {
        self.text
    }
}

/// The header.
#[derive(Drop)]
pub struct Heading {
    pub format: i32,
    pub version: i64,
    pub counter: i32,
    pub count: i32,
}

/// The shared store of a segment.
#[derive(Drop)]
pub struct SharedStorePart<'a> {
    pub name: Lent<'a>,
    pub flag: u8,
}

/// The first parts of a segment.
#[derive(Drop)]
pub struct FrontPart<'a> {
    pub name: Lent<'a>,
    pub size: i32,
    pub del_gen: i64,
    pub offset: i32,
    pub store: Option<SharedStorePart<'a>>,
}

/// What is said of its norms.
#[derive(Drop)]
pub struct NormPart {
    pub single: u8,
    pub count: i32,
    pub gens: NormGens,
}

/// Its flags, and how many of its documents are deleted.
#[derive(Drop)]
pub struct FlagPart {
    pub compound: u8,
    pub deleted: i32,
    pub prox: u8,
}

/// A Map.
#[derive(Drop)]
pub struct MapPart {
    pub count: i32,
    pub pairs: MapPairs,
}

/// A segment.
#[derive(Drop)]
pub struct SegmentLine<'a> {
    pub front: FrontPart<'a>,
    pub norms: NormPart,
    pub flags: FlagPart,
    pub map: MapPart,
}
