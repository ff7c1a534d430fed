ghost use Rattle.std.specs.Prelude.{◌≡◌};
ghost use Rattle.lu_types.specs.Terms.{term_rules};

use crate::bits::{OMIT_TF, PAYLOADS, has_bit};

/// What the dictionary says of a term (format page, "Terms"): the number of its field, in how many documents it stands, the
/// places where it starts in the files of entries and of positions, counted in bytes from their starts, and the bytes from
/// its first entry to its skip data, 0 where it has none.
#[derive(Clone, Copy, Debug, PartialEq, Eq)]
pub struct TermInfo {
    pub field: u32,
    pub doc_freq: u32,
    pub freq: u32,
    pub prox: u32,
    pub skip: u32,
}

/// What the header of a file of terms says (format page, "Terms"): how many terms there are, every how many terms the index
/// has one, from how many documents on a term has skip data, and how many levels its skip data have at most. All are below
/// 2^31.
#[derive(Clone, Copy, Debug, PartialEq, Eq)]
pub struct TermNumbers {
    pub count: u32,
    pub index_interval: u32,
    pub skip_interval: u32,
    pub max_levels: u32,
}

/// What the entries and skip data of a term are read by, besides the dictionary's line on the term (format page, "Entries and skip
/// data"): how many documents the segment has, how many entries one skip datum of the lowest level passes, the most skip
/// levels, and of the term's field whether it keeps neither frequencies nor positions, and whether it may have payloads.
#[derive(Clone, Copy, Debug, PartialEq, Eq)]
pub struct TermRules {
    pub documents: u32,
    pub skip_interval: u32,
    pub max_levels: u32,
    pub omit_tf: bool,
    pub payloads: bool,
}

impl TermRules {
    /// The rules of the terms of a field with these bits, in a dictionary with these numbers and a segment of so many documents.
    pub fn of(numbers: &TermNumbers, bits: u8, documents: u32) -> TermRules
        ensures { result ≡ term_rules numbers.now bits documents }
    {
        TermRules {
            documents,
            skip_interval: numbers.skip_interval,
            max_levels: numbers.max_levels,
            omit_tf: has_bit(OMIT_TF, bits),
            payloads: has_bit(PAYLOADS, bits),
        }
    }
}
