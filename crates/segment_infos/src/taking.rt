//! The segments of a commit as they are read.
ghost use Rattle.std.specs.Prelude.{◌≡◌, ◌≤◌, ◌+◌, false, [], ◌∷◌, ◌++◌, OnOk, OnErr};
ghost use Rattle.segment_infos.specs.Values.{total_size};
ghost use Rattle.segment_infos.specs.Conditions.{has_number};
ghost use Rattle.segment_infos.specs.declared.record.TheConstants.{MOST_DOCUMENTS};

use crate::infos::SegInfo;
use crate::lists::Segments;
use crate::record::MOST_DOCUMENTS;
use lu_prims::OutOfMemory;
use std::alloc::Global;
use std::collections::BTreeSet;
use std::marker::Model;

/// The segments that were read so far, with their numbers for a search.
#[derive(Drop)]
pub struct Taking {
    segments: Vec<SegInfo>,
    numbers: BTreeSet<u32>,
    total: u32,
}

impl Model for Taking {
    ghost use Rattle.std.specs.Prelude.{List};
    ghost use Rattle.segment_infos.specs.declared.infos.SegInfo.{SegInfo};
    ghost use Rattle.segment_infos.specs.Taking.{HasSegmentNumbers, IsTotal};

    ghost Value = { List SegInfo };

    ghost view = { λ t. t.segments.items };

    ghost invariant = { λ t. HasSegmentNumbers t.numbers t.segments.items × IsTotal t.total t.segments.items };
}

impl Taking {
    /// No segments yet. Takes no memory.
    pub fn new(alloc: Global) -> Taking
        ensures { result ≡ [] }
    {
        Taking {
            segments: Vec::new(alloc),
            numbers: BTreeSet::new(alloc),
            total: 0,
        }
    }

    /// Whether one of them has the number. Takes time by the logarithm of how many they are.
    pub fn has(&self, number: u32) -> bool
        ensures { result ≡ has_number self.now number }
    {
        self.numbers.contains(&number)
    }

    /// How many documents they have.
    pub fn total(&self) -> u32
        ensures total { result ≡ total_size self.now }
        ensures most { result ≤ MOST_DOCUMENTS }
    {
        self.total
    }

    /// Adds a segment. An `Err` leaves them as they were.
    pub fn push(&mut self, segment: SegInfo) -> Result<(), OutOfMemory>
        requires new { has_number self.old segment.number ≡ false }
        requires room { total_size self.old + segment.size ≤ MOST_DOCUMENTS }
        ensures ok { OnOk result (self.new ≡ self.old ++ segment ∷ []) }
        ensures err { OnErr result (self.new ≡ self.old) }
    {
        let number = segment.number;
        let total = self.total + segment.size;
        self.segments.push(segment)?;
        match self.numbers.insert(number) {
            Ok(_) => {
                self.total = total;
                Ok(())
            }
            Err(_) => {
                self.segments.pop();
                Err(OutOfMemory)
            }
        }
    }

    /// The segments.
    pub fn into_segments(self) -> Segments
        ensures { result ≡ self }
    {
        Segments::new(self.segments)
    }
}
