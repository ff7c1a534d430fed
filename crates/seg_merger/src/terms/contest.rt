//! The segments that are merged, and which of their first terms comes first.
ghost use Rattle.std.specs.Prelude.{◌≡◌, ◌<◌, ◌^◌, length, flat_map, slice_index_or, slice_set, IfOk};
ghost use Rattle.std.specs.List.{AllByRecursion, AllZip};
ghost use Rattle.lu_model.specs.Contents.{live};
ghost use Rattle.lu_model.specs.Valid.{IsValid};
ghost use Rattle.seg_merger.specs.Merged.{indexes_of};
ghost use Rattle.seg_merger.specs.TermRests.{ComesFirst, Rest, whole_rests};
ghost use Rattle.seg_merger.specs.TermSources.{after_first};

use crate::terms::documents::number_documents;
use crate::terms::slot::Slot;
use crate::terms::tournament::{replay, tournament};
use lu_prims::OutOfMemory;
use seg_reader::SegReader;
use std::alloc::Global;
use std::marker::Model;

/// The segments with all their terms left, their documents numbered one after another.
pub(crate) fn open_slots<'r, 'a>(
    alloc: Global,
    readers: &'r [SegReader<'a>],
    numbers: &'r [Vec<u32>],
) -> Result<Vec<Slot<'r, 'a>>, OutOfMemory>
    requires few { length (flat_map live (indexes_of readers.now)) < 2 ^ 31 }
    requires numbers { AllZip (λ s ns. length ns.items ≡ length s.index.fields) readers.now numbers.now }
    ensures slots { IfOk result (λ slots. slots.items ≡ whole_rests 0 (indexes_of readers.entry.now) numbers.entry.now) }
    ensures valid { IfOk result (λ _. AllByRecursion IsValid (indexes_of readers.entry.now)) }
{
    let mut slots = Vec::new(alloc);
    let mut base = 0;
    for place in 0..readers.len() {
        let reader = &readers[place];
        let _size = reader.size();
        let numbered = number_documents(alloc, reader, base)?;
        base = numbered.next;
        let fields = numbers[place].as_slice();
        slots.push(Slot::open(alloc, reader, numbered, fields)?)?;
    }
    Ok(slots)
}

/// Segments that are merged, with the tree over their first terms. Contracts see the segments, and which comes first.
#[derive(Drop)]
pub(crate) struct Contest<'r, 'a> {
    slots: Vec<Slot<'r, 'a>>,
    tree: Vec<u32>,
}

impl<'r, 'a> Model for Contest<'r, 'a> {
    ghost use Rattle.seg_merger.specs.TermRests.{Contested};

    ghost Value = { Contested };

    ghost use Rattle.seg_merger.specs.TermContests.{contested, IsContest};

    ghost view = { contested };

    ghost invariant = { IsContest };
}

impl<'r, 'a> Contest<'r, 'a> {
    /// Of these segments.
    pub(crate) fn new(
        alloc: Global,
        slots: Vec<Slot<'r, 'a>>,
    ) -> Result<Contest<'r, 'a>, OutOfMemory>
        requires { (0 < length slots.items) × (length slots.items < 2 ^ 32) }
        ensures { IfOk result (λ contest. contest.rests ≡ slots.entry.items) }
    {
        let tree = tournament(alloc, slots.as_slice())?;
        Ok(Contest { slots, tree })
    }

    /// The segment whose first term comes first.
    pub(crate) fn first(&self) -> &Slot<'r, 'a>
        ensures slot { (d : Rest) → result.now ≡ slice_index_or self.now.rests self.now.first d }
        ensures first { ComesFirst self.now.rests self.now.first }
    {
        &self.slots[self.tree[1] as usize]
    }

    /// Takes that segment past its first term.
    pub(crate) fn advance(&mut self)
        ensures { (d : Rest) → let first = slice_index_or self.old.rests self.old.first d in
            self.new.rests ≡ slice_set self.old.rests self.old.first (record { base = first.base; size = first.size; deleted = first.deleted; left = after_first first.left }) }
    {
        let number = self.tree[1] as usize;
        let slot = &mut self.slots[number];
        slot.advance();
        let above = (self.slots.len() + number) / 2;
        replay(self.slots.as_slice(), self.tree.as_mut_slice(), above);
    }
}
