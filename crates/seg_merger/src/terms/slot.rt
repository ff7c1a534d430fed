//! A segment in its place among those that are merged.
ghost use Rattle.std.specs.Prelude.{◌≡◌, ◌<◌, length, option_map, IfOk};
ghost use Rattle.seg_reader.specs.Postings.{entries_left};
ghost use Rattle.seg_merger.specs.TermNumbers.{AreNumbered, IsMap};
ghost use Rattle.seg_merger.specs.TermRests.{whole_rest};
ghost use Rattle.seg_merger.specs.TermSources.{after_first, entries_of_first, first_term, live_entries, number_of_first, term_named};

use crate::terms::documents::{DocMap, Numbered};
use lu_prims::OutOfMemory;
use lu_types::TermInfo;
use seg_reader::{PostingsCursor, SegReader};
use std::alloc::Global;
use std::marker::Model;
use term_dict::TermCursor;

/// A term by names.
#[derive(Clone, Copy, Debug, PartialEq, Eq)]
pub(crate) struct TermName<'t> {
    /// The name of its field.
    pub(crate) field: &'t str,
    /// Its text.
    pub(crate) text: &'t str,
}

/// A segment that is merged, with the new numbers of its documents and fields, and the terms that are left of it, of which the first
/// stands in the buffer of the cursor. Contracts see the terms that are left, and how its documents are numbered.
#[derive(Drop)]
pub(crate) struct Slot<'r, 'a> {
    reader: &'r SegReader<'a>,
    numbered: Numbered,
    fields: &'r [u32],
    cursor: TermCursor<'a>,
    /// What is said of the first term that is left.
    head: Option<TermInfo>,
}

impl<'r, 'a> Model for Slot<'r, 'a> {
    ghost use Rattle.seg_merger.specs.TermRests.{Rest};

    ghost Value = { Rest };

    ghost use Rattle.seg_merger.specs.TermSlots.{rest_of, IsSlot};

    ghost view = { rest_of };

    ghost invariant = { IsSlot };
}

impl<'r, 'a> Slot<'r, 'a> {
    /// A segment with all its terms left. It takes memory for the longest text.
    pub(crate) fn open(
        alloc: Global,
        reader: &'r SegReader<'a>,
        numbered: Numbered,
        fields: &'r [u32],
    ) -> Result<Slot<'r, 'a>, OutOfMemory>
        requires numbers { AreNumbered reader.now.index.deleted reader.now.index.size numbered }
        requires fields { length fields.now ≡ length reader.now.index.fields }
        ensures { IfOk result (λ slot. slot ≡ whole_rest numbered.base reader.entry.now.index fields.entry.now) }
    {
        let _size = reader.size();
        let mut cursor = reader.terms(alloc)?;
        let head = cursor.next();
        Ok(Slot {
            reader,
            numbered,
            fields,
            cursor,
            head,
        })
    }

    /// The new numbers of its documents.
    pub(crate) fn docs(&self) -> &DocMap
        ensures { IsMap self.now.base self.now.deleted self.now.size result.now }
    {
        &self.numbered.docs
    }

    /// The first term that is left.
    pub(crate) fn head(&self) -> Option<TermName<'_>>
        ensures { option_map term_named result ≡ first_term self.now.left }
    {
        match &self.head {
            None => None,
            Some(info) => match self.reader.fields().field(info.field) {
                None => unreachable!(),
                Some(field) => Some(TermName {
                    field: field.name,
                    text: self.cursor.text(),
                }),
            },
        }
    }

    /// The new number of its field.
    pub(crate) fn field(&self) -> u32
        requires { 0 < length self.now.left }
        ensures { result ≡ number_of_first self.now.left }
    {
        match &self.head {
            None => unreachable!(),
            Some(info) => self.fields[info.field as usize],
        }
    }

    /// Its entries in documents that are not deleted.
    pub(crate) fn postings(&self) -> PostingsCursor<'a>
        requires { 0 < length self.now.left }
        ensures { entries_left result ≡ live_entries self.now.deleted (entries_of_first self.now.left) }
    {
        match &self.head {
            None => unreachable!(),
            Some(info) => self.reader.postings(info),
        }
    }

    /// Goes past it.
    pub(crate) fn advance(&mut self)
        ensures { self.new ≡ record { base = self.old.base; size = self.old.size; deleted = self.old.deleted; left = after_first self.old.left } }
    {
        self.head = self.cursor.next();
    }
}
