//! A segment that stands, read as one index.
ghost use Rattle.std.specs.Prelude.{◌≡◌, ◌≢◌, ℕ, ◌<◌, ◌+◌, ◌≤◌, not, [], get_or, length, option_map, option_copied, Some, None, IfOk, MatchOption};
ghost use Rattle.doc_marks.specs.Marking.{is_in};
ghost use Rattle.lu_model.specs.Valid.{IsValid};
ghost use Rattle.term_dict.specs.Walk.{walk_of};
ghost use Rattle.term_index.specs.Seeking.{most_seek_steps};
ghost use Rattle.check_index.specs.Files.{file_at};
ghost use Rattle.check_index.specs.Opened.{IsTermOf};
ghost use Rattle.seg_reader.specs.Terms.{term_at, term_named, AreSaid};
ghost use Rattle.seg_reader.specs.Postings.{postings_of};

use crate::postings::PostingsCursor;
use check_index::Standing;
use doc_marks::{Live, Marks};
use lu_prims::{OutOfMemory, Steps};
use lu_types::{FieldTable, TermInfo};
use std::alloc::Global;
use std::marker::Model;
use stored_fields::StoredDoc;
use term_dict::TermCursor;
use term_index::TermIndex;
use term_vectors::VectorDoc;

/// A segment that stands, read as one index. Contracts see the index, and what its file of terms says. No call has a fault, and only
/// those that take an allocator take memory.
#[derive(Drop)]
pub struct SegReader<'a> {
    standing: Standing<'a>,
    /// The deleted documents are marked.
    marks: Marks,
    /// The terms, which can be sought.
    index: TermIndex<'a>,
}

impl<'a> Model for SegReader<'a> {
    ghost use Rattle.check_index.specs.Segments.{SegmentValue};
    ghost use Rattle.seg_reader.specs.Kept.{AreOf};

    ghost Value = { SegmentValue };

    ghost view = { λ r. r.standing };

    ghost invariant = { λ r. AreOf r.standing r.marks r.index };
}

/// The vectors of a document, where there are some.
fn unless_empty<'a>(vectors: VectorDoc<'a>) -> Option<VectorDoc<'a>>
    ensures { MatchOption result (vectors.entry ≡ []) (λ some. (some ≡ vectors.entry) × (some ≢ [])) }
{
    if vectors.count() == 0 {
        return None;
    }
    Some(vectors)
}

impl<'a> SegReader<'a> {
    /// A reader of the segment. It takes memory for a bit a document, and for the entries of the index of the terms.
    pub fn new(alloc: Global, standing: Standing<'a>) -> Result<SegReader<'a>, OutOfMemory>
        ensures { IfOk result (λ reader. reader ≡ standing.entry) }
    {
        let _size = standing.size();
        let marks = standing.live().marks(alloc)?;
        let index = standing.index(alloc)?;
        Ok(SegReader {
            standing,
            marks,
            index,
        })
    }

    /// The fields of the segment.
    pub fn fields(&self) -> &FieldTable<'a>
        ensures { result.now ≡ self.now.index.fields }
    {
        self.standing.fields()
    }

    /// How many documents the segment has, deleted ones too. Its index is one that files can stand for.
    pub fn size(&self) -> u32
        ensures size { result ≡ self.now.index.size }
        ensures valid { IsValid self.now.index }
    {
        self.standing.size()
    }

    /// How many of its documents are deleted.
    pub fn deleted(&self) -> u32
        ensures { result ≡ length self.now.index.deleted }
    {
        self.standing.live().count()
    }

    /// Whether a document is live, in constant time.
    pub fn is_live(&self, doc: u32) -> bool
        requires { doc < self.now.index.size }
        ensures { result ≡ not (is_in doc self.now.index.deleted) }
    {
        !self.marks.is_set(doc)
    }

    /// Which documents of the segment are live, as its `.del` says.
    pub fn live(&self) -> Live<'a>
        ensures { result ≡ record { size = self.now.index.size; documents = self.now.index.deleted } }
    {
        self.standing.live()
    }

    /// The stored values of a document.
    pub fn stored(&self, doc: u32) -> StoredDoc<'a>
        requires { doc < self.now.index.size }
        ensures { result ≡ get_or self.now.index.stored doc [] }
    {
        let _size = self.standing.size();
        self.standing.stored().doc(doc)
    }

    /// The vectors of a document; `None` exactly where it has none.
    pub fn vectors(&self, doc: u32) -> Option<VectorDoc<'a>>
        requires { doc < self.now.index.size }
        ensures { MatchOption result (get_or self.now.index.vectors doc [] ≡ [])
            (λ vectors. (vectors ≡ get_or self.now.index.vectors doc []) × (vectors ≢ [])) }
    {
        let _size = self.standing.size();
        match self.standing.vectors() {
            Some(view) => unless_empty(view.doc(doc)),
            None => None,
        }
    }

    /// The norms of the field with a number, one byte for each document, as a slice of their file; `None` exactly where there is no
    /// such field, or it has no norms.
    pub fn norm_column(&self, field: u32) -> Option<&'a [u8]>
        ensures { option_copied result ≡ file_at self.now.index.norms field }
    {
        self.standing.norm_column(field)
    }

    /// The norm of a document in the field with a number; `None` exactly where there is no such field, or it has no norms.
    pub fn norm(&self, field: u32, doc: u32) -> Option<u8>
        requires { doc < self.now.index.size }
        ensures { result ≡ option_map (λ column. get_or column doc 0) (file_at self.now.index.norms field) }
    {
        let _size = self.standing.size();
        match self.standing.norm_column(field) {
            Some(column) => Some(column[doc as usize]),
            None => None,
        }
    }

    /// A walk over the terms of the segment, before the first. It takes memory for the longest text, and its calls take none.
    pub fn terms(&self, alloc: Global) -> Result<TermCursor<'a>, OutOfMemory>
        ensures walk { IfOk result (λ cursor. cursor ≡ walk_of self.now.dictionary) }
        ensures said { AreSaid self.now }
    {
        self.standing.terms().cursor(alloc)
    }

    /// What the dictionary says of the term with this text in the field with this name; `None` exactly where the index has no such
    /// term. Each entry of the index of the terms that is compared and each term that is read is a step.
    pub fn seek<L>(&mut self, field: &str, text: &str, steps: &mut Steps<L>) -> Option<TermInfo>
        ensures term { MatchOption result (term_named self.old.index field.now text.now ≡ None)
            (λ info. (n : ℕ) × IsTermOf self.old n info × (term_named self.old.index field.now text.now ≡ Some (term_at self.old n))) }
        ensures same { self.new ≡ self.old }
        ensures bound { steps.new ≤ steps.old + most_seek_steps self.old.dictionary }
    {
        let _terms = self.standing.terms();
        self.index.seek(field, text, steps)
    }

    /// A cursor over the entries of a term of the segment whose documents are live.
    pub fn postings(&self, term: &TermInfo) -> PostingsCursor<'a>
        requires { (n : ℕ) × IsTermOf self.now n term.now }
        ensures { (n : ℕ) → IsTermOf self.now n term.now → result ≡ postings_of self.now n term.now self.now.index.deleted }
    {
        PostingsCursor::over(&self.standing, term, self.standing.live())
    }

    /// A cursor over all entries of a term of the segment.
    pub fn all_postings(&self, term: &TermInfo) -> PostingsCursor<'a>
        requires { (n : ℕ) × IsTermOf self.now n term.now }
        ensures { (n : ℕ) → IsTermOf self.now n term.now → result ≡ postings_of self.now n term.now [] }
    {
        let size = self.standing.size();
        PostingsCursor::over(&self.standing, term, Live::all(size))
    }
}
