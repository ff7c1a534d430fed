//! A segment whose files stand together (format page, "Indexes").
ghost use Rattle.std.specs.Prelude.{◌≡◌, ℕ, List, length, IfOk, IfSome, option_copied};
ghost use Rattle.term_index.specs.Seeking.{searched, names_of};
ghost use Rattle.lu_model.specs.Valid.{IsValid};
ghost use Rattle.term_dict.specs.Facts.{AreGoodTerms};
ghost use Rattle.check_index.specs.Indexed.{indexed_terms};
ghost use Rattle.check_index.specs.Known.{AreKnown};
ghost use Rattle.check_index.specs.Files.{file_at};
ghost use Rattle.check_index.specs.Vectors.{HaveSome, vectors_seen};
ghost use Rattle.lu_types.specs.Occurrences.{Occurrence};
ghost use Rattle.check_index.specs.Positions.{bytes_if_any as bytes_there};
ghost use Rattle.check_index.specs.Opened.{IsTermOf, entries_of, skips_of, IsPointOf, KeepsPositions, StandsAt, occurrences_of};

use crate::norms::FieldNorms;
use crate::terms::{OpenTerms, rules_of};
use doc_marks::Live;
use freq_skips::{Entries, SkipPoint, Skips};
use lu_prims::OutOfMemory;
use lu_types::{FieldTable, TermInfo};
use positions::Occurrences;
use std::alloc::Global;
use std::marker::Model;
use stored_fields::StoredView;
use term_dict::TermFile;
use term_index::TermIndex;
use term_vectors::VectorView;

/// The field table, the stored documents and the terms of a segment.
#[derive(Drop)]
pub struct OpenContents<'a> {
    pub fields: FieldTable<'a>,
    pub stored: StoredView<'a>,
    pub terms: OpenTerms<'a>,
    /// The bytes of `.prx`, where the segment has positions.
    pub prx: Option<&'a [u8]>,
}

/// The norms, the deletions and the vectors of a segment.
#[derive(Drop)]
pub struct OpenColumns<'a> {
    pub norms: FieldNorms<'a>,
    pub live: Live<'a>,
    /// The vectors, where a document has some.
    pub vectors: Option<VectorView<'a>>,
}

/// A segment whose files were checked. Contracts see the index that they stand for, and what its file of terms says.
#[derive(Drop)]
pub struct Standing<'a> {
    pub(crate) contents: OpenContents<'a>,
    pub(crate) columns: OpenColumns<'a>,
    pub(crate) size: u32,
}

impl<'a> Model for Standing<'a> {
    ghost use Rattle.check_index.specs.Segments.{SegmentValue, segment_value};
    ghost use Rattle.check_index.specs.Opened.{contents_of, columns_of, IsTied};

    ghost Value = { SegmentValue };

    ghost view = { λ s. segment_value s.size (contents_of s.size s.contents) (columns_of s.size s.columns) };

    ghost invariant = { λ s. IsTied s.size s.contents s.columns };
}

/// The bytes of a file; none where it is not there.
fn bytes_if_any<'a>(file: Option<&'a [u8]>) -> &'a [u8]
    ensures { result.now ≡ bytes_there (option_copied file.entry) }
{
    match file {
        Some(bytes) => bytes,
        None => &[],
    }
}

impl<'a> Standing<'a> {
    /// The fields of the segment.
    pub fn fields(&self) -> &FieldTable<'a>
        ensures { result.now ≡ self.now.index.fields }
    {
        &self.contents.fields
    }

    /// The stored documents of the segment. Takes no memory.
    pub fn stored(&self) -> StoredView<'a>
        ensures { result ≡ self.now.index.stored }
    {
        self.contents.stored.again()
    }

    /// The terms of the segment: those of its index, of each of which the entries and the positions are known.
    pub fn terms(&self) -> &TermFile<'a>
        ensures terms { result.now ≡ self.now.dictionary }
        ensures good { AreGoodTerms self.now.index.fields self.now.index.size self.now.dictionary }
        ensures indexed { self.now.index.terms ≡ indexed_terms self.now.index.fields self.now.dictionary.terms self.now.lists self.now.occurrences }
        ensures count { length self.now.lists ≡ length self.now.dictionary.terms }
        ensures known { AreKnown self.now }
    {
        &self.contents.terms.terms
    }

    /// Which documents of the segment are live. Takes no memory.
    pub fn live(&self) -> Live<'a>
        ensures { result ≡ record { size = self.now.index.size; documents = self.now.index.deleted } }
    {
        self.columns.live.again()
    }

    /// The norms of the field with a number, one byte for each document, as a slice of their file; `None` exactly where there is no
    /// such field, or it has no norms. Takes no memory.
    pub fn norm_column(&self, field: u32) -> Option<&'a [u8]>
        ensures { option_copied result ≡ file_at self.now.index.norms field }
    {
        self.columns.norms.column(field)
    }

    /// The vectors of the segment's documents; `None` exactly where no document has any. Takes no memory.
    pub fn vectors(&self) -> Option<VectorView<'a>>
        ensures seen { vectors_seen self.now.index.size result ≡ self.now.index.vectors }
        ensures some { IfSome result HaveSome }
    {
        match &self.columns.vectors {
            Some(view) => Some(view.again()),
            None => None,
        }
    }

    /// How many documents the segment has. Its index is one that files can stand for.
    pub fn size(&self) -> u32
        ensures size { result ≡ self.now.index.size }
        ensures valid { IsValid self.now.index }
    {
        self.size
    }

    /// The terms of the segment, which can be sought. Takes memory for the entries of their index, for the names of the fields and
    /// for one text.
    pub fn index(&self, alloc: Global) -> Result<TermIndex<'a>, OutOfMemory>
        ensures { IfOk result (λ index. index ≡ searched self.now.dictionary (names_of self.now.index.fields)) }
    {
        let terms = &self.contents.terms;
        TermIndex::load(alloc, terms.tii, &terms.terms, &self.contents.fields)
    }

    /// The entries of a term of the segment, from the first on. Takes no memory.
    pub fn entries(&self, term: &TermInfo) -> Entries<'a>
        requires { (n : ℕ) × IsTermOf self.now n term.now }
        ensures { (n : ℕ) → IsTermOf self.now n term.now → result ≡ entries_of self.now n term.now }
    {
        let contents = &self.contents;
        let numbers = contents.terms.terms.numbers();
        let rules = rules_of(&contents.fields, &numbers, term.field, self.size);
        Entries::at(contents.terms.frq, term, &rules)
    }

    /// The skip data of a term of the segment. Takes no memory.
    pub fn skips(&self, term: &TermInfo) -> Skips<'a>
        requires { (n : ℕ) × IsTermOf self.now n term.now }
        ensures { (n : ℕ) → IsTermOf self.now n term.now → result ≡ skips_of self.now n term.now }
    {
        let contents = &self.contents;
        let numbers = contents.terms.terms.numbers();
        let rules = rules_of(&contents.fields, &numbers, term.field, self.size);
        Skips::at(contents.terms.frq, term, &rules)
    }

    /// The occurrences of a term of the segment, from the entry on that a point leads to: the term's start, or one that its skip
    /// data give; no document is open. A term of a field without positions has no occurrence. Takes no memory.
    pub fn occurrences(&self, term: &TermInfo, at: &SkipPoint) -> Occurrences<'a>
        requires { (n : ℕ) × IsPointOf self.now n term.now at.now }
        ensures kept { (n : ℕ) → IsPointOf self.now n term.now at.now → KeepsPositions self.now term.now → StandsAt self.now n term.now at.now (occurrences_of self.now n) result }
        ensures stands { (n : ℕ) → IsPointOf self.now n term.now at.now → (some : List (List Occurrence)) × StandsAt self.now n term.now at.now some result }
    {
        let contents = &self.contents;
        let numbers = contents.terms.terms.numbers();
        let rules = rules_of(&contents.fields, &numbers, term.field, self.size);
        Occurrences::at(bytes_if_any(contents.prx), term, &rules, at)
    }
}
