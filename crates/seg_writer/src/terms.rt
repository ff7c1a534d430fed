//! The terms of a field are written, out of its column.
ghost use Rattle.std.specs.Prelude.{◌≡◌, ◌<◌, ◌^◌, ℕ, [], ◌∷◌, ◌++◌, List, length, flat_map, All, OnOk};
ghost use Rattle.segment_files.specs.Postings.{PostingIntervals, KeptTerm};
ghost use Rattle.posting_files.specs.States.{ArePostings};
ghost use Rattle.seg_writer.specs.Columns.{uses_of};
ghost use Rattle.seg_writer.specs.Entries.{AddsTerms, AreBareUnless, IsBetweenTerms, IsColumn};
ghost use Rattle.seg_writer.specs.Texts.{AreInverted, texts_in, texts_of};
ghost use Rattle.seg_writer.specs.Terms.{kept_column_terms, term_in, terms_in_columns};

use crate::appearance::Appearance;
use crate::fault::{WriteFault, fault_of};
use crate::inverted::{Inverted, invert};
use crate::payloads::have_payloads;
use crate::sorted_uses::sorted_uses;
use crate::uses::add_entries;
use posting_files::PostingWriter;
use std::alloc::Global;

/// What is kept of the terms of a field: its number, whether it omits frequencies and positions, and whether it has payloads.
#[derive(Clone, Copy, Debug, PartialEq, Eq)]
pub(crate) struct Kept {
    pub(crate) field: u32,
    pub(crate) omit_tf: bool,
    pub(crate) payloads: bool,
}

// Writes a term of a column; `payloads` says whether some token of the column has a payload.
fn write_term(
    writer: &mut PostingWriter,
    kept: Kept,
    column: &[Appearance<'_>],
    payloads: bool,
    term: &Inverted<'_, '_>,
) -> Result<(), WriteFault>
    requires column { IsColumn column.now }
    requires bare { AreBareUnless payloads column.now }
    requires uses { term.now.uses.now ≡ uses_of term.now.text.now column.now }
    requires some { 0 < length term.now.uses.now }
    requires field { kept.field < 2 ^ 31 }
    requires text { length term.now.text.now < 2 ^ 31 }
    requires between { IsBetweenTerms writer.old }
    ensures terms { (i : PostingIntervals) (limit : ℕ) (ts : List KeptTerm) → ArePostings i limit ts writer.old
        → AddsTerms i limit (ts ++ term_in kept column.now term.now.text.now ∷ []) writer.new result }
    ensures between { OnOk result (IsBetweenTerms writer.new) }
{
    match writer.begin_term(kept.omit_tf, kept.payloads) {
        Ok(()) => {}
        Err(fault) => return Err(fault_of(fault)),
    }
    match add_entries(writer, column, payloads, kept.omit_tf, term) {
        Ok(()) => {}
        Err(fault) => return Err(fault),
    }
    match writer.finish_term(kept.field, term.text) {
        Ok(()) => Ok(()),
        Err(error) => Err(WriteFault::from(error)),
    }
}

// Writes the terms of a column, which are these; `payloads` says whether some token of the column has a payload.
fn write_inverted(
    writer: &mut PostingWriter,
    kept: Kept,
    column: &[Appearance<'_>],
    payloads: bool,
    terms: &[Inverted<'_, '_>],
) -> Result<(), WriteFault>
    requires column { IsColumn column.now }
    requires bare { AreBareUnless payloads column.now }
    requires terms { AreInverted column.now terms.now }
    requires field { kept.field < 2 ^ 31 }
    requires texts { All (λ t. length t.text.now < 2 ^ 31) terms.now }
    requires between { IsBetweenTerms writer.old }
    ensures terms { (i : PostingIntervals) (limit : ℕ) (ts : List KeptTerm) → ArePostings i limit ts writer.old
        → AddsTerms i limit (ts ++ terms_in_columns kept column.now (texts_in terms.now)) writer.new result }
    ensures between { OnOk result (IsBetweenTerms writer.new) }
{
    for term in terms {
        match write_term(writer, kept, column, payloads, term) {
            Ok(()) => {}
            Err(fault) => return Err(fault),
        }
    }
    Ok(())
}

/// Writes the terms of a column, the texts of its tokens in UTF-16 order; or tells that their positions pass the limit.
pub(crate) fn write_column(
    alloc: Global,
    writer: &mut PostingWriter,
    kept: Kept,
    column: &[Appearance<'_>],
) -> Result<(), WriteFault>
    requires column { IsColumn column.now }
    requires field { kept.field < 2 ^ 31 }
    requires between { IsBetweenTerms writer.old }
    ensures terms { (i : PostingIntervals) (limit : ℕ) (ts : List KeptTerm) → ArePostings i limit ts writer.old
        → AddsTerms i limit (ts ++ terms_in_columns kept column.now (texts_of column.now)) writer.new result }
    ensures between { OnOk result (IsBetweenTerms writer.new) }
{
    let uses = sorted_uses(alloc, column)?;
    let terms = match invert(alloc, column, uses.as_slice()) {
        Ok(terms) => terms,
        Err(error) => return Err(WriteFault::from(error)),
    };
    let payloads = have_payloads(column);
    write_inverted(writer, kept, column, payloads, terms.as_slice())
}

/// The column of a field, with the field's name and what is kept of its terms.
#[derive(Clone, Copy, Debug)]
pub(crate) struct KeptColumn<'c, 'd> {
    pub(crate) name: &'d str,
    pub(crate) kept: Kept,
    pub(crate) column: &'c [Appearance<'d>],
}

/// Writes the terms of columns in turn, those of each as `write_column` does.
pub(crate) fn write_columns(
    alloc: Global,
    writer: &mut PostingWriter,
    columns: &[KeptColumn<'_, '_>],
) -> Result<(), WriteFault>
    requires columns { All (λ c. IsColumn c.column.now × (c.kept.field < 2 ^ 31)) columns.now }
    requires between { IsBetweenTerms writer.old }
    ensures terms { (i : PostingIntervals) (limit : ℕ) (ts : List KeptTerm) → ArePostings i limit ts writer.old
        → AddsTerms i limit (ts ++ flat_map kept_column_terms columns.now) writer.new result }
    ensures between { OnOk result (IsBetweenTerms writer.new) }
{
    for here in columns {
        match write_column(alloc, writer, here.kept, here.column) {
            Ok(()) => {}
            Err(fault) => return Err(fault),
        }
    }
    Ok(())
}
