//! The terms, one after another.
ghost use Rattle.std.specs.Prelude.{◌≡◌, ◌<◌, ◌≤◌, ◌^◌, ℕ, true, false, not, List, [], ◌++◌, length, map, IfOk, OnOk};
ghost use Rattle.std.specs.List.{AllByRecursion};
ghost use Rattle.lu_types.specs.Joins.{is_empty};
ghost use Rattle.lu_model.specs.Index.{IndexedEntry};
ghost use Rattle.lu_model.specs.Contents.{renumbered};
ghost use Rattle.segment_files.specs.Postings.{PostingIntervals, KeptTerm, kept_terms};
ghost use Rattle.posting_files.specs.States.{ArePostings};
ghost use Rattle.seg_writer.specs.Entries.{AddsTerms, IsBetweenTerms};
ghost use Rattle.seg_merger.specs.TermRests.{AreEntries, CanMerge, IsGood, IsLeast, IsName, count, entries_of_all, names, past, terms_of_all};
ghost use Rattle.seg_merger.specs.TermSources.{entries_of_first};
ghost use Rattle.seg_merger.specs.TermSteps.{GoesOn, GoesOnInTerm, IsGoing, IsInTerm, IsOn, TakesHead, TermPlace, term_if_any};

use crate::terms::contest::Contest;
use crate::terms::current::Current;
use crate::terms::entries::{add_entries, fault_of};
use crate::terms::slot::Slot;
use lu_prims::{OutOfMemory, Steps};
use lu_types::FieldInfo;
use lu_types::bits::{OMIT_TF, PAYLOADS, has_bit};
use posting_files::PostingWriter;
use seg_writer::WriteFault;
use std::alloc::Global;

/// The field of a term that is merged: its new number, and its bits.
#[derive(Clone, Copy, Debug, PartialEq, Eq)]
pub(crate) struct MergedField {
    pub(crate) number: u32,
    pub(crate) bits: u8,
}

// Adds the entries of the first term of a segment, and answers whether there were some.
fn add_first<L>(
    slot: &Slot<'_, '_>,
    writer: &mut PostingWriter,
    bits: u8,
    steps: &mut Steps<L>,
) -> Result<bool, WriteFault>
    requires some { 0 < length slot.now.left }
    requires low { AllByRecursion (λ e. e.document < slot.now.size) (entries_of_first slot.now.left) }
    requires going { (more : List IndexedEntry) × IsGoing bits (renumbered bits slot.now.base slot.now.deleted (entries_of_first slot.now.left) ++ more) writer.old }
    ensures adds { (at : TermPlace) (all more : List IndexedEntry) → IsInTerm at all (renumbered bits slot.now.base slot.now.deleted (entries_of_first slot.now.left) ++ more) writer.old
        → GoesOnInTerm at all more writer.new result }
    ensures some { IfOk result (λ some. some ≡ not (is_empty (renumbered bits slot.now.base slot.now.deleted (entries_of_first slot.now.left)))) }
{
    let mut postings = slot.postings();
    add_entries(writer, &mut postings, slot.docs(), bits, steps)
}

// Adds the entries of a term from all segments that have it, and brings these past it; and answers whether there were some.
fn merge_entries<L>(
    contest: &mut Contest<'_, '_>,
    current: &Current,
    writer: &mut PostingWriter,
    bits: u8,
    steps: &mut Steps<L>,
) -> Result<bool, WriteFault>
    requires good { AllByRecursion IsGood contest.old.rests }
    requires name { IsName current.now }
    requires least { IsLeast current.now contest.old.rests }
    requires going { IsGoing bits (entries_of_all bits contest.old.rests current.now) writer.old }
    ensures adds { (at : TermPlace) (all : List IndexedEntry) → IsInTerm at all (entries_of_all bits contest.old.rests current.now) writer.old → GoesOnInTerm at all [] writer.new result }
    ensures passed { OnOk result (contest.new.rests ≡ map (past current.now) contest.old.rests) }
    ensures some { IfOk result (λ some. some ≡ not (is_empty (entries_of_all bits contest.old.rests current.now))) }
{
    let mut some = false;
    while current.is(contest.first().head()) {
        match add_first(contest.first(), writer, bits, steps) {
            Ok(added) => some = some || added,
            Err(fault) => return Err(fault),
        }
        contest.advance();
    }
    Ok(some)
}

// Keeps the first term of a segment, and answers the number of its field.
fn take_head(slot: &Slot<'_, '_>, current: &mut Current) -> Result<Option<u32>, OutOfMemory>
    ensures { IfOk result (λ number. TakesHead slot.now.left current.new number) }
{
    match slot.head() {
        None => Ok(None),
        Some(name) => match current.set(name) {
            Ok(()) => Ok(Some(slot.field())),
            Err(error) => Err(error),
        },
    }
}

// Merges the term that is kept, in this field; it is dropped where it has no entry.
fn merge_term<L>(
    contest: &mut Contest<'_, '_>,
    current: &Current,
    writer: &mut PostingWriter,
    field: MergedField,
    steps: &mut Steps<L>,
) -> Result<(), WriteFault>
    requires good { AllByRecursion IsGood contest.old.rests }
    requires name { IsName current.now }
    requires least { IsLeast current.now contest.old.rests }
    requires entries { AreEntries field.bits (entries_of_all field.bits contest.old.rests current.now) }
    requires small { field.number < 2 ^ 31 }
    requires between { IsBetweenTerms writer.old }
    ensures terms { (i : PostingIntervals) (limit : ℕ) (all left : List KeptTerm)
        → IsOn i limit all (term_if_any field current.now.text (entries_of_all field.bits contest.old.rests current.now) ++ left) writer.old
        → GoesOn i limit all left writer.new result }
    ensures passed { OnOk result (contest.new.rests ≡ map (past current.now) contest.old.rests) }
    ensures between { OnOk result (IsBetweenTerms writer.new) }
{
    match writer.begin_term(has_bit(OMIT_TF, field.bits), has_bit(PAYLOADS, field.bits)) {
        Ok(()) => {}
        Err(fault) => return Err(fault_of(fault)),
    }
    match merge_entries(contest, current, writer, field.bits, steps) {
        Ok(true) => {}
        Ok(false) => return Ok(()),
        Err(fault) => return Err(fault),
    }
    match writer.finish_term(field.number, current.text()) {
        Ok(()) => Ok(()),
        Err(error) => Err(WriteFault::from(error)),
    }
}

// Merges the next term, the least of those that are left; false where none is left.
fn merge_next<L>(
    contest: &mut Contest<'_, '_>,
    current: &mut Current,
    fields: &[FieldInfo],
    writer: &mut PostingWriter,
    steps: &mut Steps<L>,
) -> Result<bool, WriteFault>
    requires can { CanMerge fields.now contest.old.rests }
    requires between { IsBetweenTerms writer.old }
    ensures terms { (i : PostingIntervals) (limit : ℕ) (all : List KeptTerm) → IsOn i limit all (kept_terms fields.now (terms_of_all fields.now contest.old.rests)) writer.old
        → GoesOn i limit all (kept_terms fields.now (terms_of_all fields.now contest.new.rests)) writer.new result }
    ensures can { OnOk result (CanMerge fields.now contest.new.rests) }
    ensures between { OnOk result (IsBetweenTerms writer.new) }
    ensures going { IfOk result (λ more. more ≡ true → count contest.new.rests < count contest.old.rests) }
    ensures ended { IfOk result (λ more. more ≡ false → (names contest.new.rests ≡ []) × (count contest.new.rests ≤ count contest.old.rests)) }
{
    let number = match take_head(contest.first(), current) {
        Ok(Some(number)) => number,
        Ok(None) => return Ok(false),
        Err(error) => return Err(WriteFault::from(error)),
    };
    let field = MergedField {
        number,
        bits: fields[number as usize].bits,
    };
    match merge_term(contest, current, writer, field, steps) {
        Ok(()) => Ok(true),
        Err(fault) => Err(fault),
    }
}

// Merges all terms that are left.
fn merge_all<L>(
    contest: &mut Contest<'_, '_>,
    current: &mut Current,
    fields: &[FieldInfo],
    writer: &mut PostingWriter,
    steps: &mut Steps<L>,
) -> Result<(), WriteFault>
    requires can { CanMerge fields.now contest.old.rests }
    requires between { IsBetweenTerms writer.old }
    ensures { (i : PostingIntervals) (limit : ℕ) (all : List KeptTerm) → IsOn i limit all (kept_terms fields.now (terms_of_all fields.now contest.old.rests)) writer.old
        → GoesOn i limit all [] writer.new result }
{
    let mut more = true;
    while more {
        match merge_next(contest, current, fields, writer, steps) {
            Ok(going) => more = going,
            Err(fault) => return Err(fault),
        }
    }
    Ok(())
}

/// Merges the terms of these segments.
pub(crate) fn merge_slots<'r, 'a, L>(
    alloc: Global,
    fields: &[FieldInfo],
    slots: Vec<Slot<'r, 'a>>,
    writer: &mut PostingWriter,
    steps: &mut Steps<L>,
) -> Result<(), WriteFault>
    requires can { CanMerge fields.now slots.items }
    requires few { length slots.items < 2 ^ 32 }
    requires between { IsBetweenTerms writer.old }
    ensures { (i : PostingIntervals) (limit : ℕ) → ArePostings i limit [] writer.old
        → AddsTerms i limit (kept_terms fields.now (terms_of_all fields.now slots.entry.items)) writer.new result }
{
    if slots.is_empty() {
        return Ok(());
    }
    let mut contest = Contest::new(alloc, slots)?;
    let mut current = Current::new(alloc);
    merge_all(&mut contest, &mut current, fields, writer, steps)
}
