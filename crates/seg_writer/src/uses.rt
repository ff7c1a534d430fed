//! The entries of a term, out of its uses.
ghost use Rattle.std.specs.Prelude.{◌≡◌, ◌<◌, ◌≤◌, ◌^◌, ℕ, Bool, false, [], ◌∷◌, ◌++◌, List, length, All, IfOk, OnOk};
ghost use Rattle.lu_model.specs.Index.{IndexedEntry, frequency};
ghost use Rattle.segment_files.specs.Postings.{PostingIntervals, KeptTerm};
ghost use Rattle.posting_files.specs.States.{IsTermBegun, IsEntryBegun};
ghost use Rattle.seg_writer.specs.Columns.{tokens_in_field, uses_of};
ghost use Rattle.seg_writer.specs.Entries.{AddsEntries, AreBareUnless, IsBareUnless, IsColumn, IsRun, IsTermFresh, MayFollow, entries_of_text, entry_occurrences, entry_with, listed_occurrences, run_length, tokens_at};

use crate::appearance::Appearance;
use crate::fault::{WriteFault, fault_of};
use crate::inverted::{Inverted, Use};
use crate::payloads::payload_of;
use lu_prims::OutOfMemory;
use posting_files::PostingWriter;

// How many of the first uses are in the field with this number.
fn run_len(uses: &[Use], entry: u32) -> usize
    ensures { result ≡ run_length entry uses.now }
{
    for (count, here) in uses.iter().enumerate() {
        if here.entry != entry {
            return count;
        }
    }
    uses.len()
}

// Adds the occurrences of these uses to the entry that is begun; `payloads` says whether some token has a payload.
fn add_occurrences(
    writer: &mut PostingWriter,
    place: &Appearance<'_>,
    payloads: bool,
    run: &[Use],
) -> Result<(), OutOfMemory>
    requires start { writer.old.prox.position ≡ 0 }
    requires run { IsRun (tokens_in_field place.now) run.now }
    requires bare { IsBareUnless payloads (tokens_in_field place.now) }
    ensures lists { OnOk result (writer.new.lists ≡ writer.old.lists) }
    ensures begun { OnOk result ((i : PostingIntervals) (limit : ℕ) (ts : List KeptTerm) (omit payloads : Bool) (es : List IndexedEntry) → IsEntryBegun i limit ts omit payloads es [] writer.old
        → IsEntryBegun i limit ts omit payloads es (listed_occurrences false (tokens_at (tokens_in_field place.now) run.now)) writer.new) }
{
    for here in run {
        match writer.add_occurrence(here.position, payload_of(place, payloads, here)) {
            Ok(()) => {}
            Err(error) => return Err(error),
        }
    }
    Ok(())
}

// Adds the occurrences of these uses where positions are not omitted, and answers the frequency.
fn add_kept(
    writer: &mut PostingWriter,
    place: &Appearance<'_>,
    payloads: bool,
    omit_tf: bool,
    run: &[Use],
) -> Result<u32, OutOfMemory>
    requires start { writer.old.prox.position ≡ 0 }
    requires run { IsRun (tokens_in_field place.now) run.now }
    requires bare { IsBareUnless payloads (tokens_in_field place.now) }
    requires some { 0 < length run.now }
    requires few { length run.now < 2 ^ 31 }
    ensures frequency { IfOk result (λ freq. freq ≡ frequency (entry_occurrences omit_tf (tokens_at (tokens_in_field place.now) run.now))) }
    ensures range { IfOk result (λ freq. (1 ≤ freq) × (freq < 2 ^ 31)) }
    ensures lists { OnOk result (writer.new.lists ≡ writer.old.lists) }
    ensures begun { OnOk result ((i : PostingIntervals) (limit : ℕ) (ts : List KeptTerm) (omit payloads : Bool) (es : List IndexedEntry) → IsEntryBegun i limit ts omit payloads es [] writer.old
        → IsEntryBegun i limit ts omit payloads es (listed_occurrences omit_tf (tokens_at (tokens_in_field place.now) run.now)) writer.new) }
{
    if omit_tf {
        return Ok(1);
    }
    match add_occurrences(writer, place, payloads, run) {
        Ok(()) => Ok(run.len() as u32),
        Err(error) => Err(error),
    }
}

// Adds the entry of a document in which these uses are.
fn add_entry(
    writer: &mut PostingWriter,
    here: &Appearance<'_>,
    payloads: bool,
    omit_tf: bool,
    run: &[Use],
) -> Result<(), WriteFault>
    requires run { IsRun (tokens_in_field here.now) run.now }
    requires bare { IsBareUnless payloads (tokens_in_field here.now) }
    requires docs { All (λ place. place.doc ≡ here.now.doc) run.now }
    requires some { 0 < length run.now }
    requires few { length run.now < 2 ^ 31 }
    requires small { here.now.doc < 2 ^ 31 }
    requires follows { MayFollow here.now.doc writer.old }
    ensures { (i : PostingIntervals) (limit : ℕ) (ts : List KeptTerm) (omit payloads : Bool) (es : List IndexedEntry) → IsTermBegun i limit ts omit payloads es writer.old
        → AddsEntries i limit ts omit payloads (es ++ entry_with omit_tf here.now.doc (tokens_at (tokens_in_field here.now) run.now) ∷ []) writer.new result }
{
    let before = match writer.begin_entry() {
        Ok(before) => before,
        Err(fault) => return Err(fault_of(fault)),
    };
    let freq = match add_kept(writer, here, payloads, omit_tf, run) {
        Ok(freq) => freq,
        Err(error) => return Err(WriteFault::from(error)),
    };
    match writer.end_entry(run[0].doc, freq, before) {
        Ok(()) => Ok(()),
        Err(error) => Err(WriteFault::from(error)),
    }
}

/// Adds the entries of a text to the term that is begun; `payloads` says whether some token of the column has a payload.
pub(crate) fn add_entries(
    writer: &mut PostingWriter,
    column: &[Appearance<'_>],
    payloads: bool,
    omit_tf: bool,
    term: &Inverted<'_, '_>,
) -> Result<(), WriteFault>
    requires column { IsColumn column.now }
    requires bare { AreBareUnless payloads column.now }
    requires uses { term.now.uses.now ≡ uses_of term.now.text.now column.now }
    requires begun { IsTermFresh writer.old }
    ensures { (i : PostingIntervals) (limit : ℕ) (ts : List KeptTerm) (omit payloads : Bool) → IsTermBegun i limit ts omit payloads [] writer.old
        → AddsEntries i limit ts omit payloads (entries_of_text omit_tf term.now.text.now column.now) writer.new result }
{
    let mut rest = term.uses;
    while let [first, ..] = rest {
        let entry = first.entry;
        let (run, behind) = rest.split_at(run_len(rest, entry));
        match add_entry(writer, &column[entry as usize], payloads, omit_tf, run) {
            Ok(()) => {}
            Err(fault) => return Err(fault),
        }
        rest = behind;
    }
    Ok(())
}
