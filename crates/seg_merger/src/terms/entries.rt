//! The entries of a term.
ghost use Rattle.std.specs.Prelude.{◌≡◌, ◌<◌, ◌≤◌, ◌^◌, not, List, [], ◌∷◌, ◌++◌, map, Some, IfOk, OnOk};
ghost use Rattle.std.specs.List.{AllByRecursion};
ghost use Rattle.lu_types.specs.Joins.{is_empty};
ghost use Rattle.lu_types.specs.Occurrences.{Occurrence};
ghost use Rattle.lu_model.specs.Contents.{kept};
ghost use Rattle.lu_model.specs.Index.{IndexedEntry, frequency};
ghost use Rattle.lu_model.specs.Valid.{IsKept};
ghost use Rattle.seg_reader.specs.Postings.{entries_left, occurrences_kept};
ghost use Rattle.seg_writer.specs.Answers.{write_fault};
ghost use Rattle.seg_writer.specs.Entries.{MayFollow};
ghost use Rattle.seg_merger.specs.TermNumbers.{HasNumber, renamed};
ghost use Rattle.seg_merger.specs.TermSteps.{AreWritable, GoesOnInTerm, HasEntryOccurrences, IsGoing, IsInTerm, TermPlace};

use crate::terms::documents::DocMap;
use lu_prims::{OutOfMemory, Steps};
use lu_types::bits::{OMIT_TF, has_bit};
use posting_files::{PostingFault, PostingWriter};
use seg_reader::PostingsCursor;
use seg_writer::WriteFault;

/// Why the terms were not written.
pub(crate) fn fault_of(fault: PostingFault) -> WriteFault
    ensures { result ≡ write_fault fault }
{
    match fault {
        PostingFault::TooLarge(kind) => WriteFault::TooLarge(kind),
        PostingFault::OutOfMemory => WriteFault::OutOfMemory,
    }
}

// Adds the occurrences that are left of an entry to the one that is begun.
fn add_occurrences(
    writer: &mut PostingWriter,
    postings: &mut PostingsCursor<'_>,
) -> Result<(), OutOfMemory>
    requires { AreWritable writer.old.prox.position postings.old.left }
    ensures lists { OnOk result (writer.new.lists ≡ writer.old.lists) }
    ensures begun { OnOk result ((at : TermPlace) (es : List IndexedEntry) → HasEntryOccurrences at es [] writer.old
        → HasEntryOccurrences at es postings.old.left writer.new) }
    ensures walk { OnOk result (postings.new ≡ record postings.old { left = [] }) }
{
    let mut more = true;
    while more {
        match postings.occurrence() {
            None => more = false,
            Some(occ) => match writer.add_occurrence(occ.position, occ.payload) {
                Ok(()) => {}
                Err(error) => return Err(error),
            },
        }
    }
    Ok(())
}

// Adds the occurrences of an entry, but where a field with these bits omits them, and answers how many it keeps.
fn add_kept(
    writer: &mut PostingWriter,
    postings: &mut PostingsCursor<'_>,
    bits: u8,
) -> Result<u32, OutOfMemory>
    requires start { writer.old.prox.position ≡ 0 }
    requires here { (e : IndexedEntry) × (postings.old.here ≡ Some e) × (postings.old.left ≡ occurrences_kept e.occurrences) × IsKept bits (kept bits e.occurrences) }
    ensures frequency { IfOk result (λ freq. (e : IndexedEntry) → postings.old.here ≡ Some e → freq ≡ frequency (kept bits e.occurrences)) }
    ensures range { IfOk result (λ freq. (1 ≤ freq) × (freq < 2 ^ 31)) }
    ensures lists { OnOk result (writer.new.lists ≡ writer.old.lists) }
    ensures begun { OnOk result ((e : IndexedEntry) → postings.old.here ≡ Some e → (at : TermPlace) (es : List IndexedEntry) → HasEntryOccurrences at es [] writer.old
        → HasEntryOccurrences at es (occurrences_kept (kept bits e.occurrences)) writer.new) }
    ensures left { OnOk result (entries_left postings.new ≡ entries_left postings.old) }
{
    if has_bit(OMIT_TF, bits) {
        return Ok(1);
    }
    let freq = postings.freq();
    match add_occurrences(writer, postings) {
        Ok(()) => Ok(freq),
        Err(error) => Err(error),
    }
}

// Adds the entry where the cursor stands, under this number, as a field with these bits keeps it.
fn add_entry(
    writer: &mut PostingWriter,
    postings: &mut PostingsCursor<'_>,
    doc: u32,
    bits: u8,
) -> Result<(), WriteFault>
    requires here { (e : IndexedEntry) × (postings.old.here ≡ Some e) × (postings.old.left ≡ occurrences_kept e.occurrences) × IsKept bits (kept bits e.occurrences) }
    requires small { doc < 2 ^ 31 }
    requires follows { MayFollow doc writer.old }
    ensures adds { (e : IndexedEntry) → postings.old.here ≡ Some e → (at : TermPlace) (all left : List IndexedEntry)
        → IsInTerm at all (record { document = doc; occurrences = kept bits e.occurrences } ∷ left) writer.old → GoesOnInTerm at all left writer.new result }
    ensures left { OnOk result (entries_left postings.new ≡ entries_left postings.old) }
{
    let before = match writer.begin_entry() {
        Ok(before) => before,
        Err(fault) => return Err(fault_of(fault)),
    };
    let freq = match add_kept(writer, postings, bits) {
        Ok(freq) => freq,
        Err(error) => return Err(WriteFault::from(error)),
    };
    match writer.end_entry(doc, freq, before) {
        Ok(()) => Ok(()),
        Err(error) => Err(WriteFault::from(error)),
    }
}

/// Adds the entries that are left to the term that is begun, under their new numbers, as a field with these bits keeps them; and answers
/// whether there were some.
pub(crate) fn add_entries<L>(
    writer: &mut PostingWriter,
    postings: &mut PostingsCursor<'_>,
    docs: &DocMap,
    bits: u8,
    steps: &mut Steps<L>,
) -> Result<bool, WriteFault>
    requires numbered { AllByRecursion (λ e. HasNumber docs.now e.document) (entries_left postings.old) }
    requires going { (more : List IndexedEntry) × IsGoing bits (map (renamed bits docs.now) (entries_left postings.old) ++ more) writer.old }
    ensures adds { (at : TermPlace) (all more : List IndexedEntry) → IsInTerm at all (map (renamed bits docs.now) (entries_left postings.old) ++ more) writer.old
        → GoesOnInTerm at all more writer.new result }
    ensures some { IfOk result (λ some. some ≡ not (is_empty (map (renamed bits docs.now) (entries_left postings.old)))) }
{
    let mut some = false;
    let mut more = true;
    while more {
        match postings.next(steps) {
            None => more = false,
            Some(doc) => {
                match add_entry(writer, postings, docs.number(doc), bits) {
                    Ok(()) => {}
                    Err(fault) => return Err(fault),
                }
                some = true;
            }
        }
    }
    Ok(some)
}
