//! The lines of entries.
ghost use Rattle.std.specs.Prelude.{◌≡◌, [], All, IsSome, Some};
ghost use Rattle.std.specs.List.{flat_map};
ghost use Rattle.lu_model.specs.Index.{IndexedEntry};
ghost use Rattle.positions.specs.Views.{occurrence_seen};
ghost use Rattle.seg_reader.specs.Postings.{entries_left};
ghost use Rattle.lu_listing.specs.InnerEntries.{IsOmittedBy, StandsOn};
ghost use Rattle.lu_listing.specs.Printing.{page, Prints};
ghost use Rattle.lu_listing.specs.Listing.{payload_text as text_of_payload, occurrence_text as text_of_occurrence, kept_text as text_of_kept, entry_line};

use crate::pieces::{hex_text, number_text};
use crate::printer::Printer;
use lu_dir::Sink;
use lu_prims::Steps;
use positions::Occ;
use seg_reader::PostingsCursor;

/// How the entries of a term are printed: the word that each line begins with, and whether the field of the term omits how often
/// it stands in a document, and where.
#[derive(Clone, Copy, Debug, PartialEq, Eq)]
pub(crate) struct EntryForm<'w> {
    pub(crate) word: &'w str,
    pub(crate) omits: bool,
}

/// Prints the payload of an occurrence, behind its position; nothing where it is empty.
fn payload_text<K: Sink>(printer: &mut Printer, out: &mut K, payload: &[u8])
    ensures { Prints (page printer.old (K.taken out.old) (K.faults out.old)) (page printer.new (K.taken out.new) (K.faults out.new))
        (text_of_payload payload.now) }
{
    if !payload.is_empty() {
        printer.put_byte(out, b':');
        hex_text(printer, out, payload);
    }
}

/// Prints an occurrence, behind what stands before it on the line.
fn occurrence_text<K: Sink>(printer: &mut Printer, out: &mut K, occurrence: Occ<'_>)
    ensures { Prints (page printer.old (K.taken out.old) (K.faults out.old)) (page printer.new (K.taken out.new) (K.faults out.new))
        (text_of_occurrence (occurrence_seen occurrence.entry)) }
{
    printer.put_byte(out, b' ');
    printer.put_byte(out, b'@');
    number_text(printer, out, u64::from(occurrence.position));
    payload_text(printer, out, occurrence.payload);
}

/// Prints the occurrences that are left of the entry where the cursor stands.
fn occurrences_text<K: Sink>(printer: &mut Printer, out: &mut K, entries: &mut PostingsCursor<'_>)
    ensures printed { Prints (page printer.old (K.taken out.old) (K.faults out.old)) (page printer.new (K.taken out.new) (K.faults out.new))
        (flat_map text_of_occurrence entries.old.left) }
    ensures taken { entries.new ≡ record entries.old { left = [] } }
{
    while let Some(occurrence) = entries.occurrence() {
        occurrence_text(printer, out, occurrence);
    }
}

/// Prints how often the term stands in the document where the cursor stands and where, behind the document.
fn kept_text<K: Sink>(
    printer: &mut Printer,
    out: &mut K,
    omits: bool,
    document: u32,
    entries: &mut PostingsCursor<'_>,
)
    requires here { IsSome entries.old.here }
    ensures printed { (e : IndexedEntry) → StandsOn entries.old omits document e
        → Prints (page printer.old (K.taken out.old) (K.faults out.old)) (page printer.new (K.taken out.new) (K.faults out.new)) (text_of_kept e.occurrences) }
    ensures taken { entries.new ≡ record entries.old { left = [] } }
{
    if !omits {
        printer.put_byte(out, b' ');
        number_text(printer, out, u64::from(entries.freq()));
    }
    occurrences_text(printer, out, entries);
}

/// Prints the line of the entry with this document, which the cursor answered, and takes its occurrences.
pub(crate) fn entry_text<K: Sink>(
    printer: &mut Printer,
    out: &mut K,
    form: EntryForm<'_>,
    document: u32,
    entries: &mut PostingsCursor<'_>,
)
    requires here { IsSome entries.old.here }
    ensures printed { (e : IndexedEntry) → StandsOn entries.old form.entry.omits document e
        → Prints (page printer.old (K.taken out.old) (K.faults out.old)) (page printer.new (K.taken out.new) (K.faults out.new)) (entry_line form.entry.word.now e) }
    ensures taken { entries.new ≡ record entries.old { left = [] } }
{
    printer.put(out, form.word.as_bytes());
    printer.put_byte(out, b' ');
    number_text(printer, out, u64::from(document));
    kept_text(printer, out, form.omits, document, entries);
    printer.put_byte(out, b'\n');
}

/// Prints the lines of the entries that are left.
pub(crate) fn entries_text<K: Sink, L>(
    printer: &mut Printer,
    out: &mut K,
    form: EntryForm<'_>,
    entries: PostingsCursor<'_>,
    steps: &mut Steps<L>,
)
    requires { All (λ e. IsOmittedBy form.omits e.occurrences) (entries_left entries) }
    ensures { Prints (page printer.old (K.taken out.old) (K.faults out.old)) (page printer.new (K.taken out.new) (K.faults out.new))
        (flat_map (entry_line form.entry.word.now) (entries_left entries.entry)) }
{
    let mut entries = entries;
    while let Some(document) = entries.next(steps) {
        if printer.has_failed() {
            return;
        }
        entry_text(printer, out, form, document, &mut entries);
    }
}
