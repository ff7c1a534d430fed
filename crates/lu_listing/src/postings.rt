//! The documents of a term from one on.
ghost use Rattle.std.specs.Prelude.{◌≡◌, ◌<◌, ◌+◌, ◌^◌, ℕ, List, length, Some};
ghost use Rattle.lu_types.specs.Bits as bit;
ghost use Rattle.lu_types.specs.Bits.{has_bit};
ghost use Rattle.lu_model.specs.Contents.{field_at};
ghost use Rattle.lu_model.specs.Index.{IndexedTerm};
ghost use Rattle.seg_reader.specs.Terms.{term_named};
ghost use Rattle.seg_reader.specs.Postings.{most_steps_to};
ghost use Rattle.lu_listing.specs.InnerEntries.{AreOfTerm, AreReachedLines};
ghost use Rattle.lu_listing.specs.Printing.{page, Prints};
ghost use Rattle.lu_listing.specs.Reached.{IsReachedText};

use crate::entries::{EntryForm, entries_text, entry_text};
use crate::pieces::number_line;
use crate::printer::Printer;
use lu_dir::Sink;
use lu_prims::Steps;
use lu_types::FieldTable;
use lu_types::bits::{OMIT_TF, has_bit};
use seg_reader::{PostingsCursor, SegReader};

/// A term, by the name of its field and its text, and the first document that is asked for; and the place of the segment in the
/// commit.
#[derive(Clone, Copy, Debug, PartialEq, Eq)]
pub struct PostingsQuery<'q> {
    pub place: u32,
    pub field: &'q str,
    pub text: &'q str,
    pub from: u32,
}

/// The steps of the search for a term, and those of the jump to a document.
#[derive(Drop)]
pub struct PostingsCounts<L> {
    pub seek: Steps<L>,
    pub walk: Steps<L>,
}

/// Whether the field with a name omits how often its terms stand in a document, and where.
fn omits_occurrences(table: &FieldTable<'_>, name: &str) -> bool
    ensures { (number : ℕ) → number < length table.now → (field_at number table.now).name ≡ name.now
        → result ≡ has_bit bit.omit_tf (field_at number table.now).bits }
{
    let _count = table.count();
    let Some(number) = table.find(name) else {
        return false;
    };
    let Some(field) = table.field(number) else {
        return false;
    };
    has_bit(OMIT_TF, field.bits)
}

/// From which document on the entries of a term are printed, and whether its field omits how often it stands in a document, and
/// where.
#[derive(Clone, Copy, Debug, PartialEq, Eq)]
struct Reach {
    from: u32,
    omits: bool,
}

/// Which entries of the term are asked for.
fn reach_of(reader: &SegReader<'_>, query: &PostingsQuery<'_>) -> Reach
    ensures from { result.from ≡ query.now.from }
    ensures entries { (t : IndexedTerm) → term_named reader.now.index query.now.field.now query.now.text.now ≡ Some t → AreOfTerm result.omits t.entries }
{
    let _size = reader.size();
    Reach {
        from: query.from,
        omits: omits_occurrences(reader.fields(), query.field),
    }
}

/// Prints the steps of the jump to the first document that is asked for, and the lines of the entries from there on. The cursor
/// stands before all entries.
fn reached_text<K: Sink, L>(
    printer: &mut Printer,
    out: &mut K,
    reach: Reach,
    entries: PostingsCursor<'_>,
    steps: &mut Steps<L>,
)
    requires start { entries.from ≡ 0 }
    requires entries { AreOfTerm reach.omits entries.entries }
    ensures { (lines : List ℕ) × AreReachedLines entries.entry reach.from (steps.old + most_steps_to entries.entry reach.from) lines
        × Prints (page printer.old (K.taken out.old) (K.faults out.old)) (page printer.new (K.taken out.new) (K.faults out.new)) lines }
{
    let mut entries = entries;
    let first = entries.advance(reach.from, steps);
    number_line(printer, out, "advance ", steps.count());
    let Some(document) = first else {
        return;
    };
    let form = EntryForm {
        word: "doc",
        omits: reach.omits,
    };
    entry_text(printer, out, form, document, &mut entries);
    entries_text(printer, out, form, entries, steps);
}

/// Prints what `postings` prints of a segment. Both counts are 0 before.
pub fn postings_text<K: Sink, L>(
    printer: &mut Printer,
    out: &mut K,
    reader: &mut SegReader<'_>,
    query: &PostingsQuery<'_>,
    counts: &mut PostingsCounts<L>,
)
    requires from { query.now.from < 2 ^ 31 }
    requires seek { counts.old.seek ≡ 0 }
    requires walk { counts.old.walk ≡ 0 }
    ensures lines { (lines : List ℕ) × IsReachedText reader.old query.now.place query.now.field.now query.now.text.now query.now.from lines
        × Prints (page printer.old (K.taken out.old) (K.faults out.old)) (page printer.new (K.taken out.new) (K.faults out.new)) lines }
    ensures same { reader.new ≡ reader.old }
{
    let found = reader.seek(query.field, query.text, &mut counts.seek);
    number_line(printer, out, "segment ", u64::from(query.place));
    number_line(printer, out, "seek ", counts.seek.count());
    let Some(info) = found else {
        return;
    };
    let reach = reach_of(reader, query);
    reached_text(
        printer,
        out,
        reach,
        reader.postings(&info),
        &mut counts.walk,
    );
}
