//! The lines of terms and of their entries.
ghost use Rattle.std.specs.Prelude.{◌≡◌, ℕ, codes};
ghost use Rattle.std.specs.Fmt.{decimal};
ghost use Rattle.std.specs.List.{flat_map};
ghost use Rattle.lu_prims.specs.Quoted.{quoted_text as text_quoted};
ghost use Rattle.lu_types.specs.Bits as bit;
ghost use Rattle.lu_types.specs.Bits.{has_bit};
ghost use Rattle.lu_types.specs.Tables.{bits_at};
ghost use Rattle.seg_reader.specs.Terms.{term_at};
ghost use Rattle.lu_listing.specs.Printing.{page, Prints};
ghost use Rattle.lu_listing.specs.Lines.{line, ◌▹◌};
ghost use Rattle.lu_listing.specs.Listing.{term_text as text_of_term};
ghost use Rattle.lu_listing.specs.InnerTerms.{IsListed};

use crate::entries::{EntryForm, entries_text};
use crate::pieces::{number_text, quoted_text};
use crate::printer::Printer;
use lu_dir::Sink;
use lu_prims::Steps;
use lu_types::TermInfo;
use lu_types::bits::{OMIT_TF, has_bit};
use seg_reader::SegReader;

/// A term of a segment: what the dictionary says of it, and its text.
#[derive(Clone, Copy, Debug, PartialEq, Eq)]
struct ListedTerm<'t> {
    info: TermInfo,
    text: &'t str,
}

/// Whether the field with a number omits how often a term stands in a document, and where.
fn omits_occurrences(reader: &SegReader<'_>, field: u32) -> bool
    ensures { result ≡ has_bit bit.omit_tf (bits_at reader.now.index.fields field) }
{
    match reader.fields().field(field) {
        Some(field) => has_bit(OMIT_TF, field.bits),
        None => false,
    }
}

/// Prints the front of the first line of a term: its field, and its text.
fn term_front<K: Sink>(printer: &mut Printer, out: &mut K, term: &ListedTerm<'_>)
    ensures { Prints (page printer.old (K.taken out.old) (K.faults out.old)) (page printer.new (K.taken out.new) (K.faults out.new))
        (codes "term" ▹ decimal term.now.info.field ▹ text_quoted term.now.text.now) }
{
    printer.put(out, b"term ");
    number_text(printer, out, u64::from(term.info.field));
    printer.put_byte(out, b' ');
    quoted_text(printer, out, term.text);
}

/// Prints the first line of a term.
fn term_heading<K: Sink>(printer: &mut Printer, out: &mut K, term: &ListedTerm<'_>)
    ensures { Prints (page printer.old (K.taken out.old) (K.faults out.old)) (page printer.new (K.taken out.new) (K.faults out.new))
        (line (codes "term" ▹ decimal term.now.info.field ▹ text_quoted term.now.text.now ▹ decimal term.now.info.doc_freq)) }
{
    term_front(printer, out, term);
    printer.put_byte(out, b' ');
    number_text(printer, out, u64::from(term.info.doc_freq));
    printer.put_byte(out, b'\n');
}

/// Prints the lines of a term of a segment: its field, its text, in how many documents it stands, and its entries.
fn term_text<K: Sink, L>(
    printer: &mut Printer,
    out: &mut K,
    reader: &SegReader<'_>,
    term: &ListedTerm<'_>,
    steps: &mut Steps<L>,
)
    requires { (n : ℕ) × IsListed reader.now n term.now }
    ensures { (n : ℕ) → IsListed reader.now n term.now
        → Prints (page printer.old (K.taken out.old) (K.faults out.old)) (page printer.new (K.taken out.new) (K.faults out.new))
        (text_of_term (term_at reader.now n)) }
{
    let _size = reader.size();
    let form = EntryForm {
        word: "in",
        omits: omits_occurrences(reader, term.info.field),
    };
    let entries = reader.all_postings(&term.info);
    term_heading(printer, out, term);
    entries_text(printer, out, form, entries, steps);
}

/// Prints the lines of all terms of a segment.
pub(crate) fn terms_text<K: Sink, L>(
    printer: &mut Printer,
    out: &mut K,
    reader: &SegReader<'_>,
    steps: &mut Steps<L>,
)
    ensures { Prints (page printer.old (K.taken out.old) (K.faults out.old)) (page printer.new (K.taken out.new) (K.faults out.new))
        (flat_map text_of_term reader.now.index.terms) }
{
    let Ok(mut cursor) = reader.terms(printer.alloc()) else {
        printer.give_up();
        return;
    };
    while let Some(info) = cursor.next() {
        if printer.has_failed() {
            return;
        }
        let term = ListedTerm {
            info,
            text: cursor.text(),
        };
        term_text(printer, out, reader, &term, steps);
    }
}
