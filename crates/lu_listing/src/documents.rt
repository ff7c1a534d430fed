//! The lines of documents: whether they are live, their stored values and their vectors.
ghost use Rattle.std.specs.Prelude.{◌≡◌, ◌<◌, not, [], codes, get_or};
ghost use Rattle.std.specs.Fmt.{decimal};
ghost use Rattle.std.specs.List.{flat_map};
ghost use Rattle.lu_listing.specs.Printing.{page, Prints};
ghost use Rattle.lu_listing.specs.Lines.{line, ◌▹◌};
ghost use Rattle.lu_listing.specs.Listing.{state_text, vector_text, document_text as text_of_document, documents_text as text_of_documents};

use crate::pieces::number_text;
use crate::printer::Printer;
use crate::stored::stored_lines;
use crate::vectors::vectors_text;
use lu_dir::Sink;
use seg_reader::SegReader;

/// How a document stands.
fn state_of(live: bool) -> &'static str
    ensures { result.now ≡ state_text (not live) }
{
    if live { "live" } else { "deleted" }
}

/// Prints the first line of a document.
fn document_heading<K: Sink>(printer: &mut Printer, out: &mut K, number: u32, live: bool)
    ensures { Prints (page printer.old (K.taken out.old) (K.faults out.old)) (page printer.new (K.taken out.new) (K.faults out.new))
        (line (codes "doc" ▹ decimal number ▹ state_text (not live))) }
{
    printer.put(out, b"doc ");
    number_text(printer, out, u64::from(number));
    printer.put_byte(out, b' ');
    printer.put(out, state_of(live).as_bytes());
    printer.put_byte(out, b'\n');
}

/// Prints the lines of the vectors of a document.
fn document_vectors<K: Sink>(
    printer: &mut Printer,
    out: &mut K,
    reader: &SegReader<'_>,
    number: u32,
)
    requires { number < reader.now.index.size }
    ensures { Prints (page printer.old (K.taken out.old) (K.faults out.old)) (page printer.new (K.taken out.new) (K.faults out.new))
        (flat_map vector_text (get_or reader.now.index.vectors number [])) }
{
    if let Some(vectors) = reader.vectors(number) {
        vectors_text(printer, out, vectors.vectors());
    }
}

/// Prints the lines of a document: whether it is live, its stored values and its vectors.
pub fn document_text<K: Sink>(
    printer: &mut Printer,
    out: &mut K,
    reader: &SegReader<'_>,
    number: u32,
)
    requires { number < reader.now.index.size }
    ensures { Prints (page printer.old (K.taken out.old) (K.faults out.old)) (page printer.new (K.taken out.new) (K.faults out.new))
        (text_of_document reader.now.index number) }
{
    document_heading(printer, out, number, reader.is_live(number));
    stored_lines(printer, out, reader.stored(number));
    document_vectors(printer, out, reader, number);
}

/// Prints the lines of all documents of a segment.
pub(crate) fn documents_text<K: Sink>(printer: &mut Printer, out: &mut K, reader: &SegReader<'_>)
    ensures { Prints (page printer.old (K.taken out.old) (K.faults out.old)) (page printer.new (K.taken out.new) (K.faults out.new))
        (text_of_documents reader.now.index) }
{
    for number in 0..reader.size() {
        if printer.has_failed() {
            return;
        }
        document_text(printer, out, reader, number);
    }
}
