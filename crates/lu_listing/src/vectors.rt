//! The lines of the vectors of a document.
ghost use Rattle.std.specs.Prelude.{◌≡◌, List, codes};
ghost use Rattle.std.specs.Fmt.{decimal};
ghost use Rattle.std.specs.List.{flat_map};
ghost use Rattle.lu_model.specs.Index.{VectorTerm};
ghost use Rattle.term_vectors.specs.Walks.{walk_at};
ghost use Rattle.term_vectors.specs.OffsetPairs.{span_of};
ghost use Rattle.lu_listing.specs.Printing.{page, Prints};
ghost use Rattle.lu_listing.specs.Lines.{line, ◌▹◌};
ghost use Rattle.lu_listing.specs.Listing.{position_text as text_of_position, span_text as text_of_span, vector_term_line, vector_text as text_of_vector};

use crate::pieces::{number_text, quoted_text};
use crate::printer::Printer;
use lu_dir::Sink;
use term_vectors::{DocVector, OffsetPair, VectorCursor, VectorTerms};

/// Prints a position.
fn position_text<K: Sink>(printer: &mut Printer, out: &mut K, position: u32)
    ensures { Prints (page printer.old (K.taken out.old) (K.faults out.old)) (page printer.new (K.taken out.new) (K.faults out.new))
        (text_of_position position) }
{
    printer.put_byte(out, b' ');
    printer.put_byte(out, b'@');
    number_text(printer, out, u64::from(position));
}

/// Prints from where to where a token stands.
fn span_text<K: Sink>(printer: &mut Printer, out: &mut K, span: OffsetPair)
    ensures { Prints (page printer.old (K.taken out.old) (K.faults out.old)) (page printer.new (K.taken out.new) (K.faults out.new))
        (text_of_span (span_of span)) }
{
    printer.put_byte(out, b' ');
    number_text(printer, out, u64::from(span.start));
    printer.put_byte(out, b'-');
    number_text(printer, out, u64::from(span.end));
}

/// Prints the positions of the term that the walk moved to.
fn positions_text<K: Sink>(printer: &mut Printer, out: &mut K, terms: &mut VectorTerms<'_>)
    ensures printed { Prints (page printer.old (K.taken out.old) (K.faults out.old)) (page printer.new (K.taken out.new) (K.faults out.new))
        (flat_map text_of_position terms.old.positions) }
    ensures others { terms.new ≡ record terms.old { positions = terms.new.positions } }
{
    while let Some(position) = terms.position() {
        if printer.has_failed() {
            return;
        }
        position_text(printer, out, position);
    }
}

/// Prints from where to where the occurrences stand of the term that the walk moved to.
fn spans_text<K: Sink>(printer: &mut Printer, out: &mut K, terms: &mut VectorTerms<'_>)
    ensures printed { Prints (page printer.old (K.taken out.old) (K.faults out.old)) (page printer.new (K.taken out.new) (K.faults out.new))
        (flat_map text_of_span terms.old.spans) }
    ensures others { terms.new ≡ record terms.old { spans = terms.new.spans } }
{
    while let Some(span) = terms.offset() {
        if printer.has_failed() {
            return;
        }
        span_text(printer, out, span);
    }
}

/// Prints the line of the term that the walk moved to.
fn vector_term_text<K: Sink>(printer: &mut Printer, out: &mut K, terms: &mut VectorTerms<'_>)
    ensures printed { (term : VectorTerm) (left : List VectorTerm) → terms.old ≡ walk_at term left
        → Prints (page printer.old (K.taken out.old) (K.faults out.old)) (page printer.new (K.taken out.new) (K.faults out.new))
        (vector_term_line term) }
    ensures left { terms.new.left ≡ terms.old.left }
{
    printer.put(out, b"vterm ");
    quoted_text(printer, out, terms.text());
    printer.put_byte(out, b' ');
    number_text(printer, out, u64::from(terms.freq()));
    positions_text(printer, out, terms);
    spans_text(printer, out, terms);
    printer.put_byte(out, b'\n');
}

/// Prints the lines of the terms that are left.
fn vector_terms_text<K: Sink>(printer: &mut Printer, out: &mut K, terms: VectorTerms<'_>)
    ensures { Prints (page printer.old (K.taken out.old) (K.faults out.old)) (page printer.new (K.taken out.new) (K.faults out.new))
        (flat_map vector_term_line terms.entry.left) }
{
    let mut terms = terms;
    while terms.next() {
        if printer.has_failed() {
            return;
        }
        vector_term_text(printer, out, &mut terms);
    }
}

/// Prints the first line of a vector.
fn vector_heading<K: Sink>(printer: &mut Printer, out: &mut K, vector: &DocVector<'_>)
    ensures { Prints (page printer.old (K.taken out.old) (K.faults out.old)) (page printer.new (K.taken out.new) (K.faults out.new))
        (line (codes "vector" ▹ decimal vector.now.field ▹ decimal vector.now.bits)) }
{
    let field = vector.field();
    printer.put(out, b"vector ");
    number_text(printer, out, u64::from(field.number));
    printer.put_byte(out, b' ');
    number_text(printer, out, u64::from(field.bits));
    printer.put_byte(out, b'\n');
}

/// Prints the lines of a vector: its field and its bits, and its terms.
fn vector_text<K: Sink>(printer: &mut Printer, out: &mut K, vector: &DocVector<'_>)
    ensures { Prints (page printer.old (K.taken out.old) (K.faults out.old)) (page printer.new (K.taken out.new) (K.faults out.new))
        (text_of_vector vector.now) }
{
    vector_heading(printer, out, vector);
    match vector.terms(printer.alloc()) {
        Ok(terms) => vector_terms_text(printer, out, terms),
        Err(_) => printer.give_up(),
    }
}

/// Prints the lines of the vectors that are left.
pub(crate) fn vectors_text<K: Sink>(printer: &mut Printer, out: &mut K, vectors: VectorCursor<'_>)
    ensures { Prints (page printer.old (K.taken out.old) (K.faults out.old)) (page printer.new (K.taken out.new) (K.faults out.new))
        (flat_map text_of_vector vectors.entry) }
{
    let mut vectors = vectors;
    while let Some(vector) = vectors.next() {
        if printer.has_failed() {
            return;
        }
        vector_text(printer, out, &vector);
    }
}
