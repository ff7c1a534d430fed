//! The lines of fields and of stored documents.
ghost use Rattle.std.specs.Prelude.{◌≡◌, ◌<◌, length, Some, slice_get};
ghost use Rattle.lu_types.specs.Tables.{TableField};
ghost use Rattle.lu_types.specs.Fields.{table_field};
ghost use Rattle.stored_fields.specs.Entries.{lent_field, value_of};
ghost use Rattle.lu_listing.specs.Printing.{page, Prints};
ghost use Rattle.lu_listing.specs.Lines.{field_line, field_lines, doc_text as text_of_doc, doc_lines, flag_digit as digit_of_flag, value_text as text_of_value, stored_line, stored_lines as lines_of_stored};

use crate::pieces::{byte_text, hex_text, number_line, number_text, quoted_text};
use crate::printer::Printer;
use lu_dir::Sink;
use lu_types::{Field, FieldTable};
use stored_fields::{StoredDoc, StoredRef, StoredView, ValueRef};

/// Prints the line of a field.
fn field_text<K: Sink>(printer: &mut Printer, out: &mut K, number: u32, field: Field<'_>)
    ensures { Prints (page printer.old (K.taken out.old) (K.faults out.old)) (page printer.new (K.taken out.new) (K.faults out.new)) (field_line number (table_field field.entry)) }
{
    printer.put(out, b"field ");
    number_text(printer, out, number as u64);
    printer.put_byte(out, b' ');
    byte_text(printer, out, field.bits);
    printer.put_byte(out, b' ');
    quoted_text(printer, out, field.name);
    printer.put_byte(out, b'\n');
}

/// Prints the line of the field with this number.
fn numbered_text<K: Sink>(printer: &mut Printer, out: &mut K, table: &FieldTable<'_>, number: u32)
    requires { number < length table.now }
    ensures { (field : TableField) → slice_get table.now number ≡ Some field
        → Prints (page printer.old (K.taken out.old) (K.faults out.old)) (page printer.new (K.taken out.new) (K.faults out.new)) (field_line number field) }
{
    match table.field(number) {
        Some(field) => field_text(printer, out, number, field),
        None => unreachable!(),
    }
}

/// Prints the lines of a field table.
pub fn fields_text<K: Sink>(printer: &mut Printer, out: &mut K, table: &FieldTable<'_>)
    ensures { Prints (page printer.old (K.taken out.old) (K.faults out.old)) (page printer.new (K.taken out.new) (K.faults out.new)) (field_lines 0 table.now) }
{
    for number in 0..table.count() {
        if printer.has_failed() {
            return;
        }
        numbered_text(printer, out, table, number);
    }
}

/// Prints what a stored value is.
fn value_text<K: Sink>(printer: &mut Printer, out: &mut K, value: ValueRef<'_>)
    ensures { Prints (page printer.old (K.taken out.old) (K.faults out.old)) (page printer.new (K.taken out.new) (K.faults out.new)) (text_of_value (value_of value.entry)) }
{
    match value {
        ValueRef::Text(text) => {
            printer.put(out, b"text ");
            quoted_text(printer, out, text);
        }
        ValueRef::Binary(bytes) => {
            printer.put(out, b"binary ");
            hex_text(printer, out, bytes);
        }
    }
}

/// The digit of a flag.
fn flag_digit(flag: bool) -> &'static str
    ensures { result.now ≡ digit_of_flag flag }
{
    if flag { "1" } else { "0" }
}

/// Prints the line of a stored value.
fn stored_text<K: Sink>(printer: &mut Printer, out: &mut K, stored: StoredRef<'_>)
    ensures { Prints (page printer.old (K.taken out.old) (K.faults out.old)) (page printer.new (K.taken out.new) (K.faults out.new)) (stored_line (lent_field stored.entry)) }
{
    printer.put(out, b"stored ");
    number_text(printer, out, stored.field as u64);
    printer.put_byte(out, b' ');
    printer.put(out, flag_digit(stored.tokenized).as_bytes());
    printer.put_byte(out, b' ');
    value_text(printer, out, stored.value);
    printer.put_byte(out, b'\n');
}

/// Prints the lines of the stored values of a document.
pub(crate) fn stored_lines<K: Sink>(printer: &mut Printer, out: &mut K, doc: StoredDoc<'_>)
    ensures { Prints (page printer.old (K.taken out.old) (K.faults out.old)) (page printer.new (K.taken out.new) (K.faults out.new)) (lines_of_stored doc.entry) }
{
    let mut doc = doc;
    while let Some(stored) = doc.next() {
        if printer.has_failed() {
            return;
        }
        stored_text(printer, out, stored);
    }
}

/// Prints the number of a document, and the lines of its stored values.
pub fn doc_text<K: Sink>(printer: &mut Printer, out: &mut K, number: u32, doc: StoredDoc<'_>)
    ensures { Prints (page printer.old (K.taken out.old) (K.faults out.old)) (page printer.new (K.taken out.new) (K.faults out.new)) (text_of_doc number doc.entry) }
{
    number_line(printer, out, "doc ", number as u64);
    stored_lines(printer, out, doc);
}

/// Prints the lines of all documents of a store.
pub fn docs_text<K: Sink>(printer: &mut Printer, out: &mut K, view: &StoredView<'_>)
    ensures { Prints (page printer.old (K.taken out.old) (K.faults out.old)) (page printer.new (K.taken out.new) (K.faults out.new)) (doc_lines 0 view.now) }
{
    for number in 0..view.documents() {
        if printer.has_failed() {
            return;
        }
        doc_text(printer, out, number, view.doc(number));
    }
}
