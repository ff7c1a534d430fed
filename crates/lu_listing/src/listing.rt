//! The listing of a segment.
ghost use Rattle.std.specs.Prelude.{};
ghost use Rattle.check_index.specs.Files.{file_at};
ghost use Rattle.lu_listing.specs.Printing.{page, Prints};
ghost use Rattle.lu_listing.specs.Lines.{numbered};
ghost use Rattle.lu_listing.specs.Listing.{norms_text as text_of_norms, segment_line, segment_text as text_of_segment};

use crate::documents::documents_text;
use crate::pieces::{hex_text, number_text};
use crate::printer::Printer;
use crate::stored::fields_text;
use crate::terms::terms_text;
use lu_dir::Sink;
use lu_prims::Steps;
use seg_reader::SegReader;

/// Prints the line of the norms of the field with a number, where it has norms.
pub fn norms_text<K: Sink>(printer: &mut Printer, out: &mut K, reader: &SegReader<'_>, field: u32)
    ensures { Prints (page printer.old (K.taken out.old) (K.faults out.old)) (page printer.new (K.taken out.new) (K.faults out.new))
        (text_of_norms field (file_at reader.now.index.norms field)) }
{
    let Some(norms) = reader.norm_column(field) else {
        return;
    };
    printer.put(out, b"norms ");
    number_text(printer, out, u64::from(field));
    printer.put_byte(out, b' ');
    hex_text(printer, out, norms);
    printer.put_byte(out, b'\n');
}

/// Prints the lines of the norms of all fields of a segment.
fn all_norms_text<K: Sink>(printer: &mut Printer, out: &mut K, reader: &SegReader<'_>)
    ensures { Prints (page printer.old (K.taken out.old) (K.faults out.old)) (page printer.new (K.taken out.new) (K.faults out.new))
        (numbered text_of_norms 0 reader.now.index.norms) }
{
    let _size = reader.size();
    for field in 0..reader.fields().count() {
        if printer.has_failed() {
            return;
        }
        norms_text(printer, out, reader, field);
    }
}

/// Prints the first line of a segment, which has this place in the commit.
fn segment_heading<K: Sink>(printer: &mut Printer, out: &mut K, place: u32, reader: &SegReader<'_>)
    ensures { Prints (page printer.old (K.taken out.old) (K.faults out.old)) (page printer.new (K.taken out.new) (K.faults out.new))
        (segment_line place reader.now.index) }
{
    printer.put(out, b"segment ");
    number_text(printer, out, u64::from(place));
    printer.put_byte(out, b' ');
    number_text(printer, out, u64::from(reader.size()));
    printer.put_byte(out, b' ');
    number_text(printer, out, u64::from(reader.deleted()));
    printer.put_byte(out, b'\n');
}

/// Prints the listing of a segment, which has this place in the commit. The steps are those of the walks over its terms.
pub fn segment_text<K: Sink, L>(
    printer: &mut Printer,
    out: &mut K,
    place: u32,
    reader: &SegReader<'_>,
    steps: &mut Steps<L>,
)
    ensures { Prints (page printer.old (K.taken out.old) (K.faults out.old)) (page printer.new (K.taken out.new) (K.faults out.new))
        (text_of_segment place reader.now.index) }
{
    segment_heading(printer, out, place, reader);
    fields_text(printer, out, reader.fields());
    documents_text(printer, out, reader);
    terms_text(printer, out, reader, steps);
    all_norms_text(printer, out, reader);
}
