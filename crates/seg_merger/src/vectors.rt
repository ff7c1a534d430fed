//! Vectors are written, document by document.
ghost use Rattle.std.specs.Prelude.{◌≡◌, ◌<◌, ◌^◌, [], length, filter, All, IfOk, OnOk, slice_index, slice_index_or};
ghost use Rattle.check_index.specs.Vectors.{have_vectors as some_have_vectors};
ghost use Rattle.lu_types.specs.Bits as bit;
ghost use Rattle.lu_types.specs.Bits.{has_bit};
ghost use Rattle.lu_model.specs.Contents.{field_at, joined_table, merge_of};
ghost use Rattle.lu_model.specs.Valid.{IsValid, IsVectorTerm};
ghost use Rattle.term_vectors.specs.VectorWriting.{HoldsDocuments, IsTermWhole, IsVectorWhole, IsDocumentWhole};
ghost use Rattle.seg_writer.specs.Answers.{Wrote};
ghost use Rattle.seg_writer.specs.VectorSteps.{with_positions, with_spans, with_whole_document, with_whole_term, with_whole_terms, with_whole_vector};
ghost use Rattle.seg_writer.specs.VectorsDue.{given_vectors, vector_files_due};
ghost use Rattle.seg_merger.specs.Merged.{AreFieldNumbers, indexes_of};
ghost use Rattle.seg_merger.specs.Renumbered.{is_vector_kept, kept_vectors, live_vectors};
ghost use Rattle.seg_merger.specs.VectorSteps.{AreJoined, IsKeptWalk, IsOfFields, passed_term, with_vectors_of};

use lu_prims::OutOfMemory;
use lu_types::bits::{VECTORS, has_bit};
use lu_types::{FieldInfo, FileKind};
use seg_reader::SegReader;
use seg_writer::WriteFault;
use seg_writer::parts::have_vectors;
use std::alloc::Global;
use term_vectors::{DocVector, VectorCursor, VectorDoc, VectorFiles, VectorTerms, VectorWriter};

/// The joined fields, and the numbers that the fields of a segment have among them.
#[derive(Clone, Copy)]
struct NewFields<'f> {
    table: &'f [FieldInfo],
    numbers: &'f [u32],
}

// Whether the field with a number has vectors in the joined table.
fn is_kept(fields: &NewFields<'_>, number: u32) -> bool
    requires joined { AreJoined fields.now.table.now fields.now.numbers.now }
    requires there { number < length fields.now.numbers.now }
    ensures { result ≡ has_bit bit.vectors (field_at (slice_index fields.now.numbers.now number) fields.now.table.now).bits }
{
    let new = fields.numbers[number as usize];
    has_bit(VECTORS, fields.table[new as usize].bits)
}

// How many of the vectors that are left are kept.
fn kept_count(fields: &NewFields<'_>, vectors: VectorCursor<'_>) -> u32
    requires joined { AreJoined fields.now.table.now fields.now.numbers.now }
    requires of { All (IsOfFields (length fields.now.numbers.now)) vectors }
    requires few { length vectors < 2 ^ 31 }
    ensures { result ≡ length (filter (is_vector_kept fields.now.table.now fields.now.numbers.now) vectors.entry) }
{
    let mut vectors = vectors;
    let mut count = 0;
    while let Some(vector) = vectors.next() {
        if is_kept(fields, vector.field().number) {
            count += 1;
        }
    }
    count
}

// How many terms are left.
fn term_count(terms: VectorTerms<'_>) -> u32
    requires { length terms.left < 2 ^ 31 }
    ensures { result ≡ length terms.entry.left }
{
    let mut terms = terms;
    let mut count = 0;
    while terms.next() {
        count += 1;
    }
    count
}

// Writes the positions of the term that the walk moved to.
fn write_positions(
    writer: &mut VectorWriter,
    terms: &mut VectorTerms<'_>,
) -> Result<(), OutOfMemory>
    requires { writer.old.lacks_positions ≡ length terms.old.positions }
    ensures written { OnOk result (writer.new ≡ with_positions terms.old.positions writer.old) }
    ensures taken { OnOk result (terms.new ≡ record terms.old { positions = [] }) }
{
    while let Some(position) = terms.position() {
        match writer.position(position) {
            Ok(()) => {}
            Err(error) => return Err(error),
        }
    }
    Ok(())
}

// Writes from where to where the occurrences stand of the term that the walk moved to.
fn write_spans(writer: &mut VectorWriter, terms: &mut VectorTerms<'_>) -> Result<(), OutOfMemory>
    requires positions { writer.old.lacks_positions ≡ 0 }
    requires spans { writer.old.lacks_spans ≡ length terms.old.spans }
    ensures written { OnOk result (writer.new ≡ with_spans terms.old.spans writer.old) }
    ensures taken { OnOk result (terms.new ≡ record terms.old { spans = [] }) }
{
    while let Some(span) = terms.offset() {
        match writer.offsets(span.start, span.end) {
            Ok(()) => {}
            Err(error) => return Err(error),
        }
    }
    Ok(())
}

// Writes the term that the walk moved to.
fn write_term(writer: &mut VectorWriter, terms: &mut VectorTerms<'_>) -> Result<(), OutOfMemory>
    requires whole { IsTermWhole writer.old }
    requires lacking { 0 < writer.old.lacks_terms }
    requires kept { IsKeptWalk writer.old.bits terms.old }
    ensures written { OnOk result (writer.new ≡ with_whole_term (passed_term terms.old) writer.old) }
    ensures left { OnOk result (terms.new.left ≡ terms.old.left) }
{
    writer.begin_term(terms.text(), terms.freq())?;
    write_positions(writer, terms)?;
    write_spans(writer, terms)
}

// Writes the terms that are left, in the vector that is begun.
fn write_terms(writer: &mut VectorWriter, terms: VectorTerms<'_>) -> Result<(), OutOfMemory>
    requires whole { IsTermWhole writer.old }
    requires lacking { writer.old.lacks_terms ≡ length terms.left }
    requires kept { All (IsVectorTerm writer.old.bits) terms.left }
    ensures { OnOk result (writer.new ≡ with_whole_terms terms.entry.left writer.old) }
{
    let mut terms = terms;
    while terms.next() {
        match write_term(writer, &mut terms) {
            Ok(()) => {}
            Err(error) => return Err(error),
        }
    }
    Ok(())
}

// Writes a vector, of the field with this number.
fn write_vector(
    alloc: Global,
    writer: &mut VectorWriter,
    number: u32,
    vector: &DocVector<'_>,
) -> Result<(), OutOfMemory>
    requires whole { IsVectorWhole writer.old }
    requires lacking { 0 < writer.old.lacks_vectors }
    requires few { length vector.now.terms < 2 ^ 31 }
    requires kept { All (IsVectorTerm vector.now.bits) vector.now.terms }
    ensures { OnOk result (writer.new ≡ with_whole_vector (record { field = number; bits = vector.now.bits; terms = vector.now.terms }) writer.old) }
{
    let count = term_count(vector.terms(alloc)?);
    let terms = vector.terms(alloc)?;
    writer.begin_field(number, vector.field().bits, count)?;
    write_terms(writer, terms)
}

// Writes the vectors of a document that are kept.
fn write_document(
    alloc: Global,
    writer: &mut VectorWriter,
    fields: &NewFields<'_>,
    vectors: &VectorDoc<'_>,
) -> Result<(), OutOfMemory>
    requires whole { IsDocumentWhole writer.old }
    requires joined { AreJoined fields.now.table.now fields.now.numbers.now }
    requires of { All (IsOfFields (length fields.now.numbers.now)) vectors.now }
    requires few { length vectors.now < 2 ^ 31 }
    ensures whole { OnOk result (IsDocumentWhole writer.new) }
    ensures written { OnOk result (writer.new ≡ with_whole_document (kept_vectors fields.now.table.now fields.now.numbers.now vectors.now) writer.old) }
{
    writer.begin_doc(kept_count(fields, vectors.vectors()))?;
    let mut left = vectors.vectors();
    while let Some(vector) = left.next() {
        let number = vector.field().number;
        if is_kept(fields, number) {
            match write_vector(alloc, writer, fields.numbers[number as usize], &vector) {
                Ok(()) => {}
                Err(error) => return Err(error),
            }
        }
    }
    Ok(())
}

// Writes the vectors of a document that are kept, if it has vectors.
fn write_vectors_of(
    alloc: Global,
    writer: &mut VectorWriter,
    fields: &NewFields<'_>,
    reader: &SegReader<'_>,
    doc: u32,
) -> Result<(), OutOfMemory>
    requires whole { IsDocumentWhole writer.old }
    requires joined { AreJoined fields.now.table.now fields.now.numbers.now }
    requires many { length fields.now.numbers.now ≡ length reader.now.index.fields }
    requires valid { IsValid reader.now.index }
    requires doc { doc < reader.now.index.size }
    ensures whole { OnOk result (IsDocumentWhole writer.new) }
    ensures written { OnOk result (writer.new ≡ with_whole_document (kept_vectors fields.now.table.now fields.now.numbers.now (slice_index_or reader.now.index.vectors doc [])) writer.old) }
{
    match reader.vectors(doc) {
        Some(vectors) => write_document(alloc, writer, fields, &vectors),
        None => writer.begin_doc(0),
    }
}

// Writes the vectors of the live documents of a segment.
fn write_source(
    alloc: Global,
    writer: &mut VectorWriter,
    fields: &NewFields<'_>,
    reader: &SegReader<'_>,
) -> Result<(), OutOfMemory>
    requires whole { IsDocumentWhole writer.old }
    requires joined { AreJoined fields.now.table.now fields.now.numbers.now }
    requires many { length fields.now.numbers.now ≡ length reader.now.index.fields }
    ensures whole { OnOk result (IsDocumentWhole writer.new) }
    ensures written { OnOk result (writer.new ≡ with_vectors_of (live_vectors fields.now.table.now fields.now.numbers.now reader.now.index) writer.old) }
{
    for doc in 0..reader.size() {
        if reader.is_live(doc) {
            match write_vectors_of(alloc, writer, fields, reader, doc) {
                Ok(()) => {}
                Err(error) => return Err(error),
            }
        }
    }
    Ok(())
}

// A writer of the vectors of the live documents of all segments.
fn written_vectors(
    alloc: Global,
    table: &[FieldInfo],
    readers: &[SegReader<'_>],
    numbers: &[Vec<u32>],
) -> Result<VectorWriter, OutOfMemory>
    requires table { table.now ≡ joined_table (indexes_of readers.now) }
    requires numbers { AreFieldNumbers table.now readers.now numbers.now }
    requires valid { All IsValid (indexes_of readers.now) }
    ensures { IfOk result (λ writer. HoldsDocuments (merge_of (indexes_of readers.now)).vectors writer) }
{
    let mut writer = VectorWriter::new(alloc)?;
    for (place, reader) in readers.iter().enumerate() {
        let fields = NewFields {
            table,
            numbers: numbers[place].as_slice(),
        };
        match write_source(alloc, &mut writer, &fields, reader) {
            Ok(()) => {}
            Err(error) => return Err(error),
        }
    }
    Ok(writer)
}

/// The files of the vectors of the live documents of all segments, without those whose fields have no vectors in the joined table,
/// their fields by their new numbers; none where no field has vectors; or which of them is the first that passes the limit: the
/// vectors, the fields that have them, and their places.
pub(crate) fn write_vectors(
    alloc: Global,
    limit: u32,
    fields: &[FieldInfo],
    readers: &[SegReader<'_>],
    numbers: &[Vec<u32>],
) -> Result<Option<VectorFiles>, WriteFault>
    requires fields { fields.now ≡ joined_table (indexes_of readers.now) }
    requires numbers { AreFieldNumbers fields.now readers.now numbers.now }
    requires valid { All IsValid (indexes_of readers.now) }
    ensures { Wrote given_vectors limit (vector_files_due (some_have_vectors fields.now) (merge_of (indexes_of readers.now)).vectors) result }
{
    if !have_vectors(fields) {
        return Ok(None);
    }
    let files = written_vectors(alloc, fields, readers, numbers)?.finish();
    let limit = limit as usize;
    if files.tvf.as_slice().len() > limit {
        return Err(WriteFault::TooLarge(FileKind::Tvf));
    }
    if files.tvd.as_slice().len() > limit {
        return Err(WriteFault::TooLarge(FileKind::Tvd));
    }
    if files.tvx.as_slice().len() > limit {
        return Err(WriteFault::TooLarge(FileKind::Tvx));
    }
    Ok(Some(files))
}
