//! Vectors are written, document by document.
ghost use Rattle.std.specs.Prelude.{◌≡◌, ◌<◌, ◌^◌, length, filter, All, OnOk};
ghost use Rattle.check_index.specs.Vectors.{have_vectors as some_have_vectors};
ghost use Rattle.lu_types.specs.Joins.{table_of};
ghost use Rattle.lu_model.specs.Contents.{vector_of};
ghost use Rattle.term_vectors.specs.Format.{bit_positions, bit_offsets};
ghost use Rattle.term_vectors.specs.Vectors.{kept_count};
ghost use Rattle.term_vectors.specs.VectorWriting.{IsTermWhole, IsVectorWhole, IsDocumentWhole};
ghost use Rattle.seg_writer.specs.Answers.{Wrote};
ghost use Rattle.seg_writer.specs.Appearing.{HasApartFields};
ghost use Rattle.seg_writer.specs.Entries.{AreWritableDocuments, IsWritableField, tokens_at};
ghost use Rattle.seg_writer.specs.VectorSteps.{AreWritableFields, IsWritableText, has_field_vector, kept_positions, kept_spans, kind_bits, numbered_vector, term_of_uses, vectors_of_fields, with_positions, with_spans, with_whole_document, with_whole_term, with_whole_vector};
ghost use Rattle.seg_writer.specs.VectorsDue.{given_vectors, vector_files_due, vectors_of_documents};

use crate::appearance::Appearance;
use crate::fault::WriteFault;
use crate::inverted::{Inverted, invert};
use crate::sorted_uses::sorted_uses;
use crate::stored::number_in;
use lu_prims::OutOfMemory;
use lu_types::bits::{VECTORS, has_bit};
use lu_types::{Document, FieldInfo, FileKind, IndexedField, JoinedTable, Token, Vector};
use std::alloc::Global;
use term_vectors::{VectorFiles, VectorWriter};

/// The bit of a vector that keeps positions.
const POSITIONS: u8 = 1;

/// The bit of a vector that keeps offsets.
const OFFSETS: u8 = 2;

/// Whether some field has vectors.
pub fn have_vectors(fields: &[FieldInfo]) -> bool
    ensures { result ≡ some_have_vectors fields.now }
{
    fields.iter().any(|field| has_bit(VECTORS, field.bits))
}

// The bits of a vector of this kind.
fn vector_bits(kind: Vector) -> u8
    ensures { result ≡ kind_bits kind }
{
    match kind {
        Vector::Off => 0,
        Vector::Plain => 0,
        Vector::Positions => POSITIONS,
        Vector::Offsets => OFFSETS,
        Vector::Both => POSITIONS | OFFSETS,
    }
}

// Whether a document has a vector for a field: one is asked for, and the field has a token.
fn has_vector(field: &IndexedField) -> bool
    ensures { result ≡ has_field_vector field.now }
{
    field.vector != Vector::Off && !field.tokens.as_slice().is_empty()
}

// How many vectors the fields of a document have.
fn vector_count(fields: &[IndexedField]) -> u32
    requires { length fields.now < 2 ^ 31 }
    ensures { result ≡ length (filter has_field_vector fields.now) }
{
    let mut count = 0;
    for field in fields {
        if has_vector(field) {
            count += 1;
        }
    }
    count
}

// Writes the positions of a term of a vector with these bits, where it keeps them.
fn write_positions(
    writer: &mut VectorWriter,
    bits: u8,
    tokens: &[Token],
    term: &Inverted<'_, '_>,
) -> Result<(), OutOfMemory>
    requires text { IsWritableText tokens.now term.now }
    requires lacking { writer.old.lacks_positions ≡ kept_count bit_positions bits (length term.now.uses.now) }
    ensures { OnOk result (writer.new ≡ with_positions (kept_positions bits (tokens_at tokens.now term.now.uses.now)) writer.old) }
{
    if !has_bit(POSITIONS, bits) {
        return Ok(());
    }
    for here in term.uses {
        match writer.position(tokens[here.token as usize].position) {
            Ok(()) => {}
            Err(error) => return Err(error),
        }
    }
    Ok(())
}

// Writes from where to where the occurrences of a term stand, where a vector with these bits keeps it.
fn write_offsets(
    writer: &mut VectorWriter,
    bits: u8,
    tokens: &[Token],
    term: &Inverted<'_, '_>,
) -> Result<(), OutOfMemory>
    requires text { IsWritableText tokens.now term.now }
    requires positions { writer.old.lacks_positions ≡ 0 }
    requires lacking { writer.old.lacks_spans ≡ kept_count bit_offsets bits (length term.now.uses.now) }
    ensures { OnOk result (writer.new ≡ with_spans (kept_spans bits (tokens_at tokens.now term.now.uses.now)) writer.old) }
{
    if !has_bit(OFFSETS, bits) {
        return Ok(());
    }
    for here in term.uses {
        let token = &tokens[here.token as usize];
        match writer.offsets(token.start, token.end) {
            Ok(()) => {}
            Err(error) => return Err(error),
        }
    }
    Ok(())
}

// Writes a term of the vector that is begun, which has these bits.
fn write_term(
    writer: &mut VectorWriter,
    bits: u8,
    tokens: &[Token],
    term: &Inverted<'_, '_>,
) -> Result<(), OutOfMemory>
    requires text { IsWritableText tokens.now term.now }
    requires whole { IsTermWhole writer.old }
    requires lacking { 0 < writer.old.lacks_terms }
    requires bits { writer.old.bits ≡ bits }
    ensures { OnOk result (writer.new ≡ with_whole_term (term_of_uses bits tokens.now term.now) writer.old) }
{
    writer.begin_term(term.text, term.uses.len() as u32)?;
    write_positions(writer, bits, tokens, term)?;
    write_offsets(writer, bits, tokens, term)
}

// Writes the vector of a field, which has this number.
fn write_vector(
    alloc: Global,
    writer: &mut VectorWriter,
    number: u32,
    field: &IndexedField,
) -> Result<(), OutOfMemory>
    requires field { IsWritableField field.now }
    requires whole { IsVectorWhole writer.old }
    requires lacking { 0 < writer.old.lacks_vectors }
    ensures { OnOk result (writer.new ≡ with_whole_vector (numbered_vector number (vector_of field.now)) writer.old) }
{
    let bits = vector_bits(field.vector);
    let tokens = field.tokens.as_slice();
    let column = [Appearance {
        doc: 0,
        field,
        tokens,
    }];
    let uses = sorted_uses(alloc, column.as_slice())?;
    let terms = invert(alloc, column.as_slice(), uses.as_slice())?;
    writer.begin_field(number, bits, terms.len() as u32)?;
    for term in &terms {
        match write_term(writer, bits, tokens, term) {
            Ok(()) => {}
            Err(error) => return Err(error),
        }
    }
    Ok(())
}

// Writes the vectors of a document.
fn write_document(
    alloc: Global,
    writer: &mut VectorWriter,
    table: &JoinedTable<'_>,
    fields: &[IndexedField],
) -> Result<(), OutOfMemory>
    requires few { length table.now < 2 ^ 31 }
    requires fields { AreWritableFields table.now fields.now }
    requires whole { IsDocumentWhole writer.old }
    ensures { OnOk result (writer.new ≡ with_whole_document (vectors_of_fields table.now fields.now) writer.old) }
{
    writer.begin_doc(vector_count(fields))?;
    for field in fields {
        if has_vector(field) {
            let number = number_in(table, field.field.as_str());
            match write_vector(alloc, writer, number, field) {
                Ok(()) => {}
                Err(error) => return Err(error),
            }
        }
    }
    Ok(())
}

/// The files of the vectors of documents; none where no field has vectors; or which of them is the first that passes the limit:
/// the vectors, the fields that have them, and their places.
pub(crate) fn write_vectors(
    alloc: Global,
    limit: u32,
    fields: &[FieldInfo],
    table: &JoinedTable<'_>,
    docs: &[Document],
) -> Result<Option<VectorFiles>, WriteFault>
    requires limit { limit < 2 ^ 31 }
    requires few { length table.now < 2 ^ 31 }
    requires writable { AreWritableDocuments docs.now }
    requires apart { All HasApartFields docs.now }
    requires table { table.now ≡ table_of docs.now }
    ensures { Wrote given_vectors limit (vector_files_due (some_have_vectors fields.now) (vectors_of_documents table.now docs.now)) result }
{
    if !have_vectors(fields) {
        return Ok(None);
    }
    let mut writer = VectorWriter::new(alloc)?;
    for doc in docs {
        match write_document(alloc, &mut writer, table, doc.indexed.as_slice()) {
            Ok(()) => {}
            Err(error) => return Err(WriteFault::from(error)),
        }
    }
    let files = writer.finish();
    let limit = limit as usize;
    if files.tvf.as_slice().len() > limit {
        return Err(WriteFault::TooLarge(FileKind::Tvf));
    }
    if files.tvd.as_slice().len() > limit {
        return Err(WriteFault::TooLarge(FileKind::Tvd));
    }
    if files.tvx.as_slice().len() > limit {
        return Err(WriteFault::TooLarge(FileKind::Tvx));
    }
    Ok(Some(files))
}
