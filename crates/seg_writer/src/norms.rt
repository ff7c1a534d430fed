//! Norms are written, column by column.
ghost use Rattle.std.specs.Prelude.{◌≡◌, ◌<◌, ◌^◌, [], ◌∷◌, ◌++◌, ℕ, List, length, OnOk, unwrap_or};
ghost use Rattle.check_index.specs.Norms.{count_with_norms};
ghost use Rattle.lu_model.specs.Contents.{has_norms, missing_norm};
ghost use Rattle.lu_types.specs.declared.document.Document.{Document};
ghost use Rattle.seg_writer.specs.Answers.{Wrote};
ghost use Rattle.seg_writer.specs.NormColumns.{AreColumnsIn, AreSomeColumns, IsColumnIn, IsSomeColumn, given_norms, missing_norms, norm_bytes, norm_file_due, norms_of};

use crate::appearance::Appearance;
use crate::fault::WriteFault;
use doc_marks::NormWriter;
use lu_prims::OutOfMemory;
use lu_types::bits::{INDEXED, OMIT_NORMS, has_bit};
use lu_types::{Bytes, FieldInfo, FileKind};
use std::alloc::Global;

/// A norm that a document lacks.
const MISSING_NORM: u8 = 124;

/// The bytes before the first column.
const HEADER_BYTES: u64 = 4;

/// Whether a field with these bits has norms.
pub fn has_norms(bits: u8) -> bool
    ensures { result ≡ has_norms bits }
{
    has_bit(INDEXED, bits) && !has_bit(OMIT_NORMS, bits)
}

// The norm of a field in a document.
fn norm_in(here: &Appearance<'_>) -> u8
    ensures { result ≡ unwrap_or here.now.field.now.norm missing_norm }
{
    match here.field.norm {
        Some(norm) => norm,
        None => MISSING_NORM,
    }
}

// Adds so many norms that documents lack.
fn add_missing(writer: &mut NormWriter, count: u32) -> Result<(), OutOfMemory>
    ensures { OnOk result (writer.new ≡ writer.old ++ missing_norms count) }
{
    for _ in 0..count {
        writer.add(MISSING_NORM)?;
    }
    Ok(())
}

// Adds the norms of a column, of so many documents.
fn add_column(
    writer: &mut NormWriter,
    column: &[Appearance<'_>],
    documents: u32,
) -> Result<(), OutOfMemory>
    requires few { documents < 2 ^ 31 }
    requires column { IsSomeColumn column.now documents }
    ensures { OnOk result ((name : List ℕ) (docs : List Document) → IsColumnIn column.now documents name docs → writer.new ≡ writer.old ++ norms_of name docs) }
{
    let mut next = 0;
    for here in column {
        match add_missing(writer, here.doc - next) {
            Ok(()) => {}
            Err(error) => return Err(error),
        }
        match writer.add(norm_in(here)) {
            Ok(()) => {}
            Err(error) => return Err(error),
        }
        next = here.doc + 1;
    }
    add_missing(writer, documents - next)
}

/// How many fields have norms.
pub fn norm_count(fields: &[FieldInfo]) -> u64
    requires { length fields.now < 2 ^ 31 }
    ensures count { result ≡ count_with_norms fields.now }
    ensures few { result < 2 ^ 31 }
{
    let mut count = 0;
    for field in fields {
        if has_norms(field.bits) {
            count += 1;
        }
    }
    count
}

// Adds the norms of a field, if it has norms.
fn add_norms(
    writer: &mut NormWriter,
    field: &FieldInfo,
    column: &[Appearance<'_>],
    documents: u32,
) -> Result<(), OutOfMemory>
    requires few { documents < 2 ^ 31 }
    requires column { IsSomeColumn column.now documents }
    ensures { OnOk result ((docs : List Document) → IsColumnIn column.now documents field.now.name docs → writer.new ≡ writer.old ++ norm_bytes docs (field.now ∷ [])) }
{
    if has_norms(field.bits) {
        return add_column(writer, column, documents);
    }
    Ok(())
}

// Adds the norms of all fields.
fn add_all(
    writer: &mut NormWriter,
    fields: &[FieldInfo],
    columns: &[Vec<Appearance<'_>>],
    documents: u32,
) -> Result<(), OutOfMemory>
    requires few { documents < 2 ^ 31 }
    requires columns { AreSomeColumns fields.now columns.now documents }
    ensures { OnOk result ((docs : List Document) → AreColumnsIn fields.now columns.now documents docs → writer.new ≡ writer.old ++ norm_bytes docs fields.now) }
{
    for (number, field) in fields.iter().enumerate() {
        match add_norms(writer, field, columns[number].as_slice(), documents) {
            Ok(()) => {}
            Err(error) => return Err(error),
        }
    }
    Ok(())
}

/// The norms of the fields that have them, for each of so many documents; none where no field has any; or that they pass the limit.
pub(crate) fn write_norms(
    alloc: Global,
    limit: u32,
    fields: &[FieldInfo],
    columns: &[Vec<Appearance<'_>>],
    documents: u32,
) -> Result<Option<Bytes>, WriteFault>
    requires few_fields { length fields.now < 2 ^ 31 }
    requires few { documents < 2 ^ 31 }
    requires columns { AreSomeColumns fields.now columns.now documents }
    ensures { (docs : List Document) → AreColumnsIn fields.now columns.now documents docs → Wrote given_norms limit (norm_file_due docs fields.now) result }
{
    let count = norm_count(fields);
    if count == 0 {
        return Ok(None);
    }
    if HEADER_BYTES + count * u64::from(documents) > u64::from(limit) {
        return Err(WriteFault::TooLarge(FileKind::Nrm));
    }
    let mut writer = match NormWriter::new(alloc) {
        Ok(writer) => writer,
        Err(error) => return Err(WriteFault::from(error)),
    };
    match add_all(&mut writer, fields, columns, documents) {
        Ok(()) => Ok(Some(Bytes::new(writer.finish()))),
        Err(error) => Err(WriteFault::from(error)),
    }
}
