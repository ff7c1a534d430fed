//! Norms are written, field by field.
ghost use Rattle.std.specs.Prelude.{◌≡◌, ◌<◌, ◌^◌, ◌++◌, length, flat_map, filter, IfSome, OnOk, option_copied};
ghost use Rattle.lu_model.specs.Contents.{has_norms, joined_table, merge_of};
ghost use Rattle.seg_writer.specs.Answers.{Wrote};
ghost use Rattle.seg_writer.specs.NormColumns.{given_norms};
ghost use Rattle.seg_merger.specs.Merged.{indexes_of};
ghost use Rattle.seg_merger.specs.Renumbered.{live_norms, merged_norm_file, merged_norms, named_norms, norm_of};

use doc_marks::NormWriter;
use lu_prims::OutOfMemory;
use lu_types::{Bytes, FieldInfo, FileKind};
use seg_reader::SegReader;
use seg_writer::WriteFault;
use seg_writer::parts::{has_norms, norm_count};
use std::alloc::Global;

/// A norm that a document lacks.
const MISSING_NORM: u8 = 124;

/// The bytes before the first column.
const HEADER_BYTES: u64 = 4;

// The norms of the field with a name in a segment, if it has norms there.
fn column_of<'a>(reader: &SegReader<'a>, name: &str) -> Option<&'a [u8]>
    ensures norms { option_copied result ≡ named_norms name.now reader.now.index }
    ensures all { IfSome result (λ norms. length norms.now ≡ reader.now.index.size) }
{
    let _size = reader.size();
    match reader.fields().find(name) {
        Some(number) => reader.norm_column(number),
        None => None,
    }
}

// The norm of a document, if the field has norms in its segment.
fn norm_in(norms: Option<&[u8]>, doc: u32) -> u8
    requires { IfSome norms (λ norms. doc < length norms.now) }
    ensures { result ≡ norm_of (option_copied norms.entry) doc }
{
    match norms {
        Some(norms) => norms[doc as usize],
        None => MISSING_NORM,
    }
}

// Adds the norms of the live documents of a segment.
fn add_source(
    writer: &mut NormWriter,
    reader: &SegReader<'_>,
    norms: Option<&[u8]>,
) -> Result<(), OutOfMemory>
    requires { IfSome norms (λ norms. length norms.now ≡ reader.now.index.size) }
    ensures { OnOk result (writer.new ≡ writer.old ++ live_norms (option_copied norms.entry) reader.now.index) }
{
    for doc in 0..reader.size() {
        if reader.is_live(doc) {
            match writer.add(norm_in(norms, doc)) {
                Ok(()) => {}
                Err(error) => return Err(error),
            }
        }
    }
    Ok(())
}

// Adds the norms of the field with a name.
fn add_field(
    writer: &mut NormWriter,
    name: &str,
    readers: &[SegReader<'_>],
) -> Result<(), OutOfMemory>
    ensures { OnOk result (writer.new ≡ writer.old ++ merged_norms (indexes_of readers.now) name.now) }
{
    for reader in readers {
        match add_source(writer, reader, column_of(reader, name)) {
            Ok(()) => {}
            Err(error) => return Err(error),
        }
    }
    Ok(())
}

// Adds the norms of all fields that have norms.
fn add_fields(
    writer: &mut NormWriter,
    fields: &[FieldInfo],
    readers: &[SegReader<'_>],
) -> Result<(), OutOfMemory>
    ensures { OnOk result (writer.new ≡ writer.old ++ flat_map (λ field. merged_norms (indexes_of readers.now) field.name) (filter (λ field. has_norms field.bits) fields.now)) }
{
    for field in fields {
        if has_norms(field.bits) {
            match add_field(writer, field.name.as_str(), readers) {
                Ok(()) => {}
                Err(error) => return Err(error),
            }
        }
    }
    Ok(())
}

/// The norms of the joined fields that have them, for each live document, of which there are so many; none where no field has any;
/// or that they pass the limit.
pub(crate) fn write_norms(
    alloc: Global,
    limit: u32,
    fields: &[FieldInfo],
    readers: &[SegReader<'_>],
    documents: u32,
) -> Result<Option<Bytes>, WriteFault>
    requires few_fields { length fields.now < 2 ^ 31 }
    requires few { documents < 2 ^ 31 }
    requires documents { documents ≡ (merge_of (indexes_of readers.now)).size }
    requires fields { fields.now ≡ joined_table (indexes_of readers.now) }
    ensures { Wrote given_norms limit (merged_norm_file fields.now (merge_of (indexes_of readers.now)).norms) result }
{
    let count = norm_count(fields);
    if count == 0 {
        return Ok(None);
    }
    if HEADER_BYTES + count * u64::from(documents) > u64::from(limit) {
        return Err(WriteFault::TooLarge(FileKind::Nrm));
    }
    let mut writer = match NormWriter::new(alloc) {
        Ok(writer) => writer,
        Err(error) => return Err(WriteFault::from(error)),
    };
    match add_fields(&mut writer, fields, readers) {
        Ok(()) => Ok(Some(Bytes::new(writer.finish()))),
        Err(error) => Err(WriteFault::from(error)),
    }
}
