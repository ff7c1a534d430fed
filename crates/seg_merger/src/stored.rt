//! Stored values are written, document by document.
ghost use Rattle.std.specs.Prelude.{◌≡◌, ◌<◌, ◌^◌, [], ◌∷◌, length, All, IsSome, None, OnOk, slice_index_or};
ghost use Rattle.lu_types.specs.Documents.{stored_bytes};
ghost use Rattle.lu_model.specs.Contents.{joined_table, merge_of};
ghost use Rattle.lu_model.specs.Valid.{IsValid};
ghost use Rattle.stored_fields.specs.Entries.{lent_field};
ghost use Rattle.stored_fields.specs.Writing.{with_stored};
ghost use Rattle.seg_writer.specs.Answers.{Wrote};
ghost use Rattle.seg_writer.specs.Stores.{given_store, store_files_due};
ghost use Rattle.seg_merger.specs.Merged.{AreFieldNumbers, indexes_of};
ghost use Rattle.seg_merger.specs.Renumbered.{AreNewNumbers, live_stored, renumbered_value, renumbered_values, with_finished};

use lu_prims::OutOfMemory;
use lu_types::FileKind;
use seg_reader::SegReader;
use seg_writer::WriteFault;
use std::alloc::Global;
use stored_fields::{StoredDoc, StoredFiles, StoredRef, StoredWriter, ValueRef};

// How many values are left.
fn value_count(values: StoredDoc<'_>) -> u32
    requires { length values < 2 ^ 31 }
    ensures { result ≡ length values.entry }
{
    let mut values = values;
    let mut count = 0;
    while let Some(_value) = values.next() {
        count += 1;
    }
    count
}

// Writes a value of the document that is open, its field by its new number.
fn write_value(
    writer: &mut StoredWriter,
    numbers: &[u32],
    value: StoredRef<'_>,
) -> Result<(), OutOfMemory>
    requires lacking { IsSome writer.old.opened }
    requires field { value.field < length numbers.now }
    requires small { All (λ number. number < 2 ^ 31) numbers.now }
    requires short { length (stored_bytes (lent_field value).value) < 2 ^ 31 }
    ensures { OnOk result (writer.new ≡ with_stored (renumbered_value numbers.now (lent_field value.entry)) writer.old) }
{
    let field = numbers[value.field as usize];
    match value.value {
        ValueRef::Text(text) => writer.put_text(field, value.tokenized, text),
        ValueRef::Binary(bytes) => writer.put_binary(field, value.tokenized, bytes),
    }
}

// Writes the values of a document.
fn write_document(
    writer: &mut StoredWriter,
    numbers: &[u32],
    reader: &SegReader<'_>,
    doc: u32,
) -> Result<(), OutOfMemory>
    requires closed { writer.old.opened ≡ None }
    requires numbers { AreNewNumbers reader.now.index numbers.now }
    requires valid { IsValid reader.now.index }
    requires doc { doc < reader.now.index.size }
    ensures { OnOk result (writer.new ≡ with_finished (renumbered_values numbers.now (slice_index_or reader.now.index.stored doc []) ∷ []) writer.old) }
{
    writer.begin(value_count(reader.stored(doc)))?;
    let mut values = reader.stored(doc);
    while let Some(value) = values.next() {
        match write_value(writer, numbers, value) {
            Ok(()) => {}
            Err(error) => return Err(error),
        }
    }
    Ok(())
}

// Writes the live documents of a segment.
fn write_source(
    writer: &mut StoredWriter,
    numbers: &[u32],
    reader: &SegReader<'_>,
) -> Result<(), OutOfMemory>
    requires closed { writer.old.opened ≡ None }
    requires numbers { AreNewNumbers reader.now.index numbers.now }
    ensures { OnOk result (writer.new ≡ with_finished (live_stored numbers.now reader.now.index) writer.old) }
{
    for doc in 0..reader.size() {
        if reader.is_live(doc) {
            match write_document(writer, numbers, reader, doc) {
                Ok(()) => {}
                Err(error) => return Err(error),
            }
        }
    }
    Ok(())
}

/// The files of the stored values of the live documents of all segments, their fields by their new numbers; or which of both is the
/// first that passes the limit, the documents before their places.
pub(crate) fn write_stored(
    alloc: Global,
    limit: u32,
    readers: &[SegReader<'_>],
    numbers: &[Vec<u32>],
) -> Result<StoredFiles, WriteFault>
    requires few { length (joined_table (indexes_of readers.now)) < 2 ^ 31 }
    requires numbers { AreFieldNumbers (joined_table (indexes_of readers.now)) readers.now numbers.now }
    requires valid { All IsValid (indexes_of readers.now) }
    ensures { Wrote given_store limit (store_files_due (merge_of (indexes_of readers.now)).stored) result }
{
    let mut writer = StoredWriter::new(alloc)?;
    for (place, reader) in readers.iter().enumerate() {
        match write_source(&mut writer, numbers[place].as_slice(), reader) {
            Ok(()) => {}
            Err(error) => return Err(WriteFault::from(error)),
        }
    }
    let files = writer.finish();
    if files.fdt.as_slice().len() > limit as usize {
        return Err(WriteFault::TooLarge(FileKind::Fdt));
    }
    if files.fdx.as_slice().len() > limit as usize {
        return Err(WriteFault::TooLarge(FileKind::Fdx));
    }
    Ok(files)
}
