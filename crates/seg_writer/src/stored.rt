//! Stored values are written.
ghost use Rattle.std.specs.Prelude.{◌≡◌, ◌≤◌, ◌<◌, ◌^◌, length, All, IsSome, None, Some, OnOk};
ghost use Rattle.lu_types.specs.Documents.{stored_bytes};
ghost use Rattle.lu_types.specs.Tables.{number_of};
ghost use Rattle.lu_model.specs.Contents.{field_number, stored_in};
ghost use Rattle.stored_fields.specs.Writing.{with_stored};
ghost use Rattle.seg_writer.specs.Answers.{Wrote};
ghost use Rattle.seg_writer.specs.Stores.{AreInTable, WritesValues, given_store, store_files_due, stores_of};

use crate::fault::WriteFault;
use lu_prims::OutOfMemory;
use lu_types::{Document, FileKind, JoinedTable, Stored, StoredValue};
use std::alloc::Global;
use stored_fields::{StoredFiles, StoredWriter};

/// Below this a number or a length has a spelling.
const NUMBERS: usize = 0x8000_0000;

/// The number of the field with a name, which is in the table.
pub fn number_in(table: &JoinedTable<'_>, name: &str) -> u32
    requires there { IsSome (number_of name.now table.now) }
    requires few { length table.now < 2 ^ 31 }
    ensures number { result ≡ field_number name.now table.now }
    ensures found { number_of name.now table.now ≡ Some result }
    ensures small { result < 2 ^ 31 }
{
    match table.find(name) {
        Some(number) => number as u32,
        None => unreachable!(),
    }
}

// Writes a value of the document that is open.
fn write_value(
    writer: &mut StoredWriter,
    field: u32,
    value: &StoredValue,
) -> Result<(), OutOfMemory>
    requires lacking { IsSome writer.old.opened }
    requires field { field < 2 ^ 31 }
    requires short { length (stored_bytes value.now.value) < 2 ^ 31 }
    ensures { OnOk result (writer.new ≡ with_stored (record { field = field; tokenized = value.now.tokenized; value = value.now.value }) writer.old) }
{
    match &value.value {
        Stored::Text(text) => writer.put_text(field, value.tokenized, text.as_str()),
        Stored::Binary(bytes) => writer.put_binary(field, value.tokenized, bytes.as_slice()),
    }
}

// Writes the values of a document.
fn write_values(
    writer: &mut StoredWriter,
    table: &JoinedTable<'_>,
    values: &[StoredValue],
) -> Result<(), WriteFault>
    requires closed { writer.old.opened ≡ None }
    requires few { length table.now < 2 ^ 31 }
    requires there { AreInTable table.now values.now }
    ensures { WritesValues writer.old.finished (stored_in table.now values.now) writer.new result }
{
    if values.len() >= NUMBERS {
        return Err(WriteFault::TooLarge(FileKind::Fdt));
    }
    match writer.begin(values.len() as u32) {
        Ok(()) => {}
        Err(error) => return Err(WriteFault::from(error)),
    }
    for value in values {
        if value.value.as_bytes().len() >= NUMBERS {
            return Err(WriteFault::TooLarge(FileKind::Fdt));
        }
        let field = number_in(table, value.field.as_str());
        match write_value(writer, field, value) {
            Ok(()) => {}
            Err(error) => return Err(WriteFault::from(error)),
        }
    }
    Ok(())
}

/// The files of the stored values of documents, their fields by the numbers of a table; or which of both is the first that passes
/// the limit, the documents before their places.
pub(crate) fn write_stored(
    alloc: Global,
    limit: u32,
    table: &JoinedTable<'_>,
    docs: &[Document],
) -> Result<StoredFiles, WriteFault>
    requires limit { limit < 2 ^ 31 }
    requires few { length table.now < 2 ^ 31 }
    requires there { All (λ doc. AreInTable table.now doc.stored) docs.now }
    ensures { Wrote given_store limit (store_files_due (stores_of table.now docs.now)) result }
{
    let mut writer = StoredWriter::new(alloc)?;
    for doc in docs {
        match write_values(&mut writer, table, doc.stored.as_slice()) {
            Ok(()) => {}
            Err(fault) => return Err(fault),
        }
    }
    let files = writer.finish();
    if files.fdt.as_slice().len() > limit as usize {
        return Err(WriteFault::TooLarge(FileKind::Fdt));
    }
    if files.fdx.as_slice().len() > limit as usize {
        return Err(WriteFault::TooLarge(FileKind::Fdx));
    }
    Ok(files)
}
