//! The fields of documents, column by column.
ghost use Rattle.std.specs.Prelude.{◌≡◌, ◌<◌, ◌^◌, [], length, All, IfOk, OnOk};
ghost use Rattle.lu_types.specs.DocFaults.{AreApart};
ghost use Rattle.lu_model.specs.Contents.{name_of};
ghost use Rattle.seg_writer.specs.Appearing.{AreFieldColumns, AreEmpty, AreFirst, HasApartFields, HaveMore, IsPushed, appeared_in, found_in, names_of_indexed};

use crate::appearance::Appearance;
use lu_prims::OutOfMemory;
use lu_types::{Document, IndexedField, JoinedTable};
use std::alloc::Global;

/// For each field of a table, by number, where it appears in documents, in their order.
pub(crate) fn columns_of<'a>(
    alloc: Global,
    table: &JoinedTable<'_>,
    docs: &'a [Document],
) -> Result<Vec<Vec<Appearance<'a>>>, OutOfMemory>
    requires few { length docs.now < 2 ^ 31 }
    requires first { AreFirst table.now }
    requires apart { All HasApartFields docs.now }
    ensures { IfOk result (λ columns. AreFieldColumns table.now docs.entry.now columns.items) }
{
    let mut columns = empty_columns(alloc, table.count())?;
    for (number, doc) in docs.iter().enumerate() {
        match add_fields(&mut columns, table, number as u32, doc.indexed.as_slice()) {
            Ok(()) => {}
            Err(error) => return Err(error),
        }
    }
    Ok(columns)
}

// So many columns in which no field appears.
fn empty_columns<'a>(alloc: Global, count: usize) -> Result<Vec<Vec<Appearance<'a>>>, OutOfMemory>
    ensures { IfOk result (λ columns. AreEmpty count columns.items) }
{
    let mut columns = Vec::new(alloc);
    for _ in 0..count {
        columns.push(Vec::new(alloc))?;
    }
    Ok(columns)
}

// Adds the fields of a document to their columns.
fn add_fields<'a>(
    columns: &mut Vec<Vec<Appearance<'a>>>,
    table: &JoinedTable<'_>,
    doc: u32,
    fields: &'a [IndexedField],
) -> Result<(), OutOfMemory>
    requires count { length columns.old.items ≡ length table.now }
    requires first { AreFirst table.now }
    requires apart { AreApart (names_of_indexed fields.now) }
    ensures { OnOk result (HaveMore (λ n. found_in (name_of table.now n) doc fields.entry.now) columns.old.items columns.new.items) }
{
    for field in fields {
        match table.find(field.field.as_str()) {
            Some(number) => match add_to(columns, number, doc, field) {
                Ok(()) => {}
                Err(error) => return Err(error),
            },
            None => {}
        }
    }
    Ok(())
}

// Adds a field to the column with a number.
fn add_to<'a>(
    columns: &mut Vec<Vec<Appearance<'a>>>,
    number: usize,
    doc: u32,
    field: &'a IndexedField,
) -> Result<(), OutOfMemory>
    requires { number < length columns.old.items }
    ensures { OnOk result (IsPushed number (appeared_in doc field.entry.now) columns.old.items columns.new.items) }
{
    let tokens = field.tokens.as_slice();
    let column = &mut columns[number];
    column.push(Appearance { doc, field, tokens })?;
    Ok(())
}
