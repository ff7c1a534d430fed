//! The fields of segments joined, and the numbers that they have then.
ghost use Rattle.std.specs.Prelude.{◌≡◌, ◌<◌, ◌^◌, length, map, All, IsSome, IfOk, OnOk};
ghost use Rattle.lu_types.specs.Joins.{join};
ghost use Rattle.lu_types.specs.Tables.{number_of};
ghost use Rattle.lu_model.specs.Contents.{field_number, joined_table};
ghost use Rattle.seg_merger.specs.Merged.{AreFieldNumbers, indexes_of};

use lu_prims::OutOfMemory;
use lu_types::{FieldTable, JoinedTable};
use seg_reader::SegReader;
use seg_writer::parts::number_in;
use std::alloc::Global;

// Joins the fields of a segment.
fn join_fields<'a>(table: &mut JoinedTable<'a>, fields: &FieldTable<'a>) -> Result<(), OutOfMemory>
    ensures { OnOk result (table.new ≡ join table.old fields.now) }
{
    for number in 0..fields.count() {
        let Some(field) = fields.field(number) else {
            unreachable!();
        };
        match table.join(field.name, field.bits) {
            Ok(_) => {}
            Err(error) => return Err(error),
        }
    }
    Ok(())
}

/// The fields of all segments, joined in order.
pub(crate) fn join_tables<'a>(
    alloc: Global,
    readers: &[SegReader<'a>],
) -> Result<JoinedTable<'a>, OutOfMemory>
    ensures { IfOk result (λ table. table ≡ joined_table (indexes_of readers.entry.now)) }
{
    let mut table = JoinedTable::new(alloc);
    for reader in readers {
        match join_fields(&mut table, reader.fields()) {
            Ok(()) => {}
            Err(error) => return Err(error),
        }
    }
    Ok(table)
}

// The numbers of the fields of a segment in a table that has them all.
fn numbers_in(
    alloc: Global,
    table: &JoinedTable<'_>,
    fields: &FieldTable<'_>,
) -> Result<Vec<u32>, OutOfMemory>
    requires few { length table.now < 2 ^ 31 }
    requires there { All (λ field. IsSome (number_of field.name table.now)) fields.now }
    ensures { IfOk result (λ numbers. numbers.items ≡ map (λ field. field_number field.name table.now) fields.now) }
{
    let mut numbers = Vec::with_capacity(alloc, fields.count() as usize)?;
    for number in 0..fields.count() {
        let Some(field) = fields.field(number) else {
            unreachable!();
        };
        match numbers.push(number_in(table, field.name)) {
            Ok(()) => {}
            Err(_) => return Err(OutOfMemory),
        }
    }
    Ok(numbers)
}

/// For each segment the numbers of its fields in the table.
pub(crate) fn field_numbers(
    alloc: Global,
    table: &JoinedTable<'_>,
    readers: &[SegReader<'_>],
) -> Result<Vec<Vec<u32>>, OutOfMemory>
    requires few { length table.now < 2 ^ 31 }
    requires table { table.now ≡ joined_table (indexes_of readers.now) }
    ensures { IfOk result (λ numbers. AreFieldNumbers table.now readers.now numbers.items) }
{
    let mut numbers = Vec::with_capacity(alloc, readers.len())?;
    for reader in readers {
        let own = match numbers_in(alloc, table, reader.fields()) {
            Ok(own) => own,
            Err(error) => return Err(error),
        };
        match numbers.push(own) {
            Ok(()) => {}
            Err(_) => return Err(OutOfMemory),
        }
    }
    Ok(numbers)
}
