//! The terms of all fields are written, field by field in the order of their names.
ghost use Rattle.std.specs.Prelude.{◌≡◌, ◌<◌, ◌^◌, List, length, map, flat_map, All, IfOk, IsUtf8, IsPermutation, IsSortedByKey};
ghost use Rattle.lu_prims.specs.Order.{text_cmp};
ghost use Rattle.lu_types.specs.Fields.{table_field};
ghost use Rattle.lu_types.specs.declared.document.Document.{Document};
ghost use Rattle.lu_model.specs.Contents.{under};
ghost use Rattle.segment_files.specs.Parts.{intervals_of};
ghost use Rattle.segment_files.specs.Postings.{kept_terms};
ghost use Rattle.posting_files.specs.States.{canonical_postings, given_files};
ghost use Rattle.seg_writer.specs.Answers.{Wrote};
ghost use Rattle.seg_writer.specs.Appearing.{AreFirst};
ghost use Rattle.seg_writer.specs.Entries.{IsColumn};
ghost use Rattle.seg_writer.specs.Orders.{AreColumnsOf, AreKeptColumns, named_column};
ghost use Rattle.seg_writer.specs.Terms.{kept_at, kept_column_terms};

use crate::appearance::Appearance;
use crate::fault::{WriteFault, fault_of};
use crate::terms::{Kept, KeptColumn, write_columns};
use lu_prims::{OutOfMemory, utf16_cmp};
use lu_types::bits::{OMIT_TF, PAYLOADS, has_bit};
use lu_types::{Field, JoinedTable};
use posting_files::{PostingFiles, PostingWriter};
use segment_files::WriteOptions;
use std::alloc::Global;

// The column of the field with a number.
fn kept_column<'c, 'd>(
    number: usize,
    field: Field<'d>,
    column: &'c [Appearance<'d>],
) -> KeptColumn<'c, 'd>
    requires { number < 2 ^ 31 }
    ensures column { named_column result ≡ record { name = (table_field field.entry).name; column = column.entry.now } }
    ensures kept { result.kept ≡ kept_at number (table_field field.entry).bits }
    ensures utf8 { IsUtf8 result.name.now }
{
    let kept = Kept {
        field: number as u32,
        omit_tf: has_bit(OMIT_TF, field.bits),
        payloads: has_bit(PAYLOADS, field.bits),
    };
    KeptColumn {
        name: field.name,
        kept,
        column,
    }
}

// The columns of the fields of a table, by number.
fn kept_columns<'c, 'd>(
    alloc: Global,
    table: &JoinedTable<'d>,
    columns: &'c [Vec<Appearance<'d>>],
) -> Result<Vec<KeptColumn<'c, 'd>>, OutOfMemory>
    requires few { length table.now < 2 ^ 31 }
    requires first { AreFirst table.now }
    requires count { length columns.now ≡ length table.now }
    requires sound { All (λ column. IsColumn column.items) columns.now }
    ensures names { IfOk result (λ kept. map (λ c. c.name.now) kept.items ≡ map (λ field. field.name) table.now) }
    ensures columns { IfOk result (λ kept. AreKeptColumns table.now columns.entry.now kept.items) }
{
    let mut kept = Vec::new(alloc);
    for number in 0..table.count() {
        match table.field(number) {
            Some(field) => {
                kept.push(kept_column(number, field, columns[number].as_slice()))?;
            }
            None => unreachable!(),
        }
    }
    Ok(kept)
}

// Sorts columns by the names of their fields, in UTF-16 order.
fn sort_columns(kept: &mut Vec<KeptColumn<'_, '_>>)
    ensures permutation { IsPermutation kept.old.items kept.new.items }
    ensures sorted { IsSortedByKey (λ (c : KeptColumn). c.name.now) text_cmp kept.new.items }
{
    kept.sort_unstable_by(|a, b| utf16_cmp(a.name, b.name));
}

// The columns of the fields of a table, in the order of their names.
fn columns_in_order<'c, 'd>(
    alloc: Global,
    table: &JoinedTable<'d>,
    columns: &'c [Vec<Appearance<'d>>],
) -> Result<Vec<KeptColumn<'c, 'd>>, OutOfMemory>
    requires few { length table.now < 2 ^ 31 }
    requires first { AreFirst table.now }
    requires count { length columns.now ≡ length table.now }
    requires sound { All (λ column. IsColumn column.items) columns.now }
    ensures sound { IfOk result (λ kept. All (λ c. IsColumn c.column.now × (c.kept.field < 2 ^ 31)) kept.items) }
    ensures terms { IfOk result (λ kept. (docs : List Document) → AreColumnsOf table.now docs columns.entry.now → flat_map kept_column_terms kept.items ≡ kept_terms table.now (under table.now docs).terms) }
{
    let mut kept = kept_columns(alloc, table, columns)?;
    sort_columns(&mut kept);
    Ok(kept)
}

/// The files of the terms of all columns, which are those of the fields of the table by number; or which of them is the first that
/// passes the limit.
pub(crate) fn write_terms<'d>(
    alloc: Global,
    options: &WriteOptions,
    table: &JoinedTable<'d>,
    columns: &[Vec<Appearance<'d>>],
) -> Result<PostingFiles, WriteFault>
    requires few { length table.now < 2 ^ 31 }
    requires first { AreFirst table.now }
    requires count { length columns.now ≡ length table.now }
    requires sound { All (λ column. IsColumn column.items) columns.now }
    ensures { (docs : List Document) → AreColumnsOf table.now docs columns.now
        → Wrote given_files options.now.limits.file_bytes (canonical_postings (intervals_of options.now) (kept_terms table.now (under table.now docs).terms)) result }
{
    let mut writer = PostingWriter::new(
        alloc,
        options.limits.file_bytes,
        options.index_interval,
        options.skip_interval,
        options.max_levels,
    )?;
    let kept = columns_in_order(alloc, table, columns)?;
    match write_columns(alloc, &mut writer, kept.as_slice()) {
        Ok(()) => {}
        Err(fault) => return Err(fault),
    }
    match writer.finish() {
        Ok(files) => Ok(files),
        Err(fault) => Err(fault_of(fault)),
    }
}
