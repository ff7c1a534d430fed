//! The field table of documents.
ghost use Rattle.std.specs.Prelude.{◌≡◌, IfOk};
ghost use Rattle.lu_types.specs.Joins.{table_of};

use lu_prims::OutOfMemory;
use lu_types::{Document, JoinedTable, join_document};
use std::alloc::Global;

/// The table of documents: their fields, joined in order.
pub(crate) fn table_of<'a>(
    alloc: Global,
    docs: &'a [Document],
) -> Result<JoinedTable<'a>, OutOfMemory>
    ensures { IfOk result (λ table. table ≡ table_of docs.entry.now) }
{
    let mut table = JoinedTable::new(alloc);
    for doc in docs {
        match join_document(&mut table, doc) {
            Ok(()) => {}
            Err(error) => return Err(error),
        }
    }
    Ok(table)
}
