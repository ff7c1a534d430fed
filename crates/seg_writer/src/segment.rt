//! A segment is written from documents.
ghost use Rattle.std.specs.Prelude.{◌≡◌, ◌<◌, ◌^◌, length};
ghost use Rattle.lu_types.specs.Joins.{table_of};
ghost use Rattle.lu_model.specs.Contents.{index_of_documents};
ghost use Rattle.segment_files.specs.Parts.{intervals_of};
ghost use Rattle.seg_writer.specs.Answers.{AnswersSegment, Wrote, written_segment};
ghost use Rattle.seg_writer.specs.PartsGathered.{part_files};
ghost use Rattle.seg_writer.specs.SegmentSteps.{AreFaultless, PacksParts, WritesParts, column_files_due, given_column_files};

use crate::all_terms::write_terms;
use crate::columns::columns_of;
use crate::documents::check_documents;
use crate::fault::WriteFault;
use crate::fields::{keep_positions, write_fields};
use crate::norms::write_norms;
use crate::packing::{WrittenParts, named_files, packed};
use crate::stored::write_stored;
use crate::table::table_of;
use crate::vectors::write_vectors;
use lu_types::{Bytes, Document, FieldInfo, Items, JoinedTable, NamedFile};
use posting_files::PostingFiles;
use segment_files::{SegmentFiles, WriteOptions};
use std::alloc::Global;

/// The files that are written of the columns of fields: those of terms, and that of norms where some field has norms.
#[derive(Drop)]
struct ColumnFiles {
    postings: PostingFiles,
    nrm: Option<Bytes>,
}

// The files of the columns of documents, or the kind of the first that passes the limit.
fn column_files<'d>(
    alloc: Global,
    options: &WriteOptions,
    fields: &[FieldInfo],
    table: &JoinedTable<'d>,
    docs: &'d [Document],
) -> Result<ColumnFiles, WriteFault>
    requires few { length docs.now < 2 ^ 31 }
    requires few_fields { length table.now < 2 ^ 31 }
    requires fields { fields.now ≡ table.now }
    requires table { table.now ≡ table_of docs.now }
    requires faultless { AreFaultless options.now.limits docs.now }
    ensures { Wrote given_column_files options.now.limits.file_bytes (column_files_due (intervals_of options.now) docs.now) result }
{
    let columns = columns_of(alloc, table, docs)?;
    let postings = match write_terms(alloc, options, table, columns.as_slice()) {
        Ok(postings) => postings,
        Err(fault) => return Err(fault),
    };
    let limit = options.limits.file_bytes;
    match write_norms(alloc, limit, fields, columns.as_slice(), docs.len() as u32) {
        Ok(nrm) => Ok(ColumnFiles { postings, nrm }),
        Err(fault) => Err(fault),
    }
}

// The parts of the index of documents, or the kind of the first that passes the limit.
fn parts_of<'d>(
    alloc: Global,
    options: &WriteOptions,
    table: &JoinedTable<'d>,
    docs: &'d [Document],
) -> Result<WrittenParts, WriteFault>
    requires few { length docs.now < 2 ^ 31 }
    requires table { table.now ≡ table_of docs.now }
    requires faultless { AreFaultless options.now.limits docs.now }
    ensures { WritesParts options.now (index_of_documents docs.now) result }
{
    let limit = options.limits.file_bytes;
    let infos = table.to_infos(alloc)?;
    let fields = infos.as_slice();
    let fnm = match write_fields(alloc, limit, fields) {
        Ok(fnm) => fnm,
        Err(fault) => return Err(fault),
    };
    let stored = match write_stored(alloc, limit, table, docs) {
        Ok(stored) => stored,
        Err(fault) => return Err(fault),
    };
    let ColumnFiles { postings, nrm } = match column_files(alloc, options, fields, table, docs) {
        Ok(files) => files,
        Err(fault) => return Err(fault),
    };
    let vectors = match write_vectors(alloc, limit, fields, table, docs) {
        Ok(vectors) => vectors,
        Err(fault) => return Err(fault),
    };
    Ok(WrittenParts {
        fnm,
        stored,
        postings,
        has_prox: keep_positions(fields),
        nrm,
        vectors,
    })
}

/// The files of parts, packed where that is asked for, or that the packed file passes the limit.
pub fn files_of(
    alloc: Global,
    options: &WriteOptions,
    parts: WrittenParts,
) -> Result<Vec<NamedFile>, WriteFault>
    ensures { PacksParts options.now (part_files parts) result }
{
    let files = named_files(alloc, parts)?;
    packed(alloc, options, files)
}

/// The canonical files of the index of documents (format page, "Canonical files").
///
/// The error is `Doc` exactly where a document breaks a rule, with the first that does and its first fault; `TooLarge` exactly where
/// none does, with the kind of the first file that passes the limit, in the order in which files are written; or want of memory.
pub fn write_segment(
    alloc: Global,
    docs: &[Document],
    options: &WriteOptions,
) -> Result<SegmentFiles, WriteFault>
    requires { length docs.now < 2 ^ 31 }
    ensures { AnswersSegment (written_segment docs.now options.now) result }
{
    match check_documents(alloc, docs, &options.limits) {
        Ok(()) => {}
        Err(fault) => return Err(fault),
    }
    let table = table_of(alloc, docs)?;
    let parts = match parts_of(alloc, options, &table, docs) {
        Ok(parts) => parts,
        Err(fault) => return Err(fault),
    };
    let has_prox = parts.has_prox;
    let files = match files_of(alloc, options, parts) {
        Ok(files) => files,
        Err(fault) => return Err(fault),
    };
    Ok(SegmentFiles {
        files: Items::new(files),
        size: docs.len() as u32,
        has_prox,
        compound: options.compound,
    })
}
