//! Segments are merged.
ghost use Rattle.std.specs.Prelude.{◌≡◌, ◌<◌, ◌^◌, length, All};
ghost use Rattle.lu_model.specs.Contents.{merge_of};
ghost use Rattle.lu_model.specs.Valid.{IsValid};
ghost use Rattle.seg_writer.specs.SegmentSteps.{WritesParts};
ghost use Rattle.seg_merger.specs.Merged.{AnswersMerge, indexes_of, merged_segment};
ghost use Rattle.seg_merger.specs.MergeSteps.{AnswersFiles};

use crate::fault::{MergeFault, merge_fault};
use crate::norms::write_norms;
use crate::sources::Sources;
use crate::stored::write_stored;
use crate::tables::{field_numbers, join_tables};
use crate::terms::write_terms;
use crate::vectors::write_vectors;
use lu_prims::Steps;
use lu_types::Items;
use seg_reader::SegReader;
use seg_writer::WriteFault;
use seg_writer::parts::{WrittenParts, files_of, keep_positions, write_fields};
use segment_files::{SegmentFiles, WriteOptions};
use std::alloc::Global;

// How many documents of the segments are live.
fn live_count(readers: &[SegReader<'_>]) -> u64
    requires { length readers.now < 2 ^ 32 }
    ensures count { result ≡ (merge_of (indexes_of readers.now)).size }
    ensures valid { All IsValid (indexes_of readers.now) }
{
    let mut count = 0;
    for reader in readers {
        count += u64::from(reader.size() - reader.deleted());
    }
    count
}

// The parts of the merge of segments, of so many live documents, or the kind of the first that passes the limit.
fn parts_of<'a, L>(
    alloc: Global,
    options: &WriteOptions,
    readers: &[SegReader<'a>],
    documents: u32,
    steps: &mut Steps<L>,
) -> Result<WrittenParts, WriteFault>
    requires few_readers { length readers.now < 2 ^ 32 }
    requires few { documents < 2 ^ 31 }
    requires documents { documents ≡ (merge_of (indexes_of readers.now)).size }
    requires valid { All IsValid (indexes_of readers.now) }
    ensures { WritesParts options.now (merge_of (indexes_of readers.now)) result }
{
    let limit = options.limits.file_bytes;
    let table = join_tables(alloc, readers)?;
    let infos = table.to_infos(alloc)?;
    let fields = infos.as_slice();
    let fnm = match write_fields(alloc, limit, fields) {
        Ok(fnm) => fnm,
        Err(fault) => return Err(fault),
    };
    let field_numbers = field_numbers(alloc, &table, readers)?;
    let numbers = field_numbers.as_slice();
    let stored = match write_stored(alloc, limit, readers, numbers) {
        Ok(stored) => stored,
        Err(fault) => return Err(fault),
    };
    let postings = match write_terms(alloc, options, fields, readers, numbers, steps) {
        Ok(postings) => postings,
        Err(fault) => return Err(fault),
    };
    let nrm = match write_norms(alloc, limit, fields, readers, documents) {
        Ok(nrm) => nrm,
        Err(fault) => return Err(fault),
    };
    let vectors = match write_vectors(alloc, limit, fields, readers, numbers) {
        Ok(vectors) => vectors,
        Err(fault) => return Err(fault),
    };
    Ok(WrittenParts {
        fnm,
        stored,
        postings,
        has_prox: keep_positions(fields),
        nrm,
        vectors,
    })
}

// The files of the merge of segments, of so many live documents.
fn merged<'a, L>(
    alloc: Global,
    options: &WriteOptions,
    readers: &[SegReader<'a>],
    documents: u32,
    steps: &mut Steps<L>,
) -> Result<SegmentFiles, MergeFault>
    requires few_readers { length readers.now < 2 ^ 32 }
    requires few { documents < 2 ^ 31 }
    requires documents { documents ≡ (merge_of (indexes_of readers.now)).size }
    requires valid { All IsValid (indexes_of readers.now) }
    ensures { AnswersFiles options.now (merge_of (indexes_of readers.now)) result }
{
    let parts = match parts_of(alloc, options, readers, documents, steps) {
        Ok(parts) => parts,
        Err(fault) => return Err(merge_fault(fault)),
    };
    let has_prox = parts.has_prox;
    let files = match files_of(alloc, options, parts) {
        Ok(files) => files,
        Err(fault) => return Err(merge_fault(fault)),
    };
    Ok(SegmentFiles {
        files: Items::new(files),
        size: documents,
        has_prox,
        compound: options.compound,
    })
}

/// The canonical files of the merge of the segments' indexes (format page, "Canonical files"): their live documents in order, under
/// their joined fields.
///
/// The error is `TooMany` exactly where more documents are live than the limit, and says how many; `TooLarge` exactly where no more
/// are, with the kind of the first file that passes the limit, in the order in which files are written; or want of memory. The
/// entries and skip data that are read of the segments' terms are counted as steps.
pub fn merge<'a, L>(
    alloc: Global,
    sources: &Sources<'a>,
    options: &WriteOptions,
    steps: &mut Steps<L>,
) -> Result<SegmentFiles, MergeFault>
    requires few { length sources.now < 2 ^ 32 }
    ensures { AnswersMerge (merged_segment (indexes_of sources.now) options.now) result }
{
    let readers = sources.readers();
    let documents = live_count(readers);
    if documents > u64::from(options.limits.documents) {
        return Err(MergeFault::TooMany(documents));
    }
    merged(alloc, options, readers, documents as u32, steps)
}
