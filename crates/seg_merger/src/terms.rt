//! The terms of all sources, merged: each term once, in order, with the live entries of all sources.
ghost use Rattle.std.specs.Prelude.{◌≡◌, ◌<◌, ◌^◌, length};
ghost use Rattle.lu_model.specs.Contents.{joined_table, merge_of};
ghost use Rattle.segment_files.specs.Parts.{intervals_of};
ghost use Rattle.segment_files.specs.Postings.{kept_terms};
ghost use Rattle.posting_files.specs.States.{canonical_postings, given_files};
ghost use Rattle.seg_writer.specs.Answers.{Wrote};
ghost use Rattle.seg_merger.specs.Merged.{AreFieldNumbers, indexes_of};

mod contest;
mod current;
mod documents;
mod entries;
mod merging;
mod slot;
mod tournament;

use contest::open_slots;
use entries::fault_of;
use lu_prims::Steps;
use lu_types::FieldInfo;
use merging::merge_slots;
use posting_files::{PostingFiles, PostingWriter};
use seg_reader::SegReader;
use seg_writer::WriteFault;
use segment_files::WriteOptions;
use std::alloc::Global;

/// The files of the terms of all segments, whose fields have these numbers in their joined table; or which of them is the first that
/// passes the limit. It walks all segments together, and holds one text of each, beside what is written.
pub(crate) fn write_terms<'a, L>(
    alloc: Global,
    options: &WriteOptions,
    fields: &[FieldInfo],
    readers: &[SegReader<'a>],
    numbers: &[Vec<u32>],
    steps: &mut Steps<L>,
) -> Result<PostingFiles, WriteFault>
    requires few_fields { length fields.now < 2 ^ 31 }
    requires few { length readers.now < 2 ^ 32 }
    requires few_documents { (merge_of (indexes_of readers.now)).size < 2 ^ 31 }
    requires fields { fields.now ≡ joined_table (indexes_of readers.now) }
    requires numbers { AreFieldNumbers fields.now readers.now numbers.now }
    ensures { Wrote given_files options.now.limits.file_bytes (canonical_postings (intervals_of options.now) (kept_terms fields.now (merge_of (indexes_of readers.now)).terms)) result }
{
    let mut writer = PostingWriter::new(
        alloc,
        options.limits.file_bytes,
        options.index_interval,
        options.skip_interval,
        options.max_levels,
    )?;
    let slots = open_slots(alloc, readers, numbers)?;
    match merge_slots(alloc, fields, slots, &mut writer, steps) {
        Ok(()) => {}
        Err(fault) => return Err(fault),
    }
    match writer.finish() {
        Ok(files) => Ok(files),
        Err(fault) => Err(fault_of(fault)),
    }
}
