//! What deleting the documents of a term makes of a segment that stands.
ghost use Rattle.std.specs.Prelude.{◌≡◌, ◌-◌, length, IfOk};
ghost use Rattle.lu_dir.specs.Loading.{texts};
ghost use Rattle.doc_marks.specs.Marking.{documents_of};
ghost use Rattle.doc_marks.specs.Spelling.{del_bytes};
ghost use Rattle.segment_infos.specs.LuceneNames.{IsGenerationNumber};
ghost use Rattle.segment_infos.specs.Values.{IsLine};
ghost use Rattle.seg_reader.specs.Postings.{entries_left};
ghost use Rattle.lu_folder.specs.Drawing.{next_del as next_del_of};
ghost use Rattle.lu_model.specs.Index.{Index};
ghost use Rattle.lu_changes.specs.Deleting.{del_file as file_of_deletions, marking_by, marking_of, deleted_with};
ghost use Rattle.lu_changes.specs.EntryMarks.{with_marks, entries_of_term, AreBelow};
ghost use Rattle.seg_reader.specs.Terms.{term_named};

use check_index::Standing;
use doc_marks::{Marks, write_del};
use lu_folder::{NewFile, next_del};
use lu_prims::{OutOfMemory, Steps};
use lu_types::{Bytes, Text};
use seg_reader::{PostingsCursor, SegReader};
use segment_infos::{LuceneName, SegInfo, name_text};
use std::alloc::Global;

/// A term whose documents are deleted: the name of its field, and its text.
#[derive(Clone, Copy)]
pub struct Target<'a> {
    pub field: &'a str,
    pub text: &'a str,
}

/// The deleted documents of a segment that loses some.
#[derive(Drop)]
pub struct Growth {
    /// The generation of their new file.
    pub generation: u64,
    /// How many documents are deleted then.
    pub deleted: u32,
    /// How many of them were not deleted before; at least one.
    pub added: u32,
    /// The new file.
    pub file: NewFile,
}

/// What becomes of a segment.
#[derive(Drop)]
pub enum Marking {
    /// No document that was live is deleted.
    Same,
    /// Some are.
    Grown(Growth),
    /// Some would be, but there is no generation left for the new file.
    Full,
}

/// A label of the steps that are counted while documents are marked; nobody asks for their number.
struct Reading;

/// Marks the documents of the entries that are left.
fn mark_entries(cursor: PostingsCursor<'_>, marks: &mut Marks)
    requires { AreBelow (length marks.old) (entries_left cursor) }
    ensures { marks.new ≡ with_marks marks.old (entries_left cursor.entry) }
{
    let mut cursor = cursor;
    let mut steps: Steps<Reading> = Steps::new();
    while let Some(doc) = cursor.next(&mut steps) {
        marks.set(doc);
    }
}

/// Marks the documents of the term, where the segment has it.
fn mark_term(reader: SegReader<'_>, target: Target<'_>, marks: &mut Marks)
    requires { length marks.old ≡ reader.index.size }
    ensures { marks.new ≡ with_marks marks.old (entries_of_term (term_named reader.entry.index target.entry.field.now target.entry.text.now)) }
{
    let mut reader = reader;
    let mut steps: Steps<Reading> = Steps::new();
    let _size = reader.size();
    match reader.seek(target.field, target.text, &mut steps) {
        Some(term) => mark_entries(reader.all_postings(&term), marks),
        None => {}
    }
}

/// The marks of the documents that are deleted, and of those of the term.
fn marks_with(
    alloc: Global,
    reader: SegReader<'_>,
    target: Target<'_>,
) -> Result<Marks, OutOfMemory>
    ensures long { IfOk result (λ marks. length marks ≡ reader.entry.index.size) }
    ensures marks { IfOk result (λ marks. documents_of marks ≡ deleted_with target.entry.field.now target.entry.text.now reader.entry.index) }
{
    let _size = reader.size();
    let mut marks = reader.live().marks(alloc)?;
    mark_term(reader, target, &mut marks);
    Ok(marks)
}

/// The new file of a segment with these marks.
fn del_file(
    alloc: Global,
    info: &SegInfo,
    generation: u64,
    marks: &Marks,
) -> Result<NewFile, OutOfMemory>
    requires line { IsLine info.now }
    requires generation { IsGenerationNumber generation }
    ensures { IfOk result (λ file. file ≡ file_of_deletions info.now generation (del_bytes (length marks.now) (documents_of marks.now))) }
{
    let name = name_text(alloc, &LuceneName::Del(info.number, generation))?;
    let bytes = write_del(alloc, marks)?;
    Ok(NewFile {
        name: Text::new(name),
        bytes: Bytes::new(bytes),
    })
}

/// What becomes of a segment with these marks, of which so many are new.
fn grown(
    alloc: Global,
    names: &[String],
    info: &SegInfo,
    marks: &Marks,
    added: u32,
) -> Result<Marking, OutOfMemory>
    requires { IsLine info.now }
    ensures { IfOk result (λ marking. (x : Index) → length marks.now ≡ x.size → added ≡ length (documents_of marks.now) - length x.deleted
        → marking ≡ marking_by info.now x (documents_of marks.now) (next_del_of (texts names.now) info.now)) }
{
    match next_del(names, info) {
        Some(generation) => Ok(Marking::Grown(Growth {
            generation,
            deleted: marks.count(),
            added,
            file: del_file(alloc, info, generation, marks)?,
        })),
        None => Ok(Marking::Full),
    }
}

/// What becomes of a segment that stands, in a folder with these names.
pub fn marking_made(
    alloc: Global,
    names: &[String],
    target: Target<'_>,
    info: &SegInfo,
    standing: Standing<'_>,
) -> Result<Marking, OutOfMemory>
    requires { IsLine info.now }
    ensures { IfOk result (λ marking. marking
        ≡ marking_of (texts names.now) target.entry.field.now target.entry.text.now info.now standing.entry.index) }
{
    let reader = SegReader::new(alloc, standing)?;
    let deleted = reader.deleted();
    let marks = marks_with(alloc, reader, target)?;
    if deleted < marks.count() {
        grown(alloc, names, info, &marks, marks.count() - deleted)
    } else {
        Ok(Marking::Same)
    }
}
