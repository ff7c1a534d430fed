//! What `delete` comes to: the current commit, then its segments, then the marks of the documents of a term.
ghost use Rattle.std.specs.Prelude.{◌≡◌, ◌<◌, ◌+◌, ◌^◌, nat_lt, length, sum_by, All, Some, IfOk, IfErr, IsErrOf, string_bytes};
ghost use Rattle.std.specs.Option.{ForSome};
ghost use Rattle.std.specs.List.{flat_map};
ghost use Rattle.std.specs.FinMap.{keys};
ghost use Rattle.lu_dir.specs.Faults.{IsCaused};
ghost use Rattle.lu_dir.specs.Files.{AreMadeOfBytes};
ghost use Rattle.lu_dir.specs.Loading.{texts, IsLoadable};
ghost use Rattle.lu_types.specs.FilePlans.{StandFor};
ghost use Rattle.segment_infos.specs.LuceneNames.{IsGenerationNumber};
ghost use Rattle.segment_infos.specs.Values.{IsLine, IsCommit};
ghost use Rattle.check_index.specs.Segments.{SegmentValue, segment_files};
ghost use Rattle.lu_folder.specs.Drawing.{next_generation as next_generation_of};
ghost use Rattle.lu_folder.specs.Limits.{file_limit};
ghost use Rattle.lu_reads.specs.Checking.{JudgedSays, SegmentSays, SegmentsSay};
ghost use Rattle.lu_reads.specs.Finding.{spelled_names, folder_files};
ghost use Rattle.lu_reads.specs.Segments.{IsReadAs};
ghost use Rattle.lu_reads.specs.Stopping.{StopSays};
ghost use Rattle.lu_changes.specs.Marked.{AreMarked};
ghost use Rattle.lu_changes.specs.Deleting.{marking_of, first_full as first_full_of, added_by, file_of, marked_line as line_marked, marked_lines as lines_marked, deleted_text as text_of_deletion, with_lines as commit_with_lines, marked_outcome, markings_outcome, MarksGive, DeleteDue};
ghost use Rattle.lu_changes.specs.Following.{SegmentsFollow, VersionFollows, GenerationFollows};

use crate::basis::{change_of, hold_commit};
use crate::building::names_in_order;
use crate::marking::{Marking, Target, marking_made};
use crate::new_segment::made;
use check_index::{CheckFault, check_segment};
use lu_dir::{Dir, DirFail, Loaded};
use lu_folder::{Chosen, FolderFault, NewFile, current, next_generation, read_segment};
use lu_outcomes::outcome::Outcome;
use lu_outcomes::refusing::refused;
use lu_outcomes::status::Refusal;
use lu_prims::OutOfMemory;
use lu_reads::checking::{refusal, segment_fault};
use lu_reads::finding::found_parts;
use lu_reads::stopping::{Stop, stopped_by};
use lu_types::Items;
use segment_infos::{Commit, SegInfo};
use std::alloc::Global;

/// Versions are below this one.
const VERSION_LIMIT: u64 = 1 << 63;

/// What documents are deleted of: the names of the folder, in order; the term whose documents they are; the commit that is
/// current; and the generation of the next one.
#[derive(Drop)]
pub struct Deletion<'a> {
    pub names: &'a [String],
    pub target: Target<'a>,
    pub chosen: Chosen,
    pub generation: u64,
}

/// What becomes of the segment at this place by the files that were loaded for it.
fn judged_marking(
    alloc: Global,
    deletion: &Deletion<'_>,
    place: u32,
    info: &SegInfo,
    loaded: &Loaded,
) -> Result<Marking, Stop>
    requires line { IsLine info.now }
    requires names { loaded.now.names ≡ spelled_names info.now }
    requires each { All (IsLoadable file_limit) loaded.now.found }
    ensures marked { IfOk result (λ marking. (x : SegmentValue) × StandFor (segment_files (folder_files info.now loaded.now.found) info.now) x
        × (marking ≡ marking_of (texts deletion.now.names.now) deletion.now.target.field.now deletion.now.target.text.now info.now x.index)) }
    ensures said { IfErr result (StopSays (λ outcome. JudgedSays loaded.now.found deletion.now.chosen.generation place info.now (Some outcome))) }
    ensures failed { ¬ IsErrOf result (Stop.Failed DirFail.Failed) }
{
    let parts = found_parts(alloc, loaded, info)?;
    match check_segment(alloc, parts, place, info) {
        Ok(standing) => Ok(marking_made(alloc, deletion.names, deletion.target, info, standing)?),
        Err(CheckFault::Fault(fault)) => {
            let outcome = segment_fault(alloc, deletion.chosen.generation, info, fault)?;
            Err(Stop::Said(outcome))
        }
        Err(CheckFault::OutOfMemory) => Err(Stop::Failed(DirFail::OutOfMemory)),
    }
}

/// What becomes of the segment at this place among those of the commit. Its files are in memory meanwhile, and no other.
fn marked_segment<D: Dir>(
    alloc: Global,
    dir: &mut D,
    deletion: &Deletion<'_>,
    place: u32,
    info: &SegInfo,
) -> Result<Marking, Stop>
    requires { IsLine info.now }
    ensures marked { IfOk result (λ marking. (x : SegmentValue) × IsReadAs (D.files dir.old) info.now x
        × (marking ≡ marking_of (texts deletion.now.names.now) deletion.now.target.field.now deletion.now.target.text.now info.now x.index)) }
    ensures said { IfErr result (StopSays (λ outcome. SegmentSays (D.files dir.old) deletion.now.chosen.generation place info.now (Some outcome))) }
    ensures files { D.files dir.new ≡ D.files dir.old }
    ensures asked { D.asked dir.new ≡ D.asked dir.old }
    ensures cause { IsCaused (D.faults dir.old) (D.faults dir.new) (IsErrOf result (Stop.Failed DirFail.Failed)) }
{
    match read_segment(alloc, dir, info) {
        Ok(loaded) => judged_marking(alloc, deletion, place, info, &loaded),
        Err(fault) => Err(stopped_by(alloc, fault)),
    }
}

/// What becomes of each of the segments, of which all stand.
fn marked_segments<D: Dir>(
    alloc: Global,
    dir: &mut D,
    deletion: &Deletion<'_>,
    segments: &[SegInfo],
) -> Result<Vec<Marking>, Stop>
    requires lines { All IsLine segments.now }
    requires count { length segments.now < 2 ^ 31 }
    ensures marked { IfOk result (λ markings. AreMarked (D.files dir.old) (texts deletion.now.names.now)
        deletion.now.target.field.now deletion.now.target.text.now segments.now markings.items) }
    ensures said { IfErr result (StopSays (λ outcome. SegmentsSay (D.files dir.old) deletion.now.chosen.generation 0 segments.now (Some outcome))) }
    ensures files { D.files dir.new ≡ D.files dir.old }
    ensures asked { D.asked dir.new ≡ D.asked dir.old }
    ensures cause { IsCaused (D.faults dir.old) (D.faults dir.new) (IsErrOf result (Stop.Failed DirFail.Failed)) }
{
    let mut markings = Vec::new(alloc);
    for place in 0..segments.len() {
        let marking = match marked_segment(alloc, dir, deletion, place as u32, &segments[place]) {
            Ok(marking) => marking,
            Err(stop) => return Err(stop),
        };
        match markings.push(marking) {
            Ok(()) => {}
            Err(_) => return Err(Stop::Failed(DirFail::OutOfMemory)),
        }
    }
    Ok(markings)
}

/// The place of the first segment that has no generation for its new file.
fn first_full(markings: &[Marking]) -> Option<u32>
    requires { length markings.now < 2 ^ 31 }
    ensures { result ≡ first_full_of 0 markings.now }
{
    for place in 0..markings.len() {
        match &markings[place] {
            Marking::Full => return Some(place as u32),
            Marking::Same => {}
            Marking::Grown(_) => {}
        }
    }
    None
}

/// How many documents of a segment are deleted that were not.
fn added(marking: &Marking) -> u64
    ensures added { result ≡ added_by marking.now }
    ensures few { result < 2 ^ 32 }
{
    match marking {
        Marking::Grown(growth) => growth.added as u64,
        Marking::Same => 0,
        Marking::Full => 0,
    }
}

/// How many documents of all segments are deleted that were not.
fn total_added(markings: &[Marking]) -> u64
    requires { length markings.now < 2 ^ 31 }
    ensures { result ≡ sum_by added_by markings.now }
{
    let mut total = 0;
    for place in 0..markings.len() {
        total += added(&markings[place]);
    }
    total
}

/// The line of a segment of which this becomes.
fn marked_line(line: SegInfo, marking: &Marking) -> SegInfo
    ensures { result ≡ line_marked line marking.now }
{
    match marking {
        Marking::Grown(growth) => SegInfo {
            del_gen: Some(growth.generation),
            deleted: growth.deleted,
            ..line
        },
        Marking::Same => line,
        Marking::Full => line,
    }
}

/// The lines of segments of which this becomes.
fn marked_lines(
    alloc: Global,
    segments: Vec<SegInfo>,
    markings: &[Marking],
) -> Result<Vec<SegInfo>, OutOfMemory>
    requires { length segments.items ≡ length markings.now }
    ensures { IfOk result (λ lines. lines.items ≡ lines_marked segments.items markings.now) }
{
    let mut lines = Vec::new(alloc);
    let mut place = 0;
    for line in segments {
        lines.push(marked_line(line, &markings[place]))?;
        place += 1;
    }
    Ok(lines)
}

/// The new files of segments of which this becomes.
fn new_files(alloc: Global, markings: Vec<Marking>) -> Result<Vec<NewFile>, OutOfMemory>
    ensures { IfOk result (λ files. files.items ≡ flat_map file_of markings.items) }
{
    let mut files = Vec::new(alloc);
    for marking in markings {
        if let Marking::Grown(growth) = marking {
            files.push(growth.file)?;
        }
    }
    Ok(files)
}

/// The commit with its version raised, where this becomes of its segments.
fn with_markings(alloc: Global, before: Commit, markings: &[Marking]) -> Result<Commit, OutOfMemory>
    requires count { length before.segments ≡ length markings.now }
    requires commit { IsCommit (commit_with_lines (lines_marked before.segments markings.now) before) }
    ensures { IfOk result (λ commit. commit ≡ commit_with_lines (lines_marked before.segments markings.now) before) }
{
    let version = before.version;
    let lines = marked_lines(alloc, before.segments.into_vec(), markings)?;
    Ok(Commit {
        version: version + 1,
        counter: before.counter,
        segments: Items::new(lines),
        user: before.user,
    })
}

/// The line of a commit after which so many documents more are deleted.
fn deletion_text(alloc: Global, generation: u64, added: u64) -> Result<String, OutOfMemory>
    ensures { IfOk result (λ text. string_bytes text ≡ text_of_deletion generation added) }
{
    let text = format!(in alloc; "commit {generation}: {added} documents deleted\n")?;
    Ok(text)
}

/// The outcome of a commit, where this becomes of the segments of the one before.
fn marked(
    alloc: Global,
    deletion: Deletion<'_>,
    markings: Vec<Marking>,
) -> Result<Outcome, OutOfMemory>
    requires generation { IsGenerationNumber deletion.generation }
    requires few { length markings.items < 2 ^ 31 }
    requires count { length deletion.chosen.commit.segments ≡ length markings.items }
    requires commit { IsCommit (commit_with_lines (lines_marked deletion.chosen.commit.segments markings.items) deletion.chosen.commit) }
    ensures { IfOk result (λ outcome. outcome
        ≡ marked_outcome (texts deletion.entry.names.now) deletion.entry.chosen.commit deletion.entry.generation markings.items) }
{
    let total = total_added(markings.as_slice());
    let text = deletion_text(alloc, deletion.generation, total)?;
    let commit = with_markings(alloc, deletion.chosen.commit, markings.as_slice())?;
    let files = new_files(alloc, markings)?;
    let change = change_of(alloc, deletion.names, deletion.generation, commit, files)?;
    Ok(made(text, change))
}

/// What comes of what becomes of the segments.
fn by_markings(
    alloc: Global,
    deletion: Deletion<'_>,
    markings: Vec<Marking>,
) -> Result<Outcome, OutOfMemory>
    requires generation { IsGenerationNumber deletion.generation }
    requires few { length markings.items < 2 ^ 31 }
    requires count { length deletion.chosen.commit.segments ≡ length markings.items }
    requires commit { IsCommit (commit_with_lines (lines_marked deletion.chosen.commit.segments markings.items) deletion.chosen.commit) }
    ensures { IfOk result (λ outcome. outcome
        ≡ markings_outcome (texts deletion.entry.names.now) deletion.entry.chosen.commit deletion.entry.generation markings.items) }
{
    match first_full(markings.as_slice()) {
        Some(place) => refused(alloc, Refusal::DelGenFull(place)),
        None => marked(alloc, deletion, markings),
    }
}

/// What comes of the segments of the commit.
fn by_segments<D: Dir>(
    alloc: Global,
    dir: &mut D,
    deletion: Deletion<'_>,
) -> Result<Outcome, DirFail>
    requires generation { IsGenerationNumber deletion.generation }
    requires version { deletion.chosen.commit.version + 1 < 2 ^ 63 }
    ensures due { IfOk result (λ outcome. SegmentsFollow (MarksGive deletion.entry.target.field.now deletion.entry.target.text.now) (D.files dir.old)
        (texts deletion.entry.names.now) deletion.entry.chosen deletion.entry.generation outcome) }
    ensures files { D.files dir.new ≡ D.files dir.old }
    ensures asked { D.asked dir.new ≡ D.asked dir.old }
    ensures cause { IsCaused (D.faults dir.old) (D.faults dir.new) (IsErrOf result DirFail.Failed) }
{
    hold_commit(&deletion.chosen.commit);
    let segments = deletion.chosen.commit.segments.as_slice();
    match marked_segments(alloc, dir, &deletion, segments) {
        Ok(markings) => Ok(by_markings(alloc, deletion, markings)?),
        Err(Stop::Said(outcome)) => Ok(outcome),
        Err(Stop::Failed(fail)) => Err(fail),
    }
}

/// What comes of the commit that is built on, where its version can be raised.
fn by_version<D: Dir>(
    alloc: Global,
    dir: &mut D,
    deletion: Deletion<'_>,
) -> Result<Outcome, DirFail>
    requires { IsGenerationNumber deletion.generation }
    ensures due { IfOk result (λ outcome. VersionFollows (MarksGive deletion.entry.target.field.now deletion.entry.target.text.now) (D.files dir.old)
        (texts deletion.entry.names.now) deletion.entry.chosen deletion.entry.generation
        (nat_lt (deletion.entry.chosen.commit.version + 1) (2 ^ 63)) outcome) }
    ensures files { D.files dir.new ≡ D.files dir.old }
    ensures asked { D.asked dir.new ≡ D.asked dir.old }
    ensures cause { IsCaused (D.faults dir.old) (D.faults dir.new) (IsErrOf result DirFail.Failed) }
{
    if deletion.chosen.commit.version + 1 < VERSION_LIMIT {
        by_segments(alloc, dir, deletion)
    } else {
        Ok(refused(alloc, Refusal::VersionFull)?)
    }
}

/// What comes of the commit that is built on.
fn by_commit<D: Dir>(
    alloc: Global,
    dir: &mut D,
    names: &[String],
    target: Target<'_>,
    chosen: Chosen,
) -> Result<Outcome, DirFail>
    ensures due { IfOk result (λ outcome. GenerationFollows (MarksGive target.entry.field.now target.entry.text.now) (D.files dir.old) (texts names.now) chosen
        (next_generation_of (texts names.now)) outcome) }
    ensures files { D.files dir.new ≡ D.files dir.old }
    ensures asked { D.asked dir.new ≡ D.asked dir.old }
    ensures cause { IsCaused (D.faults dir.old) (D.faults dir.new) (IsErrOf result DirFail.Failed) }
{
    match next_generation(names) {
        Some(generation) => {
            let deletion = Deletion {
                names,
                target,
                chosen,
                generation,
            };
            by_version(alloc, dir, deletion)
        }
        None => Ok(refused(alloc, Refusal::GenerationFull)?),
    }
}

/// What comes of the names of the folder, in order.
fn by_names<D: Dir>(
    alloc: Global,
    dir: &mut D,
    names: &[String],
    target: Target<'_>,
) -> Result<Outcome, DirFail>
    requires made { ForSome (D.files dir.old) AreMadeOfBytes }
    requires names { ForSome (D.files dir.old) (λ told. texts names.now ≡ keys told) }
    ensures due { IfOk result (λ outcome. DeleteDue target.entry.field.now target.entry.text.now (D.files dir.old) outcome) }
    ensures files { D.files dir.new ≡ D.files dir.old }
    ensures asked { D.asked dir.new ≡ D.asked dir.old }
    ensures cause { IsCaused (D.faults dir.old) (D.faults dir.new) (IsErrOf result DirFail.Failed) }
{
    match current(alloc, dir, names) {
        Ok(chosen) => by_commit(alloc, dir, names, target, chosen),
        Err(fault) => refusal(alloc, fault),
    }
}

/// What `delete` comes to: it deletes the documents of a term in a new commit.
pub fn delete_outcome<D: Dir>(
    alloc: Global,
    target: Target<'_>,
    dir: &mut D,
) -> Result<Outcome, DirFail>
    requires { ForSome (D.files dir.old) AreMadeOfBytes }
    ensures due { IfOk result (λ outcome. DeleteDue target.entry.field.now target.entry.text.now (D.files dir.old) outcome) }
    ensures files { D.files dir.new ≡ D.files dir.old }
    ensures asked { D.asked dir.new ≡ D.asked dir.old }
    ensures cause { IsCaused (D.faults dir.old) (D.faults dir.new) (IsErrOf result DirFail.Failed) }
{
    match names_in_order(alloc, dir) {
        Ok(names) => by_names(alloc, dir, names.as_slice(), target),
        Err(fail) => Err(fail),
    }
}
