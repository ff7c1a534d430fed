//! What `merge` comes to: the current commit, then its segments, then one segment of their live documents in place of all.
ghost use Rattle.std.specs.Prelude.{◌≡◌, ◌<◌, ◌+◌, ◌^◌, nat_lt, List, length, flat_map, Some, IfOk, IfErr, IsErrOf};
ghost use Rattle.std.specs.Option.{ForSome};
ghost use Rattle.std.specs.FinMap.{keys};
ghost use Rattle.lu_dir.specs.Faults.{IsCaused};
ghost use Rattle.lu_dir.specs.Files.{AreMadeOfBytes};
ghost use Rattle.lu_dir.specs.Loading.{texts};
ghost use Rattle.lu_model.specs.Contents.{live, merge_of};
ghost use Rattle.segment_infos.specs.LuceneNames.{IsGenerationNumber};
ghost use Rattle.check_index.specs.Segments.{SegmentValue};
ghost use Rattle.seg_merger.specs.Merged.{indexes_of};
ghost use Rattle.lu_folder.specs.Drawing.{next_generation as next_generation_of, next_segment as next_segment_of};
ghost use Rattle.lu_changes.specs.Basis.{basis_value};
ghost use Rattle.lu_reads.specs.Checking.{SegmentsSay};
ghost use Rattle.lu_reads.specs.Segments.{AreReadAs};
ghost use Rattle.lu_reads.specs.Stopping.{StopSays};
ghost use Rattle.lu_changes.specs.Following.{SegmentsFollow, VersionFollows, GenerationFollows};
ghost use Rattle.lu_changes.specs.Merging.{NumberMerges, ValuesMerge, MergeGives, MergeDue};
ghost use Rattle.lu_changes.specs.Upshots.{outcome_of, CanBeMade};

use crate::basis::{Basis, emptied, hold_commit};
use crate::building::names_in_order;
use crate::new_segment::{no_segment, options_for, segment_made};
use check_index::Standing;
use lu_dir::{Dir, DirFail};
use lu_folder::{Chosen, current, next_generation, next_segment};
use lu_outcomes::outcome::Outcome;
use lu_outcomes::refusing::refused;
use lu_outcomes::status::Refusal;
use lu_prims::{OutOfMemory, Steps};
use lu_reads::checking::refusal;
use lu_reads::holding::{held_segments, standing_segments};
use lu_reads::stopping::Stop;
use seg_merger::{MergeFault, Sources, merge};
use seg_reader::SegReader;
use segment_files::SegmentFiles;
use std::alloc::Global;

/// Versions are below this one.
const VERSION_LIMIT: u64 = 1 << 63;

/// Where a segment of other segments comes from, as its line says.
const MERGED: &str = "merge";

/// What the merge of the segments of a commit comes to.
#[derive(Drop)]
pub enum Upshot {
    /// None of their documents is live.
    Nothing,
    /// A segment with this number and these files.
    Segment(u32, SegmentFiles),
    /// It is refused.
    Refused(Refusal),
}

/// The label of the steps that are counted while segments are merged; nobody asks for their number.
struct Walked;

/// Segments that are merged, and how many of their documents are live.
#[derive(Drop)]
struct Joined<'a> {
    sources: Sources<'a>,
    count: u64,
    ghost counted: { count ≡ length (flat_map live (indexes_of sources)) },
}

/// How many documents of a segment are live.
fn live_documents(reader: &SegReader<'_>) -> u64
    ensures live { result ≡ length (live reader.now.index) }
    ensures few { result < 2 ^ 32 }
{
    let size = reader.size();
    (size - reader.deleted()) as u64
}

/// The segments, to be merged.
fn join<'a>(alloc: Global, segments: Vec<Standing<'a>>) -> Result<Joined<'a>, OutOfMemory>
    requires { length segments.items < 2 ^ 31 }
    ensures { IfOk result (λ joined. joined.sources ≡ segments.entry.items) }
{
    let mut sources = Sources::new(alloc);
    let mut count = 0;
    for standing in segments {
        let reader = match SegReader::new(alloc, standing) {
            Ok(reader) => reader,
            Err(error) => return Err(error),
        };
        count += live_documents(&reader);
        match sources.push(reader) {
            Ok(()) => {}
            Err(_) => return Err(OutOfMemory),
        }
    }
    Ok(Joined { sources, count })
}

/// What the merge of segments comes to as the segment with this number.
fn merged_as(
    alloc: Global,
    basis: &Basis<'_>,
    number: u32,
    sources: &Sources<'_>,
) -> Result<Upshot, OutOfMemory>
    requires few { length sources.now < 2 ^ 31 }
    requires drawn { next_segment_of (texts basis.now.names.now) basis.now.before ≡ Some number }
    requires version { basis.now.before.version + 1 < 2 ^ 63 }
    ensures merges { IfOk result (λ upshot. NumberMerges (basis_value basis.now) (merge_of (indexes_of sources.now)) (Some number)
        (outcome_of (basis_value basis.now) upshot)) }
    ensures made { IfOk result (CanBeMade (basis_value basis.now)) }
{
    hold_commit(&basis.before);
    let options = options_for(number, basis.compound);
    let mut steps: Steps<Walked> = Steps::new();
    match merge(alloc, sources, &options, &mut steps) {
        Ok(files) => Ok(Upshot::Segment(number, files)),
        Err(MergeFault::TooMany(_)) => Ok(Upshot::Refused(Refusal::TooMany)),
        Err(MergeFault::TooLarge(kind)) => Ok(Upshot::Refused(Refusal::TooLarge(kind))),
        Err(MergeFault::OutOfMemory) => Err(OutOfMemory),
    }
}

/// What the merge of all segments of the commit that is built on comes to.
fn merged_joined(
    alloc: Global,
    basis: &Basis<'_>,
    joined: &Joined<'_>,
) -> Result<Upshot, OutOfMemory>
    requires few { length joined.now.sources < 2 ^ 31 }
    requires version { basis.now.before.version + 1 < 2 ^ 63 }
    ensures merges { IfOk result (λ upshot. ValuesMerge (basis_value basis.now) joined.now.sources (outcome_of (basis_value basis.now) upshot)) }
    ensures made { IfOk result (CanBeMade (basis_value basis.now)) }
{
    if joined.count == 0 {
        return Ok(Upshot::Nothing);
    }
    match next_segment(basis.names, &basis.before) {
        Some(number) => merged_as(alloc, basis, number, &joined.sources),
        None => Ok(Upshot::Refused(Refusal::CounterFull)),
    }
}

/// What the merge of the segments of the commit that is built on comes to, of which all stand. The commit has this generation.
fn merged_segments<D: Dir>(
    alloc: Global,
    dir: &mut D,
    generation: u64,
    basis: &Basis<'_>,
) -> Result<Upshot, Stop>
    requires version { basis.now.before.version + 1 < 2 ^ 63 }
    ensures merges { IfOk result (λ upshot. (xs : List SegmentValue) × AreReadAs (D.files dir.old) basis.now.before.segments xs
        × ValuesMerge (basis_value basis.now) xs (outcome_of (basis_value basis.now) upshot)) }
    ensures made { IfOk result (CanBeMade (basis_value basis.now)) }
    ensures said { IfErr result (StopSays (λ outcome. SegmentsSay (D.files dir.old) generation 0 basis.now.before.segments (Some outcome))) }
    ensures files { D.files dir.new ≡ D.files dir.old }
    ensures asked { D.asked dir.new ≡ D.asked dir.old }
    ensures cause { IsCaused (D.faults dir.old) (D.faults dir.new) (IsErrOf result (Stop.Failed DirFail.Failed)) }
{
    hold_commit(&basis.before);
    let held = match held_segments(alloc, dir, basis.before.segments.as_slice()) {
        Ok(held) => held,
        Err(fail) => return Err(Stop::Failed(fail)),
    };
    let segments = match standing_segments(alloc, generation, &held) {
        Ok(segments) => segments,
        Err(stop) => return Err(stop),
    };
    let joined = join(alloc, segments)?;
    Ok(merged_joined(alloc, basis, &joined)?)
}

/// The outcome of what the merge comes to.
fn outcome_made(alloc: Global, basis: Basis<'_>, upshot: Upshot) -> Result<Outcome, OutOfMemory>
    requires generation { IsGenerationNumber basis.generation }
    requires version { basis.before.version + 1 < 2 ^ 63 }
    requires made { CanBeMade (basis_value basis) upshot }
    ensures { IfOk result (λ outcome. outcome ≡ outcome_of (basis_value basis.entry) upshot) }
{
    let basis = Basis {
        names: basis.names,
        before: emptied(alloc, basis.before),
        generation: basis.generation,
        compound: basis.compound,
    };
    match upshot {
        Upshot::Nothing => no_segment(alloc, basis),
        Upshot::Segment(number, files) => segment_made(alloc, basis, MERGED, number, files),
        Upshot::Refused(refusal) => refused(alloc, refusal),
    }
}

/// What comes of the segments of the commit that is built on, which has this generation.
fn by_segments<D: Dir>(
    alloc: Global,
    dir: &mut D,
    generation: u64,
    basis: Basis<'_>,
) -> Result<Outcome, DirFail>
    requires generation { IsGenerationNumber basis.generation }
    requires version { basis.before.version + 1 < 2 ^ 63 }
    ensures due { IfOk result (λ outcome. SegmentsFollow (MergeGives basis.entry.compound) (D.files dir.old) (texts basis.entry.names.now)
        (record { generation = generation; commit = basis.entry.before }) basis.entry.generation outcome) }
    ensures files { D.files dir.new ≡ D.files dir.old }
    ensures asked { D.asked dir.new ≡ D.asked dir.old }
    ensures cause { IsCaused (D.faults dir.old) (D.faults dir.new) (IsErrOf result DirFail.Failed) }
{
    match merged_segments(alloc, dir, generation, &basis) {
        Ok(upshot) => Ok(outcome_made(alloc, basis, upshot)?),
        Err(Stop::Said(outcome)) => Ok(outcome),
        Err(Stop::Failed(fail)) => Err(fail),
    }
}

/// What comes of the commit that is built on, which has this generation, where its version can be raised.
fn by_version<D: Dir>(
    alloc: Global,
    dir: &mut D,
    generation: u64,
    basis: Basis<'_>,
) -> Result<Outcome, DirFail>
    requires { IsGenerationNumber basis.generation }
    ensures due { IfOk result (λ outcome. VersionFollows (MergeGives basis.entry.compound) (D.files dir.old) (texts basis.entry.names.now)
        (record { generation = generation; commit = basis.entry.before }) basis.entry.generation
        (nat_lt (basis.entry.before.version + 1) (2 ^ 63)) outcome) }
    ensures files { D.files dir.new ≡ D.files dir.old }
    ensures asked { D.asked dir.new ≡ D.asked dir.old }
    ensures cause { IsCaused (D.faults dir.old) (D.faults dir.new) (IsErrOf result DirFail.Failed) }
{
    if basis.before.version + 1 < VERSION_LIMIT {
        by_segments(alloc, dir, generation, basis)
    } else {
        Ok(refused(alloc, Refusal::VersionFull)?)
    }
}

/// What comes of the commit that is built on.
fn by_commit<D: Dir>(
    alloc: Global,
    dir: &mut D,
    names: &[String],
    compound: bool,
    chosen: Chosen,
) -> Result<Outcome, DirFail>
    ensures due { IfOk result (λ outcome. GenerationFollows (MergeGives compound) (D.files dir.old) (texts names.now) chosen
        (next_generation_of (texts names.now)) outcome) }
    ensures files { D.files dir.new ≡ D.files dir.old }
    ensures asked { D.asked dir.new ≡ D.asked dir.old }
    ensures cause { IsCaused (D.faults dir.old) (D.faults dir.new) (IsErrOf result DirFail.Failed) }
{
    match next_generation(names) {
        Some(generation) => {
            let basis = Basis {
                names,
                before: chosen.commit,
                generation,
                compound,
            };
            by_version(alloc, dir, chosen.generation, basis)
        }
        None => Ok(refused(alloc, Refusal::GenerationFull)?),
    }
}

/// What comes of the names of the folder, in order.
fn by_names<D: Dir>(
    alloc: Global,
    dir: &mut D,
    names: &[String],
    compound: bool,
) -> Result<Outcome, DirFail>
    requires made { ForSome (D.files dir.old) AreMadeOfBytes }
    requires names { ForSome (D.files dir.old) (λ told. texts names.now ≡ keys told) }
    ensures due { IfOk result (λ outcome. MergeDue compound (D.files dir.old) outcome) }
    ensures files { D.files dir.new ≡ D.files dir.old }
    ensures asked { D.asked dir.new ≡ D.asked dir.old }
    ensures cause { IsCaused (D.faults dir.old) (D.faults dir.new) (IsErrOf result DirFail.Failed) }
{
    match current(alloc, dir, names) {
        Ok(chosen) => by_commit(alloc, dir, names, compound, chosen),
        Err(fault) => refusal(alloc, fault),
    }
}

/// What `merge` comes to: in a new commit one segment of all live documents stands in place of all segments, or none where no
/// document is live. Beside the files in memory and the new ones it takes memory for a bit a document, and as the merger says.
pub fn merge_outcome<D: Dir>(alloc: Global, compound: bool, dir: &mut D) -> Result<Outcome, DirFail>
    requires { ForSome (D.files dir.old) AreMadeOfBytes }
    ensures due { IfOk result (λ outcome. MergeDue compound (D.files dir.old) outcome) }
    ensures files { D.files dir.new ≡ D.files dir.old }
    ensures asked { D.asked dir.new ≡ D.asked dir.old }
    ensures cause { IsCaused (D.faults dir.old) (D.faults dir.new) (IsErrOf result DirFail.Failed) }
{
    match names_in_order(alloc, dir) {
        Ok(names) => by_names(alloc, dir, names.as_slice(), compound),
        Err(fail) => Err(fail),
    }
}
