//! What `check` comes to by the files of the folder that was entered.
ghost use Rattle.std.specs.Prelude.{◌≡◌, ◌<◌, ◌^◌, ℕ, length, All, IfOk, IsErrOf};
ghost use Rattle.std.specs.Option.{ForSome};
ghost use Rattle.lu_dir.specs.Faults.{IsCaused};
ghost use Rattle.lu_dir.specs.Files.{AreMadeOfBytes};
ghost use Rattle.lu_dir.specs.Loading.{IsLoadable};
ghost use Rattle.segment_infos.specs.Values.{IsLine, AreLines, total_size};
ghost use Rattle.lu_folder.specs.Limits.{file_limit};
ghost use Rattle.lu_reads.specs.Finding.{spelled_names};
ghost use Rattle.lu_reads.specs.Checking.{no_index_outcome, commit_fault as outcome_of_commit, segment_fault as outcome_of_segment, stands_outcome, total_deleted, JudgedSays, SegmentSays, SegmentsSay, CommitSays, Refuses, CheckDue};

use crate::finding::found_parts;
use crate::naming::{commit_text, file_name, shown};
use crate::reading::too_large;
use check_index::{CheckFault, check_segment};
use lu_dir::{Dir, DirFail, Loaded};
use lu_folder::{FolderFault, newest, read_segment};
use lu_outcomes::outcome::Outcome;
use lu_outcomes::status::Status;
use lu_outcomes::texts::{NO_INDEX, spot_text, stands_text};
use lu_prims::OutOfMemory;
use lu_types::Fault;
use segment_infos::SegInfo;
use std::alloc::Global;

/// The outcome where the folder has no commit.
fn no_index(alloc: Global) -> Result<Outcome, OutOfMemory>
    ensures { IfOk result (λ outcome. outcome ≡ no_index_outcome) }
{
    let text = String::from_str(alloc, NO_INDEX)?;
    Ok(Outcome::without_effect(Status::NoIndex, text.into_bytes()))
}

/// The outcome where the commit of this generation has this fault in its own file.
fn commit_fault(alloc: Global, generation: u64, fault: Fault) -> Result<Outcome, OutOfMemory>
    ensures { IfOk result (λ outcome. outcome ≡ outcome_of_commit generation fault) }
{
    let name = commit_text(alloc, generation)?;
    let text = spot_text(alloc, name.as_str(), &fault.spot)?;
    let status = Status::NotStanding(generation, fault);
    Ok(Outcome::without_effect(status, text.into_bytes()))
}

/// The outcome of what was said of the folder, or of a file of it.
pub fn refusal(alloc: Global, fault: FolderFault) -> Result<Outcome, DirFail>
    ensures refused { IfOk result (λ outcome. Refuses fault outcome) }
    ensures failed { IsErrOf result DirFail.Failed → fault ≡ FolderFault.Failed }
{
    match fault {
        FolderFault::NoIndex => Ok(no_index(alloc)?),
        FolderFault::FileTooLarge(kind) => Ok(too_large(alloc, kind)?),
        FolderFault::NotStanding(generation, fault) => Ok(commit_fault(alloc, generation, fault)?),
        FolderFault::Failed => Err(DirFail::Failed),
        FolderFault::OutOfMemory => Err(DirFail::OutOfMemory),
    }
}

/// The outcome where the segment of this fault's place has it.
pub fn segment_fault(
    alloc: Global,
    generation: u64,
    info: &SegInfo,
    fault: Fault,
) -> Result<Outcome, OutOfMemory>
    requires { IsLine info.now }
    ensures { IfOk result (λ outcome. outcome ≡ outcome_of_segment generation fault.segment info.now fault.spot) }
{
    let name = shown(alloc, file_name(info, fault.spot.kind))?;
    let text = spot_text(alloc, name.as_str(), &fault.spot)?;
    let status = Status::NotStanding(generation, fault);
    Ok(Outcome::without_effect(status, text.into_bytes()))
}

/// What is said of a segment by the files that were loaded for it.
pub fn judged_segment(
    alloc: Global,
    generation: u64,
    place: u32,
    info: &SegInfo,
    loaded: &Loaded,
) -> Result<Option<Outcome>, OutOfMemory>
    requires line { IsLine info.now }
    requires names { loaded.now.names ≡ spelled_names info.now }
    requires each { All (IsLoadable file_limit) loaded.now.found }
    ensures { IfOk result (λ said. JudgedSays loaded.now.found generation place info.now said) }
{
    let parts = found_parts(alloc, loaded, info)?;
    match check_segment(alloc, parts, place, info) {
        Ok(_standing) => Ok(None),
        Err(CheckFault::Fault(fault)) => Ok(Some(segment_fault(alloc, generation, info, fault)?)),
        Err(CheckFault::OutOfMemory) => Err(OutOfMemory),
    }
}

/// What is said of the segment at this place among those of the commit: nothing where it stands. Its files are in memory
/// meanwhile, and no other.
fn segment_says<D: Dir>(
    alloc: Global,
    dir: &mut D,
    generation: u64,
    place: u32,
    info: &SegInfo,
) -> Result<Option<Outcome>, DirFail>
    requires { IsLine info.now }
    ensures says { IfOk result (λ said. SegmentSays (D.files dir.old) generation place info.now said) }
    ensures files { D.files dir.new ≡ D.files dir.old }
    ensures asked { D.asked dir.new ≡ D.asked dir.old }
    ensures cause { IsCaused (D.faults dir.old) (D.faults dir.new) (IsErrOf result DirFail.Failed) }
{
    match read_segment(alloc, dir, info) {
        Ok(loaded) => Ok(judged_segment(alloc, generation, place, info, &loaded)?),
        Err(fault) => match refusal(alloc, fault) {
            Ok(outcome) => Ok(Some(outcome)),
            Err(fail) => Err(fail),
        },
    }
}

/// What is said of the first of the segments of which something is said: nothing where all stand.
fn segments_say<D: Dir>(
    alloc: Global,
    dir: &mut D,
    generation: u64,
    segments: &[SegInfo],
) -> Result<Option<Outcome>, DirFail>
    requires lines { All IsLine segments.now }
    requires count { length segments.now < 2 ^ 31 }
    ensures says { IfOk result (λ said. SegmentsSay (D.files dir.old) generation 0 segments.now said) }
    ensures files { D.files dir.new ≡ D.files dir.old }
    ensures asked { D.asked dir.new ≡ D.asked dir.old }
    ensures cause { IsCaused (D.faults dir.old) (D.faults dir.new) (IsErrOf result DirFail.Failed) }
{
    for place in 0..segments.len() {
        match segment_says(alloc, dir, generation, place as u32, &segments[place]) {
            Ok(None) => {}
            Ok(Some(outcome)) => return Ok(Some(outcome)),
            Err(fail) => return Err(fail),
        }
    }
    Ok(None)
}

/// How many documents the segments have, and how many of them are deleted.
pub fn totals(segments: &[SegInfo]) -> (u64, u64)
    requires documents { total_size segments.now < 2 ^ 31 }
    requires deleted { total_deleted segments.now < 2 ^ 31 }
    ensures documents { result.0 ≡ total_size segments.now }
    ensures deleted { result.1 ≡ total_deleted segments.now }
{
    let mut documents = 0;
    let mut deleted = 0;
    for place in 0..segments.len() {
        let info = &segments[place];
        documents += info.size as u64;
        deleted += info.deleted as u64;
    }
    (documents, deleted)
}

/// The outcome where the commit of this generation stands.
fn stands(alloc: Global, generation: u64, segments: &[SegInfo]) -> Result<Outcome, OutOfMemory>
    requires { AreLines segments.now }
    ensures { IfOk result (λ outcome. outcome ≡ stands_outcome generation segments.now) }
{
    let name = commit_text(alloc, generation)?;
    let (documents, deleted) = totals(segments);
    let text = stands_text(alloc, name.as_str(), segments.len(), documents, deleted)?;
    Ok(Outcome::without_effect(Status::Ok, text.into_bytes()))
}

/// What the commit of this generation comes to, which has these segments.
fn commit_outcome<D: Dir>(
    alloc: Global,
    dir: &mut D,
    generation: u64,
    segments: &[SegInfo],
) -> Result<Outcome, DirFail>
    requires lines { AreLines segments.now }
    requires count { length segments.now < 2 ^ 31 }
    ensures says { IfOk result (λ outcome. CommitSays (D.files dir.old) generation segments.now outcome) }
    ensures files { D.files dir.new ≡ D.files dir.old }
    ensures asked { D.asked dir.new ≡ D.asked dir.old }
    ensures cause { IsCaused (D.faults dir.old) (D.faults dir.new) (IsErrOf result DirFail.Failed) }
{
    match segments_say(alloc, dir, generation, segments) {
        Ok(Some(outcome)) => Ok(outcome),
        Ok(None) => Ok(stands(alloc, generation, segments)?),
        Err(fail) => Err(fail),
    }
}

/// What `check` comes to.
pub fn check_outcome<D: Dir>(alloc: Global, dir: &mut D) -> Result<Outcome, DirFail>
    requires { ForSome (D.files dir.old) AreMadeOfBytes }
    ensures due { IfOk result (λ outcome. CheckDue (D.files dir.old) outcome) }
    ensures files { D.files dir.new ≡ D.files dir.old }
    ensures asked { D.asked dir.new ≡ D.asked dir.old }
    ensures cause { IsCaused (D.faults dir.old) (D.faults dir.new) (IsErrOf result DirFail.Failed) }
{
    let names = match dir.list(alloc) {
        Ok(names) => names,
        Err(fail) => return Err(fail),
    };
    match newest(alloc, dir, &names) {
        Ok(chosen) => commit_outcome(
            alloc,
            dir,
            chosen.generation,
            chosen.commit.segments.as_slice(),
        ),
        Err(fault) => refusal(alloc, fault),
    }
}
