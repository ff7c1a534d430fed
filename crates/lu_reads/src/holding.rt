//! The segments of a commit in memory: the files of each, and what they stand for.
ghost use Rattle.std.specs.Prelude.{◌≡◌, ◌<◌, ◌^◌, ℕ, List, Option, length, All, Some, IfOk, IfErr, IsErrOf, MatchResult};
ghost use Rattle.lu_dir.specs.Files.{Files};
ghost use Rattle.lu_dir.specs.Faults.{IsCaused};
ghost use Rattle.lu_types.specs.FilePlans.{StandFor};
ghost use Rattle.segment_infos.specs.Values.{IsLine};
ghost use Rattle.check_index.specs.Segments.{segment_files};
ghost use Rattle.lu_reads.specs.Finding.{folder_files};
ghost use Rattle.lu_reads.specs.Checking.{JudgedSays, SegmentsSay};
ghost use Rattle.lu_reads.specs.Holding.{IsHeld, IsHeldOf, IsTooLarge, AreHeldOf};
ghost use Rattle.lu_outcomes.specs.Outcomes.{too_large_outcome};
ghost use Rattle.lu_reads.specs.Segments.{AreReadAs};
ghost use Rattle.lu_reads.specs.Stopping.{StopSays};

use crate::checking::segment_fault;
use crate::finding::found_parts;
use crate::reading::too_large;
use crate::stopping::Stop;
use check_index::{CheckFault, Standing, check_segment};
use lu_dir::{Dir, DirFail, Loaded};
use lu_folder::{FolderFault, read_segment};
use lu_types::FileKind;
use segment_infos::SegInfo;
use std::alloc::Global;

/// A segment of a commit: its line there, and in memory the files that are read for it.
#[derive(Drop)]
pub struct Held<'a> {
    pub line: &'a SegInfo,
    pub files: Loaded,
}

/// The segments of a commit in memory: all of them; or those before the first of which a file is too long, and the kind of
/// that file.
#[derive(Drop)]
pub struct HeldSegments<'a> {
    pub held: Vec<Held<'a>>,
    pub too_large: Option<FileKind>,
}

/// A segment in memory, or the kind of the first of its files that is too long.
fn held_segment<'a, D: Dir>(
    alloc: Global,
    dir: &mut D,
    line: &'a SegInfo,
) -> Result<Result<Held<'a>, FileKind>, DirFail>
    requires { IsLine line.now }
    ensures held { IfOk result (λ found. MatchResult found (λ held. IsHeldOf (D.files dir.old) line.now held)
        (λ kind. IsTooLarge (D.files dir.old) line.now (Some kind))) }
    ensures files { D.files dir.new ≡ D.files dir.old }
    ensures asked { D.asked dir.new ≡ D.asked dir.old }
    ensures cause { IsCaused (D.faults dir.old) (D.faults dir.new) (IsErrOf result DirFail.Failed) }
{
    match read_segment(alloc, dir, line) {
        Ok(files) => Ok(Ok(Held { line, files })),
        Err(FolderFault::FileTooLarge(kind)) => Ok(Err(kind)),
        Err(FolderFault::Failed) => Err(DirFail::Failed),
        Err(FolderFault::OutOfMemory) => Err(DirFail::OutOfMemory),
        Err(FolderFault::NoIndex) => unreachable!(),
        Err(FolderFault::NotStanding(_, _)) => unreachable!(),
    }
}

/// The segments of a commit in memory, in order, up to the first of which a file is too long.
pub fn held_segments<'a, D: Dir>(
    alloc: Global,
    dir: &mut D,
    segments: &'a [SegInfo],
) -> Result<HeldSegments<'a>, DirFail>
    requires { All IsLine segments.now }
    ensures held { IfOk result (λ all. AreHeldOf (D.files dir.old) segments.now all.held.items all.too_large) }
    ensures files { D.files dir.new ≡ D.files dir.old }
    ensures asked { D.asked dir.new ≡ D.asked dir.old }
    ensures cause { IsCaused (D.faults dir.old) (D.faults dir.new) (IsErrOf result DirFail.Failed) }
{
    let mut held = Vec::new(alloc);
    for place in 0..segments.len() {
        match held_segment(alloc, dir, &segments[place]) {
            Ok(Ok(segment)) => match held.push(segment) {
                Ok(()) => {}
                Err(_) => return Err(DirFail::OutOfMemory),
            },
            Ok(Err(kind)) => {
                return Ok(HeldSegments {
                    held,
                    too_large: Some(kind),
                });
            }
            Err(fail) => return Err(fail),
        }
    }
    Ok(HeldSegments {
        held,
        too_large: None,
    })
}

/// What the files of a segment stand for, which has this place among those of the commit of this generation.
fn standing_segment<'a>(
    alloc: Global,
    generation: u64,
    place: u32,
    held: &'a Held<'_>,
) -> Result<Standing<'a>, Stop>
    requires { IsHeld held.now }
    ensures stands { IfOk result (λ x. StandFor (segment_files (folder_files held.now.line.now held.now.files.found) held.now.line.now) x) }
    ensures said { IfErr result (StopSays (λ outcome. JudgedSays held.now.files.found generation place held.now.line.now (Some outcome))) }
    ensures failed { ¬ IsErrOf result (Stop.Failed DirFail.Failed) }
{
    let parts = found_parts(alloc, &held.files, held.line)?;
    match check_segment(alloc, parts, place, held.line) {
        Ok(standing) => Ok(standing),
        Err(CheckFault::Fault(fault)) => {
            let outcome = segment_fault(alloc, generation, held.line, fault)?;
            Err(Stop::Said(outcome))
        }
        Err(CheckFault::OutOfMemory) => Err(Stop::Failed(DirFail::OutOfMemory)),
    }
}

/// Why a command stops at a segment of which the first file that is too long is of this kind.
fn stopped_at_large(alloc: Global, kind: FileKind) -> Stop
    ensures said { StopSays (λ outcome. outcome ≡ too_large_outcome kind) result }
    ensures failed { ¬ (result ≡ Stop.Failed DirFail.Failed) }
{
    match too_large(alloc, kind) {
        Ok(outcome) => Stop::Said(outcome),
        Err(_) => Stop::Failed(DirFail::OutOfMemory),
    }
}

/// What the segments in memory stand for, in order, where all of the commit of this generation stand. Each is checked once.
pub fn standing_segments<'a>(
    alloc: Global,
    generation: u64,
    segments: &'a HeldSegments<'_>,
) -> Result<Vec<Standing<'a>>, Stop>
    requires held { All IsHeld segments.now.held.items }
    requires count { length segments.now.held.items < 2 ^ 31 }
    ensures stand { (files : Option Files) (lines : List SegInfo) → AreHeldOf files lines segments.now.held.items segments.now.too_large
        → IfOk result (λ all. AreReadAs files lines all.items) }
    ensures said { (files : Option Files) (lines : List SegInfo) → AreHeldOf files lines segments.now.held.items segments.now.too_large
        → IfErr result (StopSays (λ outcome. SegmentsSay files generation 0 lines (Some outcome))) }
    ensures failed { ¬ IsErrOf result (Stop.Failed DirFail.Failed) }
{
    let held = segments.held.as_slice();
    let mut all = Vec::new(alloc);
    for place in 0..held.len() {
        let standing = match standing_segment(alloc, generation, place as u32, &held[place]) {
            Ok(standing) => standing,
            Err(stop) => return Err(stop),
        };
        match all.push(standing) {
            Ok(()) => {}
            Err(_) => return Err(Stop::Failed(DirFail::OutOfMemory)),
        }
    }
    match segments.too_large {
        None => Ok(all),
        Some(kind) => Err(stopped_at_large(alloc, kind)),
    }
}
