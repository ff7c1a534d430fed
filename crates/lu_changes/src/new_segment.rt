//! A new segment and its commit.
ghost use Rattle.std.specs.Prelude.{◌≡◌, ◌<◌, ◌≤◌, ◌+◌, ◌^◌, map, All, IfOk, string_bytes};
ghost use Rattle.lu_types.specs.Names.{greatest_segment, IsPart};
ghost use Rattle.segment_infos.specs.LuceneNames.{IsGenerationNumber};
ghost use Rattle.segment_infos.specs.Values.{IsCommit};
ghost use Rattle.lu_changes.specs.Basis.{basis_value};
ghost use Rattle.lu_changes.specs.Building.{AreProgramOptions, AreProgramLimits, sourced as sourced_pairs, sourced_line as line_of_segment, new_file as file_of_segment, with_line as commit_with_line, segment_outcome, no_segment_outcome, segment_text as text_of_segment, no_segment_text as text_without_segment};

use crate::basis::{Basis, change_of, raised};
use lu_folder::{Change, NewFile};
use lu_outcomes::outcome::{Effect, Outcome};
use lu_outcomes::status::Status;
use lu_prims::OutOfMemory;
use lu_types::{Bytes, Items, Limits, NamedFile, Text, segment_name};
use segment_files::{SegmentFiles, WriteOptions};
use segment_infos::{Commit, LuceneName, MapPair, MapPairs, SegInfo, name_text};
use std::alloc::Global;

/// The options of the program for the segment with this number, compound or not.
pub fn options_for(number: u32, compound: bool) -> WriteOptions
    requires { number ≤ greatest_segment }
    ensures { AreProgramOptions result number compound }
{
    WriteOptions {
        number,
        index_interval: 128,
        skip_interval: 16,
        max_levels: 10,
        compound,
        limits: Limits::program(),
    }
}

/// What the line of a new segment says of where it comes from.
fn sourced(alloc: Global, source: &str) -> Result<MapPairs, OutOfMemory>
    ensures { IfOk result (λ pairs. pairs ≡ sourced_pairs source.now) }
{
    let key = Text::from_str(alloc, "source")?;
    let value = Text::from_str(alloc, source)?;
    let mut pairs = Vec::new(alloc);
    pairs.push(MapPair { key, value })?;
    Ok(Items::new(pairs))
}

/// The line of a new segment that comes from there, with this number and these files.
fn new_line(
    alloc: Global,
    source: &str,
    number: u32,
    files: &SegmentFiles,
) -> Result<SegInfo, OutOfMemory>
    ensures { IfOk result (λ line. line ≡ line_of_segment source.now number files.now) }
{
    let diagnostics = sourced(alloc, source)?;
    Ok(SegInfo {
        number,
        size: files.size,
        del_gen: None,
        store: None,
        norm_gens: None,
        compound: files.compound,
        deleted: 0,
        has_prox: files.has_prox,
        diagnostics,
    })
}

/// A file of the segment with this number, under its name.
fn new_file(alloc: Global, number: u32, file: NamedFile) -> Result<NewFile, OutOfMemory>
    requires number { number ≤ greatest_segment }
    requires part { IsPart file.kind }
    ensures { IfOk result (λ new. new ≡ file_of_segment number file) }
{
    let name = name_text(alloc, &LuceneName::Part(number, file.kind))?;
    Ok(NewFile {
        name: Text::new(name),
        bytes: file.bytes,
    })
}

/// The files of the segment with this number, under their names.
fn new_files(alloc: Global, number: u32, files: Vec<NamedFile>) -> Result<Vec<NewFile>, OutOfMemory>
    requires number { number ≤ greatest_segment }
    requires parts { All (λ file. IsPart file.kind) files.items }
    ensures { IfOk result (λ new. new.items ≡ map (file_of_segment number) files.items) }
{
    let mut new = Vec::new(alloc);
    for file in files {
        new.push(new_file(alloc, number, file)?)?;
    }
    Ok(new)
}

/// The commit with its version raised, and this segment behind the others.
fn with_line(before: Commit, line: SegInfo) -> Result<Commit, OutOfMemory>
    requires { IsCommit (commit_with_line line before) }
    ensures { IfOk result (λ commit. commit ≡ commit_with_line line before) }
{
    let number = line.number;
    let version = before.version;
    let mut segments = before.segments.into_vec();
    segments.push(line)?;
    Ok(Commit {
        version: version + 1,
        counter: number + 1,
        segments: Items::new(segments),
        user: before.user,
    })
}

/// The line of a commit with a new segment.
fn segment_text(
    alloc: Global,
    generation: u64,
    number: u32,
    size: u32,
) -> Result<String, OutOfMemory>
    ensures { IfOk result (λ text. string_bytes text ≡ text_of_segment generation number size) }
{
    let name = segment_name(alloc, number)?;
    let text = format!(in alloc; "commit {generation}: {name} with {size} documents\n")?;
    Ok(text)
}

/// The line of a commit without a new segment.
fn no_segment_text(alloc: Global, generation: u64) -> Result<String, OutOfMemory>
    ensures { IfOk result (λ text. string_bytes text ≡ text_without_segment generation) }
{
    let text = format!(in alloc; "commit {generation}: no segment\n")?;
    Ok(text)
}

/// The outcome of a command that makes a commit.
pub fn made(text: String, change: Change) -> Outcome
    ensures { result ≡ record { status = Status.Ok; text = string_bytes text; effect = Effect.Commit change } }
{
    Outcome {
        status: Status::Ok,
        text: Bytes::new(text.into_bytes()),
        effect: Effect::Commit(change),
    }
}

/// The outcome of a new segment that comes from there, with this number and these files.
pub fn segment_made(
    alloc: Global,
    basis: Basis<'_>,
    source: &str,
    number: u32,
    files: SegmentFiles,
) -> Result<Outcome, OutOfMemory>
    requires generation { IsGenerationNumber basis.generation }
    requires number { number ≤ greatest_segment }
    requires parts { All (λ file. IsPart file.kind) files.files }
    requires commit { IsCommit (commit_with_line (line_of_segment source.now number files) basis.before) }
    ensures { IfOk result (λ outcome. outcome ≡ segment_outcome (basis_value basis.entry) source.now number files) }
{
    let text = segment_text(alloc, basis.generation, number, files.size)?;
    let line = new_line(alloc, source, number, &files)?;
    let commit = with_line(basis.before, line)?;
    let new = new_files(alloc, number, files.files.into_vec())?;
    let change = change_of(alloc, basis.names, basis.generation, commit, new)?;
    Ok(made(text, change))
}

/// The outcome where there is no document: a commit without a new segment.
pub fn no_segment(alloc: Global, basis: Basis<'_>) -> Result<Outcome, OutOfMemory>
    requires generation { IsGenerationNumber basis.generation }
    requires version { basis.before.version + 1 < 2 ^ 63 }
    ensures { IfOk result (λ outcome. outcome ≡ no_segment_outcome (basis_value basis.entry)) }
{
    let text = no_segment_text(alloc, basis.generation)?;
    let commit = raised(basis.before);
    let change = change_of(
        alloc,
        basis.names,
        basis.generation,
        commit,
        Vec::new(alloc),
    )?;
    Ok(made(text, change))
}
