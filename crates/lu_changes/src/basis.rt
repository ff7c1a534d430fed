//! What a new commit is built on, and the change that makes it.
ghost use Rattle.std.specs.Prelude.{◌≡◌, ◌<◌, ◌+◌, ◌^◌, IfOk, map, string_bytes};
ghost use Rattle.lu_dir.specs.Loading.{texts};
ghost use Rattle.segment_infos.specs.LuceneNames.{IsGenerationNumber};
ghost use Rattle.segment_infos.specs.Values.{IsCommit};
ghost use Rattle.lu_changes.specs.Building.{empty_commit as commit_without_segments, raised as raised_commit, change_on};
ghost use Rattle.lu_changes.specs.Merging.{emptied as emptied_commit};

use lu_folder::{Change, NewFile};
use lu_prims::OutOfMemory;
use lu_types::Items;
use segment_infos::{Commit, removable};
use std::alloc::Global;

/// The names of the folder, in order, and whether the new segment is packed.
#[derive(Clone, Copy)]
pub struct Setting<'a> {
    pub names: &'a [String],
    pub compound: bool,
}

/// What a new commit is built on: the names of the folder; the commit that is current; the generation of the next
/// one; and whether its new segment is packed.
#[derive(Drop)]
pub struct Basis<'a> {
    pub names: &'a [String],
    pub before: Commit,
    pub generation: u64,
    pub compound: bool,
}

/// The commit of a folder without any.
pub fn empty_commit(alloc: Global) -> Commit
    ensures { result ≡ commit_without_segments }
{
    Commit {
        version: 0,
        counter: 0,
        segments: Items::new(Vec::new(alloc)),
        user: Items::new(Vec::new(alloc)),
    }
}

/// The commit without its segments.
pub fn emptied(alloc: Global, before: Commit) -> Commit
    ensures { result ≡ emptied_commit before }
{
    Commit {
        version: before.version,
        counter: before.counter,
        segments: Items::new(Vec::new(alloc)),
        user: before.user,
    }
}

/// What is held as a commit is one that a file can say.
pub fn hold_commit(commit: &Commit)
    ensures { IsCommit commit.now }
{
    let _ = &commit.version;
}

/// The commit with its version raised.
pub fn raised(before: Commit) -> Commit
    requires { before.version + 1 < 2 ^ 63 }
    ensures { result ≡ raised_commit before }
{
    Commit {
        version: before.version + 1,
        counter: before.counter,
        segments: before.segments,
        user: before.user,
    }
}

/// The change that makes this commit of this generation in a folder with these names: it removes the names that the commit
/// leaves without use.
pub fn change_of(
    alloc: Global,
    names: &[String],
    generation: u64,
    commit: Commit,
    files: Vec<NewFile>,
) -> Result<Change, OutOfMemory>
    requires { IsGenerationNumber generation }
    ensures { IfOk result (λ change. change ≡ change_on (texts names.now) generation commit files.items) }
{
    let unused = removable(alloc, names, &commit, generation)?;
    Change::new(alloc, files, generation, commit, unused)
}
