//! What a commit is to make of a folder, and the calls that make it.
ghost use Rattle.std.specs.Prelude.{◌≡◌, ◌≤◌, length, option_map, IfOk, OnOk, OnErr, IsErrOf, Ok, None};
ghost use Rattle.std.specs.Option.{ForSome};
ghost use Rattle.lu_dir.specs.Faults.{IsCaused};
ghost use Rattle.lu_dir.specs.Files.{Leaves};
ghost use Rattle.lu_dir.specs.Loading.{texts};
ghost use Rattle.segment_infos.specs.LuceneNames.{IsGenerationNumber};
ghost use Rattle.segment_infos.specs.Spelling.{commit_bytes};
ghost use Rattle.segment_infos.specs.Values.{IsCommit};
ghost use Rattle.lu_folder.specs.Writing.{with_new_files};
ghost use Rattle.lu_folder.specs.Sealing.{HasFailed};
ghost use Rattle.lu_folder.specs.Changes.{pending_file, written, committed, IsUnmade, IsMade, IsStopped};
ghost use Rattle.lu_folder.specs.Keeping.{IsFreshChange, Keeps};

use crate::new_file::NewFile;
use crate::putting::{put_file, put_files};
use crate::sealing::seal;
use crate::sweeping::sweep;
use lu_dir::{Dir, DirFail};
use lu_prims::OutOfMemory;
use lu_types::{Bytes, Text};
use segment_infos::{Commit, LuceneName, name_text, write, write_pending};
use std::alloc::Global;
use std::marker::Model;

/// What a commit is to make of a folder, seen as its new files, its generation, what it says, and the names that it leaves
/// without use. All memory that the commit needs of its own is taken when this is made.
#[derive(Drop)]
pub struct Change {
    files: Vec<NewFile>,
    generation: u64,
    commit: Commit,
    pending: NewFile,
    bytes: Bytes,
    removable: Vec<String>,
}

impl Model for Change {
    ghost use Rattle.std.specs.Prelude.{◌≡◌};
    ghost use Rattle.lu_dir.specs.Loading.{texts};
    ghost use Rattle.segment_infos.specs.Spelling.{commit_bytes, pending as pending_form};
    ghost use Rattle.segment_infos.specs.LuceneNames.{IsGenerationNumber};
    ghost use Rattle.segment_infos.specs.Values.{IsCommit};
    ghost use Rattle.lu_folder.specs.ChangeValues.{ChangeValue, commit_name};

    ghost Value = { ChangeValue };

    ghost view = { λ c. record {
      files = c.files.items;
      generation = c.generation;
      commit = c.commit;
      removable = texts c.removable.items;
    } };

    ghost invariant = { λ c. (c.pending.name ≡ commit_name c.generation)
        × (c.pending.bytes ≡ pending_form (commit_bytes c.commit)) × (c.bytes ≡ commit_bytes c.commit)
        × IsGenerationNumber c.generation × IsCommit c.commit };
}

impl Change {
    /// The change of a folder that makes these files and a commit of this generation that says this, and then removes these
    /// names. An `Err` is want of memory.
    pub fn new(
        alloc: Global,
        files: Vec<NewFile>,
        generation: u64,
        commit: Commit,
        removable: Vec<String>,
    ) -> Result<Change, OutOfMemory>
        requires { IsGenerationNumber generation }
        ensures { IfOk result (λ change. change
            ≡ record { files = files.items; generation = generation; commit = commit; removable = texts removable.items }) }
    {
        let name = name_text(alloc, &LuceneName::Commit(generation))?;
        let pending = write_pending(alloc, &commit)?;
        let bytes = write(alloc, &commit)?;
        Ok(Change {
            files,
            generation,
            commit,
            pending: NewFile {
                name: Text::new(name),
                bytes: Bytes::new(pending),
            },
            bytes: Bytes::new(bytes),
            removable,
        })
    }

    fn files(&self) -> &[NewFile]
        ensures { result.now ≡ self.now.files }
    {
        self.files.as_slice()
    }

    /// The commit's own file in its pending form.
    fn pending(&self) -> &NewFile
        ensures { result.now ≡ pending_file self.now }
    {
        &self.pending
    }

    /// The commit is one, and so is its generation.
    fn hold_commit(&self)
        ensures generation { IsGenerationNumber self.now.generation }
        ensures commit { IsCommit self.now.commit }
    {
        let _ = &self.commit;
    }

    /// The final bytes of the commit's own file.
    fn bytes(&self) -> &[u8]
        ensures { result.now ≡ commit_bytes self.now.commit }
    {
        self.bytes.as_slice()
    }

    fn removable(&self) -> &[String]
        ensures { texts result.now ≡ self.now.removable }
    {
        self.removable.as_slice()
    }
}

/// Writes the new files and the commit's own file in its pending form.
fn write_all<D: Dir>(alloc: Global, dir: &mut D, change: &Change) -> Result<(), DirFail>
    ensures written { OnOk result (D.files dir.new ≡ option_map (with_new_files (written change.now)) (D.files dir.old)) }
    ensures left { OnErr result (Leaves (IsUnmade change.now) (D.files dir.old) (D.files dir.new)) }
    ensures asked { D.asked dir.new ≡ D.asked dir.old }
    ensures cause { IsCaused (D.faults dir.old) (D.faults dir.new) (IsErrOf result DirFail.Failed) }
{
    match put_files(alloc, dir, change.files()) {
        Ok(()) => {}
        Err(fail) => return Err(fail),
    }
    match put_file(alloc, dir, change.pending()) {
        Ok(()) => Ok(()),
        Err(fail) => Err(fail),
    }
}

/// Makes a commit, and says what each answer leaves of the files.
fn make<D: Dir>(alloc: Global, dir: &mut D, change: &Change) -> Result<Option<DirFail>, DirFail>
    ensures made { result ≡ Ok None → D.files dir.new ≡ option_map (committed change.now) (D.files dir.old) }
    ensures behind { OnOk result (Leaves (IsMade change.now) (D.files dir.old) (D.files dir.new)) }
    ensures stopped { OnErr result (Leaves (IsStopped change.now) (D.files dir.old) (D.files dir.new)) }
    ensures asked { D.asked dir.new ≡ D.asked dir.old }
    ensures cause { IsCaused (D.faults dir.old) (D.faults dir.new) (HasFailed result) }
{
    match write_all(alloc, dir, change) {
        Ok(()) => {}
        Err(fail) => return Err(fail),
    }
    match seal(alloc, dir, change.pending().name.as_str(), change.bytes()) {
        Ok(None) => {}
        Ok(Some(fail)) => return Ok(Some(fail)),
        Err(fail) => return Err(fail),
    }
    match sweep(alloc, dir, change.removable()) {
        Ok(()) => Ok(None),
        Err(fail) => Ok(Some(fail)),
    }
}

/// Makes a commit: writes the new files and the pending commit, seals it, and removes what is left without use.
///
/// After `Ok(None)` the folder is exactly the one after the commit. After `Ok(Some(f))` the commit is made, and names
/// without use may be left: `f` is what the last wait or a removal answered. After an `Err` nothing is removed, and the
/// commit is made whole or not at all.
///
/// Where the numbers of the change are new in the folder, no failure loses anything: the folder reads as before, or as
/// the new commit.
pub fn commit<D: Dir>(
    alloc: Global,
    dir: &mut D,
    change: &Change,
) -> Result<Option<DirFail>, DirFail>
    ensures made { result ≡ Ok None → D.files dir.new ≡ option_map (committed change.now) (D.files dir.old) }
    ensures behind { OnOk result (Leaves (IsMade change.now) (D.files dir.old) (D.files dir.new)) }
    ensures stopped { OnErr result (Leaves (IsStopped change.now) (D.files dir.old) (D.files dir.new)) }
    ensures safe { ForSome (D.files dir.old) (λ told. IsFreshChange change.now told)
        → Leaves (λ old new. Keeps change.now result old new) (D.files dir.old) (D.files dir.new) }
    ensures asked { D.asked dir.new ≡ D.asked dir.old }
    ensures cause { IsCaused (D.faults dir.old) (D.faults dir.new) (HasFailed result) }
{
    change.hold_commit();
    make(alloc, dir, change)
}
