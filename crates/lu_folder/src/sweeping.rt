//! Files that no commit needs any more.
ghost use Rattle.std.specs.Prelude.{◌≡◌, ◌⊎◌, option_map, OnOk, IsErrOf, Ok, Err};
ghost use Rattle.lu_dir.specs.Faults.{IsCaused};
ghost use Rattle.lu_dir.specs.Files.{Leaves};
ghost use Rattle.lu_dir.specs.Loading.{texts};
ghost use Rattle.lu_folder.specs.Sweeping.{without_files, RemovesOnly};

use lu_dir::{Dir, DirFail};
use std::alloc::Global;

/// Which of two answers of a removal counts: want of memory, or else a failure.
fn worse(one: Result<(), DirFail>, other: Result<(), DirFail>) -> Result<(), DirFail>
    ensures ok { OnOk result ((one ≡ Ok tt) × (other ≡ Ok tt)) }
    ensures failed { IsErrOf result DirFail.Failed
        → (one ≡ Err DirFail.Failed) ⊎ (other ≡ Err DirFail.Failed) }
    ensures memory { IsErrOf result DirFail.OutOfMemory
        → (one ≡ Err DirFail.OutOfMemory) ⊎ (other ≡ Err DirFail.OutOfMemory) }
{
    match (one, other) {
        (Ok(()), other) => other,
        (Err(DirFail::OutOfMemory), _) => Err(DirFail::OutOfMemory),
        (Err(DirFail::Failed), Err(DirFail::OutOfMemory)) => Err(DirFail::OutOfMemory),
        (Err(DirFail::Failed), _) => Err(DirFail::Failed),
    }
}

/// Removes the named files, in order, and goes on after a failure. It answers `OutOfMemory` where a removal did, else
/// `Failed` where one did. After `Ok` none of them is there; whatever it answers, each file is as before, or is one of these
/// and gone.
pub fn sweep<D: Dir>(alloc: Global, dir: &mut D, names: &[String]) -> Result<(), DirFail>
    ensures removed { OnOk result
        (D.files dir.new ≡ option_map (without_files (texts names.now)) (D.files dir.old)) }
    ensures left { Leaves (RemovesOnly (texts names.now)) (D.files dir.old) (D.files dir.new) }
    ensures asked { D.asked dir.new ≡ D.asked dir.old }
    ensures cause { IsCaused (D.faults dir.old) (D.faults dir.new) (IsErrOf result DirFail.Failed) }
{
    let mut answer = Ok(());
    for name in names {
        answer = worse(answer, dir.remove(alloc, name.as_str()));
    }
    answer
}
