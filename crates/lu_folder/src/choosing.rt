//! Which commit of a folder counts.
ghost use Rattle.std.specs.Prelude.{◌≡◌, [], ◌∷◌, All, IfOk, IfErr, IsErrOf, IsPermutation, Err};
ghost use Rattle.std.specs.Option.{ForSome, option_copied};
ghost use Rattle.std.specs.FinMap.{keys};
ghost use Rattle.lu_dir.specs.Faults.{IsCaused};
ghost use Rattle.lu_dir.specs.Loading.{texts};
ghost use Rattle.segment_infos.specs.Generations.{listed_generations};
ghost use Rattle.segment_infos.specs.LuceneNames.{IsGenerationNumber};
ghost use Rattle.lu_folder.specs.ChangeValues.{commit_name};
ghost use Rattle.lu_folder.specs.Choosing.{AnswersCurrent, AnswersNewest, IsNoIndex};
ghost use Rattle.lu_folder.specs.Looking.{CommitTells, Looks, IsLookFault, Walks, folder_fault_of, first_commit_fault};

use crate::fault::FolderFault;
use lu_dir::{Dir, LoadFault, load};
use lu_prims::OutOfMemory;
use lu_types::rules::MISSING;
use lu_types::{CodecFault, Fault, FileKind, Spot};
use segment_infos::{Commit, LuceneName, generations, name_text, read};
use std::alloc::Global;

/// The most bytes of a file that is read.
pub(crate) const FILE_LIMIT: u64 = (1 << 31) - 1;

/// A commit of a folder, with its generation.
#[derive(Drop)]
pub struct Chosen {
    pub generation: u64,
    pub commit: Commit,
}

/// What the file of a commit tells.
#[derive(Drop)]
enum Look {
    /// It is good, and says this.
    Good(Commit),
    /// It is not, and this is its first fault.
    Faulty(Spot),
}

/// The fault of a call that loads files of which the first that is too large has this kind.
pub(crate) fn folder_fault(fault: LoadFault, kind: FileKind) -> FolderFault
    ensures { result ≡ folder_fault_of fault kind }
{
    match fault {
        LoadFault::Failed => FolderFault::Failed,
        LoadFault::TooLarge(_) => FolderFault::FileTooLarge(kind),
        LoadFault::OutOfMemory => FolderFault::OutOfMemory,
    }
}

/// What the bytes of a commit's file tell, where it was found.
fn judged(alloc: Global, found: Option<&[u8]>) -> Result<Look, FolderFault>
    ensures told { IfOk result (CommitTells (option_copied found.entry)) }
    ensures memory { (fault : FolderFault) → result ≡ Err fault → fault ≡ FolderFault.OutOfMemory }
{
    let Some(bytes) = found else {
        return Ok(Look::Faulty(Spot::at(FileKind::Commit, 0, MISSING)));
    };
    match read(alloc, bytes) {
        Ok(commit) => Ok(Look::Good(commit)),
        Err(CodecFault::Spot(spot)) => Ok(Look::Faulty(spot)),
        Err(CodecFault::OutOfMemory) => Err(FolderFault::OutOfMemory),
    }
}

/// The name of the commit of this generation, alone.
fn commit_names(alloc: Global, generation: u64) -> Result<Vec<String>, OutOfMemory>
    requires { IsGenerationNumber generation }
    ensures { IfOk result (λ names. texts names.items ≡ commit_name generation ∷ []) }
{
    let name = name_text(alloc, &LuceneName::Commit(generation))?;
    Ok(vec![in alloc; name]?)
}

/// What the commit of this generation tells. Its file is in memory meanwhile, and no other.
fn look_at<D: Dir>(alloc: Global, dir: &mut D, generation: u64) -> Result<Look, FolderFault>
    requires { IsGenerationNumber generation }
    ensures told { ForSome (D.files dir.old) (λ told. Looks told generation result) }
    ensures fault { IfErr result IsLookFault }
    ensures files { D.files dir.new ≡ D.files dir.old }
    ensures asked { D.asked dir.new ≡ D.asked dir.old }
    ensures cause { IsCaused (D.faults dir.old) (D.faults dir.new) (IsErrOf result FolderFault.Failed) }
{
    let names = commit_names(alloc, generation)?;
    let loaded = match load(alloc, dir, &names, FILE_LIMIT) {
        Ok(loaded) => loaded,
        Err(fault) => return Err(folder_fault(fault, FileKind::Commit)),
    };
    judged(alloc, loaded.at(0))
}

/// The first good commit of these generations; else the fault of the first one.
fn first_good<D: Dir>(
    alloc: Global,
    dir: &mut D,
    generations: &[u64],
) -> Result<Chosen, FolderFault>
    requires { All IsGenerationNumber generations.now }
    ensures told { ForSome (D.files dir.old) (λ told. Walks told generations.now result) }
    ensures empty { IsNoIndex result generations.now }
    ensures files { D.files dir.new ≡ D.files dir.old }
    ensures asked { D.asked dir.new ≡ D.asked dir.old }
    ensures cause { IsCaused (D.faults dir.old) (D.faults dir.new) (IsErrOf result FolderFault.Failed) }
{
    let mut first = None;
    for generation in generations {
        match look_at(alloc, dir, *generation) {
            Err(fault) => return Err(fault),
            Ok(Look::Good(commit)) => {
                return Ok(Chosen {
                    generation: *generation,
                    commit,
                });
            }
            Ok(Look::Faulty(spot)) => first = first_of(first, *generation, spot),
        }
    }
    match first {
        None => Err(FolderFault::NoIndex),
        Some((generation, spot)) => {
            Err(FolderFault::NotStanding(generation, Fault { segment: 0, spot }))
        }
    }
}

/// The first of two faults, where there is one before.
fn first_of(first: Option<(u64, Spot)>, generation: u64, spot: Spot) -> Option<(u64, Spot)>
    ensures { result ≡ first_commit_fault first (generation, spot) }
{
    match first {
        None => Some((generation, spot)),
        Some(fault) => Some(fault),
    }
}

/// The current commit of a folder with these names: the one of the greatest generation that is good, from the greatest down.
///
/// `NoIndex` comes exactly where no name is that of a commit. `FileTooLarge` comes exactly where a file of more than 2^31 - 1
/// bytes comes before any good commit. `NotStanding` comes exactly where there are commits, none is too large and none good: it
/// has the greatest generation, and the fault of its file. `Failed` comes only where the count of faults rose. One file is in
/// memory at a time.
pub fn current<D: Dir>(alloc: Global, dir: &mut D, names: &[String]) -> Result<Chosen, FolderFault>
    requires { ForSome (D.files dir.old) (λ told. IsPermutation (keys told) (texts names.now)) }
    ensures told { ForSome (D.files dir.old) (λ told. AnswersCurrent told result) }
    ensures empty { IsNoIndex result (listed_generations (texts names.now)) }
    ensures files { D.files dir.new ≡ D.files dir.old }
    ensures asked { D.asked dir.new ≡ D.asked dir.old }
    ensures cause { IsCaused (D.faults dir.old) (D.faults dir.new) (IsErrOf result FolderFault.Failed) }
{
    let found = generations(alloc, names)?;
    first_good(alloc, dir, &found)
}

/// The commit of the greatest generation of a folder with these names, which has to be good.
///
/// `NoIndex` comes exactly where no name is that of a commit, `FileTooLarge` exactly where its file has more than 2^31 - 1
/// bytes, and `NotStanding` exactly where it is not good. `Failed` comes only where the count of faults rose.
pub fn newest<D: Dir>(alloc: Global, dir: &mut D, names: &[String]) -> Result<Chosen, FolderFault>
    requires { ForSome (D.files dir.old) (λ told. IsPermutation (keys told) (texts names.now)) }
    ensures told { ForSome (D.files dir.old) (λ told. AnswersNewest told result) }
    ensures empty { IsNoIndex result (listed_generations (texts names.now)) }
    ensures files { D.files dir.new ≡ D.files dir.old }
    ensures asked { D.asked dir.new ≡ D.asked dir.old }
    ensures cause { IsCaused (D.faults dir.old) (D.faults dir.new) (IsErrOf result FolderFault.Failed) }
{
    let found = generations(alloc, names)?;
    first_good(alloc, dir, &found[..found.len().min(1)])
}
