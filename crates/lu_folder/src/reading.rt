//! The files of a segment that are read.
ghost use Rattle.std.specs.Prelude.{◌≡◌, ◌++◌, ℕ, length, map, All, IfOk, OnOk, IsErrOf, Some, None};
ghost use Rattle.std.specs.Option.{ForSome};
ghost use Rattle.lu_types.specs.declared.fault.Fault.{Fault};
ghost use Rattle.lu_dir.specs.Faults.{IsCaused};
ghost use Rattle.lu_dir.specs.Files.{contents};
ghost use Rattle.lu_dir.specs.Loading.{texts, IsLoadable};
ghost use Rattle.segment_infos.specs.LuceneNames.{IsName, name_spelling};
ghost use Rattle.segment_infos.specs.Values.{IsLine};
ghost use Rattle.lu_folder.specs.Limits.{file_limit};
ghost use Rattle.lu_folder.specs.Reading.{own_part as own_part_of, packed_store as packed_store_of, document_part as document_part_of, holder as holder_of, parts_read, read_names as names_read, kind_of_name as kind_named, first_too_large};

use crate::choosing::FILE_LIMIT;
use crate::fault::FolderFault;
use lu_dir::{Dir, LoadFault, Loaded, load};
use lu_prims::OutOfMemory;
use lu_types::{FRONT_KINDS, FileKind, SharedStore, VECTOR_KINDS};
use segment_infos::{LuceneName, SegInfo, name_text, push_del_names, push_norm_names};
use std::alloc::Global;

/// The number of a segment that has its own parts outside a compound file.
fn own_part(info: &SegInfo) -> Option<u32>
    ensures { result ≡ own_part_of info.now }
{
    if info.compound {
        None
    } else {
        Some(info.number)
    }
}

/// The number of a shared store that is compound.
fn packed_store(store: &Option<SharedStore>) -> Option<u32>
    ensures { result ≡ packed_store_of store.now }
{
    match store {
        None => None,
        Some(store) => {
            if store.compound {
                Some(store.number)
            } else {
                None
            }
        }
    }
}

/// The number of the segment or the store that has the files of documents outside a compound file.
fn document_part(info: &SegInfo) -> Option<u32>
    ensures { result ≡ document_part_of info.now.store (own_part_of info.now) }
{
    match &info.store {
        None => own_part(info),
        Some(store) => {
            if store.compound {
                None
            } else {
                Some(store.number)
            }
        }
    }
}

/// The number of the segment or the store whose file of this kind is read for the segment.
fn holder(info: &SegInfo, kind: FileKind) -> Option<u32>
    ensures { result ≡ holder_of info.now kind }
{
    match kind {
        FileKind::Commit | FileKind::Sep(_) | FileKind::Del => None,
        FileKind::Cfs => {
            if info.compound {
                Some(info.number)
            } else {
                None
            }
        }
        FileKind::Cfx => packed_store(&info.store),
        FileKind::Prx => { if info.has_prox { own_part(info) } else { None } }
        FileKind::Fdx | FileKind::Fdt | FileKind::Tvx | FileKind::Tvd | FileKind::Tvf => {
            document_part(info)
        }
        _ => own_part(info),
    }
}

/// Adds the parts of these kinds that are read for a segment.
fn push_parts(
    names: &mut Vec<LuceneName>,
    info: &SegInfo,
    kinds: &[FileKind],
) -> Result<(), OutOfMemory>
    ensures { OnOk result (names.new.items ≡ names.old.items ++ parts_read info.now kinds.now) }
{
    for kind in kinds {
        if let Some(number) = holder(info, *kind) {
            names.push(LuceneName::Part(number, *kind))?;
        }
    }
    Ok(())
}

/// The names of the files that are read for a segment, in the order in which files are checked.
fn read_names(alloc: Global, info: &SegInfo) -> Result<Vec<LuceneName>, OutOfMemory>
    requires { IsLine info.now }
    ensures { IfOk result (λ names. names.items ≡ names_read info.now) }
{
    let mut names = Vec::new(alloc);
    push_parts(&mut names, info, &FRONT_KINDS)?;
    push_norm_names(&mut names, info.number, &info.norm_gens)?;
    push_del_names(&mut names, info.number, info.del_gen)?;
    push_parts(&mut names, info, &VECTOR_KINDS)?;
    Ok(names)
}

/// The spellings of names.
fn spellings(alloc: Global, names: &[LuceneName]) -> Result<Vec<String>, OutOfMemory>
    requires { All IsName names.now }
    ensures { IfOk result (λ spelled. texts spelled.items ≡ map name_spelling names.now) }
{
    let mut spelled = Vec::new(alloc);
    for name in names {
        spelled.push(name_text(alloc, name)?)?;
    }
    Ok(spelled)
}

/// The kind of the file that a name names.
fn kind_of_name(name: LuceneName) -> FileKind
    ensures { result ≡ kind_named name }
{
    match name {
        LuceneName::Commit(_) => FileKind::Commit,
        LuceneName::Part(_, kind) => kind,
        LuceneName::Del(_, _) => FileKind::Del,
        LuceneName::Sep(_, _, field) => FileKind::Sep(field),
    }
}

/// Loads the files of a segment that are read, in the order in which files are checked: its `.cfs` where it is compound, else
/// its parts, without positions where it has none; the `.cfx` of its shared store where that is compound, else the store's
/// files; the norms that stand in files of their own; and its deleted documents. A file that is missing is no fault here.
///
/// `FileTooLarge` has the kind of the first of them that has more than 2^31 - 1 bytes, and comes exactly where there is one.
/// `Failed` comes only where the count of faults rose.
pub fn read_segment<D: Dir>(
    alloc: Global,
    dir: &mut D,
    info: &SegInfo,
) -> Result<Loaded, FolderFault>
    requires { IsLine info.now }
    ensures names { IfOk result (λ loaded. loaded.names ≡ map name_spelling (names_read info.now)) }
    ensures loaded { IfOk result (λ loaded. ForSome (D.files dir.old) (λ told.
        loaded.found ≡ map (contents told) (map name_spelling (names_read info.now)))) }
    ensures count { IfOk result (λ loaded. length loaded.found ≡ length (names_read info.now)) }
    ensures each { IfOk result (λ loaded. All (IsLoadable file_limit) loaded.found) }
    ensures fits { IfOk result (λ _. ForSome (D.files dir.old) (λ told.
        first_too_large told (names_read info.now) ≡ None)) }
    ensures too_large { (kind : FileKind) → IsErrOf result (FolderFault.FileTooLarge kind)
        → ForSome (D.files dir.old) (λ told. first_too_large told (names_read info.now) ≡ Some kind) }
    ensures no_index_fault { IsErrOf result FolderFault.NoIndex → ⊥ }
    ensures no_standing_fault { (generation : ℕ) (fault : Fault) → IsErrOf result (FolderFault.NotStanding generation fault) → ⊥ }
    ensures files { D.files dir.new ≡ D.files dir.old }
    ensures asked { D.asked dir.new ≡ D.asked dir.old }
    ensures cause { IsCaused (D.faults dir.old) (D.faults dir.new) (IsErrOf result FolderFault.Failed) }
{
    let names = read_names(alloc, info)?;
    let spelled = spellings(alloc, &names)?;
    match load(alloc, dir, &spelled, FILE_LIMIT) {
        Ok(loaded) => Ok(loaded),
        Err(LoadFault::TooLarge(place)) => {
            Err(FolderFault::FileTooLarge(kind_of_name(names[place as usize])))
        }
        Err(LoadFault::Failed) => Err(FolderFault::Failed),
        Err(LoadFault::OutOfMemory) => Err(FolderFault::OutOfMemory),
    }
}
