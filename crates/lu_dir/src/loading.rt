//! Files of a folder, loaded by their names.
ghost use Rattle.std.specs.Prelude.{◌≡◌, ℕ, ◌<◌, ◌≤◌, ◌^◌, length, map, option_map, slice_get, Some, None, All, IfOk, OnOk, IfSome, IsErrOf, true, false};
ghost use Rattle.std.specs.Option.{ForSome, option_copied};
ghost use Rattle.lu_dir.specs.Faults.{IsCaused};
ghost use Rattle.lu_dir.specs.Files.{contents, range_of, HasRange, AreMadeOfBytes};
ghost use Rattle.lu_dir.specs.Loading.{IsLoadable, found_at, is_over, first_over, texts};
ghost use Rattle.lu_dir.specs.InnerLoading.{AreOnly};
ghost use Rattle.lu_dir.specs.FileMap.{items_of};

use crate::dir::Dir;
use crate::fail::DirFail;
use crate::file_map::FileMap;
use lu_prims::OutOfMemory;
use std::alloc::{AllocError, Global};
use std::marker::Model;

/// How many bytes are asked of a folder at once.
const PIECE: usize = 1 << 20;

/// Why a file or an input was not loaded.
#[derive(Clone, Copy, Debug, PartialEq, Eq)]
pub enum LoadFault {
    /// The device failed.
    Failed,
    /// The file at this place among the names is longer than the limit.
    TooLarge(u32),
    /// There was no memory for the bytes.
    OutOfMemory,
}

impl From<DirFail> for LoadFault {
    ghost use Rattle.lu_dir.specs.LoadFaults.{load_fault};

    ghost from_gives = { λ fail fault. fault ≡ load_fault fail };

    fn from(fail: DirFail) -> LoadFault {
        match fail {
            DirFail::Failed => LoadFault::Failed,
            DirFail::OutOfMemory => LoadFault::OutOfMemory,
        }
    }
}

impl From<AllocError> for LoadFault {
    ghost use Rattle.lu_dir.specs.LoadFaults.{no_memory};

    ghost from_gives = { λ _ fault. fault ≡ no_memory };

    fn from(_error: AllocError) -> LoadFault {
        LoadFault::OutOfMemory
    }
}

impl From<OutOfMemory> for LoadFault {
    ghost use Rattle.lu_dir.specs.LoadFaults.{no_memory};

    ghost from_gives = { λ _ fault. fault ≡ no_memory };

    fn from(_error: OutOfMemory) -> LoadFault {
        LoadFault::OutOfMemory
    }
}

/// The files that were loaded, seen as the names that were asked for and what was found beside each.
#[derive(Drop)]
pub struct Loaded {
    names: Vec<String>,
    files: FileMap,
}

impl Model for Loaded {
    ghost use Rattle.std.specs.Prelude.{map};
    ghost use Rattle.lu_dir.specs.Files.{contents};
    ghost use Rattle.lu_dir.specs.Loading.{Loading, loading_code, texts};
    ghost use Rattle.lu_dir.specs.InnerLoading.{AreOnly};

    ghost Value = { Loading };

    ghost coded = { loading_code };

    ghost view = { λ a. record { names = texts a.names.items; found = map (contents a.files) (texts a.names.items) } };

    ghost invariant = { λ a. AreOnly (texts a.names.items) a.files };
}

impl Loaded {
    /// The bytes of a file, or `None` where there was no such file among the names.
    pub fn get(&self, name: &str) -> Option<&[u8]>
        ensures { option_copied result ≡ found_at self.now.names self.now.found name.now }
    {
        self.files.get(name)
    }

    /// The bytes of the file whose name stands at this place among the names, or `None` where there was no such file.
    pub fn at(&self, place: usize) -> Option<&[u8]>
        requires { place < length self.now.found }
        ensures { slice_get self.now.found place ≡ Some (option_copied result) }
    {
        self.files.get(self.names[place].as_str())
    }
}

/// Fills the bytes with the first ones of a file.
fn fill<D: Dir>(alloc: Global, dir: &mut D, name: &str, bytes: &mut [u8]) -> Result<(), DirFail>
    requires { ForSome (D.files dir.old) (λ told. HasRange told name.now 0 (length bytes.old)) }
    ensures filled { OnOk result (ForSome (D.files dir.old) (λ told.
        bytes.new ≡ range_of told name.now 0 (length bytes.old))) }
    ensures files { D.files dir.new ≡ D.files dir.old }
    ensures asked { D.asked dir.new ≡ D.asked dir.old }
    ensures cause { IsCaused (D.faults dir.old) (D.faults dir.new) (IsErrOf result DirFail.Failed) }
{
    let mut at = 0;
    while at < bytes.len() {
        let end = at + PIECE.min(bytes.len() - at);
        match dir.read(alloc, name, at as u64, &mut bytes[at..end]) {
            Ok(()) => at = end,
            Err(fail) => return Err(fail),
        }
    }
    Ok(())
}

/// The bytes of a file, where there is one. The place is that of its name among the names.
fn read_file<D: Dir>(
    alloc: Global,
    dir: &mut D,
    name: &str,
    place: u32,
    limit: u64,
) -> Result<Option<Vec<u8>>, LoadFault>
    requires { limit < 2 ^ 31 }
    ensures found { IfOk result (λ found. ForSome (D.files dir.old) (λ told.
        option_map items_of found ≡ contents told name.now)) }
    ensures fits { IfOk result (λ _. ForSome (D.files dir.old) (λ told.
        is_over limit (contents told name.now) ≡ false)) }
    ensures within { IfOk result (λ found. IfSome found (λ bytes. length bytes.items ≤ limit)) }
    ensures over { (at : ℕ) → IsErrOf result (LoadFault.TooLarge at) → (at ≡ place)
        × ForSome (D.files dir.old) (λ told. is_over limit (contents told name.now) ≡ true) }
    ensures files { D.files dir.new ≡ D.files dir.old }
    ensures asked { D.asked dir.new ≡ D.asked dir.old }
    ensures cause { IsCaused (D.faults dir.old) (D.faults dir.new) (IsErrOf result LoadFault.Failed) }
{
    let Some(length) = dir.length(alloc, name)? else {
        return Ok(None);
    };
    if length > limit {
        return Err(LoadFault::TooLarge(place));
    }
    let mut bytes = vec![in alloc; 0; length as usize]?;
    fill(alloc, dir, name, &mut bytes)?;
    Ok(Some(bytes))
}

/// Loads the named files, in the order of the names; a file that is not there is no fault. `TooLarge` has the place of
/// the first name whose file is longer than `limit`. No more memory is taken for a file than the length that the folder
/// told of it, within the limit. On an `Err` nothing changes but the count of faults.
pub fn load<D: Dir>(
    alloc: Global,
    dir: &mut D,
    names: &[String],
    limit: u64,
) -> Result<Loaded, LoadFault>
    requires limit { limit < 2 ^ 31 }
    requires count { length names.now < 2 ^ 32 }
    ensures names { IfOk result (λ loaded. loaded.names ≡ texts names.now) }
    ensures loaded { IfOk result (λ loaded. ForSome (D.files dir.old) (λ told.
        loaded.found ≡ map (contents told) (texts names.now))) }
    ensures count { IfOk result (λ loaded. length loaded.found ≡ length names.now) }
    ensures each { IfOk result (λ loaded. All (IsLoadable limit) loaded.found) }
    ensures fits { IfOk result (λ _. ForSome (D.files dir.old) (λ told.
        first_over told limit (texts names.now) ≡ None)) }
    ensures over { (place : ℕ) → IsErrOf result (LoadFault.TooLarge place) → (place < length names.now)
        × ForSome (D.files dir.old) (λ told. first_over told limit (texts names.now) ≡ Some place) }
    ensures files { D.files dir.new ≡ D.files dir.old }
    ensures asked { D.asked dir.new ≡ D.asked dir.old }
    ensures cause { IsCaused (D.faults dir.old) (D.faults dir.new) (IsErrOf result LoadFault.Failed) }
{
    let mut files = FileMap::new(alloc);
    for (place, name) in names.iter().enumerate() {
        match read_file(alloc, dir, name.as_str(), place as u32, limit) {
            Ok(found) => files.put_found(name.as_str(), found)?,
            Err(fault) => return Err(fault),
        }
    }
    Ok(beside(alloc, names, files)?)
}

/// The files beside the names.
fn beside(alloc: Global, names: &[String], files: FileMap) -> Result<Loaded, OutOfMemory>
    requires { AreOnly (texts names.now) files }
    ensures names { IfOk result (λ loaded. loaded.names ≡ texts names.now) }
    ensures found { IfOk result (λ loaded. loaded.found ≡ map (contents files) (texts names.now)) }
    ensures bytes { AreMadeOfBytes files }
{
    files.hold_bytes();
    let names = copied(alloc, names)?;
    Ok(Loaded { names, files })
}

/// The names in memory of their own.
fn copied(alloc: Global, names: &[String]) -> Result<Vec<String>, OutOfMemory>
    ensures { IfOk result (λ copies. texts copies.items ≡ texts names.now) }
{
    let mut copies = Vec::new(alloc);
    for name in names {
        copies.push(name.clone()?)?;
    }
    Ok(copies)
}
