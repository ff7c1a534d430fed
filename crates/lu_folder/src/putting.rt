//! Files that are written whole.
ghost use Rattle.std.specs.Prelude.{◌≡◌, option_map, OnOk, OnErr, IsErrOf};
ghost use Rattle.lu_dir.specs.Faults.{IsCaused};
ghost use Rattle.lu_dir.specs.Files.{with_file, CreateLeaves, Leaves};
ghost use Rattle.lu_folder.specs.Writing.{with_new_files, WritesOnly};

use crate::new_file::NewFile;
use lu_dir::{Dir, DirFail};
use std::alloc::Global;

/// Makes or replaces a file, and waits until it is on the device. After an `Err` the file is as before, absent, or holds
/// a prefix of its bytes.
pub fn put_file<D: Dir>(alloc: Global, dir: &mut D, file: &NewFile) -> Result<(), DirFail>
    ensures made { OnOk result
        (D.files dir.new ≡ option_map (with_file file.now.name file.now.bytes) (D.files dir.old)) }
    ensures left { OnErr result
        (Leaves (CreateLeaves file.now.name file.now.bytes) (D.files dir.old) (D.files dir.new)) }
    ensures asked { D.asked dir.new ≡ D.asked dir.old }
    ensures cause { IsCaused (D.faults dir.old) (D.faults dir.new) (IsErrOf result DirFail.Failed) }
{
    match dir.create(alloc, file.name.as_str(), file.bytes.as_slice()) {
        Ok(()) => {}
        Err(fail) => return Err(fail),
    }
    match dir.sync(alloc, file.name.as_str()) {
        Ok(()) => Ok(()),
        Err(fail) => Err(fail),
    }
}

/// Puts the files, in order, up to the first that fails. After an `Err` each file of the folder is as before, but for
/// those that were to be put: each of them is as before, absent, or holds a prefix of its bytes. Of two files of one name
/// the later one is put last.
pub fn put_files<D: Dir>(alloc: Global, dir: &mut D, files: &[NewFile]) -> Result<(), DirFail>
    ensures made { OnOk result
        (D.files dir.new ≡ option_map (with_new_files files.now) (D.files dir.old)) }
    ensures left { OnErr result
        (Leaves (WritesOnly files.now) (D.files dir.old) (D.files dir.new)) }
    ensures asked { D.asked dir.new ≡ D.asked dir.old }
    ensures cause { IsCaused (D.faults dir.old) (D.faults dir.new) (IsErrOf result DirFail.Failed) }
{
    for file in files {
        match put_file(alloc, dir, file) {
            Ok(()) => {}
            Err(fail) => return Err(fail),
        }
    }
    Ok(())
}
