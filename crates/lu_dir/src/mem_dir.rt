//! A folder in memory.
ghost use Rattle.std.specs.Prelude.{◌≡◌, ◌+◌, ◌<◌, ◌≤◌, length, map, option_map, string_bytes, Some, None, Ok, IsOk, IfOk, OnErr, IsOkUnless, is_ok, if◌then◌else◌};
ghost use Rattle.std.specs.Option.{option_copied};
ghost use Rattle.std.specs.FinMap.{empty, keys};
ghost use Rattle.lu_dir.specs.Files.{contents, with_file, without_file, with_patch, range_of, HasRange, AreMadeOfBytes, asked_after};

use crate::asked::{AskedPath, KEPT_IN_PLACE};
use crate::dir::Dir;
use crate::fail::DirFail;
use crate::file_map::FileMap;
use lu_prims::OutOfMemory;
use std::alloc::Global;
use std::marker::Model;

/// A folder in memory, seen as its files and the path last asked for. It accepts every path as its one folder, and
/// never fails but for want of memory.
#[derive(Drop)]
pub struct MemDir {
    files: FileMap,
    path: AskedPath,
}

impl Model for MemDir {
    ghost use Rattle.lu_dir.specs.Folder.{Folder, folder_code};

    ghost Value = { Folder };

    ghost coded = { folder_code };

    ghost view = { λ a. record { files = a.files; asked = a.path } };
}

impl MemDir {
    /// A folder without files.
    pub fn new(alloc: Global) -> MemDir
        ensures files { result.files ≡ empty }
        ensures asked { result.asked ≡ None }
    {
        MemDir {
            files: FileMap::new(alloc),
            path: AskedPath::new(),
        }
    }

    /// Makes or replaces a file. On an `Err` nothing changes.
    pub fn put(&mut self, name: &str, bytes: &[u8]) -> Result<(), OutOfMemory>
        ensures files { self.new.files ≡ (if is_ok result then with_file name.now bytes.now self.old.files else self.old.files) }
        ensures asked { self.new.asked ≡ self.old.asked }
    {
        let bytes = self.files.copy(bytes)?;
        self.files.put(name, bytes)
    }

    /// The bytes of a file, where there is one.
    pub fn get(&self, name: &str) -> Option<&[u8]>
        ensures { option_copied result ≡ contents self.now.files name.now }
    {
        self.files.get(name)
    }

    /// Takes a file away, where there is one.
    pub(crate) fn discard(&mut self, name: &str)
        ensures files { self.new.files ≡ without_file name.now self.old.files }
        ensures asked { self.new.asked ≡ self.old.asked }
    {
        self.files.remove(name);
    }

    /// Writes inside a file.
    pub(crate) fn write_over(&mut self, name: &str, at: u64, bytes: &[u8])
        requires { HasRange self.old.files name.now at (length bytes.now) }
        ensures files { self.new.files ≡ with_patch name.now at bytes.now self.old.files }
        ensures asked { self.new.asked ≡ self.old.asked }
    {
        self.files.write_over(name, at as usize, bytes);
    }
}

impl Dir for MemDir {
    ghost files = { λ d. Some d.files };

    ghost asked = { λ d. d.asked };

    ghost faults = { λ _. 0 };

    /// Fails for want of memory alone, and only for a path that is too long to be kept without.
    fn enter(&mut self, alloc: Global, path: &str) -> Result<(), DirFail>
        ensures answer { IsOkUnless result DirFail.OutOfMemory }
        ensures room { OnErr result (KEPT_IN_PLACE < length path.now) }
        ensures files { self.new.files ≡ self.old.files }
        ensures bytes { AreMadeOfBytes self.new.files }
        ensures asked { self.new.asked ≡ asked_after result path.now self.old.asked }
    {
        self.files.hold_bytes();
        Ok(self.path.keep(alloc, path)?)
    }

    /// Gives the names in the order of their bytes. Fails for want of memory alone.
    fn list(&mut self, _alloc: Global) -> Result<Vec<String>, DirFail>
        ensures answer { IsOkUnless result DirFail.OutOfMemory }
        ensures names { IfOk result (λ names. map string_bytes names.items ≡ keys self.old.files) }
        ensures same { self.new ≡ self.old }
    {
        Ok(self.files.names()?)
    }

    fn length(&mut self, _alloc: Global, name: &str) -> Result<Option<u64>, DirFail>
        ensures answer { result ≡ Ok (option_map length (contents self.old.files name.now)) }
        ensures same { self.new ≡ self.old }
    {
        Ok(self.files.get(name).map(|bytes| bytes.len() as u64))
    }

    fn read(&mut self, _alloc: Global, name: &str, at: u64, buf: &mut [u8]) -> Result<(), DirFail>
        requires { HasRange self.old.files name.now at (length buf.old) }
        ensures answer { IsOk result }
        ensures bytes { buf.new ≡ range_of self.old.files name.now at (length buf.old) }
        ensures same { self.new ≡ self.old }
    {
        if let Some(bytes) = self.files.get(name) {
            let start = at as usize;
            buf.copy_from_slice(&bytes[start..start + buf.len()]);
        }
        Ok(())
    }

    /// Fails for want of memory alone.
    fn create(&mut self, _alloc: Global, name: &str, bytes: &[u8]) -> Result<(), DirFail>
        ensures answer { IsOkUnless result DirFail.OutOfMemory }
        ensures files { self.new.files
            ≡ (if is_ok result then with_file name.now bytes.now self.old.files else self.old.files) }
        ensures asked { self.new.asked ≡ self.old.asked }
    {
        Ok(self.put(name, bytes)?)
    }

    fn patch(&mut self, _alloc: Global, name: &str, at: u64, bytes: &[u8]) -> Result<(), DirFail>
        requires { HasRange self.old.files name.now at (length bytes.now) }
        ensures answer { IsOk result }
        ensures files { self.new.files ≡ with_patch name.now at bytes.now self.old.files }
        ensures asked { self.new.asked ≡ self.old.asked }
    {
        self.write_over(name, at, bytes);
        Ok(())
    }

    fn sync(&mut self, _alloc: Global, _name: &str) -> Result<(), DirFail>
        ensures answer { IsOk result }
        ensures same { self.new ≡ self.old }
    {
        Ok(())
    }

    fn remove(&mut self, _alloc: Global, name: &str) -> Result<(), DirFail>
        ensures answer { IsOk result }
        ensures files { self.new.files ≡ without_file name.now self.old.files }
        ensures asked { self.new.asked ≡ self.old.asked }
    {
        self.discard(name);
        Ok(())
    }
}
