//! Files in memory, by name.
ghost use Rattle.std.specs.Prelude.{◌≡◌, ◌+◌, ◌≤◌, length, is_ok, if◌then◌else◌, IfOk, map, string_bytes, option_map};
ghost use Rattle.std.specs.Option.{option_copied};
ghost use Rattle.std.specs.FinMap.{empty, keys};
ghost use Rattle.lu_dir.specs.Files.{contents, with_file, without_file, with_patch, written_over, HasRange, AreMadeOfBytes};
ghost use Rattle.lu_grammar.specs.Bytes.{IsBytes};
ghost use Rattle.lu_dir.specs.FileMap.{items_of, with_found};

use lu_prims::OutOfMemory;
use std::alloc::Global;
use std::collections::BTreeMap;
use std::marker::Model;

/// Files by name, in the order of their names' bytes.
#[derive(Drop)]
pub struct FileMap {
    alloc: Global,
    held: BTreeMap<String, Vec<u8>>,
}

impl Model for FileMap {
    ghost use Rattle.lu_dir.specs.Files.{Files, AreMadeOfBytes};
    ghost use Rattle.lu_dir.specs.FileMap.{files_of, files_code};

    ghost Value = { Files };

    ghost coded = { files_code };

    ghost view = { λ a. files_of a.held };

    ghost invariant = { λ a. AreMadeOfBytes (files_of a.held) };
}

impl FileMap {
    pub fn new(alloc: Global) -> FileMap
        ensures { result ≡ empty }
    {
        FileMap {
            alloc,
            held: BTreeMap::new(alloc),
        }
    }

    /// The bytes in memory of their own.
    pub fn copy(&self, bytes: &[u8]) -> Result<Vec<u8>, OutOfMemory>
        ensures { IfOk result (λ copy. copy.items ≡ bytes.now) }
    {
        Ok(bytes.to_vec(self.alloc)?)
    }

    /// The names, in the order of their bytes.
    pub fn names(&self) -> Result<Vec<String>, OutOfMemory>
        ensures { IfOk result (λ names. map string_bytes names.items ≡ keys self.now) }
    {
        let mut names = Vec::new(self.alloc);
        for name in self.held.keys() {
            names.push(name.clone()?)?;
        }
        Ok(names)
    }

    /// Its files are made of bytes.
    pub fn hold_bytes(&self)
        ensures { AreMadeOfBytes self.now }
    {
        let _ = &self.held;
    }

    pub fn get(&self, name: &str) -> Option<&[u8]>
        ensures { option_copied result ≡ contents self.now name.now }
    {
        match self.held.get(name) {
            Some(bytes) => Some(bytes.as_slice()),
            None => None,
        }
    }

    pub fn put(&mut self, name: &str, bytes: Vec<u8>) -> Result<(), OutOfMemory>
        ensures { self.new ≡ (if is_ok result then with_file name.now bytes.items self.old else self.old) }
    {
        all_bytes(bytes.as_slice());
        let name = String::from_str(self.alloc, name)?;
        self.held.insert(name, bytes)?;
        Ok(())
    }

    /// Makes or replaces a file, where its bytes were found.
    pub fn put_found(&mut self, name: &str, found: Option<Vec<u8>>) -> Result<(), OutOfMemory>
        ensures { self.new ≡ (if is_ok result then with_found name.now (option_map items_of found) self.old else self.old) }
    {
        match found {
            Some(bytes) => self.put(name, bytes),
            None => Ok(()),
        }
    }

    pub fn remove(&mut self, name: &str)
        ensures { self.new ≡ without_file name.now self.old }
    {
        let _ = self.held.remove(name);
    }

    pub fn write_over(&mut self, name: &str, at: usize, bytes: &[u8])
        requires { HasRange self.old name.now at (length bytes.now) }
        ensures { self.new ≡ with_patch name.now at bytes.now self.old }
    {
        let Some(held) = self.held.get_mut(name) else {
            return;
        };
        write_at(held, at, bytes);
    }
}

/// What a slice of bytes holds are bytes.
pub(crate) fn all_bytes(bytes: &[u8])
    ensures { IsBytes bytes.now }
{
    let _ = bytes;
}

fn write_at(held: &mut Vec<u8>, at: usize, bytes: &[u8])
    requires { at + length bytes.now ≤ length held.old.items }
    ensures { held.new.items ≡ written_over at bytes.now held.old.items }
{
    held[at..at + bytes.len()].copy_from_slice(bytes);
}
