//! A folder of files.
ghost use Rattle.std.specs.Prelude.{◌≡◌, ℕ, List, length, map, option_map, Option, Some, IfOk, OnOk, OnErr, IsErrOf, IsPermutation, string_bytes};
ghost use Rattle.std.specs.Option.{ForSome};
ghost use Rattle.std.specs.FinMap.{keys};
ghost use Rattle.lu_dir.specs.Faults.{IsCaused};
ghost use Rattle.lu_dir.specs.Files.{Files, contents, with_file, without_file, range_of, HasRange, with_patch, CreateLeaves, PatchLeaves, RemoveLeaves, Leaves, AreMadeOfBytes, asked_after};

use crate::fail::DirFail;
use std::alloc::Global;

/// A folder. `files` are its files by name, where it tells them; `asked` is the path of the last `enter` that did not
/// answer `OutOfMemory`; `faults` counts failures of the device and never falls.
///
/// A call answers `Failed` only where `faults` rose in it. A call that answers `OutOfMemory` leaves everything as it
/// was, and so does each call that changes nothing.
pub trait Dir {
    ghost files: { Self → Option Files };

    ghost asked: { Self → Option (List ℕ) };

    ghost faults: { Self → ℕ };

    /// Takes the folder at `path` as the one to use. The files that it tells are made of bytes, as all that is written
    /// later is.
    fn enter(&mut self, alloc: Global, path: &str) -> Result<(), DirFail>
        ensures files { files self.new ≡ files self.old }
        ensures bytes { ForSome (files self.new) AreMadeOfBytes }
        ensures asked { asked self.new ≡ asked_after result path.now (asked self.old) }
        ensures cause { IsCaused (faults self.old) (faults self.new) (IsErrOf result DirFail.Failed) };

    /// The names of the files, each once, in no stated order.
    fn list(&mut self, alloc: Global) -> Result<Vec<String>, DirFail>
        ensures names { IfOk result (λ names. ForSome (files self.old) (λ told.
            IsPermutation (keys told) (map string_bytes names.items))) }
        ensures files { files self.new ≡ files self.old }
        ensures asked { asked self.new ≡ asked self.old }
        ensures cause { IsCaused (faults self.old) (faults self.new) (IsErrOf result DirFail.Failed) };

    /// The number of bytes of a file, or `None` where there is none with this name.
    fn length(&mut self, alloc: Global, name: &str) -> Result<Option<u64>, DirFail>
        ensures found { IfOk result (λ found. ForSome (files self.old) (λ told.
            found ≡ option_map length (contents told name.now))) }
        ensures files { files self.new ≡ files self.old }
        ensures asked { asked self.new ≡ asked self.old }
        ensures cause { IsCaused (faults self.old) (faults self.new) (IsErrOf result DirFail.Failed) };

    /// Fills the buffer with the bytes of a file from the place `at` on. After an `Err` the buffer is as before.
    fn read(&mut self, alloc: Global, name: &str, at: u64, buf: &mut [u8]) -> Result<(), DirFail>
        requires { ForSome (files self.old) (λ told. HasRange told name.now at (length buf.old)) }
        ensures bytes { OnOk result (ForSome (files self.old) (λ told.
            buf.new ≡ range_of told name.now at (length buf.old))) }
        ensures buffer { OnErr result (buf.new ≡ buf.old) }
        ensures files { files self.new ≡ files self.old }
        ensures asked { asked self.new ≡ asked self.old }
        ensures cause { IsCaused (faults self.old) (faults self.new) (IsErrOf result DirFail.Failed) };

    /// Makes or replaces a file. After an `Err` the file is as before, absent, or holds a prefix of the bytes.
    fn create(&mut self, alloc: Global, name: &str, bytes: &[u8]) -> Result<(), DirFail>
        ensures made { OnOk result (files self.new ≡ option_map (with_file name.now bytes.now) (files self.old)) }
        ensures left { OnErr result
            (Leaves (CreateLeaves name.now bytes.now) (files self.old) (files self.new)) }
        ensures memory { IsErrOf result DirFail.OutOfMemory → files self.new ≡ files self.old }
        ensures asked { asked self.new ≡ asked self.old }
        ensures cause { IsCaused (faults self.old) (faults self.new) (IsErrOf result DirFail.Failed) };

    /// Writes inside a file, whose length stays. After an `Err` a prefix of the bytes is written, maybe none.
    fn patch(&mut self, alloc: Global, name: &str, at: u64, bytes: &[u8]) -> Result<(), DirFail>
        requires { ForSome (files self.old) (λ told. HasRange told name.now at (length bytes.now)) }
        ensures written { OnOk result
            (files self.new ≡ option_map (with_patch name.now at bytes.now) (files self.old)) }
        ensures left { OnErr result
            (Leaves (PatchLeaves name.now at bytes.now) (files self.old) (files self.new)) }
        ensures memory { IsErrOf result DirFail.OutOfMemory → files self.new ≡ files self.old }
        ensures asked { asked self.new ≡ asked self.old }
        ensures cause { IsCaused (faults self.old) (faults self.new) (IsErrOf result DirFail.Failed) };

    /// Waits until what was written to a file is on the device.
    fn sync(&mut self, alloc: Global, name: &str) -> Result<(), DirFail>
        ensures files { files self.new ≡ files self.old }
        ensures asked { asked self.new ≡ asked self.old }
        ensures cause { IsCaused (faults self.old) (faults self.new) (IsErrOf result DirFail.Failed) };

    /// Removes a file. That there was none is no failure. After an `Err` the file is as before or absent.
    fn remove(&mut self, alloc: Global, name: &str) -> Result<(), DirFail>
        ensures removed { OnOk result (files self.new ≡ option_map (without_file name.now) (files self.old)) }
        ensures left { OnErr result
            (Leaves (RemoveLeaves name.now) (files self.old) (files self.new)) }
        ensures memory { IsErrOf result DirFail.OutOfMemory → files self.new ≡ files self.old }
        ensures asked { asked self.new ≡ asked self.old }
        ensures cause { IsCaused (faults self.old) (faults self.new) (IsErrOf result DirFail.Failed) };
}
