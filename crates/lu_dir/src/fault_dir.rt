//! A folder in memory that fails on demand.
ghost use Rattle.std.specs.Prelude.{◌≡◌, ◌<◌, ◌≤◌, length, map, take, option_map, string_bytes, Some, None, Ok, Err, IfOk, OnOk, OnErr, IsErrOf, IsSome};
ghost use Rattle.std.specs.Option.{ForSome};
ghost use Rattle.std.specs.FinMap.{keys};
ghost use Rattle.lu_dir.specs.Faults.{Rose, IsCaused};
ghost use Rattle.lu_dir.specs.Files.{contents, with_file, without_file, with_patch, range_of, HasRange, AreMadeOfBytes, asked_after};
ghost use Rattle.lu_dir.specs.Planned.{next_count, next_failure, left_by_create, left_by_patch, left_by_remove, with_files, planned_answer, IsPlanned, PlannedCreate};

use crate::asked::KEPT_IN_PLACE;
use crate::dir::Dir;
use crate::fail::DirFail;
use crate::fault_count::FaultCount;
use crate::mem_dir::MemDir;
use crate::plan::{Fail, Left, failure_of_call};
use std::alloc::Global;
use std::marker::Model;

/// A folder in memory whose calls fail where they are to, seen as the folder, the plan, and how many calls were made and
/// how many failed. Each call of the folder counts, from 1 on; a call that `fails` names fails, and so does each from
/// `stop` on. Where `fails` names a call more than once, the first entry says what it leaves; a call that it does not
/// name leaves what was before. A call that is to fail answers `Failed`, whatever memory there is: a `create` that has no
/// memory for the prefix that it is to leave leaves the file as before. The one exception is an `enter` with a path of more
/// than 4096 bytes, which has to be kept all the same: it may answer `OutOfMemory` in place of `Failed`.
#[derive(Drop)]
pub struct FaultDir {
    dir: MemDir,
    fails: Vec<Fail>,
    stop: Option<u64>,
    calls: u64,
    faults: FaultCount,
}

impl Model for FaultDir {
    ghost use Rattle.lu_dir.specs.Planned.{Planned};
    ghost use Rattle.lu_dir.specs.PlannedCode.{planned_code};

    ghost Value = { Planned };

    ghost coded = { planned_code };

    ghost view = { λ a. record { folder = a.dir; fails = a.fails.items; stop = a.stop; calls = a.calls; faults = a.faults } };
}

impl FaultDir {
    /// A folder with these files, of which no call was made yet.
    pub fn new(dir: MemDir, fails: Vec<Fail>, stop: Option<u64>) -> FaultDir
        ensures { result ≡ record { folder = dir; fails = fails.items; stop = stop; calls = 0; faults = 0 } }
    {
        FaultDir {
            dir,
            fails,
            stop,
            calls: 0,
            faults: FaultCount::new(),
        }
    }

    /// The folder as it is now.
    pub fn into_inner(self) -> MemDir
        ensures { result ≡ self.folder }
    {
        self.dir
    }

    /// Counts a call, and says what it leaves where it is to fail.
    fn next_call(&mut self) -> Option<Left>
        ensures left { result ≡ next_failure self.old }
        ensures counted { self.new ≡ record self.old { calls = next_count self.old.calls } }
    {
        self.calls = self.calls.saturating_add(1);
        failure_of_call(&self.fails, self.stop, self.calls)
    }

    /// Leaves what a failed `create` is to leave, as far as there is memory for it.
    fn leave_created(&mut self, left: Left, name: &str, bytes: &[u8])
        ensures left { PlannedCreate left name.now bytes.now self.old.folder.files self.new.folder.files }
        ensures others { self.new ≡ with_files self.new.folder.files self.old }
    {
        match left {
            Left::Before => {}
            Left::Absent => self.dir.discard(name),
            Left::Prefix(count) => {
                let _ = self.dir.put(name, prefix(bytes, count));
            }
        }
    }

    /// Leaves what a failed `patch` is to leave.
    fn leave_patched(&mut self, left: Left, name: &str, at: u64, bytes: &[u8])
        requires { HasRange self.old.folder.files name.now at (length bytes.now) }
        ensures { self.new
            ≡ with_files (left_by_patch left name.now at bytes.now self.old.folder.files) self.old }
    {
        if let Left::Prefix(count) = left {
            self.dir.write_over(name, at, prefix(bytes, count));
        }
    }

    /// Counts a failure.
    fn fail(&mut self) -> DirFail
        ensures answer { result ≡ DirFail.Failed }
        ensures counted { self.new ≡ record self.old { faults = next_count self.old.faults } }
        ensures rose { Rose self.old.faults self.new.faults }
    {
        self.faults.rise()
    }
}

impl Dir for FaultDir {
    ghost files = { λ d. Some d.folder.files };

    ghost asked = { λ d. d.folder.asked };

    ghost faults = { λ d. d.faults };

    fn enter(&mut self, alloc: Global, path: &str) -> Result<(), DirFail>
        ensures files { self.new.folder.files ≡ self.old.folder.files }
        ensures bytes { AreMadeOfBytes self.new.folder.files }
        ensures asked { self.new.folder.asked ≡ asked_after result path.now self.old.folder.asked }
        ensures due { IsSome (next_failure self.old) → length path.now ≤ KEPT_IN_PLACE → IsErrOf result DirFail.Failed }
        ensures room { IsErrOf result DirFail.OutOfMemory → KEPT_IN_PLACE < length path.now }
        ensures planned { IsPlanned self.old self.new result }
        ensures cause { IsCaused self.old.faults self.new.faults (IsErrOf result DirFail.Failed) }
    {
        let left = self.next_call();
        self.dir.enter(alloc, path)?;
        match left {
            Some(_) => Err(self.fail()),
            None => Ok(()),
        }
    }

    fn list(&mut self, alloc: Global) -> Result<Vec<String>, DirFail>
        ensures names { IfOk result (λ names. map string_bytes names.items ≡ keys self.old.folder.files) }
        ensures due { IsSome (next_failure self.old) → IsErrOf result DirFail.Failed }
        ensures same { self.new.folder ≡ self.old.folder }
        ensures planned { IsPlanned self.old self.new result }
        ensures cause { IsCaused self.old.faults self.new.faults (IsErrOf result DirFail.Failed) }
    {
        match self.next_call() {
            Some(_) => Err(self.fail()),
            None => self.dir.list(alloc),
        }
    }

    fn length(&mut self, alloc: Global, name: &str) -> Result<Option<u64>, DirFail>
        ensures answer { result
            ≡ planned_answer self.old (option_map length (contents self.old.folder.files name.now)) }
        ensures same { self.new.folder ≡ self.old.folder }
        ensures planned { IsPlanned self.old self.new result }
        ensures cause { IsCaused self.old.faults self.new.faults (IsErrOf result DirFail.Failed) }
    {
        match self.next_call() {
            Some(_) => Err(self.fail()),
            None => self.dir.length(alloc, name),
        }
    }

    fn read(&mut self, alloc: Global, name: &str, at: u64, buf: &mut [u8]) -> Result<(), DirFail>
        requires { HasRange self.old.folder.files name.now at (length buf.old) }
        ensures answer { result ≡ planned_answer self.old tt }
        ensures bytes { OnOk result (buf.new ≡ range_of self.old.folder.files name.now at (length buf.old)) }
        ensures buffer { OnErr result (buf.new ≡ buf.old) }
        ensures same { self.new.folder ≡ self.old.folder }
        ensures planned { IsPlanned self.old self.new result }
        ensures cause { IsCaused self.old.faults self.new.faults (IsErrOf result DirFail.Failed) }
    {
        match self.next_call() {
            Some(_) => Err(self.fail()),
            None => self.dir.read(alloc, name, at, buf),
        }
    }

    fn create(&mut self, alloc: Global, name: &str, bytes: &[u8]) -> Result<(), DirFail>
        ensures made { OnOk result
            (self.new.folder.files ≡ with_file name.now bytes.now self.old.folder.files) }
        ensures due { IsSome (next_failure self.old) → IsErrOf result DirFail.Failed }
        ensures left { ForSome (next_failure self.old) (λ left.
            PlannedCreate left name.now bytes.now self.old.folder.files self.new.folder.files) }
        ensures memory { IsErrOf result DirFail.OutOfMemory
            → self.new.folder.files ≡ self.old.folder.files }
        ensures asked { self.new.folder.asked ≡ self.old.folder.asked }
        ensures planned { IsPlanned self.old self.new result }
        ensures cause { IsCaused self.old.faults self.new.faults (IsErrOf result DirFail.Failed) }
    {
        match self.next_call() {
            Some(left) => {
                self.leave_created(left, name, bytes);
                Err(self.fail())
            }
            None => self.dir.create(alloc, name, bytes),
        }
    }

    fn patch(&mut self, alloc: Global, name: &str, at: u64, bytes: &[u8]) -> Result<(), DirFail>
        requires { HasRange self.old.folder.files name.now at (length bytes.now) }
        ensures answer { result ≡ planned_answer self.old tt }
        ensures written { OnOk result
            (self.new.folder.files ≡ with_patch name.now at bytes.now self.old.folder.files) }
        ensures left { ForSome (next_failure self.old) (λ left.
            self.new.folder.files ≡ left_by_patch left name.now at bytes.now self.old.folder.files) }
        ensures asked { self.new.folder.asked ≡ self.old.folder.asked }
        ensures planned { IsPlanned self.old self.new result }
        ensures cause { IsCaused self.old.faults self.new.faults (IsErrOf result DirFail.Failed) }
    {
        match self.next_call() {
            Some(left) => {
                self.leave_patched(left, name, at, bytes);
                Err(self.fail())
            }
            None => self.dir.patch(alloc, name, at, bytes),
        }
    }

    fn sync(&mut self, alloc: Global, name: &str) -> Result<(), DirFail>
        ensures answer { result ≡ planned_answer self.old tt }
        ensures same { self.new.folder ≡ self.old.folder }
        ensures planned { IsPlanned self.old self.new result }
        ensures cause { IsCaused self.old.faults self.new.faults (IsErrOf result DirFail.Failed) }
    {
        match self.next_call() {
            Some(_) => Err(self.fail()),
            None => self.dir.sync(alloc, name),
        }
    }

    fn remove(&mut self, alloc: Global, name: &str) -> Result<(), DirFail>
        ensures answer { result ≡ planned_answer self.old tt }
        ensures removed { OnOk result
            (self.new.folder.files ≡ without_file name.now self.old.folder.files) }
        ensures left { ForSome (next_failure self.old) (λ left.
            self.new.folder.files ≡ left_by_remove left name.now self.old.folder.files) }
        ensures asked { self.new.folder.asked ≡ self.old.folder.asked }
        ensures planned { IsPlanned self.old self.new result }
        ensures cause { IsCaused self.old.faults self.new.faults (IsErrOf result DirFail.Failed) }
    {
        match self.next_call() {
            Some(left) => {
                if left == Left::Absent {
                    self.dir.discard(name);
                }
                Err(self.fail())
            }
            None => self.dir.remove(alloc, name),
        }
    }
}

/// So many of the bytes, or all of them where there are fewer.
fn prefix(bytes: &[u8], count: u64) -> &[u8]
    ensures { result.now ≡ take count bytes.now }
{
    let count = (count as usize).min(bytes.len());
    &bytes[..count]
}
