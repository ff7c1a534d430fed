//! The real folder.
ghost use Rattle.std.specs.Prelude.{◌≡◌, None, IfOk, IsErrOf, option_map, string_bytes};
ghost use Rattle.lu_dir.specs.Faults.{IsCaused};
ghost use Rattle.lu_dir.specs.Host.{path_of, told_answer, told_change};

use crate::dir::Dir;
use crate::fail::DirFail;
use crate::fault_count::FaultCount;
use std::alloc::{AllocError, Global};
use std::fs::{self, DirEntry, OpenFile, OpenOptions};
use std::io::{self, Read, Seek, SeekFrom, Write};
use std::marker::Model;
use std::rt::Runtime;

/// The folder at a path of the system; before `enter`, the current folder. It does not tell its files. Each file is
/// named by its name alone, and a folder or a device within it is no file.
#[derive(Drop)]
pub struct HostDir<'r, R: Runtime + AllocGlobal> {
    rt: &'r R,
    path: Option<String>,
    faults: FaultCount,
}

impl<'r, R: Runtime + AllocGlobal> Model for HostDir<'r, R> {
    ghost use Rattle.std.specs.Prelude.{option_map, string_bytes};
    ghost use Rattle.lu_dir.specs.Host.{Host};

    ghost Value = { Host };

    ghost view = { λ a. record { asked = option_map string_bytes a.path; faults = a.faults } };
}

impl<'r, R: Runtime + AllocGlobal> HostDir<'r, R> {
    /// The folders of the system.
    pub fn new(rt: &'r R) -> HostDir<'r, R>
        ensures asked { result.asked ≡ None }
        ensures faults { result.faults ≡ 0 }
    {
        HostDir {
            rt,
            path: None,
            faults: FaultCount::new(),
        }
    }

    /// The answer of a call of the system, whose failure is counted.
    fn answer<T>(&mut self, outcome: io::Result<T>) -> Result<T, DirFail>
        ensures answer { result ≡ told_answer outcome }
        ensures asked { self.new.asked ≡ self.old.asked }
        ensures cause { IsCaused self.old.faults self.new.faults (IsErrOf result DirFail.Failed) }
    {
        match outcome {
            Ok(value) => Ok(value),
            Err(error) => Err(self.faults.answer(&error)),
        }
    }

    /// The answer of a call of the system that may have changed a file: it failed whatever the reason.
    fn answer_changed<T>(&mut self, outcome: io::Result<T>) -> Result<T, DirFail>
        ensures answer { result ≡ told_change outcome }
        ensures asked { self.new.asked ≡ self.old.asked }
        ensures cause { IsCaused self.old.faults self.new.faults (IsErrOf result DirFail.Failed) }
    {
        match outcome {
            Ok(value) => Ok(value),
            Err(_) => Err(self.faults.rise()),
        }
    }
}

/// The path of a file in a folder.
fn path_in(alloc: Global, folder: &Option<String>, name: &str) -> Result<String, AllocError>
    ensures { IfOk result (λ path.
        string_bytes path ≡ path_of (option_map string_bytes folder.now) name.now) }
{
    match folder {
        Some(folder) => format!(in alloc; "{folder}/{name}"),
        None => String::from_str(alloc, name),
    }
}

/// The names of the files of a folder.
fn names_in<R: Runtime + AllocGlobal>(
    rt: &R,
    alloc: Global,
    folder: &Option<String>,
) -> io::Result<Vec<String>> {
    let folder = match folder {
        Some(folder) => folder.as_str(),
        None => ".",
    };
    let mut names = Vec::new(alloc);
    for entry in fs::read_dir(rt, folder)? {
        let entry = entry?;
        if is_file(rt, &entry)? {
            names.push(String::from_str(alloc, entry.file_name())?)?;
        }
    }
    Ok(names)
}

/// Whether an entry of a folder is a file, or leads to one.
fn is_file<R: Runtime + AllocGlobal>(rt: &R, entry: &DirEntry<R>) -> io::Result<bool> {
    Ok(length_at(rt, entry.path().as_str())?.is_some())
}

/// The length of the file at a path, where there is one.
fn length_at<R: Runtime + AllocGlobal>(rt: &R, path: &str) -> io::Result<Option<u64>> {
    match fs::metadata(rt, path) {
        Ok(found) if found.is_file() => Ok(Some(found.len())),
        Ok(_) => Ok(None),
        Err(error) if error.kind() == io::ErrorKind::NotFound => Ok(None),
        Err(error) => Err(error),
    }
}

/// Fills the buffer with the bytes of a file from a place on.
fn read_at<R: Runtime + AllocGlobal>(
    rt: &R,
    path: &str,
    at: u64,
    buf: &mut [u8],
) -> io::Result<()> {
    let mut file = OpenOptions::new().read(true).open(rt, path)?;
    file.seek(SeekFrom::Start(at))?;
    file.read_exact(buf)
}

/// Makes or replaces a file.
fn create_at<R: Runtime + AllocGlobal>(rt: &R, path: &str, bytes: &[u8]) -> io::Result<()> {
    let mut file = fs::create(rt, path)?;
    file.write_all(bytes)
}

/// Opens a file to write from the place `at` on, which changes nothing.
fn open_at<R: Runtime + AllocGlobal>(rt: &R, path: &str, at: u64) -> io::Result<R::File> {
    let mut file = OpenOptions::new().write(true).open(rt, path)?;
    file.seek(SeekFrom::Start(at))?;
    Ok(file)
}

/// Waits until a file is on the device.
fn sync_at<R: Runtime + AllocGlobal>(rt: &R, path: &str) -> io::Result<()> {
    OpenOptions::new().read(true).open(rt, path)?.sync_all()
}

/// Removes a file, where there is one.
fn remove_at<R: Runtime + AllocGlobal>(rt: &R, path: &str) -> io::Result<()> {
    match fs::remove_file(rt, path) {
        Err(error) if error.kind() == io::ErrorKind::NotFound => Ok(()),
        outcome => outcome,
    }
}

impl<R: Runtime + AllocGlobal> Dir for HostDir<'_, R> {
    ghost files = { λ _. None };

    ghost asked = { λ d. d.asked };

    ghost faults = { λ d. d.faults };

    /// Fails where the path is no folder.
    fn enter(&mut self, alloc: Global, path: &str) -> Result<(), DirFail> {
        let text = String::from_str(alloc, path)?;
        let found = fs::metadata(self.rt, path);
        let found = match self.answer(found) {
            Err(DirFail::OutOfMemory) => return Err(DirFail::OutOfMemory),
            found => found,
        };
        self.path = Some(text);
        if found?.is_dir() {
            Ok(())
        } else {
            Err(self.faults.rise())
        }
    }

    /// Fails where the folder has a name that is not UTF-8.
    fn list(&mut self, alloc: Global) -> Result<Vec<String>, DirFail> {
        let names = names_in(self.rt, alloc, &self.path);
        self.answer(names)
    }

    fn length(&mut self, alloc: Global, name: &str) -> Result<Option<u64>, DirFail> {
        let path = path_in(alloc, &self.path, name)?;
        let length = length_at(self.rt, path.as_str());
        self.answer(length)
    }

    fn read(&mut self, alloc: Global, name: &str, at: u64, buf: &mut [u8]) -> Result<(), DirFail> {
        let path = path_in(alloc, &self.path, name)?;
        let mut bytes = vec![in alloc; 0; buf.len()]?;
        let outcome = read_at(self.rt, path.as_str(), at, bytes.as_mut_slice());
        self.answer(outcome)?;
        buf.copy_from_slice(&bytes);
        Ok(())
    }

    fn create(&mut self, alloc: Global, name: &str, bytes: &[u8]) -> Result<(), DirFail> {
        let path = path_in(alloc, &self.path, name)?;
        let outcome = create_at(self.rt, path.as_str(), bytes);
        self.answer_changed(outcome)
    }

    fn patch(&mut self, alloc: Global, name: &str, at: u64, bytes: &[u8]) -> Result<(), DirFail> {
        let path = path_in(alloc, &self.path, name)?;
        let opened = open_at(self.rt, path.as_str(), at);
        let mut file = self.answer(opened)?;
        let outcome = file.write_all(bytes);
        self.answer_changed(outcome)
    }

    fn sync(&mut self, alloc: Global, name: &str) -> Result<(), DirFail> {
        let path = path_in(alloc, &self.path, name)?;
        let outcome = sync_at(self.rt, path.as_str());
        self.answer(outcome)
    }

    fn remove(&mut self, alloc: Global, name: &str) -> Result<(), DirFail> {
        let path = path_in(alloc, &self.path, name)?;
        let outcome = remove_at(self.rt, path.as_str());
        self.answer(outcome)
    }
}
