//! The directory of a compound file, as far as it was read.
ghost use Rattle.std.specs.Prelude.{◌≡◌, ◌<◌, ◌+◌, [], ◌∷◌, ◌++◌, length, Some, None, OnOk, OnErr, slice_get, option_map};
ghost use Rattle.compound_file.specs.Entries.{entry_number_of, first_start, last_start, spans};
ghost use Rattle.compound_file.specs.Directories.{part_entry_of};

use crate::entry::DirectoryEntry;
use lu_prims::OutOfMemory;
use std::alloc::Global;
use std::collections::BTreeMap;
use std::marker::Model;

/// The entries of a directory in order, with their names lent from the bytes of the file. No two have one name.
#[derive(Drop)]
pub struct Directory<'a> {
    /// The entries by number, from 0.
    entries: Vec<DirectoryEntry<'a>>,
    /// The number of each name.
    numbers: BTreeMap<&'a str, usize>,
}

impl<'a> Model for Directory<'a> {
    ghost use Rattle.std.specs.Prelude.{List, map};
    ghost use Rattle.compound_file.specs.Entries.{PartEntry};
    ghost use Rattle.compound_file.specs.Directories.{part_entry_of, HasEntryNumbers};

    ghost Value = { List PartEntry };

    ghost view = { λ d. map part_entry_of d.entries.items };

    ghost invariant = { λ d. HasEntryNumbers d.numbers (map part_entry_of d.entries.items) };
}

impl<'a> Directory<'a> {
    /// The directory without entries. Takes no memory.
    pub fn new(alloc: Global) -> Directory<'a>
        ensures { result ≡ [] }
    {
        Directory {
            entries: Vec::new(alloc),
            numbers: BTreeMap::new(alloc),
        }
    }

    /// Adds an entry, whose number is the number of entries before. Takes time by the logarithm of their number.
    /// An `Err` leaves the directory as it was.
    pub fn push(&mut self, entry: DirectoryEntry<'a>) -> Result<(), OutOfMemory>
        requires { entry_number_of entry.name.now self.old ≡ None }
        ensures ok { OnOk result (self.new ≡ self.old ++ part_entry_of entry.entry ∷ []) }
        ensures err { OnErr result (self.new ≡ self.old) }
    {
        let number = self.entries.len();
        self.entries.push(entry)?;
        match self.numbers.insert(entry.name, number) {
            Ok(_) => Ok(()),
            Err(_) => {
                self.entries.pop();
                Err(OutOfMemory)
            }
        }
    }

    /// How many entries there are.
    pub fn count(&self) -> usize
        ensures { result ≡ length self.now }
    {
        self.entries.len()
    }

    /// The number of the entry with a name, from 0; `None` exactly where no entry has it.
    /// Takes time by the logarithm of the number of entries.
    pub fn find(&self, name: &str) -> Option<usize>
        ensures { result ≡ entry_number_of name.now self.now }
    {
        self.numbers.get(name).copied()
    }

    /// Where the first part starts, or another place where there is none.
    pub fn first_start(&self, other: usize) -> usize
        ensures { result ≡ first_start other self.now }
    {
        match self.entries.first() {
            Some(entry) => entry.start,
            None => other,
        }
    }

    /// Where the last part starts, or 0 where there is none.
    pub fn last_start(&self) -> usize
        ensures { result ≡ last_start 0 self.now }
    {
        match self.entries.last() {
            Some(entry) => entry.start,
            None => 0,
        }
    }

    /// Where the part with a number starts, and the place just after it, in a file of so many bytes.
    pub fn span(&self, number: usize, size: usize) -> (usize, usize)
        requires { number < length self.now }
        ensures { option_map (λ s. (s.start, s.end)) (slice_get (spans size self.now) number) ≡ Some result }
    {
        let start = self.entries[number].start;
        match self.entries.get(number + 1) {
            Some(next) => (start, next.start),
            None => (start, size),
        }
    }
}
