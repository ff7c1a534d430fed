//! What a segment is checked by, and why it does not stand.
ghost use Rattle.std.specs.Prelude.{◌≡◌, [], ◌∷◌, ◌++◌, OnOk, OnErr, option_copied};
ghost use Rattle.check_index.specs.Files.{file_at};

use lu_prims::OutOfMemory;
use lu_types::Fault;
use std::alloc::Global;
use std::marker::Model;

/// The separate norm files of a segment (format page, "Norms"), a place for each norm generation of its line. Contracts see
/// them as the list of the files, each where it is there.
#[derive(Drop)]
pub struct SepFiles<'a> {
    files: Vec<Option<&'a [u8]>>,
}

impl<'a> Model for SepFiles<'a> {
    ghost use Rattle.std.specs.Prelude.{ℕ, List, Option, map, option_copied};

    ghost Value = { List (Option (List ℕ)) };

    ghost view = { λ s. map option_copied s.files.items };
}

impl<'a> SepFiles<'a> {
    /// No place. Takes no memory.
    pub fn new(alloc: Global) -> SepFiles<'a>
        ensures { result ≡ [] }
    {
        SepFiles {
            files: Vec::new(alloc),
        }
    }

    /// Adds the next place: the file, where it is there. An `Err` leaves the list as it was.
    pub fn push(&mut self, file: Option<&'a [u8]>) -> Result<(), OutOfMemory>
        ensures ok { OnOk result (self.new ≡ self.old ++ option_copied file.entry ∷ []) }
        ensures err { OnErr result (self.new ≡ self.old) }
    {
        self.files.push(file)?;
        Ok(())
    }

    /// The file of the place with this number, from 0, where both are there.
    pub(crate) fn file(&self, place: u32) -> Option<&'a [u8]>
        ensures { option_copied result ≡ file_at self.now place }
    {
        match self.files.get(place as usize) {
            Some(file) => *file,
            None => None,
        }
    }
}

/// The files of a segment by their extensions, each where it is there (format page, "How a fault is found"). `fdx`, `fdt`, `tvx`,
/// `tvd` and `tvf` are those of the shared store where the segment has one. Of a compound segment the parts in its `cfs` are
/// not looked at here, nor those in the `cfx` of a compound store.
#[derive(Drop)]
pub struct Parts<'a> {
    /// The compound file of the segment.
    pub cfs: Option<&'a [u8]>,
    /// The compound file of the shared store.
    pub cfx: Option<&'a [u8]>,
    /// The field table.
    pub fnm: Option<&'a [u8]>,
    /// The places of the stored documents.
    pub fdx: Option<&'a [u8]>,
    /// The stored documents.
    pub fdt: Option<&'a [u8]>,
    /// The terms.
    pub tis: Option<&'a [u8]>,
    /// The index of the terms.
    pub tii: Option<&'a [u8]>,
    /// The entries and skip data of the terms.
    pub frq: Option<&'a [u8]>,
    /// The positions and payloads of the terms.
    pub prx: Option<&'a [u8]>,
    /// The norms of the fields.
    pub nrm: Option<&'a [u8]>,
    /// The norms of fields in files of their own.
    pub separate: SepFiles<'a>,
    /// The marks of deleted documents.
    pub del: Option<&'a [u8]>,
    /// The places of the vectors.
    pub tvx: Option<&'a [u8]>,
    /// Which fields of a document have a vector.
    pub tvd: Option<&'a [u8]>,
    /// The vectors.
    pub tvf: Option<&'a [u8]>,
}

/// Why a segment was not taken.
#[derive(Clone, Copy, Debug, PartialEq, Eq)]
pub enum CheckFault {
    /// The segment does not stand, and this is its first fault.
    Fault(Fault),
    /// There was no memory for what the check had to keep.
    OutOfMemory,
}
