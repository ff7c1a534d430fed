//! The parts of a compound file: checked once, and then lent (format page, "Compound files").
ghost use Rattle.std.specs.Prelude.{◌≡◌, length, option_map};
ghost use Rattle.lu_types.specs.Judging.{Checks};
ghost use Rattle.compound_file.specs.Entries.{part_named};
ghost use Rattle.compound_file.specs.Cfs.{cfs_plan};

use crate::directory::Directory;
use crate::reading::{Bounds, read_directory};
use lu_prims::Cur;
use lu_types::rules::{TRAILING, rule_of};
use lu_types::{CodecFault, FileKind, Spot};
use std::alloc::Global;
use std::marker::Model;

/// The parts of a compound file that has no fault, lent from its bytes. Contracts see them as the list of the parts, each with
/// its name and its bytes, in the order of the directory.
#[derive(Drop)]
pub struct CfsEntries<'a> {
    /// The bytes of the file.
    bytes: &'a [u8],
    /// Where each part starts.
    directory: Directory<'a>,
}

impl<'a> Model for CfsEntries<'a> {
    ghost use Rattle.std.specs.Prelude.{◌≡◌, List, length};
    ghost use Rattle.compound_file.specs.Entries.{NamedPart, Rise, parts_in};

    ghost Value = { List NamedPart };

    ghost view = { λ e. parts_in e.bytes.now e.directory };

    ghost invariant = { λ e. Rise 0 (length e.bytes.now) e.directory };
}

impl<'a> CfsEntries<'a> {
    /// The bytes of the part with a name, as a slice of the file; `None` exactly where no part has it.
    /// Takes time by the logarithm of the number of parts, and no memory.
    pub fn get(&self, name: &str) -> Option<&'a [u8]>
        ensures { option_map (λ part. part.now) result ≡ part_named name.now self.now }
    {
        match self.directory.find(name) {
            None => None,
            Some(number) => {
                let (start, end) = self.directory.span(number, self.bytes.len());
                Some(&self.bytes[start..end])
            }
        }
    }
}

/// The parts of a compound file: of a segment, `.cfs`, or of a shared document store, `.cfx`, which has the same layout and rules
/// (format page, "Compound files"). `kind` is what a fault names.
///
/// An `Err` is the first fault of the file, or want of memory. Walks the directory alone, in time n · log n of its bytes.
pub fn split<'a>(
    alloc: Global,
    kind: FileKind,
    bytes: &'a [u8],
) -> Result<CfsEntries<'a>, CodecFault>
    ensures { Checks (λ parts. parts) kind (cfs_plan (length bytes.entry.now)) bytes.entry.now result }
{
    let mut cur = Cur::at(bytes, 0);
    let count = match cur.num() {
        Ok(count) => count,
        Err(bad) => return Err(CodecFault::Spot(Spot::at(kind, 0, rule_of(bad)))),
    };
    let size = bytes.len();
    let directory = match read_directory(alloc, kind, &mut cur, Bounds { size, count }) {
        Ok(directory) => directory,
        Err(found) => return Err(found),
    };
    if count == 0 && cur.left() > 0 {
        return Err(CodecFault::Spot(Spot::at(kind, cur.place(), TRAILING)));
    }
    Ok(CfsEntries { bytes, directory })
}
