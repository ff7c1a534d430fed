ghost use Rattle.std.specs.Prelude.{◌≡◌, ◌↔◌, IfOk, IsTrue, string_bytes, Some};
ghost use Rattle.lu_types.specs.Kinds.{extension, IsBefore};

use lu_prims::OutOfMemory;
use std::alloc::Global;
use std::fmt;

/// The kinds of files, in the order in which files are checked (format page, "How a fault is found").
#[derive(Clone, Copy, Debug, PartialEq, Eq, PartialOrd, Ord)]
pub enum FileKind {
    /// A commit: `segments_N`.
    Commit,
    /// The files of a segment in one.
    Cfs,
    /// The files of a shared document store in one.
    Cfx,
    /// The field table.
    Fnm,
    /// The places of the stored documents.
    Fdx,
    /// The stored documents.
    Fdt,
    /// The terms.
    Tis,
    /// The index of the terms.
    Tii,
    /// The documents of the terms, with frequencies and skip data.
    Frq,
    /// The positions and payloads of the terms.
    Prx,
    /// The norms of the fields.
    Nrm,
    /// The norms of the field with this number, in a file of their own.
    Sep(u32),
    /// The marks of deleted documents.
    Del,
    /// The places of the term vectors.
    Tvx,
    /// Which fields of a document have a term vector.
    Tvd,
    /// The term vectors.
    Tvf,
}

impl FileKind {
    /// Whether files of this kind are checked before those of the other.
    pub fn is_before(&self, other: &FileKind) -> bool
        ensures { IsTrue result ↔ IsBefore self.now other.now }
    {
        self < other
    }

    /// The extension of the names of such files, without the dot; of a commit the word before `_` (format page, "Names of files").
    pub fn extension(&self, alloc: Global) -> Result<String, OutOfMemory>
        ensures { IfOk result (λ text. string_bytes text ≡ extension self.now) }
    {
        let text = self.to_string(alloc)?;
        Ok(text)
    }
}

/// Writes the extension.
impl fmt::Display for FileKind {
    ghost use Rattle.std.specs.Prelude.{Some};
    ghost use Rattle.lu_types.specs.Kinds.{extension};

    ghost output = { λ kind. Some (extension kind) };

    fn fmt<W: fmt::Write>(&self, f: &mut fmt::Formatter<W>) -> fmt::Result {
        match self {
            FileKind::Commit => write!(f, "segments"),
            FileKind::Cfs => write!(f, "cfs"),
            FileKind::Cfx => write!(f, "cfx"),
            FileKind::Fnm => write!(f, "fnm"),
            FileKind::Fdx => write!(f, "fdx"),
            FileKind::Fdt => write!(f, "fdt"),
            FileKind::Tis => write!(f, "tis"),
            FileKind::Tii => write!(f, "tii"),
            FileKind::Frq => write!(f, "frq"),
            FileKind::Prx => write!(f, "prx"),
            FileKind::Nrm => write!(f, "nrm"),
            FileKind::Sep(field) => write!(f, "s{field}"),
            FileKind::Del => write!(f, "del"),
            FileKind::Tvx => write!(f, "tvx"),
            FileKind::Tvd => write!(f, "tvd"),
            FileKind::Tvf => write!(f, "tvf"),
        }
    }
}
