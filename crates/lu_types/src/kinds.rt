//! The kinds of files that are parts of a segment (format page, "Names of files").
use crate::kind::FileKind;

/// The kinds of the parts up to the norms, in the order in which files are checked.
pub const FRONT_KINDS: [FileKind; 10] = [
    FileKind::Cfs,
    FileKind::Cfx,
    FileKind::Fnm,
    FileKind::Fdx,
    FileKind::Fdt,
    FileKind::Tis,
    FileKind::Tii,
    FileKind::Frq,
    FileKind::Prx,
    FileKind::Nrm,
];

/// The kinds of the parts behind the deleted documents.
pub const VECTOR_KINDS: [FileKind; 3] = [FileKind::Tvx, FileKind::Tvd, FileKind::Tvf];

/// The kinds of files that are parts, in the order in which files are checked.
pub const PART_KINDS: [FileKind; 13] = [
    FileKind::Cfs,
    FileKind::Cfx,
    FileKind::Fnm,
    FileKind::Fdx,
    FileKind::Fdt,
    FileKind::Tis,
    FileKind::Tii,
    FileKind::Frq,
    FileKind::Prx,
    FileKind::Nrm,
    FileKind::Tvx,
    FileKind::Tvd,
    FileKind::Tvf,
];
