//! Why a commit or a segment of a folder was not read.
ghost use Rattle.std.specs.Prelude.{◌≡◌};
ghost use Rattle.lu_folder.specs.declared.fault.FolderFault.TheVariants.{OutOfMemory as no_memory};

use lu_prims::OutOfMemory;
use lu_types::{Fault, FileKind};

/// Why a commit or a segment of a folder was not read.
#[derive(Clone, Copy, Debug, PartialEq, Eq)]
pub enum FolderFault {
    /// The device failed.
    Failed,
    /// No name is that of a commit.
    NoIndex,
    /// A file of this kind, the first that was to be read, has more than 2^31 - 1 bytes.
    FileTooLarge(FileKind),
    /// The commit of this generation, which counts, is not good, and this is its first fault.
    NotStanding(u64, Fault),
    /// There was no memory for what the call had to keep.
    OutOfMemory,
}

impl From<OutOfMemory> for FolderFault {
    ghost from_gives = { λ _ fault. fault ≡ no_memory };

    fn from(_error: OutOfMemory) -> FolderFault {
        FolderFault::OutOfMemory
    }
}
