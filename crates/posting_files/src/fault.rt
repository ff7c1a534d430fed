//! Why terms were not written.
ghost use Rattle.std.specs.Prelude.{◌≡◌};

use lu_prims::OutOfMemory;
use lu_types::FileKind;

/// Why terms were not written.
#[derive(Clone, Copy, Debug, PartialEq, Eq)]
pub enum PostingFault {
    /// The file of this kind passes the limit, and none before it in the order in which the files of terms are written does:
    /// positions, entries, terms, index.
    TooLarge(FileKind),
    /// There was no memory.
    OutOfMemory,
}

impl From<OutOfMemory> for PostingFault {
    ghost use Rattle.posting_files.specs.declared.fault.PostingFault.TheVariants.{OutOfMemory as no_memory};

    ghost from_gives = { λ _ fault. fault ≡ no_memory };

    fn from(_error: OutOfMemory) -> PostingFault {
        PostingFault::OutOfMemory
    }
}
