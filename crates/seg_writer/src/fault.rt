//! Why a segment was not written.
ghost use Rattle.std.specs.Prelude.{◌≡◌};
ghost use Rattle.seg_writer.specs.Answers.{write_fault};

use lu_prims::OutOfMemory;
use lu_types::{DocFault, FileKind};
use posting_files::PostingFault;

/// Why a segment was not written.
#[derive(Clone, Copy, Debug, PartialEq, Eq)]
pub enum WriteFault {
    /// The document with this number, from 0, is the first that breaks a rule; this is its first fault.
    Doc(u32, DocFault),
    /// No document breaks a rule, and the file of this kind is the first that passes the limit.
    TooLarge(FileKind),
    /// There was no memory.
    OutOfMemory,
}

impl From<OutOfMemory> for WriteFault {
    ghost use Rattle.std.specs.Prelude.{◌≡◌};
    ghost use Rattle.seg_writer.specs.declared.fault.WriteFault.TheVariants.{OutOfMemory as no_memory};

    ghost from_gives = { λ _ fault. fault ≡ no_memory };

    fn from(_error: OutOfMemory) -> WriteFault {
        WriteFault::OutOfMemory
    }
}

/// Why a segment was not written, where its terms were not.
pub fn fault_of(fault: PostingFault) -> WriteFault
    ensures { result ≡ write_fault fault }
{
    match fault {
        PostingFault::TooLarge(kind) => WriteFault::TooLarge(kind),
        PostingFault::OutOfMemory => WriteFault::OutOfMemory,
    }
}
