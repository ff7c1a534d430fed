//! Why segments were not merged.
ghost use Rattle.std.specs.Prelude.{◌≡◌};
ghost use Rattle.seg_merger.specs.MergeSteps.{IsOfMerge, merge_fault};

use lu_prims::OutOfMemory;
use lu_types::FileKind;
use seg_writer::WriteFault;

/// Why segments were not merged.
#[derive(Clone, Copy, Debug, PartialEq, Eq)]
pub enum MergeFault {
    /// So many documents are live, more than the limit.
    TooMany(u64),
    /// No more documents are live than the limit, and the file of this kind is the first that passes the limit.
    TooLarge(FileKind),
    /// There was no memory.
    OutOfMemory,
}

impl From<OutOfMemory> for MergeFault {
    ghost use Rattle.std.specs.Prelude.{◌≡◌};
    ghost use Rattle.seg_merger.specs.declared.fault.MergeFault.TheVariants.{OutOfMemory as no_memory};

    ghost from_gives = { λ _ fault. fault ≡ no_memory };

    fn from(_error: OutOfMemory) -> MergeFault {
        MergeFault::OutOfMemory
    }
}

/// Why segments were not merged, where the files of their merge were not written.
pub(crate) fn merge_fault(fault: WriteFault) -> MergeFault
    requires { IsOfMerge fault }
    ensures { result ≡ merge_fault fault }
{
    match fault {
        WriteFault::Doc(_, _) => unreachable!(),
        WriteFault::TooLarge(kind) => MergeFault::TooLarge(kind),
        WriteFault::OutOfMemory => MergeFault::OutOfMemory,
    }
}
