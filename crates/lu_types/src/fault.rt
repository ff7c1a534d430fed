ghost use Rattle.std.specs.Prelude.{◌≡◌};
ghost use Rattle.lu_types.specs.declared.fault.CodecFault.TheVariants.{OutOfMemory as no_memory};

use crate::kind::FileKind;
use lu_prims::OutOfMemory;

/// Where the first fault of a file stands, and which rule it breaks (format page, "How a fault is found").
#[derive(Clone, Copy, Debug, PartialEq, Eq)]
pub struct Spot {
    /// The file.
    pub kind: FileKind,
    /// How many bytes of the file stand before the first record that is not good.
    pub offset: u64,
    /// The number of the rule that this record breaks first.
    pub rule: u16,
}

impl Spot {
    /// The spot of the rule that is broken at a place in a file of the kind, counted in bytes from its start.
    pub fn at(kind: FileKind, place: usize, rule: u16) -> Spot
        ensures { result ≡ record { kind = kind; offset = place; rule = rule } }
    {
        Spot {
            kind,
            offset: place as u64,
            rule,
        }
    }
}

/// A fault of a commit or of one of its segments (format page, "How a fault is found").
#[derive(Clone, Copy, Debug, PartialEq, Eq)]
pub struct Fault {
    /// The place of the segment in the list of the commit, from 0; 0 for the commit itself.
    pub segment: u32,
    pub spot: Spot,
}

/// Why a file was not taken.
#[derive(Clone, Copy, Debug, PartialEq, Eq)]
pub enum CodecFault {
    /// The file is not good, and this is its first fault.
    Spot(Spot),
    /// There was no memory for what the call had to keep.
    OutOfMemory,
}

impl From<OutOfMemory> for CodecFault {
    ghost from_gives = { λ _ fault. fault ≡ no_memory };

    fn from(_error: OutOfMemory) -> CodecFault {
        CodecFault::OutOfMemory
    }
}
