//! Why a call of the outside failed.
ghost use Rattle.std.specs.Prelude.{◌≡◌};
ghost use Rattle.lu_dir.specs.declared.fail.DirFail.TheVariants.{OutOfMemory as no_memory};

use lu_prims::OutOfMemory;
use std::alloc::AllocError;

/// Why a call of a folder, a source or a sink failed.
#[derive(Clone, Copy, Debug, PartialEq, Eq)]
pub enum DirFail {
    /// The device failed.
    Failed,
    /// There was no memory for what the call had to keep.
    OutOfMemory,
}

impl From<AllocError> for DirFail {
    ghost from_gives = { λ _ e. e ≡ no_memory };

    fn from(_error: AllocError) -> DirFail {
        DirFail::OutOfMemory
    }
}

impl From<OutOfMemory> for DirFail {
    ghost from_gives = { λ _ e. e ≡ no_memory };

    fn from(_error: OutOfMemory) -> DirFail {
        DirFail::OutOfMemory
    }
}
