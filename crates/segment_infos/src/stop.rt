//! Why a call that reads and takes memory stopped.
ghost use Rattle.std.specs.Prelude.{◌≡◌};
ghost use Rattle.segment_infos.specs.declared.stop.Stop.TheVariants as stops;

use lu_prims::{Bad, OutOfMemory};
use std::alloc::{AllocError, AllocFailed};

/// Why a call that reads and takes memory stopped: something is wrong, or there was no memory.
#[derive(Clone, Copy, Debug)]
pub enum Stop<E> {
    Wrong(E),
    OutOfMemory,
}

impl From<Bad> for Stop<Bad> {
    ghost from_gives = { λ bad stop. stop ≡ stops.Wrong bad };

    fn from(bad: Bad) -> Stop<Bad> {
        Stop::Wrong(bad)
    }
}

impl From<OutOfMemory> for Stop<Bad> {
    ghost from_gives = { λ _ stop. stop ≡ stops.OutOfMemory };

    fn from(_error: OutOfMemory) -> Stop<Bad> {
        Stop::OutOfMemory
    }
}

impl From<AllocError> for Stop<Bad> {
    ghost from_gives = { λ _ stop. stop ≡ stops.OutOfMemory };

    fn from(_error: AllocError) -> Stop<Bad> {
        Stop::OutOfMemory
    }
}

impl<T: Drop> From<AllocFailed<T>> for Stop<Bad> {
    ghost from_gives = { λ _ stop. stop ≡ stops.OutOfMemory };

    fn from(_error: AllocFailed<T>) -> Stop<Bad> {
        Stop::OutOfMemory
    }
}
