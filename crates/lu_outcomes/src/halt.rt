//! Why a command comes to no outcome.
use lu_prims::OutOfMemory;

/// Why a command came to no outcome.
#[derive(Clone, Copy, Debug, PartialEq, Eq)]
pub enum Halt {
    /// The folder failed.
    Folder,
    /// The input failed.
    Input,
    /// There was no memory.
    OutOfMemory,
}

impl From<OutOfMemory> for Halt {
    ghost use Rattle.std.specs.Prelude.{◌≡◌};
    ghost use Rattle.lu_outcomes.specs.declared.halt.Halt.TheVariants.{OutOfMemory as no_memory};

    ghost from_gives = { λ _ halt. halt ≡ no_memory };

    fn from(_error: OutOfMemory) -> Halt {
        Halt::OutOfMemory
    }
}
