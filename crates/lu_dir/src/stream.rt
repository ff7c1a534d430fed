//! An input and an output.
ghost use Rattle.std.specs.Prelude.{◌≡◌, ℕ, ◌<◌, ◌≤◌, List, length, take, drop, Option, Some, IfOk, OnErr, IsErrOf};
ghost use Rattle.std.specs.Option.{ForSome};
ghost use Rattle.lu_dir.specs.Faults.{IsCaused};
ghost use Rattle.lu_dir.specs.Streams.{Moves, with_taken};

use crate::fail::DirFail;
use std::alloc::Global;

/// An input. `left` are the bytes that it has yet to give, where it tells them; `faults` counts failures of the device
/// and never falls.
pub trait Source {
    ghost left: { Self → Option (List ℕ) };

    ghost faults: { Self → ℕ };

    /// Moves some of the bytes left to the front of the buffer, and says how many. It says 0 for a buffer that is not
    /// empty only where none are left. After an `Err` nothing is moved.
    fn read(&mut self, alloc: Global, buf: &mut [u8]) -> Result<usize, DirFail>
        ensures within { IfOk result (λ count. count ≤ length buf.old) }
        ensures moved { IfOk result (λ count. ForSome (left self.old) (λ bytes.
            Moves count bytes buf.old buf.new × (left self.new ≡ Some (drop count bytes)))) }
        ensures unmoved { OnErr result ((left self.new ≡ left self.old) × (buf.new ≡ buf.old)) }
        ensures cause { IsCaused (faults self.old) (faults self.new) (IsErrOf result DirFail.Failed) };
}

/// An output. `taken` are the bytes that it took, where it tells them; `faults` counts failures of the device and
/// never falls.
pub trait Sink {
    ghost taken: { Self → Option (List ℕ) };

    ghost faults: { Self → ℕ };

    /// Takes a prefix of the piece, and says how long a one: at least one byte of a piece that is not empty. After an
    /// `Err` nothing is taken.
    fn write(&mut self, alloc: Global, bytes: &[u8]) -> Result<usize, DirFail>
        ensures within { IfOk result (λ count. count ≤ length bytes.now) }
        ensures some { IfOk result (λ count. 0 < length bytes.now → 0 < count) }
        ensures taken { IfOk result (λ count. taken self.new ≡ with_taken (take count bytes.now) (taken self.old)) }
        ensures untaken { OnErr result (taken self.new ≡ taken self.old) }
        ensures cause { IsCaused (faults self.old) (faults self.new) (IsErrOf result DirFail.Failed) };
}
