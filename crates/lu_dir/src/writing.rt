//! The whole of some bytes, given to an output.
ghost use Rattle.std.specs.Prelude.{◌≡◌, ℕ, ◌<◌, length, take, OnOk, OnErr, IsErrOf};
ghost use Rattle.lu_dir.specs.Faults.{IsCaused};
ghost use Rattle.lu_dir.specs.Streams.{with_taken};

use crate::fail::DirFail;
use crate::stream::Sink;
use std::alloc::Global;

/// Gives all of the bytes to the output, and calls `write` only while some are left. After an `Err` a strict prefix of
/// them was taken.
pub fn write_all<K: Sink>(alloc: Global, out: &mut K, bytes: &[u8]) -> Result<(), DirFail>
    ensures taken { OnOk result (K.taken out.new ≡ with_taken bytes.now (K.taken out.old)) }
    ensures partly { OnErr result ((count : ℕ) × (count < length bytes.now)
        × (K.taken out.new ≡ with_taken (take count bytes.now) (K.taken out.old))) }
    ensures cause { IsCaused (K.faults out.old) (K.faults out.new) (IsErrOf result DirFail.Failed) }
{
    let mut at = 0;
    while at < bytes.len() {
        match out.write(alloc, &bytes[at..]) {
            Ok(count) => at += count,
            Err(fail) => return Err(fail),
        }
    }
    Ok(())
}
