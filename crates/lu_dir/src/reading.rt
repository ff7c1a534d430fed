//! The whole of an input.
ghost use Rattle.std.specs.Prelude.{◌≡◌, ℕ, ◌<◌, ◌≤◌, ◌^◌, [], length, drop, Some, IfOk, OnErr, IsErrOf};
ghost use Rattle.std.specs.Option.{ForSome};
ghost use Rattle.lu_dir.specs.Faults.{IsCaused};

use crate::loading::LoadFault;
use crate::stream::Source;
use lu_prims::OutOfMemory;
use std::alloc::Global;

/// How many bytes are asked of an input at once.
const PIECE: usize = 1 << 16;

/// Reads an input to its end, in pieces of any size. `TooLarge(0)` says that more than `limit` bytes came. After an `Err`
/// some of the bytes may have been taken from the input.
pub fn read_all<S: Source>(alloc: Global, src: &mut S, limit: u64) -> Result<Vec<u8>, LoadFault>
    requires { limit < 2 ^ 31 }
    ensures all { IfOk result (λ bytes. ForSome (S.left src.old) (λ left.
        (bytes.items ≡ left) × (S.left src.new ≡ Some []))) }
    ensures within { IfOk result (λ bytes. length bytes.items ≤ limit) }
    ensures over { (place : ℕ) → IsErrOf result (LoadFault.TooLarge place) → (place ≡ 0)
        × ForSome (S.left src.old) (λ left. limit < length left) }
    ensures taken { OnErr result (ForSome (S.left src.old) (λ left.
        (count : ℕ) × (S.left src.new ≡ Some (drop count left)))) }
    ensures cause { IsCaused (S.faults src.old) (S.faults src.new) (IsErrOf result LoadFault.Failed) }
{
    let mut bytes = Vec::new(alloc);
    let mut room = buffer(alloc, PIECE)?;
    let piece = room.as_mut_slice();
    loop {
        let count = match src.read(alloc, piece) {
            Ok(0) => return Ok(bytes),
            Ok(count) => count,
            Err(fail) => return Err(fail.into()),
        };
        if bytes.len() + count > limit as usize {
            return Err(LoadFault::TooLarge(0));
        }
        if let Err(error) = bytes.extend_from_slice(&piece[..count]) {
            return Err(error.into());
        }
    }
}

/// A buffer with room for so many bytes.
fn buffer(alloc: Global, room: usize) -> Result<Vec<u8>, OutOfMemory>
    ensures { IfOk result (λ bytes. length bytes.items ≡ room) }
{
    Ok(vec![in alloc; 0; room]?)
}
