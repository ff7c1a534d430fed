//! The last bytes of a commit.
ghost use Rattle.std.specs.Prelude.{◌≡◌, ◌≤◌, length, option_map, OnOk, OnErr, Some};
ghost use Rattle.std.specs.Option.{ForSome};
ghost use Rattle.segment_infos.specs.Spelling.{pending};
ghost use Rattle.lu_dir.specs.Faults.{IsCaused};
ghost use Rattle.lu_dir.specs.Files.{contents, with_file, Leaves};
ghost use Rattle.lu_folder.specs.Sealing.{SealLeaves, HasFailed};

use lu_dir::{Dir, DirFail};
use std::alloc::Global;

/// How many bytes are written at once where a commit is sealed: those of its checksum.
const SEAL: usize = 8;

/// Turns the pending form of a commit into the final one, by one write of its last eight bytes. `Ok(None)` says that the file
/// is final and on the device, and `Ok(Some(f))` that it is final, and that waiting for the device answered `f`. After an
/// `Err`, which is that of the write, the file is as before or final.
pub fn seal<D: Dir>(
    alloc: Global,
    dir: &mut D,
    name: &str,
    bytes: &[u8],
) -> Result<Option<DirFail>, DirFail>
    requires long { 8 ≤ length bytes.now }
    requires pending { ForSome (D.files dir.old) (λ told. contents told name.now ≡ Some (pending bytes.now)) }
    ensures sealed { OnOk result (D.files dir.new ≡ option_map (with_file name.now bytes.now) (D.files dir.old)) }
    ensures left { OnErr result (Leaves (SealLeaves name.now bytes.now) (D.files dir.old) (D.files dir.new)) }
    ensures asked { D.asked dir.new ≡ D.asked dir.old }
    ensures cause { IsCaused (D.faults dir.old) (D.faults dir.new) (HasFailed result) }
{
    let at = bytes.len() - SEAL;
    match dir.patch(alloc, name, at as u64, &bytes[at..]) {
        Ok(()) => match dir.sync(alloc, name) {
            Ok(()) => Ok(None),
            Err(fail) => Ok(Some(fail)),
        },
        Err(fail) => Err(fail),
    }
}
