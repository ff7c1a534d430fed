//! Files that are needed.
ghost use Rattle.std.specs.Prelude.{◌≡◌, Some, None, MatchResult, option_copied};
ghost use Rattle.lu_types.specs.FilePlans.{missing as spot_of_missing};
ghost use Rattle.lu_types.specs.declared.fault.CodecFault.TheVariants as faults;

use lu_types::rules::MISSING;
use lu_types::{CodecFault, FileKind, Spot};

/// The fault of a file that is not there.
pub fn missing_file(kind: FileKind) -> Spot
    ensures { result ≡ spot_of_missing kind }
{
    Spot::at(kind, 0, MISSING)
}

/// The bytes of a needed file, or the fault that it is not there.
pub fn needed<'a>(file: Option<&'a [u8]>, kind: FileKind) -> Result<&'a [u8], CodecFault>
    ensures { MatchResult result
        (λ bytes. option_copied file.entry ≡ Some bytes.now)
        (λ fault. (option_copied file.entry ≡ None) × (fault ≡ faults.Spot (spot_of_missing kind))) }
{
    match file {
        Some(bytes) => Ok(bytes),
        None => Err(CodecFault::Spot(missing_file(kind))),
    }
}
