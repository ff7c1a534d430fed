//! The field table is written.
ghost use Rattle.std.specs.Prelude.{◌≡◌, ◌<◌, ◌^◌, [], ◌∷◌, length, All};
ghost use Rattle.lu_types.specs.Tables.{IsTable};
ghost use Rattle.lu_types.specs.declared.kind.FileKind.TheVariants.{Fnm};
ghost use Rattle.field_infos.specs.Spelling.{fnm_spelling};
ghost use Rattle.segment_files.specs.Parts.{keep_positions};
ghost use Rattle.posting_files.specs.States.{named};
ghost use Rattle.seg_writer.specs.Answers.{Wrote};

use crate::fault::WriteFault;
use lu_types::bits::{INDEXED, OMIT_TF, has_bit};
use lu_types::{Bytes, FieldInfo, FileKind};
use std::alloc::Global;

/// Below this a number has a spelling.
const NUMBERS: usize = 0x8000_0000;

/// The file of the field table, or that it passes the limit.
pub fn write_fields(alloc: Global, limit: u32, fields: &[FieldInfo]) -> Result<Bytes, WriteFault>
    requires limit { limit < 2 ^ 31 }
    requires table { length fields.now < 2 ^ 31 → IsTable fields.now }
    requires short { All (λ info. length info.name < 2 ^ 31) fields.now }
    ensures { Wrote (λ fnm. named Fnm fnm ∷ []) limit (named Fnm (fnm_spelling fields.now) ∷ []) result }
{
    if fields.len() >= NUMBERS {
        return Err(WriteFault::TooLarge(FileKind::Fnm));
    }
    let fnm = field_infos::write(alloc, fields)?;
    if fnm.len() > limit as usize {
        return Err(WriteFault::TooLarge(FileKind::Fnm));
    }
    Ok(Bytes::new(fnm))
}

/// Whether some field keeps positions.
pub fn keep_positions(fields: &[FieldInfo]) -> bool
    ensures { result ≡ keep_positions fields.now }
{
    fields.iter().any(|field| has_bit(INDEXED, field.bits) && !has_bit(OMIT_TF, field.bits))
}
