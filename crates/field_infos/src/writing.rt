//! Writing a `.fnm` file.
ghost use Rattle.std.specs.Prelude.{◌≡◌, ℕ, ◌^◌, ◌<◌, ◌++◌, IsUtf8, Bool, true, false, List, length, All, Option, None, IfOk};
ghost use Rattle.lu_grammar.specs.Meaning.{Reads};
ghost use Rattle.lu_types.specs.Tables.{TableField, IsTable};
ghost use Rattle.field_infos.specs.Fnm.{fnm_plan, is_other_count, lacks_prox};
ghost use Rattle.field_infos.specs.Spelling.{AreNamed, field_spelling, fnm_spelling};

use crate::FORMAT;
use lu_prims::{OutOfMemory, put_text, put_vint};
use lu_types::FieldInfo;
use std::alloc::Global;

/// The bytes of the `.fnm` file that holds these fields (format page, "Field tables"): its one spelling, which reads as
/// exactly this table. An `Err` is want of memory.
pub fn write(alloc: Global, table: &[FieldInfo]) -> Result<Vec<u8>, OutOfMemory>
    requires table { IsTable table.now }
    requires short { All (λ info. length info.name < 2 ^ 31) table.now }
    ensures spelling { IfOk result (λ bytes. bytes.items ≡ fnm_spelling table.now) }
    ensures reads { IfOk result (λ bytes. Reads (fnm_plan true None) bytes.items table.now) }
{
    let mut out = Vec::new(alloc);
    put_vint(&mut out, FORMAT)?;
    put_vint(&mut out, table.len() as u32)?;
    for info in table {
        put_field(&mut out, info)?;
    }
    Ok(out)
}

/// Appends the name and the bits of a field.
fn put_field(out: &mut Vec<u8>, info: &FieldInfo) -> Result<(), OutOfMemory>
    requires { length info.now.name < 2 ^ 31 }
    ensures { IfOk result (λ _. (out.new.items ≡ out.old.items ++ field_spelling info.now) × IsUtf8 info.now.name) }
{
    put_text(out, info.name.as_str())?;
    out.push(info.bits)?;
    Ok(())
}

/// What is written reads as the table, with positions or without, where no field lacks them, and for the number of
/// fields that the commit counts norms for, where it counts any; and no other bytes read so.
pub fn written_reads()
    ensures reads { (has_prox : Bool) (norm_fields : Option ℕ) (fields : List TableField) → IsTable fields → AreNamed fields
        → All (λ field. lacks_prox has_prox field.bits ≡ false) fields → is_other_count norm_fields (length fields) ≡ false
        → Reads (fnm_plan has_prox norm_fields) (fnm_spelling fields) fields }
    ensures only { (has_prox : Bool) (norm_fields : Option ℕ) (bytes : List ℕ) (fields : List TableField)
        → Reads (fnm_plan has_prox norm_fields) bytes fields → bytes ≡ fnm_spelling fields }
{}
