//! Reading a `.fnm` file, record by record.
ghost use Rattle.std.specs.Prelude.{◌≡◌, [], ◌<◌, ◌^◌, ℕ, length, Option, None, Ok, Err, IfOk};
ghost use Rattle.lu_grammar.specs.Bytes.{Cursor};
ghost use Rattle.lu_grammar.specs.Answers.{Gives};
ghost use Rattle.lu_grammar.specs.Records.{first_broken, read_shape, record_at};
ghost use Rattle.lu_grammar.specs.Plans.{times, read_plan};
ghost use Rattle.lu_types.specs.Tables.{number_of};
ghost use Rattle.lu_types.specs.Fields.{table_field};
ghost use Rattle.lu_types.specs.Judging.{Checks, GivesIn};
ghost use Rattle.field_infos.specs.Fnm.{format_number, lacks_prox as has_no_prox, header as header_of, field as field_of, header_shape, field_shape, header_conditions, field_conditions, one_field, fnm_plan};

use crate::FORMAT;
use lu_prims::{Bad, Cur};
use lu_types::bits::{INDEXED, OMIT_TF, has_bit};
use lu_types::rules::{
    FIELD_BITS, FIELD_TWICE, FNM_FORMAT, NORM_COUNT, PROX_FIELD, TRAILING, rule_of,
};
use lu_types::{CodecFault, Field, FieldTable, FileKind, Spot};
use std::alloc::Global;

/// The first bit that no field has.
const UNUSED_BIT: u8 = 0x80;

/// The format and the number of fields that stand at the cursor.
fn header_parts(cur: &mut Cur<'_>) -> Result<(u32, u32), Bad>
    ensures gives { Gives (λ x. header_of x.0 x.1) (read_shape header_shape cur.old) cur.new result }
    ensures below { IfOk result (λ x. x.1 < 2 ^ 31) }
{
    let format = cur.vint()?;
    let count = cur.num()?;
    Ok((format, count))
}

/// The first rule that the header breaks.
fn header_broken(format: u32, count: u32, norm_fields: Option<u32>) -> Option<u16>
    ensures { result ≡ first_broken (header_conditions norm_fields (header_of format count)) }
{
    if format != FORMAT {
        return Some(FNM_FORMAT);
    }
    match norm_fields {
        Some(norms) if norms != count => Some(NORM_COUNT),
        _ => None,
    }
}

/// The header at the cursor: how many fields follow it, or the rule that it breaks.
#[tactic(auto, using(crate::proofs::Records::judged))]
fn header(cur: &mut Cur<'_>, norm_fields: Option<u32>) -> Result<u32, u16>
    ensures gives { Gives (λ count. header_of format_number count) (record_at header_shape (header_conditions norm_fields) cur.old) cur.new result }
    ensures below { IfOk result (λ count. count < 2 ^ 31) }
{
    let (format, count) = match header_parts(cur) {
        Ok(parts) => parts,
        Err(bad) => return Err(rule_of(bad)),
    };
    match header_broken(format, count, norm_fields) {
        Some(rule) => Err(rule),
        None => Ok(count),
    }
}

/// The name and the bits that stand at the cursor.
fn field_parts<'a>(cur: &mut Cur<'a>) -> Result<Field<'a>, Bad>
    ensures { Gives (λ found. field_of (table_field found)) (read_shape field_shape cur.old) cur.new result }
{
    let name = match cur.text() {
        Ok(name) => name,
        Err(bad) => return Err(bad),
    };
    match cur.u8() {
        Ok(bits) => Ok(Field { name, bits }),
        Err(bad) => Err(bad),
    }
}

/// Whether a field has positions where the segment has none.
fn lacks_prox(bits: u8, has_prox: bool) -> bool
    ensures { result ≡ has_no_prox has_prox bits }
{
    !has_prox && has_bit(INDEXED, bits) && !has_bit(OMIT_TF, bits)
}

/// The first rule that a field breaks after those of the table.
fn field_broken(field: &Field<'_>, table: &FieldTable<'_>, has_prox: bool) -> Option<u16>
    ensures { result ≡ first_broken (field_conditions has_prox table.now (field_of (table_field field.now))) }
{
    if table.find(field.name).is_some() {
        return Some(FIELD_TWICE);
    }
    if field.bits >= UNUSED_BIT {
        return Some(FIELD_BITS);
    }
    if lacks_prox(field.bits, has_prox) {
        return Some(PROX_FIELD);
    }
    None
}

/// The field at the cursor, after those of the table, or the rule that it breaks.
#[tactic(auto, using(crate::proofs::Records::judged))]
fn field<'a>(cur: &mut Cur<'a>, table: &FieldTable<'a>, has_prox: bool) -> Result<Field<'a>, u16>
    ensures gives { Gives (λ found. field_of (table_field found)) (record_at field_shape (field_conditions has_prox table.now) cur.old) cur.new result }
    ensures new { IfOk result (λ found. (number_of found.name.now table.now ≡ None) × (found.bits < 128)) }
{
    let found = match field_parts(cur) {
        Ok(found) => found,
        Err(bad) => return Err(rule_of(bad)),
    };
    match field_broken(&found, table, has_prox) {
        Some(rule) => Err(rule),
        None => Ok(found),
    }
}

/// The fault of a field table that breaks the rule at a place.
fn fault(place: usize, rule: u16) -> CodecFault
    ensures { result ≡ CodecFault.Spot (record { kind = FileKind.Fnm; offset = place; rule = rule }) }
{
    CodecFault::Spot(Spot::at(FileKind::Fnm, place, rule))
}

/// So many fields from the cursor on.
fn fields<'a>(
    alloc: Global,
    cur: &mut Cur<'a>,
    count: u32,
    has_prox: bool,
) -> Result<FieldTable<'a>, CodecFault>
    requires { count < 2 ^ 31 }
    ensures { GivesIn FileKind.Fnm (λ table. table) (read_plan (times (one_field has_prox) count []) cur.old) cur.new result }
{
    let mut table = FieldTable::new(alloc);
    for _ in 0..count {
        let place = cur.place();
        match field(cur, &table, has_prox) {
            Err(rule) => return Err(fault(place, rule)),
            Ok(found) => table.push(found.name, found.bits)?,
        }
    }
    Ok(table)
}

/// The field table that a `.fnm` file spells (format page, "Field tables"). `has_prox` says whether the segment has
/// positions; `norm_fields` for how many fields its line of the commit counts norm generations, where it counts any.
/// An `Err` is the first fault of the file, or want of memory.
pub fn check<'a>(
    alloc: Global,
    fnm: &'a [u8],
    has_prox: bool,
    norm_fields: Option<u32>,
) -> Result<FieldTable<'a>, CodecFault>
    ensures { Checks (λ table. table) FileKind.Fnm (fnm_plan has_prox norm_fields) fnm.entry.now result }
{
    let mut cur = Cur::at(fnm, 0);
    let count = match header(&mut cur, norm_fields) {
        Ok(count) => count,
        Err(rule) => return Err(fault(0, rule)),
    };
    let table = match fields(alloc, &mut cur, count, has_prox) {
        Ok(table) => table,
        Err(found) => return Err(found),
    };
    if cur.left() > 0 {
        return Err(fault(cur.place(), TRAILING));
    }
    Ok(table)
}
