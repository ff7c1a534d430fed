//! The order of terms (format page, "Terms").
ghost use Rattle.std.specs.Prelude.{◌≡◌};
ghost use Rattle.lu_prims.specs.Order.{text_cmp};
ghost use Rattle.term_dict.specs.Terms.{field_of, is_indexed};

use lu_prims::utf16_cmp;
use lu_types::FieldTable;
use lu_types::bits::{INDEXED, has_bit};
use std::cmp::Ordering;

/// The name of the field with a number, empty where there is none.
fn name_of<'a>(fields: &FieldTable<'a>, number: u32) -> &'a str
    ensures { result.now ≡ (field_of fields.now number).name }
{
    match fields.field(number) {
        Some(field) => field.name,
        None => "",
    }
}

/// Compares the names of two fields by their numbers.
pub(crate) fn names_cmp(fields: &FieldTable<'_>, a: u32, b: u32) -> Ordering
    ensures { result ≡ text_cmp (field_of fields.now a).name (field_of fields.now b).name }
{
    if a == b {
        return Ordering::Equal;
    }
    utf16_cmp(name_of(fields, a), name_of(fields, b))
}

/// Whether there is a field with the number that is indexed: that has bit 01.
pub(crate) fn is_indexed(fields: &FieldTable<'_>, number: u32) -> bool
    ensures { result ≡ is_indexed fields.now number }
{
    match fields.field(number) {
        Some(field) => has_bit(INDEXED, field.bits),
        None => false,
    }
}
