//! Field tables to which appearances of fields are joined (format page, "Field tables").
ghost use Rattle.std.specs.Prelude.{◌≡◌, ◌<◌, [], length, map, slice_get, option_map, Some, None, OnOk, OnErr, IfOk, IfSome};
ghost use Rattle.lu_types.specs.Tables.{number_of};
ghost use Rattle.lu_types.specs.Fields.{table_field};
ghost use Rattle.lu_types.specs.Joins.{join_bits, join_field};

use crate::bits::{INDEXED, OMIT_NORMS, has_bit};
use crate::field::{Field, FieldInfo};
use crate::owned::Text;
use lu_prims::OutOfMemory;
use std::alloc::Global;
use std::collections::BTreeMap;
use std::marker::Model;

/// A table to which appearances of fields are joined, with their names lent from where they stand: in documents, or in the
/// files of the segments that are merged. No two of its fields have one name.
#[derive(Drop)]
pub struct JoinedTable<'a> {
    /// The fields by number.
    fields: Vec<Field<'a>>,
    /// The number of each name.
    numbers: BTreeMap<&'a str, usize>,
}

impl<'a> Model for JoinedTable<'a> {
    ghost use Rattle.std.specs.Prelude.{List, map};
    ghost use Rattle.lu_types.specs.Tables.{TableField, HasNumbers};
    ghost use Rattle.lu_types.specs.Fields.{table_field};

    ghost Value = { List TableField };

    ghost view = { λ table. map table_field table.fields.items };

    ghost invariant = { λ table. HasNumbers table.numbers (map table_field table.fields.items) };
}

impl<'a> JoinedTable<'a> {
    /// The table without fields. Takes no memory.
    pub fn new(alloc: Global) -> JoinedTable<'a>
        ensures { result ≡ [] }
    {
        JoinedTable {
            fields: Vec::new(alloc),
            numbers: BTreeMap::new(alloc),
        }
    }

    /// How many fields there are.
    pub fn count(&self) -> usize
        ensures { result ≡ length self.now }
    {
        self.fields.len()
    }

    /// The field with a number, from 0; `None` exactly where there is no such number.
    pub fn field(&self, number: usize) -> Option<Field<'a>>
        ensures { option_map table_field result ≡ slice_get self.now number }
    {
        self.fields.get(number).copied()
    }

    /// The number of the field with a name; `None` exactly where no field has the name.
    /// Takes time by the logarithm of the number of fields.
    pub fn find(&self, name: &str) -> Option<usize>
        ensures found { result ≡ number_of name.now self.now }
        ensures below { IfSome result (λ number. number < length self.now) }
    {
        self.numbers.get(name).copied()
    }

    /// Joins one more appearance of a field, and answers the field's number: a new name goes last with its bits; the bits of a
    /// name that is there are joined. An `Err` leaves the table as it was.
    /// Takes time by the logarithm of the number of fields.
    pub fn join(&mut self, name: &'a str, bits: u8) -> Result<usize, OutOfMemory>
        ensures joined { OnOk result (self.new ≡ join_field self.old (record { name = name.now; bits = bits })) }
        ensures number { IfOk result (λ number. number_of name.now self.new ≡ Some number) }
        ensures err { OnErr result (self.new ≡ self.old) }
    {
        match self.find(name) {
            Some(number) => {
                let field = &mut self.fields[number];
                field.bits = join_bits(field.bits, bits);
                Ok(number)
            }
            None => self.push(name, bits),
        }
    }

    /// Adds a field with a new name, and answers its number. An `Err` leaves the table as it was.
    pub(crate) fn push(&mut self, name: &'a str, bits: u8) -> Result<usize, OutOfMemory>
        requires { number_of name.now self.old ≡ None }
        ensures joined { OnOk result (self.new ≡ join_field self.old (record { name = name.now; bits = bits })) }
        ensures number { IfOk result (λ number. number_of name.now self.new ≡ Some number) }
        ensures err { OnErr result (self.new ≡ self.old) }
    {
        let number = self.fields.len();
        self.fields.push(Field { name, bits })?;
        match self.numbers.insert(name, number) {
            Ok(_) => Ok(number),
            Err(_) => {
                self.fields.pop();
                Err(OutOfMemory)
            }
        }
    }

    /// The fields with names of their own, in the order of their numbers.
    pub fn to_infos(&self, alloc: Global) -> Result<Vec<FieldInfo>, OutOfMemory>
        ensures { IfOk result (λ infos. infos.items ≡ self.now) }
    {
        infos_of(alloc, self.fields.as_slice())
    }
}

// The fields with names of their own.
fn infos_of(alloc: Global, fields: &[Field<'_>]) -> Result<Vec<FieldInfo>, OutOfMemory>
    ensures { IfOk result (λ infos. infos.items ≡ map table_field fields.now) }
{
    let mut infos = Vec::with_capacity(alloc, fields.len())?;
    for field in fields {
        infos.push(info_of(alloc, *field)?)?;
    }
    Ok(infos)
}

// The field with a name of its own.
fn info_of(alloc: Global, field: Field<'_>) -> Result<FieldInfo, OutOfMemory>
    ensures { IfOk result (λ info. info ≡ table_field field.entry) }
{
    let name = Text::from_str(alloc, field.name)?;
    Ok(FieldInfo {
        name,
        bits: field.bits,
    })
}

// The bits of two appearances of a field.
pub(crate) fn join_bits(old: u8, new: u8) -> u8
    ensures { result ≡ join_bits old new }
{
    if !has_bit(INDEXED, new) {
        return old;
    }
    if !has_bit(INDEXED, old) {
        return new;
    }
    ((old | new) & !OMIT_NORMS) | (old & new & OMIT_NORMS)
}
