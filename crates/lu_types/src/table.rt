ghost use Rattle.std.specs.Prelude.{◌≡◌, ◌<◌, ◌+◌, ◌-◌, ◌^◌, [], ◌∷◌, ◌++◌, length, None, OnOk, OnErr, slice_get, option_map};
ghost use Rattle.lu_types.specs.Tables.{number_of, IsTable};
ghost use Rattle.lu_types.specs.Fields.{table_field};

use crate::field::Field;
use crate::joined::JoinedTable;
use lu_prims::OutOfMemory;
use std::alloc::Global;
use std::marker::Model;

/// The fields of a segment in the order of their numbers, with their names lent from the bytes of the file
/// (format page, "Field tables"). No two fields have one name.
#[derive(Drop)]
pub struct FieldTable<'a> {
    /// The fields, and the numbers of their names.
    fields: JoinedTable<'a>,
}

impl<'a> Model for FieldTable<'a> {
    ghost use Rattle.std.specs.Prelude.{List};
    ghost use Rattle.lu_types.specs.Tables.{TableField, IsTable};

    ghost Value = { List TableField };

    ghost view = { λ table. table.fields };

    ghost invariant = { λ table. IsTable table.fields };
}

impl<'a> FieldTable<'a> {
    /// The table without fields. Takes no memory.
    pub fn new(alloc: Global) -> FieldTable<'a>
        ensures { result ≡ [] }
    {
        FieldTable {
            fields: JoinedTable::new(alloc),
        }
    }

    /// Adds a field, whose number is the number of fields before. An `Err` leaves the table as it was.
    /// Takes time by the logarithm of the number of fields.
    pub fn push(&mut self, name: &'a str, bits: u8) -> Result<(), OutOfMemory>
        requires new { number_of name.now self.old ≡ None }
        requires clear { bits < 128 }
        requires room { length self.old < 2 ^ 31 - 1 }
        ensures ok { OnOk result (self.new ≡ self.old ++ record { name = name.now; bits = bits } ∷ []) }
        ensures err { OnErr result (self.new ≡ self.old) }
    {
        match self.fields.push(name, bits) {
            Ok(_) => Ok(()),
            Err(error) => Err(error),
        }
    }

    /// How many fields there are, below 2^31.
    pub fn count(&self) -> u32
        ensures count { result ≡ length self.now }
        ensures table { IsTable self.now }
    {
        self.fields.count() as u32
    }

    /// The field with a number, from 0; `None` exactly where there is no such number.
    pub fn field(&self, number: u32) -> Option<Field<'a>>
        ensures { option_map table_field result ≡ slice_get self.now number }
    {
        self.fields.field(number as usize)
    }

    /// The number of the field with a name; `None` exactly where no field has the name.
    /// Takes time by the logarithm of the number of fields.
    pub fn find(&self, name: &str) -> Option<u32>
        ensures { result ≡ number_of name.now self.now }
    {
        match self.fields.find(name) {
            Some(number) => Some(number as u32),
            None => None,
        }
    }
}
