//! The names of the fields of a segment by their numbers.
ghost use Rattle.std.specs.Prelude.{◌≡◌, IfOk};
ghost use Rattle.term_index.specs.Seeking.{names_of, field_name_of};

use lu_prims::OutOfMemory;
use lu_types::FieldTable;
use std::alloc::Global;
use std::marker::Model;

/// The names of the fields by their numbers, lent from the bytes of the field table.
#[derive(Drop)]
pub(crate) struct FieldNames<'a> {
    texts: Vec<&'a str>,
}

impl<'a> Model for FieldNames<'a> {
    ghost use Rattle.std.specs.Prelude.{ℕ, List, map};
    ghost use Rattle.term_index.specs.InnerSearch.{lent};

    ghost Value = { List (List ℕ) };

    ghost view = { λ n. map lent n.texts.items };
}

impl<'a> FieldNames<'a> {
    /// The names of the fields of a table.
    pub(crate) fn of_table(
        alloc: Global,
        fields: &FieldTable<'a>,
    ) -> Result<FieldNames<'a>, OutOfMemory>
        ensures { IfOk result (λ names. names ≡ names_of fields.now) }
    {
        let mut texts = Vec::new(alloc);
        for number in 0..fields.count() {
            let Some(field) = fields.field(number) else {
                unreachable!();
            };
            texts.push(field.name)?;
        }
        Ok(FieldNames { texts })
    }

    /// The name of the field with a number, empty where there is none.
    pub(crate) fn name(&self, number: u32) -> &'a str
        ensures { result.now ≡ field_name_of self.now number }
    {
        match self.texts.get(number as usize) {
            Some(name) => name,
            None => "",
        }
    }
}
