//! The stored values of one document, in order (format page, "Stored documents").
ghost use Rattle.std.specs.Prelude.{◌≡◌, [], ◌∷◌, MatchOption};
ghost use Rattle.stored_fields.specs.Entries.{lent_field};

use crate::entry::next_entry;
use crate::value::{StoredRef, TOKENIZED};
use lu_prims::Cur;
use lu_types::bits::has_bit;
use std::marker::Model;

/// The stored values of a document that are left to read, in order. Contracts see them as a list. No call takes memory.
#[derive(Drop)]
pub struct StoredDoc<'a> {
    /// Where the next value stands.
    pub(crate) here: Cur<'a>,
    /// How many values are left.
    pub(crate) left: u32,
}

impl<'a> Model for StoredDoc<'a> {
    ghost use Rattle.std.specs.Prelude.{◌≡◌, [], Ok};
    ghost use Rattle.stored_fields.specs.Values.{StoredDocument};
    ghost use Rattle.lu_grammar.specs.Reading.{value_or};
    ghost use Rattle.stored_fields.specs.Remaining.{values_at};

    ghost Value = { StoredDocument };

    ghost view = { λ d. value_or [] (values_at d.left d.here) };

    ghost invariant = { λ d. values_at d.left d.here ≡ Ok (value_or [] (values_at d.left d.here)) };
}

impl<'a> StoredDoc<'a> {
    /// The next value, as slices of the file; `None` after the last.
    pub fn next(&mut self) -> Option<StoredRef<'a>>
        ensures { MatchOption result ((self.old ≡ []) × (self.new ≡ [])) (λ value. self.old ≡ lent_field value ∷ self.new) }
    {
        if self.left == 0 {
            return None;
        }
        match next_entry(&mut self.here) {
            Err(_) => unreachable!(),
            Ok(entry) => {
                self.left -= 1;
                Some(StoredRef {
                    field: entry.field,
                    tokenized: has_bit(TOKENIZED, entry.bits),
                    value: entry.value,
                })
            }
        }
    }
}
