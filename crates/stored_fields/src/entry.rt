//! One stored value as it stands in `.fdt` (format page, "Stored documents").
ghost use Rattle.std.specs.Prelude.{true};
ghost use Rattle.lu_grammar.specs.Answers.{Gives};
ghost use Rattle.lu_grammar.specs.Records.{read_shape};
ghost use Rattle.stored_fields.specs.Values.{content_shape, stored_entry_shape};
ghost use Rattle.stored_fields.specs.Entries.{value_of, lent_entry};

use crate::value::{BINARY, ValueRef};
use lu_prims::{Bad, Cur};
use lu_types::bits::has_bit;

/// A stored value with its bits.
#[derive(Drop)]
pub struct EntryRef<'a> {
    /// The number of its field.
    pub field: u32,
    /// Its bits, as they stand.
    pub bits: u8,
    /// What it is.
    pub value: ValueRef<'a>,
}

/// The value behind the bits: so many bytes, or a text.
fn next_content<'a>(here: &mut Cur<'a>, binary: bool) -> Result<ValueRef<'a>, Bad>
    ensures { Gives value_of (read_shape (content_shape binary) here.old) here.new result }
{
    if binary {
        return next_binary(here);
    }
    match here.text() {
        Err(bad) => Err(bad),
        Ok(text) => Ok(ValueRef::Text(text)),
    }
}

/// The length of a binary value, and its bytes.
fn next_binary<'a>(here: &mut Cur<'a>) -> Result<ValueRef<'a>, Bad>
    ensures { Gives value_of (read_shape (content_shape true) here.old) here.new result }
{
    match here.num() {
        Err(bad) => Err(bad),
        Ok(length) => match here.bytes(length as usize) {
            Err(bad) => Err(bad),
            Ok(bytes) => Ok(ValueRef::Binary(bytes)),
        },
    }
}

/// The value that stands here. After an `Err` the cursor may have moved.
pub fn next_entry<'a>(here: &mut Cur<'a>) -> Result<EntryRef<'a>, Bad>
    ensures { Gives lent_entry (read_shape stored_entry_shape here.old) here.new result }
{
    match here.num() {
        Err(bad) => Err(bad),
        Ok(field) => match here.u8() {
            Err(bad) => Err(bad),
            Ok(bits) => match next_content(here, has_bit(BINARY, bits)) {
                Err(bad) => Err(bad),
                Ok(value) => Ok(EntryRef { field, bits, value }),
            },
        },
    }
}
