//! A field of a document, as it stands in the column of its field.
ghost use Rattle.std.specs.Prelude.{◌≡◌};

use lu_types::{IndexedField, Token};

/// A field of a document: the number of the document, the field, and the field's tokens, which are read without going to the field.
#[derive(Clone, Copy, Debug)]
pub(crate) struct Appearance<'a> {
    pub(crate) doc: u32,
    pub(crate) field: &'a IndexedField,
    pub(crate) tokens: &'a [Token],
    pub(crate) ghost tokens_of_field: { tokens.now ≡ field.now.tokens },
}
