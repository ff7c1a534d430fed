//! The payloads of the tokens of a column.
ghost use Rattle.std.specs.Prelude.{◌≡◌, ◌<◌, length, slice_index_or};
ghost use Rattle.seg_writer.specs.Columns.{tokens_in_field};
ghost use Rattle.seg_writer.specs.Entries.{AreBareUnless, IsBareUnless, no_token};

use crate::appearance::Appearance;
use crate::inverted::Use;
use lu_types::Token;

// Whether some token has a payload.
fn has_payloads(tokens: &[Token]) -> bool
    ensures { IsBareUnless result tokens.now }
{
    for token in tokens {
        if !token.payload.as_slice().is_empty() {
            return true;
        }
    }
    false
}

/// Whether some token of a column has a payload.
pub(crate) fn have_payloads(column: &[Appearance<'_>]) -> bool
    ensures { AreBareUnless result column.now }
{
    for here in column {
        if has_payloads(here.tokens) {
            return true;
        }
    }
    false
}

/// The payload of the token that a use is, in a field where some token has one, or none.
pub(crate) fn payload_of<'a>(here: &Appearance<'a>, payloads: bool, place: &Use) -> &'a [u8]
    requires within { place.now.token < length (tokens_in_field here.now) }
    requires bare { IsBareUnless payloads (tokens_in_field here.now) }
    ensures { result.now ≡ (slice_index_or (tokens_in_field here.now) place.now.token no_token).payload }
{
    if !payloads {
        return b"".as_slice();
    }
    here.tokens[place.token as usize].payload.as_slice()
}
