//! Numbers that the three files have in common (format page, "Term vectors").
ghost use Rattle.std.specs.Prelude.{◌≡◌};
ghost use Rattle.lu_grammar.specs.Answers.{Gives};
ghost use Rattle.lu_grammar.specs.Records.{record_at};
ghost use Rattle.term_vectors.specs.Format.{vector_format, format_shape, format_rule, is_other_format, place_of_number};

use lu_prims::Cur;
use lu_types::rules::rule_of;

/// The format number of each of the files.
pub const VECTOR_FORMAT: i32 = 4;

/// The bytes of the header of each of the files.
pub const HEADER_BYTES: usize = 4;

/// The bytes of a document in `.tvx`.
pub const DOCUMENT_BYTES: usize = 16;

/// The greatest place in a file, position and offset.
pub const GREATEST_PLACE: u32 = 2147483647;

/// A start is the end before and a difference, modulo this.
pub const START_MODULUS: u64 = 4294967296;

/// The bit of a vector with positions.
pub const POSITIONS: u8 = 1;

/// The bit of a vector with offsets.
pub const OFFSETS: u8 = 2;

/// Whether a format number is not that of the format.
pub fn is_other_format(format: i32) -> bool
    ensures { result ≡ is_other_format format }
{
    format != VECTOR_FORMAT
}

/// The place that a number stands for; `None` where it is negative or above the greatest.
pub fn place_of_number(number: i64) -> Option<u32>
    ensures { result ≡ place_of_number number }
{
    match u32::try_from(number) {
        Ok(place) if place <= GREATEST_PLACE => Some(place),
        _ => None,
    }
}

/// Where a document stands in `.tvd`, and its first vector in `.tvf`.
#[derive(Clone, Copy, Debug, PartialEq, Eq)]
pub struct DocumentPlaces {
    /// The place in `.tvd`, in bytes from its start.
    pub tvd: u32,
    /// The place in `.tvf`, in bytes from its start.
    pub tvf: u32,
}

/// Passes the format number, or answers which rule is broken there first: this one where it is not the number of the format.
pub fn pass_format(here: &mut Cur<'_>, rule: u16) -> Result<(), u16>
    ensures { Gives (λ _. vector_format) (record_at (format_shape (λ z. z)) (format_rule rule) here.old) here.new result }
{
    match here.i32() {
        Err(bad) => Err(rule_of(bad)),
        Ok(format) => {
            if is_other_format(format) {
                return Err(rule);
            }
            Ok(())
        }
    }
}
