//! Numbers that both files of a store have in common (format page, "Stored documents").
ghost use Rattle.std.specs.Prelude.{◌≡◌};
ghost use Rattle.stored_fields.specs.Format.{is_other_store_format};

/// The format number of `.fdx` and `.fdt`.
pub const STORE_FORMAT: i32 = 2;

/// The bytes of the header of `.fdx`, and of that of `.fdt`.
pub const HEADER_BYTES: usize = 4;

/// The bytes of a place in `.fdx`.
pub const PLACE_BYTES: usize = 8;

/// The greatest place that a document of `.fdt` may have.
pub const GREATEST_PLACE: i64 = 2147483647;

/// Whether a format number is not that of the format.
pub fn is_other_store_format(format: i32) -> bool
    ensures { result ≡ is_other_store_format format }
{
    format != STORE_FORMAT
}
