//! The bits of a field (format page, "Field tables").
ghost use Rattle.std.specs.Prelude.{◌≡◌};
ghost use Rattle.lu_types.specs.Bits.{has_bit};

/// The field is indexed.
pub const INDEXED: u8 = 0x01;
/// The field's documents have vectors.
pub const VECTORS: u8 = 0x02;
/// The field's vectors have positions.
pub const VECTOR_POSITIONS: u8 = 0x04;
/// The field's vectors have offsets.
pub const VECTOR_OFFSETS: u8 = 0x08;
/// The field has no norms.
pub const OMIT_NORMS: u8 = 0x10;
/// The field's occurrences may have payloads.
pub const PAYLOADS: u8 = 0x20;
/// The field has neither frequencies nor positions.
pub const OMIT_TF: u8 = 0x40;

/// Whether the bits have this one.
pub fn has_bit(bit: u8, bits: u8) -> bool
    ensures { result ≡ has_bit bit bits }
{
    bits & bit != 0
}
