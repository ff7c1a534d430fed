//! The documents that a byte marks.
ghost use Rattle.std.specs.Prelude.{◌≡◌, ◌≤◌, length};
ghost use Rattle.doc_marks.specs.Marking.{marked_at};
ghost use Rattle.doc_marks.specs.Deletions.{is_past};

/// How many bits a byte has.
pub const BYTE_BITS: u32 = 8;

/// What a byte marks.
#[derive(Clone, Copy, Drop)]
pub struct ByteMarks {
    /// How many documents.
    pub documents: u32,
    /// One of them is not below the size.
    pub is_past: bool,
}

/// What the byte with this index marks, in a segment of this size.
pub fn byte_marks(index: u32, marks: u8, size: u32) -> ByteMarks
    ensures documents { result.documents ≡ length (marked_at index marks) }
    ensures is_past { result.is_past ≡ is_past size (marked_at index marks) }
    ensures few { result.documents ≤ 8 }
{
    let first = u64::from(BYTE_BITS) * u64::from(index);
    let mut found = ByteMarks {
        documents: 0,
        is_past: false,
    };
    let mut rest = marks;
    for bit in 0..BYTE_BITS {
        if rest % 2 == 1 {
            found.documents += 1;
            found.is_past |= first + u64::from(bit) >= u64::from(size);
        }
        rest /= 2;
    }
    found
}
