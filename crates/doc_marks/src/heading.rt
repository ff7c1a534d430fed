//! The header of `.del` (format page, "Deletions").
ghost use Rattle.std.specs.Prelude.{◌≡◌, pos, OnOk, OnErr};
ghost use Rattle.lu_grammar.specs.Records.{first_broken, read_shape, record_at};
ghost use Rattle.lu_grammar.specs.Answers.{Gives};
ghost use Rattle.doc_marks.specs.Deletions.{header as header_of, header_shape, sizes_shape, header_conditions};

use crate::segment::Segment;
use lu_prims::{Bad, Cur};
use lu_types::rules::{DEL_COUNT, DEL_SIZE, rule_of};

/// The number with which the sparse form begins.
pub const SPARSE_MARK: i32 = -1;

/// What a header says.
#[derive(Clone, Copy, Drop)]
pub struct Heading {
    /// It begins the sparse form.
    pub is_sparse: bool,
    /// How many documents the segment has.
    pub size: i32,
    /// How many of them are deleted.
    pub count: i32,
}

/// What follows the first number of a header.
fn sizes(cur: &mut Cur<'_>, is_sparse: bool, first: i32) -> Result<Heading, Bad>
    ensures { Gives (λ h. header_of h.is_sparse h.size h.count) (read_shape (sizes_shape is_sparse first) cur.old) cur.new result }
{
    let size = if is_sparse {
        match cur.i32() {
            Ok(size) => size,
            Err(bad) => return Err(bad),
        }
    } else {
        first
    };
    match cur.i32() {
        Ok(count) => Ok(Heading {
            is_sparse,
            size,
            count,
        }),
        Err(bad) => Err(bad),
    }
}

/// The parts of the header that stands at the cursor.
fn heading_parts(cur: &mut Cur<'_>) -> Result<Heading, Bad>
    ensures { Gives (λ h. header_of h.is_sparse h.size h.count) (read_shape header_shape cur.old) cur.new result }
{
    match cur.i32() {
        Ok(first) => sizes(cur, first == SPARSE_MARK, first),
        Err(bad) => Err(bad),
    }
}

/// The first rule that the header breaks.
fn heading_broken(heading: Heading, segment: Segment) -> Option<u16>
    ensures { result ≡ first_broken (header_conditions segment.size segment.count (header_of heading.is_sparse heading.size heading.count)) }
{
    if i64::from(heading.size) != i64::from(segment.size) {
        return Some(DEL_SIZE);
    }
    if i64::from(heading.count) != i64::from(segment.count) {
        return Some(DEL_COUNT);
    }
    None
}

/// Passes the header, and answers whether it begins the sparse form; or the rule that it breaks.
pub fn pass_heading(cur: &mut Cur<'_>, segment: Segment) -> Result<bool, u16>
    ensures { Gives (λ is_sparse. header_of is_sparse (pos segment.size) (pos segment.count))
        (record_at header_shape (header_conditions segment.size segment.count) cur.old) cur.new result }
{
    let found = match heading_parts(cur) {
        Ok(found) => found,
        Err(bad) => return Err(rule_of(bad)),
    };
    match heading_broken(found, segment) {
        Some(rule) => Err(rule),
        None => Ok(found.is_sparse),
    }
}
