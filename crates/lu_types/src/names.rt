ghost use Rattle.std.specs.Prelude.{◌≡◌, IfOk, MatchOption, string_bytes};
ghost use Rattle.lu_types.specs.Names.{IsPart, part_name, segment_name, IsSegmentName, Names};

use crate::kind::FileKind;
use lu_prims::{OutOfMemory, base36_text, base36_value};
use std::alloc::Global;

/// The greatest number of a segment.
pub const GREATEST_SEGMENT: u32 = 2147483646;

/// The number of the segment that has the name; `None` exactly where the text is no segment name
/// (format page, "Names of files").
pub fn segment_number(text: &str) -> Option<u32>
    ensures { MatchOption result (¬ IsSegmentName text.now) (Names text.now) }
{
    let digits = text.strip_prefix('_')?;
    let number = base36_value(digits)?;
    if number <= GREATEST_SEGMENT as u64 {
        Some(number as u32)
    } else {
        None
    }
}

/// The name of the segment with a number (format page, "Names of files").
pub fn segment_name(alloc: Global, number: u32) -> Result<String, OutOfMemory>
    ensures { IfOk result (λ name. string_bytes name ≡ segment_name number) }
{
    let digits = base36_text(alloc, number as u64)?;
    let name = format!(in alloc; "_{digits}")?;
    Ok(name)
}

/// The name of a file of the segment, of a kind of which it has one that is named by its extension: the name of the segment,
/// a dot and the extension (format page, "Names of files").
pub fn part_name(alloc: Global, segment: &str, kind: FileKind) -> Result<String, OutOfMemory>
    requires { IsPart kind }
    ensures { IfOk result (λ name. string_bytes name ≡ part_name segment.now kind) }
{
    let name = format!(in alloc; "{segment}.{kind}")?;
    Ok(name)
}
