ghost use Rattle.std.specs.Prelude.{◌≡◌, MatchResult, Some, None};
ghost use Rattle.lu_grammar.specs.Answers.{Gives};
ghost use Rattle.lu_grammar.specs.Records.{first_broken, read_shape};
ghost use Rattle.term_dict.specs.Headings.{heading_shape, heading_conditions, numbers_of};
ghost use Rattle.term_dict.specs.Checks.{AreBounded, IsHeader};

use lu_prims::{Bad, Cur};
use lu_types::TermNumbers;
use lu_types::rules::{INDEX_INTERVAL, SKIP_INTERVAL, SKIP_LEVELS, TERM_COUNT, TIS_FORMAT};

/// The format number of the terms and of their index.
pub const FORMAT: i32 = -4;

/// The most terms of a file.
const MOST_TERMS: i64 = (1 << 31) - 1;

/// The header of a file of terms or of their index, as it stands there (format page, "Terms").
#[derive(Clone, Copy, Debug, PartialEq, Eq)]
pub struct Heading {
    pub format: i32,
    pub count: i64,
    pub index_interval: i32,
    pub skip_interval: i32,
    pub max_levels: i32,
}

/// The header that stands at the cursor, which moves behind it; or what is wrong with its first part that has no spelling.
pub fn heading_at(cur: &mut Cur<'_>) -> Result<Heading, Bad>
    ensures { Gives (λ h. h) (read_shape heading_shape cur.old) cur.new result }
{
    let format = cur.i32()?;
    let count = cur.i64()?;
    let index_interval = cur.i32()?;
    let skip_interval = cur.i32()?;
    let max_levels = cur.i32()?;
    Ok(Heading {
        format,
        count,
        index_interval,
        skip_interval,
        max_levels,
    })
}

/// The numbers of a header, or the first rule that it breaks.
pub(crate) fn numbers_of(heading: &Heading) -> Result<TermNumbers, u16>
    ensures { MatchResult result
        (λ numbers. (first_broken (heading_conditions heading.now) ≡ None) × (numbers ≡ numbers_of heading.now) × AreBounded numbers)
        (λ rule. first_broken (heading_conditions heading.now) ≡ Some rule) }
{
    if heading.format != FORMAT {
        return Err(TIS_FORMAT);
    }
    if heading.count < 0 || heading.count > MOST_TERMS {
        return Err(TERM_COUNT);
    }
    if heading.index_interval < 1 {
        return Err(INDEX_INTERVAL);
    }
    if heading.skip_interval < 2 {
        return Err(SKIP_INTERVAL);
    }
    if heading.max_levels < 1 {
        return Err(SKIP_LEVELS);
    }
    Ok(TermNumbers {
        count: heading.count as u32,
        index_interval: heading.index_interval as u32,
        skip_interval: heading.skip_interval as u32,
        max_levels: heading.max_levels as u32,
    })
}
