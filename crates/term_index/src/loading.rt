//! The entries of an index that was checked, read once.
ghost use Rattle.std.specs.Prelude.{◌≡◌, ℕ, ◌+◌, ◌-◌, ◌<◌, ◌^◌, IfOk, All, Ok, map};
ghost use Rattle.std.specs.Str.{IsUtf8};
ghost use Rattle.lu_grammar.specs.Meaning.{Reads};
ghost use Rattle.lu_grammar.specs.Records.{read_shape};
ghost use Rattle.term_dict.specs.Index.{IndexEntry, index_shape, entry_count, tii_plan};
ghost use Rattle.term_dict.specs.Terms.{term_after};
ghost use Rattle.term_index.specs.Points.{last_term_of};
ghost use Rattle.term_index.specs.Seeking.{searched, field_name_of};
ghost use Rattle.term_index.specs.InnerSearch.{IsSearchable, HasEntry, index_mark_of, marks_to};

use crate::checking::{LastPoint, entry_count};
use crate::mark::Mark;
use crate::names::FieldNames;
use crate::point::point_at;
use lu_prims::{Cur, OutOfMemory};
use lu_types::Text;
use std::alloc::Global;
use term_dict::{TermFile, heading_at};

/// Makes the last entry the one that stands at the cursor, which moves behind it.
fn next_entry(
    cur: &mut Cur<'_>,
    last: &mut LastPoint,
    skip_interval: u32,
) -> Result<(), OutOfMemory>
    requires { HasEntry skip_interval (last_term_of last.old) last.old.place cur.old }
    ensures { IfOk result (λ _. (e : IndexEntry) × (read_shape (index_shape skip_interval) cur.old ≡ Ok (e, cur.new))
        × (last_term_of last.new ≡ term_after (last_term_of last.old) e.term) × (last.new.place ≡ last.old.place + e.step)) }
{
    let Ok(point) = point_at(cur, skip_interval) else {
        unreachable!();
    };
    last.advance(&point)
}

/// The last entry, as the search keeps it.
fn mark_of_last<'a>(
    alloc: Global,
    last: &LastPoint,
    names: &FieldNames<'a>,
) -> Result<Mark<'a>, OutOfMemory>
    requires { IsUtf8 last.now.text.items }
    ensures { IfOk result (λ mark. index_mark_of mark ≡ record { name = field_name_of names.now last.now.info.field; term = last_term_of last.now; place = last.now.place }) }
{
    let text = unsafe { str::from_utf8_unchecked(last.text.as_slice()) };
    Ok(Mark {
        name: names.name(last.info.field),
        text: Text::new(String::from_str(alloc, text)?),
        info: last.info,
        place: last.place,
    })
}

/// The entries above entry 0 of the index of some terms, which was checked.
pub(crate) fn marks_of<'a>(
    alloc: Global,
    tii: &'a [u8],
    terms: &TermFile<'a>,
    names: &FieldNames<'a>,
) -> Result<Vec<Mark<'a>>, OutOfMemory>
    requires index { Reads (tii_plan terms.now) tii.now tt }
    requires terms { IsSearchable (searched terms.now names.now) }
    ensures { IfOk result (λ marks. map index_mark_of marks.items ≡ marks_to (searched terms.now names.now) (entry_count terms.now.numbers - 1)) }
{
    let numbers = terms.numbers();
    let mut cur = Cur::at(tii, 0);
    let Ok(_) = heading_at(&mut cur) else {
        unreachable!();
    };
    let mut last = LastPoint::new(alloc);
    let mut marks = Vec::new(alloc);
    for number in 0..entry_count(&numbers) {
        next_entry(&mut cur, &mut last, numbers.skip_interval)?;
        if number > 0 {
            marks.push(mark_of_last(alloc, &last, names)?)?;
        }
    }
    Ok(marks)
}
