//! The search: by halving among the entries of the index, and then from term to term.
ghost use Rattle.std.specs.Prelude.{◌≡◌, ℕ, ◌-◌, ◌*◌, ◌≤◌, List, length, map, option_map};
ghost use Rattle.std.specs.Ordering.{ordering_then};
ghost use Rattle.std.specs.List.{find};
ghost use Rattle.std.specs.Str.{IsUtf8};
ghost use Rattle.lu_prims.specs.Order.{text_cmp};
ghost use Rattle.term_dict.specs.Index.{entry_count};
ghost use Rattle.term_dict.specs.Walk.{walk_to};
ghost use Rattle.lu_prims.specs.Steps.{ticked};
ghost use Rattle.term_index.specs.Seeking.{searched, is_sought, rank, digits, read_up_to};
ghost use Rattle.term_index.specs.InnerSearch.{IsSearchable, AreBelow, index_mark_of, marks_to};

use crate::mark::Mark;
use crate::names::FieldNames;
use lu_prims::{Steps, utf16_cmp};
use lu_types::TermInfo;
use std::cmp::Ordering;
use term_dict::TermCursor;

/// What is sought: the term with a text in the field with a name.
#[derive(Clone, Copy, Debug)]
pub(crate) struct Sought<'b> {
    pub(crate) field: &'b str,
    pub(crate) text: &'b str,
}

/// How a term with this text in the field with this name stands to what is sought.
fn compare(name: &str, text: &str, sought: &Sought<'_>) -> Ordering
    ensures { result ≡ ordering_then (text_cmp name.now sought.now.field.now) (text_cmp text.now sought.now.text.now) }
{
    match utf16_cmp(name, sought.field) {
        Ordering::Less => Ordering::Less,
        Ordering::Equal => utf16_cmp(text, sought.text),
        Ordering::Greater => Ordering::Greater,
    }
}

/// How many entries stand below what is sought, where all that do come first. Each entry that is compared is a step; there
/// are as many as the number of entries has binary digits.
pub(crate) fn count_below<L>(marks: &[Mark<'_>], sought: &Sought<'_>, steps: &mut Steps<L>) -> usize
    ensures count { (below : ℕ) → AreBelow sought.now marks.now below → result ≡ below }
    ensures steps { steps.new ≡ ticked (digits (length marks.now)) steps.old }
{
    let mut below = 0;
    let mut left = marks.len();
    while left > 0 {
        let half = left / 2;
        let next = below + (left - half);
        let mark = &marks[next - 1];
        steps.tick();
        if compare(mark.name, mark.text.as_str(), sought).is_lt() {
            below = next;
        }
        left = half;
    }
    below
}

/// Stands before the first term of the interval behind so many entries above entry 0.
pub(crate) fn enter_interval(
    cursor: &mut TermCursor<'_>,
    marks: &[Mark<'_>],
    number: usize,
    index_interval: u32,
)
    requires interval { index_interval ≡ cursor.old.dictionary.numbers.index_interval }
    requires number { number ≤ length marks.now }
    requires marks { (names : List (List ℕ)) × IsSearchable (searched cursor.old.dictionary names)
        × (map index_mark_of marks.now ≡ marks_to (searched cursor.old.dictionary names) (entry_count cursor.old.dictionary.numbers - 1)) }
    ensures { cursor.new ≡ walk_to cursor.old.dictionary (number * index_interval) }
{
    if number == 0 {
        cursor.rewind();
        return;
    }
    let mark = &marks[number - 1];
    cursor.move_to(
        mark.place,
        number as u32 * index_interval,
        mark.text.as_str(),
        &mark.info,
    );
}

/// What is said of the term that is sought, where no term that was passed is; `None` where it is not there. Each term that is
/// read is a step, and the first that does not stand below what is sought is the last that is read.
pub(crate) fn find_from<L>(
    cursor: &mut TermCursor<'_>,
    names: &FieldNames<'_>,
    sought: &Sought<'_>,
    steps: &mut Steps<L>,
) -> Option<TermInfo>
    requires terms { IsSearchable (searched cursor.old.dictionary names.now) }
    requires texts { IsUtf8 sought.now.field.now × IsUtf8 sought.now.text.now }
    requires before { cursor.old.passed ≤ rank (searched cursor.old.dictionary names.now) sought.now.field.now sought.now.text.now }
    ensures term { result ≡ option_map (λ t. t.info) (find (is_sought names.now sought.now.field.now sought.now.text.now) cursor.old.dictionary.terms) }
    ensures same { cursor.new.dictionary ≡ cursor.old.dictionary }
    ensures steps { steps.new ≡ ticked (read_up_to cursor.old.dictionary (rank (searched cursor.old.dictionary names.now) sought.now.field.now sought.now.text.now) - cursor.old.passed) steps.old }
{
    while let Some(info) = cursor.next() {
        steps.tick();
        match compare(names.name(info.field), cursor.text(), sought) {
            Ordering::Less => {}
            Ordering::Equal => return Some(info),
            Ordering::Greater => return None,
        }
    }
    None
}
