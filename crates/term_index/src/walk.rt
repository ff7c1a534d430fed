ghost use Rattle.std.specs.Prelude.{◌≡◌, ◌+◌, ◌-◌, ◌*◌, ◌<◌, ◌≤◌, length, take};
ghost use Rattle.term_dict.specs.Index.{point_after};
ghost use Rattle.term_dict.specs.Walk.{term_passed, walk_to};
ghost use Rattle.term_index.specs.Points.{ShareFront, wanted_of};

use lu_types::TermInfo;
use term_dict::TermCursor;

/// What was learned when terms were passed: what is said of the last, and how many bytes its text begins with that the text
/// before all of them begins with too.
#[derive(Clone, Copy, Debug)]
pub(crate) struct Passed {
    pub(crate) info: TermInfo,
    pub(crate) shared: usize,
}

/// What entry 0 of the index says: no text, field -1, no document, and both places 0.
pub(crate) const BLANK: TermInfo = TermInfo {
    field: u32::MAX,
    doc_freq: 0,
    freq: 0,
    prox: 0,
    skip: 0,
};

/// Passes so many terms, of which there are enough.
pub(crate) fn pass_terms(cursor: &mut TermCursor<'_>, count: u32) -> Passed
    requires some { 1 ≤ count }
    requires enough { cursor.old.passed + count ≤ length cursor.old.dictionary.terms }
    ensures cursor { cursor.new ≡ walk_to cursor.old.dictionary (cursor.old.passed + count) }
    ensures info { result.info ≡ (term_passed cursor.new).info }
    ensures shared { ShareFront result.shared (term_passed cursor.old).text cursor.new }
{
    let mut passed = Passed {
        info: BLANK,
        shared: usize::MAX,
    };
    for _ in 0..count {
        let Some(next) = cursor.next_shared() else {
            unreachable!();
        };
        passed.info = next.info;
        passed.shared = passed.shared.min(next.shared);
    }
    passed
}

/// Passes the terms before the interval with a number, where the walk has passed those before the interval before it; none
/// where the number is 0.
pub(crate) fn pass_interval(cursor: &mut TermCursor<'_>, number: u32, interval: u32) -> Passed
    requires some { 1 ≤ interval }
    requires at { cursor.old.passed ≡ (number - 1) * interval }
    requires enough { number * interval < length cursor.old.dictionary.terms }
    ensures cursor { cursor.new ≡ walk_to cursor.old.dictionary (number * interval) }
    ensures wanted { wanted_of result.info cursor.new ≡ point_after cursor.old.dictionary.terms (number * interval) }
    ensures shared { ShareFront result.shared (term_passed cursor.old).text cursor.new }
{
    if number == 0 {
        return Passed {
            info: BLANK,
            shared: 0,
        };
    }
    pass_terms(cursor, interval)
}
