//! The walk of the check along a skip level: its data are judged one after another.
ghost use Rattle.std.specs.Prelude.{◌≡◌, ℕ, suc, ◌+◌, ◌^◌, ◌<◌, ◌≤◌, List, Option, IfOk, MatchResult, Ok, Err};
ghost use Rattle.lu_grammar.specs.Bytes.{IsBytes, Cursor};
ghost use Rattle.lu_grammar.specs.Plans.{read_plan};
ghost use Rattle.freq_skips.specs.Entries.{Posting};
ghost use Rattle.freq_skips.specs.Levels.{level_of, wanted as is_wanted, data_count, level_data, Follows};

use crate::datum::{LevelStart, Point, Wanted, next_datum};
use crate::following::Following;
use crate::rules::RuledTerm;

/// A place among the data of a level that is checked, which are to be so many; it is not before the place where they start.
#[derive(Drop)]
pub struct LevelCheck<'a> {
    pub walk: Following<'a>,
    pub start: LevelStart,
    pub all: u32,
    pub ghost bytes: { IsBytes walk.cur.rest },
    pub ghost behind: { start.place ≤ walk.cur.place },
    pub ghost within: { walk.count ≤ all },
    pub ghost few: { all < 2 ^ 31 },
}

impl<'a> LevelCheck<'a> {
    /// Takes one datum more, of which this is wanted; or tells the first rule that it breaks.
    pub fn check_next(self, term: &RuledTerm, wanted: &Wanted) -> Result<LevelCheck<'a>, u16>
        requires more { self.walk.count < self.all }
        ensures same { IfOk result (λ next. (next.walk.count ≡ self.entry.walk.count + 1) × (next.start ≡ self.entry.start) × (next.all ≡ self.entry.all)) }
        ensures goes_on { MatchResult result
            (λ next. (postings : List Posting) (stated : Option ℕ) (above : List (List Point)) (begin : Cursor)
            → begin.place ≡ self.entry.start.place → wanted.now ≡ is_wanted term.now postings (level_of self.entry.start.number stated above) (suc self.entry.walk.count)
            → Follows term.now postings (level_of self.entry.start.number stated above) begin self.entry.walk.count self.entry.walk.last self.entry.walk.cur
            → Follows term.now postings (level_of self.entry.start.number stated above) begin next.walk.count next.walk.last next.walk.cur)
            (λ rule. (postings : List Posting) (stated : Option ℕ) (above : List (List Point)) (begin : Cursor)
            → begin.place ≡ self.entry.start.place → wanted.now ≡ is_wanted term.now postings (level_of self.entry.start.number stated above) (suc self.entry.walk.count)
            → Follows term.now postings (level_of self.entry.start.number stated above) begin self.entry.walk.count self.entry.walk.last self.entry.walk.cur → self.entry.walk.count < data_count term.now self.entry.start.number
            → read_plan (level_data term.now postings (level_of self.entry.start.number stated above)) begin ≡ Err (record { offset = self.entry.walk.cur.place; rule = rule })) }
    {
        let LevelCheck { walk, start, all } = self;
        let Following {
            mut cur,
            count,
            last,
        } = walk;
        match next_datum(&mut cur, term, &start, wanted, &last) {
            Err(rule) => Err(rule),
            Ok(point) => Ok(LevelCheck {
                walk: Following {
                    cur,
                    count: count + 1,
                    last: point,
                },
                start,
                all,
            }),
        }
    }
}
