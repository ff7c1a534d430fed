//! A place among the data of a skip level, from which they are read one after another.
ghost use Rattle.std.specs.Prelude.{◌≡◌, ℕ, ◌+◌, ◌^◌, ◌<◌, ◌≤◌, List, Option};
ghost use Rattle.lu_grammar.specs.Bytes.{Cursor};
ghost use Rattle.freq_skips.specs.Entries.{Posting};
ghost use Rattle.freq_skips.specs.Levels.{level_of, data_count, Follows, AreData, IsNextDatum, AreSmallSums};

use crate::datum::{Point, good_datum};
use crate::rules::RuledTerm;
use lu_prims::Cur;

/// A place among the data of a level: so many are passed, and the last of them leads there. Its sums can be added to.
#[derive(Drop)]
pub struct Following<'a> {
    pub cur: Cur<'a>,
    pub count: u32,
    pub last: Point,
    pub ghost few: { count ≤ 2 ^ 31 },
    pub ghost small: { AreSmallSums count last },
}

/// No level has more data: each stands for two entries at least.
const MOST_DATA: u32 = 0x8000_0000;

/// Before the first datum.
pub const NO_POINT: Point = Point {
    doc: 0,
    freq: 0,
    prox: 0,
    payload: 0,
    child: 0,
    place: 0,
};

impl<'a> Following<'a> {
    /// Passes one datum of a level whose data are good.
    pub fn pass(&mut self, term: &RuledTerm, level: u32)
        requires interval { 2 ≤ term.now.rules.skip_interval }
        ensures goes_on { (postings : List Posting) (stated : Option ℕ) (above : List (List Point)) (begin : Cursor) (points : List Point) (end : Cursor)
            → AreData term.now postings (level_of level stated above) begin points end
            → Follows term.now postings (level_of level stated above) begin self.old.count self.old.last self.old.cur → self.old.count < data_count term.now level
            → IsNextDatum term.now postings (level_of level stated above) begin points self.old.count self.new.last self.new.cur × (self.new.count ≡ self.old.count + 1) }
    {
        // Read here, so that its range is known, and with it that of the count of data.
        let _doc_freq = term.info.doc_freq;
        if self.count == MOST_DATA {
            return;
        }
        if let Some(point) = good_datum(&mut self.cur, term, level, &self.last) {
            self.count += 1;
            self.last = point;
        }
    }
}
