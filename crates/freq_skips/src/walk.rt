//! A walk over a term: its entries in order, and with each the skip data that belong to it.
ghost use Rattle.std.specs.Prelude.{◌≡◌, ◌≢◌, ◌⊎◌, ℕ, suc, ◌+◌, ◌-◌, ◌/◌, ◌%◌, ◌^◌, ◌<◌, ◌≤◌, List, [], Option, length, ◌==◌, slice_index_or, MatchOption, Ok};
ghost use Rattle.lu_grammar.specs.Bytes.{Cursor, place_in};
ghost use Rattle.lu_grammar.specs.Plans.{read_plan};
ghost use Rattle.lu_grammar.specs.Meaning.{ReadsTo};
ghost use Rattle.freq_skips.specs.Entries.{Posting, postings_from};
ghost use Rattle.freq_skips.specs.Levels.{Along, level_of, level_count as count_of_levels, level_plan, stride as stride_of, data_count, AreData};
ghost use Rattle.freq_skips.specs.Terms.{TermData, IsGoodTerm, ruled_by, term_plan};
ghost use Rattle.freq_skips.specs.Walks.{WalkState, walked_at, IsDatumFor, IsOnLevel, IsDatumOfLast, AreOnLevels, no_level_place, start_in, points_in};

use crate::datum::Point;
use crate::following::{Following, NO_POINT};
use crate::level::{level_count, quotient};
use crate::levels::level_length;
use crate::passing::Passing;
use crate::rules::RuledTerm;
use lu_prims::Cur;
use lu_types::{TermInfo, TermRules};
use std::marker::Model;

/// An entry of a term: its index, from 0, its document, and how often the term stands in it.
#[derive(Clone, Copy, Debug, PartialEq, Eq)]
pub struct WalkedEntry {
    pub index: u32,
    pub doc: u32,
    pub freq: u32,
}

/// A skip datum: the sums along its level of the skipped documents, of the skipped bytes of `.frq` and of `.prx`, and the
/// payload length carried there.
#[derive(Clone, Copy, Debug, PartialEq, Eq)]
pub struct Datum {
    pub doc: u32,
    pub freq: u32,
    pub prox: u64,
    pub payload: u32,
}

/// A place along a skip level: so many data are passed, and the last of them leads there.
#[derive(Clone, Copy, Debug, PartialEq, Eq)]
pub struct LevelPlace {
    pub place: usize,
    pub count: u32,
    pub last: Point,
}

/// At the start of the bytes.
const NO_LEVEL_PLACE: LevelPlace = LevelPlace {
    place: 0,
    count: 0,
    last: NO_POINT,
};

/// Where the data start of a level that stands at a place, with so many levels above.
fn data_start(frq: &[u8], place: usize, term: &RuledTerm, number: u32, highest: bool) -> usize
    requires { place ≤ length frq.now }
    ensures within { result ≤ length frq.now }
    ensures data { (postings : List Posting) (points : List (List Point)) (s : Along) (end : Cursor) → highest ≡ (length points == 0)
        → read_plan (level_plan term.now postings number points) (place_in frq.now place) ≡ Ok (s, end)
        → (stated : Option ℕ) × AreData term.now postings (level_of number stated points) (place_in frq.now result) s.points end }
{
    match level_length(frq, place, term, number, highest) {
        Err(_spot) => place,
        Ok((_stated, data)) => data,
    }
}

/// Where the data end of a level that start at a place, and are so many.
fn data_end(frq: &[u8], start: usize, term: &RuledTerm, number: u32, count: u32) -> usize
    requires interval { 2 ≤ term.now.rules.skip_interval }
    requires within { start ≤ length frq.now }
    ensures { (postings : List Posting) (stated : Option ℕ) (above : List (List Point)) (points : List Point) (end : Cursor) → count ≡ data_count term.now number
        → AreData term.now postings (level_of number stated above) (place_in frq.now start) points end → (end ≡ place_in frq.now result) × (result ≤ length frq.now) }
{
    let mut following = Following {
        cur: Cur::at(frq, start),
        count: 0,
        last: NO_POINT,
    };
    for _turn in 0..count {
        following.pass(term, number);
    }
    following.cur.place()
}

/// Passes the next datum along a level.
fn pass_datum(
    frq: &[u8],
    term: &RuledTerm,
    level: u32,
    place_before: &LevelPlace,
    before: u32,
) -> LevelPlace
    requires interval { 2 ≤ term.now.rules.skip_interval }
    requires level { level < count_of_levels term.now }
    requires within { before < term.now.info.doc_freq }
    requires multiple { (before + 1) % stride_of term.now level ≡ 0 }
    requires on { IsOnLevel term.now (postings_from term.now (start_in term.now frq.now)) level (points_in term.now frq.now level) frq.now before place_before.now }
    ensures on { IsOnLevel term.now (postings_from term.now (start_in term.now frq.now)) level (points_in term.now frq.now level) frq.now (before + 1) result }
    ensures fresh { IsDatumOfLast term.now frq.now level (before + 1) result.last }
{
    // Read here, so that its range is known, and with it that of the count of data.
    let _doc_freq = term.info.doc_freq;
    let mut following = Following {
        cur: Cur::at(frq, place_before.place),
        count: place_before.count,
        last: place_before.last,
    };
    following.pass(term, level);
    LevelPlace {
        place: following.cur.place(),
        count: following.count,
        last: following.last,
    }
}

/// The most levels that a term can have.
const MOST_LEVELS: usize = 32;

/// The places along the levels of a term, which are so many, at the start of each.
fn level_starts(frq: &[u8], term: &RuledTerm, count: u32, power: u64) -> [LevelPlace; MOST_LEVELS]
    requires good { IsGoodTerm term.now.info term.now.rules frq.now }
    requires count { count ≡ count_of_levels term.now }
    requires power { power ≡ term.now.rules.skip_interval ^ count }
    requires few { count < 32 }
    ensures { AreOnLevels term.now frq.now 0 result }
{
    let interval = u64::from(term.rules.skip_interval);
    let mut places = [NO_LEVEL_PLACE; MOST_LEVELS];
    if count == 0 {
        return places;
    }
    let mut number = count;
    let mut stride = power;
    let mut place = term.info.freq as usize + term.info.skip as usize;
    while number > 0 {
        number -= 1;
        let start = data_start(frq, place, term, number, number + 1 == count);
        places[number as usize] = LevelPlace {
            place: start,
            count: 0,
            last: NO_POINT,
        };
        place = data_end(
            frq,
            start,
            term,
            number,
            quotient(term.info.doc_freq, stride),
        );
        stride /= interval;
    }
    places
}

/// Passes the data that belong to the entry with an index, on the lowest levels; answers how many levels have one.
fn pass_data_of(
    frq: &[u8],
    term: &RuledTerm,
    places: &mut [LevelPlace; MOST_LEVELS],
    count: u32,
    index: u32,
) -> u32
    requires interval { 2 ≤ term.now.rules.skip_interval }
    requires count { count ≡ count_of_levels term.now }
    requires few { count < 32 }
    requires within { index < term.now.info.doc_freq }
    requires fits { index + 1 < 2 ^ 32 }
    requires on { AreOnLevels term.now frq.now index places.old }
    ensures on { AreOnLevels term.now frq.now (index + 1) places.new }
    ensures low { (n : ℕ) → n < result → IsDatumOfLast term.now frq.now n (index + 1) (slice_index_or places.new n no_level_place).last }
    ensures high { (n : ℕ) → result ≤ n → (index + 1) % stride_of term.now n ≢ 0 ⊎ count_of_levels term.now ≤ n }
    ensures within { result ≤ count }
{
    let interval = term.rules.skip_interval;
    let mut level = 0;
    let mut quotient = index + 1;
    while level < count && quotient % interval == 0 {
        places[level as usize] = pass_datum(frq, term, level, &places[level as usize], index);
        quotient /= interval;
        level += 1;
    }
    level
}

/// A walk over the entries of a term in order, which tells for each the skip data that belong to it, over bytes that were
/// checked. Contracts see the term, what its bytes stand for, and how many entries were answered. No call takes memory.
#[derive(Drop)]
pub struct Walk<'a> {
    frq: &'a [u8],
    term: RuledTerm,
    passing: Passing<'a>,
    count: u32,
    fresh: u32,
    doc: u32,
    freq: u32,
    places: [LevelPlace; MOST_LEVELS],
}

impl<'a> Model for Walk<'a> {
    ghost use Rattle.std.specs.Prelude.{◌≡◌, ◌≤◌, ◌<◌, ◌^◌, ℕ, length, slice_index_or};
    ghost use Rattle.lu_grammar.specs.Bytes.{IsBytes};
    ghost use Rattle.freq_skips.specs.Entries.{AreGoodFrom, postings_from, IsBehindEntries};
    ghost use Rattle.freq_skips.specs.Levels.{level_count};
    ghost use Rattle.freq_skips.specs.Walks.{WalkState, IsDatumOfLast, HasNoDatumForLast, IsBeforeLast, AreOnLevels, no_level_place, start_in, value_from};

    ghost Value = { WalkState };

    ghost view = { λ w. record { term = w.term; value = value_from w.term (start_in w.term w.frq.now); passed = w.passing.index } };

    ghost invariant = { λ w. record {
      interval : 2 ≤ w.term.rules.skip_interval;
      bytes : IsBytes w.frq.now;
      small : length w.frq.now < 2 ^ 32;
      begin_within : w.term.info.freq ≤ length w.frq.now;
      all : AreGoodFrom w.term (start_in w.term w.frq.now);
      postings : (value_from w.term (start_in w.term w.frq.now)).postings ≡ postings_from w.term (start_in w.term w.frq.now);
      levels : w.count ≡ level_count w.term;
      few : w.count < 32;
      stands : IsBehindEntries w.term (start_in w.term w.frq.now) w.passing.index w.passing.doc w.passing.cur;
      within : w.passing.index ≤ w.term.info.doc_freq;
      on : AreOnLevels w.term w.frq.now w.passing.index w.places;
      fresh_within : w.fresh ≤ w.count;
      low : (n : ℕ) → n < w.fresh → IsDatumOfLast w.term w.frq.now n w.passing.index (slice_index_or w.places n no_level_place).last;
      some : 0 < w.fresh → 0 < w.passing.index;
      high : (n : ℕ) → w.fresh ≤ n → n < level_count w.term → HasNoDatumForLast w.term n w.passing.index;
      before : 0 < w.passing.index → IsBeforeLast w.term w.frq.now w.passing.index w.doc w.freq;
    } };
}

impl<'a> Walk<'a> {
    /// Before the first entry of a term of the dictionary. It goes over the term's skip data once.
    pub fn at(frq: &'a [u8], info: &TermInfo, rules: &TermRules) -> Walk<'a>
        requires good { IsGoodTerm info.now rules.now frq.now }
        requires small { length frq.now < 2 ^ 32 }
        ensures { (value : TermData) (end : Cursor) → ReadsTo (term_plan (ruled_by info.now rules.now)) (place_in frq.entry.now info.now.freq) value end
            → result ≡ record { term = ruled_by info.now rules.now; value = value; passed = 0 } }
    {
        let term = RuledTerm {
            info: *info,
            rules: *rules,
        };
        let cur = Cur::at(frq, info.freq as usize);
        let (count, power) = level_count(&term);
        let places = level_starts(frq, &term, count, power);
        Walk {
            frq,
            term,
            passing: Passing {
                cur,
                index: 0,
                doc: 0,
            },
            count,
            fresh: 0,
            doc: 0,
            freq: 0,
            places,
        }
    }

    /// The next entry; `None` exactly at the end.
    pub fn next(&mut self) -> Option<WalkedEntry>
        ensures { MatchOption result
            ((self.old.passed ≡ length self.old.value.postings) × (self.new ≡ self.old))
            (λ walked. (self.old.passed < length self.old.value.postings) × (walked ≡ walked_at self.old.value self.old.passed) × (self.new ≡ record { term = self.old.term; value = self.old.value; passed = self.old.passed + 1 })) }
    {
        let index = self.passing.index;
        if index == self.term.info.doc_freq {
            return None;
        }
        let before = self.passing.doc;
        let place = self.passing.cur.place();
        let entry = match self.passing.step(&self.term) {
            Err(_rule) => return None,
            Ok(entry) => entry,
        };
        self.fresh = pass_data_of(self.frq, &self.term, &mut self.places, self.count, index);
        self.doc = before;
        self.freq = place.saturating_sub(self.term.info.freq as usize) as u32;
        Some(WalkedEntry {
            index,
            doc: entry.doc,
            freq: entry.freq,
        })
    }

    /// The datum of a level, from 0 for the lowest, that belongs to the entry that `next` answered last; `None` exactly where
    /// it answered none, the term has no such level, or the level has no datum for that entry.
    pub fn datum(&self, level: u32) -> Option<Datum>
        ensures { IsDatumFor self.now level result }
    {
        if level >= self.fresh {
            return None;
        }
        let last = &self.places[level as usize].last;
        Some(Datum {
            doc: self.doc,
            freq: self.freq,
            prox: last.prox,
            payload: last.payload,
        })
    }
}
