//! The skip levels of a term, from the highest down.
ghost use Rattle.std.specs.Prelude.{◌≡◌, ℕ, suc, ◌+◌, ◌-◌, ◌*◌, ◌/◌, ◌^◌, ◌<◌, ◌≤◌, ◌⊎◌, List, [], ◌∷◌, Option, length, None, ◌==◌, ◌&&◌, if◌then◌else◌, IfOk, IfSome, OnOk, MatchResult, Ok, Err};
ghost use Rattle.lu_grammar.specs.Bytes.{IsBytes, Cursor, place_in};
ghost use Rattle.lu_grammar.specs.Plans.{read_plan};
ghost use Rattle.lu_types.specs.declared.kind.FileKind.TheVariants.{Frq};
ghost use Rattle.lu_types.specs.Judging.{IsBroken};
ghost use Rattle.freq_skips.specs.declared.datum.Point.{Point};
ghost use Rattle.freq_skips.specs.Entries.{Posting, postings_from, AreEntries, AreGoodFrom, IsBehindEntries};
ghost use Rattle.freq_skips.specs.Levels.{greatest_power as greatest_power_of, level_count as count_of_levels, level_of, wanted as is_wanted, data_count, stride as stride_of, level_data, child_above as child_of, AreGoodData};
ghost use Rattle.freq_skips.specs.Walking.{FollowsAbove, StartsAbove, StandAbove};

use crate::datum::{LevelStart, Wanted};
use crate::following::{Following, NO_POINT};
use crate::level_check::LevelCheck;
use crate::passing::{CheckedEntries, Passing};
use crate::rules::RuledTerm;
use lu_prims::Cur;
use lu_types::{FileKind, Spot};

/// The greatest number up to the most for which the power of the base is at most `number`, or 0, and that power.
pub fn greatest_power(base: u32, number: u32, most: u32) -> (u32, u64)
    requires { 2 ≤ base }
    ensures count { result.0 ≡ greatest_power_of base number most }
    ensures power { result.1 ≡ base ^ result.0 }
    ensures low { result.0 ≡ 0 ⊎ result.1 ≤ number }
    ensures few { result.0 < 32 }
{
    let limit = number / base;
    let mut count = 0;
    let mut power = 1;
    while count < most && power <= u64::from(limit) {
        power *= u64::from(base);
        count += 1;
    }
    (count, power)
}

/// How many skip levels a term has, and so great a power of the interval.
pub fn level_count(term: &RuledTerm) -> (u32, u64)
    requires { 2 ≤ term.now.rules.skip_interval }
    ensures count { result.0 ≡ count_of_levels term.now }
    ensures power { result.1 ≡ term.now.rules.skip_interval ^ result.0 }
    ensures few { result.0 < 32 }
{
    greatest_power(
        term.rules.skip_interval,
        term.info.doc_freq,
        term.rules.max_levels,
    )
}

/// The child pointer that the level above, which has this number, holds for the datum that follows so many; its walk takes one
/// datum for every so many of the level below.
fn child_above(
    above: &mut Option<Following<'_>>,
    term: &RuledTerm,
    level: u32,
    passed: u32,
) -> Option<u64>
    requires interval { 2 ≤ term.now.rules.skip_interval }
    requires few { passed < 2 ^ 31 }
    ensures goes_on { (postings : List Posting) (n : ℕ) (points : List (List Point)) → level ≡ suc n → FollowsAbove term.now postings level points passed above.old → passed < data_count term.now n
        → (result ≡ child_of term.now points (suc passed)) × FollowsAbove term.now postings level points (suc passed) above.new }
{
    match above {
        None => None,
        Some(above) => {
            if (passed + 1) % term.rules.skip_interval != 0 {
                return None;
            }
            above.pass(term, level);
            Some(above.last.child)
        }
    }
}

/// A level of a term: its number, from 0; how many entries one datum of it stands for; and the length of its data where that
/// is stated.
#[derive(Drop)]
pub struct Level {
    pub number: u32,
    pub stride: u64,
    pub stated: Option<u64>,
}

impl Level {
    /// The index of the entry that the datum belongs to which follows so many.
    fn entry_index(&self, term: &RuledTerm, passed: u32) -> u32
        requires interval { 2 ≤ term.now.rules.skip_interval }
        requires stride { self.now.stride ≡ stride_of term.now self.now.number }
        requires within { passed < data_count term.now self.now.number }
        ensures index { result ≡ suc passed * self.now.stride - 1 }
        ensures below { result < term.now.info.doc_freq }
    {
        // Read here, so that its range is known where the index is cast.
        let _doc_freq = term.info.doc_freq;
        ((u64::from(passed) + 1) * self.stride - 1) as u32
    }

    /// The length that the datum is to end which follows so many: that of the level where it is the last.
    fn length_due(&self, term: &RuledTerm, passed: u32) -> Option<u64>
        requires stride { self.now.stride ≡ stride_of term.now self.now.number }
        requires interval { 2 ≤ term.now.rules.skip_interval }
        ensures { result ≡ (if suc passed == data_count term.now self.now.number then self.now.stated else None) }
    {
        if u64::from(passed) + 1 == u64::from(term.info.doc_freq) / self.stride {
            self.stated
        } else {
            None
        }
    }

    /// Whether the datum that follows so many is the first record of the skip data.
    fn is_first(&self, highest: bool, passed: u32) -> bool
        ensures { result ≡ (self.now.number == 0 && highest && suc passed == 1) }
    {
        self.number == 0 && highest && passed == 0
    }
}

/// What is wanted of the datum of a level that follows so many; the walk over the entries goes to the one that it belongs
/// to, and the walk along the level above to the datum that leads to it, if one does.
fn wanted_next(
    entries: &mut Passing<'_>,
    above: &mut Option<Following<'_>>,
    term: &RuledTerm,
    level: &Level,
    passed: u32,
) -> Wanted
    requires interval { 2 ≤ term.now.rules.skip_interval }
    requires stride { level.now.stride ≡ stride_of term.now level.now.number }
    requires within { passed < data_count term.now level.now.number }
    requires number { level.now.number + 1 < 2 ^ 32 }
    requires few { passed < 2 ^ 31 }
    ensures stands { (start end : Cursor) → AreEntries term.now start end → IsBehindEntries term.now start entries.old.index entries.old.doc entries.old.cur → entries.old.index ≤ passed * level.now.stride
        → IsBehindEntries term.now start entries.new.index entries.new.doc entries.new.cur × (entries.new.index ≤ suc passed * level.now.stride) }
    ensures goes_on { (start end : Cursor) (points : List (List Point))
        → AreEntries term.now start end → IsBehindEntries term.now start entries.old.index entries.old.doc entries.old.cur → entries.old.index ≤ passed * level.now.stride
        → FollowsAbove term.now (postings_from term.now start) (suc level.now.number) points passed above.old
        → (result ≡ is_wanted term.now (postings_from term.now start) (level_of level.now.number level.now.stated points) (suc passed))
        × FollowsAbove term.now (postings_from term.now start) (suc level.now.number) points (suc passed) above.new }
{
    entries.pass_to(term, level.entry_index(term, passed));
    Wanted {
        first: level.is_first(above.is_none(), passed),
        doc: entries.doc,
        freq: entries.cur.place().saturating_sub(term.info.freq as usize),
        child: child_above(above, term, level.number + 1, passed),
        size: level.length_due(term, passed),
    }
}

/// How often a stride is in a number of entries.
pub fn quotient(entries: u32, stride: u64) -> u32
    requires { 2 ≤ stride }
    ensures quotient { result ≡ entries / stride }
    ensures few { result < 2 ^ 31 }
{
    (u64::from(entries) / stride) as u32
}

/// Before the first datum of the level above, where there is one.
fn following_above(frq: &[u8], above: Option<usize>) -> Option<Following<'_>>
    requires { IfSome above (λ place. place ≤ length frq.now) }
    ensures { StartsAbove frq.now above result }
{
    match above {
        None => None,
        Some(place) => Some(Following {
            cur: Cur::at(frq, place),
            count: 0,
            last: NO_POINT,
        }),
    }
}

/// Checks the data of a level that are to start at a place, of a term whose entries are good; the data of the level above,
/// where there is one, are good and start at another. Answers the place behind the data.
pub fn check_data(
    entries: &CheckedEntries<'_>,
    at: usize,
    level: &Level,
    above: Option<usize>,
) -> Result<usize, Spot>
    requires interval { 2 ≤ entries.now.term.rules.skip_interval }
    requires stride { level.now.stride ≡ stride_of entries.now.term level.now.number }
    requires number { level.now.number + 1 < 2 ^ 32 }
    requires at_within { at ≤ length entries.now.frq.now }
    requires bytes { IsBytes entries.now.frq.now }
    requires entries_within { entries.now.start ≤ length entries.now.frq.now }
    requires above_within { IfSome above (λ place. place ≤ length entries.now.frq.now) }
    requires entries_good { AreGoodFrom entries.now.term (place_in entries.now.frq.now entries.now.start) }
    ensures { (points : List (List Point)) → StandAbove entries.now.term (postings_from entries.now.term (place_in entries.now.frq.now entries.now.start)) (suc level.now.number) points entries.now.frq.now above
        → MatchResult result
        (λ end. AreGoodData entries.now.term (postings_from entries.now.term (place_in entries.now.frq.now entries.now.start)) (level_of level.now.number level.now.stated points) (place_in entries.now.frq.now at) (place_in entries.now.frq.now end) × (end ≤ length entries.now.frq.now))
        (λ spot. IsBroken Frq (read_plan (level_data entries.now.term (postings_from entries.now.term (place_in entries.now.frq.now entries.now.start)) (level_of level.now.number level.now.stated points)) (place_in entries.now.frq.now at)) spot) }
{
    let mut passing = Passing {
        cur: Cur::at(entries.frq, entries.start),
        index: 0,
        doc: 0,
    };
    let mut above = following_above(entries.frq, above);
    let mut data = LevelCheck {
        walk: Following {
            cur: Cur::at(entries.frq, at),
            count: 0,
            last: NO_POINT,
        },
        start: LevelStart {
            number: level.number,
            place: at,
        },
        all: quotient(entries.term.info.doc_freq, level.stride),
    };
    while data.walk.count < data.all {
        let passed = data.walk.count;
        let wanted = wanted_next(&mut passing, &mut above, &entries.term, level, passed);
        let place = data.walk.cur.place();
        match data.check_next(&entries.term, &wanted) {
            Err(rule) => return Err(Spot::at(FileKind::Frq, place, rule)),
            Ok(next) => data = next,
        }
    }
    Ok(data.walk.cur.place())
}
