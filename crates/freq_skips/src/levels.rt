//! All skip levels of a term.
ghost use Rattle.lu_grammar.specs.Bytes.{IsBytes, place_in};
ghost use Rattle.lu_grammar.specs.Answers.{Gives};
ghost use Rattle.std.specs.Prelude.{◌≡◌, ◌⊎◌, ℕ, suc, ◌+◌, ◌/◌, ◌^◌, ◌<◌, ◌≤◌, List, [], ◌∷◌, Option, length, ◌==◌, IfOk, IfSome, MatchResult, Some, Ok, Err};
ghost use Rattle.lu_grammar.specs.Records.{record_at, first_broken};
ghost use Rattle.lu_grammar.specs.Plans.{read_plan};
ghost use Rattle.lu_types.specs.declared.kind.FileKind.TheVariants.{Frq};
ghost use Rattle.lu_types.specs.Judging.{IsBroken};
ghost use Rattle.freq_skips.specs.declared.datum.Point.{Point};
ghost use Rattle.freq_skips.specs.Records.{level_length as length_record, length_shape};
ghost use Rattle.freq_skips.specs.Entries.{Posting, postings_from, AreGoodFrom};
ghost use Rattle.freq_skips.specs.Levels.{skip_start, level_of, stride as stride_of, level_data, level_plan, level_count as count_of_levels, levels};
ghost use Rattle.freq_skips.specs.Walking.{StandAbove, IsGoodLevel, AreGoodLevels};

use crate::datum::skips_start_elsewhere;
use crate::level::{Level, check_data, level_count};
use crate::passing::CheckedEntries;
use crate::rules::RuledTerm;
use lu_prims::Cur;
use lu_types::rules::{SKIP_START, rule_of};
use lu_types::{FileKind, Spot};

/// The first rule that the length of a level breaks at a place, the first record of the skip data or not.
fn length_broken(term: &RuledTerm, first: bool, place: usize) -> Option<u16>
    ensures { result ≡ first_broken (skip_start term.now first place ∷ []) }
{
    if skips_start_elsewhere(term, first, place) {
        return Some(SKIP_START);
    }
    None
}

/// The length of a level, the first record of the skip data or not; or the first rule that it breaks.
fn read_length(cur: &mut Cur<'_>, term: &RuledTerm, first: bool) -> Result<u64, u16>
    ensures { Gives length_record (record_at length_shape (λ r. skip_start term.now first cur.old.place ∷ []) cur.old) cur.new result }
{
    let place = cur.place();
    match cur.vlong() {
        Err(bad) => Err(rule_of(bad)),
        Ok(stated) => match length_broken(term, first, place) {
            Some(rule) => Err(rule),
            None => Ok(stated),
        },
    }
}

/// The length of a level that is to start at a place, where it has one, and the place where its data are to start.
pub fn level_length(
    frq: &[u8],
    at: usize,
    term: &RuledTerm,
    number: u32,
    highest: bool,
) -> Result<(Option<u64>, usize), Spot>
    requires { at ≤ length frq.now }
    ensures within { IfOk result (λ x. x.1 ≤ length frq.now) }
    ensures stated { IfOk result (λ x. (number ≡ 0) ⊎ ((n : ℕ) × (x.0 ≡ Some n))) }
    ensures level { (postings : List Posting) (points : List (List Point)) → highest ≡ (length points == 0)
        → MatchResult result
        (λ x. read_plan (level_plan term.now postings number points) (place_in frq.now at) ≡ read_plan (level_data term.now postings (level_of number x.0 points)) (place_in frq.now x.1))
        (λ spot. IsBroken Frq (read_plan (level_plan term.now postings number points) (place_in frq.now at)) spot) }
{
    if number == 0 {
        return Ok((None, at));
    }
    let mut cur = Cur::at(frq, at);
    match read_length(&mut cur, term, highest) {
        Err(rule) => Err(Spot::at(FileKind::Frq, at, rule)),
        Ok(stated) => Ok((Some(stated), cur.place())),
    }
}

/// Where the data of a level start, and where it ends.
#[derive(Clone, Copy, Debug, PartialEq, Eq)]
pub struct LevelBounds {
    pub data: usize,
    pub end: usize,
}

/// Checks the level with a number that is to start at a place, of a term whose entries are good; the data of the level
/// above, where there is one, are good and start at another.
fn check_level(
    entries: &CheckedEntries<'_>,
    at: usize,
    number: u32,
    stride: u64,
    above: Option<usize>,
) -> Result<LevelBounds, Spot>
    requires interval { 2 ≤ entries.now.term.rules.skip_interval }
    requires stride { stride ≡ stride_of entries.now.term number }
    requires number { number + 1 < 2 ^ 32 }
    requires at_within { at ≤ length entries.now.frq.now }
    requires bytes { IsBytes entries.now.frq.now }
    requires entries_within { entries.now.start ≤ length entries.now.frq.now }
    requires above_within { IfSome above (λ place. place ≤ length entries.now.frq.now) }
    requires entries_good { AreGoodFrom entries.now.term (place_in entries.now.frq.now entries.now.start) }
    ensures { (points : List (List Point)) → StandAbove entries.now.term (postings_from entries.now.term (place_in entries.now.frq.now entries.now.start)) (suc number) points entries.now.frq.now above
        → MatchResult result
        (λ places. IsGoodLevel entries.now.term (postings_from entries.now.term (place_in entries.now.frq.now entries.now.start)) number points entries.now.frq.now at places.«data» places.end)
        (λ spot. IsBroken Frq (read_plan (level_plan entries.now.term (postings_from entries.now.term (place_in entries.now.frq.now entries.now.start)) number points) (place_in entries.now.frq.now at)) spot) }
{
    let (stated, data) = match level_length(
        entries.frq,
        at,
        &entries.term,
        number,
        above.is_none(),
    ) {
        Err(spot) => return Err(spot),
        Ok(found) => found,
    };
    let level = Level {
        number,
        stride,
        stated,
    };
    match check_data(entries, data, &level, above) {
        Err(spot) => Err(spot),
        Ok(end) => Ok(LevelBounds { data, end }),
    }
}

/// Checks the skip levels of a term that are to start at a place, where its entries are good. Answers the place behind
/// them.
pub fn check_levels(entries: &CheckedEntries<'_>, at: usize) -> Result<usize, Spot>
    requires interval { 2 ≤ entries.now.term.rules.skip_interval }
    requires at_within { at ≤ length entries.now.frq.now }
    requires bytes { IsBytes entries.now.frq.now }
    requires entries_within { entries.now.start ≤ length entries.now.frq.now }
    requires entries_good { AreGoodFrom entries.now.term (place_in entries.now.frq.now entries.now.start) }
    ensures { MatchResult result
        (λ end. AreGoodLevels entries.now.term (postings_from entries.now.term (place_in entries.now.frq.now entries.now.start)) entries.now.frq.now at end)
        (λ spot. IsBroken Frq (read_plan (levels entries.now.term (postings_from entries.now.term (place_in entries.now.frq.now entries.now.start)) (count_of_levels entries.now.term) []) (place_in entries.now.frq.now at)) spot) }
{
    let interval = u64::from(entries.term.rules.skip_interval);
    let (count, power) = level_count(&entries.term);
    let mut number = count;
    let mut stride = power;
    let mut above = None;
    let mut place = at;
    while number > 0 {
        number -= 1;
        match check_level(entries, place, number, stride, above) {
            Err(spot) => return Err(spot),
            Ok(places) => {
                above = Some(places.data);
                place = places.end;
            }
        }
        stride /= interval;
    }
    Ok(place)
}
