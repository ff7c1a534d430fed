//! The skip levels of a term are gone down, each from where the level above leads.
ghost use Rattle.std.specs.Prelude.{◌≡◌, ◌+◌, ◌-◌, ◌*◌, ◌/◌, ◌^◌, ◌<◌, ◌≤◌, ℕ, suc, List, length, min, MatchOption, Ok, if◌then◌else◌};
ghost use Rattle.lu_grammar.specs.Bytes.{Cursor};
ghost use Rattle.lu_grammar.specs.Parts.{vlong};
ghost use Rattle.lu_grammar.specs.Reading.{read_part};
ghost use Rattle.freq_skips.specs.Levels.{level_count, data_count};
ghost use Rattle.freq_skips.specs.Walks.{start_in, value_from, points_in};
ghost use Rattle.lu_prims.specs.Steps.{ticked};
ghost use Rattle.freq_skips.specs.Points.{is_highest, data_below, find_steps};
ghost use Rattle.freq_skips.specs.Finding.{CanSearch, LevelsLeft, LevelStands, HasPassedData, StandsOn, StopsAt};

use crate::datum::{Point, good_datum};
use crate::following::{Following, NO_POINT};
use crate::level::quotient;
use crate::levels::{LevelBounds, level_length};
use crate::rules::RuledTerm;
use lu_prims::{Cur, Steps};

/// The place behind so many bytes, where their number is told.
fn place_behind(start: usize, length: Option<u64>) -> usize
    ensures { MatchOption length (result ≡ start) (λ n. result ≡ min (start + n) usize.MAX) }
{
    match length {
        None => start,
        Some(length) => start.saturating_add(length as usize),
    }
}

/// The bounds of the level with a number, the highest or not, which stands at a place.
pub fn level_bounds(
    frq: &[u8],
    place: usize,
    term: &RuledTerm,
    number: u32,
    highest: bool,
) -> LevelBounds
    requires interval { 2 ≤ term.now.rules.skip_interval }
    requires small { length frq.now < 2 ^ 32 }
    requires left { LevelsLeft term.now frq.now (suc number) place }
    requires highest { highest ≡ is_highest term.now number }
    ensures stands { LevelStands term.now frq.now number result.«data» }
    ensures left { 0 < number → LevelsLeft term.now frq.now number result.end }
{
    match level_length(frq, place, term, number, highest) {
        Err(_spot) => LevelBounds {
            data: place,
            end: place,
        },
        Ok((stated, data)) => LevelBounds {
            data,
            end: place_behind(data, stated),
        },
    }
}

/// The child pointer that stands here on a level that is not the lowest, or else 0.
fn child_here(cur: &mut Cur<'_>, level: u32) -> u64
    ensures lowest { level ≡ 0 → (result ≡ 0) × (cur.new ≡ cur.old) }
    ensures child { (n : ℕ) (next : Cursor) → 0 < level → read_part vlong cur.old ≡ Ok (n, next) → (result ≡ n) × (cur.new ≡ next) }
{
    if level == 0 {
        return 0;
    }
    match cur.vlong() {
        Err(_bad) => 0,
        Ok(child) => child,
    }
}

/// Goes from a walk along the level above to one along a level whose data start at a place, behind the datum that it leads to.
pub fn enter<'a>(
    walk: &mut Following<'a>,
    frq: &'a [u8],
    term: &RuledTerm,
    level: u32,
    start: usize,
)
    requires search { CanSearch term.now frq.now }
    requires level { level < level_count term.now }
    requires stands { LevelStands term.now frq.now level start }
    requires above { HasPassedData term.now frq.now (suc level) walk.old.count walk.old.last }
    ensures stands { StandsOn term.now frq.entry.now level walk.new.count walk.new.last walk.new.cur }
    ensures count { walk.new.count ≡ walk.old.count * term.now.rules.skip_interval }
{
    if walk.count == 0 {
        *walk = Following {
            cur: Cur::at(frq, start),
            count: 0,
            last: NO_POINT,
        };
        return;
    }
    let mut cur = Cur::at(frq, start.saturating_add(walk.last.child as usize));
    let child = child_here(&mut cur, level);
    *walk = Following {
        cur,
        count: walk.count * term.rules.skip_interval,
        last: Point { child, ..walk.last },
    };
}

/// What is sought along a level: the last of its first so many data that leads to a document below the target.
#[derive(Clone, Copy, Debug, PartialEq, Eq)]
pub struct Sought {
    pub level: u32,
    pub most: u32,
    pub target: u32,
}

/// Passes the data that lead to documents below the target. Each datum that is read is a step.
pub fn pass_below<L>(
    walk: &mut Following<'_>,
    term: &RuledTerm,
    sought: &Sought,
    steps: &mut Steps<L>,
)
    requires few { sought.now.most < 2 ^ 31 }
    ensures passes { (frq : List ℕ) → StandsOn term.now frq sought.now.level walk.old.count walk.old.last walk.old.cur
        → walk.old.count ≤ sought.now.most → sought.now.most ≤ data_count term.now sought.now.level
        → HasPassedData term.now frq sought.now.level walk.new.count walk.new.last × StopsAt (points_in term.now frq sought.now.level) sought.now.target walk.old.count walk.new.count sought.now.most }
    ensures steps { steps.new ≡ ticked (min (suc walk.new.count) sought.now.most - walk.old.count) steps.old }
{
    while walk.count < sought.most {
        steps.tick();
        match good_datum(&mut walk.cur, term, sought.level, &walk.last) {
            None => return,
            Some(point) => {
                if point.doc >= u64::from(sought.target) {
                    return;
                }
                walk.count += 1;
                walk.last = point;
            }
        }
    }
}

/// Up to which datum a level with a stride is searched, from so many on: the highest to its end, another to the next that the
/// level above leads to.
fn most_data(term: &RuledTerm, stride: u64, highest: bool, passed: u32) -> u32
    requires interval { 2 ≤ term.now.rules.skip_interval }
    requires stride { 2 ≤ stride }
    ensures most { result ≡ (if highest then term.now.info.doc_freq / stride else min (term.now.info.doc_freq / stride) (passed + (term.now.rules.skip_interval - 1))) }
    ensures few { result < 2 ^ 31 }
{
    let all = quotient(term.info.doc_freq, stride);
    if highest {
        return all;
    }
    all.min(passed.saturating_add(term.rules.skip_interval - 1))
}

/// How many skip levels a term has, and so great a power of its interval.
#[derive(Clone, Copy, Debug, PartialEq, Eq)]
pub struct LevelCount {
    pub count: u32,
    pub power: u64,
}

/// Goes down the levels of a term. Answers how many data of the lowest level lead to documents below a target, and where the
/// last of them leads.
pub fn descended<'a, L>(
    frq: &'a [u8],
    term: &RuledTerm,
    levels: &LevelCount,
    target: u32,
    steps: &mut Steps<L>,
) -> Following<'a>
    requires search { CanSearch term.now frq.now }
    requires count { levels.now.count ≡ level_count term.now }
    requires power { levels.now.power ≡ term.now.rules.skip_interval ^ levels.now.count }
    ensures passed { HasPassedData term.now frq.entry.now 0 result.count result.last }
    ensures below { result.count ≡ data_below (value_from term.now (start_in term.now frq.entry.now)) target 0 }
    ensures steps { steps.new ≡ ticked (find_steps term.now (value_from term.now (start_in term.now frq.entry.now)) target (level_count term.now)) steps.old }
{
    let interval = u64::from(term.rules.skip_interval);
    let mut walk = Following {
        cur: Cur::at(frq, 0),
        count: 0,
        last: NO_POINT,
    };
    let mut number = levels.count;
    let mut stride = levels.power;
    let mut place = term.info.freq as usize + term.info.skip as usize;
    while number > 0 {
        number -= 1;
        let highest = number + 1 == levels.count;
        let level = level_bounds(frq, place, term, number, highest);
        enter(&mut walk, frq, term, number, level.data);
        let sought = Sought {
            level: number,
            most: most_data(term, stride, highest, walk.count),
            target,
        };
        pass_below(&mut walk, term, &sought, steps);
        place = level.end;
        stride /= interval;
    }
    walk
}
