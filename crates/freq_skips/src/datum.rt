//! One skip datum: its parts, and what it must meet.
ghost use Rattle.std.specs.Prelude.{◌≡◌, ℕ, ◌+◌, ◌-◌, ◌*◌, ◌/◌, ◌^◌, ◌<◌, ◌≤◌, ◌==◌, ◌&&◌, not, length, IfOk, IfSome, MatchOption, MatchResult, Ok, Err, if◌then◌else◌};
ghost use Rattle.lu_grammar.specs.declared.bad.Bad.{Bad};
ghost use Rattle.lu_grammar.specs.Bytes.{IsBytes};
ghost use Rattle.lu_grammar.specs.Answers.{Gives};
ghost use Rattle.lu_grammar.specs.Parts.{vint, num, vlong, spelling};
ghost use Rattle.lu_grammar.specs.Records.{read_shape, record_at, first_broken, rule_of};
ghost use Rattle.freq_skips.specs.Records.{Record, GivesPart, datum, datum_shape, states_payload, optional_length, length_to_child, datum_length};
ghost use Rattle.freq_skips.specs.Levels.{datum_conditions, differs as is_another, skipped as skipped_by, point_of, number_or};

use crate::entry::{is_odd, optional_num};
use crate::rules::RuledTerm;
use lu_prims::{Bad, Cur};
use lu_types::rules::{
    SKIP_CHILD, SKIP_DOC, SKIP_FREQ, SKIP_LENGTH, SKIP_OMIT, SKIP_START, rule_of,
};

/// A skip datum as it stands: the number that tells the skipped documents, the payload length where it is stated, the skipped
/// bytes of the entries and of the positions, and the child pointer where there is one.
#[derive(Clone, Copy, Debug, PartialEq, Eq)]
pub struct Skip {
    pub doc: u32,
    pub payload: Option<u32>,
    pub freq: u32,
    pub prox: u32,
    pub child: Option<u64>,
}

/// Where a datum leads: the sums of what is skipped along its level, the payload length carried there, its child pointer (0
/// where it has none), and the place where it starts.
#[derive(Clone, Copy, Debug, PartialEq, Eq)]
pub struct Point {
    pub doc: u64,
    pub freq: u64,
    pub prox: u64,
    pub payload: u32,
    pub child: u64,
    pub place: usize,
}

/// What the datum that is due on a level is to be: whether it is the first record of the skip data, the document of the
/// entry before the one it belongs to, the bytes of the entries before that one, and, where they are asked for, its place
/// in the level as the level above has it, and the length of the level.
#[derive(Clone, Copy, Debug, PartialEq, Eq)]
pub struct Wanted {
    pub first: bool,
    pub doc: u32,
    pub freq: usize,
    pub child: Option<u64>,
    pub size: Option<u64>,
}

/// A level of a term: its number, from 0, and the place where its data start.
#[derive(Clone, Copy, Debug, PartialEq, Eq)]
pub struct LevelStart {
    pub number: u32,
    pub place: usize,
}

/// The places of a datum: where the data of its level start, where it stands itself, where its child pointer does, and where it
/// ends.
#[derive(Clone, Copy, Debug, PartialEq, Eq)]
struct DatumPlaces {
    level: usize,
    start: usize,
    child: usize,
    end: usize,
}

/// A VLong that stands where the test holds.
fn optional_vlong(cur: &mut Cur<'_>, test: bool) -> Result<Option<u64>, Bad>
    ensures gives { GivesPart test vlong cur.old cur.new result }
    ensures place { IsBytes cur.old.rest → IfOk result (λ found. (cur.new.place ≡ cur.old.place + optional_length vlong found) × IsBytes cur.new.rest) }
{
    if !test {
        return Ok(None);
    }
    match cur.vlong() {
        Err(bad) => Err(bad),
        Ok(found) => Ok(Some(found)),
    }
}

/// The parts of a datum of a level, and the place behind those before its child pointer.
fn datum_parts(cur: &mut Cur<'_>, term: &RuledTerm, level: u32) -> Result<(Skip, usize), Bad>
    ensures parts { Gives (λ x. datum x.0) (read_shape (datum_shape term.now level) cur.old) cur.new result }
    ensures place { IsBytes cur.old.rest → IfOk result (λ x. (x.1 ≡ cur.old.place + length_to_child x.0) × (cur.new.place ≡ cur.old.place + datum_length x.0) × IsBytes cur.new.rest) }
{
    let doc = match cur.vint() {
        Err(bad) => return Err(bad),
        Ok(doc) => doc,
    };
    let payload = match optional_num(cur, term.rules.payloads && is_odd(doc)) {
        Err(bad) => return Err(bad),
        Ok(payload) => payload,
    };
    let freq = match cur.num() {
        Err(bad) => return Err(bad),
        Ok(freq) => freq,
    };
    let prox = match cur.num() {
        Err(bad) => return Err(bad),
        Ok(prox) => prox,
    };
    let before_child = cur.place();
    match optional_vlong(cur, level > 0) {
        Err(bad) => Err(bad),
        Ok(child) => {
            let skip = Skip {
                doc,
                payload,
                freq,
                prox,
                child,
            };
            Ok((skip, before_child))
        }
    }
}

/// How many documents a datum skips.
fn skipped(term: &RuledTerm, doc: u32) -> u32
    ensures { result ≡ skipped_by term.now doc }
{
    if term.rules.payloads { doc / 2 } else { doc }
}

/// Whether a number is there and is another.
fn differs(wanted: Option<u64>, found: usize) -> bool
    ensures { result ≡ is_another wanted found }
{
    match wanted {
        None => false,
        Some(wanted) => wanted != found as u64,
    }
}

/// Whether the first record of the skip data does not start where the dictionary says.
pub fn skips_start_elsewhere(term: &RuledTerm, first: bool, place: usize) -> bool
    ensures { result ≡ (first && not (place == term.now.info.freq + term.now.info.skip)) }
{
    first && place as u64 != u64::from(term.info.freq) + u64::from(term.info.skip)
}

/// Whether a datum skips positions in a field that has none.
fn skips_positions(term: &RuledTerm, prox: u32) -> bool
    ensures { result ≡ (term.now.rules.omit_tf && not (prox == 0)) }
{
    term.rules.omit_tf && prox != 0
}

/// The first rule that a datum with these places breaks, of which this is wanted, after a point.
fn datum_broken(
    term: &RuledTerm,
    wanted: &Wanted,
    last: &Point,
    skip: &Skip,
    places: &DatumPlaces,
) -> Option<u16>
    requires child_after { places.now.child ≡ places.now.start + length_to_child skip.now }
    requires end_after { places.now.end ≡ places.now.start + datum_length skip.now }
    requires level_before { places.now.level ≤ places.now.start }
    requires doc_small { last.now.doc < 2 ^ 63 }
    requires freq_small { last.now.freq < 2 ^ 63 }
    ensures { result ≡ first_broken (datum_conditions term.now wanted.now places.now.level last.now places.now.start (datum skip.now)) }
{
    if skips_start_elsewhere(term, wanted.first, places.start) {
        return Some(SKIP_START);
    }
    if last.doc + u64::from(skipped(term, skip.doc)) != u64::from(wanted.doc) {
        return Some(SKIP_DOC);
    }
    if last.freq + u64::from(skip.freq) != wanted.freq as u64 {
        return Some(SKIP_FREQ);
    }
    if skips_positions(term, skip.prox) {
        return Some(SKIP_OMIT);
    }
    if differs(wanted.child, places.child - places.level) {
        return Some(SKIP_CHILD);
    }
    if differs(wanted.size, places.end - places.level) {
        return Some(SKIP_LENGTH);
    }
    None
}

/// The payload length that is carried after a datum.
fn payload_or(last: u32, stated: Option<u32>) -> u32
    ensures { result ≡ number_or last stated }
{
    match stated {
        None => last,
        Some(length) => length,
    }
}

/// A child pointer, or 0.
fn child_or_zero(child: Option<u64>) -> u64
    ensures { result ≡ number_or 0 child }
{
    match child {
        None => 0,
        Some(child) => child,
    }
}

/// Where a datum leads that stands at a place after a point.
fn point_after(term: &RuledTerm, last: &Point, place: usize, skip: &Skip) -> Point
    requires doc_small { last.now.doc < 2 ^ 63 }
    requires freq_small { last.now.freq < 2 ^ 63 }
    requires prox_small { last.now.prox < 2 ^ 63 }
    ensures point { result ≡ point_of term.now last.now place (datum skip.now) }
    ensures doc_below { result.doc ≤ last.now.doc + 2 ^ 32 }
    ensures freq_below { result.freq ≤ last.now.freq + 2 ^ 32 }
    ensures prox_below { result.prox ≤ last.now.prox + 2 ^ 32 }
{
    Point {
        doc: last.doc + u64::from(skipped(term, skip.doc)),
        freq: last.freq + u64::from(skip.freq),
        prox: last.prox + u64::from(skip.prox),
        payload: payload_or(last.payload, skip.payload),
        child: child_or_zero(skip.child),
        place,
    }
}

/// The datum that stands here, of which this is wanted, in a level, after a point; or the first rule that it breaks.
pub fn next_datum(
    cur: &mut Cur<'_>,
    term: &RuledTerm,
    level: &LevelStart,
    wanted: &Wanted,
    last: &Point,
) -> Result<Point, u16>
    requires bytes { IsBytes cur.old.rest }
    requires level_before { level.now.place ≤ cur.old.place }
    requires doc_small { last.now.doc < 2 ^ 63 }
    requires freq_small { last.now.freq < 2 ^ 63 }
    requires prox_small { last.now.prox < 2 ^ 63 }
    ensures read { MatchResult result
        (λ point. (r : Record) × (record_at (datum_shape term.now level.now.number) (datum_conditions term.now wanted.now level.now.place last.now cur.old.place) cur.old ≡ Ok (r, cur.new))
        × (point_of term.now last.now cur.old.place r ≡ point))
        (λ rule. record_at (datum_shape term.now level.now.number) (datum_conditions term.now wanted.now level.now.place last.now cur.old.place) cur.old ≡ Err rule) }
    ensures bytes { IfOk result (λ point. IsBytes cur.new.rest × (cur.old.place ≤ cur.new.place)) }
    ensures point { IfOk result (λ point. (point.place ≡ cur.old.place) × (point.doc ≤ last.now.doc + 2 ^ 32) × (point.freq ≤ last.now.freq + 2 ^ 32) × (point.prox ≤ last.now.prox + 2 ^ 32)) }
{
    let place = cur.place();
    let (skip, child) = match datum_parts(cur, term, level.number) {
        Err(bad) => return Err(rule_of(bad)),
        Ok(parts) => parts,
    };
    let places = DatumPlaces {
        level: level.place,
        start: place,
        child,
        end: cur.place(),
    };
    match datum_broken(term, wanted, last, &skip, &places) {
        Some(rule) => Err(rule),
        None => Ok(point_after(term, last, place, &skip)),
    }
}

/// Where the next datum leads of a level whose data are good, after a point.
pub fn good_datum(cur: &mut Cur<'_>, term: &RuledTerm, level: u32, last: &Point) -> Option<Point>
    requires doc_small { last.now.doc < 2 ^ 63 }
    requires freq_small { last.now.freq < 2 ^ 63 }
    requires prox_small { last.now.prox < 2 ^ 63 }
    ensures read { MatchOption result
        ((bad : Bad) × (read_shape (datum_shape term.now level) cur.old ≡ Err bad))
        (λ point. (r : Record) × (read_shape (datum_shape term.now level) cur.old ≡ Ok (r, cur.new)) × (point_of term.now last.now cur.old.place r ≡ point)) }
    ensures point { IfSome result (λ point. (point.place ≡ cur.old.place) × (point.doc ≤ last.now.doc + 2 ^ 32) × (point.freq ≤ last.now.freq + 2 ^ 32) × (point.prox ≤ last.now.prox + 2 ^ 32)) }
{
    let place = cur.place();
    match datum_parts(cur, term, level) {
        Err(_bad) => None,
        Ok(parts) => Some(point_after(term, last, place, &parts.0)),
    }
}
