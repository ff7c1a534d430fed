//! One entry: its parts, and what it must meet.
ghost use Rattle.std.specs.Prelude.{◌≡◌, ℕ, ◌+◌, ◌/◌, ◌%◌, ◌^◌, ◌<◌, ◌==◌, ◌&&◌, not, nat_le, IfOk, MatchResult, Ok, Err, None, if◌then◌else◌};
ghost use Rattle.lu_grammar.specs.Bytes.{IsBytes};
ghost use Rattle.lu_grammar.specs.Answers.{Gives};
ghost use Rattle.lu_grammar.specs.Parts.{num};
ghost use Rattle.lu_grammar.specs.Records.{read_shape, record_at, first_broken};
ghost use Rattle.freq_skips.specs.Records.{Record, GivesPart, optional_length, entry, entry_shape, states_frequency, is_odd as is_odd_number};
ghost use Rattle.freq_skips.specs.Entries.{entry_conditions, gap as gap_of, posting_of, stated_or_one, is_low};

use crate::rules::RuledTerm;
use lu_prims::{Bad, Cur};
use lu_types::rules::{DOC_ORDER, DOC_RANGE, FREQ, FREQ_START, rule_of};

/// A document that has the term, and how often the term stands in it.
#[derive(Clone, Copy, Debug, PartialEq, Eq)]
pub struct Entry {
    pub doc: u32,
    pub freq: u32,
}

/// The least frequency that is stated: 1 is told by an odd delta.
const LEAST_STATED: u32 = 2;

/// Whether a number is odd.
pub fn is_odd(n: u32) -> bool
    ensures { result ≡ is_odd_number n }
{
    n % 2 == 1
}

/// A num that stands where the test holds.
pub fn optional_num(cur: &mut Cur<'_>, test: bool) -> Result<Option<u32>, Bad>
    ensures gives { GivesPart test num cur.old cur.new result }
    ensures place { IsBytes cur.old.rest → IfOk result (λ found. (cur.new.place ≡ cur.old.place + optional_length num found) × IsBytes cur.new.rest) }
{
    if !test {
        return Ok(None);
    }
    match cur.num() {
        Err(bad) => Err(bad),
        Ok(found) => Ok(Some(found)),
    }
}

/// An entry as it stands: its delta, and its frequency where that is stated.
#[derive(Clone, Copy, Debug, PartialEq, Eq)]
struct EntryParts {
    delta: u32,
    stated: Option<u32>,
}

/// The parts of the entry that stands here.
fn entry_parts(cur: &mut Cur<'_>, term: &RuledTerm) -> Result<EntryParts, Bad>
    ensures { Gives (λ x. entry x.delta x.stated) (read_shape (entry_shape term.now) cur.old) cur.new result }
{
    let delta = match cur.vint() {
        Err(bad) => return Err(bad),
        Ok(delta) => delta,
    };
    match optional_num(cur, !term.rules.omit_tf && !is_odd(delta)) {
        Err(bad) => Err(bad),
        Ok(stated) => Ok(EntryParts { delta, stated }),
    }
}

/// How far the document of an entry is above the one before.
fn gap(term: &RuledTerm, delta: u32) -> u32
    ensures { result ≡ gap_of term.now delta }
{
    if term.rules.omit_tf { delta } else { delta / 2 }
}

/// The stated frequency, or else 1.
fn frequency_or_one(stated: Option<u32>) -> u32
    ensures { result ≡ stated_or_one stated }
{
    match stated {
        None => 1,
        Some(freq) => freq,
    }
}

/// Whether a frequency is stated that is too low to be.
fn is_low_frequency(stated: Option<u32>) -> bool
    ensures { result ≡ is_low stated }
{
    match stated {
        None => false,
        Some(freq) => freq < LEAST_STATED,
    }
}

/// Whether the first entry of a term does not start where the dictionary says.
fn starts_elsewhere(term: &RuledTerm, first: bool, place: usize) -> bool
    ensures { result ≡ (first && not (place == term.now.info.freq)) }
{
    first && place != term.info.freq as usize
}

/// Whether an entry that is not the first has the document of the one before.
fn repeats(first: bool, gap: u32) -> bool
    ensures { result ≡ (not first && (gap == 0)) }
{
    !first && gap == 0
}

/// The first rule that an entry breaks at a place, after the document of the entry before.
fn entry_broken(
    term: &RuledTerm,
    first: bool,
    last: u32,
    place: usize,
    parts: &EntryParts,
) -> Option<u16>
    ensures broken { result ≡ first_broken (entry_conditions term.now first last place (entry parts.now.delta parts.now.stated)) }
    ensures below { result ≡ None → last + gap_of term.now parts.now.delta < 2 ^ 32 }
{
    let gap = gap(term, parts.delta);
    let documents = term.rules.documents;
    if starts_elsewhere(term, first, place) {
        return Some(FREQ_START);
    }
    if repeats(first, gap) {
        return Some(DOC_ORDER);
    }
    if u64::from(last) + u64::from(gap) >= u64::from(documents) {
        return Some(DOC_RANGE);
    }
    if is_low_frequency(parts.stated) {
        return Some(FREQ);
    }
    None
}

/// The entry that stands here, the first of its term or not, after a document; or the first rule that it breaks.
pub fn next_entry(cur: &mut Cur<'_>, term: &RuledTerm, first: bool, last: u32) -> Result<Entry, u16>
    ensures { MatchResult result
        (λ e. (r : Record) × (record_at (entry_shape term.now) (entry_conditions term.now first last cur.old.place) cur.old ≡ Ok (r, cur.new))
        × (posting_of term.now last cur.old.place r ≡ record { doc = e.doc; freq = e.freq; before = last; place = cur.old.place }))
        (λ rule. record_at (entry_shape term.now) (entry_conditions term.now first last cur.old.place) cur.old ≡ Err rule) }
{
    let place = cur.place();
    let parts = match entry_parts(cur, term) {
        Err(bad) => return Err(rule_of(bad)),
        Ok(parts) => parts,
    };
    match entry_broken(term, first, last, place, &parts) {
        Some(rule) => Err(rule),
        None => Ok(Entry {
            doc: last + gap(term, parts.delta),
            freq: frequency_or_one(parts.stated),
        }),
    }
}
