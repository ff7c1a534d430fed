//! The check of the index, beside a walk over the terms (format page, "Term index").
ghost use Rattle.std.specs.Prelude.{◌≡◌, ℕ, ◌+◌, ◌^◌, ◌<◌, ◌≤◌, length, take, IfOk, IfErr, None, Ok};
ghost use Rattle.std.specs.Str.{bytes_eq};
ghost use Rattle.lu_grammar.specs.Records.{first_broken};
ghost use Rattle.lu_types.specs.declared.kind.FileKind.TheVariants.{Tii};
ghost use Rattle.term_dict.specs.Checks.{AreBounded, broken_so};
ghost use Rattle.lu_types.specs.Judging.{IsBrokenSo, IsFault};
ghost use Rattle.term_dict.specs.Terms.{no_term, term_after};
ghost use Rattle.term_dict.specs.Entries.{term_record_of, IsBounded};
ghost use Rattle.term_dict.specs.Dictionary.{Dictionary};
ghost use Rattle.term_dict.specs.Index.{entry_count, same_intervals, same_info, index_heading_conditions, index_against, index_conditions, index_entry_term, indexed_place, IndexProgress, index_kind, no_entries, tii_plan};
ghost use Rattle.lu_grammar.specs.Plans.{read_plan, read_file, times};
ghost use Rattle.lu_grammar.specs.Meaning.{Reads};
ghost use Rattle.term_dict.specs.Walk.{term_passed, next_place};
ghost use Rattle.term_index.specs.Points.{index_point_of, IsBoundedPoint, ShareFront, info_after, last_term_of, wanted_of, progress, IsNextPoint, IsIndexHeader};

use crate::point::{IndexPoint, point_at};
use crate::walk::{Passed, pass_interval};
use lu_prims::{Cur, OutOfMemory, follow};
use lu_types::rules::{
    TII_COUNT, TII_FORMAT, TII_INTERVALS, TII_PLACE, TII_PREFIX, TII_TERM, TRAILING, rule_of,
};
use lu_types::{CodecFault, FileKind, Spot, TermInfo};
use std::alloc::Global;
use term_dict::{FORMAT, Heading, TermCursor, TermEntry, TermFile, TermNumbers, heading_at};

/// How many entries the index of so many terms has: one for each interval that has begun.
pub(crate) fn entry_count(numbers: &TermNumbers) -> u32
    requires { AreBounded numbers.now }
    ensures { result ≡ entry_count numbers.now }
{
    (numbers.count + (numbers.index_interval - 1)) / numbers.index_interval
}

/// Whether the three numbers of a header after the count are these.
fn is_same_intervals(heading: &Heading, numbers: &TermNumbers) -> bool
    requires { AreBounded numbers.now }
    ensures { result ≡ same_intervals heading.now numbers.now }
{
    heading.index_interval == numbers.index_interval as i32
        && heading.skip_interval == numbers.skip_interval as i32
        && heading.max_levels == numbers.max_levels as i32
}

/// The first rule that the header of the index of terms with these numbers breaks.
fn heading_rule(heading: &Heading, numbers: &TermNumbers) -> Option<u16>
    requires { AreBounded numbers.now }
    ensures { result ≡ first_broken (index_heading_conditions numbers.now heading.now) }
{
    if heading.format != FORMAT {
        return Some(TII_FORMAT);
    }
    if heading.count != i64::from(entry_count(numbers)) {
        return Some(TII_COUNT);
    }
    if !is_same_intervals(heading, numbers) {
        return Some(TII_INTERVALS);
    }
    None
}

/// Whether two texts are the same, where they begin with the same bytes up to a place.
fn is_same_text(a: &[u8], b: &[u8], from: usize) -> bool
    requires within { from ≤ length a.now }
    requires front { take from a.now ≡ take from b.now }
    ensures { result ≡ bytes_eq a.now b.now }
{
    a.split_at(from).1 == b.split_at(from).1
}

/// Whether an entry says what is wanted, where the last one said this.
fn is_same_info(last: &TermInfo, entry: &TermEntry<'_>, wanted: &TermInfo) -> bool
    requires { IsBounded entry.now }
    ensures { result ≡ same_info (info_after last.now (term_record_of entry.now)) wanted.now }
{
    entry.field == wanted.field
        && entry.doc_freq == wanted.doc_freq
        && u64::from(last.freq) + entry.freq == u64::from(wanted.freq)
        && u64::from(last.prox) + entry.prox == u64::from(wanted.prox)
        && entry.skip == wanted.skip
}

/// The last entry that was read: the text of its term, in the one buffer that each next text is written over, what was said
/// of it, and its place in the file of terms.
#[derive(Drop)]
pub(crate) struct LastPoint {
    pub(crate) text: Vec<u8>,
    pub(crate) info: TermInfo,
    pub(crate) place: u32,
}

impl LastPoint {
    /// What the first entry follows: no text, and all places 0. Takes no memory.
    pub(crate) fn new(alloc: Global) -> LastPoint
        ensures last { last_term_of result ≡ no_term }
        ensures place { result.place ≡ 0 }
    {
        LastPoint {
            text: Vec::new(alloc),
            info: TermInfo {
                field: 0,
                doc_freq: 0,
                freq: 0,
                prox: 0,
                skip: 0,
            },
            place: 0,
        }
    }

    /// Makes it the entry, or answers the first rule that the entry breaks. It is to stand for the last term that the walk
    /// passed, of which this is said, and for the place of the walk; so many bytes of its text are those of the last text.
    fn step(
        &mut self,
        point: &IndexPoint<'_>,
        passed: &Passed,
        cursor: &TermCursor<'_>,
    ) -> Result<Option<u16>, OutOfMemory>
        requires bounded { IsBoundedPoint point.now }
        requires shared { ShareFront passed.now.shared self.old.text.items cursor.now }
        ensures rule { IfOk result (λ rule. rule ≡ first_broken (index_against (last_term_of self.old) self.old.place (index_point_of point.now) (wanted_of passed.now.info cursor.now) (next_place cursor.now))) }
        ensures good { IfOk result (λ rule. rule ≡ None → (last_term_of self.new ≡ wanted_of passed.now.info cursor.now) × (self.new.place ≡ next_place cursor.now)) }
    {
        let prefix = point.term.prefix as usize;
        if prefix > self.text.len() {
            return Ok(Some(TII_PREFIX));
        }
        follow(&mut self.text, prefix, point.term.suffix)?;
        let from = prefix.min(passed.shared);
        if !is_same_text(self.text.as_slice(), cursor.text().as_bytes(), from) {
            return Ok(Some(TII_TERM));
        }
        if !is_same_info(&self.info, &point.term, &passed.info) {
            return Ok(Some(TII_TERM));
        }
        let place = cursor.place();
        if u64::from(self.place) + point.step != u64::from(place) {
            return Ok(Some(TII_PLACE));
        }
        self.info = passed.info;
        self.place = place;
        Ok(None)
    }

    /// Makes it an entry whose numbers stay within their limits.
    pub(crate) fn advance(&mut self, point: &IndexPoint<'_>) -> Result<(), OutOfMemory>
        requires freq { self.old.info.freq + point.now.term.freq < 2 ^ 32 }
        requires prox { self.old.info.prox + point.now.term.prox < 2 ^ 32 }
        requires place { self.old.place + point.now.step < 2 ^ 32 }
        ensures term { IfOk result (λ _. last_term_of self.new ≡ term_after (last_term_of self.old) (term_record_of point.now.term)) }
        ensures place { IfOk result (λ _. self.new.place ≡ self.old.place + point.now.step) }
    {
        let term = &point.term;
        follow(&mut self.text, term.prefix as usize, term.suffix)?;
        self.info = TermInfo {
            field: term.field,
            doc_freq: term.doc_freq,
            freq: (u64::from(self.info.freq) + term.freq) as u32,
            prox: (u64::from(self.info.prox) + term.prox) as u32,
            skip: term.skip,
        };
        self.place = (u64::from(self.place) + point.step) as u32;
        Ok(())
    }
}

/// Makes the last entry the one that stands at the cursor, which moves behind it; or answers the first rule that is broken
/// there. It is to stand for the last term that the walk passed, of which this is said, and for the place of the walk.
fn next_point(
    cur: &mut Cur<'_>,
    last: &mut LastPoint,
    skip_interval: u32,
    passed: &Passed,
    cursor: &TermCursor<'_>,
) -> Result<Option<u16>, OutOfMemory>
    requires { ShareFront passed.now.shared last.old.text.items cursor.now }
    ensures next { (d : Dictionary) (n : ℕ) → skip_interval ≡ d.numbers.skip_interval → wanted_of passed.now.info cursor.now ≡ index_entry_term d n → next_place cursor.now ≡ indexed_place d n
        → IfOk result (IsNextPoint d (progress n (last_term_of last.old) last.old.place) cur.old cur.new) }
    ensures good { IfOk result (λ rule. rule ≡ None → (last_term_of last.new ≡ wanted_of passed.now.info cursor.now) × (last.new.place ≡ next_place cursor.now)) }
{
    match point_at(cur, skip_interval) {
        Err(bad) => Ok(Some(rule_of(bad))),
        Ok(point) => last.step(&point, passed, cursor),
    }
}

/// The fault of an index that breaks a rule at a place.
fn fault_at(place: usize, rule: u16) -> CodecFault
    ensures { IsBrokenSo Tii (broken_so place rule) result }
{
    CodecFault::Spot(Spot::at(FileKind::Tii, place, rule))
}

/// Reads all entries from the cursor on, which moves behind them, beside a walk over the terms from the first on; or answers
/// the first fault there.
fn check_points(
    alloc: Global,
    cur: &mut Cur<'_>,
    cursor: &mut TermCursor<'_>,
    numbers: &TermNumbers,
) -> Result<(), CodecFault>
    requires start { cursor.old.passed ≡ 0 }
    requires numbers { numbers.now ≡ cursor.old.dictionary.numbers }
    requires bounded { AreBounded numbers.now }
    requires terms { length cursor.old.dictionary.terms ≡ numbers.now.count }
    requires starts { length cursor.old.dictionary.starts ≡ numbers.now.count }
    ensures ok { IfOk result (λ _. (s : IndexProgress) × (read_plan (times (index_kind cursor.old.dictionary) (entry_count numbers.now) no_entries) cur.old ≡ Ok (s, cur.new))) }
    ensures err { IfErr result (IsBrokenSo Tii (read_plan (times (index_kind cursor.old.dictionary) (entry_count numbers.now) no_entries) cur.old)) }
{
    let mut last = LastPoint::new(alloc);
    for number in 0..entry_count(numbers) {
        let place = cur.place();
        let passed = pass_interval(cursor, number, numbers.index_interval);
        match next_point(cur, &mut last, numbers.skip_interval, &passed, cursor) {
            Err(_) => return Err(CodecFault::OutOfMemory),
            Ok(Some(rule)) => return Err(fault_at(place, rule)),
            Ok(None) => {}
        }
    }
    Ok(())
}

/// The first rule that the header at the cursor breaks in the index of terms with these numbers; `None` where it is good, and
/// then the cursor moves behind it.
fn header_at(cur: &mut Cur<'_>, numbers: &TermNumbers) -> Option<u16>
    requires { AreBounded numbers.now }
    ensures { IsIndexHeader numbers.now cur.old cur.new result }
{
    match heading_at(cur) {
        Err(bad) => Some(rule_of(bad)),
        Ok(heading) => heading_rule(&heading, numbers),
    }
}

/// Whether the bytes are the index of the terms (format page, "Term index" and "How a fault is found"): `Ok`, or their first
/// fault. Answers `OutOfMemory` only where there was no memory for a text of the terms or of the index.
///
/// It walks the terms beside the entries, keeps one text of each, and takes time by the length of both files.
pub fn check_tii(alloc: Global, tii: &[u8], terms: &TermFile<'_>) -> Result<(), CodecFault>
    ensures ok { IfOk result (λ _. Reads (tii_plan terms.now) tii.now tt) }
    ensures err { IfErr result (IsFault Tii (tii_plan terms.now) tii.now) }
{
    check_bytes(alloc, tii, terms)
}

/// The same in terms of reading.
fn check_bytes(alloc: Global, tii: &[u8], terms: &TermFile<'_>) -> Result<(), CodecFault>
    ensures ok { IfOk result (λ _. read_file (tii_plan terms.now) tii.now ≡ Ok tt) }
    ensures err { IfErr result (IsBrokenSo Tii (read_file (tii_plan terms.now) tii.now)) }
{
    let numbers = terms.numbers();
    let mut cur = Cur::at(tii, 0);
    if let Some(rule) = header_at(&mut cur, &numbers) {
        return Err(fault_at(0, rule));
    }
    let mut cursor = terms.cursor(alloc)?;
    if let Err(fault) = check_points(alloc, &mut cur, &mut cursor, &numbers) {
        return Err(fault);
    }
    if cur.left() > 0 {
        return Err(fault_at(cur.place(), TRAILING));
    }
    Ok(())
}
