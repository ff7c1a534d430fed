//! The check of a file of terms (format page, "Terms").
ghost use Rattle.std.specs.Prelude.{◌≡◌, ◌<◌, ◌^◌, ◌==◌, List, length, IfOk, IfErr, None, Ok};
ghost use Rattle.lu_grammar.specs.Plans.{read_plan, times, read_file};
ghost use Rattle.lu_types.specs.declared.kind.FileKind.TheVariants.{Tis};
ghost use Rattle.term_dict.specs.Terms.{last_term, no_term};
ghost use Rattle.term_dict.specs.Dictionary.{Dictionary, Progress, within, term_kind, no_terms, tis_plan};
ghost use Rattle.term_dict.specs.Last.{term_of_last, IsSoundTerm};
ghost use Rattle.term_dict.specs.Checks.{IsHeader, IsNextTerm, AreBounded, AreWithin, broken_so};
ghost use Rattle.lu_types.specs.Judging.{IsBrokenSo};

use crate::entry::entry_at;
use crate::heading::{heading_at, numbers_of};
use crate::last::LastTerm;
use lu_prims::{Cur, OutOfMemory};
use lu_types::rules::{TRAILING, rule_of};
use lu_types::{CodecFault, FieldTable, FileKind, Spot, TermNumbers};
use std::alloc::Global;

/// The numbers of the header at the cursor, which moves behind it; or the first rule that is broken there.
pub(crate) fn header_at(cur: &mut Cur<'_>) -> Result<TermNumbers, u16>
    ensures { IsHeader cur.old cur.new result }
{
    match heading_at(cur) {
        Err(bad) => Err(rule_of(bad)),
        Ok(heading) => numbers_of(&heading),
    }
}

/// Makes the last term the one whose record stands at the cursor, which moves behind it; or answers the first rule that is
/// broken there, in a segment with these fields and so many documents.
fn next_term(
    cur: &mut Cur<'_>,
    last: &mut LastTerm,
    first: bool,
    skip_interval: u32,
    fields: &FieldTable<'_>,
    documents: u32,
) -> Result<Option<u16>, OutOfMemory>
    requires { IsSoundTerm (term_of_last last.old) }
    ensures next { (s : Progress) → last_term s.terms ≡ term_of_last last.old → first ≡ (length s.terms == 0)
        → IfOk result (IsNextTerm (within fields.now documents) skip_interval s cur.old cur.new (term_of_last last.new)) }
    ensures sound { IfOk result (λ rule. rule ≡ None → IsSoundTerm (term_of_last last.new)) }
{
    match entry_at(cur, false, skip_interval) {
        Err(bad) => Ok(Some(rule_of(bad))),
        Ok(entry) => last.step(&entry, first, fields, documents),
    }
}

/// The fault of a file of terms that breaks a rule at a place.
fn fault_at(place: usize, rule: u16) -> CodecFault
    ensures { IsBrokenSo Tis (broken_so place rule) result }
{
    CodecFault::Spot(Spot::at(FileKind::Tis, place, rule))
}

/// Reads all terms from the cursor on, which moves behind them, and answers the length of the longest text; or the first
/// fault there. `last` is the last one then.
fn check_terms(
    cur: &mut Cur<'_>,
    last: &mut LastTerm,
    numbers: &TermNumbers,
    fields: &FieldTable<'_>,
    documents: u32,
) -> Result<usize, CodecFault>
    requires { term_of_last last.old ≡ no_term }
    ensures ok { IfOk result (λ longest. (s : Progress)
        × (read_plan (times (term_kind (within fields.now documents) numbers.now.skip_interval) numbers.now.count no_terms) cur.old ≡ Ok (s, cur.new))
        × AreWithin longest s.terms) }
    ensures err { IfErr result (IsBrokenSo Tis (read_plan (times (term_kind (within fields.now documents) numbers.now.skip_interval) numbers.now.count no_terms) cur.old)) }
{
    let mut longest = 0;
    for number in 0..numbers.count {
        let place = cur.place();
        let first = number == 0;
        match next_term(cur, last, first, numbers.skip_interval, fields, documents) {
            Err(_) => return Err(CodecFault::OutOfMemory),
            Ok(Some(rule)) => return Err(fault_at(place, rule)),
            Ok(None) => {}
        }
        longest = longest.max(last.text.len());
    }
    Ok(longest)
}

/// The numbers of a file of terms, and the length of its longest text; or its first fault, in a segment with these fields and
/// so many documents.
pub(crate) fn check_bytes(
    alloc: Global,
    tis: &[u8],
    fields: &FieldTable<'_>,
    documents: u32,
) -> Result<(TermNumbers, usize), CodecFault>
    ensures ok { IfOk result (λ x. (v : Dictionary) × (read_file (tis_plan fields.now documents (length tis.now)) tis.now ≡ Ok v)
        × (x.0 ≡ v.numbers) × AreBounded x.0 × AreWithin x.1 v.terms) }
    ensures err { IfErr result (IsBrokenSo Tis (read_file (tis_plan fields.now documents (length tis.now)) tis.now)) }
{
    let mut cur = Cur::at(tis, 0);
    let numbers = match header_at(&mut cur) {
        Err(rule) => return Err(fault_at(0, rule)),
        Ok(numbers) => numbers,
    };
    let mut last = LastTerm::new(alloc);
    let longest = match check_terms(&mut cur, &mut last, &numbers, fields, documents) {
        Err(fault) => return Err(fault),
        Ok(longest) => longest,
    };
    if cur.left() > 0 {
        return Err(fault_at(cur.place(), TRAILING));
    }
    Ok((numbers, longest))
}
