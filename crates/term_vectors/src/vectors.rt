//! The check of `.tvf` (format page, "Term vectors").
ghost use Rattle.std.specs.Prelude.{◌≡◌, ℕ, List, Some, None, Ok, IfOk, IfErr, OnOk, MatchResult};
ghost use Rattle.lu_types.specs.declared.kind.FileKind.TheVariants.{Tvf};
ghost use Rattle.lu_types.specs.Judging.{Checks, IsBrokenSo};
ghost use Rattle.lu_grammar.specs.Answers.{Gives};
ghost use Rattle.lu_grammar.specs.Bytes.{Cursor};
ghost use Rattle.lu_grammar.specs.Records.{first_broken, record_at};
ghost use Rattle.lu_grammar.specs.Plans.{read_plan, read_file};
ghost use Rattle.lu_model.specs.Index.{VectorTerm};
ghost use Rattle.term_vectors.specs.Vectors.{kept_count, term_shape, term_conditions, term_plan, heading_shape, heading_conditions, vector_plan};
ghost use Rattle.term_vectors.specs.InnerAnswers.{PassesIn};
ghost use Rattle.term_vectors.specs.InnerTexts.{text_before, IsSoundText, term_record};
ghost use Rattle.term_vectors.specs.InnerVectors.{IsTermTaken, IsTermPassed, heading_record};

use crate::layout::{OFFSETS, POSITIONS};
use crate::occurrences::{pass_pairs, pass_positions};
use crate::texts::{LastText, VectorTermEntry, entry_at};
use lu_prims::{Cur, OutOfMemory};
use lu_types::bits::has_bit;
use lu_types::rules::{TVF_PLACE, VECTOR_BITS, rule_of};
use lu_types::{CodecFault, FileKind, Spot};

/// How many terms a vector has, and its bits.
#[derive(Clone, Copy, Debug, PartialEq, Eq)]
pub struct Heading {
    pub count: u32,
    pub bits: u8,
}

/// How many terms the next vector has, which is to start at a place, and its bits; or which rule it breaks first.
pub fn next_heading(here: &mut Cur<'_>, wanted: u32) -> Result<Heading, u16>
    ensures { Gives heading_record (record_at heading_shape (heading_conditions wanted here.old.place) here.old) here.new result }
{
    let start = here.place();
    match here.num() {
        Err(bad) => Err(rule_of(bad)),
        Ok(count) => match here.u8() {
            Err(bad) => Err(rule_of(bad)),
            Ok(bits) => {
                if start != wanted as usize {
                    return Err(TVF_PLACE);
                }
                if bits > POSITIONS + OFFSETS {
                    return Err(VECTOR_BITS);
                }
                Ok(Heading { count, bits })
            }
        },
    }
}

/// How many positions, or pairs, are kept of a term: one each time where the vector has the bit.
pub fn kept_count(bit: u8, bits: u8, freq: u32) -> u32
    ensures { result ≡ kept_count bit bits freq }
{
    if has_bit(bit, bits) { freq } else { 0 }
}

/// How often the next term stands in the field, whose text becomes the last one; or which rule it breaks first.
fn next_term(here: &mut Cur<'_>, last: &mut LastText) -> Result<Result<u32, u16>, OutOfMemory>
    requires { IsSoundText last.old }
    ensures { IfOk result (λ judged. IsTermTaken last.old last.new here.old here.new judged) }
{
    match entry_at(here) {
        Err(bad) => Ok(Err(rule_of(bad))),
        Ok(entry) => match last.step(&entry) {
            Err(_) => Err(OutOfMemory),
            Ok(Some(rule)) => Ok(Err(rule)),
            Ok(None) => Ok(Ok(entry.freq)),
        },
    }
}

/// Passes the next term of a vector with these bits, and makes its text the last one; or answers its first fault.
fn pass_term(here: &mut Cur<'_>, last: &mut LastText, bits: u8) -> Result<(), CodecFault>
    requires { IsSoundText last.old }
    ensures { MatchResult result
        (λ _. IsTermPassed bits last.old last.new here.old here.new)
        (λ fault. IsBrokenSo Tvf (read_plan (term_plan bits (text_before last.old)) here.old) fault) }
{
    let start = here.place();
    let freq = match next_term(here, last) {
        Err(_) => return Err(CodecFault::OutOfMemory),
        Ok(Err(rule)) => return Err(CodecFault::Spot(Spot::at(FileKind::Tvf, start, rule))),
        Ok(Ok(freq)) => freq,
    };
    if let Err(spot) = pass_positions(here, kept_count(POSITIONS, bits, freq)) {
        return Err(CodecFault::Spot(spot));
    }
    match pass_pairs(here, kept_count(OFFSETS, bits, freq)) {
        Err(spot) => Err(CodecFault::Spot(spot)),
        Ok(()) => Ok(()),
    }
}

/// Passes the next vector, which is to start at a place, or answers its first fault. `last` is written over.
pub fn pass_vector(here: &mut Cur<'_>, last: &mut LastText, wanted: u32) -> Result<(), CodecFault>
    ensures { (field : ℕ) → PassesIn Tvf (read_plan (vector_plan (record { field = field; place = wanted })) here.old) here.new result }
{
    let start = here.place();
    let heading = match next_heading(here, wanted) {
        Err(rule) => return Err(CodecFault::Spot(Spot::at(FileKind::Tvf, start, rule))),
        Ok(heading) => heading,
    };
    last.clear();
    for _nth in 0..heading.count {
        if let Err(fault) = pass_term(here, last, heading.bits) {
            return Err(fault);
        }
    }
    Ok(())
}
