//! The check of `.tvd` (format page, "Term vectors").
ghost use Rattle.std.specs.Prelude.{◌≡◌, ℕ, ◌+◌, ◌-◌, ◌*◌, ◌≤◌, length, List, [], Ok};
ghost use Rattle.lu_types.specs.declared.kind.FileKind.TheVariants.{Tvd};
ghost use Rattle.lu_types.specs.Judging.{Checks};
ghost use Rattle.lu_grammar.specs.Answers.{Gives};
ghost use Rattle.lu_grammar.specs.Records.{first_broken, record_at};
ghost use Rattle.lu_grammar.specs.Plans.{read_plan, read_file};
ghost use Rattle.term_vectors.specs.Places.{tvx_plan};
ghost use Rattle.term_vectors.specs.Fields.{count, number, stated, count_shape, count_conditions, has_vectors, is_among, number_shape, number_conditions, numbers_plan, difference_shape, difference_conditions, further_plan, document_plan, is_within, tvd_plan};
ghost use Rattle.term_vectors.specs.Stores.{places_in, slots_in};
ghost use Rattle.term_vectors.specs.InnerAnswers.{Makes, PassesPlain, PassesIn};
ghost use Rattle.term_vectors.specs.InnerFields.{HasFieldNumbers, IsStatedAt};

use crate::layout::{
    DOCUMENT_BYTES, DocumentPlaces, GREATEST_PLACE, HEADER_BYTES, pass_format, place_of_number,
};
use lu_prims::Cur;
use lu_types::bits::{VECTORS, has_bit};
use lu_types::rules::{
    TRAILING, TVD_FORMAT, TVD_PLACE, TVF_SUM, VECTOR_FIELD, VECTOR_TWICE, rule_of,
};
use lu_types::{CodecFault, FieldTable, FileKind, Spot, Window};
use std::alloc::Global;
use std::collections::BTreeSet;

/// The documents of a store that a segment takes: how many the store has, and which of them.
#[derive(Clone, Copy, Debug, PartialEq, Eq)]
pub struct StoreWindow {
    /// How many documents the store has.
    pub total: u32,
    /// Those that the segment takes.
    pub window: Window,
}

/// How many vectors the next document has, which is to start at a place; or which rule it breaks first.
fn next_count(here: &mut Cur<'_>, wanted: u32) -> Result<u32, u16>
    ensures { Gives count (record_at count_shape (λ _. count_conditions wanted here.old.place) here.old) here.new result }
{
    let start = here.place();
    match here.num() {
        Err(bad) => Err(rule_of(bad)),
        Ok(count) => {
            if start != wanted as usize {
                return Err(TVD_PLACE);
            }
            Ok(count)
        }
    }
}

/// Whether there is a field with the number that has vectors.
fn has_vectors(fields: &FieldTable<'_>, number: u32) -> bool
    ensures { result ≡ has_vectors fields.now number }
{
    match fields.field(number) {
        Some(field) => has_bit(VECTORS, field.bits),
        None => false,
    }
}

/// Which rule the field of a vector breaks first, of which an earlier vector of the document is too or not. Whether the field
/// has vectors is asked or not.
fn number_broken(asked: bool, fields: &FieldTable<'_>, number: u32, twice: bool) -> Option<u16>
    ensures { (before : List ℕ) → twice ≡ is_among number before → result ≡ first_broken (number_conditions asked fields.now before number) }
{
    if asked {
        if !has_vectors(fields, number) {
            return Some(VECTOR_FIELD);
        }
    }
    if twice {
        return Some(VECTOR_TWICE);
    }
    None
}

/// The field of the next vector, after those of the earlier vectors of the document, or which rule it breaks first. Whether the
/// field has vectors is asked or not.
fn next_number(
    here: &mut Cur<'_>,
    asked: bool,
    fields: &FieldTable<'_>,
    numbers: &BTreeSet<u32>,
) -> Result<u32, u16>
    ensures { (before : List ℕ) → HasFieldNumbers numbers.now before
        → Gives number (record_at number_shape (λ r. number_conditions asked fields.now before (stated r)) here.old) here.new result }
{
    match here.num() {
        Err(bad) => Err(rule_of(bad)),
        Ok(number) => match number_broken(asked, fields, number, numbers.contains(&number)) {
            Some(rule) => Err(rule),
            None => Ok(number),
        },
    }
}

/// Passes the fields of so many vectors of a document, or answers the first fault. Whether the fields have vectors is asked or
/// not. Takes time by the number of vectors and its logarithm.
fn pass_numbers(
    alloc: Global,
    here: &mut Cur<'_>,
    count: u32,
    asked: bool,
    fields: &FieldTable<'_>,
) -> Result<(), CodecFault>
    ensures { PassesIn Tvd (read_plan (numbers_plan asked fields.now count []) here.old) here.new result }
{
    let mut numbers = BTreeSet::new(alloc);
    for _nth in 0..count {
        let start = here.place();
        let number = match next_number(here, asked, fields, &numbers) {
            Err(rule) => return Err(CodecFault::Spot(Spot::at(FileKind::Tvd, start, rule))),
            Ok(number) => number,
        };
        match numbers.insert(number) {
            Err(_) => return Err(CodecFault::OutOfMemory),
            Ok(_) => {}
        }
    }
    Ok(())
}

/// The place of the next vector of a document after one at a place, or which rule the difference breaks first.
pub fn next_place(here: &mut Cur<'_>, place: u32) -> Result<u32, u16>
    ensures { Makes (λ n. n) (λ r. place + stated r) (record_at difference_shape (λ r. difference_conditions place (stated r)) here.old) here.new result }
{
    match here.vlong() {
        Err(bad) => Err(rule_of(bad)),
        Ok(far) => {
            let next = u64::from(place) + far;
            if next > u64::from(GREATEST_PLACE) {
                return Err(TVF_SUM);
            }
            Ok(next as u32)
        }
    }
}

/// Passes the places of so many further vectors of a document, after one at a place, or answers the first fault.
fn pass_places(here: &mut Cur<'_>, count: u32, place: u32) -> Result<(), Spot>
    ensures { PassesPlain Tvd (read_plan (further_plan count place) here.old) here.new result }
{
    let mut last = place;
    for _nth in 0..count {
        let start = here.place();
        match next_place(here, last) {
            Err(rule) => return Err(Spot::at(FileKind::Tvd, start, rule)),
            Ok(next) => last = next,
        }
    }
    Ok(())
}

/// Passes the next document, which is to stand at these places, or answers its first fault. Whether the fields of its vectors
/// have vectors is asked or not.
fn pass_document(
    alloc: Global,
    here: &mut Cur<'_>,
    asked: bool,
    fields: &FieldTable<'_>,
    places: DocumentPlaces,
) -> Result<(), CodecFault>
    ensures { PassesIn Tvd (read_plan (document_plan asked fields.now places) here.old) here.new result }
{
    let start = here.place();
    let count = match next_count(here, places.tvd) {
        Err(rule) => return Err(CodecFault::Spot(Spot::at(FileKind::Tvd, start, rule))),
        Ok(count) => count,
    };
    if let Err(fault) = pass_numbers(alloc, here, count, asked, fields) {
        return Err(fault);
    }
    match pass_places(here, count.saturating_sub(1), places.tvf) {
        Err(spot) => Err(CodecFault::Spot(spot)),
        Ok(()) => Ok(()),
    }
}

/// The places of a document, by its number in the store.
pub fn places_at(tvx: &[u8], number: u32) -> DocumentPlaces
    requires { HEADER_BYTES + DOCUMENT_BYTES * (number + 1) ≤ length tvx.now }
    ensures { IsStatedAt tvx.now (HEADER_BYTES + DOCUMENT_BYTES * number) result }
{
    let mut here = Cur::at(tvx, HEADER_BYTES + DOCUMENT_BYTES * number as usize);
    match here.i64() {
        Err(_) => unreachable!(),
        Ok(tvd) => match here.i64() {
            Err(_) => unreachable!(),
            Ok(tvf) => DocumentPlaces {
                tvd: place_of_number(tvd).unwrap_or(0),
                tvf: place_of_number(tvf).unwrap_or(0),
            },
        },
    }
}

/// Whether the window has the document with a number.
fn is_within(window: Window, number: u32) -> bool
    ensures { result ≡ is_within window number }
{
    let end = u64::from(window.offset) + u64::from(window.count);
    window.offset <= number && u64::from(number) < end
}

/// Checks `.tvd` (format page, "Term vectors") of a store whose `.tvx` has no fault, and of which a segment with these fields
/// takes a part. A fault of it comes before a `.tvf` that is not there.
///
/// Answers the first fault, or that there was no memory. Walks the file once, and keeps the fields of one document's vectors.
pub fn check_fields(
    alloc: Global,
    tvx: &[u8],
    tvd: &[u8],
    fields: &FieldTable<'_>,
    part: StoreWindow,
) -> Result<(), CodecFault>
    requires { read_file (tvx_plan part.total) tvx.now ≡ Ok (places_in part.total tvx.now) }
    ensures { Checks (λ _. slots_in (places_in part.total tvx.now) tvd.now) Tvd (tvd_plan fields.now part.window (places_in part.total tvx.now)) tvd.now result }
{
    let mut here = Cur::at(tvd, 0);
    if let Err(rule) = pass_format(&mut here, TVD_FORMAT) {
        return Err(CodecFault::Spot(Spot::at(FileKind::Tvd, 0, rule)));
    }
    for number in 0..part.total {
        let places = places_at(tvx, number);
        let asked = is_within(part.window, number);
        if let Err(fault) = pass_document(alloc, &mut here, asked, fields, places) {
            return Err(fault);
        }
    }
    if here.left() > 0 {
        return Err(CodecFault::Spot(Spot::at(FileKind::Tvd, here.place(), TRAILING)));
    }
    Ok(())
}
