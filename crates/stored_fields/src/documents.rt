//! The check of `.fdt` (format page, "Stored documents").
ghost use Rattle.std.specs.Prelude.{◌≡◌, ℕ, ◌+◌, ◌*◌, ◌≤◌, length, drop, Ok};
ghost use Rattle.lu_types.specs.declared.kind.FileKind.TheVariants.{Fdt};
ghost use Rattle.lu_types.specs.Judging.{ChecksPlain, GivesInPlain};
ghost use Rattle.lu_grammar.specs.Answers.{Gives};
ghost use Rattle.lu_grammar.specs.Parts.{int64};
ghost use Rattle.lu_grammar.specs.Reading.{read};
ghost use Rattle.lu_grammar.specs.Records.{first_broken, record_at};
ghost use Rattle.lu_grammar.specs.Plans.{read_plan, read_file};
ghost use Rattle.stored_fields.specs.Format.{store_format};
ghost use Rattle.stored_fields.specs.Entries.{lent_entry};
ghost use Rattle.stored_fields.specs.Places.{fdx_plan};
ghost use Rattle.stored_fields.specs.Documents.{format, count, value, header_shape, format_conditions, count_shape, is_elsewhere, start_conditions, value_shape, stored_entry_conditions, value_conditions, is_within, document_plan, fdt_plan};
ghost use Rattle.stored_fields.specs.Stores.{places_in, documents_in, document_here};

use crate::entry::{EntryRef, next_entry};
use crate::layout::{HEADER_BYTES, PLACE_BYTES, is_other_store_format};
use crate::value::{BINARY, TOKENIZED};
use lu_prims::Cur;
use lu_types::rules::{FDT_FORMAT, FDT_PLACE, STORED_BITS, STORED_FIELD, TRAILING, rule_of};
use lu_types::{FileKind, Spot, Window};

/// The place in `.fdt` of a document, by its number in the store.
pub fn place_at(fdx: &[u8], number: u32) -> i64
    requires { HEADER_BYTES + PLACE_BYTES * (number + 1) ≤ length fdx.now }
    ensures { read int64 (drop (HEADER_BYTES + PLACE_BYTES * number) fdx.now) ≡ Ok (result, PLACE_BYTES) }
{
    match Cur::at(fdx, HEADER_BYTES + PLACE_BYTES * number as usize).i64() {
        Ok(place) => place,
        Err(_) => unreachable!(),
    }
}

/// Whether the window has the document with a number.
fn is_within(window: Window, number: u32) -> bool
    ensures { result ≡ is_within window number }
{
    let end = u64::from(window.offset) + u64::from(window.count);
    window.offset <= number && u64::from(number) < end
}

/// Passes the header, or answers which rule it breaks first.
fn pass_header(here: &mut Cur<'_>) -> Result<(), u16>
    ensures { Gives (λ _. format store_format) (record_at header_shape format_conditions here.old) here.new result }
{
    match here.i32() {
        Err(bad) => Err(rule_of(bad)),
        Ok(format) => {
            if is_other_store_format(format) {
                return Err(FDT_FORMAT);
            }
            Ok(())
        }
    }
}

/// Whether a place is not the one that is wanted.
fn is_elsewhere(place: usize, wanted: i64) -> bool
    ensures { result ≡ is_elsewhere place wanted }
{
    match usize::try_from(wanted) {
        Ok(wanted) => place != wanted,
        Err(_) => true,
    }
}

/// How many values the next document has, which is to start at a place; or which rule it breaks first.
fn next_count(here: &mut Cur<'_>, wanted: i64) -> Result<u32, u16>
    ensures { Gives count (record_at count_shape (λ _. start_conditions wanted here.old.place) here.old) here.new result }
{
    let start = here.place();
    match here.num() {
        Err(bad) => Err(rule_of(bad)),
        Ok(count) => {
            if is_elsewhere(start, wanted) {
                return Err(FDT_PLACE);
            }
            Ok(count)
        }
    }
}

/// Which rule a value breaks first. Whether its field is one of so many is asked or not.
fn entry_broken(asked: bool, fields: u32, field: u32, bits: u8) -> Option<u16>
    ensures { result ≡ first_broken (stored_entry_conditions asked fields field bits) }
{
    if asked && field >= fields {
        return Some(STORED_FIELD);
    }
    if bits > TOKENIZED + BINARY {
        return Some(STORED_BITS);
    }
    None
}

/// The next value, or which rule it breaks first.
fn next_value<'a>(here: &mut Cur<'a>, asked: bool, fields: u32) -> Result<EntryRef<'a>, u16>
    ensures { Gives (λ entry. value (lent_entry entry)) (record_at value_shape (value_conditions asked fields) here.old) here.new result }
{
    match next_entry(here) {
        Err(bad) => Err(rule_of(bad)),
        Ok(entry) => match entry_broken(asked, fields, entry.field, entry.bits) {
            Some(rule) => Err(rule),
            None => Ok(entry),
        },
    }
}

/// Passes the next document, which is to start at a place, or answers its first fault. Whether the fields of its values are
/// among so many is asked or not.
fn pass_document(here: &mut Cur<'_>, asked: bool, fields: u32, wanted: i64) -> Result<(), Spot>
    ensures { GivesInPlain Fdt (λ _. document_here asked fields wanted here.old) (read_plan (document_plan asked fields wanted) here.old) here.new result }
{
    let start = here.place();
    let count = match next_count(here, wanted) {
        Err(rule) => return Err(Spot::at(FileKind::Fdt, start, rule)),
        Ok(count) => count,
    };
    for _value in 0..count {
        let place = here.place();
        if let Err(rule) = next_value(here, asked, fields) {
            return Err(Spot::at(FileKind::Fdt, place, rule));
        }
    }
    Ok(())
}

/// Walks `.fdt` of a store of so many documents, whose `.fdx` has no fault and of which a segment with so many fields takes
/// those in the window; answers its first fault.
pub fn check_documents(
    fdx: &[u8],
    fdt: &[u8],
    fields: u32,
    total: u32,
    window: Window,
) -> Result<(), Spot>
    requires { read_file (fdx_plan total window) fdx.now ≡ Ok (places_in total window fdx.now) }
    ensures { ChecksPlain (λ _. documents_in fields total window fdx.now fdt.now) Fdt (fdt_plan window fields (places_in total window fdx.now)) fdt.now result }
{
    let mut here = Cur::at(fdt, 0);
    if let Err(rule) = pass_header(&mut here) {
        return Err(Spot::at(FileKind::Fdt, 0, rule));
    }
    for number in 0..total {
        let wanted = place_at(fdx, number);
        let asked = is_within(window, number);
        if let Err(fault) = pass_document(&mut here, asked, fields, wanted) {
            return Err(fault);
        }
    }
    if here.left() > 0 {
        return Err(Spot::at(FileKind::Fdt, here.place(), TRAILING));
    }
    Ok(())
}
