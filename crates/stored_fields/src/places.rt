//! The check of `.fdx` (format page, "Stored documents").
ghost use Rattle.std.specs.Prelude.{◌≡◌, ℕ};
ghost use Rattle.lu_types.specs.declared.kind.FileKind.TheVariants.{Fdx};
ghost use Rattle.lu_types.specs.Judging.{ChecksPlain};
ghost use Rattle.lu_grammar.specs.Answers.{Gives};
ghost use Rattle.lu_grammar.specs.Records.{first_broken, record_at};
ghost use Rattle.stored_fields.specs.Format.{store_format, format_shape};
ghost use Rattle.stored_fields.specs.Places.{is_past_store, fdx_header_conditions, place_shape, fdx_place_conditions, is_misplaced, fdx_plan};
ghost use Rattle.stored_fields.specs.Stores.{places_in};

use crate::layout::{GREATEST_PLACE, HEADER_BYTES, is_other_store_format};
use lu_prims::Cur;
use lu_types::rules::{FDX_FORMAT, FDX_PLACE, STORE_RANGE, TRAILING, rule_of};
use lu_types::{FileKind, Spot, Window};

/// Whether the window reaches past so many documents.
fn is_past_store(total: u32, window: Window) -> bool
    ensures { result ≡ is_past_store total window }
{
    u64::from(window.offset) + u64::from(window.count) > u64::from(total)
}

/// Which rule the header breaks first.
fn header_broken(total: u32, window: Window, format: i32) -> Option<u16>
    ensures { result ≡ first_broken (fdx_header_conditions total window format) }
{
    if is_other_store_format(format) {
        return Some(FDX_FORMAT);
    }
    if is_past_store(total, window) {
        return Some(STORE_RANGE);
    }
    None
}

/// Whether a place may not come after the one before it, if there is one.
fn is_misplaced(before: Option<i64>, place: i64) -> bool
    ensures { result ≡ is_misplaced before place }
{
    match before {
        None => place != HEADER_BYTES as i64,
        Some(before) => place <= before || place > GREATEST_PLACE,
    }
}

/// Passes the header, or answers which rule it breaks first.
fn pass_header(here: &mut Cur<'_>, total: u32, window: Window) -> Result<(), u16>
    ensures { Gives (λ _. store_format) (record_at format_shape (fdx_header_conditions total window) here.old) here.new result }
{
    match here.i32() {
        Err(bad) => Err(rule_of(bad)),
        Ok(format) => match header_broken(total, window, format) {
            Some(rule) => Err(rule),
            None => Ok(()),
        },
    }
}

/// The next place, or which rule it breaks first.
fn next_place(here: &mut Cur<'_>, before: Option<i64>) -> Result<i64, u16>
    ensures { Gives (λ z. z) (record_at place_shape (fdx_place_conditions before) here.old) here.new result }
{
    match here.i64() {
        Err(bad) => Err(rule_of(bad)),
        Ok(place) => {
            if is_misplaced(before, place) {
                return Err(FDX_PLACE);
            }
            Ok(place)
        }
    }
}

/// Checks `.fdx` alone (format page, "Stored documents"): that of a store of so many documents, of which a segment takes those in
/// the window. A fault of it comes before a `.fdt` that is not there.
///
/// Answers the first fault. Walks the file once, and takes no memory.
pub fn check_places(fdx: &[u8], total: u32, window: Window) -> Result<(), Spot>
    ensures { ChecksPlain (λ _. places_in total window fdx.now) Fdx (fdx_plan total window) fdx.now result }
{
    let mut here = Cur::at(fdx, 0);
    if let Err(rule) = pass_header(&mut here, total, window) {
        return Err(Spot::at(FileKind::Fdx, 0, rule));
    }
    let mut before = None;
    for _number in 0..total {
        let start = here.place();
        match next_place(&mut here, before) {
            Err(rule) => return Err(Spot::at(FileKind::Fdx, start, rule)),
            Ok(place) => before = Some(place),
        }
    }
    if here.left() > 0 {
        return Err(Spot::at(FileKind::Fdx, here.place(), TRAILING));
    }
    Ok(())
}
