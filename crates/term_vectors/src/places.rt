//! The check of `.tvx` (format page, "Term vectors").
ghost use Rattle.std.specs.Prelude.{◌≡◌};
ghost use Rattle.lu_types.specs.declared.kind.FileKind.TheVariants.{Tvx};
ghost use Rattle.lu_types.specs.Judging.{ChecksPlain};
ghost use Rattle.lu_grammar.specs.Records.{first_broken, record_at};
ghost use Rattle.term_vectors.specs.Places.{places, is_misplaced, places_shape, places_conditions, stated_places, tvx_plan};
ghost use Rattle.term_vectors.specs.Stores.{places_in};
ghost use Rattle.term_vectors.specs.InnerAnswers.{Makes};

use crate::layout::{HEADER_BYTES, pass_format, place_of_number};
use lu_prims::Cur;
use lu_types::rules::{TRAILING, TVX_FORMAT, TVX_PLACE, rule_of};
use lu_types::{FileKind, Spot};

/// Whether a document may not stand at a place in `.tvd`, after the one before it, if there is one.
fn is_misplaced(before: Option<u32>, place: Option<u32>) -> bool
    ensures { result ≡ is_misplaced before place }
{
    match place {
        None => true,
        Some(place) => match before {
            None => place as usize != HEADER_BYTES,
            Some(before) => place <= before,
        },
    }
}

/// Which rule the places of a document break first, after the one before it, if there is one.
fn places_broken(before: Option<u32>, tvd: Option<u32>, tvf: Option<u32>) -> Option<u16>
    ensures { result ≡ first_broken (places_conditions before (places tvd tvf)) }
{
    if is_misplaced(before, tvd) {
        return Some(TVX_PLACE);
    }
    if tvf.is_none() {
        return Some(TVX_PLACE);
    }
    None
}

/// The place of the next document in `.tvd`, or which rule its places break first, after the one before it, if there is one.
fn next_places(here: &mut Cur<'_>, before: Option<u32>) -> Result<u32, u16>
    ensures { Makes (λ n. n) (λ r. (stated_places r).tvd) (record_at places_shape (places_conditions before) here.old) here.new result }
{
    match here.i64() {
        Err(bad) => Err(rule_of(bad)),
        Ok(tvd) => match here.i64() {
            Err(bad) => Err(rule_of(bad)),
            Ok(tvf) => {
                let tvd = place_of_number(tvd);
                match places_broken(before, tvd, place_of_number(tvf)) {
                    Some(rule) => Err(rule),
                    None => Ok(tvd.unwrap_or(0)),
                }
            }
        },
    }
}

/// Checks `.tvx` alone (format page, "Term vectors"): that of a store of so many documents. A fault of it comes before a
/// `.tvd` or a `.tvf` that is not there.
///
/// Answers the first fault. Walks the file once, and takes no memory.
pub fn check_places(tvx: &[u8], total: u32) -> Result<(), Spot>
    ensures { ChecksPlain (λ _. places_in total tvx.now) Tvx (tvx_plan total) tvx.now result }
{
    let mut here = Cur::at(tvx, 0);
    if let Err(rule) = pass_format(&mut here, TVX_FORMAT) {
        return Err(Spot::at(FileKind::Tvx, 0, rule));
    }
    let mut before = None;
    for _number in 0..total {
        let start = here.place();
        match next_places(&mut here, before) {
            Err(rule) => return Err(Spot::at(FileKind::Tvx, start, rule)),
            Ok(tvd) => before = Some(tvd),
        }
    }
    if here.left() > 0 {
        return Err(Spot::at(FileKind::Tvx, here.place(), TRAILING));
    }
    Ok(())
}
