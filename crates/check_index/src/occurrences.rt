//! The positions of the terms of a segment (format page, "Positions").
ghost use Rattle.std.specs.Prelude.{◌≡◌, ◌<◌, ◌^◌, false, length, Some, IfOk, IfErr, option_copied};
ghost use Rattle.lu_grammar.specs.Bytes.{IsBytes};
ghost use Rattle.lu_types.specs.FilePlans.{Judges};
ghost use Rattle.lu_types.specs.Judging.{IsFault};
ghost use Rattle.term_dict.specs.Facts.{AreGoodTerms};
ghost use Rattle.positions.specs.Terms.{prx_plan};
ghost use Rattle.check_index.specs.Files.{IndexFiles, IsShort};
ghost use Rattle.check_index.specs.Terms.{infos_of, lists_in, listed_terms, AreListed};
ghost use Rattle.check_index.specs.Positions.{occurrences_in, position_files, ArePosted, AreOmitted, ArePositions};

use crate::needed::needed;
use crate::terms::{OpenTerms, rules_of};
use lu_types::rules::TRAILING;
use lu_types::{CodecFault, FieldTable, FileKind, Spot};
use positions::check_term;
use segment_infos::SegInfo;
use std::alloc::Global;

/// Checks `.prx` of a segment of so many documents with these terms and fields: the occurrences of the terms stand there one after
/// another. Takes memory for one text.
fn check_positions(
    alloc: Global,
    prx: &[u8],
    opened: &OpenTerms<'_>,
    fields: &FieldTable<'_>,
    size: u32,
) -> Result<(), CodecFault>
    requires good { AreGoodTerms fields.now size opened.now.terms }
    requires listed { AreListed fields.now size opened.now.terms opened.now.frq.now (lists_in fields.now size opened.now.terms opened.now.frq.now) }
    requires small { length opened.now.frq.now < 2 ^ 31 }
    ensures bytes { IsBytes prx.now }
    ensures posted { IfOk result (λ _. ArePosted fields.now size opened.now.terms (lists_in fields.now size opened.now.terms opened.now.frq.now) prx.now
        (occurrences_in fields.now size opened.now.terms (lists_in fields.now size opened.now.terms opened.now.frq.now) (Some prx.now))) }
    ensures fault { IfErr result (IsFault FileKind.Prx (prx_plan fields.now opened.now.terms.numbers size (infos_of opened.now.terms)
        (lists_in fields.now size opened.now.terms opened.now.frq.now)) prx.now) }
{
    let numbers = opened.terms.numbers();
    let mut cursor = match opened.terms.cursor(alloc) {
        Ok(cursor) => cursor,
        Err(_) => return Err(CodecFault::OutOfMemory),
    };
    let mut at = 0;
    while let Some(info) = cursor.next() {
        let rules = rules_of(fields, &numbers, info.field, size);
        match check_term(prx, at, opened.frq, &info, &rules) {
            Err(spot) => return Err(CodecFault::Spot(spot)),
            Ok(end) => at = end,
        }
    }
    if at < prx.len() {
        return Err(CodecFault::Spot(Spot::at(FileKind::Prx, at, TRAILING)));
    }
    Ok(())
}

/// The positions of the terms of a segment with these fields: the bytes of `.prx`, or `None` in a segment without positions.
pub fn open_positions<'a>(
    alloc: Global,
    file: Option<&'a [u8]>,
    info: &SegInfo,
    fields: &FieldTable<'_>,
    opened: &OpenTerms<'_>,
) -> Result<Option<&'a [u8]>, CodecFault>
    requires good { AreGoodTerms fields.now info.now.size opened.now.terms }
    requires omitted { info.now.has_prox ≡ false → AreOmitted fields.now opened.now.terms }
    requires short { IsShort (option_copied file) }
    requires listed { AreListed fields.now info.now.size opened.now.terms opened.now.frq.now (lists_in fields.now info.now.size opened.now.terms opened.now.frq.now) }
    requires small { length opened.now.frq.now < 2 ^ 31 }
    ensures judged { (files : IndexFiles) → files.prx ≡ option_copied file.entry
        → Judges (λ prx. occurrences_in fields.now info.now.size opened.now.terms (lists_in fields.now info.now.size opened.now.terms opened.now.frq.now) (option_copied prx))
        (position_files files info.now fields.now (listed_terms opened.now.terms (lists_in fields.now info.now.size opened.now.terms opened.now.frq.now))) result }
    ensures posted { IfOk result (λ prx. ArePositions fields.now info.now.size opened.now.terms (lists_in fields.now info.now.size opened.now.terms opened.now.frq.now) (option_copied prx)) }
{
    if !info.has_prox {
        return Ok(None);
    }
    let prx = match needed(file, FileKind::Prx) {
        Err(fault) => return Err(fault),
        Ok(prx) => prx,
    };
    match check_positions(alloc, prx, opened, fields, info.size) {
        Err(fault) => Err(fault),
        Ok(()) => Ok(Some(prx)),
    }
}
