//! The terms of a segment, their index and their entries (format page, "Terms", "Term index", "Entries and skip data").
ghost use Rattle.std.specs.Prelude.{◌≡◌, ◌<◌, ◌≤◌, ◌^◌, length, IfOk, IfErr, All, option_copied};
ghost use Rattle.lu_grammar.specs.Meaning.{Reads};
ghost use Rattle.lu_types.specs.FilePlans.{Judges};
ghost use Rattle.lu_types.specs.Judging.{IsFault};
ghost use Rattle.lu_types.specs.Tables.{bits_at};
ghost use Rattle.lu_types.specs.Terms.{term_rules};
ghost use Rattle.term_dict.specs.Facts.{AreGoodTerms};
ghost use Rattle.freq_skips.specs.Terms.{frq_plan};
ghost use Rattle.term_index.specs.Seeking.{AreChecked};
ghost use Rattle.check_index.specs.Files.{IsShort};
ghost use Rattle.check_index.specs.Locating.{index_files_of};
ghost use Rattle.check_index.specs.Terms.{TermLists, infos_of, term_files, lists_in, listed_terms, AreListed};

use crate::locating::IndexParts;
use crate::needed::needed;
use freq_skips::{TermRules, check_term};
use lu_types::rules::TRAILING;
use lu_types::{CodecFault, FieldTable, FileKind, Spot, TermNumbers};
use std::alloc::Global;
use term_dict::TermFile;
use term_index::check_tii;

/// The terms of a segment, and the bytes of their index and of their entries.
#[derive(Drop)]
pub struct OpenTerms<'a> {
    pub terms: TermFile<'a>,
    pub tii: &'a [u8],
    pub frq: &'a [u8],
}

/// What the entries of a term are read by that is of the field with this number, in a segment of so many documents.
pub fn rules_of(fields: &FieldTable<'_>, numbers: &TermNumbers, field: u32, size: u32) -> TermRules
    ensures { result ≡ term_rules numbers.now (bits_at fields.now field) size }
{
    let bits = match fields.field(field) {
        Some(found) => found.bits,
        None => 0,
    };
    TermRules::of(numbers, bits, size)
}

/// Checks `.frq` of a segment of so many documents with these terms and fields: the entries of the terms stand there one after
/// another. Takes memory for one text.
fn check_entries(
    alloc: Global,
    frq: &[u8],
    terms: &TermFile<'_>,
    fields: &FieldTable<'_>,
    size: u32,
) -> Result<(), CodecFault>
    requires { AreGoodTerms fields.now size terms.now }
    ensures listed { IfOk result (λ _. AreListed fields.now size terms.now frq.now (lists_in fields.now size terms.now frq.now)) }
    ensures fault { IfErr result (IsFault FileKind.Frq (frq_plan fields.now terms.now.numbers size (infos_of terms.now)) frq.now) }
{
    let numbers = terms.numbers();
    let mut cursor = match terms.cursor(alloc) {
        Ok(cursor) => cursor,
        Err(_) => return Err(CodecFault::OutOfMemory),
    };
    let mut at = 0;
    while let Some(info) = cursor.next() {
        let rules = rules_of(fields, &numbers, info.field, size);
        match check_term(frq, at, &info, &rules) {
            Err(spot) => return Err(CodecFault::Spot(spot)),
            Ok(end) => at = end,
        }
    }
    if at < frq.len() {
        return Err(CodecFault::Spot(Spot::at(FileKind::Frq, at, TRAILING)));
    }
    Ok(())
}

/// The terms of a segment of so many documents with these fields.
pub fn open_terms<'a>(
    alloc: Global,
    files: &IndexParts<'a>,
    size: u32,
    fields: &FieldTable<'a>,
) -> Result<OpenTerms<'a>, CodecFault>
    requires tis { IsShort (option_copied files.now.tis) }
    requires frq { IsShort (option_copied files.now.frq) }
    ensures judged { Judges (λ o. listed_terms o.terms (lists_in fields.now size o.terms o.frq.now)) (term_files (index_files_of files.now) size fields.now) result }
    ensures checked { IfOk result (λ o. AreChecked o.tii.now o.terms fields.now) }
    ensures good { IfOk result (λ o. AreGoodTerms fields.now size o.terms) }
    ensures small { IfOk result (λ o. length o.frq.now < 2 ^ 31) }
    ensures listed { IfOk result (λ o. AreListed fields.now size o.terms o.frq.now (lists_in fields.now size o.terms o.frq.now)) }
{
    let tis = match needed(files.tis, FileKind::Tis) {
        Err(fault) => return Err(fault),
        Ok(tis) => tis,
    };
    let terms = match TermFile::check_tis(alloc, tis, fields, size) {
        Err(fault) => return Err(fault),
        Ok(terms) => terms,
    };
    let tii = match needed(files.tii, FileKind::Tii) {
        Err(fault) => return Err(fault),
        Ok(tii) => tii,
    };
    if let Err(fault) = check_tii(alloc, tii, &terms) {
        return Err(fault);
    }
    let frq = match needed(files.frq, FileKind::Frq) {
        Err(fault) => return Err(fault),
        Ok(frq) => frq,
    };
    match check_entries(alloc, frq, &terms, fields, size) {
        Err(fault) => Err(fault),
        Ok(()) => Ok(OpenTerms { terms, tii, frq }),
    }
}
