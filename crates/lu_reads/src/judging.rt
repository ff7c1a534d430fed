//! The files of a segment that a command reads, opened by their bytes.
ghost use Rattle.std.specs.Prelude.{◌≡◌, ◌≢◌, ℕ, ◌<◌, ◌^◌, length, Some, None, IfOk, IfErr, IfSome, IsErrOf};
ghost use Rattle.std.specs.Option.{option_copied};
ghost use Rattle.lu_types.specs.Names.{IsPart};
ghost use Rattle.lu_types.specs.FilePlans.{missing as spot_of_missing, StandFor};
ghost use Rattle.stored_fields.specs.Stores.{all_files};
ghost use Rattle.lu_reads.specs.FilesDue.{IsFaultIn};
ghost use Rattle.lu_reads.specs.Needs.{table_files, document_files};
ghost use Rattle.lu_outcomes.specs.Outcomes.{faulty_outcome};
ghost use Rattle.lu_reads.specs.Stopping.{StopSays};

use crate::stopping::Stop;
use field_infos::check;
use lu_dir::DirFail;
use lu_outcomes::outcome::Outcome;
use lu_outcomes::status::Status;
use lu_outcomes::texts::fault_text;
use lu_prims::OutOfMemory;
use lu_types::rules::MISSING;
use lu_types::{CodecFault, Fault, FieldTable, FileKind, Spot, Window};
use std::alloc::Global;
use stored_fields::{StoredView, check_places, stored_total};

/// The fault of a file that is not there.
fn missing(kind: FileKind) -> Spot
    ensures { result ≡ spot_of_missing kind }
{
    Spot::at(kind, 0, MISSING)
}

/// The outcome that a file of the segment has this fault.
fn faulty_outcome(alloc: Global, segment: &str, spot: Spot) -> Result<Outcome, OutOfMemory>
    requires { IsPart spot.kind }
    ensures { IfOk result (λ outcome. outcome ≡ faulty_outcome segment.now spot) }
{
    let text = fault_text(alloc, segment, &spot)?;
    let status = Status::NotStanding(0, Fault { segment: 0, spot });
    Ok(Outcome::without_effect(status, text.into_bytes()))
}

/// Why a command stops where a file of the segment has this fault.
fn faulty(alloc: Global, segment: &str, spot: Spot) -> Stop
    requires { IsPart spot.kind }
    ensures said { StopSays (λ outcome. outcome ≡ faulty_outcome segment.now spot) result }
    ensures failed { result ≢ Stop.Failed DirFail.Failed }
{
    match faulty_outcome(alloc, segment, spot) {
        Ok(outcome) => Stop::Said(outcome),
        Err(_) => Stop::Failed(DirFail::OutOfMemory),
    }
}

/// The field table of a segment, where its file is there and good.
pub fn opened_table<'a>(
    alloc: Global,
    segment: &str,
    fnm: Option<&'a [u8]>,
) -> Result<FieldTable<'a>, Stop>
    ensures stands { IfOk result (λ table. StandFor (table_files (option_copied fnm.entry)) table) }
    ensures said { IfErr result (StopSays (IsFaultIn segment.now (table_files (option_copied fnm.entry)))) }
    ensures failed { ¬ IsErrOf result (Stop.Failed DirFail.Failed) }
{
    let Some(bytes) = fnm else {
        return Err(faulty(alloc, segment, missing(FileKind::Fnm)));
    };
    match check(alloc, bytes, true, None) {
        Ok(table) => Ok(table),
        Err(CodecFault::Spot(spot)) => Err(faulty(alloc, segment, spot)),
        Err(CodecFault::OutOfMemory) => Err(Stop::Failed(DirFail::OutOfMemory)),
    }
}

/// The documents of a store whose two files are there, where they are good.
fn opened_files<'a>(
    alloc: Global,
    segment: &str,
    fields: u32,
    fdx: &'a [u8],
    fdt: &'a [u8],
) -> Result<StoredView<'a>, Stop>
    requires { length fdx.now < 2 ^ 31 }
    ensures stands { IfOk result (λ view. StandFor (all_files fields (Some fdx.entry.now) (Some fdt.entry.now)) view) }
    ensures said { IfErr result (StopSays (IsFaultIn segment.now (all_files fields (Some fdx.entry.now) (Some fdt.entry.now)))) }
    ensures failed { ¬ IsErrOf result (Stop.Failed DirFail.Failed) }
{
    match StoredView::check(fdx, fdt, fields, stored_total(fdx)) {
        Ok(view) => Ok(view),
        Err(spot) => Err(faulty(alloc, segment, spot)),
    }
}

/// Why a command stops at a store without its file of documents: a fault of its file of places comes first.
fn stopped_at_places(alloc: Global, segment: &str, fdx: &[u8]) -> Stop
    requires { length fdx.now < 2 ^ 31 }
    ensures said { (fields : ℕ) → StopSays (IsFaultIn segment.now (all_files fields (Some fdx.now) None)) result }
    ensures failed { result ≢ Stop.Failed DirFail.Failed }
{
    let total = stored_total(fdx);
    let whole = Window {
        offset: 0,
        count: total,
    };
    match check_places(fdx, total, whole) {
        Ok(()) => faulty(alloc, segment, missing(FileKind::Fdt)),
        Err(spot) => faulty(alloc, segment, spot),
    }
}

/// The documents of a store whose values have so many fields, where its files are there and good.
fn opened_store<'a>(
    alloc: Global,
    segment: &str,
    fields: u32,
    fdx: Option<&'a [u8]>,
    fdt: Option<&'a [u8]>,
) -> Result<StoredView<'a>, Stop>
    requires { IfSome (option_copied fdx) (λ bytes. length bytes < 2 ^ 31) }
    ensures stands { IfOk result (λ view. StandFor (all_files fields (option_copied fdx.entry) (option_copied fdt.entry)) view) }
    ensures said { IfErr result (StopSays (IsFaultIn segment.now (all_files fields (option_copied fdx.entry) (option_copied fdt.entry)))) }
    ensures failed { ¬ IsErrOf result (Stop.Failed DirFail.Failed) }
{
    let Some(fdx) = fdx else {
        return Err(faulty(alloc, segment, missing(FileKind::Fdx)));
    };
    match fdt {
        Some(fdt) => opened_files(alloc, segment, fields, fdx, fdt),
        None => Err(stopped_at_places(alloc, segment, fdx)),
    }
}

/// The stored documents of a segment, where the three files that they need are there and good.
pub fn opened_documents<'a>(
    alloc: Global,
    segment: &str,
    fnm: Option<&[u8]>,
    fdx: Option<&'a [u8]>,
    fdt: Option<&'a [u8]>,
) -> Result<StoredView<'a>, Stop>
    requires { IfSome (option_copied fdx) (λ bytes. length bytes < 2 ^ 31) }
    ensures stands { IfOk result (λ view.
        StandFor (document_files (option_copied fnm.entry) (option_copied fdx.entry) (option_copied fdt.entry)) view) }
    ensures said { IfErr result (StopSays
        (IsFaultIn segment.now (document_files (option_copied fnm.entry) (option_copied fdx.entry) (option_copied fdt.entry)))) }
    ensures failed { ¬ IsErrOf result (Stop.Failed DirFail.Failed) }
{
    match opened_table(alloc, segment, fnm) {
        Ok(table) => opened_store(alloc, segment, table.count(), fdx, fdt),
        Err(stop) => Err(stop),
    }
}
