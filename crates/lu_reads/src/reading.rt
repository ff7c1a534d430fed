//! The commands that print what some files of a segment mean.
ghost use Rattle.std.specs.Prelude.{◌≡◌, ◌≢◌, ◌<◌, ℕ, map, length, slice_get, IfOk, IfErr, IsErrOf, Some, string_bytes};
ghost use Rattle.lu_types.specs.Names.{part_name as name_of_part};
ghost use Rattle.lu_dir.specs.Faults.{Rose, IsCaused};
ghost use Rattle.lu_listing.specs.Lines.{field_lines, doc_lines};
ghost use Rattle.lu_reads.specs.Needs.{fields_kinds, docs_kinds};
ghost use Rattle.lu_reads.specs.Files.{AreFound};
ghost use Rattle.lu_outcomes.specs.Outcomes.{too_large_outcome};
ghost use Rattle.lu_reads.specs.FilesDue.{IsTooLong, FieldsSay, DocsSay, FilesDue};
ghost use Rattle.lu_outcomes.specs.Answers.{IsDirFault, Answers};
ghost use Rattle.lu_reads.specs.FilesDue.{IsTooLarge};
ghost use Rattle.lu_reads.specs.Stopping.{StopSays};
ghost use Rattle.lu_outcomes.specs.Telling.{Tells};

use crate::judging::{opened_documents, opened_table};
use crate::limits::FILE_LIMIT;
use crate::stopping::{Stop, stopped};
use lu_dir::{Dir, DirFail, LoadFault, Loaded, Sink, load};
use lu_listing::{Printer, docs_text, fields_text};
use lu_outcomes::outcome::Outcome;
use lu_outcomes::status::{Refusal, Status, Which};
use lu_outcomes::telling::tell_rest;
use lu_outcomes::texts::too_large_text;
use lu_prims::OutOfMemory;
use lu_types::{FieldTable, FileKind, part_name};
use std::alloc::Global;
use stored_fields::StoredView;

/// The files that `docs` reads, in order.
const DOCS_FILES: [FileKind; 3] = [FileKind::Fnm, FileKind::Fdx, FileKind::Fdt];

/// The outcome where the first file that is too long is of this kind.
pub fn too_large(alloc: Global, kind: FileKind) -> Result<Outcome, OutOfMemory>
    ensures { IfOk result (λ outcome. outcome ≡ too_large_outcome kind) }
{
    let text = too_large_text(alloc, kind)?;
    let status = Status::Refused(Refusal::FileTooLarge(kind));
    Ok(Outcome::without_effect(status, text.into_bytes()))
}

/// Why a command stops whose files could not be loaded; `kind` is the one that is too long, where one is.
fn unloaded(alloc: Global, kind: FileKind, fault: LoadFault) -> Stop
    ensures said { StopSays (λ outcome. IsTooLarge fault × (outcome ≡ too_large_outcome kind)) result }
    ensures failed { result ≡ Stop.Failed DirFail.Failed → fault ≡ LoadFault.Failed }
{
    match fault {
        LoadFault::TooLarge(_) => match too_large(alloc, kind) {
            Ok(outcome) => Stop::Said(outcome),
            Err(_) => Stop::Failed(DirFail::OutOfMemory),
        },
        LoadFault::Failed => Stop::Failed(DirFail::Failed),
        LoadFault::OutOfMemory => Stop::Failed(DirFail::OutOfMemory),
    }
}

/// The file that `fields` reads, in memory.
fn fields_file<D: Dir>(alloc: Global, segment: &str, dir: &mut D) -> Result<Loaded, Stop>
    ensures found { IfOk result (λ loaded. AreFound (D.files dir.old) segment.now fields_kinds loaded.found) }
    ensures count { IfOk result (λ loaded. length loaded.found ≡ 1) }
    ensures said { IfErr result (StopSays (IsTooLong segment.now fields_kinds (D.files dir.old))) }
    ensures files { D.files dir.new ≡ D.files dir.old }
    ensures asked { D.asked dir.new ≡ D.asked dir.old }
    ensures cause { IsCaused (D.faults dir.old) (D.faults dir.new) (IsErrOf result (Stop.Failed DirFail.Failed)) }
{
    let names = [part_name(alloc, segment, FileKind::Fnm)?];
    match load(alloc, dir, &names, FILE_LIMIT) {
        Ok(loaded) => Ok(loaded),
        Err(fault) => Err(unloaded(alloc, FileKind::Fnm, fault)),
    }
}

/// Prints the lines of a field table, and answers how it went.
fn print_table<K: Sink>(alloc: Global, table: &FieldTable<'_>, out: &mut K) -> Status
    ensures tells { Tells Status.Ok (field_lines 0 table.now) (K.taken out.old) (K.taken out.new) result }
    ensures folder { ¬ IsDirFault result }
    ensures input { result ≢ Status.Device Which.Source }
    ensures cause { IsCaused (K.faults out.old) (K.faults out.new) (result ≡ Status.Device Which.Sink) }
{
    let Ok(mut printer) = Printer::new(alloc) else {
        return Status::NoMemory;
    };
    fields_text(&mut printer, out, table);
    tell_rest(printer, out)
}

/// Prints the field table of a segment of the folder that was entered, and answers how it went.
pub fn fields<D: Dir, K: Sink>(alloc: Global, segment: &str, dir: &mut D, out: &mut K) -> Status
    ensures answers { Answers (FilesDue segment.now fields_kinds (FieldsSay segment.now) (D.files dir.old)) (Rose (D.faults dir.old) (D.faults dir.new))
        (record { files = D.files dir.old; taken = K.taken out.old }) (record { files = D.files dir.new; taken = K.taken out.new }) result }
    ensures asked { D.asked dir.new ≡ D.asked dir.old }
    ensures folder { IsCaused (D.faults dir.old) (D.faults dir.new) (IsDirFault result) }
    ensures input { result ≢ Status.Device Which.Source }
    ensures output { IsCaused (K.faults out.old) (K.faults out.new) (result ≡ Status.Device Which.Sink) }
{
    let loaded = match fields_file(alloc, segment, dir) {
        Ok(loaded) => loaded,
        Err(stop) => return stopped(alloc, &stop, dir, out),
    };
    match opened_table(alloc, segment, loaded.at(0)) {
        Ok(table) => print_table(alloc, &table, out),
        Err(stop) => stopped(alloc, &stop, dir, out),
    }
}

/// The names of the files that `docs` reads, in order.
fn docs_names(alloc: Global, segment: &str) -> Result<[String; 3], OutOfMemory>
    ensures { IfOk result (λ names. map string_bytes names ≡ map (name_of_part segment.now) docs_kinds) }
{
    let fnm = part_name(alloc, segment, DOCS_FILES[0])?;
    let fdx = part_name(alloc, segment, DOCS_FILES[1])?;
    let fdt = part_name(alloc, segment, DOCS_FILES[2])?;
    Ok([fnm, fdx, fdt])
}

/// The kind of the file of `docs` that was too long to be loaded.
fn docs_kind(fault: &LoadFault) -> FileKind
    ensures { (place : ℕ) → fault.now ≡ LoadFault.TooLarge place → place < 3 → slice_get docs_kinds place ≡ Some result }
{
    match fault {
        LoadFault::TooLarge(place) if *place < 3 => DOCS_FILES[*place as usize],
        _ => FileKind::Fnm,
    }
}

/// The files that `docs` reads, in memory.
fn docs_files<D: Dir>(alloc: Global, segment: &str, dir: &mut D) -> Result<Loaded, Stop>
    ensures found { IfOk result (λ loaded. AreFound (D.files dir.old) segment.now docs_kinds loaded.found) }
    ensures count { IfOk result (λ loaded. length loaded.found ≡ 3) }
    ensures said { IfErr result (StopSays (IsTooLong segment.now docs_kinds (D.files dir.old))) }
    ensures files { D.files dir.new ≡ D.files dir.old }
    ensures asked { D.asked dir.new ≡ D.asked dir.old }
    ensures cause { IsCaused (D.faults dir.old) (D.faults dir.new) (IsErrOf result (Stop.Failed DirFail.Failed)) }
{
    let names = docs_names(alloc, segment)?;
    match load(alloc, dir, &names, FILE_LIMIT) {
        Ok(loaded) => Ok(loaded),
        Err(fault) => {
            let kind = docs_kind(&fault);
            Err(unloaded(alloc, kind, fault))
        }
    }
}

/// Prints the lines of the documents of a store, and answers how it went.
fn print_documents<K: Sink>(alloc: Global, view: &StoredView<'_>, out: &mut K) -> Status
    ensures tells { Tells Status.Ok (doc_lines 0 view.now) (K.taken out.old) (K.taken out.new) result }
    ensures folder { ¬ IsDirFault result }
    ensures input { result ≢ Status.Device Which.Source }
    ensures cause { IsCaused (K.faults out.old) (K.faults out.new) (result ≡ Status.Device Which.Sink) }
{
    let Ok(mut printer) = Printer::new(alloc) else {
        return Status::NoMemory;
    };
    docs_text(&mut printer, out, view);
    tell_rest(printer, out)
}

/// Prints the stored documents of a segment of the folder that was entered, and answers how it went.
pub fn docs<D: Dir, K: Sink>(alloc: Global, segment: &str, dir: &mut D, out: &mut K) -> Status
    ensures answers { Answers (FilesDue segment.now docs_kinds (DocsSay segment.now) (D.files dir.old)) (Rose (D.faults dir.old) (D.faults dir.new))
        (record { files = D.files dir.old; taken = K.taken out.old }) (record { files = D.files dir.new; taken = K.taken out.new }) result }
    ensures asked { D.asked dir.new ≡ D.asked dir.old }
    ensures folder { IsCaused (D.faults dir.old) (D.faults dir.new) (IsDirFault result) }
    ensures input { result ≢ Status.Device Which.Source }
    ensures output { IsCaused (K.faults out.old) (K.faults out.new) (result ≡ Status.Device Which.Sink) }
{
    let loaded = match docs_files(alloc, segment, dir) {
        Ok(loaded) => loaded,
        Err(stop) => return stopped(alloc, &stop, dir, out),
    };
    let fnm = loaded.at(0);
    let fdx = loaded.at(1);
    let fdt = loaded.at(2);
    match opened_documents(alloc, segment, fnm, fdx, fdt) {
        Ok(view) => print_documents(alloc, &view, out),
        Err(stop) => stopped(alloc, &stop, dir, out),
    }
}
