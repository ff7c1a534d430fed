//! What `build` comes to: the current commit, then the input, then the new segment.
ghost use Rattle.std.specs.Prelude.{◌≡◌, ℕ, ◌<◌, ◌≤◌, ◌+◌, ◌^◌, true, nat_le, nat_lt, length, Ok, Some, IfOk, IsErrOf};
ghost use Rattle.std.specs.Option.{ForSome};
ghost use Rattle.std.specs.FinMap.{keys};
ghost use Rattle.lu_dir.specs.Faults.{IsCaused};
ghost use Rattle.lu_dir.specs.Files.{AreMadeOfBytes};
ghost use Rattle.lu_dir.specs.Loading.{texts};
ghost use Rattle.segment_infos.specs.LuceneNames.{IsGenerationNumber};
ghost use Rattle.segment_infos.specs.Values.{total_size};
ghost use Rattle.segment_infos.specs.declared.record.TheConstants.{MOST_DOCUMENTS as greatest_sum};
ghost use Rattle.lu_folder.specs.Drawing.{next_segment as next_segment_of};
ghost use Rattle.lu_changes.specs.Basis.{basis_value};
ghost use Rattle.lu_changes.specs.Building.{SumGives, NumberGives, DocumentsGive, BytesGive, InputGives, VersionGives, CommitGives, CurrentGives, BuildDue};
ghost use Rattle.lu_changes.specs.Inputs.{AreSoundDocuments, IsEmptied, JudgesInput, halt_of};

use crate::basis::{Basis, Setting, empty_commit, hold_commit};
use crate::new_segment::{no_segment, options_for, segment_made};
use lu_dir::{Dir, DirFail, LoadFault, Source, read_all};
use lu_folder::{Chosen, FolderFault, current, next_generation, next_segment};
use lu_input::{InputFault, read_documents};
use lu_outcomes::halt::Halt;
use lu_outcomes::outcome::Outcome;
use lu_outcomes::refusing::refused;
use lu_outcomes::status::{Refusal, Status};
use lu_prims::OutOfMemory;
use lu_reads::checking::{refusal, totals};
use lu_reads::limits::FILE_LIMIT;
use lu_types::{Document, Limits};
use seg_writer::{WriteFault, write_segment};
use segment_infos::Commit;
use std::alloc::Global;

/// The most documents that all segments of a commit have together.
const MOST_DOCUMENTS: u64 = 2_147_483_646;

/// Versions are below this one.
const VERSION_LIMIT: u64 = 1 << 63;

/// Where a segment of documents comes from, as its line says.
const FLUSHED: &str = "flush";

/// How many documents a commit has with so many more.
fn sum_of(before: &Commit, more: u64) -> u64
    requires { more < 2 ^ 63 }
    ensures { result ≡ total_size before.now.segments + more }
{
    let (sizes, _) = totals(before.segments.as_slice());
    sizes + more
}

/// What comes of the new segment with this number, whose documents the commit may have.
fn by_files(
    alloc: Global,
    basis: Basis<'_>,
    number: u32,
    docs: &[Document],
) -> Result<Outcome, OutOfMemory>
    requires generation { IsGenerationNumber basis.generation }
    requires version { basis.before.version + 1 < 2 ^ 63 }
    requires some { 0 < length docs.now }
    requires sound { AreSoundDocuments docs.now }
    requires drawn { next_segment_of (texts basis.names.now) basis.before ≡ Some number }
    requires sum { total_size basis.before.segments + length docs.now ≤ greatest_sum }
    ensures { IfOk result (λ outcome. SumGives (basis_value basis.entry) docs.now number true outcome) }
{
    hold_commit(&basis.before);
    let options = options_for(number, basis.compound);
    match write_segment(alloc, docs, &options) {
        Ok(files) => segment_made(alloc, basis, FLUSHED, number, files),
        Err(WriteFault::TooLarge(kind)) => refused(alloc, Refusal::TooLarge(kind)),
        Err(WriteFault::OutOfMemory) => Err(OutOfMemory),
        // The input has no faulty line, so no document has a fault.
        Err(WriteFault::Doc(..)) => unreachable!(),
    }
}

/// What comes of the new segment with this number.
fn by_sum(
    alloc: Global,
    basis: Basis<'_>,
    number: u32,
    docs: &[Document],
) -> Result<Outcome, OutOfMemory>
    requires generation { IsGenerationNumber basis.generation }
    requires version { basis.before.version + 1 < 2 ^ 63 }
    requires some { 0 < length docs.now }
    requires sound { AreSoundDocuments docs.now }
    requires drawn { next_segment_of (texts basis.names.now) basis.before ≡ Some number }
    ensures { IfOk result (λ outcome. SumGives (basis_value basis.entry) docs.now number
        (nat_le (total_size basis.entry.before.segments + length docs.now) greatest_sum) outcome) }
{
    if sum_of(&basis.before, docs.len() as u64) <= MOST_DOCUMENTS {
        by_files(alloc, basis, number, docs)
    } else {
        refused(alloc, Refusal::TooMany)
    }
}

/// What comes of documents, of which there is one at least.
fn by_number(alloc: Global, basis: Basis<'_>, docs: &[Document]) -> Result<Outcome, OutOfMemory>
    requires generation { IsGenerationNumber basis.generation }
    requires version { basis.before.version + 1 < 2 ^ 63 }
    requires some { 0 < length docs.now }
    requires sound { AreSoundDocuments docs.now }
    ensures { IfOk result (λ outcome. NumberGives (basis_value basis.entry) docs.now
        (next_segment_of (texts basis.entry.names.now) basis.entry.before) outcome) }
{
    match next_segment(basis.names, &basis.before) {
        Some(number) => by_sum(alloc, basis, number, docs),
        None => refused(alloc, Refusal::CounterFull),
    }
}

/// What comes of documents.
fn by_documents(alloc: Global, basis: Basis<'_>, docs: &[Document]) -> Result<Outcome, OutOfMemory>
    requires generation { IsGenerationNumber basis.generation }
    requires version { basis.before.version + 1 < 2 ^ 63 }
    requires sound { AreSoundDocuments docs.now }
    ensures { IfOk result (λ outcome. DocumentsGive (basis_value basis.entry) (Ok docs.now) outcome) }
{
    if docs.is_empty() {
        no_segment(alloc, basis)
    } else {
        by_number(alloc, basis, docs)
    }
}

/// The documents of an input, which is dropped.
fn documents_of(alloc: Global, bytes: Vec<u8>) -> Result<Vec<Document>, InputFault>
    requires { length bytes.items < 2 ^ 31 }
    ensures judges { JudgesInput (λ docs. docs.items) bytes.items result }
    ensures sound { IfOk result (λ docs. AreSoundDocuments docs.items) }
{
    read_documents(alloc, bytes.as_slice(), &Limits::program())
}

/// What comes of the bytes of an input.
fn by_bytes(alloc: Global, basis: Basis<'_>, bytes: Vec<u8>) -> Result<Outcome, OutOfMemory>
    requires generation { IsGenerationNumber basis.generation }
    requires version { basis.before.version + 1 < 2 ^ 63 }
    requires within { length bytes.items < 2 ^ 31 }
    ensures { IfOk result (λ outcome. BytesGive (basis_value basis.entry) bytes.items outcome) }
{
    match documents_of(alloc, bytes) {
        Ok(docs) => by_documents(alloc, basis, docs.as_slice()),
        Err(InputFault::Line(number, fault)) => refused(alloc, Refusal::Line(number, fault)),
        Err(InputFault::OutOfMemory) => Err(OutOfMemory),
    }
}

/// What comes of the input.
fn by_input<S: Source>(alloc: Global, basis: Basis<'_>, src: &mut S) -> Result<Outcome, DirFail>
    requires generation { IsGenerationNumber basis.generation }
    requires version { basis.before.version + 1 < 2 ^ 63 }
    ensures due { IfOk result (λ outcome. InputGives (basis_value basis.entry) (S.left src.old) outcome) }
    ensures cause { IsCaused (S.faults src.old) (S.faults src.new) (IsErrOf result DirFail.Failed) }
    ensures emptied { IfOk result (λ outcome. outcome.status ≡ Status.Ok → IsEmptied (S.left src.old) (S.left src.new)) }
{
    match read_all(alloc, src, FILE_LIMIT) {
        Ok(bytes) => Ok(by_bytes(alloc, basis, bytes)?),
        Err(LoadFault::TooLarge(_)) => Ok(refused(alloc, Refusal::InputTooLarge)?),
        Err(LoadFault::Failed) => Err(DirFail::Failed),
        Err(LoadFault::OutOfMemory) => Err(DirFail::OutOfMemory),
    }
}

/// What comes of the input, where the version of the commit can be raised.
fn by_version<S: Source>(alloc: Global, basis: Basis<'_>, src: &mut S) -> Result<Outcome, DirFail>
    requires generation { IsGenerationNumber basis.generation }
    ensures due { IfOk result (λ outcome. VersionGives (basis_value basis.entry) (S.left src.old)
        (nat_lt (basis.entry.before.version + 1) (2 ^ 63)) outcome) }
    ensures cause { IsCaused (S.faults src.old) (S.faults src.new) (IsErrOf result DirFail.Failed) }
    ensures emptied { IfOk result (λ outcome. outcome.status ≡ Status.Ok → IsEmptied (S.left src.old) (S.left src.new)) }
{
    if basis.before.version + 1 < VERSION_LIMIT {
        by_input(alloc, basis, src)
    } else {
        Ok(refused(alloc, Refusal::VersionFull)?)
    }
}

/// What comes of the commit that is built on.
fn by_commit<S: Source>(
    alloc: Global,
    setting: Setting<'_>,
    before: Commit,
    src: &mut S,
) -> Result<Outcome, DirFail>
    ensures due { IfOk result (λ outcome. CommitGives (texts setting.entry.names.now) before setting.entry.compound (S.left src.old) outcome) }
    ensures cause { IsCaused (S.faults src.old) (S.faults src.new) (IsErrOf result DirFail.Failed) }
    ensures emptied { IfOk result (λ outcome. outcome.status ≡ Status.Ok → IsEmptied (S.left src.old) (S.left src.new)) }
{
    match next_generation(setting.names) {
        Some(generation) => {
            let basis = Basis {
                names: setting.names,
                before,
                generation,
                compound: setting.compound,
            };
            by_version(alloc, basis, src)
        }
        None => Ok(refused(alloc, Refusal::GenerationFull)?),
    }
}

/// Why a command came to no outcome, by how a thing answered whose failure is told so.
pub fn halted_by(failed: Halt, fail: DirFail) -> Halt
    ensures { result ≡ halt_of failed fail }
{
    match fail {
        DirFail::Failed => failed,
        DirFail::OutOfMemory => Halt::OutOfMemory,
    }
}

/// What comes of the commit that is built on, or that the input failed.
fn by_commit_or_halt<S: Source>(
    alloc: Global,
    setting: Setting<'_>,
    before: Commit,
    src: &mut S,
) -> Result<Outcome, Halt>
    ensures due { IfOk result (λ outcome. CommitGives (texts setting.entry.names.now) before setting.entry.compound (S.left src.old) outcome) }
    ensures folder { ¬ IsErrOf result Halt.Folder }
    ensures input { IsCaused (S.faults src.old) (S.faults src.new) (IsErrOf result Halt.Input) }
    ensures emptied { IfOk result (λ outcome. outcome.status ≡ Status.Ok → IsEmptied (S.left src.old) (S.left src.new)) }
{
    match by_commit(alloc, setting, before, src) {
        Ok(outcome) => Ok(outcome),
        Err(fail) => Err(halted_by(Halt::Input, fail)),
    }
}

/// What comes of what is answered about the current commit.
fn by_current<S: Source>(
    alloc: Global,
    setting: Setting<'_>,
    answer: Result<Chosen, FolderFault>,
    src: &mut S,
) -> Result<Outcome, Halt>
    ensures due { IfOk result (λ outcome. CurrentGives (texts setting.entry.names.now) setting.entry.compound (S.left src.old) answer outcome) }
    ensures folder { IsErrOf result Halt.Folder → IsErrOf answer FolderFault.Failed }
    ensures input { IsCaused (S.faults src.old) (S.faults src.new) (IsErrOf result Halt.Input) }
    ensures emptied { IfOk result (λ outcome. outcome.status ≡ Status.Ok → IsEmptied (S.left src.old) (S.left src.new)) }
{
    match answer {
        Ok(chosen) => by_commit_or_halt(alloc, setting, chosen.commit, src),
        Err(FolderFault::NoIndex) => { by_commit_or_halt(alloc, setting, empty_commit(alloc), src) }
        Err(fault) => match refusal(alloc, fault) {
            Ok(outcome) => Ok(outcome),
            Err(fail) => Err(halted_by(Halt::Folder, fail)),
        },
    }
}

/// The names of the folder, in order.
pub fn names_in_order<D: Dir>(alloc: Global, dir: &mut D) -> Result<Vec<String>, DirFail>
    ensures names { IfOk result (λ names. ForSome (D.files dir.old) (λ told. texts names.items ≡ keys told)) }
    ensures files { D.files dir.new ≡ D.files dir.old }
    ensures asked { D.asked dir.new ≡ D.asked dir.old }
    ensures folder { IsCaused (D.faults dir.old) (D.faults dir.new) (IsErrOf result DirFail.Failed) }
{
    let mut names = match dir.list(alloc) {
        Ok(names) => names,
        Err(fail) => return Err(fail),
    };
    names.sort_unstable();
    Ok(names)
}

/// What `build` comes to.
pub fn build_outcome<D: Dir, S: Source>(
    alloc: Global,
    compound: bool,
    dir: &mut D,
    src: &mut S,
) -> Result<Outcome, Halt>
    requires { ForSome (D.files dir.old) AreMadeOfBytes }
    ensures due { IfOk result (λ outcome. BuildDue compound (D.files dir.old) (S.left src.old) outcome) }
    ensures files { D.files dir.new ≡ D.files dir.old }
    ensures asked { D.asked dir.new ≡ D.asked dir.old }
    ensures folder { IsCaused (D.faults dir.old) (D.faults dir.new) (IsErrOf result Halt.Folder) }
    ensures input { IsCaused (S.faults src.old) (S.faults src.new) (IsErrOf result Halt.Input) }
    ensures emptied { IfOk result (λ outcome. outcome.status ≡ Status.Ok → IsEmptied (S.left src.old) (S.left src.new)) }
{
    let names = match names_in_order(alloc, dir) {
        Ok(names) => names,
        Err(fail) => return Err(halted_by(Halt::Folder, fail)),
    };
    let answer = current(alloc, dir, names.as_slice());
    let setting = Setting {
        names: names.as_slice(),
        compound,
    };
    by_current(alloc, setting, answer, src)
}
