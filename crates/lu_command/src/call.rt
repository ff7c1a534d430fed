//! The call that answers the words of the program.
ghost use Rattle.std.specs.Prelude.{◌≡◌, ◌≢◌, ℕ, List};
ghost use Rattle.lu_dir.specs.Faults.{Rose, IsCaused};
ghost use Rattle.std.specs.Option.{ForSome};
ghost use Rattle.lu_dir.specs.Files.{Leaves, AreMadeOfBytes};
ghost use Rattle.lu_dir.specs.Loading.{texts};
ghost use Rattle.lu_command.specs.Commands.{Meaning, Means};
ghost use Rattle.lu_command.specs.Meanings.{meaning_of};
ghost use Rattle.lu_outcomes.specs.Outcomes.{usage_outcome};
ghost use Rattle.lu_reads.specs.Checking.{CheckDue};
ghost use Rattle.lu_changes.specs.Building.{BuildDue};
ghost use Rattle.lu_changes.specs.Deleting.{DeleteDue};
ghost use Rattle.lu_changes.specs.Merging.{MergeDue};
ghost use Rattle.lu_command.specs.Due.{MeaningDue, Due};
ghost use Rattle.lu_outcomes.specs.Answers.{IsDirFault, Answers};
ghost use Rattle.lu_command.specs.Asking.{AskFor, AsksFor, Asks, Completes, ReadsInput, folder_meant};
ghost use Rattle.lu_changes.specs.Inputs.{IsEmptied};
ghost use Rattle.lu_outcomes.specs.Safety.{IsSafe};

use crate::command::Command;
use lu_changes::building::build_outcome;
use lu_changes::deleting::delete_outcome;
use lu_changes::marking::Target;
use lu_changes::merging::merge_outcome;
use lu_dir::{Dir, Sink, Source};
use lu_outcomes::finishing::{finish, given_up, halted};
use lu_outcomes::status::{Status, Which};
use lu_outcomes::telling::tell;
use lu_reads::checking::check_outcome;
use lu_reads::reaching::{Wanted, postings};
use lu_reads::reading::{docs, fields};
use lu_reads::showing::show;
use std::alloc::Global;

/// The line of words that have no meaning.
const USAGE: &str = "usage: lucene3 COMMAND [DIR] [ARGUMENTS]\n";

/// Answers `check` in the folder that was entered.
fn check<D: Dir, K: Sink>(alloc: Global, dir: &mut D, out: &mut K) -> Status
    requires { ForSome (D.files dir.old) AreMadeOfBytes }
    ensures answers { Answers (CheckDue (D.files dir.old)) (Rose (D.faults dir.old) (D.faults dir.new))
        (record { files = D.files dir.old; taken = K.taken out.old }) (record { files = D.files dir.new; taken = K.taken out.new }) result }
    ensures asked { D.asked dir.new ≡ D.asked dir.old }
    ensures folder { IsCaused (D.faults dir.old) (D.faults dir.new) (IsDirFault result) }
    ensures input { result ≢ Status.Device Which.Source }
    ensures output { IsCaused (K.faults out.old) (K.faults out.new) (result ≡ Status.Device Which.Sink) }
{
    match check_outcome(alloc, dir) {
        Ok(outcome) => finish(alloc, &outcome, dir, out),
        Err(fail) => given_up(fail),
    }
}

/// Answers `build` in the folder that was entered.
fn build<D: Dir, S: Source, K: Sink>(
    alloc: Global,
    compound: bool,
    dir: &mut D,
    src: &mut S,
    out: &mut K,
) -> Status
    requires { ForSome (D.files dir.old) AreMadeOfBytes }
    ensures answers { Answers (BuildDue compound (D.files dir.old) (S.left src.old)) (Rose (D.faults dir.old) (D.faults dir.new))
        (record { files = D.files dir.old; taken = K.taken out.old }) (record { files = D.files dir.new; taken = K.taken out.new }) result }
    ensures asked { D.asked dir.new ≡ D.asked dir.old }
    ensures folder { IsCaused (D.faults dir.old) (D.faults dir.new) (IsDirFault result) }
    ensures input { IsCaused (S.faults src.old) (S.faults src.new) (result ≡ Status.Device Which.Source) }
    ensures output { IsCaused (K.faults out.old) (K.faults out.new) (result ≡ Status.Device Which.Sink) }
    ensures emptied { result ≡ Status.Ok → IsEmptied (S.left src.old) (S.left src.new) }
{
    match build_outcome(alloc, compound, dir, src) {
        Ok(outcome) => finish(alloc, &outcome, dir, out),
        Err(halt) => halted(halt),
    }
}

/// Answers `delete` in the folder that was entered.
fn delete<D: Dir, K: Sink>(alloc: Global, target: Target<'_>, dir: &mut D, out: &mut K) -> Status
    requires { ForSome (D.files dir.old) AreMadeOfBytes }
    ensures answers { Answers (DeleteDue target.entry.field.now target.entry.text.now (D.files dir.old)) (Rose (D.faults dir.old) (D.faults dir.new))
        (record { files = D.files dir.old; taken = K.taken out.old }) (record { files = D.files dir.new; taken = K.taken out.new }) result }
    ensures asked { D.asked dir.new ≡ D.asked dir.old }
    ensures folder { IsCaused (D.faults dir.old) (D.faults dir.new) (IsDirFault result) }
    ensures input { result ≢ Status.Device Which.Source }
    ensures output { IsCaused (K.faults out.old) (K.faults out.new) (result ≡ Status.Device Which.Sink) }
{
    match delete_outcome(alloc, target, dir) {
        Ok(outcome) => finish(alloc, &outcome, dir, out),
        Err(fail) => given_up(fail),
    }
}

/// Answers `merge` in the folder that was entered.
fn merge<D: Dir, K: Sink>(alloc: Global, compound: bool, dir: &mut D, out: &mut K) -> Status
    requires { ForSome (D.files dir.old) AreMadeOfBytes }
    ensures answers { Answers (MergeDue compound (D.files dir.old)) (Rose (D.faults dir.old) (D.faults dir.new))
        (record { files = D.files dir.old; taken = K.taken out.old }) (record { files = D.files dir.new; taken = K.taken out.new }) result }
    ensures asked { D.asked dir.new ≡ D.asked dir.old }
    ensures folder { IsCaused (D.faults dir.old) (D.faults dir.new) (IsDirFault result) }
    ensures input { result ≢ Status.Device Which.Source }
    ensures output { IsCaused (K.faults out.old) (K.faults out.new) (result ≡ Status.Device Which.Sink) }
{
    match merge_outcome(alloc, compound, dir) {
        Ok(outcome) => finish(alloc, &outcome, dir, out),
        Err(fail) => given_up(fail),
    }
}

/// Answers a command in the folder that was entered.
fn conclude<D: Dir, S: Source, K: Sink>(
    alloc: Global,
    command: Command<'_>,
    dir: &mut D,
    src: &mut S,
    out: &mut K,
) -> Status
    requires made { ForSome (D.files dir.old) AreMadeOfBytes }
    requires meant { (words : List (List ℕ)) × Means words (meaning_of command) }
    ensures answers { Answers (MeaningDue (meaning_of command.entry) (D.files dir.old) (S.left src.old))
        (Rose (D.faults dir.old) (D.faults dir.new))
        (record { files = D.files dir.old; taken = K.taken out.old }) (record { files = D.files dir.new; taken = K.taken out.new }) result }
    ensures asked { D.asked dir.new ≡ D.asked dir.old }
    ensures folder { IsCaused (D.faults dir.old) (D.faults dir.new) (IsDirFault result) }
    ensures input { IsCaused (S.faults src.old) (S.faults src.new) (result ≡ Status.Device Which.Source) }
    ensures output { IsCaused (K.faults out.old) (K.faults out.new) (result ≡ Status.Device Which.Sink) }
    ensures unread { ¬ ReadsInput (meaning_of command.entry) → (src.new ≡ src.old) × (result ≢ Status.Device Which.Source) }
    ensures emptied { ReadsInput (meaning_of command.entry) → result ≡ Status.Ok → IsEmptied (S.left src.old) (S.left src.new) }
{
    match command {
        Command::Fields { segment, .. } => fields(alloc, segment, dir, out),
        Command::Docs { segment, .. } => docs(alloc, segment, dir, out),
        Command::Check { .. } => check(alloc, dir, out),
        Command::Show { .. } => show(alloc, dir, out),
        Command::Build { compound, .. } => build(alloc, compound, dir, src, out),
        Command::Delete { field, text, .. } => delete(alloc, Target { field, text }, dir, out),
        Command::Postings {
            field,
            text,
            from,
            ..
        } => postings(alloc, Wanted { field, text, from }, dir, out),
        Command::Merge { compound, .. } => merge(alloc, compound, dir, out),
    }
}

/// Answers a command.
fn obey<D: Dir, S: Source, K: Sink>(
    alloc: Global,
    command: Command<'_>,
    dir: &mut D,
    src: &mut S,
    out: &mut K,
) -> Status
    requires { (words : List (List ℕ)) × Means words (meaning_of command) }
    ensures answers { Answers (MeaningDue (meaning_of command.entry) (D.files dir.old) (S.left src.old))
        (Rose (D.faults dir.old) (D.faults dir.new))
        (record { files = D.files dir.old; taken = K.taken out.old }) (record { files = D.files dir.new; taken = K.taken out.new }) result }
    ensures asked { AsksFor (folder_meant (meaning_of command.entry)) (D.asked dir.new) result }
    ensures folder { IsCaused (D.faults dir.old) (D.faults dir.new) (IsDirFault result) }
    ensures input { IsCaused (S.faults src.old) (S.faults src.new) (result ≡ Status.Device Which.Source) }
    ensures output { IsCaused (K.faults out.old) (K.faults out.new) (result ≡ Status.Device Which.Sink) }
    ensures unread { ¬ ReadsInput (meaning_of command.entry) → (src.new ≡ src.old) × (result ≢ Status.Device Which.Source) }
    ensures emptied { ReadsInput (meaning_of command.entry) → result ≡ Status.Ok → IsEmptied (S.left src.old) (S.left src.new) }
{
    match dir.enter(alloc, command.dir()) {
        Ok(()) => conclude(alloc, command, dir, src, out),
        Err(fail) => given_up(fail),
    }
}

/// Does what the words after the program's name ask for, over this folder, input and output, and answers how it went.
///
/// The answer and the text are those of the outcome that is due by the words, the files and the input, and the folder is
/// then the one that is to stand. `Device` comes only where a fault of that thing was counted in the call, `LeftBehind` only
/// where one of the folder was, and `NoMemory` may come at any time. With none of them, the answer that is due comes. Only
/// words that ask for it have the input read, and with `Ok` nothing of it is left. Whatever comes, no commit is lost: the folder reads as before, or as the
/// outcome leaves it.
pub fn run<D: Dir, S: Source, K: Sink>(
    alloc: Global,
    words: &[String],
    dir: &mut D,
    src: &mut S,
    out: &mut K,
) -> Status
    ensures answers { Answers (Due (texts words.now) (D.files dir.old) (S.left src.old)) (Rose (D.faults dir.old) (D.faults dir.new))
        (record { files = D.files dir.old; taken = K.taken out.old }) (record { files = D.files dir.new; taken = K.taken out.new }) result }
    ensures safe { Leaves (λ old new. IsSafe (Due (texts words.now) (D.files dir.old) (S.left src.old))
        (Rose (D.faults dir.old) (D.faults dir.new)) result old new)
        (D.files dir.old) (D.files dir.new) }
    ensures asked { Asks (texts words.now) (D.asked dir.old) (D.asked dir.new) result }
    ensures folder { IsCaused (D.faults dir.old) (D.faults dir.new) (IsDirFault result) }
    ensures input { IsCaused (S.faults src.old) (S.faults src.new) (result ≡ Status.Device Which.Source) }
    ensures output { IsCaused (K.faults out.old) (K.faults out.new) (result ≡ Status.Device Which.Sink) }
    ensures unread { ¬ AskFor ReadsInput (texts words.now) → (src.new ≡ src.old) × (result ≢ Status.Device Which.Source) }
    ensures emptied { AskFor ReadsInput (texts words.now) → result ≡ Status.Ok → IsEmptied (S.left src.old) (S.left src.new) }
    ensures complete { Completes (texts words.now) (D.files dir.old) (S.left src.old) result }
{
    match Command::of(words) {
        Some(command) => obey(alloc, command, dir, src, out),
        None => tell(alloc, out, Status::Usage, USAGE.as_bytes()),
    }
}
