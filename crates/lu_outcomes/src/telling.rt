//! The text of an answer, and what becomes of it at the output.
ghost use Rattle.std.specs.Prelude.{◌≡◌, ◌≢◌, ◌++◌, ℕ, List};
ghost use Rattle.lu_dir.specs.Faults.{IsCaused};
ghost use Rattle.lu_listing.specs.Printing.{Start, page, HasPrinted};
ghost use Rattle.lu_outcomes.specs.Answers.{IsDirFault};
ghost use Rattle.lu_outcomes.specs.Telling.{Tells, output_status_of};
ghost use Rattle.lu_outcomes.specs.Texts.{left_behind_text};

use crate::status::{Status, Which};
use crate::texts::LEFT_BEHIND;
use lu_dir::{DirFail, Sink, write_all};
use lu_listing::Printer;
use std::alloc::Global;

/// The answer to a failure of the output.
fn cut_short(fail: DirFail) -> Status
    ensures { result ≡ output_status_of fail }
{
    match fail {
        DirFail::Failed => Status::Device(Which::Sink),
        DirFail::OutOfMemory => Status::NoMemory,
    }
}

/// Prints a text, and answers this; or that the output failed, or that there was no memory.
pub fn tell<K: Sink>(alloc: Global, out: &mut K, status: Status, text: &[u8]) -> Status
    requires { status ≢ Status.Device Which.Sink }
    ensures tells { Tells status text.now (K.taken out.old) (K.taken out.new) result }
    ensures cause { IsCaused (K.faults out.old) (K.faults out.new) (result ≡ Status.Device Which.Sink) }
    ensures folder { ¬ IsDirFault status → ¬ IsDirFault result }
{
    match write_all(alloc, out, text) {
        Ok(()) => status,
        Err(fail) => cut_short(fail),
    }
}

/// Prints a text, and the line that says that names without use may be left, and answers so; or that the output failed, or
/// that there was no memory.
pub fn tell_left_behind<K: Sink>(alloc: Global, out: &mut K, text: &[u8]) -> Status
    ensures tells { Tells Status.LeftBehind (text.now ++ left_behind_text) (K.taken out.old) (K.taken out.new) result }
    ensures cause { IsCaused (K.faults out.old) (K.faults out.new) (result ≡ Status.Device Which.Sink) }
{
    match write_all(alloc, out, text) {
        Ok(()) => tell(alloc, out, Status::LeftBehind, LEFT_BEHIND.as_bytes()),
        Err(fail) => cut_short(fail),
    }
}

/// Hands what waits of a text to the output, and answers how the whole text was told.
pub fn tell_rest<K: Sink>(printer: Printer, out: &mut K) -> Status
    ensures tells { (start : Start) (text : List ℕ) → HasPrinted start text (page printer (K.taken out.old) (K.faults out.old))
        → Tells Status.Ok text start.taken (K.taken out.new) result }
    ensures cause { (start : Start) (text : List ℕ) → HasPrinted start text (page printer (K.taken out.old) (K.faults out.old))
        → IsCaused start.faults (K.faults out.new) (result ≡ Status.Device Which.Sink) }
    ensures folder { ¬ IsDirFault result }
    ensures input { result ≢ Status.Device Which.Source }
{
    match printer.finish(out) {
        Ok(()) => Status::Ok,
        Err(fail) => cut_short(fail),
    }
}
