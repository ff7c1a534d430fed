//! The end of every command: its effect, and then its text.
ghost use Rattle.std.specs.Prelude.{◌≡◌, ◌≢◌};
ghost use Rattle.lu_dir.specs.Faults.{Rose, IsCaused};
ghost use Rattle.lu_outcomes.specs.Outcomes.{IsAnswer};
ghost use Rattle.lu_outcomes.specs.Answers.{IsGivenUp, IsDirFault, Answers};
ghost use Rattle.lu_outcomes.specs.Halting.{status_of, status_halted};

use crate::halt::Halt;
use crate::outcome::{Effect, Outcome};
use crate::status::{Status, Which};
use crate::telling::{tell, tell_left_behind};
use lu_dir::{Dir, DirFail, Sink};
use lu_folder::{Change, commit};
use std::alloc::Global;

/// The answer to a failure of the folder.
pub fn given_up(fail: DirFail) -> Status
    ensures { result ≡ status_of fail }
{
    match fail {
        DirFail::Failed => Status::Device(Which::Dir),
        DirFail::OutOfMemory => Status::NoMemory,
    }
}

/// The answer of a command that came to no outcome.
pub fn halted(halt: Halt) -> Status
    ensures { result ≡ status_halted halt }
{
    match halt {
        Halt::Folder => Status::Device(Which::Dir),
        Halt::Input => Status::Device(Which::Source),
        Halt::OutOfMemory => Status::NoMemory,
    }
}

/// Makes the commit of an outcome, and prints its text. What memory the commit needs of its own was taken before.
fn finish_commit<D: Dir, K: Sink>(
    alloc: Global,
    outcome: &Outcome,
    change: &Change,
    dir: &mut D,
    out: &mut K,
) -> Status
    requires answer { IsAnswer outcome.now.status }
    requires effect { outcome.now.effect ≡ Effect.Commit change.now }
    ensures answers { Answers (λ due. due ≡ outcome.now) (Rose (D.faults dir.old) (D.faults dir.new))
        (record { files = D.files dir.old; taken = K.taken out.old }) (record { files = D.files dir.new; taken = K.taken out.new }) result }
    ensures asked { D.asked dir.new ≡ D.asked dir.old }
    ensures folder { IsCaused (D.faults dir.old) (D.faults dir.new) (IsDirFault result) }
    ensures input { result ≢ Status.Device Which.Source }
    ensures output { IsCaused (K.faults out.old) (K.faults out.new) (result ≡ Status.Device Which.Sink) }
{
    match commit(alloc, dir, change) {
        Ok(None) => tell(alloc, out, outcome.status, outcome.text.as_slice()),
        Ok(Some(DirFail::Failed)) => tell_left_behind(alloc, out, outcome.text.as_slice()),
        Ok(Some(DirFail::OutOfMemory)) => Status::NoMemory,
        Err(fail) => given_up(fail),
    }
}

/// Does what an outcome says: it makes its effect, and then it prints its text and answers its status.
pub fn finish<D: Dir, K: Sink>(alloc: Global, outcome: &Outcome, dir: &mut D, out: &mut K) -> Status
    requires { IsAnswer outcome.now.status }
    ensures answers { Answers (λ due. due ≡ outcome.now) (Rose (D.faults dir.old) (D.faults dir.new))
        (record { files = D.files dir.old; taken = K.taken out.old }) (record { files = D.files dir.new; taken = K.taken out.new }) result }
    ensures asked { D.asked dir.new ≡ D.asked dir.old }
    ensures folder { IsCaused (D.faults dir.old) (D.faults dir.new) (IsDirFault result) }
    ensures input { result ≢ Status.Device Which.Source }
    ensures output { IsCaused (K.faults out.old) (K.faults out.new) (result ≡ Status.Device Which.Sink) }
{
    match &outcome.effect {
        Effect::Commit(change) => finish_commit(alloc, outcome, change, dir, out),
        Effect::Nothing => tell(alloc, out, outcome.status, outcome.text.as_slice()),
    }
}
