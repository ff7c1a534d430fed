//! The end of a command that stopped before it printed what it was asked for.
ghost use Rattle.std.specs.Prelude.{◌≡◌, ◌≢◌, ℕ};
ghost use Rattle.lu_dir.specs.Faults.{Rose, IsCaused};
ghost use Rattle.lu_outcomes.specs.Outcomes.{IsAnswer};
ghost use Rattle.lu_reads.specs.Checking.{Refuses};
ghost use Rattle.lu_outcomes.specs.Answers.{IsDirFault, Answers};
ghost use Rattle.lu_reads.specs.Stopping.{StopSays, IsSaidBy};

use crate::checking::refusal;
use lu_dir::{Dir, DirFail, Sink};
use lu_folder::FolderFault;
use lu_outcomes::finishing::{finish, given_up};
use lu_outcomes::outcome::Outcome;
use lu_outcomes::status::{Status, Which};
use lu_prims::OutOfMemory;
use std::alloc::Global;

/// Why a command does not print what it was asked for.
#[derive(Drop)]
pub enum Stop {
    /// This is due: something is said of the folder, or of a file of it.
    Said(Outcome),
    /// The folder failed, or there was no memory.
    Failed(DirFail),
}

impl From<OutOfMemory> for Stop {
    ghost use Rattle.std.specs.Prelude.{◌≡◌};
    ghost use Rattle.lu_dir.specs.declared.fail.DirFail.TheVariants.{OutOfMemory as no_memory};
    ghost use Rattle.lu_reads.specs.declared.stopping.Stop.TheVariants.{Failed};

    ghost from_gives = { λ _ stop. stop ≡ Failed no_memory };

    fn from(_error: OutOfMemory) -> Stop {
        Stop::Failed(DirFail::OutOfMemory)
    }
}

/// Why a command stops, by what was said of the folder, or of a file of it.
pub fn stopped_by(alloc: Global, fault: FolderFault) -> Stop
    ensures said { StopSays (Refuses fault) result }
    ensures failed { result ≡ Stop.Failed DirFail.Failed → fault ≡ FolderFault.Failed }
{
    match refusal(alloc, fault) {
        Ok(outcome) => Stop::Said(outcome),
        Err(fail) => Stop::Failed(fail),
    }
}

/// Answers where a command stopped: its outcome is told, or it is given up.
pub fn stopped<D: Dir, K: Sink>(alloc: Global, stop: &Stop, dir: &mut D, out: &mut K) -> Status
    requires { StopSays (λ outcome. IsAnswer outcome.status) stop.now }
    ensures answers { Answers (IsSaidBy stop.now) (Rose (D.faults dir.old) (D.faults dir.new))
        (record { files = D.files dir.old; taken = K.taken out.old }) (record { files = D.files dir.new; taken = K.taken out.new }) result }
    ensures asked { D.asked dir.new ≡ D.asked dir.old }
    ensures folder { (before : ℕ) → IsCaused before (D.faults dir.old) (stop.now ≡ Stop.Failed DirFail.Failed)
        → IsCaused before (D.faults dir.new) (IsDirFault result) }
    ensures input { result ≢ Status.Device Which.Source }
    ensures output { IsCaused (K.faults out.old) (K.faults out.new) (result ≡ Status.Device Which.Sink) }
{
    match stop {
        Stop::Said(outcome) => finish(alloc, outcome, dir, out),
        Stop::Failed(fail) => given_up(*fail),
    }
}
