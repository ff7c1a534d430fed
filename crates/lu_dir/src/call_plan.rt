//! Which calls of an input or an output fail.
ghost use Rattle.std.specs.Prelude.{◌≡◌};
ghost use Rattle.lu_dir.specs.Faults.{Rose};
ghost use Rattle.lu_dir.specs.Planned.{next_count};
ghost use Rattle.lu_dir.specs.CallPlan.{is_due};

use crate::fail::DirFail;
use crate::fault_count::FaultCount;
use std::marker::Model;

/// The calls that are to fail, counted from 1, how many were made, and how many failed.
#[derive(Drop)]
pub struct CallPlan {
    fails: Vec<u64>,
    calls: u64,
    faults: FaultCount,
}

impl Model for CallPlan {
    ghost use Rattle.lu_dir.specs.CallPlan.{PlannedCalls, plan_code};

    ghost Value = { PlannedCalls };

    ghost coded = { plan_code };

    ghost view = { λ a. record { fails = a.fails.items; calls = a.calls; faults = a.faults } };
}

impl CallPlan {
    /// A plan of which no call was made yet.
    pub fn new(fails: Vec<u64>) -> CallPlan
        ensures { result ≡ record { fails = fails.items; calls = 0; faults = 0 } }
    {
        CallPlan {
            fails,
            calls: 0,
            faults: FaultCount::new(),
        }
    }

    /// Counts a call, and says whether it is to fail.
    pub fn next_call(&mut self) -> bool
        ensures due { result ≡ is_due self.old }
        ensures counted { self.new ≡ record self.old { calls = next_count self.old.calls } }
    {
        self.calls = self.calls.saturating_add(1);
        let call = self.calls;
        self.fails.iter().any(|fail| *fail == call)
    }

    /// Counts a failure.
    pub fn fail(&mut self) -> DirFail
        ensures answer { result ≡ DirFail.Failed }
        ensures counted { self.new ≡ record self.old { faults = next_count self.old.faults } }
        ensures rose { Rose self.old.faults self.new.faults }
    {
        self.faults.rise()
    }
}
