//! An input and an output in memory that fail on demand.
ghost use Rattle.std.specs.Prelude.{◌≡◌, ◌++◌, length, drop, Some, Ok, Err, IfOk, OnOk, OnErr, IsErrOf, if◌then◌else◌};
ghost use Rattle.lu_dir.specs.Faults.{IsCaused};
ghost use Rattle.lu_dir.specs.Streams.{Moves, moved_count};
ghost use Rattle.lu_dir.specs.CallPlan.{is_due, IsPlannedCall};

use crate::call_plan::CallPlan;
use crate::fail::DirFail;
use crate::mem_stream::{MemSink, MemSource};
use crate::stream::{Sink, Source};
use std::alloc::Global;
use std::marker::Model;

/// An input in memory whose calls fail where they are to, seen as the input and the plan.
#[derive(Drop)]
pub struct FaultSource {
    source: MemSource,
    plan: CallPlan,
}

impl Model for FaultSource {
    ghost use Rattle.lu_dir.specs.CallPlan.{PlannedInput, planned_input_code};

    ghost Value = { PlannedInput };

    ghost coded = { planned_input_code };

    ghost view = { λ a. record { input = a.source; plan = a.plan } };
}

impl FaultSource {
    /// An input whose calls of these numbers fail, counted from 1.
    pub fn new(source: MemSource, fails: Vec<u64>) -> FaultSource
        ensures input { result.input ≡ source }
        ensures plan { result.plan ≡ record { fails = fails.items; calls = 0; faults = 0 } }
    {
        FaultSource {
            source,
            plan: CallPlan::new(fails),
        }
    }
}

impl Source for FaultSource {
    ghost left = { λ s. Some s.input.left };

    ghost faults = { λ s. s.plan.faults };

    fn read(&mut self, alloc: Global, buf: &mut [u8]) -> Result<usize, DirFail>
        ensures answer { result ≡ (if is_due self.old.plan then Err DirFail.Failed
            else Ok (moved_count self.old.input (length buf.old))) }
        ensures moved { IfOk result (λ count. Moves count self.old.input.left buf.old buf.new
            × (self.new.input ≡ record self.old.input { left = drop count self.old.input.left })) }
        ensures unmoved { OnErr result ((self.new.input ≡ self.old.input) × (buf.new ≡ buf.old)) }
        ensures planned { IsPlannedCall self.old.plan self.new.plan result }
        ensures cause { IsCaused self.old.plan.faults self.new.plan.faults (IsErrOf result DirFail.Failed) }
    {
        if self.plan.next_call() {
            return Err(self.plan.fail());
        }
        self.source.read(alloc, buf)
    }
}

/// An output in memory whose calls fail where they are to, seen as what it took and the plan.
#[derive(Drop)]
pub struct FaultSink {
    sink: MemSink,
    plan: CallPlan,
}

impl Model for FaultSink {
    ghost use Rattle.lu_dir.specs.CallPlan.{PlannedOutput, planned_output_code};

    ghost Value = { PlannedOutput };

    ghost coded = { planned_output_code };

    ghost view = { λ a. record { taken = a.sink; plan = a.plan } };
}

impl FaultSink {
    /// An output whose calls of these numbers fail, counted from 1.
    pub fn new(sink: MemSink, fails: Vec<u64>) -> FaultSink
        ensures taken { result.taken ≡ sink }
        ensures plan { result.plan ≡ record { fails = fails.items; calls = 0; faults = 0 } }
    {
        FaultSink {
            sink,
            plan: CallPlan::new(fails),
        }
    }

    /// What it took.
    pub fn bytes(&self) -> &[u8]
        ensures { result.now ≡ self.now.taken }
    {
        self.sink.bytes()
    }
}

impl Sink for FaultSink {
    ghost taken = { λ s. Some s.taken };

    ghost faults = { λ s. s.plan.faults };

    /// Takes the whole piece where it does not fail.
    fn write(&mut self, alloc: Global, bytes: &[u8]) -> Result<usize, DirFail>
        ensures whole { IfOk result (λ count. count ≡ length bytes.now) }
        ensures taken { OnOk result (self.new.taken ≡ self.old.taken ++ bytes.now) }
        ensures untaken { OnErr result (self.new.taken ≡ self.old.taken) }
        ensures planned { IsPlannedCall self.old.plan self.new.plan result }
        ensures cause { IsCaused self.old.plan.faults self.new.plan.faults (IsErrOf result DirFail.Failed) }
    {
        if self.plan.next_call() {
            return Err(self.plan.fail());
        }
        self.sink.write(alloc, bytes)
    }
}
