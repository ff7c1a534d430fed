//! The entries of a term, read in order up to one that may be answered.
ghost use Rattle.std.specs.Prelude.{◌≡◌, ◌+◌, ◌≤◌, not, ◌&&◌, MatchOption};
ghost use Rattle.doc_marks.specs.Marking.{is_in};
ghost use Rattle.seg_reader.specs.InnerScan.{may_stop, IsScan, HasRead, IsFound, IsEnded};

use doc_marks::LiveWalk;
use freq_skips::{Entries, Entry};
use lu_prims::Steps;

/// The entries of a term in order: beside them the documents that are passed over, how many entries are read, and how many
/// occurrences those entries have that were read since the last jump of the occurrences.
#[derive(Drop)]
pub struct Scan<'a> {
    pub entries: Entries<'a>,
    pub live: LiveWalk<'a>,
    pub passed: u32,
    pub between: u64,
}

/// Whether the document of the entry that was read may be answered.
fn stops_at(live: &mut LiveWalk<'_>, target: u32, document: u32) -> bool
    requires { live.old.from ≤ document }
    ensures stops { result ≡ may_stop live.old.documents target document }
    ensures documents { live.new.documents ≡ live.old.documents }
    ensures asked { live.new.from ≤ document }
{
    if document < target {
        return false;
    }
    live.is_live(document)
}

impl<'a> Scan<'a> {
    /// Reads entries up to the first whose document is not below the target, and is not passed over; `None` where there is none.
    /// Costs a step for each entry, and one at the end.
    pub fn first_from<L>(&mut self, target: u32, steps: &mut Steps<L>) -> Option<Entry>
        requires { IsScan self.old }
        ensures scan { IsScan self.new }
        ensures read { HasRead self.old self.new }
        ensures entry { MatchOption result (IsEnded target self.old self.new) (λ e. IsFound target self.old self.new e) }
        ensures steps { MatchOption result (steps.new + self.old.passed ≤ steps.old + self.new.passed + 1)
            (λ _. steps.new + self.old.passed ≤ steps.old + self.new.passed) }
    {
        while let Some(entry) = self.entries.next(steps) {
            self.passed += 1;
            self.between += u64::from(entry.freq);
            if stops_at(&mut self.live, target, entry.doc) {
                return Some(entry);
            }
        }
        None
    }
}
