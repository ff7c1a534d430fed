//! A jump of the entries to a point that the skip data give, which the occurrences have yet to follow.
ghost use Rattle.std.specs.Prelude.{◌≡◌, ◌≤◌};
ghost use Rattle.freq_skips.specs.Points.{IsPoint};
ghost use Rattle.check_index.specs.Positions.{TermOccurrences};
ghost use Rattle.seg_reader.specs.InnerScan.{IsScan, HasJumped};
ghost use Rattle.seg_reader.specs.InnerBeside.{IsBeside};

use crate::beside::Beside;
use crate::scan::Scan;
use freq_skips::SkipPoint;

/// Goes on to a point of the term, where it is behind the entries that were read.
pub fn jump(scan: &mut Scan<'_>, beside: &mut Beside<'_>, point: &SkipPoint)
    requires scan { IsScan scan.old }
    requires interval { 2 ≤ scan.old.entries.term.rules.skip_interval }
    requires point { IsPoint scan.old.entries.term scan.old.entries.value point.now }
    ensures scan { IsScan scan.new }
    ensures jumped { HasJumped scan.old scan.new point.now }
    ensures occurrences { beside.new.occurrences ≡ beside.old.occurrences }
    ensures beside { (all : TermOccurrences)
        → IsBeside scan.old.entries.term scan.old.entries.value all scan.old.passed scan.old.passed scan.old.between beside.old
        → IsBeside scan.old.entries.term scan.old.entries.value all scan.new.passed scan.new.passed scan.new.between beside.new }
{
    if point.passed > scan.passed {
        scan.entries.jump(point);
        scan.passed = point.passed;
        scan.between = 0;
        beside.ahead = Some(*point);
    }
}
