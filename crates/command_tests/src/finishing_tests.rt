ghost use Rattle.std.specs.Prelude.{IfOk};
ghost use Rattle.lu_outcomes.specs.Outcomes.{IsAnswer};

use crate::check_tests::NONE;
use lu_command::{Effect, Outcome, Status, Which};
use lu_dir::{Fail as Failure, FaultDir, FaultSink, Left, MemDir, MemSink};
use lu_folder::Change;
use lu_outcomes::finishing::finish;
use lu_types::Bytes;
use segment_infos::read;
use std::alloc::Global;
use std::test::Fail;

const TEXT: &[u8] = b"commit 2: no segment\n";

const TEXT_AND_LINE: &[u8] = b"commit 2: no segment\nleft behind\n";

// A folder with a commit, and a file that nothing needs.
fn folder(alloc: Global) -> Result<MemDir, Fail> {
    let mut dir = MemDir::new(alloc);
    dir.put("segments_1", NONE)?;
    dir.put("_9.fdx", b"no use")?;
    Ok(dir)
}

// The outcome of a commit of generation 2, which leaves that file without use.
fn outcome(alloc: Global) -> Result<Outcome, Fail>
    ensures { IfOk result (λ outcome. IsAnswer outcome.status) }
{
    let mut removable = Vec::new(alloc);
    removable.push(String::from_str(alloc, "_9.fdx")?)?;
    let change = Change::new(alloc, Vec::new(alloc), 2, read(alloc, NONE)?, removable)?;
    Ok(Outcome {
        status: Status::Ok,
        text: Bytes::new(TEXT.to_vec(alloc)?),
        effect: Effect::Commit(change),
    })
}

// Calls: `create` and `sync` of the commit, `patch`, `sync`, and `remove`.
#[test]
fn a_commit_is_made_and_told(rt: HostRuntime) -> Result<(), Fail> {
    let device = Status::Device(Which::Dir);
    let rows: [(u64, Status, &[u8], bool, bool); 6] = [
        (0, Status::Ok, TEXT, true, true),
        (1, device, b"", false, false),
        (2, device, b"", false, false),
        (3, device, b"", false, false),
        (4, Status::LeftBehind, TEXT_AND_LINE, true, false),
        (5, Status::LeftBehind, TEXT_AND_LINE, true, false),
    ];
    for (call, status, text, made, removed) in rows {
        let left = Left::Before;
        let fails = [Failure { call, left }].to_vec(rt.alloc())?;
        let mut dir = FaultDir::new(folder(rt.alloc())?, fails, None);
        let mut sink = MemSink::new(rt.alloc());
        let answer = finish(rt.alloc(), &outcome(rt.alloc())?, &mut dir, &mut sink);
        let dir = dir.into_inner();
        assert_eq!(rt; answer, status, "{call}");
        assert_eq!(rt; sink.bytes(), text, "{call}");
        assert_eq!(rt; dir.get("segments_2") == Some(NONE), made, "{call}");
        assert_eq!(rt; dir.get("_9.fdx").is_none(), removed, "{call}");
    }
    Ok(())
}

#[test]
fn a_failed_print_is_answered_behind_a_commit(rt: HostRuntime) -> Result<(), Fail> {
    for (call, taken) in [(1, b"".as_slice()), (2, TEXT)] {
        let left = Left::Before;
        let fails = [Failure { call: 5, left }].to_vec(rt.alloc())?;
        let mut dir = FaultDir::new(folder(rt.alloc())?, fails, None);
        let mut sink = FaultSink::new(MemSink::new(rt.alloc()), [call].to_vec(rt.alloc())?);
        let answer = finish(rt.alloc(), &outcome(rt.alloc())?, &mut dir, &mut sink);
        assert_eq!(rt; answer, Status::Device(Which::Sink), "{call}");
        assert_eq!(rt; sink.bytes(), taken, "{call}");
        assert_eq!(rt; dir.into_inner().get("segments_2"), Some(NONE), "{call}");
    }
    Ok(())
}
