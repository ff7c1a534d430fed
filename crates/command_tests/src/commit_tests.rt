use crate::choosing_tests::NONE;
use lu_dir::{Dir, DirFail, Fail as Failure, FaultDir, Left, MemDir};
use lu_folder::{Change, NewFile, commit, current};
use lu_types::{Bytes, Text};
use segment_infos::read;
use std::alloc::Global;
use std::process::Abort;
use std::test::Fail;

// What a failed call is to leave.
const LEAVINGS: [Left; 6] = [
    Left::Before,
    Left::Absent,
    Left::Prefix(0),
    Left::Prefix(1),
    Left::Prefix(7),
    Left::Prefix(1000),
];

// The call that makes the commit, and the last one, which removes.
const PATCH: u64 = 7;

const LAST: u64 = 9;

// A folder with a commit, a file that it needs, and one that nothing needs.
fn folder(alloc: Global) -> Result<MemDir, Fail> {
    let mut dir = MemDir::new(alloc);
    dir.put("segments_1", NONE)?;
    dir.put("_0.fnm", b"old")?;
    dir.put("_9.fdx", b"no use")?;
    Ok(dir)
}

fn file(alloc: Global, name: &str, bytes: &[u8]) -> Result<NewFile, Fail> {
    Ok(NewFile {
        name: Text::new(String::from_str(alloc, name)?),
        bytes: Bytes::new(bytes.to_vec(alloc)?),
    })
}

// Two new files and a commit of generation 2, which leaves a file without use.
fn change(alloc: Global) -> Result<Change, Fail> {
    let mut files = Vec::new(alloc);
    files.push(file(alloc, "_1.fnm", b"abc")?)?;
    files.push(file(alloc, "_1.fdx", b"defg")?)?;
    let mut removable = Vec::new(alloc);
    removable.push(String::from_str(alloc, "_9.fdx")?)?;
    let commit = read(alloc, NONE)?;
    Ok(Change::new(alloc, files, 2, commit, removable)?)
}

// What a commit answers, and what is in the folder then.
#[derive(Drop)]
struct Ended {
    answer: Result<Option<DirFail>, DirFail>,
    dir: MemDir,
    generation: u64,
}

// The commit, where one call fails and leaves this, or each call from one on fails.
fn after(alloc: Global, call: u64, left: Left, stop: Option<u64>) -> Result<Ended, Fail> {
    let fails = [Failure { call, left }].to_vec(alloc)?;
    let mut failing = FaultDir::new(folder(alloc)?, fails, stop);
    let answer = commit(alloc, &mut failing, &change(alloc)?);
    let mut dir = failing.into_inner();
    let names = dir.list(alloc)?;
    let generation = match current(alloc, &mut dir, &names) {
        Ok(chosen) => chosen.generation,
        Err(_) => 0,
    };
    Ok(Ended {
        answer,
        dir,
        generation,
    })
}

// Asserts that the folder reads as before, or as the new commit with its whole files.
fn reads_as(rt: &impl Abort, after: &Ended, generation: u64) {
    assert_eq!(rt; after.generation, generation);
    assert_eq!(rt; after.dir.get("segments_1"), Some(NONE));
    assert_eq!(rt; after.dir.get("_0.fnm"), Some(b"old".as_slice()));
    if generation == 2 {
        assert_eq!(rt; after.dir.get("segments_2"), Some(NONE));
        assert_eq!(rt; after.dir.get("_1.fnm"), Some(b"abc".as_slice()));
        assert_eq!(rt; after.dir.get("_1.fdx"), Some(b"defg".as_slice()));
    } else {
        assert!(rt; after.dir.get("_9.fdx").is_some());
    }
}

#[test]
fn a_commit_is_made(rt: HostRuntime) -> Result<(), Fail> {
    let made = after(rt.alloc(), 0, Left::Before, None)?;
    assert_eq!(rt; made.answer, Ok(None));
    reads_as(&rt, &made, 2);
    assert_eq!(rt; made.dir.get("_9.fdx"), None);
    Ok(())
}

// A call before the one that makes the commit fails.
fn unmade(rt: &impl Abort, alloc: Global, call: u64) -> Result<(), Fail> {
    for left in LEAVINGS {
        let stopped = after(alloc, call, left, None)?;
        assert_eq!(rt; stopped.answer, Err(DirFail::Failed), "{call} {left:?}");
        reads_as(rt, &stopped, 1);
    }
    Ok(())
}

#[test]
fn a_failure_before_the_seal_leaves_the_old_commit(rt: HostRuntime) -> Result<(), Fail> {
    for call in 1..PATCH {
        unmade(&rt, rt.alloc(), call)?;
    }
    Ok(())
}

#[test]
fn a_failed_seal_leaves_the_old_commit_or_the_new_one(rt: HostRuntime) -> Result<(), Fail> {
    for left in LEAVINGS {
        let stopped = after(rt.alloc(), PATCH, left, None)?;
        let generation = if left == Left::Prefix(1000) { 2 } else { 1 };
        assert_eq!(rt; stopped.answer, Err(DirFail::Failed), "{left:?}");
        reads_as(&rt, &stopped, generation);
        assert!(rt; stopped.dir.get("_9.fdx").is_some(), "{left:?}");
    }
    Ok(())
}

#[test]
fn a_failure_behind_the_seal_leaves_the_new_commit(rt: HostRuntime) -> Result<(), Fail> {
    for left in LEAVINGS {
        let waited = after(rt.alloc(), PATCH + 1, left, None)?;
        assert_eq!(rt; waited.answer, Ok(Some(DirFail::Failed)), "{left:?}");
        reads_as(&rt, &waited, 2);
        let swept = after(rt.alloc(), LAST, left, None)?;
        assert_eq!(rt; swept.answer, Ok(Some(DirFail::Failed)), "{left:?}");
        reads_as(&rt, &swept, 2);
        let gone = left == Left::Absent;
        assert_eq!(rt; swept.dir.get("_9.fdx").is_none(), gone, "{left:?}");
    }
    Ok(())
}

#[test]
fn a_device_that_stays_away_leaves_one_commit(rt: HostRuntime) -> Result<(), Fail> {
    for first in 1..LAST + 1 {
        let stopped = after(rt.alloc(), 0, Left::Before, Some(first))?;
        let generation = if first <= PATCH { 1 } else { 2 };
        assert_eq!(rt; stopped.answer.is_err(), first <= PATCH, "{first}");
        reads_as(&rt, &stopped, generation);
    }
    Ok(())
}
