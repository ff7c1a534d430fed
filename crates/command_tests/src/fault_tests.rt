//! Failed calls of the commands that commit: whichever call fails, the folder reads as before or as the new commit.
use crate::build_tests::{HELLO, building, expect_call};
use crate::check_tests::{FILES, NONE, ONE};
use crate::delete_tests::DELETED;
use crate::run_tests::expect;
use crate::words_tests::words_of;
use lu_command::{Status, Which, run};
use lu_dir::{
    Dir, Fail as Failure, FaultDir, FaultSink, FaultSource, Left, MemDir, MemSink, MemSource,
};
use lu_folder::current;
use std::alloc::{AllocError, Global};
use std::process::Abort;
use std::test::Fail;

const FAILED: Status = Status::Device(Which::Dir);

/// What `check` says of a second commit without segments.
const EMPTY_STANDS: &str = "segments_2 stands: 0 segments, 0 documents, 0 deleted\n";

/// A call that makes a second commit, and the folder before and after it.
#[derive(Clone, Copy)]
struct Change {
    line: &'static str,
    input: &'static str,
    /// The commit before, and the files of its segment.
    commit: &'static [u8],
    files: &'static [(&'static str, &'static [u8])],
    /// The files that the new commit brings, those of a new segment by the names that they have in the first one.
    brings: &'static [(&'static str, &'static [u8])],
    /// What `check` says of the new commit.
    stands: &'static str,
    /// The first call of the folder that is not made.
    first_unmade: u64,
}

/// One document is built: `enter`, `list`, two calls for the commit, two for each of eleven new files, four for the new commit, and
/// two removals.
const BUILD: Change = Change {
    line: "build d",
    input: HELLO,
    commit: NONE,
    files: &[],
    brings: &FILES,
    stands: "segments_2 stands: 1 segments, 1 documents, 0 deleted\n",
    first_unmade: 33,
};

/// One document is deleted: `enter`, `list`, two calls for the commit, two for each of eleven files of its segment, two for the new
/// file, four for the new commit, and two removals.
const DELETE: Change = Change {
    line: "delete d body world",
    input: "",
    commit: ONE,
    files: &FILES,
    brings: &[("_0_1.del", DELETED)],
    stands: "segments_2 stands: 1 segments, 1 documents, 1 deleted\n",
    first_unmade: 35,
};

/// The segment of one document is merged: `enter`, `list`, two calls for the commit, two for each of its eleven files and two for
/// each of eleven new ones, four for the new commit, and thirteen removals.
const MERGE: Change = Change {
    line: "merge d",
    input: "",
    commit: ONE,
    files: &FILES,
    brings: &FILES,
    stands: "segments_2 stands: 1 segments, 1 documents, 0 deleted\n",
    first_unmade: 66,
};

/// More calls than any of them makes.
const MORE_CALLS: u64 = 100;

/// All of them.
const CHANGES: [Change; 3] = [BUILD, DELETE, MERGE];

// The folder before, with a file besides that nothing needs.
fn folder(alloc: Global, change: &Change) -> Result<MemDir, Fail> {
    let mut dir = MemDir::new(alloc);
    for (name, bytes) in change.files {
        dir.put(name, bytes)?;
    }
    dir.put("segments_1", change.commit)?;
    dir.put("_9.fdx", b"no use")?;
    Ok(dir)
}

// What the call answers in this folder.
fn answer_of<D: Dir>(alloc: Global, change: &Change, dir: &mut D) -> Result<Status, AllocError> {
    let words = words_of(alloc, change.line)?;
    let mut source = MemSource::new(change.input.as_bytes().to_vec(alloc)?, 50);
    let mut sink = MemSink::new(alloc);
    Ok(run(alloc, words.as_slice(), dir, &mut source, &mut sink))
}

// The generation of the commit as which the folder reads.
fn current_generation(alloc: Global, dir: &mut MemDir) -> Result<u64, Fail> {
    let names = match dir.list(alloc) {
        Ok(names) => names,
        Err(_) => return Err(Fail::from("not listed")),
    };
    match current(alloc, dir, names.as_slice()) {
        Ok(chosen) => Ok(chosen.generation),
        Err(_) => Err(Fail::from("no commit")),
    }
}

// The name of a file of the first segment as it is in the new one, whose number is above that of the file without use.
fn new_name(name: &str) -> &'static str {
    match name {
        "_0.fnm" => "_a.fnm",
        "_0.fdx" => "_a.fdx",
        "_0.fdt" => "_a.fdt",
        "_0.tis" => "_a.tis",
        "_0.tii" => "_a.tii",
        "_0.frq" => "_a.frq",
        "_0.prx" => "_a.prx",
        "_0.nrm" => "_a.nrm",
        "_0.tvx" => "_a.tvx",
        "_0.tvd" => "_a.tvd",
        "_0.tvf" => "_a.tvf",
        "_0_1.del" => "_0_1.del",
        _ => "",
    }
}

// Whether every file is as it was before.
fn expect_before<R: Abort>(rt: &R, change: &Change, dir: &MemDir) {
    for (name, bytes) in change.files {
        assert_eq!(rt; dir.get(name), Some(*bytes), "{name}");
    }
    assert_eq!(rt; dir.get("segments_1"), Some(change.commit));
    assert_eq!(rt; dir.get("_9.fdx"), Some(b"no use".as_slice()));
}

// Judges the folder after an answer: it reads as the new commit, whose files are whole, or every file is as before.
fn judge<R: Abort + AllocGlobal>(
    rt: &R,
    change: &Change,
    answer: Status,
    dir: &mut MemDir,
) -> Result<(), Fail> {
    let generation = current_generation(rt.alloc(), dir)?;
    assert!(rt; generation == 2 || (generation == 1 && answer == FAILED));
    if generation == 2 {
        for (name, bytes) in change.brings {
            assert_eq!(rt; dir.get(new_name(name)), Some(*bytes), "{name}");
        }
        expect(rt, "check d", dir, 0, change.stands)?;
    }
    if answer == FAILED {
        expect_before(rt, change, dir);
    }
    Ok(())
}

// Lets each call fail in turn, which then leaves this, and judges the folder; answers the first call that is not made.
fn failing_calls<R: Abort + AllocGlobal>(rt: &R, change: &Change, left: Left) -> Result<u64, Fail> {
    for call in 1..MORE_CALLS {
        let fails = [Failure { call, left }].to_vec(rt.alloc())?;
        let mut dir = FaultDir::new(folder(rt.alloc(), change)?, fails, None);
        let answer = answer_of(rt.alloc(), change, &mut dir)?;
        let mut dir = dir.into_inner();
        judge(rt, change, answer, &mut dir)?;
        if answer == Status::Ok {
            return Ok(call);
        }
    }
    Err(Fail::from("calls without end"))
}

#[test]
fn each_failed_call_leaves_the_old_commit_or_the_new_one(rt: HostRuntime) -> Result<(), Fail> {
    for change in CHANGES {
        for left in [
            Left::Before,
            Left::Absent,
            Left::Prefix(0),
            Left::Prefix(3),
            Left::Prefix(1000),
        ] {
            let unmade = failing_calls(&rt, &change, left)?;
            assert_eq!(rt; unmade, change.first_unmade, "{}", change.line);
        }
    }
    Ok(())
}

// Lets the device stop at each call in turn, and judges the folder.
fn stopping_calls<R: Abort + AllocGlobal>(rt: &R, change: &Change) -> Result<(), Fail> {
    for call in 1..change.first_unmade {
        let before = folder(rt.alloc(), change)?;
        let mut dir = FaultDir::new(before, Vec::new(rt.alloc()), Some(call));
        let answer = answer_of(rt.alloc(), change, &mut dir)?;
        assert!(rt; answer != Status::Ok, "{call}");
        judge(rt, change, answer, &mut dir.into_inner())?;
    }
    Ok(())
}

#[test]
fn a_device_that_stops_leaves_the_old_commit_or_the_new_one(rt: HostRuntime) -> Result<(), Fail> {
    for change in CHANGES {
        stopping_calls(&rt, &change)?;
    }
    Ok(())
}

#[test]
fn a_failed_read_of_the_input_leaves_the_folder(rt: HostRuntime) -> Result<(), Fail> {
    let words = words_of(rt.alloc(), BUILD.line)?;
    for read in 1..6 {
        let source = MemSource::new(HELLO.as_bytes().to_vec(rt.alloc())?, 40);
        let mut source = FaultSource::new(source, [read].to_vec(rt.alloc())?);
        let mut sink = MemSink::new(rt.alloc());
        let mut dir = folder(rt.alloc(), &BUILD)?;
        let answer = run(
            rt.alloc(),
            words.as_slice(),
            &mut dir,
            &mut source,
            &mut sink,
        );
        assert_eq!(rt; answer, Status::Device(Which::Source), "{read}");
        assert!(rt; sink.bytes().is_empty(), "{read}");
        assert!(rt; dir.get("segments_2").is_none(), "{read}");
        expect_before(&rt, &BUILD, &dir);
    }
    Ok(())
}

#[test]
fn a_failed_write_is_answered_behind_the_commit(rt: HostRuntime) -> Result<(), Fail> {
    for change in CHANGES {
        let words = words_of(rt.alloc(), change.line)?;
        let mut source = MemSource::new(change.input.as_bytes().to_vec(rt.alloc())?, 50);
        let mut sink = FaultSink::new(MemSink::new(rt.alloc()), [1].to_vec(rt.alloc())?);
        let mut dir = folder(rt.alloc(), &change)?;
        let answer = run(
            rt.alloc(),
            words.as_slice(),
            &mut dir,
            &mut source,
            &mut sink,
        );
        assert_eq!(rt; answer, Status::Device(Which::Sink));
        expect(&rt, "check d", &mut dir, 0, change.stands)?;
        assert!(rt; dir.get("_9.fdx").is_none());
    }
    Ok(())
}

/// A call that fails while a commit without segments is made.
#[derive(Clone, Copy)]
struct Row {
    call: u64,
    left: Left,
    code: u8,
    text: &'static str,
    check: &'static str,
}

// Lets the call of the row fail in this folder, and looks at the answer and at what `check` then says.
fn expect_row<R: Abort + AllocGlobal>(rt: &R, row: &Row, folder: MemDir) -> Result<MemDir, Fail> {
    let fails = [Failure {
        call: row.call,
        left: row.left,
    }]
    .to_vec(rt.alloc())?;
    let mut dir = FaultDir::new(folder, fails, None);
    expect_call(rt, building(""), &mut dir, row.code, row.text)?;
    let mut dir = dir.into_inner();
    let code = if row.check.starts_with("fault") { 1 } else { 0 };
    expect(rt, "check d", &mut dir, code, row.check)?;
    Ok(dir)
}

const BEHIND: &str = "commit 2: no segment\nleft behind\n";

// Calls: `enter`, `list`, the length and the bytes of the commit, `create` and `sync`, `patch` and `sync`, `remove`.
#[test]
fn each_failed_call_behind_a_commit_is_told(rt: HostRuntime) -> Result<(), Fail> {
    let rows = [
        Row {
            call: 5,
            left: Left::Prefix(10),
            code: 4,
            text: "",
            check: "fault segments_2 0 1 Ends\n",
        },
        Row {
            call: 7,
            left: Left::Prefix(8),
            code: 4,
            text: "",
            check: EMPTY_STANDS,
        },
        Row {
            call: 8,
            left: Left::Before,
            code: 7,
            text: BEHIND,
            check: EMPTY_STANDS,
        },
        Row {
            call: 9,
            left: Left::Before,
            code: 7,
            text: BEHIND,
            check: EMPTY_STANDS,
        },
    ];
    for row in rows {
        let mut dir = MemDir::new(rt.alloc());
        dir.put("segments_1", NONE)?;
        let dir = expect_row(&rt, &row, dir)?;
        assert_eq!(rt; dir.get("segments_1"), Some(NONE), "{}", row.call);
    }
    Ok(())
}

// Calls: `enter`, `list`, `create` and `sync`, `patch` and `sync`.
#[test]
fn each_failed_call_in_an_empty_folder_is_told(rt: HostRuntime) -> Result<(), Fail> {
    let cut = "fault segments_1 24 27 Checksum\n";
    let stands = "segments_1 stands: 0 segments, 0 documents, 0 deleted\n";
    let behind = "commit 1: no segment\nleft behind\n";
    let rows = [
        Row {
            call: 4,
            left: Left::Prefix(8),
            code: 4,
            text: "",
            check: cut,
        },
        Row {
            call: 5,
            left: Left::Prefix(7),
            code: 4,
            text: "",
            check: cut,
        },
        Row {
            call: 6,
            left: Left::Before,
            code: 7,
            text: behind,
            check: stands,
        },
    ];
    for row in rows {
        expect_row(&rt, &row, MemDir::new(rt.alloc()))?;
    }
    Ok(())
}

#[test]
fn a_failed_removal_leaves_one_file_behind(rt: HostRuntime) -> Result<(), Fail> {
    let mut dir = MemDir::new(rt.alloc());
    let (cut, _) = NONE.split_at(31);
    dir.put("segments_4", NONE)?;
    dir.put("segments_5", cut)?;
    let row = Row {
        call: 11,
        left: Left::Before,
        code: 7,
        text: "commit 6: no segment\nleft behind\n",
        check: "segments_6 stands: 0 segments, 0 documents, 0 deleted\n",
    };
    let dir = expect_row(&rt, &row, dir)?;
    assert!(rt; dir.get("segments_4").is_some() != dir.get("segments_5").is_some());
    Ok(())
}
