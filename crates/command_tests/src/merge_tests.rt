//! What `merge` makes of folders.
use crate::build_tests::{HELLO, building, expect_call, last_version};
use crate::check_tests::{FILES, NONE};
use crate::run_tests::expect;
use lu_dir::{Dir, MemDir};
use segment_infos::{SegInfo, read};
use std::alloc::{AllocError, Global};
use std::process::Abort;
use std::test::Fail;

/// The listing of one document that is left of three.
const LEFT_LISTING: &str = "segment 0 1 0\n\
    field 0 01 \"f\"\n\
    field 1 01 \"g\"\n\
    doc 0 live\n\
    term 0 \"z\" 1\n\
    in 0 1 @0\n\
    norms 0 7c\n\
    norms 1 7c\n";

// What calls without an input print in turn, where all of them are done.
fn expect_rows<R: Abort + AllocGlobal>(
    rt: &R,
    rows: &[(&str, &str)],
    dir: &mut MemDir,
) -> Result<(), AllocError> {
    for (line, text) in rows {
        expect(rt, line, dir, 0, text)?;
    }
    Ok(())
}

// The names of the files that are there, one space apart, in order.
fn names(alloc: Global, dir: &mut MemDir) -> Result<String, Fail> {
    let mut found = match dir.list(alloc) {
        Ok(found) => found,
        Err(_) => return Err(Fail::from("not listed")),
    };
    found.sort_unstable();
    let mut text = String::new(alloc);
    for name in found.as_slice() {
        if !text.is_empty() {
            text.push_str(" ")?;
        }
        text.push_str(name.as_str())?;
    }
    Ok(text)
}

#[test]
fn live_documents_are_merged_under_joined_fields(rt: HostRuntime) -> Result<(), Fail> {
    let mut dir = MemDir::new(rt.alloc());
    let one = "{\"indexed\":[{\"field\":\"f\",\"text\":\"x\"}]}";
    let two =
        "{\"indexed\":[{\"field\":\"g\",\"text\":\"y\"},{\"field\":\"f\",\"text\":\"x z\"}]}\n\
        {\"indexed\":[{\"field\":\"f\",\"text\":\"z\"}]}\n";
    for (input, text) in [
        (one, "commit 1: _0 with 1 documents\n"),
        (two, "commit 2: _1 with 2 documents\n"),
    ] {
        expect_call(&rt, building(input), &mut dir, 0, text)?;
    }
    let rows = [
        ("delete d f x", "commit 3: 2 documents deleted\n"),
        ("delete d f x", "commit 4: 0 documents deleted\n"),
        (
            "check d",
            "segments_4 stands: 2 segments, 3 documents, 2 deleted\n",
        ),
        ("merge d", "commit 5: _2 with 1 documents\n"),
        ("show d", LEFT_LISTING),
        (
            "check d",
            "segments_5 stands: 1 segments, 1 documents, 0 deleted\n",
        ),
        ("merge d --compound", "commit 6: _3 with 1 documents\n"),
        ("show d", LEFT_LISTING),
    ];
    expect_rows(&rt, &rows, &mut dir)?;
    assert_eq!(rt; names(rt.alloc(), &mut dir)?.as_str(), "_3.cfs segments_6");
    Ok(())
}

// Looks at what a commit tells of a segment: that a merge made it, and no more.
fn expect_merged<R: Abort>(rt: &R, segment: &SegInfo) {
    assert_eq!(rt; segment.diagnostics.as_slice().len(), 1);
    for pair in segment.diagnostics.as_slice() {
        assert_eq!(rt; pair.key.as_str(), "source");
        assert_eq!(rt; pair.value.as_str(), "merge");
    }
}

#[test]
fn one_segment_is_merged_into_the_same_files(rt: HostRuntime) -> Result<(), Fail> {
    let mut dir = MemDir::new(rt.alloc());
    let text = "commit 1: _0 with 1 documents\n";
    expect_call(&rt, building(HELLO), &mut dir, 0, text)?;
    expect(
        &rt,
        "merge d",
        &mut dir,
        0,
        "commit 2: _1 with 1 documents\n",
    )?;
    for (name, bytes) in FILES {
        let Some((_, part)) = name.split_at_checked(2) else {
            return Err(Fail::from("no name of a file of a segment"));
        };
        let merged = format!(in rt.alloc(); "_1{part}")?;
        assert_eq!(rt; dir.get(merged.as_str()), Some(bytes), "{name}");
        assert!(rt; dir.get(name).is_none(), "{name}");
    }
    let Some(bytes) = dir.get("segments_2") else {
        return Err(Fail::from("no file of the commit"));
    };
    let commit = match read(rt.alloc(), bytes) {
        Ok(commit) => commit,
        Err(_) => return Err(Fail::from("no commit")),
    };
    assert_eq!(rt; commit.version, 2);
    assert_eq!(rt; commit.counter, 2);
    assert_eq!(rt; commit.segments.as_slice().len(), 1);
    for segment in commit.segments.as_slice() {
        expect_merged(&rt, segment);
    }
    Ok(())
}

#[test]
fn a_folder_without_a_commit_has_nothing_to_merge(rt: HostRuntime) -> Result<(), Fail> {
    let mut dir = MemDir::new(rt.alloc());
    expect(&rt, "merge d", &mut dir, 6, "no index\n")?;
    Ok(())
}

#[test]
fn a_commit_without_segments_stays_one(rt: HostRuntime) -> Result<(), Fail> {
    let mut dir = MemDir::new(rt.alloc());
    expect_call(&rt, building(""), &mut dir, 0, "commit 1: no segment\n")?;
    let rows = [
        ("merge d", "commit 2: no segment\n"),
        (
            "check d",
            "segments_2 stands: 0 segments, 0 documents, 0 deleted\n",
        ),
    ];
    expect_rows(&rt, &rows, &mut dir)?;
    Ok(())
}

#[test]
fn where_no_document_is_live_no_segment_is_left(rt: HostRuntime) -> Result<(), Fail> {
    let mut dir = MemDir::new(rt.alloc());
    let text = "commit 1: _0 with 1 documents\n";
    expect_call(&rt, building(HELLO), &mut dir, 0, text)?;
    dir.put("_zik0zi.fdx", &[])?;
    let rows = [
        ("delete d body world", "commit 2: 1 documents deleted\n"),
        ("merge d --compound", "commit 3: no segment\n"),
        (
            "check d",
            "segments_3 stands: 0 segments, 0 documents, 0 deleted\n",
        ),
    ];
    expect_rows(&rt, &rows, &mut dir)?;
    assert_eq!(rt; names(rt.alloc(), &mut dir)?.as_str(), "segments_3");
    Ok(())
}

#[test]
fn a_segment_that_does_not_stand_is_not_merged(rt: HostRuntime) -> Result<(), Fail> {
    let mut dir = MemDir::new(rt.alloc());
    let text = "commit 1: _0 with 1 documents\n";
    expect_call(&rt, building(HELLO), &mut dir, 0, text)?;
    dir.put("_0.frq", &[])?;
    dir.put("_zik0zi.fdx", &[])?;
    expect(&rt, "merge d", &mut dir, 1, "fault _0.frq 0 1 Ends\n")?;
    assert!(rt; dir.get("segments_1").is_some());
    Ok(())
}

#[test]
fn no_number_is_left_for_a_merge(rt: HostRuntime) -> Result<(), Fail> {
    let version = last_version(rt.alloc())?;
    let rows: [(&str, &[u8], &str); 2] = [
        ("segments_1y2p0ij32e8e7", NONE, "refused: GenerationFull\n"),
        ("segments_1", version.as_slice(), "refused: VersionFull\n"),
    ];
    for (name, bytes, text) in rows {
        let mut dir = MemDir::new(rt.alloc());
        dir.put(name, bytes)?;
        expect(&rt, "merge d", &mut dir, 3, text)?;
        assert_eq!(rt; names(rt.alloc(), &mut dir)?.as_str(), name);
    }
    let mut dir = MemDir::new(rt.alloc());
    let text = "commit 1: _0 with 1 documents\n";
    expect_call(&rt, building(HELLO), &mut dir, 0, text)?;
    dir.put("_zik0zi.fdx", &[])?;
    expect(&rt, "merge d", &mut dir, 3, "refused: CounterFull\n")?;
    assert!(rt; dir.get("segments_1").is_some());
    Ok(())
}
