//! What `show` prints of folders.
use crate::build_tests::{HELLO, building, expect_call};
use crate::check_tests::{NONE, ONE};
use crate::run_tests::expect;
use lu_dir::MemDir;
use std::test::Fail;

/// The listing of the same document where its segment has no vectors.
pub(crate) const PLAIN_LISTING: &str = "segment 0 1 0\n\
    field 0 10 \"title\"\n\
    field 1 0f \"body\"\n\
    doc 0 live\n\
    stored 0 1 text \"hello world\"\n\
    term 1 \"hello\" 1\n\
    in 0 1 @0\n\
    term 1 \"world\" 1\n\
    in 0 1 @1\n\
    norms 1 7c\n";

/// The listing of one document that stores a title, and is found by two words of its body (format page, "Printed texts").
const HELLO_LISTING: &str = "segment 0 1 0\n\
    field 0 10 \"title\"\n\
    field 1 0f \"body\"\n\
    doc 0 live\n\
    stored 0 1 text \"hello world\"\n\
    vector 1 3\n\
    vterm \"hello\" 1 @0 0-5\n\
    vterm \"world\" 1 @1 6-11\n\
    term 1 \"hello\" 1\n\
    in 0 1 @0\n\
    term 1 \"world\" 1\n\
    in 0 1 @1\n\
    norms 1 7c\n";

#[test]
fn a_segment_is_listed(rt: HostRuntime) -> Result<(), Fail> {
    let mut dir = MemDir::new(rt.alloc());
    let text = "commit 1: _0 with 1 documents\n";
    expect_call(&rt, building(HELLO), &mut dir, 0, text)?;
    expect(&rt, "show d", &mut dir, 0, HELLO_LISTING)?;
    Ok(())
}

#[test]
fn a_folder_without_a_commit_has_no_index(rt: HostRuntime) -> Result<(), Fail> {
    let mut dir = MemDir::new(rt.alloc());
    expect(&rt, "show d", &mut dir, 6, "no index\n")?;
    Ok(())
}

#[test]
fn a_commit_without_segments_has_no_lines(rt: HostRuntime) -> Result<(), Fail> {
    let mut dir = MemDir::new(rt.alloc());
    dir.put("segments_4", NONE)?;
    expect(&rt, "show d", &mut dir, 0, "")?;
    Ok(())
}

#[test]
fn a_commit_that_was_cut_is_passed_over_by_show(rt: HostRuntime) -> Result<(), Fail> {
    let mut dir = MemDir::new(rt.alloc());
    let (cut, _) = NONE.split_at(31);
    dir.put("segments_4", NONE)?;
    dir.put("segments_5", cut)?;
    expect(&rt, "show d", &mut dir, 0, "")?;
    Ok(())
}

#[test]
fn a_fault_is_all_that_is_printed(rt: HostRuntime) -> Result<(), Fail> {
    let mut dir = MemDir::new(rt.alloc());
    dir.put("segments_1", ONE)?;
    expect(&rt, "show d", &mut dir, 1, "fault _0.fnm 0 5 Missing\n")?;
    Ok(())
}

#[test]
fn a_fault_of_a_later_segment_comes_before_any_line(rt: HostRuntime) -> Result<(), Fail> {
    let mut dir = MemDir::new(rt.alloc());
    for text in [
        "commit 1: _0 with 1 documents\n",
        "commit 2: _1 with 1 documents\n",
    ] {
        expect_call(&rt, building(HELLO), &mut dir, 0, text)?;
    }
    dir.put("_1.fnm", b"")?;
    expect(&rt, "show d", &mut dir, 1, "fault _1.fnm 0 1 Ends\n")?;
    Ok(())
}
