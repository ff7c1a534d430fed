//! What `delete` makes of folders.
use crate::build_tests::{HELLO, building, expect_call};
use crate::check_tests::NONE;
use crate::run_tests::expect;
use lu_dir::MemDir;
use std::test::Fail;

/// The `.del` of one document, which is deleted (format page, "Deletions").
pub(crate) const DELETED: &[u8] = &[0, 0, 0, 1, 0, 0, 0, 1, 1];

#[test]
fn the_documents_of_a_term_are_deleted_in_each_segment(rt: HostRuntime) -> Result<(), Fail> {
    let mut dir = MemDir::new(rt.alloc());
    let one = "{\"indexed\":[{\"field\":\"f\",\"text\":\"x\"}]}";
    let two =
        "{\"indexed\":[{\"field\":\"g\",\"text\":\"y\"},{\"field\":\"f\",\"text\":\"x z\"}]}\n\
        {\"indexed\":[{\"field\":\"f\",\"text\":\"z\"}]}\n";
    expect_call(
        &rt,
        building(one),
        &mut dir,
        0,
        "commit 1: _0 with 1 documents\n",
    )?;
    expect_call(
        &rt,
        building(two),
        &mut dir,
        0,
        "commit 2: _1 with 2 documents\n",
    )?;
    let rows = [
        ("delete d f x", "commit 3: 2 documents deleted\n"),
        ("delete d f x", "commit 4: 0 documents deleted\n"),
        (
            "check d",
            "segments_4 stands: 2 segments, 3 documents, 2 deleted\n",
        ),
    ];
    for (line, text) in rows {
        expect(&rt, line, &mut dir, 0, text)?;
    }
    Ok(())
}

#[test]
fn only_a_segment_that_loses_a_document_has_a_new_file(rt: HostRuntime) -> Result<(), Fail> {
    let mut dir = MemDir::new(rt.alloc());
    let text = "commit 1: _0 with 1 documents\n";
    expect_call(&rt, building(HELLO), &mut dir, 0, text)?;
    let text = "commit 2: 0 documents deleted\n";
    expect(&rt, "delete d body none", &mut dir, 0, text)?;
    assert_eq!(rt; dir.get("_0_1.del"), None);
    let text = "commit 3: 1 documents deleted\n";
    expect(&rt, "delete d body world", &mut dir, 0, text)?;
    assert_eq!(rt; dir.get("_0_1.del"), Some(DELETED));
    Ok(())
}

#[test]
fn nothing_is_deleted_where_no_number_is_left_for_the_file(rt: HostRuntime) -> Result<(), Fail> {
    let mut dir = MemDir::new(rt.alloc());
    let text = "commit 1: _0 with 1 documents\n";
    expect_call(&rt, building(HELLO), &mut dir, 0, text)?;
    dir.put("_0_1y2p0ij32e8e7.del", &[])?;
    let text = "refused: DelGenFull\n";
    expect(&rt, "delete d body world", &mut dir, 3, text)?;
    let text = "segments_1 stands: 1 segments, 1 documents, 0 deleted\n";
    expect(&rt, "check d", &mut dir, 0, text)?;
    Ok(())
}

#[test]
fn a_folder_without_a_commit_has_nothing_to_delete(rt: HostRuntime) -> Result<(), Fail> {
    let mut dir = MemDir::new(rt.alloc());
    expect(&rt, "delete d f x", &mut dir, 6, "no index\n")?;
    Ok(())
}

#[test]
fn a_commit_without_segments_is_followed_by_another(rt: HostRuntime) -> Result<(), Fail> {
    let mut dir = MemDir::new(rt.alloc());
    dir.put("segments_1", NONE)?;
    let text = "commit 2: 0 documents deleted\n";
    expect(&rt, "delete d f x", &mut dir, 0, text)?;
    Ok(())
}
