//! Names, and what may be removed: names that come from the format page.
use lu_prims::OutOfMemory;
use lu_types::FileKind;
use segment_infos::{
    Kept, LuceneName, generations, name_text, name_value, read, removable, removable_all,
};
use std::alloc::Global;
use std::test::Fail;

#[test]
fn the_greatest_and_least_names_are_read_and_written(rt: HostRuntime) -> Result<(), Fail> {
    for (text, name) in [
        (
            "segments_1y2p0ij32e8e7",
            LuceneName::Commit(9223372036854775807),
        ),
        ("segments_1", LuceneName::Commit(1)),
        ("_zik0zi.fnm", LuceneName::Part(2147483646, FileKind::Fnm)),
        ("_0_1.del", LuceneName::Del(0, 1)),
        ("_0_1.s0", LuceneName::Sep(0, 1, 0)),
        ("_0_1.s2147483647", LuceneName::Sep(0, 1, 2147483647)),
    ] {
        let found = name_value(text);
        assert_eq!(rt; found, Some(name), "{text}");
        if let Some(found) = found {
            let written = name_text(rt.alloc(), &found)?;
            assert_eq!(rt; written.as_str(), text);
        }
    }
    Ok(())
}

#[test]
fn other_names_of_commits_are_none(rt: HostRuntime) {
    for text in [
        "segments_0",
        "segments_01",
        "segments_A",
        "segments_1y2p0ij32e8e8",
        "segments.gen",
        "segments_",
        "write.lock",
    ] {
        assert!(rt; name_value(text).is_none(), "{text}");
    }
}

#[test]
fn other_names_of_files_are_none(rt: HostRuntime) {
    for text in [
        "_zik0zj.fnm",
        "_0_0.del",
        "_0_1.s01",
        "_0_1.s2147483648",
        "_0.s1",
        "_0.segments",
        "_01.fnm",
        "_0.del",
    ] {
        assert!(rt; name_value(text).is_none(), "{text}");
    }
}

/// These names, owned.
fn owned(alloc: Global, texts: &[&str]) -> Result<Vec<String>, OutOfMemory> {
    let mut names = Vec::new(alloc);
    for text in texts {
        names.push(String::from_str(alloc, text)?)?;
    }
    Ok(names)
}

/// Whether the names are these texts.
fn are(names: &[String], texts: &[&str]) -> bool {
    if names.len() != texts.len() {
        return false;
    }
    for (name, text) in names.iter().zip(texts) {
        if name.as_str() != *text {
            return false;
        }
    }
    true
}

#[test]
fn generations_fall(rt: HostRuntime) -> Result<(), Fail> {
    let names = owned(
        rt.alloc(),
        &[
            "segments_2",
            "_0.fnm",
            "segments_z",
            "segments_0",
            "segments_10",
        ],
    )?;
    let found = generations(rt.alloc(), names.as_slice())?;
    assert_eq!(rt; found.as_slice(), [36, 35, 2].as_slice());
    Ok(())
}

/// A commit of `_0`, with deletions of generation 1, and of `_1`, whose norms of field 1 are of generation 5 and whose document is in
/// the store `_0`; neither is compound.
const KEPT: &[u8] =
    b"\xff\xff\xff\xf7\x00\x00\x00\x00\x00\x00\x00\x05\x00\x00\x00(\x00\x00\x00\x02\x02_0\x7f\xff\xff\xfd\x00\x00\x00\x00\x00\x00\x00\x01\xff\xff\xff\xff\x01\xff\xff\xff\xff\xff\x00\x00\x00\x01\x00\x00\x00\x00\x00\x02_1\x00\x00\x00\x01\xff\xff\xff\xff\xff\xff\xff\xff\x00\x00\x00\x01\x02_0\x00\x01\x00\x00\x00\x02\xff\xff\xff\xff\xff\xff\xff\xff\x00\x00\x00\x00\x00\x00\x00\x05\xff\x00\x00\x00\x00\x01\x00\x00\x00\x01\x01a\x01b\x00\x00\x00\x01\x01k\x01v\x00\x00\x00\x00\xfc\x82\x0eR";

#[test]
fn names_that_no_commit_keeps_may_be_removed(rt: HostRuntime) -> Result<(), Fail> {
    let commit = read(rt.alloc(), KEPT)?;
    let names = owned(
        rt.alloc(),
        &[
            "segments_1",
            "segments_2",
            "_0.fdx",
            "_1.fdx",
            "_1.fnm",
            "_0.cfs",
            "_0_1.del",
            "_1_1.del",
        ],
    )?;
    let found = removable(rt.alloc(), names.as_slice(), &commit, 2)?;
    let free = ["segments_1", "_1.fdx", "_0.cfs", "_1_1.del"];
    assert!(rt; are(found.as_slice(), &free));
    Ok(())
}

#[test]
fn norms_and_other_files_are_kept(rt: HostRuntime) -> Result<(), Fail> {
    let commit = read(rt.alloc(), KEPT)?;
    let names = owned(
        rt.alloc(),
        &[
            "_1_5.s1",
            "_1_5.s0",
            "_1_4.s1",
            "segments.gen",
            "_2.fnm",
            "segments_1",
        ],
    )?;
    let kept = [
        Kept {
            generation: 1,
            commit: &commit,
        },
        Kept {
            generation: 3,
            commit: &commit,
        },
    ];
    let found = removable_all(rt.alloc(), names.as_slice(), &kept)?;
    assert!(rt; are(found.as_slice(), &["_1_5.s0", "_1_4.s1", "_2.fnm"]));
    Ok(())
}
