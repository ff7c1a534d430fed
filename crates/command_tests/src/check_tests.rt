use crate::run_tests::expect;
use lu_dir::MemDir;
use lu_prims::OutOfMemory;
use std::alloc::Global;
use std::test::Fail;

// A commit of the segment `_0` with one document.
pub(crate) const ONE: &[u8] =
    b"\xFF\xFF\xFF\xF7\x00\x00\x00\x00\x00\x00\x00\x01\x00\x00\x00\x01\x00\x00\x00\x01\x02\
    _0\x00\x00\x00\x01\xFF\xFF\xFF\xFF\xFF\xFF\xFF\xFF\xFF\xFF\xFF\xFF\x01\xFF\xFF\xFF\
    \xFF\xFF\x00\x00\x00\x00\x01\x00\x00\x00\x01\x06source\x05flush\x00\x00\x00\x00\x00\
    \x00\x00\x00\xF1*\x80`";

// A commit without segments.
pub(crate) const NONE: &[u8] =
    b"\xFF\xFF\xFF\xF7\x00\x00\x00\x00\x00\x00\x00\x01\x00\x00\x00\x00\x00\x00\x00\x00\x00\
    \x00\x00\x00\x00\x00\x00\x00\x07\x9B/\x0C";

// A commit of the segment `_0` with 2^31 - 2 documents.
pub(crate) const LARGE: &[u8] =
    b"\xFF\xFF\xFF\xF7\x00\x00\x00\x00\x00\x00\x00\x01\x00\x00\x00\x01\x00\x00\x00\x01\x02\
    _0\x7F\xFF\xFF\xFE\xFF\xFF\xFF\xFF\xFF\xFF\xFF\xFF\xFF\xFF\xFF\xFF\x01\xFF\xFF\xFF\
    \xFF\xFF\x00\x00\x00\x00\x01\x00\x00\x00\x01\x06source\x05flush\x00\x00\x00\x00\x00\
    \x00\x00\x00%Y\xCA\x98";

// A commit of the segment `_1`, whose document is the second one of the store `_0`.
const SHARED: &[u8] =
    b"\xFF\xFF\xFF\xF7\x00\x00\x00\x00\x00\x00\x00\x01\x00\x00\x00\x02\x00\x00\x00\x01\x02\
    _1\x00\x00\x00\x01\xFF\xFF\xFF\xFF\xFF\xFF\xFF\xFF\x00\x00\x00\x01\x02_0\x00\x01\xFF\
    \xFF\xFF\xFF\xFF\x00\x00\x00\x00\x01\x00\x00\x00\x01\x06source\x05flush\x00\x00\x00\
    \x00\x00\x00\x00\x00\xC3\x00<\x18";

// A commit of the compound segment `_0`.
const COMPOUND: &[u8] =
    b"\xFF\xFF\xFF\xF7\x00\x00\x00\x00\x00\x00\x00\x01\x00\x00\x00\x01\x00\x00\x00\x01\x02\
    _0\x00\x00\x00\x01\xFF\xFF\xFF\xFF\xFF\xFF\xFF\xFF\xFF\xFF\xFF\xFF\x01\xFF\xFF\xFF\
    \xFF\x01\x00\x00\x00\x00\x01\x00\x00\x00\x01\x06source\x05flush\x00\x00\x00\x00\x00\
    \x00\x00\x00Q\xF9\x0D\xAC";

// A commit of the segments `_0` and `_1`, with one document each.
const TWO: &[u8] =
    b"\xFF\xFF\xFF\xF7\x00\x00\x00\x00\x00\x00\x00\x01\x00\x00\x00\x02\x00\x00\x00\x02\x02\
    _0\x00\x00\x00\x01\xFF\xFF\xFF\xFF\xFF\xFF\xFF\xFF\xFF\xFF\xFF\xFF\x01\xFF\xFF\xFF\
    \xFF\xFF\x00\x00\x00\x00\x01\x00\x00\x00\x01\x06source\x05flush\x02_1\x00\x00\x00\
    \x01\xFF\xFF\xFF\xFF\xFF\xFF\xFF\xFF\xFF\xFF\xFF\xFF\x01\xFF\xFF\xFF\xFF\xFF\x00\x00\
    \x00\x00\x01\x00\x00\x00\x01\x06source\x05flush\x00\x00\x00\x00\x00\x00\x00\x00\x18\
    \xAFb\x8B";

// A commit of the segment `_0` without documents.
pub(crate) const EMPTY: &[u8] =
    b"\xFF\xFF\xFF\xF7\x00\x00\x00\x00\x00\x00\x00\x01\x00\x00\x00\x01\x00\x00\x00\x01\x02\
    _0\x00\x00\x00\x00\xFF\xFF\xFF\xFF\xFF\xFF\xFF\xFF\xFF\xFF\xFF\xFF\x01\xFF\xFF\xFF\
    \xFF\xFF\x00\x00\x00\x00\x01\x00\x00\x00\x01\x06source\x05flush\x00\x00\x00\x00\x00\
    \x00\x00\x00R\xBC\xA8,";

// A commit of the segment `_0` where the norms of field 1 have generation 3.
const NORMS: &[u8] =
    b"\xFF\xFF\xFF\xF7\x00\x00\x00\x00\x00\x00\x00\x01\x00\x00\x00\x01\x00\x00\x00\x01\x02\
    _0\x00\x00\x00\x01\xFF\xFF\xFF\xFF\xFF\xFF\xFF\xFF\xFF\xFF\xFF\xFF\x01\x00\x00\x00\
    \x02\xFF\xFF\xFF\xFF\xFF\xFF\xFF\xFF\x00\x00\x00\x00\x00\x00\x00\x03\xFF\x00\x00\x00\
    \x00\x01\x00\x00\x00\x01\x06source\x05flush\x00\x00\x00\x00\x00\x00\x00\x00\x0BG;8";

// A commit of the segment `_0`, whose document is deleted in generation 36.
const DELETED: &[u8] =
    b"\xFF\xFF\xFF\xF7\x00\x00\x00\x00\x00\x00\x00\x01\x00\x00\x00\x01\x00\x00\x00\x01\x02\
    _0\x00\x00\x00\x01\x00\x00\x00\x00\x00\x00\x00$\xFF\xFF\xFF\xFF\x01\xFF\xFF\xFF\xFF\
    \xFF\x00\x00\x00\x01\x01\x00\x00\x00\x01\x06source\x05flush\x00\x00\x00\x00\x00\x00\
    \x00\x00\xAA\xBA\xDE\xDC";

// The files of a segment with one document, whose only indexed field has norms and a vector.
pub(crate) const FILES: [(&str, &[u8]); 11] = [
    (
        "_0.fnm",
        b"\xFE\xFF\xFF\xFF\x0F\x02\x05title\x10\x04body\x0F",
    ),
    (
        "_0.fdx",
        b"\x00\x00\x00\x02\x00\x00\x00\x00\x00\x00\x00\x04",
    ),
    ("_0.fdt", b"\x00\x00\x00\x02\x01\x00\x01\x0Bhello world"),
    (
        "_0.tis",
        b"\xFF\xFF\xFF\xFC\x00\x00\x00\x00\x00\x00\x00\x02\x00\x00\x00\x80\x00\x00\x00\x10\x00\x00\x00\x0A\x00\x05hello\x01\x01\x00\x00\x00\x05world\x01\x01\x01\x01",
    ),
    (
        "_0.tii",
        b"\xFF\xFF\xFF\xFC\x00\x00\x00\x00\x00\x00\x00\x01\x00\x00\x00\x80\x00\x00\x00\x10\x00\x00\x00\x0A\x00\x00\xFF\xFF\xFF\xFF\x0F\x00\x00\x00\x18",
    ),
    ("_0.frq", b"\x01\x01"),
    ("_0.prx", b"\x00\x01"),
    ("_0.nrm", b"NRM\xFF|"),
    (
        "_0.tvx",
        b"\x00\x00\x00\x04\x00\x00\x00\x00\x00\x00\x00\x04\x00\x00\x00\x00\x00\x00\x00\x04",
    ),
    ("_0.tvd", b"\x00\x00\x00\x04\x01\x01"),
    (
        "_0.tvf",
        b"\x00\x00\x00\x04\x02\x03\x00\x05hello\x01\x00\x00\x05\x00\x05world\x01\x01\x06\x05",
    ),
];

// A folder with those files and this commit.
pub(crate) fn folder(alloc: Global, commit: &[u8]) -> Result<MemDir, OutOfMemory> {
    let mut dir = MemDir::new(alloc);
    for (name, bytes) in FILES {
        dir.put(name, bytes)?;
    }
    dir.put("segments_1", commit)?;
    Ok(dir)
}

#[test]
fn a_folder_without_commits_has_no_index(rt: HostRuntime) -> Result<(), Fail> {
    let mut dir = MemDir::new(rt.alloc());
    expect(&rt, "check d", &mut dir, 6, "no index\n")?;
    dir.put("segments_01", NONE)?;
    expect(&rt, "check -- d", &mut dir, 6, "no index\n")?;
    for line in ["check", "check d d", "check d --x"] {
        expect(
            &rt,
            line,
            &mut dir,
            2,
            "usage: lucene3 COMMAND [DIR] [ARGUMENTS]\n",
        )?;
    }
    Ok(())
}

#[test]
fn a_commit_is_judged_by_its_segments(rt: HostRuntime) -> Result<(), Fail> {
    let rows = [
        (
            ONE,
            "segments_1 stands: 1 segments, 1 documents, 0 deleted\n",
            0,
        ),
        (
            NONE,
            "segments_1 stands: 0 segments, 0 documents, 0 deleted\n",
            0,
        ),
        (TWO, "fault _1.fnm 0 5 Missing\n", 1),
        (LARGE, "fault _0.fdx 12 1 Ends\n", 1),
        (SHARED, "fault _1.fnm 0 5 Missing\n", 1),
        (COMPOUND, "fault _0.cfs 0 5 Missing\n", 1),
        (NORMS, "fault _0_3.s1 0 5 Missing\n", 1),
        (DELETED, "fault _0_10.del 0 5 Missing\n", 1),
        (b"", "fault segments_1 0 1 Ends\n", 1),
    ];
    for (commit, text, code) in rows {
        let mut dir = folder(rt.alloc(), commit)?;
        expect(&rt, "check d", &mut dir, code, text)?;
        assert_eq!(rt; dir.get("segments_1"), Some(commit), "{text}");
    }
    Ok(())
}

#[test]
fn the_first_fault_of_a_file_is_told(rt: HostRuntime) -> Result<(), Fail> {
    let rows: [(&str, &[u8], &str); 5] = [
        ("_0.prx", b"\x00", "fault _0.prx 1 1 Ends\n"),
        ("_0.frq", b"\x01\x03", "fault _0.frq 1 72 DocRange\n"),
        (
            "_0.tis",
            b"\xFF\xFF\xFF\xFC\x00\x00\x00\x00\x00\x00\x00\x02\x00\x00\x00\x80\x00\x00\x00\x10\x00\x00\x00\x0A\x00\x05hello\x01\x01\x00\x00\x00\x05world\x01\x02\x01\x01",
            "fault _0.tis 35 59 DocFreq\n",
        ),
        (
            "_0.tii",
            b"\xFF\xFF\xFF\xFC\x00\x00\x00\x00\x00\x00\x00\x01\x00\x00\x00\x80\x00\x00\x00\x10\x00\x00\x00\x0A\x00\x00\xFF\xFF\xFF\xFF\x0F\x00\x00\x00\x19",
            "fault _0.tii 24 67 TiiPlace\n",
        ),
        ("_0.nrm", b"NRM\xFF", "fault _0.nrm 4 1 Ends\n"),
    ];
    for (name, bytes, text) in rows {
        let mut dir = folder(rt.alloc(), ONE)?;
        dir.put(name, bytes)?;
        expect(&rt, "check d", &mut dir, 1, text)?;
    }
    Ok(())
}

#[test]
fn the_newest_commit_is_judged(rt: HostRuntime) -> Result<(), Fail> {
    let mut dir = MemDir::new(rt.alloc());
    dir.put("segments_4", NONE)?;
    dir.put("segments_5", &NONE[..31])?;
    expect(&rt, "check d", &mut dir, 1, "fault segments_5 24 1 Ends\n")?;
    dir.put("segments_10", LARGE)?;
    expect(&rt, "check d", &mut dir, 1, "fault _0.fnm 0 5 Missing\n")?;
    Ok(())
}

#[test]
fn a_fault_is_named_by_the_file_outside_a_compound_file(rt: HostRuntime) -> Result<(), Fail> {
    let mut dir = folder(rt.alloc(), COMPOUND)?;
    dir.put("_0.cfs", b"\x00")?;
    expect(&rt, "check d", &mut dir, 1, "fault _0.fnm 0 5 Missing\n")?;
    let mut dir = folder(rt.alloc(), SHARED)?;
    dir.put("_1.fnm", b"\xFE\xFF\xFF\xFF\x0F\x00")?;
    expect(
        &rt,
        "check d",
        &mut dir,
        1,
        "fault _0.fdx 0 42 StoreRange\n",
    )?;
    Ok(())
}
