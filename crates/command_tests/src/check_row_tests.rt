use crate::check_tests::{EMPTY, FILES, NONE, ONE, folder};
use crate::run_tests::expect;
use crate::show_tests::PLAIN_LISTING;
use lu_dir::MemDir;
use std::test::Fail;

// A commit of the compound segment `_0`, as the library of 2010 wrote it: seven pairs of diagnostics, and the milliseconds of a
// clock as its version.
const SEVEN: &[u8] =
    b"\xFF\xFF\xFF\xF7\x00\x00\x01)S!\xA2\x00\x00\x00\x00\x01\x00\x00\x00\x01\x02_0\x00\
    \x00\x00\x01\xFF\xFF\xFF\xFF\xFF\xFF\xFF\xFF\xFF\xFF\xFF\xFF\x01\xFF\xFF\xFF\xFF\x01\
    \x00\x00\x00\x00\x01\x00\x00\x00\x07\x06source\x05merge\x0BmergeFactor\x012\x08optim\
    ize\x04true\x02os\x05Linux\x07os.arch\x05amd64\x0Cjava.version\x081.6.0_20\x0Elucene\
    .version\x0C3.0.1 912433\x00\x00\x00\x00\x00\x00\x00\x00L\xF6\xFC*";

// The same with nine pairs of diagnostics and one of user data.
const NINE: &[u8] =
    b"\xFF\xFF\xFF\xF7\x00\x00\x01)S!\xA2\x00\x00\x00\x00\x01\x00\x00\x00\x01\x02_0\x00\
    \x00\x00\x01\xFF\xFF\xFF\xFF\xFF\xFF\xFF\xFF\xFF\xFF\xFF\xFF\x01\xFF\xFF\xFF\xFF\x01\
    \x00\x00\x00\x00\x01\x00\x00\x00\x09\x06source\x05merge\x0BmergeFactor\x012\x08optim\
    ize\x04true\x02os\x05Linux\x07os.arch\x05amd64\x0Cjava.version\x081.6.0_20\x0Elucene\
    .version\x0C3.0.1 912433\x0Bjava.vendor\x03Sun\nos.version\x032.6\x00\x00\x00\x01\
    \x01a\x01b\x00\x00\x00\x00\xA1\xF5;\xEF";

// The compound file of a segment with one document.
const CFS: &[u8] =
    b"\x08\x00\x00\x00\x00\x00\x00\x00y\x06_0.fnm\x00\x00\x00\x00\x00\x00\x00\x8C\x06_0.fd\
    x\x00\x00\x00\x00\x00\x00\x00\x98\x06_0.fdt\x00\x00\x00\x00\x00\x00\x00\xAB\x06_0.ti\
    s\x00\x00\x00\x00\x00\x00\x00\xD9\x06_0.tii\x00\x00\x00\x00\x00\x00\x00\xFC\x06_0.fr\
    q\x00\x00\x00\x00\x00\x00\x00\xFE\x06_0.prx\x00\x00\x00\x00\x00\x00\x01\x00\x06_0.nr\
    m\xFE\xFF\xFF\xFF\x0F\x02\x05title\x10\x04body\x0F\x00\x00\x00\x02\x00\x00\x00\x00\
    \x00\x00\x00\x04\x00\x00\x00\x02\x01\x00\x01\x0Bhello world\xFF\xFF\xFF\xFC\x00\x00\
    \x00\x00\x00\x00\x00\x02\x00\x00\x00\x80\x00\x00\x00\x10\x00\x00\x00\n\x00\x05hello\
    \x01\x01\x00\x00\x00\x05world\x01\x01\x01\x01\xFF\xFF\xFF\xFC\x00\x00\x00\x00\x00\
    \x00\x00\x01\x00\x00\x00\x80\x00\x00\x00\x10\x00\x00\x00\n\x00\x00\xFF\xFF\xFF\xFF\
    \x0F\x00\x00\x00\x18\x01\x01\x00\x01NRM\xFF|";

// The files of a segment with two fields and no document.
const EMPTY_FILES: [(&str, &[u8]); 6] = [
    ("_0.fdx", b"\x00\x00\x00\x02"),
    ("_0.fdt", b"\x00\x00\x00\x02"),
    (
        "_0.tis",
        b"\xFF\xFF\xFF\xFC\x00\x00\x00\x00\x00\x00\x00\x00\x00\x00\x00\x80\x00\x00\x00\x10\x00\x00\x00\n",
    ),
    (
        "_0.tii",
        b"\xFF\xFF\xFF\xFC\x00\x00\x00\x00\x00\x00\x00\x00\x00\x00\x00\x80\x00\x00\x00\x10\x00\x00\x00\n",
    ),
    ("_0.frq", b""),
    ("_0.prx", b""),
];

const STANDS: &str = "segments_1 stands: 1 segments, 1 documents, 0 deleted\n";

#[test]
fn faults_of_vectors_are_told(rt: HostRuntime) -> Result<(), Fail> {
    let rows: [(&str, &[u8], &str); 5] = [
        (
            "_0.tvf",
            b"\x00\x00\x00\x04\x02\x07",
            "fault _0.tvf 4 107 VectorBits\n",
        ),
        (
            "_0.tvf",
            b"\x00\x00\x00\x04\x02\x03\x00\x05hello\x01\x00\x00\x05",
            "fault _0.tvf 17 1 Ends\n",
        ),
        (
            "_0.tvx",
            b"\x00\x00\x00\x05",
            "fault _0.tvx 0 95 TvxFormat\n",
        ),
        ("_0.tvx", b"\x00\x00\x00\x04", "fault _0.tvx 4 1 Ends\n"),
        (
            "_0.tvd",
            b"\x00\x00\x00\x04\x01\x00",
            "fault _0.tvd 5 100 VectorField\n",
        ),
    ];
    for (name, bytes, text) in rows {
        let mut dir = folder(rt.alloc(), ONE)?;
        dir.put(name, bytes)?;
        expect(&rt, "check d", &mut dir, 1, text)?;
    }
    Ok(())
}

#[test]
fn a_segment_without_the_places_of_vectors_stands(rt: HostRuntime) -> Result<(), Fail> {
    let mut dir = MemDir::new(rt.alloc());
    for (name, bytes) in FILES {
        if name != "_0.tvx" {
            dir.put(name, bytes)?;
        }
    }
    dir.put("segments_1", ONE)?;
    expect(&rt, "check d", &mut dir, 0, STANDS)?;
    assert!(rt; dir.get("_0.tvx").is_none());
    Ok(())
}

#[test]
fn a_commit_of_the_library_stands(rt: HostRuntime) -> Result<(), Fail> {
    for commit in [SEVEN, NINE] {
        let mut dir = MemDir::new(rt.alloc());
        dir.put("_0.cfs", CFS)?;
        dir.put("segments_1", commit)?;
        expect(&rt, "check d", &mut dir, 0, STANDS)?;
        expect(&rt, "show d", &mut dir, 0, PLAIN_LISTING)?;
        assert_eq!(rt; dir.get("segments_1"), Some(commit));
    }
    Ok(())
}

#[test]
fn norms_that_no_field_has_are_not_judged(rt: HostRuntime) -> Result<(), Fail> {
    let mut dir = folder(rt.alloc(), ONE)?;
    dir.put(
        "_0.fnm",
        b"\xFE\xFF\xFF\xFF\x0F\x02\x05title\x10\x04body\x1F",
    )?;
    dir.put("_0.nrm", b"NRM\x00")?;
    expect(&rt, "check d", &mut dir, 0, STANDS)?;
    Ok(())
}

#[test]
fn a_segment_without_documents_stands(rt: HostRuntime) -> Result<(), Fail> {
    let mut dir = folder(rt.alloc(), EMPTY)?;
    for (name, bytes) in EMPTY_FILES {
        dir.put(name, bytes)?;
    }
    dir.put("_0.nrm", b"NRM\xFF")?;
    dir.put("_0.tvx", b"\x00\x00\x00\x04")?;
    dir.put("_0.tvd", b"\x00\x00\x00\x04")?;
    dir.put("_0.tvf", b"\x00\x00\x00\x04")?;
    expect(
        &rt,
        "check d",
        &mut dir,
        0,
        "segments_1 stands: 1 segments, 0 documents, 0 deleted\n",
    )?;
    dir.put("_0.frq", b"\x00")?;
    expect(&rt, "check d", &mut dir, 1, "fault _0.frq 0 6 Trailing\n")?;
    Ok(())
}

#[test]
fn a_commit_that_was_sealed_in_part_is_no_good_one(rt: HostRuntime) -> Result<(), Fail> {
    let mut pending = NONE.to_vec(rt.alloc())?;
    pending[31] = 255 - pending[31];
    let mut dir = MemDir::new(rt.alloc());
    dir.put("segments_1", &pending)?;
    expect(
        &rt,
        "check d",
        &mut dir,
        1,
        "fault segments_1 24 27 Checksum\n",
    )?;
    dir.put("segments_1", NONE)?;
    expect(
        &rt,
        "check d",
        &mut dir,
        0,
        "segments_1 stands: 0 segments, 0 documents, 0 deleted\n",
    )?;
    Ok(())
}
