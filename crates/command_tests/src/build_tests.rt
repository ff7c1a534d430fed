//! What `build` makes of an input.
use crate::check_tests::{FILES, LARGE, NONE, ONE};
use crate::run_tests::expect;
use crate::words_tests::words_of;
use lu_command::{Status, run};
use lu_dir::{Dir, MemDir, MemSink, MemSource};
use segment_infos::{read, write};
use std::alloc::{AllocError, Global};
use std::process::Abort;
use std::test::Fail;

/// The line of a document that stores a title, and is found by two words of its body, which has a vector.
pub(crate) const HELLO: &str =
    "{\"stored\":[{\"field\":\"title\",\"tokenized\":true,\"text\":\"hello world\"}],\
    \"indexed\":[{\"field\":\"body\",\"vector\":\"both\",\"text\":\"hello world\"}]}\n";

/// A call with an input.
#[derive(Clone, Copy)]
pub(crate) struct Call<'a> {
    pub(crate) line: &'a str,
    pub(crate) input: &'a str,
}

/// The call that builds from this input in the folder `d`.
pub(crate) fn building(input: &str) -> Call<'_> {
    Call {
        line: "build d",
        input,
    }
}

// What a call answers, where it has this exit number and prints this text.
pub(crate) fn expect_call<R: Abort + AllocGlobal, D: Dir>(
    rt: &R,
    call: Call<'_>,
    dir: &mut D,
    code: u8,
    text: &str,
) -> Result<Status, AllocError> {
    let words = words_of(rt.alloc(), call.line)?;
    let mut source = MemSource::new(call.input.as_bytes().to_vec(rt.alloc())?, 50);
    let mut sink = MemSink::new(rt.alloc());
    let status = run(rt.alloc(), words.as_slice(), dir, &mut source, &mut sink);
    assert_eq!(rt; status.code(), code, "{text}");
    assert_eq!(rt; sink.bytes(), text.as_bytes(), "{text}");
    Ok(status)
}

// How many files there are.
fn count(alloc: Global, dir: &mut MemDir) -> Result<usize, Fail> {
    match dir.list(alloc) {
        Ok(names) => Ok(names.len()),
        Err(_) => Err(Fail::from("not listed")),
    }
}

#[test]
fn a_document_is_built(rt: HostRuntime) -> Result<(), Fail> {
    for _ in 0..2 {
        let mut dir = MemDir::new(rt.alloc());
        let text = "commit 1: _0 with 1 documents\n";
        expect_call(&rt, building(HELLO), &mut dir, 0, text)?;
        for (name, bytes) in FILES {
            assert_eq!(rt; dir.get(name), Some(bytes), "{name}");
        }
        assert_eq!(rt; dir.get("segments_1"), Some(ONE));
        assert_eq!(rt; count(rt.alloc(), &mut dir)?, 12);
        let text = "segments_1 stands: 1 segments, 1 documents, 0 deleted\n";
        expect(&rt, "check d", &mut dir, 0, text)?;
    }
    Ok(())
}

#[test]
fn an_input_without_documents_makes_a_commit(rt: HostRuntime) -> Result<(), Fail> {
    for input in ["", "\n", "\n\n"] {
        let mut dir = MemDir::new(rt.alloc());
        expect_call(&rt, building(input), &mut dir, 0, "commit 1: no segment\n")?;
        assert_eq!(rt; dir.get("segments_1"), Some(NONE));
        assert_eq!(rt; count(rt.alloc(), &mut dir)?, 1);
        let text = "segments_1 stands: 0 segments, 0 documents, 0 deleted\n";
        expect(&rt, "check d", &mut dir, 0, text)?;
    }
    Ok(())
}

#[test]
fn a_second_segment_follows_the_first(rt: HostRuntime) -> Result<(), Fail> {
    let mut dir = MemDir::new(rt.alloc());
    let one = "{\"indexed\":[{\"field\":\"f\",\"text\":\"x\"}]}";
    let two =
        "{\"indexed\":[{\"field\":\"g\",\"text\":\"y\"},{\"field\":\"f\",\"text\":\"x z\"}]}\n\
        {\"indexed\":[{\"field\":\"f\",\"text\":\"z\"}]}\n";
    let rows = [
        (building(one), "commit 1: _0 with 1 documents\n"),
        (building(two), "commit 2: _1 with 2 documents\n"),
    ];
    for (call, text) in rows {
        expect_call(&rt, call, &mut dir, 0, text)?;
    }
    assert!(rt; dir.get("segments_1").is_none());
    let rows = [
        (
            "check d",
            "segments_2 stands: 2 segments, 3 documents, 0 deleted\n",
        ),
        ("fields d _0", "field 0 01 \"f\"\n"),
        ("fields d _1", "field 0 01 \"g\"\nfield 1 01 \"f\"\n"),
    ];
    for (line, text) in rows {
        expect(&rt, line, &mut dir, 0, text)?;
    }
    Ok(())
}

#[test]
fn a_segment_is_packed_where_that_is_asked(rt: HostRuntime) -> Result<(), Fail> {
    let mut dir = MemDir::new(rt.alloc());
    let call = Call {
        line: "build d --compound",
        input: HELLO,
    };
    expect_call(&rt, call, &mut dir, 0, "commit 1: _0 with 1 documents\n")?;
    assert_eq!(rt; count(rt.alloc(), &mut dir)?, 2);
    assert!(rt; dir.get("_0.cfs").is_some());
    let text = "segments_1 stands: 1 segments, 1 documents, 0 deleted\n";
    expect(&rt, "check d", &mut dir, 0, text)?;
    Ok(())
}

#[test]
fn a_commit_that_was_cut_is_passed_over(rt: HostRuntime) -> Result<(), Fail> {
    let mut dir = MemDir::new(rt.alloc());
    let (cut, _) = NONE.split_at(31);
    dir.put("segments_4", NONE)?;
    dir.put("segments_5", cut)?;
    expect(&rt, "check d", &mut dir, 1, "fault segments_5 24 1 Ends\n")?;
    expect_call(&rt, building(""), &mut dir, 0, "commit 6: no segment\n")?;
    assert_eq!(rt; count(rt.alloc(), &mut dir)?, 1);
    let text = "segments_6 stands: 0 segments, 0 documents, 0 deleted\n";
    expect(&rt, "check d", &mut dir, 0, text)?;
    Ok(())
}

#[test]
fn a_faulty_line_is_refused(rt: HostRuntime) -> Result<(), Fail> {
    let rows = [
        ("{\"x\":1}", "refused: line 2 BadShape\n"),
        ("{", "refused: line 2 NotJson\n"),
        (" ", "refused: line 2 NotJson\n"),
        (
            "{\"indexed\":[{\"field\":\"f\",\"tokens\":[{\"text\":\"a\",\"position\":0,\"start\":2,\"end\":1}]}]}",
            "refused: line 2 OffsetOrder\n",
        ),
        (
            "\n{\"indexed\":[{\"field\":\"f\",\"text\":\"\"},{\"field\":\"f\",\"text\":\"\"}]}",
            "refused: line 3 FieldTwice\n",
        ),
    ];
    for (second, text) in rows {
        let mut dir = MemDir::new(rt.alloc());
        let mut input = String::from_str(rt.alloc(), HELLO)?;
        input.push_str(second)?;
        expect_call(&rt, building(input.as_str()), &mut dir, 3, text)?;
        assert_eq!(rt; count(rt.alloc(), &mut dir)?, 0, "{text}");
    }
    Ok(())
}

// The commit without segments, of the greatest version.
pub(crate) fn last_version(alloc: Global) -> Result<Vec<u8>, Fail> {
    let mut commit = match read(alloc, NONE) {
        Ok(commit) => commit,
        Err(_) => return Err(Fail::from("no commit")),
    };
    commit.version = 0x7FFF_FFFF_FFFF_FFFF;
    Ok(write(alloc, &commit)?)
}

#[test]
fn full_numbers_are_refused(rt: HostRuntime) -> Result<(), Fail> {
    let version = last_version(rt.alloc())?;
    let rows: [(&str, &[u8], &str, &str); 5] = [
        (
            "segments_1y2p0ij32e8e7",
            NONE,
            "",
            "refused: GenerationFull\n",
        ),
        (
            "segments_1",
            version.as_slice(),
            "",
            "refused: VersionFull\n",
        ),
        ("_zik0zi.fdx", b"", HELLO, "refused: CounterFull\n"),
        ("segments_1", LARGE, HELLO, "refused: TooMany\n"),
        ("segments_1", LARGE, "{}\n{", "refused: line 2 NotJson\n"),
    ];
    for (name, bytes, input, text) in rows {
        let mut dir = MemDir::new(rt.alloc());
        dir.put(name, bytes)?;
        expect_call(&rt, building(input), &mut dir, 3, text)?;
        assert_eq!(rt; count(rt.alloc(), &mut dir)?, 1, "{text}");
        assert_eq!(rt; dir.get(name), Some(bytes), "{text}");
    }
    Ok(())
}
