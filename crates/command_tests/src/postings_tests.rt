//! What `postings` prints of folders.
use crate::build_tests::{building, expect_call};
use crate::run_tests::expect;
use lu_dir::MemDir;
use std::alloc::{AllocError, Global};
use std::test::Fail;

/// The line of a document with one token.
const DOCUMENT: &str = "{\"indexed\":[{\"field\":\"f\",\"text\":\"x\"}]}\n";

// The lines of so many documents with one token.
fn documents(alloc: Global, count: usize) -> Result<String, AllocError> {
    let mut text = String::new(alloc);
    for _ in 0..count {
        text.push_str(DOCUMENT)?;
    }
    Ok(text)
}

#[test]
fn documents_below_the_first_are_passed_over(rt: HostRuntime) -> Result<(), Fail> {
    let mut dir = MemDir::new(rt.alloc());
    let input = documents(rt.alloc(), 17)?;
    let text = "commit 1: _0 with 17 documents\n";
    expect_call(&rt, building(input.as_str()), &mut dir, 0, text)?;
    // The bounds of the two numbers are 130 and 35.
    let text = "segment 0\nseek 1\nadvance 2\ndoc 15 1 @0\ndoc 16 1 @0\n";
    expect(&rt, "postings d f x 15", &mut dir, 0, text)?;
    let text = "segment 0\nseek 1\n";
    expect(&rt, "postings d f y 15", &mut dir, 0, text)?;
    Ok(())
}

#[test]
fn each_segment_has_its_place(rt: HostRuntime) -> Result<(), Fail> {
    let mut dir = MemDir::new(rt.alloc());
    for text in [
        "commit 1: _0 with 1 documents\n",
        "commit 2: _1 with 1 documents\n",
    ] {
        expect_call(&rt, building(DOCUMENT), &mut dir, 0, text)?;
    }
    let text = "segment 0\nseek 1\nsegment 1\nseek 1\n";
    expect(&rt, "postings d g x 0", &mut dir, 0, text)?;
    Ok(())
}

#[test]
fn a_folder_without_a_commit_has_no_documents(rt: HostRuntime) -> Result<(), Fail> {
    let mut dir = MemDir::new(rt.alloc());
    expect(&rt, "postings d f x 0", &mut dir, 6, "no index\n")?;
    Ok(())
}
