//! A large segment: a term is found, and a document of a term reached, within the bounds and without reading what stands between.
ghost use Rattle.std.specs.Prelude.{◌<◌, ◌^◌, ℕ, length, All};
ghost use Rattle.segment_infos.specs.Values.{IsLine};
ghost use Rattle.check_index.specs.Opened.{IsTermOf};

use crate::check_tests::ONE;
use lu_dir::{Dir, MemDir};
use lu_folder::current;
use lu_prims::{Steps, crc32, put_i32, put_i64};
use lu_reads::holding::{held_segments, standing_segments};
use lu_types::{Document, IndexedField, Items, Limits, Payload, TermInfo, Text, Token, Vector};
use seg_reader::SegReader;
use seg_writer::{SegmentFiles, WriteOptions, write_segment};
use segment_infos::SegInfo;
use std::alloc::Global;
use std::process::Abort;
use std::test::Fail;

/// How many documents the segment has.
const DOCUMENTS: u32 = 200_000;

/// The last of them.
const LAST: u32 = DOCUMENTS - 1;

/// The label of the steps.
struct Counted;

// A text at a position.
fn token(alloc: Global, text: &str, position: u32) -> Result<Token, Fail> {
    Ok(Token {
        text: Text::from_str(alloc, text)?,
        position,
        start: 0,
        end: 0,
        payload: Payload::none(),
    })
}

// The text that the document with this number has alone.
fn own_text(alloc: Global, number: u32) -> Result<String, Fail> {
    Ok(format!(in alloc; "t{number:06}")?)
}

// The document with this number: the text that all have, and its own.
fn document(alloc: Global, number: u32) -> Result<Document, Fail> {
    let own = own_text(alloc, number)?;
    let mut tokens = Vec::new(alloc);
    tokens.push(token(alloc, "x", 0)?)?;
    tokens.push(token(alloc, own.as_str(), 1)?)?;
    let mut indexed = Vec::new(alloc);
    indexed.push(IndexedField {
        field: Text::from_str(alloc, "f")?,
        norm: None,
        omit_tf: false,
        vector: Vector::Off,
        tokens: Items::new(tokens),
    })?;
    Ok(Document {
        stored: Items::new(Vec::new(alloc)),
        indexed: Items::new(indexed),
    })
}

// All documents.
fn documents(alloc: Global) -> Result<Vec<Document>, Fail> {
    let mut all = Vec::new(alloc);
    for number in 0..DOCUMENTS {
        all.push(document(alloc, number)?)?;
    }
    Ok(all)
}

// Their segment, with the smallest intervals and as many skip levels as there can be.
fn written(alloc: Global) -> Result<SegmentFiles, Fail> {
    let docs = documents(alloc)?;
    if docs.len() > 1_000_000 {
        return Err(Fail::from("too many documents"));
    }
    let options = WriteOptions {
        number: 0,
        index_interval: 2,
        skip_interval: 2,
        max_levels: 30,
        compound: false,
        limits: Limits::program(),
    };
    match write_segment(alloc, docs.as_slice(), &options) {
        Ok(files) => Ok(files),
        Err(_) => Err(Fail::from("not written")),
    }
}

// The bytes before a place, and those from there on.
fn cut(bytes: &[u8], place: usize) -> Result<(&[u8], &[u8]), Fail> {
    match bytes.split_at_checked(place) {
        Some(parts) => Ok(parts),
        None => Err(Fail::from("too short a commit")),
    }
}

// The commit of this segment: that of another of one document, with another size.
fn commit_bytes(alloc: Global) -> Result<Vec<u8>, Fail> {
    let (start, rest) = cut(ONE, 23)?;
    let (_, rest) = cut(rest, 4)?;
    let (middle, _) = cut(rest, rest.len().saturating_sub(8))?;
    let mut bytes = start.to_vec(alloc)?;
    put_i32(&mut bytes, DOCUMENTS as i32)?;
    bytes.extend_from_slice(middle)?;
    let sum = crc32(bytes.as_slice());
    put_i64(&mut bytes, i64::from(sum))?;
    Ok(bytes)
}

// A folder with both.
fn folder(alloc: Global) -> Result<MemDir, Fail> {
    let files = written(alloc)?;
    let mut dir = MemDir::new(alloc);
    for file in files.files.as_slice() {
        let kind = file.kind;
        let name = format!(in alloc; "_0.{kind}")?;
        dir.put(name.as_str(), file.bytes.as_slice())?;
    }
    dir.put("segments_1", commit_bytes(alloc)?.as_slice())?;
    Ok(dir)
}

// Each text that one document has alone is found in at most 20 steps: 17 binary digits of 100,001 entries, 2 terms of an
// interval, and one.
fn seek_all<R: Abort + AllocGlobal>(rt: &R, reader: &mut SegReader<'_>) -> Result<(), Fail> {
    for number in 0..DOCUMENTS {
        let text = own_text(rt.alloc(), LAST - number)?;
        let mut steps: Steps<Counted> = Steps::new();
        assert!(rt;
            reader.seek("f", text.as_str(), &mut steps).is_some(),
            "{number}"
        );
        assert!(rt; steps.count() <= 20, "{number}");
    }
    Ok(())
}

// The last document of the term is reached in at most 39 steps: a datum on top, 2 on each of 17 levels, 2 entries, and two.
fn advance_often(rt: &impl Abort, reader: &SegReader<'_>, term: &TermInfo)
    requires { (n : ℕ) × IsTermOf reader.now n term.now }
{
    for turn in 0..1_000_000 {
        let mut steps: Steps<Counted> = Steps::new();
        let mut cursor = reader.postings(term);
        assert_eq!(rt; cursor.advance(LAST, &mut steps), Some(LAST), "{turn}");
        assert!(rt; steps.count() <= 39, "{turn}");
    }
}

// The searches and the jumps.
fn search<R: Abort + AllocGlobal>(rt: &R, reader: SegReader<'_>) -> Result<(), Fail> {
    let mut reader = reader;
    for _ in 0..5 {
        seek_all(rt, &mut reader)?;
    }
    let mut steps: Steps<Counted> = Steps::new();
    match reader.seek("f", "x", &mut steps) {
        Some(term) => advance_often(rt, &reader, &term),
        None => return Err(Fail::from("no term")),
    }
    Ok(())
}

// The segments with these lines in the folder, of which the first is searched.
fn search_first<R: Abort + AllocGlobal>(
    rt: &R,
    dir: &mut MemDir,
    lines: &[SegInfo],
) -> Result<(), Fail>
    requires lines { All IsLine lines.now }
    requires count { length lines.now < 2 ^ 31 }
{
    let held = match held_segments(rt.alloc(), dir, lines) {
        Ok(held) => held,
        Err(_) => return Err(Fail::from("not in memory")),
    };
    let standing = match standing_segments(rt.alloc(), 1, &held) {
        Ok(standing) => standing,
        Err(_) => return Err(Fail::from("it does not stand")),
    };
    match standing.into_iter().next() {
        Some(first) => search(rt, SegReader::new(rt.alloc(), first)?),
        None => Err(Fail::from("no segment")),
    }
}

#[test]
fn a_large_segment_is_searched_in_few_steps(rt: HostRuntime) -> Result<(), Fail> {
    let mut dir = folder(rt.alloc())?;
    let names = match dir.list(rt.alloc()) {
        Ok(names) => names,
        Err(_) => return Err(Fail::from("not listed")),
    };
    match current(rt.alloc(), &mut dir, &names) {
        Ok(chosen) => search_first(&rt, &mut dir, chosen.commit.segments.as_slice()),
        Err(_) => Err(Fail::from("no commit")),
    }
}
