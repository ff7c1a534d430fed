ghost use Rattle.std.specs.Prelude.{◌≡◌, ◌<◌, ℕ, true, option_copied};
ghost use Rattle.segment_infos.specs.Values.{IsLine};
ghost use Rattle.check_index.specs.Files.{IsShort};
ghost use Rattle.check_index.specs.Opened.{IsTermOf};

use crate::seg_reader_samples::{
    line_of_many, line_of_three, parts_of_many, parts_of_three, parts_with_payloads,
};
use check_index::{Parts, check_segment};
use lu_prims::Steps;
use lu_types::TermInfo;
use seg_reader::{PostingsCursor, SegReader};
use segment_infos::SegInfo;
use std::alloc::Global;
use std::process::Abort;
use std::test::Fail;
use stored_fields::ValueRef;
use term_dict::TermCursor;

/// What is counted.
struct Read;

/// Whether the file has as many bytes as a file may have.
fn is_short(file: Option<&[u8]>) -> bool
    ensures { result ≡ true → IsShort (option_copied file.entry) }
{
    match file {
        Some(bytes) => bytes.len() < 0x8000_0000,
        None => true,
    }
}

/// Whether the files of documents have.
fn are_short_documents(parts: &Parts<'_>) -> bool
    ensures { result ≡ true → (IsShort (option_copied parts.now.fdx)) × (IsShort (option_copied parts.now.tvx))
        × (IsShort (option_copied parts.now.tvd)) × (IsShort (option_copied parts.now.tvf)) }
{
    is_short(parts.fdx) && is_short(parts.tvx) && is_short(parts.tvd) && is_short(parts.tvf)
}

/// Whether the other files have.
fn are_short_index(parts: &Parts<'_>) -> bool
    ensures { result ≡ true → (IsShort (option_copied parts.now.tis)) × (IsShort (option_copied parts.now.frq))
        × (IsShort (option_copied parts.now.prx)) × (IsShort (option_copied parts.now.cfs)) × (IsShort (option_copied parts.now.cfx)) }
{
    is_short(parts.tis)
        && is_short(parts.frq)
        && is_short(parts.prx)
        && is_short(parts.cfs)
        && is_short(parts.cfx)
}

/// A reader of the segment of these files, if they stand.
fn reader_of<'a>(alloc: Global, parts: Parts<'a>, line: &SegInfo) -> Option<SegReader<'a>>
    requires { IsLine line.now }
{
    if !are_short_documents(&parts) {
        return None;
    }
    if !are_short_index(&parts) {
        return None;
    }
    let standing = match check_segment(alloc, parts, 0, line) {
        Ok(standing) => standing,
        Err(_) => return None,
    };
    match SegReader::new(alloc, standing) {
        Ok(reader) => Some(reader),
        Err(_) => None,
    }
}

/// A reader of the segment of three documents.
fn reader_of_three(alloc: Global) -> Option<SegReader<'static>> {
    let Ok(line) = line_of_three(alloc) else {
        return None;
    };
    let Ok(parts) = parts_of_three(alloc) else {
        return None;
    };
    reader_of(alloc, parts, &line)
}

/// The text that a document stores, if it stores a text.
fn stored_text<'a>(reader: &SegReader<'a>, doc: u32) -> Option<&'a str>
    requires { doc < reader.now.index.size }
{
    match reader.stored(doc).next() {
        Some(stored) => match stored.value {
            ValueRef::Text(text) => Some(text),
            ValueRef::Binary(_) => None,
        },
        None => None,
    }
}

/// A document is live or not, and stores this text or none.
fn lends_document(
    rt: &impl Abort,
    reader: &SegReader<'_>,
    doc: u32,
    is_live: bool,
    text: Option<&str>,
)
    requires { doc < reader.now.index.size }
{
    assert!(rt; reader.is_live(doc) == is_live);
    assert!(rt; stored_text(reader, doc) == text);
}

/// Three documents, of which the second is deleted.
fn lends_documents(rt: &impl Abort, reader: &SegReader<'_>) {
    assert!(rt; reader.size() == 3);
    assert!(rt; reader.deleted() == 1);
    assert!(rt; reader.live().count() == 1);
    assert!(rt; reader.fields().count() == 4);
    lends_document(rt, reader, 0, true, Some("a"));
    lends_document(rt, reader, 1, false, None);
    lends_document(rt, reader, 2, true, Some("c"));
}

/// Norms from a file of their own and from that of all fields, and fields without norms.
fn lends_norms(rt: &impl Abort, reader: &SegReader<'_>) {
    assert!(rt; reader.size() == 3);
    assert!(rt; reader.norm(0, 0) == None);
    assert!(rt; reader.norm(1, 2) == Some(9));
    assert!(rt; reader.norm(2, 0) == None);
    assert!(rt; reader.norm(3, 1) == Some(5));
    assert!(rt; reader.norm(4, 0) == None);
    assert!(rt; reader.norm_column(1) == Some([7, 8, 9].as_slice()));
}

/// The only vector of a document has this term first.
fn has_vector(
    rt: &impl Abort,
    alloc: Global,
    reader: &SegReader<'_>,
    doc: u32,
    wanted: &str,
) -> Result<(), Fail>
    requires { doc < reader.now.index.size }
{
    let Some(vectors) = reader.vectors(doc) else {
        assert!(rt; false, "document {doc} has no vector");
        return Ok(());
    };
    assert!(rt; vectors.count() == 1);
    let mut terms = vectors.terms(alloc, 0)?;
    assert!(rt; terms.next());
    assert!(rt; terms.text() == wanted);
    Ok(())
}

/// A document without vectors, and two that have one.
fn lends_vectors(rt: &impl Abort, alloc: Global, reader: &SegReader<'_>) -> Result<(), Fail> {
    assert!(rt; reader.size() == 3);
    assert!(rt; reader.vectors(0).is_none());
    has_vector(rt, alloc, reader, 1, "b")?;
    has_vector(rt, alloc, reader, 2, "c")
}

/// The number of documents of the next term, and its text.
fn passes_term(rt: &impl Abort, terms: &mut TermCursor<'_>, doc_freq: u32, text: &str) {
    match terms.next() {
        Some(info) => {
            assert!(rt; info.doc_freq == doc_freq);
            assert!(rt; terms.text() == text);
        }
        None => assert!(rt; false, "there is no {text}"),
    }
}

/// A walk over its two terms.
fn lends_terms(rt: &impl Abort, alloc: Global, reader: &SegReader<'_>) -> Result<(), Fail> {
    let mut terms = reader.terms(alloc)?;
    passes_term(rt, &mut terms, 3, "hello");
    passes_term(rt, &mut terms, 1, "x");
    assert!(rt; terms.next().is_none());
    Ok(())
}

/// Documents, norms, vectors and terms.
fn lends_parts(rt: &impl Abort, alloc: Global, reader: &SegReader<'_>) -> Result<(), Fail> {
    lends_documents(rt, reader);
    lends_norms(rt, reader);
    lends_vectors(rt, alloc, reader)?;
    lends_terms(rt, alloc, reader)
}

#[test]
fn a_reader_lends_the_parts_of_its_segment(rt: HostRuntime) -> Result<(), Fail> {
    match reader_of_three(rt.alloc()) {
        Some(reader) => lends_parts(&rt, rt.alloc(), &reader),
        None => {
            assert!(&rt; false, "it does not stand");
            Ok(())
        }
    }
}

/// A term is found, in so many documents, or not; that takes so many steps.
fn finds(
    rt: &impl Abort,
    reader: &mut SegReader<'_>,
    name: (&str, &str),
    doc_freq: Option<u32>,
    count: u64,
) {
    let mut steps: Steps<Read> = Steps::new();
    match reader.seek(name.0, name.1, &mut steps) {
        Some(info) => assert!(rt; doc_freq == Some(info.doc_freq)),
        None => assert!(rt; doc_freq == None),
    }
    assert!(rt; steps.count() == count);
}

/// Terms that are there, and terms that are not.
fn finds_terms(rt: &impl Abort, reader: &mut SegReader<'_>) {
    finds(rt, reader, ("body", "hello"), Some(3), 1);
    finds(rt, reader, ("tag", "x"), Some(1), 2);
    finds(rt, reader, ("body", "hell"), None, 1);
    finds(rt, reader, ("tag", "y"), None, 2);
    finds(rt, reader, ("none", "x"), None, 2);
}

#[test]
fn a_term_is_found_by_its_name_and_text(rt: HostRuntime) {
    match reader_of_three(rt.alloc()) {
        Some(mut reader) => finds_terms(&rt, &mut reader),
        None => assert!(&rt; false, "it does not stand"),
    }
}

/// What a cursor answers to these targets in turn.
fn answers(rt: &impl Abort, mut cursor: PostingsCursor<'_>, asked: &[(u32, Option<u32>)]) {
    let mut steps: Steps<Read> = Steps::new();
    for (target, wanted) in asked {
        let document = cursor.advance(*target, &mut steps);
        assert!(rt; document == *wanted);
    }
}

/// Cursors over live documents pass over document 1, and those over all documents do not.
fn passes_over_deleted(rt: &impl Abort, reader: &SegReader<'_>, info: &TermInfo)
    requires { (n : ℕ) × IsTermOf reader.now n info.now }
{
    answers(
        rt,
        reader.postings(info),
        &[(0, Some(0)), (0, Some(2)), (0, None), (0, None)],
    );
    answers(rt, reader.postings(info), &[(1, Some(2))]);
    answers(rt, reader.postings(info), &[(2147483646, None), (0, None)]);
    answers(
        rt,
        reader.all_postings(info),
        &[(0, Some(0)), (0, Some(1)), (0, Some(2)), (0, None)],
    );
}

/// The next document has one occurrence, at the position of its number.
fn passes_document(rt: &impl Abort, cursor: &mut PostingsCursor<'_>, doc: u32) {
    let mut steps: Steps<Read> = Steps::new();
    assert!(rt; cursor.next(&mut steps) == Some(doc));
    assert!(rt; cursor.freq() == 1);
    match cursor.occurrence() {
        Some(occ) => assert!(rt; occ.position == doc),
        None => assert!(rt; false, "document {doc} has no occurrence"),
    }
    assert!(rt; cursor.occurrence().is_none());
}

/// The occurrences of all documents.
fn lends_occurrences(rt: &impl Abort, reader: &SegReader<'_>, info: &TermInfo)
    requires { (n : ℕ) × IsTermOf reader.now n info.now }
{
    let mut cursor = reader.all_postings(info);
    passes_document(rt, &mut cursor, 0);
    passes_document(rt, &mut cursor, 1);
    passes_document(rt, &mut cursor, 2);
}

/// Cursors over the entries of a term in three documents.
fn walks_three(rt: &impl Abort, reader: &mut SegReader<'_>) {
    let mut steps: Steps<Read> = Steps::new();
    match reader.seek("body", "hello", &mut steps) {
        Some(info) => {
            passes_over_deleted(rt, reader, &info);
            lends_occurrences(rt, reader, &info);
        }
        None => assert!(rt; false, "it has no term"),
    }
}

#[test]
fn a_cursor_passes_over_deleted_documents(rt: HostRuntime) {
    match reader_of_three(rt.alloc()) {
        Some(mut reader) => walks_three(&rt, &mut reader),
        None => assert!(&rt; false, "it does not stand"),
    }
}

/// The last of many documents is found in so many steps.
fn jumps(rt: &impl Abort, reader: &mut SegReader<'_>) {
    let mut steps: Steps<Read> = Steps::new();
    match reader.seek("f", "a", &mut steps) {
        Some(info) => {
            let mut taken: Steps<Read> = Steps::new();
            let mut cursor = reader.postings(&info);
            assert!(rt; cursor.advance(34, &mut taken) == Some(34));
            assert!(rt; taken.count() <= 16);
        }
        None => assert!(rt; false, "it has no term"),
    }
}

#[test]
fn a_cursor_jumps_by_the_skip_data(rt: HostRuntime) {
    let alloc = rt.alloc();
    match reader_of(alloc, parts_of_many(alloc), &line_of_many(alloc)) {
        Some(mut reader) => jumps(&rt, &mut reader),
        None => assert!(&rt; false, "it does not stand"),
    }
}

/// The occurrence of the document behind a jump has its own payload.
fn lends_payload(rt: &impl Abort, cursor: &mut PostingsCursor<'_>) {
    let mut steps: Steps<Read> = Steps::new();
    assert!(rt; cursor.advance(20, &mut steps) == Some(20));
    match cursor.occurrence() {
        Some(occ) => {
            assert!(rt; occ.position == 0);
            assert!(rt; occ.payload == [120].as_slice());
        }
        None => assert!(rt; false, "it has no occurrence"),
    }
}

/// A cursor over the entries of a term with payloads.
fn jumps_to_payload(rt: &impl Abort, reader: &mut SegReader<'_>) {
    let mut steps: Steps<Read> = Steps::new();
    match reader.seek("f", "a", &mut steps) {
        Some(info) => {
            let mut cursor = reader.postings(&info);
            lends_payload(rt, &mut cursor);
        }
        None => assert!(rt; false, "it has no term"),
    }
}

#[test]
fn an_occurrence_behind_a_jump_has_its_payload(rt: HostRuntime) {
    let alloc = rt.alloc();
    match reader_of(alloc, parts_with_payloads(alloc), &line_of_many(alloc)) {
        Some(mut reader) => jumps_to_payload(&rt, &mut reader),
        None => assert!(&rt; false, "it does not stand"),
    }
}
