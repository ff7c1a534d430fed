//! Rows of merges: segments are written of documents, some of these are deleted, and what is left is merged.
ghost use Rattle.std.specs.Prelude.{◌≡◌, ◌<◌, ◌^◌, true, length, IfOk, option_copied};
ghost use Rattle.segment_infos.specs.Values.{IsLine};
ghost use Rattle.check_index.specs.Files.{IsShort};

use check_index::{Parts, SepFiles, check_segment};
use lu_prims::Steps;
use lu_types::{
    Document, FileKind, IndexedField, Items, Limits, Payload, Stored, StoredValue, Text, Token,
    Vector,
};
use seg_merger::{MergeFault, SegmentFiles, Sources, WriteOptions, merge};
use seg_reader::SegReader;
use seg_writer::write_segment;
use segment_infos::SegInfo;
use std::alloc::Global;
use std::test::Fail;

/// What is counted.
struct Read;

/// How segments are written in these rows.
fn options(compound: bool, documents: u32, file_bytes: u32) -> WriteOptions {
    let limits = Limits::program();
    WriteOptions {
        number: 0,
        index_interval: 128,
        skip_interval: 16,
        max_levels: 10,
        compound,
        limits: Limits {
            documents: documents.min(limits.documents),
            tokens: limits.tokens,
            file_bytes: file_bytes.min(limits.file_bytes),
        },
    }
}

fn text(alloc: Global, text: &str) -> Result<Text, Fail> {
    Ok(Text::from_str(alloc, text)?)
}

/// A stored text.
fn stored(alloc: Global, field: &str, value: &str) -> Result<StoredValue, Fail> {
    Ok(StoredValue {
        field: text(alloc, field)?,
        tokenized: true,
        value: Stored::Text(text(alloc, value)?),
    })
}

/// A field with one token.
fn indexed(
    alloc: Global,
    field: &str,
    norm: Option<u8>,
    vector: Vector,
    word: &str,
) -> Result<IndexedField, Fail> {
    let token = Token {
        text: text(alloc, word)?,
        position: 3,
        start: 10,
        end: 11,
        payload: Payload::none(),
    };
    Ok(IndexedField {
        field: text(alloc, field)?,
        norm,
        omit_tf: false,
        vector,
        tokens: Items::new(vec![in alloc; token]?),
    })
}

/// A document of the first segment: it stores a title, and its body has a norm and a vector.
fn of_first(alloc: Global, word: &str) -> Result<Document, Fail> {
    Ok(Document {
        stored: Items::new(vec![in alloc; stored(alloc, "title", word)?]?),
        indexed: Items::new(vec![in alloc; indexed(alloc, "body", Some(7), Vector::Both, word)?]?),
    })
}

/// A document of the second segment: its fields are in another order, its tag has a vector, and its body has neither.
fn of_second(alloc: Global, word: &str) -> Result<Document, Fail> {
    let tag = stored(alloc, "tag", word)?;
    let title = stored(alloc, "title", "second")?;
    let tags = indexed(alloc, "tag", Some(9), Vector::Positions, word)?;
    let body = indexed(alloc, "body", None, Vector::Off, word)?;
    Ok(Document {
        stored: Items::new(vec![in alloc; tag, title]?),
        indexed: Items::new(vec![in alloc; tags, body]?),
    })
}

/// The segment of documents.
fn segment(alloc: Global, docs: &[Document], compound: bool) -> Result<SegmentFiles, Fail> {
    if docs.len() > 10 {
        return Err(Fail::from("too many"));
    }
    match write_segment(alloc, docs, &options(compound, 0x7fff_ffff, 0x7fff_ffff)) {
        Ok(files) => Ok(files),
        Err(_) => Err(Fail::from("not written")),
    }
}

/// The file of a kind.
fn file_of(files: &SegmentFiles, kind: FileKind) -> Option<&[u8]> {
    for file in files.files.as_slice() {
        if file.kind == kind {
            return Some(file.bytes.as_slice());
        }
    }
    None
}

/// The parts of a segment, of which these documents are deleted.
fn parts_of<'a>(alloc: Global, files: &'a SegmentFiles, del: &'a [u8]) -> Parts<'a> {
    Parts {
        cfs: None,
        cfx: None,
        fnm: file_of(files, FileKind::Fnm),
        fdx: file_of(files, FileKind::Fdx),
        fdt: file_of(files, FileKind::Fdt),
        tis: file_of(files, FileKind::Tis),
        tii: file_of(files, FileKind::Tii),
        frq: file_of(files, FileKind::Frq),
        prx: file_of(files, FileKind::Prx),
        nrm: file_of(files, FileKind::Nrm),
        separate: SepFiles::new(alloc),
        del: Some(del),
        tvx: file_of(files, FileKind::Tvx),
        tvd: file_of(files, FileKind::Tvd),
        tvf: file_of(files, FileKind::Tvf),
    }
}

/// The line in the commit of a segment of three documents, of which one is deleted.
fn line_of_three(alloc: Global) -> SegInfo
    ensures { IsLine result }
{
    SegInfo {
        number: 0,
        size: 3,
        del_gen: Some(1),
        store: None,
        norm_gens: None,
        compound: false,
        deleted: 1,
        has_prox: true,
        diagnostics: Items::new(Vec::new(alloc)),
    }
}

/// Whether the file has as many bytes as a file may have.
fn is_short(file: Option<&[u8]>) -> bool
    ensures { result ≡ true → IsShort (option_copied file.entry) }
{
    match file {
        Some(bytes) => bytes.len() < 0x8000_0000,
        None => true,
    }
}

/// Whether the files of documents have.
fn are_short_documents(parts: &Parts<'_>) -> bool
    ensures { result ≡ true → (IsShort (option_copied parts.now.fdx)) × (IsShort (option_copied parts.now.tvx))
        × (IsShort (option_copied parts.now.tvd)) × (IsShort (option_copied parts.now.tvf)) }
{
    is_short(parts.fdx) && is_short(parts.tvx) && is_short(parts.tvd) && is_short(parts.tvf)
}

/// Whether the other files have.
fn are_short_index(parts: &Parts<'_>) -> bool
    ensures { result ≡ true → (IsShort (option_copied parts.now.tis)) × (IsShort (option_copied parts.now.frq))
        × (IsShort (option_copied parts.now.prx)) × (IsShort (option_copied parts.now.cfs)) × (IsShort (option_copied parts.now.cfx)) }
{
    is_short(parts.tis)
        && is_short(parts.frq)
        && is_short(parts.prx)
        && is_short(parts.cfs)
        && is_short(parts.cfx)
}

/// A reader of a segment of three documents, of which these are deleted.
fn reader_of<'a>(
    alloc: Global,
    files: &'a SegmentFiles,
    del: &'a [u8],
) -> Result<SegReader<'a>, Fail> {
    let parts = parts_of(alloc, files, del);
    if !are_short_documents(&parts) {
        return Err(Fail::from("too long"));
    }
    if !are_short_index(&parts) {
        return Err(Fail::from("too long"));
    }
    match check_segment(alloc, parts, 0, &line_of_three(alloc)) {
        Ok(standing) => Ok(SegReader::new(alloc, standing)?),
        Err(_) => Err(Fail::from("it does not stand")),
    }
}

/// Both are in order.
fn both<'a>(alloc: Global, first: SegReader<'a>, second: SegReader<'a>) -> Result<Sources<'a>, Fail>
    ensures { IfOk result (λ sources. length sources < 2 ^ 32) }
{
    let mut sources = Sources::new(alloc);
    match sources.push(first) {
        Ok(()) => {}
        Err(_) => return Err(Fail::from("no memory")),
    }
    match sources.push(second) {
        Ok(()) => Ok(sources),
        Err(_) => Err(Fail::from("no memory")),
    }
}

/// One alone.
fn alone<'a>(alloc: Global, reader: SegReader<'a>) -> Result<Sources<'a>, Fail>
    ensures { IfOk result (λ sources. length sources < 2 ^ 32) }
{
    let mut sources = Sources::new(alloc);
    match sources.push(reader) {
        Ok(()) => Ok(sources),
        Err(_) => Err(Fail::from("no memory")),
    }
}

/// Both segments have the same files.
fn are_same(merged: &SegmentFiles, wanted: &SegmentFiles) -> bool {
    if merged.size != wanted.size || merged.has_prox != wanted.has_prox {
        return false;
    }
    if merged.files.as_slice().len() != wanted.files.as_slice().len() {
        return false;
    }
    for file in wanted.files.as_slice() {
        if file_of(merged, file.kind) != Some(file.bytes.as_slice()) {
            return false;
        }
    }
    true
}

/// Document 1 of three is deleted.
const SECOND_OF_THREE: [u8; 9] = [0, 0, 0, 3, 0, 0, 0, 1, 2];

/// Document 0 of three is deleted.
const FIRST_OF_THREE: [u8; 9] = [0, 0, 0, 3, 0, 0, 0, 1, 1];

/// Whether both segments, without the second document of one and the first of the other, merge to this one.
fn merges_to(
    alloc: Global,
    first: &SegmentFiles,
    second: &SegmentFiles,
    wanted: &SegmentFiles,
) -> Result<bool, Fail> {
    let first_reader = reader_of(alloc, first, &SECOND_OF_THREE)?;
    let second_reader = reader_of(alloc, second, &FIRST_OF_THREE)?;
    let sources = both(alloc, first_reader, second_reader)?;
    let mut steps: Steps<Read> = Steps::new();
    match merge(
        alloc,
        &sources,
        &options(wanted.compound, 4, 0x7fff_ffff),
        &mut steps,
    ) {
        Ok(files) => Ok(are_same(&files, wanted)),
        Err(_) => Err(Fail::from("not merged")),
    }
}

#[test]
fn the_documents_left_are_merged(rt: HostRuntime) -> Result<(), Fail> {
    let alloc = rt.alloc();
    let firsts = vec![in alloc;
        of_first(alloc, "a")?,
        of_first(alloc, "b")?,
        of_first(alloc, "c")?,
    ]?;
    let seconds = vec![in alloc;
        of_second(alloc, "d")?,
        of_second(alloc, "a")?,
        of_second(alloc, "e")?,
    ]?;
    let left = vec![in alloc;
        of_first(alloc, "a")?,
        of_first(alloc, "c")?,
        of_second(alloc, "a")?,
        of_second(alloc, "e")?,
    ]?;
    let first = segment(alloc, firsts.as_slice(), false)?;
    let second = segment(alloc, seconds.as_slice(), false)?;
    for compound in [false, true] {
        let wanted = segment(alloc, left.as_slice(), compound)?;
        assert!(rt; merges_to(alloc, &first, &second, &wanted)?);
    }
    Ok(())
}

#[test]
fn too_many_documents_and_the_first_file_over_the_limit_are_told(
    rt: HostRuntime,
) -> Result<(), Fail> {
    let alloc = rt.alloc();
    let docs = vec![in alloc;
        of_first(alloc, "a")?,
        of_first(alloc, "b")?,
        of_first(alloc, "c")?,
    ]?;
    let files = segment(alloc, docs.as_slice(), false)?;
    let sources = alone(alloc, reader_of(alloc, &files, &SECOND_OF_THREE)?)?;
    for (documents, bytes, compound, fault) in [
        (1, 0, false, MergeFault::TooMany(2)),
        (2, 18, false, MergeFault::TooLarge(FileKind::Fnm)),
        (2, 60, true, MergeFault::TooLarge(FileKind::Cfs)),
    ] {
        let mut steps: Steps<Read> = Steps::new();
        match merge(
            alloc,
            &sources,
            &options(compound, documents, bytes),
            &mut steps,
        ) {
            Err(found) => assert_eq!(rt; found, fault),
            Ok(_) => return Err(Fail::from("merged")),
        }
    }
    Ok(())
}

/// A document that stores one value.
fn storing(alloc: Global, field: &str) -> Result<Document, Fail> {
    Ok(Document {
        stored: Items::new(vec![in alloc; stored(alloc, field, "x")?]?),
        indexed: Items::new(Vec::new(alloc)),
    })
}

#[test]
fn a_field_of_deleted_documents_stays(rt: HostRuntime) -> Result<(), Fail> {
    let alloc = rt.alloc();
    let docs = vec![in alloc;
        storing(alloc, "gone")?,
        of_first(alloc, "a")?,
        storing(alloc, "title")?,
    ]?;
    let files = segment(alloc, docs.as_slice(), false)?;
    let sources = alone(alloc, reader_of(alloc, &files, &FIRST_OF_THREE)?)?;
    let mut steps: Steps<Read> = Steps::new();
    match merge(alloc, &sources, &options(false, 4, 0x7fff_ffff), &mut steps) {
        Ok(merged) => {
            assert_eq!(rt;
                file_of(&merged, FileKind::Fnm),
                Some(b"\xFE\xFF\xFF\xFF\x0F\x03\x04gone\x10\x05title\x10\x04body\x0F".as_slice())
            );
            assert_eq!(rt;
                file_of(&merged, FileKind::Fdt),
                Some(b"\0\0\0\x02\x01\x01\x01\x01a\x01\x01\x01\x01x".as_slice())
            );
        }
        Err(_) => return Err(Fail::from("not merged")),
    }
    Ok(())
}
