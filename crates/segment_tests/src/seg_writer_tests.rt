//! Rows of segments: by the format page, and not by this crate.
use lu_types::{
    Document, FileKind, IndexedField, Items, Limits, Payload, Stored, StoredValue, Text, Token,
    Vector,
};
use seg_writer::{SegmentFiles, WriteFault, WriteOptions, write_segment};
use std::alloc::Global;
use std::test::Fail;

/// How segments are written in these rows, in files of at most so many bytes.
fn options(compound: bool, file_bytes: u32) -> WriteOptions {
    let limits = Limits::program();
    WriteOptions {
        number: 0,
        index_interval: 128,
        skip_interval: 16,
        max_levels: 10,
        compound,
        limits: Limits {
            documents: limits.documents,
            tokens: limits.tokens,
            file_bytes: if file_bytes < limits.file_bytes {
                file_bytes
            } else {
                limits.file_bytes
            },
        },
    }
}

fn text(alloc: Global, text: &str) -> Result<Text, Fail> {
    Ok(Text::from_str(alloc, text)?)
}

fn token(alloc: Global, word: &str, position: u32, start: u32) -> Result<Token, Fail> {
    let end = if word.len() < 100 && start < 1000 {
        start + word.len() as u32
    } else {
        start
    };
    Ok(Token {
        text: text(alloc, word)?,
        position,
        start,
        end,
        payload: Payload::none(),
    })
}

/// A document that stores a title and is found by two words of its body, which has a vector of this kind.
fn hello(alloc: Global, vector: Vector) -> Result<Document, Fail> {
    let mut stored = Vec::new(alloc);
    stored.push(StoredValue {
        field: text(alloc, "title")?,
        tokenized: true,
        value: Stored::Text(text(alloc, "hello world")?),
    })?;
    let mut tokens = Vec::new(alloc);
    tokens.push(token(alloc, "hello", 0, 0)?)?;
    tokens.push(token(alloc, "world", 1, 6)?)?;
    let mut indexed = Vec::new(alloc);
    indexed.push(IndexedField {
        field: text(alloc, "body")?,
        norm: Some(124),
        omit_tf: false,
        vector,
        tokens: Items::new(tokens),
    })?;
    Ok(Document {
        stored: Items::new(stored),
        indexed: Items::new(indexed),
    })
}

/// The bytes of the file of a kind; none where there is no such file.
fn bytes_of(files: &SegmentFiles, kind: FileKind) -> &[u8] {
    for file in files.files.as_slice() {
        if file.kind == kind {
            return file.bytes.as_slice();
        }
    }
    &[]
}

#[test]
fn a_document_without_vectors_is_written(rt: HostRuntime) -> Result<(), Fail> {
    let alloc = rt.alloc();
    let docs = vec![in alloc; hello(alloc, Vector::Off)?]?;
    let files = match write_segment(alloc, docs.as_slice(), &options(false, 0x7fff_ffff)) {
        Ok(files) => files,
        Err(_) => return Err(Fail::from("not written")),
    };
    assert_eq!(rt;
        bytes_of(&files, FileKind::Fnm),
        b"\xFE\xFF\xFF\xFF\x0F\x02\x05title\x10\x04body\x01".as_slice()
    );
    assert_eq!(rt;
        bytes_of(&files, FileKind::Fdx),
        b"\0\0\0\x02\0\0\0\0\0\0\0\x04".as_slice()
    );
    assert_eq!(rt;
        bytes_of(&files, FileKind::Fdt),
        b"\0\0\0\x02\x01\0\x01\x0Bhello world".as_slice()
    );
    assert_eq!(rt;
        bytes_of(&files, FileKind::Tis),
        b"\xFF\xFF\xFF\xFC\0\0\0\0\0\0\0\x02\0\0\0\x80\0\0\0\x10\0\0\0\x0A\0\x05hello\x01\x01\0\0\0\x05world\x01\x01\x01\x01".as_slice()
    );
    assert_eq!(rt;
        bytes_of(&files, FileKind::Tii),
        b"\xFF\xFF\xFF\xFC\0\0\0\0\0\0\0\x01\0\0\0\x80\0\0\0\x10\0\0\0\x0A\0\0\xFF\xFF\xFF\xFF\x0F\0\0\0\x18".as_slice()
    );
    assert_eq!(rt; bytes_of(&files, FileKind::Frq), b"\x01\x01".as_slice());
    assert_eq!(rt; bytes_of(&files, FileKind::Prx), b"\0\x01".as_slice());
    assert_eq!(rt; bytes_of(&files, FileKind::Nrm), b"NRM\xFF\x7C".as_slice());
    assert_eq!(rt; files.size, 1);
    assert_eq!(rt; files.has_prox, true);
    Ok(())
}

#[test]
fn a_document_with_vectors_is_written(rt: HostRuntime) -> Result<(), Fail> {
    let alloc = rt.alloc();
    let docs = vec![in alloc; hello(alloc, Vector::Both)?]?;
    let files = match write_segment(alloc, docs.as_slice(), &options(false, 0x7fff_ffff)) {
        Ok(files) => files,
        Err(_) => return Err(Fail::from("not written")),
    };
    assert_eq!(rt;
        bytes_of(&files, FileKind::Fnm),
        b"\xFE\xFF\xFF\xFF\x0F\x02\x05title\x10\x04body\x0F".as_slice()
    );
    assert_eq!(rt;
        bytes_of(&files, FileKind::Tvx),
        b"\0\0\0\x04\0\0\0\0\0\0\0\x04\0\0\0\0\0\0\0\x04".as_slice()
    );
    assert_eq!(rt;
        bytes_of(&files, FileKind::Tvd),
        b"\0\0\0\x04\x01\x01".as_slice()
    );
    assert_eq!(rt;
        bytes_of(&files, FileKind::Tvf),
        b"\0\0\0\x04\x02\x03\0\x05hello\x01\0\0\x05\0\x05world\x01\x01\x06\x05".as_slice()
    );
    Ok(())
}

#[test]
fn the_first_file_over_the_limit_is_told(rt: HostRuntime) -> Result<(), Fail> {
    let alloc = rt.alloc();
    let docs = vec![in alloc; hello(alloc, Vector::Both)?]?;
    for (limit, compound, kind) in [
        (18, false, FileKind::Fnm),
        (19, false, FileKind::Tis),
        (45, false, FileKind::Tis),
        (46, true, FileKind::Cfs),
    ] {
        match write_segment(alloc, docs.as_slice(), &options(compound, limit)) {
            Err(fault) => assert_eq!(rt; fault, WriteFault::TooLarge(kind)),
            Ok(_) => return Err(Fail::from("written")),
        }
    }
    Ok(())
}

#[test]
fn a_compound_segment_is_one_file(rt: HostRuntime) -> Result<(), Fail> {
    let alloc = rt.alloc();
    let docs = vec![in alloc; hello(alloc, Vector::Both)?]?;
    match write_segment(alloc, docs.as_slice(), &options(true, 0x7fff_ffff)) {
        Ok(files) => {
            assert_eq!(rt; files.files.as_slice().len(), 1);
            assert_eq!(rt; bytes_of(&files, FileKind::Cfs).len() > 200, true);
        }
        Err(_) => return Err(Fail::from("not written")),
    }
    Ok(())
}
