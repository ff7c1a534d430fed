//! What tests hand to a writer: each call after a test that it may come.
ghost use Rattle.std.specs.Prelude.{◌≡◌, true};
ghost use Rattle.term_vectors.specs.VectorWriting.{IsDocumentWhole};

use std::process::Abort;
use std::test::Fail;
use term_vectors::{VectorFiles, VectorWriter};

/// Whether nothing lacks.
pub fn is_whole(writer: &VectorWriter) -> bool
    ensures { result ≡ true → IsDocumentWhole writer.now }
{
    let lacks = writer.lacks();
    lacks.vectors == 0 && lacks.terms == 0 && lacks.positions == 0 && lacks.pairs == 0
}

/// Begins a document.
pub fn put_document(rt: &impl Abort, writer: &mut VectorWriter, count: u32) -> Result<(), Fail> {
    if !is_whole(writer) {
        panic!(rt; "something lacks");
    }
    writer.begin_doc(count)?;
    Ok(())
}

/// Begins a vector.
pub fn put_vector(
    rt: &impl Abort,
    writer: &mut VectorWriter,
    number: u32,
    bits: u8,
    terms: u32,
) -> Result<(), Fail> {
    let lacks = writer.lacks();
    assert!(rt; lacks.positions == 0 && lacks.pairs == 0);
    assert!(rt; lacks.vectors > 0 && lacks.terms == 0);
    writer.begin_field(number, bits, terms)?;
    Ok(())
}

/// Begins a term.
pub fn put_term(
    rt: &impl Abort,
    writer: &mut VectorWriter,
    text: &str,
    freq: u32,
) -> Result<(), Fail> {
    let lacks = writer.lacks();
    assert!(rt; lacks.positions == 0 && lacks.pairs == 0);
    assert!(rt; lacks.terms > 0 && text.len() < 1000);
    writer.begin_term(text, freq)?;
    Ok(())
}

/// Adds a position.
pub fn put_position(rt: &impl Abort, writer: &mut VectorWriter, position: u32) -> Result<(), Fail> {
    assert!(rt; writer.lacks().positions > 0);
    writer.position(position)?;
    Ok(())
}

/// Adds a pair.
pub fn put_pair(
    rt: &impl Abort,
    writer: &mut VectorWriter,
    start: u32,
    end: u32,
) -> Result<(), Fail> {
    let lacks = writer.lacks();
    assert!(rt; lacks.positions == 0 && lacks.pairs > 0);
    writer.offsets(start, end)?;
    Ok(())
}

/// The files of a writer.
pub fn files_of(rt: &impl Abort, writer: VectorWriter) -> VectorFiles {
    if !is_whole(&writer) {
        panic!(rt; "something lacks");
    }
    writer.finish()
}
