//! Drawn vectors are written, checked and read: of all kinds, with characters of one to four bytes, offsets that fall, and
//! several vectors a document.
ghost use Rattle.std.specs.Prelude.{◌<◌, ◌≤◌, ◌+◌};

use crate::term_vectors_handing::{
    files_of, put_document, put_pair, put_position, put_term, put_vector,
};
use lu_types::{FieldTable, Window};
use std::alloc::Global;
use std::process::Abort;
use std::test::Fail;
use term_vectors::{
    OffsetPair, VectorDoc, VectorField, VectorFiles, VectorTerms, VectorView, VectorWriter,
};

/// How many sets of documents are drawn.
const SETS: u64 = 300;

/// Draws numbers, the same for the same state.
#[derive(Drop)]
struct Draws {
    state: u64,
}

impl Draws {
    /// A number below a limit.
    fn below(&mut self, limit: u32) -> u32
        requires { 0 < limit }
        ensures { result < limit }
    {
        self.state = self
            .state
            .wrapping_mul(6_364_136_223_846_793_005)
            .wrapping_add(1_442_695_040_888_963_407);
        let mixed: u64 = self.state ^ (self.state >> 22);
        let high = mixed / 0x1_0000_0000;
        (high % u64::from(limit)) as u32
    }

    /// The number of the next thing, a few above the last one.
    fn behind(&mut self, last: u32, most: u32) -> u32
        requires { 0 < most }
    {
        last.saturating_add(1).saturating_add(self.below(most))
    }
}

/// Texts in UTF-16 order, of characters of one to four bytes.
fn text_of(number: u32) -> &'static str {
    match number {
        0 => "",
        1 => "a",
        2 => "ab",
        3 => "abc\u{E9}",
        4 => "b",
        5 => "\u{E8}",
        6 => "\u{E9}",
        7 => "\u{E9}\u{4E2D}",
        8 => "\u{4E2D}\u{10000}",
        9 => "\u{10000}",
        10 => "\u{10000}a",
        11 => "\u{FF61}",
        _ => "\u{FF62}",
    }
}

/// The name of a field.
fn name_of(number: u32) -> &'static str {
    match number {
        0 => "f",
        1 => "g",
        2 => "h",
        3 => "i",
        4 => "j",
        5 => "k",
        _ => "l",
    }
}

/// A table of fields with vectors.
fn drawn_fields<'a>(alloc: Global) -> Result<FieldTable<'a>, Fail> {
    let mut fields = FieldTable::new(alloc);
    for number in 0..7 {
        let name = name_of(number);
        if fields.find(name).is_none() && fields.count() < 9 {
            fields.push(name, 0x0F)?;
        }
    }
    Ok(fields)
}

/// How often a term stands in its field: mostly once to three times, and where nothing else is kept at times as often as can be.
fn drawn_freq(draws: &mut Draws, bits: u8) -> u32 {
    if bits == 0 && draws.below(8) == 0 {
        return 2147483647;
    }
    1 + draws.below(3)
}

/// The bits of a vector.
fn drawn_bits(draws: &mut Draws) -> u8 {
    draws.below(4) as u8
}

/// Writes the positions and the pairs of a term.
fn write_occurrences(
    rt: &impl Abort,
    draws: &mut Draws,
    writer: &mut VectorWriter,
) -> Result<(), Fail> {
    let mut position = draws.below(3);
    for _nth in 0..writer.lacks().positions {
        put_position(rt, writer, position)?;
        position = position.saturating_add(draws.below(4));
    }
    for _nth in 0..writer.lacks().pairs {
        let start = draws.below(300);
        put_pair(rt, writer, start, start.saturating_add(draws.below(200)))?;
    }
    Ok(())
}

/// Writes the terms of a vector.
fn write_terms(
    rt: &impl Abort,
    draws: &mut Draws,
    writer: &mut VectorWriter,
    bits: u8,
    count: u32,
) -> Result<(), Fail> {
    let mut number = draws.below(3);
    for _nth in 0..count {
        put_term(rt, writer, text_of(number), drawn_freq(draws, bits))?;
        write_occurrences(rt, draws, writer)?;
        number = draws.behind(number, 3);
    }
    Ok(())
}

/// Writes the vectors of a document.
fn write_vectors(
    rt: &impl Abort,
    draws: &mut Draws,
    writer: &mut VectorWriter,
) -> Result<(), Fail> {
    let count = draws.below(4);
    put_document(rt, writer, count)?;
    let mut field = draws.below(2);
    for _nth in 0..count {
        let bits = drawn_bits(draws);
        let terms = draws.below(4);
        put_vector(rt, writer, field, bits, terms)?;
        write_terms(rt, draws, writer, bits, terms)?;
        field = draws.behind(field, 2);
    }
    Ok(())
}

/// Whether the positions and the pairs of a term are those that are drawn.
fn same_occurrences(
    rt: &impl Abort,
    draws: &mut Draws,
    terms: &mut VectorTerms<'_>,
    bits: u8,
    freq: u32,
) {
    let mut position = draws.below(3);
    if bits == 1 || bits == 3 {
        for _nth in 0..freq {
            assert!(rt; terms.position() == Some(position));
            position = position.saturating_add(draws.below(4));
        }
    }
    assert!(rt; terms.position() == None);
    if bits >= 2 {
        for _nth in 0..freq {
            let start = draws.below(300);
            let end = start.saturating_add(draws.below(200));
            assert!(rt; terms.offset() == Some(OffsetPair { start, end }));
        }
    }
    assert!(rt; terms.offset() == None);
}

/// Whether the terms of a vector are those that are drawn.
fn same_terms(
    rt: &impl Abort,
    draws: &mut Draws,
    mut terms: VectorTerms<'_>,
    bits: u8,
    count: u32,
) {
    let mut number = draws.below(3);
    for _nth in 0..count {
        let freq = drawn_freq(draws, bits);
        assert!(rt; terms.next());
        assert!(rt; terms.text() == text_of(number));
        assert!(rt; terms.freq() == freq);
        same_occurrences(rt, draws, &mut terms, bits, freq);
        number = draws.behind(number, 3);
    }
    assert!(rt; !terms.next());
}

/// Whether the vectors of a document are those that are drawn.
fn same_vectors(
    rt: &impl Abort,
    alloc: Global,
    draws: &mut Draws,
    document: &VectorDoc<'_>,
) -> Result<(), Fail> {
    let count = draws.below(4);
    assert!(rt; document.count() == count);
    let mut vectors = document.vectors();
    let mut number = draws.below(2);
    for _nth in 0..count {
        let bits = drawn_bits(draws);
        let terms = draws.below(4);
        let Some(vector) = vectors.next() else {
            panic!(rt; "a vector lacks");
        };
        let field = VectorField { number, bits };
        assert!(rt; vector.field() == field);
        same_terms(rt, draws, vector.terms(alloc)?, bits, terms);
        number = draws.behind(number, 2);
    }
    assert!(rt; vectors.next().is_none());
    Ok(())
}

/// Writes so many documents.
fn write_documents(
    rt: &impl Abort,
    alloc: Global,
    draws: &mut Draws,
    documents: u32,
) -> Result<VectorFiles, Fail> {
    let mut writer = VectorWriter::new(alloc)?;
    for _nth in 0..documents {
        write_vectors(rt, draws, &mut writer)?;
    }
    Ok(files_of(rt, writer))
}

/// Whether so many documents of files are those that are drawn.
fn same_documents(
    rt: &impl Abort,
    alloc: Global,
    draws: &mut Draws,
    files: &VectorFiles,
    documents: u32,
) -> Result<(), Fail> {
    let fields = drawn_fields(alloc)?;
    let tvx = files.tvx.as_slice();
    let tvd = files.tvd.as_slice();
    let tvf = files.tvf.as_slice();
    let window = Window {
        offset: 0,
        count: documents,
    };
    let checked = VectorView::check_window(alloc, tvx, tvd, tvf, &fields, documents, window);
    let Ok(view) = checked else {
        panic!(rt; "the files have a fault");
    };
    for number in 0..documents {
        same_vectors(rt, alloc, draws, &view.doc(number))?;
    }
    Ok(())
}

#[test]
fn drawn_vectors(rt: HostRuntime) -> Result<(), Fail> {
    let alloc = rt.alloc();
    for number in 0..SETS {
        let mut draws = Draws { state: number };
        let documents = draws.below(5);
        let files = write_documents(&rt, alloc, &mut draws, documents)?;
        let mut again = Draws { state: number };
        let same = again.below(5);
        assert!(rt; same == documents);
        same_documents(&rt, alloc, &mut again, &files, documents)?;
    }
    Ok(())
}
