use lu_types::rules::{
    ENDS, TRAILING, TVD_FORMAT, TVD_PLACE, TVF_FORMAT, TVF_PLACE, TVF_SUM, TVX_FORMAT, TVX_PLACE,
    VECTOR_BITS, VECTOR_FIELD, VECTOR_FREQ, VECTOR_OFFSET, VECTOR_ORDER, VECTOR_POSITION,
    VECTOR_PREFIX, VECTOR_TWICE, VECTOR_UTF8,
};
use lu_types::{CodecFault, FieldTable, FileKind, Window};
use std::alloc::Global;
use std::process::Abort;
use std::test::Fail;
use term_vectors::{OffsetPair, VectorField, VectorView};

/// `.tvx` of one document.
const TVX: [u8; 20] = [0, 0, 0, 4, 0, 0, 0, 0, 0, 0, 0, 4, 0, 0, 0, 0, 0, 0, 0, 4];

/// `.tvd` of one document with a vector of field 1.
const TVD: [u8; 6] = [0, 0, 0, 4, 1, 1];

/// `.tvf` of the text `hello world`, with positions and offsets.
const TVF: [u8; 28] = [
    0, 0, 0, 4, 2, 3, 0, 5, b'h', b'e', b'l', b'l', b'o', 1, 0, 0, 5, 0, 5, b'w', b'o', b'r', b'l',
    b'd', 1, 1, 6, 5,
];

/// A fault, or none.
type Verdict = Option<(FileKind, u64, u16)>;

/// The field `title`, which has no vectors, and `body` and `tags`, which have.
fn three_fields<'a>(alloc: Global) -> Result<FieldTable<'a>, Fail> {
    let mut fields = FieldTable::new(alloc);
    for (name, bits) in [("title", 0x10), ("body", 0x0F), ("tags", 0x03)] {
        if fields.find(name).is_none() && fields.count() < 9 {
            fields.push(name, bits)?;
        }
    }
    Ok(fields)
}

/// The bytes with one of them changed.
fn with_byte(alloc: Global, bytes: &[u8], place: usize, byte: u8) -> Result<Vec<u8>, Fail> {
    let mut changed = bytes.to_vec(alloc)?;
    if let Some(old) = changed.get_mut(place) {
        *old = byte;
    }
    Ok(changed)
}

/// What a check answered.
fn verdict(rt: &impl Abort, checked: Result<VectorView<'_>, CodecFault>) -> Verdict {
    match checked {
        Ok(_) => None,
        Err(CodecFault::Spot(spot)) => Some((spot.kind, spot.offset, spot.rule)),
        Err(CodecFault::OutOfMemory) => panic!(rt; "no memory"),
    }
}

/// The rows of files of one document with one byte changed.
fn checks_changed(rt: &impl Abort, alloc: Global) -> Result<(), Fail> {
    let fields = three_fields(alloc)?;
    let rows = [
        (FileKind::Tvx, 3, 5, Some((FileKind::Tvx, 0, TVX_FORMAT))),
        (FileKind::Tvx, 11, 5, Some((FileKind::Tvx, 4, TVX_PLACE))),
        (FileKind::Tvx, 4, 0x80, Some((FileKind::Tvx, 4, TVX_PLACE))),
        (FileKind::Tvx, 12, 0x80, Some((FileKind::Tvx, 4, TVX_PLACE))),
        (FileKind::Tvx, 19, 5, Some((FileKind::Tvf, 4, TVF_PLACE))),
        (FileKind::Tvd, 3, 5, Some((FileKind::Tvd, 0, TVD_FORMAT))),
        (FileKind::Tvd, 4, 0, Some((FileKind::Tvd, 5, TRAILING))),
        (FileKind::Tvd, 5, 0, Some((FileKind::Tvd, 5, VECTOR_FIELD))),
        (FileKind::Tvd, 5, 3, Some((FileKind::Tvd, 5, VECTOR_FIELD))),
        (FileKind::Tvf, 3, 5, Some((FileKind::Tvf, 0, TVF_FORMAT))),
        (FileKind::Tvf, 5, 7, Some((FileKind::Tvf, 4, VECTOR_BITS))),
        (FileKind::Tvf, 6, 1, Some((FileKind::Tvf, 6, VECTOR_PREFIX))),
        (
            FileKind::Tvf,
            8,
            0xFF,
            Some((FileKind::Tvf, 6, VECTOR_UTF8)),
        ),
        (
            FileKind::Tvf,
            19,
            b'a',
            Some((FileKind::Tvf, 17, VECTOR_ORDER)),
        ),
        (FileKind::Tvf, 13, 0, Some((FileKind::Tvf, 6, VECTOR_FREQ))),
        (FileKind::Tvf, 27, 0x80, Some((FileKind::Tvf, 26, ENDS))),
        (FileKind::Tvf, 4, 1, Some((FileKind::Tvf, 17, TRAILING))),
    ];
    for (kind, place, byte, wanted) in rows {
        let bytes: &[u8] = match kind {
            FileKind::Tvx => &TVX,
            FileKind::Tvd => &TVD,
            _ => &TVF,
        };
        let changed = with_byte(alloc, bytes, place, byte)?;
        let lent = changed.as_slice();
        let checked = match kind {
            FileKind::Tvx => VectorView::check(alloc, lent, &TVD, &TVF, &fields, 1),
            FileKind::Tvd => VectorView::check(alloc, &TVX, lent, &TVF, &fields, 1),
            _ => VectorView::check(alloc, &TVX, &TVD, lent, &fields, 1),
        };
        assert!(rt; verdict(rt, checked) == wanted, "byte {place}");
    }
    Ok(())
}

/// What the check of one document answers whose vector of field 1 is these bytes.
fn check_vector(rt: &impl Abort, alloc: Global, vector: &[u8]) -> Result<Verdict, Fail> {
    let fields = three_fields(alloc)?;
    let mut tvf = TVF[..4].to_vec(alloc)?;
    tvf.extend_from_slice(vector)?;
    let checked = VectorView::check(alloc, &TVX, &TVD, tvf.as_slice(), &fields, 1);
    Ok(verdict(rt, checked))
}

/// Vectors on the edge of what is good.
fn checks_vectors(rt: &impl Abort, alloc: Global) -> Result<(), Fail> {
    let position: [u8; 11] = [1, 1, 0, 1, b'a', 1, 0xFF, 0xFF, 0xFF, 0xFF, 7];
    assert!(rt; check_vector(rt, alloc, &position)? == None);
    let over: [u8; 11] = [1, 1, 0, 1, b'a', 1, 0x80, 0x80, 0x80, 0x80, 8];
    assert!(rt; check_vector(rt, alloc, &over)? == Some((FileKind::Tvf, 10, VECTOR_POSITION)));
    let end: [u8; 12] = [1, 2, 0, 1, b'a', 1, 0, 0xFF, 0xFF, 0xFF, 0xFF, 7];
    assert!(rt; check_vector(rt, alloc, &end)? == None);
    let past: [u8; 12] = [1, 2, 0, 1, b'a', 1, 1, 0xFF, 0xFF, 0xFF, 0xFF, 7];
    assert!(rt; check_vector(rt, alloc, &past)? == Some((FileKind::Tvf, 10, VECTOR_OFFSET)));
    let often: [u8; 10] = [1, 0, 0, 1, b'a', 0xFF, 0xFF, 0xFF, 0xFF, 7];
    assert!(rt; check_vector(rt, alloc, &often)? == None);
    let units: [u8; 15] = [
        2, 0, 0, 4, 0xF0, 0x90, 0x80, 0x80, 1, 0, 3, 0xEF, 0xBD, 0xA1, 1,
    ];
    assert!(rt; check_vector(rt, alloc, &units)? == None);
    let bytes: [u8; 15] = [
        2, 0, 0, 3, 0xEF, 0xBD, 0xA1, 1, 0, 4, 0xF0, 0x90, 0x80, 0x80, 1,
    ];
    assert!(rt; check_vector(rt, alloc, &bytes)? == Some((FileKind::Tvf, 12, VECTOR_ORDER)));
    let cut: [u8; 11] = [2, 0, 0, 2, 0xC3, 0xA8, 1, 1, 1, 0xA9, 1];
    assert!(rt; check_vector(rt, alloc, &cut)? == None);
    Ok(())
}

/// What the check of one document answers whose `.tvd` goes on with these bytes.
fn check_fields_of(rt: &impl Abort, alloc: Global, document: &[u8]) -> Result<Verdict, Fail> {
    let fields = three_fields(alloc)?;
    let mut tvd = TVD[..4].to_vec(alloc)?;
    tvd.extend_from_slice(document)?;
    let checked = VectorView::check(alloc, &TVX, tvd.as_slice(), &TVF, &fields, 1);
    Ok(verdict(rt, checked))
}

/// Documents with two vectors.
fn checks_fields(rt: &impl Abort, alloc: Global) -> Result<(), Fail> {
    let twice: [u8; 4] = [2, 1, 1, 0];
    assert!(rt; check_fields_of(rt, alloc, &twice)? == Some((FileKind::Tvd, 6, VECTOR_TWICE)));
    let far: [u8; 8] = [2, 1, 2, 0xFC, 0xFF, 0xFF, 0xFF, 7];
    assert!(rt; check_fields_of(rt, alloc, &far)? == Some((FileKind::Tvd, 7, TVF_SUM)));
    let within: [u8; 8] = [2, 1, 2, 0xFB, 0xFF, 0xFF, 0xFF, 7];
    assert!(rt; check_fields_of(rt, alloc, &within)? == Some((FileKind::Tvf, 28, ENDS)));
    Ok(())
}

/// `.tvx` of three documents, the middle one without vectors.
const THREE_TVX: [u8; 52] = [
    0, 0, 0, 4, 0, 0, 0, 0, 0, 0, 0, 4, 0, 0, 0, 0, 0, 0, 0, 4, 0, 0, 0, 0, 0, 0, 0, 6, 0, 0, 0, 0,
    0, 0, 0, 7, 0, 0, 0, 0, 0, 0, 0, 7, 0, 0, 0, 0, 0, 0, 0, 10,
];

/// `.tvd` of three documents: the first has a vector of a field that is not there, the last one of field 2.
const THREE_TVD: [u8; 9] = [0, 0, 0, 4, 1, 9, 0, 1, 2];

/// `.tvf` of these documents: a term each, `a` and `b`.
const THREE_TVF: [u8; 16] = [0, 0, 0, 4, 1, 0, 0, 1, b'a', 1, 1, 0, 0, 1, b'b', 1];

/// The windows of a store.
fn checks_windows(rt: &impl Abort, alloc: Global) -> Result<(), Fail> {
    let fields = three_fields(alloc)?;
    let rows = [
        (1, 2, None),
        (0, 1, Some((FileKind::Tvd, 5, VECTOR_FIELD))),
        (0, 3, Some((FileKind::Tvd, 5, VECTOR_FIELD))),
        (3, 0, None),
        (0, 0, None),
    ];
    for (offset, count, wanted) in rows {
        let window = Window { offset, count };
        if offset < 4 && count < 4 && offset + count <= 3 {
            let checked = VectorView::check_window(
                alloc, &THREE_TVX, &THREE_TVD, &THREE_TVF, &fields, 3, window,
            );
            assert!(rt; verdict(rt, checked) == wanted, "window {offset}");
        }
    }
    let moved = with_byte(alloc, &THREE_TVX, 27, 7)?;
    let moved = with_byte(alloc, moved.as_slice(), 43, 8)?;
    let window = Window {
        offset: 1,
        count: 1,
    };
    let checked = VectorView::check_window(
        alloc,
        moved.as_slice(),
        &THREE_TVD,
        &THREE_TVF,
        &fields,
        3,
        window,
    );
    assert!(rt; verdict(rt, checked) == Some((FileKind::Tvd, 6, TVD_PLACE)));
    let cut = VectorView::check(alloc, &TVX[..12], &TVD, &TVF, &fields, 1);
    assert!(rt; verdict(rt, cut) == Some((FileKind::Tvx, 4, ENDS)));
    Ok(())
}

/// The vectors of a window.
fn reads_window(rt: &impl Abort, alloc: Global) -> Result<(), Fail> {
    let fields = three_fields(alloc)?;
    let window = Window {
        offset: 1,
        count: 2,
    };
    let checked = VectorView::check_window(
        alloc, &THREE_TVX, &THREE_TVD, &THREE_TVF, &fields, 3, window,
    );
    let Ok(view) = checked else {
        panic!(rt; "the files have a fault");
    };
    let view = view.again();
    assert!(rt; view.doc(0).count() == 0);
    let last = view.doc(1).again();
    assert!(rt; last.count() == 1);
    let field = VectorField { number: 2, bits: 0 };
    assert!(rt; last.field(0) == field);
    Ok(())
}

/// The terms of a vector.
fn reads_terms(rt: &impl Abort, alloc: Global) -> Result<(), Fail> {
    let fields = three_fields(alloc)?;
    let Ok(view) = VectorView::check(alloc, &TVX, &TVD, &TVF, &fields, 1) else {
        panic!(rt; "the files have a fault");
    };
    let document = view.doc(0);
    assert!(rt; document.count() == 1);
    let field = VectorField { number: 1, bits: 3 };
    assert!(rt; document.field(0) == field);
    let mut terms = document.terms(alloc, 0)?;
    assert!(rt; terms.next());
    assert!(rt; terms.text() == "hello");
    assert!(rt; terms.freq() == 1);
    assert!(rt; terms.next());
    assert!(rt; terms.text() == "world");
    assert!(rt; terms.position() == Some(1));
    assert!(rt; terms.position() == None);
    assert!(rt; terms.offset() == Some(OffsetPair { start: 6, end: 11 }));
    assert!(rt; terms.offset() == None);
    assert!(rt; !terms.next());
    Ok(())
}

/// A start below the end before it.
fn reads_back(rt: &impl Abort, alloc: Global) -> Result<(), Fail> {
    let fields = three_fields(alloc)?;
    let tvf: [u8; 21] = [
        0, 0, 0, 4, 1, 3, 0, 2, b'a', b'a', 2, 0, 1, 0, 2, 0xFF, 0xFF, 0xFF, 0xFF, 0x0F, 2,
    ];
    let Ok(view) = VectorView::check(alloc, &TVX, &TVD, &tvf, &fields, 1) else {
        panic!(rt; "the files have a fault");
    };
    let doc = view.doc(0);
    assert!(rt; doc.count() > 0);
    let mut terms = doc.terms(alloc, 0)?;
    assert!(rt; terms.next());
    assert!(rt; terms.offset() == Some(OffsetPair { start: 0, end: 2 }));
    assert!(rt; terms.position() == Some(0));
    assert!(rt; terms.offset() == Some(OffsetPair { start: 1, end: 3 }));
    assert!(rt; terms.position() == Some(1));
    Ok(())
}

#[test]
fn checks_and_reads(rt: HostRuntime) -> Result<(), Fail> {
    let alloc = rt.alloc();
    checks_changed(&rt, alloc)?;
    checks_vectors(&rt, alloc)?;
    checks_fields(&rt, alloc)?;
    checks_windows(&rt, alloc)?;
    reads_window(&rt, alloc)?;
    reads_terms(&rt, alloc)?;
    reads_back(&rt, alloc)
}
