//! Norms and deletions: bytes that come from the format, and not from this crate.

use doc_marks::{Live, Marks, NormWriter, Norms, check_separate, put_dense, put_sparse, write_del};
use lu_types::rules::{
    DEL_BYTE, DEL_COUNT, DEL_GAP, DEL_PAST, DEL_SIZE, DEL_TOTAL, ENDS, NORM_HEADER, TRAILING,
};
use lu_types::{FileKind, Spot};
use std::alloc::Global;
use std::process::Abort;
use std::test::Fail;

/// A fault at a place.
fn spot(kind: FileKind, offset: u64, rule: u16) -> Option<Spot> {
    Some(Spot { kind, offset, rule })
}

#[test]
fn norms_are_checked(rt: HostRuntime) {
    let rows = [
        (b"NRM\xff\x7c".as_slice(), 1, 1, None),
        (b"NRM\xff".as_slice(), 1, 1, spot(FileKind::Nrm, 4, ENDS)),
        (b"NRM\xff".as_slice(), 3, 0, None),
        (
            b"NRM\xff\x01\x02\x03".as_slice(),
            2,
            2,
            spot(FileKind::Nrm, 6, ENDS),
        ),
        (
            b"NRM\xff\x01\x02\x03".as_slice(),
            1,
            2,
            spot(FileKind::Nrm, 6, TRAILING),
        ),
        (
            b"NRM\xfe\x7c".as_slice(),
            1,
            1,
            spot(FileKind::Nrm, 0, NORM_HEADER),
        ),
        (b"NR".as_slice(), 0, 0, spot(FileKind::Nrm, 0, ENDS)),
    ];
    for (nrm, columns, documents, fault) in rows {
        assert_eq!(rt;
            Norms::check_norms(nrm, columns, documents).err(),
            fault,
            "at {nrm:?}"
        );
    }
}

#[test]
fn separate_norms_are_checked(rt: HostRuntime) {
    let rows = [
        (b"\xc8".as_slice(), 1, None),
        (b"".as_slice(), 0, None),
        (b"".as_slice(), 1, spot(FileKind::Sep(7), 0, ENDS)),
        (
            b"\xc8\x00".as_slice(),
            1,
            spot(FileKind::Sep(7), 1, TRAILING),
        ),
    ];
    for (bytes, documents, fault) in rows {
        assert_eq!(rt;
            check_separate(bytes, 7, documents).err(),
            fault,
            "at {bytes:?}"
        );
    }
}

#[test]
fn norms_are_written_and_lent(rt: HostRuntime) -> Result<(), Fail> {
    let mut writer = NormWriter::new(rt.alloc())?;
    for norm in [1, 2, 3, 4] {
        writer.add(norm)?;
    }
    let nrm = writer.finish();
    assert_eq!(rt; nrm.as_slice(), b"NRM\xff\x01\x02\x03\x04".as_slice());
    let norms = Norms::check_norms(&nrm, 2, 2)?;
    assert_eq!(rt; norms.byte(0, 1), 2);
    assert_eq!(rt; norms.again().byte(1, 0), 3);
    assert_eq!(rt; norms.column(1), b"\x03\x04".as_slice());
    Ok(())
}

#[test]
fn deletions_are_checked(rt: HostRuntime) {
    let rows = [
        (b"\0\0\0\x08\0\0\0\x01\x80\0".as_slice(), 8, 1, None),
        (b"\0\0\0\0\0\0\0\0\0".as_slice(), 0, 0, None),
        (
            b"\0\0\0\x08\0\0\0\x01\x80".as_slice(),
            8,
            1,
            Some((8, ENDS)),
        ),
        (
            b"\0\0\0\x08\0\0\0\x01\x80\0\0".as_slice(),
            8,
            1,
            Some((10, TRAILING)),
        ),
        (
            b"\0\0\0\x08\0\0\0\x01\x80\0".as_slice(),
            9,
            1,
            Some((0, DEL_SIZE)),
        ),
        (
            b"\0\0\0\x08\0\0\0\x01\x80\0".as_slice(),
            8,
            2,
            Some((0, DEL_COUNT)),
        ),
        (
            b"\0\0\0\x07\0\0\0\x01\x80".as_slice(),
            7,
            1,
            Some((8, DEL_PAST)),
        ),
        (
            b"\0\0\0\x08\0\0\0\x01\0\x01".as_slice(),
            8,
            1,
            Some((8, DEL_PAST)),
        ),
        (
            b"\0\0\0\x08\0\0\0\x01\x81\0".as_slice(),
            8,
            1,
            Some((8, DEL_TOTAL)),
        ),
        (
            b"\xff\xff\xff\xff\0\0\x1f\x40\0\0\0\x03\x01\x14\x03\x01".as_slice(),
            8000,
            3,
            None,
        ),
        (
            b"\xff\xff\xff\xff\0\0\x1f\x40\0\0\0\x03\x01\x14".as_slice(),
            8000,
            3,
            Some((14, ENDS)),
        ),
        (
            b"\xff\xff\xff\xff\0\0\x1f\x40\0\0\0\x03\x01\x14\0\x01".as_slice(),
            8000,
            3,
            Some((14, DEL_GAP)),
        ),
        (
            b"\xff\xff\xff\xff\0\0\x1f\x40\0\0\0\x02\x00\x14".as_slice(),
            8000,
            2,
            None,
        ),
        (
            b"\xff\xff\xff\xff\0\0\0\x08\0\0\0\x01\x02\x01".as_slice(),
            8,
            1,
            Some((12, DEL_GAP)),
        ),
        (
            b"\xff\xff\xff\xff\0\0\0\x08\0\0\0\x01\x01\x01".as_slice(),
            8,
            1,
            Some((12, DEL_PAST)),
        ),
        (
            b"\xff\xff\xff\xff\0\0\0\x0c\0\0\0\x01\x01\x10".as_slice(),
            12,
            1,
            Some((12, DEL_PAST)),
        ),
        (
            b"\xff\xff\xff\xff\0\0\0\x08\0\0\0\x01\0\0".as_slice(),
            8,
            1,
            Some((12, DEL_BYTE)),
        ),
        (
            b"\xff\xff\xff\xff\0\0\0\x08\0\0\0\x01\0\x03".as_slice(),
            8,
            1,
            Some((12, DEL_TOTAL)),
        ),
        (
            b"\xff\xff\xff\xff\0\0\0\x08\0\0\0\x01\0\x01\0".as_slice(),
            8,
            1,
            Some((14, TRAILING)),
        ),
    ];
    for (del, size, count, fault) in rows {
        let found = match Live::check_del(del, size, count) {
            Ok(_) => None,
            Err(spot) => Some((spot.offset, spot.rule)),
        };
        assert_eq!(rt; found, fault, "at {del:?}");
    }
}

/// Marks on some documents.
fn marked(alloc: Global, size: u32, docs: &[u32]) -> Result<Marks, Fail> {
    let mut marks = Marks::new(alloc, size % 0x7FFF_FFFF)?;
    for doc in docs {
        if *doc < marks.size() {
            marks.set(*doc);
        }
    }
    Ok(marks)
}

#[test]
fn marks_are_set(rt: HostRuntime) -> Result<(), Fail> {
    let mut marks = Marks::new(rt.alloc(), 10)?;
    if marks.size() == 10 {
        assert!(rt; marks.set(9));
    }
    if marks.size() == 10 {
        assert!(rt; !marks.set(9));
    }
    if marks.size() == 10 {
        assert!(rt; marks.is_set(9));
        assert!(rt; !marks.is_set(1));
    }
    assert_eq!(rt; marks.count(), 1);
    Ok(())
}

#[test]
fn deletions_are_written(rt: HostRuntime) -> Result<(), Fail> {
    let three = marked(rt.alloc(), 8000, &[10, 12, 32])?;
    let del = write_del(rt.alloc(), &three)?;
    assert_eq!(rt;
        del.as_slice(),
        b"\xff\xff\xff\xff\0\0\x1f\x40\0\0\0\x03\x01\x14\x03\x01".as_slice()
    );
    let mut dense = Vec::new(rt.alloc());
    put_dense(&mut dense, &three)?;
    assert_eq!(rt; dense.len(), 1009);
    assert!(rt; Live::check_del(&dense, 8000, 3).is_ok());
    if let Some(last) = dense.get_mut(1008) {
        *last = 1;
    }
    assert_eq!(rt;
        Live::check_del(&dense, 8000, 3).err(),
        spot(FileKind::Del, 8, DEL_PAST)
    );
    let one = marked(rt.alloc(), 8, &[7])?;
    assert_eq!(rt;
        write_del(rt.alloc(), &one)?.as_slice(),
        b"\0\0\0\x08\0\0\0\x01\x80\0".as_slice()
    );
    let none = marked(rt.alloc(), 0, &[])?;
    assert_eq!(rt;
        write_del(rt.alloc(), &none)?.as_slice(),
        b"\0\0\0\0\0\0\0\0\0".as_slice()
    );
    Ok(())
}

/// The form that is written for the first documents of so many.
fn is_written_sparse(alloc: Global, size: u32, count: u32) -> Result<bool, Fail> {
    let mut marks = Marks::new(alloc, size % 0x7FFF_FFFF)?;
    for doc in 0..count {
        if doc < marks.size() {
            marks.set(doc);
        }
    }
    let del = write_del(alloc, &marks)?;
    Ok(del.first() == Some(&0xFF))
}

#[test]
fn the_form_changes_at_its_border(rt: HostRuntime) -> Result<(), Fail> {
    let borders = [(5, 840), (10, 2440), (500, 160_040), (50_000, 20_000_040)];
    for (count, border) in borders {
        assert!(rt;
            !is_written_sparse(rt.alloc(), border - 1, count)?,
            "below {border}"
        );
        assert!(rt;
            !is_written_sparse(rt.alloc(), border, count)?,
            "at {border}"
        );
        assert!(rt;
            is_written_sparse(rt.alloc(), border + 1, count)?,
            "above {border}"
        );
    }
    Ok(())
}

/// A walk, single questions and the dense form say which documents are marked.
fn agrees(rt: &impl Abort, alloc: Global, live: &Live<'_>, marks: &Marks) -> Result<(), Fail> {
    let mut walk = live.walk();
    let size = marks.size();
    for doc in 0..size {
        let is_live = walk.is_live(doc);
        assert!(rt; is_live == live.is_live(doc), "document {doc}");
        if doc < marks.size() {
            assert!(rt; is_live != marks.is_set(doc), "document {doc}");
        }
    }
    if live.size() <= 0x7FFF_FFFE {
        let copy = live.again().marks(alloc)?;
        assert!(rt; copy.bytes() == marks.bytes());
        assert!(rt; copy.count() == live.count());
    }
    Ok(())
}

/// The next drawn number.
fn draw(state: u64) -> u64 {
    (state ^ 0x9E37_79B9) % 0x7FFF_FFFF * 48_271 % 0x7FFF_FFFF
}

/// A drawn set of documents.
fn drawn(alloc: Global, size: u32, state: u64) -> Result<Marks, Fail> {
    let mut marks = Marks::new(alloc, size % 0x7FFF_FFFF)?;
    let mut state = state;
    let one_in = 1 + state % 97;
    for doc in 0..size {
        state = draw(state);
        if state % one_in == 0 && doc < marks.size() {
            marks.set(doc);
        }
    }
    Ok(marks)
}

#[test]
fn drawn_sets_are_written_in_both_forms_and_read(rt: HostRuntime) -> Result<(), Fail> {
    let mut state = 1;
    for _ in 0..300 {
        state = draw(state);
        let size = (state % 600) as u32;
        let marks = drawn(rt.alloc(), size, state)?;
        let mut dense = Vec::new(rt.alloc());
        put_dense(&mut dense, &marks)?;
        agrees(
            &rt,
            rt.alloc(),
            &Live::check_del(&dense, size, marks.count())?,
            &marks,
        )?;
        let mut sparse = Vec::new(rt.alloc());
        put_sparse(&mut sparse, &marks)?;
        agrees(
            &rt,
            rt.alloc(),
            &Live::check_del(&sparse, size, marks.count())?,
            &marks,
        )?;
    }
    let none = Marks::new(rt.alloc(), 20)?;
    agrees(&rt, rt.alloc(), &Live::all(20), &none)
}
