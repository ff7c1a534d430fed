use lu_types::rules::{
    ENDS, FDT_FORMAT, FDT_PLACE, FDX_FORMAT, FDX_PLACE, STORE_RANGE, STORED_BITS, STORED_FIELD,
    TRAILING,
};
use lu_types::{FileKind, Spot, Window};
use std::alloc::Global;
use std::process::Abort;
use std::test::Fail;
use stored_fields::{
    StoredFiles, StoredRef, StoredView, StoredWriter, ValueRef, check_places, stored_total,
};

/// `.fdx` of one document.
const FDX: [u8; 12] = [0, 0, 0, 2, 0, 0, 0, 0, 0, 0, 0, 4];

/// `.fdt` of one document with one text of field 0, tokenized: `hello world`.
const FDT: [u8; 19] = [
    0, 0, 0, 2, 1, 0, 1, 11, b'h', b'e', b'l', b'l', b'o', b' ', b'w', b'o', b'r', b'l', b'd',
];

/// How many fields there are.
const FIELDS: u32 = 2;

/// A fault, or none.
type Verdict = Option<(FileKind, u64, u16)>;

/// The bytes with one of them changed.
fn with_byte(alloc: Global, bytes: &[u8], place: usize, byte: u8) -> Result<Vec<u8>, Fail> {
    let mut changed = bytes.to_vec(alloc)?;
    if let Some(old) = changed.get_mut(place) {
        *old = byte;
    }
    Ok(changed)
}

/// The bytes with one more.
fn with_more(alloc: Global, bytes: &[u8]) -> Result<Vec<u8>, Fail> {
    let mut longer = bytes.to_vec(alloc)?;
    longer.push(0)?;
    Ok(longer)
}

/// What a check answered.
fn verdict(checked: Result<StoredView<'_>, Spot>) -> Verdict {
    match checked {
        Ok(_) => None,
        Err(fault) => Some((fault.kind, fault.offset, fault.rule)),
    }
}

/// What the check of two files of one document answers.
fn check_one(fdx: &[u8], fdt: &[u8]) -> Verdict {
    verdict(StoredView::check(fdx, fdt, FIELDS, 1))
}

/// The rows of files with one byte changed, or one more.
fn checks_changed(rt: &impl Abort, alloc: Global) -> Result<(), Fail> {
    assert!(rt; check_one(&FDX, &FDT) == None);
    let rows = [
        (true, 12, 0, Some((FileKind::Fdx, 12, TRAILING))),
        (true, 11, 5, Some((FileKind::Fdx, 4, FDX_PLACE))),
        (true, 3, 3, Some((FileKind::Fdx, 0, FDX_FORMAT))),
        (false, 3, 1, Some((FileKind::Fdt, 0, FDT_FORMAT))),
        (false, 5, 2, Some((FileKind::Fdt, 5, STORED_FIELD))),
        (false, 6, 4, Some((FileKind::Fdt, 5, STORED_BITS))),
        (false, 6, 3, None),
        (false, 19, 0, Some((FileKind::Fdt, 19, TRAILING))),
    ];
    for (in_fdx, place, byte, wanted) in rows {
        let bytes: &[u8] = if in_fdx { &FDX } else { &FDT };
        let changed = if place < bytes.len() {
            with_byte(alloc, bytes, place, byte)?
        } else {
            with_more(alloc, bytes)?
        };
        let found = if in_fdx {
            check_one(&changed, &FDT)
        } else {
            check_one(&FDX, &changed)
        };
        assert!(rt; found == wanted, "byte {place}");
    }
    Ok(())
}

/// Each file, cut at every length.
fn checks_cut(rt: &impl Abort) {
    for length in 0..FDX.len() {
        let offset = if length < 4 { 0 } else { 4 };
        assert!(rt; check_one(&FDX[..length], &FDT) == Some((FileKind::Fdx, offset, ENDS)));
    }
    for length in 0..FDT.len() {
        let offset = match length {
            0..=3 => 0,
            4 => 4,
            _ => 5,
        };
        assert!(rt; check_one(&FDX, &FDT[..length]) == Some((FileKind::Fdt, offset, ENDS)));
    }
}

/// The files of three documents, each with one value; those of the first and the last have a field that is not there.
fn three(alloc: Global) -> Result<StoredFiles, Fail> {
    let mut writer = StoredWriter::new(alloc)?;
    writer.begin(1)?;
    writer.put_binary(9, false, &[])?;
    writer.begin(1)?;
    writer.put_text(1, false, "é")?;
    writer.begin(1)?;
    writer.put_binary(9, false, &[7])?;
    Ok(writer.finish())
}

/// The windows of a store.
fn checks_windows(rt: &impl Abort, alloc: Global) -> Result<(), Fail> {
    let files = three(alloc)?;
    let fdx = files.fdx.as_slice();
    let fdt = files.fdt.as_slice();
    assert!(rt; fdx.len() < 1 << 31);
    assert!(rt; stored_total(fdx) == 3);
    let rows = [
        (1, 1, None),
        (0, 1, Some((FileKind::Fdt, 5, STORED_FIELD))),
        (2, 1, Some((FileKind::Fdt, 15, STORED_FIELD))),
        (3, 0, None),
        (2, 2, Some((FileKind::Fdx, 0, STORE_RANGE))),
        (u32::MAX, 2, Some((FileKind::Fdx, 0, STORE_RANGE))),
    ];
    for (offset, count, wanted) in rows {
        let window = Window { offset, count };
        let found = verdict(StoredView::check_window(fdx, fdt, FIELDS, window));
        assert!(rt; found == wanted, "window {offset}");
        let past = check_places(fdx, 3, window).is_err();
        assert!(rt;
            past == (offset > 3 || offset + count > 3),
            "places {offset}"
        );
    }
    let moved = with_byte(alloc, fdx, 19, 10)?;
    let found = verdict(StoredView::check(&moved, fdt, 10, 3));
    assert!(rt; found == Some((FileKind::Fdt, 8, FDT_PLACE)));
    Ok(())
}

/// A document without values is finished as it is begun.
fn reads_empty(rt: &impl Abort, alloc: Global) -> Result<(), Fail> {
    let mut writer = StoredWriter::new(alloc)?;
    writer.begin(0)?;
    let files = writer.finish();
    let Ok(view) = StoredView::check(files.fdx.as_slice(), files.fdt.as_slice(), 0, 1) else {
        panic!(rt; "the files have a fault");
    };
    assert!(rt; view.documents() == 1);
    assert!(rt; view.doc(0).next() == None);
    Ok(())
}

/// What is written is read.
fn reads(rt: &impl Abort, alloc: Global) -> Result<(), Fail> {
    let files = three(alloc)?;
    let window = Window {
        offset: 1,
        count: 2,
    };
    assert!(rt; files.fdx.as_slice().len() < 1 << 31);
    let Ok(view) = StoredView::check_window(files.fdx.as_slice(), files.fdt.as_slice(), 10, window)
    else {
        panic!(rt; "the files have a fault");
    };
    let view = view.again();
    assert!(rt; view.documents() == 2);
    let mut document = view.doc(0);
    let first = StoredRef {
        field: 1,
        tokenized: false,
        value: ValueRef::Text("é"),
    };
    assert!(rt; document.next() == Some(first));
    assert!(rt; document.next() == None);
    Ok(())
}

#[test]
fn writes_checks_and_reads(rt: HostRuntime) -> Result<(), Fail> {
    let alloc = rt.alloc();
    let mut writer = StoredWriter::new(alloc)?;
    writer.begin(1)?;
    writer.put_text(0, true, "hello world")?;
    let files = writer.finish();
    assert!(rt; files.fdx.as_slice() == FDX.as_slice());
    assert!(rt; files.fdt.as_slice() == FDT.as_slice());
    checks_changed(&rt, alloc)?;
    checks_cut(&rt);
    checks_windows(&rt, alloc)?;
    reads_empty(&rt, alloc)?;
    reads(&rt, alloc)
}
