//! Compound files, split and packed: bytes that come from the format, and not from this crate.
ghost use Rattle.std.specs.Prelude.{◌≡◌, IfOk};

use compound_file::{PackFault, pack, split};
use lu_prims::OutOfMemory;
use lu_types::rules::{
    CFS_FIRST, CFS_OFFSET, CFS_TWICE, ENDS, LONG_NUMBER, NOT_UTF8, TOO_GREAT, TRAILING,
};
use lu_types::{Bytes, CodecFault, FileKind, NamedFile, Spot};
use std::alloc::Global;
use std::test::Fail;

/// A `.cfs` of one part, a `.fnm` of nine bytes.
const ONE_PART: &[u8] =
    b"\x01\x00\x00\x00\x00\x00\x00\x00\x10\x06_0.fnm\xfe\xff\xff\xff\x0f\x01\x01a\x01";

/// Two parts, `a` of two bytes and `b` of one.
const TWO_PARTS: &[u8] =
    b"\x02\x00\x00\x00\x00\x00\x00\x00\x15\x01a\x00\x00\x00\x00\x00\x00\x00\x17\x01bxyz";

/// The packed files of the segment `_1z`: a `.fdt` of one byte and a `.tii` of two.
const PACKED: &[u8] =
    b"\x02\x00\x00\x00\x00\x00\x00\x00\x21\x07_1z.fdt\x00\x00\x00\x00\x00\x00\x00\x22\x07_1z.tiizxy";

#[test]
fn a_faulty_file_has_its_first_fault(rt: HostRuntime) {
    let faults = [
        (b"".as_slice(), 0, ENDS),
        (b"\x80\x00".as_slice(), 0, LONG_NUMBER),
        (b"\xff\xff\xff\xff\x08".as_slice(), 0, TOO_GREAT),
        (b"\x00\x00".as_slice(), 1, TRAILING),
        (
            b"\x02\x00\x00\x00\x00\x00\x00\x00\x0b\x01a".as_slice(),
            11,
            ENDS,
        ),
        (
            b"\x01\x00\x00\x00\x00\x00\x00\x00\x0b\x01\xff".as_slice(),
            1,
            NOT_UTF8,
        ),
        (
            b"\x01\xff\xff\xff\xff\xff\xff\xff\xff\x01a".as_slice(),
            1,
            CFS_OFFSET,
        ),
        (
            b"\x01\x00\x00\x00\x00\x00\x00\x00\x0c\x01a".as_slice(),
            1,
            CFS_OFFSET,
        ),
        (
            b"\x02\x00\x00\x00\x00\x00\x00\x00\x15\x01a\x00\x00\x00\x00\x00\x00\x00\x14\x01b".as_slice(),
            11,
            CFS_OFFSET,
        ),
        (
            b"\x02\x00\x00\x00\x00\x00\x00\x00\x15\x01a\x00\x00\x00\x00\x00\x00\x00\x15\x01a".as_slice(),
            11,
            CFS_TWICE,
        ),
        (
            b"\x02\x00\x00\x00\x00\x00\x00\x00\x0b\x01a\x00\x00\x00\x00\x00\x00\x00\x15\x01b".as_slice(),
            11,
            CFS_FIRST,
        ),
        (
            b"\x01\x00\x00\x00\x00\x00\x00\x00\x0f\x06_0.fnm\xfe\xff\xff\xff\x0f\x01\x01a\x01".as_slice(),
            1,
            CFS_FIRST,
        ),
        (
            b"\x01\x00\x00\x00\x00\x00\x00\x00\x11\x06_0.fnm\xfe\xff\xff\xff\x0f\x01\x01a\x01".as_slice(),
            1,
            CFS_FIRST,
        ),
    ];
    for kind in [FileKind::Cfs, FileKind::Cfx] {
        for (bytes, offset, rule) in faults {
            let spot = Spot { kind, offset, rule };
            assert_eq!(rt;
                split(rt.alloc(), kind, bytes).err(),
                Some(CodecFault::Spot(spot)),
                "at {bytes:?}"
            );
        }
    }
}

#[test]
fn a_good_file_is_split(rt: HostRuntime) -> Result<(), Fail> {
    let none = split(rt.alloc(), FileKind::Cfs, b"\x00")?;
    assert!(rt; none.get("_0.fnm").is_none());
    let one = split(rt.alloc(), FileKind::Cfs, ONE_PART)?;
    assert_eq!(rt;
        one.get("_0.fnm"),
        Some(b"\xfe\xff\xff\xff\x0f\x01\x01a\x01".as_slice())
    );
    assert!(rt; one.get("_0.fdx").is_none());
    let two = split(rt.alloc(), FileKind::Cfx, TWO_PARTS)?;
    assert_eq!(rt; two.get("a"), Some(b"xy".as_slice()));
    assert_eq!(rt; two.get("b"), Some(b"z".as_slice()));
    Ok(())
}

/// A file of this kind, with these bytes.
fn file(alloc: Global, kind: FileKind, bytes: &[u8]) -> Result<NamedFile, OutOfMemory>
    ensures { IfOk result (λ file. (file.kind ≡ kind) × (file.bytes ≡ bytes.now)) }
{
    let items = Vec::from_slice(alloc, bytes)?;
    Ok(NamedFile {
        kind,
        bytes: Bytes::new(items),
    })
}

#[test]
fn one_file_is_packed(rt: HostRuntime) -> Result<(), Fail> {
    let fnm = b"\xfe\xff\xff\xff\x0f\x01\x01a\x01";
    let alone = [file(rt.alloc(), FileKind::Fnm, fnm)?];
    let one = pack(rt.alloc(), &alone, 0, 25)?;
    assert_eq!(rt; one.as_slice(), ONE_PART);
    assert_eq!(rt;
        pack(rt.alloc(), &alone, 0, 24).err(),
        Some(PackFault::TooLarge)
    );
    Ok(())
}

#[test]
fn no_files_are_packed(rt: HostRuntime) -> Result<(), Fail> {
    let none = pack(rt.alloc(), &[], 0, 1)?;
    assert_eq!(rt; none.as_slice(), b"\x00".as_slice());
    Ok(())
}

#[test]
fn files_over_the_limit_are_refused(rt: HostRuntime) -> Result<(), Fail> {
    let pair = [
        file(rt.alloc(), FileKind::Tii, b"xy")?,
        file(rt.alloc(), FileKind::Fdt, b"z")?,
    ];
    assert_eq!(rt;
        pack(rt.alloc(), &pair, 71, 10).err(),
        Some(PackFault::TooLarge)
    );
    Ok(())
}

#[test]
fn files_are_packed_in_the_order_of_checks(rt: HostRuntime) -> Result<(), Fail> {
    let pair = [
        file(rt.alloc(), FileKind::Tii, b"xy")?,
        file(rt.alloc(), FileKind::Fdt, b"z")?,
    ];
    let both = pack(rt.alloc(), &pair, 71, 1000)?;
    assert_eq!(rt; both.as_slice(), PACKED);
    Ok(())
}

#[test]
fn packed_files_are_split(rt: HostRuntime) -> Result<(), Fail> {
    let parts = split(rt.alloc(), FileKind::Cfs, PACKED)?;
    assert_eq!(rt; parts.get("_1z.tii"), Some(b"xy".as_slice()));
    assert_eq!(rt; parts.get("_1z.fdt"), Some(b"z".as_slice()));
    Ok(())
}
