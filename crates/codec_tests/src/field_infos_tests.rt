//! Field tables, read and written: bytes that come from the format, and not from this crate.
ghost use Rattle.std.specs.Prelude.{◌≡◌, IfOk};

use field_infos::{FieldInfo, check, write};
use lu_prims::OutOfMemory;
use lu_types::rules::{
    ENDS, FIELD_BITS, FIELD_TWICE, FNM_FORMAT, LONG_NUMBER, NORM_COUNT, NOT_UTF8, PROX_FIELD,
    TRAILING,
};
use lu_types::{CodecFault, FileKind, Spot, Text};
use std::alloc::Global;
use std::test::Fail;

/// The fields `title`, of bits 10, and `body`, of bits 0F.
const TITLE_AND_BODY: &[u8] = b"\xfe\xff\xff\xff\x0f\x02\x05title\x10\x04body\x0f";

#[test]
fn a_faulty_table_has_its_first_fault(rt: HostRuntime) {
    let faults = [
        (b"".as_slice(), true, None, 0, ENDS),
        (b"\xfe\xff\xff\xff\x0f".as_slice(), true, None, 0, ENDS),
        (
            b"\xfe\xff\xff\xff\x0f\x81\x00\x01a\x01".as_slice(),
            true,
            None,
            0,
            LONG_NUMBER,
        ),
        (
            b"\xff\xff\xff\xff\x0f\x01\x01a\x01".as_slice(),
            true,
            None,
            0,
            FNM_FORMAT,
        ),
        (
            b"\xfe\xff\xff\xff\x0f\x01\x01a\x01".as_slice(),
            true,
            Some(2),
            0,
            NORM_COUNT,
        ),
        (
            b"\xfe\xff\xff\xff\x0f\x01\x01a\x01\x00".as_slice(),
            true,
            None,
            9,
            TRAILING,
        ),
        (
            b"\xfe\xff\xff\xff\x0f\x01\x01a\x81".as_slice(),
            true,
            None,
            6,
            FIELD_BITS,
        ),
        (
            b"\xfe\xff\xff\xff\x0f\x02\x01a\x01\x01a\x01".as_slice(),
            true,
            None,
            9,
            FIELD_TWICE,
        ),
        (
            b"\xfe\xff\xff\xff\x0f\x01\x02\xc3\x28\x01".as_slice(),
            true,
            None,
            6,
            NOT_UTF8,
        ),
        (
            b"\xfe\xff\xff\xff\x0f\x02\x01a\x41\x01b\x01".as_slice(),
            false,
            None,
            9,
            PROX_FIELD,
        ),
    ];
    for (fnm, has_prox, norm_fields, offset, rule) in faults {
        let spot = Spot {
            kind: FileKind::Fnm,
            offset,
            rule,
        };
        assert_eq!(rt;
            check(rt.alloc(), fnm, has_prox, norm_fields).err(),
            Some(CodecFault::Spot(spot)),
            "at {fnm:?}"
        );
    }
}

#[test]
fn a_table_is_read(rt: HostRuntime) -> Result<(), Fail> {
    let table = check(rt.alloc(), TITLE_AND_BODY, true, Some(2))?;
    assert_eq!(rt; table.count(), 2);
    assert_eq!(rt; table.find("title"), Some(0));
    assert_eq!(rt; table.find("body"), Some(1));
    assert_eq!(rt; table.find("bodies"), None);
    let body = table.field(1).ok_or("two fields")?;
    assert_eq!(rt; body.name, "body");
    assert_eq!(rt; body.bits, 0x0f);
    assert!(rt; table.field(2).is_none());
    Ok(())
}

/// A field of this name, with these bits.
fn info(alloc: Global, name: &str, bits: u8) -> Result<FieldInfo, OutOfMemory>
    ensures { IfOk result (λ info. (info.name ≡ name.now) × (info.bits ≡ bits)) }
{
    let text = String::from_str(alloc, name)?;
    Ok(FieldInfo {
        name: Text::new(text),
        bits,
    })
}

#[test]
fn a_table_is_written(rt: HostRuntime) -> Result<(), Fail> {
    let fields = [
        info(rt.alloc(), "title", 0x10)?,
        info(rt.alloc(), "body", 0x0f)?,
    ];
    let written = write(rt.alloc(), &fields)?;
    assert_eq!(rt; written.as_slice(), TITLE_AND_BODY);
    let none = write(rt.alloc(), &[])?;
    assert_eq!(rt; none.as_slice(), b"\xfe\xff\xff\xff\x0f\x00".as_slice());
    Ok(())
}
