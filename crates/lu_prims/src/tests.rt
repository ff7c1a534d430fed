//! The parts of files, read and written: spellings that come from the format, and not from this crate.
use crate::{Bad, Cur, put_i32, put_i64, put_text, put_vint, put_vlong};
use std::test::Fail;

#[test]
fn a_vint_is_written_and_read(rt: HostRuntime) -> Result<(), Fail> {
    let spellings = [
        (0, b"\x00".as_slice()),
        (127, b"\x7f".as_slice()),
        (128, b"\x80\x01".as_slice()),
        (16_383, b"\xff\x7f".as_slice()),
        (16_384, b"\x80\x80\x01".as_slice()),
        (2_097_151, b"\xff\xff\x7f".as_slice()),
        (2_097_152, b"\x80\x80\x80\x01".as_slice()),
        (268_435_455, b"\xff\xff\xff\x7f".as_slice()),
        (268_435_456, b"\x80\x80\x80\x80\x01".as_slice()),
        (u32::MAX, b"\xff\xff\xff\xff\x0f".as_slice()),
    ];
    for (value, spelling) in spellings {
        let mut out = Vec::new(rt.alloc());
        put_vint(&mut out, value)?;
        assert_eq!(rt; out.as_slice(), spelling, "at {value}");
        let mut cur = Cur::at(spelling, 0);
        assert_eq!(rt; cur.vint(), Ok(value));
        assert_eq!(rt; cur.left(), 0, "at {value}");
    }
    Ok(())
}

#[test]
fn a_wrong_vint_is_refused(rt: HostRuntime) {
    let wrong = [
        (b"\x80\x00".as_slice(), Bad::LongNumber),
        (b"\x81\x00".as_slice(), Bad::LongNumber),
        (b"\xff\xff\xff\xff\x10".as_slice(), Bad::TooGreat),
        (b"\x80\x80\x80\x80\x80\x01".as_slice(), Bad::LongNumber),
        (b"\xff".as_slice(), Bad::Ends),
        (b"".as_slice(), Bad::Ends),
    ];
    for (bytes, bad) in wrong {
        let mut cur = Cur::at(bytes, 0);
        assert_eq!(rt; cur.vint(), Err(bad));
        assert_eq!(rt; cur.num(), Err(bad));
        assert_eq!(rt; cur.text(), Err(bad));
        assert_eq!(rt; cur.place(), 0);
        assert_eq!(rt; cur.left(), bytes.len());
    }
}

#[test]
fn a_num_is_below_two_to_the_31(rt: HostRuntime) {
    let mut greatest = Cur::at(b"\xff\xff\xff\xff\x07", 0);
    assert_eq!(rt; greatest.num(), Ok(0x7fff_ffff));
    assert_eq!(rt; greatest.place(), 5);
    let mut above = Cur::at(b"\x80\x80\x80\x80\x08", 0);
    assert_eq!(rt; above.num(), Err(Bad::TooGreat));
    assert_eq!(rt; above.place(), 0);
    assert_eq!(rt; above.vint(), Ok(0x8000_0000));
}

#[test]
fn a_vlong_is_written_and_read(rt: HostRuntime) -> Result<(), Fail> {
    let spellings = [
        (127, b"\x7f".as_slice()),
        (u64::from(u32::MAX), b"\xff\xff\xff\xff\x0f".as_slice()),
        (
            0x7fff_ffff_ffff_ffff,
            b"\xff\xff\xff\xff\xff\xff\xff\xff\x7f".as_slice(),
        ),
    ];
    for (value, spelling) in spellings {
        let mut out = Vec::new(rt.alloc());
        put_vlong(&mut out, value)?;
        assert_eq!(rt; out.as_slice(), spelling, "at {value}");
        let mut cur = Cur::at(spelling, 0);
        assert_eq!(rt; cur.vlong(), Ok(value));
        assert_eq!(rt; cur.left(), 0, "at {value}");
    }
    let wrong = [
        (
            b"\x80\x80\x80\x80\x80\x80\x80\x80\x80\x01".as_slice(),
            Bad::LongNumber,
        ),
        (b"\x80\x80\x80\x80\x80\x80\x80\x80".as_slice(), Bad::Ends),
        (b"\x81\x00".as_slice(), Bad::LongNumber),
    ];
    for (bytes, bad) in wrong {
        let mut cur = Cur::at(bytes, 0);
        assert_eq!(rt; cur.vlong(), Err(bad));
        assert_eq!(rt; cur.place(), 0);
    }
    Ok(())
}

#[test]
fn a_number_of_fixed_length_has_its_high_byte_first(rt: HostRuntime) -> Result<(), Fail> {
    let ints = [
        (-1i32, b"\xff\xff\xff\xff".as_slice()),
        (i32::MIN, b"\x80\x00\x00\x00".as_slice()),
        (0x0102_0304, b"\x01\x02\x03\x04".as_slice()),
    ];
    for (value, spelling) in ints {
        let mut out = Vec::new(rt.alloc());
        put_i32(&mut out, value)?;
        assert_eq!(rt; out.as_slice(), spelling, "at {value}");
        assert_eq!(rt; Cur::at(spelling, 0).i32(), Ok(value));
    }
    let longs = [
        (-1i64, b"\xff\xff\xff\xff\xff\xff\xff\xff".as_slice()),
        (i64::MAX, b"\x7f\xff\xff\xff\xff\xff\xff\xff".as_slice()),
        (
            0x0102_0304_0506_0708,
            b"\x01\x02\x03\x04\x05\x06\x07\x08".as_slice(),
        ),
    ];
    for (value, spelling) in longs {
        let mut out = Vec::new(rt.alloc());
        put_i64(&mut out, value)?;
        assert_eq!(rt; out.as_slice(), spelling, "at {value}");
        assert_eq!(rt; Cur::at(spelling, 0).i64(), Ok(value));
    }
    let mut short = Cur::at(b"\x00\x00\x00", 0);
    assert_eq!(rt; short.i32(), Err(Bad::Ends));
    assert_eq!(rt; short.i64(), Err(Bad::Ends));
    assert_eq!(rt; short.place(), 0);
    Ok(())
}

#[test]
fn a_text_is_utf8_behind_its_length(rt: HostRuntime) -> Result<(), Fail> {
    for (text, spelling) in [
        ("", b"\x00".as_slice()),
        ("body", b"\x04body".as_slice()),
        ("é", b"\x02\xc3\xa9".as_slice()),
    ] {
        let mut out = Vec::new(rt.alloc());
        put_text(&mut out, text)?;
        assert_eq!(rt; out.as_slice(), spelling, "at {text}");
        assert_eq!(rt; Cur::at(spelling, 0).text(), Ok(text));
    }
    for (bytes, bad) in [
        (b"\x02\xc3\x28".as_slice(), Bad::NotUtf8),
        (b"\x01\xc3\xa9".as_slice(), Bad::NotUtf8),
        (b"\x03\xc3\x28".as_slice(), Bad::Ends),
    ] {
        let mut cur = Cur::at(bytes, 0);
        assert_eq!(rt; cur.text(), Err(bad));
        assert_eq!(rt; cur.place(), 0);
    }
    Ok(())
}

#[test]
fn a_cursor_goes_from_part_to_part(rt: HostRuntime) {
    let mut cur = Cur::at(b"..\x07\x80\x01\x02abxyz", 2);
    assert_eq!(rt; cur.place(), 2);
    assert_eq!(rt; cur.left(), 9);
    assert_eq!(rt; cur.u8(), Ok(7));
    assert_eq!(rt; cur.vint(), Ok(128));
    assert_eq!(rt; cur.text(), Ok("ab"));
    assert_eq!(rt; cur.place(), 8);
    assert_eq!(rt; cur.bytes(4), Err(Bad::Ends));
    assert_eq!(rt; cur.left(), 3);
    assert_eq!(rt; cur.bytes(2), Ok(b"xy".as_slice()));
    assert_eq!(rt; cur.bytes(0), Ok(b"".as_slice()));
    assert_eq!(rt; cur.u8(), Ok(b'z'));
    assert_eq!(rt; cur.u8(), Err(Bad::Ends));
    assert_eq!(rt; cur.place(), 11);
    assert_eq!(rt; cur.left(), 0);
}
