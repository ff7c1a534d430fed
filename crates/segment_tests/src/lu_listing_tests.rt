use lu_dir::{DirFail, FaultSink, MemSink};
use lu_listing::{Printer, hex_text, number_text, quoted_text};
use std::alloc::Global;
use std::rt::Runtime;
use std::test::Fail;

/// How many bytes the long text has: several pieces.
const LONG: u32 = 200_000;

/// A text of several pieces.
fn long_text(alloc: Global) -> Result<Vec<u8>, Fail> {
    let mut text = Vec::new(alloc);
    for place in 0..LONG {
        text.push((place % 251) as u8)?;
    }
    Ok(text)
}

#[test]
fn hands_out_a_long_text_whole(rt: HostRuntime) -> Result<(), Fail> {
    let alloc = rt.alloc();
    let text = long_text(alloc)?;
    let mut want = Vec::new(alloc);
    let mut out = MemSink::new(alloc);
    let mut printer = Printer::new(alloc)?;
    for part in text.as_slice().chunks(999) {
        printer.put(&mut out, part);
        want.extend_from_slice(part)?;
    }
    printer.put(&mut out, text.as_slice());
    want.extend_from_slice(text.as_slice())?;
    assert_eq!(rt; printer.finish(&mut out), Ok(()));
    assert_eq!(rt; out.bytes(), want.as_slice());
    Ok(())
}

#[test]
fn stops_where_the_output_fails(rt: HostRuntime) -> Result<(), Fail> {
    let alloc = rt.alloc();
    let text = long_text(alloc)?;
    let mut out = FaultSink::new(MemSink::new(alloc), vec![in alloc; 2]?);
    let mut printer = Printer::new(alloc)?;
    for part in text.as_slice().chunks(999) {
        printer.put(&mut out, part);
    }
    assert!(rt; printer.has_failed());
    assert_eq!(rt; printer.finish(&mut out), Err(DirFail::Failed));
    assert_eq!(rt; out.bytes().len(), 64_935);
    assert!(rt; text.as_slice().starts_with(out.bytes()));
    Ok(())
}

#[test]
fn stops_where_memory_ends(rt: HostRuntime) -> Result<(), Fail> {
    let alloc = rt.alloc();
    let mut out = MemSink::new(alloc);
    let mut printer = Printer::new(alloc)?;
    printer.put(&mut out, b"a");
    printer.give_up();
    printer.put(&mut out, b"b");
    assert_eq!(rt; printer.finish(&mut out), Err(DirFail::OutOfMemory));
    assert_eq!(rt; out.bytes(), b"".as_slice());
    Ok(())
}

/// What is printed of a number.
fn digits_of(alloc: Global, number: u64) -> Result<MemSink, Fail> {
    let mut out = MemSink::new(alloc);
    let mut printer = Printer::new(alloc)?;
    number_text(&mut printer, &mut out, number);
    printer.finish(&mut out)?;
    Ok(out)
}

/// Numbers, and their digits.
const NUMBERS: [(u64, &str); 5] = [
    (0, "0"),
    (9, "9"),
    (10, "10"),
    (4_294_967_295, "4294967295"),
    (18_446_744_073_709_551_615, "18446744073709551615"),
];

#[test]
fn prints_numbers(rt: HostRuntime) -> Result<(), Fail> {
    for (number, digits) in NUMBERS {
        assert_eq!(rt; digits_of(rt.alloc(), number)?.bytes(), digits.as_bytes());
    }
    Ok(())
}

#[test]
fn quotes_texts(rt: HostRuntime) -> Result<(), Fail> {
    let mut out = MemSink::new(rt.alloc());
    let mut printer = Printer::new(rt.alloc())?;
    quoted_text(&mut printer, &mut out, "a\"\\\n\u{1f} é");
    printer.finish(&mut out)?;
    assert_eq!(rt; out.bytes(), "\"a\\\"\\\\\\u000a\\u001f é\"".as_bytes());
    Ok(())
}

#[test]
fn prints_bytes_in_hexadecimal_digits(rt: HostRuntime) -> Result<(), Fail> {
    let mut out = MemSink::new(rt.alloc());
    let mut printer = Printer::new(rt.alloc())?;
    hex_text(
        &mut printer,
        &mut out,
        b"\x00\x0f\x9a\xff0123456789abcdef0123456789abcdef",
    );
    printer.finish(&mut out)?;
    assert_eq!(rt;
        out.bytes(),
        b"000f9aff3031323334353637383961626364656630313233343536373839616263646566".as_slice()
    );
    Ok(())
}
