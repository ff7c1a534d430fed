//! What lines are made of.
ghost use Rattle.std.specs.Prelude.{◌≡◌, ◌<◌, ◌≤◌, ◌||◌, ◌==◌, ◌++◌, length, nat_lt, true};
ghost use Rattle.std.specs.Char.{digit_char};
ghost use Rattle.std.specs.Fmt.{decimal};
ghost use Rattle.hex.specs.Hex.{encode_lower};
ghost use Rattle.lu_prims.specs.Quoted.{escaped, quoted_text as text_quoted};
ghost use Rattle.lu_listing.specs.Printing.{page, Prints};
ghost use Rattle.lu_listing.specs.Lines.{line, hex_byte};

use crate::printer::Printer;
use lu_dir::Sink;

/// What stands on both sides of a quoted text.
const QUOTE: u8 = b'"';

/// What stands before a byte of a quoted text that does not stand for itself.
const ESCAPE: u8 = b'\\';

/// The first byte that is no control.
const FIRST_NO_CONTROL: u8 = 0x20;

/// How many bytes are made hexadecimal digits at once.
const HEX_BYTES: usize = 32;

/// Prints a number in decimal digits.
pub fn number_text<K: Sink>(printer: &mut Printer, out: &mut K, number: u64)
    ensures { Prints (page printer.old (K.taken out.old) (K.faults out.old)) (page printer.new (K.taken out.new) (K.faults out.new)) (decimal number) }
{
    printer.put_number(out, number);
}

/// Prints a line of a label and a number.
pub(crate) fn number_line<K: Sink>(printer: &mut Printer, out: &mut K, label: &str, number: u64)
    ensures { Prints (page printer.old (K.taken out.old) (K.faults out.old)) (page printer.new (K.taken out.new) (K.faults out.new)) (line (label.now ++ decimal number)) }
{
    printer.put(out, label.as_bytes());
    number_text(printer, out, number);
    printer.put_byte(out, b'\n');
}

/// Whether a byte does not stand for itself in a quoted text.
fn is_escaped(byte: u8) -> bool
    ensures { result ≡ ((byte == 34 || byte == 92) || nat_lt byte 32) }
{
    byte == QUOTE || byte == ESCAPE || byte < FIRST_NO_CONTROL
}

/// A hexadecimal digit in lower case.
fn hex_digit(value: u8) -> u8
    requires { value < 16 }
    ensures { result ≡ digit_char value }
{
    if value < 10 {
        b'0' + value
    } else {
        b'a' + (value - 10)
    }
}

/// Prints a byte in two hexadecimal digits.
pub(crate) fn byte_text<K: Sink>(printer: &mut Printer, out: &mut K, byte: u8)
    ensures { Prints (page printer.old (K.taken out.old) (K.faults out.old)) (page printer.new (K.taken out.new) (K.faults out.new)) (hex_byte byte) }
{
    printer.put(out, &[hex_digit(byte / 16), hex_digit(byte % 16)]);
}

/// Prints a byte of a quoted text that does not stand for itself there.
fn escaped_text<K: Sink>(printer: &mut Printer, out: &mut K, byte: u8)
    requires { ((byte == 34 || byte == 92) || nat_lt byte 32) ≡ true }
    ensures { Prints (page printer.old (K.taken out.old) (K.faults out.old)) (page printer.new (K.taken out.new) (K.faults out.new)) (escaped byte) }
{
    if byte < FIRST_NO_CONTROL {
        let digits = [
            ESCAPE,
            b'u',
            b'0',
            b'0',
            hex_digit(byte / 16),
            hex_digit(byte % 16),
        ];
        printer.put(out, &digits);
    } else {
        printer.put(out, &[ESCAPE, byte]);
    }
}

/// Prints a text between quotes. What stands for itself goes out in runs.
pub fn quoted_text<K: Sink>(printer: &mut Printer, out: &mut K, text: &str)
    ensures { Prints (page printer.old (K.taken out.old) (K.faults out.old)) (page printer.new (K.taken out.new) (K.faults out.new)) (text_quoted text.now) }
{
    let bytes = text.as_bytes();
    let mut from = 0;
    printer.put_byte(out, QUOTE);
    for (at, byte) in bytes.iter().enumerate() {
        if is_escaped(*byte) {
            printer.put(out, &bytes[from..at]);
            escaped_text(printer, out, *byte);
            from = at + 1;
        }
    }
    printer.put(out, &bytes[from..]);
    printer.put_byte(out, QUOTE);
}

/// Prints a few bytes in hexadecimal digits.
fn short_hex_text<K: Sink>(printer: &mut Printer, out: &mut K, bytes: &[u8])
    requires { length bytes.now ≤ 32 }
    ensures { Prints (page printer.old (K.taken out.old) (K.faults out.old)) (page printer.new (K.taken out.new) (K.faults out.new)) (encode_lower bytes.now) }
{
    let mut room = [0; 2 * HEX_BYTES];
    let digits = &mut room[..2 * bytes.len()];
    match hex::encode_to_slice(bytes, digits) {
        Ok(()) => printer.put(out, digits),
        Err(_) => unreachable!(),
    }
}

/// Prints bytes in hexadecimal digits.
pub fn hex_text<K: Sink>(printer: &mut Printer, out: &mut K, bytes: &[u8])
    ensures { Prints (page printer.old (K.taken out.old) (K.faults out.old)) (page printer.new (K.taken out.new) (K.faults out.new)) (encode_lower bytes.now) }
{
    let mut rest = bytes;
    while rest.len() > HEX_BYTES {
        let (front, back) = rest.split_at(HEX_BYTES);
        short_hex_text(printer, out, front);
        rest = back;
    }
    short_hex_text(printer, out, rest);
}
