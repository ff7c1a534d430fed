ghost use Rattle.std.specs.Prelude.{◌≡◌, ℕ, List, ◌++◌, ◌<◌, take, OnOk, OnErr, vec_len};
ghost use Rattle.std.specs.Char.{digit_char};
ghost use Rattle.std.specs.Str.{IsUtf8};
ghost use Rattle.lu_prims.specs.Quoted.{escaped, quoted_text};

use crate::memory::OutOfMemory;

/// What stands on both sides of a quoted text.
const QUOTE: u8 = b'"';

/// What stands before a character that would not print as itself.
const ESCAPE: u8 = b'\\';

/// The last of the control characters, which are those below U+0020.
const LAST_CONTROL: u8 = 0x1f;

/// Appends the text between two `"` (format page, "Printed texts"). In it `"` is written `\"`, `\` is written `\\`, and a
/// character below U+0020 is written `\u` with four lower-case hexadecimal digits; all others stand as they are.
///
/// The only error is `OutOfMemory`; the output is then as before.
pub fn quoted(out: &mut Vec<u8>, text: &str) -> Result<(), OutOfMemory>
    ensures ok { OnOk result (out.new.items ≡ out.old.items ++ quoted_text text.now) }
    ensures err { OnErr result (out.new.items ≡ out.old.items) }
{
    let start = out.len();
    match push_quoted(out, text) {
        Ok(()) => Ok(()),
        Err(error) => {
            out.truncate(start);
            Err(error)
        }
    }
}

/// A quoted text tells its text, and is UTF-8 where the text is.
pub fn quoted_texts()
    ensures apart { (s t : List ℕ) → quoted_text s ≡ quoted_text t → s ≡ t }
    ensures utf8 { (s : List ℕ) → IsUtf8 s → IsUtf8 (quoted_text s) }
{}

// Appends the quoted text. After an Err some of it may stand after what was there.
fn push_quoted(out: &mut Vec<u8>, text: &str) -> Result<(), OutOfMemory>
    ensures ok { OnOk result (out.new.items ≡ out.old.items ++ quoted_text text.now) }
    ensures err { OnErr result (take (vec_len out.old) out.new.items ≡ out.old.items) }
{
    out.push(QUOTE)?;
    for byte in text.as_bytes() {
        push_escaped(out, *byte)?;
    }
    out.push(QUOTE)?;
    Ok(())
}

// Appends one byte of a text as it is written between quotes. After an Err the output is as before.
fn push_escaped(out: &mut Vec<u8>, byte: u8) -> Result<(), OutOfMemory>
    ensures ok { OnOk result (out.new.items ≡ out.old.items ++ escaped byte) }
    ensures err { OnErr result (out.new.items ≡ out.old.items) }
{
    match byte {
        QUOTE | ESCAPE => out.extend_from_slice(&[ESCAPE, byte])?,
        0..=LAST_CONTROL => {
            let digits = [
                ESCAPE,
                b'u',
                b'0',
                b'0',
                hex_digit(byte / 16),
                hex_digit(byte % 16),
            ];
            out.extend_from_slice(&digits)?;
        }
        _ => out.push(byte)?,
    }
    Ok(())
}

// The hexadecimal digit that stands for a number below 16.
fn hex_digit(value: u8) -> u8
    requires { value < 16 }
    ensures { result ≡ digit_char value }
{
    if value < 10 {
        b'0' + value
    } else {
        b'a' + (value - 10)
    }
}

#[cfg(test)]
mod tests {
    use super::*;
    use std::test::Fail;

    #[test]
    fn quotes(rt: HostRuntime) -> Result<(), Fail> {
        let mut out = Vec::from_slice(rt.alloc(), b"x ")?;
        quoted(&mut out, "a\"\\\n\u{1f} é")?;
        assert_eq!(rt;
            out.as_slice(),
            "x \"a\\\"\\\\\\u000a\\u001f é\"".as_bytes()
        );
        Ok(())
    }
}
