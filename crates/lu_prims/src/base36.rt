ghost use Rattle.std.specs.Prelude.{◌≡◌, ℕ, ◌++◌, ◌^◌, ◌<◌, ◌↔◌, IfOk, MatchOption, IsTrue, string_bytes};
ghost use Rattle.std.specs.Char.{digit_char};
ghost use Rattle.lu_prims.specs.Base36.{base36, IsPlain};

use crate::memory::OutOfMemory;
use std::alloc::Global;

/// How many digits there are: `0` to `9` and `a` to `z`.
const BASE: u64 = 36;

/// The least number that no text stands for here.
const LIMIT: u64 = 1 << 63;

/// The spelling of a number below 2^63 in base 36: digits `0` to `9` and `a` to `z`, the highest first, without leading zeros
/// (format page, "Names of files").
///
/// The only error is `OutOfMemory`.
pub fn base36_text(alloc: Global, value: u64) -> Result<String, OutOfMemory>
    requires { value < 2 ^ 63 }
    ensures { IfOk result (λ text. string_bytes text ≡ base36 value) }
{
    let mut text = String::new(alloc);
    push_base36(&mut text, value)?;
    Ok(text)
}

/// The number below 2^63 that a text spells in base 36, or `None` where the text is not the spelling of such a number:
/// where it is empty, has a leading zero, a sign, a capital or another character, or spells a greater number
/// (format page, "Names of files").
pub fn base36_value(text: &str) -> Option<u64>
    ensures { MatchOption result
        ((v : ℕ) → v < 2 ^ 63 → text.now ≡ base36 v → ⊥)
        (λ v. (v < 2 ^ 63) × (text.now ≡ base36 v)) }
{
    if !is_plain(text) {
        return None;
    }
    let Ok(value) = u64::from_str_radix(text, 36) else {
        return None;
    };
    if value < LIMIT { Some(value) } else { None }
}

/// Two numbers with one spelling are one number.
pub fn base36_tells_apart()
    ensures { (m n : ℕ) → base36 m ≡ base36 n → m ≡ n }
{}

// Appends the spelling of the number. After an Err the text may have some of the digits.
fn push_base36(text: &mut String, value: u64) -> Result<(), OutOfMemory>
    ensures { IfOk result (λ _. string_bytes text.new ≡ string_bytes text.old ++ base36 value) }
{
    if value >= BASE {
        push_base36(text, value / BASE)?;
    }
    text.push(digit_of((value % BASE) as u8))?;
    Ok(())
}

// The digit that stands for a number below 36.
fn digit_of(value: u8) -> char
    requires { value < 36 }
    ensures { result ≡ digit_char value }
{
    if value < 10 {
        (b'0' + value) as char
    } else {
        (b'a' + (value - 10)) as char
    }
}

// Whether the text has digits and small letters alone, and no zero before another.
fn is_plain(text: &str) -> bool
    ensures { IsTrue result ↔ IsPlain text.now }
{
    let bytes = text.as_bytes();
    let leads_zero = bytes.len() > 1 && bytes[0] == b'0';
    !leads_zero
        && bytes
            .iter()
            .all(|byte| matches!(byte, b'0'..=b'9' | b'a'..=b'z'))
}

#[cfg(test)]
mod tests {
    use super::*;
    use std::test::Fail;

    #[test]
    fn spells_and_reads(rt: HostRuntime) -> Result<(), Fail> {
        let spelled = [
            (0, "0"),
            (35, "z"),
            (36, "10"),
            (2147483647, "zik0zj"),
            (9223372036854775807, "1y2p0ij32e8e7"),
        ];
        for (value, text) in spelled {
            assert_eq!(rt; base36_text(rt.alloc(), value)?.as_str(), text);
            assert_eq!(rt; base36_value(text), Some(value));
        }
        for text in [
            "",
            "010",
            "00",
            "A",
            "+1",
            "-1",
            "1 ",
            "é",
            "1y2p0ij32e8e8",
            "zzzzzzzzzzzzzzzzzzzz",
        ] {
            assert_eq!(rt; base36_value(text), None);
        }
        Ok(())
    }
}
