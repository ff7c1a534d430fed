//! Texts in one buffer, each made of the first bytes of the one before and of others (format page, "Terms").
ghost use Rattle.std.specs.Prelude.{◌≡◌, ◌+◌, ◌≤◌, ◌++◌, length, take, IfOk, OnOk, OnErr, IsOk, vec_capacity};
ghost use Rattle.std.specs.Str.{IsUtf8, is_utf8};

use crate::memory::OutOfMemory;

/// The last place at or before the prefix where the text may be cut.
fn cut_before(text: &[u8], prefix: usize) -> usize
    requires { IsUtf8 text.now }
    ensures bound { result ≤ prefix }
    ensures front { IsUtf8 (take result text.now) }
{
    unsafe { str::from_utf8_unchecked(text) }.floor_char_boundary(prefix)
}

/// Whether the bytes are UTF-8, where those before a place are.
fn is_text(bytes: &[u8], from: usize) -> bool
    requires within { from ≤ length bytes.now }
    requires front { IsUtf8 (take from bytes.now) }
    ensures { result ≡ is_utf8 bytes.now }
{
    match str::from_utf8(bytes.split_at(from).1) {
        Ok(_) => true,
        Err(_) => false,
    }
}

/// Keeps so many bytes of the text and appends the suffix. An `Err` leaves the text that was kept.
pub fn follow(text: &mut Vec<u8>, prefix: usize, suffix: &[u8]) -> Result<(), OutOfMemory>
    ensures ok { OnOk result (text.new.items ≡ take prefix text.old.items ++ suffix.now) }
    ensures err { OnErr result (text.new.items ≡ take prefix text.old.items) }
    ensures capacity { vec_capacity text.old ≤ vec_capacity text.new }
    ensures room { prefix ≤ length text.old.items → prefix + length suffix.now ≤ vec_capacity text.old → IsOk result }
{
    text.truncate(prefix);
    text.extend_from_slice(suffix)?;
    Ok(())
}

/// The same where the bytes are a text, and answers whether they are one again. An `Err` leaves the bytes that were kept.
pub fn follow_text(text: &mut Vec<u8>, prefix: usize, suffix: &[u8]) -> Result<bool, OutOfMemory>
    requires prefix { prefix ≤ length text.old.items }
    requires text { IsUtf8 text.old.items }
    ensures ok { IfOk result (λ valid. (text.new.items ≡ take prefix text.old.items ++ suffix.now) × (valid ≡ is_utf8 text.new.items)) }
    ensures err { OnErr result (text.new.items ≡ take prefix text.old.items) }
{
    let cut = cut_before(text.as_slice(), prefix);
    follow(text, prefix, suffix)?;
    Ok(is_text(text.as_slice(), cut))
}
