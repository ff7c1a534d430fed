//! The spellings of numbers and texts, appended to a list of bytes.
ghost use Rattle.std.specs.Prelude.{◌≡◌, ℕ, ◌+◌, ◌++◌, ◌^◌, ◌<◌, ◌≤◌, length, OnOk, OnErr};
ghost use Rattle.lu_grammar.specs.Parts.{groups, spelling, int32, int64, vint, vlong, text as a_text};

use crate::OutOfMemory;
use byteorder::{BigEndian, ByteOrder};

/// The most bytes of a number in groups.
const MOST_GROUPS: usize = 9;

/// What is added to a group that others follow, and what each group is worth more than the one before it.
const HIGH_BIT: u64 = 128;

/// Appends an Int32: four bytes, high-order first (format page, "Numbers and texts"). On `Err` the list is as before.
pub fn put_i32(out: &mut Vec<u8>, value: i32) -> Result<(), OutOfMemory>
    ensures ok { OnOk result (out.new.items ≡ out.old.items ++ spelling int32 value) }
    ensures err { OnErr result (out.new.items ≡ out.old.items) }
{
    let mut bytes = [0; 4];
    BigEndian::write_i32(&mut bytes, value);
    out.extend_from_slice(&bytes)?;
    Ok(())
}

/// Appends an Int64: eight bytes, high-order first (format page, "Numbers and texts"). On `Err` the list is as before.
pub fn put_i64(out: &mut Vec<u8>, value: i64) -> Result<(), OutOfMemory>
    ensures ok { OnOk result (out.new.items ≡ out.old.items ++ spelling int64 value) }
    ensures err { OnErr result (out.new.items ≡ out.old.items) }
{
    let mut bytes = [0; 8];
    BigEndian::write_i64(&mut bytes, value);
    out.extend_from_slice(&bytes)?;
    Ok(())
}

/// Appends a number in groups of seven bits.
fn put_groups(out: &mut Vec<u8>, value: u64) -> Result<(), OutOfMemory>
    requires { value < 2 ^ 63 }
    ensures ok { OnOk result (out.new.items ≡ out.old.items ++ groups 8 value) }
    ensures err { OnErr result (out.new.items ≡ out.old.items) }
{
    let mut bytes = [0; MOST_GROUPS];
    let mut count = 0;
    let mut rest = value;
    while rest >= HIGH_BIT {
        bytes[count] = (HIGH_BIT + rest % HIGH_BIT) as u8;
        rest /= HIGH_BIT;
        count += 1;
    }
    bytes[count] = rest as u8;
    out.extend_from_slice(&bytes[..count + 1])?;
    Ok(())
}

/// Appends a VInt, in its shortest form (format page, "Numbers and texts"). On `Err` the list is as before.
pub fn put_vint(out: &mut Vec<u8>, value: u32) -> Result<(), OutOfMemory>
    ensures ok { OnOk result (out.new.items ≡ out.old.items ++ spelling vint value) }
    ensures err { OnErr result (out.new.items ≡ out.old.items) }
{
    put_groups(out, u64::from(value))
}

/// Appends a VLong, in its shortest form (format page, "Numbers and texts"). On `Err` the list is as before.
pub fn put_vlong(out: &mut Vec<u8>, value: u64) -> Result<(), OutOfMemory>
    requires { value < 2 ^ 63 }
    ensures ok { OnOk result (out.new.items ≡ out.old.items ++ spelling vlong value) }
    ensures err { OnErr result (out.new.items ≡ out.old.items) }
{
    put_groups(out, value)
}

/// Appends a String: its length in bytes, and then its UTF-8 (format page, "Numbers and texts"). On `Err` the list is as before.
pub fn put_text(out: &mut Vec<u8>, text: &str) -> Result<(), OutOfMemory>
    requires { length text.now < 2 ^ 31 }
    ensures ok { OnOk result (out.new.items ≡ out.old.items ++ spelling a_text text.now) }
    ensures err { OnErr result (out.new.items ≡ out.old.items) }
{
    let before = out.len();
    put_vint(out, text.len() as u32)?;
    let added = out.extend_from_slice(text.as_bytes());
    if added.is_err() {
        out.truncate(before);
        return Err(OutOfMemory);
    }
    Ok(())
}
