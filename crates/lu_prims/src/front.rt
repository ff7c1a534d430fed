//! The part that begins some bytes, and how many of them it takes.
ghost use Rattle.std.specs.Prelude.{◌≡◌, ℕ, ◌+◌, ◌-◌, ◌*◌, ◌^◌, ◌<◌, ◌≤◌, true, length, drop, IfOk, MatchResult, Result, Ok, Err};
ghost use Rattle.lu_grammar.specs.Parts.{byte, int32, int64, vint, num, vlong, text, bytes as so_many};
ghost use Rattle.lu_grammar.specs.Reading.{read_groups, read_number, read_utf8};
ghost use Rattle.lu_prims.specs.Cur.{Begins};

use crate::Bad;
use byteorder::{BigEndian, ByteOrder};

/// The value of the high bit of a byte, and what a group of seven bits is worth more than the one before it.
const HIGH_BIT: u8 = 128;

/// The most bytes with the high bit before the last byte of a VInt, and of a VLong.
const VINT_MORE: usize = 4;

const VLONG_MORE: usize = 8;

/// The first number that a VInt, a num and a VLong do not reach.
const VINT_LIMIT: u64 = 1 << 32;

const NUM_LIMIT: u64 = 1 << 31;

const VLONG_LIMIT: u64 = 1 << 63;

/// The bytes of an Int32, and of an Int64.
const INT32_BYTES: usize = 4;

const INT64_BYTES: usize = 8;

#[tactic(auto, unfolding(lu_grammar::specs::Reading::read))]
pub fn byte_at(bytes: &[u8]) -> Result<(u8, usize), Bad>
    ensures { Begins byte (λ n. n) bytes.now result }
{
    match bytes {
        [] => Err(Bad::Ends),
        [first, ..] => Ok((*first, 1)),
    }
}

#[tactic(auto, unfolding(lu_grammar::specs::Reading::read))]
pub fn bytes_at(bytes: &[u8], count: usize) -> Result<(&[u8], usize), Bad>
    ensures { Begins (so_many count) (λ front. front.now) bytes.now result }
{
    if bytes.len() < count {
        return Err(Bad::Ends);
    }
    Ok((bytes.split_at(count).0, count))
}

/// The number in groups of seven bits at the front, with at most `more` bytes before its last.
fn groups_at(bytes: &[u8], more: usize) -> Result<(u64, usize), Bad>
    requires { more ≤ 8 }
    ensures number { MatchResult result (λ x. read_groups more true bytes.now ≡ Ok x) (λ bad. read_groups more true bytes.now ≡ Err bad) }
    ensures within { IfOk result (λ x. x.1 ≤ length bytes.now) }
{
    let mut value = 0u64;
    let mut weight = 1u64;
    for (index, byte) in bytes.iter().enumerate() {
        if *byte < HIGH_BIT {
            if *byte == 0 && index > 0 {
                return Err(Bad::LongNumber);
            }
            return Ok((value + u64::from(*byte) * weight, index + 1));
        }
        if index == more {
            return Err(Bad::LongNumber);
        }
        value += u64::from(*byte - HIGH_BIT) * weight;
        weight *= u64::from(HIGH_BIT);
    }
    Err(Bad::Ends)
}

/// The number below `limit` at the front, with at most `more` bytes before its last.
fn number_at(bytes: &[u8], more: usize, limit: u64) -> Result<(u64, usize), Bad>
    requires { more ≤ 8 }
    ensures number { MatchResult result (λ x. read_number more limit bytes.now ≡ Ok x) (λ bad. read_number more limit bytes.now ≡ Err bad) }
    ensures within { IfOk result (λ x. (x.0 < limit) × (x.1 ≤ length bytes.now)) }
{
    let (value, taken) = groups_at(bytes, more)?;
    if value >= limit {
        return Err(Bad::TooGreat);
    }
    Ok((value, taken))
}

#[tactic(auto, unfolding(lu_grammar::specs::Reading::read))]
pub fn vint_at(bytes: &[u8]) -> Result<(u32, usize), Bad>
    ensures { Begins vint (λ n. n) bytes.now result }
{
    let (value, taken) = number_at(bytes, VINT_MORE, VINT_LIMIT)?;
    Ok((value as u32, taken))
}

#[tactic(auto, unfolding(lu_grammar::specs::Reading::read))]
pub fn num_at(bytes: &[u8]) -> Result<(u32, usize), Bad>
    ensures begins { Begins num (λ n. n) bytes.now result }
    ensures below { IfOk result (λ x. x.0 < 2 ^ 31) }
{
    let (value, taken) = number_at(bytes, VINT_MORE, NUM_LIMIT)?;
    Ok((value as u32, taken))
}

#[tactic(auto, unfolding(lu_grammar::specs::Reading::read))]
pub fn vlong_at(bytes: &[u8]) -> Result<(u64, usize), Bad>
    ensures begins { Begins vlong (λ n. n) bytes.now result }
    ensures below { IfOk result (λ x. x.0 < 2 ^ 63) }
{
    number_at(bytes, VLONG_MORE, VLONG_LIMIT)
}

#[tactic(auto, unfolding(lu_grammar::specs::Reading::read))]
pub fn int32_at(bytes: &[u8]) -> Result<(i32, usize), Bad>
    ensures { Begins int32 (λ z. z) bytes.now result }
{
    if bytes.len() < INT32_BYTES {
        return Err(Bad::Ends);
    }
    Ok((
        BigEndian::read_i32(bytes.split_at(INT32_BYTES).0),
        INT32_BYTES,
    ))
}

#[tactic(auto, unfolding(lu_grammar::specs::Reading::read))]
pub fn int64_at(bytes: &[u8]) -> Result<(i64, usize), Bad>
    ensures { Begins int64 (λ z. z) bytes.now result }
{
    if bytes.len() < INT64_BYTES {
        return Err(Bad::Ends);
    }
    Ok((
        BigEndian::read_i64(bytes.split_at(INT64_BYTES).0),
        INT64_BYTES,
    ))
}

/// A text of `count` bytes at the front.
fn utf8_at(bytes: &[u8], count: usize) -> Result<&str, Bad>
    ensures { MatchResult result (λ found. (count ≤ length bytes.now) × (read_utf8 count bytes.now ≡ Ok (found.now, count))) (λ bad. read_utf8 count bytes.now ≡ Err bad) }
{
    if bytes.len() < count {
        return Err(Bad::Ends);
    }
    match str::from_utf8(bytes.split_at(count).0) {
        Err(_) => Err(Bad::NotUtf8),
        Ok(found) => Ok(found),
    }
}

#[tactic(auto, unfolding(lu_grammar::specs::Reading::read))]
pub fn text_at(bytes: &[u8]) -> Result<(&str, usize), Bad>
    ensures begins { Begins text (λ found. found.now) bytes.now result }
    ensures below { IfOk result (λ x. length x.0.now < 2 ^ 31) }
{
    match num_at(bytes) {
        Err(bad) => Err(bad),
        Ok((count, taken)) => match utf8_at(bytes.split_at(taken).1, count as usize) {
            Err(bad) => Err(bad),
            Ok(found) => Ok((found, taken + count as usize)),
        },
    }
}
