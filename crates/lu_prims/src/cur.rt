//! A place in some bytes, and the parts that are read there.
ghost use Rattle.std.specs.Prelude.{◌≡◌, ℕ, ◌+◌, ◌-◌, ◌^◌, ◌<◌, ◌≤◌, true, length, drop, IfOk, OnOk, MatchResult, Result, Ok, Err};
ghost use Rattle.lu_grammar.specs.Bytes.{Cursor, moved};
ghost use Rattle.lu_grammar.specs.Parts.{byte, int32, int64, vint, num, vlong, text, bytes as so_many};
ghost use Rattle.lu_grammar.specs.Reading.{read_groups, read_number};
ghost use Rattle.lu_prims.specs.Cur.{Takes};

use crate::Bad;
use crate::front::{byte_at, bytes_at, int32_at, int64_at, num_at, text_at, vint_at, vlong_at};
use std::marker::Model;

/// A place in borrowed bytes. Each reading call takes one part (format page, "Numbers and texts") and moves behind it; after
/// an `Err` the place is as before. No call takes memory.
#[derive(Drop)]
pub struct Cur<'a> {
    bytes: &'a [u8],
    place: usize,
}

impl<'a> Model for Cur<'a> {
    ghost use Rattle.std.specs.Prelude.{◌≤◌, length, drop};
    ghost use Rattle.lu_grammar.specs.Bytes.{Cursor};

    ghost Value = { Cursor };

    ghost view = { λ c. record { place = c.place; rest = drop c.place c.bytes.now } };

    ghost invariant = { λ c. c.place ≤ length c.bytes.now };
}

impl<'a> Cur<'a> {
    /// The cursor at a place in the bytes, counted from 0.
    pub fn at(bytes: &'a [u8], place: usize) -> Cur<'a>
        requires { place ≤ length bytes.now }
        ensures { result ≡ record { place = place; rest = drop place bytes.entry.now } }
    {
        Cur { bytes, place }
    }

    /// The place, counted in bytes from the start.
    pub fn place(&self) -> usize
        ensures { result ≡ self.now.place }
    {
        self.place
    }

    /// How many bytes are left.
    pub fn left(&self) -> usize
        ensures { result ≡ length self.now.rest }
    {
        self.bytes.len() - self.place
    }

    /// The bytes that are left.
    fn rest(&self) -> &'a [u8]
        ensures { result.now ≡ self.now.rest }
    {
        self.bytes.split_at(self.place).1
    }

    /// Moves so many bytes further.
    fn advance(&mut self, count: usize)
        requires { count ≤ length self.old.rest }
        ensures { self.new ≡ moved count self.old }
    {
        self.place += count;
    }

    /// A byte.
    #[tactic(auto, using(crate::proofs::CurLemmas::taking))]
    pub fn u8(&mut self) -> Result<u8, Bad>
        ensures { Takes byte (λ n. n) self.old self.new result }
    {
        match byte_at(self.rest()) {
            Err(bad) => Err(bad),
            Ok((found, taken)) => {
                self.advance(taken);
                Ok(found)
            }
        }
    }

    /// A whole number of four bytes, with its sign.
    #[tactic(auto, using(crate::proofs::CurLemmas::taking))]
    pub fn i32(&mut self) -> Result<i32, Bad>
        ensures { Takes int32 (λ z. z) self.old self.new result }
    {
        match int32_at(self.rest()) {
            Err(bad) => Err(bad),
            Ok((found, taken)) => {
                self.advance(taken);
                Ok(found)
            }
        }
    }

    /// A whole number of eight bytes, with its sign.
    #[tactic(auto, using(crate::proofs::CurLemmas::taking))]
    pub fn i64(&mut self) -> Result<i64, Bad>
        ensures { Takes int64 (λ z. z) self.old self.new result }
    {
        match int64_at(self.rest()) {
            Err(bad) => Err(bad),
            Ok((found, taken)) => {
                self.advance(taken);
                Ok(found)
            }
        }
    }

    /// A VInt: a number in groups of seven bits, below 2^32.
    #[tactic(auto, using(crate::proofs::CurLemmas::taking))]
    pub fn vint(&mut self) -> Result<u32, Bad>
        ensures { Takes vint (λ n. n) self.old self.new result }
    {
        match vint_at(self.rest()) {
            Err(bad) => Err(bad),
            Ok((found, taken)) => {
                self.advance(taken);
                Ok(found)
            }
        }
    }

    /// A num: a VInt below 2^31.
    #[tactic(auto, using(crate::proofs::CurLemmas::taking))]
    pub fn num(&mut self) -> Result<u32, Bad>
        ensures takes { Takes num (λ n. n) self.old self.new result }
        ensures below { IfOk result (λ n. n < 2 ^ 31) }
    {
        match num_at(self.rest()) {
            Err(bad) => Err(bad),
            Ok((found, taken)) => {
                self.advance(taken);
                Ok(found)
            }
        }
    }

    /// A VLong: a number in groups of seven bits, below 2^63.
    #[tactic(auto, using(crate::proofs::CurLemmas::taking))]
    pub fn vlong(&mut self) -> Result<u64, Bad>
        ensures takes { Takes vlong (λ n. n) self.old self.new result }
        ensures below { IfOk result (λ n. n < 2 ^ 63) }
    {
        match vlong_at(self.rest()) {
            Err(bad) => Err(bad),
            Ok((found, taken)) => {
                self.advance(taken);
                Ok(found)
            }
        }
    }

    /// A String: its length in bytes as a num, and then its UTF-8, as a slice of the bytes that the cursor stands in.
    #[tactic(auto, using(crate::proofs::CurLemmas::taking))]
    pub fn text(&mut self) -> Result<&'a str, Bad>
        ensures takes { Takes text (λ found. found.now) self.old self.new result }
        ensures below { IfOk result (λ found. length found.now < 2 ^ 31) }
    {
        match text_at(self.rest()) {
            Err(bad) => Err(bad),
            Ok((found, taken)) => {
                self.advance(taken);
                Ok(found)
            }
        }
    }

    /// So many bytes, as a slice of those that the cursor stands in.
    #[tactic(auto, using(crate::proofs::CurLemmas::taking))]
    pub fn bytes(&mut self, count: usize) -> Result<&'a [u8], Bad>
        ensures { Takes (so_many count) (λ front. front.now) self.old self.new result }
    {
        match bytes_at(self.rest(), count) {
            Err(bad) => Err(bad),
            Ok((found, taken)) => {
                self.advance(taken);
                Ok(found)
            }
        }
    }
}
