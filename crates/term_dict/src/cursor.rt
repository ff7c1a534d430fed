//! A walk over the terms of a file (format page, "Terms").
ghost use Rattle.std.specs.Prelude.{◌≡◌, ℕ, ◌+◌, ◌<◌, ◌≤◌, length, IfOk, IfSome, is_some, if◌then◌else◌, slice_get, option_map, vec_capacity};
ghost use Rattle.term_dict.specs.Terms.{DictionaryTerm, term_after};
ghost use Rattle.term_dict.specs.Dictionary.{Dictionary};
ghost use Rattle.term_dict.specs.Content.{dictionary_in, IsRead};
ghost use Rattle.term_dict.specs.Walk.{TermWalk, walk_of, walk_to, term_passed, next_place, passed_on};
ghost use Rattle.term_dict.specs.Shared.{next_after};

use crate::entry::entry_at;
use crate::last::LastTerm;
use lu_prims::{Cur, OutOfMemory};
use lu_types::{TermInfo, TermNumbers};
use std::alloc::Global;
use std::marker::Model;

/// The bytes of the header, behind which the first term starts.
pub(crate) const HEADER_BYTES: usize = 24;

/// A term that a walk passes: what is said of it, and how many bytes its text begins with that the text before it begins
/// with too.
#[derive(Clone, Copy, Debug, PartialEq, Eq)]
pub struct NextTerm {
    pub info: TermInfo,
    pub shared: usize,
}

/// A walk over the terms of a file that was checked. Contracts see what the file stands for, and how many terms were passed.
/// It keeps the last text in one buffer, reserved when it is made; no call takes memory.
#[derive(Drop)]
pub struct TermCursor<'a> {
    tis: &'a [u8],
    numbers: TermNumbers,
    place: usize,
    passed: u32,
    last: LastTerm,
}

impl<'a> Model for TermCursor<'a> {
    ghost use Rattle.std.specs.Prelude.{vec_capacity};
    ghost use Rattle.term_dict.specs.Content.{dictionary_in, IsRead};
    ghost use Rattle.term_dict.specs.Last.{term_of_last};
    ghost use Rattle.term_dict.specs.Walk.{TermWalk, IsAt, walk_in};

    ghost Value = { TermWalk };

    ghost view = { λ c. walk_in c.tis.now c.passed };

    ghost invariant = { λ c. IsRead c.tis.now c.numbers (vec_capacity c.last.text) × IsAt c.tis.now c.numbers c.passed c.place (term_of_last c.last) };
}

impl<'a> TermCursor<'a> {
    /// A walk before the first term of bytes that were read, of which no text is longer.
    pub(crate) fn new(
        alloc: Global,
        tis: &'a [u8],
        numbers: TermNumbers,
        longest: usize,
    ) -> Result<TermCursor<'a>, OutOfMemory>
        requires { IsRead tis.now numbers longest }
        ensures { IfOk result (λ cursor. cursor ≡ walk_of (dictionary_in tis.entry.now)) }
    {
        Ok(TermCursor {
            tis,
            numbers,
            place: HEADER_BYTES,
            passed: 0,
            last: LastTerm::with_room(alloc, longest)?,
        })
    }

    /// The next term, which the walk passes, and how many bytes its text shares with the text before it; `None` after the
    /// last. Takes no memory.
    pub fn next_shared(&mut self) -> Option<NextTerm>
        ensures term { result ≡ option_map (next_after self.old) (slice_get self.old.dictionary.terms self.old.passed) }
        ensures passed { self.new ≡ (if is_some result then passed_on self.old else self.old) }
    {
        if self.passed == self.numbers.count {
            return None;
        }
        let mut cur = Cur::at(self.tis, self.place);
        let Ok(entry) = entry_at(&mut cur, false, self.numbers.skip_interval) else {
            unreachable!();
        };
        let shared = self.last.shared_with(&entry);
        self.last.advance(&entry);
        self.place = cur.place();
        self.passed += 1;
        Some(NextTerm {
            info: self.last.info,
            shared,
        })
    }

    /// The next term, which the walk passes; `None` after the last. Takes no memory.
    pub fn next(&mut self) -> Option<TermInfo>
        ensures term { result ≡ option_map (λ t. t.info) (slice_get self.old.dictionary.terms self.old.passed) }
        ensures passed { self.new ≡ (if is_some result then passed_on self.old else self.old) }
    {
        match self.next_shared() {
            Some(next) => Some(next.info),
            None => None,
        }
    }

    /// The text of the last term that was passed, empty before the first, lent from the walk's buffer. Takes no memory.
    pub fn text(&self) -> &str
        ensures { result.now ≡ (term_passed self.now).text }
    {
        unsafe { str::from_utf8_unchecked(self.last.text.as_slice()) }
    }

    /// The place in the file where the next term starts, and after the last term the length of the file. Takes no memory.
    pub fn place(&self) -> u32
        ensures { result ≡ next_place self.now }
    {
        self.place as u32
    }

    /// Goes back before the first term. Takes no memory.
    pub fn rewind(&mut self)
        ensures { self.new ≡ walk_of self.old.dictionary }
    {
        self.place = HEADER_BYTES;
        self.passed = 0;
        self.last.reset();
    }

    /// Stands before the term with a number, which is below the count of terms. `place` is where that term starts, from the
    /// start of the file; `text` and `info` are the text of the term before it and what is said of that term, and before the
    /// first term no text and zeros. Takes no memory, since the buffer has room for the longest text.
    pub fn move_to(&mut self, place: u32, number: u32, text: &str, info: &TermInfo)
        requires number { number < length self.old.dictionary.terms }
        requires place { place ≡ next_place (walk_to self.old.dictionary number) }
        requires term { record { text = text.now; info = info.now } ≡ term_passed (walk_to self.old.dictionary number) }
        ensures { self.new ≡ walk_to self.old.dictionary number }
    {
        self.last.set(text.as_bytes(), info);
        self.place = place as usize;
        self.passed = number;
    }
}
