//! The terms of a vector, one after another (format page, "Term vectors").
ghost use Rattle.std.specs.Prelude.{◌≡◌, ◌≤◌, ℕ, List, [], ◌∷◌, length, None, Option, Ok, IfOk, MatchOption};
ghost use Rattle.lu_grammar.specs.Bytes.{Cursor, place_in};
ghost use Rattle.lu_grammar.specs.Plans.{read_plan};
ghost use Rattle.lu_model.specs.Index.{VectorTerm};
ghost use Rattle.term_vectors.specs.OffsetPairs.{span_of};
ghost use Rattle.term_vectors.specs.Walks.{walk_of, has_left, walk_on};
ghost use Rattle.term_vectors.specs.Vectors.{term_plan};
ghost use Rattle.term_vectors.specs.InnerTerms.{HasParts};
ghost use Rattle.term_vectors.specs.InnerViews.{AreTextsWithin, terms_left, AreTermsThere};

use crate::layout::{OFFSETS, POSITIONS};
use crate::occurrences::{OffsetPair, OffsetPairs, Positions, pass_pairs, pass_positions};
use crate::texts::{LastText, entry_at};
use crate::vectors::kept_count;
use lu_prims::{Cur, OutOfMemory};
use std::alloc::Global;
use std::marker::Model;

/// A term of a vector, in its parts: how many bytes its text shares with the text before, the bytes that follow them, how often
/// it stands in the field, its positions and its pairs as far as the vector keeps them, and the place behind them.
#[derive(Drop)]
pub struct TermParts<'a> {
    pub prefix: u32,
    pub suffix: &'a [u8],
    pub freq: u32,
    pub positions: Positions<'a>,
    pub pairs: OffsetPairs<'a>,
    pub end: usize,
}

/// The term that stands at a place, in a vector with these bits.
fn term_at<'a>(tvf: &'a [u8], place: usize, bits: u8) -> TermParts<'a>
    requires within { place ≤ length tvf.now }
    requires there { (before : Option (List ℕ)) × (x : VectorTerm × Cursor) × (read_plan (term_plan bits before) (place_in tvf.now place) ≡ Ok x) }
    ensures { (before : Option (List ℕ)) (t : VectorTerm) (d : Cursor) → read_plan (term_plan bits before) (place_in tvf.entry.now place) ≡ Ok (t, d)
        → HasParts tvf.entry.now before t d result }
{
    let mut here = Cur::at(tvf, place);
    let entry = match entry_at(&mut here) {
        Err(_) => unreachable!(),
        Ok(entry) => entry,
    };
    let count = kept_count(POSITIONS, bits, entry.freq);
    let positions = Positions::at(Cur::at(tvf, here.place()), count);
    match pass_positions(&mut here, count) {
        Err(_) => unreachable!(),
        Ok(()) => {}
    }
    let many = kept_count(OFFSETS, bits, entry.freq);
    let pairs = OffsetPairs::at(Cur::at(tvf, here.place()), many);
    match pass_pairs(&mut here, many) {
        Err(_) => unreachable!(),
        Ok(()) => {}
    }
    TermParts {
        prefix: entry.prefix,
        suffix: entry.suffix,
        freq: entry.freq,
        positions,
        pairs,
        end: here.place(),
    }
}

/// The length of the longest text of so many terms, which stand there in a vector with these bits.
fn longest_text(tvf: &[u8], place: usize, bits: u8, count: u32) -> usize
    requires within { place ≤ length tvf.now }
    requires there { AreTermsThere bits count None (place_in tvf.now place) }
    ensures { AreTextsWithin result (terms_left bits count None (place_in tvf.now place)) }
{
    let mut here = place;
    let mut longest = 0;
    for _nth in 0..count {
        let parts = term_at(tvf, here, bits);
        longest = longest.max(parts.prefix as usize + parts.suffix.len());
        here = parts.end;
    }
    longest
}

/// A walk over the terms of a vector. Contracts see the last term that was passed, those of its positions and pairs that were not
/// taken, and the terms that are left. The text stands in one buffer, reserved when the walk is made; no call takes memory.
#[derive(Drop)]
pub struct VectorTerms<'a> {
    tvf: &'a [u8],
    place: usize,
    bits: u8,
    left: u32,
    last: LastText,
    freq: u32,
    positions: Positions<'a>,
    pairs: OffsetPairs<'a>,
}

impl<'a> Model for VectorTerms<'a> {
    ghost use Rattle.lu_grammar.specs.Bytes.{place_in};
    ghost use Rattle.term_vectors.specs.Walks.{VectorTermWalk};
    ghost use Rattle.term_vectors.specs.InnerTexts.{text_before};
    ghost use Rattle.term_vectors.specs.InnerViews.{terms_left, IsTermWalk};

    ghost Value = { VectorTermWalk };

    ghost view = { λ w. record {
      text = w.last.bytes.items;
      frequency = w.freq;
      positions = w.positions;
      spans = w.pairs;
      left = terms_left w.bits w.left (text_before w.last) (place_in w.tvf.now w.place);
    } };

    ghost invariant = { λ w. IsTermWalk w.tvf.now w.place w.bits w.left w.last };
}

impl<'a> VectorTerms<'a> {
    /// A walk before the first of so many terms, which stand at a place in a vector with these bits.
    pub(crate) fn new(
        alloc: Global,
        tvf: &'a [u8],
        place: usize,
        bits: u8,
        left: u32,
    ) -> Result<VectorTerms<'a>, OutOfMemory>
        requires within { place ≤ length tvf.now }
        requires there { AreTermsThere bits left None (place_in tvf.now place) }
        ensures { IfOk result (λ walk. walk ≡ walk_of (terms_left bits left None (place_in tvf.entry.now place))) }
    {
        let last = LastText::with_room(alloc, longest_text(tvf, place, bits, left))?;
        Ok(VectorTerms {
            tvf,
            place,
            bits,
            left,
            last,
            freq: 0,
            positions: Positions::at(Cur::at(tvf, place), 0),
            pairs: OffsetPairs::at(Cur::at(tvf, place), 0),
        })
    }

    /// Moves to the next term; `false` where none is left, and then the last one stays. Takes no memory.
    pub fn next(&mut self) -> bool
        ensures more { result ≡ has_left self.old.left }
        ensures moved { self.new ≡ walk_on self.old self.old.left }
    {
        if self.left == 0 {
            return false;
        }
        let TermParts {
            prefix,
            suffix,
            freq,
            positions,
            pairs,
            end,
        } = term_at(self.tvf, self.place, self.bits);
        self.last.advance(prefix, suffix);
        self.freq = freq;
        self.positions = positions;
        self.pairs = pairs;
        self.place = end;
        self.left -= 1;
        true
    }

    /// The text of the term that `next` moved to, empty before the first. Takes no memory.
    pub fn text(&self) -> &str
        ensures { result.now ≡ self.now.text }
    {
        unsafe { str::from_utf8_unchecked(self.last.bytes.as_slice()) }
    }

    /// How often the term that `next` moved to stands in the field, 0 before the first. Takes no memory.
    pub fn freq(&self) -> u32
        ensures { result ≡ self.now.frequency }
    {
        self.freq
    }

    /// The next position of the term that `next` moved to; `None` after the last, and where the vector keeps none.
    /// Takes no memory.
    pub fn position(&mut self) -> Option<u32>
        ensures { MatchOption result ((self.old.positions ≡ []) × (self.new ≡ self.old))
            (λ position. (self.old.positions ≡ position ∷ self.new.positions) × (self.new ≡ record self.old { positions = self.new.positions })) }
    {
        self.positions.next()
    }

    /// Where the next occurrence of the term that `next` moved to starts and ends; `None` after the last, and where the vector
    /// keeps none. Takes no memory.
    pub fn offset(&mut self) -> Option<OffsetPair>
        ensures { MatchOption result ((self.old.spans ≡ []) × (self.new ≡ self.old))
            (λ pair. (self.old.spans ≡ span_of pair ∷ self.new.spans) × (self.new ≡ record self.old { spans = self.new.spans })) }
    {
        self.pairs.next()
    }
}
