//! The positions and the pairs of a term (format page, "Term vectors").
ghost use Rattle.std.specs.Prelude.{◌≡◌, [], ◌∷◌, MatchOption};
ghost use Rattle.lu_types.specs.declared.kind.FileKind.TheVariants.{Tvf};
ghost use Rattle.lu_grammar.specs.Records.{record_at};
ghost use Rattle.lu_grammar.specs.Plans.{read_plan};
ghost use Rattle.term_vectors.specs.Vectors.{position_shape, position_after, position_conditions, positions_plan, pair_shape, span_after, pair_conditions, spans_plan};
ghost use Rattle.term_vectors.specs.InnerAnswers.{Makes, PassesPlain};
ghost use Rattle.term_vectors.specs.OffsetPairs.{span_of, IsPairAfter};
ghost use Rattle.term_vectors.specs.InnerViews.{positions_left, ArePositionsLeft, spans_left, AreSpansLeft};

use crate::layout::{GREATEST_PLACE, START_MODULUS};
use lu_prims::Cur;
use lu_types::rules::{VECTOR_OFFSET, VECTOR_POSITION, rule_of};
use lu_types::{FileKind, Spot};
use std::marker::Model;

/// From where to where an occurrence of a term stands in the text of its field.
#[derive(Clone, Copy, Debug, PartialEq, Eq)]
pub struct OffsetPair {
    /// Where it starts, below 2^31.
    pub start: u32,
    /// Where it ends, not below the start, and below 2^31.
    pub end: u32,
}

/// The next position, after the last one, or which rule it breaks first.
pub fn next_position(here: &mut Cur<'_>, last: u32) -> Result<u32, u16>
    ensures { Makes (λ n. n) (position_after last) (record_at position_shape (position_conditions last) here.old) here.new result }
{
    match here.vint() {
        Err(bad) => Err(rule_of(bad)),
        Ok(delta) => {
            let position = u64::from(last) + u64::from(delta);
            if position > u64::from(GREATEST_PLACE) {
                return Err(VECTOR_POSITION);
            }
            Ok(position as u32)
        }
    }
}

/// Passes so many positions of a term, or answers the first fault.
pub fn pass_positions(here: &mut Cur<'_>, count: u32) -> Result<(), Spot>
    ensures { PassesPlain Tvf (read_plan (positions_plan count 0) here.old) here.new result }
{
    let mut last = 0;
    for _nth in 0..count {
        let start = here.place();
        match next_position(here, last) {
            Err(rule) => return Err(Spot::at(FileKind::Tvf, start, rule)),
            Ok(position) => last = position,
        }
    }
    Ok(())
}

/// The pair that starts so far behind the last end, modulo 2^32, and is so long; `None` where the start or the end is above the
/// greatest place.
fn pair_after(last: u32, far: u32, long: u32) -> Option<OffsetPair>
    ensures { IsPairAfter last far long result }
{
    let start = (u64::from(last) + u64::from(far)) % START_MODULUS;
    let end = start + u64::from(long);
    if start > u64::from(GREATEST_PLACE) {
        return None;
    }
    if end > u64::from(GREATEST_PLACE) {
        return None;
    }
    Some(OffsetPair {
        start: start as u32,
        end: end as u32,
    })
}

/// The next pair, after one with this end, or which rule it breaks first.
pub fn next_pair(here: &mut Cur<'_>, last: u32) -> Result<OffsetPair, u16>
    ensures { Makes span_of (span_after last) (record_at pair_shape (pair_conditions last) here.old) here.new result }
{
    match here.vint() {
        Err(bad) => Err(rule_of(bad)),
        Ok(far) => match here.num() {
            Err(bad) => Err(rule_of(bad)),
            Ok(long) => match pair_after(last, far, long) {
                None => Err(VECTOR_OFFSET),
                Some(pair) => Ok(pair),
            },
        },
    }
}

/// Passes so many pairs of a term, or answers the first fault.
pub fn pass_pairs(here: &mut Cur<'_>, count: u32) -> Result<(), Spot>
    ensures { PassesPlain Tvf (read_plan (spans_plan count 0) here.old) here.new result }
{
    let mut last = 0;
    for _nth in 0..count {
        let start = here.place();
        match next_pair(here, last) {
            Err(rule) => return Err(Spot::at(FileKind::Tvf, start, rule)),
            Ok(pair) => last = pair.end,
        }
    }
    Ok(())
}

/// The positions of a term that are left to read, in order. Contracts see them as a list.
#[derive(Drop)]
pub struct Positions<'a> {
    here: Cur<'a>,
    left: u32,
    last: u32,
}

impl<'a> Model for Positions<'a> {
    ghost use Rattle.std.specs.Prelude.{ℕ, List};
    ghost use Rattle.term_vectors.specs.InnerViews.{positions_left, ArePositionsLeft};

    ghost Value = { List ℕ };

    ghost view = { λ p. positions_left p.left p.last p.here };

    ghost invariant = { λ p. ArePositionsLeft p.left p.last p.here };
}

impl<'a> Positions<'a> {
    /// So many positions, which stand there.
    pub fn at(here: Cur<'a>, left: u32) -> Positions<'a>
        requires { ArePositionsLeft left 0 here }
        ensures { result ≡ positions_left left 0 here.entry }
    {
        Positions {
            here,
            left,
            last: 0,
        }
    }

    /// The next position; `None` after the last. Takes no memory.
    pub fn next(&mut self) -> Option<u32>
        ensures { MatchOption result ((self.old ≡ []) × (self.new ≡ [])) (λ position. self.old ≡ position ∷ self.new) }
    {
        if self.left == 0 {
            return None;
        }
        match next_position(&mut self.here, self.last) {
            Err(_) => unreachable!(),
            Ok(position) => {
                self.left -= 1;
                self.last = position;
                Some(position)
            }
        }
    }
}

/// The pairs of a term that are left to read, in order. Contracts see them as a list of spans.
#[derive(Drop)]
pub struct OffsetPairs<'a> {
    here: Cur<'a>,
    left: u32,
    last: u32,
}

impl<'a> Model for OffsetPairs<'a> {
    ghost use Rattle.std.specs.Prelude.{List};
    ghost use Rattle.lu_model.specs.Index.{Span};
    ghost use Rattle.term_vectors.specs.InnerViews.{spans_left, AreSpansLeft};

    ghost Value = { List Span };

    ghost view = { λ p. spans_left p.left p.last p.here };

    ghost invariant = { λ p. AreSpansLeft p.left p.last p.here };
}

impl<'a> OffsetPairs<'a> {
    /// So many pairs, which stand there.
    pub fn at(here: Cur<'a>, left: u32) -> OffsetPairs<'a>
        requires { AreSpansLeft left 0 here }
        ensures { result ≡ spans_left left 0 here.entry }
    {
        OffsetPairs {
            here,
            left,
            last: 0,
        }
    }

    /// The next pair; `None` after the last. Takes no memory.
    pub fn next(&mut self) -> Option<OffsetPair>
        ensures { MatchOption result ((self.old ≡ []) × (self.new ≡ [])) (λ pair. self.old ≡ span_of pair ∷ self.new) }
    {
        if self.left == 0 {
            return None;
        }
        match next_pair(&mut self.here, self.last) {
            Err(_) => unreachable!(),
            Ok(pair) => {
                self.left -= 1;
                self.last = pair.end;
                Some(pair)
            }
        }
    }
}
