//! A place among the occurrences of a term, from which they are read one after another.
ghost use Rattle.std.specs.Prelude.{◌≡◌, ℕ, ◌+◌, ◌-◌, ◌^◌, ◌<◌, Bool, not, ◌==◌, ◌&&◌, nat_le, None, MatchResult, Ok, Err};
ghost use Rattle.lu_grammar.specs.Bytes.{Cursor};
ghost use Rattle.lu_grammar.specs.Records.{read_shape, record_at, first_broken};
ghost use Rattle.freq_skips.specs.Levels.{level_count};
ghost use Rattle.positions.specs.Records.{OccurrenceRecord, occurrence_shape, position_gap as gap_of, length_after};
ghost use Rattle.positions.specs.Views.{occurrence_record_of};
ghost use Rattle.positions.specs.Occurrences.{any_below, tells_other_sum, carries_other_length, is_misled as is_misled_at, due_with, occurrence_conditions};
ghost use Rattle.positions.specs.Walked.{posted_by, HasAnswered};

use crate::due::DueOccurrence;
use crate::record::{OccurrenceParts, is_odd, length_or, occurrence_parts, position_gap};
use freq_skips::Walk;
use lu_prims::{Bad, Cur};
use lu_types::TermInfo;
use lu_types::rules::{POSITION, PROX_START, SKIP_PAYLOAD, SKIP_PROX, rule_of};

/// A place among the occurrences of a term of a field with or without payloads: the payload length in force, and the position
/// of the occurrence before (0 at the start of a document).
#[derive(Drop)]
pub struct Reading<'a> {
    pub cur: Cur<'a>,
    pub payloads: bool,
    pub force: u32,
    pub position: u32,
}

/// The greatest position.
const GREATEST_POSITION: u64 = i32::MAX as u64;

/// Whether a position is over the greatest, so far above another.
fn is_over(position: u32, gap: u32) -> bool
    ensures { result ≡ nat_le (2 ^ 31) (position + gap) }
{
    u64::from(position) + u64::from(gap) > GREATEST_POSITION
}

/// Whether some datum for the entry that a walk answered last tells another sum of bytes of positions.
fn is_other_sum(walk: &Walk<'_>, so_far: u64) -> bool
    requires some { 0 < walk.now.passed }
    requires few { level_count walk.now.term < 2 ^ 32 }
    ensures { result ≡ any_below (tells_other_sum (posted_by walk.now) walk.now.passed so_far) (level_count walk.now.term) }
{
    let mut level = 0;
    while let Some(datum) = walk.datum(level) {
        if datum.prox != so_far {
            return true;
        }
        level += 1;
    }
    false
}

/// Whether some datum for the entry that a walk answered last carries another payload length.
fn is_other_length(walk: &Walk<'_>, force: u32) -> bool
    requires some { 0 < walk.now.passed }
    requires few { level_count walk.now.term < 2 ^ 32 }
    ensures { result ≡ any_below (carries_other_length (posted_by walk.now) walk.now.passed force) (level_count walk.now.term) }
{
    let mut number = 0;
    while let Some(datum) = walk.datum(number) {
        if datum.payload != force {
            return true;
        }
        number += 1;
    }
    false
}

/// Whether the first occurrence of a term does not start where the dictionary says.
fn starts_elsewhere(due: &DueOccurrence, info: &TermInfo) -> bool
    ensures { result ≡ (due.now.first && (due.now.index == 0) && not (due.now.place == info.now.prox)) }
{
    due.first && due.index == 0 && due.place != info.prox as usize
}

/// Whether an occurrence does not restate the payload length, although a datum for its entry carries another.
fn is_misled(walk: &Walk<'_>, payloads: bool, force: u32, delta: u32) -> bool
    requires some { 0 < walk.now.passed }
    requires few { level_count walk.now.term < 2 ^ 32 }
    requires payloads { payloads ≡ walk.now.term.rules.payloads }
    ensures { result ≡ is_misled_at (posted_by walk.now) walk.now.passed force delta }
{
    if !payloads || is_odd(delta) {
        return false;
    }
    is_other_length(walk, force)
}

/// The first rule that an occurrence breaks, of the entry that a walk answered last.
fn occurrence_broken(
    walk: &Walk<'_>,
    info: &TermInfo,
    due: &DueOccurrence,
    payloads: bool,
    delta: u32,
) -> Option<u16>
    requires { HasAnswered walk.now info.now due.now.index payloads }
    ensures broken { result ≡ first_broken (occurrence_conditions (posted_by walk.now) due.now delta) }
    ensures below { result ≡ None → due.now.position + gap_of payloads delta < 2 ^ 31 }
{
    if starts_elsewhere(due, info) {
        return Some(PROX_START);
    }
    if is_over(due.position, position_gap(payloads, delta)) {
        return Some(POSITION);
    }
    if !due.first {
        return None;
    }
    let so_far = (due.place as u64).saturating_sub(u64::from(info.prox));
    if is_other_sum(walk, so_far) {
        return Some(SKIP_PROX);
    }
    if is_misled(walk, payloads, due.force, delta) {
        return Some(SKIP_PAYLOAD);
    }
    None
}

impl<'a> Reading<'a> {
    /// Takes the parts of one occurrence. The position stays.
    pub fn take(&mut self) -> Result<OccurrenceParts<'a>, Bad>
        ensures taken { MatchResult result
            (λ parts. (read_shape (occurrence_shape self.old.payloads self.old.force) self.old.cur ≡ Ok (occurrence_record_of parts, self.new.cur))
            × (self.new.force ≡ length_after self.old.force (occurrence_record_of parts)) × (self.new.position ≡ self.old.position))
            (λ bad. read_shape (occurrence_shape self.old.payloads self.old.force) self.old.cur ≡ Err bad) }
        ensures payloads { self.new.payloads ≡ self.old.payloads }
    {
        match occurrence_parts(&mut self.cur, self.payloads, self.force) {
            Err(bad) => Err(bad),
            Ok(parts) => {
                self.force = length_or(self.force, parts.stated);
                Ok(parts)
            }
        }
    }

    /// Takes an occurrence of the entry that a walk answered last, which has this index, the first of it or not; or tells the
    /// first rule that it breaks.
    pub fn check_next(
        &mut self,
        walk: &Walk<'_>,
        info: &TermInfo,
        index: u32,
        first: bool,
    ) -> Result<(), u16>
        requires { HasAnswered walk.now info.now index self.old.payloads }
        ensures { MatchResult result
            (λ _. (r : OccurrenceRecord) × (record_at (occurrence_shape self.old.payloads self.old.force) (λ r. occurrence_conditions (posted_by walk.now) (due_with first index self.old.force self.old.position self.old.cur.place) r.delta) self.old.cur ≡ Ok (r, self.new.cur))
            × (self.new.force ≡ length_after self.old.force r) × (self.new.position ≡ self.old.position + gap_of self.old.payloads r.delta) × (self.new.payloads ≡ self.old.payloads))
            (λ rule. record_at (occurrence_shape self.old.payloads self.old.force) (λ r. occurrence_conditions (posted_by walk.now) (due_with first index self.old.force self.old.position self.old.cur.place) r.delta) self.old.cur ≡ Err rule) }
    {
        let due = DueOccurrence {
            first,
            index,
            force: self.force,
            position: self.position,
            place: self.cur.place(),
        };
        let parts = match self.take() {
            Err(bad) => return Err(rule_of(bad)),
            Ok(parts) => parts,
        };
        match occurrence_broken(walk, info, &due, self.payloads, parts.delta) {
            Some(rule) => Err(rule),
            None => {
                self.position = due.position + position_gap(self.payloads, parts.delta);
                Ok(())
            }
        }
    }
}
