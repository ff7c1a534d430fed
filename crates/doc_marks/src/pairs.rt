//! The pairs of the sparse body of `.del`: the bytes that are not 0, each after how far its index is past that of the one
//! before (format page, "Deletions").
ghost use Rattle.std.specs.Prelude.{◌≡◌, ◌+◌, ◌/◌, ◌^◌, ◌<◌, ◌≤◌, [], length, IfOk, OnOk, MatchResult, Some, None};
ghost use Rattle.lu_grammar.specs.Records.{first_broken, read_shape, record_at};
ghost use Rattle.lu_grammar.specs.Plans.{read_plan};
ghost use Rattle.lu_types.specs.declared.kind.FileKind.TheVariants.{Del};
ghost use Rattle.lu_grammar.specs.Answers.{Gives};
ghost use Rattle.lu_types.specs.Judging.{GivesInPlain};
ghost use Rattle.doc_marks.specs.Marking.{marked_at};
ghost use Rattle.doc_marks.specs.Deletions.{pair as pair_of, pair_shape, is_wrong_gap, pair_conditions, no_pairs, pairs_plan, pairs_documents};

use crate::byte_marks::{BYTE_BITS, byte_marks};
use crate::segment::Segment;
use lu_prims::{Bad, Cur};
use lu_types::rules::{DEL_BYTE, DEL_GAP, DEL_PAST, DEL_TOTAL, rule_of};
use lu_types::{FileKind, Spot};

/// The pairs so far, in running numbers.
#[derive(Clone, Copy, Drop)]
pub struct Passed {
    /// The index of the last byte; 0 before the first pair.
    pub index: u32,
    /// How many documents the pairs mark; each marks one at least.
    pub documents: u32,
}

/// A pair.
#[derive(Clone, Copy, Drop)]
pub struct Pair {
    /// How far the index of the byte is past that of the one before.
    pub gap: u32,
    /// The byte.
    pub marks: u8,
    /// How many documents it marks.
    pub documents: u32,
}

/// The gap and the byte that stand at the cursor.
fn pair_parts(cur: &mut Cur<'_>) -> Result<(u32, u8), Bad>
    ensures gives { Gives (λ x. pair_of x.0 x.1) (read_shape pair_shape cur.old) cur.new result }
    ensures below { IfOk result (λ x. x.0 < 2 ^ 31) }
{
    let gap = match cur.num() {
        Ok(gap) => gap,
        Err(bad) => return Err(bad),
    };
    match cur.u8() {
        Ok(marks) => Ok((gap, marks)),
        Err(bad) => Err(bad),
    }
}

/// Whether a pair may not have this gap.
fn is_wrong_gap(gap: u32, passed: Passed, size: u32) -> bool
    requires gap { gap < 2 ^ 31 }
    requires index { passed.index ≤ size / 8 }
    ensures { result ≡ is_wrong_gap size passed.index passed.documents gap }
{
    if gap == 0 && passed.documents != 0 {
        return true;
    }
    passed.index + gap > size / BYTE_BITS
}

/// How many documents a pair marks, or the first rule that it breaks.
fn judge_pair(gap: u32, marks: u8, passed: Passed, segment: Segment) -> Result<u32, u16>
    requires gap { gap < 2 ^ 31 }
    requires index { passed.index ≤ segment.size / 8 }
    requires documents { passed.documents ≤ segment.count }
    ensures judged { MatchResult result
        (λ documents. first_broken (pair_conditions segment.size segment.count passed.index passed.documents (pair_of gap marks)) ≡ None)
        (λ rule. first_broken (pair_conditions segment.size segment.count passed.index passed.documents (pair_of gap marks)) ≡ Some rule) }
    ensures documents { IfOk result (λ documents. documents ≡ length (marked_at (passed.index + gap) marks)) }
    ensures some { IfOk result (λ documents. 0 < documents) }
    ensures few { IfOk result (λ documents. passed.documents + documents ≤ segment.count) }
    ensures index { IfOk result (λ _. passed.index + gap ≤ segment.size / 8) }
    ensures small { IfOk result (λ _. passed.index + gap < 2 ^ 32) }
{
    if is_wrong_gap(gap, passed, segment.size) {
        return Err(DEL_GAP);
    }
    if marks == 0 {
        return Err(DEL_BYTE);
    }
    let found = byte_marks(passed.index + gap, marks, segment.size);
    if found.is_past {
        return Err(DEL_PAST);
    }
    if found.documents > segment.count - passed.documents {
        return Err(DEL_TOTAL);
    }
    Ok(found.documents)
}

/// The pair at the cursor, after those that were passed, or the rule that it breaks.
pub fn next_pair(cur: &mut Cur<'_>, passed: Passed, segment: Segment) -> Result<Pair, u16>
    requires index { passed.index ≤ segment.size / 8 }
    requires documents { passed.documents ≤ segment.count }
    ensures gives { Gives (λ p. pair_of p.gap p.marks)
        (record_at pair_shape (pair_conditions segment.size segment.count passed.index passed.documents) cur.old) cur.new result }
    ensures documents { IfOk result (λ p. p.documents ≡ length (marked_at (passed.index + p.gap) p.marks)) }
    ensures some { IfOk result (λ p. 0 < p.documents) }
    ensures few { IfOk result (λ p. passed.documents + p.documents ≤ segment.count) }
    ensures index { IfOk result (λ p. passed.index + p.gap ≤ segment.size / 8) }
    ensures small { IfOk result (λ p. passed.index + p.gap < 2 ^ 32) }
{
    let (gap, marks) = match pair_parts(cur) {
        Ok(parts) => parts,
        Err(bad) => return Err(rule_of(bad)),
    };
    match judge_pair(gap, marks, passed, segment) {
        Err(rule) => Err(rule),
        Ok(documents) => Ok(Pair {
            gap,
            marks,
            documents,
        }),
    }
}

/// Passes all pairs from the cursor on, or answers the fault of the first that is not good.
pub fn pass_pairs(cur: &mut Cur<'_>, segment: Segment) -> Result<(), Spot>
    ensures { GivesInPlain Del (λ _. pairs_documents segment.size segment.count cur.old)
        (read_plan (pairs_plan segment.size segment.count segment.count no_pairs) cur.old) cur.new result }
{
    let mut passed = Passed {
        index: 0,
        documents: 0,
    };
    while passed.documents < segment.count {
        let place = cur.place();
        match next_pair(cur, passed, segment) {
            Err(rule) => return Err(Spot::at(FileKind::Del, place, rule)),
            Ok(pair) => {
                passed.index += pair.gap;
                passed.documents += pair.documents;
            }
        }
    }
    Ok(())
}
