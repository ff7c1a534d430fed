//! A term's part of `.prx` is checked.
ghost use Rattle.std.specs.Prelude.{◌≡◌, ℕ, ◌+◌, ◌^◌, ◌<◌, ◌≤◌, List, length, false, IfOk, OnOk, MatchResult};
ghost use Rattle.lu_grammar.specs.Bytes.{Cursor, place_in};
ghost use Rattle.lu_grammar.specs.Plans.{read_plan};
ghost use Rattle.lu_grammar.specs.Meaning.{ReadsTo};
ghost use Rattle.lu_types.specs.declared.kind.FileKind.TheVariants.{Prx};
ghost use Rattle.lu_types.specs.Judging.{IsBroken};
ghost use Rattle.lu_types.specs.Occurrences.{Occurrence};
ghost use Rattle.freq_skips.specs.Terms.{TermData, IsGoodTerm, ruled_by, term_plan as frq_term_plan};
ghost use Rattle.positions.specs.Occurrences.{count_at};
ghost use Rattle.positions.specs.Terms.{IsTermFault, posted, term_plan};
ghost use Rattle.positions.specs.Standing.{StandsIn};
ghost use Rattle.positions.specs.Cursors.{StandsInBoth};
ghost use Rattle.positions.specs.Walked.{posted_by, HasAnswered};

use crate::reading::Reading;
use freq_skips::{Walk, WalkedEntry};
use lu_prims::Cur;
use lu_types::{FileKind, Spot, TermInfo, TermRules};

/// Checks the occurrences of the entry that a walk answered last.
fn check_entry(
    reading: &mut Reading<'_>,
    walk: &Walk<'_>,
    info: &TermInfo,
    walked: &WalkedEntry,
) -> Result<(), Spot>
    requires { HasAnswered walk.now info.now walked.now.index reading.old.payloads }
    ensures payloads { OnOk result (reading.new.payloads ≡ reading.old.payloads) }
    ensures entry { (start : Cursor) → StandsIn (posted_by walk.now) start walked.now.index 0 reading.old.force 0 reading.old.cur
        → walked.now.index < walk.now.term.info.doc_freq → walked.now.freq ≡ count_at (posted_by walk.now) walked.now.index
        → MatchResult result
        (λ _. StandsIn (posted_by walk.now) start walk.now.passed 0 reading.new.force 0 reading.new.cur)
        (λ spot. IsBroken Prx (read_plan (term_plan (posted_by walk.now)) start) spot) }
{
    reading.position = 0;
    let mut read = 0;
    while read < walked.freq {
        let place = reading.cur.place();
        match reading.check_next(walk, info, walked.index, read == 0) {
            Err(rule) => return Err(Spot::at(FileKind::Prx, place, rule)),
            Ok(()) => {}
        }
        read += 1;
    }
    Ok(())
}

/// Checks the occurrences of one term, which are to start at a place in the bytes of `.prx`; what follows them is not looked at
/// (format page, "Positions"). The term's part of `.frq` has to be good. Answers the place where the term ends, or else its
/// first fault. It takes no memory, and goes over the term's bytes of `.prx` once.
pub fn check_term(
    prx: &[u8],
    at: usize,
    frq: &[u8],
    info: &TermInfo,
    rules: &TermRules,
) -> Result<usize, Spot>
    requires good { IsGoodTerm info.now rules.now frq.now }
    requires small { length frq.now < 2 ^ 32 }
    requires at_within { at ≤ length prx.now }
    ensures term { (value : TermData) (behind : Cursor) → ReadsTo (frq_term_plan (ruled_by info.now rules.now)) (place_in frq.now info.now.freq) value behind
        → MatchResult result
        (λ end. (occurrences : List (List Occurrence)) × ReadsTo (term_plan (posted info.now rules.now value)) (place_in prx.now at) occurrences (place_in prx.now end))
        (λ spot. (spot.kind ≡ Prx) × IsTermFault (posted info.now rules.now value) (place_in prx.now at) spot.offset spot.rule) }
    ensures within { IfOk result (λ end. end ≤ length prx.now) }
    ensures stands { 0 < info.now.doc_freq → (value : TermData) (behind : Cursor) → ReadsTo (frq_term_plan (ruled_by info.now rules.now)) (place_in frq.now info.now.freq) value behind
        → IfOk result (λ _. (occurrences : List (List Occurrence)) × StandsInBoth (ruled_by info.now rules.now) value prx.now occurrences) }
    ensures starts { rules.now.omit_tf ≡ false → 0 < info.now.doc_freq → IfOk result (λ _. at ≡ info.now.prox) }
{
    if rules.omit_tf {
        return Ok(at);
    }
    // Read here, so that its range is known, and with it that of the number of levels.
    let _most = rules.max_levels;
    let mut walk = Walk::at(frq, info, rules);
    let mut reading = Reading {
        cur: Cur::at(prx, at),
        payloads: rules.payloads,
        force: 0,
        position: 0,
    };
    while let Some(walked) = walk.next() {
        match check_entry(&mut reading, &walk, info, &walked) {
            Err(spot) => return Err(spot),
            Ok(()) => {}
        }
    }
    Ok(reading.cur.place())
}
