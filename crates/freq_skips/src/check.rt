//! A term's part of `.frq` is checked.
ghost use Rattle.lu_grammar.specs.Bytes.{place_in};
ghost use Rattle.std.specs.Prelude.{◌≡◌, ℕ, ◌<◌, ◌≤◌, length, IfOk, MatchResult, Ok, Err};
ghost use Rattle.lu_grammar.specs.Meaning.{ReadsTo};
ghost use Rattle.lu_types.specs.declared.kind.FileKind.TheVariants.{Frq};
ghost use Rattle.freq_skips.specs.Terms.{TermData, IsGoodTerm, IsTermFault, ruled_by, term_plan};

use crate::levels::check_levels;
use crate::passing::{CheckedEntries, check_entries};
use crate::rules::RuledTerm;
use lu_prims::Cur;
use lu_types::{Spot, TermInfo, TermRules};

/// Checks the entries and skip data of one term, which are to start at a place in the bytes of `.frq`; what follows them is
/// not looked at (format page, "Entries and skip data"). Answers the place where the term ends, or else its first fault. It
/// takes no memory, and goes over the term's bytes once for each skip level and at most twice more.
pub fn check_term(frq: &[u8], at: usize, info: &TermInfo, rules: &TermRules) -> Result<usize, Spot>
    requires interval { 2 ≤ rules.now.skip_interval }
    requires at_within { at ≤ length frq.now }
    ensures term { MatchResult result
        (λ end. (value : TermData) × ReadsTo (term_plan (ruled_by info.now rules.now)) (place_in frq.now at) value (place_in frq.now end))
        (λ spot. (spot.kind ≡ Frq) × IsTermFault (ruled_by info.now rules.now) (place_in frq.now at) spot.offset spot.rule) }
    ensures good { 0 < info.now.doc_freq → IfOk result (λ _. (at ≡ info.now.freq) × IsGoodTerm info.now rules.now frq.now) }
    ensures within { IfOk result (λ end. end ≤ length frq.now) }
{
    let term = RuledTerm {
        info: *info,
        rules: *rules,
    };
    match check_entries(Cur::at(frq, at), &term) {
        Err(spot) => Err(spot),
        Ok(passing) => {
            let entries = CheckedEntries {
                frq,
                term,
                start: at,
            };
            check_levels(&entries, passing.cur.place())
        }
    }
}
