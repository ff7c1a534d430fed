//! The points of a term are looked up, by descending its skip levels.
ghost use Rattle.std.specs.Prelude.{◌≡◌, ◌+◌, ◌-◌, ◌*◌, ◌^◌, ◌<◌, ◌≤◌, ◌==◌, ℕ, length, if◌then◌else◌};
ghost use Rattle.lu_grammar.specs.Bytes.{Cursor, place_in};
ghost use Rattle.lu_grammar.specs.Meaning.{ReadsTo};
ghost use Rattle.freq_skips.specs.Levels.{level_count as level_count_of};
ghost use Rattle.freq_skips.specs.Terms.{TermData, IsGoodTerm, ruled_by, term_plan};
ghost use Rattle.freq_skips.specs.ProxPlaces.{HasProxPlaces};
ghost use Rattle.lu_prims.specs.Steps.{ticked};
ghost use Rattle.freq_skips.specs.Points.{HasKnownPlaces, IsLastBelow, find_steps, most_steps};

use crate::descent::{LevelCount, descended};
use crate::following::Following;
use crate::level::level_count;
use crate::rules::RuledTerm;
use crate::skip_point::SkipPoint;
use lu_prims::Steps;
use lu_types::{TermInfo, TermRules};
use std::marker::Model;

/// The skip data of a term, over bytes that were checked, in `.frq` and in `.prx`. Contracts see the term, and what its bytes
/// stand for. No call takes memory.
#[derive(Drop)]
pub struct Skips<'a> {
    frq: &'a [u8],
    term: RuledTerm,
    levels: LevelCount,
}

impl<'a> Model for Skips<'a> {
    ghost use Rattle.std.specs.Prelude.{◌≡◌, ◌≤◌, ◌<◌, ◌^◌};
    ghost use Rattle.freq_skips.specs.Levels.{level_count};
    ghost use Rattle.freq_skips.specs.Walks.{start_in, value_from};
    ghost use Rattle.freq_skips.specs.Points.{KnownTerm};
    ghost use Rattle.freq_skips.specs.Finding.{CanSearch};

    ghost Value = { KnownTerm };

    ghost view = { λ s. record { term = s.term; value = value_from s.term (start_in s.term s.frq.now) } };

    ghost invariant = { λ s. record {
      search : CanSearch s.term s.frq.now;
      levels : s.levels.count ≡ level_count s.term;
      power : s.levels.power ≡ s.term.rules.skip_interval ^ s.levels.count;
      few : s.levels.count < 32;
    } };
}

impl<'a> Skips<'a> {
    /// The skip data of a term of the dictionary.
    pub fn at(frq: &'a [u8], info: &TermInfo, rules: &TermRules) -> Skips<'a>
        requires good { IsGoodTerm info.now rules.now frq.now }
        requires places { HasKnownPlaces info.now rules.now frq.now }
        requires small { length frq.now < 2 ^ 32 }
        ensures { (value : TermData) (end : Cursor) → ReadsTo (term_plan (ruled_by info.now rules.now)) (place_in frq.entry.now info.now.freq) value end
            → result ≡ record { term = ruled_by info.now rules.now; value = value } }
    {
        let term = RuledTerm {
            info: *info,
            rules: *rules,
        };
        // Read here, so that their ranges are known.
        let (_documents, _doc_freq, _prox) = (rules.documents, info.doc_freq, info.prox);
        let (count, power) = level_count(&term);
        Skips {
            frq,
            term,
            levels: LevelCount { count, power },
        }
    }

    /// The last point of the term whose document is below the target, or the start of the term. It goes down the skip levels by
    /// the child pointers; each datum that it reads is a step.
    pub fn find<L>(&mut self, target: u32, steps: &mut Steps<L>) -> SkipPoint
        ensures found { IsLastBelow self.old target result }
        ensures prox { (prox : ℕ → ℕ) → HasProxPlaces self.old.term self.old.value prox → 0 < result.passed → result.prox ≡ self.old.term.info.prox + prox result.passed }
        ensures steps { steps.new ≡ ticked (find_steps self.old.term self.old.value target (level_count_of self.old.term)) steps.old }
        ensures bound { steps.new ≤ steps.old + most_steps self.old.term }
        ensures same { self.new ≡ self.old }
    {
        let walk = descended(self.frq, &self.term, &self.levels, target, steps);
        point_behind(&self.term, &walk)
    }
}

/// The point behind so many data of the lowest level, of which the last leads there.
fn point_behind(term: &RuledTerm, walk: &Following<'_>) -> SkipPoint
    requires interval { 2 ≤ term.now.rules.skip_interval }
    requires entries { walk.now.count * term.now.rules.skip_interval < 2 ^ 32 }
    requires doc { walk.now.last.doc < 2 ^ 32 }
    requires freq { term.now.info.freq + walk.now.last.freq < 2 ^ 32 }
    requires prox { term.now.info.prox + walk.now.last.prox < 2 ^ 32 }
    ensures { result ≡ (if walk.now.count == 0 then (record { passed = 0; doc = 0; freq = term.now.info.freq; prox = term.now.info.prox })
        else (record { passed = walk.now.count * term.now.rules.skip_interval - 1; doc = walk.now.last.doc; freq = term.now.info.freq + walk.now.last.freq; prox = term.now.info.prox + walk.now.last.prox })) }
{
    if walk.count == 0 {
        return SkipPoint::start(&term.info);
    }
    SkipPoint {
        passed: walk.count * term.rules.skip_interval - 1,
        doc: walk.last.doc as u32,
        freq: term.info.freq + walk.last.freq as u32,
        prox: term.info.prox + walk.last.prox as u32,
    }
}
