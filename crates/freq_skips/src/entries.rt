//! The entries of a term, in order.
ghost use Rattle.std.specs.Prelude.{◌≡◌, ◌+◌, ◌<◌, ◌≤◌, length, slice_index_or, min, MatchOption};
ghost use Rattle.lu_grammar.specs.Bytes.{Cursor, place_in};
ghost use Rattle.lu_grammar.specs.Meaning.{ReadsTo};
ghost use Rattle.freq_skips.specs.Entries.{entry_of, no_posting};
ghost use Rattle.freq_skips.specs.Terms.{TermData, IsGoodTerm, ruled_by, term_plan};
ghost use Rattle.freq_skips.specs.Points.{IsPoint};

use crate::entry::Entry;
use crate::passing::Passing;
use crate::rules::RuledTerm;
use crate::skip_point::SkipPoint;
use lu_prims::{Cur, Steps};
use lu_types::{TermInfo, TermRules};
use std::marker::Model;

/// The entries of a term in order, over bytes that were checked. Contracts see the term, what its bytes stand for, and how many
/// of its entries are passed. No call takes memory.
#[derive(Drop)]
pub struct Entries<'a> {
    frq: &'a [u8],
    term: RuledTerm,
    passing: Passing<'a>,
}

impl<'a> Model for Entries<'a> {
    ghost use Rattle.std.specs.Prelude.{◌≡◌, ◌≤◌, length};
    ghost use Rattle.lu_grammar.specs.Bytes.{IsBytes};
    ghost use Rattle.freq_skips.specs.Entries.{AreGoodFrom, IsBehindEntries, postings_from};
    ghost use Rattle.freq_skips.specs.Walks.{WalkState, start_in, value_from};

    ghost Value = { WalkState };

    ghost view = { λ e. record { term = e.term; value = value_from e.term (start_in e.term e.frq.now); passed = e.passing.index } };

    ghost invariant = { λ e. record {
      interval : 2 ≤ e.term.rules.skip_interval;
      bytes : IsBytes e.frq.now;
      begin_within : e.term.info.freq ≤ length e.frq.now;
      all : AreGoodFrom e.term (start_in e.term e.frq.now);
      postings : (value_from e.term (start_in e.term e.frq.now)).postings ≡ postings_from e.term (start_in e.term e.frq.now);
      stands : IsBehindEntries e.term (start_in e.term e.frq.now) e.passing.index e.passing.doc e.passing.cur;
      within : e.passing.index ≤ e.term.info.doc_freq;
    } };
}

impl<'a> Entries<'a> {
    /// The entries of a term of the dictionary, from the first on.
    pub fn at(frq: &'a [u8], info: &TermInfo, rules: &TermRules) -> Entries<'a>
        requires { IsGoodTerm info.now rules.now frq.now }
        ensures { (value : TermData) (end : Cursor) → ReadsTo (term_plan (ruled_by info.now rules.now)) (place_in frq.entry.now info.now.freq) value end
            → result ≡ record { term = ruled_by info.now rules.now; value = value; passed = 0 } }
    {
        let term = RuledTerm {
            info: *info,
            rules: *rules,
        };
        let cur = Cur::at(frq, info.freq as usize);
        Entries {
            frq,
            term,
            passing: Passing {
                cur,
                index: 0,
                doc: 0,
            },
        }
    }

    /// The next entry, at one step; `None` exactly at the end.
    pub fn next<L>(&mut self, steps: &mut Steps<L>) -> Option<Entry>
        ensures entry { MatchOption result
            ((self.old.passed ≡ length self.old.value.postings) × (self.new ≡ self.old))
            (λ entry. (self.old.passed < length self.old.value.postings) × (entry ≡ entry_of (slice_index_or self.old.value.postings self.old.passed no_posting))
            × (self.new ≡ record { term = self.old.term; value = self.old.value; passed = self.old.passed + 1 })) }
        ensures step { steps.new ≡ min (steps.old + 1) u64.MAX }
    {
        steps.tick();
        if self.passing.index == self.term.info.doc_freq {
            return None;
        }
        match self.passing.step(&self.term) {
            Err(_rule) => None,
            Ok(entry) => Some(entry),
        }
    }

    /// Goes on to a point of the term that is not before the entry that comes next.
    pub fn jump(&mut self, point: &SkipPoint)
        requires point { IsPoint self.old.term self.old.value point.now }
        requires ahead { self.old.passed ≤ point.now.passed }
        ensures { self.new ≡ record { term = self.old.term; value = self.old.value; passed = point.now.passed } }
    {
        self.passing = Passing {
            cur: Cur::at(self.frq, point.freq as usize),
            index: point.passed,
            doc: point.doc,
        };
    }
}
