//! The occurrences of a term, document by document.
ghost use Rattle.std.specs.Prelude.{◌≡◌, ◌≤◌, ◌<◌, ◌+◌, ℕ, false, List, [], ◌∷◌, length, slice_index_or, MatchOption};
ghost use Rattle.lu_types.specs.Occurrences.{Occurrence};
ghost use Rattle.freq_skips.specs.Terms.{TermData, ruled_by};
ghost use Rattle.freq_skips.specs.Points.{IsPoint};
ghost use Rattle.positions.specs.Occurrences.{count_at};
ghost use Rattle.positions.specs.Standing.{count_before};
ghost use Rattle.positions.specs.Cursors.{StandsInBoth, IsPointIn, IsAmong, posted_term};
ghost use Rattle.positions.specs.Views.{occurrence_seen};

use crate::placing::reading_at;
use crate::reading::Reading;
use crate::record::position_gap;
use freq_skips::{RuledTerm, SkipPoint};
use lu_types::{TermInfo, TermRules};
use std::marker::Model;

/// A place of the term in a document, and the payload there, empty where it has none.
#[derive(Clone, Copy, Debug, PartialEq, Eq)]
pub struct Occ<'a> {
    pub position: u32,
    pub payload: &'a [u8],
}

/// The occurrences of a term, over bytes that were checked: those of the document that is open, in order, and then those of the
/// next that is opened. Contracts see the term, the bytes, and where the cursor stands in them. No call takes memory.
#[derive(Drop)]
pub struct Occurrences<'a> {
    prx: &'a [u8],
    term: RuledTerm,
    reading: Reading<'a>,
    left: u32,
}

impl<'a> Model for Occurrences<'a> {
    ghost use Rattle.std.specs.Prelude.{◌≡◌};
    ghost use Rattle.lu_grammar.specs.Bytes.{IsBytes};
    ghost use Rattle.positions.specs.Cursors.{CursorState};

    ghost Value = { CursorState };

    ghost view = { λ o. record {
      term = o.term;
      prx = o.prx.now;
      here = o.reading.cur;
      force = o.reading.force;
      position = o.reading.position;
      left = o.left;
    } };

    ghost invariant = { λ o. record {
      bytes : IsBytes o.prx.now;
      payloads : o.reading.payloads ≡ o.term.rules.payloads;
    } };
}

impl<'a> Occurrences<'a> {
    /// Before the occurrences of the entry that a point of a term of the dictionary leads to; no document is open. Where the first
    /// occurrence there does not state its payload length, the length in force is read from the term's start.
    pub fn at(
        prx: &'a [u8],
        info: &TermInfo,
        rules: &TermRules,
        point: &SkipPoint,
    ) -> Occurrences<'a>
        requires { IsPointIn (ruled_by info.now rules.now) prx.now point.now }
        ensures { (value : TermData) (occurrences : List (List Occurrence)) → StandsInBoth (ruled_by info.now rules.now) value prx.entry.now occurrences → IsPoint (ruled_by info.now rules.now) value point.now
            → IsAmong (ruled_by info.now rules.now) value occurrences point.now.passed [] result }
    {
        let term = RuledTerm {
            info: *info,
            rules: *rules,
        };
        let reading = reading_at(prx, &term, point);
        Occurrences {
            prx,
            term,
            reading,
            left: 0,
        }
    }

    /// Passes over what is left of the open document and over so many occurrences more, which are those of whole documents, and
    /// opens the next document, which has this frequency. It is not to be called in a field without positions.
    pub fn open_doc(&mut self, skip: u64, freq: u32)
        ensures { (t : RuledTerm) (value : TermData) (occurrences : List (List Occurrence)) (passed entry : ℕ) (left : List Occurrence) → IsAmong t value occurrences passed left self.old
            → t.rules.omit_tf ≡ false → passed ≤ entry → entry < t.info.doc_freq → count_before (posted_term t value) entry ≡ count_before (posted_term t value) passed + skip
            → freq ≡ count_at (posted_term t value) entry → IsAmong t value occurrences (entry + 1) (slice_index_or occurrences entry []) self.new }
    {
        self.reading.pass(u64::from(self.left));
        self.reading.pass(skip);
        self.reading.position = 0;
        self.left = freq;
    }

    /// The next occurrence of the open document; `None` exactly where none is left, or none is open.
    pub fn next(&mut self) -> Option<Occ<'a>>
        ensures { (t : RuledTerm) (value : TermData) (occurrences : List (List Occurrence)) (passed : ℕ) (left : List Occurrence) → IsAmong t value occurrences passed left self.old
            → MatchOption result
            ((left ≡ []) × IsAmong t value occurrences passed [] self.new)
            (λ occ. (rest : List Occurrence) × (left ≡ occurrence_seen occ ∷ rest) × IsAmong t value occurrences passed rest self.new) }
    {
        if self.left == 0 {
            return None;
        }
        match self.reading.take() {
            Err(_bad) => None,
            Ok(parts) => {
                self.left -= 1;
                let gap = position_gap(self.reading.payloads, parts.delta);
                self.reading.position = self.reading.position.saturating_add(gap);
                Some(Occ {
                    position: self.reading.position,
                    payload: parts.payload,
                })
            }
        }
    }

    /// Stands before the occurrences of the entry that a point of the term leads to; no document is open. The payload length in
    /// force is found as `at` does it.
    pub fn jump(&mut self, point: &SkipPoint)
        requires { IsPointIn self.old.term self.old.prx point.now }
        ensures { (value : TermData) (occurrences : List (List Occurrence)) → StandsInBoth self.old.term value self.old.prx occurrences → IsPoint self.old.term value point.now
            → IsAmong self.old.term value occurrences point.now.passed [] self.new }
    {
        self.reading = reading_at(self.prx, &self.term, point);
        self.left = 0;
    }
}
