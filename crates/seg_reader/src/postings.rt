//! A cursor over the entries of a term.
ghost use Rattle.std.specs.Prelude.{◌≡◌, ℕ, ◌+◌, ◌≤◌, [], ◌∷◌, option_map, Some, IsSome, MatchOption};
ghost use Rattle.lu_model.specs.Index.{IndexedEntry, frequency};
ghost use Rattle.positions.specs.Views.{occurrence_seen};
ghost use Rattle.lu_types.specs.Tables.{bits_at};
ghost use Rattle.check_index.specs.Opened.{IsTermOf};
ghost use Rattle.seg_reader.specs.Postings.{postings_of, next_entry, answered, entries_left, most_steps_to};

use crate::beside::Beside;
use crate::jump::jump;
use crate::place::Place;
use crate::scan::Scan;
use check_index::Standing;
use doc_marks::Live;
use freq_skips::{SkipPoint, Skips, TermRules};
use lu_prims::Steps;
use lu_types::{FieldTable, TermInfo};
use positions::Occ;
use std::marker::Model;

/// A cursor over the entries of a term in the order of their documents, that passes over deleted ones, or over none. Contracts see
/// the entries of the term, and where the cursor stands among them. No call takes memory.
#[derive(Drop)]
pub struct PostingsCursor<'a> {
    scan: Scan<'a>,
    skips: Skips<'a>,
    beside: Beside<'a>,
    place: Place,
    omits: bool,
}

impl<'a> Model for PostingsCursor<'a> {
    ghost use Rattle.seg_reader.specs.Postings.{PostingsWalk};
    ghost use Rattle.seg_reader.specs.InnerCursor.{walk_at, AreTogether};

    ghost Value = { PostingsWalk };

    ghost view = { λ c. walk_at c.scan c.beside c.place };

    ghost invariant = { λ c. AreTogether c.scan c.skips c.beside c.place c.omits };
}

/// The bits of the field with a number.
fn bits_of(fields: &FieldTable<'_>, field: u32) -> u8
    ensures { result ≡ bits_at fields.now field }
{
    match fields.field(field) {
        Some(found) => found.bits,
        None => 0,
    }
}

impl<'a> PostingsCursor<'a> {
    /// Before the first entry of a term of the segment; it passes over the documents that are deleted here.
    pub(crate) fn over(
        standing: &Standing<'a>,
        term: &TermInfo,
        live: Live<'a>,
    ) -> PostingsCursor<'a>
        requires { (n : ℕ) × IsTermOf standing.now n term.now }
        ensures { (n : ℕ) → IsTermOf standing.now n term.now → result ≡ postings_of standing.now n term.now live.entry.documents }
    {
        let numbers = standing.terms().numbers();
        let rules = TermRules::of(
            &numbers,
            bits_of(standing.fields(), term.field),
            standing.size(),
        );
        let scan = Scan {
            entries: standing.entries(term),
            live: live.walk(),
            passed: 0,
            between: 0,
        };
        let beside = Beside {
            occurrences: standing.occurrences(term, &SkipPoint::start(term)),
            ahead: None,
        };
        PostingsCursor {
            scan,
            skips: standing.skips(term),
            beside,
            place: Place::Start,
            omits: rules.omit_tf,
        }
    }

    /// The next document; `None` where there is none, and from then on. Costs a step for each entry that is read.
    pub fn next<L>(&mut self, steps: &mut Steps<L>) -> Option<u32>
        ensures document { result ≡ option_map (λ e. e.document) (next_entry self.old 0) }
        ensures walk { self.new ≡ answered self.old (next_entry self.old 0) }
        ensures left { MatchOption result ((entries_left self.old ≡ []) × (entries_left self.new ≡ []))
            (λ _. (e : IndexedEntry) × (self.new.here ≡ Some e) × (entries_left self.old ≡ e ∷ entries_left self.new)) }
        ensures bound { steps.new ≤ steps.old + most_steps_to self.old 0 }
    {
        match self.scan.first_from(0, steps) {
            None => {
                self.place = Place::End;
                None
            }
            Some(entry) => {
                self.place = Place::At(entry);
                Some(entry.doc)
            }
        }
    }

    /// Moves at least once, and stops at the first later document that is not below the target, by the skip data of the term where
    /// it has some; `None` where there is no such document, and from then on. Costs a step for each entry and each skip datum
    /// that is read.
    pub fn advance<L>(&mut self, target: u32, steps: &mut Steps<L>) -> Option<u32>
        ensures document { result ≡ option_map (λ e. e.document) (next_entry self.old target) }
        ensures walk { self.new ≡ answered self.old (next_entry self.old target) }
        ensures bound { steps.new ≤ steps.old + most_steps_to self.old target }
    {
        let point = self.skips.find(target, steps);
        jump(&mut self.scan, &mut self.beside, &point);
        match self.scan.first_from(target, steps) {
            None => {
                self.place = Place::End;
                None
            }
            Some(entry) => {
                self.place = Place::At(entry);
                Some(entry.doc)
            }
        }
    }

    /// How often the term stands in the document that was answered; 1 where its field omits that.
    pub fn freq(&self) -> u32
        requires { IsSome self.now.here }
        ensures { (e : IndexedEntry) → self.now.here ≡ Some e → result ≡ frequency e.occurrences }
    {
        if self.omits {
            return 1;
        }
        match self.place {
            Place::At(entry) => entry.freq,
            Place::Within(entry) => entry.freq,
            Place::Start => unreachable!(),
            Place::End => unreachable!(),
        }
    }

    /// The next occurrence of the term in the document that was answered; `None` after the last, and where its field omits them.
    /// After a jump, this is where the positions of the entries between are passed: they are no steps.
    pub fn occurrence(&mut self) -> Option<Occ<'a>>
        ensures { MatchOption result ((self.old.left ≡ []) × (self.new ≡ self.old))
            (λ occ. (self.old.left ≡ occurrence_seen occ ∷ self.new.left) × (self.new ≡ record self.old { left = self.new.left })) }
    {
        if self.omits {
            return None;
        }
        match self.place {
            Place::Start => None,
            Place::End => None,
            Place::At(entry) => {
                self.beside.open(self.scan.between, entry.freq);
                self.scan.between = 0;
                self.place = Place::Within(entry);
                self.beside.occurrences.next()
            }
            Place::Within(_) => self.beside.occurrences.next(),
        }
    }
}
