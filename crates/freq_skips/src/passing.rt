//! A place among the entries of a term, from which they are read one after another.
ghost use Rattle.std.specs.Prelude.{◌≡◌, ℕ, ◌+◌, ◌<◌, ◌≤◌, MatchResult, Ok, Err};
ghost use Rattle.lu_grammar.specs.Bytes.{Cursor};
ghost use Rattle.lu_grammar.specs.Plans.{read_plan};
ghost use Rattle.lu_types.specs.declared.kind.FileKind.TheVariants.{Frq};
ghost use Rattle.lu_types.specs.Judging.{IsBroken};
ghost use Rattle.freq_skips.specs.Entries.{entries, AreEntries, IsBehindEntries, IsNext};

use crate::entry::{Entry, next_entry};
use crate::rules::RuledTerm;
use lu_prims::Cur;
use lu_types::{FileKind, Spot};

/// A place among the entries of a term: so many are passed, and the last of them has this document (0 where there is none).
#[derive(Drop)]
pub struct Passing<'a> {
    pub cur: Cur<'a>,
    pub index: u32,
    pub doc: u32,
}

impl<'a> Passing<'a> {
    /// Passes one entry.
    pub fn step(&mut self, term: &RuledTerm) -> Result<Entry, u16>
        requires { self.old.index < term.now.info.doc_freq }
        ensures { MatchResult result
            (λ e. (self.new.index ≡ self.old.index + 1) × (self.new.doc ≡ e.doc)
            × ((start : Cursor) → IsBehindEntries term.now start self.old.index self.old.doc self.old.cur
            → IsNext term.now start self.old.index (record { doc = e.doc; freq = e.freq; before = self.old.doc; place = self.old.cur.place }) self.new.cur))
            (λ rule. (start : Cursor) → IsBehindEntries term.now start self.old.index self.old.doc self.old.cur
            → read_plan (entries term.now) start ≡ Err (record { offset = self.old.cur.place; rule = rule })) }
    {
        // Read here, so that its range is known where the index is counted up.
        let _doc_freq = term.info.doc_freq;
        let entry = match next_entry(&mut self.cur, term, self.index == 0, self.doc) {
            Err(rule) => return Err(rule),
            Ok(entry) => entry,
        };
        self.index += 1;
        self.doc = entry.doc;
        Ok(entry)
    }

    /// Passes entries up to the one with an index, of a term whose entries are good.
    pub fn pass_to(&mut self, term: &RuledTerm, target: u32)
        requires { target ≤ term.now.info.doc_freq }
        ensures { (start end : Cursor) → AreEntries term.now start end → IsBehindEntries term.now start self.old.index self.old.doc self.old.cur → self.old.index ≤ target
            → IsBehindEntries term.now start self.new.index self.new.doc self.new.cur × (self.new.index ≡ target) }
    {
        while self.index < target {
            match self.step(term) {
                Err(_rule) => return,
                Ok(_entry) => {}
            }
        }
    }
}

/// A term whose entries are good: the bytes of the file, and where the entries start in them.
#[derive(Clone, Copy, Debug, PartialEq, Eq)]
pub struct CheckedEntries<'a> {
    pub frq: &'a [u8],
    pub term: RuledTerm,
    pub start: usize,
}

/// Checks the entries of a term, from where they are to start.
pub fn check_entries<'a>(cur: Cur<'a>, term: &RuledTerm) -> Result<Passing<'a>, Spot>
    ensures { MatchResult result
        (λ passing. AreEntries term.now cur.entry passing.cur)
        (λ spot. IsBroken Frq (read_plan (entries term.now) cur.entry) spot) }
{
    let mut passing = Passing {
        cur,
        index: 0,
        doc: 0,
    };
    while passing.index < term.info.doc_freq {
        let place = passing.cur.place();
        match passing.step(term) {
            Err(rule) => return Err(Spot::at(FileKind::Frq, place, rule)),
            Ok(_entry) => {}
        }
    }
    Ok(passing)
}
