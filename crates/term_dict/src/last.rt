//! The last term that was read, and how the next one follows from it.
ghost use Rattle.std.specs.Prelude.{◌≡◌, ◌+◌, ◌^◌, ◌<◌, ◌≤◌, ◌++◌, ◌==◌, List, length, take, MatchOption, IfOk, OnOk, None, vec_capacity};
ghost use Rattle.std.specs.Str.{IsUtf8, is_utf8};
ghost use Rattle.lu_grammar.specs.Records.{first_broken};
ghost use Rattle.term_dict.specs.Canonical.{shared};
ghost use Rattle.term_dict.specs.Entries.{term_record_of, IsBounded};
ghost use Rattle.term_dict.specs.Terms.{DictionaryTerm, no_term, last_term, term_after, is_above};
ghost use Rattle.term_dict.specs.Dictionary.{within, term_place_conditions, term_conditions};
ghost use Rattle.term_dict.specs.Last.{term_of_last, IsSoundTerm, Fits};

use crate::entry::TermEntry;
use crate::order::{is_indexed, names_cmp};
use crate::spelling::shared_len;
use lu_prims::{OutOfMemory, follow, follow_text, tail_cmp};
use lu_types::rules::{DOC_FREQ, TERM_FIELD, TERM_ORDER, TERM_PLACE, TERM_PREFIX, TERM_UTF8};
use lu_types::{FieldTable, TermInfo};
use std::alloc::Global;

/// The first place that no file of at most 2^31 - 1 bytes has.
const PLACE_LIMIT: u64 = 1 << 31;

/// What stands before the first term.
const NO_INFO: TermInfo = TermInfo {
    field: 0,
    doc_freq: 0,
    freq: 0,
    prox: 0,
    skip: 0,
};

/// The last term that was read: its text, in the one buffer that each next text is written over, and what was said of it.
#[derive(Drop)]
pub(crate) struct LastTerm {
    pub(crate) text: Vec<u8>,
    pub(crate) info: TermInfo,
}

/// The place that is so many bytes after another; `None` exactly where it is over 2^31 - 1.
pub(crate) fn place_after(before: u32, step: u64) -> Option<u32>
    requires before { before < 2 ^ 31 }
    requires step { step < 2 ^ 63 }
    ensures { MatchOption result (2 ^ 31 ≤ before + step) (λ place. (place ≡ before + step) × (place < 2 ^ 31)) }
{
    let place = u64::from(before) + step;
    if place < PLACE_LIMIT {
        Some(place as u32)
    } else {
        None
    }
}

impl LastTerm {
    /// What the first term follows: no text, and both places 0. Takes no memory.
    pub(crate) fn new(alloc: Global) -> LastTerm
        ensures { term_of_last result ≡ no_term }
    {
        LastTerm {
            text: Vec::new(alloc),
            info: NO_INFO,
        }
    }

    /// The same, with room for texts of so many bytes.
    pub(crate) fn with_room(alloc: Global, longest: usize) -> Result<LastTerm, OutOfMemory>
        ensures term { IfOk result (λ last. term_of_last last ≡ no_term) }
        ensures room { IfOk result (λ last. longest ≤ vec_capacity last.text) }
    {
        let mut last = LastTerm::new(alloc);
        last.text.reserve(longest)?;
        Ok(last)
    }

    /// Makes it what the first term follows, and keeps the room.
    pub(crate) fn reset(&mut self)
        ensures term { term_of_last self.new ≡ no_term }
        ensures room { vec_capacity self.old.text ≤ vec_capacity self.new.text }
    {
        self.text.clear();
        self.info = NO_INFO;
    }

    /// Makes room for a text of so many bytes. The term stays.
    pub(crate) fn make_room(&mut self, length: usize) -> Result<(), OutOfMemory>
        ensures term { term_of_last self.new ≡ term_of_last self.old }
        ensures room { OnOk result (length ≤ vec_capacity self.new.text) }
    {
        self.text.reserve(length)?;
        Ok(())
    }

    /// Makes it the term with this text, for which there is room, and of which this is said.
    pub(crate) fn set(&mut self, text: &[u8], info: &TermInfo)
        requires { length text.now ≤ vec_capacity self.old.text }
        ensures term { term_of_last self.new ≡ record { text = text.now; info = info.now } }
        ensures room { vec_capacity self.old.text ≤ vec_capacity self.new.text }
    {
        if follow(&mut self.text, 0, text).is_err() {
            unreachable!();
        }
        self.info = *info;
    }

    /// How many bytes the text of an entry that is good after the term begins with, which this text begins with too.
    pub(crate) fn shared_with(&self, entry: &TermEntry<'_>) -> usize
        requires { entry.now.prefix ≤ length self.now.text.items }
        ensures { result ≡ shared (term_of_last self.now).text (term_after (term_of_last self.now) (term_record_of entry.now)).text }
    {
        let kept = entry.prefix as usize;
        kept + shared_len(self.text.as_slice().split_at(kept).1, entry.suffix)
    }

    /// Makes the term that of an entry which is good after it, where there is room for the text.
    pub(crate) fn advance(&mut self, entry: &TermEntry<'_>)
        requires fits { Fits (term_of_last self.old) (term_record_of entry.now) }
        requires room { entry.now.prefix + length entry.now.suffix.now ≤ vec_capacity self.old.text }
        ensures term { term_of_last self.new ≡ term_after (term_of_last self.old) (term_record_of entry.now) }
        ensures room { vec_capacity self.old.text ≤ vec_capacity self.new.text }
    {
        if follow(&mut self.text, entry.prefix as usize, entry.suffix).is_err() {
            unreachable!();
        }
        self.info = TermInfo {
            field: entry.field,
            doc_freq: entry.doc_freq,
            freq: (u64::from(self.info.freq) + entry.freq) as u32,
            prox: (u64::from(self.info.prox) + entry.prox) as u32,
            skip: entry.skip,
        };
    }

    /// Whether the term of the entry is above all before, where `first` says that there are none.
    fn is_below(&self, entry: &TermEntry<'_>, first: bool, fields: &FieldTable<'_>) -> bool
        requires prefix { entry.now.prefix ≤ length self.now.text.items }
        requires text { IsUtf8 self.now.text.items }
        ensures { (before : List DictionaryTerm) → last_term before ≡ term_of_last self.now → first ≡ (length before == 0)
            → IsUtf8 (take entry.now.prefix self.now.text.items ++ entry.now.suffix.now)
            → result ≡ is_above fields.now before (term_after (term_of_last self.now) (term_record_of entry.now)) }
    {
        if first {
            return true;
        }
        let tail = self.text.as_slice().split_at(entry.prefix as usize).1;
        names_cmp(fields, self.info.field, entry.field)
            .then(tail_cmp(tail, entry.suffix))
            .is_lt()
    }

    /// Makes the text that of the entry, and answers whether it is UTF-8.
    fn set_text(&mut self, entry: &TermEntry<'_>) -> Result<bool, OutOfMemory>
        requires prefix { entry.now.prefix ≤ length self.old.text.items }
        requires text { IsUtf8 self.old.text.items }
        ensures text { IfOk result (λ valid. (self.new.text.items ≡ take entry.now.prefix self.old.text.items ++ entry.now.suffix.now)
            × (valid ≡ is_utf8 self.new.text.items)) }
        ensures info { self.new.info ≡ self.old.info }
    {
        let prefix = entry.prefix as usize;
        follow_text(&mut self.text, prefix, entry.suffix)
    }

    /// Makes what is said of the term what the entry says; or, where a place is over 2^31 - 1, answers the rule that it breaks.
    fn set_info(&mut self, entry: &TermEntry<'_>) -> Option<u16>
        requires freq { self.old.info.freq < 2 ^ 31 }
        requires prox { self.old.info.prox < 2 ^ 31 }
        requires bounded { IsBounded entry.now }
        ensures text { self.new.text ≡ self.old.text }
        ensures rule { result ≡ first_broken (term_place_conditions (term_after (term_of_last self.old) (term_record_of entry.now))) }
        ensures good { result ≡ None → (self.new.info ≡ (term_after (term_of_last self.old) (term_record_of entry.now)).info)
            × (self.new.info.freq < 2 ^ 31) × (self.new.info.prox < 2 ^ 31) }
    {
        let Some(freq) = place_after(self.info.freq, entry.freq) else {
            return Some(TERM_PLACE);
        };
        let Some(prox) = place_after(self.info.prox, entry.prox) else {
            return Some(TERM_PLACE);
        };
        self.info = TermInfo {
            field: entry.field,
            doc_freq: entry.doc_freq,
            freq,
            prox,
            skip: entry.skip,
        };
        None
    }

    /// Makes the term that of the entry; or answers the first rule that it breaks after those before, of which there are none
    /// where it is the first, in a segment with these fields and so many documents.
    pub(crate) fn step(
        &mut self,
        entry: &TermEntry<'_>,
        first: bool,
        fields: &FieldTable<'_>,
        documents: u32,
    ) -> Result<Option<u16>, OutOfMemory>
        requires sound { IsSoundTerm (term_of_last self.old) }
        requires bounded { IsBounded entry.now }
        ensures rule { (before : List DictionaryTerm) → last_term before ≡ term_of_last self.old → first ≡ (length before == 0)
            → IfOk result (λ rule. rule ≡ first_broken (term_conditions (within fields.now documents) before (term_record_of entry.now))) }
        ensures good { IfOk result (λ rule. rule ≡ None → (term_of_last self.new ≡ term_after (term_of_last self.old) (term_record_of entry.now)) × IsSoundTerm (term_of_last self.new)) }
    {
        if entry.prefix as usize > self.text.len() {
            return Ok(Some(TERM_PREFIX));
        }
        let above = self.is_below(entry, first, fields);
        if !self.set_text(entry)? {
            return Ok(Some(TERM_UTF8));
        }
        if let Some(rule) = standing_rule(entry, above, fields, documents) {
            return Ok(Some(rule));
        }
        Ok(self.set_info(entry))
    }
}

/// The first rule that the entry of a term breaks in a segment with these fields and so many documents, where `above` says
/// whether the term is above those before.
fn standing_rule(
    entry: &TermEntry<'_>,
    above: bool,
    fields: &FieldTable<'_>,
    documents: u32,
) -> Option<u16>
    ensures { (before : List DictionaryTerm) (t : DictionaryTerm) → t.info.field ≡ entry.now.field → t.info.doc_freq ≡ entry.now.doc_freq
        → above ≡ is_above fields.now before t → result ≡ first_broken (within fields.now documents before t) }
{
    if !is_indexed(fields, entry.field) {
        return Some(TERM_FIELD);
    }
    if !above {
        return Some(TERM_ORDER);
    }
    if entry.doc_freq == 0 || entry.doc_freq > documents {
        return Some(DOC_FREQ);
    }
    None
}
