//! The files of terms and entries.
ghost use Rattle.std.specs.Prelude.{◌≡◌, ◌⊎◌, ◌<◌, ◌≤◌, ◌^◌, [], length, true, OnOk, OnErr, IfOk};
ghost use Rattle.freq_skips.specs.Written.{last_doc};
ghost use Rattle.term_dict.specs.Terms.{last_term};
ghost use Rattle.term_dict.specs.Writing.{AreIntervals, no_terms_written};
ghost use Rattle.segment_files.specs.Postings.{tis_bytes, tii_bytes};
ghost use Rattle.posting_files.specs.States.{is_within_limit, no_lists, list_begun, list_added, list_finished};

use freq_skips::FreqWriter;
use lu_prims::OutOfMemory;
use lu_types::TermInfo;
use std::alloc::Global;
use std::marker::Model;
use term_dict::{TermFiles, TermWriter};

/// Writes the terms of a segment and their entries, up to the term with which the file of entries passes the limit: of the
/// terms behind that one nothing is written. Contracts see the writers of both files.
#[derive(Drop)]
pub struct ListWriter {
    limit: u32,
    terms: TermWriter,
    freq: FreqWriter,
    /// Where the term that was begun last starts in the file of entries.
    place: u32,
}

impl Model for ListWriter {
    ghost use Rattle.std.specs.Prelude.{◌≡◌, ◌≤◌, ◌<◌, ◌^◌, length};
    ghost use Rattle.term_dict.specs.Terms.{last_term};
    ghost use Rattle.posting_files.specs.States.{ListState};

    ghost Value = { ListState };

    ghost view = { λ w. record { limit = w.limit; terms = w.terms; freq = w.freq; place = w.place } };

    ghost invariant = { λ w. record {
      small : w.limit < 2 ^ 31;
      interval : w.freq.interval ≡ w.terms.skip_interval;
      after : (last_term w.terms.terms).info.freq ≤ w.place;
      within : w.place ≤ length w.freq.bytes;
    } };
}

impl ListWriter {
    /// A writer of no terms yet, of files of at most so many bytes.
    pub fn new(
        alloc: Global,
        limit: u32,
        index_interval: u32,
        skip_interval: u32,
        max_levels: u32,
    ) -> Result<ListWriter, OutOfMemory>
        requires small { limit < 2 ^ 31 }
        requires intervals { AreIntervals (no_terms_written index_interval skip_interval max_levels) }
        ensures { IfOk result (λ writer. writer ≡ no_lists limit (record { index = index_interval; skip = skip_interval; levels = max_levels })) }
    {
        let terms = TermWriter::new(alloc, index_interval, skip_interval, max_levels)?;
        let freq = FreqWriter::new(alloc, skip_interval, max_levels)?;
        Ok(ListWriter {
            limit,
            terms,
            freq,
            place: 0,
        })
    }

    /// Whether the file of entries is within the limit so far.
    pub fn is_within(&self) -> bool
        ensures { result ≡ is_within_limit self.now }
    {
        self.freq.len() <= self.limit as usize
    }

    /// Begins a term of a field that omits frequencies and positions, or has payloads.
    pub fn begin(&mut self, omit_tf: bool, payloads: bool)
        requires none { is_within_limit self.old ≡ true → self.old.freq.entries ≡ [] }
        ensures { self.new ≡ list_begun self.old omit_tf payloads }
    {
        if self.is_within() {
            self.place = self.freq.start(omit_tf, payloads);
        }
    }

    /// Adds an entry to the term that is begun: a document above the one before, how often the term stands in it, and the bytes
    /// of positions that the term has before it. After an `Err` the writer is as before.
    pub fn add(&mut self, doc: u32, freq: u32, prox: u32) -> Result<(), OutOfMemory>
        requires order { is_within_limit self.old ≡ true → self.old.freq.entries ≡ [] ⊎ last_doc 0 self.old.freq.entries < doc }
        requires doc_small { doc < 2 ^ 31 }
        requires some { 1 ≤ freq }
        requires freq_small { freq < 2 ^ 31 }
        ensures ok { OnOk result (self.new ≡ list_added self.old (record { doc = doc; freq = freq; prox = prox })) }
        ensures err { OnErr result (self.new ≡ self.old) }
    {
        if self.is_within() {
            return self.freq.add(doc, freq, prox);
        }
        Ok(())
    }

    /// Finishes the term that is begun: under the number of its field and its text, its positions from this place on. After an
    /// `Err` the files are lost.
    pub fn finish_term(&mut self, field: u32, text: &str, prox: u32) -> Result<(), OutOfMemory>
        requires some { is_within_limit self.old ≡ true → 0 < length self.old.freq.entries }
        requires few { is_within_limit self.old ≡ true → length self.old.freq.entries < 2 ^ 31 }
        requires prox { (last_term self.old.terms.terms).info.prox ≤ prox }
        requires field { field < 2 ^ 31 }
        requires small { length text.now < 2 ^ 31 }
        ensures ok { OnOk result (self.new ≡ list_finished self.old field text.now prox) }
        ensures limit { self.new.limit ≡ self.old.limit }
        ensures last { (last_term self.new.terms.terms).info.prox ≤ prox }
    {
        if !self.is_within() {
            return Ok(());
        }
        let doc_freq = self.freq.count();
        let skip = self.freq.finish_term()?;
        let info = TermInfo {
            field,
            doc_freq,
            freq: self.place,
            prox,
            skip,
        };
        self.terms.add(text, &info)
    }

    /// The files of terms and of their index, and the bytes of entries. The file of entries is within the limit.
    pub fn finish(self) -> Result<(TermFiles, Vec<u8>), OutOfMemory>
        requires { self.freq.entries ≡ [] }
        ensures tis { IfOk result (λ files. files.0.tis ≡ tis_bytes self.terms) }
        ensures tii { IfOk result (λ files. files.0.tii ≡ tii_bytes self.terms) }
        ensures frq { IfOk result (λ files. files.1.items ≡ self.freq.bytes) }
    {
        let ListWriter {
            limit: _,
            terms,
            freq,
            place: _,
        } = self;
        let frq = freq.finish();
        let files = terms.finish()?;
        Ok((files, frq))
    }
}
