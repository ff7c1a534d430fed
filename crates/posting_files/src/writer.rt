//! The writer of all files of terms.
ghost use Rattle.std.specs.Prelude.{◌≡◌, ◌⊎◌, ◌<◌, ◌≤◌, ◌^◌, ◌-◌, [], length, true, OnOk, OnErr, IfOk};
ghost use Rattle.freq_skips.specs.Written.{last_doc};
ghost use Rattle.term_dict.specs.Writing.{AreIntervals, no_terms_written};
ghost use Rattle.posting_files.specs.States.{Finishes, PostingSteps, StepsTo, held_files, is_within_limit, no_postings, term_begun, entry_begun, occurrence_put, entry_put, term_finished};

use crate::fault::PostingFault;
use crate::lists::ListWriter;
use lu_prims::OutOfMemory;
use lu_types::{Bytes, FileKind};
use positions::ProxWriter;
use std::alloc::Global;
use std::marker::Model;

/// Writes the terms of a segment with their entries and positions, one term after another: of each term its entries, and of
/// each entry its occurrences. Contracts see the writers of the files.
///
/// Where the positions pass the limit the next step says so. Where the entries do, the positions are still written, since they
/// come first in the order in which the files of a segment are looked at; the last step says so.
#[derive(Drop)]
pub struct PostingWriter {
    limit: u32,
    lists: ListWriter,
    prox: ProxWriter,
    /// Where the term that was begun last starts in the file of positions.
    place: u32,
}

impl Model for PostingWriter {
    ghost use Rattle.std.specs.Prelude.{◌≡◌, ◌≤◌, ◌<◌, ◌^◌, length};
    ghost use Rattle.term_dict.specs.Terms.{last_term};
    ghost use Rattle.posting_files.specs.States.{PostingState};

    ghost Value = { PostingState };

    ghost view = { λ w. record { lists = w.lists; prox = w.prox } };

    ghost invariant = { λ w. record {
      small : w.limit < 2 ^ 31;
      limit : w.lists.limit ≡ w.limit;
      place : w.place ≡ w.prox.start;
      start : w.prox.start ≤ length w.prox.bytes;
      after : (last_term w.lists.terms.terms).info.prox ≤ w.place;
    } };
}

impl PostingWriter {
    /// A writer of no terms yet, of files of at most so many bytes.
    pub fn new(
        alloc: Global,
        limit: u32,
        index_interval: u32,
        skip_interval: u32,
        max_levels: u32,
    ) -> Result<PostingWriter, OutOfMemory>
        requires small { limit < 2 ^ 31 }
        requires intervals { AreIntervals (no_terms_written index_interval skip_interval max_levels) }
        ensures { IfOk result (λ writer. writer ≡ no_postings limit (record { index = index_interval; skip = skip_interval; levels = max_levels })) }
    {
        let lists = ListWriter::new(alloc, limit, index_interval, skip_interval, max_levels)?;
        let prox = ProxWriter::new(alloc)?;
        Ok(PostingWriter {
            limit,
            lists,
            prox,
            place: 0,
        })
    }

    /// Begins a term of a field that omits frequencies and positions, or has payloads.
    pub fn begin_term(&mut self, omit_tf: bool, payloads: bool) -> Result<(), PostingFault>
        requires none { is_within_limit self.old.lists ≡ true → self.old.lists.freq.entries ≡ [] }
        ensures { PostingSteps (term_begun self.old omit_tf payloads) self.old self.new result }
    {
        if self.prox.len() > self.limit as usize {
            return Err(PostingFault::TooLarge(FileKind::Prx));
        }
        self.place = self.prox.start(payloads);
        self.lists.begin(omit_tf, payloads);
        Ok(())
    }

    /// Begins an entry of the term that is begun, and answers how many bytes of positions the term has before it.
    pub fn begin_entry(&mut self) -> Result<u32, PostingFault>
        ensures { StepsTo (λ before. (before ≡ length self.old.prox.bytes - self.old.prox.start) × (self.new ≡ entry_begun self.old)) self.old result }
    {
        if self.prox.len() > self.limit as usize {
            return Err(PostingFault::TooLarge(FileKind::Prx));
        }
        Ok(self.prox.begin_doc())
    }

    /// Adds an occurrence to the entry that is begun: a position that is not below the one before, and its payload, empty in a
    /// field without payloads.
    pub fn add_occurrence(&mut self, position: u32, payload: &[u8]) -> Result<(), OutOfMemory>
        requires small { position < 2 ^ 31 }
        requires rises { self.old.prox.position ≤ position }
        requires few { length payload.now < 2 ^ 31 }
        ensures { OnOk result (self.new ≡ occurrence_put self.old (record { position = position; payload = payload.now })) }
    {
        self.prox.add(position, payload)
    }

    /// Ends the entry that is begun: its document, above the one before, how many occurrences it has, and the bytes of positions
    /// before it, as they were answered where it was begun; of a field that omits frequencies 1 and 0.
    pub fn end_entry(&mut self, doc: u32, freq: u32, before: u32) -> Result<(), OutOfMemory>
        requires order { is_within_limit self.old.lists ≡ true → self.old.lists.freq.entries ≡ [] ⊎ last_doc 0 self.old.lists.freq.entries < doc }
        requires doc_small { doc < 2 ^ 31 }
        requires some { 1 ≤ freq }
        requires freq_small { freq < 2 ^ 31 }
        ensures ok { OnOk result (self.new ≡ entry_put self.old (record { doc = doc; freq = freq; prox = before })) }
        ensures err { OnErr result (self.new ≡ self.old) }
    {
        self.lists.add(doc, freq, before)
    }

    /// Finishes the term that is begun, under the number of its field and its text. After an `Err` the files are lost.
    pub fn finish_term(&mut self, field: u32, text: &str) -> Result<(), OutOfMemory>
        requires some { is_within_limit self.old.lists ≡ true → 0 < length self.old.lists.freq.entries }
        requires few { is_within_limit self.old.lists ≡ true → length self.old.lists.freq.entries < 2 ^ 31 }
        requires field { field < 2 ^ 31 }
        requires small { length text.now < 2 ^ 31 }
        ensures { OnOk result (self.new ≡ term_finished self.old field text.now) }
    {
        self.lists.finish_term(field, text, self.place)
    }

    /// The files of the terms; or which of them passes the limit, the first of positions, entries, terms and index.
    pub fn finish(self) -> Result<PostingFiles, PostingFault>
        requires { is_within_limit self.lists ≡ true → self.lists.freq.entries ≡ [] }
        ensures { Finishes self.lists.limit (held_files self) result }
    {
        let PostingWriter {
            limit,
            lists,
            prox,
            place: _,
        } = self;
        if prox.len() > limit as usize {
            return Err(PostingFault::TooLarge(FileKind::Prx));
        }
        if !lists.is_within() {
            return Err(PostingFault::TooLarge(FileKind::Frq));
        }
        let (files, frq) = lists.finish()?;
        if files.tis.as_slice().len() > limit as usize {
            return Err(PostingFault::TooLarge(FileKind::Tis));
        }
        if files.tii.as_slice().len() > limit as usize {
            return Err(PostingFault::TooLarge(FileKind::Tii));
        }
        Ok(PostingFiles {
            tis: files.tis,
            tii: files.tii,
            frq: Bytes::new(frq),
            prx: Bytes::new(prox.finish()),
        })
    }
}

/// The files of terms, as bytes.
#[derive(Debug, Drop)]
pub struct PostingFiles {
    /// The terms.
    pub tis: Bytes,
    /// Their index.
    pub tii: Bytes,
    /// Their entries.
    pub frq: Bytes,
    /// The positions of these.
    pub prx: Bytes,
}
