//! A writer of terms and of their index (format page, "Terms" and "Term index").
ghost use Rattle.std.specs.Prelude.{pos, ◌≡◌, ℕ, ◌+◌, ◌-◌, ◌%◌, ◌++◌, ◌<◌, ◌≤◌, ◌^◌, [], ◌∷◌, length, take, drop, OnOk, OnErr, IfOk, vec_len, vec_capacity};
ghost use Rattle.lu_grammar.specs.Parts.{spelling, vlong as a_vlong};
ghost use Rattle.term_dict.specs.Canonical.{TermPoint, entry_between, term_record_bytes, point_bytes, canonical_tis, canonical_tii, header_bytes};
ghost use Rattle.term_dict.specs.Entries.{term_record_of, IsBounded};
ghost use Rattle.term_dict.specs.Last.{term_of_last};
ghost use Rattle.term_dict.specs.Terms.{no_term, last_term};
ghost use Rattle.term_dict.specs.Writing.{TermsWritten, FollowsTerm, IsSame, IsEntered, IsPassed, AreIntervals, AreSpellable, no_terms_written, with_written, last_point, numbers_written, numbers_of};
ghost use Rattle.term_dict.specs.Index.{blank};

use crate::cursor::HEADER_BYTES;
use crate::heading::FORMAT;
use crate::last::LastTerm;
use crate::spelling::{entry_between, push_entry};
use lu_prims::{OutOfMemory, put_i32, put_i64, put_vlong};
use lu_types::{Bytes, TermInfo};
use std::alloc::Global;
use std::marker::Model;

/// What entry 0 of the index says: field -1, no document, and both places 0.
const BLANK: TermInfo = TermInfo {
    field: u32::MAX,
    doc_freq: 0,
    freq: 0,
    prox: 0,
    skip: 0,
};

/// The index that is being written: its bytes, and the term and the place of its last entry.
#[derive(Drop)]
pub(crate) struct IndexOutput {
    pub(crate) bytes: Vec<u8>,
    pub(crate) point: LastTerm,
    pub(crate) place: u64,
}

/// Appends the entry of a term. After an `Err` the bytes are as before.
fn append_term(
    out: &mut Vec<u8>,
    last: &LastTerm,
    text: &[u8],
    info: &TermInfo,
    skip_interval: u32,
) -> Result<(), OutOfMemory>
    requires small { length text.now < 2 ^ 31 }
    requires follows { FollowsTerm last.now.info info.now }
    ensures ok { OnOk result (out.new.items ≡ out.old.items ++ term_record_bytes skip_interval (entry_between (term_of_last last.now) (record { text = text.now; info = info.now })) []) }
    ensures err { OnErr result (out.new.items ≡ out.old.items) }
    ensures places { (info.now.freq < 2 ^ 32) × (info.now.prox < 2 ^ 32) }
{
    let before = out.len();
    let entry = entry_between(last, text, info);
    if push_entry(out, &entry, skip_interval).is_err() {
        out.truncate(before);
        return Err(OutOfMemory);
    }
    Ok(())
}

/// Appends the entry of a term, and how far its place is above that of the entry before. After an `Err` the bytes are as
/// before.
fn append_point(
    out: &mut Vec<u8>,
    last: &LastTerm,
    text: &[u8],
    info: &TermInfo,
    skip_interval: u32,
    step: u64,
) -> Result<(), OutOfMemory>
    requires small { length text.now < 2 ^ 31 }
    requires follows { FollowsTerm last.now.info info.now }
    requires step { step < 2 ^ 63 }
    ensures ok { OnOk result (out.new.items ≡ out.old.items ++ term_record_bytes skip_interval (entry_between (term_of_last last.now) (record { text = text.now; info = info.now })) (spelling a_vlong step)) }
    ensures err { OnErr result (out.new.items ≡ out.old.items) }
{
    let before = out.len();
    append_term(out, last, text, info, skip_interval)?;
    if put_vlong(out, step).is_err() {
        out.truncate(before);
        return Err(OutOfMemory);
    }
    Ok(())
}

impl IndexOutput {
    /// Adds an entry. After an `Err` it is as before.
    fn enter(
        &mut self,
        text: &[u8],
        info: &TermInfo,
        place: u64,
        skip_interval: u32,
    ) -> Result<(), OutOfMemory>
        requires small { length text.now < 2 ^ 31 }
        requires follows { FollowsTerm self.old.point.info info.now }
        requires above { self.old.place ≤ place }
        requires place { place < 2 ^ 63 }
        ensures ok { OnOk result (IsEntered skip_interval self.old self.new (record { term = record { text = text.now; info = info.now }; place = place })) }
        ensures err { OnErr result (IsSame self.old self.new) }
    {
        self.point.make_room(text.len())?;
        append_point(
            &mut self.bytes,
            &self.point,
            text,
            info,
            skip_interval,
            place - self.place,
        )?;
        self.point.set(text, info);
        self.place = place;
        Ok(())
    }

    /// Adds an entry where an interval of terms begins with the term of this number, after the last one. After an `Err` it is
    /// as before.
    fn pass(
        &mut self,
        number: u64,
        index_interval: u32,
        last: &LastTerm,
        place: u64,
        skip_interval: u32,
    ) -> Result<(), OutOfMemory>
        requires interval { 1 ≤ index_interval }
        requires small { length last.now.text.items < 2 ^ 31 }
        requires first { number ≡ 0 → FollowsTerm self.old.point.info blank.info }
        requires later { FollowsTerm self.old.point.info last.now.info }
        requires above { self.old.place ≤ place }
        requires place { place < 2 ^ 63 }
        ensures ok { OnOk result (IsPassed number index_interval skip_interval self.old self.new (term_of_last last.now) place) }
        ensures err { OnErr result (IsSame self.old self.new) }
    {
        if number % u64::from(index_interval) != 0 {
            return Ok(());
        }
        if number == 0 {
            return self.enter(last.text.as_slice(), &BLANK, place, skip_interval);
        }
        self.enter(last.text.as_slice(), &last.info, place, skip_interval)
    }
}

/// A writer of the terms of a segment and of their index. Contracts see the intervals, the number of levels, and the terms
/// that it was handed.
#[derive(Drop)]
pub struct TermWriter {
    index_interval: u32,
    skip_interval: u32,
    max_levels: u32,
    count: u64,
    tis: Vec<u8>,
    last: LastTerm,
    index: IndexOutput,
}

impl Model for TermWriter {
    ghost use Rattle.term_dict.specs.Last.{term_of_last};
    ghost use Rattle.term_dict.specs.Writing.{TermsWritten, IsWritten, terms_written_in, last_point};

    ghost Value = { TermsWritten };

    ghost view = { λ w. terms_written_in w.index_interval w.skip_interval w.max_levels w.count w.tis.items };

    ghost invariant = { λ w. IsWritten (terms_written_in w.index_interval w.skip_interval w.max_levels w.count w.tis.items) w.tis.items (term_of_last w.last) w.index.bytes.items (last_point w.index) w.count };
}

/// Room for a header, which is written when the terms are counted.
const NO_HEADER: [u8; HEADER_BYTES] = [0; HEADER_BYTES];

impl TermWriter {
    /// A writer of no terms yet. The index has one term for each interval of so many, and skip data start from a number of
    /// documents on and have at most so many levels.
    pub fn new(
        alloc: Global,
        index_interval: u32,
        skip_interval: u32,
        max_levels: u32,
    ) -> Result<TermWriter, OutOfMemory>
        requires { AreIntervals (no_terms_written index_interval skip_interval max_levels) }
        ensures { IfOk result (λ writer. writer ≡ no_terms_written index_interval skip_interval max_levels) }
    {
        let mut tis = Vec::new(alloc);
        tis.extend_from_slice(&NO_HEADER)?;
        let mut bytes = Vec::new(alloc);
        bytes.extend_from_slice(&NO_HEADER)?;
        Ok(TermWriter {
            index_interval,
            skip_interval,
            max_levels,
            count: 0,
            tis,
            last: LastTerm::new(alloc),
            index: IndexOutput {
                bytes,
                point: LastTerm::new(alloc),
                place: 0,
            },
        })
    }

    /// Adds a term after the last one. That the terms rise is the caller's matter. After an `Err` the writer is as before.
    pub fn add(&mut self, text: &str, info: &TermInfo) -> Result<(), OutOfMemory>
        requires small { length text.now < 2 ^ 31 }
        requires field { info.now.field < 2 ^ 31 }
        requires follows { FollowsTerm (last_term self.old.terms).info info.now }
        requires no_skip { info.now.doc_freq < self.old.skip_interval → info.now.skip ≡ 0 }
        ensures ok { OnOk result (self.new ≡ with_written self.old (record { text = text.now; info = info.now })) }
        ensures err { OnErr result (self.new ≡ self.old) }
    {
        let place = self.tis.len();
        append_term(
            &mut self.tis,
            &self.last,
            text.as_bytes(),
            info,
            self.skip_interval,
        )?;
        if self.last.make_room(text.len()).is_err() {
            self.tis.truncate(place);
            return Err(OutOfMemory);
        }
        let passed = self.index.pass(
            self.count,
            self.index_interval,
            &self.last,
            place as u64,
            self.skip_interval,
        );
        if let Err(error) = passed {
            self.tis.truncate(place);
            return Err(error);
        }
        self.last.set(text.as_bytes(), info);
        self.count += 1;
        Ok(())
    }
}

/// The file of terms and its index, as bytes.
#[derive(Debug, Drop)]
pub struct TermFiles {
    pub tis: Bytes,
    pub tii: Bytes,
}

/// A number below 2^31 with a sign.
fn signed(number: u32) -> i32
    requires { number < 2 ^ 31 }
    ensures { result ≡ pos number }
{
    number as i32
}

/// A number below 2^63 with a sign.
fn signed_count(number: u64) -> i64
    requires { number < 2 ^ 63 }
    ensures { result ≡ pos number }
{
    number as i64
}

/// Appends a header.
fn push_header(
    out: &mut Vec<u8>,
    count: u64,
    index_interval: u32,
    skip_interval: u32,
    max_levels: u32,
) -> Result<(), OutOfMemory>
    requires count { count < 2 ^ 63 }
    requires index_interval { index_interval < 2 ^ 31 }
    requires skip_interval { skip_interval < 2 ^ 31 }
    requires max_levels { max_levels < 2 ^ 31 }
    ensures { IfOk result (λ _. out.new.items ≡ out.old.items ++ header_bytes (numbers_of index_interval skip_interval max_levels 0) count) }
{
    let terms = signed_count(count);
    let index = signed(index_interval);
    let skip = signed(skip_interval);
    let levels = signed(max_levels);
    put_i32(out, FORMAT)?;
    put_i64(out, terms)?;
    put_i32(out, index)?;
    put_i32(out, skip)?;
    put_i32(out, levels)?;
    Ok(())
}

/// Writes bytes over the first ones.
fn write_front(bytes: &mut [u8], front: &[u8])
    requires { length front.now ≤ length bytes.old }
    ensures { bytes.new ≡ front.now ++ drop (length front.now) bytes.old }
{
    bytes[..front.len()].copy_from_slice(front);
}

/// The file with its header in the room that was left for it.
fn with_header(file: Vec<u8>, head: &[u8]) -> Vec<u8>
    requires { length head.now ≤ length file.items }
    ensures { result.items ≡ head.now ++ drop (length head.now) file.items }
{
    let mut out = file;
    write_front(&mut out, head);
    out
}

/// The file with a header of its own before what stands behind the room for it.
fn headed(
    file: Vec<u8>,
    count: u64,
    index_interval: u32,
    skip_interval: u32,
    max_levels: u32,
) -> Result<Vec<u8>, OutOfMemory>
    requires count { count < 2 ^ 63 }
    requires index_interval { index_interval < 2 ^ 31 }
    requires skip_interval { skip_interval < 2 ^ 31 }
    requires max_levels { max_levels < 2 ^ 31 }
    requires room { 24 ≤ length file.items }
    ensures { IfOk result (λ out. out.items ≡ header_bytes (numbers_of index_interval skip_interval max_levels 0) count ++ drop 24 file.items) }
{
    let mut head = Vec::new(*file.allocator());
    push_header(&mut head, count, index_interval, skip_interval, max_levels)?;
    Ok(with_header(file, head.as_slice()))
}

impl TermWriter {
    /// The two files of the terms that were added: the canonical ones, in which each text shares as many bytes as it can with
    /// the one before.
    pub fn finish(self) -> Result<TermFiles, OutOfMemory>
        ensures tis { IfOk result (λ files. files.tis ≡ canonical_tis (numbers_written self) self.terms) }
        ensures tii { IfOk result (λ files. files.tii ≡ canonical_tii (numbers_written self) self.terms) }
        ensures intervals { AreIntervals self }
        ensures spellable { AreSpellable self.skip_interval no_term self.terms }
    {
        let TermWriter {
            index_interval,
            skip_interval,
            max_levels,
            count,
            tis,
            last: _,
            index,
        } = self;
        let interval = u64::from(index_interval);
        let entries = (count + (interval - 1)) / interval;
        let tis = headed(tis, count, index_interval, skip_interval, max_levels)?;
        let tii = headed(
            index.bytes,
            entries,
            index_interval,
            skip_interval,
            max_levels,
        )?;
        Ok(TermFiles {
            tis: Bytes::new(tis),
            tii: Bytes::new(tii),
        })
    }
}
