//! Entries and skip data of terms are written.
ghost use Rattle.std.specs.Prelude.{◌≡◌, ◌⊎◌, ◌<◌, ◌≤◌, ◌^◌, ◌+◌, ◌-◌, ◌*◌, ◌/◌, [], ◌++◌, length, OnOk, OnErr, slice_index_or, slice_index, false, None, Some, ◌==◌, if◌then◌else◌, IfSome, IfOk};
ghost use Rattle.lu_grammar.specs.Bytes.{IsBytes};
ghost use Rattle.lu_grammar.specs.Parts.{vlong};
ghost use Rattle.freq_skips.specs.Written.{canonical_parts, entry_parts_bytes, last_doc, skip_between, bytes_to_child, no_mark, optional_bytes, with_level_length};
ghost use Rattle.freq_skips.specs.InnerLevels.{marks_of_input, marked_bytes, marked_count, places_after, marked_levels, AreSmallMarks, AreSmallPlaces};
ghost use Rattle.freq_skips.specs.Writing.{bytes_so_far, entries_begun, entry_added, skip_delta, finished};

use crate::datum::Skip;
use crate::level::greatest_power;
use lu_prims::{OutOfMemory, put_vint, put_vlong};
use std::alloc::Global;
use std::marker::Model;

/// An entry as it is handed over: the document, how often the term stands in it, and the bytes of positions before its own.
#[derive(Clone, Copy, Debug, PartialEq, Eq)]
pub struct Handed {
    pub doc: u32,
    pub freq: u32,
    pub prox: u32,
}

/// Where a datum leads: the document of the entry before the one that it belongs to, the bytes of the entries before that
/// one, and the bytes of their positions.
#[derive(Clone, Copy, Debug, PartialEq, Eq)]
pub struct Mark {
    pub doc: u32,
    pub freq: usize,
    pub prox: u32,
}

/// Before the first datum.
const NO_MARK: Mark = Mark {
    doc: 0,
    freq: 0,
    prox: 0,
};

/// Appends an entry: its delta, and its frequency where that is stated. On `Err` the list is as before.
fn put_entry(out: &mut Vec<u8>, delta: u32, stated: Option<u32>) -> Result<(), OutOfMemory>
    ensures ok { OnOk result (out.new.items ≡ out.old.items ++ entry_parts_bytes delta stated) }
    ensures err { OnErr result (out.new.items ≡ out.old.items) }
{
    let before = out.len();
    put_vint(out, delta)?;
    if let Some(freq) = stated {
        if put_vint(out, freq).is_err() {
            out.truncate(before);
            return Err(OutOfMemory);
        }
    }
    Ok(())
}

/// The mark of an entry after these documents, bytes of entries and bytes of positions, of which a field without frequencies
/// has none.
fn mark_before(omit_tf: bool, doc: u32, freq: usize, prox: u32) -> Mark
    ensures { result ≡ record { doc = doc; freq = freq; prox = if omit_tf then 0 else prox } }
{
    Mark {
        doc,
        freq,
        prox: if omit_tf { 0 } else { prox },
    }
}

/// The delta of an entry, and its frequency where that is stated: in one canonical form.
fn canonical(omit_tf: bool, gap: u32, freq: u32) -> (u32, Option<u32>)
    requires { gap < 2 ^ 31 }
    ensures { result ≡ canonical_parts omit_tf gap freq }
{
    if omit_tf {
        return (gap, None);
    }
    if freq == 1 {
        (2 * gap + 1, None)
    } else {
        (2 * gap, Some(freq))
    }
}

/// The datum that leads from one mark to another.
fn skip_to(payloads: bool, from: &Mark, to: &Mark, child: Option<u64>) -> Skip
    requires doc { to.now.doc < 2 ^ 31 }
    requires freq { to.now.freq < 2 ^ 31 }
    ensures { result ≡ skip_between payloads from.now to.now child }
{
    let gap = to.doc.saturating_sub(from.doc);
    Skip {
        doc: if payloads { 2 * gap } else { gap },
        payload: None,
        freq: to.freq.saturating_sub(from.freq) as u32,
        prox: to.prox.saturating_sub(from.prox),
        child,
    }
}

/// Appends a datum up to its child pointer. It states no payload length.
fn put_front(out: &mut Vec<u8>, skip: &Skip) -> Result<(), OutOfMemory>
    requires { skip.now.payload ≡ None }
    ensures { OnOk result (out.new.items ≡ out.old.items ++ bytes_to_child skip.now) }
{
    put_vint(out, skip.doc)?;
    put_vint(out, skip.freq)?;
    put_vint(out, skip.prox)
}

/// Where so many data of a level lead, which has one mark in so many.
fn mark_at(marks: &[Mark], step: usize, count: usize) -> Mark
    requires step { 0 < step }
    requires within { count * step ≤ length marks.now }
    ensures { result ≡ (if count == 0 then no_mark else slice_index_or marks.now (count * step - 1) no_mark) }
{
    if count == 0 {
        return NO_MARK;
    }
    marks[count * step - 1]
}

/// The child pointer of the datum that follows so many, on a level with a number.
fn child_at(number: u32, children: &[u64], count: usize) -> Option<u64>
    requires { number ≡ 0 ⊎ count < length children.now }
    ensures { result ≡ (if number == 0 then None else Some (slice_index children.now count)) }
{
    if number == 0 {
        return None;
    }
    Some(children[count])
}

/// Appends a child pointer, where there is one.
fn put_child(out: &mut Vec<u8>, child: Option<u64>) -> Result<(), OutOfMemory>
    requires { IfSome child (λ place. place < 2 ^ 63) }
    ensures { OnOk result (out.new.items ≡ out.old.items ++ optional_bytes vlong child) }
{
    match child {
        None => Ok(()),
        Some(place) => put_vlong(out, place),
    }
}

/// What the data of a level are made of: the marks of the lowest level, of which this one has one in so many; the interval, the
/// number of the level, from 0; and its child pointers.
#[derive(Clone, Copy, Debug, PartialEq, Eq)]
pub struct LevelInput<'a> {
    pub payloads: bool,
    pub interval: u32,
    pub marks: &'a [Mark],
    pub number: u32,
    pub step: usize,
    pub children: &'a [u64],
}

/// A level as it is written: its bytes, and the child pointers of the level above.
#[derive(Drop)]
struct WrittenLevel {
    bytes: Vec<u8>,
    places: Vec<u64>,
}

/// Writes the data of a level.
fn written_level(alloc: Global, level: &LevelInput<'_>) -> Result<WrittenLevel, OutOfMemory>
    requires step { 0 < level.now.step }
    requires interval { 2 ≤ level.now.interval }
    requires small { AreSmallMarks level.now.marks.now }
    requires pointers { level.now.number ≡ 0 ⊎ length level.now.marks.now / level.now.step ≤ length level.now.children.now }
    requires small_pointers { AreSmallPlaces level.now.children.now }
    ensures bytes { IfOk result (λ written. written.bytes.items ≡ marked_bytes (marks_of_input level.now) (marked_count (marks_of_input level.now))) }
    ensures places { IfOk result (λ written. written.places.items ≡ places_after (marks_of_input level.now) (marked_count (marks_of_input level.now))) }
    ensures small { IfOk result (λ written. AreSmallPlaces written.places.items) }
{
    let mut bytes = Vec::new(alloc);
    let mut places: Vec<u64> = Vec::new(alloc);
    let count = level.marks.len() / level.step;
    for index in 0..count {
        let child = child_at(level.number, level.children, index);
        let skip = skip_to(
            level.payloads,
            &mark_at(level.marks, level.step, index),
            &mark_at(level.marks, level.step, index + 1),
            child,
        );
        put_front(&mut bytes, &skip)?;
        if (index as u64 + 1) % u64::from(level.interval) == 0 {
            places.push(bytes.len() as u64)?;
        }
        put_child(&mut bytes, child)?;
    }
    Ok(WrittenLevel { bytes, places })
}

/// Appends the data of a level with a number, after their length where it is not the lowest.
fn put_with_length(out: &mut Vec<u8>, number: u32, bytes: &[u8]) -> Result<(), OutOfMemory>
    requires { length bytes.now < 2 ^ 63 }
    ensures { OnOk result (out.new.items ≡ out.old.items ++ with_level_length number bytes.now) }
{
    if number > 0 {
        put_vlong(out, bytes.len() as u64)?;
    }
    out.extend_from_slice(bytes)?;
    Ok(())
}

/// Appends so many levels of a term's skip data from this one on, the highest first.
fn put_levels(
    alloc: Global,
    out: &mut Vec<u8>,
    left: u32,
    level: &LevelInput<'_>,
) -> Result<(), OutOfMemory>
    requires step { 0 < level.now.step }
    requires interval { 2 ≤ level.now.interval }
    requires small { AreSmallMarks level.now.marks.now }
    requires pointers { level.now.number ≡ 0 ⊎ length level.now.marks.now / level.now.step ≤ length level.now.children.now }
    requires small_pointers { AreSmallPlaces level.now.children.now }
    requires steps { left ≡ 0 ⊎ level.now.step * level.now.interval ^ (left - 1) ≤ 2 ^ 32 }
    requires fits { level.now.number + left < 2 ^ 32 }
    ensures { OnOk result (out.new.items ≡ out.old.items ++ marked_levels left (marks_of_input level.now)) }
{
    if left == 0 {
        return Ok(());
    }
    let written = written_level(alloc, level)?;
    let above = LevelInput {
        number: level.number + 1,
        step: level.step * level.interval as usize,
        children: &written.places,
        ..*level
    };
    put_levels(alloc, out, left - 1, &above)?;
    put_with_length(out, level.number, &written.bytes)
}

/// Writes the entries and skip data of the terms of a segment, one term after another (format page, "Entries and skip data").
/// Contracts see the settings, the bytes of the terms before the one that is begun, and the entries that were handed over; it
/// keeps those entries until the term is finished.
#[derive(Drop)]
pub struct FreqWriter {
    alloc: Global,
    skip_interval: u32,
    max_levels: u32,
    bytes: Vec<u8>,
    start: usize,
    omit_tf: bool,
    payloads: bool,
    entries: Vec<Handed>,
    count: u32,
    doc: u32,
    marks: Vec<Mark>,
}

impl Model for FreqWriter {
    ghost use Rattle.std.specs.Prelude.{◌≡◌, ◌≤◌, ◌<◌, ◌+◌, ◌-◌, ◌^◌, ◌++◌, ℕ, length, take, slice_index_or};
    ghost use Rattle.freq_skips.specs.Written.{no_mark, last_doc, entries_bytes, AreInOrder};
    ghost use Rattle.freq_skips.specs.InnerLevels.{HasMarks};
    ghost use Rattle.freq_skips.specs.Writing.{FrqWriting};
    ghost use Rattle.std.specs.Prelude.{true};

    ghost Value = { FrqWriting };

    ghost view = { λ w. record {
      interval = w.skip_interval;
      most = w.max_levels;
      bytes = take w.start w.bytes.items;
      omit = w.omit_tf;
      payloads = w.payloads;
      entries = w.entries.items;
    } };

    ghost invariant = { λ w. record {
      interval : 2 ≤ w.skip_interval;
      start_within : w.start ≤ length w.bytes.items;
      written : w.bytes.items ≡ take w.start w.bytes.items ++ entries_bytes w.omit_tf 0 w.entries.items;
      count : w.count ≡ length w.entries.items;
      last : w.doc ≡ last_doc 0 w.entries.items;
      order : AreInOrder (2 ^ 31) true 0 w.entries.items;
      marks : HasMarks w.omit_tf w.skip_interval w.entries.items w.marks.items;
      small : (k : ℕ) → k < length w.marks.items → ((slice_index_or w.marks.items k no_mark).doc < 2 ^ 31) × ((slice_index_or w.marks.items k no_mark).freq ≤ length w.bytes.items - w.start);
    } };
}

impl FreqWriter {
    /// A writer of an empty file, with an interval from 2 on and the most skip levels of a term.
    pub fn new(
        alloc: Global,
        skip_interval: u32,
        max_levels: u32,
    ) -> Result<FreqWriter, OutOfMemory>
        requires { 2 ≤ skip_interval }
        ensures { IfOk result (λ writer. writer ≡ record { interval = skip_interval; most = max_levels; bytes = []; omit = false; payloads = false; entries = [] }) }
    {
        Ok(FreqWriter {
            alloc,
            skip_interval,
            max_levels,
            bytes: Vec::new(alloc),
            start: 0,
            omit_tf: false,
            payloads: false,
            entries: Vec::new(alloc),
            count: 0,
            doc: 0,
            marks: Vec::new(alloc),
        })
    }

    /// How many bytes the file has so far.
    pub fn len(&self) -> usize
        ensures { result ≡ length (bytes_so_far self.now) }
    {
        self.bytes.len()
    }

    /// How many entries the term that is begun has so far.
    pub fn count(&self) -> u32
        ensures { result ≡ length self.now.entries }
    {
        self.count
    }

    /// Begins a term, of a field without frequencies or with payloads, and answers its place.
    pub fn start(&mut self, omit_tf: bool, payloads: bool) -> u32
        requires none { self.old.entries ≡ [] }
        requires room { length self.old.bytes < 2 ^ 31 }
        ensures place { result ≡ length self.old.bytes }
        ensures begun { self.new ≡ entries_begun self.old omit_tf payloads }
    {
        self.omit_tf = omit_tf;
        self.payloads = payloads;
        self.bytes.len() as u32
    }

    /// Adds an entry to the term that is begun: a document above the one before, how often the term stands in it, and the bytes
    /// of positions that the term has so far. On `Err` the writer is as before.
    pub fn add(&mut self, doc: u32, freq: u32, prox: u32) -> Result<(), OutOfMemory>
        requires order { self.old.entries ≡ [] ⊎ last_doc 0 self.old.entries < doc }
        requires doc_small { doc < 2 ^ 31 }
        requires some { 1 ≤ freq }
        requires freq_small { freq < 2 ^ 31 }
        ensures ok { OnOk result (self.new ≡ entry_added self.old (record { doc = doc; freq = freq; prox = prox })) }
        ensures err { OnErr result (self.new ≡ self.old) }
    {
        let before = self.bytes.len();
        let held = self.entries.len();
        let mark = mark_before(self.omit_tf, self.doc, before - self.start, prox);
        let (delta, stated) = canonical(self.omit_tf, doc - self.doc, freq);
        put_entry(&mut self.bytes, delta, stated)?;
        match self.entries.push(Handed { doc, freq, prox }) {
            Ok(()) => {}
            Err(_) => {
                self.bytes.truncate(before);
                return Err(OutOfMemory);
            }
        }
        if (self.count + 1) % self.skip_interval == 0 {
            match self.marks.push(mark) {
                Ok(()) => {}
                Err(_) => {
                    self.entries.truncate(held);
                    self.bytes.truncate(before);
                    return Err(OutOfMemory);
                }
            }
        }
        self.count += 1;
        self.doc = doc;
        Ok(())
    }

    /// Writes the skip data of the term that is begun, and answers how far they start from its first entry, or 0 where it has
    /// none. On `Err` the writer is as before.
    pub fn finish_term(&mut self) -> Result<u32, OutOfMemory>
        requires some { 0 < length self.old.entries }
        requires room { length (bytes_so_far self.old) < 2 ^ 31 }
        ensures ok { IfOk result (λ delta. (self.new ≡ finished self.old) × (delta ≡ skip_delta self.old)) }
        ensures below { length self.old.entries < self.old.interval → IfOk result (λ delta. delta ≡ 0) }
        ensures err { OnErr result (self.new ≡ self.old) }
    {
        let before = self.bytes.len();
        let (left, _power) = greatest_power(self.skip_interval, self.count, self.max_levels);
        let mut skips = Vec::new(self.alloc);
        let lowest = LevelInput {
            payloads: self.payloads,
            interval: self.skip_interval,
            marks: &self.marks,
            number: 0,
            step: 1,
            children: &[],
        };
        put_levels(self.alloc, &mut skips, left, &lowest)?;
        self.bytes.extend_from_slice(&skips)?;
        let delta = if left == 0 {
            0
        } else {
            (before - self.start) as u32
        };
        self.start = self.bytes.len();
        self.entries.clear();
        self.count = 0;
        self.doc = 0;
        self.marks.clear();
        Ok(delta)
    }

    /// The bytes of the file.
    pub fn finish(self) -> Vec<u8>
        requires { self.entries ≡ [] }
        ensures whole { result.items ≡ self.bytes }
        ensures bytes { IsBytes result.items }
    {
        self.bytes
    }
}
