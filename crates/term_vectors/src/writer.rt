//! The writer of the three files (format page, "Term vectors").
ghost use Rattle.std.specs.Prelude.{◌≡◌, ◌<◌, ◌≤◌, ◌^◌, ◌++◌, [], length, OnOk, OnErr, IfOk, vec_capacity};
ghost use Rattle.term_vectors.specs.VectorWriting.{IsTermWhole, IsVectorWhole, IsDocumentWhole, no_vectors_written, with_document_begun, with_vector_begun, with_term_begun, with_position, with_span};

use crate::layout::{OFFSETS, POSITIONS, VECTOR_FORMAT};
use crate::occurrences::OffsetPair;
use crate::vectors::{Heading, kept_count};
use crate::written::{
    differences_at_last, put_difference, put_pair, put_places, put_term, put_vector,
};
use lu_prims::{OutOfMemory, follow, put_i32, put_vint};
use lu_types::Bytes;
use std::alloc::Global;
use std::marker::Model;

/// The three files of vectors.
#[derive(Debug, Drop)]
pub struct VectorFiles {
    /// The places of the documents.
    pub tvx: Bytes,
    /// Which fields the vectors of each document are of, and how far they stand apart.
    pub tvd: Bytes,
    /// The vectors.
    pub tvf: Bytes,
}

/// Writes vectors (format page, "Term vectors"): document by document, of each its vectors, of each its terms, and of each its
/// positions and then its pairs. Contracts see the bytes so far and what lacks of what was announced; which documents they
/// hold is told by `HoldsDocuments`, and the laws say how each call moves it. A call that finds no memory leaves the writer
/// as it was. That fields of a document differ, that texts and positions rise and that numbers are below 2^31 is the caller's
/// matter: what then is read is told by `laws::written_is_read`.
#[derive(Drop)]
pub struct VectorWriter {
    /// `.tvx` so far.
    tvx: Vec<u8>,
    /// `.tvd` so far.
    tvd: Vec<u8>,
    /// `.tvf` so far.
    tvf: Vec<u8>,
    /// How far apart the vectors of the last document stand.
    differences: Vec<u8>,
    /// Where the last vector of the last document starts, if there is one.
    start: Option<usize>,
    /// The bits of the last vector.
    bits: u8,
    /// The text of the last term of the last vector.
    text: Vec<u8>,
    /// The last position of the last term.
    position: u32,
    /// The last end of the last term.
    end: u32,
    /// How many vectors the last document lacks.
    lacks_vectors: u32,
    /// How many terms the last vector lacks.
    lacks_terms: u32,
    /// How many positions the last term lacks.
    lacks_positions: u32,
    /// How many pairs the last term lacks.
    lacks_pairs: u32,
}

impl Model for VectorWriter {
    ghost use Rattle.term_vectors.specs.VectorWriting.{VectorWriting};

    ghost Value = { VectorWriting };

    ghost view = { λ w. record {
      tvx = w.tvx.items;
      tvd = w.tvd.items;
      tvf = w.tvf.items;
      differences = w.differences.items;
      start = w.start;
      bits = w.bits;
      text = w.text.items;
      position = w.position;
      end = w.end;
      lacks_vectors = w.lacks_vectors;
      lacks_terms = w.lacks_terms;
      lacks_positions = w.lacks_positions;
      lacks_spans = w.lacks_pairs;
    } };
}

/// What lacks of what was announced: vectors of the last document, terms of its last vector, and positions and pairs of the last
/// term of that. Where nothing lacks, all are 0.
#[derive(Clone, Copy, Debug, PartialEq, Eq)]
pub struct Lacking {
    pub vectors: u32,
    pub terms: u32,
    pub positions: u32,
    pub pairs: u32,
}

/// A file of its header alone.
fn header(alloc: Global) -> Result<Vec<u8>, OutOfMemory>
    ensures { IfOk result (λ file. file.items ≡ no_vectors_written.tvf) }
{
    let mut file = Vec::new(alloc);
    put_i32(&mut file, VECTOR_FORMAT)?;
    Ok(file)
}

/// Makes the text this one, for which there is room.
fn set_text(last: &mut Vec<u8>, text: &[u8])
    requires { length text.now ≤ vec_capacity last.old }
    ensures { last.new.items ≡ text.now }
{
    if follow(last, 0, text).is_err() {
        unreachable!();
    }
}

impl VectorWriter {
    /// A writer of no documents yet.
    pub fn new(alloc: Global) -> Result<VectorWriter, OutOfMemory>
        ensures { IfOk result (λ writer. writer ≡ no_vectors_written) }
    {
        Ok(VectorWriter {
            tvx: header(alloc)?,
            tvd: header(alloc)?,
            tvf: header(alloc)?,
            differences: Vec::new(alloc),
            start: None,
            bits: 0,
            text: Vec::new(alloc),
            position: 0,
            end: 0,
            lacks_vectors: 0,
            lacks_terms: 0,
            lacks_positions: 0,
            lacks_pairs: 0,
        })
    }

    /// What lacks of what was announced.
    pub fn lacks(&self) -> Lacking
        ensures vectors { result.vectors ≡ self.now.lacks_vectors }
        ensures terms { result.terms ≡ self.now.lacks_terms }
        ensures positions { result.positions ≡ self.now.lacks_positions }
        ensures pairs { result.pairs ≡ self.now.lacks_spans }
    {
        Lacking {
            vectors: self.lacks_vectors,
            terms: self.lacks_terms,
            positions: self.lacks_positions,
            pairs: self.lacks_pairs,
        }
    }

    /// Begins a document of so many vectors, where nothing lacks. An `Err` leaves the writer as it was.
    pub fn begin_doc(&mut self, fields: u32) -> Result<(), OutOfMemory>
        requires whole { IsDocumentWhole self.old }
        ensures ok { OnOk result (self.new ≡ with_document_begun fields self.old) }
        ensures err { OnErr result (self.new ≡ self.old) }
    {
        let before = self.tvx.len();
        let tvd = self.tvd.as_slice().len();
        let tvf = self.tvf.as_slice().len();
        put_places(&mut self.tvx, tvd, tvf)?;
        if put_vint(&mut self.tvd, fields).is_err() {
            self.tvx.truncate(before);
            return Err(OutOfMemory);
        }
        self.differences.clear();
        self.start = None;
        self.lacks_vectors = fields;
        Ok(())
    }

    /// Begins the next vector of the document: that of a field, with bits (01 positions, 02 offsets) and so many terms.
    /// An `Err` leaves the writer as it was.
    pub fn begin_field(&mut self, number: u32, bits: u8, terms: u32) -> Result<(), OutOfMemory>
        requires whole { IsVectorWhole self.old }
        requires lacking { 0 < self.old.lacks_vectors }
        ensures ok { OnOk result (self.new ≡ with_vector_begun number bits terms self.old) }
        ensures err { OnErr result (self.new ≡ self.old) }
    {
        let here = self.tvf.len();
        let before = self.differences.len();
        put_difference(&mut self.differences, self.start, &self.tvf)?;
        let differences = differences_at_last(self.lacks_vectors, &self.differences);
        let heading = Heading { count: terms, bits };
        let put = put_vector(&mut self.tvd, &mut self.tvf, number, differences, heading);
        if put.is_err() {
            self.differences.truncate(before);
            return Err(OutOfMemory);
        }
        self.start = Some(here);
        self.bits = bits;
        self.text.clear();
        self.lacks_vectors -= 1;
        self.lacks_terms = terms;
        Ok(())
    }

    /// Begins the next term of the vector: a text of fewer than 2^31 bytes, which stands so often in the field.
    /// An `Err` leaves the writer as it was.
    pub fn begin_term(&mut self, text: &str, freq: u32) -> Result<(), OutOfMemory>
        requires whole { IsTermWhole self.old }
        requires lacking { 0 < self.old.lacks_terms }
        requires short { length text.now < 2 ^ 31 }
        ensures ok { OnOk result (self.new ≡ with_term_begun text.now freq self.old) }
        ensures err { OnErr result (self.new ≡ self.old) }
    {
        let bytes = text.as_bytes();
        self.text.reserve(bytes.len())?;
        put_term(&mut self.tvf, &self.text, bytes, freq)?;
        set_text(&mut self.text, bytes);
        self.position = 0;
        self.end = 0;
        self.lacks_terms -= 1;
        self.lacks_positions = kept_count(POSITIONS, self.bits, freq);
        self.lacks_pairs = kept_count(OFFSETS, self.bits, freq);
        Ok(())
    }

    /// Adds the next position of the term. An `Err` leaves the writer as it was.
    pub fn position(&mut self, position: u32) -> Result<(), OutOfMemory>
        requires lacking { 0 < self.old.lacks_positions }
        ensures ok { OnOk result (self.new ≡ with_position position self.old) }
        ensures err { OnErr result (self.new ≡ self.old) }
    {
        put_vint(&mut self.tvf, position.saturating_sub(self.position))?;
        self.position = position;
        self.lacks_positions -= 1;
        Ok(())
    }

    /// Adds the next pair of the term, which has all of its positions: where an occurrence starts and ends.
    /// An `Err` leaves the writer as it was.
    pub fn offsets(&mut self, start: u32, end: u32) -> Result<(), OutOfMemory>
        requires positions { self.old.lacks_positions ≡ 0 }
        requires lacking { 0 < self.old.lacks_spans }
        ensures ok { OnOk result (self.new ≡ with_span (record { start = start; end = end }) self.old) }
        ensures err { OnErr result (self.new ≡ self.old) }
    {
        put_pair(&mut self.tvf, self.end, OffsetPair { start, end })?;
        self.end = end;
        self.lacks_pairs -= 1;
        Ok(())
    }

    /// The three files of the documents, of which nothing lacks. Takes no memory.
    pub fn finish(self) -> VectorFiles
        requires whole { IsDocumentWhole self }
        ensures tvx { result.tvx ≡ self.tvx }
        ensures tvd { result.tvd ≡ self.tvd }
        ensures tvf { result.tvf ≡ self.tvf }
    {
        VectorFiles {
            tvx: Bytes::new(self.tvx),
            tvd: Bytes::new(self.tvd),
            tvf: Bytes::new(self.tvf),
        }
    }
}
