//! Norms: one byte a document, for each field that has them (format page, "Norms").
ghost use Rattle.std.specs.Prelude.{◌≡◌, ℕ, [], ◌∷◌, ◌++◌, ◌<◌, ◌≤◌, ◌*◌, length, drop, slice_index, IfOk, OnOk, OnErr};
ghost use Rattle.lu_grammar.specs.Records.{record_at};
ghost use Rattle.lu_grammar.specs.Plans.{times, read_plan};
ghost use Rattle.lu_types.specs.declared.kind.FileKind.TheVariants.{Nrm, Sep};
ghost use Rattle.lu_types.specs.Judging.{ChecksPlain, GivesInPlain};
ghost use Rattle.lu_grammar.specs.Answers.{Gives};
ghost use Rattle.doc_marks.specs.Norms.{norm_header, bytes_shape, header_conditions, one_column, nrm_plan, separate_plan, column_of, AreColumns, nrm_bytes, columns_in};

use lu_prims::{Cur, OutOfMemory};
use lu_types::rules::{NORM_HEADER, TRAILING, rule_of};
use lu_types::{FileKind, Spot};
use std::alloc::Global;
use std::marker::Model;

/// What `.nrm` begins with: `NRM`, and the number of the format.
const HEADER: [u8; 4] = [0x4E, 0x52, 0x4D, 0xFF];

/// Writes `.nrm`: the norms are handed in column by column, in the order of the fields. Contracts see the norms so far.
#[derive(Drop)]
pub struct NormWriter {
    /// The header, and the norms so far.
    out: Vec<u8>,
}

impl Model for NormWriter {
    ghost use Rattle.std.specs.Prelude.{◌≡◌, ℕ, List, drop};
    ghost use Rattle.doc_marks.specs.Norms.{nrm_bytes};

    ghost Value = { List ℕ };

    ghost view = { λ w. drop 4 w.out.items };

    ghost invariant = { λ w. w.out.items ≡ nrm_bytes (drop 4 w.out.items) };
}

impl NormWriter {
    /// A writer of no norms yet.
    pub fn new(alloc: Global) -> Result<NormWriter, OutOfMemory>
        ensures { IfOk result (λ writer. writer ≡ []) }
    {
        let out = HEADER.to_vec(alloc)?;
        Ok(NormWriter { out })
    }

    /// Appends the norm of the next document of the column. An `Err` leaves the writer as it was.
    pub fn add(&mut self, byte: u8) -> Result<(), OutOfMemory>
        ensures ok { OnOk result (self.new ≡ self.old ++ byte ∷ []) }
        ensures err { OnErr result (self.new ≡ self.old) }
    {
        self.out.push(byte)?;
        Ok(())
    }

    /// The bytes of `.nrm` (format page, "Norms").
    pub fn finish(self) -> Vec<u8>
        ensures { result.items ≡ nrm_bytes self }
    {
        self.out
    }
}

/// The norms of a segment, lent from its `.nrm`, which has no fault. Contracts see them as the list of the columns, one a
/// field that has norms, in the order of the fields. No call takes memory.
#[derive(Drop)]
pub struct Norms<'a> {
    /// The columns, one after another.
    bytes: &'a [u8],
    /// How many columns there are.
    columns: u32,
    /// How many documents the segment has.
    documents: u32,
}

impl<'a> Model for Norms<'a> {
    ghost use Rattle.std.specs.Prelude.{◌≡◌, ◌*◌, ℕ, List, length};
    ghost use Rattle.doc_marks.specs.Norms.{columns_in};

    ghost Value = { List (List ℕ) };

    ghost view = { λ n. columns_in n.columns n.documents n.bytes.now };

    ghost invariant = { λ n. length n.bytes.now ≡ n.columns * n.documents };
}

impl<'a> Norms<'a> {
    /// Checks `.nrm` of a segment in which so many fields have norms, with so many documents. Answers the first fault.
    pub fn check_norms(nrm: &'a [u8], columns: u32, documents: u32) -> Result<Norms<'a>, Spot>
        ensures checks { ChecksPlain (λ norms. norms) Nrm (nrm_plan columns documents) nrm.entry.now result }
        ensures columns { IfOk result (λ norms. AreColumns columns documents norms) }
    {
        let mut cur = Cur::at(nrm, 0);
        if let Err(rule) = pass_header(&mut cur) {
            return Err(Spot::at(FileKind::Nrm, 0, rule));
        }
        let bytes = nrm.split_at(HEADER.len()).1;
        if let Err(fault) = pass_columns(&mut cur, columns, documents) {
            return Err(fault);
        }
        if cur.left() > 0 {
            return Err(Spot::at(FileKind::Nrm, cur.place(), TRAILING));
        }
        Ok(Norms {
            bytes,
            columns,
            documents,
        })
    }

    /// The norms of the field that has the column with this number, from 0: one byte a document, as a slice of the file.
    pub fn column(&self, column: u32) -> &'a [u8]
        requires { column < length self.now }
        ensures { result.now ≡ column_of self.now column }
    {
        let documents = self.documents as usize;
        let start = column as usize * documents;
        let from_start = self.bytes.split_at(start).1;
        from_start.split_at(documents).0
    }

    /// The norm of a document in the column with this number, both from 0.
    pub fn byte(&self, column: u32, doc: u32) -> u8
        requires column { column < length self.now }
        requires doc { doc < length (column_of self.now column) }
        ensures { result ≡ slice_index (column_of self.now column) doc }
    {
        self.column(column)[doc as usize]
    }

    /// The same norms, once more.
    pub fn again(&self) -> Norms<'a>
        ensures { result ≡ self.now }
    {
        Norms {
            bytes: self.bytes,
            columns: self.columns,
            documents: self.documents,
        }
    }
}

/// Passes the header, or answers which rule it breaks.
fn pass_header(cur: &mut Cur<'_>) -> Result<(), u16>
    ensures { Gives (λ _. norm_header) (record_at (bytes_shape 4) header_conditions cur.old) cur.new result }
{
    match cur.bytes(HEADER.len()) {
        Err(bad) => Err(rule_of(bad)),
        Ok(found) => {
            if found != HEADER.as_slice() {
                return Err(NORM_HEADER);
            }
            Ok(())
        }
    }
}

/// Passes so many columns, or answers the fault of the first that ends too soon.
fn pass_columns(cur: &mut Cur<'_>, columns: u32, documents: u32) -> Result<(), Spot>
    ensures gives { GivesInPlain Nrm (λ _. columns_in columns documents cur.old.rest) (read_plan (times (one_column documents) columns []) cur.old) cur.new result }
    ensures passed { IfOk result (λ _. (columns * documents ≤ length cur.old.rest) × (cur.new.rest ≡ drop (columns * documents) cur.old.rest)) }
{
    for _ in 0..columns {
        let place = cur.place();
        if let Err(bad) = cur.bytes(documents as usize) {
            return Err(Spot::at(FileKind::Nrm, place, rule_of(bad)));
        }
    }
    Ok(())
}

/// Checks `.sN`, the norms of the field with this number in a file of their own: one byte for each of so many documents.
/// Answers the bytes, or the first fault. Takes no memory.
pub fn check_separate(bytes: &[u8], field: u32, documents: u32) -> Result<&[u8], Spot>
    ensures checks { ChecksPlain (λ norms. norms.now) (Sep field) (separate_plan documents) bytes.entry.now result }
    ensures count { IfOk result (λ norms. length norms.now ≡ documents) }
{
    let mut cur = Cur::at(bytes, 0);
    let norms = match cur.bytes(documents as usize) {
        Err(bad) => return Err(Spot::at(FileKind::Sep(field), 0, rule_of(bad))),
        Ok(norms) => norms,
    };
    if cur.left() > 0 {
        return Err(Spot::at(FileKind::Sep(field), cur.place(), TRAILING));
    }
    Ok(norms)
}
