//! Positions and payloads of terms are written.
ghost use Rattle.std.specs.Prelude.{◌≡◌, ◌<◌, ◌≤◌, ◌^◌, ◌-◌, ◌++◌, false, [], length, Option, None, OnOk, OnErr, IfOk, not, ◌==◌};
ghost use Rattle.lu_grammar.specs.Parts.{num};
ghost use Rattle.freq_skips.specs.Written.{optional_bytes};
ghost use Rattle.positions.specs.Written.{restates as is_restated, written_parts, record_bytes};
ghost use Rattle.positions.specs.Writing.{occurrences_begun, document_begun, occurrence_added};
ghost use Rattle.positions.specs.Views.{occurrence_record_of};

use crate::record::OccurrenceParts;
use lu_prims::{OutOfMemory, put_vint};
use std::alloc::Global;
use std::marker::Model;

/// Whether the length of a payload is stated: it is not the one of the occurrence before, or none is before it in its document.
fn restates(before: Option<u32>, length: u32) -> bool
    ensures { result ≡ is_restated before length }
{
    match before {
        None => true,
        Some(last) => last != length,
    }
}

/// An occurrence in its written form, so far above the position before, after one with this payload length in its document.
fn written<'a>(
    payloads: bool,
    before: Option<u32>,
    gap: u32,
    payload: &'a [u8],
) -> OccurrenceParts<'a>
    requires gap { gap < 2 ^ 31 }
    requires few { length payload.now < 2 ^ 31 }
    ensures { occurrence_record_of result ≡ written_parts payloads before gap payload.entry.now }
{
    let length = payload.len() as u32;
    if !payloads {
        return OccurrenceParts {
            delta: gap,
            stated: None,
            payload,
        };
    }
    if restates(before, length) {
        OccurrenceParts {
            delta: 2 * gap + 1,
            stated: Some(length),
            payload,
        }
    } else {
        OccurrenceParts {
            delta: 2 * gap,
            stated: None,
            payload,
        }
    }
}

/// Appends a number that may be there. On `Err` the list is as before.
fn put_optional(out: &mut Vec<u8>, number: Option<u32>) -> Result<(), OutOfMemory>
    ensures ok { OnOk result (out.new.items ≡ out.old.items ++ optional_bytes num number) }
    ensures err { OnErr result (out.new.items ≡ out.old.items) }
{
    match number {
        None => Ok(()),
        Some(number) => put_vint(out, number),
    }
}

/// Appends an occurrence. On `Err` the list is as before.
fn put_parts(out: &mut Vec<u8>, parts: &OccurrenceParts<'_>) -> Result<(), OutOfMemory>
    ensures ok { OnOk result (out.new.items ≡ out.old.items ++ record_bytes (occurrence_record_of parts.now)) }
    ensures err { OnErr result (out.new.items ≡ out.old.items) }
{
    let before = out.len();
    put_vint(out, parts.delta)?;
    if put_optional(out, parts.stated).is_err() {
        out.truncate(before);
        return Err(OutOfMemory);
    }
    match out.extend_from_slice(parts.payload) {
        Ok(()) => Ok(()),
        Err(_) => {
            out.truncate(before);
            Err(OutOfMemory)
        }
    }
}

/// Writes the positions and payloads of the terms of a segment, one term after another (format page, "Positions"). Contracts see
/// the bytes so far, of the term that is begun whether its field has payloads and where it starts, and of the document that is
/// begun the payload length and the position of the last occurrence.
#[derive(Drop)]
pub struct ProxWriter {
    bytes: Vec<u8>,
    payloads: bool,
    start: usize,
    before: Option<u32>,
    position: u32,
}

impl Model for ProxWriter {
    ghost use Rattle.std.specs.Prelude.{◌≤◌, ◌<◌, ◌^◌, length};
    ghost use Rattle.positions.specs.Writing.{WriterState};

    ghost Value = { WriterState };

    ghost view = { λ w. record {
      bytes = w.bytes.items;
      payloads = w.payloads;
      start = w.start;
      before = w.before;
      position = w.position;
    } };

    ghost invariant = { λ w. w.start ≤ length w.bytes.items };
}

impl ProxWriter {
    /// A writer of an empty file.
    pub fn new(alloc: Global) -> Result<ProxWriter, OutOfMemory>
        ensures { IfOk result (λ writer. writer ≡ record { bytes = []; payloads = false; start = 0; before = None; position = 0 }) }
    {
        Ok(ProxWriter {
            bytes: Vec::new(alloc),
            payloads: false,
            start: 0,
            before: None,
            position: 0,
        })
    }

    /// How many bytes the file has so far.
    pub fn len(&self) -> usize
        ensures { result ≡ length self.now.bytes }
    {
        self.bytes.len()
    }

    /// Begins a term, of a field with payloads or without, and answers its place.
    pub fn start(&mut self, payloads: bool) -> u32
        requires room { length self.old.bytes < 2 ^ 31 }
        ensures place { result ≡ length self.old.bytes }
        ensures begun { self.new ≡ occurrences_begun self.old payloads }
    {
        self.payloads = payloads;
        self.start = self.bytes.len();
        self.before = None;
        self.position = 0;
        self.start as u32
    }

    /// Begins a document of the term that is begun, and answers how many bytes the term has so far.
    pub fn begin_doc(&mut self) -> u32
        requires room { length self.old.bytes < 2 ^ 31 }
        ensures so_far { result ≡ length self.old.bytes - self.old.start }
        ensures begun { self.new ≡ document_begun self.old }
    {
        self.before = None;
        self.position = 0;
        (self.bytes.len() - self.start) as u32
    }

    /// Adds an occurrence to the document that is begun: a position that is not below the one before, and its payload, empty in a
    /// field without payloads. On `Err` the writer is as before.
    pub fn add(&mut self, position: u32, payload: &[u8]) -> Result<(), OutOfMemory>
        requires small { position < 2 ^ 31 }
        requires rises { self.old.position ≤ position }
        requires few { length payload.now < 2 ^ 31 }
        ensures ok { OnOk result (self.new ≡ occurrence_added self.old (record { position = position; payload = payload.now })) }
        ensures err { OnErr result (self.new ≡ self.old) }
    {
        let parts = written(
            self.payloads,
            self.before,
            position - self.position,
            payload,
        );
        put_parts(&mut self.bytes, &parts)?;
        self.before = Some(payload.len() as u32);
        self.position = position;
        Ok(())
    }

    /// The bytes of the file.
    pub fn finish(self) -> Vec<u8>
        ensures { result.items ≡ self.bytes }
    {
        self.bytes
    }
}
