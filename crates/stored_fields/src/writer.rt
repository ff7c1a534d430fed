//! The writer of both files (format page, "Stored documents").
ghost use Rattle.std.specs.Prelude.{◌≡◌, ◌+◌, ◌-◌, ◌^◌, ◌<◌, ◌++◌, [], ◌∷◌, length, take, None, IsSome, IfOk, OnOk, OnErr, vec_len};
ghost use Rattle.lu_types.specs.declared.stored.Stored.TheVariants as owned;
ghost use Rattle.lu_types.specs.StoredFields.{StoredField};
ghost use Rattle.stored_fields.specs.Entries.{value_of, lent_field};
ghost use Rattle.stored_fields.specs.Writing.{IsStorableField, value_bits, content_bytes, value_bytes, fdx_bytes, fdt_bytes, with_begun, with_stored, AreStorable};

use crate::layout::STORE_FORMAT;
use crate::value::{BINARY, StoredRef, TOKENIZED, ValueRef};
use lu_prims::{OutOfMemory, put_i32, put_i64, put_text, put_vint};
use lu_types::Bytes;
use std::alloc::Global;
use std::marker::Model;

/// The two files of a store.
#[derive(Debug, Drop)]
pub struct StoredFiles {
    /// The places of the documents.
    pub fdx: Bytes,
    /// The documents.
    pub fdt: Bytes,
}

/// Writes stored documents (format page, "Stored documents"), one after another, and of each its values in order. Contracts see
/// the finished documents and the one that is open, if there is one: it is until it has as many values as were announced.
/// A call that finds no memory leaves the writer as it was.
#[derive(Drop)]
pub struct StoredWriter {
    /// `.fdx` so far.
    fdx: Vec<u8>,
    /// `.fdt` so far.
    fdt: Vec<u8>,
    /// How many values the last document lacks.
    lacks: u32,
}

impl Model for StoredWriter {
    ghost use Rattle.stored_fields.specs.Writing.{HeldDocuments};
    ghost use Rattle.stored_fields.specs.InnerWriting.{held_in, AreHeld};

    ghost Value = { HeldDocuments };

    ghost view = { λ w. held_in w.fdx.items w.fdt.items w.lacks };

    ghost invariant = { λ w. AreHeld w.fdx.items w.fdt.items w.lacks (held_in w.fdx.items w.fdt.items w.lacks) };
}

impl StoredWriter {
    /// A writer of no documents yet.
    pub fn new(alloc: Global) -> Result<StoredWriter, OutOfMemory>
        ensures { IfOk result (λ writer. writer ≡ record { finished = []; opened = None }) }
    {
        let mut fdx = Vec::new(alloc);
        put_i32(&mut fdx, STORE_FORMAT)?;
        let mut fdt = Vec::new(alloc);
        put_i32(&mut fdt, STORE_FORMAT)?;
        Ok(StoredWriter { fdx, fdt, lacks: 0 })
    }

    /// Opens a document of so many values, below 2^31, where none is open; one of no values is finished at once.
    /// An `Err` leaves the writer as it was.
    pub fn begin(&mut self, count: u32) -> Result<(), OutOfMemory>
        requires complete { self.old.opened ≡ None }
        requires few { count < 2 ^ 31 }
        ensures ok { OnOk result (self.new ≡ with_begun count self.old) }
        ensures err { OnErr result (self.new ≡ self.old) }
    {
        let place = self.fdt.as_slice().len() as i64;
        let start = self.fdx.len();
        put_i64(&mut self.fdx, place)?;
        match put_vint(&mut self.fdt, count) {
            Ok(()) => {
                self.lacks = count;
                Ok(())
            }
            Err(error) => {
                self.fdx.truncate(start);
                Err(error)
            }
        }
    }

    /// Adds a text of fewer than 2^31 bytes to the open document, which is finished with its last value.
    /// An `Err` leaves the writer as it was.
    pub fn put_text(&mut self, field: u32, tokenized: bool, text: &str) -> Result<(), OutOfMemory>
        requires lacking { IsSome self.old.opened }
        requires field { field < 2 ^ 31 }
        requires short { length text.now < 2 ^ 31 }
        ensures ok { OnOk result (self.new ≡ with_stored (record { field = field; tokenized = tokenized; value = owned.Text text.now }) self.old) }
        ensures err { OnErr result (self.new ≡ self.old) }
    {
        self.put(StoredRef {
            field,
            tokenized,
            value: ValueRef::Text(text),
        })
    }

    /// Adds fewer than 2^31 bytes to the open document, which is finished with its last value.
    /// An `Err` leaves the writer as it was.
    pub fn put_binary(
        &mut self,
        field: u32,
        tokenized: bool,
        bytes: &[u8],
    ) -> Result<(), OutOfMemory>
        requires lacking { IsSome self.old.opened }
        requires field { field < 2 ^ 31 }
        requires short { length bytes.now < 2 ^ 31 }
        ensures ok { OnOk result (self.new ≡ with_stored (record { field = field; tokenized = tokenized; value = owned.Binary bytes.now }) self.old) }
        ensures err { OnErr result (self.new ≡ self.old) }
    {
        self.put(StoredRef {
            field,
            tokenized,
            value: ValueRef::Binary(bytes),
        })
    }

    /// The two files of the documents, none of which is open. Takes no memory.
    pub fn finish(self) -> StoredFiles
        requires { self.opened ≡ None }
        ensures fdx { result.fdx ≡ fdx_bytes self.finished }
        ensures fdt { result.fdt ≡ fdt_bytes self.finished }
        ensures storable { AreStorable self.finished }
    {
        let StoredWriter { fdx, fdt, lacks: _ } = self;
        StoredFiles {
            fdx: Bytes::new(fdx),
            fdt: Bytes::new(fdt),
        }
    }

    /// Adds a value to the open document.
    fn put(&mut self, value: StoredRef<'_>) -> Result<(), OutOfMemory>
        requires lacking { IsSome self.old.opened }
        requires storable { IsStorableField (lent_field value) }
        ensures ok { OnOk result (self.new ≡ with_stored (lent_field value.entry) self.old) }
        ensures err { OnErr result (self.new ≡ self.old) }
    {
        let start = self.fdt.len();
        match push_value(&mut self.fdt, value) {
            Ok(()) => {
                self.lacks -= 1;
                Ok(())
            }
            Err(error) => {
                self.fdt.truncate(start);
                Err(error)
            }
        }
    }
}

/// The bits of a value.
fn value_bits(tokenized: bool, value: ValueRef<'_>) -> u8
    ensures { result ≡ value_bits tokenized (value_of value.entry) }
{
    let tokenized = if tokenized { TOKENIZED } else { 0 };
    match value {
        ValueRef::Text(_) => tokenized,
        ValueRef::Binary(_) => tokenized + BINARY,
    }
}

/// Appends a binary value: its length, and its bytes. After an `Err` some of it may stand after what was there.
fn push_binary(out: &mut Vec<u8>, bytes: &[u8]) -> Result<(), OutOfMemory>
    requires { length bytes.now < 2 ^ 31 }
    ensures ok { OnOk result (out.new.items ≡ out.old.items ++ content_bytes (owned.Binary bytes.now)) }
    ensures err { OnErr result (take (vec_len out.old) out.new.items ≡ out.old.items) }
{
    put_vint(out, bytes.len() as u32)?;
    out.extend_from_slice(bytes)?;
    Ok(())
}

/// Appends a value. After an `Err` some of it may stand after what was there.
fn push_value(out: &mut Vec<u8>, value: StoredRef<'_>) -> Result<(), OutOfMemory>
    requires { IsStorableField (lent_field value) }
    ensures ok { OnOk result (out.new.items ≡ out.old.items ++ value_bytes (lent_field value.entry)) }
    ensures err { OnErr result (take (vec_len out.old) out.new.items ≡ out.old.items) }
{
    put_vint(out, value.field)?;
    out.push(value_bits(value.tokenized, value.value))?;
    match value.value {
        ValueRef::Text(text) => put_text(out, text)?,
        ValueRef::Binary(bytes) => push_binary(out, bytes)?,
    }
    Ok(())
}
