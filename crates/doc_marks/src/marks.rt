//! Marks on the documents of a segment, a bit each, and the `.del` that is written of them (format page, "Deletions").
ghost use Rattle.std.specs.Prelude.{◌≡◌, ◌↔◌, ◌+◌, ◌<◌, ◌^◌, true, false, not, length, get_or, slice_set, replicate, IfOk};
ghost use Rattle.doc_marks.specs.Marking.{bits, flags, places, documents_of};
ghost use Rattle.doc_marks.specs.Spelling.{marks_of};

use crate::byte_marks::BYTE_BITS;
use lu_prims::OutOfMemory;
use std::alloc::Global;
use std::marker::Model;

/// Marks on the documents of a segment. Contracts see, for each document, whether it is marked.
#[derive(Drop)]
pub struct Marks {
    /// A bit a document, eight a byte, the lowest first; those past the last document are clear.
    bytes: Vec<u8>,
    /// How many documents there are.
    size: u32,
    /// How many of them are marked.
    count: u32,
}

impl Model for Marks {
    ghost use Rattle.std.specs.Prelude.{List, Bool, take};
    ghost use Rattle.doc_marks.specs.Marking.{flags, AreMarks};

    ghost Value = { List Bool };

    ghost view = { λ m. take m.size (flags m.bytes.items) };

    ghost invariant = { λ m. AreMarks m.size m.count m.bytes.items };
}

/// The number that has this bit alone.
fn bit_value(bit: u32) -> u8
    requires { bit < 8 }
    ensures { result ≡ 2 ^ bit }
{
    1 << bit
}

/// Whether a byte has a bit.
pub fn has_bit(byte: u8, bit: u32) -> bool
    requires { bit < 8 }
    ensures { result ≡ get_or (bits 8 byte) bit false }
{
    byte / bit_value(bit) % 2 == 1
}

impl Marks {
    /// Marks on so many documents, below 2^31, of which none is marked.
    pub fn new(alloc: Global, size: u32) -> Result<Marks, OutOfMemory>
        requires { size < 2 ^ 31 }
        ensures { IfOk result (λ marks. marks ≡ replicate size false) }
    {
        let long = (size / BYTE_BITS) as usize + 1;
        let bytes = vec![in alloc; 0; long]?;
        Ok(Marks {
            bytes,
            size,
            count: 0,
        })
    }

    /// How many documents there are.
    pub fn size(&self) -> u32
        ensures size { result ≡ length self.now }
        ensures few { result < 2 ^ 31 }
    {
        self.size
    }

    /// How many of them are marked.
    pub fn count(&self) -> u32
        ensures count { result ≡ length (documents_of self.now) }
        ensures few { result < 2 ^ 31 }
    {
        self.count
    }

    /// Whether a document is marked.
    pub fn is_set(&self, doc: u32) -> bool
        requires { doc < length self.now }
        ensures { result ≡ get_or self.now doc false }
    {
        let byte = self.bytes[(doc / BYTE_BITS) as usize];
        has_bit(byte, doc % BYTE_BITS)
    }

    /// Marks a document, and answers whether it was not marked.
    pub fn set(&mut self, doc: u32) -> bool
        requires { doc < length self.old }
        ensures was { result ≡ not (get_or self.old doc false) }
        ensures marked { self.new ≡ slice_set self.old doc true }
    {
        let index = (doc / BYTE_BITS) as usize;
        let bit = doc % BYTE_BITS;
        let byte = self.bytes[index];
        if has_bit(byte, bit) {
            return false;
        }
        self.bytes[index] = byte + bit_value(bit);
        self.count += 1;
        true
    }

    /// The bytes that mark the documents, of which the dense form of `.del` consists.
    pub fn bytes(&self) -> &[u8]
        ensures marks { result.now ≡ marks_of (length self.now) (documents_of self.now) }
        ensures few { length result.now < 2 ^ 31 }
    {
        let bytes = self.bytes.as_slice();
        bytes
    }
}
