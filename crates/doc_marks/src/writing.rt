//! Writing `.del` (format page, "What the writer chooses").
ghost use Rattle.std.specs.Prelude.{◌≡◌, ◌++◌, ◌+◌, ◌^◌, ◌<◌, ◌≤◌, length, IfOk};
ghost use Rattle.lu_grammar.specs.Parts.{spelling, int32};
ghost use Rattle.doc_marks.specs.Marking.{documents_of};
ghost use Rattle.doc_marks.specs.Deletions.{sparse_mark};
ghost use Rattle.doc_marks.specs.Spelling.{sizes_bytes, pairs_bytes, pair_bits, is_sparse, dense_bytes, sparse_bytes, del_bytes};

use crate::byte_marks::BYTE_BITS;
use crate::heading::SPARSE_MARK;
use crate::marks::Marks;
use lu_prims::{OutOfMemory, put_i32, put_vint};
use std::alloc::Global;

/// How many bits a deleted document is reckoned at in the sparse form, where the dense one has so many bytes.
fn pair_bits(total: u32) -> u64
    ensures is { result ≡ pair_bits total }
    ensures few { result ≤ 40 }
{
    if total < 0x80 {
        16
    } else if total < 0x4000 {
        24
    } else if total < 0x20_0000 {
        32
    } else {
        40
    }
}

/// Whether the sparse form is taken.
fn is_sparse(size: u32, count: u32) -> bool
    ensures { result ≡ is_sparse size count }
{
    10 * (4 + pair_bits(size / BYTE_BITS + 1) * u64::from(count)) < u64::from(size)
}

/// Appends the size of the segment, and how many documents are marked.
fn put_sizes(out: &mut Vec<u8>, marks: &Marks) -> Result<(), OutOfMemory>
    ensures { IfOk result (λ _. out.new.items ≡ out.old.items ++ sizes_bytes (length marks.now) (length (documents_of marks.now))) }
{
    put_i32(out, marks.size() as i32)?;
    put_i32(out, marks.count() as i32)?;
    Ok(())
}

/// Appends the dense form.
pub fn put_dense(out: &mut Vec<u8>, marks: &Marks) -> Result<(), OutOfMemory>
    ensures { IfOk result (λ _. out.new.items ≡ out.old.items ++ dense_bytes (length marks.now) (documents_of marks.now)) }
{
    put_sizes(out, marks)?;
    out.extend_from_slice(marks.bytes())?;
    Ok(())
}

/// Appends the bytes that are not 0, each after how far its index is past that of the one before.
fn put_pairs(out: &mut Vec<u8>, bytes: &[u8]) -> Result<(), OutOfMemory>
    requires { length bytes.now < 2 ^ 31 }
    ensures { IfOk result (λ _. out.new.items ≡ out.old.items ++ pairs_bytes 0 0 bytes.now) }
{
    let mut last = 0;
    let mut index = 0;
    for byte in bytes {
        if *byte != 0 {
            put_vint(out, index - last)?;
            out.push(*byte)?;
            last = index;
        }
        index += 1;
    }
    Ok(())
}

/// Appends the sparse form.
pub fn put_sparse(out: &mut Vec<u8>, marks: &Marks) -> Result<(), OutOfMemory>
    ensures { IfOk result (λ _. out.new.items ≡ out.old.items ++ sparse_bytes (length marks.now) (documents_of marks.now)) }
{
    put_i32(out, SPARSE_MARK)?;
    put_sizes(out, marks)?;
    put_pairs(out, marks.bytes())?;
    Ok(())
}

/// The bytes of `.del` for the marked documents, in the form that is written for so many of so many (format page, "What the
/// writer chooses"). An `Err` is want of memory.
pub fn write_del(alloc: Global, marks: &Marks) -> Result<Vec<u8>, OutOfMemory>
    ensures { IfOk result (λ del. del.items ≡ del_bytes (length marks.now) (documents_of marks.now)) }
{
    let mut out = Vec::new(alloc);
    if is_sparse(marks.size(), marks.count()) {
        put_sparse(&mut out, marks)?;
    } else {
        put_dense(&mut out, marks)?;
    }
    Ok(out)
}
