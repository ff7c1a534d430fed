//! The new numbers of documents.
ghost use Rattle.std.specs.Prelude.{◌≡◌, ◌+◌, ◌<◌, ◌^◌, length, IfOk};
ghost use Rattle.lu_model.specs.Contents.{live};
ghost use Rattle.seg_merger.specs.TermNumbers.{AreNumbered, HasNumber, number_in};

use lu_prims::OutOfMemory;
use seg_reader::SegReader;
use std::alloc::Global;

/// The new number of each document of a segment: from a number on where none is deleted, or by a list.
#[derive(Debug, Drop)]
pub(crate) enum DocMap {
    /// The document with number 0 gets this one, and the others follow.
    From(u32),
    /// Each document gets the number at its place; one that is deleted gets that of the next one that is not.
    Each(Vec<u32>),
}

impl DocMap {
    /// The new number of a document.
    pub(crate) fn number(&self, doc: u32) -> u32
        requires { HasNumber self.now doc }
        ensures { result ≡ number_in self.now doc }
    {
        match self {
            DocMap::From(base) => *base + doc,
            DocMap::Each(numbers) => numbers[doc as usize],
        }
    }
}

/// The new numbers of the documents of a segment.
#[derive(Debug, Drop)]
pub(crate) struct Numbered {
    /// The number of the first that is not deleted.
    pub(crate) base: u32,
    /// That of each.
    pub(crate) docs: DocMap,
    /// The number behind the last.
    pub(crate) next: u32,
}

// The numbers where some documents are deleted.
fn number_each(alloc: Global, reader: &SegReader<'_>, base: u32) -> Result<Numbered, OutOfMemory>
    requires { base + length (live reader.now.index) < 2 ^ 31 }
    ensures base { IfOk result (λ numbered. numbered.base ≡ base) }
    ensures numbers { IfOk result (λ numbered. AreNumbered reader.now.index.deleted reader.now.index.size numbered) }
{
    let size = reader.size();
    let mut numbers = Vec::with_capacity(alloc, size as usize)?;
    let mut next = base;
    for doc in 0..size {
        numbers.push(next)?;
        if reader.is_live(doc) {
            next += 1;
        }
    }
    Ok(Numbered {
        base,
        docs: DocMap::Each(numbers),
        next,
    })
}

/// Numbers the documents of a segment that are not deleted, from this number on. It takes memory only where some are deleted.
pub(crate) fn number_documents(
    alloc: Global,
    reader: &SegReader<'_>,
    base: u32,
) -> Result<Numbered, OutOfMemory>
    requires { base + length (live reader.now.index) < 2 ^ 31 }
    ensures base { IfOk result (λ numbered. numbered.base ≡ base) }
    ensures numbers { IfOk result (λ numbered. AreNumbered reader.now.index.deleted reader.now.index.size numbered) }
{
    let size = reader.size();
    if reader.deleted() == 0 {
        return Ok(Numbered {
            base,
            docs: DocMap::From(base),
            next: base + size,
        });
    }
    number_each(alloc, reader, base)
}
