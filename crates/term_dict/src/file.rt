//! A file of terms that was checked (format page, "Terms").
ghost use Rattle.std.specs.Prelude.{◌≡◌, ◌<◌, ◌^◌, All, length, IfOk, IfErr};
ghost use Rattle.lu_grammar.specs.Meaning.{Reads};
ghost use Rattle.lu_types.specs.declared.kind.FileKind.TheVariants.{Tis};
ghost use Rattle.term_dict.specs.Dictionary.{tis_plan};
ghost use Rattle.term_dict.specs.Checks.{AreBounded};
ghost use Rattle.lu_types.specs.Judging.{IsFault};
ghost use Rattle.term_dict.specs.Walk.{walk_of};

use crate::checking::check_bytes;
use crate::cursor::TermCursor;
use lu_prims::OutOfMemory;
use lu_types::{CodecFault, FieldTable, TermNumbers};
use std::alloc::Global;
use std::marker::Model;

/// The terms of a segment, over the bytes of their file, which was checked. Contracts see what the bytes stand for: the
/// numbers, the terms, where the record of each starts, and the length of the file.
#[derive(Drop)]
pub struct TermFile<'a> {
    tis: &'a [u8],
    numbers: TermNumbers,
    longest: usize,
}

impl<'a> Model for TermFile<'a> {
    ghost use Rattle.term_dict.specs.Dictionary.{Dictionary};
    ghost use Rattle.term_dict.specs.Content.{dictionary_in, IsRead};

    ghost Value = { Dictionary };

    ghost view = { λ f. dictionary_in f.tis.now };

    ghost invariant = { λ f. IsRead f.tis.now f.numbers f.longest };
}

impl<'a> TermFile<'a> {
    /// The terms that the bytes stand for in a segment with these fields and so many documents, or the first fault
    /// (format page, "Terms" and "How a fault is found"). Answers `OutOfMemory` only where there was no memory for a text.
    ///
    /// It keeps one text, and takes time by the length of the file and of the names of the fields.
    pub fn check_tis(
        alloc: Global,
        tis: &'a [u8],
        fields: &FieldTable<'_>,
        documents: u32,
    ) -> Result<TermFile<'a>, CodecFault>
        requires { length tis.now < 2 ^ 31 }
        ensures ok { IfOk result (Reads (tis_plan fields.now documents (length tis.entry.now)) tis.entry.now) }
        ensures err { IfErr result (IsFault Tis (tis_plan fields.now documents (length tis.entry.now)) tis.entry.now) }
    {
        match check_bytes(alloc, tis, fields, documents) {
            Err(fault) => Err(fault),
            Ok((numbers, longest)) => Ok(TermFile {
                tis,
                numbers,
                longest,
            }),
        }
    }

    /// What the header says: how many terms there are, and the intervals. Takes no memory.
    pub fn numbers(&self) -> TermNumbers
        ensures numbers { result ≡ self.now.numbers }
        ensures bounded { AreBounded result }
        ensures count { length self.now.terms ≡ result.count }
        ensures starts { length self.now.starts ≡ result.count }
        ensures places { All (λ place. place < 2 ^ 31) self.now.starts }
    {
        self.numbers
    }

    /// A walk over the terms, before the first. It takes memory for the longest text, and its calls take none.
    pub fn cursor(&self, alloc: Global) -> Result<TermCursor<'a>, OutOfMemory>
        ensures { IfOk result (λ cursor. cursor ≡ walk_of self.now) }
    {
        TermCursor::new(alloc, self.tis, self.numbers, self.longest)
    }
}
