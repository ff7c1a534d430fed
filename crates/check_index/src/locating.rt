//! Where the parts of a segment are found (format page, "How a fault is found").
ghost use Rattle.std.specs.Prelude.{◌≡◌, Some, IfOk, option_copied};
ghost use Rattle.lu_types.specs.Names.{IsPart, segment_name as name_of_segment};
ghost use Rattle.lu_types.specs.FilePlans.{Judges};
ghost use Rattle.check_index.specs.Files.{DocumentFiles, folder_of};
ghost use Rattle.check_index.specs.Locating.{packed_part, packed_documents, packed_index, packed_files, compound_files, own_part_files, document_parts, located_parts, document_files_of, index_files_of, part_files_of};

use crate::needed::needed;
use crate::parts::Parts;
use compound_file::{CfsEntries, split};
use lu_prims::OutOfMemory;
use lu_types::{CodecFault, FileKind, SharedStore, part_name, segment_name};
use segment_infos::SegInfo;
use std::alloc::Global;

/// The files of stored values and of vectors, each where it is there.
#[derive(Clone, Copy)]
pub struct DocumentParts<'a> {
    pub fdx: Option<&'a [u8]>,
    pub fdt: Option<&'a [u8]>,
    pub tvx: Option<&'a [u8]>,
    pub tvd: Option<&'a [u8]>,
    pub tvf: Option<&'a [u8]>,
}

/// The other parts of a segment, each where it is there.
#[derive(Clone, Copy)]
pub struct IndexParts<'a> {
    pub fnm: Option<&'a [u8]>,
    pub tis: Option<&'a [u8]>,
    pub tii: Option<&'a [u8]>,
    pub frq: Option<&'a [u8]>,
    pub prx: Option<&'a [u8]>,
    pub nrm: Option<&'a [u8]>,
}

/// All parts that a segment is read from.
#[derive(Clone, Copy)]
pub struct Located<'a> {
    pub index: IndexParts<'a>,
    pub documents: DocumentParts<'a>,
}

/// The part of a compound file that is the segment's file of the kind, where the file holds it.
fn packed<'a>(
    alloc: Global,
    parts: &CfsEntries<'a>,
    segment: &str,
    kind: FileKind,
) -> Result<Option<&'a [u8]>, OutOfMemory>
    requires { IsPart kind }
    ensures { IfOk result (λ file. option_copied file ≡ packed_part segment.now parts.now kind) }
{
    let name = part_name(alloc, segment, kind)?;
    Ok(parts.get(name.as_str()))
}

/// The files of stored values and of vectors that a compound file holds, of the segment with this name.
fn packed_document_parts<'a>(
    alloc: Global,
    parts: &CfsEntries<'a>,
    segment: &str,
) -> Result<DocumentParts<'a>, OutOfMemory>
    ensures { IfOk result (λ found. document_files_of found ≡ packed_documents segment.now parts.now) }
{
    Ok(DocumentParts {
        fdx: packed(alloc, parts, segment, FileKind::Fdx)?,
        fdt: packed(alloc, parts, segment, FileKind::Fdt)?,
        tvx: packed(alloc, parts, segment, FileKind::Tvx)?,
        tvd: packed(alloc, parts, segment, FileKind::Tvd)?,
        tvf: packed(alloc, parts, segment, FileKind::Tvf)?,
    })
}

/// The other parts that a compound file holds, of the segment with this name.
fn packed_index_parts<'a>(
    alloc: Global,
    parts: &CfsEntries<'a>,
    segment: &str,
) -> Result<IndexParts<'a>, OutOfMemory>
    ensures { IfOk result (λ found. index_files_of found ≡ packed_index segment.now parts.now) }
{
    Ok(IndexParts {
        fnm: packed(alloc, parts, segment, FileKind::Fnm)?,
        tis: packed(alloc, parts, segment, FileKind::Tis)?,
        tii: packed(alloc, parts, segment, FileKind::Tii)?,
        frq: packed(alloc, parts, segment, FileKind::Frq)?,
        prx: packed(alloc, parts, segment, FileKind::Prx)?,
        nrm: packed(alloc, parts, segment, FileKind::Nrm)?,
    })
}

/// All parts that a compound file holds, of the segment with this number.
fn packed_parts<'a>(
    alloc: Global,
    parts: &CfsEntries<'a>,
    number: u32,
) -> Result<Located<'a>, OutOfMemory>
    ensures { IfOk result (λ found. part_files_of found ≡ packed_files (name_of_segment number) parts.now) }
{
    let segment = segment_name(alloc, number)?;
    Ok(Located {
        index: packed_index_parts(alloc, parts, segment.as_str())?,
        documents: packed_document_parts(alloc, parts, segment.as_str())?,
    })
}

/// The parts of a compound file that is needed.
fn unpacked<'a>(
    alloc: Global,
    file: Option<&'a [u8]>,
    kind: FileKind,
) -> Result<CfsEntries<'a>, CodecFault>
    ensures { Judges (λ parts. parts) (compound_files kind (option_copied file.entry)) result }
{
    match needed(file, kind) {
        Err(fault) => Err(fault),
        Ok(bytes) => split(alloc, kind, bytes),
    }
}

/// The parts that are files of their own.
fn outside<'a>(parts: &Parts<'a>) -> Located<'a>
    ensures { part_files_of result ≡ (folder_of parts.now).parts }
{
    Located {
        index: IndexParts {
            fnm: parts.fnm,
            tis: parts.tis,
            tii: parts.tii,
            frq: parts.frq,
            prx: parts.prx,
            nrm: parts.nrm,
        },
        documents: DocumentParts {
            fdx: parts.fdx,
            fdt: parts.fdt,
            tvx: parts.tvx,
            tvd: parts.tvd,
            tvf: parts.tvf,
        },
    }
}

/// The parts of the segment: files of their own, or parts of its compound file.
fn locate_own<'a>(
    alloc: Global,
    parts: &Parts<'a>,
    info: &SegInfo,
) -> Result<Located<'a>, CodecFault>
    ensures { Judges part_files_of (own_part_files (folder_of parts.now) info.now) result }
{
    if !info.compound {
        return Ok(outside(parts));
    }
    match unpacked(alloc, parts.cfs, FileKind::Cfs) {
        Err(fault) => Err(fault),
        Ok(held) => Ok(packed_parts(alloc, &held, info.number)?),
    }
}

/// The files of documents that a shared store has.
fn locate_shared<'a>(
    alloc: Global,
    parts: &Parts<'a>,
    store: &SharedStore,
) -> Result<DocumentParts<'a>, CodecFault>
    ensures { (own : DocumentFiles) → Judges document_files_of (document_parts (folder_of parts.now) (Some store.now) own) result }
{
    if !store.compound {
        return Ok(outside(parts).documents);
    }
    match unpacked(alloc, parts.cfx, FileKind::Cfx) {
        Err(fault) => Err(fault),
        Ok(held) => {
            let segment = segment_name(alloc, store.number)?;
            Ok(packed_document_parts(alloc, &held, segment.as_str())?)
        }
    }
}

/// The files of documents: those of the segment, or those of its shared store.
fn locate_documents<'a>(
    alloc: Global,
    parts: &Parts<'a>,
    info: &SegInfo,
    own: DocumentParts<'a>,
) -> Result<DocumentParts<'a>, CodecFault>
    ensures { Judges document_files_of (document_parts (folder_of parts.now) info.now.store (document_files_of own.entry)) result }
{
    match &info.store {
        None => Ok(own),
        Some(store) => locate_shared(alloc, parts, store),
    }
}

/// All parts that the segment is read from.
pub fn locate<'a>(
    alloc: Global,
    parts: &Parts<'a>,
    info: &SegInfo,
) -> Result<Located<'a>, CodecFault>
    ensures { Judges part_files_of (located_parts (folder_of parts.now) info.now) result }
{
    let own = match locate_own(alloc, parts, info) {
        Err(fault) => return Err(fault),
        Ok(own) => own,
    };
    match locate_documents(alloc, parts, info, own.documents) {
        Err(fault) => Err(fault),
        Ok(documents) => Ok(Located {
            index: own.index,
            documents,
        }),
    }
}
