//! The files of a segment, in the order in which files are checked, or packed into one.
ghost use Rattle.std.specs.Prelude.{◌≡◌, ◌++◌, [], ◌∷◌, true, false, Ok, OnOk, IfOk};
ghost use Rattle.check_index.specs.Files.{PartFiles};
ghost use Rattle.segment_files.specs.Written.{checked_in_order, packed_file};
ghost use Rattle.lu_types.specs.declared.kind.FileKind.TheVariants.{Cfs};
ghost use Rattle.posting_files.specs.States.{named};
ghost use Rattle.seg_writer.specs.Answers.{Wrote};
ghost use Rattle.seg_writer.specs.PartsGathered.{AreChecked, part_files, posting_files_checked, vector_files_checked};

use crate::fault::WriteFault;
use compound_file::{PackFault, pack};
use lu_prims::OutOfMemory;
use lu_types::{Bytes, FileKind, NamedFile};
use posting_files::PostingFiles;
use segment_files::WriteOptions;
use std::alloc::Global;
use stored_fields::StoredFiles;
use term_vectors::VectorFiles;

/// The parts of a segment; positions, norms and vectors only where they are written.
#[derive(Drop)]
pub struct WrittenParts {
    pub fnm: Bytes,
    pub stored: StoredFiles,
    pub postings: PostingFiles,
    pub has_prox: bool,
    pub nrm: Option<Bytes>,
    pub vectors: Option<VectorFiles>,
}

// Adds a file.
fn add_file(files: &mut Vec<NamedFile>, kind: FileKind, bytes: Bytes) -> Result<(), OutOfMemory>
    ensures { OnOk result (files.new.items ≡ files.old.items ++ named kind bytes ∷ []) }
{
    files.push(NamedFile { kind, bytes })?;
    Ok(())
}

// Adds the files of terms.
fn add_postings(
    files: &mut Vec<NamedFile>,
    postings: PostingFiles,
    has_prox: bool,
) -> Result<(), OutOfMemory>
    ensures { OnOk result (files.new.items ≡ files.old.items ++ posting_files_checked has_prox postings) }
{
    add_file(files, FileKind::Tis, postings.tis)?;
    add_file(files, FileKind::Tii, postings.tii)?;
    add_file(files, FileKind::Frq, postings.frq)?;
    if has_prox {
        add_file(files, FileKind::Prx, postings.prx)?;
    }
    Ok(())
}

// Adds the files of vectors.
fn add_vectors(files: &mut Vec<NamedFile>, vectors: VectorFiles) -> Result<(), OutOfMemory>
    ensures { OnOk result (files.new.items ≡ files.old.items ++ vector_files_checked vectors) }
{
    add_file(files, FileKind::Tvx, vectors.tvx)?;
    add_file(files, FileKind::Tvd, vectors.tvd)?;
    add_file(files, FileKind::Tvf, vectors.tvf)
}

/// The parts as files, in the order in which files are checked.
pub(crate) fn named_files(alloc: Global, parts: WrittenParts) -> Result<Vec<NamedFile>, OutOfMemory>
    ensures { IfOk result (λ files. files.items ≡ checked_in_order (part_files parts)) }
{
    let WrittenParts {
        fnm,
        stored,
        postings,
        has_prox,
        nrm,
        vectors,
    } = parts;
    let mut files = Vec::new(alloc);
    add_file(&mut files, FileKind::Fnm, fnm)?;
    let StoredFiles { fdx, fdt } = stored;
    add_file(&mut files, FileKind::Fdx, fdx)?;
    add_file(&mut files, FileKind::Fdt, fdt)?;
    add_postings(&mut files, postings, has_prox)?;
    if let Some(nrm) = nrm {
        add_file(&mut files, FileKind::Nrm, nrm)?;
    }
    if let Some(vectors) = vectors {
        add_vectors(&mut files, vectors)?;
    }
    Ok(files)
}

// The file that parts are packed into, or that it passes the limit.
fn packed_bytes(
    alloc: Global,
    options: &WriteOptions,
    files: &[NamedFile],
) -> Result<Bytes, WriteFault>
    requires { AreChecked files.now }
    ensures { (parts : PartFiles) → files.now ≡ checked_in_order parts → Wrote (λ bytes. named Cfs bytes ∷ []) options.now.limits.file_bytes (packed_file options.now.number parts ∷ []) result }
{
    match pack(alloc, files, options.number, options.limits.file_bytes) {
        Ok(bytes) => Ok(Bytes::new(bytes)),
        Err(PackFault::TooLarge) => Err(WriteFault::TooLarge(FileKind::Cfs)),
        Err(PackFault::OutOfMemory) => Err(WriteFault::OutOfMemory),
    }
}

/// The files as they are; or, where that is asked for, the one that they are packed into, or that it passes the limit.
pub(crate) fn packed(
    alloc: Global,
    options: &WriteOptions,
    files: Vec<NamedFile>,
) -> Result<Vec<NamedFile>, WriteFault>
    requires { AreChecked files.items }
    ensures parts { options.now.compound ≡ false → result ≡ Ok files }
    ensures packed { options.now.compound ≡ true → (parts : PartFiles) → files.items ≡ checked_in_order parts
        → Wrote (λ one. one.items) options.now.limits.file_bytes (packed_file options.now.number parts ∷ []) result }
{
    if !options.compound {
        return Ok(files);
    }
    let bytes = match packed_bytes(alloc, options, files.as_slice()) {
        Ok(bytes) => bytes,
        Err(fault) => return Err(fault),
    };
    let mut one = Vec::new(alloc);
    add_file(&mut one, FileKind::Cfs, bytes)?;
    Ok(one)
}
