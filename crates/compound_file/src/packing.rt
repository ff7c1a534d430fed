//! Packing the files of a segment into one (format page, "Compound files").
ghost use Rattle.std.specs.Prelude.{◌≡◌, ◌≢◌, ◌+◌, ◌-◌, ◌<◌, ◌≤◌, ◌^◌, ◌++◌, length, map, All, AllPairs, IfOk, IfSome, OnOk, option_map, string_bytes};
ghost use Rattle.lu_grammar.specs.Bytes.{IsBytes};
ghost use Rattle.lu_grammar.specs.Meaning.{Reads};
ghost use Rattle.lu_types.specs.Names.{IsPart};
ghost use Rattle.compound_file.specs.Cfs.{cfs_plan};
ghost use Rattle.compound_file.specs.Packing.{is_same as is_one, file_of as file_in, packed_in, packed_parts, directory_size, entries_bytes, part_contents, contents_size, cfs_bytes};
ghost use Rattle.compound_file.specs.Packs.{Packs, SizeWithin, part_of};

use lu_prims::{OutOfMemory, put_i64, put_text, put_vint};
use lu_types::{FileKind, NamedFile, PART_KINDS, Text, part_name, segment_name};
use std::alloc::Global;

/// The bytes of an offset.
const OFFSET_BYTES: usize = 8;

/// Why files were not packed.
#[derive(Clone, Copy, Debug, PartialEq, Eq)]
pub enum PackFault {
    /// The bytes pass the limit.
    TooLarge,
    /// There was no memory for them.
    OutOfMemory,
}

impl From<OutOfMemory> for PackFault {
    ghost use Rattle.compound_file.specs.declared.packing.PackFault.TheVariants.{OutOfMemory as no_memory};

    ghost from_gives = { λ _ fault. fault ≡ no_memory };

    fn from(_error: OutOfMemory) -> PackFault {
        PackFault::OutOfMemory
    }
}

/// A part that is to be packed.
#[derive(Drop)]
pub struct Packed<'a> {
    name: Text,
    bytes: &'a [u8],
}

impl<'a> Packed<'a> {
    /// The part with a name and these bytes.
    fn new(name: String, bytes: &'a [u8]) -> Packed<'a>
        ensures part { part_of result ≡ record { name = string_bytes name; bytes = bytes.entry.now } }
        ensures bytes { IsBytes result.bytes.now }
    {
        Packed {
            name: Text::new(name),
            bytes,
        }
    }
}

/// Whether two kinds are one.
fn is_same(a: FileKind, b: FileKind) -> bool
    ensures { result ≡ is_one a b }
{
    a == b
}

/// The file of a kind, if there is one.
fn file_of(files: &[NamedFile], kind: FileKind) -> Option<&NamedFile>
    ensures { option_map (λ file. file.now) result ≡ file_in files.now kind }
{
    for file in files {
        if is_same(file.kind, kind) {
            return Some(file);
        }
    }
    None
}

/// The part that the file of a kind becomes, in the segment with a name, if there is one.
fn part_of_kind<'a>(
    alloc: Global,
    files: &'a [NamedFile],
    segment: &str,
    kind: FileKind,
) -> Result<Option<Packed<'a>>, OutOfMemory>
    requires { IsPart kind }
    ensures part { IfOk result (λ part. option_map part_of part ≡ option_map (packed_in segment.now) (file_in files.entry.now kind)) }
    ensures bytes { IfOk result (λ part. IfSome part (λ p. IsBytes p.bytes.now)) }
{
    match file_of(files, kind) {
        None => Ok(None),
        Some(file) => {
            let name = part_name(alloc, segment, kind)?;
            Ok(Some(Packed::new(name, file.bytes.as_slice())))
        }
    }
}

/// The parts that the files of the segment with a number become, in the order in which files are checked.
fn parts_of<'a>(
    alloc: Global,
    files: &'a [NamedFile],
    number: u32,
) -> Result<Vec<Packed<'a>>, OutOfMemory>
    ensures parts { IfOk result (λ parts. map part_of parts.items ≡ packed_parts number files.entry.now) }
    ensures few { IfOk result (λ parts. length parts.items < 128) }
    ensures bytes { IfOk result (λ parts. All (λ part. IsBytes part.bytes.now) parts.items) }
{
    let segment = segment_name(alloc, number)?;
    let mut parts = Vec::new(alloc);
    for kind in PART_KINDS {
        match part_of_kind(alloc, files, segment.as_str(), kind)? {
            None => {}
            Some(part) => parts.push(part)?,
        }
    }
    Ok(parts)
}

/// How many bytes the directory of the parts takes.
fn directory_len(parts: &[Packed<'_>]) -> usize
    requires few { length parts.now < 128 }
    requires short { All (λ part. length part.name < 128) parts.now }
    ensures { result ≡ directory_size (map part_of parts.now) }
{
    let mut size = 1;
    for part in parts {
        size += OFFSET_BYTES + 1 + part.name.as_str().len();
    }
    size
}

/// How many bytes the parts take in one file with a directory of so many bytes; `None` exactly where these pass the limit.
fn size_within(directory: usize, parts: &[Packed<'_>], limit: u32) -> Option<usize>
    ensures { SizeWithin (directory + contents_size (map part_of parts.now)) limit result }
{
    let limit = limit as usize;
    if directory > limit {
        return None;
    }
    let mut size = directory;
    for part in parts {
        if part.bytes.len() > limit - size {
            return None;
        }
        size += part.bytes.len();
    }
    Some(size)
}

/// Appends the entries of parts whose bytes stand one after another, from a place on.
fn put_entries(out: &mut Vec<u8>, parts: &[Packed<'_>], start: usize) -> Result<(), OutOfMemory>
    requires short { All (λ part. length part.name < 128) parts.now }
    requires room { start + contents_size (map part_of parts.now) < 2 ^ 63 }
    ensures { OnOk result (out.new.items ≡ out.old.items ++ entries_bytes start (map part_of parts.now)) }
{
    let mut next = start;
    for part in parts {
        put_i64(out, next as i64)?;
        put_text(out, part.name.as_str())?;
        next += part.bytes.len();
    }
    Ok(())
}

/// Appends the bytes of the parts, one after another.
fn put_contents(out: &mut Vec<u8>, parts: &[Packed<'_>]) -> Result<(), OutOfMemory>
    ensures { OnOk result (out.new.items ≡ out.old.items ++ part_contents (map part_of parts.now)) }
{
    for part in parts {
        out.extend_from_slice(part.bytes)?;
    }
    Ok(())
}

/// The bytes of the parts in one file, of which there are so many, behind a directory of so many bytes.
fn packed_bytes(
    alloc: Global,
    parts: &[Packed<'_>],
    start: usize,
    size: usize,
) -> Result<Vec<u8>, OutOfMemory>
    requires few { length parts.now < 128 }
    requires short { All (λ part. length part.name < 128) parts.now }
    requires directory { start ≡ directory_size (map part_of parts.now) }
    requires room { start + contents_size (map part_of parts.now) < 2 ^ 63 }
    ensures { IfOk result (λ out. out.items ≡ cfs_bytes (map part_of parts.now)) }
{
    let mut out = Vec::with_capacity(alloc, size)?;
    put_vint(&mut out, parts.len() as u32)?;
    put_entries(&mut out, parts, start)?;
    put_contents(&mut out, parts)?;
    Ok(out)
}

/// The parts in one file, or that they pass the limit.
fn pack_parts(alloc: Global, parts: &[Packed<'_>], limit: u32) -> Result<Vec<u8>, PackFault>
    requires few { length parts.now < 128 }
    requires short { All (λ part. length part.name < 128) parts.now }
    ensures { Packs (λ out. out.items) (cfs_bytes (map part_of parts.now)) limit result }
{
    let start = directory_len(parts);
    let Some(size) = size_within(start, parts, limit) else {
        return Err(PackFault::TooLarge);
    };
    match packed_bytes(alloc, parts, start, size) {
        Ok(out) => Ok(out),
        Err(OutOfMemory) => Err(PackFault::OutOfMemory),
    }
}

/// The files of the segment with a number, or of the shared store that is named by it, packed into one file: the parts in the
/// order in which files are checked, each with the name that it has outside (format page, "Compound files"). It is split into
/// exactly these parts.
///
/// The error is `TooLarge` exactly where the bytes pass the limit, or want of memory.
pub fn pack(
    alloc: Global,
    files: &[NamedFile],
    number: u32,
    limit: u32,
) -> Result<Vec<u8>, PackFault>
    requires number { number < 2 ^ 31 - 1 }
    requires parts { All (λ file. IsPart file.kind) files.now }
    requires apart { AllPairs (λ file later. file.kind ≢ later.kind) files.now }
    ensures packs { Packs (λ out. out.items) (cfs_bytes (packed_parts number files.now)) limit result }
    ensures reads { IfOk result (λ bytes. Reads (cfs_plan (length bytes.items)) bytes.items (packed_parts number files.now)) }
{
    let parts = parts_of(alloc, files, number)?;
    let out = pack_parts(alloc, &parts, limit)?;
    Ok(out)
}
