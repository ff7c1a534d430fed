//! Writing a `segments_N` file.
ghost use Rattle.std.specs.Prelude.{◌≡◌, ◌≤◌, ◌<◌, ◌^◌, ◌++◌, ◌∷◌, List, length, All, Option, IfOk, pos};
ghost use Rattle.std.specs.List.{flat_map};
ghost use Rattle.lu_grammar.specs.Parts.{int32, int64, text, spelling};
ghost use Rattle.lu_grammar.specs.Meaning.{Reads};
ghost use Rattle.segment_infos.specs.Values.{IsCommit, IsPair, IsMap, IsGeneration, IsStore, AreNormGens, IsLine};
ghost use Rattle.lu_prims.specs.Checksum.{checksum};
ghost use Rattle.lu_types.specs.Names.{greatest_segment, segment_name};
ghost use Rattle.segment_infos.specs.Numbers.{number_or_none};
ghost use Rattle.segment_infos.specs.Format.{commit_plan};
ghost use Rattle.segment_infos.specs.Spelling.{pair_bytes, map_bytes, store_bytes, gens_bytes, front_bytes, flag_bytes, line_bytes, heading_bytes, unsealed_bytes, commit_bytes, pending};

use crate::commit::Commit;
use crate::infos::{MapPair, SegInfo};
use crate::lists::NormGens;
use crate::record::{FORMAT_NUMBER, NOT_PACKED, PACKED};
use lu_prims::{OutOfMemory, crc32, put_i32, put_i64, put_text};
use lu_types::{SharedStore, segment_name};
use std::alloc::Global;

/// Appends a key and its value.
fn put_pair(out: &mut Vec<u8>, pair: &MapPair) -> Result<(), OutOfMemory>
    requires { IsPair pair.now }
    ensures { IfOk result (λ _. out.new.items ≡ out.old.items ++ pair_bytes pair.now) }
{
    put_text(out, pair.key.as_str())?;
    put_text(out, pair.value.as_str())
}

/// Appends a Map.
fn put_map(out: &mut Vec<u8>, pairs: &[MapPair]) -> Result<(), OutOfMemory>
    requires { IsMap pairs.now }
    ensures { IfOk result (λ _. out.new.items ≡ out.old.items ++ map_bytes pairs.now) }
{
    put_i32(out, pairs.len() as i32)?;
    for pair in pairs {
        put_pair(out, pair)?;
    }
    Ok(())
}

/// Appends a number below 2^31.
fn put_count(out: &mut Vec<u8>, count: u32) -> Result<(), OutOfMemory>
    requires { count < 2 ^ 31 }
    ensures { IfOk result (λ _. out.new.items ≡ out.old.items ++ spelling int32 (pos count)) }
{
    put_i32(out, count as i32)
}

/// Appends the name of a segment.
fn put_name(alloc: Global, out: &mut Vec<u8>, number: u32) -> Result<(), OutOfMemory>
    requires { number ≤ greatest_segment }
    ensures { IfOk result (λ _. out.new.items ≡ out.old.items ++ spelling text (segment_name number)) }
{
    let name = segment_name(alloc, number)?;
    put_text(out, name.as_str())
}

/// Appends the place in a shared store, or -1.
fn put_store(
    alloc: Global,
    out: &mut Vec<u8>,
    store: &Option<SharedStore>,
) -> Result<(), OutOfMemory>
    requires { IsStore store.now }
    ensures { IfOk result (λ _. out.new.items ≡ out.old.items ++ store_bytes store.now) }
{
    match store {
        None => put_i32(out, -1),
        Some(store) => {
            put_i32(out, store.offset as i32)?;
            put_name(alloc, out, store.number)?;
            out.push(if store.compound { PACKED } else { 0 })?;
            Ok(())
        }
    }
}

/// Appends the number of a generation, or -1.
fn put_generation(out: &mut Vec<u8>, generation: Option<u64>) -> Result<(), OutOfMemory>
    requires { IsGeneration generation }
    ensures { IfOk result (λ _. out.new.items ≡ out.old.items ++ spelling int64 (number_or_none generation)) }
{
    match generation {
        None => put_i64(out, -1),
        Some(number) => put_i64(out, number as i64),
    }
}

/// Appends the norm generations, or -1.
fn put_gens(out: &mut Vec<u8>, gens: &[i64]) -> Result<(), OutOfMemory>
    requires { length gens.now < 2 ^ 31 }
    ensures { IfOk result (λ _. out.new.items ≡ out.old.items ++ (spelling int32 (pos (length gens.now)) ++ flat_map (spelling int64) gens.now)) }
{
    put_i32(out, gens.len() as i32)?;
    for generation in gens {
        put_i64(out, *generation)?;
    }
    Ok(())
}

/// Appends what is said of the norms.
fn put_norms(out: &mut Vec<u8>, gens: &Option<NormGens>) -> Result<(), OutOfMemory>
    requires { AreNormGens gens.now }
    ensures { IfOk result (λ _. out.new.items ≡ out.old.items ++ (1 ∷ gens_bytes gens.now)) }
{
    out.push(1)?;
    match gens {
        None => put_i32(out, -1),
        Some(gens) => put_gens(out, gens.as_slice()),
    }
}

/// Appends the first parts of a segment.
fn put_front(alloc: Global, out: &mut Vec<u8>, info: &SegInfo) -> Result<(), OutOfMemory>
    requires { IsLine info.now }
    ensures { IfOk result (λ _. out.new.items ≡ out.old.items ++ front_bytes info.now) }
{
    put_name(alloc, out, info.number)?;
    put_count(out, info.size)?;
    put_generation(out, info.del_gen)?;
    put_store(alloc, out, &info.store)
}

/// Appends the flags of a segment.
fn put_flags(out: &mut Vec<u8>, info: &SegInfo) -> Result<(), OutOfMemory>
    requires { info.now.deleted < 2 ^ 31 }
    ensures { IfOk result (λ _. out.new.items ≡ out.old.items ++ flag_bytes info.now) }
{
    out.push(if info.compound { PACKED } else { NOT_PACKED })?;
    put_i32(out, info.deleted as i32)?;
    out.push(if info.has_prox { 1 } else { 0 })?;
    Ok(())
}

/// Appends a segment.
fn put_line(alloc: Global, out: &mut Vec<u8>, info: &SegInfo) -> Result<(), OutOfMemory>
    requires { IsLine info.now }
    ensures { IfOk result (λ _. out.new.items ≡ out.old.items ++ line_bytes info.now) }
{
    put_front(alloc, out, info)?;
    put_norms(out, &info.norm_gens)?;
    put_flags(out, info)?;
    put_map(out, info.diagnostics.as_slice())
}

/// Appends segments.
fn put_lines(alloc: Global, out: &mut Vec<u8>, segments: &[SegInfo]) -> Result<(), OutOfMemory>
    requires { All IsLine segments.now }
    ensures { IfOk result (λ _. out.new.items ≡ out.old.items ++ flat_map line_bytes segments.now) }
{
    for info in segments {
        put_line(alloc, out, info)?;
    }
    Ok(())
}

/// Appends the header.
fn put_heading(out: &mut Vec<u8>, commit: &Commit) -> Result<(), OutOfMemory>
    ensures { IfOk result (λ _. out.new.items ≡ out.old.items ++ heading_bytes commit.now) }
{
    put_i32(out, FORMAT_NUMBER)?;
    put_i64(out, commit.version as i64)?;
    put_i32(out, commit.counter as i32)?;
    put_i32(out, commit.segments.as_slice().len() as i32)
}

/// All but the checksum.
fn unsealed(alloc: Global, commit: &Commit) -> Result<Vec<u8>, OutOfMemory>
    ensures bytes { IfOk result (λ bytes. bytes.items ≡ unsealed_bytes commit.now) }
    ensures commit { IfOk result (λ _. IsCommit commit.now) }
{
    let mut out = Vec::new(alloc);
    put_heading(&mut out, commit)?;
    put_lines(alloc, &mut out, commit.segments.as_slice())?;
    put_map(&mut out, commit.user.as_slice())?;
    Ok(out)
}

/// Appends the checksum of the bytes before.
fn put_seal(out: &mut Vec<u8>) -> Result<(), OutOfMemory>
    ensures { IfOk result (λ _. out.new.items ≡ out.old.items ++ spelling int64 (pos (checksum out.old.items))) }
{
    let sum = crc32(out.as_slice());
    put_i64(out, i64::from(sum))
}

/// The bytes of the `segments_N` file of a commit (format page, "segments_N"): its one spelling, which reads as exactly this
/// commit. An `Err` is want of memory.
pub fn write(alloc: Global, commit: &Commit) -> Result<Vec<u8>, OutOfMemory>
    ensures spelling { IfOk result (λ bytes. bytes.items ≡ commit_bytes commit.now) }
    ensures reads { IfOk result (λ bytes. Reads (commit_plan bytes.items) bytes.items commit.now) }
{
    let mut out = unsealed(alloc, commit)?;
    put_seal(&mut out)?;
    Ok(out)
}

/// The same bytes while the commit is pending: every bit of the last one is turned (format page, "segments_N"). An `Err` is want
/// of memory.
pub fn write_pending(alloc: Global, commit: &Commit) -> Result<Vec<u8>, OutOfMemory>
    ensures { IfOk result (λ bytes. bytes.items ≡ pending (commit_bytes commit.now)) }
{
    let mut bytes = write(alloc, commit)?;
    match bytes.pop() {
        None => Ok(bytes),
        Some(last) => {
            bytes.push(!last)?;
            Ok(bytes)
        }
    }
}
