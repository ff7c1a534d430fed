//! Which names commits refer to, and which may be removed (format page, "Names of files").
ghost use Rattle.std.specs.Prelude.{◌≡◌, ◌++◌, [], ◌∷◌, ◌<◌, ◌^◌, List, length, map, filter, flat_map, All, IfOk, OnOk, string_bytes};
ghost use Rattle.segment_infos.specs.declared.naming.LuceneName.{LuceneName};
ghost use Rattle.segment_infos.specs.Values.{IsLine, AreNormGens};
ghost use Rattle.segment_infos.specs.Referring.{names_of_parts, own_part_names, store_part_names, del_names, sep_names_from, norm_names, line_names, referred_names, names_kept_by, kept_names as names_kept, removable as removable_names};
ghost use Rattle.segment_infos.specs.Keeping.{kept_value, HasOwnSpelling, HasNames, is_free as is_free_of};

use crate::commit::Commit;
use crate::infos::SegInfo;
use crate::lists::NormGens;
use crate::name_set::NameSet;
use crate::naming::{LuceneName, name_value};
use lu_prims::OutOfMemory;
use lu_types::{FileKind, SharedStore};
use std::alloc::Global;

/// The files that hold documents: stored values, and vectors.
const DOCUMENT_KINDS: [FileKind; 5] = [
    FileKind::Fdx,
    FileKind::Fdt,
    FileKind::Tvx,
    FileKind::Tvd,
    FileKind::Tvf,
];

/// The other parts, but for the two that hold parts.
const INDEX_KINDS: [FileKind; 6] = [
    FileKind::Fnm,
    FileKind::Tis,
    FileKind::Tii,
    FileKind::Frq,
    FileKind::Prx,
    FileKind::Nrm,
];

/// A commit that is kept, with the generation that it is kept under.
#[derive(Clone, Copy)]
pub struct Kept<'a> {
    pub generation: u64,
    pub commit: &'a Commit,
}

/// Adds the parts of a segment of these kinds.
fn push_parts(
    names: &mut Vec<LuceneName>,
    number: u32,
    kinds: &[FileKind],
) -> Result<(), OutOfMemory>
    ensures { OnOk result (names.new.items ≡ names.old.items ++ names_of_parts number kinds.now) }
{
    for kind in kinds {
        names.push(LuceneName::Part(number, *kind))?;
    }
    Ok(())
}

/// Adds the parts of a segment's own number that its line refers to.
fn push_own_parts(names: &mut Vec<LuceneName>, line: &SegInfo) -> Result<(), OutOfMemory>
    ensures { OnOk result (names.new.items ≡ names.old.items ++ own_part_names line.now) }
{
    if line.compound {
        return push_parts(names, line.number, &[FileKind::Cfs]);
    }
    push_parts(names, line.number, &INDEX_KINDS)?;
    if line.store.is_none() {
        push_parts(names, line.number, &DOCUMENT_KINDS)?;
    }
    Ok(())
}

/// Adds the files of a shared store.
fn push_store_parts(
    names: &mut Vec<LuceneName>,
    store: &Option<SharedStore>,
) -> Result<(), OutOfMemory>
    ensures { OnOk result (names.new.items ≡ names.old.items ++ store_part_names store.now) }
{
    match store {
        None => Ok(()),
        Some(store) => {
            if store.compound {
                push_parts(names, store.number, &[FileKind::Cfx])
            } else {
                push_parts(names, store.number, &DOCUMENT_KINDS)
            }
        }
    }
}

/// Adds the name of the file of deleted documents of a segment with a number, where it has one (format page, "Names of files").
/// `OutOfMemory` says only that there was no memory.
pub fn push_del_names(
    names: &mut Vec<LuceneName>,
    number: u32,
    generation: Option<u64>,
) -> Result<(), OutOfMemory>
    ensures { OnOk result (names.new.items ≡ names.old.items ++ del_names number generation) }
{
    if let Some(generation) = generation {
        names.push(LuceneName::Del(number, generation))?;
    }
    Ok(())
}

/// Adds the files of the norms that stand in files of their own.
fn push_norms(
    names: &mut Vec<LuceneName>,
    number: u32,
    generations: &[i64],
) -> Result<(), OutOfMemory>
    requires { length generations.now < 2 ^ 31 }
    ensures { OnOk result (names.new.items ≡ names.old.items ++ sep_names_from number 0 generations.now) }
{
    for (field, generation) in generations.iter().enumerate() {
        if *generation > 0 {
            names.push(LuceneName::Sep(number, *generation as u64, field as u32))?;
        }
    }
    Ok(())
}

/// Adds the names of the files of norms that stand alone, of the segment with a number, field by field (format page, "Names of files").
/// `OutOfMemory` says only that there was no memory.
pub fn push_norm_names(
    names: &mut Vec<LuceneName>,
    number: u32,
    generations: &Option<NormGens>,
) -> Result<(), OutOfMemory>
    requires { AreNormGens generations.now }
    ensures { OnOk result (names.new.items ≡ names.old.items ++ norm_names number generations.now) }
{
    match generations {
        None => Ok(()),
        Some(generations) => push_norms(names, number, generations.as_slice()),
    }
}

/// Adds the names that the line of a segment refers to.
fn push_line(names: &mut Vec<LuceneName>, line: &SegInfo) -> Result<(), OutOfMemory>
    requires { IsLine line.now }
    ensures { OnOk result (names.new.items ≡ names.old.items ++ line_names line.now) }
{
    push_own_parts(names, line)?;
    push_store_parts(names, &line.store)?;
    push_del_names(names, line.number, line.del_gen)?;
    push_norm_names(names, line.number, &line.norm_gens)
}

/// Adds the names that the lines refer to.
fn push_lines(names: &mut Vec<LuceneName>, lines: &[SegInfo]) -> Result<(), OutOfMemory>
    requires { All IsLine lines.now }
    ensures { OnOk result (names.new.items ≡ names.old.items ++ flat_map line_names lines.now) }
{
    for line in lines {
        push_line(names, line)?;
    }
    Ok(())
}

/// Adds the names that a commit refers to.
fn push_commit(names: &mut Vec<LuceneName>, commit: &Commit) -> Result<(), OutOfMemory>
    ensures names { OnOk result (names.new.items ≡ names.old.items ++ referred_names commit.now) }
    ensures own { OnOk result (All HasOwnSpelling (referred_names commit.now)) }
{
    push_lines(names, commit.segments.as_slice())
}

/// Adds the name of a commit that is kept, and those that it refers to.
fn push_kept(names: &mut Vec<LuceneName>, kept: &Kept<'_>) -> Result<(), OutOfMemory>
    ensures names { OnOk result (names.new.items ≡ names.old.items ++ names_kept_by (kept_value kept.now)) }
    ensures own { OnOk result (All HasOwnSpelling (names_kept_by (kept_value kept.now))) }
{
    names.push(LuceneName::Commit(kept.generation))?;
    push_commit(names, kept.commit)
}

/// The names that some commits keep.
fn kept_names(alloc: Global, kept: &[Kept<'_>]) -> Result<Vec<LuceneName>, OutOfMemory>
    ensures names { IfOk result (λ names. names.items ≡ names_kept (map kept_value kept.now)) }
    ensures own { IfOk result (λ names. All HasOwnSpelling names.items) }
{
    let mut names = Vec::new(alloc);
    for commit in kept {
        push_kept(&mut names, commit)?;
    }
    Ok(names)
}

/// Whether the text is a Lucene name that is none of the set.
fn is_free(kept: &NameSet, text: &str) -> bool
    ensures { (all : List LuceneName) → All HasOwnSpelling all → HasNames kept.now all → result ≡ is_free_of all text.now }
{
    match name_value(text) {
        None => false,
        Some(name) => !kept.has(&name),
    }
}

/// The names, in order, that are Lucene names and none of the set.
fn free_names(alloc: Global, names: &[String], kept: &NameSet) -> Result<Vec<String>, OutOfMemory>
    ensures { IfOk result (λ found. (all : List LuceneName) → All HasOwnSpelling all → HasNames kept.now all
        → map string_bytes found.items ≡ filter (is_free_of all) (map string_bytes names.now)) }
{
    let mut found = Vec::new(alloc);
    for name in names {
        if is_free(kept, name.as_str()) {
            found.push(String::from_str(alloc, name.as_str())?)?;
        }
    }
    Ok(found)
}

/// The names, in order, that may be removed where these commits are kept: the Lucene names that are no commit's own and that none
/// refers to (format page, "Names of files"). Takes time by the names, and by what the commits say, each times a logarithm of
/// what the commits refer to. An `Err` is want of memory.
pub fn removable_all(
    alloc: Global,
    names: &[String],
    kept: &[Kept<'_>],
) -> Result<Vec<String>, OutOfMemory>
    ensures { IfOk result (λ found. map string_bytes found.items ≡ removable_names (map kept_value kept.now) (map string_bytes names.now)) }
{
    let kept = kept_names(alloc, kept)?;
    let kept = NameSet::of(alloc, kept.as_slice())?;
    free_names(alloc, names, &kept)
}

/// The same where one commit is kept.
pub fn removable(
    alloc: Global,
    names: &[String],
    commit: &Commit,
    generation: u64,
) -> Result<Vec<String>, OutOfMemory>
    ensures { IfOk result (λ found. map string_bytes found.items
        ≡ removable_names (record { generation = generation; commit = commit.now } ∷ []) (map string_bytes names.now)) }
{
    removable_all(alloc, names, &[Kept { generation, commit }])
}
