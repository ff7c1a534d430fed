//! Reading the directory of a compound file, entry by entry.
ghost use Rattle.std.specs.Prelude.{◌≡◌, ◌<◌, [], length, pos, IfOk, OnOk};
ghost use Rattle.lu_grammar.specs.Answers.{Gives};
ghost use Rattle.lu_grammar.specs.Bytes.{IsBytes};
ghost use Rattle.lu_grammar.specs.Records.{first_broken, read_shape, record_at};
ghost use Rattle.lu_grammar.specs.Plans.{times, read_plan};
ghost use Rattle.lu_types.specs.Judging.{GivesIn};
ghost use Rattle.compound_file.specs.Cfs.{entry as entry_record, is_misplaced as is_misplaced_after, is_apart as is_apart_after, place_of, entry_shape, conditions_after, entry_conditions, entry_kind};
ghost use Rattle.compound_file.specs.Directories.{part_entry_of, IsGoodEntry, AreGoodEntries};

use crate::directory::Directory;
use crate::entry::DirectoryEntry;
use lu_prims::{Bad, Cur};
use lu_types::rules::{CFS_FIRST, CFS_OFFSET, CFS_TWICE, rule_of};
use lu_types::{CodecFault, FileKind, Spot};
use std::alloc::Global;

/// How many bytes a file has, and how many entries its directory.
#[derive(Clone, Copy)]
pub struct Bounds {
    pub size: usize,
    pub count: u32,
}

/// The offset and the name that stand at the cursor.
fn entry_parts<'a>(cur: &mut Cur<'a>) -> Result<(i64, &'a str), Bad>
    ensures { Gives (λ x. entry_record x.0 x.1.now) (read_shape entry_shape cur.old) cur.new result }
{
    let offset = match cur.i64() {
        Ok(offset) => offset,
        Err(bad) => return Err(bad),
    };
    match cur.text() {
        Ok(name) => Ok((offset, name)),
        Err(bad) => Err(bad),
    }
}

/// Whether an offset is negative, below the one before it, or over the length of the file.
fn is_misplaced(size: usize, before: &Directory<'_>, offset: i64) -> bool
    ensures { result ≡ is_misplaced_after size before.now offset }
{
    if offset < 0 {
        return true;
    }
    let start = offset as u64;
    start < before.last_start() as u64 || start > size as u64
}

/// Whether an entry is the last, and the first part does not start just after it.
fn is_apart(count: u32, before: &Directory<'_>, start: usize, after: usize) -> bool
    requires { length before.now < count }
    ensures { result ≡ is_apart_after count before.now (pos start) after }
{
    before.count() + 1 == count as usize && before.first_start(start) != after
}

/// The first rule that an entry breaks after those before it, with a place just after it.
fn entry_broken(
    bounds: Bounds,
    before: &Directory<'_>,
    offset: i64,
    name: &str,
    after: usize,
) -> Option<u16>
    requires { length before.now < bounds.count }
    ensures { result ≡ first_broken (conditions_after bounds.size bounds.count before.now after offset name.now) }
{
    if is_misplaced(bounds.size, before, offset) {
        return Some(CFS_OFFSET);
    }
    if before.find(name).is_some() {
        return Some(CFS_TWICE);
    }
    if is_apart(bounds.count, before, offset as usize, after) {
        return Some(CFS_FIRST);
    }
    None
}

/// The entry at the cursor, after those before it, or the first rule that it breaks.
fn next_entry<'a>(
    cur: &mut Cur<'a>,
    before: &Directory<'a>,
    bounds: Bounds,
) -> Result<DirectoryEntry<'a>, u16>
    requires more { length before.now < bounds.count }
    requires bytes { IsBytes cur.old.rest }
    ensures gives { Gives (λ e. entry_record (pos e.start) e.name.now)
        (record_at entry_shape (entry_conditions bounds.size bounds.count before.now cur.old.place) cur.old) cur.new result }
    ensures good { IfOk result (λ e. IsGoodEntry bounds.size bounds.count before.now (part_entry_of e) cur.new.place) }
    ensures bytes { OnOk result (IsBytes cur.new.rest) }
{
    let (offset, name) = match entry_parts(cur) {
        Ok(parts) => parts,
        Err(bad) => return Err(rule_of(bad)),
    };
    match entry_broken(bounds, before, offset, name, cur.place()) {
        Some(rule) => Err(rule),
        None => Ok(DirectoryEntry {
            name,
            start: offset as usize,
        }),
    }
}

/// The directory from the cursor on, or the first fault of the file.
pub fn read_directory<'a>(
    alloc: Global,
    kind: FileKind,
    cur: &mut Cur<'a>,
    bounds: Bounds,
) -> Result<Directory<'a>, CodecFault>
    requires { IsBytes cur.old.rest }
    ensures gives { GivesIn kind (λ d. d) (read_plan (times (entry_kind bounds.size bounds.count) bounds.count []) cur.old) cur.new result }
    ensures count { IfOk result (λ d. length d ≡ bounds.count) }
    ensures good { IfOk result (λ d. AreGoodEntries bounds.size bounds.count d cur.new.place) }
{
    let mut directory = Directory::new(alloc);
    for _ in 0..bounds.count {
        let place = cur.place();
        match next_entry(cur, &directory, bounds) {
            Err(rule) => return Err(CodecFault::Spot(Spot::at(kind, place, rule))),
            Ok(entry) => directory.push(entry)?,
        }
    }
    Ok(directory)
}
