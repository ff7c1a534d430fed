//! Numbers for new files: above those that are in use.
ghost use Rattle.std.specs.Prelude.{◌≡◌, ◌≤◌, ◌<◌, ◌^◌, IfSome};
ghost use Rattle.std.specs.List.{flat_map};
ghost use Rattle.lu_dir.specs.Loading.{texts};
ghost use Rattle.segment_infos.specs.LuceneNames.{IsName};
ghost use Rattle.lu_folder.specs.Numbers.{above};
ghost use Rattle.lu_folder.specs.Drawing.{line_numbers, next_generation as next_generation_of, next_segment as next_segment_of, next_del as next_del_of};
ghost use Rattle.lu_folder.specs.Counting.{counted_number as number_counted, counted_number_in as number_counted_in, drawn as number_drawn};

use lu_types::GREATEST_SEGMENT;
use segment_infos::{Commit, LuceneName, SegInfo, name_value};

/// Generations are below this one.
const GENERATION_LIMIT: u64 = 1 << 63;

/// Which names count, and which number of them.
#[derive(Clone, Copy)]
enum Counted {
    /// The generations of commits.
    Commits,
    /// The segments of all files of segments.
    Segments,
    /// The generations of the files of deleted documents of the segment with this number.
    Deletions(u32),
}

/// The number of a name that counts.
fn counted_number(counted: Counted, name: LuceneName) -> Option<u64>
    requires { IsName name }
    ensures number { result ≡ number_counted counted name }
    ensures bound { IfSome result (λ number. number < 2 ^ 63) }
{
    match counted {
        Counted::Commits => match name {
            LuceneName::Commit(generation) => Some(generation),
            _ => None,
        },
        Counted::Segments => match name {
            LuceneName::Commit(_) => None,
            LuceneName::Part(segment, _) => Some(segment as u64),
            LuceneName::Del(segment, _) => Some(segment as u64),
            LuceneName::Sep(segment, _, _) => Some(segment as u64),
        },
        Counted::Deletions(number) => match name {
            LuceneName::Del(segment, generation) if segment == number => Some(generation),
            _ => None,
        },
    }
}

/// The number of a text that counts, where it is a name.
fn counted_number_in(counted: Counted, text: &str) -> Option<u64>
    ensures number { result ≡ number_counted_in counted text.now }
    ensures bound { IfSome result (λ number. number < 2 ^ 63) }
{
    match name_value(text) {
        None => None,
        Some(name) => counted_number(counted, name),
    }
}

/// The least number that is at least this one, and above each number of the names that counts.
fn drawn(counted: Counted, least: u64, names: &[String]) -> u64
    requires { least ≤ 2 ^ 63 }
    ensures number { result ≡ number_drawn counted least (texts names.now) }
    ensures bound { result ≤ 2 ^ 63 }
{
    let mut number = least;
    for name in names {
        if let Some(used) = counted_number_in(counted, name.as_str()) {
            number = number.max(used + 1);
        }
    }
    number
}

/// The generation of the next commit of a folder with these names: one more than the greatest of them, or 1 where there is
/// none. `None` comes exactly where the greatest is 2^63 - 1. Takes no memory.
pub fn next_generation(names: &[String]) -> Option<u64>
    ensures { result ≡ next_generation_of (texts names.now) }
{
    let number = drawn(Counted::Commits, 1, names);
    if number < GENERATION_LIMIT {
        Some(number)
    } else {
        None
    }
}

/// The least number that is at least this one, and above those that the line of a segment has: its own, and that of its store.
fn above_line(least: u64, line: &SegInfo) -> u64
    ensures number { result ≡ above least (line_numbers line.now) }
    ensures bound { least ≤ 2 ^ 32 → result ≤ 2 ^ 32 }
{
    let number = least.max(line.number as u64 + 1);
    match &line.store {
        None => number,
        Some(store) => number.max(store.number as u64 + 1),
    }
}

/// The least number that is at least the name counter of a commit, and above those that its segments have.
fn above_commit(commit: &Commit) -> u64
    ensures number { result ≡ above commit.now.counter (flat_map line_numbers commit.now.segments) }
    ensures bound { result ≤ 2 ^ 32 }
{
    let mut number = commit.counter as u64;
    for line in commit.segments.as_slice() {
        number = above_line(number, line);
    }
    number
}

/// The number of the first new segment of a folder with these names, whose current commit is this one: the least that is at
/// least the commit's name counter, and above the number of every segment and store of the commit and of every listed file of
/// a segment. `None` comes exactly where that is over 2^31 - 2. Takes no memory.
pub fn next_segment(names: &[String], commit: &Commit) -> Option<u32>
    ensures { result ≡ next_segment_of (texts names.now) commit.now }
{
    let number = drawn(Counted::Segments, above_commit(commit), names);
    if number <= GREATEST_SEGMENT as u64 {
        Some(number as u32)
    } else {
        None
    }
}

/// The generation of a new file of deleted documents of a segment: the least that is above the generation of its line and above
/// those of all its listed files of deleted documents, and at least 1. `None` comes exactly where that is over 2^63 - 1. Takes
/// no memory.
pub fn next_del(names: &[String], info: &SegInfo) -> Option<u64>
    ensures { result ≡ next_del_of (texts names.now) info.now }
{
    let least = match info.del_gen {
        None => 1,
        Some(generation) if generation < GENERATION_LIMIT => generation + 1,
        Some(_) => return None,
    };
    let generation = drawn(Counted::Deletions(info.number), least, names);
    if generation < GENERATION_LIMIT {
        Some(generation)
    } else {
        None
    }
}
