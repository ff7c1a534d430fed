//! The commits among the names of a folder.
ghost use Rattle.std.specs.Prelude.{◌≡◌, ◌++◌, map, IfOk, OnOk, string_bytes};
ghost use Rattle.segment_infos.specs.Generations.{generation_of as generation_of_name, generation_in as generation_in_text, listed_generations as generations_listed, AreGenerations};

use crate::naming::{LuceneName, name_value};
use lu_prims::OutOfMemory;
use std::alloc::Global;

/// The generation of the commit; `None` where the name is that of none.
fn generation_of(name: LuceneName) -> Option<u64>
    ensures { result ≡ generation_of_name name }
{
    match name {
        LuceneName::Commit(generation) => Some(generation),
        LuceneName::Part(_, _) | LuceneName::Del(_, _) | LuceneName::Sep(_, _, _) => None,
    }
}

/// The generation of the commit whose name the text is; `None` where it is that of none.
fn generation_in(text: &str) -> Option<u64>
    ensures { result ≡ generation_in_text text.now }
{
    let name = name_value(text)?;
    generation_of(name)
}

/// The generations of all names of commits, as the names stand.
fn listed_generations(alloc: Global, names: &[String]) -> Result<Vec<u64>, OutOfMemory>
    ensures { IfOk result (λ found. found.items ≡ generations_listed (map string_bytes names.now)) }
{
    let mut found = Vec::new(alloc);
    for name in names {
        if let Some(generation) = generation_in(name.as_str()) {
            found.push(generation)?;
        }
    }
    Ok(found)
}

/// The N of all names `segments_N`, the greatest first; a name that stands twice gives its N twice (format page, "Names of files").
/// An `Err` is want of memory.
pub fn generations(alloc: Global, names: &[String]) -> Result<Vec<u64>, OutOfMemory>
    ensures { IfOk result (λ found. AreGenerations (map string_bytes names.now) found.items) }
{
    let mut found = listed_generations(alloc, names)?;
    found.sort()?;
    found.reverse();
    Ok(found)
}
