//! The names that files of a commit have in the folder (format page, "Names of files").
ghost use Rattle.std.specs.Prelude.{◌≡◌, [], IfOk, IfSome, string_bytes, unwrap_or, slice_get};
ghost use Rattle.segment_infos.specs.LuceneNames.{IsName};
ghost use Rattle.segment_infos.specs.Values.{IsLine};
ghost use Rattle.lu_reads.specs.Naming.{owner_of, norm_name as name_of_norms, file_name as name_of_file, shown as shown_name, commit_shown};

use lu_prims::OutOfMemory;
use lu_types::FileKind;
use segment_infos::{LuceneName, SegInfo, name_text};
use std::alloc::Global;

/// Whose files of documents a segment has: the number of its shared store, or its own.
fn owner(info: &SegInfo) -> u32
    ensures { result ≡ owner_of info.now.store info.now.number }
{
    match &info.store {
        Some(store) => store.number,
        None => info.number,
    }
}

/// The file of the norms of the field with this number, where they stand in a file of their own.
fn norm_name(info: &SegInfo, field: u32) -> Option<LuceneName>
    requires { IsLine info.now }
    ensures is { result ≡ name_of_norms info.now.number field (slice_get (unwrap_or info.now.norm_gens []) field) }
    ensures named { IfSome result IsName }
{
    let Some(generations) = &info.norm_gens else {
        return None;
    };
    match generations.as_slice().get(field as usize) {
        Some(generation) if *generation > 0 => {
            Some(LuceneName::Sep(info.number, *generation as u64, field))
        }
        _ => None,
    }
}

/// The name that the segment's file of a kind has in the folder, where it is outside a compound file: document files of a
/// shared store have the store's. `None` where the line has no such file.
pub fn file_name(info: &SegInfo, kind: FileKind) -> Option<LuceneName>
    requires { IsLine info.now }
    ensures is { result ≡ name_of_file info.now kind }
    ensures named { IfSome result IsName }
{
    match kind {
        FileKind::Commit => None,
        FileKind::Sep(field) => norm_name(info, field),
        FileKind::Del => match info.del_gen {
            Some(generation) => Some(LuceneName::Del(info.number, generation)),
            None => None,
        },
        FileKind::Cfx
        | FileKind::Fdx
        | FileKind::Fdt
        | FileKind::Tvx
        | FileKind::Tvd
        | FileKind::Tvf => Some(LuceneName::Part(owner(info), kind)),
        _ => Some(LuceneName::Part(info.number, kind)),
    }
}

/// The spelling of a name, and no text where there is none.
pub fn shown(alloc: Global, name: Option<LuceneName>) -> Result<String, OutOfMemory>
    requires { IfSome name IsName }
    ensures { IfOk result (λ text. string_bytes text ≡ shown_name name) }
{
    match name {
        Some(name) => name_text(alloc, &name),
        None => Ok(String::new(alloc)),
    }
}

/// The name of the commit of this generation, and no text where the number is that of none.
pub fn commit_text(alloc: Global, generation: u64) -> Result<String, OutOfMemory>
    ensures { IfOk result (λ text. string_bytes text ≡ commit_shown generation) }
{
    if 0 < generation && generation < 1 << 63 {
        name_text(alloc, &LuceneName::Commit(generation))
    } else {
        Ok(String::new(alloc))
    }
}
