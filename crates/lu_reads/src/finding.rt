//! The files of a segment among those that were loaded for it.
ghost use Rattle.std.specs.Prelude.{◌≡◌, ℕ, IfOk, length, map, unwrap_or, []};
ghost use Rattle.std.specs.List.{range_with_len};
ghost use Rattle.std.specs.Option.{option_copied};
ghost use Rattle.segment_infos.specs.Values.{IsLine};
ghost use Rattle.check_index.specs.Files.{folder_of};
ghost use Rattle.lu_reads.specs.Finding.{file_among, files_among};

use crate::naming::file_name;
use check_index::{Parts, SepFiles};
use lu_dir::Loaded;
use lu_prims::OutOfMemory;
use lu_types::FileKind;
use segment_infos::{SegInfo, name_text};
use std::alloc::Global;

/// The file of a kind, where it is there.
fn file<'a>(
    alloc: Global,
    loaded: &'a Loaded,
    info: &SegInfo,
    kind: FileKind,
) -> Result<Option<&'a [u8]>, OutOfMemory>
    requires { IsLine info.now }
    ensures { IfOk result (λ file. option_copied file ≡ file_among loaded.now.names loaded.now.found info.now kind) }
{
    let Some(name) = file_name(info, kind) else {
        return Ok(None);
    };
    let text = name_text(alloc, &name)?;
    Ok(loaded.get(text.as_str()))
}

/// How many norm generations the line counts.
fn counted_norms(info: &SegInfo) -> u32
    requires { IsLine info.now }
    ensures { result ≡ length (unwrap_or info.now.norm_gens []) }
{
    match &info.norm_gens {
        Some(generations) => generations.as_slice().len() as u32,
        None => 0,
    }
}

/// The files of norms of their own.
fn separate<'a>(
    alloc: Global,
    loaded: &'a Loaded,
    info: &SegInfo,
) -> Result<SepFiles<'a>, OutOfMemory>
    requires { IsLine info.now }
    ensures { IfOk result (λ files. files ≡ map (λ field. file_among loaded.now.names loaded.now.found info.now (FileKind.Sep field))
        (range_with_len 0 (length (unwrap_or info.now.norm_gens [])))) }
{
    let mut files = SepFiles::new(alloc);
    for field in 0..counted_norms(info) {
        files.push(file(alloc, loaded, info, FileKind::Sep(field))?)?;
    }
    Ok(files)
}

/// All files by which the segment is checked.
pub fn found_parts<'a>(
    alloc: Global,
    loaded: &'a Loaded,
    info: &SegInfo,
) -> Result<Parts<'a>, OutOfMemory>
    requires { IsLine info.now }
    ensures { IfOk result (λ parts. folder_of parts ≡ files_among loaded.now.names loaded.now.found info.now) }
{
    Ok(Parts {
        cfs: file(alloc, loaded, info, FileKind::Cfs)?,
        cfx: file(alloc, loaded, info, FileKind::Cfx)?,
        fnm: file(alloc, loaded, info, FileKind::Fnm)?,
        fdx: file(alloc, loaded, info, FileKind::Fdx)?,
        fdt: file(alloc, loaded, info, FileKind::Fdt)?,
        tis: file(alloc, loaded, info, FileKind::Tis)?,
        tii: file(alloc, loaded, info, FileKind::Tii)?,
        frq: file(alloc, loaded, info, FileKind::Frq)?,
        prx: file(alloc, loaded, info, FileKind::Prx)?,
        nrm: file(alloc, loaded, info, FileKind::Nrm)?,
        separate: separate(alloc, loaded, info)?,
        del: file(alloc, loaded, info, FileKind::Del)?,
        tvx: file(alloc, loaded, info, FileKind::Tvx)?,
        tvd: file(alloc, loaded, info, FileKind::Tvd)?,
        tvf: file(alloc, loaded, info, FileKind::Tvf)?,
    })
}
