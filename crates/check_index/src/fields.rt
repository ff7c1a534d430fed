//! The field table of a segment (format page, "Field tables").
ghost use Rattle.std.specs.Prelude.{◌≡◌};
ghost use Rattle.lu_types.specs.FilePlans.{Judges};
ghost use Rattle.segment_infos.specs.Values.{IsLine};
ghost use Rattle.check_index.specs.Documents.{field_files, norm_fields as counted_norm_fields};
ghost use Rattle.check_index.specs.Locating.{index_files_of};

use crate::locating::IndexParts;
use crate::needed::needed;
use lu_types::{CodecFault, FieldTable, FileKind};
use segment_infos::SegInfo;
use std::alloc::Global;

/// For how many fields the line counts norm generations, where it counts any.
fn norm_fields(info: &SegInfo) -> Option<u32>
    requires { IsLine info.now }
    ensures { result ≡ counted_norm_fields info.now }
{
    match &info.norm_gens {
        None => None,
        Some(generations) => Some(generations.as_slice().len() as u32),
    }
}

/// The field table of a segment.
pub fn open_fields<'a>(
    alloc: Global,
    files: &IndexParts<'a>,
    info: &SegInfo,
) -> Result<FieldTable<'a>, CodecFault>
    requires { IsLine info.now }
    ensures { Judges (λ fields. fields) (field_files (index_files_of files.now) info.now) result }
{
    match needed(files.fnm, FileKind::Fnm) {
        Err(fault) => Err(fault),
        Ok(fnm) => field_infos::check(alloc, fnm, info.has_prox, norm_fields(info)),
    }
}
