//! The deleted documents of a segment (format page, "Deletions").
ghost use Rattle.std.specs.Prelude.{◌≡◌, IfOk, option_copied};
ghost use Rattle.lu_types.specs.FilePlans.{Judges};
ghost use Rattle.check_index.specs.Documents.{deletion_files};

use crate::needed::needed;
use doc_marks::Live;
use lu_types::{CodecFault, FileKind};
use segment_infos::SegInfo;

/// Which documents of a segment are live: all of them, where its line has no generation of deletions.
pub fn open_deletions<'a>(del: Option<&'a [u8]>, info: &SegInfo) -> Result<Live<'a>, CodecFault>
    ensures judged { Judges (λ live. live.documents) (deletion_files (option_copied del.entry) info.now) result }
    ensures size { IfOk result (λ live. live.size ≡ info.now.size) }
{
    if info.del_gen.is_none() {
        return Ok(Live::all(info.size));
    }
    match needed(del, FileKind::Del) {
        Err(fault) => Err(fault),
        Ok(bytes) => match Live::check_del(bytes, info.size, info.deleted) {
            Err(spot) => Err(CodecFault::Spot(spot)),
            Ok(live) => Ok(live),
        },
    }
}
