//! The files of a segment are checked in their order (format page, "How a fault is found").
ghost use Rattle.std.specs.Prelude.{◌≡◌, ◌<◌, ◌^◌, length, IfOk, IfSome, option_copied};
ghost use Rattle.lu_types.specs.FilePlans.{Judges};
ghost use Rattle.term_dict.specs.Facts.{AreGoodTerms};
ghost use Rattle.term_index.specs.Seeking.{AreChecked};
ghost use Rattle.segment_infos.specs.Values.{IsLine};
ghost use Rattle.check_index.specs.Files.{folder_of, IsShort, AreShort, AreShortParts};
ghost use Rattle.check_index.specs.Locating.{part_files_of};
ghost use Rattle.check_index.specs.Terms.{lists_in, AreListed};
ghost use Rattle.check_index.specs.Positions.{ArePositions};
ghost use Rattle.check_index.specs.Vectors.{store_part, IsWithin, HaveSome};
ghost use Rattle.check_index.specs.Segments.{content_files, side_files, segment_files, IsJudged};
ghost use Rattle.check_index.specs.Opened.{contents_of, columns_of};

use crate::deletions::open_deletions;
use crate::fields::open_fields;
use crate::locating::{Located, locate};
use crate::norms::open_norms;
use crate::occurrences::open_positions;
use crate::parts::{CheckFault, Parts};
use crate::standing::{OpenColumns, OpenContents, Standing};
use crate::stored::open_stored;
use crate::terms::open_terms;
use crate::vectors::open_vectors;
use lu_types::{CodecFault, Fault, FieldTable};
use segment_infos::SegInfo;
use std::alloc::Global;

/// The field table, the stored documents and the terms of a segment.
fn open_contents<'a>(
    alloc: Global,
    files: &Located<'a>,
    info: &SegInfo,
) -> Result<OpenContents<'a>, CodecFault>
    requires line { IsLine info.now }
    requires short { AreShortParts (part_files_of files.now) }
    ensures judged { Judges (contents_of info.now.size) (content_files (part_files_of files.now) info.now) result }
    ensures checked { IfOk result (λ o. AreChecked o.terms.tii.now o.terms.terms o.fields) }
    ensures good { IfOk result (λ o. AreGoodTerms o.fields info.now.size o.terms.terms) }
    ensures small { IfOk result (λ o. length o.terms.frq.now < 2 ^ 31) }
    ensures posted { IfOk result (λ o. ArePositions o.fields info.now.size o.terms.terms (lists_in o.fields info.now.size o.terms.terms o.terms.frq.now) (option_copied o.prx)) }
    ensures listed { IfOk result (λ o. AreListed o.fields info.now.size o.terms.terms o.terms.frq.now (lists_in o.fields info.now.size o.terms.terms o.terms.frq.now)) }
{
    let fields = match open_fields(alloc, &files.index, info) {
        Err(fault) => return Err(fault),
        Ok(fields) => fields,
    };
    let stored = match open_stored(&files.documents, info, fields.count()) {
        Err(fault) => return Err(fault),
        Ok(stored) => stored,
    };
    let terms = match open_terms(alloc, &files.index, info.size, &fields) {
        Err(fault) => return Err(fault),
        Ok(terms) => terms,
    };
    match open_positions(alloc, files.index.prx, info, &fields, &terms) {
        Err(fault) => Err(fault),
        Ok(prx) => Ok(OpenContents {
            fields,
            stored,
            terms,
            prx,
        }),
    }
}

/// The norms, the deletions and the vectors of a segment with these fields.
fn open_columns<'a>(
    alloc: Global,
    parts: &Parts<'a>,
    files: &Located<'a>,
    info: &SegInfo,
    fields: &FieldTable<'_>,
) -> Result<OpenColumns<'a>, CodecFault>
    requires short { IsShort (option_copied files.now.documents.fdx) }
    requires within { IsWithin (store_part info.now.store info.now.size (option_copied files.now.documents.fdx)) }
    ensures judged { Judges (columns_of info.now.size) (side_files (folder_of parts.now) (part_files_of files.now) info.now fields.now) result }
    ensures norms { IfOk result (λ o. length o.norms ≡ length fields.now) }
    ensures live { IfOk result (λ o. o.live.size ≡ info.now.size) }
    ensures vectors { IfOk result (λ o. IfSome o.vectors HaveSome) }
{
    let norms = match open_norms(alloc, files.index.nrm, &parts.separate, info, fields) {
        Err(fault) => return Err(fault),
        Ok(norms) => norms,
    };
    let live = match open_deletions(parts.del, info) {
        Err(fault) => return Err(fault),
        Ok(live) => live,
    };
    match open_vectors(alloc, &files.documents, info, fields) {
        Err(fault) => Err(fault),
        Ok(vectors) => Ok(OpenColumns {
            norms,
            live,
            vectors,
        }),
    }
}

/// Checks all files.
fn check_files<'a>(
    alloc: Global,
    parts: &Parts<'a>,
    info: &SegInfo,
) -> Result<Standing<'a>, CodecFault>
    requires line { IsLine info.now }
    requires short { AreShort (folder_of parts.now) }
    ensures { Judges (λ segment. segment) (segment_files (folder_of parts.now) info.now) result }
{
    let files = match locate(alloc, parts, info) {
        Err(fault) => return Err(fault),
        Ok(files) => files,
    };
    let contents = match open_contents(alloc, &files, info) {
        Err(fault) => return Err(fault),
        Ok(contents) => contents,
    };
    match open_columns(alloc, parts, &files, info, &contents.fields) {
        Err(fault) => Err(fault),
        Ok(columns) => Ok(Standing {
            contents,
            columns,
            size: info.size,
        }),
    }
}

/// Checks the files of a segment (format page, "How a fault is found"): what they stand for together, or the first fault. `segment` is the segment's place in the list of the commit, and `info` its line there.
pub fn check_segment<'a>(
    alloc: Global,
    parts: Parts<'a>,
    segment: u32,
    info: &SegInfo,
) -> Result<Standing<'a>, CheckFault>
    requires line { IsLine info.now }
    requires short { AreShort (folder_of parts) }
    ensures { IsJudged (folder_of parts.entry) segment info.now result }
{
    match check_files(alloc, &parts, info) {
        Ok(standing) => Ok(standing),
        Err(CodecFault::Spot(spot)) => Err(CheckFault::Fault(Fault { segment, spot })),
        Err(CodecFault::OutOfMemory) => Err(CheckFault::OutOfMemory),
    }
}
