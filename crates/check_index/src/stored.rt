//! The stored documents of a segment: its own, or its part of a shared store (format page, "Stored documents").
ghost use Rattle.std.specs.Prelude.{◌≡◌, ◌<◌, ◌^◌, ℕ, length, Some, None, IfOk, MatchResult, option_copied};
ghost use Rattle.lu_types.specs.FilePlans.{StandFor, IsFaultAmong, Judges, missing as spot_of_missing};
ghost use Rattle.lu_types.specs.declared.kind.FileKind.TheVariants.{Fdt};
ghost use Rattle.check_index.specs.Files.{IsShort};
ghost use Rattle.check_index.specs.Documents.{stored_files, window_of};

use crate::locating::DocumentParts;
use crate::needed::{missing_file, needed};
use lu_types::{CodecFault, FileKind, SharedStore, Spot, Window};
use segment_infos::SegInfo;
use stored_fields::{StoredView, check_places, stored_total};

/// The window of a shared store that a segment of so many documents takes.
pub fn window(store: &SharedStore, size: u32) -> Window
    ensures { result ≡ window_of store.now size }
{
    Window {
        offset: store.offset,
        count: size,
    }
}

/// The documents of the two files, both of which are there, in a segment with so many fields.
fn check_store<'a>(
    fdx: &'a [u8],
    fdt: &'a [u8],
    info: &SegInfo,
    fields: u32,
) -> Result<StoredView<'a>, Spot>
    requires { length fdx.now < 2 ^ 31 }
    ensures files { MatchResult result
        (λ view. StandFor (stored_files info.now.store info.now.size fields (Some fdx.entry.now) (Some fdt.entry.now)) view)
        (λ spot. IsFaultAmong (stored_files info.now.store info.now.size fields (Some fdx.entry.now) (Some fdt.entry.now)) spot) }
    ensures count { IfOk result (λ view. length view ≡ info.now.size) }
{
    match &info.store {
        None => StoredView::check(fdx, fdt, fields, info.size),
        Some(store) => StoredView::check_window(fdx, fdt, fields, window(store, info.size)),
    }
}

/// Checks the places of the documents alone.
fn check_store_places(fdx: &[u8], info: &SegInfo) -> Result<(), Spot>
    requires { length fdx.now < 2 ^ 31 }
    ensures { (fields : ℕ) → MatchResult result
        (λ _. IsFaultAmong (stored_files info.now.store info.now.size fields (Some fdx.now) None) (spot_of_missing Fdt))
        (λ spot. IsFaultAmong (stored_files info.now.store info.now.size fields (Some fdx.now) None) spot) }
{
    match &info.store {
        None => {
            let whole = Window {
                offset: 0,
                count: info.size,
            };
            check_places(fdx, info.size, whole)
        }
        Some(store) => check_places(fdx, stored_total(fdx), window(store, info.size)),
    }
}

/// The first fault of a store whose file of documents is not there: one of its file of places, or else that.
fn fault_without_documents(fdx: &[u8], info: &SegInfo) -> Spot
    requires { length fdx.now < 2 ^ 31 }
    ensures { (fields : ℕ) → IsFaultAmong (stored_files info.now.store info.now.size fields (Some fdx.now) None) result }
{
    match check_store_places(fdx, info) {
        Err(spot) => spot,
        Ok(()) => missing_file(FileKind::Fdt),
    }
}

/// The stored documents of a segment with so many fields.
pub fn open_stored<'a>(
    files: &DocumentParts<'a>,
    info: &SegInfo,
    fields: u32,
) -> Result<StoredView<'a>, CodecFault>
    requires { IsShort (option_copied files.now.fdx) }
    ensures judged { Judges (λ view. view) (stored_files info.now.store info.now.size fields (option_copied files.now.fdx) (option_copied files.now.fdt)) result }
    ensures count { IfOk result (λ view. length view ≡ info.now.size) }
{
    let fdx = match needed(files.fdx, FileKind::Fdx) {
        Err(fault) => return Err(fault),
        Ok(fdx) => fdx,
    };
    let Some(fdt) = files.fdt else {
        return Err(CodecFault::Spot(fault_without_documents(fdx, info)));
    };
    match check_store(fdx, fdt, info, fields) {
        Err(spot) => Err(CodecFault::Spot(spot)),
        Ok(view) => Ok(view),
    }
}
