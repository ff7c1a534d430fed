//! The stored documents of a segment: checked once, and then lent (format page, "Stored documents").
ghost use Rattle.std.specs.Prelude.{◌≡◌, ◌+◌, ◌^◌, ◌<◌, [], length, get_or, IfOk, MatchResult, All};
ghost use Rattle.std.specs.Prelude.{Some};
ghost use Rattle.lu_types.specs.FilePlans.{StandFor, IsFaultAmong};
ghost use Rattle.stored_fields.specs.Values.{HasFields};
ghost use Rattle.stored_fields.specs.Stores.{total_of, store_files, own_files, shared_files};

use crate::document::StoredDoc;
use crate::documents::{check_documents, place_at};
use crate::layout::{HEADER_BYTES, PLACE_BYTES};
use crate::places::check_places;
use lu_prims::Cur;
use lu_types::{Spot, Window};
use std::marker::Model;

/// How many documents a store has, by the length of its `.fdx`: what follows the header, in places of eight bytes.
/// Takes no memory.
pub fn stored_total(fdx: &[u8]) -> u32
    requires { length fdx.now < 2 ^ 31 }
    ensures { result ≡ total_of fdx.now }
{
    (fdx.len().saturating_sub(HEADER_BYTES) / PLACE_BYTES) as u32
}

/// The stored documents of a segment, lent from the two files of their store, which have no fault. Contracts see them as the
/// list of the documents in the segment's window. No call takes memory.
#[derive(Drop)]
pub struct StoredView<'a> {
    /// The places of the documents of the store.
    fdx: &'a [u8],
    /// The documents of the store.
    fdt: &'a [u8],
    /// How many fields the segment has.
    fields: u32,
    /// How many documents the store has.
    total: u32,
    /// Which of them the segment takes.
    window: Window,
}

impl<'a> Model for StoredView<'a> {
    ghost use Rattle.std.specs.Prelude.{◌≡◌, ◌+◌, ◌^◌, ◌<◌, List};
    ghost use Rattle.lu_types.specs.Stores.{windowed};
    ghost use Rattle.stored_fields.specs.Values.{StoredDocument};
    ghost use Rattle.stored_fields.specs.Stores.{documents_in, HaveNoFault};

    ghost Value = { List StoredDocument };

    ghost view = { λ v. windowed v.window (documents_in v.fields v.total v.window v.fdx.now v.fdt.now) };

    ghost invariant = { λ v. HaveNoFault v.fields v.total v.window v.fdx.now v.fdt.now };
}

impl<'a> StoredView<'a> {
    /// Checks the two files of a segment that has its store to itself, with so many fields and so many documents.
    ///
    /// Answers the first fault, of `.fdx` before `.fdt`. Walks `.fdx` alone, and then both.
    pub fn check(
        fdx: &'a [u8],
        fdt: &'a [u8],
        fields: u32,
        documents: u32,
    ) -> Result<StoredView<'a>, Spot>
        ensures files { MatchResult result
            (λ view. StandFor (own_files documents fields (Some fdx.now) (Some fdt.now)) view)
            (λ fault. IsFaultAmong (own_files documents fields (Some fdx.now) (Some fdt.now)) fault) }
        ensures count { IfOk result (λ view. length view ≡ documents) }
        ensures named { IfOk result (λ view. All (HasFields fields) view) }
    {
        let window = Window {
            offset: 0,
            count: documents,
        };
        check_store(fdx, fdt, fields, documents, window)
    }

    /// Checks the two files of a shared store, of which a segment with so many fields takes the documents in the window.
    /// Only of those is asked whether the fields of their values are there; all else is asked of every document.
    ///
    /// Answers the first fault, of `.fdx` before `.fdt`. Walks `.fdx` alone, and then both.
    pub fn check_window(
        fdx: &'a [u8],
        fdt: &'a [u8],
        fields: u32,
        window: Window,
    ) -> Result<StoredView<'a>, Spot>
        requires { length fdx.now < 2 ^ 31 }
        ensures files { MatchResult result
            (λ view. StandFor (shared_files window fields (Some fdx.now) (Some fdt.now)) view)
            (λ fault. IsFaultAmong (shared_files window fields (Some fdx.now) (Some fdt.now)) fault) }
        ensures count { IfOk result (λ view. length view ≡ window.count) }
        ensures named { IfOk result (λ view. All (HasFields fields) view) }
    {
        check_store(fdx, fdt, fields, stored_total(fdx), window)
    }

    /// The same view once more.
    pub fn again(&self) -> StoredView<'a>
        ensures { result ≡ self.now }
    {
        StoredView {
            fdx: self.fdx,
            fdt: self.fdt,
            fields: self.fields,
            total: self.total,
            window: self.window,
        }
    }

    /// How many documents the segment has.
    pub fn documents(&self) -> u32
        ensures { result ≡ length self.now }
    {
        self.window.count
    }

    /// The values of a document, by its number in the segment, from 0. It goes there without walking the documents before.
    pub fn doc(&self, number: u32) -> StoredDoc<'a>
        requires { number < length self.now }
        ensures { result ≡ get_or self.now number [] }
    {
        let place = place_at(self.fdx, self.window.offset + number);
        let mut here = Cur::at(self.fdt, place as usize);
        match here.num() {
            Ok(left) => StoredDoc { here, left },
            Err(_) => unreachable!(),
        }
    }
}

/// Checks the files of a store of so many documents, of which a segment takes those in the window.
fn check_store<'a>(
    fdx: &'a [u8],
    fdt: &'a [u8],
    fields: u32,
    total: u32,
    window: Window,
) -> Result<StoredView<'a>, Spot>
    ensures files { MatchResult result
        (λ view. StandFor (store_files (λ _. total) (λ _. window) fields (Some fdx.now) (Some fdt.now)) view)
        (λ fault. IsFaultAmong (store_files (λ _. total) (λ _. window) fields (Some fdx.now) (Some fdt.now)) fault) }
    ensures count { IfOk result (λ view. length view ≡ window.count) }
    ensures named { IfOk result (λ view. All (HasFields fields) view) }
{
    if let Err(fault) = check_places(fdx, total, window) {
        return Err(fault);
    }
    if let Err(fault) = check_documents(fdx, fdt, fields, total, window) {
        return Err(fault);
    }
    Ok(StoredView {
        fdx,
        fdt,
        fields,
        total,
        window,
    })
}
