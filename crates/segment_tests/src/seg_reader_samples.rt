//! Two small segments: one of three documents with all kinds of files, and one of 35 documents with skip data.
ghost use Rattle.std.specs.Prelude.{IfOk};
ghost use Rattle.segment_infos.specs.Values.{IsLine};

use check_index::{Parts, SepFiles};
use lu_prims::OutOfMemory;
use lu_types::Items;
use segment_infos::SegInfo;
use std::alloc::Global;

/// Four fields: a stored one, one with norms and vectors, one without norms, and one with norms alone.
const FNM: [u8; 30] = [
    254, 255, 255, 255, 15, 4, 5, 116, 105, 116, 108, 101, 16, 4, 98, 111, 100, 121, 15, 3, 116,
    97, 103, 17, 4, 108, 97, 110, 103, 1,
];

/// The places of three documents.
const FDX: [u8; 28] = [
    0, 0, 0, 2, 0, 0, 0, 0, 0, 0, 0, 4, 0, 0, 0, 0, 0, 0, 0, 9, 0, 0, 0, 0, 0, 0, 0, 10,
];

/// Document 0 stores `a`, document 1 nothing, and document 2 `c`.
const FDT: [u8; 15] = [0, 0, 0, 2, 1, 0, 1, 1, 97, 0, 1, 0, 1, 1, 99];

/// The terms `hello` of field 1, in three documents, and `x` of field 2, in one.
const TIS: [u8; 42] = [
    255, 255, 255, 252, 0, 0, 0, 0, 0, 0, 0, 2, 0, 0, 0, 128, 0, 0, 0, 16, 0, 0, 0, 10, 0, 5, 104,
    101, 108, 108, 111, 1, 3, 0, 0, 0, 1, 120, 2, 1, 3, 3,
];

/// Their index.
const TII: [u8; 35] = [
    255, 255, 255, 252, 0, 0, 0, 0, 0, 0, 0, 1, 0, 0, 0, 128, 0, 0, 0, 16, 0, 0, 0, 10, 0, 0, 255,
    255, 255, 255, 15, 0, 0, 0, 24,
];

/// The documents 0, 1 and 2, and then document 2.
const FRQ: [u8; 4] = [1, 3, 3, 5];

/// At the positions 0, 1 and 2, and then at 0.
const PRX: [u8; 4] = [0, 1, 2, 0];

/// The norms of the fields 1 and 3.
const NRM: [u8; 10] = [78, 82, 77, 255, 1, 2, 3, 4, 5, 6];

/// Those of field 1 that stand in the place of the first.
const NRM_OF_1: [u8; 3] = [7, 8, 9];

/// Document 1 is deleted.
const DEL: [u8; 9] = [0, 0, 0, 3, 0, 0, 0, 1, 2];

/// The places of the vectors of three documents.
const TVX: [u8; 52] = [
    0, 0, 0, 4, 0, 0, 0, 0, 0, 0, 0, 4, 0, 0, 0, 0, 0, 0, 0, 4, 0, 0, 0, 0, 0, 0, 0, 5, 0, 0, 0, 0,
    0, 0, 0, 4, 0, 0, 0, 0, 0, 0, 0, 7, 0, 0, 0, 0, 0, 0, 0, 10,
];

/// Document 0 has none, and each of the others one of field 1.
const TVD: [u8; 9] = [0, 0, 0, 4, 0, 1, 1, 1, 1];

/// That of document 1 has the term `b`, and that of document 2 the term `c`.
const TVF: [u8; 16] = [0, 0, 0, 4, 1, 0, 0, 1, 98, 1, 1, 0, 0, 1, 99, 1];

/// One field.
const FNM_OF_MANY: [u8; 9] = [254, 255, 255, 255, 15, 1, 1, 102, 17];

/// The same, with payloads.
const FNM_WITH_PAYLOADS: [u8; 9] = [254, 255, 255, 255, 15, 1, 1, 102, 49];

/// The term `a`, in 35 documents, with skip data behind 35 bytes.
const TIS_OF_MANY: [u8; 32] = [
    255, 255, 255, 252, 0, 0, 0, 0, 0, 0, 0, 1, 0, 0, 0, 128, 0, 0, 0, 4, 0, 0, 0, 2, 0, 1, 97, 0,
    35, 0, 0, 35,
];

/// Its index.
const TII_OF_MANY: [u8; 35] = [
    255, 255, 255, 252, 0, 0, 0, 0, 0, 0, 0, 1, 0, 0, 0, 128, 0, 0, 0, 4, 0, 0, 0, 2, 0, 0, 255,
    255, 255, 255, 15, 0, 0, 0, 24,
];

/// Once in each document; two levels of skip data, of two data and of eight.
const FRQ_OF_MANY: [u8; 68] = [
    1, 3, 3, 3, 3, 3, 3, 3, 3, 3, 3, 3, 3, 3, 3, 3, 3, 3, 3, 3, 3, 3, 3, 3, 3, 3, 3, 3, 3, 3, 3, 3,
    3, 3, 3, 8, 14, 15, 15, 12, 16, 16, 16, 24, 2, 3, 3, 4, 4, 4, 4, 4, 4, 4, 4, 4, 4, 4, 4, 4, 4,
    4, 4, 4, 4, 4, 4, 4,
];

/// At position 0.
const PRX_OF_MANY: [u8; 35] = [
    0, 0, 0, 0, 0, 0, 0, 0, 0, 0, 0, 0, 0, 0, 0, 0, 0, 0, 0, 0, 0, 0, 0, 0, 0, 0, 0, 0, 0, 0, 0, 0,
    0, 0, 0,
];

/// The same, where the payload length 1 is in force from entry 4 on.
const FRQ_WITH_PAYLOADS: [u8; 70] = [
    1, 3, 3, 3, 3, 3, 3, 3, 3, 3, 3, 3, 3, 3, 3, 3, 3, 3, 3, 3, 3, 3, 3, 3, 3, 3, 3, 3, 3, 3, 3, 3,
    3, 3, 3, 9, 29, 1, 15, 28, 13, 32, 16, 32, 25, 4, 3, 3, 9, 1, 4, 9, 8, 4, 8, 8, 4, 8, 8, 4, 8,
    8, 4, 8, 8, 4, 8, 8, 4, 8,
];

/// At position 0; no payload in three documents, and from then on one byte, 100 above the document.
const PRX_WITH_PAYLOADS: [u8; 68] = [
    0, 0, 0, 1, 1, 103, 0, 104, 0, 105, 0, 106, 0, 107, 0, 108, 0, 109, 0, 110, 0, 111, 0, 112, 0,
    113, 0, 114, 0, 115, 0, 116, 0, 117, 0, 118, 0, 119, 0, 120, 0, 121, 0, 122, 0, 123, 0, 124, 0,
    125, 0, 126, 0, 127, 0, 128, 0, 129, 0, 130, 0, 131, 0, 132, 0, 133, 0, 134,
];

/// The places of 35 documents.
const FDX_OF_MANY: [u8; 284] = [
    0, 0, 0, 2, 0, 0, 0, 0, 0, 0, 0, 4, 0, 0, 0, 0, 0, 0, 0, 5, 0, 0, 0, 0, 0, 0, 0, 6, 0, 0, 0, 0,
    0, 0, 0, 7, 0, 0, 0, 0, 0, 0, 0, 8, 0, 0, 0, 0, 0, 0, 0, 9, 0, 0, 0, 0, 0, 0, 0, 10, 0, 0, 0,
    0, 0, 0, 0, 11, 0, 0, 0, 0, 0, 0, 0, 12, 0, 0, 0, 0, 0, 0, 0, 13, 0, 0, 0, 0, 0, 0, 0, 14, 0,
    0, 0, 0, 0, 0, 0, 15, 0, 0, 0, 0, 0, 0, 0, 16, 0, 0, 0, 0, 0, 0, 0, 17, 0, 0, 0, 0, 0, 0, 0,
    18, 0, 0, 0, 0, 0, 0, 0, 19, 0, 0, 0, 0, 0, 0, 0, 20, 0, 0, 0, 0, 0, 0, 0, 21, 0, 0, 0, 0, 0,
    0, 0, 22, 0, 0, 0, 0, 0, 0, 0, 23, 0, 0, 0, 0, 0, 0, 0, 24, 0, 0, 0, 0, 0, 0, 0, 25, 0, 0, 0,
    0, 0, 0, 0, 26, 0, 0, 0, 0, 0, 0, 0, 27, 0, 0, 0, 0, 0, 0, 0, 28, 0, 0, 0, 0, 0, 0, 0, 29, 0,
    0, 0, 0, 0, 0, 0, 30, 0, 0, 0, 0, 0, 0, 0, 31, 0, 0, 0, 0, 0, 0, 0, 32, 0, 0, 0, 0, 0, 0, 0,
    33, 0, 0, 0, 0, 0, 0, 0, 34, 0, 0, 0, 0, 0, 0, 0, 35, 0, 0, 0, 0, 0, 0, 0, 36, 0, 0, 0, 0, 0,
    0, 0, 37, 0, 0, 0, 0, 0, 0, 0, 38,
];

/// 35 documents, none of which stores anything.
const FDT_OF_MANY: [u8; 39] = [
    0, 0, 0, 2, 0, 0, 0, 0, 0, 0, 0, 0, 0, 0, 0, 0, 0, 0, 0, 0, 0, 0, 0, 0, 0, 0, 0, 0, 0, 0, 0, 0,
    0, 0, 0, 0, 0, 0, 0,
];

/// The segment of three documents.
pub(crate) fn parts_of_three(alloc: Global) -> Result<Parts<'static>, OutOfMemory> {
    let mut separate = SepFiles::new(alloc);
    separate.push(None)?;
    separate.push(Some(&NRM_OF_1))?;
    Ok(Parts {
        cfs: None,
        cfx: None,
        fnm: Some(&FNM),
        fdx: Some(&FDX),
        fdt: Some(&FDT),
        tis: Some(&TIS),
        tii: Some(&TII),
        frq: Some(&FRQ),
        prx: Some(&PRX),
        nrm: Some(&NRM),
        separate,
        del: Some(&DEL),
        tvx: Some(&TVX),
        tvd: Some(&TVD),
        tvf: Some(&TVF),
    })
}

/// Its line in the commit.
pub(crate) fn line_of_three(alloc: Global) -> Result<SegInfo, OutOfMemory>
    ensures { IfOk result (λ line. IsLine line) }
{
    let mut generations = Vec::new(alloc);
    generations.push(-1)?;
    generations.push(5)?;
    generations.push(-1)?;
    generations.push(-1)?;
    Ok(SegInfo {
        number: 0,
        size: 3,
        del_gen: Some(3),
        store: None,
        norm_gens: Some(Items::new(generations)),
        compound: false,
        deleted: 1,
        has_prox: true,
        diagnostics: Items::new(Vec::new(alloc)),
    })
}

/// The second segment, without payloads.
pub(crate) fn parts_of_many(alloc: Global) -> Parts<'static> {
    Parts {
        cfs: None,
        cfx: None,
        fnm: Some(&FNM_OF_MANY),
        fdx: Some(&FDX_OF_MANY),
        fdt: Some(&FDT_OF_MANY),
        tis: Some(&TIS_OF_MANY),
        tii: Some(&TII_OF_MANY),
        frq: Some(&FRQ_OF_MANY),
        prx: Some(&PRX_OF_MANY),
        nrm: None,
        separate: SepFiles::new(alloc),
        del: None,
        tvx: None,
        tvd: None,
        tvf: None,
    }
}

/// The same with payloads.
pub(crate) fn parts_with_payloads(alloc: Global) -> Parts<'static> {
    Parts {
        fnm: Some(&FNM_WITH_PAYLOADS),
        frq: Some(&FRQ_WITH_PAYLOADS),
        prx: Some(&PRX_WITH_PAYLOADS),
        ..parts_of_many(alloc)
    }
}

/// The line of either in the commit.
pub(crate) fn line_of_many(alloc: Global) -> SegInfo
    ensures { IsLine result }
{
    SegInfo {
        number: 0,
        size: 35,
        del_gen: None,
        store: None,
        norm_gens: None,
        compound: false,
        deleted: 0,
        has_prox: true,
        diagnostics: Items::new(Vec::new(alloc)),
    }
}
