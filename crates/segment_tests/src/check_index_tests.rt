ghost use Rattle.std.specs.Prelude.{◌≡◌, true, IfOk, option_copied};
ghost use Rattle.segment_infos.specs.Values.{IsLine, IsStore};
ghost use Rattle.check_index.specs.Files.{IsShort, AreShort, folder_of};

use check_index::{CheckFault, Parts, SepFiles, check_segment};
use lu_prims::OutOfMemory;
use lu_types::rules::{
    CFS_OFFSET, DOC_FREQ, DOC_RANGE, ENDS, FDX_FORMAT, MISSING, NORM_HEADER, STORE_RANGE,
    TII_PLACE, TRAILING, TVX_FORMAT, VECTOR_BITS, VECTOR_FIELD,
};
use lu_types::{FileKind, Items, SharedStore};
use segment_infos::SegInfo;
use std::alloc::Global;
use std::process::Abort;
use std::test::Fail;

/// A fault, or none.
type Verdict = Option<(FileKind, u64, u16)>;

/// Two fields: a stored one, and an indexed one with norms.
const FNM: [u8; 19] = [
    254, 255, 255, 255, 15, 2, 5, 116, 105, 116, 108, 101, 16, 4, 98, 111, 100, 121, 15,
];

/// One document.
const FDX: [u8; 12] = [0, 0, 0, 2, 0, 0, 0, 0, 0, 0, 0, 4];

/// It stores `hello world`.
const FDT: [u8; 19] = [
    0, 0, 0, 2, 1, 0, 1, 11, 104, 101, 108, 108, 111, 32, 119, 111, 114, 108, 100,
];

/// The terms `hello` and `world`.
const TIS: [u8; 46] = [
    255, 255, 255, 252, 0, 0, 0, 0, 0, 0, 0, 2, 0, 0, 0, 128, 0, 0, 0, 16, 0, 0, 0, 10, 0, 5, 104,
    101, 108, 108, 111, 1, 1, 0, 0, 0, 5, 119, 111, 114, 108, 100, 1, 1, 1, 1,
];

/// Their index.
const TII: [u8; 35] = [
    255, 255, 255, 252, 0, 0, 0, 0, 0, 0, 0, 1, 0, 0, 0, 128, 0, 0, 0, 16, 0, 0, 0, 10, 0, 0, 255,
    255, 255, 255, 15, 0, 0, 0, 24,
];

/// Each stands in document 0.
const FRQ: [u8; 2] = [1, 1];

/// At the positions 0 and 1.
const PRX: [u8; 2] = [0, 1];

/// The norm of document 0.
const NRM: [u8; 5] = [78, 82, 77, 255, 124];

/// All of these in one, as those of the segment `_0`.
const CFS: [u8; 261] = [
    8, 0, 0, 0, 0, 0, 0, 0, 121, 6, 95, 48, 46, 102, 110, 109, 0, 0, 0, 0, 0, 0, 0, 140, 6, 95, 48,
    46, 102, 100, 120, 0, 0, 0, 0, 0, 0, 0, 152, 6, 95, 48, 46, 102, 100, 116, 0, 0, 0, 0, 0, 0, 0,
    171, 6, 95, 48, 46, 116, 105, 115, 0, 0, 0, 0, 0, 0, 0, 217, 6, 95, 48, 46, 116, 105, 105, 0,
    0, 0, 0, 0, 0, 0, 252, 6, 95, 48, 46, 102, 114, 113, 0, 0, 0, 0, 0, 0, 0, 254, 6, 95, 48, 46,
    112, 114, 120, 0, 0, 0, 0, 0, 0, 1, 0, 6, 95, 48, 46, 110, 114, 109, 254, 255, 255, 255, 15, 2,
    5, 116, 105, 116, 108, 101, 16, 4, 98, 111, 100, 121, 15, 0, 0, 0, 2, 0, 0, 0, 0, 0, 0, 0, 4,
    0, 0, 0, 2, 1, 0, 1, 11, 104, 101, 108, 108, 111, 32, 119, 111, 114, 108, 100, 255, 255, 255,
    252, 0, 0, 0, 0, 0, 0, 0, 2, 0, 0, 0, 128, 0, 0, 0, 16, 0, 0, 0, 10, 0, 5, 104, 101, 108, 108,
    111, 1, 1, 0, 0, 0, 5, 119, 111, 114, 108, 100, 1, 1, 1, 1, 255, 255, 255, 252, 0, 0, 0, 0, 0,
    0, 0, 1, 0, 0, 0, 128, 0, 0, 0, 16, 0, 0, 0, 10, 0, 0, 255, 255, 255, 255, 15, 0, 0, 0, 24, 1,
    1, 0, 1, 78, 82, 77, 255, 124,
];

/// The stored documents in one, as those of the segment `_7`.
const CFX: [u8; 62] = [
    2, 0, 0, 0, 0, 0, 0, 0, 31, 6, 95, 55, 46, 102, 100, 120, 0, 0, 0, 0, 0, 0, 0, 43, 6, 95, 55,
    46, 102, 100, 116, 0, 0, 0, 2, 0, 0, 0, 0, 0, 0, 0, 4, 0, 0, 0, 2, 1, 0, 1, 11, 104, 101, 108,
    108, 111, 32, 119, 111, 114, 108, 100,
];

/// The places of two documents, each of which is that one.
const FDX_OF_TWO: [u8; 20] = [0, 0, 0, 2, 0, 0, 0, 0, 0, 0, 0, 4, 0, 0, 0, 0, 0, 0, 0, 19];

/// The two documents.
const FDT_OF_TWO: [u8; 34] = [
    0, 0, 0, 2, 1, 0, 1, 11, 104, 101, 108, 108, 111, 32, 119, 111, 114, 108, 100, 1, 0, 1, 11,
    104, 101, 108, 108, 111, 32, 119, 111, 114, 108, 100,
];

/// The places of the vectors of document 0.
pub(crate) const TVX: [u8; 20] = [0, 0, 0, 4, 0, 0, 0, 0, 0, 0, 0, 4, 0, 0, 0, 0, 0, 0, 0, 4];

/// It has one, of field 1.
pub(crate) const TVD: [u8; 6] = [0, 0, 0, 4, 1, 1];

/// Its terms are `hello` and `world`.
pub(crate) const TVF: [u8; 28] = [
    0, 0, 0, 4, 2, 3, 0, 5, 104, 101, 108, 108, 111, 1, 0, 0, 5, 0, 5, 119, 111, 114, 108, 100, 1,
    1, 6, 5,
];

/// The places of the vectors of two documents.
const TVX_OF_TWO: [u8; 36] = [
    0, 0, 0, 4, 0, 0, 0, 0, 0, 0, 0, 4, 0, 0, 0, 0, 0, 0, 0, 4, 0, 0, 0, 0, 0, 0, 0, 6, 0, 0, 0, 0,
    0, 0, 0, 28,
];

/// The first has one of field 0, which has no vectors, and the second one of field 1.
const TVD_OF_TWO: [u8; 8] = [0, 0, 0, 4, 1, 0, 1, 1];

/// The second has the term `a`.
const TVF_OF_TWO: [u8; 34] = [
    0, 0, 0, 4, 2, 3, 0, 5, 104, 101, 108, 108, 111, 1, 0, 0, 5, 0, 5, 119, 111, 114, 108, 100, 1,
    1, 6, 5, 1, 0, 0, 1, 97, 1,
];

/// The segment of one document with two terms.
pub(crate) fn parts(alloc: Global) -> Parts<'static> {
    Parts {
        cfs: None,
        cfx: None,
        fnm: Some(&FNM),
        fdx: Some(&FDX),
        fdt: Some(&FDT),
        tis: Some(&TIS),
        tii: Some(&TII),
        frq: Some(&FRQ),
        prx: Some(&PRX),
        nrm: Some(&NRM),
        separate: SepFiles::new(alloc),
        del: None,
        tvx: None,
        tvd: None,
        tvf: None,
    }
}

/// The same in a compound file.
fn packed(alloc: Global) -> Parts<'static> {
    Parts {
        cfs: Some(&CFS),
        cfx: None,
        fnm: None,
        fdx: None,
        fdt: None,
        tis: None,
        tii: None,
        frq: None,
        prx: None,
        nrm: None,
        separate: SepFiles::new(alloc),
        del: None,
        tvx: None,
        tvd: None,
        tvf: None,
    }
}

/// Its line in the commit, with the documents in this store.
pub(crate) fn line_in(alloc: Global, store: Option<SharedStore>, compound: bool) -> SegInfo
    requires { IsStore store }
    ensures { IsLine result }
{
    SegInfo {
        number: 0,
        size: 1,
        del_gen: None,
        store,
        norm_gens: None,
        compound,
        deleted: 0,
        has_prox: true,
        diagnostics: Items::new(Vec::new(alloc)),
    }
}

/// Its line in the commit, where the norms of its second field stand in a file of their own.
fn separate_line(alloc: Global) -> Result<SegInfo, OutOfMemory>
    ensures { IfOk result (λ line. IsLine line) }
{
    let mut generations = Vec::new(alloc);
    generations.push(-1)?;
    generations.push(5)?;
    Ok(SegInfo {
        number: 0,
        size: 1,
        del_gen: Some(3),
        store: None,
        norm_gens: Some(Items::new(generations)),
        compound: false,
        deleted: 1,
        has_prox: true,
        diagnostics: Items::new(Vec::new(alloc)),
    })
}

/// Whether the file has as many bytes as a file may have.
fn is_short(file: Option<&[u8]>) -> bool
    ensures { result ≡ true → IsShort (option_copied file.entry) }
{
    match file {
        Some(bytes) => bytes.len() < 0x8000_0000,
        None => true,
    }
}

/// Whether the files of documents have.
pub(crate) fn are_short_documents(parts: &Parts<'_>) -> bool
    ensures { result ≡ true → (IsShort (option_copied parts.now.fdx)) × (IsShort (option_copied parts.now.tvx)) × (IsShort (option_copied parts.now.tvd)) × (IsShort (option_copied parts.now.tvf)) }
{
    is_short(parts.fdx) && is_short(parts.tvx) && is_short(parts.tvd) && is_short(parts.tvf)
}

/// Whether the other files have.
pub(crate) fn are_short_index(parts: &Parts<'_>) -> bool
    ensures { result ≡ true → (IsShort (option_copied parts.now.tis)) × (IsShort (option_copied parts.now.frq)) × (IsShort (option_copied parts.now.prx)) × (IsShort (option_copied parts.now.cfs)) × (IsShort (option_copied parts.now.cfx)) }
{
    is_short(parts.tis)
        && is_short(parts.frq)
        && is_short(parts.prx)
        && is_short(parts.cfs)
        && is_short(parts.cfx)
}

/// What the check answers.
fn verdict(alloc: Global, parts: Parts<'_>, info: &SegInfo) -> Verdict
    requires { IsLine info.now }
{
    if !are_short_documents(&parts) {
        return Some((FileKind::Commit, 1, 0));
    }
    if !are_short_index(&parts) {
        return Some((FileKind::Commit, 1, 0));
    }
    match check_segment(alloc, parts, 3, info) {
        Ok(_) => None,
        Err(CheckFault::Fault(fault)) => {
            Some((fault.spot.kind, fault.spot.offset, fault.spot.rule))
        }
        Err(CheckFault::OutOfMemory) => Some((FileKind::Commit, 0, 0)),
    }
}

/// Asserts what the check answers of one change of the segment.
fn answers(rt: &impl Abort, alloc: Global, parts: Parts<'_>, wanted: Verdict) {
    let line = line_in(alloc, None, false);
    let found = verdict(alloc, parts, &line);
    assert!(rt; found == wanted, "{found:?} and not {wanted:?}");
}

/// Files of a segment that are not there.
fn missing_files(rt: &impl Abort, alloc: Global) {
    answers(rt, alloc, parts(alloc), None);
    answers(
        rt,
        alloc,
        Parts {
            fnm: None,
            ..parts(alloc)
        },
        Some((FileKind::Fnm, 0, MISSING)),
    );
    answers(
        rt,
        alloc,
        Parts {
            fdt: None,
            ..parts(alloc)
        },
        Some((FileKind::Fdt, 0, MISSING)),
    );
    answers(
        rt,
        alloc,
        Parts {
            tii: None,
            ..parts(alloc)
        },
        Some((FileKind::Tii, 0, MISSING)),
    );
    answers(
        rt,
        alloc,
        Parts {
            frq: None,
            ..parts(alloc)
        },
        Some((FileKind::Frq, 0, MISSING)),
    );
    answers(
        rt,
        alloc,
        Parts {
            prx: None,
            ..parts(alloc)
        },
        Some((FileKind::Prx, 0, MISSING)),
    );
    answers(
        rt,
        alloc,
        Parts {
            nrm: None,
            ..parts(alloc)
        },
        Some((FileKind::Nrm, 0, MISSING)),
    );
}

/// Files of a segment that do not fit together.
fn faulty_files(rt: &impl Abort, alloc: Global) {
    let mut fdx = FDX;
    fdx[3] = 3;
    let early = Parts {
        fdx: Some(&fdx),
        fdt: None,
        ..parts(alloc)
    };
    answers(rt, alloc, early, Some((FileKind::Fdx, 0, FDX_FORMAT)));
    let mut tis = TIS;
    tis[43] = 2;
    answers(
        rt,
        alloc,
        Parts {
            tis: Some(&tis),
            ..parts(alloc)
        },
        Some((FileKind::Tis, 35, DOC_FREQ)),
    );
    let mut tii = TII;
    tii[34] = 0x19;
    answers(
        rt,
        alloc,
        Parts {
            tii: Some(&tii),
            ..parts(alloc)
        },
        Some((FileKind::Tii, 24, TII_PLACE)),
    );
    answers(
        rt,
        alloc,
        Parts {
            frq: Some(&[1, 3]),
            ..parts(alloc)
        },
        Some((FileKind::Frq, 1, DOC_RANGE)),
    );
    answers(
        rt,
        alloc,
        Parts {
            frq: Some(&[1]),
            ..parts(alloc)
        },
        Some((FileKind::Frq, 1, ENDS)),
    );
    answers(
        rt,
        alloc,
        Parts {
            frq: Some(&[1, 1, 1]),
            ..parts(alloc)
        },
        Some((FileKind::Frq, 2, TRAILING)),
    );
    answers(
        rt,
        alloc,
        Parts {
            prx: Some(&[0]),
            ..parts(alloc)
        },
        Some((FileKind::Prx, 1, ENDS)),
    );
    answers(
        rt,
        alloc,
        Parts {
            prx: Some(&[0, 1, 1]),
            ..parts(alloc)
        },
        Some((FileKind::Prx, 2, TRAILING)),
    );
    answers(
        rt,
        alloc,
        Parts {
            nrm: Some(&[0x4E, 0x52, 0x4D, 0, 0x7C]),
            ..parts(alloc)
        },
        Some((FileKind::Nrm, 0, NORM_HEADER)),
    );
}

/// Asserts what the check answers of the segment in this compound file.
fn compound_answers(rt: &impl Abort, alloc: Global, cfs: Option<&[u8]>, wanted: Verdict) {
    let line = line_in(alloc, None, true);
    let changed = Parts {
        cfs,
        ..packed(alloc)
    };
    let found = verdict(alloc, changed, &line);
    assert!(rt; found == wanted, "{found:?} and not {wanted:?}");
}

/// A compound segment, whose parts outside are not looked at.
fn compound_segments(rt: &impl Abort, alloc: Global) {
    compound_answers(rt, alloc, Some(&CFS), None);
    let line = line_in(alloc, None, true);
    let absent = verdict(alloc, parts(alloc), &line);
    assert!(rt; absent == Some((FileKind::Cfs, 0, MISSING)), "{absent:?}");
    let mut low = CFS;
    low[23] = 0;
    let wanted = Some((FileKind::Cfs, 16, CFS_OFFSET));
    compound_answers(rt, alloc, Some(&low), wanted);
}

/// A compound segment without one of its parts: the seventh name becomes `_0.qrx`.
fn compound_without_part(rt: &impl Abort, alloc: Global) {
    let mut renamed = CFS;
    renamed[103] = b'q';
    let wanted = Some((FileKind::Prx, 0, MISSING));
    compound_answers(rt, alloc, Some(&renamed), wanted);
}

/// Documents in a shared store.
fn shared_stores(rt: &impl Abort, alloc: Global) {
    let outside = SharedStore {
        offset: 0,
        number: 7,
        compound: false,
    };
    let good = verdict(alloc, parts(alloc), &line_in(alloc, Some(outside), false));
    assert!(rt; good == None, "{good:?}");
    let past = SharedStore {
        offset: 2,
        number: 7,
        compound: false,
    };
    let ranged = verdict(alloc, parts(alloc), &line_in(alloc, Some(past), false));
    assert!(rt;
        ranged == Some((FileKind::Fdx, 0, STORE_RANGE)),
        "{ranged:?}"
    );
    let inside = SharedStore {
        offset: 0,
        number: 7,
        compound: true,
    };
    let line = line_in(alloc, Some(inside), false);
    let absent = verdict(alloc, parts(alloc), &line);
    assert!(rt; absent == Some((FileKind::Cfx, 0, MISSING)), "{absent:?}");
    let whole = verdict(
        alloc,
        Parts {
            cfx: Some(&CFX),
            fdx: None,
            fdt: None,
            ..parts(alloc)
        },
        &line,
    );
    assert!(rt; whole == None, "{whole:?}");
}

/// Norms in a file of their own, and a deleted document.
fn separate_norms(rt: &impl Abort, alloc: Global) -> Result<(), Fail> {
    let line = separate_line(alloc)?;
    let del: &[u8] = &[0, 0, 0, 1, 0, 0, 0, 1, 1];
    let cases: [(Option<&[u8]>, Option<&[u8]>, Verdict); 4] = [
        (Some(&[9]), Some(del), None),
        (Some(&[]), Some(del), Some((FileKind::Sep(1), 0, ENDS))),
        (None, Some(del), Some((FileKind::Sep(1), 0, MISSING))),
        (Some(&[9]), None, Some((FileKind::Del, 0, MISSING))),
    ];
    for (norms, del, wanted) in cases {
        let mut separate = SepFiles::new(alloc);
        separate.push(None)?;
        separate.push(norms)?;
        let found = verdict(
            alloc,
            Parts {
                separate,
                del,
                ..parts(alloc)
            },
            &line,
        );
        assert!(rt; found == wanted, "{found:?} and not {wanted:?}");
    }
    Ok(())
}

/// Files of vectors that are there or not, and faults of them.
fn vectors(rt: &impl Abort, alloc: Global) {
    let tvx: Option<&[u8]> = Some(&TVX);
    let tvd: Option<&[u8]> = Some(&TVD);
    let tvf: Option<&[u8]> = Some(&TVF);
    let other_tvx: Option<&[u8]> = Some(&[0, 0, 0, 5]);
    let other_tvd: Option<&[u8]> = Some(&[0, 0, 0, 4, 1, 0]);
    let other_tvf: Option<&[u8]> = Some(&[0, 0, 0, 4, 2, 7]);
    let cases: [(Option<&[u8]>, Option<&[u8]>, Option<&[u8]>, Verdict); 8] = [
        (tvx, tvd, tvf, None),
        (None, tvd, tvf, None),
        (None, None, other_tvf, None),
        (tvx, None, tvf, Some((FileKind::Tvd, 0, MISSING))),
        (tvx, tvd, None, Some((FileKind::Tvf, 0, MISSING))),
        (other_tvx, None, tvf, Some((FileKind::Tvx, 0, TVX_FORMAT))),
        (tvx, other_tvd, None, Some((FileKind::Tvd, 5, VECTOR_FIELD))),
        (tvx, tvd, other_tvf, Some((FileKind::Tvf, 4, VECTOR_BITS))),
    ];
    for (tvx, tvd, tvf, wanted) in cases {
        let changed = Parts {
            tvx,
            tvd,
            tvf,
            ..parts(alloc)
        };
        answers(rt, alloc, changed, wanted);
    }
}

/// Vectors in a shared store of two documents: fields are asked of those of the segment alone.
fn shared_vectors(rt: &impl Abort, alloc: Global) {
    let two: &[u8] = &TVX_OF_TWO;
    let one: &[u8] = &TVX;
    let cases: [(bool, &[u8], Verdict); 3] = [
        (false, two, None),
        (true, two, Some((FileKind::Tvd, 5, VECTOR_FIELD))),
        (false, one, Some((FileKind::Tvx, 20, ENDS))),
    ];
    for (first, tvx, wanted) in cases {
        let store = SharedStore {
            offset: if first { 0 } else { 1 },
            number: 7,
            compound: false,
        };
        let found = verdict(
            alloc,
            Parts {
                fdx: Some(&FDX_OF_TWO),
                fdt: Some(&FDT_OF_TWO),
                tvx: Some(tvx),
                tvd: Some(&TVD_OF_TWO),
                tvf: Some(&TVF_OF_TWO),
                ..parts(alloc)
            },
            &line_in(alloc, Some(store), false),
        );
        assert!(rt; found == wanted, "{found:?} and not {wanted:?}");
    }
}

#[test]
fn segments(rt: HostRuntime) -> Result<(), Fail> {
    let alloc = rt.alloc();
    missing_files(&rt, alloc);
    faulty_files(&rt, alloc);
    compound_segments(&rt, alloc);
    compound_without_part(&rt, alloc);
    shared_stores(&rt, alloc);
    vectors(&rt, alloc);
    shared_vectors(&rt, alloc);
    separate_norms(&rt, alloc)
}
