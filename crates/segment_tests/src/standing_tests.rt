ghost use Rattle.std.specs.Prelude.{IfSome};
ghost use Rattle.segment_infos.specs.Values.{IsLine};
ghost use Rattle.check_index.specs.Opened.{IsTermOf};

use crate::check_index_tests::{
    TVD, TVF, TVX, are_short_documents, are_short_index, line_in, parts,
};
use check_index::{Parts, Standing, check_segment};
use freq_skips::SkipPoint;
use lu_prims::Steps;
use lu_types::TermInfo;
use segment_infos::SegInfo;
use std::alloc::Global;
use std::process::Abort;
use std::test::Fail;

/// What is counted.
struct Read;

/// The segment of these files, if they stand.
fn opened<'a>(alloc: Global, parts: Parts<'a>, info: &SegInfo) -> Option<Standing<'a>>
    requires { IsLine info.now }
{
    if !are_short_documents(&parts) {
        return None;
    }
    if !are_short_index(&parts) {
        return None;
    }
    match check_segment(alloc, parts, 0, info) {
        Ok(standing) => Some(standing),
        Err(_) => None,
    }
}

/// The first term of a segment.
fn first_term(alloc: Global, standing: &Standing<'_>) -> Option<TermInfo>
    ensures { IfSome result (λ info. IsTermOf standing.now 0 info) }
{
    match standing.terms().cursor(alloc) {
        Ok(mut cursor) => cursor.next(),
        Err(_) => None,
    }
}

/// Its one document, its fields, and what stands beside them.
fn lends_columns(rt: &impl Abort, standing: &Standing<'_>) {
    assert_eq!(rt; standing.size(), 1);
    assert_eq!(rt; standing.fields().count(), 2);
    assert_eq!(rt; standing.stored().documents(), 1);
    assert_eq!(rt; standing.terms().numbers().count, 2);
    assert!(rt; standing.live().is_live(0));
    assert_eq!(rt; standing.norm_column(0), None);
    assert_eq!(rt; standing.norm_column(1), Some([124].as_slice()));
    assert_eq!(rt; standing.norm_column(2), None);
    assert!(rt; standing.vectors().is_some());
}

/// The entry of its first term, the point that leads there, and the occurrence.
fn lends_terms(rt: &impl Abort, standing: &Standing<'_>, info: &TermInfo)
    requires { IsTermOf standing.now 0 info.now }
{
    let mut steps: Steps<Read> = Steps::new();
    let entry = standing.entries(info).next(&mut steps);
    assert_eq!(rt; entry.map(|entry| (entry.doc, entry.freq)), Some((0, 1)));
    let start = SkipPoint::start(info);
    let found = standing.skips(info).find(9, &mut steps);
    assert_eq!(rt; found, start);
    let mut occurrences = standing.occurrences(info, &start);
    occurrences.open_doc(0, 1);
    assert_eq!(rt; occurrences.next().map(|occ| occ.position), Some(0));
    assert!(rt; occurrences.next().is_none());
}

/// A term that is sought, and one that is not there.
fn finds_terms(
    rt: &impl Abort,
    alloc: Global,
    standing: &Standing<'_>,
    info: &TermInfo,
) -> Result<(), Fail> {
    let mut steps: Steps<Read> = Steps::new();
    let mut index = standing.index(alloc)?;
    assert_eq!(rt; index.seek("body", "hello", &mut steps), Some(*info));
    assert_eq!(rt; index.seek("body", "hell", &mut steps), None);
    Ok(())
}

#[test]
fn a_segment_that_stands_lends_its_parts(rt: HostRuntime) -> Result<(), Fail> {
    let alloc = rt.alloc();
    let line = line_in(alloc, None, false);
    let files = Parts {
        tvx: Some(&TVX),
        tvd: Some(&TVD),
        tvf: Some(&TVF),
        ..parts(alloc)
    };
    let Some(standing) = opened(alloc, files, &line) else {
        assert!(&rt; false, "it does not stand");
        return Ok(());
    };
    lends_columns(&rt, &standing);
    let Some(info) = first_term(alloc, &standing) else {
        assert!(&rt; false, "it has no term");
        return Ok(());
    };
    lends_terms(&rt, &standing, &info);
    finds_terms(&rt, alloc, &standing, &info)
}
