ghost use Rattle.std.specs.Prelude.{◌≡◌, ◌<◌, ◌≤◌, ◌^◌, length, IfSome};

use freq_skips::{Entries, SkipPoint, Skips, check_term as check_entries};
use lu_prims::Steps;
use lu_types::rules::{ENDS, POSITION, PROX_START, SKIP_PAYLOAD, SKIP_PROX};
use lu_types::{TermInfo, TermRules};
use positions::{Occurrences, ProxWriter, check_term, skip_data_lead, terms_in_turn};
use std::alloc::Global;
use std::process::Abort;
use std::test::Fail;

/// A label of steps.
struct Read;

/// A term at the start of both files.
fn info(doc_freq: u32, skip: u32) -> TermInfo
    ensures count { result.doc_freq ≡ doc_freq }
    ensures freq { result.freq ≡ 0 }
    ensures prox { result.prox ≡ 0 }
{
    TermInfo {
        field: 0,
        doc_freq,
        freq: 0,
        prox: 0,
        skip,
    }
}

/// A field with positions.
fn rules(payloads: bool, skip_interval: u32, max_levels: u32) -> TermRules
    ensures { result.skip_interval ≡ skip_interval }
{
    TermRules {
        documents: 100,
        skip_interval,
        max_levels,
        omit_tf: false,
        payloads,
    }
}

/// Where a term at the start of the bytes of `.prx` ends, or its first fault; its part of `.frq`, at the start of those bytes, is
/// to be good.
fn checked(prx: &[u8], frq: &[u8], info: &TermInfo, rules: &TermRules) -> Result<usize, (u64, u16)>
    requires interval { 2 ≤ rules.now.skip_interval }
    requires some { 0 < info.now.doc_freq }
    requires small { length frq.now < 2 ^ 32 }
{
    match check_entries(frq, 0, info, rules) {
        Err(spot) => Err((spot.offset, spot.rule)),
        Ok(_end) => match check_term(prx, 0, frq, info, rules) {
            Err(spot) => Err((spot.offset, spot.rule)),
            Ok(end) => Ok(end),
        },
    }
}

/// The occurrences of a term, before the entry that the last point below the target leads to, and how many entries are before it;
/// none where one of its parts is not good.
pub fn occurrences_from<'a>(
    prx: &'a [u8],
    frq: &[u8],
    info: &TermInfo,
    rules: &TermRules,
    target: u32,
) -> Option<(Occurrences<'a>, u32)>
    requires interval { 2 ≤ rules.now.skip_interval }
    requires some { 0 < info.now.doc_freq }
    requires within { info.now.freq ≤ length frq.now }
    requires small { length frq.now < 2 ^ 31 }
    requires prx_small { length prx.now < 2 ^ 31 }
    requires prox_small { info.now.prox ≤ length prx.now }
{
    match check_entries(frq, info.freq as usize, info, rules) {
        Err(_spot) => None,
        Ok(_end) => match check_term(prx, info.prox as usize, frq, info, rules) {
            Err(_spot) => None,
            Ok(_end) => {
                let mut steps: Steps<Read> = Steps::new();
                let mut skips = Skips::at(frq, info, rules);
                let point = skips.find(target, &mut steps);
                let start = SkipPoint::start(info);
                let mut occurrences = Occurrences::at(prx, info, rules, &start);
                occurrences.jump(&point);
                Some((occurrences, point.passed))
            }
        },
    }
}

/// What is read from the last point below a target on: so many entries are before it, and these are the occurrences from there.
#[derive(Clone, Copy)]
struct Sought<'a> {
    target: u32,
    passed: u32,
    wanted: &'a [(u32, &'a [u8])],
}

/// Whether that is read of a term.
fn reads(prx: &[u8], frq: &[u8], info: &TermInfo, rules: &TermRules, sought: &Sought<'_>) -> bool
    requires interval { 2 ≤ rules.now.skip_interval }
    requires some { 0 < info.now.doc_freq }
    requires within { info.now.freq ≤ length frq.now }
    requires small { length frq.now < 2 ^ 31 }
    requires prx_small { length prx.now < 2 ^ 31 }
    requires prox_small { info.now.prox ≤ length prx.now }
{
    if check_entries(frq, info.freq as usize, info, rules).is_err() {
        return false;
    }
    let Some((mut occurrences, passed)) = occurrences_from(prx, frq, info, rules, sought.target)
    else {
        return false;
    };
    let mut steps: Steps<Read> = Steps::new();
    let mut entries = Entries::at(frq, info, rules);
    let mut read = 0usize;
    for _ in 0..passed {
        let _passed = entries.next(&mut steps);
    }
    for _ in passed..info.doc_freq {
        let Some(entry) = entries.next(&mut steps) else {
            return false;
        };
        occurrences.open_doc(0, entry.freq);
        for _ in 0..100 {
            let Some(occ) = occurrences.next() else {
                break;
            };
            match sought.wanted.get(read) {
                None => return false,
                Some((position, payload)) => {
                    if occ.position != *position || occ.payload != *payload {
                        return false;
                    }
                    read = read.saturating_add(1);
                }
            }
        }
    }
    passed == sought.passed && read == sought.wanted.len()
}

/// The payloads of the worked rows.
const FIRST: &[u8] = &[0xAA, 0xBB, 0xCC];

const SECOND: &[u8] = &[0xDD, 0xEE, 0xFF];

/// A payload in document 0, and in document 1 another and then none, as they are written.
fn writes(rt: &impl Abort, alloc: Global) -> Result<(), Fail> {
    let mut writer = ProxWriter::new(alloc)?;
    assert!(rt; writer.start(true) == 0);
    assert!(rt; writer.begin_doc() == 0);
    writer.add(0, FIRST)?;
    assert!(rt; writer.len() < 1 << 31);
    assert!(rt; writer.begin_doc() == 5);
    writer.add(0, SECOND)?;
    writer.add(1, &[])?;
    assert!(rt; writer.len() < 1 << 31);
    assert!(rt; writer.start(false) == 12);
    assert!(rt; writer.begin_doc() == 0);
    writer.add(200, &[])?;
    writer.add(200, &[])?;
    assert!(rt; writer.len() == 15);
    let bytes = writer.finish();
    let wanted: &[u8] = &[
        0x01, 0x03, 0xAA, 0xBB, 0xCC, 0x01, 0x03, 0xDD, 0xEE, 0xFF, 0x03, 0x00, 0xC8, 0x01, 0x00,
    ];
    assert!(rt; bytes.as_slice() == wanted);
    Ok(())
}

/// The forms of the same occurrences that are accepted.
fn accepts(rt: &impl Abort) {
    let frq = &[0x01, 0x02, 0x02];
    let rows: [(&[u8], [(u32, &[u8]); 3], usize); 3] = [
        (
            &[
                0x01, 0x03, 0xAA, 0xBB, 0xCC, 0x01, 0x03, 0xDD, 0xEE, 0xFF, 0x03, 0x00, 0x55,
            ],
            [(0, FIRST), (0, SECOND), (1, &[])],
            12,
        ),
        (
            &[
                0x01, 0x03, 0xAA, 0xBB, 0xCC, 0x00, 0xDD, 0xEE, 0xFF, 0x03, 0x00, 0x55,
            ],
            [(0, FIRST), (0, SECOND), (1, &[])],
            11,
        ),
        (
            &[
                0x01, 0x03, 0xAA, 0xBB, 0xCC, 0x02, 0xDD, 0xEE, 0xFF, 0x03, 0x00, 0x55,
            ],
            [(0, FIRST), (1, SECOND), (2, &[])],
            11,
        ),
    ];
    let term = info(2, 0);
    let by = rules(true, 16, 10);
    for (prx, wanted, end) in rows {
        assert!(rt; prx.len() < 100);
        assert!(rt; checked(prx, frq, &term, &by) == Ok(end));
        let sought = Sought {
            target: 0,
            passed: 0,
            wanted: &wanted,
        };
        assert!(rt; reads(prx, frq, &term, &by, &sought));
        for cut in 0..end {
            let starts = [0, 5, end.saturating_sub(2)];
            let start = starts.iter().filter(|start| **start <= cut).last();
            let found = checked(&prx[..cut.min(prx.len())], frq, &term, &by);
            assert!(rt;
                found == Err((start.map_or(0, |start| *start as u64), ENDS)),
                "cut at {cut}"
            );
        }
    }
}

/// A fault for each rule, of the skip data on each of two levels.
fn refuses(rt: &impl Abort) {
    let plain = rules(false, 2, 2);
    let sums = |low: u8, between: u8, upper: u8| {
        [1, 2, 2, 3, 3, 4, 2, 4, upper, 6, 0, 1, low, 2, 3, between]
    };
    let occurrences = &[0, 1, 2, 0, 5];
    let term = info(4, 5);
    assert!(rt; checked(occurrences, &sums(1, 3, 4), &term, &plain) == Ok(5));
    assert!(rt; checked(occurrences, &sums(2, 2, 4), &term, &plain) == Err((1, SKIP_PROX)));
    assert!(rt; checked(occurrences, &sums(1, 2, 4), &term, &plain) == Err((4, SKIP_PROX)));
    assert!(rt; checked(occurrences, &sums(1, 3, 3), &term, &plain) == Err((4, SKIP_PROX)));

    let with_payloads = rules(true, 2, 2);
    let lengths = |low: u8, upper: u8| {
        [1, 3, 3, 3, 5, 5, upper, 3, 7, 7, 1, low, 1, 3, 4, 2, 4]
    };
    let occurrences = &[1, 1, 9, 0, 8, 0, 7, 0, 6];
    let term = info(4, 4);
    assert!(rt; checked(occurrences, &lengths(1, 1), &term, &with_payloads) == Ok(9));
    assert!(rt;
        checked(occurrences, &lengths(0, 1), &term, &with_payloads) == Err((3, SKIP_PAYLOAD))
    );
    assert!(rt;
        checked(occurrences, &lengths(1, 0), &term, &with_payloads) == Err((7, SKIP_PAYLOAD))
    );

    let twice = &[0, 2];
    let term = info(1, 0);
    assert!(rt; checked(&[0xFF, 0xFF, 0xFF, 0xFF, 7, 0], twice, &term, &plain) == Ok(6));
    assert!(rt;
        checked(&[0xFF, 0xFF, 0xFF, 0xFF, 7, 1], twice, &term, &plain) == Err((5, POSITION))
    );
    let elsewhere = TermInfo { prox: 1, ..term };
    assert!(rt; checked(&[0, 0], twice, &elsewhere, &plain) == Err((0, PROX_START)));
    let omitted = TermRules {
        omit_tf: true,
        ..with_payloads
    };
    let skips = &[0, 1, 1, 1, 4, 4, 3, 0, 6, 0, 1, 0, 4, 2, 0];
    let term = TermInfo {
        prox: 7,
        ..info(4, 4)
    };
    assert!(rt; checked(&[0x55], skips, &term, &omitted) == Ok(0));
}

/// A term of 35 entries in a field with payloads, whose lengths are stated only at the entry with index 3: what is read from the
/// point for document 20 on.
fn jumps(rt: &impl Abort, alloc: Global) -> Result<(), Fail> {
    let mut frq = [1].to_vec(alloc)?;
    let mut prx = [0, 0, 0, 1, 2, 3, 3].to_vec(alloc)?;
    for _ in 0..34 {
        frq.push(3)?;
    }
    for entry in 4..35 {
        prx.extend_from_slice(&[0, entry, entry])?;
    }
    frq.extend_from_slice(&[9, 29, 2, 15, 40, 13, 32, 16, 48, 25, 4, 3, 3, 9, 2, 4, 13])?;
    for _ in 0..6 {
        frq.extend_from_slice(&[8, 4, 12])?;
    }
    assert!(rt; frq.len() < 100 && prx.len() < 200);
    let wanted: [(u32, &[u8]); 4] = [
        (0, &[31, 31]),
        (0, &[32, 32]),
        (0, &[33, 33]),
        (0, &[34, 34]),
    ];
    let term = info(35, 35);
    let by = rules(true, 4, 2);
    assert!(rt; checked(&prx, &frq, &term, &by) == Ok(prx.len()));
    let sought = Sought {
        target: 35,
        passed: 31,
        wanted: &wanted,
    };
    assert!(rt; reads(&prx, &frq, &term, &by, &sought));
    for (target, passed) in [(34, 31), (20, 19), (0, 0)] {
        let found = occurrences_from(&prx, &frq, &term, &by, target);
        let Some((mut occurrences, before)) = found else {
            return Err(Fail::from("not good"));
        };
        assert!(rt; before == passed);
        occurrences.open_doc(34 - u64::from(passed), 1);
        let last = occurrences.next();
        assert!(rt; last.map_or(false, |occ| occ.payload == [34, 34].as_slice()));
        assert!(rt; occurrences.next().is_none());
    }
    Ok(())
}

#[test]
fn terms(rt: HostRuntime) -> Result<(), Fail> {
    let alloc = rt.alloc();
    terms_in_turn();
    skip_data_lead();
    writes(&rt, alloc)?;
    accepts(&rt);
    refuses(&rt);
    jumps(&rt, alloc)?;
    Ok(())
}
