ghost use Rattle.std.specs.Prelude.{◌≡◌, ◌<◌, ◌≤◌, ◌^◌, length, false, IfOk};
ghost use Rattle.freq_skips.specs.Points.{HasKnownPlaces};

use freq_skips::{
    Datum, Entries, Entry, FreqWriter, SkipPoint, Skips, TermRules, Walk, check_term, terms_in_turn,
};
use lu_prims::Steps;
use lu_types::TermInfo;
use lu_types::rules::{
    DOC_ORDER, DOC_RANGE, ENDS, FREQ, FREQ_START, SKIP_CHILD, SKIP_DOC, SKIP_FREQ, SKIP_LENGTH,
    SKIP_OMIT, SKIP_START,
};
use std::alloc::Global;
use std::process::Abort;
use std::test::Fail;

/// A label of steps.
struct Read;

/// A term at the start of the file.
fn info(doc_freq: u32, skip: u32) -> TermInfo
    ensures { result ≡ record { field = 0; doc_freq = doc_freq; freq = 0; prox = 0; skip = skip } }
{
    TermInfo {
        field: 0,
        doc_freq,
        freq: 0,
        prox: 0,
        skip,
    }
}

/// A field with frequencies and without payloads.
fn rules(skip_interval: u32, max_levels: u32) -> TermRules
    ensures { result ≡ record { documents = 100; skip_interval = skip_interval; max_levels = max_levels; omit_tf = false; payloads = false } }
{
    TermRules {
        documents: 100,
        skip_interval,
        max_levels,
        omit_tf: false,
        payloads: false,
    }
}

/// The bytes of a term once in each of the first documents, a byte more, and how far its skip data start.
fn written(
    rt: &impl Abort,
    alloc: Global,
    documents: u32,
    interval: u32,
    levels: u32,
) -> Result<(Vec<u8>, u32), Fail>
    requires some { 0 < documents }
    requires few { documents < 100 }
    requires interval { 2 ≤ interval }
    ensures places { IfOk result (λ x. HasKnownPlaces (record { field = 0; doc_freq = documents; freq = 0; prox = 0; skip = x.1 })
        (record { documents = 100; skip_interval = interval; max_levels = levels; omit_tf = false; payloads = false }) x.0.items) }
{
    let mut writer = FreqWriter::new(alloc, interval, levels)?;
    let place = writer.start(false, false);
    assert!(rt; place == 0);
    for doc in 0..documents {
        writer.add(doc, 1, doc)?;
    }
    assert!(rt; writer.len() < 1 << 31);
    let delta = writer.finish_term()?;
    assert!(rt; writer.len() < 1 << 31);
    let mut bytes = writer.finish();
    bytes.push(0x55)?;
    Ok((bytes, delta))
}

/// Where a term at the start of some bytes ends, or its first fault.
fn checked(frq: &[u8], info: &TermInfo, rules: &TermRules) -> Result<usize, (u64, u16)>
    requires { 2 ≤ rules.now.skip_interval }
{
    match check_term(frq, 0, info, rules) {
        Err(spot) => Err((spot.offset, spot.rule)),
        Ok(end) => Ok(end),
    }
}

/// The skip data that follow the entries of a term once in each of so many documents.
fn writes(rt: &impl Abort, alloc: Global) -> Result<(), Fail> {
    let two_levels: &[u8] = &[
        0x08, 0x0E, 0x0F, 0x0F, 0x0C, 0x10, 0x10, 0x10, 0x18, 2, 3, 3, 4, 4, 4, 4, 4, 4, 4, 4, 4,
        4, 4, 4, 4, 4, 4, 4, 4, 4, 4, 4, 4,
    ];
    let rows: [(u32, u32, u32, &[u8], u32); 4] = [
        (16, 16, 10, &[0x0E, 0x0F, 0x0F], 16),
        (17, 16, 10, &[0x0E, 0x0F, 0x0F], 17),
        (15, 16, 10, &[], 0),
        (35, 4, 2, two_levels, 35),
    ];
    for (documents, interval, levels, skips, wanted) in rows {
        assert!(rt; documents > 0 && documents < 100 && interval > 1);
        let (bytes, delta) = written(rt, alloc, documents, interval, levels)?;
        assert!(rt; delta == wanted, "{documents} documents");
        let entries = documents as usize;
        assert!(rt; bytes.len() == entries + skips.len() + 1);
        assert!(rt; bytes[0] == 1 && bytes[1..entries].iter().all(|byte| *byte == 3));
        assert!(rt;
            &bytes[entries..bytes.len() - 1] == skips,
            "{documents} documents"
        );
        assert!(rt;
            checked(&bytes, &info(documents, delta), &rules(interval, levels))
                == Ok(bytes.len() - 1)
        );
    }
    Ok(())
}

/// The bytes with one of them changed.
fn with_byte(alloc: Global, bytes: &[u8], place: usize, byte: u8) -> Result<Vec<u8>, Fail> {
    let mut changed = bytes.to_vec(alloc)?;
    if let Some(old) = changed.get_mut(place) {
        *old = byte;
    }
    Ok(changed)
}

/// Where the record starts that a cut at a length ends in, in the term of two levels: 35 entries and a level length of one byte,
/// two data of four bytes, and then data of three bytes.
fn record_cut_at(length: usize) -> usize {
    if length <= 36 {
        length
    } else if length < 40 {
        36
    } else if length < 44 {
        40
    } else {
        length.saturating_sub(length.saturating_sub(44) % 3)
    }
}

/// A fault for each rule, in a term of two levels with one byte changed, and in others.
fn refuses(rt: &impl Abort, alloc: Global) -> Result<(), Fail> {
    let (bytes, _delta) = written(rt, alloc, 35, 4, 2)?;
    let rows = [
        (1, 0x01, 1, DOC_ORDER),
        (36, 0x0D, 36, SKIP_DOC),
        (37, 0x0E, 36, SKIP_FREQ),
        (39, 0x0B, 53, SKIP_CHILD),
        (35, 0x07, 40, SKIP_LENGTH),
    ];
    for (place, byte, offset, rule) in rows {
        let changed = with_byte(alloc, &bytes, place, byte)?;
        assert!(rt;
            checked(&changed, &info(35, 35), &rules(4, 2)) == Err((offset, rule)),
            "rule {rule}"
        );
    }
    let elsewhere = TermInfo {
        freq: 1,
        ..info(35, 35)
    };
    assert!(rt; checked(&bytes, &elsewhere, &rules(4, 2)) == Err((0, FREQ_START)));
    let fewer = TermRules {
        documents: 34,
        ..rules(4, 2)
    };
    assert!(rt; checked(&bytes, &info(35, 35), &fewer) == Err((34, DOC_RANGE)));
    assert!(rt; checked(&[1, 2, 1], &info(2, 0), &rules(4, 2)) == Err((1, FREQ)));
    assert!(rt; checked(&bytes, &info(35, 34), &rules(4, 2)) == Err((35, SKIP_START)));
    let omitted = TermRules {
        omit_tf: true,
        ..rules(2, 1)
    };
    assert!(rt; checked(&[0, 1, 0, 1, 1], &info(2, 2), &omitted) == Err((2, SKIP_OMIT)));
    assert!(rt; checked(&[0, 1, 0, 1, 0], &info(2, 2), &omitted) == Ok(5));
    let whole = bytes.len().saturating_sub(1);
    for length in 0..whole {
        let found = checked(&bytes[..length], &info(35, 35), &rules(4, 2));
        assert!(rt;
            found == Err((record_cut_at(length) as u64, ENDS)),
            "cut at {length}"
        );
    }
    Ok(())
}

/// The last datum that a walk tells of a level, over a term that is good.
fn last_datum(frq: &[u8], info: &TermInfo, rules: &TermRules, level: u32) -> Option<Datum>
    requires interval { 2 ≤ rules.now.skip_interval }
    requires some { 0 < info.now.doc_freq }
    requires within { info.now.freq ≤ length frq.now }
    requires small { length frq.now < 2 ^ 32 }
{
    if check_term(frq, info.freq as usize, info, rules).is_err() {
        return None;
    }
    let mut walk = Walk::at(frq, info, rules);
    let mut last = None;
    for _ in 0..info.doc_freq {
        walk.next();
        last = walk.datum(level).or(last);
    }
    last
}

/// A walk over two levels, one over data with payload lengths, and the entries of a term with frequencies.
fn reads(rt: &impl Abort, alloc: Global) -> Result<(), Fail> {
    let (bytes, _delta) = written(rt, alloc, 35, 4, 2)?;
    assert!(rt; bytes.len() < 100);
    let low = last_datum(&bytes, &info(35, 35), &rules(4, 2), 0);
    assert!(rt;
        low == Some(Datum {
            doc: 30,
            freq: 31,
            prox: 31,
            payload: 0
        })
    );
    let high = last_datum(&bytes, &info(35, 35), &rules(4, 2), 1);
    assert!(rt;
        high == Some(Datum {
            doc: 30,
            freq: 31,
            prox: 31,
            payload: 0
        })
    );
    assert!(rt; last_datum(&bytes, &info(35, 35), &rules(4, 2), 2) == None);
    let payloads = TermRules {
        payloads: true,
        ..rules(2, 1)
    };
    let stated = last_datum(
        &[1, 3, 3, 3, 1, 7, 1, 5, 4, 2, 2],
        &info(4, 4),
        &payloads,
        0,
    );
    assert!(rt;
        stated
            == Some(Datum {
                doc: 2,
                freq: 3,
                prox: 7,
                payload: 7
            })
    );
    Ok(())
}

/// The first two entries of a term that is good, what follows them, and how many steps were taken.
fn first_entries(
    frq: &[u8],
    info: &TermInfo,
    rules: &TermRules,
) -> Option<([Option<Entry>; 3], u64)>
    requires interval { 2 ≤ rules.now.skip_interval }
    requires some { 0 < info.now.doc_freq }
    requires within { info.now.freq ≤ length frq.now }
{
    if check_term(frq, info.freq as usize, info, rules).is_err() {
        return None;
    }
    let mut steps: Steps<Read> = Steps::new();
    let mut entries = Entries::at(frq, info, rules);
    let found = [
        entries.next(&mut steps),
        entries.next(&mut steps),
        entries.next(&mut steps),
    ];
    Some((found, steps.count()))
}

/// A term once in document 7 and three times in document 11.
fn two_entries(rt: &impl Abort) {
    let term = info(2, 0);
    assert!(rt;
        SkipPoint::start(&term)
            == SkipPoint {
                passed: 0,
                doc: 0,
                freq: 0,
                prox: 0
            }
    );
    let wanted = [
        Some(Entry { doc: 7, freq: 1 }),
        Some(Entry { doc: 11, freq: 3 }),
        None,
    ];
    assert!(rt;
        first_entries(&[0x0F, 0x08, 0x03, 0x55], &term, &rules(16, 10)) == Some((wanted, 3))
    );
}

/// The point that is found for a target in a term that is good, and how many steps that takes.
fn found(frq: &[u8], info: &TermInfo, rules: &TermRules, target: u32) -> Option<(SkipPoint, u64)>
    requires interval { 2 ≤ rules.now.skip_interval }
    requires some { 0 < info.now.doc_freq }
    requires within { info.now.freq ≤ length frq.now }
    requires small { length frq.now < 2 ^ 32 }
    requires places { HasKnownPlaces info.now rules.now frq.now }
{
    if check_term(frq, info.freq as usize, info, rules).is_err() {
        return None;
    }
    let mut steps: Steps<Read> = Steps::new();
    let mut skips = Skips::at(frq, info, rules);
    let point = skips.find(target, &mut steps);
    Some((point, steps.count()))
}

/// The points of a term of two levels, whose entries and positions take a byte each, and the data that are read for them: all of
/// the upper level, up to the first that does not lead below the target, and then those of the lower one.
fn finds(rt: &impl Abort, alloc: Global) -> Result<(), Fail> {
    let (bytes, delta) = written(rt, alloc, 35, 4, 2)?;
    assert!(rt; bytes.len() < 100);
    let rows = [
        (35, 31, 30, 2),
        (34, 31, 30, 2),
        (20, 19, 18, 4),
        (0, 0, 0, 2),
    ];
    for (target, passed, doc, steps) in rows {
        let wanted = SkipPoint {
            passed,
            doc,
            freq: passed,
            prox: passed,
        };
        let point = found(&bytes, &info(35, delta), &rules(4, 2), target);
        assert!(rt;
            point == Some((wanted, steps)),
            "target {target}: {point:?}"
        );
        assert!(rt; steps <= 2 + 4 * 2);
    }
    Ok(())
}

#[test]
fn terms(rt: HostRuntime) -> Result<(), Fail> {
    let alloc = rt.alloc();
    terms_in_turn();
    writes(&rt, alloc)?;
    refuses(&rt, alloc)?;
    reads(&rt, alloc)?;
    two_entries(&rt);
    finds(&rt, alloc)?;
    Ok(())
}
