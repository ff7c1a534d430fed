//! Drawn terms are written, checked, read and sought at every target, and two rows of bytes.
ghost use Rattle.std.specs.Prelude.{◌≡◌, ◌<◌, ◌≤◌, ◌^◌, [], length, IfOk};
ghost use Rattle.freq_skips.specs.Points.{HasKnownPlaces};

use freq_skips::{
    Datum, Entries, Entry, FreqWriter, SkipPoint, Skips, TermRules, Walk, WalkedEntry, check_term,
};
use lu_prims::Steps;
use lu_types::TermInfo;
use std::alloc::Global;
use std::process::Abort;
use std::test::Fail;

/// A label of steps.
struct Read;

/// How many terms are drawn.
const TERMS: u64 = 300;

/// More documents than any drawn term reaches.
const DOCUMENTS: u32 = 1 << 24;

/// Draws numbers, the same for the same state.
#[derive(Drop)]
struct Draws {
    state: u64,
}

impl Draws {
    /// A number below a limit.
    fn below(&mut self, limit: u32) -> u32
        requires { 0 < limit }
        ensures { result < limit }
    {
        self.state = self
            .state
            .wrapping_mul(6_364_136_223_846_793_005)
            .wrapping_add(1_442_695_040_888_963_407);
        let mixed: u64 = self.state ^ (self.state >> 22);
        let high = mixed / 0x1_0000_0000;
        (high % u64::from(limit)) as u32
    }

    /// Yes or no.
    fn yes(&mut self) -> bool {
        self.below(2) == 1
    }
}

/// An entry as it is handed over: the document, how often the term stands in it, and the bytes of positions before its own.
#[derive(Clone, Copy, Debug, PartialEq, Eq)]
struct Given {
    doc: u32,
    freq: u32,
    prox: u32,
}

/// A term: the interval and the most levels of its file, what its field keeps, and its entries.
#[derive(Drop)]
struct Drawn {
    interval: u32,
    levels: u32,
    omit_tf: bool,
    payloads: bool,
    entries: Vec<Given>,
}

/// How far a document is above the one before: mostly from 1 to 20, and one in sixteen is larger.
fn drawn_gap(draws: &mut Draws) -> u32
    ensures some { 0 < result }
    ensures small { result < 2 ^ 20 }
{
    if draws.below(16) == 0 {
        1 + draws.below(200)
    } else {
        1 + draws.below(20)
    }
}

/// So many entries, in the order of their documents.
fn drawn_entries(
    rt: &impl Abort,
    alloc: Global,
    draws: &mut Draws,
    count: u32,
) -> Result<Vec<Given>, Fail> {
    let mut entries = Vec::new(alloc);
    let mut doc = draws.below(20);
    let mut prox = 0;
    for _ in 0..count {
        assert!(rt; doc < DOCUMENTS && prox < DOCUMENTS);
        let freq = 1 + draws.below(5);
        entries.push(Given { doc, freq, prox })?;
        doc += drawn_gap(draws);
        prox += draws.below(200);
    }
    Ok(entries)
}

/// The term with a number: intervals from 2 to 16, up to 6 levels.
fn drawn_term(rt: &impl Abort, alloc: Global, number: u64) -> Result<Drawn, Fail> {
    let mut draws = Draws { state: number };
    let interval = 2 + draws.below(15);
    let levels = 1 + draws.below(6);
    let omit_tf = draws.yes();
    let payloads = draws.yes();
    let count = 1 + draws.below(80);
    let entries = drawn_entries(rt, alloc, &mut draws, count)?;
    Ok(Drawn {
        interval,
        levels,
        omit_tf,
        payloads,
        entries,
    })
}

/// A file whose last term was written: its bytes, and what the dictionary says of that term.
#[derive(Drop)]
struct WrittenFile {
    bytes: Vec<u8>,
    info: TermInfo,
}

/// A file of a term of one entry, and where the drawn term behind it starts.
fn begun_file(rt: &impl Abort, alloc: Global, drawn: &Drawn) -> Result<(FreqWriter, u32), Fail>
    requires { 2 ≤ drawn.now.interval }
    ensures interval { IfOk result (λ x. x.0.interval ≡ drawn.now.interval) }
    ensures levels { IfOk result (λ x. x.0.most ≡ drawn.now.levels) }
    ensures omit { IfOk result (λ x. x.0.omit ≡ drawn.now.omit_tf) }
    ensures payloads { IfOk result (λ x. x.0.payloads ≡ drawn.now.payloads) }
    ensures none { IfOk result (λ x. x.0.entries ≡ []) }
    ensures place { IfOk result (λ x. x.1 ≡ length x.0.bytes) }
{
    let mut writer = FreqWriter::new(alloc, drawn.interval, drawn.levels)?;
    writer.start(false, false);
    writer.add(300, 1, 0)?;
    assert!(rt; writer.len() < 1 << 31);
    let none = writer.finish_term()?;
    assert!(rt; none == 0 && writer.len() == 2);
    let place = writer.start(drawn.omit_tf, drawn.payloads);
    Ok((writer, place))
}

/// The file of a term of one entry and, after it, the drawn term.
fn written(rt: &impl Abort, alloc: Global, drawn: &Drawn) -> Result<WrittenFile, Fail>
    requires { 2 ≤ drawn.now.interval }
    ensures places { IfOk result (λ file. HasKnownPlaces file.info
        (record { documents = 2 ^ 24; skip_interval = drawn.now.interval; max_levels = drawn.now.levels; omit_tf = drawn.now.omit_tf; payloads = drawn.now.payloads }) file.bytes.items) }
{
    let (mut writer, freq) = begun_file(rt, alloc, drawn)?;
    let mut next = 0;
    let mut prox = 0;
    for given in &drawn.entries {
        assert!(rt; next <= given.doc);
        assert!(rt; given.doc < DOCUMENTS);
        assert!(rt; given.freq >= 1);
        assert!(rt; given.freq < 100);
        assert!(rt; prox <= given.prox);
        assert!(rt; given.prox < DOCUMENTS);
        writer.add(given.doc, given.freq, given.prox)?;
        next = given.doc + 1;
        prox = given.prox;
    }
    assert!(rt; writer.count() > 0);
    assert!(rt; writer.len() < 1 << 31);
    let doc_freq = writer.count();
    let skip = writer.finish_term()?;
    assert!(rt; writer.len() < 1 << 31);
    let info = TermInfo {
        field: 0,
        doc_freq,
        freq,
        prox: 0,
        skip,
    };
    Ok(WrittenFile {
        bytes: writer.finish(),
        info,
    })
}

/// What the records of the term are read by.
fn rules_of(drawn: &Drawn) -> TermRules
    ensures { result ≡ record { documents = 2 ^ 24; skip_interval = drawn.now.interval; max_levels = drawn.now.levels; omit_tf = drawn.now.omit_tf; payloads = drawn.now.payloads } }
{
    TermRules {
        documents: DOCUMENTS,
        skip_interval: drawn.interval,
        max_levels: drawn.levels,
        omit_tf: drawn.omit_tf,
        payloads: drawn.payloads,
    }
}

/// How often the term stands in the document of an entry, as its field tells.
fn frequency(drawn: &Drawn, given: &Given) -> u32 {
    if drawn.omit_tf { 1 } else { given.freq }
}

/// The term is good, and ends where the bytes end.
fn ends_there(rt: &impl Abort, frq: &[u8], info: &TermInfo, rules: &TermRules) {
    assert!(rt; rules.skip_interval >= 2 && info.freq as usize <= frq.len());
    match check_term(frq, info.freq as usize, info, rules) {
        Err(spot) => panic!(rt; "rule {} at {}", spot.rule, spot.offset),
        Ok(end) => assert!(rt; end == frq.len()),
    }
}

/// The entries of the term are those that were handed over.
fn same_entries(rt: &impl Abort, frq: &[u8], info: &TermInfo, rules: &TermRules, drawn: &Drawn) {
    assert!(rt; rules.skip_interval >= 2 && info.freq as usize <= frq.len());
    assert!(rt; info.doc_freq > 0);
    if check_term(frq, info.freq as usize, info, rules).is_err() {
        panic!(rt; "the term is good");
    }
    let mut steps: Steps<Read> = Steps::new();
    let mut entries = Entries::at(frq, info, rules);
    for given in &drawn.entries {
        let wanted = Entry {
            doc: given.doc,
            freq: frequency(drawn, given),
        };
        assert!(rt; entries.next(&mut steps) == Some(wanted));
    }
    assert!(rt; entries.next(&mut steps).is_none());
    assert!(rt; steps.count() == u64::from(info.doc_freq) + 1);
}

/// A number multiplied with itself so often; a product that is too great is the greatest number.
fn power(base: u32, exponent: u32) -> u64 {
    let mut product: u64 = 1;
    for _ in 0..exponent {
        product = product.saturating_mul(u64::from(base));
    }
    product
}

/// How many skip levels the term is to have: the greatest number, up to the most, whose power of the interval is within the
/// number of entries.
fn levels_of(drawn: &Drawn) -> u32 {
    let count = drawn.entries.len() as u64;
    let mut greatest = 0;
    for number in 1..=drawn.levels {
        if power(drawn.interval, number) <= count {
            greatest = number;
        }
    }
    greatest
}

/// How many bytes a number takes.
fn size(rt: &impl Abort, number: u32) -> u32
    ensures { result ≤ 3 }
{
    assert!(rt; number < 1 << 21);
    if number < 1 << 7 {
        1
    } else if number < 1 << 14 {
        2
    } else {
        3
    }
}

/// How many bytes an entry takes that is so far above the one before.
fn entry_size(rt: &impl Abort, drawn: &Drawn, gap: u32, freq: u32) -> u32
    ensures { result ≤ 6 }
{
    if drawn.omit_tf {
        return size(rt, gap);
    }
    assert!(rt; gap < 1 << 20);
    if freq == 1 {
        size(rt, 2 * gap + 1)
    } else {
        size(rt, 2 * gap) + size(rt, freq)
    }
}

/// How many bytes the first entries take.
fn bytes_of_first(rt: &impl Abort, drawn: &Drawn, count: usize) -> u32 {
    let mut sum = 0;
    let mut last = 0;
    for given in drawn.entries.iter().take(count) {
        assert!(rt; last <= given.doc && sum < 1 << 20);
        sum += entry_size(rt, drawn, given.doc - last, given.freq);
        last = given.doc;
    }
    sum
}

/// The datum of a level that belongs to the entry with an index, from 0, by the definition.
fn wanted_datum(rt: &impl Abort, drawn: &Drawn, index: usize, level: u32) -> Option<Datum> {
    assert!(rt; index < drawn.entries.len() && level < 100);
    let stride = power(drawn.interval, level + 1);
    assert!(rt; stride > 1 && index < 100);
    if level >= levels_of(drawn) || (index as u64 + 1) % stride != 0 {
        return None;
    }
    assert!(rt; index > 0);
    let given = drawn.entries[index];
    let before = drawn.entries[index - 1];
    Some(Datum {
        doc: before.doc,
        freq: bytes_of_first(rt, drawn, index),
        prox: if drawn.omit_tf {
            0
        } else {
            u64::from(given.prox)
        },
        payload: 0,
    })
}

/// The data that a walk tells of its last entry, which has an index, are those of the definition; answers how many they are.
fn same_data(rt: &impl Abort, walk: &Walk, drawn: &Drawn, index: usize) -> u32 {
    let mut found = 0;
    for level in 0..12 {
        let wanted = wanted_datum(rt, drawn, index, level);
        assert!(rt; found < 12);
        if wanted.is_some() {
            found += 1;
        }
        assert!(rt; walk.datum(level) == wanted, "entry {index}, level {level}");
    }
    found
}

/// A walk tells the entries that were handed over, and with each its data; answers how many data.
fn same_walk(
    rt: &impl Abort,
    frq: &[u8],
    info: &TermInfo,
    rules: &TermRules,
    drawn: &Drawn,
) -> u32 {
    assert!(rt; rules.skip_interval >= 2 && info.freq as usize <= frq.len());
    assert!(rt; info.doc_freq > 0 && frq.len() < 1 << 31);
    if check_term(frq, info.freq as usize, info, rules).is_err() {
        panic!(rt; "the term is good");
    }
    let mut walk = Walk::at(frq, info, rules);
    assert!(rt; walk.datum(0).is_none());
    let mut found = 0;
    for index in 0..drawn.entries.len() {
        assert!(rt; index < 100 && found < 10_000);
        let given = drawn.entries[index];
        let wanted = WalkedEntry {
            index: index as u32,
            doc: given.doc,
            freq: frequency(drawn, &given),
        };
        assert!(rt; walk.next() == Some(wanted));
        let more = same_data(rt, &walk, drawn, index);
        assert!(rt; more <= 12);
        found += more;
    }
    assert!(rt; walk.next().is_none());
    found
}

/// The point before the entry with an index, by the definition; the start of the term for 0.
fn wanted_point(rt: &impl Abort, drawn: &Drawn, start: u32, passed: usize) -> SkipPoint {
    if passed == 0 {
        return SkipPoint {
            passed: 0,
            doc: 0,
            freq: start,
            prox: 0,
        };
    }
    assert!(rt; passed < drawn.entries.len() && passed < 100 && start < 100);
    let bytes = bytes_of_first(rt, drawn, passed);
    assert!(rt; bytes < 1 << 20);
    SkipPoint {
        passed: passed as u32,
        doc: drawn.entries[passed - 1].doc,
        freq: start + bytes,
        prox: if drawn.omit_tf {
            0
        } else {
            drawn.entries[passed].prox
        },
    }
}

/// Which entry the last point below a target leads to, by the definition: the last that has a datum on the lowest level and
/// stands behind a document below the target.
fn last_below(rt: &impl Abort, drawn: &Drawn, target: u32) -> usize {
    let mut passed = 0;
    if levels_of(drawn) == 0 {
        return passed;
    }
    for index in 1..drawn.entries.len() {
        assert!(rt; index < 100 && drawn.interval > 0);
        let has_datum = (index as u32 + 1) % drawn.interval == 0;
        if has_datum && drawn.entries[index - 1].doc < target {
            passed = index;
        }
    }
    passed
}

/// At every target up to behind the last document the point is found that the definition tells.
fn same_points(rt: &impl Abort, file: &WrittenFile, rules: &TermRules, drawn: &Drawn)
    requires { HasKnownPlaces file.now.info rules.now file.now.bytes.items }
{
    let frq = file.bytes.as_slice();
    assert!(rt; rules.skip_interval >= 2 && frq.len() < 1 << 31);
    assert!(rt; file.info.doc_freq > 0 && file.info.freq as usize <= frq.len());
    if check_term(frq, file.info.freq as usize, &file.info, rules).is_err() {
        panic!(rt; "the term is good");
    }
    let mut skips = Skips::at(frq, &file.info, rules);
    let last = drawn.entries.last().map_or(0, |given| given.doc);
    for target in 0..last.saturating_add(2) {
        let wanted = wanted_point(rt, drawn, file.info.freq, last_below(rt, drawn, target));
        let mut steps: Steps<Read> = Steps::new();
        assert!(rt; skips.find(target, &mut steps) == wanted, "target {target}");
    }
}

/// With one byte of the term set to another value the check still answers, with a fault within the file where it refuses.
fn answers(
    rt: &impl Abort,
    alloc: Global,
    file: &WrittenFile,
    rules: &TermRules,
    draws: &mut Draws,
) -> Result<(), Fail> {
    let frq = file.bytes.as_slice();
    let start = file.info.freq as usize;
    assert!(rt; rules.skip_interval >= 2 && start < frq.len() && frq.len() < 10_000);
    let place = start + draws.below((frq.len() - start) as u32) as usize;
    let mut changed = frq.to_vec(alloc)?;
    assert!(rt; place < changed.len() && changed.len() == frq.len());
    changed[place] = ((u32::from(changed[place]) + 1 + draws.below(255)) % 256) as u8;
    assert!(rt; changed[place] != frq[place]);
    match check_term(&changed, start, &file.info, rules) {
        Err(spot) => assert!(rt; spot.offset >= start as u64 && spot.offset <= frq.len() as u64),
        Ok(end) => assert!(rt; end > start && end <= frq.len()),
    }
    Ok(())
}

/// Once in document 7 and three times in document 11, in a field with frequencies or without: its bytes, checked and read.
#[tactic(auto, using(freq_skips::proofs::RunLemmas::added_last, freq_skips::proofs::RunLemmas::added_some))]
fn row(rt: &impl Abort, alloc: Global, omit_tf: bool, bytes: &[u8]) -> Result<(), Fail> {
    let mut writer = FreqWriter::new(alloc, 16, 10)?;
    let place = writer.start(omit_tf, false);
    writer.add(7, 1, 0)?;
    writer.add(11, 3, 1)?;
    assert!(rt; writer.len() < 100);
    let delta = writer.finish_term()?;
    let frq = writer.finish();
    assert!(rt; place == 0 && delta == 0 && frq.as_slice() == bytes);
    let mut entries = Vec::new(alloc);
    for (doc, freq, prox) in [(7, 1, 0), (11, 3, 1)] {
        entries.push(Given { doc, freq, prox })?;
    }
    let drawn = Drawn {
        interval: 16,
        levels: 10,
        omit_tf,
        payloads: false,
        entries,
    };
    let info = TermInfo {
        field: 0,
        doc_freq: 2,
        freq: 0,
        prox: 0,
        skip: 0,
    };
    let rules = rules_of(&drawn);
    ends_there(rt, &frq, &info, &rules);
    same_entries(rt, &frq, &info, &rules, &drawn);
    assert!(rt; same_walk(rt, &frq, &info, &rules, &drawn) == 0);
    Ok(())
}

/// The term with a number is written, checked, read and sought; answers how many skip data it has.
fn try_term(rt: &impl Abort, alloc: Global, number: u64) -> Result<u32, Fail> {
    let drawn = drawn_term(rt, alloc, number)?;
    assert!(rt; drawn.interval >= 2);
    let file = written(rt, alloc, &drawn)?;
    let rules = rules_of(&drawn);
    ends_there(rt, &file.bytes, &file.info, &rules);
    same_entries(rt, &file.bytes, &file.info, &rules, &drawn);
    let found = same_walk(rt, &file.bytes, &file.info, &rules, &drawn);
    same_points(rt, &file, &rules, &drawn);
    let mut draws = Draws { state: number };
    answers(rt, alloc, &file, &rules, &mut draws)?;
    Ok(found)
}

#[test]
fn drawn_terms(rt: HostRuntime) -> Result<(), Fail> {
    let alloc = rt.alloc();
    let mut with_data = 0;
    for number in 0..TERMS {
        assert!(rt; with_data < TERMS);
        if try_term(&rt, alloc, number)? > 0 {
            with_data += 1;
        }
    }
    assert!(rt; with_data > 200);
    Ok(())
}

#[test]
fn rows(rt: HostRuntime) -> Result<(), Fail> {
    let alloc = rt.alloc();
    row(&rt, alloc, false, &[0x0F, 0x08, 0x03])?;
    row(&rt, alloc, true, &[0x07, 0x04])?;
    Ok(())
}
