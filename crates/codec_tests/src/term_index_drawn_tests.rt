//! Drawn dictionaries: written, checked, walked and sought, against the terms that were handed in.
ghost use Rattle.std.specs.Prelude.{◌≡◌, ◌<◌, true};

use lu_prims::{OutOfMemory, Steps, utf16_cmp};
use lu_types::{FieldTable, TermInfo};
use std::alloc::Global;
use std::cmp::Ordering;
use std::process::Abort;
use std::test::Fail;
use term_dict::{TermCursor, TermFile, TermFiles, TermWriter};
use term_index::{TermIndex, check_tii};

/// What is compared.
struct Compared;

/// How many dictionaries are drawn.
const DICTIONARIES: u64 = 300;

/// What texts are made of, of one to four bytes each, in the order of the units of UTF-16.
const LETTERS: [char; 6] = ['a', 'è', 'é', '字', '\u{10000}', '\u{ff61}'];

/// The names of the indexed fields, in the order of the units of UTF-16.
const NAMES: [&str; 3] = ["é", "é\u{10000}", "é\u{ff61}"];

/// The name of a field that is not indexed.
const STORED: &str = "a";

/// A name that no field has.
const MISSING: &str = "\u{10000}";

/// In how many documents a term stands at most.
const DOCUMENTS: u32 = 20;

/// Numbers that look drawn, and are the same for the same seed.
#[derive(Drop)]
struct Draw {
    state: u64,
}

impl Draw {
    /// The numbers of a seed.
    fn seeded(seed: u64) -> Draw {
        let mut draw = Draw { state: seed };
        draw.below(1);
        draw
    }

    /// The next number, below a bound.
    fn below(&mut self, bound: u32) -> u32
        requires { 0 < bound }
        ensures { result < bound }
    {
        self.state = self
            .state
            .wrapping_mul(6364136223846793005)
            .wrapping_add(1442695040888963407);
        let high = (self.state >> 33) % u64::from(bound);
        high as u32
    }
}

/// The intervals of a dictionary, and how many texts are drawn for a field at most.
#[derive(Clone, Copy)]
struct Shape {
    index: u32,
    skip: u32,
    most: u32,
}

/// A term that was handed in: the name of its field, its text, and what is said of it.
#[derive(Drop)]
struct Handed {
    name: &'static str,
    text: String,
    info: TermInfo,
}

/// Intervals of terms and of skip data, and a bound on the texts of a field.
fn drawn_shape(draw: &mut Draw) -> Shape {
    let index = [1, 2, 4, 128][draw.below(4) as usize];
    let skip = [2, 16][draw.below(2) as usize];
    let most = draw.below(19);
    Shape { index, skip, most }
}

/// A text of at most three letters.
fn drawn_text(alloc: Global, draw: &mut Draw) -> Result<String, OutOfMemory> {
    let mut text = String::new(alloc);
    for _ in 0..draw.below(4) {
        text.push(LETTERS[draw.below(6) as usize])?;
    }
    Ok(text)
}

/// The place of a text among rising ones; `None` where it is one of them.
fn place_of(texts: &[String], text: &str) -> Option<usize> {
    for (place, other) in texts.iter().enumerate() {
        match utf16_cmp(other.as_str(), text) {
            Ordering::Less => {}
            Ordering::Equal => return None,
            Ordering::Greater => return Some(place),
        }
    }
    Some(texts.len())
}

/// Rising texts, at most so many.
fn drawn_texts(
    rt: &impl Abort,
    alloc: Global,
    draw: &mut Draw,
    most: u32,
) -> Result<Vec<String>, OutOfMemory> {
    assert!(rt; most < 100);
    let mut texts = Vec::new(alloc);
    for _ in 0..draw.below(most + 1) {
        let text = drawn_text(alloc, draw)?;
        if let Some(place) = place_of(texts.as_slice(), text.as_str()) {
            assert!(rt; place <= texts.len());
            texts.insert(place, text)?;
        }
    }
    Ok(texts)
}

/// A place at this one or a little above it.
fn drawn_place(rt: &impl Abort, draw: &mut Draw, place: u32) -> u32 {
    assert!(rt; place < 1_000_000);
    place + draw.below(300)
}

/// What is said of a term of a field after a term of which this is said.
fn drawn_info(
    rt: &impl Abort,
    draw: &mut Draw,
    field: u32,
    last: &TermInfo,
    skip_interval: u32,
) -> TermInfo {
    let doc_freq = 1 + draw.below(DOCUMENTS);
    let skip = 1 + draw.below(1000);
    TermInfo {
        field,
        doc_freq,
        freq: drawn_place(rt, draw, last.freq),
        prox: drawn_place(rt, draw, last.prox),
        skip: if doc_freq < skip_interval { 0 } else { skip },
    }
}

/// Adds terms of one field.
fn hand_in(
    rt: &impl Abort,
    alloc: Global,
    draw: &mut Draw,
    handed: &mut Vec<Handed>,
    name: &'static str,
    field: u32,
    shape: Shape,
) -> Result<(), OutOfMemory> {
    for text in drawn_texts(rt, alloc, draw, shape.most)? {
        let last = match handed.last() {
            Some(term) => term.info,
            None => BEFORE,
        };
        let info = drawn_info(rt, draw, field, &last, shape.skip);
        handed.push(Handed { name, text, info })?;
    }
    Ok(())
}

/// What the first term follows.
const BEFORE: TermInfo = TermInfo {
    field: 0,
    doc_freq: 0,
    freq: 0,
    prox: 0,
    skip: 0,
};

/// Adds a field.
fn push_field<'a>(
    rt: &impl Abort,
    fields: &mut FieldTable<'a>,
    name: &'a str,
    bits: u8,
) -> Result<(), OutOfMemory>
    requires { bits < 128 }
{
    assert!(rt; fields.find(name).is_none());
    assert!(rt; fields.count() < 9);
    fields.push(name, bits)
}

/// The last two or all three of the indexed fields, and the stored one, in an order that is drawn.
fn drawn_fields<'a>(
    rt: &impl Abort,
    alloc: Global,
    draw: &mut Draw,
) -> Result<FieldTable<'a>, OutOfMemory> {
    let mut fields = FieldTable::new(alloc);
    let [first, second, third] = NAMES;
    let falls = draw.below(2) == 1;
    let (low, high) = if falls {
        (third, second)
    } else {
        (second, third)
    };
    push_field(rt, &mut fields, low, 0x01)?;
    push_field(rt, &mut fields, STORED, 0x10)?;
    push_field(rt, &mut fields, high, 0x01)?;
    if draw.below(2) == 1 {
        push_field(rt, &mut fields, first, 0x01)?;
    }
    Ok(fields)
}

/// Rising terms of the indexed fields.
fn drawn_terms(
    rt: &impl Abort,
    alloc: Global,
    draw: &mut Draw,
    fields: &FieldTable<'_>,
    shape: Shape,
) -> Result<Vec<Handed>, OutOfMemory> {
    let mut handed = Vec::new(alloc);
    for name in NAMES {
        if let Some(field) = fields.find(name) {
            hand_in(rt, alloc, draw, &mut handed, name, field, shape)?;
        }
    }
    Ok(handed)
}

/// Whether a term of which this is said has skip data only from so many documents on.
fn has_skip_where_due(info: &TermInfo, skip_interval: u32) -> bool
    ensures { result ≡ true → info.now.doc_freq < skip_interval → info.now.skip ≡ 0 }
{
    info.skip == 0 || skip_interval <= info.doc_freq
}

/// The files of the terms.
#[tactic(auto, using(term_index::proofs::PassLemmas::pushing))]
fn written(
    rt: &impl Abort,
    alloc: Global,
    handed: &[Handed],
    shape: Shape,
) -> Result<TermFiles, OutOfMemory> {
    let Shape { index, skip, .. } = shape;
    assert!(rt; 1 <= index && index < 1000);
    assert!(rt; 2 <= skip && skip < 1000);
    let mut writer = TermWriter::new(alloc, index, skip, 10)?;
    let mut freq = 0;
    let mut prox = 0;
    for term in handed {
        let info = term.info;
        assert!(rt; term.text.len() < 100);
        assert!(rt; info.field < 9 && info.doc_freq < 100 && info.skip < 10_000);
        assert!(rt; freq <= info.freq);
        assert!(rt; prox <= info.prox);
        assert!(rt; has_skip_where_due(&info, skip));
        writer.add(term.text.as_str(), &info)?;
        freq = info.freq;
        prox = info.prox;
    }
    writer.finish()
}

/// The walk passes exactly the terms that were handed in, in their order.
fn walks(rt: &impl Abort, cursor: &mut TermCursor<'_>, handed: &[Handed]) {
    for term in handed {
        assert_eq!(rt; cursor.next(), Some(term.info));
        assert_eq!(rt; cursor.text(), term.text.as_str());
    }
    assert!(rt; cursor.next().is_none());
    assert!(rt; cursor.next().is_none());
}

/// What was handed in of the term with this text in the field with this name.
fn handed_in(handed: &[Handed], name: &str, text: &str) -> Option<TermInfo> {
    for term in handed {
        if term.name == name && term.text.as_str() == text {
            return Some(term.info);
        }
    }
    None
}

/// Each term that was handed in is found.
fn finds_each(rt: &impl Abort, index: &mut TermIndex<'_>, handed: &[Handed]) {
    let mut steps: Steps<Compared> = Steps::new();
    for term in handed {
        assert_eq!(rt;
            index.seek(term.name, term.text.as_str(), &mut steps),
            Some(term.info)
        );
    }
}

/// A text is found in exactly the fields in which it was handed in.
fn finds_text(rt: &impl Abort, index: &mut TermIndex<'_>, handed: &[Handed], text: &str) {
    let mut steps: Steps<Compared> = Steps::new();
    for name in NAMES {
        assert_eq!(rt;
            index.seek(name, text, &mut steps),
            handed_in(handed, name, text)
        );
    }
    assert!(rt; index.seek(STORED, text, &mut steps).is_none());
    assert!(rt; index.seek(MISSING, text, &mut steps).is_none());
}

/// Drawn texts, there or not, are found in exactly the fields in which they were handed in.
fn finds_drawn(
    rt: &impl Abort,
    alloc: Global,
    draw: &mut Draw,
    index: &mut TermIndex<'_>,
    handed: &[Handed],
) -> Result<(), OutOfMemory> {
    for _ in 0..8 {
        let text = drawn_text(alloc, draw)?;
        finds_text(rt, index, handed, text.as_str());
    }
    Ok(())
}

/// The bytes with a drawn one of them set to another value.
fn changed(
    rt: &impl Abort,
    alloc: Global,
    draw: &mut Draw,
    bytes: &[u8],
) -> Result<Vec<u8>, OutOfMemory> {
    let mut copy = Vec::from_slice(alloc, bytes)?;
    assert!(rt; 0 < copy.len() && copy.len() < 10_000);
    let place = draw.below(copy.len() as u32) as usize;
    let step = 1 + draw.below(255);
    copy[place] = copy[place].wrapping_add(step as u8);
    Ok(copy)
}

/// The checks answer on files of which one byte is not as it was.
fn checks_changed(
    rt: &impl Abort,
    alloc: Global,
    draw: &mut Draw,
    files: &TermFiles,
    fields: &FieldTable<'_>,
    terms: &TermFile<'_>,
) -> Result<(), OutOfMemory> {
    let tis = changed(rt, alloc, draw, files.tis.as_slice())?;
    assert!(rt; tis.len() < 10_000);
    let _ = TermFile::check_tis(alloc, tis.as_slice(), fields, DOCUMENTS);
    let tii = changed(rt, alloc, draw, files.tii.as_slice())?;
    let _ = check_tii(alloc, tii.as_slice(), terms);
    Ok(())
}

/// Files of terms that were handed in are accepted, walked and sought.
fn holds_terms<'a>(
    rt: &impl Abort,
    alloc: Global,
    draw: &mut Draw,
    files: &'a TermFiles,
    fields: FieldTable<'a>,
    handed: &[Handed],
) -> Result<(), Fail> {
    let tis = files.tis.as_slice();
    assert!(rt; tis.len() < 10_000);
    let Ok(terms) = TermFile::check_tis(alloc, tis, &fields, DOCUMENTS) else {
        return Err(Fail::from("good terms"));
    };
    let mut cursor = terms.cursor(alloc)?;
    walks(rt, &mut cursor, handed);
    cursor.rewind();
    walks(rt, &mut cursor, handed);
    let tii = files.tii.as_slice();
    let Ok(()) = check_tii(alloc, tii, &terms) else {
        return Err(Fail::from("a good index"));
    };
    let mut index = TermIndex::load(alloc, tii, &terms, &fields)?;
    finds_each(rt, &mut index, handed);
    finds_drawn(rt, alloc, draw, &mut index, handed)?;
    checks_changed(rt, alloc, draw, files, &fields, &terms)?;
    Ok(())
}

/// One dictionary, from its terms to what is found in it.
fn dictionary(rt: &impl Abort, alloc: Global, seed: u64) -> Result<(), Fail> {
    let mut draw = Draw::seeded(seed);
    let shape = drawn_shape(&mut draw);
    let fields = drawn_fields(rt, alloc, &mut draw)?;
    let handed = drawn_terms(rt, alloc, &mut draw, &fields, shape)?;
    let files = written(rt, alloc, handed.as_slice(), shape)?;
    holds_terms(rt, alloc, &mut draw, &files, fields, handed.as_slice())
}

#[test]
fn drawn_dictionaries(rt: HostRuntime) -> Result<(), Fail> {
    for seed in 0..DICTIONARIES {
        dictionary(&rt, rt.alloc(), seed)?;
    }
    Ok(())
}
