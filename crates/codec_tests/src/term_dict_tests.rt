ghost use Rattle.std.specs.Prelude.{◌≡◌, ◌≤◌, length};

use lu_prims::OutOfMemory;
use lu_types::{CodecFault, FieldTable, Spot};
use std::alloc::Global;
use std::test::Fail;
use term_dict::{TermFile, TermFiles, TermInfo, TermNumbers, TermWriter};

/// The fields `f` and `b`, which are indexed, and `a`, which is not.
fn three_fields<'a>(alloc: Global) -> Result<FieldTable<'a>, OutOfMemory> {
    let mut fields = FieldTable::new(alloc);
    for (name, bits) in [("f", 0x01), ("b", 0x01), ("a", 0x10)] {
        if fields.find(name).is_none() && fields.count() < 9 {
            fields.push(name, bits)?;
        }
    }
    Ok(fields)
}

/// What is said of a term of a field that is in one document, with these places.
fn once(field: u32, place: u32) -> TermInfo
    ensures { result ≡ record { field = field; doc_freq = 1; freq = place; prox = place; skip = 0 } }
{
    TermInfo {
        field,
        doc_freq: 1,
        freq: place,
        prox: place,
        skip: 0,
    }
}

/// The files of the terms `t000`, `t001` and so on, each in one document, with its number for both places.
#[tactic(auto, using(term_dict::proofs::LoopLemmas::pushing))]
fn numbered(alloc: Global, count: u32) -> Result<TermFiles, OutOfMemory>
    requires { count ≤ 1000 }
{
    let mut writer = TermWriter::new(alloc, 128, 16, 10)?;
    for number in 0..count {
        let text = format!(in alloc; "t{:03}", number)?;
        if text.len() < 100 {
            writer.add(text.as_str(), &once(0, number))?;
        }
    }
    writer.finish()
}

/// The files of two terms, the second with places one above those of the first.
fn pair(alloc: Global, first: &str, second: &str) -> Result<TermFiles, OutOfMemory>
    requires first { length first.now ≤ 99 }
    requires second { length second.now ≤ 99 }
{
    let mut writer = TermWriter::new(alloc, 128, 16, 10)?;
    writer.add(first, &once(1, 0))?;
    writer.add(second, &once(1, 1))?;
    writer.finish()
}

/// The place and the rule of the fault of some bytes, in a segment with three fields and so many documents; 0 and 0 where there
/// is none.
fn fault_of(alloc: Global, tis: &[u8], documents: u32) -> Result<(u64, u16), OutOfMemory> {
    if tis.len() > 9999 {
        return Err(OutOfMemory);
    }
    let fields = three_fields(alloc)?;
    match TermFile::check_tis(alloc, tis, &fields, documents) {
        Ok(_) => Ok((0, 0)),
        Err(CodecFault::Spot(Spot { offset, rule, .. })) => Ok((offset, rule)),
        Err(CodecFault::OutOfMemory) => Err(OutOfMemory),
    }
}

const HELLO_WORLD: &[u8] = b"\xFF\xFF\xFF\xFC\0\0\0\0\0\0\0\x02\0\0\0\x80\0\0\0\x10\0\0\0\x0A\
\0\x05hello\x01\x01\0\0\0\x05world\x01\x01\x01\x01";

/// The bytes from a place on.
fn tail(bytes: &[u8], from: usize) -> &[u8] {
    if from <= bytes.len() {
        bytes.split_at(from).1
    } else {
        bytes
    }
}

/// The bytes with one of them changed.
fn changed(alloc: Global, bytes: &[u8], place: usize, byte: u8) -> Result<Vec<u8>, OutOfMemory> {
    let mut copy = Vec::from_slice(alloc, bytes)?;
    if place < copy.len() {
        copy[place] = byte;
    }
    Ok(copy)
}

#[test]
fn two_terms_and_their_faults(rt: HostRuntime) -> Result<(), Fail> {
    let alloc = rt.alloc();
    let files = pair(alloc, "hello", "world")?;
    assert_eq!(rt; files.tis.as_slice(), HELLO_WORLD);
    assert_eq!(rt;
        files.tii.as_slice(),
        b"\xFF\xFF\xFF\xFC\0\0\0\0\0\0\0\x01\0\0\0\x80\0\0\0\x10\0\0\0\x0A\
\0\0\xFF\xFF\xFF\xFF\x0F\0\0\0\x18"
            .as_slice()
    );
    assert_eq!(rt; fault_of(alloc, HELLO_WORLD, 1)?, (0, 0));
    for (place, byte, fault) in [
        (3, 0xFB, (0, 50)),
        (4, 0xFF, (0, 51)),
        (8, 0x80, (0, 51)),
        (15, 0, (0, 52)),
        (19, 1, (0, 53)),
        (23, 0, (0, 54)),
        (11, 1, (35, 6)),
        (11, 3, (46, 1)),
        (35, 6, (35, 55)),
        (37, 0xFF, (35, 56)),
        (42, 2, (35, 57)),
        (42, 3, (35, 57)),
        (37, b'a', (35, 58)),
        (42, 0, (0, 0)),
        (43, 0, (35, 59)),
        (43, 2, (35, 59)),
    ] {
        let bytes = changed(alloc, HELLO_WORLD, place, byte)?;
        assert_eq!(rt; fault_of(alloc, bytes.as_slice(), 1)?, fault);
    }
    Ok(())
}

#[test]
fn texts_and_places(rt: HostRuntime) -> Result<(), Fail> {
    let alloc = rt.alloc();
    let accents = pair(alloc, "\u{e8}", "\u{e9}")?;
    assert_eq!(rt;
        tail(accents.tis.as_slice(), 32),
        b"\x01\x01\xA9\x01\x01\x01\x01".as_slice()
    );
    let rising = pair(alloc, "\u{10000}", "\u{ff61}")?;
    assert_eq!(rt; fault_of(alloc, rising.tis.as_slice(), 1)?, (0, 0));
    let falling = pair(alloc, "\u{ff61}", "\u{10000}")?;
    assert_eq!(rt; fault_of(alloc, falling.tis.as_slice(), 1)?, (33, 58));
    let shorter = b"\xFF\xFF\xFF\xFC\0\0\0\0\0\0\0\x02\0\0\0\x80\0\0\0\x10\0\0\0\x0A\
\0\x02ab\x01\x01\0\0\0\x02ac\x01\x01\0\0";
    assert_eq!(rt; fault_of(alloc, shorter.as_slice(), 1)?, (0, 0));
    let far = b"\xFF\xFF\xFF\xFC\0\0\0\0\0\0\0\x01\0\0\0\x80\0\0\0\x10\0\0\0\x0A\
\0\x01a\x01\x01\0\x80\x80\x80\x80\x08";
    assert_eq!(rt; fault_of(alloc, far.as_slice(), 1)?, (24, 60));
    let none = numbered(alloc, 0)?;
    assert_eq!(rt; none.tis.as_slice().len(), 24);
    assert_eq!(rt; none.tii.as_slice().len(), 24);
    assert_eq!(rt; fault_of(alloc, none.tis.as_slice(), 0)?, (0, 0));
    Ok(())
}

/// How many bytes the record of a numbered term takes: six, and those digits or letters that differ from the text before.
fn record_size(number: u32) -> usize {
    if number == 0 {
        10
    } else if number % 100 == 0 {
        9
    } else if number % 10 == 0 {
        8
    } else {
        7
    }
}

#[test]
fn many_terms(rt: HostRuntime) -> Result<(), Fail> {
    let alloc = rt.alloc();
    let files = numbered(alloc, 129)?;
    let tis = files.tis.as_slice();
    assert_eq!(rt; files.tii.as_slice().len(), 47);
    if let [front @ .., a, b, c, d, e, f, g, h, i, j, k, l] = files.tii.as_slice() {
        assert_eq!(rt; front.len(), 35);
        assert_eq!(rt;
            [*a, *b, *c, *d, *e, *f, *g, *h, *i, *j, *k, *l],
            *b"\0\x04t127\0\x01\x7F\x7F\x90\x07"
        );
    }
    let mut start = 0usize;
    let mut next = 24usize;
    let mut number = 0u32;
    for cut in 0..tis.len() {
        if cut == next {
            start = next;
            next = next.saturating_add(record_size(number));
            number = number.wrapping_add(1);
        }
        assert_eq!(rt; fault_of(alloc, tis.split_at(cut).0, 1)?, (start as u64, 1));
    }
    assert_eq!(rt; (start, next, number), (936, tis.len(), 129));
    Ok(())
}

#[test]
fn walks(rt: HostRuntime) -> Result<(), Fail> {
    let alloc = rt.alloc();
    let files = numbered(alloc, 129)?;
    let tis = files.tis.as_slice();
    assert!(rt; tis.len() <= 9999);
    let fields = three_fields(alloc)?;
    let terms = TermFile::check_tis(alloc, tis, &fields, 1)
        .ok()
        .ok_or("good terms")?;
    assert_eq!(rt;
        terms.numbers(),
        TermNumbers {
            count: 129,
            index_interval: 128,
            skip_interval: 16,
            max_levels: 10
        }
    );
    let mut cursor = terms.cursor(alloc)?;
    assert_eq!(rt; cursor.text(), "");
    assert_eq!(rt; cursor.place(), 24);
    for number in 0..129 {
        assert_eq!(rt; cursor.next(), Some(once(0, number)));
        let text = format!(in alloc; "t{:03}", number)?;
        assert_eq!(rt; cursor.text(), text.as_str());
        if number == 127 {
            assert_eq!(rt; cursor.place(), 936);
        }
    }
    assert_eq!(rt; cursor.place() as usize, tis.len());
    assert!(rt; cursor.next().is_none());
    cursor.rewind();
    assert_eq!(rt; cursor.place(), 24);
    assert_eq!(rt; cursor.next(), Some(once(0, 0)));
    Ok(())
}
