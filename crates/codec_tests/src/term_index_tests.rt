ghost use Rattle.std.specs.Prelude.{◌≡◌, ◌≤◌, length};

use lu_prims::{OutOfMemory, Steps};
use lu_types::{CodecFault, FieldTable, Spot, TermInfo};
use std::alloc::Global;
use std::process::Abort;
use std::test::Fail;
use term_dict::{TermFile, TermFiles, TermWriter};
use term_index::{TermIndex, check_tii};

/// What is compared.
struct Compared;

/// The field `f`, which is indexed.
fn one_field<'a>(alloc: Global) -> Result<FieldTable<'a>, OutOfMemory> {
    let mut fields = FieldTable::new(alloc);
    fields.push("f", 0x01)?;
    Ok(fields)
}

/// What is said of a term that is in one document, with these places.
fn once(place: u32) -> TermInfo
    ensures { result ≡ record { field = 0; doc_freq = 1; freq = place; prox = place; skip = 0 } }
{
    TermInfo {
        field: 0,
        doc_freq: 1,
        freq: place,
        prox: place,
        skip: 0,
    }
}

/// The files of terms of a text and three digits, `000`, `001` and so on, each in one document, with its number for both
/// places, and an index of every so many.
#[tactic(auto, using(term_index::proofs::PassLemmas::pushing))]
fn numbered(alloc: Global, name: &str, count: u32, interval: u32) -> Result<TermFiles, OutOfMemory>
    requires count { count ≤ 1000 }
    requires some { 1 ≤ interval }
    requires few { interval ≤ 1000 }
{
    let mut writer = TermWriter::new(alloc, interval, 16, 10)?;
    for number in 0..count {
        let text = format!(in alloc; "{}{:03}", name, number)?;
        if text.len() < 100 {
            writer.add(text.as_str(), &once(number))?;
        }
    }
    writer.finish()
}

/// The bytes from a place on.
fn tail(bytes: &[u8], from: usize) -> &[u8] {
    if from <= bytes.len() {
        bytes.split_at(from).1
    } else {
        bytes
    }
}

/// The bytes with one of them changed.
fn changed(alloc: Global, bytes: &[u8], place: usize, byte: u8) -> Result<Vec<u8>, OutOfMemory> {
    let mut copy = Vec::from_slice(alloc, bytes)?;
    if place < copy.len() {
        copy[place] = byte;
    }
    Ok(copy)
}

/// The place and the rule of the fault of an index; 0 and 0 where there is none.
fn fault_of(alloc: Global, tii: &[u8], terms: &TermFile<'_>) -> Result<(u64, u16), OutOfMemory> {
    match check_tii(alloc, tii, terms) {
        Ok(()) => Ok((0, 0)),
        Err(CodecFault::Spot(Spot { offset, rule, .. })) => Ok((offset, rule)),
        Err(CodecFault::OutOfMemory) => Err(OutOfMemory),
    }
}

#[test]
fn faults(rt: HostRuntime) -> Result<(), Fail> {
    let alloc = rt.alloc();
    let files = numbered(alloc, "t", 3, 2)?;
    let tis = files.tis.as_slice();
    assert!(rt; tis.len() <= 9999);
    let fields = one_field(alloc)?;
    let terms = TermFile::check_tis(alloc, tis, &fields, 1)
        .ok()
        .ok_or("good terms")?;
    let tii = files.tii.as_slice();
    // Entry 0 stands at 24, and entry 1, of `t001`, at 35: prefix, length and bytes of the suffix, field, frequency, the
    // places, and the step to the place of `t002`.
    assert_eq!(rt;
        tail(tii, 24),
        b"\0\0\xFF\xFF\xFF\xFF\x0F\0\0\0\x18\0\x04t001\0\x01\x01\x01\x11".as_slice()
    );
    for (place, byte, fault) in [
        (3, 0xFC, (0, 0)),
        (3, 0xFB, (0, 62)),
        (11, 1, (0, 63)),
        (11, 3, (0, 63)),
        (15, 1, (0, 64)),
        (19, 17, (0, 64)),
        (23, 11, (0, 64)),
        (24, 1, (24, 65)),
        (28, 0x7F, (24, 66)),
        (30, 0, (24, 2)),
        (31, 1, (24, 66)),
        (32, 1, (24, 66)),
        (34, 0x19, (24, 67)),
        (35, 1, (35, 65)),
        (40, b'2', (35, 66)),
        (41, 1, (35, 66)),
        (42, 2, (35, 66)),
        (43, 2, (35, 66)),
        (44, 2, (35, 66)),
        (45, 0x12, (35, 67)),
    ] {
        let bytes = changed(alloc, tii, place, byte)?;
        assert_eq!(rt; fault_of(alloc, bytes.as_slice(), &terms)?, fault);
    }
    Ok(())
}

/// The terms of files that are good, to be sought.
fn loaded<'a>(
    alloc: Global,
    files: &'a TermFiles,
    fields: &FieldTable<'a>,
) -> Result<TermIndex<'a>, Fail> {
    let tis = files.tis.as_slice();
    if tis.len() > 99_999 {
        return Err(Fail::from("a small file"));
    }
    let Ok(terms) = TermFile::check_tis(alloc, tis, fields, 1) else {
        return Err(Fail::from("good terms"));
    };
    let tii = files.tii.as_slice();
    let Ok(()) = check_tii(alloc, tii, &terms) else {
        return Err(Fail::from("a good index"));
    };
    Ok(TermIndex::load(alloc, tii, &terms, fields)?)
}

#[test]
fn cuts(rt: HostRuntime) -> Result<(), Fail> {
    let alloc = rt.alloc();
    let files = numbered(alloc, "t", 129, 128)?;
    let tis = files.tis.as_slice();
    let tii = files.tii.as_slice();
    assert!(rt; tis.len() <= 9999);
    let fields = one_field(alloc)?;
    let terms = TermFile::check_tis(alloc, tis, &fields, 1)
        .ok()
        .ok_or("good terms")?;
    for cut in 0..tii.len() {
        let start = match cut {
            0..=23 => 0,
            24..=34 => 24,
            _ => 35,
        };
        assert_eq!(rt; fault_of(alloc, tii.split_at(cut).0, &terms)?, (start, 1));
    }
    Ok(())
}

#[test]
fn seeks(rt: HostRuntime) -> Result<(), Fail> {
    let alloc = rt.alloc();
    let files = numbered(alloc, "t", 129, 128)?;
    let fields = one_field(alloc)?;
    let mut index = loaded(alloc, &files, &fields)?;
    // One entry is compared, and then terms are read up to the first that is not below.
    for (field, text, found, count) in [
        ("f", "t000", Some(once(0)), 2),
        ("f", "t127", Some(once(127)), 129),
        ("f", "t128", Some(once(128)), 2),
        ("f", "t1270", None, 2),
        ("f", "t129", None, 2),
        ("g", "t000", None, 2),
        ("e", "t000", None, 2),
        ("f", "", None, 2),
    ] {
        let mut steps: Steps<Compared> = Steps::new();
        assert_eq!(rt; index.seek(field, text, &mut steps), found);
        assert_eq!(rt; steps.count(), count);
    }
    Ok(())
}

/// Seeks each of so many numbered terms, and a text behind each, which is not there; each takes at most so many steps.
fn seeks_numbered(
    rt: &impl Abort,
    alloc: Global,
    index: &mut TermIndex<'_>,
    count: u32,
    most: u64,
) -> Result<(), OutOfMemory> {
    for number in 0..count {
        let text = format!(in alloc; "t0{:03}", number)?;
        let mut steps: Steps<Compared> = Steps::new();
        assert_eq!(rt;
            index.seek("f", text.as_str(), &mut steps),
            Some(once(number))
        );
        assert!(rt; steps.count() <= most);
        let past = format!(in alloc; "t0{:03}~", number)?;
        let mut more: Steps<Compared> = Steps::new();
        assert!(rt; index.seek("f", past.as_str(), &mut more).is_none());
        assert!(rt; more.count() <= most);
    }
    let mut steps: Steps<Compared> = Steps::new();
    assert!(rt; index.seek("f", "t", &mut steps).is_none());
    assert!(rt; index.seek("f", "u", &mut steps).is_none());
    Ok(())
}

/// Numbered terms with an index of every so many.
fn seeks_among(
    rt: &impl Abort,
    alloc: Global,
    count: u32,
    interval: u32,
    most: u64,
) -> Result<(), Fail>
    requires count { count ≤ 1000 }
    requires some { 1 ≤ interval }
    requires few { interval ≤ 1000 }
{
    let files = numbered(alloc, "t0", count, interval)?;
    let fields = one_field(alloc)?;
    let mut index = loaded(alloc, &files, &fields)?;
    Ok(seeks_numbered(rt, alloc, &mut index, count, most)?)
}

#[test]
fn seeks_each(rt: HostRuntime) -> Result<(), Fail> {
    let alloc = rt.alloc();
    seeks_among(&rt, alloc, 1000, 4, 13)?;
    seeks_among(&rt, alloc, 0, 128, 129)?;
    seeks_among(&rt, alloc, 1, 128, 130)?;
    seeks_among(&rt, alloc, 5, 1, 5)?;
    seeks_among(&rt, alloc, 5, 9, 11)
}
