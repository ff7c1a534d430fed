//! Drawn terms, in the written form and in forms that the writer does not choose: checked, read, and sought at every target.
ghost use Rattle.std.specs.Prelude.{◌≡◌, ◌<◌, ◌≤◌, ◌^◌, length};

use crate::positions_tests::occurrences_from;
use lu_prims::{put_vint, put_vlong};
use lu_types::{TermInfo, TermRules};
use positions::{Occurrences, ProxWriter};
use std::alloc::Global;
use std::process::Abort;
use std::test::Fail;

/// A term that is drawn by its number.
#[derive(Clone, Copy)]
struct Drawn {
    number: u32,
    entries: u32,
    interval: u32,
    levels: u32,
    payloads: bool,
    /// Whether lengths are stated only where they change, and carried by the skip data.
    carried: bool,
}

/// A number drawn for an occurrence of an entry of a term.
fn draw(term: u32, entry: u32, occurrence: u32, limit: u32) -> u32
    requires { 0 < limit }
    ensures { result < limit }
{
    let mixed = term.wrapping_mul(2654435761)
        ^ entry.wrapping_mul(40503)
        ^ occurrence.wrapping_mul(9176);
    let turned = mixed ^ (mixed >> 15);
    (turned.wrapping_mul(2246822519) >> 7) % limit
}

impl Drawn {
    /// The term with a number: intervals from 2 to 16, up to 6 levels.
    fn of(number: u32) -> Drawn {
        Drawn {
            number,
            entries: if number % 10 == 0 {
                70
            } else {
                1 + draw(number, 1000, 0, 20)
            },
            interval: 2 + number % 15,
            levels: 1 + draw(number, 1000, 1, 6),
            payloads: number % 3 != 0,
            carried: number % 3 == 2,
        }
    }

    /// How often the term stands in the document of an entry.
    fn freq(&self, entry: u32) -> u32 {
        1 + draw(self.number, entry, 100, 3)
    }

    /// How far an occurrence is from the one before in its document.
    fn gap(&self, entry: u32, occurrence: u32) -> u32 {
        match draw(self.number, entry, occurrence, 5) {
            0 => 0,
            1 => 1,
            2 => 127,
            3 => 200,
            _ => 16384,
        }
    }

    /// How many bytes the payload of an occurrence has; each is the number of its entry.
    fn payload_len(&self, entry: u32, occurrence: u32) -> u32 {
        if !self.payloads {
            return 0;
        }
        match draw(self.number, entry, occurrence.wrapping_add(50), 5) {
            0 => 0,
            1 => 1,
            2 => 300,
            _ => 2,
        }
    }
}

/// Of an entry: where its positions start, and the payload length in force there.
#[derive(Clone, Copy)]
struct Place {
    prox: u32,
    force: u32,
}

/// The bytes of `.prx` of a term whose lengths are stated only where they change, and the places of its entries.
fn carried_positions(
    alloc: Global,
    drawn: &Drawn,
    places: &mut Vec<Place>,
) -> Result<Vec<u8>, Fail> {
    let mut bytes = Vec::new(alloc);
    let mut force = 0;
    for entry in 0..drawn.entries {
        places.push(Place {
            prox: low_len(&bytes),
            force,
        })?;
        for occurrence in 0..drawn.freq(entry) {
            let length = drawn.payload_len(entry, occurrence);
            let doubled = drawn.gap(entry, occurrence).wrapping_mul(2);
            if length == force {
                put_vint(&mut bytes, doubled)?;
            } else {
                put_vint(&mut bytes, doubled.wrapping_add(1))?;
                put_vint(&mut bytes, length)?;
                force = length;
            }
            for _ in 0..length {
                bytes.push((entry % 256) as u8)?;
            }
        }
    }
    Ok(bytes)
}

/// The bytes of `.prx` of a term as the writer makes them, and the places of its entries.
fn written_positions(
    rt: &impl Abort,
    alloc: Global,
    drawn: &Drawn,
    places: &mut Vec<Place>,
) -> Result<Vec<u8>, Fail> {
    let mut writer = ProxWriter::new(alloc)?;
    assert!(rt; writer.start(drawn.payloads) == 0);
    for entry in 0..drawn.entries {
        assert!(rt; writer.len() < 1 << 31);
        let prox = writer.begin_doc();
        places.push(Place { prox, force: 0 })?;
        let filled = [(entry % 256) as u8; 300];
        let mut position = 0u32;
        for occurrence in 0..drawn.freq(entry) {
            let length = drawn.payload_len(entry, occurrence).min(300) as usize;
            let next = position.saturating_add(drawn.gap(entry, occurrence));
            assert!(rt; next < 1 << 31);
            writer.add(next, &filled[..length])?;
            position = next;
        }
    }
    Ok(writer.finish())
}

/// How many bytes there are, as far as a test goes.
fn low_len(bytes: &Vec<u8>) -> u32 {
    (bytes.len() % (1 << 31)) as u32
}

/// Where the entries of a term start in `.frq`, and their positions.
#[derive(Clone, Copy)]
struct Starts<'a> {
    entries: &'a [u32],
    places: &'a [Place],
}

/// The bytes of a level, and the places just after the ProxSkip of every so manieth datum.
#[derive(Drop)]
struct LevelBytes {
    bytes: Vec<u8>,
    children: Vec<u64>,
}

/// The bytes of the level whose data stand for so many entries, the child pointers of its data being these.
fn level_of(
    alloc: Global,
    drawn: &Drawn,
    stride: u32,
    starts: &Starts<'_>,
    children: Option<&[u64]>,
) -> Result<LevelBytes, Fail>
    requires { 0 < stride }
{
    let mut bytes = Vec::new(alloc);
    let mut pointers = Vec::new(alloc);
    let mut last = (0u32, 0u32, 0u32);
    let mut carried = 0;
    for index in 0..drawn.entries / stride {
        let entry = index.wrapping_add(1).wrapping_mul(stride).wrapping_sub(1);
        let (Some(start), Some(place)) = (
            starts.entries.get(entry as usize),
            starts.places.get(entry as usize),
        ) else {
            return Err(Fail::from("no entry"));
        };
        let doc = entry.wrapping_sub(1).wrapping_mul(2);
        let skip = doc.wrapping_sub(last.0);
        let states = drawn.carried && place.force != carried;
        if states {
            put_vint(&mut bytes, skip.wrapping_mul(2).wrapping_add(1))?;
            put_vint(&mut bytes, place.force)?;
            carried = place.force;
        } else if drawn.payloads {
            put_vint(&mut bytes, skip.wrapping_mul(2))?;
        } else {
            put_vint(&mut bytes, skip)?;
        }
        put_vint(&mut bytes, start.wrapping_sub(last.1))?;
        put_vint(&mut bytes, place.prox.wrapping_sub(last.2))?;
        last = (doc, *start, place.prox);
        if drawn.interval > 0 && index.wrapping_add(1) % drawn.interval == 0 {
            pointers.push(bytes.len() as u64)?;
        }
        if let Some(children) = children {
            let child = children.get(index as usize).ok_or("no child")?;
            put_vlong(&mut bytes, *child % (1 << 62))?;
        }
    }
    Ok(LevelBytes {
        bytes,
        children: pointers,
    })
}

/// The bytes of `.frq` of a term whose entries are in every second document, and how far its skip data start.
fn entries_of(alloc: Global, drawn: &Drawn, places: &[Place]) -> Result<(Vec<u8>, u32), Fail> {
    let mut bytes = Vec::new(alloc);
    let mut starts = Vec::new(alloc);
    for entry in 0..drawn.entries {
        starts.push(low_len(&bytes))?;
        let doubled = if entry == 0 { 0 } else { 4 };
        let freq = drawn.freq(entry);
        if freq == 1 {
            put_vint(&mut bytes, doubled + 1)?;
        } else {
            put_vint(&mut bytes, doubled)?;
            put_vint(&mut bytes, freq)?;
        }
    }
    let skip = low_len(&bytes);
    let known = Starts {
        entries: &starts,
        places,
    };
    let mut built: Vec<Vec<u8>> = Vec::new(alloc);
    let mut children: Vec<u64> = Vec::new(alloc);
    let mut stride = drawn.interval;
    for level in 0..drawn.levels {
        if stride == 0 || stride > drawn.entries {
            break;
        }
        let below = if level == 0 {
            None
        } else {
            Some(children.as_slice())
        };
        let made = level_of(alloc, drawn, stride, &known, below)?;
        built.push(made.bytes)?;
        children = made.children;
        stride = stride.saturating_mul(drawn.interval);
    }
    let levels = built.len();
    for above in 0..levels {
        let level = levels - 1 - above;
        let data = &built[level];
        if level > 0 {
            put_vlong(&mut bytes, data.len() as u64 % (1 << 62))?;
        }
        bytes.extend_from_slice(data)?;
    }
    Ok((bytes, if levels == 0 { 0 } else { skip }))
}

/// Whether the next two entries have the drawn occurrences.
fn reads_on(occurrences: &mut Occurrences<'_>, drawn: &Drawn, passed: u32) -> bool {
    for entry in passed..drawn.entries.min(passed.saturating_add(2)) {
        let freq = drawn.freq(entry);
        occurrences.open_doc(0, freq);
        let mut position = 0u32;
        for occurrence in 0..freq {
            position = position.saturating_add(drawn.gap(entry, occurrence));
            let length = drawn.payload_len(entry, occurrence) as usize;
            let Some(occ) = occurrences.next() else {
                return false;
            };
            if occ.position != position || occ.payload.len() != length {
                return false;
            }
            if occ.payload.iter().any(|byte| *byte != (entry % 256) as u8) {
                return false;
            }
        }
        if occurrences.next().is_some() {
            return false;
        }
    }
    true
}

/// The entry that the last point below a target leads to: the last to which a datum of the lowest level belongs and before which
/// a document below the target stands.
fn last_point(drawn: &Drawn, target: u32) -> u32 {
    let mut passed = 0;
    for entry in 1..drawn.entries {
        let has_datum = drawn.interval > 0 && entry.wrapping_add(1) % drawn.interval == 0;
        if has_datum && (entry - 1).saturating_mul(2) < target {
            passed = entry;
        }
    }
    passed
}

/// 300 terms.
#[test]
fn drawn_terms(rt: HostRuntime) -> Result<(), Fail> {
    let alloc = rt.alloc();
    for number in 0..300 {
        let drawn = Drawn::of(number);
        let mut places = Vec::new(alloc);
        let prx = if drawn.carried {
            carried_positions(alloc, &drawn, &mut places)?
        } else {
            written_positions(&rt, alloc, &drawn, &mut places)?
        };
        let (frq, skip) = entries_of(alloc, &drawn, &places)?;
        let info = TermInfo {
            field: 0,
            doc_freq: drawn.entries,
            freq: 0,
            prox: 0,
            skip,
        };
        let rules = TermRules {
            documents: 1000,
            skip_interval: drawn.interval,
            max_levels: drawn.levels,
            omit_tf: false,
            payloads: drawn.payloads,
        };
        assert!(rt; drawn.entries > 0 && drawn.interval > 1);
        assert!(rt; frq.len() < 1 << 31 && prx.len() < 1 << 31);
        for target in 0..drawn.entries.saturating_mul(2).saturating_add(1) {
            let found = occurrences_from(&prx, &frq, &info, &rules, target);
            let Some((mut occurrences, passed)) = found else {
                return Err(Fail::from("not good"));
            };
            assert!(rt;
                passed == last_point(&drawn, target),
                "term {number}, target {target}"
            );
            assert!(rt;
                reads_on(&mut occurrences, &drawn, passed),
                "term {number}, target {target}"
            );
        }
    }
    Ok(())
}
