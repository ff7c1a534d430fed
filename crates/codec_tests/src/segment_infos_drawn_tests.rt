//! Drawn commits: their bytes put together as the format page says, read and written again, cut at every length and changed at
//! every byte.
ghost use Rattle.std.specs.Prelude.{◌<◌, IfOk};

use crate::segment_infos_tests::changed;
use lu_prims::{OutOfMemory, crc32, put_i32, put_i64, put_text};
use lu_types::segment_name;
use segment_infos::{read, write};
use std::alloc::Global;
use std::process::Abort;
use std::test::Fail;

/// How many commits are drawn.
const COMMITS: u64 = 300;

/// What the texts of pairs are.
const TEXTS: [&str; 4] = ["", "a", "é", "\u{10000}b"];

/// Numbers that look drawn, and are the same for the same seed.
#[derive(Drop)]
struct Draw {
    state: u64,
}

impl Draw {
    /// The next number, below a bound.
    fn below(&mut self, bound: u32) -> u32
        requires { 0 < bound }
        ensures { result < bound }
    {
        self.state = self
            .state
            .wrapping_mul(6364136223846793005)
            .wrapping_add(1442695040888963407);
        let high = (self.state >> 33) % u64::from(bound);
        high as u32
    }

    /// Whether a coin falls so.
    fn coin(&mut self) -> bool {
        self.below(2) == 1
    }
}

/// A Map of at most so many pairs; a key may stand twice.
fn put_map(draw: &mut Draw, out: &mut Vec<u8>, most: u32) -> Result<(), OutOfMemory>
    requires { most < 100 }
{
    let count = draw.below(most + 1);
    put_i32(out, count as i32)?;
    for _ in 0..count {
        put_text(out, TEXTS[draw.below(4) as usize])?;
        put_text(out, TEXTS[draw.below(4) as usize])?;
    }
    Ok(())
}

/// -1, or the place in a shared store with the store.
fn put_store(alloc: Global, draw: &mut Draw, out: &mut Vec<u8>) -> Result<(), OutOfMemory> {
    if draw.coin() {
        return put_i32(out, -1);
    }
    put_i32(out, draw.below(1000) as i32)?;
    let name = segment_name(alloc, draw.below(2000))?;
    let text = name.as_str();
    if text.len() < 100 {
        put_text(out, text)?;
    }
    out.push(draw.below(2) as u8)?;
    Ok(())
}

/// One file of norms, and -1, or at most three norm generations.
fn put_norms(draw: &mut Draw, out: &mut Vec<u8>) -> Result<(), OutOfMemory> {
    out.push(1)?;
    if draw.coin() {
        return put_i32(out, -1);
    }
    let count = draw.below(4);
    put_i32(out, count as i32)?;
    for _ in 0..count {
        let generation = if draw.coin() {
            -1
        } else {
            1 + i64::from(draw.below(1_000_000))
        };
        put_i64(out, generation)?;
    }
    Ok(())
}

/// The name of a segment, its size, its file of deleted documents and its store; answers how many documents can be deleted.
fn put_front(
    alloc: Global,
    draw: &mut Draw,
    out: &mut Vec<u8>,
    number: u32,
) -> Result<u32, OutOfMemory>
    ensures { IfOk result (λ most. most < 1000) }
{
    let name = segment_name(alloc, number)?;
    let text = name.as_str();
    if text.len() < 100 {
        put_text(out, text)?;
    }
    let size = draw.below(1000);
    put_i32(out, size as i32)?;
    let has_deletions = draw.coin();
    let generation = if has_deletions {
        1 + i64::from(draw.below(1_000_000))
    } else {
        -1
    };
    put_i64(out, generation)?;
    put_store(alloc, draw, out)?;
    Ok(if has_deletions { size } else { 0 })
}

/// How many documents are deleted, where so many can be.
fn drawn_deletions(draw: &mut Draw, most: u32) -> u32
    requires { most < 1000 }
    ensures { result < 1000 }
{
    if most > 0 { draw.below(most) } else { 0 }
}

/// The line of a segment.
fn put_line(
    alloc: Global,
    draw: &mut Draw,
    out: &mut Vec<u8>,
    number: u32,
) -> Result<(), OutOfMemory> {
    let most = put_front(alloc, draw, out, number)?;
    put_norms(draw, out)?;
    out.push([0x01, 0xff][draw.below(2) as usize])?;
    put_i32(out, drawn_deletions(draw, most) as i32)?;
    out.push(draw.below(2) as u8)?;
    put_map(draw, out, 3)
}

/// The bytes of a drawn commit.
fn drawn_commit(alloc: Global, draw: &mut Draw) -> Result<Vec<u8>, OutOfMemory> {
    let mut out = Vec::new(alloc);
    put_i32(&mut out, -9)?;
    put_i64(&mut out, i64::from(draw.below(1_000_000)))?;
    put_i32(&mut out, draw.below(1_000_000) as i32)?;
    let count = draw.below(3);
    put_i32(&mut out, count as i32)?;
    for number in 0..count {
        let spread = draw.below(500);
        put_line(alloc, draw, &mut out, number * 500 + spread)?;
    }
    put_map(draw, &mut out, 2)?;
    let sum = crc32(out.as_slice());
    put_i64(&mut out, i64::from(sum))?;
    Ok(out)
}

/// The commit is read, and written as the same bytes.
fn is_written_again(rt: &impl Abort, alloc: Global, bytes: &[u8]) -> Result<(), Fail> {
    let commit = read(alloc, bytes)?;
    let written = write(alloc, &commit)?;
    assert_eq!(rt; written.as_slice(), bytes);
    Ok(())
}

/// Cut at any length the commit has a fault.
fn is_whole(rt: &impl Abort, alloc: Global, bytes: &[u8]) {
    for length in 0..bytes.len() {
        assert!(rt; read(alloc, &bytes[..length]).is_err(), "cut at {length}");
    }
}

/// With any one byte changed it has one, too.
fn is_sealed(
    rt: &impl Abort,
    alloc: Global,
    draw: &mut Draw,
    bytes: &[u8],
) -> Result<(), OutOfMemory> {
    for place in 0..bytes.len() {
        let turned = 1 + draw.below(255) as u8;
        let copy = changed(alloc, bytes, place, bytes[place] ^ turned)?;
        assert!(rt; read(alloc, copy.as_slice()).is_err(), "changed at {place}");
    }
    Ok(())
}

#[test]
fn drawn_commits(rt: HostRuntime) -> Result<(), Fail> {
    for seed in 0..COMMITS {
        let mut draw = Draw { state: seed };
        let bytes = drawn_commit(rt.alloc(), &mut draw)?;
        is_written_again(&rt, rt.alloc(), bytes.as_slice())?;
        is_whole(&rt, rt.alloc(), bytes.as_slice());
        is_sealed(&rt, rt.alloc(), &mut draw, bytes.as_slice())?;
    }
    Ok(())
}
