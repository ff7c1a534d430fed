//! Commits, read and written: bytes that come from the format, and not from this crate.
ghost use Rattle.std.specs.Prelude.{◌<◌};

use lu_prims::{OutOfMemory, crc32, put_i32, put_i64, put_text};
use lu_types::rules::{
    CHECKSUM, COMPOUND_FLAG, DEL_GEN, DELETION_COUNT, ENDS, FORMAT, MAP_COUNT, NAME_COUNTER,
    NUM_FIELD, OLD_NORMS, PROX_FLAG, SEG_COUNT, SEG_NAME, SEG_SIZE, SEG_TWICE, SEPARATE_NORMS,
    SHARED_STORE, SIZE_SUM, STORE_FLAG, STORE_NAME, TRAILING, VERSION,
};
use lu_types::{CodecFault, FileKind, SharedStore, Spot};
use segment_infos::{read, write, write_pending};
use std::alloc::Global;
use std::test::Fail;

/// The commit without segments.
const EMPTY: &[u8] =
    b"\xff\xff\xff\xf7\x00\x00\x00\x00\x00\x00\x00\x01\x00\x00\x00\x00\x00\x00\x00\x00\x00\x00\x00\x00\x00\x00\x00\x00\x07\x9b\x2f\x0c";

/// A commit of the segment `_0`, with one document and one pair of diagnostics.
const ONE: &[u8] =
    b"\xff\xff\xff\xf7\x00\x00\x00\x00\x00\x00\x00\x01\x00\x00\x00\x01\x00\x00\x00\x01\x02_0\x00\x00\x00\x01\xff\xff\xff\xff\xff\xff\xff\xff\xff\xff\xff\xff\x01\xff\xff\xff\xff\xff\x00\x00\x00\x00\x01\x00\x00\x00\x01\x06source\x05flush\x00\x00\x00\x00\x00\x00\x00\x00\xf1\x2a\x80\x60";

/// A commit of the segment `_1`, whose one document is number 1 of the store `_0`.
const SHARED: &[u8] =
    b"\xff\xff\xff\xf7\x00\x00\x00\x00\x00\x00\x00\x01\x00\x00\x00\x02\x00\x00\x00\x01\x02_1\x00\x00\x00\x01\xff\xff\xff\xff\xff\xff\xff\xff\x00\x00\x00\x01\x02_0\x00\x01\xff\xff\xff\xff\xff\x00\x00\x00\x00\x00\x00\x00\x00\x00\x00\x00\x00\x00\x00\x00\x00\x00\x14\xc6l\xca";

/// A commit of two segments: `_0` with as many documents as leave room for one, and `_1` from place 54 on, with a shared store, two
/// norm generations and a pair of diagnostics; a pair of user data from place 112 on, and the checksum from 120 on.
const RICH: &[u8] =
    b"\xff\xff\xff\xf7\x00\x00\x00\x00\x00\x00\x00\x05\x00\x00\x00(\x00\x00\x00\x02\x02_0\x7f\xff\xff\xfd\x00\x00\x00\x00\x00\x00\x00\x01\xff\xff\xff\xff\x01\xff\xff\xff\xff\xff\x00\x00\x00\x01\x00\x00\x00\x00\x00\x02_1\x00\x00\x00\x01\xff\xff\xff\xff\xff\xff\xff\xff\x00\x00\x00\x01\x02_0\x00\x01\x00\x00\x00\x02\xff\xff\xff\xff\xff\xff\xff\xff\x00\x00\x00\x00\x00\x00\x00\x05\xff\x00\x00\x00\x00\x01\x00\x00\x00\x01\x01a\x01b\x00\x00\x00\x01\x01k\x01v\x00\x00\x00\x00\xfc\x82\x0eR";

/// A copy of bytes, with another byte at a place.
pub fn changed(
    alloc: Global,
    bytes: &[u8],
    place: usize,
    byte: u8,
) -> Result<Vec<u8>, OutOfMemory> {
    let mut copy = Vec::from_slice(alloc, bytes)?;
    if place < copy.len() {
        copy[place] = byte;
    }
    Ok(copy)
}

/// What is wrong with the copy.
fn fault_of_changed(
    alloc: Global,
    bytes: &[u8],
    place: usize,
    byte: u8,
) -> Result<Option<CodecFault>, OutOfMemory> {
    let copy = changed(alloc, bytes, place, byte)?;
    Ok(read(alloc, copy.as_slice()).err())
}

/// A commit breaks the rule at this place.
fn broken(offset: u64, rule: u16) -> Option<CodecFault> {
    Some(CodecFault::Spot(Spot {
        kind: FileKind::Commit,
        offset,
        rule,
    }))
}

#[test]
fn a_commit_is_read_and_written(rt: HostRuntime) -> Result<(), Fail> {
    for bytes in [EMPTY, ONE, SHARED, RICH] {
        let commit = read(rt.alloc(), bytes)?;
        let written = write(rt.alloc(), &commit)?;
        assert_eq!(rt; written.as_slice(), bytes);
        let pending = write_pending(rt.alloc(), &commit)?;
        let end = bytes.len() - 1;
        assert_eq!(rt; pending.as_slice().split_at(end).0, bytes.split_at(end).0);
        assert_eq!(rt;
            pending.as_slice().last().copied(),
            bytes.last().map(|byte| !*byte)
        );
    }
    Ok(())
}

#[test]
fn a_shared_store_is_read(rt: HostRuntime) -> Result<(), Fail> {
    let commit = read(rt.alloc(), SHARED)?;
    let store = SharedStore {
        offset: 1,
        number: 0,
        compound: false,
    };
    for segment in commit.segments.as_slice() {
        assert_eq!(rt; segment.number, 1);
        assert_eq!(rt; segment.store, Some(store));
        assert!(rt; !segment.compound);
    }
    assert_eq!(rt; commit.segments.as_slice().len(), 1);
    Ok(())
}

/// A Map of so many pairs that are all the same.
fn put_pairs(out: &mut Vec<u8>, count: u32) -> Result<(), OutOfMemory>
    requires { count < 100 }
{
    put_i32(out, count as i32)?;
    for _ in 0..count {
        put_text(out, "key")?;
        put_text(out, "value")?;
    }
    Ok(())
}

/// The commit of one segment with so many pairs of diagnostics and of user data.
fn commit_of_pairs(alloc: Global, diagnostics: u32, user: u32) -> Result<Vec<u8>, OutOfMemory>
    requires diagnostics { diagnostics < 100 }
    requires user { user < 100 }
{
    let mut out = Vec::from_slice(alloc, ONE.split_at(50).0)?;
    put_pairs(&mut out, diagnostics)?;
    put_pairs(&mut out, user)?;
    let sum = crc32(out.as_slice());
    put_i64(&mut out, i64::from(sum))?;
    Ok(out)
}

#[test]
fn all_pairs_are_kept(rt: HostRuntime) -> Result<(), Fail> {
    for (diagnostics, user) in [(7, 0), (9, 0), (0, 1), (2, 2)] {
        let bytes = commit_of_pairs(rt.alloc(), diagnostics, user)?;
        let commit = read(rt.alloc(), bytes.as_slice())?;
        assert_eq!(rt; commit.user.as_slice().len(), user as usize);
        for segment in commit.segments.as_slice() {
            assert_eq!(rt; segment.diagnostics.as_slice().len(), diagnostics as usize);
        }
        let written = write(rt.alloc(), &commit)?;
        assert_eq!(rt; written.as_slice(), bytes.as_slice());
    }
    Ok(())
}

#[test]
fn a_seal_has_its_first_fault(rt: HostRuntime) -> Result<(), Fail> {
    assert_eq!(rt;
        read(rt.alloc(), ONE.split_at(78).0).err(),
        broken(71, ENDS)
    );
    for (bytes, place, byte, offset) in [
        (EMPTY, 31, 0xf3, 24),
        (ONE, 78, 0x61, 71),
        (ONE, 71, 0x01, 71),
        (RICH, 120, 0xff, 120),
    ] {
        let found = fault_of_changed(rt.alloc(), bytes, place, byte)?;
        assert_eq!(rt; found, broken(offset, CHECKSUM), "at {place}");
    }
    Ok(())
}

#[test]
fn bytes_behind_a_commit_are_a_fault(rt: HostRuntime) -> Result<(), Fail> {
    let mut longer = Vec::from_slice(rt.alloc(), EMPTY)?;
    longer.push(0)?;
    assert_eq!(rt;
        read(rt.alloc(), longer.as_slice()).err(),
        broken(32, TRAILING)
    );
    Ok(())
}

#[test]
fn a_header_has_its_first_fault(rt: HostRuntime) -> Result<(), Fail> {
    for (place, byte, rule) in [
        (3, 0xf8, FORMAT),
        (4, 0x80, VERSION),
        (12, 0x80, NAME_COUNTER),
        (16, 0x80, SEG_COUNT),
    ] {
        let found = fault_of_changed(rt.alloc(), ONE, place, byte)?;
        assert_eq!(rt; found, broken(0, rule), "at {place}");
    }
    Ok(())
}

#[test]
fn a_segment_has_its_first_fault(rt: HostRuntime) -> Result<(), Fail> {
    for (place, byte, rule) in [
        (22, b'A', SEG_NAME),
        (23, 0x80, SEG_SIZE),
        (34, 0xfe, DEL_GEN),
        (39, 0x00, OLD_NORMS),
        (43, 0xfe, NUM_FIELD),
    ] {
        let found = fault_of_changed(rt.alloc(), ONE, place, byte)?;
        assert_eq!(rt; found, broken(20, rule), "at {place}");
    }
    Ok(())
}

#[test]
fn the_flags_of_a_segment_have_their_first_fault(rt: HostRuntime) -> Result<(), Fail> {
    for (place, byte, rule) in [
        (44, 0x00, COMPOUND_FLAG),
        (45, 0x80, DELETION_COUNT),
        (48, 0x01, DELETION_COUNT),
        (49, 0x02, PROX_FLAG),
        (50, 0x80, MAP_COUNT),
    ] {
        let found = fault_of_changed(rt.alloc(), ONE, place, byte)?;
        assert_eq!(rt; found, broken(20, rule), "at {place}");
    }
    Ok(())
}

#[test]
fn a_later_segment_has_its_first_fault(rt: HostRuntime) -> Result<(), Fail> {
    for (place, byte, rule) in [
        (56, b'0', SEG_TWICE),
        (60, 0x02, SIZE_SUM),
        (69, 0x80, SHARED_STORE),
        (75, b'A', STORE_NAME),
        (76, 0x02, STORE_FLAG),
        (97, 0x00, SEPARATE_NORMS),
    ] {
        let found = fault_of_changed(rt.alloc(), RICH, place, byte)?;
        assert_eq!(rt; found, broken(54, rule), "at {place}");
    }
    Ok(())
}

#[test]
fn user_data_have_their_first_fault(rt: HostRuntime) -> Result<(), Fail> {
    let found = fault_of_changed(rt.alloc(), RICH, 112, 0x80)?;
    assert_eq!(rt; found, broken(112, MAP_COUNT));
    Ok(())
}
