ghost use Rattle.std.specs.Prelude.{IfOk};
ghost use Rattle.segment_infos.specs.Values.{IsLine};

use lu_dir::{Dir, MemDir};
use lu_folder::{
    FolderFault, current, newest, next_del, next_generation, next_segment, read_segment,
};
use lu_prims::OutOfMemory;
use lu_types::rules::{CHECKSUM, ENDS};
use lu_types::{Fault, FileKind, Items, SharedStore, Spot};
use segment_infos::{SegInfo, read};
use std::alloc::Global;
use std::test::Fail;

// A commit without segments.
pub(crate) const NONE: &[u8] =
    b"\xFF\xFF\xFF\xF7\x00\x00\x00\x00\x00\x00\x00\x01\x00\x00\x00\x00\x00\x00\x00\x00\x00\
    \x00\x00\x00\x00\x00\x00\x00\x07\x9B/\x0C";

// A commit of the segment `_0`, where the next segment is to be `_1`.
const ONE: &[u8] =
    b"\xFF\xFF\xFF\xF7\x00\x00\x00\x00\x00\x00\x00\x01\x00\x00\x00\x01\x00\x00\x00\x01\x02\
    _0\x00\x00\x00\x01\xFF\xFF\xFF\xFF\xFF\xFF\xFF\xFF\xFF\xFF\xFF\xFF\x01\xFF\xFF\xFF\
    \xFF\xFF\x00\x00\x00\x00\x01\x00\x00\x00\x01\x06source\x05flush\x00\x00\x00\x00\x00\
    \x00\x00\x00\xF1*\x80`";

// The generation of a choice, or why there is none.
type Choice = Result<u64, FolderFault>;

// The current commit of a folder in memory, and the newest.
fn choices(alloc: Global, dir: &mut MemDir) -> Result<(Choice, Choice), Fail> {
    let names = dir.list(alloc)?;
    let first = match current(alloc, dir, &names) {
        Ok(chosen) => Ok(chosen.generation),
        Err(fault) => Err(fault),
    };
    let second = match newest(alloc, dir, &names) {
        Ok(chosen) => Ok(chosen.generation),
        Err(fault) => Err(fault),
    };
    Ok((first, second))
}

// The answer that the commit of a generation has this fault.
fn faulty(generation: u64, offset: u64, rule: u16) -> FolderFault {
    let spot = Spot {
        kind: FileKind::Commit,
        offset,
        rule,
    };
    FolderFault::NotStanding(generation, Fault { segment: 0, spot })
}

#[test]
fn the_greatest_good_commit_is_current(rt: HostRuntime) -> Result<(), Fail> {
    let mut dir = MemDir::new(rt.alloc());
    let none: Choice = Err(FolderFault::NoIndex);
    assert_eq!(rt; choices(rt.alloc(), &mut dir)?, (none, none));
    dir.put("segments_01", NONE)?;
    assert_eq!(rt; choices(rt.alloc(), &mut dir)?, (none, none));
    dir.put("segments_5", &NONE[..31])?;
    let cut: Choice = Err(faulty(5, 24, ENDS));
    assert_eq!(rt; choices(rt.alloc(), &mut dir)?, (cut, cut));
    dir.put("segments_4", NONE)?;
    assert_eq!(rt; choices(rt.alloc(), &mut dir)?, (Ok(4), cut));
    dir.put("segments_3", ONE)?;
    assert_eq!(rt; choices(rt.alloc(), &mut dir)?, (Ok(4), cut));
    dir.put("segments_10", ONE)?;
    assert_eq!(rt; choices(rt.alloc(), &mut dir)?, (Ok(36), Ok(36)));
    Ok(())
}

#[test]
fn the_fault_of_the_newest_commit_is_told(rt: HostRuntime) -> Result<(), Fail> {
    let mut turned = NONE.to_vec(rt.alloc())?;
    turned[31] = 0;
    let mut dir = MemDir::new(rt.alloc());
    dir.put("segments_1", b"")?;
    dir.put("segments_2", &turned)?;
    let fault: Choice = Err(faulty(2, 24, CHECKSUM));
    assert_eq!(rt; choices(rt.alloc(), &mut dir)?, (fault, fault));
    Ok(())
}

// Names as a folder lists them.
fn listed(alloc: Global, line: &str) -> Result<Vec<String>, OutOfMemory> {
    let mut names = Vec::new(alloc);
    for name in line.split(' ') {
        names.push(String::from_str(alloc, name)?)?;
    }
    Ok(names)
}

#[test]
fn the_next_generation_is_above_all_listed(rt: HostRuntime) -> Result<(), Fail> {
    let rows = [
        ("_0.fnm", Some(1)),
        ("segments_1", Some(2)),
        ("segments_10 segments_2", Some(37)),
        ("segments_01 segments.gen", Some(1)),
        ("segments_1y2p0ij32e8e6", Some(9223372036854775807)),
        ("segments_1y2p0ij32e8e7", None),
    ];
    for (line, number) in rows {
        let names = listed(rt.alloc(), line)?;
        assert_eq!(rt; next_generation(&names), number, "{line}");
    }
    Ok(())
}

#[test]
fn the_next_segment_is_above_all_in_use(rt: HostRuntime) -> Result<(), Fail> {
    let commit = read(rt.alloc(), ONE)?;
    let rows = [
        ("segments_z", Some(1)),
        ("_0.fnm", Some(1)),
        ("_z_1.del _1.cfs", Some(36)),
        ("_2_1.s0", Some(3)),
        ("_02.fnm _3.xyz", Some(1)),
        ("_zik0zh.cfx", Some(2147483646)),
        ("_zik0zi.fnm", None),
    ];
    for (line, number) in rows {
        let names = listed(rt.alloc(), line)?;
        assert_eq!(rt; next_segment(&names, &commit), number, "{line}");
    }
    Ok(())
}

// The line of a segment with deleted documents, or none.
fn line_in(alloc: Global, del_gen: Option<u64>, store: bool, compound: bool) -> SegInfo
    ensures { IsLine result }
{
    let shared = SharedStore {
        offset: 0,
        number: 1,
        compound: false,
    };
    SegInfo {
        number: 2,
        size: 1,
        del_gen: if del_gen.is_some() { Some(7) } else { None },
        store: if store { Some(shared) } else { None },
        norm_gens: None,
        compound,
        deleted: 0,
        has_prox: false,
        diagnostics: Items::new(Vec::new(alloc)),
    }
}

#[test]
fn the_next_deletions_are_above_those_of_the_segment(rt: HostRuntime) -> Result<(), Fail> {
    let rows = [
        ("_2.fnm", None, Some(1)),
        ("_2.fnm", Some(7), Some(8)),
        ("_2_3.del _3_9.del", None, Some(4)),
        ("_2_9.del", Some(7), Some(10)),
        ("_2_9.s0", Some(7), Some(8)),
        ("_2_1y2p0ij32e8e7.del", None, None),
    ];
    for (line, del_gen, number) in rows {
        let names = listed(rt.alloc(), line)?;
        let info = line_in(rt.alloc(), del_gen, false, false);
        assert_eq!(rt; next_del(&names, &info), number, "{line}");
    }
    Ok(())
}

// The first byte of a file that was read for a segment, if it was there.
fn found(alloc: Global, info: &SegInfo, name: &str) -> Result<Option<u8>, Fail>
    requires { IsLine info.now }
{
    let mut dir = MemDir::new(alloc);
    dir.put("_2.cfs", b"a")?;
    dir.put("_2.fnm", b"b")?;
    dir.put("_2.prx", b"c")?;
    dir.put("_2_7.del", b"d")?;
    dir.put("_2.fdx", b"e")?;
    dir.put("_1.fdx", b"f")?;
    match read_segment(alloc, &mut dir, info) {
        Err(_) => Ok(None),
        Ok(loaded) => match loaded.get(name) {
            None => Ok(None),
            Some(bytes) => Ok(bytes.first().copied()),
        },
    }
}

#[test]
fn the_files_that_a_line_needs_are_read(rt: HostRuntime) -> Result<(), Fail> {
    let plain = line_in(rt.alloc(), None, false, false);
    let shared = line_in(rt.alloc(), Some(7), true, true);
    let rows = [
        ("_2.cfs", None, Some(b'a')),
        ("_2.fnm", Some(b'b'), None),
        ("_2.prx", None, None),
        ("_2_7.del", None, Some(b'd')),
        ("_2.fdx", Some(b'e'), None),
        ("_1.fdx", None, Some(b'f')),
        ("_2.tis", None, None),
    ];
    for (name, own, store) in rows {
        assert_eq!(rt; found(rt.alloc(), &plain, name)?, own, "{name}");
        assert_eq!(rt; found(rt.alloc(), &shared, name)?, store, "{name}");
    }
    Ok(())
}
