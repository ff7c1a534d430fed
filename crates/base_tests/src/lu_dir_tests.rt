ghost use Rattle.std.specs.Prelude.{◌<◌, ◌≤◌, ◌^◌, IfOk, codes};
ghost use Rattle.lu_dir.specs.Files.{HasRange};

use lu_dir::{
    Dir, DirFail, Fail, FaultDir, FaultSink, FaultSource, HostDir, HostSink, HostSource, Left,
    LoadFault, MemDir, MemSink, MemSource, Sink, Source, load, read_all, write_all,
};
use std::alloc::Global;
use std::rt::Runtime;
use std::{fs, test};

const FOLDER: &str = "lu_dir_test";

/// A folder with one file, `f`.
fn folder(alloc: Global) -> Result<MemDir, test::Fail>
    ensures { IfOk result (λ dir. HasRange dir.files (codes "f") 1 4) }
{
    let mut dir = MemDir::new(alloc);
    dir.put("f", b"abcdef")?;
    Ok(dir)
}

/// A folder whose call of this number fails so.
fn failing(alloc: Global, call: u64, left: Left) -> Result<FaultDir, test::Fail>
    ensures { IfOk result (λ dir. HasRange dir.folder.files (codes "f") 1 4) }
{
    let first = Fail { call, left };
    let again = Fail {
        call,
        left: Left::Before,
    };
    let fails = vec![in alloc; first, again]?;
    Ok(FaultDir::new(folder(alloc)?, fails, None))
}

fn created(alloc: Global, call: u64, left: Left) -> Result<MemDir, test::Fail> {
    let mut dir = failing(alloc, call, left)?;
    let _ = dir.create(alloc, "f", b"uvwxyz");
    Ok(dir.into_inner())
}

fn patched(alloc: Global, call: u64, left: Left) -> Result<MemDir, test::Fail> {
    let mut dir = failing(alloc, call, left)?;
    let _ = dir.patch(alloc, "f", 1, b"WXYZ");
    Ok(dir.into_inner())
}

fn removed(alloc: Global, call: u64, left: Left) -> Result<MemDir, test::Fail> {
    let mut dir = failing(alloc, call, left)?;
    let _ = dir.remove(alloc, "f");
    Ok(dir.into_inner())
}

/// What a failed call is to leave, and the file after `create`, `patch` and `remove`.
const LEAVINGS: [(Left, Option<&str>, &str, Option<&str>); 5] = [
    (Left::Before, Some("abcdef"), "abcdef", Some("abcdef")),
    (Left::Absent, None, "abcdef", None),
    (Left::Prefix(0), Some(""), "abcdef", Some("abcdef")),
    (Left::Prefix(3), Some("uvw"), "aWXYef", Some("abcdef")),
    (Left::Prefix(1000), Some("uvwxyz"), "aWXYZf", Some("abcdef")),
];

#[test]
fn leaves_what_is_planned(rt: HostRuntime) -> Result<(), test::Fail> {
    let alloc = rt.alloc();
    for (left, after_create, after_patch, after_remove) in LEAVINGS {
        let want = after_create.map(|text| text.as_bytes());
        assert_eq!(rt; created(alloc, 1, left)?.get("f"), want);
        let want = Some(after_patch.as_bytes());
        assert_eq!(rt; patched(alloc, 1, left)?.get("f"), want);
        let want = after_remove.map(|text| text.as_bytes());
        assert_eq!(rt; removed(alloc, 1, left)?.get("f"), want);
    }
    let later = Left::Prefix(3);
    assert_eq!(rt;
        created(alloc, 2, later)?.get("f"),
        Some(b"uvwxyz".as_slice())
    );
    assert_eq!(rt;
        patched(alloc, 2, later)?.get("f"),
        Some(b"aWXYZf".as_slice())
    );
    assert_eq!(rt; removed(alloc, 2, later)?.get("f"), None);
    Ok(())
}

#[test]
fn stops_from_a_call_on(rt: HostRuntime) -> Result<(), test::Fail> {
    let alloc = rt.alloc();
    let mut dir = FaultDir::new(folder(alloc)?, vec![in alloc]?, Some(4));
    assert_eq!(rt; dir.enter(alloc, "d"), Ok(()));
    assert_eq!(rt; dir.list(alloc)?.len(), 1);
    assert_eq!(rt; dir.length(alloc, "f"), Ok(Some(6)));
    assert_eq!(rt; dir.sync(alloc, "f"), Err(DirFail::Failed));
    assert_eq!(rt; dir.create(alloc, "g", b"g"), Err(DirFail::Failed));
    assert_eq!(rt; dir.into_inner().get("g"), None);
    Ok(())
}

#[test]
fn fails_from_the_first_call_on(rt: HostRuntime) -> Result<(), test::Fail> {
    let alloc = rt.alloc();
    let mut dir = FaultDir::new(folder(alloc)?, vec![in alloc]?, Some(1));
    assert_eq!(rt; dir.enter(alloc, "d"), Err(DirFail::Failed));
    assert_eq!(rt; dir.list(alloc).err(), Some(DirFail::Failed));
    assert_eq!(rt; dir.remove(alloc, "f"), Err(DirFail::Failed));
    assert_eq!(rt; dir.into_inner().get("f"), Some(b"abcdef".as_slice()));
    Ok(())
}

/// What two calls of a source answer of which one fails.
fn read_twice(alloc: Global, fails: u64) -> Result<[Result<usize, DirFail>; 2], test::Fail> {
    let source = MemSource::new(b"abc".to_vec(alloc)?, 2);
    let mut source = FaultSource::new(source, vec![in alloc; fails]?);
    let mut buf = [0; 4];
    Ok([source.read(alloc, &mut buf), source.read(alloc, &mut buf)])
}

/// What two calls of a sink answer of which one fails.
fn written_twice(alloc: Global, fails: u64) -> Result<[Result<usize, DirFail>; 2], test::Fail> {
    let mut sink = FaultSink::new(MemSink::new(alloc), vec![in alloc; fails]?);
    Ok([sink.write(alloc, b"xy"), sink.write(alloc, b"xy")])
}

#[test]
fn fails_at_a_call(rt: HostRuntime) -> Result<(), test::Fail> {
    let alloc = rt.alloc();
    let failed = Err(DirFail::Failed);
    assert_eq!(rt; read_twice(alloc, 1)?, [failed, Ok(2)]);
    assert_eq!(rt; read_twice(alloc, 2)?, [Ok(2), failed]);
    assert_eq!(rt; written_twice(alloc, 1)?, [failed, Ok(2)]);
    assert_eq!(rt; written_twice(alloc, 2)?, [Ok(2), failed]);
    let mut sink = FaultSink::new(MemSink::new(alloc), vec![in alloc]?);
    write_all(alloc, &mut sink, b"abcde")?;
    assert_eq!(rt; sink.bytes(), b"abcde".as_slice());
    Ok(())
}

/// How many bytes stand at the first two places, where there are some.
fn at_two(alloc: Global, dir: &mut MemDir, names: &[String]) -> Result<[usize; 2], test::Fail> {
    if names.len() != 2 {
        return Ok([0; 2]);
    }
    let loaded = load(alloc, dir, names, 5)?;
    let file = loaded.at(0).map_or(0, |bytes| bytes.len());
    let none = loaded.at(1).map_or(0, |bytes| bytes.len());
    Ok([file, none])
}

#[test]
fn loads_by_name(rt: HostRuntime) -> Result<(), test::Fail> {
    let alloc = rt.alloc();
    let mut dir = MemDir::new(alloc);
    dir.put("five", b"abcde")?;
    let names = vec![in alloc;
        String::from_str(alloc, "five")?,
        String::from_str(alloc, "none")?,
    ]?;
    assert_eq!(rt;
        load(alloc, &mut dir, &names, 4).err(),
        Some(LoadFault::TooLarge(0))
    );
    let loaded = load(alloc, &mut dir, &names, 5)?;
    assert_eq!(rt; loaded.get("five"), Some(b"abcde".as_slice()));
    assert_eq!(rt; loaded.get("none"), None);
    assert_eq!(rt; loaded.get("other"), None);
    assert_eq!(rt; at_two(alloc, &mut dir, &names)?, [5, 0]);
    Ok(())
}

/// Five bytes, read in pieces.
fn read_in_pieces(alloc: Global, piece: usize, limit: u64) -> Result<Vec<u8>, LoadFault>
    requires piece { 1 ≤ piece }
    requires limit { limit < 2 ^ 31 }
{
    let mut source = MemSource::new(b"abcde".to_vec(alloc)?, piece);
    read_all(alloc, &mut source, limit)
}

#[test]
fn reads_in_pieces(rt: HostRuntime) -> Result<(), test::Fail> {
    let alloc = rt.alloc();
    for piece in [1, 2, 5, 100] {
        assert_eq!(rt;
            read_in_pieces(alloc, piece, 4).err(),
            Some(LoadFault::TooLarge(0))
        );
        assert_eq!(rt;
            read_in_pieces(alloc, piece, 5)?.as_slice(),
            b"abcde".as_slice()
        );
    }
    Ok(())
}

/// Makes, patches and syncs a file beside a folder.
fn filled<'r>(rt: &'r HostRuntime) -> Result<HostDir<'r, HostRuntime>, test::Fail> {
    let alloc = rt.alloc();
    let _ = fs::remove_dir_all(rt, FOLDER);
    fs::create_dir(rt, FOLDER)?;
    fs::create_dir(rt, "lu_dir_test/sub")?;
    let mut dir = HostDir::new(rt);
    dir.enter(alloc, FOLDER)?;
    dir.create(alloc, "f", b"abc")?;
    dir.create(alloc, "f", b"abcdef")?;
    dir.patch(alloc, "f", 1, b"WXYZ")?;
    dir.sync(alloc, "f")?;
    Ok(dir)
}

/// Whether the one file of the folder is loaded with these bytes.
fn is_loaded<D: Dir>(alloc: Global, dir: &mut D, bytes: &[u8]) -> Result<bool, LoadFault> {
    let names = dir.list(alloc)?;
    if names.len() != 1 {
        return Ok(false);
    }
    let loaded = load(alloc, dir, &names, 6)?;
    Ok(loaded.get("f") == Some(bytes))
}

/// How many files are left once `f` is removed, twice.
fn emptied<D: Dir>(alloc: Global, dir: &mut D) -> Result<usize, DirFail> {
    dir.enter(alloc, FOLDER)?;
    dir.remove(alloc, "f")?;
    dir.remove(alloc, "f")?;
    Ok(dir.list(alloc)?.len())
}

/// The lengths of a file, of a folder and of nothing.
fn lengths<D: Dir>(alloc: Global, dir: &mut D) -> [Result<Option<u64>, DirFail>; 3] {
    [
        dir.length(alloc, "f"),
        dir.length(alloc, "sub"),
        dir.length(alloc, "g"),
    ]
}

/// A read past the end, a patch of no file, and a path that is no folder.
fn failures<R: Runtime + AllocGlobal>(
    alloc: Global,
    dir: &mut HostDir<'_, R>,
) -> [Result<(), DirFail>; 3] {
    [
        dir.read(alloc, "f", 4, &mut [0; 3]),
        dir.patch(alloc, "g", 0, b"g"),
        dir.enter(alloc, "lu_dir_test/none"),
    ]
}

#[test]
fn works_on_a_real_folder(rt: HostRuntime) -> Result<(), test::Fail> {
    let alloc = rt.alloc();
    let mut dir = filled(&rt)?;
    assert_eq!(rt; is_loaded(alloc, &mut dir, b"aWXYZf")?, true);
    assert_eq!(rt; lengths(alloc, &mut dir), [Ok(Some(6)), Ok(None), Ok(None)]);
    assert_eq!(rt; failures(alloc, &mut dir), [Err(DirFail::Failed); 3]);
    assert_eq!(rt; emptied(alloc, &mut dir)?, 0);
    fs::remove_dir_all(&rt, FOLDER)?;
    Ok(())
}

#[test]
fn works_on_the_real_streams(rt: HostRuntime) -> Result<(), test::Fail> {
    let alloc = rt.alloc();
    write_all(alloc, &mut HostSink::new(&rt), b"\n")?;
    let _ = HostSource::new(&rt).read(alloc, &mut [0; 3]);
    Ok(())
}
