ghost use Rattle.std.specs.Prelude.{None, option_map, string_bytes};

use crate::words_tests::words_of;
use lu_command::{Refusal, Status, Which, run};
use lu_dir::{
    Dir, DirFail, Fail as Failure, FaultDir, FaultSink, Left, MemDir, MemSink, MemSource,
};
use lu_prims::OutOfMemory;
use lu_types::FileKind;
use std::alloc::{AllocError, Global};
use std::process::Abort;
use std::test::Fail;

const FIELDS: &str = "fields d _0";

const FILE: &str = "_0.fnm";

const ONE_FIELD: &[u8] = b"\xFE\xFF\xFF\xFF\x0F\x01\x01a\x01";

const USAGE: &str = "usage: lucene3 COMMAND [DIR] [ARGUMENTS]\n";

// A folder with this field table, where there is one.
fn folder(alloc: Global, table: Option<&[u8]>) -> Result<MemDir, OutOfMemory> {
    let mut dir = MemDir::new(alloc);
    if let Some(bytes) = table {
        dir.put(FILE, bytes)?;
    }
    Ok(dir)
}

// What a call over memory with the words of this line answers, where it has this exit number and prints this text.
pub(crate) fn expect<R: Abort + AllocGlobal, D: Dir>(
    rt: &R,
    line: &str,
    dir: &mut D,
    code: u8,
    text: &str,
) -> Result<Status, AllocError> {
    let words = words_of(rt.alloc(), line)?;
    let mut source = MemSource::new(Vec::new(rt.alloc()), 1);
    let mut sink = MemSink::new(rt.alloc());
    let status = run(rt.alloc(), words.as_slice(), dir, &mut source, &mut sink);
    assert_eq!(rt; status.code(), code, "{line}: {text}");
    assert_eq!(rt; sink.bytes(), text.as_bytes(), "{line}: {text}");
    Ok(status)
}

#[test]
fn a_field_table_is_judged(rt: HostRuntime) -> Result<(), Fail> {
    let rows: [(Option<&[u8]>, &str, u8); 9] = [
        (Some(ONE_FIELD), "field 0 01 \"a\"\n", 0),
        (
            Some(b"\xFE\xFF\xFF\xFF\x0F\x02\x05title\x10\x04body\x0F"),
            "field 0 10 \"title\"\nfield 1 0f \"body\"\n",
            0,
        ),
        (
            Some(b"\xFE\xFF\xFF\xFF\x0F\x81\x00\x01a\x01"),
            "fault _0.fnm 0 2 LongNumber\n",
            1,
        ),
        (None, "fault _0.fnm 0 5 Missing\n", 1),
        (Some(b""), "fault _0.fnm 0 1 Ends\n", 1),
        (
            Some(b"\xFE\xFF\xFF\xFF\x0F\x01\x01a\x01\x00"),
            "fault _0.fnm 9 6 Trailing\n",
            1,
        ),
        (
            Some(b"\xFE\xFF\xFF\xFF\x0F\x01\x01a\x81"),
            "fault _0.fnm 6 37 FieldBits\n",
            1,
        ),
        (
            Some(b"\xFE\xFF\xFF\xFF\x0F\x02\x01a\x01\x01a\x01"),
            "fault _0.fnm 9 36 FieldTwice\n",
            1,
        ),
        (
            Some(b"\xFE\xFF\xFF\xFF\x0F\x01\x02\xC3(\x01"),
            "fault _0.fnm 6 4 NotUtf8\n",
            1,
        ),
    ];
    for (table, text, code) in rows {
        let mut dir = folder(rt.alloc(), table)?;
        expect(&rt, FIELDS, &mut dir, code, text)?;
        assert_eq!(rt; dir.get(FILE), table, "{text}");
    }
    Ok(())
}

#[test]
fn words_without_a_meaning_get_the_usage(rt: HostRuntime) -> Result<(), Fail> {
    let lines = [
        "fields d _01",
        "fields d",
        "fields d _0 x",
        "fields d _0 --x",
        "show",
        "help",
        "--help",
        "fields --help",
    ];
    let mut dir = folder(rt.alloc(), Some(ONE_FIELD))?;
    for line in lines {
        expect(&rt, line, &mut dir, 2, USAGE)?;
    }
    Ok(())
}

#[test]
fn no_words_get_the_usage(rt: HostRuntime) -> Result<(), Fail> {
    let mut dir = MemDir::new(rt.alloc());
    let mut source = MemSource::new(Vec::new(rt.alloc()), 1);
    let mut sink = MemSink::new(rt.alloc());
    let status = run(rt.alloc(), &[], &mut dir, &mut source, &mut sink);
    assert_eq!(rt; status, Status::Usage);
    assert_eq!(rt; sink.bytes(), USAGE.as_bytes());
    Ok(())
}

#[test]
fn a_failure_of_the_output_is_answered(rt: HostRuntime) -> Result<(), Fail> {
    let words = words_of(rt.alloc(), FIELDS)?;
    let mut dir = folder(rt.alloc(), Some(ONE_FIELD))?;
    let mut source = MemSource::new(Vec::new(rt.alloc()), 1);
    let mut sink = FaultSink::new(MemSink::new(rt.alloc()), [1].to_vec(rt.alloc())?);
    let status = run(
        rt.alloc(),
        words.as_slice(),
        &mut dir,
        &mut source,
        &mut sink,
    );
    assert_eq!(rt; status, Status::Device(Which::Sink));
    assert_eq!(rt; status.code(), 4);
    assert!(rt; sink.bytes().is_empty());
    Ok(())
}

#[test]
fn a_failure_of_the_folder_is_answered(rt: HostRuntime) -> Result<(), Fail> {
    for call in 1..4 {
        let fails = [Failure {
            call,
            left: Left::Before,
        }]
        .to_vec(rt.alloc())?;
        let mut dir = FaultDir::new(folder(rt.alloc(), Some(ONE_FIELD))?, fails, None);
        let status = expect(&rt, FIELDS, &mut dir, 4, "")?;
        assert_eq!(rt; status, Status::Device(Which::Dir), "{call}");
        assert_eq!(rt; dir.into_inner().get(FILE), Some(ONE_FIELD), "{call}");
    }
    Ok(())
}

// A folder each of whose files is one byte too long to be read.
#[derive(Drop)]
struct LongFiles {
    path: Option<String>,
}

impl Dir for LongFiles {
    ghost files = { λ _. None };

    ghost asked = { λ d. option_map string_bytes d.path };

    ghost faults = { λ _. 0 };

    fn enter(&mut self, alloc: Global, path: &str) -> Result<(), DirFail> {
        self.path = Some(String::from_str(alloc, path)?);
        Ok(())
    }

    fn list(&mut self, alloc: Global) -> Result<Vec<String>, DirFail> {
        Ok(Vec::new(alloc))
    }

    fn length(&mut self, _alloc: Global, _name: &str) -> Result<Option<u64>, DirFail> {
        Ok(Some(1 << 31))
    }

    fn read(
        &mut self,
        _alloc: Global,
        _name: &str,
        _at: u64,
        _buf: &mut [u8],
    ) -> Result<(), DirFail> {
        Ok(())
    }

    fn create(&mut self, _alloc: Global, _name: &str, _bytes: &[u8]) -> Result<(), DirFail> {
        Ok(())
    }

    fn patch(
        &mut self,
        _alloc: Global,
        _name: &str,
        _at: u64,
        _bytes: &[u8],
    ) -> Result<(), DirFail> {
        Ok(())
    }

    fn sync(&mut self, _alloc: Global, _name: &str) -> Result<(), DirFail> {
        Ok(())
    }

    fn remove(&mut self, _alloc: Global, _name: &str) -> Result<(), DirFail> {
        Ok(())
    }
}

#[test]
fn a_long_file_is_refused(rt: HostRuntime) -> Result<(), Fail> {
    let mut dir = LongFiles { path: None };
    let status = expect(&rt, FIELDS, &mut dir, 3, "refused: FileTooLarge fnm\n")?;
    assert_eq!(rt;
        status,
        Status::Refused(Refusal::FileTooLarge(FileKind::Fnm))
    );
    assert_eq!(rt; dir.path.as_ref().map(|path| path.as_str()), Some("d"));
    Ok(())
}
