ghost use Rattle.std.specs.Prelude.{◌<◌, None, option_map, string_bytes};

use crate::run_tests::expect;
use lu_command::{Status, Which};
use lu_dir::{Dir, Fail as Failure, FaultDir, Left, MemDir};
use lu_prims::OutOfMemory;
use std::alloc::Global;
use std::process::Abort;
use std::test::Fail;

// The files of a store with one document, in the order in which they are read.
const NAMES: [&str; 3] = ["_0.fnm", "_0.fdx", "_0.fdt"];

const FNM: &[u8] = b"\xFE\xFF\xFF\xFF\x0F\x02\x05title\x10\x04body\x0F";

const FDX: &[u8] = b"\x00\x00\x00\x02\x00\x00\x00\x00\x00\x00\x00\x04";

const FDT: &[u8] = b"\x00\x00\x00\x02\x01\x00\x01\x0Bhello world";

const GOOD: &str = "doc 0\nstored 0 1 text \"hello world\"\n";

// A folder with these files, where they are there.
fn folder(alloc: Global, files: &[Option<&[u8]>; 3]) -> Result<MemDir, OutOfMemory> {
    let mut dir = MemDir::new(alloc);
    for i in 0..3 {
        if let Some(bytes) = files[i] {
            dir.put(NAMES[i], bytes)?;
        }
    }
    Ok(dir)
}

// What `docs` says of these files is this text, with this exit number.
fn expect_docs<R: Abort + AllocGlobal>(
    rt: &R,
    files: &[Option<&[u8]>; 3],
    text: &str,
    code: u8,
) -> Result<(), Fail> {
    let mut dir = folder(rt.alloc(), files)?;
    expect(rt, "docs d _0", &mut dir, code, text)?;
    Ok(())
}

#[test]
fn stored_fields_are_judged(rt: HostRuntime) -> Result<(), Fail> {
    let rows: [(&[u8], &[u8], &str, u8); 9] = [
        (FDX, FDT, GOOD, 0),
        (
            b"\x00\x00\x00\x02\x00\x00\x00\x00\x00\x00\x00\x04\x00",
            FDT,
            "fault _0.fdx 12 6 Trailing\n",
            1,
        ),
        (b"\x00\x00", FDT, "fault _0.fdx 0 1 Ends\n", 1),
        (
            FDX,
            b"\x00\x00\x00\x02\x01\x02\x01\x0Bhello world",
            "fault _0.fdt 5 45 StoredField\n",
            1,
        ),
        (
            FDX,
            b"\x00\x00\x00\x02\x01\x00\x04\x0Bhello world",
            "fault _0.fdt 5 46 StoredBits\n",
            1,
        ),
        (
            FDX,
            b"\x00\x00\x00\x02\x01\x00\x03\x0Bhello world",
            "doc 0\nstored 0 1 binary 68656c6c6f20776f726c64\n",
            0,
        ),
        (
            b"\x00\x00\x00\x02\x00\x00\x00\x00\x00\x00\x00\x05",
            FDT,
            "fault _0.fdx 4 41 FdxPlace\n",
            1,
        ),
        (
            FDX,
            b"\x00\x00\x00\x02\x01\x00\x01\x0Bhello world\x00",
            "fault _0.fdt 19 6 Trailing\n",
            1,
        ),
        (b"\x00\x00\x00\x02", b"\x00\x00\x00\x02", "", 0),
    ];
    for (fdx, fdt, text, code) in rows {
        expect_docs(&rt, &[Some(FNM), Some(fdx), Some(fdt)], text, code)?;
    }
    Ok(())
}

#[test]
fn the_first_missing_file_is_named(rt: HostRuntime) -> Result<(), Fail> {
    let rows: [([Option<&[u8]>; 3], &str); 6] = [
        ([None, None, None], "fault _0.fnm 0 5 Missing\n"),
        ([Some(FNM), None, None], "fault _0.fdx 0 5 Missing\n"),
        ([Some(FNM), Some(FDX), None], "fault _0.fdt 0 5 Missing\n"),
        ([Some(FNM), None, Some(FDT)], "fault _0.fdx 0 5 Missing\n"),
        ([Some(b""), None, None], "fault _0.fnm 0 1 Ends\n"),
        ([Some(FNM), Some(b"\x00"), None], "fault _0.fdx 0 1 Ends\n"),
    ];
    for (files, text) in rows {
        expect_docs(&rt, &files, text, 1)?;
    }
    Ok(())
}

#[test]
fn values_are_printed_as_they_are(rt: HostRuntime) -> Result<(), Fail> {
    let rows: [(&[u8], &str); 3] = [
        (
            b"\x00\x00\x00\x02\x01\x00\x00\x07a\"\\\x0A\x01\xC3\xA9",
            "doc 0\nstored 0 0 text \"a\\\"\\\\\\u000a\\u0001\u{E9}\"\n",
        ),
        (
            b"\x00\x00\x00\x02\x01\x01\x02\x00",
            "doc 0\nstored 1 0 binary \n",
        ),
        (b"\x00\x00\x00\x02\x00", "doc 0\n"),
    ];
    for (fdt, text) in rows {
        expect_docs(&rt, &[Some(FNM), Some(FDX), Some(fdt)], text, 0)?;
    }
    Ok(())
}

// The place of the record that a cut at a length ends in, by the places where the records start.
fn part_of(starts: &[usize], length: usize) -> usize {
    let mut part = 0;
    for start in starts {
        if *start <= length {
            part = *start;
        }
    }
    part
}

// Cuts one of the three files at every length; each is named as the first faulty one, where it ends.
fn cut_at_every_length<R: Abort + AllocGlobal>(
    rt: &R,
    place: usize,
    whole: &[u8],
    starts: &[usize],
) -> Result<(), Fail>
    requires { place < 3 }
{
    for length in 0..whole.len() {
        let mut files = [Some(FNM), Some(FDX), Some(FDT)];
        files[place] = Some(&whole[..length]);
        let name = NAMES[place];
        let offset = part_of(starts, length);
        let expected = format!(in rt.alloc(); "fault {name} {offset} 1 Ends\n")?;
        expect_docs(rt, &files, expected.as_str(), 1)?;
    }
    Ok(())
}

#[test]
fn a_cut_field_table_is_named(rt: HostRuntime) -> Result<(), Fail> {
    cut_at_every_length(&rt, 0, FNM, &[0, 6, 13])
}

#[test]
fn a_cut_file_of_documents_is_named(rt: HostRuntime) -> Result<(), Fail> {
    cut_at_every_length(&rt, 2, FDT, &[0, 4, 5])
}

#[test]
fn a_cut_file_of_places_is_named(rt: HostRuntime) -> Result<(), Fail> {
    for length in 0..FDX.len() {
        let expected = match length {
            0..=3 => "fault _0.fdx 0 1 Ends\n",
            4 => "fault _0.fdt 4 6 Trailing\n",
            _ => "fault _0.fdx 4 6 Trailing\n",
        };
        expect_docs(
            &rt,
            &[Some(FNM), Some(&FDX[..length]), Some(FDT)],
            expected,
            1,
        )?;
    }
    Ok(())
}

#[test]
fn a_failure_of_the_folder_is_answered(rt: HostRuntime) -> Result<(), Fail> {
    for call in 1..8 {
        let fails = [Failure {
            call,
            left: Left::Before,
        }]
        .to_vec(rt.alloc())?;
        let files = [Some(FNM), Some(FDX), Some(FDT)];
        let mut dir = FaultDir::new(folder(rt.alloc(), &files)?, fails, None);
        let status = expect(&rt, "docs d _0", &mut dir, 4, "")?;
        assert_eq!(rt; status, Status::Device(Which::Dir), "{call}");
        assert_eq!(rt; dir.into_inner().get("_0.fdt"), Some(FDT), "{call}");
    }
    Ok(())
}
