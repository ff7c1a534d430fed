//! A term with a payload, by the format page, and not by this crate.
ghost use Rattle.std.specs.Prelude.{◌<◌, ◌^◌};

use lu_types::FileKind;
use posting_files::{PostingFault, PostingFiles, PostingWriter};
use std::alloc::Global;
use std::test::Fail;

/// What the writer of files of at most so many bytes gives of one term: once, at position 0, with a payload of three bytes, in
/// document 0.
fn one_term(alloc: Global, limit: u32) -> Result<PostingFiles, PostingFault>
    requires { limit < 2 ^ 31 }
{
    let mut writer = PostingWriter::new(alloc, limit, 128, 16, 10)?;
    writer.begin_term(false, true)?;
    let before = writer.begin_entry()?;
    writer.add_occurrence(0, &[0xAA, 0xBB, 0xCC])?;
    writer.end_entry(0, 1, before)?;
    writer.finish_term(0, "x")?;
    writer.finish()
}

#[test]
fn a_term_is_written(rt: HostRuntime) -> Result<(), Fail> {
    let files = match one_term(rt.alloc(), 0x7fff_ffff) {
        Ok(files) => files,
        Err(_) => return Err(Fail::from("not written")),
    };
    assert_eq!(rt; files.frq.as_slice(), b"\x01".as_slice());
    assert_eq!(rt; files.prx.as_slice(), b"\x01\x03\xAA\xBB\xCC".as_slice());
    assert_eq!(rt;
        files.tis.as_slice(),
        b"\xFF\xFF\xFF\xFC\0\0\0\0\0\0\0\x01\0\0\0\x80\0\0\0\x10\0\0\0\x0A\0\x01x\0\x01\0\0".as_slice()
    );
    assert_eq!(rt;
        files.tii.as_slice(),
        b"\xFF\xFF\xFF\xFC\0\0\0\0\0\0\0\x01\0\0\0\x80\0\0\0\x10\0\0\0\x0A\0\0\xFF\xFF\xFF\xFF\x0F\0\0\0\x18".as_slice()
    );
    Ok(())
}

#[test]
fn the_first_file_that_passes_the_limit_is_told(rt: HostRuntime) -> Result<(), Fail> {
    for (limit, kind) in [(0, FileKind::Prx), (4, FileKind::Prx), (5, FileKind::Tis)] {
        match one_term(rt.alloc(), limit) {
            Err(PostingFault::TooLarge(found)) => assert_eq!(rt; found, kind),
            _ => return Err(Fail::from("written")),
        }
    }
    Ok(())
}
