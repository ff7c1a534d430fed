//! The bytes that a writer gives.
use crate::term_vectors_handing::{
    files_of, put_document, put_pair, put_position, put_term, put_vector,
};
use std::alloc::Global;
use std::process::Abort;
use std::test::Fail;
use term_vectors::VectorWriter;

/// `.tvx` of three documents, the middle one without vectors.
const THREE_TVX: [u8; 52] = [
    0, 0, 0, 4, 0, 0, 0, 0, 0, 0, 0, 4, 0, 0, 0, 0, 0, 0, 0, 4, 0, 0, 0, 0, 0, 0, 0, 6, 0, 0, 0, 0,
    0, 0, 0, 10, 0, 0, 0, 0, 0, 0, 0, 7, 0, 0, 0, 0, 0, 0, 0, 10,
];

/// `hello world` in field 1, with positions and offsets.
fn writes_both(rt: &impl Abort, alloc: Global) -> Result<(), Fail> {
    let mut writer = VectorWriter::new(alloc)?;
    put_document(rt, &mut writer, 1)?;
    put_vector(rt, &mut writer, 1, 3, 2)?;
    put_term(rt, &mut writer, "hello", 1)?;
    put_position(rt, &mut writer, 0)?;
    put_pair(rt, &mut writer, 0, 5)?;
    put_term(rt, &mut writer, "world", 1)?;
    put_position(rt, &mut writer, 1)?;
    put_pair(rt, &mut writer, 6, 11)?;
    let files = files_of(rt, writer);
    assert!(rt;
        files.tvx.as_slice() == b"\0\0\0\x04\0\0\0\0\0\0\0\x04\0\0\0\0\0\0\0\x04".as_slice()
    );
    assert!(rt; files.tvd.as_slice() == b"\0\0\0\x04\x01\x01".as_slice());
    assert!(rt;
        files.tvf.as_slice()
            == b"\0\0\0\x04\x02\x03\0\x05hello\x01\0\0\x05\0\x05world\x01\x01\x06\x05".as_slice()
    );
    Ok(())
}

/// `aa` at 0, offsets 0 to 2, and at 1, offsets 1 to 3.
fn writes_back(rt: &impl Abort, alloc: Global) -> Result<(), Fail> {
    let mut writer = VectorWriter::new(alloc)?;
    put_document(rt, &mut writer, 1)?;
    put_vector(rt, &mut writer, 0, 3, 1)?;
    put_term(rt, &mut writer, "aa", 2)?;
    put_position(rt, &mut writer, 0)?;
    put_position(rt, &mut writer, 1)?;
    put_pair(rt, &mut writer, 0, 2)?;
    put_pair(rt, &mut writer, 1, 3)?;
    let files = files_of(rt, writer);
    assert!(rt;
        files.tvf.as_slice()
            == b"\0\0\0\x04\x01\x03\0\x02aa\x02\0\x01\0\x02\xFF\xFF\xFF\xFF\x0F\x02".as_slice()
    );
    Ok(())
}

/// Three documents, the middle one without vectors, the last with two whose texts begin alike.
fn writes_three(rt: &impl Abort, alloc: Global) -> Result<(), Fail> {
    let mut writer = VectorWriter::new(alloc)?;
    put_document(rt, &mut writer, 1)?;
    put_vector(rt, &mut writer, 1, 0, 1)?;
    put_term(rt, &mut writer, "a", 1)?;
    put_document(rt, &mut writer, 0)?;
    put_document(rt, &mut writer, 2)?;
    put_vector(rt, &mut writer, 2, 1, 2)?;
    put_term(rt, &mut writer, "ab", 1)?;
    put_position(rt, &mut writer, 3)?;
    put_term(rt, &mut writer, "ac", 1)?;
    put_position(rt, &mut writer, 4)?;
    put_vector(rt, &mut writer, 1, 0, 1)?;
    put_term(rt, &mut writer, "ab", 1)?;
    let files = files_of(rt, writer);
    assert!(rt; files.tvx.as_slice() == THREE_TVX.as_slice());
    assert!(rt; files.tvd.as_slice() == b"\0\0\0\x04\x01\x01\0\x02\x02\x01\x0D".as_slice());
    assert!(rt;
        files.tvf.as_slice()
            == b"\0\0\0\x04\x01\0\0\x01a\x01\x02\x01\0\x02ab\x01\x03\x01\x01c\x01\x04\x01\0\0\x02ab\x01".as_slice()
    );
    Ok(())
}

#[test]
fn writes_rows(rt: HostRuntime) -> Result<(), Fail> {
    let alloc = rt.alloc();
    writes_both(&rt, alloc)?;
    writes_back(&rt, alloc)?;
    writes_three(&rt, alloc)
}
