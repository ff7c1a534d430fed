//! The parts of the three files, appended (format page, "Term vectors").
ghost use Rattle.std.specs.Prelude.{pos, ◌≡◌, ◌++◌, ◌<◌, ◌≤◌, ◌^◌, length, take, OnOk, OnErr, vec_len};
ghost use Rattle.lu_grammar.specs.Parts.{int64, num, spelling};
ghost use Rattle.term_vectors.specs.OffsetPairs.{span_of};
ghost use Rattle.term_vectors.specs.VectorBytes.{document_places_bytes, start_delta, shared_length, term_front_bytes, vector_heading_bytes, span_bytes};
ghost use Rattle.term_vectors.specs.VectorWriting.{difference_from, differences_at_last};

use crate::layout::START_MODULUS;
use crate::occurrences::OffsetPair;
use crate::vectors::Heading;
use lu_prims::{OutOfMemory, put_i64, put_vint, put_vlong};

/// Appends a place. On `Err` the list is as before.
fn put_place(out: &mut Vec<u8>, place: usize) -> Result<(), OutOfMemory>
    requires { place < 2 ^ 63 }
    ensures ok { OnOk result (out.new.items ≡ out.old.items ++ spelling int64 (pos place)) }
    ensures err { OnErr result (out.new.items ≡ out.old.items) }
{
    put_i64(out, place as i64)
}

/// Appends the two places of a document. On `Err` the list is as before.
pub fn put_places(out: &mut Vec<u8>, tvd: usize, tvf: usize) -> Result<(), OutOfMemory>
    requires tvd { tvd < 2 ^ 63 }
    requires tvf { tvf < 2 ^ 63 }
    ensures ok { OnOk result (out.new.items ≡ out.old.items ++ document_places_bytes (record { tvd = tvd; tvf = tvf })) }
    ensures err { OnErr result (out.new.items ≡ out.old.items) }
{
    let before = out.len();
    put_place(out, tvd)?;
    if put_place(out, tvf).is_err() {
        out.truncate(before);
        return Err(OutOfMemory);
    }
    Ok(())
}

/// Appends how far a vector that starts behind these bytes stands behind the one that starts at a place, if there is one.
/// On `Err` the list is as before.
pub fn put_difference(
    out: &mut Vec<u8>,
    start: Option<usize>,
    tvf: &[u8],
) -> Result<(), OutOfMemory>
    ensures ok { OnOk result (out.new.items ≡ out.old.items ++ difference_from start (length tvf.now)) }
    ensures err { OnErr result (out.new.items ≡ out.old.items) }
{
    match start {
        None => Ok(()),
        Some(start) => put_vlong(out, tvf.len().saturating_sub(start) as u64),
    }
}

/// The differences of a document where one vector lacks, and none before.
pub fn differences_at_last<'a>(lacks: u32, differences: &'a [u8]) -> &'a [u8]
    ensures { result.now ≡ differences_at_last lacks differences.entry.now }
{
    if lacks == 1 { differences } else { &[] }
}

/// Appends the field of a vector, and differences. On `Err` the list is as before.
fn put_number(out: &mut Vec<u8>, field: u32, differences: &[u8]) -> Result<(), OutOfMemory>
    ensures ok { OnOk result (out.new.items ≡ out.old.items ++ (spelling num field ++ differences.now)) }
    ensures err { OnErr result (out.new.items ≡ out.old.items) }
{
    let before = out.len();
    put_vint(out, field)?;
    match out.extend_from_slice(differences) {
        Ok(()) => Ok(()),
        Err(_) => {
            out.truncate(before);
            Err(OutOfMemory)
        }
    }
}

/// Appends how many terms a vector has, and its bits. On `Err` the list is as before.
fn put_heading(out: &mut Vec<u8>, heading: Heading) -> Result<(), OutOfMemory>
    ensures ok { OnOk result (out.new.items ≡ out.old.items ++ vector_heading_bytes heading.count heading.bits) }
    ensures err { OnErr result (out.new.items ≡ out.old.items) }
{
    let before = out.len();
    put_vint(out, heading.count)?;
    match out.push(heading.bits) {
        Ok(()) => Ok(()),
        Err(_) => {
            out.truncate(before);
            Err(OutOfMemory)
        }
    }
}

/// Appends the field of a vector and differences to one file, and its heading to the other. On `Err` both are as before.
pub fn put_vector(
    tvd: &mut Vec<u8>,
    tvf: &mut Vec<u8>,
    field: u32,
    differences: &[u8],
    heading: Heading,
) -> Result<(), OutOfMemory>
    ensures tvd { OnOk result (tvd.new.items ≡ tvd.old.items ++ (spelling num field ++ differences.now)) }
    ensures tvf { OnOk result (tvf.new.items ≡ tvf.old.items ++ vector_heading_bytes heading.count heading.bits) }
    ensures err_tvd { OnErr result (tvd.new.items ≡ tvd.old.items) }
    ensures err_tvf { OnErr result (tvf.new.items ≡ tvf.old.items) }
{
    let before = tvd.len();
    put_number(tvd, field, differences)?;
    if put_heading(tvf, heading).is_err() {
        tvd.truncate(before);
        return Err(OutOfMemory);
    }
    Ok(())
}

/// How many bytes two texts begin with alike.
fn shared_length(a: &[u8], b: &[u8]) -> usize
    ensures value { result ≡ shared_length a.now b.now }
    ensures within { result ≤ length b.now }
{
    let most = a.len().min(b.len());
    for place in 0..most {
        if a[place] != b[place] {
            return place;
        }
    }
    most
}

/// Appends how many bytes a text shares with the one before, its other bytes, and how often it stands in the field. After an
/// `Err` some of it may stand behind what was there.
fn push_term(out: &mut Vec<u8>, before: &[u8], text: &[u8], freq: u32) -> Result<(), OutOfMemory>
    requires { length text.now < 2 ^ 31 }
    ensures ok { OnOk result (out.new.items ≡ out.old.items ++ term_front_bytes before.now text.now freq) }
    ensures err { OnErr result (take (vec_len out.old) out.new.items ≡ out.old.items) }
{
    let prefix = shared_length(before, text);
    let suffix = text.split_at(prefix).1;
    put_vint(out, prefix as u32)?;
    put_vint(out, suffix.len() as u32)?;
    out.extend_from_slice(suffix)?;
    put_vint(out, freq)
}

/// The same. On `Err` the list is as before.
pub fn put_term(out: &mut Vec<u8>, before: &[u8], text: &[u8], freq: u32) -> Result<(), OutOfMemory>
    requires { length text.now < 2 ^ 31 }
    ensures ok { OnOk result (out.new.items ≡ out.old.items ++ term_front_bytes before.now text.now freq) }
    ensures err { OnErr result (out.new.items ≡ out.old.items) }
{
    let start = out.len();
    if push_term(out, before, text, freq).is_err() {
        out.truncate(start);
        return Err(OutOfMemory);
    }
    Ok(())
}

/// How far a start is from the end before, modulo 2^32.
fn start_delta(last: u32, start: u32) -> u32
    ensures { result ≡ start_delta last start }
{
    ((u64::from(start) + START_MODULUS - u64::from(last)) % START_MODULUS) as u32
}

/// Appends how far the start of a pair is from the end before, and its length. On `Err` the list is as before.
pub fn put_pair(out: &mut Vec<u8>, last: u32, pair: OffsetPair) -> Result<(), OutOfMemory>
    ensures ok { OnOk result (out.new.items ≡ out.old.items ++ span_bytes last (span_of pair)) }
    ensures err { OnErr result (out.new.items ≡ out.old.items) }
{
    let before = out.len();
    put_vint(out, start_delta(last, pair.start))?;
    if put_vint(out, pair.end.saturating_sub(pair.start)).is_err() {
        out.truncate(before);
        return Err(OutOfMemory);
    }
    Ok(())
}
