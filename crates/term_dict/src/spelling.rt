//! The records of terms, appended to a file (format page, "Terms").
ghost use Rattle.std.specs.Prelude.{◌≡◌, ◌++◌, ◌<◌, ◌≤◌, ◌^◌, [], length, take, OnOk, OnErr, vec_len};
ghost use Rattle.term_dict.specs.Canonical.{shared, entry_between, term_record_bytes, skip_delta_bytes, header_bytes};
ghost use Rattle.term_dict.specs.Entries.{term_record_of, IsBounded};
ghost use Rattle.term_dict.specs.Last.{term_of_last};
ghost use Rattle.term_dict.specs.Writing.{FollowsTerm};

use crate::entry::TermEntry;
use crate::last::LastTerm;
use lu_prims::{OutOfMemory, put_i32, put_i64, put_vint, put_vlong};
use lu_types::TermInfo;

/// How many bytes two texts begin with alike.
pub(crate) fn shared_len(a: &[u8], b: &[u8]) -> usize
    ensures value { result ≡ shared a.now b.now }
    ensures front { result ≤ length a.now }
    ensures within { result ≤ length b.now }
{
    let most = a.len().min(b.len());
    for place in 0..most {
        if a[place] != b[place] {
            return place;
        }
    }
    most
}

/// The entry of a term after the last one, whose places are not above its own.
pub(crate) fn entry_between<'a>(last: &LastTerm, text: &'a [u8], info: &TermInfo) -> TermEntry<'a>
    requires follows { FollowsTerm last.now.info info.now }
    requires small { length text.now < 2 ^ 31 }
    ensures entry { term_record_of result ≡ entry_between (term_of_last last.now) (record { text = text.entry.now; info = info.now }) }
    ensures bounded { IsBounded result × (length result.suffix.now < 2 ^ 31) }
    ensures places { (info.now.freq < 2 ^ 32) × (info.now.prox < 2 ^ 32) }
{
    let prefix = shared_len(last.text.as_slice(), text);
    TermEntry {
        prefix: prefix as u32,
        suffix: text.split_at(prefix).1,
        field: info.field,
        doc_freq: info.doc_freq,
        freq: u64::from(info.freq - last.info.freq),
        prox: u64::from(info.prox - last.info.prox),
        skip: info.skip,
    }
}

/// Appends the parts of an entry. After an `Err` some of them may stand behind what was there.
pub(crate) fn push_entry(
    out: &mut Vec<u8>,
    entry: &TermEntry<'_>,
    skip_interval: u32,
) -> Result<(), OutOfMemory>
    requires bounded { IsBounded entry.now }
    requires small { length entry.now.suffix.now < 2 ^ 31 }
    ensures ok { OnOk result (out.new.items ≡ out.old.items ++ term_record_bytes skip_interval (term_record_of entry.now) []) }
    ensures err { OnErr result (take (vec_len out.old) out.new.items ≡ out.old.items) }
{
    put_vint(out, entry.prefix)?;
    put_vint(out, entry.suffix.len() as u32)?;
    out.extend_from_slice(entry.suffix)?;
    put_vint(out, entry.field)?;
    put_vint(out, entry.doc_freq)?;
    put_vlong(out, entry.freq)?;
    put_vlong(out, entry.prox)?;
    push_skip(out, entry, skip_interval)?;
    Ok(())
}

/// Appends SkipDelta, where it stands.
fn push_skip(
    out: &mut Vec<u8>,
    entry: &TermEntry<'_>,
    skip_interval: u32,
) -> Result<(), OutOfMemory>
    ensures ok { OnOk result (out.new.items ≡ out.old.items ++ skip_delta_bytes skip_interval (term_record_of entry.now)) }
    ensures err { OnErr result (out.new.items ≡ out.old.items) }
{
    if entry.doc_freq >= skip_interval {
        put_vint(out, entry.skip)?;
    }
    Ok(())
}
