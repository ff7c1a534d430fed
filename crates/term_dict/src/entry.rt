ghost use Rattle.std.specs.Prelude.{IfOk};
ghost use Rattle.lu_grammar.specs.Answers.{Gives};
ghost use Rattle.lu_grammar.specs.Records.{read_shape};
ghost use Rattle.term_dict.specs.Entries.{entry_shape, term_record_of, IsBounded};

use lu_prims::{Bad, Cur};

/// The record of a term, as it stands in the file (format page, "Terms"): how many bytes its text shares with the text
/// before, the bytes that follow them, the number of its field, in how many documents it is, how far its places are above
/// those of the term before, and the bytes to its skip data, 0 where it has none.
#[derive(Clone, Copy, Debug, PartialEq, Eq)]
pub struct TermEntry<'a> {
    pub prefix: u32,
    pub suffix: &'a [u8],
    pub field: u32,
    pub doc_freq: u32,
    pub freq: u64,
    pub prox: u64,
    pub skip: u32,
}

/// The record of a term that stands at the cursor, which moves behind it; or what is wrong with its first part that has no
/// spelling. `any_field` says whether any number may stand for the field, as in the index of terms, or one below 2^31.
pub fn entry_at<'a>(
    cur: &mut Cur<'a>,
    any_field: bool,
    skip_interval: u32,
) -> Result<TermEntry<'a>, Bad>
    ensures takes { Gives term_record_of (read_shape (entry_shape any_field skip_interval) cur.old) cur.new result }
    ensures bounded { IfOk result IsBounded }
{
    let prefix = cur.num()?;
    let count = cur.num()?;
    let suffix = match cur.bytes(count as usize) {
        Err(bad) => return Err(bad),
        Ok(suffix) => suffix,
    };
    let field = if any_field { cur.vint()? } else { cur.num()? };
    let doc_freq = cur.num()?;
    let freq = cur.vlong()?;
    let prox = cur.vlong()?;
    let skip = if doc_freq >= skip_interval {
        cur.num()?
    } else {
        0
    };
    Ok(TermEntry {
        prefix,
        suffix,
        field,
        doc_freq,
        freq,
        prox,
        skip,
    })
}
