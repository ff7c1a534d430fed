ghost use Rattle.std.specs.Prelude.{IfOk};
ghost use Rattle.lu_grammar.specs.Answers.{Gives};
ghost use Rattle.lu_grammar.specs.Records.{read_shape};
ghost use Rattle.term_dict.specs.Index.{index_shape};
ghost use Rattle.term_index.specs.Points.{index_point_of, IsBoundedPoint};

use lu_prims::{Bad, Cur};
use term_dict::{TermEntry, entry_at};

/// An entry of the index, as it stands there: the record of a term, and how far its place is above that of the entry before.
#[derive(Clone, Copy, Debug, PartialEq, Eq)]
pub(crate) struct IndexPoint<'a> {
    pub(crate) term: TermEntry<'a>,
    pub(crate) step: u64,
}

/// The entry that stands at the cursor, which moves behind it; or what is wrong with its first part that has no spelling.
#[tactic(auto, using(crate::proofs::PointLemmas::reading))]
pub(crate) fn point_at<'a>(cur: &mut Cur<'a>, skip_interval: u32) -> Result<IndexPoint<'a>, Bad>
    ensures takes { Gives index_point_of (read_shape (index_shape skip_interval) cur.old) cur.new result }
    ensures bounded { IfOk result IsBoundedPoint }
{
    let term = match entry_at(cur, true, skip_interval) {
        Err(bad) => return Err(bad),
        Ok(term) => term,
    };
    let step = cur.vlong()?;
    Ok(IndexPoint { term, step })
}
