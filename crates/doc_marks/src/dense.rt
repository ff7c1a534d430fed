//! The dense body of `.del`: a bit a document (format page, "Deletions").
ghost use Rattle.std.specs.Prelude.{◌≡◌, length, IfOk};
ghost use Rattle.lu_grammar.specs.Records.{first_broken};
ghost use Rattle.lu_grammar.specs.Plans.{read_plan};
ghost use Rattle.lu_types.specs.declared.kind.FileKind.TheVariants.{Del};
ghost use Rattle.lu_types.specs.Judging.{GivesInPlain};
ghost use Rattle.doc_marks.specs.Marking.{marked};
ghost use Rattle.doc_marks.specs.Deletions.{body as body_of, body_bytes, body_conditions, dense_plan};

use crate::byte_marks::{BYTE_BITS, byte_marks};
use crate::segment::Segment;
use lu_prims::Cur;
use lu_types::rules::{DEL_PAST, DEL_TOTAL, rule_of};
use lu_types::{FileKind, Spot};

/// The first rule that a dense body breaks, as a whole.
fn body_broken(body: &[u8], segment: Segment) -> Option<u16>
    requires { length body.now ≡ body_bytes segment.size }
    ensures { result ≡ first_broken (body_conditions segment.size segment.count (body_of body.now)) }
{
    let mut documents = 0;
    let mut is_past = false;
    let mut index = 0;
    for byte in body {
        let found = byte_marks(index, *byte, segment.size);
        documents += u64::from(found.documents);
        is_past |= found.is_past;
        index += 1;
    }
    if is_past {
        return Some(DEL_PAST);
    }
    if documents != u64::from(segment.count) {
        return Some(DEL_TOTAL);
    }
    None
}

/// The dense body that stands at the cursor, or its fault.
pub fn dense_body<'a>(cur: &mut Cur<'a>, segment: Segment) -> Result<&'a [u8], Spot>
    ensures gives { GivesInPlain Del (λ body. marked body.now) (read_plan (dense_plan segment.size segment.count) cur.old) cur.new result }
    ensures long { IfOk result (λ body. length body.now ≡ body_bytes segment.size) }
{
    let place = cur.place();
    let body = match cur.bytes((segment.size / BYTE_BITS) as usize + 1) {
        Err(bad) => return Err(Spot::at(FileKind::Del, place, rule_of(bad))),
        Ok(body) => body,
    };
    match body_broken(body, segment) {
        Some(rule) => Err(Spot::at(FileKind::Del, place, rule)),
        None => Ok(body),
    }
}
