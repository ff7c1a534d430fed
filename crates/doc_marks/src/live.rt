//! Which documents of a segment are live, as its `.del` says (format page, "Deletions").
ghost use Rattle.std.specs.Prelude.{◌≡◌, true, not, pos, [], ◌≤◌, ◌<◌, ◌^◌, length, IfOk};
ghost use Rattle.lu_grammar.specs.Plans.{read_plan};
ghost use Rattle.lu_types.specs.declared.kind.FileKind.TheVariants.{Del};
ghost use Rattle.lu_types.specs.Judging.{ChecksPlain, GivesInPlain};
ghost use Rattle.doc_marks.specs.Marking.{is_in, flags_of, documents_of, AreRising};
ghost use Rattle.doc_marks.specs.Deletions.{header as header_of, after_header, del_plan};
ghost use Rattle.doc_marks.specs.Lent.{behind_header, deleted_in, IsSoundForm};

use crate::dense::dense_body;
use crate::form::Form;
use crate::heading::pass_heading;
use crate::marks::Marks;
use crate::pairs::pass_pairs;
use crate::segment::Segment;
use crate::walk::LiveWalk;
use lu_prims::{Cur, OutOfMemory};
use lu_types::rules::TRAILING;
use lu_types::{FileKind, Spot};
use std::alloc::Global;
use std::marker::Model;

/// Which documents of a segment are live, lent from its `.del`, which has no fault. Contracts see the size of the segment, and
/// the rising list of its deleted documents. No call takes memory but `marks`.
#[derive(Drop)]
pub struct Live<'a> {
    form: Form<'a>,
    segment: Segment,
}

impl<'a> Model for Live<'a> {
    ghost use Rattle.doc_marks.specs.Lent.{Deletions, deleted_in, IsSoundForm};

    ghost Value = { Deletions };

    ghost view = { λ l. record { size = l.segment.size; documents = deleted_in l.form l.segment } };

    ghost invariant = { λ l. IsSoundForm l.form l.segment };
}

impl<'a> Live<'a> {
    /// Checks `.del` of a segment of this size, of which the commit counts so many documents deleted. Answers the first fault.
    pub fn check_del(del: &'a [u8], size: u32, count: u32) -> Result<Live<'a>, Spot>
        ensures checks { ChecksPlain (λ live. live.documents) Del (del_plan size count) del.entry.now result }
        ensures size { IfOk result (λ live. live.size ≡ size) }
        ensures count { IfOk result (λ live. length live.documents ≡ count) }
    {
        let segment = Segment { size, count };
        let mut cur = Cur::at(del, 0);
        let is_sparse = match pass_heading(&mut cur, segment) {
            Ok(is_sparse) => is_sparse,
            Err(rule) => return Err(Spot::at(FileKind::Del, 0, rule)),
        };
        let form = match check_body(&mut cur, del, is_sparse, segment) {
            Ok(form) => form,
            Err(fault) => return Err(fault),
        };
        if cur.left() > 0 {
            return Err(Spot::at(FileKind::Del, cur.place(), TRAILING));
        }
        Ok(Live { form, segment })
    }

    /// No document of a segment of this size is deleted.
    pub fn all(size: u32) -> Live<'a>
        ensures { result ≡ record { size = size; documents = [] } }
    {
        Live {
            form: Form::Nothing,
            segment: Segment { size, count: 0 },
        }
    }

    /// How many documents the segment has.
    pub fn size(&self) -> u32
        ensures size { result ≡ self.now.size }
        ensures rise { AreRising 0 self.now.size self.now.documents }
    {
        self.segment.size
    }

    /// How many of them are deleted.
    pub fn count(&self) -> u32
        ensures { result ≡ length self.now.documents }
    {
        self.segment.count
    }

    /// A walk that asks for documents that do not fall; a whole pass over the segment is linear.
    pub fn walk(&self) -> LiveWalk<'a>
        ensures { result ≡ record { documents = self.now.documents; from = 0 } }
    {
        LiveWalk::along(self.form, self.segment)
    }

    /// Whether a document is live. In a sparse file this walks the pairs; `walk` asks for many documents, `marks` for any.
    pub fn is_live(&self, doc: u32) -> bool
        ensures { result ≡ not (is_in doc self.now.documents) }
    {
        self.walk().is_live(doc)
    }

    /// The dense form, a bit a document, for a reader that asks in any order. The segment has fewer than 2^31 documents.
    pub fn marks(&self, alloc: Global) -> Result<Marks, OutOfMemory>
        requires { self.now.size < 2 ^ 31 }
        ensures marks { IfOk result (λ marks. marks ≡ flags_of 0 self.now.size self.now.documents) }
        ensures documents { IfOk result (λ marks. documents_of marks ≡ self.now.documents) }
    {
        let size = self.size();
        let mut marks = Marks::new(alloc, size)?;
        let mut walk = self.walk();
        for doc in 0..size {
            if !walk.is_live(doc) {
                marks.set(doc);
            }
        }
        Ok(marks)
    }

    /// The same documents, once more.
    pub fn again(&self) -> Live<'a>
        ensures { result ≡ self.now }
    {
        Live {
            form: self.form,
            segment: self.segment,
        }
    }
}

/// What follows the header, or its fault.
fn check_body<'a>(
    cur: &mut Cur<'a>,
    del: &'a [u8],
    is_sparse: bool,
    segment: Segment,
) -> Result<Form<'a>, Spot>
    requires { is_sparse ≡ true → (cur.old ≡ behind_header del.now) × (12 ≤ length del.now) }
    ensures gives { GivesInPlain Del (λ form. deleted_in form segment)
        (read_plan (after_header segment.size segment.count (header_of is_sparse (pos segment.size) (pos segment.count))) cur.old) cur.new result }
    ensures sound { IfOk result (λ form. IsSoundForm form segment) }
{
    if is_sparse {
        if let Err(fault) = pass_pairs(cur, segment) {
            return Err(fault);
        }
        return Ok(Form::Sparse(del));
    }
    match dense_body(cur, segment) {
        Ok(body) => Ok(Form::Dense(body)),
        Err(fault) => Err(fault),
    }
}
