//! Asking which documents are live, one after another (format page, "Deletions").
ghost use Rattle.std.specs.Prelude.{◌≡◌, not, ◌≤◌};
ghost use Rattle.doc_marks.specs.Marking.{marked, is_in};

use crate::byte_marks::BYTE_BITS;
use crate::form::Form;
use crate::marks::has_bit;
use crate::pair_walk::PairWalk;
use crate::segment::Segment;
use std::marker::Model;

/// Asks for documents that do not fall whether they are live. A whole pass is linear in the file and the documents that are
/// asked for. Contracts see the deleted documents, and the first document that may be asked for. No call takes memory.
#[derive(Drop)]
pub struct LiveWalk<'a> {
    form: Form<'a>,
    pairs: PairWalk<'a>,
}

impl<'a> Model for LiveWalk<'a> {
    ghost use Rattle.doc_marks.specs.Lent.{deleted_in};
    ghost use Rattle.doc_marks.specs.Walking.{MarkWalk, IsWalk};

    ghost Value = { MarkWalk };

    ghost view = { λ w. record { documents = deleted_in w.form w.pairs.segment; from = w.pairs.from } };

    ghost invariant = { λ w. IsWalk w.form w.pairs };
}

/// No file.
const NO_BYTES: &[u8] = &[];

/// How many bytes stand before the pairs of a sparse `.del`.
const SPARSE_HEADER: usize = 12;

/// Whether a dense body marks a document.
fn is_marked(body: &[u8], doc: u32) -> bool
    ensures { result ≡ is_in doc (marked body.now) }
{
    let index = (doc / BYTE_BITS) as usize;
    if index >= body.len() {
        return false;
    }
    has_bit(body[index], doc % BYTE_BITS)
}

impl<'a> LiveWalk<'a> {
    ghost use Rattle.doc_marks.specs.Lent.{deleted_in, IsSoundForm};

    /// Before the first document.
    pub fn along(form: Form<'a>, segment: Segment) -> LiveWalk<'a>
        requires { IsSoundForm form segment }
        ensures { result ≡ record { documents = deleted_in form.entry segment; from = 0 } }
    {
        let pairs = match form {
            Form::Nothing => PairWalk::at_start(NO_BYTES, 0, segment),
            Form::Dense(body) => PairWalk::at_start(body, 0, segment),
            Form::Sparse(del) => PairWalk::at_start(del, SPARSE_HEADER, segment),
        };
        LiveWalk { form, pairs }
    }

    /// Whether a document is live, which is not before those that were asked for.
    pub fn is_live(&mut self, doc: u32) -> bool
        requires { self.old.from ≤ doc }
        ensures live { result ≡ not (is_in doc self.old.documents) }
        ensures walk { self.new ≡ record self.old { from = doc } }
    {
        match self.form {
            Form::Nothing => {
                self.pairs.from = doc;
                true
            }
            Form::Dense(body) => {
                self.pairs.from = doc;
                !is_marked(body, doc)
            }
            Form::Sparse(_) => {
                self.pairs.pass_to(doc);
                !self.pairs.is_marked(doc)
            }
        }
    }
}
