//! A walk over the pairs of a sparse `.del`.
ghost use Rattle.std.specs.Prelude.{◌≡◌, false, ◌≤◌, ◌/◌, length, drop};
ghost use Rattle.doc_marks.specs.Marking.{marked_at, is_in};
ghost use Rattle.doc_marks.specs.Walking.{needs_more};

use crate::byte_marks::BYTE_BITS;
use crate::marks::has_bit;
use crate::pairs::{Passed, next_pair};
use crate::segment::Segment;
use lu_prims::Cur;

/// Where a walk stands among the pairs of a sparse `.del`.
#[derive(Drop)]
pub struct PairWalk<'a> {
    /// All bytes of the file.
    pub del: &'a [u8],
    /// The segment.
    pub segment: Segment,
    /// Behind the pairs that were passed.
    pub cur: Cur<'a>,
    /// These pairs.
    pub passed: Passed,
    /// The byte of the last of them; 0 before the first.
    pub marks: u8,
    /// The first document that may be asked for.
    pub from: u32,
}

/// Whether pairs are to be passed before the byte with this index is reached.
fn needs_more(passed: Passed, count: u32, wanted: u32) -> bool
    ensures { result ≡ needs_more count passed.index passed.documents wanted }
{
    passed.documents < count && (passed.documents == 0 || passed.index < wanted)
}

impl<'a> PairWalk<'a> {
    ghost use Rattle.doc_marks.specs.Walking.{IsWalking};

    /// Before the first pair, which stands at this place of the file.
    pub fn at_start(del: &'a [u8], place: usize, segment: Segment) -> PairWalk<'a>
        requires { place ≤ length del.now }
        ensures { result ≡ record {
          del = del.entry;
          segment = segment;
          cur = record { place = place; rest = drop place del.entry.now };
          passed = record { index = 0; documents = 0 };
          marks = 0;
          from = 0;
        } }
    {
        PairWalk {
            del,
            segment,
            cur: Cur::at(del, place),
            passed: Passed {
                index: 0,
                documents: 0,
            },
            marks: 0,
            from: 0,
        }
    }

    /// Passes pairs until the byte that has a document's bit is reached, or the first byte behind it, or the last of all.
    pub fn pass_to(&mut self, doc: u32)
        requires walking { IsWalking self.old }
        requires rises { self.old.from ≤ doc }
        ensures walking { IsWalking self.new }
        ensures file { self.new.del ≡ self.old.del }
        ensures segment { self.new.segment ≡ self.old.segment }
        ensures from { self.new.from ≡ doc }
        ensures reached { needs_more self.new.segment.count self.new.passed.index self.new.passed.documents (doc / 8) ≡ false }
    {
        let size = self.segment.size;
        let count = self.segment.count;
        let segment = Segment { size, count };
        while needs_more(self.passed, count, doc / BYTE_BITS) {
            match next_pair(&mut self.cur, self.passed, segment) {
                Err(_) => unreachable!(),
                Ok(pair) => {
                    self.passed.index += pair.gap;
                    self.passed.documents += pair.documents;
                    self.marks = pair.marks;
                }
            }
        }
        self.from = doc;
    }

    /// Whether the last pair marks a document.
    pub fn is_marked(&self, doc: u32) -> bool
        ensures { result ≡ is_in doc (marked_at self.now.passed.index self.now.marks) }
    {
        self.passed.index == doc / BYTE_BITS && has_bit(self.marks, doc % BYTE_BITS)
    }
}
