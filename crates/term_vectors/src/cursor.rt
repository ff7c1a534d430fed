//! The vectors of a document, one after another (format page, "Term vectors").
ghost use Rattle.std.specs.Prelude.{◌≡◌, ◌≤◌, ◌∷◌, ℕ, List, [], length, Ok, IfOk, MatchOption};
ghost use Rattle.lu_grammar.specs.Bytes.{IsBytes, Cursor, place_in};
ghost use Rattle.lu_grammar.specs.Plans.{read_plan};
ghost use Rattle.term_vectors.specs.Fields.{further_plan};
ghost use Rattle.term_vectors.specs.Walks.{walk_of};
ghost use Rattle.term_vectors.specs.InnerViews.{vector_here, IsVectorThere, AreThere, vectors_here};
ghost use Rattle.term_vectors.specs.InnerCursors.{IsSteppedTo};

use crate::checking::skip_numbers;
use crate::document::VectorField;
use crate::fields::next_place;
use crate::terms::VectorTerms;
use crate::vectors::next_heading;
use lu_prims::{Cur, OutOfMemory};
use std::alloc::Global;
use std::marker::Model;

/// A vector of a document of checked files. Contracts see the vector.
#[derive(Drop)]
pub struct DocVector<'a> {
    field: VectorField,
    tvf: &'a [u8],
    /// The place behind its heading.
    terms: usize,
    /// How many terms it has.
    count: u32,
}

impl<'a> Model for DocVector<'a> {
    ghost use Rattle.term_vectors.specs.Vectors.{StoredVector};
    ghost use Rattle.term_vectors.specs.InnerCursors.{vector_behind, IsVectorBehind};

    ghost Value = { StoredVector };

    ghost view = { λ v. vector_behind v.field v.tvf.now v.terms v.count };

    ghost invariant = { λ v. IsVectorBehind v.field.bits v.tvf.now v.terms v.count };
}

impl<'a> DocVector<'a> {
    /// Its field, and its bits. Takes no memory.
    pub fn field(&self) -> VectorField
        ensures number { result.number ≡ self.now.field }
        ensures bits { result.bits ≡ self.now.bits }
    {
        self.field
    }

    /// A walk over its terms. It takes memory for the longest text, and its calls take none.
    pub fn terms(&self, alloc: Global) -> Result<VectorTerms<'a>, OutOfMemory>
        ensures { IfOk result (λ walk. walk ≡ walk_of self.now.terms) }
    {
        VectorTerms::new(alloc, self.tvf, self.terms, self.field.bits, self.count)
    }
}

/// The vector of a field that stands at a place.
fn vector_at<'a>(tvf: &'a [u8], field: u32, place: u32) -> DocVector<'a>
    requires { IsVectorThere tvf.now (record { field = field; place = place }) }
    ensures { result ≡ vector_here tvf.entry.now (record { field = field; place = place }) }
{
    let mut here = Cur::at(tvf, place as usize);
    match next_heading(&mut here, place) {
        Err(_) => unreachable!(),
        Ok(heading) => DocVector {
            field: VectorField {
                number: field,
                bits: heading.bits,
            },
            tvf,
            terms: here.place(),
            count: heading.count,
        },
    }
}

/// Where the next vector stands in `.tvf`, and behind its difference in `.tvd`.
#[derive(Clone, Copy, Debug, PartialEq, Eq)]
pub struct VectorStep {
    pub place: u32,
    pub further: usize,
}

/// The step behind a vector at a place, where so many vectors are left behind it, and their differences stand at a place of
/// `.tvd`.
fn step_behind(tvd: &[u8], further: usize, place: u32, left: u32) -> VectorStep
    requires within { further ≤ length tvd.now }
    requires there { (x : List ℕ × Cursor) × (read_plan (further_plan left place) (place_in tvd.now further) ≡ Ok x) }
    ensures { (places : List ℕ) (d : Cursor) → read_plan (further_plan left place) (place_in tvd.now further) ≡ Ok (places, d)
        → IsSteppedTo tvd.now left places d result }
{
    if left == 0 {
        return VectorStep { place, further };
    }
    let mut beside = Cur::at(tvd, further);
    match next_place(&mut beside, place) {
        Err(_) => unreachable!(),
        Ok(next) => VectorStep {
            place: next,
            further: beside.place(),
        },
    }
}

/// A walk over the vectors of a document. Contracts see those that are left, in order. Each is reached from the one before, so
/// a walk over all takes time by their number. No call takes memory.
#[derive(Drop)]
pub struct VectorCursor<'a> {
    tvd: &'a [u8],
    /// The place in `.tvd` of the field of the next vector.
    numbers: usize,
    /// The place in `.tvd` of the difference behind the next vector.
    further: usize,
    /// How many vectors are left.
    left: u32,
    tvf: &'a [u8],
    /// The place in `.tvf` of the next vector.
    place: u32,
}

impl<'a> Model for VectorCursor<'a> {
    ghost use Rattle.std.specs.Prelude.{List};
    ghost use Rattle.term_vectors.specs.Vectors.{StoredVector};
    ghost use Rattle.term_vectors.specs.InnerCursors.{vectors_left, AreVectorsLeft};

    ghost Value = { List StoredVector };

    ghost view = { λ c. vectors_left c.tvd.now c.numbers c.further c.left c.place c.tvf.now };

    ghost invariant = { λ c. AreVectorsLeft c.tvd.now c.numbers c.further c.left c.place c.tvf.now };
}

impl<'a> VectorCursor<'a> {
    /// Before the first of so many vectors, whose fields and differences stand at a place of `.tvd`, and the first of which
    /// stands at a place of `.tvf`.
    pub(crate) fn new(
        tvd: &'a [u8],
        numbers: usize,
        count: u32,
        tvf: &'a [u8],
        place: u32,
    ) -> VectorCursor<'a>
        requires { AreThere tvd.now numbers count place tvf.now }
        ensures { result ≡ vectors_here tvd.entry.now numbers count place tvf.entry.now }
    {
        let mut beside = Cur::at(tvd, numbers);
        skip_numbers(&mut beside, count);
        VectorCursor {
            tvd,
            numbers,
            further: beside.place(),
            left: count,
            tvf,
            place,
        }
    }

    /// The next vector; `None` after the last.
    pub fn next(&mut self) -> Option<DocVector<'a>>
        ensures { MatchOption result ((self.old ≡ []) × (self.new ≡ [])) (λ vector. self.old ≡ vector ∷ self.new) }
    {
        if self.left == 0 {
            return None;
        }
        let mut beside = Cur::at(self.tvd, self.numbers);
        let field = match beside.num() {
            Err(_) => unreachable!(),
            Ok(field) => field,
        };
        let vector = vector_at(self.tvf, field, self.place);
        self.left -= 1;
        let step = step_behind(self.tvd, self.further, self.place, self.left);
        self.numbers = beside.place();
        self.further = step.further;
        self.place = step.place;
        Some(vector)
    }
}
