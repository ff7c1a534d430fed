//! What every vector that was read is, and the numbers that the format fixes: each stands on a function that does nothing.
ghost use Rattle.std.specs.Prelude.{◌≡◌, ◌+◌, ◌<◌, ◌≤◌, ◌^◌, ◌++◌, ℕ, List, [], ◌∷◌, length, map, All, None, Some, Ok};
ghost use Rattle.std.specs.List.Sorted.{IsStrictlySortedBy};
ghost use Rattle.lu_prims.specs.Order.{text_cmp};
ghost use Rattle.lu_types.specs.FilePlans.{StandFor};
ghost use Rattle.lu_types.specs.Tables.{TableField};
ghost use Rattle.lu_types.specs.declared.stored.Window.{Window};
ghost use Rattle.lu_grammar.specs.Bytes.{IsBytes, Cursor};
ghost use Rattle.lu_grammar.specs.Plans.{read_plan};
ghost use Rattle.lu_types.specs.Stores.{header_length, greatest_place, windowed, whole_store};
ghost use Rattle.lu_model.specs.Index.{Span, VectorTerm};
ghost use Rattle.lu_model.specs.Valid.{IsVectorTerm};
ghost use Rattle.term_vectors.specs.Format.{vector_format, document_length, start_modulus, bit_positions, bit_offsets};
ghost use Rattle.term_vectors.specs.Stores.{AreVectors, vector_files};
ghost use Rattle.term_vectors.specs.VectorBytes.{tvx_bytes, tvd_bytes, tvf_bytes};
ghost use Rattle.term_vectors.specs.WrittenChoices.{MakeWrittenChoices};
ghost use Rattle.term_vectors.specs.Writable.{AreWritableVectors, IsCheckableWindow};
ghost use Rattle.term_vectors.specs.Vectors.{StoredVector, terms_plan};
ghost use Rattle.term_vectors.specs.VectorWriting.{VectorWriting, IsTermWhole, no_vectors_written, with_document_begun, with_vector_begun, with_term_begun, with_position, with_span, HoldsDocuments, HoldsOpenDocument, BegunVector, HoldsOpenVector, HoldsOpenTerm, begun_vector, begun_term, with_one_position, with_one_span};

use crate::layout::{
    DOCUMENT_BYTES, GREATEST_PLACE, HEADER_BYTES, OFFSETS, POSITIONS, START_MODULUS, VECTOR_FORMAT,
};

/// The terms of a vector that were read, which end below 2^31, are as many as was asked, their texts rise strictly, and each is a
/// term that an index can have in a vector with these bits.
pub fn terms_are_good()
    ensures { (bits n : ℕ) (from : Cursor) (terms : List VectorTerm) (to : Cursor) → IsBytes from.rest
        → read_plan (terms_plan bits n None) from ≡ Ok (terms, to) → to.place < 2 ^ 31
        → (length terms ≡ n) × IsStrictlySortedBy text_cmp (map (λ t. t.text) terms) × All (IsVectorTerm bits) terms }
{}

/// What the three files of a store stand for, of which `.tvf` is shorter than 2^31 bytes, is what a segment with these fields can have:
/// the vectors of each document in the window are of different fields that have vectors, and each is one that an index can have.
pub fn documents_are_good()
    ensures { (total : ℕ) (window : Window) (fields : List TableField) (tvx tvd tvf : List ℕ) (value : List (List StoredVector)) → IsBytes tvd → IsBytes tvf
        → window.offset + window.count ≤ total → length tvf < 2 ^ 31
        → StandFor (vector_files total window fields (Some tvx) (Some tvd) (Some tvf)) value → All (AreVectors fields) value }
{}

/// What the writer gives for some documents, each with vectors that an index can have, is read as exactly these documents, through any
/// window of them.
pub fn written_is_read()
    ensures { (documents : List (List StoredVector)) (fields : List TableField) (window : Window) → All AreWritableVectors documents → IsCheckableWindow fields window documents
        → StandFor (vector_files (length documents) window fields (Some (tvx_bytes documents)) (Some (tvd_bytes documents)) (Some (tvf_bytes documents))) (windowed window documents) }
{}

/// Nothing else is read so where the choices are the writer's: three files that stand for vectors, whose texts share what they can with
/// the text before, and whose documents without vectors stand in `.tvf` where those before them end, are what the writer gives for some
/// documents, and stand for those of them that the window has: where it is the whole store, for these.
pub fn only_written_is_read()
    ensures window { (total : ℕ) (window : Window) (fields : List TableField) (tvx tvd tvf : List ℕ) (seen : List (List StoredVector))
        (stand : StandFor (vector_files total window fields (Some tvx) (Some tvd) (Some tvf)) seen) → MakeWrittenChoices total window fields tvx tvd tvf seen stand
        → (documents : List (List StoredVector)) × (tvx ≡ tvx_bytes documents) × (tvd ≡ tvd_bytes documents) × (tvf ≡ tvf_bytes documents) × (length documents ≡ total)
        × (seen ≡ windowed window documents) }
    ensures whole { (total : ℕ) (fields : List TableField) (tvx tvd tvf : List ℕ) (documents : List (List StoredVector))
        (stand : StandFor (vector_files total (whole_store total) fields (Some tvx) (Some tvd) (Some tvf)) documents)
        → MakeWrittenChoices total (whole_store total) fields tvx tvd tvf documents stand → (tvx ≡ tvx_bytes documents) × (tvd ≡ tvd_bytes documents) × (tvf ≡ tvf_bytes documents) }
{}

/// The writer makes these choices: whatever is read of what it gives for some documents, each with vectors that an index can have.
pub fn writer_makes_choices()
    ensures { (documents : List (List StoredVector)) (fields : List TableField) (window : Window) → All AreWritableVectors documents → IsCheckableWindow fields window documents
        → (stand : StandFor (vector_files (length documents) window fields (Some (tvx_bytes documents)) (Some (tvd_bytes documents)) (Some (tvf_bytes documents))) (windowed window documents))
        → MakeWrittenChoices (length documents) window fields (tvx_bytes documents) (tvd_bytes documents) (tvf_bytes documents) (windowed window documents) stand }
{}

/// What a writer holds. Documents: it begins with none; with a document begun it holds these and an open one without vectors; once that
/// has its vectors, it holds one document more.
pub fn documents_are_held()
    ensures none { HoldsDocuments [] no_vectors_written }
    ensures begun { (documents : List (List StoredVector)) (count : ℕ) (w : VectorWriting) → HoldsDocuments documents w → HoldsOpenDocument documents count [] (with_document_begun count w) }
    ensures done { (documents : List (List StoredVector)) (count : ℕ) (vectors : List StoredVector) (w : VectorWriting) → HoldsOpenDocument documents count vectors w → length vectors ≡ count
        → HoldsDocuments (documents ++ vectors ∷ []) w }
{}

/// The vectors of an open document: one that is begun has no terms; once it has its terms, the document has one vector more.
pub fn vectors_are_held()
    ensures begun { (documents : List (List StoredVector)) (count : ℕ) (vectors : List StoredVector) (v : BegunVector) (w : VectorWriting) → HoldsOpenDocument documents count vectors w
        → 0 < w.lacks_vectors → HoldsOpenVector documents count vectors v [] (with_vector_begun v.field v.bits v.count w) }
    ensures done { (documents : List (List StoredVector)) (count : ℕ) (vectors : List StoredVector) (v : BegunVector) (terms : List VectorTerm) (w : VectorWriting)
        → HoldsOpenVector documents count vectors v terms w → length terms ≡ v.count → HoldsOpenDocument documents count (vectors ++ begun_vector v terms ∷ []) w }
{}

/// The terms of an open vector: one that is begun has neither positions nor spans; each that is handed stands at the end of its list;
/// once the term has them all, the vector has one term more.
pub fn terms_are_held()
    ensures begun { (documents : List (List StoredVector)) (count : ℕ) (vectors : List StoredVector) (v : BegunVector) (terms : List VectorTerm) (text : List ℕ) (freq : ℕ) (w : VectorWriting)
        → HoldsOpenVector documents count vectors v terms w → 0 < w.lacks_terms → HoldsOpenTerm documents count vectors v terms (begun_term text freq) (with_term_begun text freq w) }
    ensures position { (documents : List (List StoredVector)) (count : ℕ) (vectors : List StoredVector) (v : BegunVector) (terms : List VectorTerm) (t : VectorTerm) (p : ℕ) (w : VectorWriting)
        → HoldsOpenTerm documents count vectors v terms t w → t.spans ≡ [] → 0 < w.lacks_positions → HoldsOpenTerm documents count vectors v terms (with_one_position p t) (with_position p w) }
    ensures span { (documents : List (List StoredVector)) (count : ℕ) (vectors : List StoredVector) (v : BegunVector) (terms : List VectorTerm) (t : VectorTerm) (s : Span) (w : VectorWriting)
        → HoldsOpenTerm documents count vectors v terms t w → 0 < w.lacks_spans → HoldsOpenTerm documents count vectors v terms (with_one_span s t) (with_span s w) }
    ensures done { (documents : List (List StoredVector)) (count : ℕ) (vectors : List StoredVector) (v : BegunVector) (terms : List VectorTerm) (t : VectorTerm) (w : VectorWriting)
        → HoldsOpenTerm documents count vectors v terms t w → IsTermWhole w → HoldsOpenVector documents count vectors v (terms ++ t ∷ []) w }
{}

/// The numbers of the code are those that the definitions have.
pub fn numbers_are_fixed()
    ensures files { (VECTOR_FORMAT ≡ vector_format) × (HEADER_BYTES ≡ header_length) × (DOCUMENT_BYTES ≡ document_length) × (GREATEST_PLACE ≡ greatest_place) }
    ensures vectors { (START_MODULUS ≡ start_modulus) × (POSITIONS ≡ bit_positions) × (OFFSETS ≡ bit_offsets) }
{}
