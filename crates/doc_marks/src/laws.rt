//! The laws of written norms and deletions: each stands on a function that does nothing.
ghost use Rattle.std.specs.Prelude.{◌≡◌, ℕ, ◌<◌, ◌^◌, List, length};
ghost use Rattle.lu_grammar.specs.Bytes.{IsBytes};
ghost use Rattle.lu_grammar.specs.Meaning.{Reads};
ghost use Rattle.doc_marks.specs.Marking.{AreRising};
ghost use Rattle.doc_marks.specs.Deletions.{del_plan};
ghost use Rattle.doc_marks.specs.Spelling.{dense_bytes, sparse_bytes, del_bytes, IsDelFile};
ghost use Rattle.doc_marks.specs.Norms.{nrm_plan, separate_plan, nrm_spelling, AreColumns};

/// Columns that are written are read as exactly these columns, and no other bytes are read so.
pub fn written_norms_are_read()
    ensures reads { (columns : List (List ℕ)) (count documents : ℕ) → AreColumns count documents columns → IsBytes (nrm_spelling columns)
        → Reads (nrm_plan count documents) (nrm_spelling columns) columns }
    ensures only { (bytes : List ℕ) (columns : List (List ℕ)) (count documents : ℕ) → Reads (nrm_plan count documents) bytes columns
        → (bytes ≡ nrm_spelling columns) × AreColumns count documents columns }
{}

/// A separate file is its norms: one byte a document, and nothing else.
pub fn written_separate_is_read()
    ensures reads { (norms : List ℕ) → IsBytes norms → Reads (separate_plan (length norms)) norms norms }
    ensures only { (bytes norms : List ℕ) (documents : ℕ) → Reads (separate_plan documents) bytes norms → (bytes ≡ norms) × (length norms ≡ documents) }
{}

/// Rising documents below the size are written as bytes, in either form and so in the one that is chosen, which are read as
/// exactly these documents; and bytes that are read as some documents are one of the two forms for these.
pub fn written_deletions_are_read()
    ensures dense { (size : ℕ) (docs : List ℕ) → size < 2 ^ 31 → AreRising 0 size docs → Reads (del_plan size (length docs)) (dense_bytes size docs) docs }
    ensures sparse { (size : ℕ) (docs : List ℕ) → size < 2 ^ 31 → AreRising 0 size docs → Reads (del_plan size (length docs)) (sparse_bytes size docs) docs }
    ensures chosen { (size : ℕ) (docs : List ℕ) → size < 2 ^ 31 → AreRising 0 size docs → Reads (del_plan size (length docs)) (del_bytes size docs) docs }
    ensures only { (bytes docs : List ℕ) (size count : ℕ) → Reads (del_plan size count) bytes docs → IsDelFile size count docs bytes }
{}
