//! The laws of written terms: each stands on a function that does nothing.
ghost use Rattle.std.specs.Prelude.{ℕ, List, length};
ghost use Rattle.lu_grammar.specs.Meaning.{Reads};
ghost use Rattle.lu_types.specs.Tables.{TableField};
ghost use Rattle.term_dict.specs.Dictionary.{Dictionary, tis_plan};
ghost use Rattle.term_dict.specs.Facts.{AreGoodTerms};
ghost use Rattle.term_dict.specs.Index.{tii_plan};
ghost use Rattle.term_dict.specs.Canonical.{canonical_tis, canonical_tii};
ghost use Rattle.term_dict.specs.Writing.{TermsWritten, numbers_written};
ghost use Rattle.term_dict.specs.Laws.{IsReadable, IsIndexable, dictionary_written};

/// The file that a writer gives for some terms is read as exactly these terms, in each segment in which they can stand.
pub fn written_is_read()
    ensures { (fields : List TableField) (documents : ℕ) (w : TermsWritten) → IsReadable fields documents w
        → Reads (tis_plan fields documents (length (canonical_tis (numbers_written w) w.terms))) (canonical_tis (numbers_written w) w.terms) (dictionary_written w) }
{}

/// The index that a writer gives for some terms is read as the index of these terms.
pub fn written_index_is_read()
    ensures { (w : TermsWritten) → IsIndexable w → Reads (tii_plan (dictionary_written w)) (canonical_tii (numbers_written w) w.terms) tt }
{}

/// Every term of a file that was read in a segment is good there: its field is one of the segment's and indexed, its text is
/// UTF-8, it is in one to all of the documents, its places are below 2^31, it has no skip data in too few documents; and the
/// terms rise by the names of their fields and their texts.
pub fn terms_are_good()
    ensures { (fields : List TableField) (documents : ℕ) (bytes : List ℕ) (d : Dictionary)
        → Reads (tis_plan fields documents (length bytes)) bytes d → AreGoodTerms fields documents d }
{}
