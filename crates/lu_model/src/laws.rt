//! The laws of indexes: each stands on a function that does nothing (format page, "Indexes").
ghost use Rattle.std.specs.List.Sorted.{IsStrictlySortedBy};
ghost use Rattle.std.specs.Prelude.{◌≡◌, ℕ, ◌+◌, ◌<◌, ◌≤◌, ◌↔◌, not, ◌&&◌, cond, nat_le, List, [], ◌∷◌, length, map, filter, flat_map, slice_index_or, unwrap_or, All, Contains, Some, None};
ghost use Rattle.std.specs.Ordering.{nat_cmp};
ghost use Rattle.std.specs.Str.{IsUtf8};
ghost use Rattle.lu_types.specs.DocFaults.{doc_fault, IsSound};
ghost use Rattle.lu_types.specs.Documents.{IsDocument};
ghost use Rattle.lu_types.specs.Joins.{Covers, fields_of, is_empty, join, join_all, table_of};
ghost use Rattle.lu_types.specs.Tables.{TableField, IsTable, number_of};
ghost use Rattle.lu_types.specs.declared.document.Document.{Document};
ghost use Rattle.lu_types.specs.declared.document.Limits.{Limits};
ghost use Rattle.lu_types.specs.declared.stored.Stored.TheVariants.{Text};
ghost use Rattle.lu_model.specs.Contents.{AreTerms, Content, missing_norm, after, content_at, content_of, field_number, has_norms, index_of_documents, is_deleted, joined_table, left_of, live, live_contents, merge_of, merged_term, runs, stored_in, term_of, under, vectors_in, without_term};
ghost use Rattle.lu_model.specs.Index.{IndexedEntry, Index, Term, in_order, term_cmp};
ghost use Rattle.lu_model.specs.Valid.{IsSmall, IsStorable, IsValid};

/// Terms in order rise and are exactly the given terms; and no other list does and is.
pub fn terms_in_order()
    ensures rises { (terms : List Term) → IsStrictlySortedBy term_cmp (in_order term_cmp terms) }
    ensures same { (terms : List Term) (t : Term) → All (λ u. IsUtf8 u.field × IsUtf8 u.text) terms
        → Contains (in_order term_cmp terms) t ↔ Contains terms t }
    ensures only { (terms rising : List Term) → All (λ u. IsUtf8 u.field × IsUtf8 u.text) terms → IsStrictlySortedBy term_cmp rising
        → ((t : Term) → Contains rising t ↔ Contains terms t) → rising ≡ in_order term_cmp terms }
{}

/// The terms of an index of documents rise and are exactly those that have an entry, and so are those of a merge; and no other
/// list is so.
pub fn terms_have_entries()
    ensures documents { (table : List TableField) (docs : List Document) → Covers table docs → All IsDocument docs
        → AreTerms table (map content_of docs) (map (term_of table) (under table docs).terms) }
    ensures merges { (indexes : List Index) → All IsValid indexes
        → AreTerms (joined_table indexes) (flat_map live_contents indexes) (map (term_of (joined_table indexes)) (merge_of indexes).terms) }
    ensures only { (table : List TableField) (contents : List Content) (terms others : List Term)
        → AreTerms table contents terms → AreTerms table contents others → terms ≡ others }
{}

/// The table of documents covers them.
pub fn table_covers()
    ensures { (docs : List Document) → Covers (table_of docs) docs }
{}

/// The number that a name has in a table is that of its field, and it stays when more fields are joined.
pub fn numbers_stay()
    ensures place { (name : List ℕ) (table : List TableField) (n : ℕ) → number_of name table ≡ Some n → field_number name table ≡ n }
    ensures stays { (name : List ℕ) (table fields : List TableField) (n : ℕ) → number_of name table ≡ Some n
        → number_of name (join table fields) ≡ Some n }
{}

/// A merge of indexes of documents, each under a table that covers them and with some deleted, is the index of the documents that
/// are left, under the joined tables, which cover them.
pub fn merged_documents()
    ensures merged { (sources : List (List TableField × List Document × List ℕ))
        → All (λ s. All (λ field. field.bits < 128) s.0 × Covers s.0 s.1 × All IsDocument s.1) sources
        → merge_of (map (λ s. record (under s.0 s.1) { deleted = s.2 }) sources)
        ≡ under (join_all (map (λ s. s.0) sources)) (flat_map (λ s. left_of s.2 s.1) sources) }
    ensures covers { (sources : List (List TableField × List Document × List ℕ))
        → All (λ s. All (λ field. field.bits < 128) s.0 × Covers s.0 s.1 × All IsDocument s.1) sources
        → Covers (join_all (map (λ s. s.0) sources)) (flat_map (λ s. left_of s.2 s.1) sources) }
{}

/// A merge by its sources: the documents of each that are not deleted, in turn, with their stored values, vectors and norms; and
/// the terms of all, in order, that have an entry, each with the entries of the sources in turn, numbered on.
pub fn merged_by_source()
    ensures size { (indexes : List Index) → (merge_of indexes).size ≡ length (flat_map live indexes) }
    ensures stored { (indexes : List Index) → (merge_of indexes).stored
        ≡ flat_map (λ index. map (λ document. stored_in (joined_table indexes) (content_at index document).stored) (live index)) indexes }
    ensures vectors { (indexes : List Index) → (merge_of indexes).vectors
        ≡ flat_map (λ index. map (λ document. vectors_in (joined_table indexes) (content_at index document).vectors) (live index)) indexes }
    ensures norms { (indexes : List Index) → (merge_of indexes).norms ≡ map (λ field. cond (has_norms field.bits)
        (Some (flat_map (λ index. map (λ document.
        unwrap_or ((content_at index document).norm field.name) missing_norm) (live index)) indexes)) None) (joined_table indexes) }
    ensures terms { (indexes : List Index) → All IsValid indexes → (merge_of indexes).terms
        ≡ filter (λ term. not (is_empty term.entries)) (map (merged_term indexes)
        (in_order term_cmp (flat_map (λ index. map (term_of index.fields) index.terms) indexes))) }
{}

/// A document has no fault exactly where it breaks no limit.
pub fn sound_documents()
    ensures { (doc : Document) (limits : Limits) → (doc_fault doc limits ≡ None) ↔ IsSound doc limits }
{}

/// The index of documents without a fault is one that files can stand for, where they, what they hold, their fields and their terms
/// are few; and so is their index under any table that covers them.
pub fn written_documents()
    ensures index { (docs : List Document) (limits : Limits) → All IsDocument docs
        → All (λ doc. doc_fault doc limits ≡ None) docs
        → All (λ doc. IsSmall (length doc.stored) × IsSmall (length doc.indexed) × All (λ value. IsStorable value.value) doc.stored) docs
        → IsSmall (length docs) → IsSmall (length (table_of docs)) → IsSmall (length (index_of_documents docs).terms)
        → IsValid (index_of_documents docs) }
    ensures under { (table : List TableField) (docs : List Document) (limits : Limits) → All IsDocument docs
        → All (λ doc. doc_fault doc limits ≡ None) docs
        → All (λ doc. IsSmall (length doc.stored) × IsSmall (length doc.indexed) × All (λ value. IsStorable value.value) doc.stored) docs
        → IsSmall (length docs) → IsTable table → All (λ field. IsStorable (Text field.name)) table → Covers table docs
        → IsSmall (length (under table docs).terms) → IsValid (under table docs) }
{}

/// A merge of valid indexes is valid where its documents, fields and terms are few, and so is a valid index of which the documents
/// of a term are deleted.
pub fn valid_again()
    ensures merged { (indexes : List Index) → All IsValid indexes → IsSmall (merge_of indexes).size
        → IsSmall (length (joined_table indexes)) → IsSmall (length (merge_of indexes).terms) → IsValid (merge_of indexes) }
    ensures deleted { (term : Term) (index : Index) → IsValid index → IsValid (without_term term index) }
{}

/// A cursor goes to the first of the entries that are left for it, and those left behind that one are left then; where it goes
/// nowhere none was left. So a cursor that goes on behind each document goes through all that are not deleted, in order.
pub fn cursor_goes()
    ensures some { (entries : List IndexedEntry) (deleted : List ℕ) (next target : ℕ) (e : IndexedEntry)
        → IsStrictlySortedBy nat_cmp (map (λ entry. entry.document) entries) → after entries deleted next target ≡ Some e
        → filter (λ d. nat_le next d.document && nat_le target d.document && not (is_deleted deleted d.document)) entries
        ≡ e ∷ filter (λ d. nat_le (e.document + 1) d.document && not (is_deleted deleted d.document)) entries }
    ensures none { (entries : List IndexedEntry) (deleted : List ℕ) (next target : ℕ) → after entries deleted next target ≡ None
        → filter (λ d. nat_le next d.document && nat_le target d.document && not (is_deleted deleted d.document)) entries ≡ [] }
{}

/// There are no more terms than tokens, no more fields than stored values and indexed fields, no more vectors than indexed fields;
/// and a merge has no more terms and fields than its sources.
pub fn counts_are_bounded()
    ensures terms { (table : List TableField) (docs : List Document)
        → length (under table docs).terms ≤ length (flat_map (λ field. field.tokens) (flat_map (λ doc. doc.indexed) docs)) }
    ensures fields { (docs : List Document) → length (table_of docs) ≤ length (flat_map fields_of docs) }
    ensures vectors { (table : List TableField) (doc : Document) → length (vectors_in table (content_of doc).vectors) ≤ length doc.indexed }
    ensures merged_terms { (indexes : List Index) → All IsValid indexes
        → length (merge_of indexes).terms ≤ length (flat_map (λ index. index.terms) indexes) }
    ensures merged_fields { (indexes : List Index) → length (joined_table indexes) ≤ length (flat_map (λ index. index.fields) indexes) }
{}

/// The runs of a list are together the list, none is empty, and all but the last have the full length.
pub fn runs_of_list<X>()
    ensures together { (every : ℕ) (items : List X) → 0 < every → flat_map (λ run. run) (runs every items) ≡ items }
    ensures some { (every : ℕ) (items : List X) → 0 < every → All (λ run. (0 < length run) × (length run ≤ every)) (runs every items) }
    ensures full { (every n : ℕ) (items : List X) → 0 < every → n + 1 < length (runs every items)
        → length (slice_index_or (runs every items) n []) ≡ every }
{}
