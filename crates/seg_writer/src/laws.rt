//! What the terms of a column are in the index of its documents: each law stands on a function that does nothing.
ghost use Rattle.std.specs.Prelude.{◌≡◌, ◌<◌, ◌^◌, ℕ, false, List, [], length, map, flat_map, All, Contains, IsSome};
ghost use Rattle.lu_types.specs.Documents.{IsDocument};
ghost use Rattle.lu_types.specs.Joins.{table_of};
ghost use Rattle.lu_types.specs.Tables.{TableField, number_of};
ghost use Rattle.lu_types.specs.declared.document.Document.{Document};
ghost use Rattle.lu_types.specs.declared.document.IndexedField.{IndexedField};
ghost use Rattle.lu_model.specs.Contents.{bits_of, content_of, index_of_documents, indexed_term, under};
ghost use Rattle.lu_model.specs.Index.{in_order, term_cmp};
ghost use Rattle.segment_files.specs.Parts.{keep_positions, postings_of};
ghost use Rattle.segment_files.specs.Postings.{PostingIntervals, kept_term, kept_terms};
ghost use Rattle.seg_writer.specs.declared.appearance.Appearance.{Appearance};
ghost use Rattle.seg_writer.specs.Appearing.{AreFirst, HasApartFields, appeared, column_from};
ghost use Rattle.seg_writer.specs.Entries.{AreWritableDocuments, IsColumn};
ghost use Rattle.seg_writer.specs.Orders.{AreAllColumns, NamedColumn, terms_of_columns, written_terms};
ghost use Rattle.seg_writer.specs.Terms.{kept_in, term_in};

/// A text of the column of a field is, with what its field keeps, a term of the index of the documents in which the field appears.
pub fn column_terms_are_indexed()
    ensures { (table : List TableField) (name text : List ℕ) (docs : List Document) (column : List Appearance) → All HasApartFields docs → map appeared column ≡ column_from name 0 docs
        → term_in (kept_in table name) column text ≡ kept_term (bits_of name table) (indexed_term table (map content_of docs) (record { field = name; text = text })) }
{}

/// The terms of the columns of all indexed fields, field by field in the order of their names, are the terms of the documents in
/// their order.
pub fn column_terms_are_in_order()
    ensures { (docs : List Document) (columns : List NamedColumn) → All HasApartFields docs → All IsDocument docs → AreAllColumns docs columns
        → terms_of_columns columns ≡ in_order term_cmp (flat_map (λ content. content.terms) (map content_of docs)) }
{}

/// The column of a name in documents whose tokens are sound can be written: its documents rise, and its tokens can be numbered.
pub fn columns_are_sound()
    ensures { (name : List ℕ) (docs : List Document) (column : List Appearance) → length docs < 2 ^ 31 → AreWritableDocuments docs → map appeared column ≡ column_from name 0 docs → IsColumn column }
{}

/// What is written of the columns of all indexed fields, in the order of their names, is the terms of the index of the documents
/// under the table.
pub fn written_terms_are_those_of_the_index()
    ensures { (table : List TableField) (docs : List Document) (columns : List NamedColumn) → All HasApartFields docs → All IsDocument docs → AreAllColumns docs columns
        → written_terms table columns ≡ kept_terms table (under table docs).terms }
{}

/// Where no indexed field of documents keeps positions, nothing is written of them: such an index has no file of positions, and the
/// writer of its terms holds none.
pub fn positions_are_unwritten()
    ensures { (intervals : PostingIntervals) (docs : List Document) → keep_positions (table_of docs) ≡ false → (postings_of intervals (index_of_documents docs)).prx ≡ [] }
{}

/// In the table of documents each field is the first with its name, and each indexed field of the documents is there.
pub fn tables_of_documents()
    ensures first { (docs : List Document) → AreFirst (table_of docs) }
    ensures there { (docs : List Document) (doc : Document) (field : IndexedField) → Contains docs doc → Contains doc.indexed field → IsSome (number_of field.field (table_of docs)) }
{}
