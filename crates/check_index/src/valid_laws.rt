//! The laws of the index that the files of a segment stand for: part by part it is one that files can stand for (format page,
//! "Indexes"). Each stands on a function that does nothing.
ghost use Rattle.std.specs.Prelude.{◌≡◌, ◌<◌, ◌^◌, length, map, All};
ghost use Rattle.std.specs.List.{AllZip};
ghost use Rattle.std.specs.List.Sorted.{IsStrictlySortedBy};
ghost use Rattle.std.specs.Ordering.{nat_cmp};
ghost use Rattle.lu_types.specs.FilePlans.{StandFor};
ghost use Rattle.lu_types.specs.Tables.{IsTable};
ghost use Rattle.lu_types.specs.declared.stored.Stored.TheVariants.{Text};
ghost use Rattle.lu_model.specs.Index.{term_cmp};
ghost use Rattle.lu_model.specs.Contents.{field_at, term_of};
ghost use Rattle.lu_model.specs.Valid.{IsSmall, IsStorable, IsIndexedTerm, AreNorms, IsValid};
ghost use Rattle.term_vectors.specs.Stores.{AreVectors};
ghost use Rattle.segment_infos.specs.Values.{IsLine};
ghost use Rattle.segment_infos.specs.declared.infos.SegInfo.{SegInfo};
ghost use Rattle.check_index.specs.Files.{FolderFiles, AreShort};
ghost use Rattle.check_index.specs.Segments.{SegmentValue, segment_files};

/// The fields of the index can be a table: no two have one name, none has bit 80, they are fewer than 2^31; and each name is a
/// text shorter than 2^31.
pub fn fields_are_valid()
    ensures table { (folder : FolderFiles) (line : SegInfo) (x : SegmentValue) → StandFor (segment_files folder line) x → IsTable x.index.fields }
    ensures names { (folder : FolderFiles) (line : SegInfo) (x : SegmentValue) → StandFor (segment_files folder line) x → All (λ field. IsStorable (Text field.name)) x.index.fields }
{}

/// The deleted documents rise, and are below the size of the segment.
pub fn deleted_are_valid()
    ensures rise { (folder : FolderFiles) (line : SegInfo) (x : SegmentValue) → StandFor (segment_files folder line) x → IsStrictlySortedBy nat_cmp x.index.deleted }
    ensures below { (folder : FolderFiles) (line : SegInfo) (x : SegmentValue) → StandFor (segment_files folder line) x → All (λ document. document < line.size) x.index.deleted }
{}

/// Each field that has norms has a byte for each document, and no other field has norms.
pub fn norms_are_valid()
    ensures { (folder : FolderFiles) (line : SegInfo) (x : SegmentValue) → StandFor (segment_files folder line) x → AllZip (AreNorms line.size) x.index.fields x.index.norms }
{}

/// Each document of the segment has stored values: fewer than 2^31, each of a field that is there, and a text or bytes shorter
/// than 2^31.
pub fn stored_are_valid()
    ensures number { (folder : FolderFiles) (line : SegInfo) (x : SegmentValue) → StandFor (segment_files folder line) x → length x.index.stored ≡ line.size }
    ensures few { (folder : FolderFiles) (line : SegInfo) (x : SegmentValue) → StandFor (segment_files folder line) x → All (λ values. IsSmall (length values)) x.index.stored }
    ensures values { (folder : FolderFiles) (line : SegInfo) (x : SegmentValue) → StandFor (segment_files folder line) x
        → All (All (λ value. (value.field < length x.index.fields) × IsStorable value.value)) x.index.stored }
{}

/// The terms of the index rise by the names of their fields and their texts, and are fewer than 2^31. The field of each is there
/// and indexed, and its text is UTF-8; it has an entry; the documents of its entries rise and are below the size; and where the
/// field keeps occurrences, each entry has one, their positions do not fall and are below 2^31, and their payloads are bytes,
/// and none in a field without payloads.
pub fn terms_are_valid()
    ensures rise { (folder : FolderFiles) (line : SegInfo) (x : SegmentValue) → StandFor (segment_files folder line) x → IsStrictlySortedBy term_cmp (map (term_of x.index.fields) x.index.terms) }
    ensures few { (folder : FolderFiles) (line : SegInfo) (x : SegmentValue) → StandFor (segment_files folder line) x → length x.index.terms < 2 ^ 31 }
    ensures each { (folder : FolderFiles) (line : SegInfo) (x : SegmentValue) → AreShort folder → StandFor (segment_files folder line) x
        → All (λ term. IsIndexedTerm line.size (field_at term.field x.index.fields).bits term) x.index.terms }
{}

/// Each document of the segment has its vectors: fewer than 2^31, of different fields, each of a field that has vectors; the texts
/// of its terms rise; and each term is one that an index can have in a vector with these bits.
pub fn vectors_are_valid()
    ensures number { (folder : FolderFiles) (line : SegInfo) (x : SegmentValue) → AreShort folder → StandFor (segment_files folder line) x → length x.index.vectors ≡ line.size }
    ensures each { (folder : FolderFiles) (line : SegInfo) (x : SegmentValue) → AreShort folder → StandFor (segment_files folder line) x → All (AreVectors x.index.fields) x.index.vectors }
{}

/// The index that the files of a segment stand for is one that files can stand for, where they are no longer than files may be.
pub fn index_is_valid()
    ensures { (folder : FolderFiles) (line : SegInfo) (x : SegmentValue) → IsLine line → AreShort folder → StandFor (segment_files folder line) x → IsValid x.index }
{}
