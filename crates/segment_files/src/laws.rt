//! The laws of canonical files: each stands on a function that does nothing.
ghost use Rattle.std.specs.Prelude.{◌≡◌, ◌≤◌, List, [], length, All, None};
ghost use Rattle.lu_model.specs.Index.{Index};
ghost use Rattle.lu_model.specs.Valid.{IsValid};
ghost use Rattle.segment_infos.specs.declared.infos.MapPair.{MapPair};
ghost use Rattle.segment_files.specs.declared.options.WriteOptions.{WriteOptions};
ghost use Rattle.segment_files.specs.Written.{canonical_files, too_large_file};
ghost use Rattle.segment_files.specs.Lines.{new_line, folder_with, StandsForIndex};

/// The canonical files of a valid index without deleted documents, of which none passes the limit, stand for this index, as parts
/// of their own and packed into one; and they stand for no other.
pub fn canonical_files_stand()
    ensures stand { (options : WriteOptions) (index : Index) (diagnostics : List MapPair)
        → IsValid index → index.deleted ≡ [] → too_large_file options index ≡ None
        → StandsForIndex (folder_with (canonical_files options index).files)
        (new_line options.number diagnostics (canonical_files options index)) index }
    ensures only { (options : WriteOptions) (index other : Index) (diagnostics : List MapPair)
        → IsValid index → index.deleted ≡ [] → too_large_file options index ≡ None
        → StandsForIndex (folder_with (canonical_files options index).files)
        (new_line options.number diagnostics (canonical_files options index)) other → other ≡ index }
{}

/// Where no canonical file passes the limit, each is within it: the parts, and the file that they are packed into.
pub fn canonical_files_are_within()
    ensures { (options : WriteOptions) (index : Index) → too_large_file options index ≡ None
        → All (λ file. length file.bytes ≤ options.limits.file_bytes) (canonical_files options index).files }
{}
