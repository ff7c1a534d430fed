//! What two changes of one file make of the files, and what a failed one leaves of a file that was made.
ghost use Rattle.std.specs.Prelude.{◌≡◌, ◌⊎◌, ℕ, List, take, Some};
ghost use Rattle.lu_dir.specs.Files.{Files, contents, with_file, without_file, with_patch, written_over, CreateLeaves, PatchLeaves, RemoveLeaves};

/// Of two changes of a file the second one counts; bytes that are written inside a file that was made are made in it.
pub fn changed_twice()
    ensures made_made { (name first second : List ℕ) (files : Files)
        → with_file name second (with_file name first files) ≡ with_file name second files }
    ensures removed_made { (name bytes : List ℕ) (files : Files)
        → with_file name bytes (without_file name files) ≡ with_file name bytes files }
    ensures made_removed { (name bytes : List ℕ) (files : Files)
        → without_file name (with_file name bytes files) ≡ without_file name files }
    ensures removed_removed { (name : List ℕ) (files : Files)
        → without_file name (without_file name files) ≡ without_file name files }
    ensures made_patched { (name : List ℕ) (at : ℕ) (piece bytes : List ℕ) (files : Files)
        → with_patch name at piece (with_file name bytes files)
        ≡ with_file name (written_over at piece bytes) files }
    ensures made_as_it_was { (name bytes : List ℕ) (files : Files)
        → contents files name ≡ Some bytes → with_file name bytes files ≡ files }
{}

/// What a call that fails leaves of a file that was made before it, seen from before that.
pub fn left_of_made()
    ensures create { (name first second : List ℕ) (files new : Files)
        → CreateLeaves name second (with_file name first files) new
        → (new ≡ with_file name first files) ⊎ CreateLeaves name second files new }
    ensures patch { (name : List ℕ) (at : ℕ) (piece bytes : List ℕ) (files new : Files)
        → PatchLeaves name at piece (with_file name bytes files) new
        → (count : ℕ) × (new ≡ with_file name (written_over at (take count piece) bytes) files) }
    ensures remove { (name bytes : List ℕ) (files new : Files)
        → RemoveLeaves name (with_file name bytes files) new
        → (new ≡ with_file name bytes files) ⊎ (new ≡ without_file name files) }
{}
