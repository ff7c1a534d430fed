//! What `delete` makes of what a folder stands for: the law stands on a function that does nothing.
ghost use Rattle.std.specs.Prelude.{◌≡◌, ℕ, List, map, Some};
ghost use Rattle.lu_dir.specs.Files.{Files};
ghost use Rattle.lu_model.specs.Index.{Index};
ghost use Rattle.lu_folder.specs.ChangeValues.{ChangeValue};
ghost use Rattle.lu_folder.specs.Keeping.{AddsOnly, IsNew};
ghost use Rattle.lu_outcomes.specs.declared.outcome.Outcome.{Outcome};
ghost use Rattle.lu_changes.specs.Deleting.{marked_index, DeleteDue};
ghost use Rattle.lu_reads.specs.Standing.{CurrentStands, Stands};

use lu_outcomes::outcome::Effect;

/// Where the current commit of a folder stands for some indexes, and a commit is due of `delete`, a folder with this commit made
/// stands for the same indexes with the documents of the term deleted; whether or not all names without use are removed.
pub fn delete_marks_documents()
    ensures { (field text : List ℕ) (old new : Files) (outcome : Outcome) (change : ChangeValue) (indexes : List Index)
        → DeleteDue field text (Some old) outcome → outcome.effect ≡ Effect.Commit change
        → AddsOnly change old new → IsNew change old new
        → CurrentStands old indexes → Stands new (map (marked_index field text) indexes) }
{}
