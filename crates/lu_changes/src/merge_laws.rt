//! What `merge` makes of what a folder stands for: the law stands on a function that does nothing.
ghost use Rattle.std.specs.Prelude.{◌≡◌, ◌<◌, ℕ, Bool, List, [], ◌∷◌, Some};
ghost use Rattle.lu_dir.specs.Files.{Files};
ghost use Rattle.lu_model.specs.Contents.{merge_of};
ghost use Rattle.lu_model.specs.Index.{Index};
ghost use Rattle.lu_folder.specs.ChangeValues.{ChangeValue};
ghost use Rattle.lu_folder.specs.Keeping.{AddsOnly, IsNew};
ghost use Rattle.lu_outcomes.specs.declared.outcome.Outcome.{Outcome};
ghost use Rattle.lu_changes.specs.Merging.{MergeDue};
ghost use Rattle.lu_reads.specs.Standing.{CurrentStands, Stands};

use lu_outcomes::outcome::Effect;

/// Where the current commit of a folder stands for some indexes, and a commit is due of `merge`, a folder with this commit made
/// stands for the merge of these indexes, where one of their documents is live, and for no index where none is; whether or not all
/// names without use are removed.
pub fn merge_joins_the_indexes()
    ensures some { (compound : Bool) (old new : Files) (outcome : Outcome) (change : ChangeValue) (indexes : List Index)
        → MergeDue compound (Some old) outcome → outcome.effect ≡ Effect.Commit change → AddsOnly change old new → IsNew change old new
        → CurrentStands old indexes → 0 < (merge_of indexes).size → Stands new (merge_of indexes ∷ []) }
    ensures none { (compound : Bool) (old new : Files) (outcome : Outcome) (change : ChangeValue) (indexes : List Index)
        → MergeDue compound (Some old) outcome → outcome.effect ≡ Effect.Commit change → AddsOnly change old new → IsNew change old new
        → CurrentStands old indexes → (merge_of indexes).size ≡ 0 → Stands new [] }
{}
