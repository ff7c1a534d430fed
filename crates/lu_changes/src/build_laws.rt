//! What `build` adds to what a folder stands for: the law stands on a function that does nothing.
ghost use Rattle.std.specs.Prelude.{◌≡◌, ◌++◌, ℕ, Bool, List, All, Some, Ok};
ghost use Rattle.lu_dir.specs.Files.{Files};
ghost use Rattle.lu_types.specs.Documents.{IsDocument};
ghost use Rattle.lu_types.specs.declared.document.Document.{Document};
ghost use Rattle.lu_types.specs.declared.document.Limits.{Limits};
ghost use Rattle.lu_model.specs.Index.{Index};
ghost use Rattle.lu_input.specs.Lines.{input_documents};
ghost use Rattle.lu_folder.specs.ChangeValues.{ChangeValue};
ghost use Rattle.lu_folder.specs.Keeping.{AddsOnly, IsNew};
ghost use Rattle.lu_outcomes.specs.declared.outcome.Outcome.{Outcome};
ghost use Rattle.lu_changes.specs.Building.{AreProgramLimits, BuildDue};
ghost use Rattle.lu_reads.specs.Standing.{CurrentStands, Stands, indexes_of};

use lu_outcomes::outcome::Effect;

/// Where the current commit of a folder stands for some indexes, or it has no commit and they are none, and a commit is due of
/// `build`, a folder with this commit made stands for the same indexes, and then for the index of the documents of the input, where
/// there is any; whether or not all names without use are removed.
pub fn build_adds_an_index()
    ensures { (compound : Bool) (old new : Files) (left : List ℕ) (outcome : Outcome) (change : ChangeValue)
        (limits : Limits) (docs : List Document) (indexes : List Index)
        → BuildDue compound (Some old) (Some left) outcome → outcome.effect ≡ Effect.Commit change
        → AddsOnly change old new → IsNew change old new
        → AreProgramLimits limits → input_documents limits left ≡ Ok docs → All IsDocument docs
        → CurrentStands old indexes → Stands new (indexes ++ indexes_of docs) }
{}
