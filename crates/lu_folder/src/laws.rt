//! What holds of commits and of drawn numbers in every folder: each law stands on a function that does nothing.
ghost use Rattle.std.specs.Prelude.{◌≡◌, ◌≢◌, ◌⊎◌, ◌<◌, ◌≤◌, ◌^◌, ℕ, List, Some, None, Result, Contains, IsPermutation};
ghost use Rattle.std.specs.FinMap.{keys};
ghost use Rattle.lu_types.specs.Names.{greatest_segment};
ghost use Rattle.lu_dir.specs.Files.{Files, contents, AreMadeOfBytes};
ghost use Rattle.segment_infos.specs.declared.infos.SegInfo.{SegInfo};
ghost use Rattle.segment_infos.specs.declared.naming.LuceneName.{LuceneName};
ghost use Rattle.segment_infos.specs.declared.naming.LuceneName.TheVariants.{Del};
ghost use Rattle.segment_infos.specs.LuceneNames.{IsGenerationNumber, IsName, name_spelling};
ghost use Rattle.segment_infos.specs.Referring.{KeptValue, referred_names, removable};
ghost use Rattle.segment_infos.specs.Values.{CommitValue, IsCommit};
ghost use Rattle.lu_folder.specs.declared.choosing.Chosen.{Chosen};
ghost use Rattle.lu_folder.specs.declared.fault.FolderFault.{FolderFault};
ghost use Rattle.lu_folder.specs.declared.new_file.NewFile.{NewFile};
ghost use Rattle.lu_folder.specs.ChangeValues.{ChangeValue, commit_name};
ghost use Rattle.lu_folder.specs.Changes.{written, IsStopped, IsMade};
ghost use Rattle.lu_folder.specs.Keeping.{IsFreshChange, AreKept, AddsOnly, IsOld, IsNew, IsWholeOrSame};
ghost use Rattle.lu_folder.specs.Choosing.{AnswersCurrent, AnswersNewest, IsTold};
ghost use Rattle.lu_folder.specs.Fresh.{AreNewFiles};
ghost use Rattle.lu_folder.specs.Numbers.{above, segment_of_name};
ghost use Rattle.lu_folder.specs.Drawing.{next_generation as next_generation_of, next_segment as next_segment_of, next_del as next_del_of};

/// A commit that was stopped leaves every file as before, and a folder that reads as before or as the new commit.
pub fn stopped_is_old_or_new()
    ensures { (change : ChangeValue) (old new : Files) → IsGenerationNumber change.generation → IsCommit change.commit
        → IsFreshChange change old → IsStopped change old new
        → AddsOnly change old new × AreKept old new × (IsOld old new ⊎ IsNew change old new) }
{}

/// A commit that was made leaves a folder that reads as the new commit, whatever was removed.
pub fn made_is_new()
    ensures { (change : ChangeValue) (old new : Files) → IsGenerationNumber change.generation → IsCommit change.commit
        → IsFreshChange change old → IsMade change old new → AddsOnly change old new × IsNew change old new }
{}

/// A name that is not listed is that of no file, where the names are those of the folder.
pub fn unlisted_is_absent()
    ensures { (files : Files) (names : List (List ℕ)) (name : List ℕ) → IsPermutation (keys files) names
        → ¬ Contains names name → contents files name ≡ None }
{}

/// The number above others is at least the given one and above each of them, and the least that is so.
pub fn above_is_least()
    ensures least { (least : ℕ) (numbers : List ℕ) → least ≤ above least numbers }
    ensures each { (least : ℕ) (numbers : List ℕ) (number : ℕ) → Contains numbers number → number < above least numbers }
    ensures most { (least : ℕ) (numbers : List ℕ) (bound : ℕ) → least ≤ bound
        → ((number : ℕ) → Contains numbers number → number < bound) → above least numbers ≤ bound }
{}

/// The next generation is one, and no listed commit has it or a later one.
pub fn drawn_generation_is_new()
    ensures valid { (names : List (List ℕ)) (number : ℕ) → next_generation_of names ≡ Some number
        → IsGenerationNumber number }
    ensures unlisted { (names : List (List ℕ)) (number later : ℕ) → next_generation_of names ≡ Some number
        → number ≤ later → later < 2 ^ 63 → ¬ Contains names (commit_name later) }
{}

/// The next segment's number is one that a segment may have, and at least the name counter; no listed file, and none that the
/// commit refers to, is of a segment of this number or a later one.
pub fn drawn_segment_is_new()
    ensures valid { (names : List (List ℕ)) (commit : CommitValue) (number : ℕ)
        → next_segment_of names commit ≡ Some number → (number ≤ greatest_segment) × (commit.counter ≤ number) }
    ensures unlisted { (names : List (List ℕ)) (commit : CommitValue) (number : ℕ) (name : LuceneName) (segment : ℕ)
        → next_segment_of names commit ≡ Some number → IsName name → segment_of_name name ≡ Some segment
        → number ≤ segment → ¬ Contains names (name_spelling name) }
    ensures unreferred { (names : List (List ℕ)) (commit : CommitValue) (number : ℕ) (name : LuceneName) (segment : ℕ)
        → next_segment_of names commit ≡ Some number → Contains (referred_names commit) name
        → segment_of_name name ≡ Some segment → segment < number }
{}

/// The next generation of a segment's deleted documents is one, and above that of its line; no listed file of deleted documents
/// of the segment has it or a later one.
pub fn drawn_del_is_new()
    ensures valid { (names : List (List ℕ)) (line : SegInfo) (number : ℕ) → next_del_of names line ≡ Some number
        → IsGenerationNumber number }
    ensures later { (names : List (List ℕ)) (line : SegInfo) (number was : ℕ) → next_del_of names line ≡ Some number
        → line.del_gen ≡ Some was → was < number }
    ensures unlisted { (names : List (List ℕ)) (line : SegInfo) (number later : ℕ) → line.number ≤ greatest_segment
        → next_del_of names line ≡ Some number → number ≤ later → later < 2 ^ 63
        → ¬ Contains names (name_spelling (Del line.number later)) }
{}

/// A change that draws the next generation, whose new files are files of segments that are not listed, and which removes
/// listed names alone, is fresh in the folder.
pub fn drawn_is_fresh()
    ensures { (files : Files) (names : List (List ℕ)) (change : ChangeValue) → IsPermutation (keys files) names
        → next_generation_of names ≡ Some change.generation → AreNewFiles names change.files
        → ((name : List ℕ) → Contains change.removable name → Contains names name) → IsFreshChange change files }
{}

/// What commits refer to stays: after an error each file that a commit refers to is as before, there or not, where no file that
/// was to be written has its name; and each file that a new commit refers to is a new file, whole, or as before, where no name
/// was removed but those that are removable beside it.
pub fn what_stands_is_kept()
    ensures stopped { (change : ChangeValue) (old new : Files) (commit : CommitValue)
        → ((file : NewFile) (name : LuceneName) → Contains (written change) file → Contains (referred_names commit) name
        → file.name ≢ name_spelling name)
        → AddsOnly change old new → AreKept old new
        → (name : LuceneName) → Contains (referred_names commit) name
        → contents new (name_spelling name) ≡ contents old (name_spelling name) }
    ensures made { (change : ChangeValue) (old new : Files) (kept : List KeptValue) (names : List (List ℕ))
        → change.removable ≡ removable kept names
        → Contains kept (record { generation = change.generation; commit = change.commit })
        → AddsOnly change old new → IsNew change old new
        → (name : LuceneName) → Contains (referred_names change.commit) name
        → IsWholeOrSame change old new (name_spelling name) }
    ensures removable { (kept : List KeptValue) (names : List (List ℕ)) (name : List ℕ)
        → Contains (removable kept names) name → Contains names name }
{}

/// At most one answer is due where the current commit, or the newest, is looked for in files that are told; memory and device aside.
pub fn one_answer()
    ensures current { (files : Files) (one other : Result Chosen FolderFault) → AreMadeOfBytes files → IsTold one → IsTold other
        → AnswersCurrent files one → AnswersCurrent files other → one ≡ other }
    ensures newest { (files : Files) (one other : Result Chosen FolderFault) → AreMadeOfBytes files → IsTold one → IsTold other
        → AnswersNewest files one → AnswersNewest files other → one ≡ other }
{}
