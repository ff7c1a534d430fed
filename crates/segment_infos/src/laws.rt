//! The laws of commits: each stands on a function that does nothing.
ghost use Rattle.std.specs.Prelude.{◌≡◌, ◌-◌, ◌<◌, ◌↔◌, ℕ, true, List, length, take, All, Contains, Some};
ghost use Rattle.segment_infos.specs.declared.infos.SegInfo.{SegInfo};
ghost use Rattle.segment_infos.specs.declared.naming.LuceneName.TheVariants.{Del, Sep};
ghost use Rattle.lu_grammar.specs.Meaning.{Reads};
ghost use Rattle.segment_infos.specs.Values.{CommitValue, IsCommit};
ghost use Rattle.segment_infos.specs.Format.{commit_plan};
ghost use Rattle.segment_infos.specs.Spelling.{commit_bytes, pending};
ghost use Rattle.segment_infos.specs.declared.naming.LuceneName.{LuceneName};
ghost use Rattle.segment_infos.specs.LuceneNames.{SpellsName, IsLuceneName, lucene_name_in};
ghost use Rattle.segment_infos.specs.Referring.{KeptValue, line_names, kept_names, is_removable};

/// What is written reads as exactly this commit.
pub fn written_is_read()
    ensures { (v : CommitValue) → IsCommit v → Reads (commit_plan (commit_bytes v)) (commit_bytes v) v }
{}

/// Only what is written reads as a commit, and what bytes read as is one.
pub fn only_written_is_read()
    ensures written { (bytes : List ℕ) (v : CommitValue) → Reads (commit_plan bytes) bytes v → bytes ≡ commit_bytes v }
    ensures commit { (bytes : List ℕ) (v : CommitValue) → Reads (commit_plan bytes) bytes v → IsCommit v }
{}

/// No strict prefix of a good commit is good.
pub fn prefix_is_not_good()
    ensures { (bytes : List ℕ) (count : ℕ) (v w : CommitValue) → Reads (commit_plan bytes) bytes v → count < length bytes
        → Reads (commit_plan (take count bytes)) (take count bytes) w → ⊥ }
{}

/// The pending form of a good commit is not good, and differs in its last byte alone.
pub fn pending_is_not_good()
    ensures not_good { (bytes : List ℕ) (v w : CommitValue) → Reads (commit_plan bytes) bytes v → Reads (commit_plan (pending bytes)) (pending bytes) w → ⊥ }
    ensures others { (bytes : List ℕ) → take (length bytes - 1) (pending bytes) ≡ take (length bytes - 1) bytes }
    ensures length { (bytes : List ℕ) → length (pending bytes) ≡ length bytes }
{}

/// A text spells one name at most, and that is the one that is found in it.
pub fn one_name()
    ensures one { (text : List ℕ) (name other : LuceneName) → SpellsName text name → SpellsName text other → name ≡ other }
    ensures found { (text : List ℕ) (name : LuceneName) → (lucene_name_in text ≡ Some name) ↔ SpellsName text name }
{}

/// A Lucene name may be removed exactly where no commit that is kept has it as its own name or refers to it; no other name may.
pub fn removable_is_unkept()
    ensures unkept { (kept : List KeptValue) (text : List ℕ) (name : LuceneName) → All (λ k. IsCommit k.commit) kept → SpellsName text name
        → (is_removable kept text ≡ true) ↔ ¬ Contains (kept_names kept) name }
    ensures names { (kept : List KeptValue) (text : List ℕ) → is_removable kept text ≡ true → IsLuceneName text }
{}

/// The line of a segment refers to a file of deleted documents exactly where this is the segment's own, of the generation that the
/// line says; and to files of norms of its own segment alone.
pub fn files_are_own()
    ensures deletions { (s : SegInfo) (number generation : ℕ) → Contains (line_names s) (Del number generation) ↔ ((number ≡ s.number) × (s.del_gen ≡ Some generation)) }
    ensures norms { (s : SegInfo) (number generation field : ℕ) → Contains (line_names s) (Sep number generation field) → number ≡ s.number }
{}
