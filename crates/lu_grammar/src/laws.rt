//! The laws of spellings, records and plans: each stands on a function that does nothing.
ghost use Rattle.std.specs.Prelude.{◌≡◌, ℕ, ◌+◌, List, ◌++◌, length, drop, Ok, Err, ◌↔◌};
ghost use Rattle.lu_grammar.specs.declared.bad.Bad.{Bad};
ghost use Rattle.lu_grammar.specs.Bytes.{IsBytes, Cursor, start_of};
ghost use Rattle.lu_grammar.specs.Parts.{Part, Value, IsValue, IsSpelling, spelling, HasNone, IsWrong};
ghost use Rattle.lu_grammar.specs.Reading.{read};
ghost use Rattle.lu_grammar.specs.Records.{Shape, Condition};
ghost use Rattle.lu_grammar.specs.Plans.{Plan, Broken, read_plan, read_file};
ghost use Rattle.lu_grammar.specs.Meaning.{Spelled, IsGood, AreGood, due_after, bytes_of, BreaksHere, ReadsTo, Reads, FaultFrom, FirstFault};

/// No spelling of a part begins another of that part: what spells one value spells no other, whatever follows.
pub fn one_spelling()
    ensures { (p : Part) (v w : Value p) (a b x y : List ℕ) → IsSpelling p v a → IsSpelling p w b
        → a ++ x ≡ b ++ y → (v ≡ w) × (a ≡ b) × (x ≡ y) }
{}

/// What is spelled is read, whatever follows; and what is read is spelled so.
pub fn spelled_and_read()
    ensures spelled { (p : Part) (v : Value p) (rest : List ℕ) → IsValue p v
        → read p (spelling p v ++ rest) ≡ Ok (v, length (spelling p v)) }
    ensures read_back { (p : Part) (bytes : List ℕ) (v : Value p) (n : ℕ) → IsBytes bytes → read p bytes ≡ Ok (v, n)
        → IsValue p v × (bytes ≡ spelling p v ++ drop n bytes) × (n ≡ length (spelling p v)) }
{}

/// Reading fails exactly where no spelling of the part begins the bytes, and answers what is wrong there.
pub fn no_spelling()
    ensures wrong { (p : Part) (bytes : List ℕ) (bad : Bad) → IsBytes bytes → (read p bytes ≡ Err bad) ↔ IsWrong p bytes bad }
    ensures none { (p : Part) (bytes : List ℕ) → IsBytes bytes → ((bad : Bad) × (read p bytes ≡ Err bad)) ↔ HasNone p bytes }
{}

/// A good record begins no other that is good at its place.
pub fn one_record<R>()
    ensures { (shape : Shape R) (conditions : R → List Condition) (s t : Spelled R) (x y : List ℕ)
        → IsGood shape conditions s → IsGood shape conditions t → s.front ++ x ≡ t.front ++ y → (s.it ≡ t.it) × (s.front ≡ t.front) × (x ≡ y) }
{}

/// Bytes have at most one value, and none where they have a fault.
pub fn one_reading<V, R>()
    ensures value { (plan : Plan V R) (bytes : List ℕ) (v w : V) → Reads plan bytes v → Reads plan bytes w → v ≡ w }
    ensures no_fault { (plan : Plan V R) (bytes : List ℕ) (v : V) (offset rule : ℕ) → IsBytes bytes → Reads plan bytes v → FirstFault plan bytes offset rule → ⊥ }
{}

/// Bytes have at most one first fault.
pub fn one_fault<V, R>()
    ensures { (plan : Plan V R) (bytes : List ℕ) (offset rule other_offset other_rule : ℕ) → IsBytes bytes
        → FirstFault plan bytes offset rule → FirstFault plan bytes other_offset other_rule → (offset ≡ other_offset) × (rule ≡ other_rule) }
{}

/// Good records with a broken rule at their end: that list is the longest, and the first fault stands there.
pub fn local_fault<V, R>()
    ensures { (plan : Plan V R) (from : Cursor) (records : List (Spelled R)) (more : List ℕ) (rule : ℕ) → IsBytes from.rest
        → AreGood plan from.place records → from.rest ≡ bytes_of records ++ more
        → BreaksHere (due_after plan from.place records) (from.place + length (bytes_of records)) more rule
        → FaultFrom plan from (from.place + length (bytes_of records)) rule }
{}

/// Reading judges every plan: it answers what the records stand for, or the first fault.
pub fn reading_judges<V, R>()
    ensures reads { (plan : Plan V R) (from : Cursor) (v : V) (to : Cursor) → IsBytes from.rest → (read_plan plan from ≡ Ok (v, to)) ↔ ReadsTo plan from v to }
    ensures fault { (plan : Plan V R) (from : Cursor) (b : Broken) → IsBytes from.rest → read_plan plan from ≡ Err b → FaultFrom plan from b.offset b.rule }
    ensures file { (plan : Plan V R) (bytes : List ℕ) (v : V) → IsBytes bytes → (read_file plan bytes ≡ Ok v) ↔ Reads plan bytes v }
    ensures first_fault { (plan : Plan V R) (bytes : List ℕ) (b : Broken) → IsBytes bytes → (read_file plan bytes ≡ Err b) ↔ FirstFault plan bytes b.offset b.rule }
{}

/// The spellings of good records are read again as these records, and then what is due after them, whatever follows.
pub fn reading_again<V, R>()
    ensures { (plan : Plan V R) (place : ℕ) (records : List (Spelled R)) (rest : List ℕ) → AreGood plan place records
        → read_plan plan (record { place = place; rest = bytes_of records ++ rest })
        ≡ read_plan (due_after plan place records) (record { place = place + length (bytes_of records); rest = rest }) }
{}
