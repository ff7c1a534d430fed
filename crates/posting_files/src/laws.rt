//! What the writer writes: each law stands on a function that does nothing.
ghost use Rattle.std.specs.Prelude.{◌≡◌, ◌⊎◌, ◌<◌, ◌≤◌, ◌-◌, ℕ, Bool, true, List, [], ◌∷◌, ◌++◌, length, map, Result};
ghost use Rattle.lu_model.specs.Index.{frequency, IndexedEntry};
ghost use Rattle.lu_types.specs.Occurrences.{Occurrence};
ghost use Rattle.freq_skips.specs.Written.{last_doc};
ghost use Rattle.posting_files.specs.declared.fault.PostingFault.{PostingFault};
ghost use Rattle.posting_files.specs.declared.writer.PostingFiles.{PostingFiles};
ghost use Rattle.segment_files.specs.Postings.{PostingIntervals, KeptTerm, handed_from, prx_bytes, prx_occurrence, prx_occurrences, parts_of};
ghost use Rattle.posting_files.specs.States.{PostingState, is_within_limit, no_postings, term_begun, entry_begun, occurrence_put, entry_put, term_finished, ArePostings, IsTermBegun, IsEntryBegun, IsProxPast, Finishes, held_files, canonical_postings};

/// The writer holds the canonical files of the terms that it was handed, and of the term that is begun its entries and
/// occurrences, as far as the file of entries is within the limit; and its end answers by the canonical files of all terms.
pub fn postings_written()
    ensures none { (i : PostingIntervals) (limit : ℕ) → ArePostings i limit [] (no_postings limit i) }
    ensures begun { (i : PostingIntervals) (limit : ℕ) (ts : List KeptTerm) (omit payloads : Bool) (s : PostingState) → ArePostings i limit ts s
        → IsTermBegun i limit ts omit payloads [] (term_begun s omit payloads) }
    ensures entry { (i : PostingIntervals) (limit : ℕ) (ts : List KeptTerm) (omit payloads : Bool) (es : List IndexedEntry) (s : PostingState) → IsTermBegun i limit ts omit payloads es s
        → IsEntryBegun i limit ts omit payloads es [] (entry_begun s) × (length s.prox.bytes - s.prox.start ≡ length (prx_bytes payloads es)) }
    ensures occurrence { (i : PostingIntervals) (limit : ℕ) (ts : List KeptTerm) (omit payloads : Bool) (es : List IndexedEntry) (now : List Occurrence) (o : Occurrence) (s : PostingState)
        → IsEntryBegun i limit ts omit payloads es now s → IsEntryBegun i limit ts omit payloads es (now ++ o ∷ []) (occurrence_put s o) }
    ensures ended { (i : PostingIntervals) (limit : ℕ) (ts : List KeptTerm) (omit payloads : Bool) (es : List IndexedEntry) (now : List Occurrence) (e : IndexedEntry) (s : PostingState)
        → prx_occurrences e.occurrences ≡ map prx_occurrence now → IsEntryBegun i limit ts omit payloads es now s
        → IsTermBegun i limit ts omit payloads (es ++ e ∷ []) (entry_put s (record { doc = e.document; freq = frequency e.occurrences; prox = length (prx_bytes payloads es) })) }
    ensures finished { (i : PostingIntervals) (limit : ℕ) (ts : List KeptTerm) (t : KeptTerm) (s : PostingState) → IsTermBegun i limit ts t.omit t.payloads t.term.entries s
        → ArePostings i limit (ts ++ t ∷ []) (term_finished s t.term.field t.term.text) }
    ensures end { (i : PostingIntervals) (limit : ℕ) (ts : List KeptTerm) (s : PostingState) (r : Result PostingFiles PostingFault) → ArePostings i limit ts s
        → Finishes s.lists.limit (held_files s) r → Finishes limit (canonical_postings i ts) r }
{}

/// What the writer asks of a step is so where the terms and entries come in their order.
pub fn postings_may_follow()
    ensures begin { (i : PostingIntervals) (limit : ℕ) (ts : List KeptTerm) (s : PostingState) → ArePostings i limit ts s → is_within_limit s.lists ≡ true → s.lists.freq.entries ≡ [] }
    ensures end { (i : PostingIntervals) (limit : ℕ) (ts : List KeptTerm) (omit payloads : Bool) (es : List IndexedEntry) (now : List Occurrence) (doc : ℕ) (s : PostingState)
        → IsEntryBegun i limit ts omit payloads es now s → es ≡ [] ⊎ last_doc 0 (handed_from payloads 0 es) < doc → is_within_limit s.lists ≡ true
        → s.lists.freq.entries ≡ [] ⊎ last_doc 0 s.lists.freq.entries < doc }
    ensures finish { (i : PostingIntervals) (limit : ℕ) (ts : List KeptTerm) (omit payloads : Bool) (es : List IndexedEntry) (s : PostingState)
        → IsTermBegun i limit ts omit payloads es s → is_within_limit s.lists ≡ true → length s.lists.freq.entries ≡ length es }
{}

/// Where the positions of the terms so far pass the limit, those of all terms do.
pub fn positions_pass()
    ensures terms { (i : PostingIntervals) (limit : ℕ) (ts us : List KeptTerm) (s : PostingState) → ArePostings i limit ts s → IsProxPast s → limit < length (parts_of i (ts ++ us)).prx }
    ensures entries { (i : PostingIntervals) (limit : ℕ) (ts us : List KeptTerm) (t : KeptTerm) (es rest : List IndexedEntry) (s : PostingState)
        → t.term.entries ≡ es ++ rest → IsTermBegun i limit ts t.omit t.payloads es s → IsProxPast s → limit < length (parts_of i (ts ++ t ∷ us)).prx }
{}
