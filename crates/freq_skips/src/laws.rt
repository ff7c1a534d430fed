//! Laws on the terms of a file.
ghost use Rattle.std.specs.Prelude.{◌≡◌, ◌<◌, ◌≤◌, ◌+◌, ◌^◌, ℕ, List, [], ◌∷◌, ◌++◌, length};
ghost use Rattle.lu_types.specs.RuleNumbers as number;
ghost use Rattle.lu_grammar.specs.Bytes.{IsBytes, Cursor, place_in};
ghost use Rattle.lu_grammar.specs.Meaning.{Reads, ReadsTo, FirstFault};
ghost use Rattle.freq_skips.specs.declared.rules.RuledTerm.{RuledTerm};
ghost use Rattle.freq_skips.specs.Writing.{FrqWriting, prox_of, finished, term_written, IsFinishable, IsAsHanded};
ghost use Rattle.freq_skips.specs.Points.{HasKnownPlaces};
ghost use Rattle.freq_skips.specs.Sound.{IsSoundTermData};
ghost use Rattle.freq_skips.specs.Terms.{TermData, IsTermFault, AreTermsUpTo, term_plan, terms_plan};

/// The terms of a file in turn: where each is good from where the one before ends, and the file ends with the last, the bytes
/// read as the whole file; a fault of one of them is the first fault of the file, and so are bytes behind the last.
pub fn terms_in_turn()
    ensures none { (frq : List ℕ) → IsBytes frq → AreTermsUpTo [] frq 0 [] }
    ensures more { (terms : List RuledTerm) (values : List TermData) (t : RuledTerm) (frq : List ℕ) (place end : ℕ) (value : TermData) → IsBytes frq → AreTermsUpTo terms frq place values
        → ReadsTo (term_plan t) (place_in frq place) value (place_in frq end) → AreTermsUpTo (terms ++ t ∷ []) frq end (values ++ value ∷ []) }
    ensures whole { (terms : List RuledTerm) (values : List TermData) (frq : List ℕ) → AreTermsUpTo terms frq (length frq) values → Reads (terms_plan terms) frq values }
    ensures fault { (terms : List RuledTerm) (values : List TermData) (t : RuledTerm) (rest : List RuledTerm) (frq : List ℕ) (place offset rule : ℕ) → IsBytes frq → AreTermsUpTo terms frq place values
        → IsTermFault t (place_in frq place) offset rule → FirstFault (terms_plan (terms ++ t ∷ rest)) frq offset rule }
    ensures trailing { (terms : List RuledTerm) (values : List TermData) (frq : List ℕ) (place : ℕ) → IsBytes frq → AreTermsUpTo terms frq place values → place < length frq → FirstFault (terms_plan terms) frq place number.trailing }
{}

/// The term that a writer finishes, of entries in order, is good in the file, whatever follows, and stands for the entries that
/// were handed over.
pub fn written_is_read()
    ensures { (w : FrqWriting) (documents field prox : ℕ) (frq rest : List ℕ) → IsFinishable w documents → frq ≡ (finished w).bytes ++ rest → IsBytes frq
        → (value : TermData) × IsAsHanded (term_written w documents field prox) w.entries value
        × ReadsTo (term_plan (term_written w documents field prox)) (place_in frq (length w.bytes)) value (place_in frq (length (finished w).bytes)) }
{}

/// The skip data of the term that a writer finishes tell the bytes of positions that were handed over with its entries, so that
/// its points can be looked up.
pub fn written_has_places()
    ensures { (w : FrqWriting) (documents field prox : ℕ) (frq rest : List ℕ) → IsFinishable w documents → ((k : ℕ) → k < length w.entries → prox + prox_of w.omit w.entries k < 2 ^ 31)
        → frq ≡ (finished w).bytes ++ rest → IsBytes frq → HasKnownPlaces (term_written w documents field prox).info (term_written w documents field prox).rules frq }
{}

/// A term that is good has as many entries as the dictionary says; their documents rise, and are below the number of documents;
/// each frequency is at least 1; and the skip data lead to the entries that they belong to.
pub fn good_is_sound()
    ensures { (t : RuledTerm) (frq : List ℕ) (value : TermData) (end : Cursor) → IsBytes frq → 2 ≤ t.rules.skip_interval → t.info.freq ≤ length frq
        → ReadsTo (term_plan t) (place_in frq t.info.freq) value end → IsSoundTermData t value }
{}
