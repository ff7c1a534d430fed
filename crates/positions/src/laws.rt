//! Laws on the terms of a file.
ghost use Rattle.std.specs.Prelude.{◌≡◌, ◌<◌, ◌^◌, ◌+◌, ◌-◌, ℕ, Bool, false, slice_index_or, List, [], ◌∷◌, ◌++◌, length};
ghost use Rattle.lu_types.specs.RuleNumbers as number;
ghost use Rattle.lu_grammar.specs.Bytes.{IsBytes, Cursor, place_in};
ghost use Rattle.lu_grammar.specs.Meaning.{Reads, ReadsTo, FirstFault};
ghost use Rattle.lu_types.specs.Occurrences.{Occurrence};
ghost use Rattle.freq_skips.specs.declared.rules.RuledTerm.{RuledTerm};
ghost use Rattle.freq_skips.specs.Entries.{no_posting};
ghost use Rattle.freq_skips.specs.Terms.{TermData, term_plan as frq_term_plan};
ghost use Rattle.freq_skips.specs.declared.writer.Handed.{Handed};
ghost use Rattle.freq_skips.specs.Writing.{IsAsHanded};
ghost use Rattle.positions.specs.Beside.{IsBeside};
ghost use Rattle.freq_skips.specs.ProxPlaces.{HasProxPlaces};
ghost use Rattle.positions.specs.Cursors.{StandsInBoth};
ghost use Rattle.positions.specs.Occurrences.{PostedTerm};
ghost use Rattle.positions.specs.Written.{occurrences_bytes, AreGoodOccurrences, IsHanded};
ghost use Rattle.positions.specs.Writing.{WriterState, occurrences_begun, document_begun, occurrence_added, HoldsTerm, HoldsDocument};
ghost use Rattle.positions.specs.Terms.{IsTermFault, AreTermsUpTo, term_plan, terms_plan};

/// The terms of a file in turn: where each is good from where the one before ends, and the file ends with the last, the bytes
/// read as the whole file; a fault of one of them is the first fault of the file, and so are bytes behind the last.
pub fn terms_in_turn()
    ensures none { (prx : List ℕ) → IsBytes prx → AreTermsUpTo [] prx 0 [] }
    ensures more { (terms : List PostedTerm) (values : List (List (List Occurrence))) (p : PostedTerm) (prx : List ℕ) (place end : ℕ) (value : List (List Occurrence)) → IsBytes prx
        → AreTermsUpTo terms prx place values → ReadsTo (term_plan p) (place_in prx place) value (place_in prx end) → AreTermsUpTo (terms ++ p ∷ []) prx end (values ++ value ∷ []) }
    ensures whole { (terms : List PostedTerm) (values : List (List (List Occurrence))) (prx : List ℕ) → AreTermsUpTo terms prx (length prx) values → Reads (terms_plan terms) prx values }
    ensures fault { (terms : List PostedTerm) (values : List (List (List Occurrence))) (p : PostedTerm) (rest : List PostedTerm) (prx : List ℕ) (place offset rule : ℕ) → IsBytes prx
        → AreTermsUpTo terms prx place values → IsTermFault p (place_in prx place) offset rule → FirstFault (terms_plan (terms ++ p ∷ rest)) prx offset rule }
    ensures trailing { (terms : List PostedTerm) (values : List (List (List Occurrence))) (prx : List ℕ) (place : ℕ) → IsBytes prx → AreTermsUpTo terms prx place values → place < length prx
        → FirstFault (terms_plan terms) prx place number.trailing }
{}

/// A term that stands in both files, of which no byte of `.prx` is at 2^31 or behind: there are numbers of bytes of positions
/// before its entries, and its skip data tell these. So its points can be looked up.
pub fn skip_data_lead()
    ensures { (t : RuledTerm) (value : TermData) (prx : List ℕ) (occurrences : List (List Occurrence)) → IsBytes prx → StandsInBoth t value prx occurrences → t.info.prox < 2 ^ 31 → length prx < 2 ^ 31
        → (prox : ℕ → ℕ) × HasProxPlaces t value prox }
{}

/// What a writer does: it begins a term with no entry; it begins a document, and answers how many bytes the entries before it have;
/// with each occurrence it holds what it held and that occurrence at the end of the document.
pub fn what_is_held()
    ensures begun { (w : WriterState) (payloads : Bool) → HoldsTerm (occurrences_begun w payloads) payloads w.bytes [] }
    ensures document { (w : WriterState) (payloads : Bool) (written : List ℕ) (entries : List (List Occurrence)) → HoldsTerm w payloads written entries → HoldsDocument (document_begun w) payloads written entries [] }
    ensures so_far { (w : WriterState) (payloads : Bool) (written : List ℕ) (entries : List (List Occurrence)) → HoldsTerm w payloads written entries → length w.bytes - w.start ≡ length (occurrences_bytes payloads entries) }
    ensures added { (w : WriterState) (payloads : Bool) (written : List ℕ) (entries : List (List Occurrence)) (now : List Occurrence) (o : Occurrence) → HoldsDocument w payloads written entries now
        → HoldsDocument (occurrence_added w o) payloads written entries (now ++ o ∷ []) }
{}

/// What is written of the occurrences of a term, of which the skip data tell the places, is read as these, whatever follows.
pub fn written_is_read()
    ensures { (p : PostedTerm) (written : List ℕ) (entries : List (List Occurrence)) (prx rest : List ℕ) → IsHanded p (length written) entries → prx ≡ written ++ (occurrences_bytes p.term.rules.payloads entries ++ rest) → IsBytes prx
        → ReadsTo (term_plan p) (place_in prx (length written)) entries (place_in prx (length written + length (occurrences_bytes p.term.rules.payloads entries))) }
{}

/// The occurrences and the entries of a term that were written together stand together: where the writer of entries is handed for
/// each entry its frequency and the bytes of positions that `begin_doc` answered, both parts of the term are good, and they stand
/// for what was handed over.
pub fn written_together()
    ensures { (t : RuledTerm) (value : TermData) (handed : List Handed) (written : List ℕ) (entries : List (List Occurrence)) (frq : List ℕ) (behind : Cursor) (prx rest : List ℕ) → IsAsHanded t handed value
        → IsBeside t handed written entries → ReadsTo (frq_term_plan t) (place_in frq t.info.freq) value behind → prx ≡ written ++ (occurrences_bytes t.rules.payloads entries ++ rest) → IsBytes prx
        → StandsInBoth t value prx entries }
{}

/// What the occurrences of a term are that stands in both files: those of an entry are as many as its frequency, their positions do
/// not fall and are below 2^31, and their payloads are bytes, fewer than 2^31, and none in a field without payloads.
pub fn occurrences_are_good()
    ensures { (t : RuledTerm) (value : TermData) (prx : List ℕ) (occurrences : List (List Occurrence)) (k : ℕ) → IsBytes prx → StandsInBoth t value prx occurrences → t.rules.omit_tf ≡ false → k < t.info.doc_freq
        → AreGoodOccurrences t.rules.payloads 0 (slice_index_or occurrences k []) × (length (slice_index_or occurrences k []) ≡ (slice_index_or value.postings k no_posting).freq) }
{}
