//! A law of inputs: it stands on a function that does nothing.
ghost use Rattle.std.specs.Prelude.{◌≡◌, ℕ, List, All, Ok, None};
ghost use Rattle.lu_types.specs.declared.document.Document.{Document};
ghost use Rattle.lu_types.specs.declared.document.Limits.{Limits};
ghost use Rattle.lu_types.specs.DocFaults.{doc_fault};
ghost use Rattle.lu_input.specs.Lines.{input_documents};

/// The documents of an input without a faulty line have no fault.
pub fn documents_are_sound()
    ensures { (limits : Limits) (bytes : List ℕ) (documents : List Document) → input_documents limits bytes ≡ Ok documents
        → All (λ document. doc_fault document limits ≡ None) documents }
{}
