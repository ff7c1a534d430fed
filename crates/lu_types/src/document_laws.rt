//! The laws of documents and their tables: each stands on a function that does nothing.
ghost use Rattle.std.specs.Prelude.{◌≡◌, ◌≤◌, List, length, Contains, None};
ghost use Rattle.lu_types.specs.Tables.{TableField};
ghost use Rattle.lu_types.specs.Joins.{Covers};
ghost use Rattle.lu_types.specs.DocFaults.{doc_fault, IsSound};
ghost use Rattle.lu_types.specs.declared.document.Document.{Document};
ghost use Rattle.lu_types.specs.declared.document.Limits.{Limits};

/// A document without a fault breaks no limit, and one that breaks none has no fault.
pub fn sound_documents()
    ensures sound { (doc : Document) (limits : Limits) → doc_fault doc limits ≡ None → IsSound doc limits }
    ensures only { (doc : Document) (limits : Limits) → IsSound doc limits → doc_fault doc limits ≡ None }
{}

/// A document without a fault has no more indexed fields than a table that covers it.
pub fn few_indexed_fields()
    ensures { (table : List TableField) (docs : List Document) (doc : Document) (limits : Limits)
        → Contains docs doc → doc_fault doc limits ≡ None → Covers table docs → length doc.indexed ≤ length table }
{}
