//! The laws of packed parts: each stands on a function that does nothing.
ghost use Rattle.std.specs.Prelude.{◌≡◌, ℕ, ◌^◌, ◌<◌, List, length, option_map};
ghost use Rattle.lu_grammar.specs.Meaning.{Reads};
ghost use Rattle.lu_types.specs.declared.kind.FileKind.{FileKind};
ghost use Rattle.lu_types.specs.declared.named_file.NamedFile.{NamedFile};
ghost use Rattle.lu_types.specs.Names.{segment_name, part_name, IsPart};
ghost use Rattle.compound_file.specs.Entries.{NamedPart, AreParts, part_named};
ghost use Rattle.compound_file.specs.Cfs.{cfs_plan};
ghost use Rattle.compound_file.specs.Packing.{file_of, packed_parts, cfs_bytes};

/// What is packed of some parts is split into exactly these parts, where it is not too long for its places to be spelled.
pub fn packed_is_split()
    ensures { (parts : List NamedPart) → AreParts parts → length (cfs_bytes parts) < 2 ^ 63
        → Reads (cfs_plan (length (cfs_bytes parts))) (cfs_bytes parts) parts }
{}

/// Only what is packed is split: any bytes that are split into some parts are the one spelling of these parts, in their order.
pub fn only_packed_is_split()
    ensures { (bytes : List ℕ) (parts : List NamedPart) → Reads (cfs_plan (length bytes)) bytes parts → bytes ≡ cfs_bytes parts }
{}

/// Among the packed parts of a segment each of its files is found under its name, and no other.
pub fn packed_is_found()
    ensures { (files : List NamedFile) (number : ℕ) (kind : FileKind) → IsPart kind
        → part_named (part_name (segment_name number) kind) (packed_parts number files) ≡ option_map (λ file. file.bytes) (file_of files kind) }
{}
