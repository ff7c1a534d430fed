//! The laws of written documents, and the numbers that the format fixes: each stands on a function that does nothing.
ghost use Rattle.std.specs.Prelude.{◌≡◌, ℕ, List, length, Some, pos};
ghost use Rattle.lu_types.specs.declared.stored.Window.{Window};
ghost use Rattle.lu_types.specs.FilePlans.{StandFor};
ghost use Rattle.lu_grammar.specs.Bytes.{IsBytes};
ghost use Rattle.lu_types.specs.Stores.{windowed, header_length, greatest_place};
ghost use Rattle.stored_fields.specs.Format.{store_format, place_length, bit_tokenized, bit_binary};
ghost use Rattle.stored_fields.specs.Values.{StoredDocument};
ghost use Rattle.stored_fields.specs.Stores.{store_files};
ghost use Rattle.stored_fields.specs.Writing.{AreStorable, IsCheckable, fdx_bytes, fdt_bytes};

use crate::layout::{GREATEST_PLACE, HEADER_BYTES, PLACE_BYTES, STORE_FORMAT};
use crate::value::{BINARY, TOKENIZED};

/// What the writer gives for some documents is read as exactly these documents, through any window of them.
pub fn written_is_read()
    ensures { (documents : List StoredDocument) (fields : ℕ) (window : Window) → AreStorable documents → IsCheckable fields window documents
        → StandFor (store_files (λ _. length documents) (λ _. window) fields (Some (fdx_bytes documents)) (Some (fdt_bytes documents)))
        (windowed window documents) }
{}

/// Nothing else is read so: two files that are read as a store are what the writer gives for some documents, and are read as those
/// of them that the window has.
pub fn only_written_is_read()
    ensures { (fdx fdt : List ℕ) (fields total : ℕ) (window : Window) (seen : List StoredDocument) → IsBytes fdx → IsBytes fdt
        → StandFor (store_files (λ _. total) (λ _. window) fields (Some fdx) (Some fdt)) seen
        → (documents : List StoredDocument) × (fdx ≡ fdx_bytes documents) × (fdt ≡ fdt_bytes documents) × AreStorable documents × (length documents ≡ total)
        × (seen ≡ windowed window documents) }
{}

/// The numbers of the code are those that the definitions have.
pub fn numbers_are_fixed()
    ensures files { (STORE_FORMAT ≡ store_format) × (HEADER_BYTES ≡ header_length) × (PLACE_BYTES ≡ place_length) × (GREATEST_PLACE ≡ pos greatest_place) }
    ensures bits { (TOKENIZED ≡ bit_tokenized) × (BINARY ≡ bit_binary) }
{}
