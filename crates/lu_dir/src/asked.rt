//! The path last asked for.
ghost use Rattle.std.specs.Prelude.{◌≡◌, ◌<◌, length, Some, None, OnOk, OnErr};

use arrayvec::ArrayString;
use lu_prims::OutOfMemory;
use std::alloc::Global;
use std::marker::Model;

/// The most bytes of a path that is kept without taking memory: as many as common systems take for a path.
pub const KEPT_IN_PLACE: usize = 4096;

/// A path that is kept: in place, or where it is longer than that in memory of its own.
#[derive(Drop)]
enum KeptPath {
    InPlace(ArrayString<KEPT_IN_PLACE>),
    OnHeap(String),
}

/// The path last asked for, seen as its bytes; none before the first.
#[derive(Drop)]
pub struct AskedPath {
    kept: Option<KeptPath>,
}

impl Model for AskedPath {
    ghost use Rattle.std.specs.Prelude.{ℕ, List, Option, option_map};
    ghost use Rattle.lu_dir.specs.Asked.{path_bytes};

    ghost Value = { Option (List ℕ) };

    ghost view = { λ a. option_map path_bytes a.kept };
}

impl AskedPath {
    pub fn new() -> AskedPath
        ensures { result ≡ None }
    {
        AskedPath { kept: None }
    }

    /// Keeps a path in place of the last one. Only one that is too long to be kept in place takes memory; on an `Err`
    /// nothing changes.
    pub fn keep(&mut self, alloc: Global, path: &str) -> Result<(), OutOfMemory>
        ensures kept { OnOk result (self.new ≡ Some path.now) }
        ensures same { OnErr result (self.new ≡ self.old) }
        ensures room { OnErr result (KEPT_IN_PLACE < length path.now) }
    {
        let kept = match ArrayString::from(path) {
            Ok(short) => KeptPath::InPlace(short),
            Err(_) => KeptPath::OnHeap(String::from_str(alloc, path)?),
        };
        self.kept = Some(kept);
        Ok(())
    }
}
