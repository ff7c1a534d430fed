//! The segments that are merged.
ghost use Rattle.std.specs.Prelude.{◌≡◌, [], ◌∷◌, ◌++◌, length, OnOk, OnErr};

use seg_reader::SegReader;
use std::alloc::Global;
use std::marker::Model;

/// The segments that are merged, in order.
#[derive(Drop)]
pub struct Sources<'a> {
    readers: Vec<SegReader<'a>>,
}

impl<'a> Model for Sources<'a> {
    ghost use Rattle.std.specs.Prelude.{List};
    ghost use Rattle.check_index.specs.Segments.{SegmentValue};

    ghost Value = { List SegmentValue };

    ghost view = { λ sources. sources.readers.items };
}

/// A segment for which there was no memory, handed back.
#[derive(Drop)]
pub struct Refused<'a>(pub SegReader<'a>);

impl<'a> Sources<'a> {
    /// No segments. Takes no memory.
    pub fn new(alloc: Global) -> Sources<'a>
        ensures { result ≡ [] }
    {
        Sources {
            readers: Vec::new(alloc),
        }
    }

    /// Adds a segment behind the others; it is handed back where there is no memory, and then the segments are as before.
    pub fn push(&mut self, reader: SegReader<'a>) -> Result<(), Refused<'a>>
        ensures ok { OnOk result (self.new ≡ self.old ++ reader.entry ∷ []) }
        ensures err { OnErr result (self.new ≡ self.old) }
    {
        match self.readers.push(reader) {
            Ok(()) => Ok(()),
            Err(refused) => Err(Refused(refused.value)),
        }
    }

    /// The readers of the segments.
    pub(crate) fn readers(&self) -> &[SegReader<'a>]
        ensures { result.now ≡ self.now }
    {
        self.readers.as_slice()
    }
}
