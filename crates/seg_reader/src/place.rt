//! Where a cursor over the entries of a term stands.
use freq_skips::Entry;

/// Before the first entry; at an entry, of which no occurrence was asked for; within an entry, whose document is open; or at the
/// end.
#[derive(Clone, Copy, Debug, PartialEq, Eq)]
pub enum Place {
    Start,
    At(Entry),
    Within(Entry),
    End,
}
