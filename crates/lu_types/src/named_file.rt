use crate::kind::FileKind;
use crate::owned::Bytes;

/// A file of a segment, or of a shared store: its kind, by which it is named, and its bytes.
#[derive(Debug, Drop)]
pub struct NamedFile {
    pub kind: FileKind,
    pub bytes: Bytes,
}
