/// An entry of a directory that was checked: the name of a part, and where its bytes start in the file
/// (format page, "Compound files").
#[derive(Clone, Copy, Debug, PartialEq, Eq)]
pub struct DirectoryEntry<'a> {
    pub name: &'a str,
    pub start: usize,
}
