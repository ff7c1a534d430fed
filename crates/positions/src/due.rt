/// What is known of an occurrence before it is read: whether it is the first of its entry, the index of the entry, the payload
/// length in force, the position before it (0 at the start of an entry), and the place where it starts.
#[derive(Clone, Copy, Debug, PartialEq, Eq)]
pub struct DueOccurrence {
    pub first: bool,
    pub index: u32,
    pub force: u32,
    pub position: u32,
    pub place: usize,
}
