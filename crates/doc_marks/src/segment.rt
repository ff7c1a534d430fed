/// The segment whose deleted documents are asked for.
#[derive(Clone, Copy, Drop)]
pub struct Segment {
    /// How many documents it has.
    pub size: u32,
    /// How many of them are deleted.
    pub count: u32,
}
