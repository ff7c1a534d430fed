/// Where the marks of deleted documents stand.
#[derive(Clone, Copy, Drop)]
pub enum Form<'a> {
    /// Nowhere: no document is deleted.
    Nothing,
    /// In the body of a dense `.del`.
    Dense(&'a [u8]),
    /// In the pairs of a sparse `.del`, of which these are all bytes.
    Sparse(&'a [u8]),
}
