use lu_types::{TermInfo, Text};

/// An entry of the index above entry 0, as the search keeps it: the term before an interval of terms, by the name of its
/// field, its text and what is said of it; and the place in the file of terms where the interval starts.
#[derive(Drop)]
pub(crate) struct Mark<'a> {
    pub(crate) name: &'a str,
    pub(crate) text: Text,
    pub(crate) info: TermInfo,
    pub(crate) place: u32,
}
