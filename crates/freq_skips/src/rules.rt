use lu_types::{TermInfo, TermRules};

/// A term: what the dictionary says of it, and what its records are read by.
#[derive(Clone, Copy, Debug, PartialEq, Eq)]
pub struct RuledTerm {
    pub info: TermInfo,
    pub rules: TermRules,
}
