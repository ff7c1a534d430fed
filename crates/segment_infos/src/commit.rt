//! A commit.
use crate::lists::{MapPairs, Segments};
use std::marker::Model;

/// A commit: what a good `segments_N` stands for (format page, "segments_N").
#[derive(Drop)]
pub struct Commit {
    /// Rises with each commit; below 2^63.
    pub version: u64,
    /// Segment names from this number on are free, where the writer that counted it is asked; below 2^31.
    pub counter: u32,
    pub segments: Segments,
    pub user: MapPairs,
}

impl Model for Commit {
    ghost use Rattle.segment_infos.specs.Values.{CommitValue, IsCommit};

    ghost Value = { CommitValue };

    ghost view = { λ c. record { version = c.version; counter = c.counter; segments = c.segments; user = c.user } };

    ghost invariant = { λ c. IsCommit (record { version = c.version; counter = c.counter; segments = c.segments; user = c.user }) };
}
