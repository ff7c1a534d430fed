//! The tests of whole segments: checked, written, read and merged.
//!
//! They stand apart from the crates that they test, since the gate proves a crate with tests twice.
#![tactic(auto)]

#[cfg(test)]
mod check_index_tests;
#[cfg(test)]
mod lu_listing_tests;
#[cfg(test)]
mod posting_files_tests;
#[cfg(test)]
mod seg_merger_tests;
#[cfg(test)]
mod seg_reader_samples;
#[cfg(test)]
mod seg_reader_tests;
#[cfg(test)]
mod seg_writer_tests;
#[cfg(test)]
mod standing_tests;
