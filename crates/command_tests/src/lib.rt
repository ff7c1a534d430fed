//! The tests of the commands over folders in memory: the worked rows, each failed call, a large segment.
//!
//! They stand apart from `lu_command`, since the gate proves a crate with tests twice.
#![tactic(auto)]

#[cfg(test)]
mod build_tests;
#[cfg(test)]
mod check_row_tests;
#[cfg(test)]
mod check_tests;
#[cfg(test)]
mod choosing_tests;
#[cfg(test)]
mod commit_tests;
#[cfg(test)]
mod delete_tests;
#[cfg(test)]
mod docs_tests;
#[cfg(test)]
mod fault_tests;
#[cfg(test)]
mod finishing_tests;
#[cfg(test)]
mod large_tests;
#[cfg(test)]
mod merge_tests;
#[cfg(test)]
mod postings_tests;
#[cfg(test)]
mod run_tests;
#[cfg(test)]
mod show_tests;
#[cfg(test)]
mod words_tests;
