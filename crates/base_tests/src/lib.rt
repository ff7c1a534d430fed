//! The tests of the crates that the codecs stand on: their types, the folders and streams, the input.
//!
//! They stand apart from the crates that they test, since the gate proves a crate with tests twice.
#![tactic(auto)]

#[cfg(test)]
mod lu_dir_tests;
#[cfg(test)]
mod lu_input_tests;
#[cfg(test)]
mod lu_types_tests;
