//! The tests of the files of a segment and of a commit, each by itself.
//!
//! They stand apart from the crates that they test, since the gate proves a crate with tests twice.
#![tactic(auto)]

#[cfg(test)]
mod compound_file_tests;
#[cfg(test)]
mod doc_marks_tests;
#[cfg(test)]
mod field_infos_tests;
#[cfg(test)]
mod freq_skips_drawn_tests;
#[cfg(test)]
mod freq_skips_tests;
#[cfg(test)]
mod positions_drawn_tests;
#[cfg(test)]
mod positions_tests;
#[cfg(test)]
mod segment_infos_drawn_tests;
#[cfg(test)]
mod segment_infos_name_tests;
#[cfg(test)]
mod segment_infos_tests;
#[cfg(test)]
mod stored_fields_tests;
#[cfg(test)]
mod term_dict_tests;
#[cfg(test)]
mod term_index_drawn_tests;
#[cfg(test)]
mod term_index_tests;
#[cfg(test)]
mod term_vectors_drawn_tests;
#[cfg(test)]
mod term_vectors_handing;
#[cfg(test)]
mod term_vectors_tests;
#[cfg(test)]
mod term_vectors_writer_tests;
