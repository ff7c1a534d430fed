//! The commands that make a commit, up to what they come to: `build`, `delete` and `merge`, and what each makes of what a folder
//! stands for.
#![tactic(auto)]

pub mod basis;
pub mod build_laws;
pub mod building;
pub mod delete_laws;
pub mod deleting;
pub mod marking;
pub mod merge_laws;
pub mod merging;
pub mod new_segment;
