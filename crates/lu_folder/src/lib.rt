//! Commits in a folder: which one is current, what is read of it, which numbers a new one draws, and the calls that make it.
//! Whatever fails while a commit is made, the folder reads as before or as the new commit.
#![tactic(auto)]

mod change;
mod choosing;
mod fault;
pub mod laws;
mod new_file;
mod numbering;
mod putting;
mod reading;
mod sealing;
mod sweeping;

pub use change::{Change, commit};
pub use choosing::{Chosen, current, newest};
pub use fault::FolderFault;
pub use new_file::NewFile;
pub use numbering::{next_del, next_generation, next_segment};
pub use putting::{put_file, put_files};
pub use reading::read_segment;
pub use sealing::seal;
pub use sweeping::sweep;
