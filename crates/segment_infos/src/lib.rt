//! Commits: the file `segments_N`, what it says of segments, and the names that files have (format page, "segments_N" and
//! "Names of files").
#![tactic(auto)]

mod commit;
mod infos;
mod judging;
pub mod laws;
mod listing;
mod lists;
mod name_set;
mod naming;
mod numbers;
mod parts;
mod reading;
mod record;
mod removing;
mod segment;
mod stop;
mod taking;
mod writing;

pub use commit::Commit;
pub use infos::{MapPair, SegInfo};
pub use listing::generations;
pub use lists::{MapPairs, NormGens, Segments};
pub use naming::{LuceneName, name_text, name_value};
pub use reading::read;
pub use removing::{Kept, push_del_names, push_norm_names, removable, removable_all};
pub use writing::{write, write_pending};
