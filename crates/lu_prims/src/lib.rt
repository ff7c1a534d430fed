//! Numbers, texts, order and checksum: the parts that files are made of.
#![tactic(auto)]

mod base36;
mod checksum;
mod counter;
mod cur;
mod front;
mod memory;
mod put;
mod quoting;
mod texts;
mod utf16;

pub use base36::{base36_tells_apart, base36_text, base36_value};
pub use checksum::{crc32, crc32_divides};
pub use counter::Steps;
pub use cur::Cur;
pub use lu_grammar::Bad;
pub use memory::OutOfMemory;
pub use put::{put_i32, put_i64, put_text, put_vint, put_vlong};
pub use quoting::{quoted, quoted_texts};
pub use texts::{follow, follow_text};
pub use utf16::{tail_cmp, utf16_cmp, utf16_order};

#[cfg(test)]
mod tests;
