//! The limit on files.
/// The most bytes of a file that a command reads.
pub const FILE_LIMIT: u64 = 2_147_483_647;
