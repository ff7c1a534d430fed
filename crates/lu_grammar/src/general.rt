/// Rule: a part of a record ends past the end of the file.
pub const ENDS: u16 = 1;
/// Rule: a number is spelled with more bytes than it needs, or than its kind may have.
pub const LONG_NUMBER: u16 = 2;
/// Rule: a number is over the limit of its kind.
pub const TOO_GREAT: u16 = 3;
/// Rule: the bytes of a text are not UTF-8.
pub const NOT_UTF8: u16 = 4;
/// Rule: a needed file is not there. The offset is 0.
pub const MISSING: u16 = 5;
/// Rule: bytes follow the last record.
pub const TRAILING: u16 = 6;
