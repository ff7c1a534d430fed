/// Why no value of a part stands at the front of some bytes (format page, "Numbers and texts").
#[derive(Clone, Copy, Debug, PartialEq, Eq)]
pub enum Bad {
    /// The bytes end before the part does.
    Ends,
    /// A number has more bytes than it needs, or than its kind may have.
    LongNumber,
    /// A number is over the limit of its kind.
    TooGreat,
    /// The bytes of a text are not UTF-8.
    NotUtf8,
}
