use crate::owned::Text;

/// A field as it is written: its name and its bits (format page, "Field tables").
#[derive(Debug, Drop)]
pub struct FieldInfo {
    pub name: Text,
    pub bits: u8,
}

/// A field as it is read: its name, lent from the bytes of the file, and its bits (format page, "Field tables").
#[derive(Clone, Copy, Debug, PartialEq, Eq)]
pub struct Field<'a> {
    pub name: &'a str,
    pub bits: u8,
}
