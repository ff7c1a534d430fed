//! Why an input is no list of documents (format page, "Input").
use lu_prims::OutOfMemory;
use lu_types::DocFault;
use std::alloc::{AllocError, AllocFailed};

/// What is wrong with a line.
#[derive(Clone, Copy, Debug, PartialEq, Eq)]
pub enum LineFault {
    /// It is not one JSON value, or not UTF-8.
    NotJson,
    /// It is a JSON value that has not the shape of a document.
    BadShape,
    /// Its document has this fault first.
    Doc(DocFault),
}

/// The first faulty line, counted from 1, with its fault; or there was no memory.
#[derive(Clone, Copy, Debug, PartialEq, Eq)]
pub enum InputFault {
    /// The line with this number has this fault, and no line before it has one.
    Line(u32, LineFault),
    /// There was no memory.
    OutOfMemory,
}

/// Why nothing was read from a value: it has not the shape that is asked for, or there was no memory.
#[derive(Clone, Copy, Debug, PartialEq, Eq)]
pub enum Misread {
    BadShape,
    OutOfMemory,
}

impl From<OutOfMemory> for Misread {
    ghost use Rattle.std.specs.Prelude.{◌≡◌};
    ghost use Rattle.lu_input.specs.declared.fault.Misread.TheVariants as misread;

    ghost from_gives = { λ _ m. m ≡ misread.OutOfMemory };

    fn from(_error: OutOfMemory) -> Misread {
        Misread::OutOfMemory
    }
}

impl From<AllocError> for Misread {
    ghost use Rattle.std.specs.Prelude.{◌≡◌};
    ghost use Rattle.lu_input.specs.declared.fault.Misread.TheVariants as misread;

    ghost from_gives = { λ _ m. m ≡ misread.OutOfMemory };

    fn from(_error: AllocError) -> Misread {
        Misread::OutOfMemory
    }
}

impl<T: Drop> From<AllocFailed<T>> for Misread {
    ghost use Rattle.std.specs.Prelude.{◌≡◌};
    ghost use Rattle.lu_input.specs.declared.fault.Misread.TheVariants as misread;

    ghost from_gives = { λ _ m. m ≡ misread.OutOfMemory };

    fn from(_error: AllocFailed<T>) -> Misread {
        Misread::OutOfMemory
    }
}
