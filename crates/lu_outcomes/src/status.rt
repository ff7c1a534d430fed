//! The answers of a call, and their exit numbers.
ghost use Rattle.std.specs.Prelude.{◌≡◌};
ghost use Rattle.lu_outcomes.specs.Codes.{code_of};

use lu_input::LineFault;
use lu_types::{Fault, FileKind};

/// A thing of the outside that failed.
#[derive(Clone, Copy, Debug, PartialEq, Eq)]
pub enum Which {
    /// The folder.
    Dir,
    /// The input.
    Source,
    /// The output.
    Sink,
}

/// Why a call whose words have a meaning was refused.
#[derive(Clone, Copy, Debug, PartialEq, Eq)]
pub enum Refusal {
    /// This is the first file that the command came to read and that has over 2^31 - 1 bytes.
    FileTooLarge(FileKind),
    /// This line of the input, counted from 1, is the first faulty one, with its fault.
    Line(u32, LineFault),
    /// The input has more than 2^31 - 1 bytes.
    InputTooLarge,
    /// This is the first file of the new segment that would have over 2^31 - 1 bytes.
    TooLarge(FileKind),
    /// All segments together would have over 2^31 - 2 documents.
    TooMany,
    /// The greatest generation of a commit in the folder is 2^63 - 1.
    GenerationFull,
    /// The version of the commit is 2^63 - 1.
    VersionFull,
    /// The number of the new segment would be over 2^31 - 2.
    CounterFull,
    /// The generation of the new file of deleted documents would be over 2^63 - 1, of the segment at this place in the commit, counted
    /// from 0, the first of which this is so.
    DelGenFull(u32),
}

/// What a call answers.
#[derive(Clone, Copy, Debug, PartialEq, Eq)]
pub enum Status {
    /// The command was done, and its text was written whole.
    Ok,
    /// A needed file is absent or not good: the generation of the commit, 0 for a command that needs none, and the first
    /// fault.
    NotStanding(u64, Fault),
    /// The words have no meaning.
    Usage,
    /// The call was refused.
    Refused(Refusal),
    /// The device failed: a fault of this thing of the outside was counted in the call.
    Device(Which),
    /// There was no memory.
    NoMemory,
    /// The folder has no commit.
    NoIndex,
    /// The commit was made, and a failure of the folder was counted in the call: names without use may be left.
    LeftBehind,
}

impl Status {
    /// The exit number of the program.
    pub fn code(&self) -> u8
        ensures { result ≡ code_of self.now }
    {
        match self {
            Status::Ok => 0,
            Status::NotStanding(..) => 1,
            Status::Usage => 2,
            Status::Refused(_) => 3,
            Status::Device(_) => 4,
            Status::NoMemory => 5,
            Status::NoIndex => 6,
            Status::LeftBehind => 7,
        }
    }
}
